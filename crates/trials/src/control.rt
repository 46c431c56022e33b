//! Conditions, choices, loops and errors within one another: each script's output against a machine that goes from line to
//! line and knows nothing of trees.

use crate::generator::Generator;
use crate::running::{RAISED, printed};
use crate::statements::{Line, Word, any_lines, plain, spell_name, template};
use crate::tally::Tally;
use crate::writing::{decimal, shown};
use pl_base::NoMemory;
use std::alloc::Global;
use std::sync::Wait;
use std::thread::Threads;

/// Many times the lines that one script carries out.
const STEPS: u32 = 100_000;

/// Past the last line of any script.
const NOWHERE: usize = usize::MAX;

/// The line that comes next, the values of the variables, how many passes the loop at a line has behind it, and what
/// was printed.
#[derive(Drop)]
struct Machine {
    next: usize,
    values: Vec<i64>,
    done: Vec<i64>,
    printed: Vec<u8>,
}

/// The first line from here on with this word, of a block that begins before.
fn place_of(lines: &[Line], from: usize, word: Word) -> usize {
    for (place, line) in lines.iter().enumerate() {
        if place >= from && line.head < from && line.word as u8 == word as u8 {
            return place;
        }
    }
    NOWHERE
}

fn behind(lines: &[Line], from: usize, word: Word) -> usize {
    place_of(lines, from, word).saturating_add(1)
}

impl Machine {
    fn new(alloc: Global, lines: &[Line]) -> Result<Machine, NoMemory> {
        let mut done = Vec::new(alloc);
        for _ in 0..lines.len() {
            done.push(0)?;
        }
        Ok(Machine {
            next: 0,
            values: Vec::from_slice(alloc, &[0, 1, 2])?,
            done,
            printed: Vec::from_slice(alloc, b"x = 0\ny = 1\nz = 2\n")?,
        })
    }

    fn value(&self, name: usize) -> i64 {
        self.values.get(name).copied().unwrap_or(0)
    }

    fn operand(&self, line: Line) -> i64 {
        self.values.get(line.other).copied().unwrap_or(line.count)
    }

    fn holds(&self, line: Line) -> bool {
        let left = self.value(line.name);
        line.operator.value(left, self.operand(line)) != 0
    }

    fn assign(&mut self, name: usize, number: i64) {
        if let Some(value) = self.values.get_mut(name) {
            *value = number;
        }
    }

    fn set_done(&mut self, head: usize, passes: i64) {
        if let Some(done) = self.done.get_mut(head) {
            *done = passes;
        }
    }

    fn show(&mut self, name: usize) -> Result<(), NoMemory> {
        let value = self.value(name);
        spell_name(&mut self.printed, name)?;
        self.printed.extend_from_slice(b" = ")?;
        decimal(&mut self.printed, value)?;
        self.printed.push(b'\n')?;
        Ok(())
    }

    fn print(&mut self, name: usize) -> Result<(), NoMemory> {
        let value = self.value(name);
        decimal(&mut self.printed, value)?;
        self.printed.push(b',')?;
        Ok(())
    }

    fn raise(&mut self, lines: &[Line]) -> Result<(), NoMemory> {
        self.next = behind(lines, self.next, Word::Catch);
        if self.next == NOWHERE {
            self.printed.extend_from_slice(RAISED)?;
        }
        Ok(())
    }

    /// Whether a part of a block is taken, or its end, where no part before was.
    fn takes(&self, line: Line, chosen: i64) -> bool {
        match line.word {
            Word::ElseIf => self.holds(line),
            Word::Case => line.count == chosen,
            Word::Else | Word::Otherwise | Word::End => true,
            _ => false,
        }
    }

    /// Goes behind the first part of a block that is taken.
    fn choose(&mut self, lines: &[Line], head: usize, chosen: i64) {
        for (place, line) in lines.iter().enumerate() {
            if place > head && line.head == head && self.takes(*line, chosen) {
                self.next = place.saturating_add(1);
                return;
            }
        }
    }

    /// Begins a loop's next pass, or goes behind the loop.
    fn pass(&mut self, lines: &[Line], line: Line, done: i64) {
        let is_for = line.word as u8 == Word::For as u8;
        let first = line.head.saturating_add(1);
        if done < line.count && (is_for || self.holds(line)) {
            self.set_done(line.head, done.saturating_add(1));
            if is_for {
                self.assign(line.name, line.index(done));
            }
            self.next = first;
        } else {
            self.next = behind(lines, first, Word::Again);
        }
    }

    fn pass_again(&mut self, lines: &[Line], head: usize) {
        let done = self.done.get(head).copied().unwrap_or(0);
        if let Some(line) = lines.get(head) {
            self.pass(lines, *line, done);
        }
    }

    fn step(&mut self, lines: &[Line], line: Line) -> Result<(), NoMemory> {
        self.next = self.next.saturating_add(1);
        match line.word {
            Word::Assign | Word::Hide => {
                let number = self.operand(line).wrapping_add(line.number);
                self.assign(line.name, number);
                if line.word as u8 == Word::Assign as u8 {
                    self.show(line.name)?;
                }
            }
            Word::Print => self.print(line.name)?,
            Word::Raise => self.raise(lines)?,
            Word::Break => self.next = behind(lines, self.next, Word::Again),
            Word::Continue => self.next = place_of(lines, self.next, Word::Again),
            Word::Return => self.next = NOWHERE,
            Word::If if self.holds(line) => (),
            Word::If => self.choose(lines, line.head, 0),
            Word::Switch => {
                let chosen = self.value(line.name) & 3;
                self.choose(lines, line.head, chosen);
            }
            Word::Try | Word::End => (),
            Word::While | Word::For => self.pass(lines, line, 0),
            Word::Again => self.pass_again(lines, line.head),
            Word::ElseIf | Word::Else | Word::Case | Word::Otherwise | Word::Catch => {
                self.next = behind(lines, self.next, Word::End);
            }
        }
        Ok(())
    }
}

/// What the lines print. Where all were gone through, the values are shown last.
fn answer(alloc: Global, lines: &[Line]) -> Result<Vec<u8>, NoMemory> {
    let mut machine = Machine::new(alloc, lines)?;
    for _ in 0..STEPS {
        let Some(line) = lines.get(machine.next) else {
            break;
        };
        machine.step(lines, *line)?;
    }
    if machine.next != NOWHERE {
        shown(&mut machine.printed, &machine.values)?;
    }
    Ok(machine.printed)
}

pub fn run<R: Threads + Wait + Sync>(
    rt: &R,
    alloc: Global,
    generator: &mut Generator,
    count: u32,
    tally: &mut Tally,
) -> Result<(), NoMemory> {
    let mut inputs = Vec::new(alloc);
    let mut wanted = Vec::new(alloc);
    for _ in 0..count {
        let lines = any_lines(alloc, generator)?;
        let template = template(alloc, &lines)?;
        inputs.push(plain(alloc, &template)?)?;
        wanted.push(answer(alloc, &lines)?)?;
    }
    let got = printed(rt, alloc, &inputs)?;
    tally.compare(alloc, &inputs, &wanted, &got)
}
