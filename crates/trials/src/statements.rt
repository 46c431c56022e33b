//! Random statements over three number variables, as lines: a line is a statement, or it begins a block, a part of one, or
//! ends it. They are spelled as a template: a blank stands where white space may stand, a line end where a comma may too,
//! and `$` where any separator may.

use crate::generator::Generator;
use crate::operators::Binary;
use crate::writing::{count, decimal};
use pl_base::NoMemory;
use std::alloc::Global;

const NAMES: &[u8; 3] = b"xyz";

/// How many blocks stand within one another at most.
const DEPTH: usize = 3;

/// `Hide` assigns behind a semicolon, and `Again` is the end of a loop.
#[derive(Clone, Copy)]
pub enum Word {
    Assign,
    Hide,
    Print,
    Raise,
    Break,
    Continue,
    Return,
    If,
    ElseIf,
    Else,
    Switch,
    Case,
    Otherwise,
    Try,
    Catch,
    End,
    While,
    For,
    Again,
}

impl Word {
    fn of_block(number: u64) -> Word {
        match number {
            0 | 1 => Word::If,
            2 => Word::Switch,
            3 => Word::Try,
            4 => Word::While,
            _ => Word::For,
        }
    }

    /// A statement of its own. One that leaves a loop stands in a loop.
    fn of_statement(number: u64, in_loop: bool) -> Word {
        match number {
            0..=9 => Word::Assign,
            10..=14 => Word::Hide,
            15 | 16 => Word::Raise,
            17 => Word::Return,
            18 if in_loop => Word::Break,
            19 if in_loop => Word::Continue,
            _ => Word::Print,
        }
    }

    fn is_loop(self) -> bool {
        match self {
            Word::While | Word::For => true,
            _ => false,
        }
    }

    /// The part that may come behind this one in a block.
    fn next_part(self, is_last: bool) -> Option<Word> {
        match self {
            Word::If | Word::ElseIf if is_last => Some(Word::Else),
            Word::If | Word::ElseIf => Some(Word::ElseIf),
            Word::Switch | Word::Case if is_last => Some(Word::Otherwise),
            Word::Switch | Word::Case => Some(Word::Case),
            Word::Try => Some(Word::Catch),
            _ => None,
        }
    }

    /// How a line is spelled. Capitals stand for what the line has.
    fn pattern(self) -> &'static [u8] {
        match self {
            Word::Assign => b"N = O + V \n",
            Word::Hide => b"N = O + V ;$",
            Word::Print => b"fprintf ( '%d,' , N ) $",
            Word::Raise => b"error ( 'stop' ) $",
            Word::Break => b"break $",
            Word::Continue => b"continue $",
            Word::Return => b"return $",
            Word::If => b"if N S O $",
            Word::ElseIf => b"elseif N S O $",
            Word::Else => b"else $",
            Word::Switch => b"switch mod ( N , 4 ) $",
            Word::Case => b"case C $",
            Word::Otherwise => b"otherwise $",
            Word::Try => b"try $",
            Word::Catch => b"catch $",
            Word::While => b"kD = 0 ;$while kD < C && N S O $kD = kD + 1 ;$",
            Word::For => b"for N = V : T : L $",
            Word::End | Word::Again => b"end $",
        }
    }
}

/// A line, with all that any word needs: a variable; as operand another one, or the count where no variable is at
/// that place; a number; the line that begins the innermost block, and how many blocks are open. A `while` counts its
/// passes by a variable of its own.
#[derive(Clone, Copy)]
pub struct Line {
    pub word: Word,
    pub name: usize,
    pub other: usize,
    pub operator: Binary,
    pub number: i64,
    pub count: i64,
    pub head: usize,
    depth: usize,
}

impl Line {
    fn any(generator: &mut Generator, word: Word, head: usize, depth: usize) -> Line {
        Line {
            word,
            name: generator.below(3) as usize,
            other: generator.below(6) as usize,
            operator: Binary::of(generator.below(6).saturating_add(8)),
            number: generator.below(9).cast_signed().wrapping_sub(4),
            count: generator.below(4).cast_signed(),
            head,
            depth,
        }
    }

    /// The index of a `for` in the pass behind so many.
    pub fn index(self, done: i64) -> i64 {
        self.number.wrapping_add(done.wrapping_mul(self.step()))
    }

    fn step(self) -> i64 {
        match self.other {
            0 => 2,
            1 => -1,
            2 => -3,
            _ => 1,
        }
    }

    fn spell_operand(self, text: &mut Vec<u8>) -> Result<(), NoMemory> {
        if self.other < NAMES.len() {
            return spell_name(text, self.other);
        }
        decimal(text, self.count)
    }

    fn spell_byte(self, text: &mut Vec<u8>, byte: u8) -> Result<(), NoMemory> {
        match byte {
            b'N' => spell_name(text, self.name),
            b'O' => self.spell_operand(text),
            b'V' => decimal(text, self.number),
            b'C' => decimal(text, self.count),
            b'D' => count(text, self.depth as u64),
            b'T' => decimal(text, self.step()),
            b'L' => decimal(text, self.index(self.count.wrapping_sub(1))),
            b'S' => {
                text.extend_from_slice(self.operator.sign())?;
                Ok(())
            }
            _ => {
                text.push(byte)?;
                Ok(())
            }
        }
    }

    fn spell(self, text: &mut Vec<u8>) -> Result<(), NoMemory> {
        for byte in self.word.pattern() {
            self.spell_byte(text, *byte)?;
        }
        Ok(())
    }
}

pub fn spell_name(text: &mut Vec<u8>, name: usize) -> Result<(), NoMemory> {
    text.push(NAMES.get(name).copied().unwrap_or(b'x'))?;
    Ok(())
}

/// A block that is open: where it begins, its last part so far, and whether that stands in a loop.
#[derive(Clone, Copy)]
struct Block {
    head: usize,
    part: Word,
    in_loop: bool,
}

#[derive(Drop)]
struct Draft {
    lines: Vec<Line>,
    open: Vec<Block>,
}

impl Draft {
    fn innermost(&self) -> Block {
        match self.open.last() {
            Some(block) => *block,
            None => Block {
                head: 0,
                part: Word::Assign,
                in_loop: false,
            },
        }
    }

    fn add(&mut self, generator: &mut Generator, word: Word) -> Result<(), NoMemory> {
        let block = self.innermost();
        let depth = self.open.len();
        self.lines
            .push(Line::any(generator, word, block.head, depth))?;
        Ok(())
    }

    fn add_statement(&mut self, generator: &mut Generator) -> Result<(), NoMemory> {
        let block = self.innermost();
        let word = Word::of_statement(generator.below(24), block.in_loop);
        self.add(generator, word)
    }

    /// Begins a block, if one more may be open. No statement stands before the first part of a `switch`.
    fn begin(&mut self, generator: &mut Generator) -> Result<(), NoMemory> {
        if self.open.len() >= DEPTH {
            return Ok(());
        }
        let word = Word::of_block(generator.below(6));
        let around = self.innermost();
        self.open.push(Block {
            head: self.lines.len(),
            part: word,
            in_loop: around.in_loop || word.is_loop(),
        })?;
        self.add(generator, word)?;
        match word {
            Word::Switch => self.go_on(generator),
            _ => Ok(()),
        }
    }

    /// Begins the next part of the innermost block, if it may have one.
    fn go_on(&mut self, generator: &mut Generator) -> Result<(), NoMemory> {
        let block = self.innermost();
        let Some(part) = block.part.next_part(generator.one_in(3)) else {
            return Ok(());
        };
        if let Some(last) = self.open.last_mut() {
            last.part = part;
        }
        self.add(generator, part)
    }

    /// Ends the innermost block. Each `try` has its `catch`.
    fn close(&mut self, generator: &mut Generator) -> Result<(), NoMemory> {
        let block = self.innermost();
        if self.open.is_empty() {
            return Ok(());
        }
        let word = match block.part {
            Word::Try => {
                self.go_on(generator)?;
                Word::End
            }
            Word::While | Word::For => Word::Again,
            _ => Word::End,
        };
        self.add(generator, word)?;
        let _ = self.open.pop();
        Ok(())
    }

    fn step(&mut self, generator: &mut Generator) -> Result<(), NoMemory> {
        match generator.below(12) {
            0..=2 => self.begin(generator),
            3 | 4 => self.go_on(generator),
            5 => self.close(generator),
            _ => self.add_statement(generator),
        }
    }
}

pub fn any_lines(alloc: Global, generator: &mut Generator) -> Result<Vec<Line>, NoMemory> {
    let mut draft = Draft {
        lines: Vec::new(alloc),
        open: Vec::new(alloc),
    };
    for _ in 0..generator.below(24).saturating_add(6) {
        draft.step(generator)?;
    }
    for _ in 0..DEPTH {
        draft.close(generator)?;
    }
    Ok(draft.lines)
}

/// The template of lines, which begins by giving each variable a value, and ends by showing all three.
pub fn template(alloc: Global, lines: &[Line]) -> Result<Vec<u8>, NoMemory> {
    let mut text = Vec::from_slice(alloc, b"x = 0 \ny = 1 \nz = 2 \n")?;
    for line in lines {
        line.spell(&mut text)?;
    }
    text.extend_from_slice(b"disp ( [x,y,z] ) $")?;
    Ok(text)
}

/// A template spelled plainly: each separator that is open is a line end.
pub fn plain(alloc: Global, template: &[u8]) -> Result<Vec<u8>, NoMemory> {
    let mut text = Vec::new(alloc);
    for byte in template {
        text.push(if *byte == b'$' { b'\n' } else { *byte })?;
    }
    Ok(text)
}
