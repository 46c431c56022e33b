//! Indexing: a row that is read, written, grown and deleted from, against a plain vector.

use crate::generator::Generator;
use crate::running::{RAISED, printed};
use crate::tally::Tally;
use crate::writing::{assignment, count as decimal, literal, row as row_of, shown};
use pl_base::NoMemory;
use std::alloc::Global;
use std::sync::Wait;
use std::thread::Threads;

/// The statements so far, what they print, and the row `A` as it is behind them. Behind an error the statements
/// go on, and nothing of them is run.
#[derive(Drop)]
struct Draft {
    statements: Vec<u8>,
    wanted: Vec<u8>,
    row: Vec<i64>,
    raised: bool,
}

/// A place, mostly one of the row: counted from 1, where 0 is no place.
fn place(generator: &mut Generator, length: usize) -> usize {
    if generator.one_in(60) {
        return 0;
    }
    let past = if generator.one_in(15) { 1 } else { 0 };
    let count = (length as u64).saturating_add(past);
    (generator.below(count) as usize).saturating_add(1)
}

/// Some places of the row, also the same one twice.
fn places(alloc: Global, generator: &mut Generator, length: usize) -> Result<Vec<usize>, NoMemory> {
    let mut places = Vec::new(alloc);
    for _ in 0..generator.below(3).saturating_add(1) {
        places.push(place(generator, length))?;
    }
    Ok(places)
}

/// `A(PLACE)`
fn element(text: &mut Vec<u8>, place: usize) -> Result<(), NoMemory> {
    text.extend_from_slice(b"A(")?;
    decimal(text, place as u64)?;
    text.push(b')')?;
    Ok(())
}

/// `A([PLACES])`
fn selection(text: &mut Vec<u8>, places: &[usize]) -> Result<(), NoMemory> {
    text.extend_from_slice(b"A([")?;
    for place in places {
        text.push(b' ')?;
        decimal(text, *place as u64)?;
    }
    text.extend_from_slice(b"])")?;
    Ok(())
}

/// The cell at a place, if the row has it.
fn cell_at(row: &[i64], place: usize) -> Option<i64> {
    row.get(place.checked_sub(1)?).copied()
}

fn cells_at(alloc: Global, row: &[i64], places: &[usize]) -> Result<Option<Vec<i64>>, NoMemory> {
    let mut cells = Vec::new(alloc);
    for place in places {
        match cell_at(row, *place) {
            Some(cell) => cells.push(cell)?,
            None => return Ok(None),
        }
    }
    Ok(Some(cells))
}

/// Writes a cell; the row grows by zeros up to it.
fn put(row: &mut Vec<i64>, place: usize, number: i64) -> Result<(), NoMemory> {
    for _ in row.len()..place {
        row.push(0)?;
    }
    if let Some(cell) = row.get_mut(place.saturating_sub(1)) {
        *cell = number;
    }
    Ok(())
}

/// Writes the numbers to the places in order, the last one of a place last. Answers `false`, and has written
/// nothing, where one is no place.
fn put_all(row: &mut Vec<i64>, places: &[usize], numbers: &[i64]) -> Result<bool, NoMemory> {
    if places.contains(&0) {
        return Ok(false);
    }
    for (place, number) in places.iter().zip(numbers) {
        put(row, *place, *number)?;
    }
    Ok(true)
}

/// The cells whose places aren't among these.
fn without(alloc: Global, row: &[i64], places: &[usize]) -> Result<Vec<i64>, NoMemory> {
    let mut left = Vec::new(alloc);
    for (before, cell) in row.iter().enumerate() {
        if !places.contains(&before.saturating_add(1)) {
            left.push(*cell)?;
        }
    }
    Ok(left)
}

/// The cells that are above the bound, or those that aren't.
fn above(alloc: Global, row: &[i64], bound: i64, is_above: bool) -> Result<Vec<i64>, NoMemory> {
    let mut found = Vec::new(alloc);
    for cell in row {
        if (*cell > bound) == is_above {
            found.push(*cell)?;
        }
    }
    Ok(found)
}

/// The row from a place on.
fn tail(alloc: Global, row: &[i64], place: usize) -> Result<Vec<i64>, NoMemory> {
    let mut found = Vec::new(alloc);
    for cell in row.iter().skip(place.saturating_sub(1)) {
        found.push(*cell)?;
    }
    Ok(found)
}

/// One number, as often as there are places.
fn same(alloc: Global, number: i64, count: usize) -> Result<Vec<i64>, NoMemory> {
    let mut numbers = Vec::new(alloc);
    for _ in 0..count {
        numbers.push(number)?;
    }
    Ok(numbers)
}

impl Draft {
    fn new(alloc: Global, generator: &mut Generator) -> Result<Draft, NoMemory> {
        let length = generator.below(7);
        let row = generator.numbers(alloc, length)?;
        let mut statements = Vec::new(alloc);
        assignment(&mut statements, b"A", &row)?;
        Ok(Draft {
            statements,
            wanted: Vec::new(alloc),
            row,
            raised: false,
        })
    }

    /// These numbers are shown, unless an error came before.
    fn show(&mut self, numbers: &[i64]) -> Result<(), NoMemory> {
        if !self.raised {
            shown(&mut self.wanted, numbers)?;
        }
        Ok(())
    }

    /// Here an error comes, unless one came before.
    fn raise(&mut self) -> Result<(), NoMemory> {
        if !self.raised {
            self.wanted.extend_from_slice(RAISED)?;
        }
        self.raised = true;
        Ok(())
    }

    fn read_one(&mut self, generator: &mut Generator) -> Result<(), NoMemory> {
        let place = place(generator, self.row.len());
        self.statements.extend_from_slice(b"disp(")?;
        element(&mut self.statements, place)?;
        self.statements.extend_from_slice(b")\n")?;
        match cell_at(&self.row, place) {
            Some(cell) => self.show(&[cell]),
            None => self.raise(),
        }
    }

    fn read_some(&mut self, alloc: Global, generator: &mut Generator) -> Result<(), NoMemory> {
        let places = places(alloc, generator, self.row.len())?;
        self.statements.extend_from_slice(b"disp(")?;
        selection(&mut self.statements, &places)?;
        self.statements.extend_from_slice(b")\n")?;
        match cells_at(alloc, &self.row, &places)? {
            Some(cells) => self.show(&cells),
            None => self.raise(),
        }
    }

    /// From a place on, which may lie behind the end.
    fn read_tail(&mut self, alloc: Global, generator: &mut Generator) -> Result<(), NoMemory> {
        let length = (self.row.len() as u64).saturating_add(2);
        let place = generator.below(length).saturating_add(1);
        self.statements.extend_from_slice(b"disp(A(")?;
        decimal(&mut self.statements, place)?;
        self.statements.extend_from_slice(b":end))\n")?;
        let cells = tail(alloc, &self.row, place as usize)?;
        self.show(&cells)
    }

    fn read_above(&mut self, alloc: Global, generator: &mut Generator) -> Result<(), NoMemory> {
        let bound = generator.number();
        self.statements.extend_from_slice(b"disp(A(A > ")?;
        literal(&mut self.statements, bound)?;
        self.statements.extend_from_slice(b"))\n")?;
        let cells = above(alloc, &self.row, bound, true)?;
        self.show(&cells)
    }

    /// One cell is written, at most three places behind the end.
    fn write_one(&mut self, generator: &mut Generator) -> Result<(), NoMemory> {
        let place = place(generator, self.row.len().saturating_add(3));
        let number = generator.number();
        element(&mut self.statements, place)?;
        self.statements.extend_from_slice(b" = ")?;
        literal(&mut self.statements, number)?;
        self.statements.extend_from_slice(b";\n")?;
        if place == 0 {
            return self.raise();
        }
        put(&mut self.row, place, number)
    }

    fn append(&mut self, generator: &mut Generator) -> Result<(), NoMemory> {
        let number = generator.number();
        self.statements.extend_from_slice(b"A(end + 1) = ")?;
        literal(&mut self.statements, number)?;
        self.statements.extend_from_slice(b";\n")?;
        self.row.push(number)?;
        Ok(())
    }

    /// One number goes to all places, or a row of numbers, one to each.
    fn write_some(&mut self, alloc: Global, generator: &mut Generator) -> Result<(), NoMemory> {
        let places = places(alloc, generator, self.row.len().saturating_add(2))?;
        let numbers = if generator.one_in(3) {
            same(alloc, generator.number(), places.len())?
        } else {
            generator.numbers(alloc, places.len() as u64)?
        };
        selection(&mut self.statements, &places)?;
        self.statements.extend_from_slice(b" = ")?;
        match numbers.as_slice() {
            [first, others @ ..] if others.iter().all(|other| *other == *first) => {
                literal(&mut self.statements, *first)?;
            }
            numbers => row_of(&mut self.statements, numbers)?,
        }
        self.statements.extend_from_slice(b";\n")?;
        if put_all(&mut self.row, &places, &numbers)? {
            Ok(())
        } else {
            self.raise()
        }
    }

    fn delete_some(&mut self, alloc: Global, generator: &mut Generator) -> Result<(), NoMemory> {
        let places = places(alloc, generator, self.row.len())?;
        selection(&mut self.statements, &places)?;
        self.statements.extend_from_slice(b" = [];\n")?;
        match cells_at(alloc, &self.row, &places)? {
            Some(_) => {
                self.row = without(alloc, &self.row, &places)?;
                Ok(())
            }
            None => self.raise(),
        }
    }

    fn delete_above(&mut self, alloc: Global, generator: &mut Generator) -> Result<(), NoMemory> {
        let bound = generator.number();
        self.statements.extend_from_slice(b"A(A > ")?;
        literal(&mut self.statements, bound)?;
        self.statements.extend_from_slice(b") = [];\n")?;
        self.row = above(alloc, &self.row, bound, false)?;
        Ok(())
    }

    fn step(&mut self, alloc: Global, generator: &mut Generator) -> Result<(), NoMemory> {
        match generator.below(12) {
            0 | 1 => self.read_one(generator),
            2 => self.read_some(alloc, generator),
            3 => self.read_tail(alloc, generator),
            4 => self.read_above(alloc, generator),
            5 | 6 => self.write_one(generator),
            7 => self.append(generator),
            8 | 9 => self.write_some(alloc, generator),
            10 => self.delete_some(alloc, generator),
            _ => self.delete_above(alloc, generator),
        }
    }

    /// Last the whole row is shown, and how many cells it has.
    fn finish(&mut self) -> Result<(), NoMemory> {
        self.statements
            .extend_from_slice(b"disp(A), disp(numel(A))")?;
        if !self.raised {
            shown(&mut self.wanted, &self.row)?;
            let length = (self.row.len() as u64).cast_signed();
            shown(&mut self.wanted, &[length])?;
        }
        Ok(())
    }
}

fn any_draft(alloc: Global, generator: &mut Generator) -> Result<Draft, NoMemory> {
    let mut draft = Draft::new(alloc, generator)?;
    for _ in 0..generator.below(9).saturating_add(1) {
        draft.step(alloc, generator)?;
    }
    draft.finish()?;
    Ok(draft)
}

pub fn run<R: Threads + Wait + Sync>(
    rt: &R,
    alloc: Global,
    generator: &mut Generator,
    count: u32,
    tally: &mut Tally,
) -> Result<(), NoMemory> {
    let mut inputs = Vec::new(alloc);
    let mut wanted = Vec::new(alloc);
    for _ in 0..count {
        let Draft {
            statements,
            wanted: answer,
            row: _,
            raised: _,
        } = any_draft(alloc, generator)?;
        inputs.push(statements)?;
        wanted.push(answer)?;
    }
    let got = printed(rt, alloc, &inputs)?;
    tally.compare(alloc, &inputs, &wanted, &got)
}
