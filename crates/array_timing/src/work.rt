//! What is timed.

ghost use Rattle.std.specs.Prelude.{◌≤◌};
ghost use Rattle.pl_array.specs.Arrays.{most};

use crate::fault::Fault;
use crate::making::{append, row, write_one};
use pl_array::{Arr, Op2, map2};
use pl_builtin::{Builtin, call};
use pl_setfn::{SetFn, call_set};
use std::alloc::Global;
use std::fmt::{self, Display, Formatter};

/// One thing to be timed: an operator on two whole arrays; as many sums of single numbers, writes or appends as
/// those have cells; or a function of one whole array.
#[derive(Clone, Copy, Debug)]
pub(crate) enum Work {
    Add,
    Sub,
    Less,
    And,
    Singles,
    Writes,
    Appends,
    Makes(Builtin),
    Picks(SetFn),
}

pub(crate) static WORKS: [Work; 18] = [
    Work::Add,
    Work::Sub,
    Work::Less,
    Work::And,
    Work::Singles,
    Work::Writes,
    Work::Appends,
    Work::Makes(Builtin::Sum),
    Work::Makes(Builtin::Min),
    Work::Makes(Builtin::Max),
    Work::Picks(SetFn::Cumsum),
    Work::Picks(SetFn::Any),
    Work::Picks(SetFn::All),
    Work::Picks(SetFn::Find),
    Work::Picks(SetFn::Sort),
    Work::Picks(SetFn::Unique),
    Work::Picks(SetFn::Repmat),
    Work::Picks(SetFn::Reshape),
];

/// The arrays that works are done on, made before the clock starts. `count` is the number of cells of each.
#[derive(Debug, Drop)]
pub(crate) struct Operands {
    pub(crate) left: Arr,
    right: Arr,
    written: Arr,
    mixed: Arr,
    count: u32,
}

impl Operands {
    pub(crate) fn new(alloc: Global, count: u32) -> Result<Operands, Fault>
        requires { count ≤ most }
    {
        Ok(Operands {
            left: row(alloc, 3, count)?,
            right: row(alloc, 4, count)?,
            written: row(alloc, 0, count)?,
            mixed: mixed(alloc, count)?,
            count,
        })
    }
}

impl Display for Work {
    fn fmt<W: fmt::Write>(&self, f: &mut Formatter<W>) -> fmt::Result {
        f.write_str(match self {
            Work::Add => "plus",
            Work::Sub => "minus",
            Work::Less => "less",
            Work::And => "and",
            Work::Singles => "singles",
            Work::Writes => "writes",
            Work::Appends => "appends",
            Work::Makes(function) => function.name(),
            Work::Picks(function) => function.name(),
        })
    }
}

impl Work {
    /// Does it once, and answers one number of what came out: mostly a last cell, which doesn't depend on all of
    /// the work. A function is given a copy of the array, and its time has the copy's in it.
    pub(crate) fn run(&self, alloc: Global, on: &mut Operands) -> Result<i64, Fault> {
        match self {
            Work::Add => whole(alloc, Op2::Add, on),
            Work::Sub => whole(alloc, Op2::Sub, on),
            Work::Less => whole(alloc, Op2::Lt, on),
            Work::And => whole(alloc, Op2::And, on),
            Work::Singles => singles(alloc, on.count),
            Work::Writes => writes(alloc, on),
            Work::Appends => appends(alloc, on.count),
            Work::Makes(function) => Ok(first(call(
                alloc,
                *function,
                &[on.mixed.copy(alloc)?],
                1,
            )?)),
            Work::Picks(function) => picked(alloc, *function, on),
        }
    }
}

/// The last cell.
fn last(a: &Arr) -> i64 {
    a.cells().last().copied().unwrap_or(0)
}

/// The last cell of the first output of a call.
fn first(outputs: Vec<Arr>) -> i64 {
    match outputs.first() {
        Some(a) => last(a),
        None => 0,
    }
}

/// For a count that 7919 doesn't divide the numbers from 0 to below it, each once, far from any order.
fn mixed(alloc: Global, count: u32) -> Result<Arr, Fault>
    requires { count ≤ most }
{
    let ones = row(alloc, 1, count)?;
    let mut sums = call_set(alloc, SetFn::Cumsum, &[ones], 1)?;
    let rising = sums.pop().unwrap_or(Arr::scalar(0));
    let spread = map2(alloc, Op2::Mul, &rising, &Arr::scalar(7919))?;
    Ok(map2(alloc, Op2::Mod, &spread, &Arr::scalar(i64::from(count)))?)
}

/// A function that picks or lays out the cells of the mixed array; the layouts keep as many cells.
fn picked(alloc: Global, function: SetFn, on: &Operands) -> Result<i64, Fault> {
    let a = on.mixed.copy(alloc)?;
    let (rows, cols) = match function {
        SetFn::Repmat => (1, 1),
        SetFn::Reshape => (i64::from(on.count), 1),
        _ => return Ok(first(call_set(alloc, function, &[a], 1)?)),
    };
    let arguments = [a, Arr::scalar(rows), Arr::scalar(cols)];
    Ok(first(call_set(alloc, function, &arguments, 1)?))
}

/// An operator on two arrays, once.
fn whole(alloc: Global, op: Op2, on: &Operands) -> Result<i64, Fault> {
    let answer = map2(alloc, op, &on.left, &on.right)?;
    Ok(last(&answer))
}

/// As many sums of two single numbers, each of what the last one gave.
fn singles(alloc: Global, count: u32) -> Result<i64, Fault> {
    let mut total = Arr::scalar(0);
    for number in 0..count {
        total = map2(alloc, Op2::Add, &total, &Arr::scalar(i64::from(number)))?;
    }
    Ok(last(&total))
}

/// As many writes of one cell, each at another place.
fn writes(alloc: Global, on: &mut Operands) -> Result<i64, Fault> {
    for place in 0..on.count {
        write_one(alloc, &mut on.written, place as usize, i64::from(place))?;
    }
    Ok(last(&on.written))
}

/// As many appends to an empty row.
fn appends(alloc: Global, count: u32) -> Result<i64, Fault> {
    let mut grown = row(alloc, 0, 0)?;
    for number in 0..count {
        append(alloc, &mut grown, i64::from(number))?;
    }
    Ok(last(&grown))
}
