//! The values that a variable can hold.

ghost use Rattle.std.specs.Prelude.{◌≡◌, IfOk};
ghost use Rattle.std.specs.Option.{option_copied};

use pl_array::Arr;
use pl_base::{NoMemory, Seq};
use pl_scheme::{Cell, Scheme, Size};
use sqlite_items::Items;
use std::alloc::Global;

/// A value.
#[derive(Debug, Drop)]
pub enum Value {
    Array(Arr),
    /// A function's name behind `@`, as the function's number.
    Func(u32),
    /// A row of futures, as the numbers of their calls.
    Futures(Seq<u32>),
    /// A queue's number.
    Queue(u32),
    Pool,
    /// How a codistributed array is to lie, perhaps not yet whole.
    Codistributor(PartScheme),
    /// One worker's part of a codistributed array, as a block's activity holds it.
    Part(CoPart),
    /// One worker's value each, and none where that worker has no value.
    Composite(Items<Option<Value>>),
    /// A whole codistributed array outside a block: its parts, one for each worker in order.
    Whole(Seq<CoPart>),
    /// A value that no other kind names: its kind and its number.
    Opaque(u32, u32),
}

/// One worker's part of a codistributed array.
#[derive(Debug, Drop)]
pub struct CoPart {
    pub serial: Serial,
    pub scheme: Scheme,
    pub local: Arr,
}

/// Which codistributed value it is: the number of the block in the session, from 1, and the number of the
/// collective in the block that made it, from 1.
#[derive(Clone, Copy, Debug, PartialEq, Eq)]
pub struct Serial {
    pub block: u32,
    pub ordinal: u32,
}

/// What a script said of a scheme. It is a partition exactly where there is no grid and `blk` is 0; a
/// dimension, a partition and a size that are absent are to be completed. A partition without numbers
/// stands for the default one.
#[derive(Debug, Drop)]
pub struct PartScheme {
    pub dim: Option<u32>,
    pub part: Seq<u32>,
    pub grid: Option<Cell>,
    pub blk: u32,
    pub by_rows: bool,
    pub size: Option<Size>,
}

impl Value {
    /// An equal value.
    pub fn copy(&self, alloc: Global) -> Result<Value, NoMemory>
        ensures { IfOk result (λ v. v ≡ self.now) }
    {
        match self {
            Value::Array(a) => Ok(Value::Array(a.copy(alloc)?)),
            Value::Func(number) => Ok(Value::Func(*number)),
            Value::Futures(calls) => Ok(Value::Futures(copy_numbers(alloc, calls)?)),
            Value::Queue(number) => Ok(Value::Queue(*number)),
            Value::Pool => Ok(Value::Pool),
            Value::Codistributor(scheme) => Ok(Value::Codistributor(scheme.copy(alloc)?)),
            Value::Part(part) => Ok(Value::Part(part.copy(alloc)?)),
            Value::Composite(values) => {
                let mut all = Vec::with_capacity(alloc, values.len())?;
                for held in values.as_slice() {
                    match held {
                        Some(value) => all.push(Some(value.copy(alloc)?))?,
                        None => all.push(None)?,
                    }
                }
                Ok(Value::Composite(Items::from_vec(all)))
            }
            Value::Whole(parts) => Ok(Value::Whole(copy_parts(alloc, parts)?)),
            Value::Opaque(kind, number) => Ok(Value::Opaque(*kind, *number)),
        }
    }
}

/// An equal value, or none.
pub(crate) fn copy_held(alloc: Global, held: Option<&Value>) -> Result<Option<Value>, NoMemory>
    ensures { IfOk result (λ v. v ≡ option_copied held.entry) }
{
    match held {
        Some(value) => Ok(Some(value.copy(alloc)?)),
        None => Ok(None),
    }
}

/// The parts of a whole codistributed array.
fn copy_parts(alloc: Global, parts: &Seq<CoPart>) -> Result<Seq<CoPart>, NoMemory>
    ensures { IfOk result (λ s. s ≡ parts.now) }
{
    let mut all = Vec::with_capacity(alloc, parts.items().len())?;
    for part in parts.items() {
        all.push(part.copy(alloc)?)?;
    }
    Ok(Seq::of(all))
}

fn copy_numbers(alloc: Global, numbers: &Seq<u32>) -> Result<Seq<u32>, NoMemory>
    ensures { IfOk result (λ s. s ≡ numbers.now) }
{
    let items = Vec::from_slice(alloc, numbers.items())?;
    Ok(Seq::of(items))
}

impl CoPart {
    /// An equal part.
    pub fn copy(&self, alloc: Global) -> Result<CoPart, NoMemory>
        ensures { IfOk result (λ p. p ≡ self.now) }
    {
        let scheme = self.scheme.copy(alloc)?;
        let local = self.local.copy(alloc)?;
        Ok(CoPart {
            serial: self.serial,
            scheme,
            local,
        })
    }
}

impl PartScheme {
    /// An equal scheme.
    pub fn copy(&self, alloc: Global) -> Result<PartScheme, NoMemory>
        ensures { IfOk result (λ p. p ≡ self.now) }
    {
        let part = copy_numbers(alloc, &self.part)?;
        Ok(PartScheme {
            dim: self.dim,
            part,
            grid: self.grid,
            blk: self.blk,
            by_rows: self.by_rows,
            size: self.size,
        })
    }
}
