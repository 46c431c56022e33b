//! Each call on small arrays of every shape, by one table.
//!
//! Its answers were worked out by the rules, apart from `pl_index`, in terms of rows and columns.

ghost use Rattle.std.specs.Prelude.{◌≡◌, ◌*◌, ◌≤◌, length};
ghost use Rattle.std.specs.List.{All};
ghost use Rattle.pl_array.specs.Arrays.{IsCell};

use pl_array::{Arr, Class, Shape};
use pl_base::{ErrKind, NoMemory, Or};
use pl_index::{Index, Pos, assign, assign_new, delete, select};
use std::alloc::Global;

// The call (select, assign, assign to no array, delete), the array, two positions (-1: there is no second one),
// the value, and then the rows, the columns and the cells as digits; or the refusal's number below 0.
#[rattlefmt::skip]
static CASES: [i64; 992] = [
    0, 5, 8, -1, 0, -9, 0, 0,
    1, 5, 8, -1, 0, 1, 5, 12309,
    3, 5, 2, -1, 0, 1, 2, 13,
    2, 0, 2, -1, 0, 1, 2, 9,
    0, 6, 6, -1, 0, 2, 1, 13,
    0, 5, 6, -1, 0, 1, 2, 13,
    0, 6, 2, -1, 0, 1, 1, 2,
    0, 6, 7, -1, 0, 2, 2, 1321,
    0, 1, 9, -1, 0, -8, 0, 0,
    0, 3, 8, -1, 0, -9, 0, 0,
    0, 4, 3, -1, 0, -9, 0, 0,
    0, 0, 1, -1, 0, -9, 0, 0,
    0, 0, 0, -1, 0, 0, 1, 0,
    0, 7, 3, -1, 0, 1, 2, 31,
    0, 5, 2, -1, 0, 1, 1, 2,
    0, 4, 0, -1, 0, 1, 1, 7,
    0, 7, 8, -1, 0, 1, 1, 5,
    0, 6, 5, -1, 0, 0, 0, 0,
    0, 2, 9, -1, 0, -8, 0, 0,
    0, 2, 0, -1, 0, 0, 1, 0,
    0, 5, 5, -1, 0, 0, 0, 0,
    0, 6, 0, -1, 0, 3, 1, 123,
    0, 4, 5, 11, 0, -9, 0, 0,
    0, 3, 4, 7, 0, -9, 0, 0,
    0, 7, 2, 9, 0, -8, 0, 0,
    0, 1, 2, 9, 0, -8, 0, 0,
    0, 3, 9, 0, 0, -8, 0, 0,
    0, 7, 4, 3, 0, 2, 2, 6622,
    0, 6, 7, 7, 0, -9, 0, 0,
    0, 3, 0, 2, 0, 0, 1, 0,
    0, 7, 10, 7, 0, 1, 4, 2642,
    0, 6, 10, 5, 0, 1, 0, 0,
    0, 7, 0, 5, 0, 2, 0, 0,
    0, 6, 5, 1, 0, 0, 1, 0,
    1, 0, 7, -1, 0, 1, 3, 999,
    1, 2, 4, -1, 4, -10, 0, 0,
    1, 0, 5, -1, 3, -11, 0, 0,
    1, 1, 3, -1, 3, -11, 0, 0,
    1, 6, 0, -1, 2, -11, 0, 0,
    1, 7, 11, -1, 4, -4, 0, 0,
    1, 2, 11, -1, 2, -4, 0, 0,
    1, 5, 4, -1, 0, 1, 3, 193,
    1, 7, 6, -1, 2, 2, 3, 829456,
    1, 2, 0, -1, 4, 0, 1, 0,
    1, 3, 7, -1, 4, -10, 0, 0,
    1, 6, 7, -1, 0, 3, 1, 999,
    1, 6, 9, -1, 2, -8, 0, 0,
    1, 2, 9, -1, 3, -8, 0, 0,
    1, 3, 11, -1, 4, -4, 0, 0,
    1, 7, 9, -1, 3, -8, 0, 0,
    1, 1, 6, -1, 2, 1, 3, 809,
    1, 4, 4, -1, 0, 1, 2, 79,
    1, 3, 0, -1, 0, 0, 5, 0,
    1, 0, 0, -1, 4, 0, 0, 0,
    1, 1, 5, -1, 0, 1, 0, 0,
    1, 4, 3, -1, 0, 1, 3, 909,
    1, 0, 2, -1, 0, 1, 2, 9,
    1, 1, 2, -1, 0, 1, 2, 9,
    1, 4, 0, -1, 0, 1, 1, 9,
    1, 0, 1, -1, 0, 1, 1, 9,
    1, 4, 8, -1, 0, 1, 5, 70009,
    1, 6, 8, -1, 0, 5, 1, 12309,
    1, 0, 8, -1, 0, 1, 5, 9,
    1, 1, 1, -1, 0, 1, 1, 9,
    1, 1, 8, -1, 0, 1, 5, 9,
    1, 2, 6, -1, 1, -10, 0, 0,
    1, 0, 3, -1, 2, 1, 3, 908,
    1, 6, 8, 10, 1, -11, 0, 0,
    1, 3, 6, 1, 0, 3, 5, 909000000000000,
    1, 3, 9, 9, 1, -8, 0, 0,
    1, 2, 9, 0, 1, -8, 0, 0,
    1, 4, 1, 1, 1, -11, 0, 0,
    1, 2, 5, 2, 4, -11, 0, 0,
    1, 5, 5, 5, 0, 1, 3, 123,
    1, 4, 4, 9, 4, -8, 0, 0,
    1, 1, 11, 4, 2, -4, 0, 0,
    1, 3, 1, 5, 0, 0, 5, 0,
    1, 2, 2, 5, 0, 0, 1, 0,
    1, 4, 10, 2, 0, 2, 2, 7009,
    1, 5, 3, 10, 1, 3, 3, 100908300,
    1, 0, 11, 4, 4, -4, 0, 0,
    1, 2, 10, 10, 0, 2, 2, 9,
    1, 0, 1, 2, 0, 1, 2, 9,
    1, 0, 3, 10, 0, 3, 2, 909,
    1, 1, 3, 10, 0, 3, 2, 909,
    1, 7, 6, 8, 0, 3, 5, 120340560000909,
    1, 5, 4, 2, 0, 2, 3, 102930,
    1, 2, 1, 6, 1, 1, 3, 809,
    1, 3, 10, 3, 0, 2, 5, 900090000,
    1, 2, 4, 1, 2, 2, 1, 9,
    2, 0, 3, -1, 2, 1, 3, 908,
    2, 0, 5, -1, 0, 0, 0, 0,
    2, 0, 2, -1, 1, -11, 0, 0,
    2, 0, 9, -1, 3, -8, 0, 0,
    2, 0, 11, -1, 1, -4, 0, 0,
    2, 0, 4, -1, 0, 1, 2, 9,
    2, 0, 8, 9, 1, -8, 0, 0,
    2, 0, 0, 3, 1, 1, 3, 908,
    2, 0, 11, 8, 0, -4, 0, 0,
    2, 0, 4, 0, 0, 2, 1, 9,
    3, 2, 2, -1, 0, -9, 0, 0,
    3, 7, 9, -1, 0, -8, 0, 0,
    3, 3, 9, -1, 0, -8, 0, 0,
    3, 2, 5, -1, 0, 0, 1, 0,
    3, 6, 11, -1, 0, -9, 0, 0,
    3, 7, 11, -1, 0, -12, 0, 0,
    3, 0, 1, -1, 0, -9, 0, 0,
    3, 1, 0, -1, 0, 1, 0, 0,
    3, 5, 0, -1, 0, 1, 0, 0,
    3, 5, 3, -1, 0, 1, 1, 2,
    3, 3, 3, -1, 0, -12, 0, 0,
    3, 5, 9, -1, 0, -8, 0, 0,
    3, 6, 5, -1, 0, 3, 1, 123,
    3, 6, 6, -1, 0, 1, 1, 2,
    3, 6, 8, 4, 0, -12, 0, 0,
    3, 1, 8, 7, 0, -12, 0, 0,
    3, 0, 0, 6, 0, -9, 0, 0,
    3, 0, 4, 5, 0, -12, 0, 0,
    3, 3, 9, 6, 0, -8, 0, 0,
    3, 4, 9, 2, 0, -8, 0, 0,
    3, 5, 8, 0, 0, -9, 0, 0,
    3, 2, 0, 7, 0, -9, 0, 0,
    3, 6, 9, 5, 0, -8, 0, 0,
    3, 3, 5, 0, 0, 0, 5, 0,
];

fn of(alloc: Global, class: Class, rows: u32, cols: u32, cells: &[i64]) -> Result<Arr, NoMemory>
    requires count { length cells.now ≡ rows * cols }
    requires rows { rows ≤ 5 }
    requires cols { cols ≤ 5 }
    requires of_class { All (IsCell class) cells.now }
{
    let cells = Vec::from_slice(alloc, cells)?;
    Ok(Arr::new(class, Shape { rows, cols }, cells))
}

fn numbers(alloc: Global, rows: u32, cols: u32, cells: &[i64]) -> Result<Arr, NoMemory>
    requires count { length cells.now ≡ rows * cols }
    requires rows { rows ≤ 5 }
    requires cols { cols ≤ 5 }
{
    of(alloc, Class::Int, rows, cols, cells)
}

fn array(alloc: Global, n: i64) -> Result<Arr, NoMemory> {
    match n {
        0 => numbers(alloc, 0, 0, &[]),
        1 => numbers(alloc, 1, 0, &[]),
        2 => numbers(alloc, 0, 1, &[]),
        3 => numbers(alloc, 0, 5, &[]),
        4 => numbers(alloc, 1, 1, &[7]),
        5 => numbers(alloc, 1, 3, &[1, 2, 3]),
        6 => numbers(alloc, 3, 1, &[1, 2, 3]),
        _ => numbers(alloc, 2, 3, &[1, 2, 3, 4, 5, 6]),
    }
}

fn value(alloc: Global, n: i64) -> Result<Arr, NoMemory> {
    match n {
        0 => numbers(alloc, 1, 1, &[9]),
        1 => numbers(alloc, 1, 2, &[8, 9]),
        2 => numbers(alloc, 2, 1, &[8, 9]),
        3 => numbers(alloc, 1, 3, &[7, 8, 9]),
        _ => numbers(alloc, 0, 0, &[]),
    }
}

fn position(alloc: Global, n: i64) -> Result<Pos, NoMemory> {
    if n == 0 {
        return Ok(Pos::All);
    }
    Ok(Pos::At(index_array(alloc, n)?))
}

fn index_array(alloc: Global, n: i64) -> Result<Arr, NoMemory> {
    match n {
        1 => numbers(alloc, 1, 1, &[1]),
        2 => numbers(alloc, 1, 1, &[2]),
        3 => numbers(alloc, 1, 2, &[3, 1]),
        4 => numbers(alloc, 2, 1, &[2, 2]),
        5 => numbers(alloc, 0, 0, &[]),
        6 => of(alloc, Class::Logical, 1, 3, &[1, 0, 1]),
        7 => numbers(alloc, 2, 2, &[1, 3, 2, 1]),
        8 => numbers(alloc, 1, 1, &[5]),
        9 => numbers(alloc, 1, 1, &[0]),
        10 => of(alloc, Class::Logical, 2, 1, &[0, 1]),
        _ => numbers(alloc, 1, 1, &[1_000_001]),
    }
}

fn index(alloc: Global, first: i64, second: i64) -> Result<Index, NoMemory> {
    let p = position(alloc, first)?;
    if second < 0 {
        return Ok(Index::One(p));
    }
    Ok(Index::Two(p, position(alloc, second)?))
}

fn answer(alloc: Global, call: i64, a: Arr, at: &Index, v: &Arr) -> Result<Arr, Or<ErrKind>> {
    let mut a = a;
    match call {
        0 => select(alloc, &a, at),
        1 => {
            assign(alloc, &mut a, at, v)?;
            Ok(a)
        }
        2 => assign_new(alloc, at, v),
        _ => {
            delete(alloc, &mut a, at)?;
            Ok(a)
        }
    }
}

/// The place of a refusal among the kinds.
fn number(kind: ErrKind) -> i64 {
    match kind {
        ErrKind::CharRange => 3,
        ErrKind::SizeLimit => 4,
        ErrKind::BadIndex => 8,
        ErrKind::IndexRange => 9,
        ErrKind::GrowAmbiguous => 10,
        ErrKind::AssignSize => 11,
        ErrKind::DeleteShape => 12,
        _ => 0,
    }
}

fn is_outcome(answer: Result<Arr, Or<ErrKind>>, rows: i64, cols: i64, digits: i64) -> bool {
    match answer {
        Ok(o) => {
            let s = o.shape();
            let mut n: i64 = 0;
            for cell in o.cells() {
                n = n.wrapping_mul(10).wrapping_add(*cell);
            }
            s.rows as i64 == rows && s.cols as i64 == cols && n == digits
        }
        Err(Or::Is(kind)) => number(kind) == rows.wrapping_neg(),
        Err(Or::Memory) => false,
    }
}

#[test]
fn small_arrays(rt: HostRuntime) -> Result<(), NoMemory> {
    let alloc = rt.alloc();
    for case in CASES.chunks_exact(8) {
        let [call, a, first, second, v, rows, cols, digits] = case else {
            panic!(rt; "eight numbers a case");
        };
        let at = index(alloc, *first, *second)?;
        let value = value(alloc, *v)?;
        let outcome = answer(alloc, *call, array(alloc, *a)?, &at, &value);
        assert!(rt;
            is_outcome(outcome, *rows, *cols, *digits),
            "call {call} of array {a} at {first}, {second} with {v}"
        );
    }
    Ok(())
}
