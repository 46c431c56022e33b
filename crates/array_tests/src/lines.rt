//! A fold and a rule of small arrays, along both dimensions.

ghost use Rattle.std.specs.Prelude.{◌≡◌, ℤ, ◌+ℤ◌, Some, None, length, pos, if◌then◌else◌};
ghost use Rattle.std.specs.Ordering.{int_eq};
ghost use Rattle.pl_base.specs.Numbers.{clamp};
ghost use Rattle.pl_array.specs.declared.class.Class.{Class};

use pl_array::{Arr, Class, Shape};
use pl_base::{ErrKind, Or};
use pl_lines::{Dim, Fold, LineRule, default_dim, fold_lines, map_lines};
use std::test::Fail;

struct Total;

impl Fold for Total {
    ghost class = { λ _. Class.Int };

    ghost start = { λ _. pos 0 };

    ghost step = { λ _ x y. if int_eq (clamp (x +ℤ y)) (x +ℤ y) then Some (x +ℤ y) else None };

    fn class(&self) -> Class {
        Class::Int
    }

    fn start(&self) -> i64 {
        0
    }

    fn step(&self, so_far: i64, cell: i64) -> Option<i64> {
        so_far.checked_add(cell)
    }
}

struct Length;

impl LineRule for Length {
    ghost value = { λ _ cells. pos (length cells) };

    fn value(&self, line: &[i64]) -> i64 {
        line.len() as i64
    }
}

#[test]
fn totals(rt: HostRuntime) -> Result<(), Fail> {
    let alloc = rt.alloc();
    let cells = Vec::from_slice(alloc, &[1, 2, 3, 4, 5, 6])?;
    let a = Arr::new(Class::Int, Shape { rows: 2, cols: 3 }, cells);
    if let Ok(sums) = fold_lines(alloc, &Total, &a, Dim::Down) {
        assert_eq!(rt; sums.cells(), [3, 7, 11].as_slice());
        assert_eq!(rt; sums.shape(), Shape { rows: 1, cols: 3 });
    }
    if let Ok(sums) = fold_lines(alloc, &Total, &a, Dim::Across) {
        assert_eq!(rt; sums.cells(), [9, 12].as_slice());
        assert_eq!(rt; sums.shape(), Shape { rows: 2, cols: 1 });
    }
    assert_eq!(rt;
        map_lines(alloc, &Length, &a)?.as_slice(),
        [2, 2, 2].as_slice()
    );
    Ok(())
}

#[test]
fn refused(rt: HostRuntime) -> Result<(), Fail> {
    let alloc = rt.alloc();
    let cells = Vec::from_slice(alloc, &[i64::MAX, 1, -1])?;
    let a = Arr::new(Class::Int, Shape { rows: 1, cols: 3 }, cells);
    let along = default_dim(a.shape());
    assert!(rt;
        matches!(
            fold_lines(alloc, &Total, &a, along),
            Err(Or::Is(ErrKind::Overflow))
        )
    );
    Ok(())
}
