//! Which shapes go together: in each dimension the extents are equal, or one of them is 1.

ghost use Rattle.std.specs.Prelude.{◌≡◌};
ghost use Rattle.pl_array.specs.Cellwise.{fit_extent, fitted};

use crate::class::Shape;

/// The shape of the result for operands of these shapes, if they go together.
pub fn fit(a: Shape, b: Shape) -> Option<Shape>
    ensures { result ≡ fitted a b }
{
    let rows = fit_line(a.rows, b.rows)?;
    let cols = fit_line(a.cols, b.cols)?;
    Some(Shape { rows, cols })
}

fn fit_line(m: u32, n: u32) -> Option<u32>
    ensures { result ≡ fit_extent m n }
{
    if m == n {
        Some(m)
    } else if m == 1 {
        Some(n)
    } else if n == 1 {
        Some(m)
    } else {
        None
    }
}
