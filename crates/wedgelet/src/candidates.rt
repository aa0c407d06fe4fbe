// The candidates of the wedgelet list: pairs of border points, and their patterns.
ghost use Rattle.std.specs.Prelude.{◌≡◌, ◌<◌};
ghost use Rattle.pattern.specs.Size.{greatest_size};
ghost use Rattle.pattern.specs.Words.{pattern_number};
ghost use Rattle.wedgelet.specs.Wedgelet.{point_x, point_y, wedgelet};

use crate::half::Half;
use pattern::{Pattern, Size};

// The column and the row of a sample.
#[derive(Clone, Copy)]
pub(crate) struct Point {
    pub x: usize,
    pub y: usize,
    ghost within: { (x < greatest_size) × (y < greatest_size) },
}

impl Point {
    // Border point k.
    fn on_border(size: Size, k: usize) -> Point
        ensures { (result.x ≡ point_x size.n k) × (result.y ≡ point_y size.n k) }
    {
        let m = size.n - 1;
        if k < m {
            Point { x: k, y: 0 }
        } else if k < 2 * m {
            Point { x: m, y: k - m }
        } else if k < 3 * m {
            Point { x: 3 * m - k, y: m }
        } else {
            Point {
                x: 0,
                y: (4 * m).saturating_sub(k),
            }
        }
    }
}

// The pattern of the candidate (s, e).
pub(crate) fn candidate_of(size: Size, s: usize, e: usize) -> Pattern
    ensures { pattern_number result ≡ wedgelet size.n s e }
{
    Half::of_line(Point::on_border(size, s), Point::on_border(size, e)).pattern(size)
}
