// One side of a line, and the pattern of its samples: sums that grow with each column and each row.
ghost use Rattle.std.specs.Prelude.{◌≡◌, ◌-◌, ◌/◌, ◌^◌, ◌≤◌, ◌<◌};
ghost use Rattle.pattern.specs.Size.{greatest_size, greatest_samples};

use crate::candidates::Point;
use pattern::{Pattern, Size};

// A sum over the samples: what it is at (0,0), and what each column and each row add to it.
#[derive(Clone, Copy)]
pub(crate) struct Sum {
    pub base: usize,
    pub column: usize,
    pub row: usize,
    ghost small: { (base ≤ greatest_samples) × (column < greatest_size) × (row < greatest_size) },
}

impl Sum {
    ghost use Rattle.std.specs.Prelude.{◌+◌, ◌*◌};

    // The sum at column 0 of row y.
    fn at_row(self, y: usize) -> usize
        requires { y < greatest_size }
        ensures { (result ≡ self.base + self.row * y) × (result ≤ 2 * greatest_samples) }
    {
        self.base + self.row * y
    }
}

// The samples at which the low sum is below the high one.
#[derive(Clone, Copy)]
pub(crate) struct Half {
    pub low: Sum,
    pub high: Sum,
}

impl Half {
    ghost use Rattle.std.specs.Prelude.{ℕ, ◌+◌, ◌*◌, ◌%◌};
    ghost use Rattle.arith.specs.Bits.{bits};
    ghost use Rattle.pattern.specs.Pattern.{pattern};
    ghost use Rattle.pattern.specs.Words.{pattern_number};
    ghost use Rattle.wedgelet.specs.Wedgelet.{beside};
    ghost use Rattle.wedgelet.specs.Half.{in_half, flip};

    // The side of a line that does not hold (0,0): the samples beside the line, or all others where (0,0) is beside it. A sum that is not
    // below another is at least as great, which is that the other is below 1 more than it.
    #[tactic(auto, using(crate::proofs::HalfLaws::half_other, crate::proofs::HalfLaws::half_beside))]
    pub(crate) fn of_line(start: Point, end: Point) -> Half
        ensures { (x y : ℕ) → in_half result x y
            ≡ flip (beside start.x start.y end.x end.y 0 0) (beside start.x start.y end.x end.y x y) }
    {
        let low = Sum {
            base: start.y * end.x,
            column: end.y,
            row: start.x,
        };
        let high = Sum {
            base: start.x * end.y,
            column: start.y,
            row: end.x,
        };
        if low.base < high.base {
            return Half {
                low: high,
                high: Sum {
                    base: low.base + 1,
                    column: low.column,
                    row: low.row,
                },
            };
        }
        Half { low, high }
    }

    // The marks of row y. They run from column 0 on, or up to column n - 1, and end where one sum catches the other up.
    fn row(self, size: Size, y: usize) -> u64
        requires { y < greatest_size }
        ensures { result ≡ bits (λ x. in_half self x y) size.n }
    {
        let n = size.n;
        let low = self.low.at_row(y);
        let high = self.high.at_row(y);
        if high <= low {
            if self.high.column <= self.low.column {
                return 0;
            }
            let from = quotient(low - high, self.high.column - self.low.column);
            return first(n) - first((from + 1).min(n));
        }
        if self.low.column <= self.high.column {
            return first(n);
        }
        let to = quotient(high - low - 1, self.low.column - self.high.column);
        first((to + 1).min(n))
    }

    // One word: the marks of `count` rows from row `from` on.
    fn rows(self, size: Size, from: usize, count: usize) -> u64
        requires { (count * size.n ≤ 64) × (from + count ≤ greatest_size) }
        ensures { let n = size.n in result ≡ bits (λ i. in_half self (i % n) (from + i / n)) (count * n) }
    {
        (0..count)
            .map(|k| self.row(size, from + k) << (k * size.n))
            .sum()
    }

    // The pattern of its samples.
    pub(crate) fn pattern(self, size: Size) -> Pattern
        ensures { pattern_number result ≡ pattern size.n (in_half self) }
    {
        if size.n <= 8 {
            return Pattern::of_word(self.rows(size, 0, size.n));
        }
        Pattern {
            words: std::array::from_fn(|i| self.rows(size, 4 * i, 4)),
        }
    }
}

// A quotient of small numbers, in 32 bits: a division of 64 makes the list of 8 by 8 samples a tenth slower, and that of 16 by 16 a
// thirtieth.
fn quotient(a: usize, b: usize) -> usize
    requires { (a ≤ 1000) × (b ≤ 1000) × (0 < b) }
    ensures { result ≡ a / b }
{
    (a as u32 / b as u32) as usize
}

// The marks of the first `count` samples of a row.
fn first(count: usize) -> u64
    requires { count ≤ greatest_size }
    ensures { result ≡ 2 ^ count - 1 }
{
    (1 << count) - 1
}
