// The allowed sizes, and what a block of the greatest size has.
ghost use Rattle.std.specs.Prelude.{◌≡◌, ◌*◌, ◌<◌, ◌≤◌, true, MatchResult, IfOk};
ghost use Rattle.pattern.specs.Size.{greatest_size, greatest_samples, size_ok};
ghost use Rattle.pattern.specs.Answer.{samples_refusal};
ghost use Rattle.pattern.specs.Refusal.{IsSizeRefusal, refusal_in};

use crate::refusals::{Refusal, check};

// The greatest block size.
pub const GREATEST_SIZE: usize = 16;

// The samples of the greatest block: 256.
pub const SAMPLES: usize = GREATEST_SIZE * GREATEST_SIZE;

// The neighbours of the greatest block: 64.
pub const NEIGHBOURS: usize = 4 * GREATEST_SIZE;

// Whether n is an allowed block size.
pub fn size_ok(n: usize) -> bool
    ensures { result ≡ size_ok n }
{
    matches!(n, 4 | 8 | GREATEST_SIZE)
}

// An allowed block size. One above 8 is the greatest.
#[derive(Clone, Copy, Debug, PartialEq, Eq)]
pub struct Size {
    pub n: usize,
    ghost allowed: { size_ok n ≡ true },
    ghost low: { 4 ≤ n },
    ghost high: { n ≤ greatest_size },
    ghost wide: { 8 < n → n ≡ greatest_size },
    ghost square: { n * n ≤ greatest_samples },
}

impl TryFrom<usize> for Size {
    type Error = Refusal;

    ghost try_from_gives = { λ n answer. MatchResult answer (λ size. size.n ≡ n) (IsSizeRefusal n) };

    fn try_from(n: usize) -> Result<Size, Refusal> {
        check(size_ok(n), Refusal::Size)?;
        Ok(Size { n })
    }
}

impl Size {
    // The size of a block of so many samples. Refuses a size that is not allowed, and a block of another number of samples.
    #[tactic(auto, unfolding(crate::specs::Answer::samples_refusal))]
    pub fn of_block(n: usize, samples: usize) -> Result<Size, Refusal>
        ensures { (refusal_in result ≡ samples_refusal n samples) × IfOk result (λ size. (size.n ≡ n) × (samples ≡ n * n)) }
    {
        let size = Size::try_from(n)?;
        check(samples == n * n, Refusal::Length)?;
        Ok(size)
    }
}
