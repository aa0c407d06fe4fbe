// The contour of a block's texture.
ghost use Rattle.std.specs.Prelude.{◌≡◌, ◌+◌, ◌-◌, ◌*◌, ◌<◌, min, ltb, length, get_or};
ghost use Rattle.arith.specs.Bits.{bits};
ghost use Rattle.pattern.specs.Contour.{threshold};
ghost use Rattle.pattern.specs.Answer.{contour_answer};
ghost use Rattle.pattern.specs.Refusal.{told};
ghost use Rattle.pattern.specs.Size.{greatest_samples};
ghost use Rattle.pattern.specs.Words.{pattern_number};

use crate::refusals::Refusal;
use crate::size::Size;
use crate::words::Pattern;

// The sum of the four corner samples divided by 4, rounded down.
#[tactic(auto, unfolding(crate::specs::Contour::threshold))]
fn threshold(size: Size, texture: &[u8]) -> u32
    requires { length texture.now ≡ size.n * size.n }
    ensures { result ≡ threshold size.n texture.now }
{
    let n = size.n;
    let last = n - 1;
    let top = u32::from(texture[0]) + u32::from(texture[last]);
    let bottom = u32::from(texture[last * n]) + u32::from(texture[last * n + last]);
    (top + bottom) / 4
}

// One word: which of the samples from one place on, and at most 64 of them, are above a level.
#[tactic(auto, unfolding(arith::specs::Bits::bits))]
fn above(texture: &[u8], level: u32, at: usize) -> u64
    requires { at < greatest_samples }
    ensures { let t = texture.now in result ≡ bits (λ i. ltb level (get_or t (at + i) 0)) (min (length t - at) 64) }
{
    let end = texture.len();
    let samples = &texture[end.min(at)..end.min(at + 64)];
    samples.iter().rev().fold(0, |w, &sample| {
        (w << 1) + u64::from(level < u32::from(sample))
    })
}

// The contour of n * n texture samples.
#[tactic(auto, unfolding(crate::specs::Answer::contour_answer))]
pub fn contour(n: usize, texture: &[u8]) -> Result<Pattern, Refusal>
    ensures { told pattern_number result ≡ contour_answer n texture.now }
{
    let size = Size::of_block(n, texture.len())?;
    let level = threshold(size, texture);
    Ok(Pattern {
        words: std::array::from_fn(|i| above(texture, level, 64 * i)),
    })
}
