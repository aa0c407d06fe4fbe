// Sums of a block's samples by their marks: eight samples at a time, a sum is looked up by the byte that marks them.
ghost use Rattle.std.specs.Prelude.{◌≡◌, ℕ, ◌+◌, ◌*◌, ◌<◌, ◌≤◌, length, get_or, replicate};
ghost use Rattle.pattern.specs.Size.{greatest_samples};
ghost use Rattle.choice.specs.Sums.{Extended, EightSums, bytes_sum};

// A row of 256 sums for each eight samples of a block of the greatest size.
pub(crate) type SumRows = [[u16; 256]; 32];

// One sample more: behind the first `width` sums it puts the same with the sample added.
fn take_sample(sums: &mut [u16; 256], width: usize, sample: u8)
    requires { (2 * width ≤ 256) × ((i : ℕ) → i < width → get_or sums.old i 0 ≤ 2040) }
    ensures { Extended sums.old sums.new width sample }
{
    let x = u16::from(sample);
    sums.copy_within(..width, width);
    for sum in sums[width..2 * width].iter_mut() {
        *sum += x;
    }
}

// Puts the sums of all samples into the caller's array of zeros: in row r at b that of the samples from 8r on that the byte b marks. A
// sample's row and its bit are `k / 8` and `k % 8`, and by `chunks` there would be two loops.
#[inline(never)]
pub(crate) fn put_sums(samples: &[u8], sums: &mut SumRows)
    requires { (length samples.now ≤ greatest_samples) × (sums.old ≡ replicate 32 (replicate 256 0)) }
    ensures { EightSums (length samples.now) samples.now sums.new }
{
    for (k, &sample) in samples.iter().enumerate() {
        take_sample(&mut sums[k / 8], 1 << (k % 8), sample);
    }
}

// The sum of the samples from 64i on that a word marks. It adds up in a loop: with `map` and `sum` the proof that no sum is too large asks
// for the range of every number in the rows, and of rows of rows only that of a number that is read is known.
pub(crate) fn word_sum(sums: &SumRows, i: usize, w: u64) -> u32
    requires { i < 4 }
    ensures { result ≡ bytes_sum sums.now i w 8 }
{
    let mut sum: u32 = 0;
    for (k, &byte) in w.to_le_bytes().iter().enumerate() {
        sum += u32::from(sums[8 * i + k][usize::from(byte)]);
    }
    sum
}
