// A block as an array of row arrays, filled up to its size.
ghost use Rattle.std.specs.Prelude.{ℕ, ◌≡◌, ◌+◌, ◌*◌, ◌<◌, ◌≤◌, length};
ghost use Rattle.arith.specs.Lists.{upto};
ghost use Rattle.pattern.specs.Answer.{samples_refusal};
ghost use Rattle.pattern.specs.Refusal.{refusal_in};
ghost use Rattle.block.specs.Block.{capacity, block_by, samples_of};
ghost use Rattle.block.specs.Answer.{block_after, size_refusal, transposed_after, samples_after};

use pattern::{Refusal, Size};

// The rows and columns that a block has room for.
pub const CAPACITY: usize = pattern::GREATEST_SIZE;

// Sample (x, y) is b[y][x]. The array has room for the greatest block, and its n stands beside it: a block goes by value, and there is no
// heap.
pub type Block = [[u8; CAPACITY]; CAPACITY];

// The row whose sample x is f(x), with 0 past its n samples.
fn row_by<F: Fn(usize) -> u8>(size: Size, f: F) -> [u8; CAPACITY]
    requires { (x : ℕ) → x < size.n → F.pre f x }
    ensures { (g : ℕ → ℕ) → ((x s : ℕ) → x < size.n → F.post f x s → s ≡ g x) → result ≡ upto capacity size.n g 0 }
{
    let n = size.n;
    std::array::from_fn(
        |x|
            requires { x < n → F.pre f x }
            ensures { (x < n → F.post f x result) × (n ≤ x → result ≡ 0) }
        { if x < n { f(x) } else { 0 } },
    )
}

// The block whose sample (x, y) is f(x, y), with 0 past its n rows and columns. The rows are filled by a loop, as `from_fn` would need
// a contract at a closure around the one at `row_by`.
fn block_by<F: Fn(usize, usize) -> u8>(size: Size, f: F) -> Block
    requires { (x y : ℕ) → x < size.n → y < size.n → F.pre f x y }
    ensures { let n = size.n in
        (g : ℕ → ℕ → ℕ) → ((x y s : ℕ) → x < n → y < n → F.post f x y s → s ≡ g x y) → result ≡ block_by capacity n g }
{
    let mut b = [[0; CAPACITY]; CAPACITY];
    for (y, row) in b[..size.n].iter_mut().enumerate() {
        *row = row_by(
            size,
            |x|
                requires { F.pre f x y }
                ensures { F.post f x y result }
            { f(x, y) },
        );
    }
    b
}

// Makes b the block of n * n samples that come row by row; a refusal, 1 or 2, alters nothing.
#[tactic(auto, using(crate::proofs::BlockLaws::place_fits), unfolding(crate::specs::Answer::block_after))]
pub fn block_of(n: usize, samples: &[u8], b: &mut Block) -> Result<(), Refusal>
    ensures { let s = samples.now in
        (refusal_in result ≡ samples_refusal n (length s)) × (b.new ≡ block_after n s b.old) }
{
    let size = Size::of_block(n, samples.len())?;
    *b = block_by(size, |x, y| samples[y * n + x]);
    Ok(())
}

// Transposes the block over its main diagonal, with 0 past its n rows and columns; refusal 1 alters nothing.
#[tactic(auto, unfolding(crate::specs::Answer::size_refusal, crate::specs::Answer::transposed_after))]
pub fn transpose(n: usize, b: &mut Block) -> Result<(), Refusal>
    ensures { (refusal_in result ≡ size_refusal n) × (b.new ≡ transposed_after n b.old) }
{
    let size = Size::try_from(n)?;
    *b = block_by(size, |x, y| b[x][y]);
    Ok(())
}

// The samples of a block row by row, written to the slice. The places of a row are cut out by its number: by `chunks_exact_mut` the proof
// did not close, as nothing is known of a slice after a loop over its chunks.
fn put_samples(size: Size, b: Block, samples: &mut [u8])
    requires { length samples.old ≡ size.n * size.n }
    ensures { samples.new ≡ samples_of size.n b }
{
    let n = size.n;
    for (y, row) in b[..n].iter().enumerate() {
        let at = y * n;
        samples[at..at + n].copy_from_slice(&row[..n]);
    }
}

// The samples of a block row by row, written to the lent slice; a refusal, 1 or 2, alters nothing.
#[tactic(auto, unfolding(crate::specs::Answer::samples_after))]
pub fn write_block(n: usize, b: Block, samples: &mut [u8]) -> Result<(), Refusal>
    ensures { let old = samples.old in
        (refusal_in result ≡ samples_refusal n (length old)) × (samples.new ≡ samples_after n b old) }
{
    let size = Size::of_block(n, samples.len())?;
    put_samples(size, b, samples);
    Ok(())
}
