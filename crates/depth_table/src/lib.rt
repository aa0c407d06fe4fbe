// The depth table (document 01, "Depth table"): depth values, depth indices, and the index of the nearest value.
#![tactic(auto)]

mod offset;

ghost use Rattle.std.specs.Prelude.{◌≡◌, ◌<◌, cond, leb, length, MatchOption};
ghost use Rattle.pattern.specs.Refusal.{told};
ghost use Rattle.depth_table.specs.Table.{rising, table_ok, index_of};
ghost use Rattle.depth_table.specs.Answer.{nearest_answer, index_answer, place};

pub use offset::{check_offsets, offsets_ok, offsets_usable, value_at};
use pattern::{Refusal, check};
use std::cmp::min_by_key;

// A depth value, 0 to 255.
#[derive(Clone, Copy, Debug, PartialEq, Eq)]
pub struct DepthValue(pub u8);

// An index into a depth table. It never stands for a depth value.
#[derive(Clone, Copy, Debug, PartialEq, Eq)]
pub struct DepthIndex(pub usize);

// The most values of a depth table.
pub const VALUES: usize = 256;

// Whether the values rise strictly.
fn is_rising(table: &[u8]) -> bool
    ensures { result ≡ rising 0 table.now }
{
    table.is_sorted_by(|a, b| a < b)
}

// Whether the slice is a sound depth table: 1 to 256 values, strictly rising.
#[tactic(auto, using(crate::proofs::TableLaws::table_counted, crate::proofs::TableLaws::table_miscounted))]
pub fn is_table(table: &[u8]) -> bool
    ensures { result ≡ table_ok table.now }
{
    (1..=VALUES).contains(&table.len()) && is_rising(table)
}

// The index of the value nearest to d; of two equally near, the later, which in a rising table is the greater. None without a value.
fn nearest(table: &[u8], d: DepthValue) -> Option<DepthIndex>
    ensures { let t = table.now in MatchOption result (length t ≡ 0) (λ k. (0 < length t) × (k.0 ≡ index_of t d.0)) }
{
    let distances = table.iter().map(|&value| d.0.abs_diff(value));
    let nearest = distances.enumerate().reduce(
        |best, next|
            ensures { result ≡ cond (leb next.1 best.1) next best }
        { min_by_key(next, best, |item| item.1) },
    );
    nearest.map(|(k, _)| DepthIndex(k))
}

// The index of the value nearest to d of any values, rising or not: of two equally near, the later; or refusal 3 where there is none.
#[tactic(auto, unfolding(crate::specs::Answer::nearest_answer))]
pub fn nearest_index(table: &[u8], d: DepthValue) -> Result<DepthIndex, Refusal>
    ensures { told place result ≡ nearest_answer table.now d.0 }
{
    nearest(table, d).ok_or(Refusal::Table)
}

// The index of a depth, or refusal 3 where the table is not sound.
#[tactic(auto, using(crate::proofs::TableLaws::valued), unfolding(crate::specs::Answer::index_answer, crate::specs::Answer::index_refusal))]
pub fn index_of(table: &[u8], d: DepthValue) -> Result<DepthIndex, Refusal>
    ensures { told place result ≡ index_answer table.now d.0 }
{
    check(is_table(table), Refusal::Table)?;
    nearest(table, d).ok_or(Refusal::Table)
}
