// Offsets, and the table value that an index and an offset give (document 01, "Predicted block").
ghost use Rattle.std.specs.Prelude.{◌≡◌, ◌<◌};
ghost use Rattle.arith.specs.Checks.{refusal};
ghost use Rattle.arith.specs.Distance.{clamped};
ghost use Rattle.pattern.specs.Refusal.{refusal_in, told};
ghost use Rattle.depth_table.specs.Offset.{offset_ok, offset_usable, offsets_ok, offsets_usable, offset_checks};
ghost use Rattle.depth_table.specs.Answer.{value_answer, depth};

use crate::{DepthIndex, DepthValue};
use pattern::{Refusal, check};

// Whether an offset is -255 to 255.
#[tactic(auto, unfolding(crate::specs::Offset::offset_ok))]
fn offset_ok(off: i32) -> bool
    ensures { result ≡ offset_ok off }
{
    off.unsigned_abs() <= 255
}

// Whether a table of so many values can use an offset: its absolute value is below their number.
#[tactic(auto, unfolding(crate::specs::Offset::offset_usable))]
fn offset_usable(values: usize, off: i32) -> bool
    ensures { result ≡ offset_usable values off }
{
    (off.unsigned_abs() as usize) < values
}

// Whether two offsets are both -255 to 255.
pub fn offsets_ok(off0: i32, off1: i32) -> bool
    ensures { result ≡ offsets_ok off0 off1 }
{
    offset_ok(off0) && offset_ok(off1)
}

// Whether a table of so many values can use both of two offsets.
pub fn offsets_usable(values: usize, off0: i32, off1: i32) -> bool
    ensures { result ≡ offsets_usable values off0 off1 }
{
    offset_usable(values, off0) && offset_usable(values, off1)
}

// Refuses two offsets that are not both allowed, or that a table of so many values cannot both use: 4, 24. They are two numbers and no
// pair, since all that has them, records, inputs and the calls for C, has them as two fields with names.
pub fn check_offsets(values: usize, off0: i32, off1: i32) -> Result<(), Refusal>
    ensures { refusal_in result ≡ refusal (offset_checks values off0 off1) 0 }
{
    check(offsets_ok(off0, off1), Refusal::Offset)?;
    check(offsets_usable(values, off0, off1), Refusal::OffsetPastTable)
}

// The place at an index plus an offset, clamped to the places of a table of so many values.
fn clamped_place(count: usize, index: DepthIndex, off: i32) -> usize
    requires { 0 < count }
    ensures { result ≡ clamped count index.0 off }
{
    index.0.saturating_add_signed(off as isize).min(count - 1)
}

// The table value at an index plus an offset, clamped; or refusal 3 where there is no value, or 4.
#[tactic(auto, unfolding(crate::specs::Answer::value_answer))]
pub fn value_at(table: &[u8], index: DepthIndex, off: i32) -> Result<DepthValue, Refusal>
    ensures { told depth result ≡ value_answer table.now index.0 off }
{
    check(!table.is_empty(), Refusal::Table)?;
    check(offset_ok(off), Refusal::Offset)?;
    Ok(DepthValue(table[clamped_place(table.len(), index, off)]))
}
