// Writing the fields of a line where they stand, each a number and the byte after it.
ghost use Rattle.std.specs.Prelude.{◌≡◌, ℕ, suc, ◌+◌, ◌≤◌, ◌<◌, ◌++◌, nat_abs, length, take, drop};
ghost use Rattle.record_text.specs.Numeral.{further_digits, numeral_end};
ghost use Rattle.record_text.specs.Field.{signed_text};

use itoa::write_digits;

// Numbers from here up have no numeral.
pub(crate) const NUMERAL_END: u32 = 100_000;

// How many digits the numeral of a number has.
fn digit_count(x: u64) -> usize
    ensures { result ≡ suc (further_digits 4 x) }
{
    if x < 10 {
        return 1;
    }
    if x < 100 {
        return 2;
    }
    if x < 1000 {
        return 3;
    }
    if x < 10000 {
        return 4;
    }
    5
}

// How many bytes a signed number and the byte after it are, at most seven.
pub(crate) fn field_length(z: i64) -> usize
    ensures is { (end : ℕ) → result ≡ length (signed_text end z) }
    ensures short { result ≤ 7 }
{
    let digits = digit_count(z.unsigned_abs());
    if z >= 0 { digits + 1 } else { digits + 2 }
}

// Writes a signed number and the byte `end` before the place `to`, and answers where they begin. The digits are written where they stand:
// those of a buffer of their own would be read again before the writes to it are done.
pub(crate) fn write_field(out: &mut [u8], to: usize, z: i64, end: u8) -> usize
    requires { (nat_abs z < numeral_end) × (length (signed_text end z) ≤ to) × (to ≤ length out.old) }
    ensures start { result + length (signed_text end z) ≡ to }
    ensures written { drop result out.new ≡ signed_text end z ++ drop to out.old }
    ensures before { take result out.new ≡ take result out.old }
{
    let last = to - 1;
    out[last] = end;
    let at = write_digits(z.unsigned_abs(), out, last);
    if z >= 0 {
        return at;
    }
    out[at - 1] = b'-';
    at - 1
}
