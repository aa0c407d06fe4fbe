// Reading one field: a number and the byte after it.
ghost use Rattle.std.specs.Prelude.{◌≡◌, ◌+◌, ◌*◌, ◌^◌, ◌<◌, ◌≤◌, true, SomeIff, IfSome};
ghost use Rattle.record_text.specs.Numeral.{numeral_end};
ghost use Rattle.record_text.specs.Parsed.{and_then};
ghost use Rattle.record_text.specs.Field.{digit_in, more_digits, digit_room, number, after_minus, signed};
ghost use Rattle.record_text.specs.Told.{parsed};

// The value of a digit; none for another byte.
fn digit(b: u8) -> Option<u32>
    ensures { SomeIff result (digit_in b < 10) (digit_in b) }
{
    char::from(b).to_digit(10)
}

// At most `most` digits more after those of `first`, and the byte `end`: their value, and the bytes after them. The bytes and `end` are
// in no struct: the bytes are others at each call, and it would be made anew for each.
#[tactic(auto, using(crate::proofs::ReadSteps::digit_steps))]
fn read_digits(bytes: &[u8], end: u8, most: usize, first: u32) -> Option<(u32, &[u8])>
    requires { (first + 1) * 10 ^ most ≤ numeral_end }
    ensures { parsed result ≡ more_digits end most first bytes.now }
{
    let mut value = first;
    for (i, &b) in bytes.iter().enumerate() {
        if b == end {
            return Some((value, &bytes[i + 1..]));
        }
        if i == most {
            return None;
        }
        value = value * 10 + digit(b)?;
    }
    None // the bytes end before the field does
}

// How many digits may follow the first digit d.
fn digit_room(d: u32) -> usize
    ensures { result ≡ digit_room d }
{
    if d == 0 { 0 } else { 4 }
}

// A numeral of one to five digits without leading zeros, and the byte `end`: its value, and the bytes after them.
#[tactic(auto, using(crate::proofs::ReadSteps::number_steps))]
pub(crate) fn read_number(bytes: &[u8], end: u8) -> Option<(u32, &[u8])>
    ensures value { parsed result ≡ number end bytes.now }
    ensures small { IfSome result (λ p. p.0 < numeral_end) }
{
    let (&b, rest) = bytes.split_first()?;
    let d = digit(b)?;
    read_digits(rest, end, digit_room(d), d)
}

// A nonzero numeral, and the byte `end`: the number below 0 whose minus stands before them, and the bytes after them.
fn read_negative(bytes: &[u8], end: u8) -> Option<(i32, &[u8])>
    ensures { parsed result ≡ and_then (number end bytes.now) after_minus }
{
    let (v, rest) = read_number(bytes, end)?;
    if v == 0 {
        return None;
    }
    Some((-v.cast_signed(), rest))
}

// A numeral, or a minus and a nonzero numeral, and the byte `end`: the number, and the bytes after them.
#[tactic(auto, using(crate::proofs::ReadSteps::signed_minus, crate::proofs::ReadSteps::signed_plain))]
pub(crate) fn read_signed(bytes: &[u8], end: u8) -> Option<(i32, &[u8])>
    ensures { parsed result ≡ signed true end bytes.now }
{
    if let Some(magnitude) = bytes.strip_prefix(b"-") {
        return read_negative(magnitude, end);
    }
    let (v, rest) = read_number(bytes, end)?;
    Some((v.cast_signed(), rest))
}
