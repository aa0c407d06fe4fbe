// Reading the text of the cases, and the fields in it.
use std::io;
use std::io::Read;

// As many bytes of standard input are read.
pub(crate) const TEXT: usize = 524288;

// What stands after a space: a number, or a bar with a letter.
#[derive(Clone, Copy)]
pub(crate) enum Field {
    Number(u64),
    Bar(u8),
}

// Reads the text until the array is full or the input ends, and gives the whole array, in which no byte past the input is changed. A loop,
// since std fills a slice only where the input has as many bytes. `show` and `compose_bench` have such a loop too: a shared one would be a
// public function of a library, and what a reader gives has no definition of which bytes, that a contract could state. The array is lent
// as one, since the prover runs out of stack where an array of this size is lent as a slice.
pub(crate) fn read_text<'a>(
    input: &mut impl Read,
    text: &'a mut [u8; TEXT],
) -> io::Result<&'a [u8]> {
    let mut done = 0;
    while done < TEXT {
        let read = input.read(&mut text[done..])?;
        if read == 0 {
            break;
        }
        done += read;
    }
    Ok(&text[..])
}

// The value of a digit in base 36; none for a byte that is none. `char::to_digit` takes capitals too, which the cases do not.
fn digit(b: u8) -> Option<u64> {
    match b {
        b'0'..=b'9' => Some(u64::from(b - b'0')),
        b'a'..=b'z' => Some(u64::from(b - b'a') + 10),
        _ => None,
    }
}

// The digits that come first, in a base of at most 36, and the bytes after them. In base 36 they are the word of a line.
pub(crate) fn split_digits(bytes: &[u8], base: u64) -> (&[u8], &[u8]) {
    let end = bytes
        .iter()
        .position(|b| digit(*b).is_none_or(|d| base <= d))
        .unwrap_or(bytes.len());
    bytes.split_at(end)
}

// The number that the digits that come first are in base 10 or 16, of which what does not fit goes, and the bytes after them.
fn value(bytes: &[u8], base: u64) -> (u64, &[u8]) {
    let (digits, rest) = split_digits(bytes, base);
    let value = digits
        .iter()
        .filter_map(|b| digit(*b))
        .fold(0u64, |value, d| {
            (value % 0x1000_0000_0000_0000)
                .wrapping_mul(base)
                .wrapping_add(d)
        });
    (value, rest)
}

// The number that comes first, after a minus one to be taken from 0, after an x one in base 16, and the bytes after it; none where there
// is no digit, minus or x.
fn number(bytes: &[u8]) -> Option<(u64, &[u8])> {
    let (first, after) = bytes.split_first()?;
    match first {
        b'-' => {
            let (magnitude, rest) = value(after, 10);
            Some((magnitude.wrapping_neg(), rest))
        }
        b'x' => Some(value(after, 16)),
        b'0'..=b'9' => Some(value(bytes, 10)),
        _ => None,
    }
}

// What comes after a space, a bar and its letter or a number, and the bytes after it; none where it is neither. A letter is any byte, 0
// past the text.
pub(crate) fn read_field(bytes: &[u8]) -> Option<(Field, &[u8])> {
    let (first, after) = bytes.split_first()?;
    if *first == b'|' {
        return Some(match after.split_first() {
            Some((letter, rest)) => (Field::Bar(*letter), rest),
            None => (Field::Bar(0), after),
        });
    }
    let (value, rest) = number(bytes)?;
    Some((Field::Number(value), rest))
}
