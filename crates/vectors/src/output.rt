// The fields of the answers, as they are printed.
ghost use Rattle.std.specs.Iterator.{IsFinite};

use pattern::Refusal;
use std::fmt::Display;
use std::io;

// A space and a number.
pub(crate) fn number(rt: &impl Print, x: impl Display + Drop) -> io::Result<()> {
    print!(rt; " {x}")
}

// A space, an x and the hexadecimal digits of a word.
pub(crate) fn word(rt: &impl Print, w: u64) -> io::Result<()> {
    print!(rt; " x{w:x}")
}

// The field `refused` and the refusal's number.
pub(crate) fn refused(rt: &impl Print, refusal: Refusal) -> io::Result<()> {
    let number = u32::from(refusal);
    print!(rt; " refused {number}")
}

// An answer, printed by a closure, or its refusal.
pub(crate) fn answer<T, F: FnOnce(T) -> io::Result<()>>(
    rt: &impl Print,
    answer: Result<T, Refusal>,
    tell: F,
) -> io::Result<()>
    requires { F.IsAlwaysCallable tell }
{
    match answer {
        Ok(answer) => tell(answer),
        Err(refusal) => refused(rt, refusal),
    }
}

// The checksum of some numbers and one more, from theirs, which is 0 of none.
fn summed(sum: u64, number: u64) -> u64 {
    (sum % 1000000007 * 31 + number % 1000000007) % 1000000007
}

// The field `checksum` and the checksum of some numbers.
fn checksum<I: Iterator<Item = u64>>(rt: &impl Print, numbers: I) -> io::Result<()>
    requires { I.Iterator.can_next numbers × IsFinite (I.Iterator.remaining numbers) }
{
    let sum = numbers.fold(0, summed);
    print!(rt; " checksum {sum}")
}

// The samples, where they are shown, and their checksum.
pub(crate) fn samples(rt: &impl Print, samples: &[u8], shown: bool) -> io::Result<()> {
    if shown {
        for sample in samples {
            number(rt, *sample)?;
        }
    }
    checksum(rt, samples.iter().map(|sample| u64::from(*sample)))
}

// The words from `first` on below `end`, and the checksum of all: of each its low half, then the high one.
pub(crate) fn words(rt: &impl Print, list: &[u64], first: usize, end: usize) -> io::Result<()> {
    for w in list.iter().take(end).skip(first) {
        word(rt, *w)?;
    }
    let halves = list.iter().flat_map(|w| [*w % 4294967296, *w / 4294967296]);
    checksum(rt, halves)
}

// The first records, as many as are shown, and the checksum of all: of each field its sign, then its magnitude.
pub(crate) fn records(rt: &impl Print, records: &[[i32; 4]], shown: usize) -> io::Result<()> {
    for z in records.iter().take(shown).flatten() {
        number(rt, *z)?;
    }
    let fields = records.iter().flatten();
    let numbers = fields.flat_map(|z| [u64::from(*z < 0), u64::from(z.unsigned_abs())]);
    checksum(rt, numbers)
}
