// The fields of a case: the numbers of its line, and the slices that they give. What is missing in a line is read as 0 or as an empty
// slice; a list that is missing has as many words as fields come up to its line's last number.
use crate::reader;
use crate::reader::Field;
use pattern::Pattern;
use record::Record;
use sheet::Sheet;

// As many numbers and bars of a line are read.
const NUMBERS: usize = 4080;

// As many bars are kept, by the last four bits of their letters.
const BARS: usize = 16;

// As many numbers are read where a slice asks for more: then the same come again.
const FIELDS: usize = NUMBERS + BARS;

// The numbers of a line, 0 at a bar, and the place after the bar of each letter, in an array by the letter's last four bits, in which
// l, n, o, r, s, t and x differ: a map of std is on the heap, which the project does not use. The first place is that after the last
// number. An array that is filled where it stands: an `ArrayVec` of this size is cleared and copied some five times a line.
#[derive(Drop)]
pub(crate) struct Fields {
    numbers: [u64; NUMBERS],
    bars: [Option<usize>; BARS],
}

// Numbers of a line, read one after the other.
#[derive(Drop)]
pub(crate) struct Numbers<'a> {
    fields: &'a Fields,
    next: usize,
}

impl Numbers<'_> {
    // The next number, as `Fields::number` reads it.
    pub(crate) fn number(&mut self) -> u64 {
        let number = self.fields.number(self.next);
        self.next = self.next.saturating_add(1);
        number
    }

    // Fills a slice by what is made of each number from the next one on: of FIELDS numbers, then of the same again.
    fn fill<T: Drop, F: Fn(u64) -> T>(&self, out: &mut [T], make: F)
        requires { F.IsAlwaysCallable make }
    {
        for (i, item) in out.iter_mut().enumerate() {
            *item = make(self.fields.number(self.next.saturating_add(i % FIELDS)));
        }
    }

    // The next number as a length or a place.
    pub(crate) fn size(&mut self) -> usize {
        self.number() as usize
    }

    // The next number as one of 32 bits, what does not fit modulo 4294967296: `TryFrom` has no answer there.
    pub(crate) fn short(&mut self) -> u32 {
        (self.number() % 4294967296) as u32
    }

    // The next number as a signed one: below 65536 itself, else minus the magnitude of its negative, modulo 65536. `TryFrom` has no answer
    // for greater ones.
    pub(crate) fn signed(&mut self) -> i32 {
        let value = self.number();
        if value < 65536 {
            return value as i32;
        }
        -((value.wrapping_neg() % 65536) as i32)
    }

    // The pattern of the next four numbers.
    pub(crate) fn pattern(&mut self) -> Pattern {
        Pattern {
            words: std::array::from_fn(|_| self.number()),
        }
    }

    // The record of the next four numbers.
    pub(crate) fn record(&mut self) -> Record {
        Record {
            kind: self.short(),
            entry: self.short(),
            off0: self.signed(),
            off1: self.signed(),
        }
    }

    // The state of a sheet of the next four numbers.
    pub(crate) fn sheet(&mut self) -> Sheet {
        Sheet {
            n: self.short(),
            width: self.short(),
            height: self.short(),
            placed: self.short(),
        }
    }
}

// The first k elements of a slice, or all of them where there are fewer.
pub(crate) fn first<T>(s: &mut [T], k: usize) -> &mut [T] {
    let end = k.min(s.len());
    &mut s[..end]
}

// Pseudo-random samples from a seed. A step is made before each. `compose_bench` makes such samples too: a shared generator would be a
// public function of a library for tests alone.
fn randomize(seed: u64, out: &mut [u8]) {
    let mut state = seed;
    out.fill_with(|| {
        state = (state % 2147483648 * 1103515245 + 12345) % 2147483648;
        (state / 65536 % 256) as u8
    });
}

// Samples from a start on in steps of one width. A step is made before each.
fn climb(start: u64, step: u64, out: &mut [u8]) {
    let mut state = start;
    out.fill_with(|| {
        state = state % 2147483648 + step % 2147483648;
        (state % 256) as u8
    });
}

impl Fields {
    // No fields yet.
    pub(crate) fn new() -> Fields {
        Fields {
            numbers: [0; NUMBERS],
            bars: [None; BARS],
        }
    }

    // Reads the fields that come first, one space before each, and gives the bytes after them; none where a space has no field after it.
    pub(crate) fn read<'a>(&mut self, bytes: &'a [u8]) -> Option<&'a [u8]> {
        let mut rest = bytes;
        // A loop, since each field is read from the bytes that the one before left, and its number is the place of a bar.
        for i in 0..NUMBERS {
            let Some((b' ', after)) = rest.split_first() else {
                break;
            };
            let (field, after) = reader::read_field(after)?;
            let (number, letter) = match field {
                Field::Number(value) => (value, 0),
                Field::Bar(letter) => (0, letter),
            };
            self.numbers[i] = number;
            self.bars[usize::from(letter) % BARS] = Some(i + 1);
            rest = after;
        }
        Some(rest)
    }

    // Number k of the line, 0 where it has no such number; past NUMBERS the places after its bars are read as numbers.
    fn number(&self, k: usize) -> u64 {
        match k.checked_sub(NUMBERS) {
            None => self.numbers.get(k).copied().unwrap_or(0),
            Some(bar) => self
                .bars
                .get(bar)
                .copied()
                .flatten()
                .map_or(0, |place| place as u64),
        }
    }

    // The numbers of the line.
    pub(crate) fn line(&self) -> Numbers {
        Numbers {
            fields: self,
            next: 0,
        }
    }

    // The numbers after the bar with a letter; where there is none, those from the last place of the numbers on.
    pub(crate) fn after(&self, letter: u8) -> Numbers {
        let place = self.bars[usize::from(letter) % BARS];
        Numbers {
            fields: self,
            next: place.unwrap_or(NUMBERS - 1),
        }
    }

    // The slice of samples after the bar with a letter, made in the lent one: its length and a rule, then for rule 0 the samples, for rule
    // 1 the seed, for rule 2 the start and the width of the steps. A rule is a number, since an enum would be made of it and matched here
    // alone.
    pub(crate) fn samples<'a>(&self, letter: u8, out: &'a mut [u8]) -> &'a mut [u8] {
        let mut numbers = self.after(letter);
        let made = first(out, numbers.size());
        match numbers.number() {
            0 => numbers.fill(made, |number| (number % 256) as u8),
            1 => randomize(numbers.number(), made),
            _ => climb(numbers.number(), numbers.number(), made),
        }
        made
    }

    // The list, made in the lent slice: a size for which it is built, the number of words, then how many words are put in from the start,
    // and these.
    pub(crate) fn list<'a>(&self, out: &'a mut [u64]) -> &'a mut [u64] {
        let mut numbers = self.after(b'l');
        let _ = wedgelet::wedgelets(numbers.size(), out);
        let count = numbers.size();
        let given = numbers.size();
        numbers.fill(first(out, given), |word| word);
        first(out, count)
    }
}
