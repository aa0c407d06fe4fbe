// Composes one sheet, to be timed from outside: 128 by 128 samples where standard input begins with the byte 8, else 64 by 64; in
// blocks of 4 or 16 where the next byte is 4 or 6, else of 8. It prints the side and the number of records written.
#![tactic(auto)]

ghost use Rattle.std.specs.Prelude.{◌≤◌, length, IfOk};

use pattern::{PatternList, Refusal};
use sheet::{ComposeInput, MOST_BLOCKS, MOST_SAMPLES, PlaceInput, Sheet};
use std::io;
use std::io::Read;
use wedgelet::LIST_WORDS;

// Reads until the slice is full or the input ends; the number of bytes read. A loop, since std fills a slice only where the input has as
// many bytes. `show` and `vectors` have such a loop too: a shared one would be a public function of a library, and what a reader gives has
// no definition of which bytes, that a contract could state.
fn read_full(input: &mut impl Read, buf: &mut [u8]) -> io::Result<usize>
    ensures { IfOk result (λ n. n ≤ length buf.new) }
{
    let mut done = 0;
    while done < buf.len() {
        let read = input.read(&mut buf[done..])?;
        if read == 0 {
            break;
        }
        done += read;
    }
    Ok(done)
}

// The block size that the second byte asks for.
fn size(byte: Option<&u8>) -> u32 {
    match byte {
        Some(b'4') => 4,
        Some(b'6') => 16,
        _ => 8,
    }
}

// The values 0 to 255.
fn table() -> [u8; 256] {
    std::array::from_fn(|value| value as u8)
}

// Original samples that fall into no pattern. `vectors` makes such samples too: a shared generator would be a public function of a library
// for tests alone.
fn original<const AREA: usize>() -> [u8; AREA] {
    let mut state: u64 = 1;
    std::array::from_fn(|_| {
        state = (state % 2147483648 * 1103515245 + 12345) % 2147483648;
        (state / 65536 % 256) as u8
    })
}

// Composes a new sheet of AREA samples, as wide as high, in blocks of n; the number of records written. AREA stands beside the side, since
// an array's length is no product of a const parameter.
fn written<const AREA: usize>(n: u32, side: u32) -> Result<usize, Refusal>
    requires { AREA ≤ 16384 }
{
    let sheet = Sheet::new(n, side, side)?;
    let mut words = [0u64; LIST_WORDS];
    let count = wedgelet::wedgelets(n as usize, &mut words)?;
    let mut samples = [0u8; AREA];
    let mut records = [[0i32; 4]; MOST_BLOCKS];
    let list = PatternList {
        words: &words,
        count,
    };
    let place = PlaceInput {
        list,
        table: &table(),
        texture: b"",
    };
    let input = ComposeInput {
        place,
        original: &original::<AREA>(),
        reach: 5,
    };
    let composed = sheet.compose(&mut samples, input, &mut records)?;
    Ok(composed.written)
}

fn main(rt: HostRuntime) -> io::Result<()> {
    let mut bytes = [0u8; 2];
    let read = read_full(&mut rt.reader(), &mut bytes)?;
    let asked = &bytes[..read];
    let n = size(asked.get(1));
    let (side, written) = match asked.first() {
        Some(b'8') => (128, written::<MOST_SAMPLES>(n, 128)),
        _ => (64, written::<4096>(n, 64)),
    };
    match written {
        Ok(count) => println!(rt; "{side} {count}"),
        Err(refusal) => {
            let number = u32::from(refusal);
            println!(rt; "{side} refused {number}")
        }
    }
}
