// What is shown of a record file's bytes.
ghost use Rattle.std.specs.Prelude.{◌≡◌, ◌≤◌, length, unwrap_or};
ghost use Rattle.pattern.specs.Refusal.{told};
ghost use Rattle.record_print.specs.Put.{Written};
ghost use Rattle.record_file.specs.Reading.{aids_in};
ghost use Rattle.show_text.specs.Steps.{aids_by};
ghost use Rattle.show_text.specs.Showing.{size_in, aids_for, text_by, read_with, text_bytes, show_answer, show_after};

use crate::printing::{put_refusal, put_sheet};
use depth_table::VALUES;
use pattern::{GREATEST_SIZE, PatternList, Refusal, words_of};
use record_file::ReadInput;
use record_text::{Title, read_size_line, read_title};
use sheet::{MOST_BLOCKS, MOST_SAMPLES};
use wedgelet::LIST_WORDS;

// The bytes of its input that `show` reads (`file_bytes`): what follows them changes nothing, by the law `first-bytes`.
pub const FILE_BYTES: usize = 80 + 4 * VALUES + 32 * MOST_BLOCKS + 1;

// The bytes that are lent for the text (`text_bytes`).
pub const TEXT_BYTES: usize = 27 + 4 * MOST_SAMPLES;

// The size in a file: n of line 2 where lines 1 and 2 have their form.
#[tactic(auto, unfolding(crate::specs::Showing::size_in))]
fn size_in(bytes: &[u8]) -> Option<usize>
    ensures { unwrap_or result 0 ≡ size_in bytes.now }
{
    let rest = read_title(bytes, Title::Size)?;
    let (size, _) = read_size_line(rest)?;
    Some(size.n as usize)
}

// The size in a file and the wedgelet list for it, in the first of the words; none where the file names no size that is allowed.
#[tactic(auto, using(crate::proofs::AidLaws::none_for))]
fn build_list<'a>(
    bytes: &[u8],
    words: &'a mut [u64; LIST_WORDS],
) -> Option<(usize, PatternList<'a>)>
    ensures { aids_by result ≡ aids_for (size_in bytes.now) }
{
    let n = size_in(bytes)?;
    let count = wedgelet::wedgelets(n, words).ok()?;
    let words = &words[..words_of(n) * count];
    Some((n, PatternList { words, count }))
}

// What a file is read with where there is a list for its size alone, with none for the other sizes and no texture.
fn with_list<'a>(list: Option<(usize, PatternList<'a>)>) -> ReadInput<'a>
    ensures { aids_in result ≡ aids_by list.entry }
{
    let none = PatternList {
        words: &[],
        count: 0,
    };
    let input = ReadInput {
        list4: none,
        list8: none,
        list16: none,
        texture: b"",
    };
    match list {
        Some((4, list)) => ReadInput {
            list4: list,
            ..input
        },
        Some((8, list)) => ReadInput {
            list8: list,
            ..input
        },
        Some((GREATEST_SIZE, list)) => ReadInput {
            list16: list,
            ..input
        },
        _ => input,
    }
}

// The text of what reading finds, from the start of `out`; its length.
fn put_read(bytes: &[u8], input: ReadInput, out: &mut [u8]) -> usize
    requires { text_bytes ≤ length out.old }
    ensures { let A = aids_in input.entry in Written out.old out.new 0 (text_by A (read_with A bytes.now)) result }
{
    let mut samples = [0u8; MOST_SAMPLES];
    let mut records = [[0i32; 4]; MOST_BLOCKS];
    match record_read::read(bytes, input, &mut samples, &mut records) {
        Ok(back) => put_sheet(out, back.sheet, &samples),
        Err(refused) => put_refusal(out, refused),
    }
}

// Writes what `show` prints of a file's bytes to `out` and answers its length, or refuses with 2 and writes nothing.
#[tactic(auto, unfolding(crate::specs::Showing::show_answer, crate::specs::Showing::show_after))]
pub fn show_text(bytes: &[u8], out: &mut [u8]) -> Result<usize, Refusal>
    ensures answered { told (λ length. length) result ≡ show_answer bytes.now (length out.old) }
    ensures left { out.new ≡ show_after bytes.now out.old }
{
    pattern::check(TEXT_BYTES <= out.len(), Refusal::Length)?;
    let mut words = [0u64; LIST_WORDS];
    let list = build_list(bytes, &mut words);
    Ok(put_read(bytes, with_list(list), out))
}
