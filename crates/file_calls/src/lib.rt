// Calls for the outside tests and the benchmarks, which link libfile_calls.a: those of the record file, and the choice with the list lent.
// They are not part of include/depth_bench.h. C's interface needs their forms: a refusal's number beside zeros, and a list beside its
// count.
#![tactic(auto)]

ghost use Rattle.std.specs.Prelude.{◌≡◌, length};
ghost use Rattle.pattern.specs.Refusal.{told};
ghost use Rattle.pattern.specs.Words.{patterns_of};
ghost use Rattle.depth_bench.specs.Structs.{choice_struct};
ghost use Rattle.choice.specs.Case.{case_of};
ghost use Rattle.choice.specs.Answer.{choose_answer};
ghost use Rattle.sheet.specs.State.{state_of};
ghost use Rattle.record.specs.Lent.{record_at};
ghost use Rattle.record_file.specs.Writing.{source_of, write_answer, write_after};
ghost use Rattle.record_file.specs.Reading.{aids_of};
ghost use Rattle.record_read.specs.Back.{lent_of, back_told};
ghost use Rattle.file_calls.specs.Structs.{CallReads, file_read_of, file_written_of};

use depth_bench::Choice;
use depth_table::VALUES;
use pattern::{PatternList, Refusal};
use record_file::ReadInput;
use record_read::{FileBack, LineRefusal};
use sheet::Sheet;

// What reading answers: the number of a refusal (0 for none) and its line; where there is none, the finished state, and the table with its
// count.
#[repr(C)]
#[derive(Clone, Copy, Default)]
pub struct FileRead {
    pub refusal: u32,
    pub line: u32,
    pub n: u32,
    pub width: u32,
    pub height: u32,
    pub placed: u32,
    pub values: u32,
    pub table: [u8; VALUES],
}

// What writing answers: the length of the text, or the number of the refusal beside 0.
#[repr(C)]
#[derive(Clone, Copy, Default)]
pub struct FileWritten {
    pub refusal: u32,
    pub length: usize,
}

// What `record_read::read` answers, as C gets it.
impl From<Result<FileBack, LineRefusal>> for FileRead {
    ghost from_gives = { λ answer r. r ≡ file_read_of (back_told answer) };

    fn from(answer: Result<FileBack, LineRefusal>) -> FileRead {
        match answer {
            Ok(back) => {
                let table = back.table;
                FileRead {
                    refusal: 0,
                    line: 0,
                    n: back.sheet.n,
                    width: back.sheet.width,
                    height: back.sheet.height,
                    placed: back.sheet.placed,
                    values: back.values,
                    table,
                }
            }
            Err(refused) => FileRead {
                refusal: u32::from(refused.refusal),
                line: refused.line,
                ..FileRead::default()
            },
        }
    }
}

// What `record_write::write` answers, as C gets it.
impl From<Result<usize, Refusal>> for FileWritten {
    ghost from_gives = { λ answer w. w ≡ file_written_of (told (λ length. length) answer) };

    fn from(answer: Result<usize, Refusal>) -> FileWritten {
        match answer {
            Ok(length) => FileWritten { refusal: 0, length },
            Err(refusal) => FileWritten {
                refusal: u32::from(refusal),
                ..FileWritten::default()
            },
        }
    }
}

// Reads a file with a list for each size into the lent slices, as `record_read::read` does.
#[unsafe(no_mangle)]
pub extern "C" fn file_calls_read<'a>(
    bytes: &[u8],
    list4: &'a [u64],
    count4: usize,
    list8: &'a [u64],
    count8: usize,
    list16: &'a [u64],
    count16: usize,
    texture: &'a [u8],
    samples: &mut [u8],
    records: &mut [[i32; 4]],
) -> FileRead
    ensures { let A = aids_of list4.now count4 list8.now count8 list16.now count16 texture.now in
        let before = lent_of samples.old records.old in
        CallReads A before bytes.now result (lent_of samples.new records.new) }
{
    let input = ReadInput {
        list4: PatternList {
            words: list4,
            count: count4,
        },
        list8: PatternList {
            words: list8,
            count: count8,
        },
        list16: PatternList {
            words: list16,
            count: count16,
        },
        texture,
    };
    FileRead::from(record_read::read(bytes, input, samples, records))
}

// Writes the file of a state into the lent bytes, as `record_write::write` does.
#[unsafe(no_mangle)]
pub extern "C" fn file_calls_write(
    n: u32,
    width: u32,
    height: u32,
    placed: u32,
    list: &[u64],
    count: usize,
    table: &[u8],
    records: &[[i32; 4]],
    out: &mut [u8],
) -> FileWritten
    ensures answered { let W = source_of (state_of n width height placed) table.now (record_at records.now) in
        let l = patterns_of n list.now in
        result ≡ file_written_of (write_answer W l count (length records.now) (length out.old)) }
    ensures left { let W = source_of (state_of n width height placed) table.now (record_at records.now) in
        let l = patterns_of n list.now in
        out.new ≡ write_after W l count (length records.now) out.old }
{
    let sheet = Sheet {
        n,
        width,
        height,
        placed,
    };
    let list = PatternList { words: list, count };
    FileWritten::from(record_write::write(sheet, list, table, records, out))
}

// The record of least cost, as `choice::choose` finds it in the lent list.
#[unsafe(no_mangle)]
pub extern "C" fn file_calls_choose(
    n: usize,
    list: &[u64],
    count: usize,
    border: &[u8],
    original: &[u8],
    table: &[u8],
    reach: u32,
    texture: &[u8],
) -> Choice
    ensures { let C = case_of n (patterns_of n list.now) count border.now original.now
        table.now reach texture.now in
        result ≡ choice_struct (choose_answer C) }
{
    let input = choice::Input {
        n,
        list: PatternList { words: list, count },
        border,
        original,
        table,
        reach,
        texture,
    };
    Choice::from(choice::choose(input))
}
