// The lines of the records: each is parsed, and its record placed on the sheet so far.
ghost use Rattle.std.specs.Prelude.{◌≡◌, ◌≤◌, length};
ghost use Rattle.record_text.specs.Lines.{ended};
ghost use Rattle.record_read.specs.Told.{end_lined};
ghost use Rattle.sheet.specs.Place.{Fits};
ghost use Rattle.sheet.specs.Told.{material_in};
ghost use Rattle.record_read.specs.Step.{Steps, Begun, ReadsAll};

use crate::lines::{LineRefusal, at_line, bad_form};
use record::Record;
use record_text::read_record_line;
use sheet::{PlaceInput, Sheet};

// Where reading has come to: the bytes that remain, the number of the line there, and the sheet so far.
#[derive(Clone, Copy)]
pub(crate) struct Reading<'a> {
    pub rest: &'a [u8],
    pub line: u32,
    pub sheet: Sheet,
}

// The line of the next block's record: the record is placed on the samples, or refused at its line. `Fits` is a clause, as at `Drawing` of
// the crate `sheet`: a struct that holds a `&mut` slice needs a clause in each function that it still is the same slice.
fn read_block<'a>(
    from: Reading<'a>,
    samples: &mut [u8],
    input: PlaceInput,
) -> Result<(Record, Reading<'a>), LineRefusal>
    requires { (Fits from.sheet (material_in from.sheet.n input) (length samples.old)) × (from.line ≤ 10000) }
    ensures { Steps input.entry from.entry samples.old samples.new result }
{
    let line = from.line;
    let (record, rest) = read_record_line(from.rest).ok_or(bad_form(line))?;
    let placed = from.sheet.place_from_values(samples, input, record);
    let sheet = at_line(placed, line)?;
    Ok((
        record,
        Reading {
            rest,
            line: line + 1,
            sheet,
        },
    ))
}

// The end of the bytes: what is left is refused as the line after the last.
fn check_end(from: Reading) -> Result<(), LineRefusal>
    ensures { let r = from.entry in end_lined result ≡ ended r.line tt r.rest.now }
{
    if from.rest.is_empty() {
        Ok(())
    } else {
        Err(bad_form(from.line))
    }
}

// The lines of all blocks' records, and the end of the bytes after them: each record is placed on the samples and stored. The finished
// state is answered. The samples and the records are in no struct, since they are `&mut` slices, as in `read_block`.
#[tactic(auto, using(crate::proofs::StepLaws::turns))]
pub(crate) fn read_blocks(
    from: Reading,
    samples: &mut [u8],
    input: PlaceInput,
    records: &mut [[i32; 4]],
) -> Result<Sheet, LineRefusal>
    requires { Begun input from (length samples.old) (length records.old) }
    ensures { ReadsAll input.entry from.entry samples.old (samples.new, records.new) result }
{
    let mut next = from;
    for place in records.iter_mut() {
        let (record, after) = read_block(next, samples, input)?;
        *place = record.into();
        next = after;
    }
    check_end(next)?;
    Ok(next.sheet)
}
