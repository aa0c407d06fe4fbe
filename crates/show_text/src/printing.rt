// Printing a sheet and a refusal.
ghost use Rattle.std.specs.Prelude.{◌≡◌, ◌+◌, ◌*◌, ◌<◌, ◌≤◌, length};
ghost use Rattle.pattern.specs.Refusal.{number_of};
ghost use Rattle.record_text.specs.Numeral.{numeral_end};
ghost use Rattle.record_print.specs.Put.{Written};
ghost use Rattle.show_text.specs.Printed.{pair_text, sides_text, rows_text, sheet_text, refusal_text};
ghost use Rattle.sheet.specs.State.{area};
ghost use Rattle.sheet_grid.specs.Grid.{most_samples};
ghost use Rattle.show_text.specs.Steps.{SheetFits};

use record_print::{Cursor, put_number, put_text, put_title};
use record_read::LineRefusal;
use record_text::{Title, end_byte};
use sheet::Sheet;

// Two numbers on a line; the place after it.
fn put_pair(out: &mut [u8], from: Cursor, a: u32, b: u32) -> Cursor
    requires { (a < numeral_end) × (b < numeral_end) × (from.at + 12 ≤ length out.old) }
    ensures { Written out.old out.new from.at (pair_text a b) result.at }
{
    let next = put_number(out, from, a, b' ');
    put_number(out, next, b, b'\n')
}

// The lines before the sample rows; the place after them.
fn put_sides(out: &mut [u8], width: u32, height: u32) -> Cursor
    requires { (width ≤ 128) × (height ≤ 128) × (27 ≤ length out.old) }
    ensures { Written out.old out.new 0 (sides_text width height) result.at }
{
    let title = put_text(out, Cursor { at: 0 }, b"width height\n");
    let sides = put_pair(out, title, width, height);
    put_title(out, sides, Title::Depth)
}

// The sample rows; the place after them. The samples are numbered through in one loop: with `chunks_exact` a second function would have
// to print a row, and its last sample would still be told from the others by its number.
fn put_rows(out: &mut [u8], from: Cursor, sheet: Sheet, samples: &[u8]) -> Cursor
    requires samples_held { (area sheet ≤ most_samples) × (area sheet ≤ length samples.now) }
    requires has_room { from.at + 4 * area sheet ≤ length out.old }
    ensures { Written out.old out.new from.at (rows_text sheet.width sheet.height samples.now) result.at }
{
    let mut next = from;
    for (i, sample) in samples[..sheet.area()].iter().enumerate() {
        let depth = u32::from(*sample);
        let end = end_byte((i + 1) % sheet.width as usize == 0);
        next = put_number(out, next, depth, end);
    }
    next
}

// The text of a sheet from the start of `out`; its length.
#[tactic(auto, using(crate::proofs::PrintLaws::rows_room))]
pub(crate) fn put_sheet(out: &mut [u8], sheet: Sheet, samples: &[u8]) -> usize
    requires { SheetFits sheet.width sheet.height (length samples.now) (length out.old) }
    ensures { Written out.old out.new 0 (sheet_text sheet.width sheet.height samples.now) result }
{
    let sides = put_sides(out, sheet.width, sheet.height);
    put_rows(out, sides, sheet, samples).at
}

// The text of a refusal from the start of `out`; its length.
pub(crate) fn put_refusal(out: &mut [u8], refused: LineRefusal) -> usize
    requires { (refused.line < numeral_end) × (25 ≤ length out.old) }
    ensures { Written out.old out.new 0 (refusal_text (number_of refused.refusal) refused.line) result }
{
    let title = put_text(out, Cursor { at: 0 }, b"refusal line\n");
    let number = u32::from(refused.refusal);
    put_pair(out, title, number, refused.line).at
}
