// A refused line, and lines that are judged by their form and then by their meaning.
ghost use Rattle.std.specs.Prelude.{◌≡◌, ◌≤◌};
ghost use Rattle.depth_table.specs.Table.{most_values};
ghost use Rattle.arith.specs.Checks.{answer};
ghost use Rattle.pattern.specs.Refusal.{told};
ghost use Rattle.record_text.specs.Parsed.{exactly};
ghost use Rattle.record_text.specs.Line.{size_line, value_line};
ghost use Rattle.record_text.specs.Lines.{line as judged_line, no_meaning, read};
ghost use Rattle.record_text.specs.Told.{title_text};
ghost use Rattle.record_file.specs.Reading.{size_meaning, value_meaning, value_lines};
ghost use Rattle.record_read.specs.Told.{at_line, lined, lined_by, head_fields, head_lined, text_lined};

use crate::head::Head;
use arrayvec::ArrayVec;
use depth_table::VALUES;
use pattern::{Refusal, check, texture_ok};
use record_text::{SizeFields, Title, read_size_line, read_title, read_value_line};
use sheet::Sheet;

// A refusal and the line that it is given for, counted from 1. It is 0 where no line is read, as it is shown to people and to C, so that
// an `Option` would only be made a 0 again.
#[derive(Clone, Copy)]
pub struct LineRefusal {
    pub refusal: Refusal,
    pub line: u32,
}

// The refusal of a line that has another form.
pub(crate) fn bad_form(line: u32) -> LineRefusal
    ensures { (result.refusal ≡ Refusal.Form) × (result.line ≡ line) }
{
    LineRefusal {
        refusal: Refusal::Form,
        line,
    }
}

// An answer, its refusal given for a line.
pub(crate) fn at_line<T>(answer: Result<T, Refusal>, line: u32) -> Result<T, LineRefusal>
    ensures { result ≡ at_line line answer }
{
    answer.map_err(|refusal| LineRefusal { refusal, line })
}

// A title line. The bytes and the number of a line are in no struct: both are others at each line, and it would be made anew for each.
pub(crate) fn title_line(bytes: &[u8], title: Title, line: u32) -> Result<&[u8], LineRefusal>
    ensures { text_lined result ≡ judged_line line (exactly (title_text title) bytes.now) no_meaning read }
{
    read_title(bytes, title).ok_or(bad_form(line))
}

// What the size line's numbers say, or what is refused of them, where texture of so many samples is lent.
#[tactic(auto, using(crate::proofs::ReadLaws::head_refused, crate::proofs::ReadLaws::head_empty))]
fn new_head(size: SizeFields, texture: usize) -> Result<Head, Refusal>
    ensures { told head_fields result ≡ answer (size_meaning texture size) size }
{
    let sheet = Sheet::new(size.n, size.width, size.height)?;
    check(texture_ok(texture, sheet.area()), Refusal::Length)?;
    let values = size.values;
    check(1 <= values && values as usize <= VALUES, Refusal::Table)?;
    Ok(Head { sheet, values })
}

// The size line.
pub(crate) fn size_line(bytes: &[u8], texture: usize) -> Result<(Head, &[u8]), LineRefusal>
    ensures { head_lined result ≡ judged_line 2 (size_line bytes.now) (size_meaning texture) read }
{
    let line = 2;
    let (size, rest) = read_size_line(bytes).ok_or(bad_form(line))?;
    let head = at_line(new_head(size, texture), line)?;
    Ok((head, rest))
}

// The line of a table value that is to be at least `low`.
#[tactic(auto, unfolding(record_file::specs::Reading::value_meaning))]
pub(crate) fn value_line(bytes: &[u8], low: u32, line: u32) -> Result<(u8, &[u8]), LineRefusal>
    ensures { lined result ≡ judged_line line (value_line bytes.now) (value_meaning low) read }
{
    let (value, rest) = read_value_line(bytes).ok_or(bad_form(line))?;
    let sound = check(low <= value && value < 256, Refusal::Table);
    at_line(sound, line)?;
    Ok((value as u8, rest))
}

// The lines of a table's values, from line 4 on, and the bytes after them. The loop has the line's number, since a refusal names its own.
pub(crate) fn read_values(
    bytes: &[u8],
    values: u32,
) -> Result<(ArrayVec<u8, VALUES>, &[u8]), LineRefusal>
    requires { values ≤ most_values }
    ensures { lined_by (λ p. p.0.items) (λ p. p.1.now) result ≡ value_lines values 4 bytes.now }
{
    let mut table = ArrayVec::new();
    let mut rest = bytes;
    let mut low = 0;
    for line in 4..4 + values {
        let (value, after) = value_line(rest, low, line)?;
        table.push(value);
        low = u32::from(value) + 1;
        rest = after;
    }
    Ok((table, rest))
}
