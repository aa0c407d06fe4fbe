// The lines before the records.
ghost use Rattle.std.specs.Prelude.{◌≡◌};
ghost use Rattle.record_file.specs.Reading.{head_lines};
ghost use Rattle.record_read.specs.Told.{head_lined};
ghost use Rattle.record_read.specs.Step.{FrontIs};

use crate::head::Head;
use crate::lines::{LineRefusal, read_values, size_line, title_line};
use arrayvec::ArrayVec;
use depth_table::VALUES;
use record_text::Title;
use sheet::Sheet;

// What the lines before the records hold, an empty sheet and the table, and the bytes after them.
#[derive(Drop)]
pub(crate) struct Front<'a> {
    pub sheet: Sheet,
    pub table: ArrayVec<u8, VALUES>,
    pub rest: &'a [u8],
}

// The first three lines: what the size line says, and the bytes after them.
fn read_head(bytes: &[u8], texture: usize) -> Result<(Head, &[u8]), LineRefusal>
    ensures { head_lined result ≡ head_lines texture bytes.now }
{
    let rest = title_line(bytes, Title::Size, 1)?;
    let (head, rest) = size_line(rest, texture)?;
    let rest = title_line(rest, Title::Depth, 3)?;
    Ok((head, rest))
}

// The lines before the records.
#[tactic(auto, using(crate::proofs::FrontLaws::head_few))]
pub(crate) fn read_front(bytes: &[u8], texture: usize) -> Result<Front, LineRefusal>
    ensures { FrontIs texture bytes.now result }
{
    let (head, rest) = read_head(bytes, texture)?;
    let (table, rest) = read_values(rest, head.values)?;
    let rest = title_line(rest, Title::Record, 4 + head.values)?;
    Ok(Front {
        sheet: head.sheet,
        table,
        rest,
    })
}
