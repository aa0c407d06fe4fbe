// Reading one line of the record file.
ghost use Rattle.std.specs.Prelude.{◌≡◌};
ghost use Rattle.record_text.specs.Parsed.{exactly};
ghost use Rattle.record_text.specs.Line.{size_line, value_line, record_line, end_byte};
ghost use Rattle.record_text.specs.Told.{title_text, parsed, text_parsed};

use crate::field::{read_number, read_signed};
use crate::fields::SizeFields;
use crate::title::Title;
use record::Record;

// The bytes after a given text.
#[tactic(auto, using(crate::proofs::ParsedLaws::exactly_stripped))]
pub fn read_text<'a>(bytes: &'a [u8], text: &[u8]) -> Option<&'a [u8]>
    ensures { text_parsed result ≡ exactly text.now bytes.now }
{
    bytes.strip_prefix(text)
}

// The bytes after a title line.
pub fn read_title(bytes: &[u8], title: Title) -> Option<&[u8]>
    ensures { text_parsed result ≡ exactly (title_text title) bytes.now }
{
    read_text(bytes, title.bytes())
}

// The line of a table value: the value, and the bytes after the line.
#[tactic(auto, unfolding(crate::specs::Line::value_line))]
pub fn read_value_line(bytes: &[u8]) -> Option<(u32, &[u8])>
    ensures { parsed result ≡ value_line bytes.now }
{
    read_number(bytes, b'\n')
}

// The byte after a field: the line's end after the last of a line, else a space.
pub fn end_byte(last: bool) -> u8
    ensures { result ≡ end_byte last }
{
    if last { b'\n' } else { b' ' }
}

// The line of the size: n, width, height and the table count.
#[tactic(auto, using(crate::proofs::ReadSteps::signed_false), unfolding(crate::specs::Line::size_line))]
pub fn read_size_line(bytes: &[u8]) -> Option<(SizeFields, &[u8])>
    ensures { parsed result ≡ size_line bytes.now }
{
    let (n, rest) = read_number(bytes, b' ')?;
    let (width, rest) = read_number(rest, b' ')?;
    let (height, rest) = read_number(rest, b' ')?;
    let (values, rest) = read_number(rest, b'\n')?;
    let fields = SizeFields {
        n,
        width,
        height,
        values,
    };
    Some((fields, rest))
}

// The line of a record: kind, entry and the two offsets.
#[tactic(auto, using(crate::proofs::ReadSteps::signed_false), unfolding(crate::specs::Line::record_line))]
pub fn read_record_line(bytes: &[u8]) -> Option<(Record, &[u8])>
    ensures { parsed result ≡ record_line bytes.now }
{
    let (kind, rest) = read_number(bytes, b' ')?;
    let (entry, rest) = read_number(rest, b' ')?;
    let (off0, rest) = read_signed(rest, b' ')?;
    let (off1, rest) = read_signed(rest, b'\n')?;
    let record = Record {
        kind,
        entry,
        off0,
        off1,
    };
    Some((record, rest))
}
