// Writing texts, fields and lines at a place of lent bytes: all of a text where there is room, else nothing.
ghost use Rattle.std.specs.Prelude.{◌≡◌, ◌+◌, leb};
ghost use Rattle.record_text.specs.Field.{number_text};
ghost use Rattle.record_text.specs.Line.{value_text};
ghost use Rattle.record_text.specs.Told.{title_text};
ghost use Rattle.record_print.specs.Put.{Put, printed_if, number_printable};

use crate::cursor::Cursor;
use crate::write::{NUMERAL_END, field_length, write_field};
use record_text::Title;

// Whether so many bytes more go into a slice of a length, from a place on.
pub(crate) fn has_room(length: usize, at: usize, more: usize) -> bool
    ensures { result ≡ leb (at + more) length }
{
    length.checked_sub(at).is_some_and(|room| more <= room)
}

// Writes the bytes `text`, and answers the place after them; where there is no room it writes nothing and answers the same place, since
// whoever prints a whole text has checked its length once.
pub fn put_text(out: &mut [u8], from: Cursor, text: &[u8]) -> Cursor
    ensures { Put out.old out.new from text.now result }
{
    if !has_room(out.len(), from.at, text.len()) {
        return from;
    }
    let next = from.at + text.len();
    out[from.at..next].copy_from_slice(text);
    Cursor { at: next }
}

// A title line; nothing where there is no room, as in `put_text`.
pub fn put_title(out: &mut [u8], from: Cursor, title: Title) -> Cursor
    ensures { Put out.old out.new from (title_text title) result }
{
    put_text(out, from, title.bytes())
}

// A number and the byte `end`; nothing for a number without a numeral, since it is promised that this cannot fail.
pub fn put_number(out: &mut [u8], from: Cursor, x: u32, end: u8) -> Cursor
    ensures { Put out.old out.new from (printed_if (number_printable x) (number_text end x)) result }
{
    if x >= NUMERAL_END {
        return from;
    }
    let z = i64::from(x);
    let length = field_length(z);
    if !has_room(out.len(), from.at, length) {
        return from;
    }
    let next = from.at + length;
    write_field(out, next, z, end);
    Cursor { at: next }
}

// The line of a table value; nothing for a number without a numeral, as in `put_number`.
#[tactic(auto, unfolding(record_text::specs::Line::value_text))]
pub fn put_value_line(out: &mut [u8], from: Cursor, v: u32) -> Cursor
    ensures { Put out.old out.new from (printed_if (number_printable v) (value_text v)) result }
{
    put_number(out, from, v, b'\n')
}
