// Writing a line of numbers, from its last field to its first, where there is room. `SizeFields` and `Record` have no `Display`: their
// lines are promised byte by byte, and a `Display` promises nothing of its bytes.
ghost use Rattle.std.specs.Prelude.{◌≡◌, true, length};
ghost use Rattle.std.specs.List.{list_all};
ghost use Rattle.record_text.specs.Line.{line_text, size_text, record_text};
ghost use Rattle.record_print.specs.Put.{Put, printed_if, signed_printable, line_printable, size_printable, record_printable};

use crate::cursor::Cursor;
use crate::put::has_room;
use crate::write::{NUMERAL_END, field_length, write_field};
use record::Record;
use record_text::{SizeFields, end_byte};

// Whether each of a line's numbers has a numeral behind its sign.
fn all_printable(numbers: &[i64]) -> bool
    ensures { result ≡ list_all signed_printable numbers.now }
{
    numbers
        .iter()
        .all(|z| z.unsigned_abs() < u64::from(NUMERAL_END))
}

// How long a line of four numbers is.
fn line_length(numbers: &[i64; 4]) -> usize
    requires { (length numbers.now ≡ 4) × (list_all signed_printable numbers.now ≡ true) }
    ensures { result ≡ length (line_text numbers.now) }
{
    let [a, b, c, d] = *numbers;
    field_length(a) + field_length(b) + field_length(c) + field_length(d)
}

// A line of numbers; nothing where one has no numeral, since it is promised that this cannot fail.
fn put_line(out: &mut [u8], from: Cursor, numbers: [i64; 4]) -> Cursor
    requires { length numbers ≡ 4 }
    ensures { Put out.old out.new from (printed_if (line_printable numbers) (line_text numbers)) result }
{
    if !all_printable(&numbers) {
        return from;
    }
    let length = line_length(&numbers);
    if !has_room(out.len(), from.at, length) {
        return from;
    }
    let next = from.at + length;
    let mut at = next;
    for i in (0..4).rev() {
        at = write_field(out, at, numbers[i], end_byte(i == 3));
    }
    Cursor { at: next }
}

// The line of the size; nothing where a number has no numeral, as in `put_line`.
#[tactic(auto, unfolding(crate::specs::Put::size_printable, record_text::specs::Line::size_text))]
pub fn put_size_line(out: &mut [u8], from: Cursor, h: SizeFields) -> Cursor
    ensures { Put out.old out.new from (printed_if (size_printable h) (size_text h)) result }
{
    let numbers = [
        i64::from(h.n),
        i64::from(h.width),
        i64::from(h.height),
        i64::from(h.values),
    ];
    put_line(out, from, numbers)
}

// The line of a record; nothing where a number has no numeral, as in `put_line`.
#[tactic(auto, unfolding(crate::specs::Put::record_printable, record_text::specs::Line::record_text))]
pub fn put_record_line(out: &mut [u8], from: Cursor, r: Record) -> Cursor
    ensures { Put out.old out.new from (printed_if (record_printable r) (record_text r)) result }
{
    let numbers = [
        i64::from(r.kind),
        i64::from(r.entry),
        i64::from(r.off0),
        i64::from(r.off1),
    ];
    put_line(out, from, numbers)
}
