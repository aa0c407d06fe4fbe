// Writing a record file.
ghost use Rattle.std.specs.Prelude.{◌≡◌, ℕ, ◌+◌, ◌*◌, ◌<◌, ◌≤◌, length};
ghost use Rattle.pattern.specs.Refusal.{told};
ghost use Rattle.pattern.specs.Words.{patterns_of};
ghost use Rattle.record_text.specs.Line.{value_text, record_text};
ghost use Rattle.record_text.specs.Lines.{texts};
ghost use Rattle.record_print.specs.Put.{Written};
ghost use Rattle.arith.specs.Lists.{list_of};
ghost use Rattle.record.specs.Lent.{record_at};
ghost use Rattle.record_file.specs.Text.{head_text};
ghost use Rattle.sheet.specs.State.{blocks_of};
ghost use Rattle.record_file.specs.Writing.{space_for, Small, HeadFits, source_of, written_text, write_answer, write_after};

use crate::source::Source;
use pattern::{PatternList, Refusal};
use record::Record;
use record_print::{Cursor, put_record_line, put_size_line, put_title, put_value_line};
use record_text::{SizeFields, Title};
use sheet::Sheet;

// The lines of the table values; the place after them. The records have a loop of their own: the contract of one loop over a closure would
// be longer, on what each call of the closure writes for every text of an item, and each caller would prove which items are printed.
fn put_values(out: &mut [u8], from: Cursor, table: &[u8]) -> Cursor
    requires { from.at + 4 * length table.now ≤ length out.old }
    ensures written { Written out.old out.new from.at (texts value_text table.now) result.at }
    ensures short { result.at ≤ from.at + 4 * length table.now }
{
    let mut next = from;
    for &v in table {
        next = put_value_line(out, next, u32::from(v));
    }
    next
}

// The lines of the records; the place after them.
fn put_records(out: &mut [u8], from: Cursor, records: &[[i32; 4]]) -> Cursor
    requires has_room { from.at + 32 * length records.now ≤ length out.old }
    requires small_records { (i : ℕ) → i < length records.now → Small (record_at records.now i) }
    ensures { let text = texts record_text (list_of (record_at records.now) (length records.now)) in
        Written out.old out.new from.at text result.at }
{
    let mut next = from;
    for r in records {
        next = put_record_line(out, next, Record::from(*r));
    }
    next
}

impl<'a> Source<'a> {
    // The first three lines; the place after them.
    fn put_head(self, out: &mut [u8]) -> Cursor
        requires { (HeadFits self.sheet (length self.table.now)) × (80 ≤ length out.old) }
        ensures { let S = self.entry.sheet in
            Written out.old out.new 0 (head_text S.n S.width S.height (length self.entry.table.now)) result.at }
    {
        let title = put_title(out, Cursor { at: 0 }, Title::Size);
        let size = SizeFields {
            n: self.sheet.n,
            width: self.sheet.width,
            height: self.sheet.height,
            values: self.table.len() as u32,
        };
        let line = put_size_line(out, title, size);
        put_title(out, line, Title::Depth)
    }

    // The whole text; its length.
    fn put(self, out: &mut [u8]) -> usize
        requires head_fits { HeadFits self.sheet (length self.table.now) }
        requires has_room { space_for (length self.table.now) (blocks_of self.sheet) ≤ length out.old }
        requires enough { blocks_of self.sheet ≤ length self.records.now }
        requires small_records { (i : ℕ) → i < blocks_of self.sheet → Small (record_at self.records.now i) }
        ensures { let I = self.entry in
            Written out.old out.new 0 (written_text (source_of I.sheet I.table.now (record_at I.records.now))) result }
    {
        let head = self.put_head(out);
        let values = put_values(out, head, self.table);
        let title = put_title(out, values, Title::Record);
        put_records(out, title, self.placed()).at
    }
}

// Writes a finished sheet's file and answers its length, or refuses with 1, 2, 8, 23, 22, 3, 7, 6, 5, 4 or 24 and writes nothing.
#[tactic(auto, using(crate::proofs::WriteLaws::answered, crate::proofs::CallLaws::needs))]
pub fn write(
    sheet: Sheet,
    list: PatternList,
    table: &[u8],
    records: &[[i32; 4]],
    out: &mut [u8],
) -> Result<usize, Refusal>
    ensures answered { let W = source_of sheet table.now (record_at records.now) in
        let L = list.entry in
        told (λ length. length) result ≡ write_answer W (patterns_of sheet.n L.words.now) L.count (length records.now) (length out.old) }
    ensures left { let W = source_of sheet table.now (record_at records.now) in
        let L = list.entry in
        out.new ≡ write_after W (patterns_of sheet.n L.words.now) L.count (length records.now) out.old }
{
    let source = Source {
        sheet,
        table,
        records,
    };
    source.check(list, out.len())?;
    Ok(source.put(out))
}
