// Records as they are lent: four numbers each, kind, entry, off0 and off1.
ghost use Rattle.std.specs.Prelude.{◌≡◌};
ghost use Rattle.record.specs.Lent.{unsigned, lent_number, record_in, fields_of};

use crate::Record;

// A lent number as a kind or an entry: a negative one is read as 2147483648, which neither can be. Every lent number is read as some
// record, which is judged where it is used, so that there is no `None` here.
fn unsigned_of(z: i32) -> u32
    ensures { result ≡ unsigned z }
{
    u32::try_from(z).unwrap_or(2147483648)
}

// A kind or an entry as it is lent, and -1 for one from 2147483648 up, since every record is lent as some four numbers.
#[tactic(auto, unfolding(crate::specs::Lent::lent_number))]
fn number_of(k: u32) -> i32
    ensures { result ≡ lent_number k }
{
    i32::try_from(k).unwrap_or(-1)
}

// The record that four lent numbers are.
impl From<[i32; 4]> for Record {
    ghost from_gives = { λ fields r. r ≡ record_in fields };

    fn from(fields: [i32; 4]) -> Record {
        let [kind, entry, off0, off1] = fields;
        Record {
            kind: unsigned_of(kind),
            entry: unsigned_of(entry),
            off0,
            off1,
        }
    }
}

// The four numbers that a record is lent as.
impl From<Record> for [i32; 4] {
    ghost from_gives = { λ r fields. fields ≡ fields_of r };

    fn from(r: Record) -> [i32; 4] {
        [number_of(r.kind), number_of(r.entry), r.off0, r.off1]
    }
}
