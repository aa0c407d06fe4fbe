// The kinds of records.
ghost use Rattle.record.specs.Told.{KindOf};

use pattern::Refusal;

// What names the pattern: an entry of the list, or the contour of the texture.
#[derive(Clone, Copy, Debug, PartialEq, Eq)]
pub enum Kind {
    Wedgelet,
    Contour,
}

impl TryFrom<u32> for Kind {
    type Error = Refusal;

    ghost try_from_gives = { KindOf };

    fn try_from(number: u32) -> Result<Kind, Refusal> {
        match number {
            0 => Ok(Kind::Wedgelet),
            1 => Ok(Kind::Contour),
            _ => Err(Refusal::Kind),
        }
    }
}
