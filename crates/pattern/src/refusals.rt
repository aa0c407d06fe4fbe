// What a call refuses, and a check that refuses.
ghost use Rattle.std.specs.Prelude.{◌≡◌};
ghost use Rattle.pattern.specs.Refusal.{number_of, checked};

// Why a call is refused. Each reason has its number, which the C calls, the files and the programs give.
#[derive(Clone, Copy, Debug, PartialEq, Eq)]
pub enum Refusal {
    // The size is not an allowed one.
    Size = 1,
    // A slice has another length than the call needs, or a list's count is not allowed.
    Length = 2,
    // The depth table is not sound.
    Table = 3,
    // An offset or a reach is outside its range.
    Offset = 4,
    // A pattern marks a sample outside the block.
    Pattern = 5,
    // The list has no such entry.
    Entry = 6,
    // A record's kind is none, or its entry is not the kind's.
    Kind = 7,
    // A sheet's width or height is not allowed.
    Sides = 8,
    // A line of a file has another form.
    Form = 9,
    // A choice has no pattern to choose.
    NoPattern = 10,
    // All blocks of the sheet are placed.
    Full = 20,
    // A record names the contour, and no texture is lent.
    NoTexture = 21,
    // A sheet to be written has blocks that are not placed.
    Missing = 22,
    // A state has more blocks placed than the sheet has.
    Placed = 23,
    // The depth table has too few values for an offset.
    OffsetPastTable = 24,
}

impl From<Refusal> for u32 {
    ghost from_gives = { λ r k. k ≡ number_of r };

    fn from(refusal: Refusal) -> u32 {
        refusal as u32
    }
}

// Refuses where a check does not hold, with the error that the caller gives.
pub fn check<E: Drop>(ok: bool, error: E) -> Result<(), E>
    ensures { result ≡ checked ok error }
{
    if ok { Ok(()) } else { Err(error) }
}
