// Where a block of a sheet lies, in which samples, and a run of the samples beside it.
ghost use Rattle.std.specs.Prelude.{◌≡◌, ℕ, ◌+◌, ◌*◌, ◌<◌, ◌≤◌, true, length};
ghost use Rattle.depth_table.specs.Table.{some_value};
ghost use Rattle.pattern.specs.Size.{size_ok};

use pattern::{NEIGHBOURS, SAMPLES};

// A block's size, the width of its sheet, and the column and the row of its first sample. The size is a number and no `Size`: in each
// clause `size.n` would stand for n, to spare one ghost field.
#[derive(Clone, Copy)]
pub(crate) struct Spot {
    pub n: usize,
    pub width: usize,
    pub x: usize,
    pub y: usize,
    ghost sized: { size_ok n ≡ true },
    ghost across: { x + n ≤ width },
}

// The samples of a sheet, or its original samples or texture, and the spot of a block that lies inside them.
#[derive(Clone, Copy)]
pub(crate) struct View<'a> {
    pub spot: Spot,
    pub samples: &'a [u8],
    ghost down: { (spot.y + spot.n) * spot.width ≤ length samples.now },
}

// Samples of a sheet, `step` places apart from the place `first` on: at least one, the last of them with the number `last`.
#[derive(Clone, Copy)]
pub(crate) struct Run<'a> {
    pub samples: &'a [u8],
    pub first: usize,
    pub step: usize,
    pub last: usize,
    ghost held: { (j : ℕ) → j ≤ last → first + j * step < length samples.now },
}

// A case of the choice from which the block at a spot is drawn. The samples that it is drawn in are lent to each call,
// and what they fit stays a clause: a struct that holds a `&mut` slice needs a clause in each function that it still is the same slice.
#[derive(Clone, Copy)]
pub(crate) struct Drawing<'a> {
    pub spot: Spot,
    pub case: choice::Input<'a>,
    ghost here: { case.n ≡ spot.n },
    ghost bordered: { length case.border.now ≡ 4 * case.n },
    ghost lit: { 0 < length case.texture.now → length case.texture.now ≡ case.n * case.n },
    ghost valued: { some_value case.table.now ≡ true },
}

// Room for what is read of a block: its neighbours, its original samples and its texture. The library has no heap.
#[derive(Drop)]
pub(crate) struct Room {
    pub near: [u8; NEIGHBOURS],
    pub own: [u8; SAMPLES],
    pub light: [u8; SAMPLES],
}

impl Room {
    // Room with nothing in it.
    pub(crate) fn new() -> Room {
        Room {
            near: [0; NEIGHBOURS],
            own: [0; SAMPLES],
            light: [0; SAMPLES],
        }
    }
}
