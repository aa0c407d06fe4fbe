// A sheet of blocks (document 01, "Sheet").
#![tactic(auto)]

mod composing;
mod drawing;
mod neighbours;
mod placing;
mod samples;
mod spot;
mod state;

use pattern::PatternList;
pub use state::check_sides;

// The greatest width and height.
pub const LONGEST: usize = 128;

// The most samples, and the most blocks, so records, that a sheet has.
pub const MOST_SAMPLES: usize = LONGEST * LONGEST;

pub const MOST_BLOCKS: usize = 1024;

// The state of a sheet of width by height samples in blocks of n by n: how many of its blocks are placed.
#[derive(Clone, Copy)]
pub struct Sheet {
    pub n: u32,
    pub width: u32,
    pub height: u32,
    pub placed: u32,
}

// What records are placed with: the wedgelet list, the depth table, and texture of the whole sheet; an empty texture is none, as in a
// choice.
#[derive(Clone, Copy)]
pub struct PlaceInput<'a> {
    pub list: PatternList<'a>,
    pub table: &'a [u8],
    pub texture: &'a [u8],
}

// What a sheet is composed from: what records are placed with, the original samples of the whole sheet, and the reach.
#[derive(Clone, Copy)]
pub struct ComposeInput<'a> {
    pub place: PlaceInput<'a>,
    pub original: &'a [u8],
    pub reach: u32,
}

// The finished state, and the number of records written.
#[derive(Clone, Copy)]
pub struct Composed {
    pub sheet: Sheet,
    pub written: usize,
}
