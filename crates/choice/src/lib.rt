// The choice of a record (document 01, "Choice").
#![tactic(auto)]

mod answer;
mod cases;
mod layers;
mod offsets;
mod parts;
mod refusal;
mod search;
mod sums;

pub use answer::choose;
use pattern::PatternList;
use record::Record;
pub use refusal::check_choice;

// What a record is chosen from: the size, the wedgelet list, the neighbours, the original samples, the depth table, the reach, and the
// texture. An empty texture is none, as it comes from C, whose slices have a length and no `Option`.
#[derive(Clone, Copy)]
pub struct Input<'a> {
    pub n: usize,
    pub list: PatternList<'a>,
    pub border: &'a [u8],
    pub original: &'a [u8],
    pub table: &'a [u8],
    pub reach: u32,
    pub texture: &'a [u8],
}

// The chosen record, its cost, and how many offsets were tried.
#[derive(Clone, Copy)]
pub struct Choice {
    pub record: Record,
    pub cost: u32,
    pub tried: u32,
}
