// Side depths and the predicted block (document 01, "Side depths" and "Predicted block").
#![tactic(auto)]

mod block;
mod sides;

pub use block::{predict, predict_from_values};
use depth_table::DepthValue;
use pattern::Pattern;
pub use sides::side_depths;

// The depths of the two sides: lt of the one that holds (0,0), br of the other.
#[derive(Clone, Copy)]
pub struct SideDepths {
    pub lt: DepthValue,
    pub br: DepthValue,
}

// What a block is predicted from: its size, its pattern, its neighbours, the depth table, and the offsets of partitions 0 and 1, which
// have the names that a record's have.
#[derive(Clone, Copy)]
pub struct Input<'a> {
    pub n: usize,
    pub pattern: Pattern,
    pub border: &'a [u8],
    pub table: &'a [u8],
    pub off0: i32,
    pub off1: i32,
}
