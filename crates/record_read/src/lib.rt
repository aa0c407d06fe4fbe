// Reading a record file (document 01, "House file"), in one pass: the lines before the records, then a step for each block.
#![tactic(auto)]

mod blocks;
mod front;
mod head;
mod lines;
mod reading;

pub use lines::LineRefusal;
pub use reading::{FileBack, read};
