// A block of n by n samples (document 01, "A block is n rows of n samples").
#![tactic(auto)]

mod rows;

pub use rows::{Block, CAPACITY, block_of, transpose, write_block};
