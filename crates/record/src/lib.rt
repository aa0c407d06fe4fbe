// A record (document 01, "Choice", "Sheet" and "House file"): what its kind and entry mean, its checks, and records as they are lent.
#![tactic(auto)]

mod kind;
mod lent;
mod meaning;

pub use kind::Kind;
pub use meaning::{Meaning, Setting, check_contour};

// A record: its kind and entry, which name the pattern, and the offsets of partitions 0 and 1.
#[derive(Clone, Copy)]
pub struct Record {
    // A number and no `Kind`: a record is lent and kept as four numbers, and any may come. `Kind::try_from` judges it.
    pub kind: u32,
    pub entry: u32,
    pub off0: i32,
    pub off1: i32,
}
