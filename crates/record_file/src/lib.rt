// The record file (document 01, "House file"): what it says, both round trips, and what it is read with.
#![tactic(auto)]

mod lists;

pub use lists::ReadInput;
