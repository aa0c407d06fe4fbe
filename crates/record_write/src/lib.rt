// Writing a record file (document 01, "House file").
#![tactic(auto)]

mod checks;
mod source;
mod writing;

pub use writing::write;
