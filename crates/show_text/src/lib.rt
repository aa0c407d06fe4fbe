// What `show` prints of a record file (document 01, "House file"), as bytes.
#![tactic(auto)]

mod printing;
mod showing;

pub use showing::{FILE_BYTES, TEXT_BYTES, show_text};
