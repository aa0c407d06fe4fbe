// The wedgelet list (document 01, "Edge list").
#![tactic(auto)]

mod candidates;
mod entries;
mod half;
mod list;

pub use list::{LIST_WORDS, PATTERNS, wedgelets};
