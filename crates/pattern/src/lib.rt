// Patterns of n by n samples, and the contour; what a call refuses.
#![tactic(auto)]

mod checks;
mod contours;
mod refusals;
mod size;
mod words;

pub use checks::texture_ok;
pub use contours::contour;
pub use refusals::{Refusal, check};
pub use size::{GREATEST_SIZE, NEIGHBOURS, SAMPLES, Size, size_ok};
pub use words::{Pattern, PatternList, WORDS, count_ok, whole_patterns, words_of};
