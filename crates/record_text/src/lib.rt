// The record file's fields and lines (document 01: house file), and reading them.
#![tactic(auto)]

mod field;
mod fields;
mod line;
mod title;

pub use fields::SizeFields;
pub use line::{
    end_byte, read_record_line, read_size_line, read_text, read_title, read_value_line,
};
pub use title::Title;
