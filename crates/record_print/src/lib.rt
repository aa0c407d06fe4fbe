// Printing the text of the record file (document 01: house file) to lent bytes: numerals, fields and lines.
#![tactic(auto)]

mod cursor;
mod put;
mod put_line;
mod write;

pub use cursor::Cursor;
pub use put::{put_number, put_text, put_title, put_value_line};
pub use put_line::{put_record_line, put_size_line};
