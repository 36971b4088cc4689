//! Rows of columns: the one writer of lines, of records of comma-separated values, and of objects of JSON.
#![tactic(auto)]

mod cell;
mod json;
mod parts;
mod row;
mod utc;

pub use cell::{Cell, Column, DASH, Head, Place, Plain};
pub use json::{put_bytes_under, put_string};
pub use parts::put_parts;
pub use row::{moment_text, put_columns, put_row};
pub use utc::{UtcText, second_text, utc_text};
