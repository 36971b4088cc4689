//! A user's table of parameters, and names of one's own: their lines, read.
#![tactic(auto)]

mod columns;
mod fault;
mod fault_text;
mod field;
pub mod laws;
mod line;
mod lookup;
mod names;
mod position;
mod reading;
mod row;
mod scale;
mod states;
mod taking;
mod words;

pub use fault::{NameFault, RowFault, TableFault};
pub use lookup::{check, reading_at};
pub use names::read_names;
pub use reading::read;
pub use row::read_row;
pub use taking::MOST_BYTES;
