//! Parameter groups and their readings (J1939-71).
#![tactic(auto)]

mod bare;
mod by_number;
mod field;
mod group_lines;
mod groups_table;
pub mod laws;
mod lines;
mod listable;
mod listed;
mod names;
mod prepared;
mod printed;
mod raw;
mod reading;
mod restricted;
mod row;
mod rows;
mod rows_before;
mod runs;
mod short;
mod short_text;
mod slot;
mod states;
mod table;
mod text;
mod value;
mod value_in;
mod visiting;

pub use by_number::{raw_of, slot_of};
pub use field::Field;
pub use groups_table::{Groups, is_reported};
pub use listable::{is_heard_group, is_network_group};
pub use printed::{decimal_of, push_decimal, push_range};
pub use reading::{pick, reading_at, readings};
pub use row::Row;
pub use rows::Rows;
pub use rows_before::{HEAD, LINES};
pub use short_text::magnitude_before;
pub use slot::Slot;
pub use states::{split_states, state_words};
pub use text::{Text, put_value, scaled_text};
pub use value::{Reading, Value};
pub use visiting::ReadingVisitor;
