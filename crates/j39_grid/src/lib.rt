//! The grid of a log's report: a row for each span of time, a column for each parameter.
#![tactic(auto)]

mod account;
mod asked;
mod head;
mod place;
mod places;
mod rows;

pub use account::grid;
pub use asked::{COLUMNS, GridAsked, GridWanted};
