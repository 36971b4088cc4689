//! The summary of a report: what each parameter of each controller did.

mod absences;
mod account;
mod guesses;
pub mod laws;
mod lines;
mod message_head;
mod rows;
mod statistics;
mod stored_value;
mod word;

pub use account::{SummaryWanted, summary};
pub use guesses::Guesses;
pub use message_head::MessageHead;
pub use statistics::Sample;
pub use stored_value::StoredValue;
