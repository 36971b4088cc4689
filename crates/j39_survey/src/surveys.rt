//! What a log is: its lines, interfaces, the groups of one of these, other lines and unread ones.

mod addresses;
mod arrivals;
pub(crate) mod distances;
mod group_table;
mod interfaces;
pub mod laws;
mod log_survey;
mod others;
mod pieces;
mod running;
mod senders;
mod survey_row;
mod traffic;
mod unread;
mod writing;

pub use running::{SurveyWanted, survey};
