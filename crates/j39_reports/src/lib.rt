//! A log's report in other forms: as records and as objects, and summed up.
#![tactic(auto)]

mod forwards;
mod head;
mod json;
mod lines_in_utc;
mod report_objects;
mod report_records;
mod second;
mod sides;
pub mod summaries;
mod waiting;

pub use lines_in_utc::report_in_utc;
pub use report_objects::report_json;
pub use report_records::{report_csv, scaled_before};
pub use summaries::{Guesses, MessageHead, Sample, StoredValue, SummaryWanted, summary};
