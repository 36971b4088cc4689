//! The report of a log as records of comma-separated values (RFC 4180).

mod quick_record;
mod record_head;
mod record_sides;
mod records;
mod run;

pub(crate) use quick_record::bits_of;
pub use quick_record::scaled_before;
pub(crate) use record_head::digits_before;
pub use run::report_csv;
