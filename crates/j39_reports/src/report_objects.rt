//! The report of a log as objects of JSON, one a line (RFC 8259).

mod object_head;
mod object_sides;
mod objects;
mod quick_object;
mod run;

pub use run::report_json;
