//! Bytes in and out: devices with a mark, numbers as text, and records of comma-separated values.
#![tactic(auto)]

pub mod backwards;
mod csv;
mod device;
mod digits;
pub mod printing;
pub mod vectors;

pub use csv::{has_special, is_formula, put_behind_comma, put_record, without_formula};
pub use device::{DeviceFault, Sink, Source, Told, put_all};
pub use digits::number;
