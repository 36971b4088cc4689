//! The fast way of most lines: a frame as `candump` writes it, whose fields stand where they mostly stand.

mod form;
mod frame_line;
mod identifiers;
mod lanes;
mod last_second;
mod plain;
mod reader;

pub(crate) use form::Form;
pub use frame_line::FrameLine;
pub use last_second::LastSecond;
pub(crate) use plain::read_plain;
pub(crate) use reader::first_line;
