//! The lines of a log of a J1939 bus: out of its bytes in pieces, read, and written.
#![tactic(auto)]

mod bus;
mod canonical;
mod fast;
mod fields;
mod kind;
pub mod laws;
mod line;
mod newline;
mod printed;
mod reading;
mod splitter;
mod stamp_text;
mod text;

pub use bus::Bus;
pub use canonical::line_of;
pub use fast::{FrameLine, LastSecond};
pub use kind::{OtherKind, kind_of};
pub use line::{LINE_LIMIT, Line};
pub use printed::is_printed;
pub use reading::{RawLine, read_line};
pub use splitter::Splitter;
pub use stamp_text::{StampText, push_seconds, push_stamp};
