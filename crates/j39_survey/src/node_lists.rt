//! Who is at which address of a bus (J1939-81, 4.2).

mod by_address;
pub(crate) mod held;
pub mod laws;
mod seen;

pub use held::{nodes, nodes_of};
pub use seen::{LONG_SILENCE, SeenAsked, nodes_seen};
