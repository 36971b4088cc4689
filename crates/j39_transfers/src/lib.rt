//! Messages sent in packets to several addresses at once, one to each (J1939-21, 5.10.3).
#![tactic(auto)]

mod kinds;
pub mod laws;
mod running;
mod transfers;

pub use kinds::{Ending, Outgoing, Refused};
pub use transfers::Transfers;
