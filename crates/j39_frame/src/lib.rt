//! Identifiers, frames, group numbers, addresses and moments of a J1939 bus (J1939-21).
#![tactic(auto)]

mod address;
mod frame;
mod group;
mod identifier;
mod network;
mod origin;
mod pgn;
mod stamp;

pub use address::{GLOBAL_ADDRESS, NULL_ADDRESS, is_address};
pub use frame::Frame;
pub use identifier::Id;
pub use origin::Origin;
pub use pgn::Pgn;
pub use stamp::Stamp;
