//! Messages that come in packets to one address, from several sources at once (J1939-21, 5.10.3).
#![tactic(auto)]

pub mod laws;
mod seat;
mod sessions;

pub use sessions::Sessions;
