//! Several controllers on one bus: laws over its log and the histories of their calls.
#![tactic(auto)]

pub mod laws;
