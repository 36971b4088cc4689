//! The fault codes in a log, as they become news (J1939-73).

pub(crate) mod account;
pub(crate) mod announced;
mod changes;
pub(crate) mod columns;
pub(crate) mod form;
mod last_faults;
pub(crate) mod last_message;
mod last_messages;
pub mod laws;
pub(crate) mod lines;
mod message;
pub(crate) mod names;
pub(crate) mod run;
mod since;
mod telling;

pub use account::is_of_fault_group;
pub use form::Writing;
pub use lines::put_active;
pub use run::{FaultCounts, faults};
pub use telling::{Choice, FaultsWanted, Telling};
