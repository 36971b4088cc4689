//! NAMEs, address claims, who holds an address, and a node's own address (J1939-81).
#![tactic(auto)]

mod claim;
mod claimer;
mod claims;
mod commanded;
pub mod laws;
mod name;
mod request;
mod status;

pub use claim::claim_of;
pub use claimer::Claimer;
pub use claims::Claims;
pub use commanded::commanded_of;
pub use name::Name;
pub use status::Status;
