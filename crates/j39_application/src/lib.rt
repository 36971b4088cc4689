//! What a controller application (J1939-81) does over its controller: it sends messages of any length by one call, follows who is
//! there by their NAMEs, sends to a NAME, and answers each request in time.
#![tactic(auto)]

mod answers;
mod asked;
mod kept;
pub mod laws;
mod letter;
mod outbox;
pub mod outbox_laws;
mod peers;
mod sending;

pub use answers::Answers;
pub use asked::Asked;
pub use letter::Settled;
pub use outbox::Outbox;
pub use peers::{Peer, Peers};
pub use sending::{End, Outgoing, Token, Way, send, take_ended};
