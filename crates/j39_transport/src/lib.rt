//! The transport protocol: messages of more than eight bytes, in packets (J1939-21, 5.10).
#![tactic(auto)]

mod announcement;
mod assembler;
mod broadcast;
mod control;
mod cut;
pub mod laws;
mod message;
mod open_messages;
mod opening;
mod owned_sender;
mod packet;
mod progress;
mod protocol;
mod reading;
mod receiver;
mod reception;
mod sender;
mod sender_in_place;
mod session;
mod signal;
mod table;
mod writing;

pub use assembler::Assembler;
pub use broadcast::{Broadcast, BroadcastCourse, Poll};
pub use cut::Cut;
pub use message::{Fed, Message};
pub use owned_sender::OwnedSender;
pub use progress::{SendEvent, SendState};
pub use protocol::{LONGEST, SHORTEST};
pub use receiver::{Receiver, Reply};
pub use sender::Sender;
pub use sender_in_place::SenderInPlace;
pub use signal::announced_group;
