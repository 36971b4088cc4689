//! A controller that promises by the histories of its calls (J1939-21, J1939-81).
#![tactic(auto)]

pub mod ask_laws;
mod asking;
mod controller;
pub mod ending_laws;
mod heard;
mod hearing;
pub mod hearing_laws;
mod hold;
mod incoming;
mod kinds;
mod lane;
pub mod laws;
mod news;
mod outgoing;
mod own;
mod received;
mod requests;
pub mod session_laws;
mod setup;
pub mod transfer_laws;
mod transfers;
mod turn;

pub use controller::Controller;
pub use j39_transfers::Ending as TransferEnding;
pub use kinds::{Answer, AskEnding, Ending, News, Refused};
pub use received::Received;
pub use requests::Request;
pub use setup::Setup;
