//! What a log is at each half second, as a screen: the faults that are there, and the last values.
#![tactic(auto)]

mod account;
mod asked_places;
mod cut_line;
mod latest;
mod lines;
mod moment;
mod note;
mod screen;
mod severity;
mod size;
mod values;
mod view;

pub use account::{Watched, watch};
pub use size::ScreenSize;
