//! What is on a bus: its nodes, and the survey of a log's lines.
#![tactic(auto)]

pub mod node_lists;
pub mod surveys;

pub use node_lists::{LONG_SILENCE, SeenAsked, nodes, nodes_of, nodes_seen};
pub use surveys::{SurveyWanted, survey};
