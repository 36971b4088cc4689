//! The program `j1939`: its command line, and the tasks that it performs.
#![tactic(auto)]

mod answer;
mod asked;
mod command;
mod conversions;
mod cut;
mod cut_values;
mod faults;
mod fields;
mod file_ends;
mod grid;
mod groups;
mod heads;
mod id;
mod joined;
mod lists;
mod log;
mod name;
mod nodes;
mod options;
mod order;
mod other_log;
mod outgoing;
mod own_table;
mod performing;
mod refusal;
mod report;
mod seconds;
mod shown;
mod spns;
mod summary;
mod survey;
mod task;
mod unknown;
mod utc;
mod watch;
mod words;

pub use asked::{Addresses, Asked, Pgns, Senders};
pub use conversions::Conversions;
pub use file_ends::FileEnds;
pub use grid::{Every, GridOptions};
pub use joined::Joined;
pub use lists::Listed;
pub use options::{FaultOptions, RowOptions};
pub use order::tell_files;
pub use outgoing::Outgoing;
pub use own_table::wrong_table;
pub use performing::{perform, perform_with};
pub use refusal::{not_a_file, refuse, unopened};
pub use spns::Spns;
pub use task::{
    Address, Argument, FaultsTold, Files, LogInput, NodesTold, ParseFault, Task, WordText,
};
pub use unknown::{asks_for_unknown, asks_input_twice};
pub use watch::WatchOptions;
pub use words::parse;
