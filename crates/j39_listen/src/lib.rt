//! What a listener hears on a bus, and the runs that write it down.
#![tactic(auto)]

mod account;
mod answers;
mod chooser;
mod counts;
mod entry_form;
mod filter;
mod format;
mod head;
mod headed;
mod heard;
pub mod laws;
mod lines;
mod listener;
mod pieces;
mod report;
mod report_lines;
mod report_runs;
mod roles;
mod running;
mod wanted;

pub use account::{Account, LineFault};
pub use answers::answer;
pub use chooser::Chooser;
pub use counts::{Counts, Made};
pub use entry_form::EntryForm;
pub use filter::{Filter, Moment, Sender, is_from};
pub use format::{Clock, Format};
pub use headed::{run_headed, run_headed_keeping};
pub use heard::Heard;
pub use listener::Listener;
pub use report::Report;
pub use report_runs::{run, run_filtered, run_with};
pub use roles::{Role, Roles};
pub use running::{RunFault, run_keeping, run_over};
pub use wanted::Wanted;
