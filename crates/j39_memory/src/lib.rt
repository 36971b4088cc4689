//! What holds values: boxes, lists and tables of memory that is asked for.
#![tactic(auto)]

mod by_group;
mod by_origin;
mod list;
mod stored;

pub use by_group::{ByGroup, GroupChange};
pub use by_origin::{ByOrigin, OriginChange};
pub use list::{Keyed, List, MOST};
pub use stored::Stored;
