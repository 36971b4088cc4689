//! What holds values: boxes, lists and tables in the values that hold them: no memory is asked for.
#![tactic(auto)]

mod by_group;
mod by_origin;
mod hints;
mod list;
mod settling;
mod stored;

pub use by_group::{ByGroup, GroupChange};
pub use by_origin::{ByOrigin, OriginChange};
pub use list::{Keyed, List, MOST};
pub use stored::Stored;
