//! What a report is to tell.

use crate::filter::Filter;
use j39_groups::Groups;

/// What a report is to tell: the values of a table of parameters, or of them those that a filter takes.
#[derive(Clone, Copy)]
pub struct Wanted<'g, 't> {
    pub groups: &'g Groups<'t>,
    /// `None` for all.
    pub filter: Option<Filter<'g>>,
}
