//! Where the rows of a table are.
ghost use Rattle.std.specs.Prelude.{◌≡◌};
ghost use Rattle.j39_groups.specs.Models.{listed_rows};

use crate::row::Row;
use j39_memory::List;

/// Rows of the program.
#[derive(Clone, Copy)]
pub(crate) struct LentRows<'t> {
    pub rows: &'t [Row<'t>],
}

/// The rows of a table. Both are parameters: a variant that names a lifetime may hold no array, as the rows of a page's
/// build stand in.
#[derive(Drop)]
pub(crate) enum Listed<L: Drop, K: Drop> {
    /// In the program.
    Lent(L),
    /// In memory of the table's own.
    Kept(K),
}

/// The rows, in their order.
#[inline(always)]
pub(crate) fn rows_of<'r, 't>(listed: &'r Listed<LentRows<'t>, List<Row<'t>>>) -> &'r [Row<'t>]
    ensures { result.now ≡ listed_rows listed.now }
{
    match listed {
        Listed::Lent(lent) => lent.rows,
        Listed::Kept(rows) => rows.as_slice(),
    }
}
