//! Rows for a table.
ghost use Rattle.std.specs.Prelude.{◌≡◌, true};
ghost use Rattle.std.specs.List.{list_all};
ghost use Rattle.j39_memory.specs.Items.{items_of};
ghost use Rattle.j39_groups.specs.Rows.{is_row};

use crate::row::Row;
use j39_memory::List;
use std::alloc::{AllocError, Global};

/// Rows in the order in which they were put, 65,536 at most.
#[derive(Drop)]
pub struct Rows<'t> {
    pub(crate) list: List<Row<'t>>,
    pub(crate) ghost sound: { list_all is_row (items_of list) ≡ true },
}

impl<'t> Rows<'t> {
    ghost use Rattle.std.specs.Prelude.{◌<◌, ◌≤◌, ◌++◌, ◌∷◌, [], OnErr, OnOk, length};
    ghost use Rattle.j39_memory.specs.Items.{first_places};
    ghost use Rattle.j39_groups.specs.GivenRows.{places_for, rows_in};
    ghost use Rattle.j39_groups.specs.Models.{row_record};

    /// No rows. It takes no memory.
    pub fn new(alloc: Global) -> Rows<'t>
        ensures rows { rows_in result ≡ [] }
        ensures places { places_for result ≡ first_places }
    {
        Rows {
            list: List::new(alloc),
        }
    }

    /// How many rows there are.
    pub fn len(&self) -> usize
        ensures value { result ≡ length (rows_in self.now) }
        ensures few { result ≤ 65536 }
    {
        self.list.len()
    }

    /// Puts a row, as `Row::new` makes it, behind the others. An error comes where memory is refused, and from nothing
    /// else.
    pub fn push(&mut self, row: Row<'t>) -> Result<(), AllocError>
        requires row { is_row row ≡ true }
        requires room { length (rows_in self.old) < 65536 }
        ensures ok { OnOk result (rows_in self.new ≡ rows_in self.old ++ row_record row.entry ∷ []) }
        ensures err { OnErr result (rows_in self.new ≡ rows_in self.old) }
        ensures full { OnErr result (places_for self.old ≤ length (rows_in self.old)) }
    {
        self.list.push(row)
    }
}
