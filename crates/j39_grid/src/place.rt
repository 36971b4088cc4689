//! A column of a row that isn't written yet.
ghost use Rattle.std.specs.Prelude.{◌≡◌, decimal};
ghost use Rattle.j39_rows.specs.Models.{cell_of, column_of};

use arrayvec::ArrayVec;
use j39_groups::decimal_of;
use j39_rows::{Cell, Column, Place as RowPlace};

/// What stands in a line before a column, and for nothing there.
const DASH: RowPlace<'static> = RowPlace::Always(b" ", b"-");

/// A column's parameter (SPN), and what stands there.
#[derive(Drop)]
pub(crate) struct Place {
    spn: u32,
    name: ArrayVec<u8, 32>,
    cell: Cell<'static>,
    pub ghost named: { name.items ≡ decimal spn },
}

impl Default for Place {
    ghost use Rattle.std.specs.Prelude.{◌≡◌};
    ghost use Rattle.j39_rows.specs.Row.{nothing};
    ghost use Rattle.j39_grid.specs.GridModels.{place_of};

    fn default() -> Place
        ensures { place_of result ≡ (0, nothing) }
    {
        Place::of(0)
    }
}

impl Place {
    ghost use Rattle.j39_rows.specs.Row.{nothing};
    ghost use Rattle.j39_grid.specs.Grid.{column_at};
    ghost use Rattle.j39_grid.specs.GridModels.{place_of};
    ghost use Rattle.j39_grid.specs.GridSoFar.{emptied, placed_at};

    /// That of a parameter, with nothing there.
    pub fn of(spn: u32) -> Place
        ensures { place_of result ≡ (spn, nothing) }
    {
        Place {
            spn,
            name: decimal_of(spn),
            cell: Cell::Nothing,
        }
    }

    /// With this cell, where it is that of the parameter.
    #[inline(always)]
    pub fn put(&mut self, spn: u32, cell: Cell<'static>)
        ensures { place_of self.new ≡ placed_at spn (cell_of cell.entry) (place_of self.old) }
    {
        if spn == self.spn {
            self.cell = cell;
        }
    }

    /// With nothing there.
    pub fn empty(&mut self)
        ensures { place_of self.new ≡ emptied (place_of self.old) }
    {
        self.cell = Cell::Nothing;
    }

    /// The column as it is written.
    pub fn column(&self) -> Column<'_>
        ensures { column_of result ≡ column_at (place_of self.now) }
    {
        Column::All(self.name.as_slice(), DASH, self.cell)
    }
}
