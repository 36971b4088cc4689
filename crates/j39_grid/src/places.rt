//! What stands in the columns of a row that isn't written yet.
ghost use Rattle.std.specs.Prelude.{◌≡◌, ◌≤◌, length, map, take};
ghost use Rattle.j39_rows.specs.Models.{cell_of, column_of};
ghost use Rattle.j39_grid.specs.Grid.{column_at};
ghost use Rattle.j39_grid.specs.GridModels.{place_of};
ghost use Rattle.j39_grid.specs.GridSoFar.{emptied, placed_at};

use crate::asked::COLUMNS;
use crate::place::Place;
use j39_rows::{Cell, Column};

/// Puts a cell into each column of a parameter.
#[inline(always)]
pub(crate) fn put(places: &mut [Place], spn: u32, cell: Cell<'static>)
    ensures { map place_of places.new ≡ map (placed_at spn (cell_of cell.entry)) (map place_of places.old) }
{
    for place in places.iter_mut() {
        place.put(spn, cell);
    }
}

/// Takes what stands there out of each column.
pub(crate) fn empty(places: &mut [Place])
    ensures { map place_of places.new ≡ map emptied (map place_of places.old) }
{
    for place in places.iter_mut() {
        place.empty();
    }
}

/// The columns as they are written, and behind them some with nothing.
pub(crate) fn columns<'a>(places: &'a [Place]) -> [Column<'a>; COLUMNS]
    requires { length places.now ≤ 32 }
    ensures { map column_of (take (length places.now) result) ≡ map column_at (map place_of places.now) }
{
    let mut columns = [Column::BesideLines(b"", Cell::Nothing); COLUMNS];
    for (at, place) in places.iter().enumerate() {
        columns[at] = place.column();
    }
    columns
}
