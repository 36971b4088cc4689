//! A row of a table.
ghost use Rattle.std.specs.Prelude.{◌≡◌, true, false};
ghost use Rattle.j39_frame.specs.Pgn.{pgn_raw};
ghost use Rattle.j39_groups.specs.Fields.{is_sound};
ghost use Rattle.j39_groups.specs.Models.{field_record, row_record};
ghost use Rattle.j39_groups.specs.Readings.{is_heard_group, is_network_group};
ghost use Rattle.j39_groups.specs.Rows.{is_row};

use crate::field::Field;
use crate::prepared::{Prepared, prepare};
use j39_frame::Pgn;
use j39_memory::Keyed;

/// One parameter of a group, with its texts out of the table's, and what its line takes.
#[derive(Clone, Copy)]
pub struct Row<'t> {
    /// The group (PGN): one that can be heard, and none of the network's.
    pub(crate) pgn: u32,
    /// The parameter's number (SPN).
    pub(crate) spn: u32,
    /// What its line takes beside the value. `None` where it is written part by part: of a text, a number in full, a long unit, more than
    /// fifteen places, or a number (SPN) of more than six digits.
    pub(crate) prepared: Option<Prepared>,
    /// Where it stands in the payload.
    pub(crate) field: Field<'t>,
    /// The group's short name, of any bytes.
    pub(crate) group: &'t [u8],
    /// What the parameter is called, of any bytes; behind the first ` = ` the names of its states.
    pub(crate) name: &'t [u8],
}

impl<'t> Row<'t> {
    /// The row of a parameter (SPN) of a group that can be heard and is none of the network's (`is_heard_group`,
    /// `is_network_group`), in a field that is sound (`Field::is_sound`).
    pub fn new(pgn: Pgn, group: &'t [u8], spn: u32, name: &'t [u8], field: Field<'t>) -> Row<'t>
        requires sound { is_sound field ≡ true }
        requires free { is_network_group (pgn_raw pgn) ≡ false }
        requires heard { is_heard_group (pgn_raw pgn) ≡ true }
        ensures row { is_row result ≡ true }
        ensures says { row_record result ≡ record {
          pgn = pgn_raw pgn;
          group = group.entry.now;
          spn = spn;
          name = name.entry.now;
          field = field_record field.entry;
        } }
    {
        let pgn = pgn.raw();
        let prepared = prepare(pgn, spn, field);
        Row {
            pgn,
            spn,
            prepared,
            field,
            group,
            name,
        }
    }
}

impl Keyed for Row<'_> {
    ghost key_of = { λ row. row.pgn };

    fn key(&self) -> u32 {
        self.pgn
    }
}

impl Default for Row<'_> {
    /// A row of no table, with no name: what stands in a place that holds none.
    fn default() -> Self {
        Row {
            pgn: 0,
            spn: 0,
            prepared: None,
            field: Field::Text { part: 1 },
            group: b"",
            name: b"",
        }
    }
}
