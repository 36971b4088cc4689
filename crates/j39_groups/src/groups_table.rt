//! A table of parameters, as its callers see it.
ghost use Rattle.std.specs.Prelude.{◌≡◌, ◌==◌, ◌<◌, ◌≤◌, IfOk, IfSome, IsOk, None, OnErr, OnOk, Some, drop, length, map, true};
ghost use Rattle.std.specs.List.{flat_map, list_all};
ghost use Rattle.std.specs.List.Sorted.{IsNonDecreasingBy};
ghost use Rattle.std.specs.Option.{option_copied, option_map};
ghost use Rattle.std.proofs.Props.{props};
ghost use Rattle.j39_frame.specs.Pgn.{pgn_raw};
ghost use Rattle.j39_io.specs.Puts.{Puts};
ghost use Rattle.j39_io.specs.Turn.{turn};
ghost use Rattle.j39_groups.specs.GivenRows.{rows_in};
ghost use Rattle.j39_groups.specs.Lines.{in_group, reading_line};
ghost use Rattle.j39_groups.specs.Models.{listed_rows, row_record, value_of};
ghost use Rattle.j39_groups.specs.Names.{group_name_in, name_in, parameter_name, state_in};
ghost use Rattle.j39_groups.specs.Printed.{rows_text};
ghost use Rattle.j39_groups.specs.Readings.{HaveSameGroups, group_rows, is_reported_in, readings_in, rows_of_spns};
ghost use Rattle.j39_groups.specs.Rows.{StandTogether, is_row};
ghost use Rattle.j39_groups.specs.Runs.{AreRuns};
ghost use Rattle.j39_groups.specs.Sightings.{sightings_in};
ghost use Rattle.j39_groups.specs.Table.{the_table};
ghost use Rattle.j39_groups.specs.Value.{ValueRecord};
ghost use Rattle.j39_groups.specs.Visits.{Stops, Takes};

use crate::group_lines::put_rows;
use crate::listed::{LentRows, Listed, rows_of};
use crate::names::{group_name_in, name_in, row_in_group};
use crate::printed;
use crate::restricted::restricted_rows;
use crate::row::Row;
use crate::rows::Rows;
use crate::rows_before::{HEAD, LINES};
use crate::runs::{Run, has_group, run_of, runs_of};
use crate::states::{called, called_alone, called_by, state_by};
use crate::table::built_in_rows;
use crate::value::Value;
use crate::visiting::{ReadingVisitor, visit_rows};
use j39_frame::Pgn;
use j39_io::{DeviceFault, Sink};
use j39_memory::List;
use std::alloc::{AllocError, Global};
use std::marker::Model;

/// A table of parameters.
#[derive(Drop)]
pub struct Groups<'t> {
    listed: Listed<LentRows<'t>, List<Row<'t>>>,
    runs: [Run; 17408],
    ghost sound: { list_all is_row (listed_rows listed) ≡ true },
    ghost few: { length (listed_rows listed) ≤ 65536 },
    ghost sought: { AreRuns runs (listed_rows listed) } by { Prim.hlevel props },
}

impl<'t> Model for Groups<'t> {
    ghost use Rattle.std.specs.Prelude.{List, map};
    ghost use Rattle.j39_groups.specs.Models.{listed_rows, row_record};
    ghost use Rattle.j39_groups.specs.Row.{RowRecord};

    ghost Value = { List RowRecord };

    ghost view = { λ groups. map row_record (listed_rows groups.listed) };
}

impl<'t> Groups<'t> {
    /// The table that is built in.
    pub fn built_in() -> Groups<'t>
        ensures { result ≡ the_table }
    {
        Groups::of(Listed::Lent(LentRows {
            rows: built_in_rows(),
        }))
    }

    /// The table of these rows, by rising groups; the rows of a group stay in their order. An `Err` comes for want of
    /// memory alone, and of 20 rows none does.
    pub fn from_rows(rows: Rows<'t>) -> Result<Groups<'t>, AllocError>
        ensures kept { IfOk result (λ groups. HaveSameGroups groups (rows_in rows.entry)) }
        ensures sorted { IfOk result (λ groups. IsNonDecreasingBy (λ row. row.pgn) groups) }
        ensures made { length (rows_in rows.entry) ≤ 20 → IsOk result }
    {
        let mut list = rows.list;
        list.sort()?;
        Ok(Groups::of(Listed::Kept(list)))
    }

    /// The table of rows that stand where they stand.
    fn of(listed: Listed<LentRows<'t>, List<Row<'t>>>) -> Groups<'t>
        requires sound { list_all is_row (listed_rows listed) ≡ true }
        requires few { length (listed_rows listed) ≤ 65536 }
        requires together { StandTogether (listed_rows listed) }
        ensures { result ≡ map row_record (listed_rows listed.entry) }
    {
        let runs = runs_of(rows_of(&listed));
        Groups { listed, runs }
    }

    /// The rows of a group.
    #[inline(always)]
    fn rows_for(&self, pgn: u32) -> &[Row<'t>]
        ensures rows { map row_record result.now ≡ group_rows pgn self.now }
        ensures own { list_all (λ row. row.pgn == pgn) result.now ≡ true }
        ensures sound { list_all is_row result.now ≡ true }
        ensures few { length result.now ≤ 65536 }
    {
        run_of(&self.runs, rows_of(&self.listed), pgn)
    }

    /// The table with the rows of these parameters (SPN) alone; those of a group stay in their order. An `Err` comes
    /// for want of memory alone, and not where no row is kept.
    pub fn restricted_to(&self, alloc: Global, spns: &[u32]) -> Result<Groups<'t>, AllocError>
        ensures kept { IfOk result (λ groups. HaveSameGroups groups (rows_of_spns spns.now self.now)) }
        ensures wanted { OnErr result (0 < length (rows_of_spns spns.now self.now)) }
    {
        let rows = restricted_rows(alloc, rows_of(&self.listed), spns)?;
        Groups::from_rows(rows)
    }

    /// Whether parameters of this group are read.
    #[inline(always)]
    pub fn is_reported(&self, pgn: Pgn) -> bool
        ensures { result ≡ is_reported_in self.now (pgn_raw pgn) }
    {
        !self.rows_for(pgn.raw()).is_empty()
    }

    /// What the table calls a group, as its first row does; `None` where it lists none.
    pub fn group_name(&self, pgn: Pgn) -> Option<&[u8]>
        ensures { option_copied result ≡ group_name_in self.now (pgn_raw pgn) }
    {
        let pgn = pgn.raw();
        group_name_in(self.rows_for(pgn), pgn)
    }

    /// What the table calls a parameter (SPN), of whatever group: the name in its first row, of any bytes. `None`
    /// where it has no row.
    pub fn parameter_name(&self, spn: u32) -> Option<&[u8]>
        ensures { option_map (λ name. name.now) result ≡ parameter_name self.now spn }
    {
        name_in(rows_of(&self.listed), spn)
    }

    /// Writes the table (own): a line for each row, in the table's order, with the PGN and the short name of its group,
    /// its SPN, where it stands in the payload, what a raw step is worth, the value of the raw number 0, the unit, and
    /// its name. After a fault a front was written.
    pub fn put<W: Sink>(&self, sink: &mut W) -> Result<(), DeviceFault>
        ensures { Puts (rows_text self.now) result (turn W.written W.has_failed sink.old sink.new) }
    {
        printed::put_rows(rows_of(&self.listed), sink)
    }

    /// Writes a line for each reading of a payload: the bytes of `head` from `from` on, the group's number (PGN), a space,
    /// the parameter's (SPN), a space, the value's text and a newline; answers how many. What stands in `block` afterwards
    /// is not known. After a fault a front of the lines was written.
    #[inline(always)]
    pub fn put_lines<W: Sink>(
        &self,
        block: &mut [u8; LINES],
        head: &[u8; HEAD],
        from: usize,
        pgn: Pgn,
        bytes: &[u8],
        sink: &mut W,
    ) -> Result<u64, DeviceFault>
        requires { from ≤ 48 }
        ensures lines { IfOk result (λ n. n ≡ length (readings_in self.now (pgn_raw pgn) bytes.now)) }
        ensures puts { Puts (flat_map (reading_line (in_group (drop from head.now) (pgn_raw pgn)))
            (readings_in self.now (pgn_raw pgn) bytes.now))
            result (turn W.written W.has_failed sink.old sink.new) }
    {
        let pgn = pgn.raw();
        put_rows(block, self.rows_for(pgn), head, from, bytes, sink)
    }

    /// Hands each reading of a payload to a visitor, and each parameter whose number is not available, in the table's order.
    /// It ends at the first that is refused.
    #[inline(always)]
    pub fn visit<M, V: ReadingVisitor<'t, M>>(
        &self,
        pgn: Pgn,
        bytes: &[u8],
        visitor: &mut V,
        medium: &mut M,
    ) -> Result<(), V::Fault>
        ensures taken { OnOk result (Takes V.has_taken visitor.old medium.old visitor.new medium.new
            (sightings_in self.now (pgn_raw pgn) bytes.now)) }
        ensures stopped { OnErr result (Stops V.has_taken V.has_stopped visitor.old medium.old visitor.new medium.new
            (sightings_in self.now (pgn_raw pgn) bytes.now)) }
    {
        let pgn = pgn.raw();
        visit_rows(self.rows_for(pgn), bytes, visitor, medium)
    }

    /// What a parameter of a group is called: by the first row of the table that lists it.
    pub fn parameter_name_in(&self, pgn: u32, spn: u32) -> Option<&[u8]>
        ensures { option_map (λ name. name.now) result ≡ name_in self.now pgn spn }
    {
        match row_in_group(self.rows_for(pgn), pgn, spn) {
            Some(row) => Some(called(row.name)),
            None => None,
        }
    }

    /// What a parameter of a group is called, and the state of a value of it: as `parameter_name_in` and `state_in` say.
    #[inline(always)]
    pub fn called_in(
        &self,
        pgn: u32,
        spn: u32,
        value: Value<'_, '_>,
    ) -> (Option<&[u8]>, Option<&[u8]>)
        ensures parameter { option_map (λ name. name.now) result.0 ≡ name_in self.now pgn spn }
        ensures state { option_map (λ words. words.now) result.1 ≡ state_in self.now pgn spn (value_of value.entry) }
    {
        match row_in_group(self.rows_for(pgn), pgn, spn) {
            Some(row) => {
                let (called, state) = called_by(row, value);
                (Some(called), state)
            }
            None => (None, None),
        }
    }

    /// What a parameter of a group is called, where the first row of the table that lists it names no states: then no state of
    /// it has a name.
    pub fn name_alone_in(&self, pgn: u32, spn: u32) -> Option<&[u8]>
        ensures name { IfSome result (λ name. name_in self.now pgn spn ≡ Some name.now) }
        ensures alone { IfSome result (λ name. (value : ValueRecord) → state_in self.now pgn spn value ≡ None) }
    {
        let row = row_in_group(self.rows_for(pgn), pgn, spn)?;
        let name = called_alone(row)?;
        Some(name)
    }

    /// What the state of a value of a parameter is called: by the first row of the table that lists the parameter in the
    /// group. `None` where that row has no name for the raw number, and where the value stands for more than one.
    pub fn state_in(&self, pgn: u32, spn: u32, value: Value<'_, '_>) -> Option<&[u8]>
        ensures { option_map (λ words. words.now) result ≡ state_in self.now pgn spn (value_of value.entry) }
    {
        match row_in_group(self.rows_for(pgn), pgn, spn) {
            Some(row) => state_by(row, value),
            None => None,
        }
    }
}

/// Whether parameters of this group are read by the built-in table: asked so, no table has to be made.
pub fn is_reported(pgn: Pgn) -> bool
    ensures { result ≡ is_reported_in the_table (pgn_raw pgn) }
{
    has_group(built_in_rows(), pgn.raw())
}
