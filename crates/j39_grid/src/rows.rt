//! The rows of a grid: values come, and a row is written as its span ends.
ghost use Rattle.std.specs.Prelude.{◌≡◌, ◌==◌, ◌≤◌, [], MatchOption, OnOk, false, length, map, true};
ghost use Rattle.std.specs.List.{list_any};
ghost use Rattle.j39_frame.specs.Stamp.{stamp_micros};
ghost use Rattle.j39_groups.specs.Models.{value_of};
ghost use Rattle.j39_io.specs.Puts.{Puts};
ghost use Rattle.j39_io.specs.Turn.{turn};
ghost use Rattle.j39_rows.specs.Models.{cell_of};
ghost use Rattle.j39_rows.specs.Row.{nothing, row_text};
ghost use Rattle.j39_grid.specs.Grid.{column_at, is_text, moment_head, moment_of, value_cell};
ghost use Rattle.j39_grid.specs.GridModels.{asked_of, place_of, rows_of};
ghost use Rattle.j39_grid.specs.GridSoFar.{begun_at, entered, is_at, left_text, lines_with, pending_text, placed, shown};

use crate::asked::{COLUMNS, GridAsked};
use crate::place::Place;
use crate::places::{columns, empty, put};
use arrayvec::ArrayVec;
use j39_frame::Stamp;
use j39_groups::{ReadingVisitor, Value};
use j39_io::{DeviceFault, Sink};
use j39_listen::Format;
use j39_rows::{Cell, Column, Head, Plain, put_row};

/// The row of the last span, when that began, and how many rows were written. A count that would pass 2^64 - 1 stays there (own).
#[derive(Drop)]
pub(crate) struct Rows<'g> {
    pub asked: GridAsked<'g>,
    pub moment: Option<Stamp>,
    pub places: ArrayVec<Place, COLUMNS>,
    pub lines: u64,
    pub stamp: Stamp,
}

impl<'g> Rows<'g> {
    /// No rows.
    pub fn new(asked: GridAsked<'g>) -> Rows<'g>
        ensures rows { rows_of result ≡ shown (asked_of asked.entry) [] }
        ensures asked { result.asked ≡ asked.entry }
    {
        Rows {
            asked,
            moment: None,
            places: places_of(asked.spns),
            lines: 0,
            stamp: Stamp::new(0).unwrap(),
        }
    }

    /// Whether the last span began at this moment.
    #[inline(always)]
    fn is_at(&self, moment: Stamp) -> bool
        ensures { result ≡ is_at (rows_of self.now).moment (stamp_micros moment) }
    {
        match self.moment {
            Some(began) => began.micros() == moment.micros(),
            None => false,
        }
    }

    /// Writes the row of the last span, where there is one.
    #[inline(never)]
    pub fn put_last<W: Sink>(&self, sink: &mut W) -> Result<(), DeviceFault>
        ensures { Puts (pending_text self.now.asked.form (rows_of self.now)) result (turn W.written W.has_failed sink.old sink.new) }
    {
        match self.moment {
            Some(moment) => put_span(self.asked.form, moment, self.places.as_slice(), sink),
            None => Ok(()),
        }
    }

    /// How many rows there are, with the last one.
    pub fn lines_in_all(&self) -> u64
        ensures { result ≡ lines_with (rows_of self.now).moment self.now.lines }
    {
        match self.moment {
            Some(_) => self.lines.saturating_add(1),
            None => self.lines,
        }
    }

    /// Another span begins.
    fn begin(&mut self, moment: Stamp)
        ensures rows { rows_of self.new ≡ begun_at (stamp_micros moment) (rows_of self.old) }
        ensures asked { self.new.asked ≡ self.old.asked }
        ensures stamp { self.new.stamp ≡ self.old.stamp }
    {
        self.lines = self.lines_in_all();
        empty(self.places.as_mut_slice());
        self.moment = Some(moment);
    }

    /// The stamp of a value lies in a span that begins at this moment: the row before it is written, where it is another.
    #[inline(always)]
    fn enter<W: Sink>(&mut self, moment: Stamp, sink: &mut W) -> Result<(), DeviceFault>
        ensures rows { OnOk result (rows_of self.new ≡ entered (stamp_micros moment) (rows_of self.old)) }
        ensures asked { OnOk result (self.new.asked ≡ self.old.asked) }
        ensures stamp { OnOk result (self.new.stamp ≡ self.old.stamp) }
        ensures puts { Puts (left_text self.old.asked.form (stamp_micros moment) (rows_of self.old)) result
            (turn W.written W.has_failed sink.old sink.new) }
    {
        if self.is_at(moment) {
            return Ok(());
        }
        self.put_last(sink)?;
        self.begin(moment);
        Ok(())
    }

    /// Takes a value of a parameter.
    #[inline(always)]
    fn take<W: Sink>(
        &mut self,
        spn: u32,
        cell: Cell<'static>,
        sink: &mut W,
    ) -> Result<(), DeviceFault>
        ensures rows { OnOk result (rows_of self.new ≡ placed spn (cell_of cell.entry)
            (entered (moment_of self.old.asked.every (stamp_micros self.old.stamp)) (rows_of self.old))) }
        ensures asked { OnOk result (self.new.asked ≡ self.old.asked) }
        ensures stamp { OnOk result (self.new.stamp ≡ self.old.stamp) }
        ensures puts { Puts (left_text self.old.asked.form (moment_of self.old.asked.every (stamp_micros self.old.stamp)) (rows_of self.old)) result
            (turn W.written W.has_failed sink.old sink.new) }
    {
        self.enter(self.asked.moment_of(self.stamp), sink)?;
        put(self.places.as_mut_slice(), spn, cell);
        Ok(())
    }
}

/// The columns of a grid, with nothing there.
fn places_of(spns: &[u32]) -> ArrayVec<Place, COLUMNS>
    requires { length spns.now ≤ 32 }
    ensures { map place_of result.items ≡ map (λ spn. (spn, nothing)) spns.now }
{
    let mut places = ArrayVec::new();
    for spn in spns {
        places.push(Place::of(*spn));
    }
    places
}

/// Writes the row of a span that began at this moment.
fn put_span<W: Sink>(
    form: Format,
    moment: Stamp,
    places: &[Place],
    sink: &mut W,
) -> Result<(), DeviceFault>
    requires { length places.now ≤ 32 }
    ensures { Puts (row_text form (moment_head (stamp_micros moment)) (map column_at (map place_of places.now))) result
        (turn W.written W.has_failed sink.old sink.new) }
{
    let utc = [Column::BesideLines(b"utc", Cell::Is(Plain::Utc(moment)))];
    let head = Head {
        name: b"stamp",
        first: Plain::Seconds(moment),
        columns: &utc,
    };
    put_row(form, head, &columns(places)[..places.len()], sink)
}

/// What stands in a column of a value; `None` for a text, which stands in none.
#[inline(always)]
fn cell_of_value(value: Value<'_, '_>) -> Option<Cell<'static>>
    ensures { MatchOption result (is_text (value_of value.entry) ≡ true)
        (λ cell. (is_text (value_of value.entry) ≡ false) × (cell_of cell ≡ value_cell (value_of value.entry))) }
{
    let plain = match value {
        Value::Number(number, scale) => Plain::Scaled(number, scale.places()),
        Value::On => Plain::Word(b"on"),
        Value::Off => Plain::Word(b"off"),
        Value::Error => Plain::Word(b"error"),
        Value::Reserved => Plain::Word(b"reserved"),
        Value::Indicator => Plain::Word(b"indicator"),
        Value::Text(_) => return None,
    };
    Some(Cell::Is(plain))
}

/// Whether a parameter has a column.
#[inline(always)]
fn is_among(spns: &[u32], spn: u32) -> bool
    ensures { result ≡ list_any (λ column. column == spn) spns.now }
{
    spns.iter().any(|column| *column == spn)
}

impl<'t, 'g, W: Sink> ReadingVisitor<'t, W> for Rows<'g> {
    ghost use Rattle.std.specs.Prelude.{◌++◌, ◌∷◌, []};
    ghost use Rattle.j39_groups.specs.Sightings.{told_in};
    ghost use Rattle.j39_grid.specs.GridSoFar.{Begun, HasStopped, HasTaken};

    type Fault = DeviceFault;

    ghost Subject = { Begun };

    ghost has_taken = { λ begun rows sink sightings.
        HasTaken begun rows (record { bytes = W.written sink; has_failed = W.has_failed sink }) (told_in sightings) };

    ghost has_stopped = { λ begun before at rows sink. HasStopped begun (told_in (before ++ at ∷ []))
        (record { bytes = W.written sink; has_failed = W.has_failed sink }) };

    #[inline(always)]
    fn visit(&mut self, spn: u32, value: Value<'t, '_>, sink: &mut W) -> Result<(), DeviceFault> {
        match cell_of_value(value) {
            None => Ok(()),
            Some(cell) => {
                if !is_among(self.asked.spns, spn) {
                    return Ok(());
                }
                self.take(spn, cell, sink)?;
                Ok(())
            }
        }
    }

    /// What is not available stands in no row.
    #[inline(always)]
    fn visit_absent(&mut self, _: u32, _: &mut W) -> Result<(), DeviceFault> {
        Ok(())
    }
}
