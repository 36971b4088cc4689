//! The rows of a summary as they are written.
ghost use Rattle.std.specs.Prelude.{◌≡◌, codes, map};
ghost use Rattle.std.specs.Option.{option_map};
ghost use Rattle.j39_frame.specs.declared.origin.Origin.{Origin};
ghost use Rattle.j39_io.specs.Puts.{Puts};
ghost use Rattle.j39_io.specs.Turn.{turn};
ghost use Rattle.j39_memory.specs.ByOrigin.{pairs_of};
ghost use Rattle.j39_reports.specs.RowText.{least_cell, most_cell, origin_columns, row_columns_with, row_in, summary_text, unit_cell, value_cell};
ghost use Rattle.j39_reports.specs.RowsSoFar.{counted};
ghost use Rattle.j39_reports.specs.RowModels.{kept_value, range_of_span, row_shown};
ghost use Rattle.j39_rows.specs.Models.{cell_of, column_of, head_of};
ghost use Rattle.j39_rows.specs.Row.{address_word, or_nothing};

use crate::summaries::rows::Rows;
use crate::summaries::statistics::{NumberRange, Statistics};
use crate::summaries::stored_value::StoredValue;
use j39_frame::Origin;
use j39_groups::Groups;
use j39_io::{DeviceFault, Sink};
use j39_listen::Format;
use j39_rows::{Cell, Column, DASH, Head, Place, Plain};

/// Writes each row, in their order.
pub(crate) fn put_rows<W: Sink>(
    rows: &Rows<'_>,
    form: Format,
    groups: &Groups<'_>,
    sink: &mut W,
) -> Result<(), DeviceFault>
    ensures { Puts (summary_text form groups.now (counted (pairs_of rows.now.absences.counts))
        (map row_shown (pairs_of rows.now.rows)))
        result (turn W.written W.has_failed sink.old sink.new) }
{
    for at in 0..rows.rows.len() {
        let (origin, statistics) = rows.rows.pair_at(at);
        put_row(
            form,
            origin,
            statistics,
            rows.absences.of(origin),
            &*groups,
            sink,
        )?;
    }
    Ok(())
}

/// Writes a row.
fn put_row<'r, W: Sink>(
    form: Format,
    origin: Origin,
    statistics: &'r Statistics<'_>,
    absent: u64,
    groups: &'r Groups<'_>,
    sink: &mut W,
) -> Result<(), DeviceFault>
    ensures { Puts (row_in form groups.now absent (row_shown (origin, statistics.now)))
        result (turn W.written W.has_failed sink.old sink.new) }
{
    let columns = origin_columns(origin);
    let head = row_head(origin, &columns);
    let name = Cell::optional(groups.parameter_name_in(origin.pgn, origin.spn));
    let last = statistics.last.value.value();
    let state = Cell::optional(groups.state_in(origin.pgn, origin.spn, last));
    j39_rows::put_row(
        form,
        head,
        &row_columns(name, statistics, absent, state),
        sink,
    )
}

/// What the row of an origin begins with, of these columns.
fn row_head<'a>(origin: Origin, columns: &'a [Column<'a>; 4]) -> Head<'a>
    ensures { head_of result ≡ record {
      name = codes "address";
      first = address_word origin.address;
      columns = map column_of columns.now;
    } }
{
    Head {
        name: b"address",
        first: Plain::Address(origin.address),
        columns,
    }
}

/// What the row of an origin has behind the address.
fn origin_columns(origin: Origin) -> [Column<'static>; 4]
    ensures { map column_of result ≡ origin_columns origin.destination origin.name origin.pgn origin.spn }
{
    [
        Column::All(
            b"destination",
            Place::IfAny(b">"),
            Cell::address(origin.destination),
        ),
        Column::name(origin.name),
        Column::All(b"pgn", DASH, Cell::number(u64::from(origin.pgn))),
        Column::All(b"spn", DASH, Cell::number(u64::from(origin.spn))),
    ]
}

/// What it has behind the origin, with what the table calls the parameter and the state of the last value.
fn row_columns<'s>(
    name: Cell<'s>,
    statistics: &'s Statistics<'_>,
    absent: u64,
    state: Cell<'s>,
) -> [Column<'s>; 15]
    ensures { (origin : Origin) → map column_of result
        ≡ row_columns_with (cell_of name.entry) absent (row_shown (origin, statistics.now)) (cell_of state.entry) }
{
    let (first, last) = (&statistics.first, &statistics.last);
    let (least, most, unit) = range_cells(&statistics.range);
    [
        Column::BesideLines(b"parameter", name),
        Column::All(b"values", DASH, Cell::number(statistics.count)),
        Column::All(b"words", DASH, Cell::number(statistics.words)),
        Column::All(b"absent", DASH, Cell::number(absent)),
        Column::All(b"first_stamp", DASH, Cell::Is(Plain::Seconds(first.stamp))),
        Column::BesideLines(b"first_utc", Cell::Is(Plain::Utc(first.stamp))),
        Column::All(b"last_stamp", DASH, Cell::Is(Plain::Seconds(last.stamp))),
        Column::BesideLines(b"last_utc", Cell::Is(Plain::Utc(last.stamp))),
        Column::All(b"least", DASH, least),
        Column::All(b"most", DASH, most),
        Column::All(b"unit", DASH, unit),
        Column::All(b"first", DASH, value_cell(&first.value)),
        Column::All(b"last", DASH, value_cell(&last.value)),
        Column::InLines(DASH, name),
        Column::All(b"state", Place::IfAny(b" = "), state),
    ]
}

/// The bounds of the numbers and their unit, if there are numbers.
fn range_cells<'t>(range: &Option<NumberRange<'t>>) -> (Cell<'t>, Cell<'t>, Cell<'t>)
    ensures least { cell_of result.0 ≡ or_nothing least_cell (option_map range_of_span range.now) }
    ensures most { cell_of result.1 ≡ or_nothing most_cell (option_map range_of_span range.now) }
    ensures unit { cell_of result.2 ≡ or_nothing unit_cell (option_map range_of_span range.now) }
{
    match range {
        Some(span) => {
            let places = span.scale.places();
            let least = Cell::Is(Plain::Scaled(span.least, places));
            let most = Cell::Is(Plain::Scaled(span.most, places));
            (least, most, Cell::Text(span.scale.unit()))
        }
        None => (Cell::Nothing, Cell::Nothing, Cell::Nothing),
    }
}

/// A value: a number without its unit.
fn value_cell<'v>(kept: &'v StoredValue<'_>) -> Cell<'v>
    ensures { cell_of result ≡ value_cell (kept_value kept.now) }
{
    match kept {
        StoredValue::Number(number, scale) => Cell::Is(Plain::Scaled(*number, scale.places())),
        StoredValue::On => Cell::Is(Plain::Word(b"on")),
        StoredValue::Off => Cell::Is(Plain::Word(b"off")),
        StoredValue::Error => Cell::Is(Plain::Word(b"error")),
        StoredValue::Reserved => Cell::Is(Plain::Word(b"reserved")),
        StoredValue::Indicator => Cell::Is(Plain::Word(b"indicator")),
        StoredValue::Text(text) => Cell::Sent(text.as_slice()),
    }
}
