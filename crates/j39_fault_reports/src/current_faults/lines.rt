//! The rows of the faults that are there now.
ghost use Rattle.std.specs.Prelude.{◌≡◌, ◌≤◌, ◌<◌, ◌∷◌, [], IfOk, List, Some, codes, map, option_map};
ghost use Rattle.j39_io.specs.Device.{Marks};
ghost use Rattle.j39_io.specs.Puts.{Puts};
ghost use Rattle.j39_io.specs.Turn.{turn};
ghost use Rattle.j39_frame.specs.Frame.{FrameRecord};
ghost use Rattle.j39_listen.specs.Chooses.{Chooses};
ghost use Rattle.j39_listen.specs.Filter.{FilterRecord, first_stamp};
ghost use Rattle.j39_fault_reports.specs.FaultsNow.{named, now_taken};
ghost use Rattle.j39_listen.specs.Counting.{capped};
ghost use Rattle.j39_fault_reports.specs.FaultsNowRun.{now_head, now_lines, now_text};
ghost use Rattle.j39_rows.specs.Models.{cell_of, column_of, head_of};
ghost use Rattle.j39_rows.specs.Row.{micros_cell, or_nothing, seconds};
ghost use Rattle.j39_frame.specs.Stamp.{stamp_micros};
ghost use Rattle.j39_fault_reports.specs.Faults.{names_asked};
ghost use Rattle.j39_fault_reports.specs.FaultsSoFar.{manner_of, spns_now};
ghost use Rattle.j39_listen.specs.Counting.{one_if};
ghost use Rattle.j39_fault_reports.specs.CurrentPlaces.{at, standing_record};
ghost use Rattle.j39_fault_reports.specs.CurrentSoFar.{now_shown, nows_shown, taken_below, told_shown};

use crate::current_faults::last_active::LastActive;
use crate::current_faults::last_actives::{LastActives, SOURCES};
use crate::current_faults::silence::silent_since;
use crate::current_faults::standing::Standing;
use crate::fault_news::columns::{moment_head, sender_columns};
use crate::fault_news::form::{Saying, Writing};
use crate::fault_news::lines::{put_fault, put_lights};
use j39_address::Name;
use j39_faults::{Kind, State};
use j39_frame::Stamp;
use j39_io::{DeviceFault, Sink};
use j39_listen::Chooser;
use j39_rows::{Cell, Column, DASH, Head, Place, Plain};

/// Writes what stands at each address and is asked for, in their order, the last frame having this stamp, and answers how many lines that is.
pub(crate) fn put_places<W: Sink>(
    places: &LastActives,
    writing: Writing<'_, '_>,
    chooser: &Chooser<'_>,
    till: Option<Stamp>,
    sink: &mut W,
) -> Result<u64, DeviceFault>
    ensures lines { IfOk result (λ n. (which : FilterRecord) (F : List FrameRecord) → Chooses which chooser.now F
        → n ≡ capped (now_lines (manner_of writing.entry) (taken_below which (first_stamp F) places.now 256))) }
    ensures puts { (which : FilterRecord) (F : List FrameRecord) → Chooses which chooser.now F
        → Puts (now_text writing.entry.form (manner_of writing.entry) (option_map stamp_micros till) (taken_below which (first_stamp F) places.now 256))
        result (turn W.written W.has_failed sink.old sink.new) }
    ensures mark { Marks result (W.has_failed sink.old) (W.has_failed sink.new) }
{
    let mut lines: u64 = 0;
    for address in 0..SOURCES {
        lines = lines.saturating_add(put_place(writing, chooser, address, places, till, sink)?);
    }
    Ok(lines)
}

/// Writes what stands at an address and is asked for, and answers how many lines that is.
fn put_place<W: Sink>(
    writing: Writing<'_, '_>,
    chooser: &Chooser<'_>,
    address: usize,
    places: &LastActives,
    till: Option<Stamp>,
    sink: &mut W,
) -> Result<u64, DeviceFault>
    requires { address < 256 }
    ensures lines { IfOk result (λ n. (which : FilterRecord) (F : List FrameRecord) → Chooses which chooser.now F
        → n ≡ now_lines (manner_of writing.entry) (now_taken which (first_stamp F) (told_shown address (at places.now address)))) }
    ensures puts { (which : FilterRecord) (F : List FrameRecord) → Chooses which chooser.now F
        → Puts (now_text writing.entry.form (manner_of writing.entry) (option_map stamp_micros till)
        (now_taken which (first_stamp F) (told_shown address (at places.now address))))
        result (turn W.written W.has_failed sink.old sink.new) }
    ensures mark { Marks result (W.has_failed sink.old) (W.has_failed sink.new) }
{
    match places.get(address) {
        Some(last) => put_asked(writing, chooser, address as u8, last, till, sink),
        None => Ok(0),
    }
}

/// Writes what the last message of an address says, if it is asked for, and answers how many lines that is.
fn put_asked<W: Sink>(
    writing: Writing<'_, '_>,
    chooser: &Chooser<'_>,
    address: u8,
    last: &LastActive,
    till: Option<Stamp>,
    sink: &mut W,
) -> Result<u64, DeviceFault>
    ensures lines { IfOk result (λ n. (which : FilterRecord) (F : List FrameRecord) → Chooses which chooser.now F
        → n ≡ now_lines (manner_of writing.entry) (now_taken which (first_stamp F) (told_shown address (Some last.now)))) }
    ensures puts { (which : FilterRecord) (F : List FrameRecord) → Chooses which chooser.now F
        → Puts (now_text writing.entry.form (manner_of writing.entry) (option_map stamp_micros till)
        (now_taken which (first_stamp F) (told_shown address (Some last.now))))
        result (turn W.written W.has_failed sink.old sink.new) }
    ensures mark { Marks result (W.has_failed sink.old) (W.has_failed sink.new) }
{
    let pgn = last.pgn.raw();
    if chooser.asks_for(last.stamp, address, last.name, last.destination, pgn) {
        put_last(writing, address, last, till, sink)
    } else {
        Ok(0)
    }
}

/// Writes what the last message of an address says: its lamps, if they aren't all off, and its codes; answers how many lines that is.
fn put_last<W: Sink>(
    writing: Writing<'_, '_>,
    address: u8,
    last: &LastActive,
    till: Option<Stamp>,
    sink: &mut W,
) -> Result<u64, DeviceFault>
    ensures lines { IfOk result (λ n. n ≡ now_lines (manner_of writing.entry) (told_shown address (Some last.now))) }
    ensures puts { Puts (now_text writing.entry.form (manner_of writing.entry) (option_map stamp_micros till) (told_shown address (Some last.now)))
        result (turn W.written W.has_failed sink.old sink.new) }
{
    let columns = sender_columns(last.stamp, address, last.destination, last.name);
    let head = moment_head(last.stamp, &columns);
    let lit = put_lights(head, writing, b"", last.lamps, sink)?;
    let coded = put_standings(writing, address, last, till, sink)?;
    Ok(lit + coded)
}

/// Writes its codes, and answers how many lines that is.
fn put_standings<W: Sink>(
    writing: Writing<'_, '_>,
    address: u8,
    last: &LastActive,
    till: Option<Stamp>,
    sink: &mut W,
) -> Result<u64, DeviceFault>
    ensures lines { IfOk result (λ n. n ≡ now_lines (manner_of writing.entry) (map (λ n. named n) (nows_shown address (Some last.now)))) }
    ensures few { IfOk result (λ n. n ≤ 445) }
    ensures puts { Puts (now_text writing.entry.form (manner_of writing.entry) (option_map stamp_micros till) (map (λ n. named n) (nows_shown address (Some last.now))))
        result (turn W.written W.has_failed sink.old sink.new) }
{
    let mut lines: u64 = 0;
    let standings = last.standings.as_slice();
    for standing in standings {
        lines += put_standing(writing, address, last, *standing, till, sink)?;
    }
    Ok(lines)
}

/// Writes a line for a code, or that there is none, if it is asked for, and answers how many that is.
fn put_standing<W: Sink>(
    writing: Writing<'_, '_>,
    address: u8,
    last: &LastActive,
    standing: Standing,
    till: Option<Stamp>,
    sink: &mut W,
) -> Result<u64, DeviceFault>
    ensures lines { IfOk result (λ n. n ≡ one_if (names_asked (spns_now writing.entry.spns) standing.code)) }
    ensures puts { Puts (now_text writing.entry.form (manner_of writing.entry) (option_map stamp_micros till) (named (now_shown address last.now (standing_record standing)) ∷ []))
        result (turn W.written W.has_failed sink.old sink.new) }
{
    let columns = columns_of(address, last, standing, till);
    let head = now_head(standing, &columns);
    let said = Saying {
        state: State::Is(Kind::Active),
        lamps: last.lamps,
        code: standing.code,
    };
    put_fault(head, writing, said, sink)
}

/// What the row of a code has behind since when it stands: the same moment in UTC, the address and the NAME, when the last message
/// came, in how many it was told, and how long ago that is, where it is long.
fn columns_of(
    address: u8,
    last: &LastActive,
    standing: Standing,
    till: Option<Stamp>,
) -> [Column<'static>; 7]
    ensures { map column_of result ≡ (now_head (option_map stamp_micros till) (now_shown address last.now (standing_record standing))).columns }
{
    [
        Column::BesideLines(b"first_utc", Cell::Is(Plain::Utc(standing.since))),
        Column::All(b"address", DASH, Cell::Is(Plain::Address(address))),
        Column::name(last.name.map(Name::raw)),
        Column::All(b"last_stamp", DASH, Cell::Is(Plain::Seconds(last.stamp))),
        Column::BesideLines(b"last_utc", Cell::Is(Plain::Utc(last.stamp))),
        Column::All(b"messages", DASH, Cell::number(standing.often)),
        Column::All(
            b"silent",
            Place::IfAny(b" silent "),
            silence_cell(silent_since(last.stamp, till)),
        ),
    ]
}

/// A time, where it is told.
fn silence_cell(silence: Option<u64>) -> Cell<'static>
    ensures { cell_of result ≡ or_nothing micros_cell silence }
{
    match silence {
        Some(micros) => Cell::Is(Plain::Micros(micros)),
        None => Cell::Nothing,
    }
}

/// What the row of a code begins with, of these columns.
fn now_head<'a>(standing: Standing, columns: &'a [Column<'a>; 7]) -> Head<'a>
    ensures { head_of result ≡ record {
      name = codes "first_stamp";
      first = seconds (stamp_micros standing.since);
      columns = map column_of columns.now;
    } }
{
    Head {
        name: b"first_stamp",
        first: Plain::Seconds(standing.since),
        columns,
    }
}
