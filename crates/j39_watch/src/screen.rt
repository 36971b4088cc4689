//! A screen, line by line.
ghost use Rattle.std.specs.Prelude.{◌≡◌, ◌≤◌, ◌<◌, ◌+◌, ◌-◌, ◌∷◌, [], IfOk, Some, bytes_eq, length, map, option_map};
ghost use Rattle.std.specs.List.{flat_map};
ghost use Rattle.j39_address.specs.Name.{name_raw};
ghost use Rattle.j39_frame.specs.Stamp.{stamp_micros};
ghost use Rattle.j39_io.specs.Puts.{Puts};
ghost use Rattle.j39_io.specs.Turn.{turn};
ghost use Rattle.j39_listen.specs.Counting.{capped};
ghost use Rattle.j39_listen.specs.Listening.{holder_of};
ghost use Rattle.j39_memory.specs.ByOrigin.{pairs_of};
ghost use Rattle.j39_names.specs.Naming.{naming_of};
ghost use Rattle.j39_fault_reports.specs.CurrentPlaces.{at, standing_record};
ghost use Rattle.j39_fault_reports.specs.CurrentSoFar.{lights_shown, now_shown, nows_shown, told_shown};
ghost use Rattle.j39_fault_reports.specs.FaultsNow.{lit, named};
ghost use Rattle.j39_faults.specs.Text.{lamps_told};
ghost use Rattle.j39_watch.specs.Watch.{fitted, moment_text, plain, rows_text, screen_text};
ghost use Rattle.j39_watch.specs.WatchSoFar.{fault_lines, faults_of_places, limited, value_lines};
ghost use Rattle.j39_watch.specs.NotesSoFar.{size_of};
ghost use Rattle.j39_watch.specs.ScreenSoFar.{lines_of_view, said_lines};

use crate::asked_places::AskedPlaces;
use crate::cut_line::CutLine;
use crate::latest::Latest;
use crate::lines::{fault_line, make_value_line, moment_line, more_line, put_line};
use crate::severity::Severity;
use crate::values::Values;
use crate::view::View;
use j39_address::Name;
use j39_fault_reports::{LastActive, SOURCES, Standing};
use j39_faults::{Code, Lamps, lamps_told};
use j39_frame::Origin;
use j39_io::{DeviceFault, Sink, put_all};

/// Writes a screen of at most so many lines, and answers how many it has.
pub(crate) fn put_screen<W: Sink>(
    view: View<'_, '_>,
    rows: u16,
    places: &AskedPlaces<'_>,
    values: &Values<'_>,
    sink: &mut W,
) -> Result<u16, DeviceFault>
    ensures lines { IfOk result (λ n. n ≡ length (fitted rows (lines_of_view view.entry places.now values.now))) }
    ensures puts { Puts (screen_text (record (size_of view.entry.size) { rows = rows }) (lines_of_view view.entry places.now values.now))
        result (turn W.written W.has_failed sink.old sink.new) }
{
    put_all(sink, b"\x1B[H")?;
    let shown = put_fitted(view, rows, places, values, sink)?;
    put_all(sink, b"\x1B[J")?;
    Ok(shown)
}

/// Writes the lines of a screen, or as many as leave a row to the number of the others; answers how many it wrote.
fn put_fitted<W: Sink>(
    view: View<'_, '_>,
    rows: u16,
    places: &AskedPlaces<'_>,
    values: &Values<'_>,
    sink: &mut W,
) -> Result<u16, DeviceFault>
    ensures lines { IfOk result (λ n. n ≡ length (fitted rows (lines_of_view view.entry places.now values.now))) }
    ensures puts { Puts (rows_text (record (size_of view.entry.size) { rows = rows }) (lines_of_view view.entry places.now values.now))
        result (turn W.written W.has_failed sink.old sink.new) }
{
    let lines = count_lines(view, places, values);
    if lines <= u64::from(rows) {
        put_whole(view, rows, places, values, sink)
    } else {
        put_front(view, rows, lines, places, values, sink)
    }
}

/// Writes all lines of a screen, for which there is room, and answers how many that is.
fn put_whole<W: Sink>(
    view: View<'_, '_>,
    rows: u16,
    places: &AskedPlaces<'_>,
    values: &Values<'_>,
    sink: &mut W,
) -> Result<u16, DeviceFault>
    requires { length (lines_of_view view places.now values.now) ≤ rows }
    ensures lines { IfOk result (λ n. n ≡ length (fitted rows (lines_of_view view.entry places.now values.now))) }
    ensures puts { Puts (rows_text (record (size_of view.entry.size) { rows = rows }) (lines_of_view view.entry places.now values.now))
        result (turn W.written W.has_failed sink.old sink.new) }
{
    let left = put_lines(view, rows, places, values, sink)?;
    Ok(rows - left)
}

/// Writes the first of so many lines, which are too many, and how many more there are; answers how many it wrote.
fn put_front<W: Sink>(
    view: View<'_, '_>,
    rows: u16,
    lines: u64,
    places: &AskedPlaces<'_>,
    values: &Values<'_>,
    sink: &mut W,
) -> Result<u16, DeviceFault>
    requires counted { lines ≡ capped (length (lines_of_view view places.now values.now)) }
    requires many { rows < lines }
    ensures lines { IfOk result (λ n. n ≡ length (fitted rows (lines_of_view view.entry places.now values.now))) }
    ensures puts { Puts (rows_text (record (size_of view.entry.size) { rows = rows }) (lines_of_view view.entry places.now values.now))
        result (turn W.written W.has_failed sink.old sink.new) }
{
    if rows == 0 {
        return Ok(0);
    }
    put_lines(view, rows - 1, places, values, sink)?;
    let more = more_line(view.size, lines - u64::from(rows - 1));
    put_line(view.size, Severity::Plain, &more, sink)?;
    Ok(rows)
}

/// How many lines there are; a count that would pass 2^64 - 1 stays there.
fn count_lines(view: View<'_, '_>, places: &AskedPlaces<'_>, values: &Values<'_>) -> u64
    ensures { result ≡ capped (length (lines_of_view view.entry places.now values.now)) }
{
    let faults = count_faults(view, places);
    let values = count_values(view, values);
    faults.saturating_add(values).saturating_add(1)
}

/// How many lines of faults there are.
fn count_faults(view: View<'_, '_>, places: &AskedPlaces<'_>) -> u64
    ensures { result ≡ capped (length (faults_of_places (naming_of view.entry.naming) (holder_of view.entry.listener.now) (stamp_micros view.entry.now) places.now 256)) }
{
    let mut count: u64 = 0;
    for address in 0..SOURCES {
        count = count.saturating_add(count_at(view, places, address));
    }
    count
}

/// How many of them are of this address.
fn count_at(view: View<'_, '_>, places: &AskedPlaces<'_>, address: usize) -> u64
    requires { address < 256 }
    ensures { result ≡ capped (length (flat_map (fault_lines (naming_of view.entry.naming) (holder_of view.entry.listener.now) (stamp_micros view.entry.now)) (told_shown address (at places.now address)))) }
{
    match places.get(address) {
        Some(last) => count_last(view, address as u8, last),
        None => 0,
    }
}

/// How many of them are of its last message.
fn count_last(view: View<'_, '_>, address: u8, last: &LastActive) -> u64
    ensures { result ≡ capped (length (flat_map (fault_lines (naming_of view.entry.naming) (holder_of view.entry.listener.now) (stamp_micros view.entry.now)) (told_shown address (Some last.now)))) }
{
    let lights = count_lights(view, address, last);
    lights.saturating_add(count_standings(view, address, last))
}

/// Whether its lamps have a line, as a number.
fn count_lights(view: View<'_, '_>, address: u8, last: &LastActive) -> u64
    ensures { result ≡ capped (length (flat_map (fault_lines (naming_of view.entry.naming) (holder_of view.entry.listener.now) (stamp_micros view.entry.now)) (map (λ f. lit f) (lights_shown address (Some last.now))))) }
{
    if are_off(last.lamps) {
        return 0;
    }
    if view.has(address, last.name.map(Name::raw)) {
        1
    } else {
        0
    }
}

/// Whether nothing is told of lamps.
fn are_off(lamps: Lamps) -> bool
    ensures { result ≡ bytes_eq (lamps_told lamps) [] }
{
    lamps_told(lamps).as_slice() == b"".as_slice()
}

/// How many of its codes have a line.
fn count_standings(view: View<'_, '_>, address: u8, last: &LastActive) -> u64
    ensures { result ≡ capped (length (flat_map (fault_lines (naming_of view.entry.naming) (holder_of view.entry.listener.now) (stamp_micros view.entry.now)) (map (λ n. named n) (nows_shown address (Some last.now))))) }
{
    let standings = last.standings.as_slice();
    let mut count: u64 = 0;
    for standing in standings {
        count = count.saturating_add(count_standing(view, address, last, *standing));
    }
    count
}

/// Whether a code has a line, as a number.
fn count_standing(view: View<'_, '_>, address: u8, last: &LastActive, standing: Standing) -> u64
    ensures { result ≡ capped (length (fault_lines (naming_of view.entry.naming) (holder_of view.entry.listener.now) (stamp_micros view.entry.now) (named (now_shown address last.now (standing_record standing))))) }
{
    let Some(_) = standing.code else {
        return 0;
    };
    if view.has(address, last.name.map(Name::raw)) {
        1
    } else {
        0
    }
}

/// How many lines of values there are.
fn count_values(view: View<'_, '_>, values: &Values<'_>) -> u64
    ensures { result ≡ capped (length (flat_map (value_lines (naming_of view.entry.naming) (holder_of view.entry.listener.now) (stamp_micros view.entry.now)) (pairs_of values.now.rows))) }
{
    let mut count: u64 = 0;
    for at in 0..values.rows.len() {
        let (origin, latest) = values.rows.pair_at(at);
        count = count.saturating_add(count_value(view, origin, latest));
    }
    count
}

/// Whether a value has a line, as a number.
fn count_value(view: View<'_, '_>, origin: Origin, latest: &Latest<'_>) -> u64
    ensures { result ≡ capped (length (value_lines (naming_of view.entry.naming) (holder_of view.entry.listener.now) (stamp_micros view.entry.now) (origin, latest.now))) }
{
    let _ = latest;
    if view.has(origin.address, origin.name) {
        1
    } else {
        0
    }
}

/// Writes the lines of a screen, and answers for how many more there is room.
fn put_lines<W: Sink>(
    view: View<'_, '_>,
    rows: u16,
    places: &AskedPlaces<'_>,
    values: &Values<'_>,
    sink: &mut W,
) -> Result<u16, DeviceFault>
    ensures left { IfOk result (λ n. n ≡ rows - length (lines_of_view view.entry places.now values.now)) }
    ensures puts { Puts (limited (size_of view.entry.size) rows (lines_of_view view.entry places.now values.now))
        result (turn W.written W.has_failed sink.old sink.new) }
{
    let left = put_moment(view, rows, sink)?;
    let left = put_faults(view, left, places, sink)?;
    put_values(view, left, values, sink)
}

/// Writes the line of the moment, if there is room for it.
fn put_moment<W: Sink>(view: View<'_, '_>, left: u16, sink: &mut W) -> Result<u16, DeviceFault>
    ensures left { IfOk result (λ n. n ≡ left - 1) }
    ensures puts { Puts (limited (size_of view.entry.size) left (plain (moment_text view.entry.size.clock (stamp_micros view.entry.now)) ∷ []))
        result (turn W.written W.has_failed sink.old sink.new) }
{
    if left == 0 {
        return Ok(0);
    }
    put_line(view.size, Severity::Plain, &moment_line(view), sink)?;
    Ok(left - 1)
}

/// Writes the lines of the faults that are there, while there is room for them. Most addresses have none.
#[inline(never)]
fn put_faults<W: Sink>(
    view: View<'_, '_>,
    room: u16,
    places: &AskedPlaces<'_>,
    sink: &mut W,
) -> Result<u16, DeviceFault>
    ensures left { IfOk result (λ n. n ≡ room - length (faults_of_places (naming_of view.entry.naming) (holder_of view.entry.listener.now) (stamp_micros view.entry.now) places.now 256)) }
    ensures puts { Puts (limited (size_of view.entry.size) room (faults_of_places (naming_of view.entry.naming) (holder_of view.entry.listener.now) (stamp_micros view.entry.now) places.now 256))
        result (turn W.written W.has_failed sink.old sink.new) }
{
    let mut left = room;
    for address in 0..SOURCES {
        if let Some(last) = places.get(address) {
            left = put_last(view, left, address as u8, last, sink)?;
        }
    }
    Ok(left)
}

/// Writes those of its last message: of its lamps, and of its codes.
#[inline(never)]
fn put_last<W: Sink>(
    view: View<'_, '_>,
    room: u16,
    address: u8,
    last: &LastActive,
    sink: &mut W,
) -> Result<u16, DeviceFault>
    ensures left { IfOk result (λ n. n ≡ room - length (flat_map (fault_lines (naming_of view.entry.naming) (holder_of view.entry.listener.now) (stamp_micros view.entry.now)) (told_shown address (Some last.now)))) }
    ensures puts { Puts (limited (size_of view.entry.size) room (flat_map (fault_lines (naming_of view.entry.naming) (holder_of view.entry.listener.now) (stamp_micros view.entry.now)) (told_shown address (Some last.now))))
        result (turn W.written W.has_failed sink.old sink.new) }
{
    let left = put_lights(view, room, address, last, sink)?;
    put_standings(view, left, address, last, sink)
}

/// Writes the line of its lamps, if they have one.
fn put_lights<W: Sink>(
    view: View<'_, '_>,
    room: u16,
    address: u8,
    last: &LastActive,
    sink: &mut W,
) -> Result<u16, DeviceFault>
    ensures left { IfOk result (λ n. n ≡ room - length (flat_map (fault_lines (naming_of view.entry.naming) (holder_of view.entry.listener.now) (stamp_micros view.entry.now)) (map (λ f. lit f) (lights_shown address (Some last.now))))) }
    ensures puts { Puts (limited (size_of view.entry.size) room (flat_map (fault_lines (naming_of view.entry.naming) (holder_of view.entry.listener.now) (stamp_micros view.entry.now)) (map (λ f. lit f) (lights_shown address (Some last.now)))))
        result (turn W.written W.has_failed sink.old sink.new) }
{
    if are_off(last.lamps) {
        return Ok(room);
    }
    put_said(view, room, address, last, None, sink)
}

/// Writes those of its codes.
fn put_standings<W: Sink>(
    view: View<'_, '_>,
    room: u16,
    address: u8,
    last: &LastActive,
    sink: &mut W,
) -> Result<u16, DeviceFault>
    ensures left { IfOk result (λ n. n ≡ room
        - length (flat_map (fault_lines (naming_of view.entry.naming) (holder_of view.entry.listener.now) (stamp_micros view.entry.now)) (map (λ n. named n) (nows_shown address (Some last.now))))) }
    ensures puts { Puts (limited (size_of view.entry.size) room
        (flat_map (fault_lines (naming_of view.entry.naming) (holder_of view.entry.listener.now) (stamp_micros view.entry.now)) (map (λ n. named n) (nows_shown address (Some last.now)))))
        result (turn W.written W.has_failed sink.old sink.new) }
{
    let standings = last.standings.as_slice();
    let mut left = room;
    for standing in standings {
        left = put_standing(view, left, address, last, *standing, sink)?;
    }
    Ok(left)
}

/// Writes the line of a code.
fn put_standing<W: Sink>(
    view: View<'_, '_>,
    left: u16,
    address: u8,
    last: &LastActive,
    standing: Standing,
    sink: &mut W,
) -> Result<u16, DeviceFault>
    ensures left { IfOk result (λ n. n ≡ left
        - length (fault_lines (naming_of view.entry.naming) (holder_of view.entry.listener.now) (stamp_micros view.entry.now) (named (now_shown address last.now (standing_record standing))))) }
    ensures puts { Puts (limited (size_of view.entry.size) left
        (fault_lines (naming_of view.entry.naming) (holder_of view.entry.listener.now) (stamp_micros view.entry.now) (named (now_shown address last.now (standing_record standing)))))
        result (turn W.written W.has_failed sink.old sink.new) }
{
    let Some(code) = standing.code else {
        return Ok(left);
    };
    put_said(view, left, address, last, Some(code), sink)
}

/// Writes the line of a code, or, of none, of the lamps, if its controller is there and there is room.
fn put_said<W: Sink>(
    view: View<'_, '_>,
    left: u16,
    address: u8,
    last: &LastActive,
    code: Option<Code>,
    sink: &mut W,
) -> Result<u16, DeviceFault>
    ensures left { IfOk result (λ n. n ≡ left - length (said_lines view.entry address last.now code)) }
    ensures puts { Puts (limited (size_of view.entry.size) left (said_lines view.entry address last.now code))
        result (turn W.written W.has_failed sink.old sink.new) }
{
    if left == 0 || !view.has(address, last.name.map(Name::raw)) {
        return Ok(left);
    }
    let line = fault_line(view, address, last.name, last.stamp, last.lamps, code);
    put_line(view.size, Severity::by(last.lamps), &line, sink)?;
    Ok(left - 1)
}

/// Writes the lines of the values whose controllers are there, while there is room for them.
fn put_values<W: Sink>(
    view: View<'_, '_>,
    room: u16,
    values: &Values<'_>,
    sink: &mut W,
) -> Result<u16, DeviceFault>
    ensures left { IfOk result (λ n. n ≡ room
        - length (flat_map (value_lines (naming_of view.entry.naming) (holder_of view.entry.listener.now) (stamp_micros view.entry.now)) (pairs_of values.now.rows))) }
    ensures puts { Puts (limited (size_of view.entry.size) room
        (flat_map (value_lines (naming_of view.entry.naming) (holder_of view.entry.listener.now) (stamp_micros view.entry.now)) (pairs_of values.now.rows)))
        result (turn W.written W.has_failed sink.old sink.new) }
{
    let mut line = CutLine::new(usize::from(view.size.width()) + 1);
    let mut left = room;
    for at in 0..values.rows.len() {
        let (origin, latest) = values.rows.pair_at(at);
        left = put_value(view, left, origin, latest, &mut line, sink)?;
    }
    Ok(left)
}

/// Writes the line of a value, if its controller is there and there is room. What stood in the line is of no use.
fn put_value<W: Sink>(
    view: View<'_, '_>,
    left: u16,
    origin: Origin,
    latest: &Latest<'_>,
    line: &mut CutLine,
    sink: &mut W,
) -> Result<u16, DeviceFault>
    requires { line.old.width ≡ view.size.width + 1 }
    ensures width { line.new.width ≡ line.old.width }
    ensures left { IfOk result (λ n. n ≡ left
        - length (value_lines (naming_of view.entry.naming) (holder_of view.entry.listener.now) (stamp_micros view.entry.now) (origin, latest.now))) }
    ensures puts { Puts (limited (size_of view.entry.size) left
        (value_lines (naming_of view.entry.naming) (holder_of view.entry.listener.now) (stamp_micros view.entry.now) (origin, latest.now)))
        result (turn W.written W.has_failed sink.old sink.new) }
{
    if left == 0 || !view.has(origin.address, origin.name) {
        return Ok(left);
    }
    make_value_line(line, view.naming, view.now, origin, latest);
    let severity = Severity::of_value(&latest.seen.value);
    put_line(view.size, severity, line, sink)?;
    Ok(left - 1)
}
