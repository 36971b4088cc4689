//! The rows of a message of faults.
ghost use Rattle.std.specs.Prelude.{◌≡◌, ◌<◌, ◌≤◌, ◌+◌, ◌^◌, IfOk, Some, count_by, map, option_map, unwrap_or};
ghost use Rattle.std.specs.List.{flat_map};
ghost use Rattle.j39_io.specs.Puts.{Puts};
ghost use Rattle.j39_io.specs.Turn.{turn};
ghost use Rattle.j39_address.specs.Name.{name_raw};
ghost use Rattle.j39_faults.specs.Conversions.{codes_by};
ghost use Rattle.j39_faults.specs.declared.text.State.TheVariants.{Is};
ghost use Rattle.j39_frame.specs.Stamp.{stamp_micros};
ghost use Rattle.j39_listen.specs.HeardModel.{hearing_of};
ghost use Rattle.j39_fault_reports.specs.Faults.{active_or_lights, codes_or_none, fault_of, faults_by, lines_in, name_in, names_asked};
ghost use Rattle.j39_fault_reports.specs.FaultRows.{clearing_columns, faults_text, message_columns, message_head, said_columns, saying_text};
ghost use Rattle.j39_fault_reports.specs.FaultsSoFar.{are_lit, lights_line, line_of, manner_of, spns_now};
ghost use Rattle.j39_listen.specs.Counting.{one_if};
ghost use Rattle.j39_names.specs.Naming.{naming_of};
ghost use Rattle.j39_rows.specs.Models.{column_of, head_of};
ghost use Rattle.j39_rows.specs.Row.{row_text};

use crate::fault_news::columns::{
    coded, lights_columns, message_columns, moment_head, state_name, uncoded,
};
use crate::fault_news::form::{Saying, Writing, lights_asked, names_asked};
use crate::fault_news::message::CodeMessage;
use crate::fault_news::names::name_in;
use j39_faults::{
    Code, Kind, Lamps, State, Version, clear_word, code_by, codes_of, lamps_told, parameter_words,
    state_word,
};
use j39_io::{DeviceFault, Sink};
use j39_listen::{Clock, Format, Heard};
use j39_names::Naming;
use j39_rows::{Cell, Column, Head, put_columns, put_row};

/// Writes a line for the lamps of a message, if they aren't all off, and one for each code, by this version of the conversion, or one
/// that says that it has none, and answers how many.
pub(crate) fn put_message<W: Sink>(
    message: CodeMessage<'_>,
    writing: Writing<'_, '_>,
    sink: &mut W,
) -> Result<u64, DeviceFault>
    ensures lines { IfOk result (λ n. n ≡ lines_in (manner_of writing.entry)
        (faults_by message.entry.version (hearing_of message.entry.heard.now) (Some message.entry.kind) (Some message.entry.lamps))) }
    ensures puts { Puts (faults_text writing.entry.form (manner_of writing.entry)
        (faults_by message.entry.version (hearing_of message.entry.heard.now) (Some message.entry.kind) (Some message.entry.lamps)))
        result (turn W.written W.has_failed sink.old sink.new) }
{
    let heard = message.heard;
    let columns = message_columns(heard);
    let head = message_head(heard, &columns);
    let lit = put_lights(head, writing, b"", message.lamps, sink)?;
    let coded = put_coded(message, head, writing, sink)?;
    Ok(lit + coded)
}

/// Writes a line for each code of a message, or one that says that it has none, and answers how many.
fn put_coded<W: Sink>(
    message: CodeMessage<'_>,
    head: Head<'_>,
    writing: Writing<'_, '_>,
    sink: &mut W,
) -> Result<u64, DeviceFault>
    requires { head_of head ≡ message_head (stamp_micros message.heard.now.message.stamp) message.heard.now.message.source
        message.heard.now.destination (option_map name_raw message.heard.now.name) }
    ensures lines { IfOk result (λ n. n ≡ lines_in (manner_of writing.entry)
        (map (fault_of (hearing_of message.entry.heard.now) (Is message.entry.kind) message.entry.lamps) (codes_or_none (codes_by message.entry.version message.entry.heard.now.message.payload.now)))) }
    ensures few { IfOk result (λ n. n + 1 < 2 ^ 64) }
    ensures puts { Puts (faults_text writing.entry.form (manner_of writing.entry)
        (map (fault_of (hearing_of message.entry.heard.now) (Is message.entry.kind) message.entry.lamps) (codes_or_none (codes_by message.entry.version message.entry.heard.now.message.payload.now))))
        result (turn W.written W.has_failed sink.old sink.new) }
{
    let heard = message.heard;
    let lines = put_codes(head, writing, message, heard.message.payload, sink)?;
    if lines > 0 {
        return Ok(lines);
    }
    let state = State::Is(message.kind);
    let (lamps, code) = (message.lamps, None);
    put_fault(head, writing, Saying { state, lamps, code }, sink)
}

/// Writes a line for the lamps, if they have one and weren't told in these words before, and answers how many that is.
pub(crate) fn put_lights<W: Sink>(
    head: Head<'_>,
    writing: Writing<'_, '_>,
    before: &[u8],
    lamps: Lamps,
    sink: &mut W,
) -> Result<u64, DeviceFault>
    ensures lines { IfOk result (λ n. n ≡ one_if (are_lit (manner_of writing.entry) before.now lamps)) }
    ensures few { IfOk result (λ n. n ≤ 1) }
    ensures puts { Puts (lights_line writing.entry.form (head_of head.entry) (manner_of writing.entry) before.now lamps)
        result (turn W.written W.has_failed sink.old sink.new) }
{
    let told = lamps_told(lamps);
    if told.as_slice() == before || !lights_asked(writing) {
        return Ok(0);
    }
    let columns = lights_columns(Cell::text(told.as_slice()));
    match put_row(writing.form, head, &columns, sink) {
        Ok(()) => Ok(1),
        Err(DeviceFault) => Err(DeviceFault),
    }
}

/// Writes a line for each code that is asked for, and answers how many.
fn put_codes<W: Sink>(
    head: Head<'_>,
    writing: Writing<'_, '_>,
    message: CodeMessage<'_>,
    payload: &[u8],
    sink: &mut W,
) -> Result<u64, DeviceFault>
    ensures lines { IfOk result (λ n. n ≡ count_by (λ code. names_asked (spns_now writing.entry.spns) (Some code))
        (codes_by message.entry.version payload.now)) }
    ensures few { IfOk result (λ n. n + 1 < 2 ^ 64) }
    ensures puts { Puts (flat_map (λ code. line_of writing.entry.form (head_of head.entry) (manner_of writing.entry) (Is message.entry.kind) message.entry.lamps (Some code))
        (codes_by message.entry.version payload.now)) result (turn W.written W.has_failed sink.old sink.new) }
{
    let mut lines = 0;
    for code in codes_of(payload) {
        let state = State::Is(message.kind);
        let lamps = message.lamps;
        let code = Some(code_by(message.version, code));
        lines += put_fault(head, writing, Saying { state, lamps, code }, sink)?;
    }
    Ok(lines)
}

/// Writes what is said behind what stands before it, if its code is asked for, and answers how many lines that is.
pub(crate) fn put_fault<W: Sink>(
    head: Head<'_>,
    writing: Writing<'_, '_>,
    said: Saying,
    sink: &mut W,
) -> Result<u64, DeviceFault>
    ensures lines { IfOk result (λ n. n ≡ one_if (names_asked (spns_now writing.entry.spns) said.code)) }
    ensures puts { Puts (line_of writing.entry.form (head_of head.entry) (manner_of writing.entry) said.state said.lamps said.code)
        result (turn W.written W.has_failed sink.old sink.new) }
{
    if !names_asked(writing.spns, said.code) {
        return Ok(0);
    }
    match put_shown(head, writing, said, sink) {
        Ok(()) => Ok(1),
        Err(DeviceFault) => Err(DeviceFault),
    }
}

/// Writes what is said.
fn put_shown<W: Sink>(
    head: Head<'_>,
    writing: Writing<'_, '_>,
    said: Saying,
    sink: &mut W,
) -> Result<(), DeviceFault>
    ensures { Puts (row_text writing.entry.form (head_of head.entry) (said_columns (naming_of writing.entry.naming.now) said.state said.lamps said.code))
        result (turn W.written W.has_failed sink.old sink.new) }
{
    let (name, word) = (state_name(said.state), state_word(said.state));
    let told = lamps_told(said.lamps);
    let lamps = Cell::text(told.as_slice());
    match said.code {
        Some(code) => {
            let words = parameter_words(code.parameter);
            let parameter = parameter_of(writing.naming, code, words.as_slice());
            put_row(
                writing.form,
                head,
                &coded(name, word, lamps, parameter, code),
                sink,
            )
        }
        None => {
            let columns = uncoded(name, word, b"none", lamps, b"no code");
            put_row(writing.form, head, &columns, sink)
        }
    }
}

/// Writes what a line says of a code that is active, or, of none, of the lamps. After a fault a front of it was written.
pub fn put_active<'r, W: Sink>(
    naming: &'r Naming<'r, '_>,
    lamps: Lamps,
    code: Option<Code>,
    sink: &mut W,
) -> Result<(), DeviceFault>
    ensures { Puts (saying_text (naming_of naming.now) (active_or_lights lamps code)) result (turn W.written W.has_failed sink.old sink.new) }
{
    let state = State::Is(Kind::Active);
    let (name, word) = (state_name(state), state_word(state));
    let told = lamps_told(lamps);
    let lamps = Cell::text(told.as_slice());
    let form = Format::Line(Clock::Seconds);
    match code {
        Some(code) => {
            let words = parameter_words(code.parameter);
            let parameter = parameter_of(naming, code, words.as_slice());
            put_columns(form, &coded(name, word, lamps, parameter, code), sink)
        }
        None => {
            let columns = lights_columns(lamps);
            put_columns(form, &columns, sink)
        }
    }
}

/// What the parameter of a code is called, or else these words.
fn parameter_of<'r>(naming: &Naming<'r, '_>, code: Code, words: &'r [u8]) -> &'r [u8]
    ensures { result.now ≡ unwrap_or (name_in (naming_of naming.now) code) words.now }
{
    match name_in(naming, code) {
        Some(name) => name,
        None => words,
    }
}

/// Writes that a message asks to clear the codes of a kind.
pub(crate) fn put_clearing<W: Sink>(
    heard: &Heard<'_>,
    form: Format,
    kind: Kind,
    sink: &mut W,
) -> Result<(), DeviceFault>
    ensures { Puts (row_text form (message_head (stamp_micros heard.now.message.stamp) heard.now.message.source heard.now.destination
        (option_map name_raw heard.now.name)) (clearing_columns kind))
        result (turn W.written W.has_failed sink.old sink.new) }
{
    let columns = message_columns(heard);
    let head = message_head(heard, &columns);
    let word = clear_word(kind);
    let said = uncoded(
        b"state",
        word.as_slice(),
        b"all",
        Cell::Nothing,
        b"all codes",
    );
    put_row(form, head, &said, sink)
}

/// What the rows of a message begin with, of these columns of it.
pub(crate) fn message_head<'a>(heard: &Heard<'_>, columns: &'a [Column<'a>; 4]) -> Head<'a>
    requires { map column_of columns.now ≡ message_columns (stamp_micros heard.now.message.stamp) heard.now.message.source
        heard.now.destination (option_map name_raw heard.now.name) }
    ensures { head_of result ≡ message_head (stamp_micros heard.now.message.stamp) heard.now.message.source
        heard.now.destination (option_map name_raw heard.now.name) }
{
    moment_head(heard.message.stamp, columns)
}
