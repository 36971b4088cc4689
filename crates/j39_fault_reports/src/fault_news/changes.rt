//! The lines of what became of active codes, from one message of DM1 to the next, or the records.
ghost use Rattle.std.specs.Prelude.{◌≡◌, ◌<◌, ◌≤◌, ◌+◌, ◌^◌, IfOk, length, option_map};
ghost use Rattle.j39_io.specs.Puts.{Puts};
ghost use Rattle.j39_io.specs.Turn.{turn};
ghost use Rattle.j39_address.specs.Name.{name_raw};
ghost use Rattle.j39_faults.specs.Conversions.{codes_by};
ghost use Rattle.j39_faults.specs.LampBits.{lamps_of};
ghost use Rattle.j39_frame.specs.Stamp.{stamp_micros};
ghost use Rattle.j39_listen.specs.HeardModel.{hearing_of};
ghost use Rattle.j39_fault_reports.specs.FaultChanges.{became, changes_by, code_changes, words_of};
ghost use Rattle.j39_fault_reports.specs.FaultRows.{faults_text, message_head};
ghost use Rattle.j39_rows.specs.Models.{head_of};
ghost use Rattle.j39_fault_reports.specs.FaultsSoFar.{change_by, changed, manner_of};
ghost use Rattle.j39_fault_reports.specs.Faults.{lines_in};

use crate::fault_news::columns::message_columns;
use crate::fault_news::form::{Saying, Writing};
use crate::fault_news::lines::{message_head, put_fault, put_lights};
use crate::fault_news::message::CodeMessage;
use j39_faults::{
    Change, Code, Lamps, LampsText, State, Version, change_since, clearing_by, code_by, codes_of,
    lamps_of, lamps_told,
};
use j39_io::{DeviceFault, Sink};
use j39_rows::Head;

/// Which of two messages, one behind the other, names a code.
#[derive(Clone, Copy)]
pub(crate) enum Side {
    Later,
    Earlier,
}

/// Writes a line for the lamps, if they changed from a payload to the message behind it, and one for each code that did, and answers
/// how many.
pub(crate) fn put_changes<W: Sink>(
    message: CodeMessage<'_>,
    writing: Writing<'_, '_>,
    before: &[u8],
    sink: &mut W,
) -> Result<u64, DeviceFault>
    ensures lines { IfOk result (λ n. n ≡ lines_in (manner_of writing.entry) (changes_by message.entry.version before.now (hearing_of message.entry.heard.now) message.entry.lamps)) }
    ensures puts { Puts (faults_text writing.entry.form (manner_of writing.entry) (changes_by message.entry.version before.now (hearing_of message.entry.heard.now) message.entry.lamps))
        result (turn W.written W.has_failed sink.old sink.new) }
{
    let heard = message.heard;
    let columns = message_columns(heard);
    let head = message_head(heard, &columns);
    let words = words_in(before);
    let lit = put_lights(head, writing, words.as_slice(), message.lamps, sink)?;
    let coded = put_code_changes(message, head, writing, before, sink)?;
    Ok(lit + coded)
}

/// Writes a line for each code that changed from a payload to the message behind it, and answers how many.
fn put_code_changes<W: Sink>(
    message: CodeMessage<'_>,
    head: Head<'_>,
    writing: Writing<'_, '_>,
    before: &[u8],
    sink: &mut W,
) -> Result<u64, DeviceFault>
    requires { head_of head ≡ message_head (stamp_micros message.heard.now.message.stamp) message.heard.now.message.source
        message.heard.now.destination (option_map name_raw message.heard.now.name) }
    ensures lines { IfOk result (λ n. n ≡ lines_in (manner_of writing.entry) (code_changes message.entry.version before.now (hearing_of message.entry.heard.now) message.entry.lamps)) }
    ensures few { IfOk result (λ n. n + 1 < 2 ^ 64) }
    ensures puts { Puts (faults_text writing.entry.form (manner_of writing.entry) (code_changes message.entry.version before.now (hearing_of message.entry.heard.now) message.entry.lamps))
        result (turn W.written W.has_failed sink.old sink.new) }
{
    let heard = message.heard;
    let payload = heard.message.payload;
    let (now, then) = (Side::Later, Side::Earlier);
    let later = put_changed(message, head, writing, now, payload, before, sink)?;
    let earlier = put_changed(message, head, writing, then, before, payload, sink)?;
    Ok(later + earlier)
}

/// What was told of the lamps of a payload; nothing where it has none.
fn words_in(payload: &[u8]) -> LampsText
    ensures { result.items ≡ words_of (lamps_of payload.now) }
{
    match lamps_of(payload) {
        Some(lamps) => lamps_told(lamps),
        None => LampsText::new(),
    }
}

/// Writes a line for each code of a payload that changed, the other message having these, and answers how many.
fn put_changed<W: Sink>(
    message: CodeMessage<'_>,
    head: Head<'_>,
    writing: Writing<'_, '_>,
    side: Side,
    payload: &[u8],
    others: &[u8],
    sink: &mut W,
) -> Result<u64, DeviceFault>
    requires { head_of head ≡ message_head (stamp_micros message.heard.now.message.stamp) message.heard.now.message.source
        message.heard.now.destination (option_map name_raw message.heard.now.name) }
    ensures lines { IfOk result (λ n. n
        ≡ lines_in (manner_of writing.entry) (changed side (hearing_of message.entry.heard.now) message.entry.lamps (codes_by message.entry.version others.now) (codes_by message.entry.version payload.now))) }
    ensures few { IfOk result (λ n. n ≤ length payload.now) }
    ensures puts { Puts (faults_text writing.entry.form (manner_of writing.entry)
        (changed side (hearing_of message.entry.heard.now) message.entry.lamps (codes_by message.entry.version others.now) (codes_by message.entry.version payload.now)))
        result (turn W.written W.has_failed sink.old sink.new) }
{
    let mut lines = 0;
    for code in codes_of(payload) {
        let code = code_by(message.version, code);
        let change = change_by(side, message.version, others, code);
        lines += put_change(message, head, writing, code, change, sink)?;
    }
    Ok(lines)
}

/// What became of a code of one of two messages, the other having these.
fn change_by(side: Side, version: Option<Version>, others: &[u8], code: Code) -> Option<Change>
    ensures { result ≡ change_by side (codes_by version others.now) code }
{
    match side {
        Side::Later => change_since(version, others, code),
        Side::Earlier => clearing_by(version, others, code),
    }
}

/// Writes a line for a code that changed, and answers how many.
fn put_change<W: Sink>(
    message: CodeMessage<'_>,
    head: Head<'_>,
    writing: Writing<'_, '_>,
    code: Code,
    change: Option<Change>,
    sink: &mut W,
) -> Result<u64, DeviceFault>
    requires { head_of head ≡ message_head (stamp_micros message.heard.now.message.stamp) message.heard.now.message.source
        message.heard.now.destination (option_map name_raw message.heard.now.name) }
    ensures lines { IfOk result (λ n. n ≡ lines_in (manner_of writing.entry) (became (hearing_of message.entry.heard.now) message.entry.lamps code change)) }
    ensures puts { Puts (faults_text writing.entry.form (manner_of writing.entry) (became (hearing_of message.entry.heard.now) message.entry.lamps code change))
        result (turn W.written W.has_failed sink.old sink.new) }
{
    let Some(change) = change else {
        return Ok(0);
    };
    let said = Saying {
        state: State::Became(change),
        lamps: message.lamps,
        code: Some(code),
    };
    put_fault(head, writing, said, sink)
}
