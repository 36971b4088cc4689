//! What is told of a message of codes, behind what its address said before.
ghost use Rattle.std.specs.Prelude.{◌≡◌, ◌≢◌, None, OnOk, Some, Err, false, option_map, true};
ghost use Rattle.j39_io.specs.Turn.{turn};
ghost use Rattle.j39_address.specs.Name.{name_raw};
ghost use Rattle.j39_listen.specs.HeardModel.{hearing_of};
ghost use Rattle.j39_listen.specs.declared.account.LineFault.TheVariants as line_fault;
ghost use Rattle.j39_fault_reports.specs.FaultChanges.{changes_by};
ghost use Rattle.j39_fault_reports.specs.Spoken.{is_active};
ghost use Rattle.j39_fault_reports.specs.Faults.{faults_by};
ghost use Rattle.j39_fault_reports.specs.FaultsSoFar.{TellsFaults, is_told, manner_of, told_faults, told_since};
ghost use Rattle.j39_fault_reports.specs.Places.{HaveTaken, kept_before};
ghost use Rattle.j39_fault_reports.specs.LastMessages.{at, name_of, said_before, said_by};
ghost use Rattle.j39_fault_reports.specs.Remembered.{before_of, noted, said_at, tells_changes};

use crate::fault_news::changes::put_changes;
use crate::fault_news::form::Writing;
use crate::fault_news::last_faults::LastFaults;
use crate::fault_news::last_messages::LastMessages;
use crate::fault_news::lines::put_message;
use crate::fault_news::message::CodeMessage;
use crate::fault_news::telling::Telling;
use j39_faults::Kind;
use j39_io::{DeviceFault, Sink};
use j39_listen::{LineFault, Made};
use std::alloc::{AllocError, Global};

/// Tells what is to be told of a message of codes, if it is asked for, notes what it says, and answers its numbers.
pub(crate) fn put_since<W: Sink>(
    alloc: Global,
    message: CodeMessage<'_>,
    writing: Writing<'_, '_>,
    telling: Telling,
    is_asked: bool,
    last: &mut LastFaults,
    sink: &mut W,
) -> Result<Made, LineFault>
    ensures tells { TellsFaults writing.entry.form (manner_of writing.entry)
        (told_faults is_asked
        (told_since telling message.entry.version (before_of telling last.old message.entry.kind (hearing_of message.entry.heard.now)) (hearing_of message.entry.heard.now) message.entry.kind message.entry.lamps))
        result (turn W.written W.has_failed sink.old sink.new) }
    ensures noted { OnOk result (tells_changes telling message.entry.kind ≡ false → last.new ≡ noted last.old message.entry.kind message.entry.heard.now.message.source
        (said_by message.entry.heard.now.message.payload.now (option_map name_raw message.entry.heard.now.name))) }
    ensures alone { OnOk result (tells_changes telling message.entry.kind ≡ true → last.new ≡ record last.old { active = last.new.active }) }
    ensures moved { OnOk result (tells_changes telling message.entry.kind ≡ true
        → HaveTaken name_of last.old.active (option_map name_raw message.entry.heard.now.name) message.entry.heard.now.message.source
        (said_by message.entry.heard.now.message.payload.now (option_map name_raw message.entry.heard.now.name)) last.new.active) }
    ensures first { result ≡ Err line_fault.Memory → said_at last.old message.entry.kind message.entry.heard.now.message.source ≡ None }
{
    if tells_changes(telling, message.kind) {
        return put_active(alloc, message, writing, is_asked, &mut last.active, sink);
    }
    let CodeMessage {
        heard,
        kind,
        version,
        ..
    } = message;
    let (source, payload) = (heard.message.source, heard.message.payload);
    match last.note(alloc, kind, version, source, payload, heard.name) {
        Err(AllocError) => Err(LineFault::Memory),
        Ok(is_news) => {
            let is_told = is_told(telling, is_news);
            put_told(message, writing, is_asked && is_told, sink)
        }
    }
}

/// Whether it is told what became of the codes of a message: of active ones, where changes are told.
fn tells_changes(telling: Telling, kind: Kind) -> bool
    ensures { result ≡ tells_changes telling kind }
{
    match telling {
        Telling::News => false,
        Telling::All => false,
        Telling::Changes => is_active(kind),
    }
}

fn is_active(kind: Kind) -> bool
    ensures { result ≡ is_active kind }
{
    match kind {
        Kind::Active => true,
        Kind::Previous
        | Kind::EmissionPending
        | Kind::EmissionActive
        | Kind::EmissionPrevious
        | Kind::Pending
        | Kind::Permanent => false,
    }
}

/// Whether the codes of a message are told.
fn is_told(telling: Telling, is_news: bool) -> bool
    ensures { result ≡ is_told telling is_news }
{
    match telling {
        Telling::News => is_news,
        Telling::All => true,
        Telling::Changes => false,
    }
}

/// Writes the lines of a message of codes where it is told, and answers its numbers.
fn put_told<W: Sink>(
    message: CodeMessage<'_>,
    writing: Writing<'_, '_>,
    is_told: bool,
    sink: &mut W,
) -> Result<Made, LineFault>
    ensures tells { TellsFaults writing.entry.form (manner_of writing.entry)
        (told_faults is_told (faults_by message.entry.version (hearing_of message.entry.heard.now) (Some message.entry.kind) (Some message.entry.lamps)))
        result (turn W.written W.has_failed sink.old sink.new) }
    ensures not_memory { result ≢ Err line_fault.Memory }
{
    if !is_told {
        return Ok(Made {
            messages: 1,
            lines: 0,
        });
    }
    match put_message(message, writing, sink) {
        Ok(lines) => Ok(Made { messages: 1, lines }),
        Err(DeviceFault) => Err(LineFault::Write),
    }
}

/// Tells what became of active codes since its controller's last message, if it is asked for, and notes what this one says. Memory
/// is taken where nothing was said before.
fn put_active<W: Sink>(
    alloc: Global,
    message: CodeMessage<'_>,
    writing: Writing<'_, '_>,
    is_asked: bool,
    active: &mut LastMessages,
    sink: &mut W,
) -> Result<Made, LineFault>
    ensures tells { TellsFaults writing.entry.form (manner_of writing.entry) (told_faults is_asked (changes_by message.entry.version
        (said_before (kept_before name_of active.old (option_map name_raw message.entry.heard.now.name) message.entry.heard.now.message.source) (option_map name_raw message.entry.heard.now.name))
        (hearing_of message.entry.heard.now) message.entry.lamps))
        result (turn W.written W.has_failed sink.old sink.new) }
    ensures moved { OnOk result (HaveTaken name_of active.old (option_map name_raw message.entry.heard.now.name) message.entry.heard.now.message.source
        (said_by message.entry.heard.now.message.payload.now (option_map name_raw message.entry.heard.now.name)) active.new) }
    ensures first { result ≡ Err line_fault.Memory → at active.old message.entry.heard.now.message.source ≡ None }
{
    let CodeMessage { heard, version, .. } = message;
    let (source, payload) = (heard.message.source, heard.message.payload);
    let Some(mut said) = active.take_before(usize::from(source), heard.name) else {
        return match active.note(alloc, version, source, payload, heard.name) {
            Err(AllocError) => Err(LineFault::Memory),
            Ok(_) => put_made(message, writing, is_asked, &[], sink),
        };
    };
    let before = said.bytes_for(heard.name);
    let made = put_made(message, writing, is_asked, before, sink);
    said.replace(payload, heard.name);
    active.put(source, said);
    made
}

/// Writes what became of active codes since these bytes were said, if it is asked for, and answers the message's numbers.
fn put_made<W: Sink>(
    message: CodeMessage<'_>,
    writing: Writing<'_, '_>,
    is_asked: bool,
    before: &[u8],
    sink: &mut W,
) -> Result<Made, LineFault>
    ensures tells { TellsFaults writing.entry.form (manner_of writing.entry)
        (told_faults is_asked (changes_by message.entry.version before.now (hearing_of message.entry.heard.now) message.entry.lamps))
        result (turn W.written W.has_failed sink.old sink.new) }
    ensures not_memory { result ≢ Err line_fault.Memory }
{
    if !is_asked {
        return Ok(Made {
            messages: 1,
            lines: 0,
        });
    }
    match put_changes(message, writing, before, sink) {
        Ok(lines) => Ok(Made { messages: 1, lines }),
        Err(DeviceFault) => Err(LineFault::Write),
    }
}
