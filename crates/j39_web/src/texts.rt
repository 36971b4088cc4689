//! What is made of a log, in the room of a page.
ghost use Rattle.std.specs.Prelude.{◌≡◌, ◌≢◌, ◌<◌, [], length, take, IfErr, IfOk, None, OnErr, OnOk, Ok, Err};
ghost use Rattle.j39_names.specs.Naming.{by_table};
ghost use Rattle.j39_groups.specs.Printed.{rows_text};
ghost use Rattle.j39_survey.specs.SeenNodes.{MakesSeenNodes, long_silence};
ghost use Rattle.j39_listen.specs.declared.format.Clock.TheVariants.{Seconds};
ghost use Rattle.j39_listen.specs.declared.format.Format.TheVariants.{Line};
ghost use Rattle.j39_listen.specs.declared.running.RunFault.TheVariants as fault;
ghost use Rattle.j39_table.specs.FaultWords.{fault_text};
ghost use Rattle.j39_web.specs.Room.{HasNoRoom, room_in, written_in};
ghost use Rattle.j39_web.specs.Tables.{ByRows};
ghost use Rattle.j39_web.specs.Text.{AsksSomewhere, IsMade, IsSurveyed, IsFullOf, Overflows, SurveyOverflows, counts_in, no_counts};
ghost use Rattle.j39_web.specs.Writings.{asks, makes};
ghost use Rattle.j39_web.specs.declared.texts.Refusal.TheVariants.{Memory, TooSmall};

use crate::room::{LogBytes, Room};
use crate::writing::{Writing, Written};
use j39_groups::Groups;
use j39_io::{DeviceFault, put_all};
use j39_listen::{Clock, Counts, Format, RunFault};
use j39_log::Bus;
use j39_names::Naming;
use j39_table::TableFault;
use std::alloc::{AllocError, Global};

/// Why no text is in the room.
#[derive(Clone, Copy, Debug, PartialEq, Eq)]
pub enum Refusal {
    /// Memory was refused.
    Memory,
    /// The room is no longer than the text.
    TooSmall,
}

/// What was counted in a log, and the bytes of the text that was made of it.
#[repr(C)]
#[derive(Clone, Copy, Debug, PartialEq, Eq)]
pub struct LogText {
    /// Frames of the bus.
    pub frames: u64,
    /// Lines of candump's form that hold no such frame.
    pub other: u64,
    /// Lines of no such form.
    pub unread: u64,
    /// Messages that were heard.
    pub messages: u64,
    /// Lines of the text.
    pub lines: u64,
    /// Bytes of the text.
    pub bytes: u64,
}

/// A log, and its bus; without one it is that of the first frame in the log.
#[derive(Drop)]
pub struct BusLog<'a> {
    pub bytes: &'a [u8],
    pub bus: Option<Bus>,
}

/// Writes what is made of a log by a table.
pub fn made(
    alloc: Global,
    writing: Writing,
    log: BusLog<'_>,
    groups: &Groups<'_>,
    room: &mut [u8],
) -> Result<LogText, Refusal>
    // What stands at the front of the room is that, and nothing else.
    ensures made { IfOk result (λ text. IsMade (makes writing groups.now) log.entry.bus log.entry.bytes.now text room.new) }

    // The room is too small exactly where that has as many bytes, or more.
    ensures fits { IfOk result (λ text. text.bytes < length room.new) }
    ensures too_small { result ≡ Err TooSmall → Overflows (makes writing groups.now) log.entry.bus log.entry.bytes.now room.new }

    // Memory is wanted only at a frame of the log that asks for some.
    ensures memory { result ≡ Err Memory → AsksSomewhere (asks writing groups.now) log.entry.bus log.entry.bytes.now }
{
    let mut source = LogBytes::new(log.bytes);
    let mut sink = Room::new(room);
    let limit = log.bytes.len() as u64;
    let written = Written { writing, groups };
    let ran = written.run(alloc, &mut source, &mut sink, log.bus, limit);
    told(ran, &sink)
}

/// Writes what is made of a log by the rows of some parameters (SPN) alone.
pub fn values(
    alloc: Global,
    writing: Writing,
    log: BusLog<'_>,
    groups: &Groups<'_>,
    spns: &[u32],
    room: &mut [u8],
) -> Result<LogText, Refusal>
    ensures values { IfOk result (λ text. ByRows spns.now groups.now
        (λ rows. IsMade (makes writing rows) log.entry.bus log.entry.bytes.now text room.new)) }
    ensures fits { IfOk result (λ text. text.bytes < length room.new) }
    ensures too_small { result ≡ Err TooSmall → ByRows spns.now groups.now
        (λ rows. Overflows (makes writing rows) log.entry.bus log.entry.bytes.now room.new) }
{
    match groups.restricted_to(alloc, spns) {
        Ok(rows) => made(alloc, writing, log, &rows, room),
        Err(AllocError) => Err(Refusal::Memory),
    }
}

/// Writes who holds which address at the end of a log.
pub fn nodes(log: &[u8], bus: Option<Bus>, room: &mut [u8]) -> Result<LogText, Refusal>
    ensures nodes { IfOk result (λ text. IsMade (MakesSeenNodes (record { own = []; form = Line Seconds; silence = long_silence; from = None })) bus log.now text room.new) }
    ensures fits { IfOk result (λ text. text.bytes < length room.new) }
    ensures too_small { result ≡ Err TooSmall → Overflows (MakesSeenNodes (record { own = []; form = Line Seconds; silence = long_silence; from = None })) bus log.now room.new }
    ensures memory { result ≢ Err Memory }
{
    let mut source = LogBytes::new(log);
    let mut sink = Room::new(room);
    let limit = log.len() as u64;
    let asked = j39_survey::SeenAsked {
        own: &[],
        format: Format::Line(Clock::Seconds),
        silence: j39_survey::LONG_SILENCE,
        from: None,
    };
    let ran = j39_survey::nodes_seen(asked, &mut source, &mut sink, bus, limit);
    told(ran, &sink)
}

/// What a run has counted, where its text has room.
fn told(ran: Result<Counts, RunFault>, sink: &Room<'_>) -> Result<LogText, Refusal>
    ensures counts { IfOk result (λ text. ran ≡ Ok (counts_in text)) }
    ensures bytes { IfOk result (λ text. text.bytes ≡ written_in sink.now) }
    ensures fits { IfOk result (λ text. text.bytes < room_in sink.now) }
    ensures too_small { result ≡ Err TooSmall → HasNoRoom ran sink.now }
    ensures memory { result ≡ Err Memory → ran ≡ Err fault.Memory }
{
    let bytes = sink.written();
    match ran {
        Ok(counts) if bytes < sink.room() => Ok(LogText {
            frames: counts.frames,
            other: counts.other,
            unread: counts.unread,
            messages: counts.messages,
            lines: counts.lines,
            bytes: bytes as u64,
        }),
        Err(RunFault::Memory) => Err(Refusal::Memory),
        _ => Err(Refusal::TooSmall),
    }
}

/// Writes what a log is: how many lines it has, its interfaces, the groups of the bus, by the table, its other lines by
/// kind, and its unread lines. Without a bus it is that of the first frame in the log.
pub fn survey(
    alloc: Global,
    log: &[u8],
    bus: Option<Bus>,
    groups: &Groups<'_>,
    room: &mut [u8],
) -> Result<LogText, Refusal>
    ensures survey { IfOk result (λ text. IsSurveyed (record { form = Line Seconds; naming = by_table groups.now; given = bus }) log.now text room.new) }
    ensures fits { IfOk result (λ text. text.bytes < length room.new) }
    ensures too_small { result ≡ Err TooSmall → SurveyOverflows (record { form = Line Seconds; naming = by_table groups.now; given = bus }) log.now room.new }
    ensures counts { IfOk result (λ text. counts_in text ≡ no_counts) }
{
    let mut source = LogBytes::new(log);
    let mut sink = Room::new(room);
    let limit = log.len() as u64;
    let naming = Naming::by_table(groups);
    let wanted = j39_survey::SurveyWanted {
        form: Format::Line(Clock::Seconds),
        naming: &naming,
    };
    let ran = j39_survey::survey(alloc, wanted, &mut source, &mut sink, bus, limit);
    told(uncounted(ran), &sink)
}

/// A run that counts nothing.
fn uncounted(ran: Result<(), RunFault>) -> Result<Counts, RunFault>
    ensures ok { OnOk ran (result ≡ Ok no_counts) }
    ensures err { IfErr ran (λ fault. result ≡ Err fault) }
{
    match ran {
        Ok(()) => Ok(Counts::default()),
        Err(fault) => Err(fault),
    }
}

/// Writes the parameters that a report by a table may hold.
pub fn parameters(groups: &Groups<'_>, room: &mut [u8]) -> Result<LogText, Refusal>
    ensures parameters { IfOk result (λ text. take text.bytes room.new ≡ rows_text groups.now) }
    ensures fits { IfOk result (λ text. text.bytes < length room.new) }
    ensures too_small { result ≡ Err TooSmall → IsFullOf (rows_text groups.now) room.new }
    ensures memory { result ≢ Err Memory }
    ensures counts { IfOk result (λ text. counts_in text ≡ no_counts) }
{
    let mut sink = Room::new(room);
    let ran = groups.put(&mut sink);
    told(written(ran), &sink)
}

/// Writes what is said of bytes that are no table.
pub fn fault_words(fault: TableFault, room: &mut [u8]) -> Result<LogText, Refusal>
    ensures words { IfOk result (λ text. take text.bytes room.new ≡ fault_text fault) }
    ensures fits { IfOk result (λ text. text.bytes < length room.new) }
    ensures too_small { result ≡ Err TooSmall → IsFullOf (fault_text fault) room.new }
    ensures memory { result ≢ Err Memory }
    ensures counts { IfOk result (λ text. counts_in text ≡ no_counts) }
{
    let mut sink = Room::new(room);
    let ran = put_all(&mut sink, fault.text().as_slice());
    told(written(ran), &sink)
}

/// Writing that counts nothing.
fn written(ran: Result<(), DeviceFault>) -> Result<Counts, RunFault>
    ensures ok { OnOk ran (result ≡ Ok no_counts) }
    ensures err { OnErr ran (result ≡ Err fault.Write) }
{
    match ran {
        Ok(()) => Ok(Counts::default()),
        Err(DeviceFault) => Err(RunFault::Write),
    }
}
