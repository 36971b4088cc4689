//! The faults of a bus, as an account of its frames (J1939-73, 5.7).
ghost use Rattle.std.specs.Prelude.{◌≡◌, ◌≢◌, ◌<◌, ◌≤◌, ◌&&◌, ◌++◌, ◌∷◌, [], ℕ, List, None, false, length, option_map, true, Err, IfOk, Some};
ghost use Rattle.j39_io.specs.Turn.{turn};
ghost use Rattle.j39_frame.specs.Frame.{FrameRecord};
ghost use Rattle.j39_frame.specs.Identifier.{id_raw, pgn_of};
ghost use Rattle.j39_frame.specs.Pgn.{pgn_raw};
ghost use Rattle.j39_address.specs.Name.{name_raw};
ghost use Rattle.j39_groups.specs.Readings.{is_network_group};
ghost use Rattle.j39_faults.specs.Conversions.{version_for};
ghost use Rattle.j39_listen.specs.AccountCalls.{LeavesWriter};
ghost use Rattle.j39_listen.specs.Chooses.{Chooses};
ghost use Rattle.j39_listen.specs.Filter.{first_stamp, in_time, is_in_time, takes_message};
ghost use Rattle.j39_listen.specs.Heard.{AreHeardWith, Hearing};
ghost use Rattle.j39_listen.specs.Listening.{Hears};
ghost use Rattle.j39_listen.specs.HeardModel.{hearing_of};
ghost use Rattle.j39_listen.specs.declared.account.LineFault.TheVariants as line_fault;
ghost use Rattle.j39_fault_reports.specs.FaultAsking.{AsksForFaults};
ghost use Rattle.j39_fault_reports.specs.Faults.{clearing_of};
ghost use Rattle.j39_fault_reports.specs.News.{chosen_of, faults_among, is_fault_group, is_of_faults};
ghost use Rattle.j39_fault_reports.specs.FaultRun.{faults_of};
ghost use Rattle.j39_fault_reports.specs.Remembered.{IsFirst, Remembers};
ghost use Rattle.j39_fault_reports.specs.FaultsSoFar.{HasTold, KnowsBroken, MeetsFrame, StopsFrame, Tells, TellsFaults, TellsFront, manner_of, tells_clearing, told_faults};

use crate::fault_news::announced::Announced;
use crate::fault_news::form::{Writing, names_asked};
use crate::fault_news::last_faults::LastFaults;
use crate::fault_news::lines::put_clearing;
use crate::fault_news::message::CodeMessage;
use crate::fault_news::since::put_since;
use crate::fault_news::telling::{Choice, Telling};
use j39_address::Name;
use j39_faults::{Conversion, Kind, Version, cleared_in, fault_group, lamps_of, version_for};
use j39_frame::{Frame, Id};
use j39_groups::is_network_group;
use j39_io::{DeviceFault, Sink};
use j39_listen::{Account, Chooser, Heard, LineFault, Listener, Made};
use j39_log::Bus;
use std::alloc::{AllocError, Global};

/// What is heard so far, what was said last, and the numbers of what was told.
#[derive(Drop)]
pub(crate) struct FaultNews<'g, 't, 'c> {
    alloc: Global,
    writing: Writing<'g, 't>,
    choice: Choice<'c>,
    chooser: Chooser<'c>,
    listener: Listener,
    last: LastFaults,
    made: Made,
    announced: Announced,
}

impl<'g, 't, 'c> FaultNews<'g, 't, 'c> {
    /// The faults of no frames.
    pub(crate) fn new(
        alloc: Global,
        writing: Writing<'g, 't>,
        choice: Choice<'c>,
    ) -> FaultNews<'g, 't, 'c>
        ensures { HasTold writing.entry.form (record { manner = manner_of writing.entry; which = chosen_of choice.entry }) result []
            (faults_of writing.entry.form (manner_of writing.entry) (chosen_of choice.entry) 0 []) }
    {
        FaultNews {
            alloc,
            writing,
            choice,
            chooser: Chooser::new(choice.filter),
            listener: Listener::new(alloc),
            last: LastFaults::new(),
            made: Made::default(),
            announced: Announced::default(),
        }
    }

    /// How many messages of codes were announced and did not come whole.
    pub(crate) fn broken(self) -> u64
        ensures { KnowsBroken self.entry result }
    {
        self.announced.broken()
    }
}

impl<'g, 't, 'c> Account for FaultNews<'g, 't, 'c> {
    ghost use Rattle.j39_listen.specs.AccountCalls.{Begins, MakesOne};
    ghost use Rattle.j39_fault_reports.specs.FaultAsking.{AsksForFaults};
    ghost use Rattle.j39_fault_reports.specs.FaultRun.{MakesFaultsIn};
    ghost use Rattle.j39_fault_reports.specs.FaultsSoFar.{HasTold, Subject};
    ghost use Rattle.j39_listen.specs.declared.format.Format.{Format};

    ghost Subject = { Format × Subject };

    ghost has_met = { λ subject bus. HasTold subject.0 subject.1 };

    ghost makes = { λ subject. MakesFaultsIn subject.0 subject.1.manner subject.1.which };

    ghost asks = { λ subject. AsksForFaults subject.1.which.telling subject.1.which.asked };

    /// Most frames are of groups that nobody hears.
    #[inline(always)]
    fn passes_over(&self, id: Id) -> bool {
        is_passed_over(id) && self.chooser.is_begun()
    }

    fn feed<W: Sink>(&mut self, _: &Bus, frame: &Frame, sink: &mut W) -> Result<(), LineFault> {
        self.chooser.note(frame);
        match put_frame(
            self.alloc,
            &mut self.listener,
            self.writing,
            self.choice,
            &self.chooser,
            &mut self.last,
            &mut self.announced,
            frame,
            sink,
        ) {
            Ok(made) => {
                self.made = self.made.and(made);
                Ok(())
            }
            Err(fault) => Err(fault),
        }
    }

    fn close<W: Sink>(&self, _: &mut W) -> Result<Made, DeviceFault> {
        Ok(self.made)
    }

    fn laws()
        ensures begins { (subject : Format × Subject)
            → Begins (λ bus. HasTold subject.0 subject.1) (MakesFaultsIn subject.0 subject.1.manner subject.1.which) }
        ensures one { (subject : Format × Subject)
            → MakesOne (MakesFaultsIn subject.0 subject.1.manner subject.1.which) }
    {}
}

/// Tells the faults of what is heard at a frame of the run's bus, and answers its numbers.
fn put_frame<W: Sink>(
    alloc: Global,
    listener: &mut Listener,
    writing: Writing<'_, '_>,
    choice: Choice<'_>,
    chooser: &Chooser<'_>,
    last: &mut LastFaults,
    announced: &mut Announced,
    frame: &Frame,
    sink: &mut W,
) -> Result<Made, LineFault>
    ensures met { IfOk result (λ made. (F : List FrameRecord) (ms : List Hearing) → Hears listener.old F
        → Chooses (chosen_of choice.entry).asked chooser.now (F ++ frame.now ∷ []) → Remembers choice.entry.telling last.old ms → MeetsFrame writing.entry.form (manner_of writing.entry) (chosen_of choice.entry) listener.new last.new
        announced.old announced.new F frame.now ms made (W.written sink.old) (W.written sink.new)) }
    ensures writer { LeavesWriter result (turn W.written W.has_failed sink.old sink.new) }
    ensures stops { result ≡ Err line_fault.Write → (F : List FrameRecord) (ms : List Hearing) → Hears listener.old F
        → Chooses (chosen_of choice.entry).asked chooser.now (F ++ frame.now ∷ []) → Remembers choice.entry.telling last.old ms → StopsFrame writing.entry.form (manner_of writing.entry) (chosen_of choice.entry) F frame.now ms
        (W.written sink.old) (W.written sink.new) }
    ensures asked { result ≡ Err line_fault.Memory → (F : List FrameRecord) (heard : List Hearing)
        → Hears listener.old F → AreHeardWith is_fault_group F heard
        → Chooses (chosen_of choice.entry).asked chooser.now (F ++ frame.now ∷ [])
        → Remembers choice.entry.telling last.old (in_time (chosen_of choice.entry).asked (first_stamp (F ++ frame.now ∷ [])) (faults_among heard))
        → AsksForFaults choice.entry.telling (chosen_of choice.entry).asked F frame.now }
{
    announced.add_frame(frame);
    let is_single = is_of_fault_group(frame.id);
    match listener.feed_as(is_single, frame) {
        Err(AllocError) => Err(LineFault::Memory),
        Ok(None) => Ok(Made::default()),
        Ok(Some(heard)) => {
            announced.add_heard(&heard);
            let asked = Asked {
                is_in_time: chooser.is_in_time(heard.message.stamp),
                is_taken: chooser.takes(&heard),
            };
            put_heard(alloc, &heard, writing, choice, asked, last, sink)
        }
    }
}

/// What a filter says of a message: whether it came between the moments, and whether it is taken.
#[derive(Clone, Copy)]
struct Asked {
    is_in_time: bool,
    is_taken: bool,
}

/// Tells the faults of a message, where it is one of faults, is told and is asked for, and answers its numbers. One that didn't come
/// between the moments is as if it hadn't come, but that it counts.
fn put_heard<W: Sink>(
    alloc: Global,
    heard: &Heard<'_>,
    writing: Writing<'_, '_>,
    choice: Choice<'_>,
    asked: Asked,
    last: &mut LastFaults,
    sink: &mut W,
) -> Result<Made, LineFault>
    ensures met { IfOk result (λ made. (first : ℕ) (ms : List Hearing)
        → asked.is_in_time ≡ is_in_time (chosen_of choice.entry).asked first (hearing_of heard.now).stamp
        → asked.is_taken ≡ takes_message (chosen_of choice.entry).asked first (hearing_of heard.now)
        → Remembers choice.entry.telling last.old ms → length heard.now.message.payload.now ≤ 1785
        → Tells writing.entry.form (manner_of writing.entry) (chosen_of choice.entry) first last.new ms (Some (hearing_of heard.now)) made
        (W.written sink.old) (W.written sink.new)) }
    ensures writer { LeavesWriter result (turn W.written W.has_failed sink.old sink.new) }
    ensures stops { result ≡ Err line_fault.Write → (first : ℕ) (ms : List Hearing)
        → asked.is_taken ≡ takes_message (chosen_of choice.entry).asked first (hearing_of heard.now)
        → Remembers choice.entry.telling last.old ms → length heard.now.message.payload.now ≤ 1785
        → TellsFront writing.entry.form (manner_of writing.entry) (chosen_of choice.entry) first ms (Some (hearing_of heard.now))
        (W.written sink.old) (W.written sink.new) }
    ensures of_faults { result ≡ Err line_fault.Memory → is_of_faults (hearing_of heard.now) ≡ true }
    ensures now { result ≡ Err line_fault.Memory → asked.is_in_time ≡ true }
    ensures first { result ≡ Err line_fault.Memory → (ms : List Hearing) → Remembers choice.entry.telling last.old ms
        → IsFirst choice.entry.telling ms (hearing_of heard.now) }
{
    if let Some(kind) = cleared_in(heard.message.pgn, heard.message.payload) {
        let is_told = tells_clearing(choice.telling, asked.is_taken);
        return put_asked(heard, writing, is_told, kind, sink);
    }
    let Some(kind) = fault_group(heard.message.pgn) else {
        return Ok(Made::default());
    };
    let Some(lamps) = lamps_of(heard.message.payload) else {
        return Ok(Made::default());
    };
    let _fits = is_byte(heard.message.source);
    if !asked.is_in_time {
        return Ok(Made {
            messages: 1,
            lines: 0,
        });
    }
    let version = version_of(choice.conversions, heard.name);
    let message = CodeMessage {
        heard,
        kind,
        version,
        lamps,
    };
    put_since(
        alloc,
        message,
        writing,
        choice.telling,
        asked.is_taken,
        last,
        sink,
    )
}

/// Writes that a message asks to clear codes, where that is told, and answers its numbers.
fn put_asked<W: Sink>(
    heard: &Heard<'_>,
    writing: Writing<'_, '_>,
    is_told: bool,
    kind: Kind,
    sink: &mut W,
) -> Result<Made, LineFault>
    ensures tells { TellsFaults writing.entry.form (manner_of writing.entry)
        (told_faults is_told (clearing_of (hearing_of heard.now) kind ∷ []))
        result (turn W.written W.has_failed sink.old sink.new) }
    ensures not_memory { result ≢ Err line_fault.Memory }
{
    if !is_told {
        return Ok(Made {
            messages: 1,
            lines: 0,
        });
    }
    if !names_asked(writing.spns, None) {
        return Ok(Made {
            messages: 1,
            lines: 0,
        });
    }
    match put_clearing(heard, writing.form, kind, sink) {
        Ok(()) => Ok(Made {
            messages: 1,
            lines: 1,
        }),
        Err(DeviceFault) => Err(LineFault::Write),
    }
}

/// Whether messages of an identifier's group are heard in one frame.
#[inline(always)]
pub fn is_of_fault_group(id: Id) -> bool
    ensures { result ≡ is_fault_group (pgn_of (id_raw id)) }
{
    fault_group(id.pgn()).is_some() || id.is_request()
}

/// Whether frames of an identifier are neither messages of faults nor claims or parts of messages.
#[inline(always)]
pub(crate) fn is_passed_over(id: Id) -> bool
    ensures faults { result ≡ true → is_fault_group (pgn_of (id_raw id)) ≡ false }
    ensures network { result ≡ true → is_network_group (pgn_of (id_raw id)) ≡ false }
{
    !is_of_fault_group(id) && !is_network_group(id.pgn())
}

/// A byte is below 256.
pub(crate) fn is_byte(_byte: u8)
    ensures { _byte < 256 }
{}

/// By which version the SPNs of the controller of a NAME are read.
fn version_of(conversions: &[Conversion], name: Option<Name>) -> Option<Version>
    ensures { result ≡ version_for conversions.now (option_map name_raw name) }
{
    version_for(conversions, name.map(Name::raw))
}

/// Whether one that asks to clear codes is told, if it is asked for.
fn tells_clearing(telling: Telling, is_asked: bool) -> bool
    ensures { result ≡ (tells_clearing telling && is_asked) }
{
    match telling {
        Telling::News => is_asked,
        Telling::All => is_asked,
        Telling::Changes => false,
    }
}
