//! A run, line by line.
ghost use Rattle.std.specs.Prelude.{◌≡◌, ◌∷◌, [], ℕ, List, Option, Some, true, IfOk, OnOk, OnErr, Err, unwrap_or};
ghost use Rattle.j39_io.specs.Device.{Marks};
ghost use Rattle.j39_io.specs.Turn.{turn};
ghost use Rattle.j39_frame.specs.Frame.{FrameRecord};
ghost use Rattle.j39_log.specs.Bus.{IsBusName};
ghost use Rattle.j39_log.specs.LineRead.{spelled_of};
ghost use Rattle.j39_log.specs.Spelled.{Spelled, frame as spelled_frame};
ghost use Rattle.j39_log.specs.Splitter.{IsRawLine};
ghost use Rattle.j39_listen.specs.AccountCalls.{LeavesWriter, Meets};
ghost use Rattle.j39_listen.specs.WantsMemory.{AsksAs, AsksLine};
ghost use Rattle.j39_listen.specs.LinesSoFar.{IsSpelling, MeetsLine, StopsLine, met_tally};
ghost use Rattle.j39_listen.specs.PiecesSoFar.{HasMetAll, ReadsAs, ReadsLine, StopsAs, StopsAt, WritesAll, WritesSome, with_passed};
ghost use Rattle.j39_listen.specs.declared.account.LineFault.TheVariants.{Memory, Write};

use crate::Counts;
use crate::account::{Account, LineFault};
use crate::counts::{Met, Tally};
use j39_frame::Frame;
use j39_io::{DeviceFault, Sink};
use j39_log::{Bus, Line, RawLine, StampText};

/// The bus of a run, once it is known, the account of its frames, and what was met so far.
#[derive(Drop)]
pub(crate) struct Lines<A> {
    pub bus: Option<Bus>,
    pub account: A,
    pub tally: Tally,
}

impl<A: Account> Lines<A> {
    /// Takes a line of the log, and writes what is to be written at it.
    #[inline(always)]
    pub fn read<W: Sink>(&mut self, line: Line<'_>, sink: &mut W) -> Result<(), LineFault>
        ensures read { OnOk result ((subject : A.Subject) → IsSpelling (spelled_of line.entry)
            → ReadsLine (A.has_met subject) (spelled_of line.entry) self.old self.new (W.written sink.old)
            (W.written sink.new)) }
        ensures writer { LeavesWriter result (turn W.written W.has_failed sink.old sink.new) }
        ensures stops { result ≡ Err Write → (subject : A.Subject) → IsSpelling (spelled_of line.entry)
            → StopsAt (A.has_met subject) (A.makes subject) (spelled_of line.entry) self.old (W.written sink.old)
            (W.written sink.new) }
        ensures asked { result ≡ Err Memory → (subject : A.Subject) → IsSpelling (spelled_of line.entry)
            → AsksLine (A.has_met subject) (A.asks subject) (spelled_of line.entry) self.old.bus self.old.account }
    {
        let met = match feed_line(&mut self.bus, &mut self.account, line, sink) {
            Ok(met) => met,
            Err(fault) => return Err(fault),
        };
        self.tally = self.tally.with(met);
        Ok(())
    }

    /// Reads a line of any form. It is no part of its caller, whose way for most lines so needs no room for
    /// what this one reads.
    #[inline(never)]
    pub fn read_raw<W: Sink>(&mut self, raw: RawLine<'_>, sink: &mut W) -> Result<(), LineFault>
        ensures read { OnOk result ((subject : A.Subject) (line : List ℕ) → IsRawLine raw.entry line
            → ReadsAs (A.has_met subject) line self.old self.new (W.written sink.old) (W.written sink.new)) }
        ensures writer { LeavesWriter result (turn W.written W.has_failed sink.old sink.new) }
        ensures stops { result ≡ Err Write → (subject : A.Subject) (line : List ℕ) → IsRawLine raw.entry line
            → StopsAs (A.has_met subject) (A.makes subject) line self.old (W.written sink.old) (W.written sink.new) }
        ensures asked { result ≡ Err Memory → (subject : A.Subject) (line : List ℕ) → IsRawLine raw.entry line
            → AsksAs (A.has_met subject) (A.asks subject) line self.old }
    {
        self.read(raw.read(), sink)
    }

    /// Counts so many lines of frames of the bus of which nothing is made.
    #[inline(always)]
    pub fn pass_over(&mut self, lines: u64)
        ensures { self.new ≡ with_passed self.old lines }
    {
        self.tally = self.tally.and(Tally {
            frames: lines,
            ..Tally::default()
        });
    }

    /// Takes the line of this frame, where the bus is known and the frame is one of it, as `read` does: no line goes by
    /// memory, and no name is compared. The text is that of the line's stamp.
    #[inline(always)]
    pub fn read_frame<W: Sink>(
        &mut self,
        frame: &Frame,
        text: StampText,
        sink: &mut W,
    ) -> Result<(), LineFault>
        ensures read { OnOk result ((subject : A.Subject) (name : List ℕ) → self.old.bus ≡ Some name
            → ReadsLine (A.has_met subject) (spelled_frame name frame.now) self.old self.new (W.written sink.old)
            (W.written sink.new)) }
        ensures writer { LeavesWriter result (turn W.written W.has_failed sink.old sink.new) }
        ensures stops { result ≡ Err Write → (subject : A.Subject) (name : List ℕ) → self.old.bus ≡ Some name
            → StopsAt (A.has_met subject) (A.makes subject) (spelled_frame name frame.now) self.old
            (W.written sink.old) (W.written sink.new) }
        ensures asked { result ≡ Err Memory → (subject : A.Subject) (name : List ℕ) → self.old.bus ≡ Some name
            → AsksLine (A.has_met subject) (A.asks subject) (spelled_frame name frame.now) self.old.bus
            self.old.account }
    {
        let Some(bus) = &self.bus else {
            return Ok(());
        };
        self.account.note_stamp(text);
        match self.account.feed(bus, frame, sink) {
            Ok(()) => {}
            Err(fault) => return Err(fault),
        }
        self.tally = self.tally.with(Met::Frame);
        Ok(())
    }

    /// Closes the account of all lines, and passes on what was written.
    pub fn close<W: Sink>(&self, sink: &mut W) -> Result<Counts, DeviceFault>
        ensures closes { IfOk result (λ counts.
            (subject : A.Subject) (given : Option (List ℕ)) (spelled : List Spelled) (held : Option (List ℕ))
            → HasMetAll (A.has_met subject) given spelled self.now held (W.written sink.old)
            → WritesAll (A.makes subject) given spelled counts held (W.written sink.new)) }
        ensures stops { OnErr result (
            (subject : A.Subject) (given : Option (List ℕ)) (spelled : List Spelled) (held : Option (List ℕ))
            → HasMetAll (A.has_met subject) given spelled self.now held (W.written sink.old)
            → WritesSome (A.makes subject) given spelled held (W.written sink.new)) }
        ensures flushed { OnOk result (W.is_flushed sink.new ≡ true) }
        ensures mark { Marks result (W.has_failed sink.old) (W.has_failed sink.new) }
    {
        A::laws();
        let made = self.account.close(sink)?;
        sink.flush()?;
        let Tally {
            frames,
            other,
            unread,
        } = self.tally;
        Ok(Counts {
            frames,
            other,
            unread,
            messages: made.messages,
            lines: made.lines,
        })
    }
}

/// Writes what is to be written at a line, and answers what the line counts for.
#[inline(always)]
fn feed_line<A: Account, W: Sink>(
    bus: &mut Option<Bus>,
    account: &mut A,
    line: Line<'_>,
    sink: &mut W,
) -> Result<Met, LineFault>
    ensures met { IfOk result (λ met. (subject : A.Subject) → IsSpelling (spelled_of line.entry)
        → MeetsLine (A.has_met subject) (spelled_of line.entry) bus.old bus.new account.old account.new
        (met_tally met) (W.written sink.old) (W.written sink.new)) }
    ensures writer { LeavesWriter result (turn W.written W.has_failed sink.old sink.new) }
    ensures stops { result ≡ Err Write → (subject : A.Subject) → IsSpelling (spelled_of line.entry)
        → StopsLine (A.has_met subject) (A.makes subject) (spelled_of line.entry) bus.old account.old
        (W.written sink.old) (W.written sink.new) }
    ensures asked { result ≡ Err Memory → (subject : A.Subject) → IsSpelling (spelled_of line.entry)
        → AsksLine (A.has_met subject) (A.asks subject) (spelled_of line.entry) bus.old account.old }
{
    match line {
        Line::Frame { bus: name, frame } => {
            know(bus, name);
            match bus {
                None => Ok(Met::Other),
                Some(bus) => {
                    if bus.is_named(name) {
                        match account.feed(bus, &frame, sink) {
                            Ok(()) => Ok(Met::Frame),
                            Err(fault) => Err(fault),
                        }
                    } else {
                        Ok(Met::Other)
                    }
                }
            }
        }
        Line::Other => Ok(Met::Other),
        Line::Unread => Ok(Met::Unread),
        Line::Blank => Ok(Met::Blank),
    }
}

/// An interface becomes the bus of the run where there is none yet.
#[inline(always)]
fn know(bus: &mut Option<Bus>, name: &[u8])
    ensures { IsBusName name.now → bus.new ≡ Some (unwrap_or bus.old name.now) }
{
    if bus.is_none() {
        *bus = Bus::new(name);
    }
}
