//! The readings of one parameter of one controller, as an account of the frames of a bus.
ghost use Rattle.std.specs.Prelude.{◌≡◌, [], List, IfOk, Err, length};
ghost use Rattle.std.specs.List.{flat_map};
ghost use Rattle.j39_frame.specs.Frame.{FrameRecord};
ghost use Rattle.j39_io.specs.Puts.{Puts};
ghost use Rattle.j39_io.specs.Turn.{turn};
ghost use Rattle.j39_listen.specs.AccountCalls.{LeavesWriter};
ghost use Rattle.j39_listen.specs.Asking.{AsksForBoxes};
ghost use Rattle.j39_listen.specs.Counting.{capped};
ghost use Rattle.j39_listen.specs.HeardModel.{hearing_of};
ghost use Rattle.j39_listen.specs.Listening.{Hears};
ghost use Rattle.j39_listen.specs.Ran.{Ran};
ghost use Rattle.j39_listen.specs.Report.{entries_of};
ghost use Rattle.j39_listen.specs.declared.account.LineFault.TheVariants as line_fault;
ghost use Rattle.j39_web.specs.Series.{MakesSeries, series_text};
ghost use Rattle.j39_web.specs.SeriesSoFar.{HasGathered, MeetsFrame, StopsFrame, gathered};

use crate::points::{Points, SeriesOrigin};
use j39_frame::Frame;
use j39_groups::Groups;
use j39_io::{DeviceFault, Sink, Source};
use j39_listen::{Account, Counts, Heard, LineFault, Listener, Made, RunFault, run_over};
use j39_log::Bus;
use std::alloc::{AllocError, Global};

/// The readings that are asked for, and the table by which.
#[derive(Clone, Copy)]
pub(crate) struct SeriesWanted<'a, 't> {
    pub groups: &'a Groups<'t>,
    pub of: SeriesOrigin,
}

/// Writes the readings of one parameter of one controller in a log of at most `limit` bytes, a point for each. Without a
/// bus it is that of the first frame in the log.
pub(crate) fn series<R: Source, W: Sink>(
    alloc: Global,
    wanted: SeriesWanted<'_, '_>,
    source: &mut R,
    sink: &mut W,
    bus: Option<Bus>,
    limit: u64,
) -> Result<Counts, RunFault>
    ensures { Ran (MakesSeries wanted.entry.of wanted.entry.groups.now) AsksForBoxes bus limit result
        (turn R.remaining R.has_failed source.old source.new) (turn W.written W.has_failed sink.old sink.new) }
{
    let account = SeriesAccount::new(alloc, wanted.groups, wanted.of);
    run_over(account, source, sink, bus, limit)
}

/// What is heard so far, and the numbers of the report by these rows.
#[derive(Drop)]
pub(crate) struct SeriesAccount<'g, 't> {
    groups: &'g Groups<'t>,
    of: SeriesOrigin,
    listener: Listener,
    made: Made,
}

impl<'g, 't> SeriesAccount<'g, 't> {
    /// The readings in no frames.
    fn new(alloc: Global, groups: &'g Groups<'t>, of: SeriesOrigin) -> SeriesAccount<'g, 't>
        ensures { HasGathered (record { of = of; rows = groups.entry.now }) result []
            (gathered (record { of = of; rows = groups.entry.now }) []) }
    {
        SeriesAccount {
            groups,
            of,
            listener: Listener::new(alloc),
            made: Made::default(),
        }
    }
}

impl<'g, 't> Account for SeriesAccount<'g, 't> {
    ghost use Rattle.j39_listen.specs.Asking.{AsksForBoxes};
    ghost use Rattle.j39_web.specs.Series.{MakesSeries};
    ghost use Rattle.j39_web.specs.SeriesSoFar.{HasGathered, Subject};

    ghost Subject = { Subject };

    ghost has_met = { λ subject bus. HasGathered subject };

    ghost makes = { λ subject. MakesSeries subject.of subject.rows };

    ghost asks = { λ subject. AsksForBoxes };

    #[inline(always)]
    fn feed<W: Sink>(&mut self, _: &Bus, frame: &Frame, sink: &mut W) -> Result<(), LineFault> {
        match put_frame(&mut self.listener, self.groups, &self.of, frame, sink) {
            Ok(more) => {
                self.made = self.made.and(more);
                Ok(())
            }
            Err(fault) => Err(fault),
        }
    }

    fn close<W: Sink>(&self, _: &mut W) -> Result<Made, DeviceFault> {
        Ok(self.made)
    }

    fn laws() {}
}

/// Writes the readings of what is heard at a frame of the run's bus, and answers its numbers.
#[inline(always)]
fn put_frame<W: Sink>(
    listener: &mut Listener,
    groups: &Groups<'_>,
    of: &SeriesOrigin,
    frame: &Frame,
    sink: &mut W,
) -> Result<Made, LineFault>
    ensures met { IfOk result (λ more. (F : List FrameRecord) → Hears listener.old F
        → MeetsFrame (record { of = of.now; rows = groups.now }) listener.new F frame.now more
        (W.written sink.old) (W.written sink.new)) }
    ensures writer { LeavesWriter result (turn W.written W.has_failed sink.old sink.new) }
    ensures stops { result ≡ Err line_fault.Write → (F : List FrameRecord) → Hears listener.old F
        → StopsFrame (record { of = of.now; rows = groups.now }) F frame.now (W.written sink.old) (W.written sink.new) }
    ensures asked { result ≡ Err line_fault.Memory → (F : List FrameRecord) → Hears listener.old F
        → AsksForBoxes F frame.now }
{
    match listener.feed_with(groups, frame) {
        Err(AllocError) => Err(LineFault::Memory),
        Ok(None) => Ok(NOTHING),
        Ok(Some(heard)) => match put_heard(&heard, groups, of, sink) {
            Ok(lines) => Ok(Made { messages: 1, lines }),
            Err(DeviceFault) => Err(LineFault::Write),
        },
    }
}

/// What is made of a frame at which nothing is heard.
const NOTHING: Made = Made {
    messages: 0,
    lines: 0,
};

/// Writes a point for each reading of a message that is asked for, and answers how many readings there are.
fn put_heard<W: Sink>(
    heard: &Heard<'_>,
    groups: &Groups<'_>,
    of: &SeriesOrigin,
    sink: &mut W,
) -> Result<u64, DeviceFault>
    ensures lines { IfOk result (λ n. n ≡ capped (length (entries_of groups.now (hearing_of heard.now)))) }
    ensures puts { Puts (flat_map (series_text of.now) (entries_of groups.now (hearing_of heard.now)))
        result (turn W.written W.has_failed sink.old sink.new) }
{
    let mut points = Points::new(of, heard);
    match groups.visit(heard.message.pgn, heard.message.payload, &mut points, sink) {
        Ok(()) => Ok(points.lines),
        Err(DeviceFault) => Err(DeviceFault),
    }
}
