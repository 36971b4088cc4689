//! The grid of the report of a log: the run that writes it, and the account of frames that it writes.
ghost use Rattle.std.specs.Prelude.{◌≡◌, ◌++◌, ◌∷◌, [], Err, IfOk, List, OnOk, true};
ghost use Rattle.j39_frame.specs.Frame.{FrameRecord};
ghost use Rattle.j39_frame.specs.Identifier.{pgn_of};
ghost use Rattle.j39_frame.specs.Pgn.{pgn_raw};
ghost use Rattle.j39_groups.specs.Readings.{is_reported_in, readings_in};
ghost use Rattle.j39_io.specs.Puts.{Puts};
ghost use Rattle.j39_io.specs.Turn.{turn};
ghost use Rattle.j39_listen.specs.AccountCalls.{LeavesWriter};
ghost use Rattle.j39_listen.specs.Asking.{AsksForBoxes};
ghost use Rattle.j39_listen.specs.Chooses.{Chooses, which_of};
ghost use Rattle.j39_listen.specs.Filter.{FilterRecord};
ghost use Rattle.j39_listen.specs.Headed.{Headed, begins_flushed};
ghost use Rattle.j39_listen.specs.HeardModel.{hearing_of};
ghost use Rattle.j39_listen.specs.Listening.{Hears};
ghost use Rattle.j39_listen.specs.Output.{nothing};
ghost use Rattle.j39_listen.specs.Ran.{PassesOn, Ran};
ghost use Rattle.j39_listen.specs.declared.account.LineFault.TheVariants as line_fault;
ghost use Rattle.j39_grid.specs.Grid.{names_text};
ghost use Rattle.j39_grid.specs.GridModels.{asked_of, rows_of, subject_of};
ghost use Rattle.j39_grid.specs.GridRun.{MakesGrid, MakesRows, Subject};
ghost use Rattle.j39_grid.specs.GridSoFar.{HasGridded, NotesFrame, StopsFrame, kept_of, rows_behind, text_behind};

use crate::asked::GridWanted;
use crate::head::put_names;
use crate::rows::Rows;
use j39_frame::Frame;
use j39_groups::{Groups, is_network_group};
use j39_io::{DeviceFault, Sink, Source};
use j39_listen::{
    Account, Chooser, Counts, Format, Heard, LineFault, Listener, Made, RunFault, Wanted, run_over,
};
use j39_log::Bus;
use std::alloc::{AllocError, Global};

/// Writes the grid of a log of at most `limit` bytes that tells what is wanted: a line, a record of comma-separated values
/// (RFC 4180), or an object (RFC 8259), for each span of time in which one of the parameters that are asked for has a value that
/// the filter takes. It has the moment at which the span begins, and the last value of each in it, but no text. A span whose
/// stamps come again, as in a log out of order, has a row again. The names of the columns of records are written before the
/// log is read.
/// Without a bus it is that of the first frame in the log.
pub fn grid<R: Source, W: Sink>(
    alloc: Global,
    gridded: GridWanted<'_, '_>,
    source: &mut R,
    sink: &mut W,
    bus: Option<Bus>,
    limit: u64,
) -> Result<Counts, RunFault>
    // What the run promises is `Ran`: what is written is the grid of what the filter takes of the log's report, and nothing
    // else. Memory is wanted only at a frame of the log that announces a message.
    ensures ran { Ran (MakesGrid (subject_of gridded.entry)) AsksForBoxes bus limit result
        (turn R.remaining R.has_failed source.old source.new) (turn W.written W.has_failed sink.old sink.new) }

    // What was written is passed on at the end, and before each read, the names of the columns before the first.
    ensures flushed { PassesOn result (begins_flushed gridded.entry.asked.form (W.is_flushed sink.old)) (W.is_flushed sink.new) }
{
    let account = GridAccount::new(alloc, gridded);
    match gridded.asked.form {
        Format::Line(_) => run_over(account, source, sink, bus, limit),
        Format::Record => run_named(account, source, sink, bus, limit),
        Format::Object => run_over(account, source, sink, bus, limit),
    }
}

/// The same in records, below the names of their columns.
fn run_named<R: Source, W: Sink>(
    account: GridAccount<'_, '_>,
    source: &mut R,
    sink: &mut W,
    bus: Option<Bus>,
    limit: u64,
) -> Result<Counts, RunFault>
    ensures ran { (subject : Subject) → HasGridded subject account.entry [] nothing
        → Ran (Headed (names_text subject.rows subject.asked.spns) (MakesRows subject)) AsksForBoxes
        bus limit result (turn R.remaining R.has_failed source.old source.new) (turn W.written W.has_failed sink.old sink.new) }
    ensures flushed { PassesOn result true (W.is_flushed sink.new) }
{
    match put_names(account.groups, account.rows.asked.spns, sink) {
        Ok(()) => run_over(account, source, sink, bus, limit),
        Err(DeviceFault) => Err(RunFault::Write),
    }
}

/// What is heard so far, and the rows of its grid.
#[derive(Drop)]
pub(crate) struct GridAccount<'g, 't> {
    groups: &'g Groups<'t>,
    chooser: Chooser<'g>,
    listener: Listener,
    rows: Rows<'g>,
    messages: u64,
}

impl<'g, 't> GridAccount<'g, 't> {
    /// The grid of no frames.
    fn new(alloc: Global, gridded: GridWanted<'g, 't>) -> GridAccount<'g, 't>
        ensures { HasGridded (subject_of gridded.entry) result [] nothing }
    {
        let Wanted { groups, filter } = gridded.wanted;
        GridAccount {
            groups,
            chooser: Chooser::new(filter),
            listener: Listener::new(alloc),
            rows: Rows::new(gridded.asked),
            messages: 0,
        }
    }
}

impl<'g, 't> Account for GridAccount<'g, 't> {
    ghost use Rattle.j39_listen.specs.Asking.{AsksForBoxes};
    ghost use Rattle.j39_grid.specs.GridRun.{MakesRows, Subject};
    ghost use Rattle.j39_grid.specs.GridSoFar.{HasGridded};

    ghost Subject = { Subject };

    ghost has_met = { λ subject bus. HasGridded subject };

    ghost makes = { λ subject. MakesRows subject };

    ghost asks = { λ subject. AsksForBoxes };

    /// Most frames are of groups that nobody hears: those are done with here, and leave all as it was.
    #[inline(always)]
    fn feed<W: Sink>(&mut self, _: &Bus, frame: &Frame, sink: &mut W) -> Result<(), LineFault> {
        self.chooser.note(frame);
        let is_single = self.groups.is_reported(frame.id.pgn());
        if !is_single && !is_network_group(frame.id.pgn()) {
            self.messages = self.messages.saturating_add(0);
            return Ok(());
        }
        match note(
            &mut self.listener,
            self.groups,
            &self.chooser,
            &mut self.rows,
            is_single,
            frame,
            sink,
        ) {
            Ok(messages) => {
                self.messages = self.messages.saturating_add(messages);
                Ok(())
            }
            Err(fault) => Err(fault),
        }
    }

    fn close<W: Sink>(&self, sink: &mut W) -> Result<Made, DeviceFault> {
        self.rows.put_last(sink)?;
        Ok(Made {
            messages: self.messages,
            lines: self.rows.lines_in_all(),
        })
    }

    fn laws() {}
}

/// Takes what is heard at a frame to its rows, and answers how many messages that is; the caller says whether messages of
/// its group are heard in one frame.
#[inline(never)]
fn note<W: Sink>(
    listener: &mut Listener,
    groups: &Groups<'_>,
    chooser: &Chooser<'_>,
    rows: &mut Rows<'_>,
    is_single: bool,
    frame: &Frame,
    sink: &mut W,
) -> Result<u64, LineFault>
    requires { is_single ≡ is_reported_in groups.now (pgn_of frame.now.id) }
    ensures noted { IfOk result (λ messages. (which : FilterRecord) (F : List FrameRecord) → Hears listener.old F
        → Chooses which chooser.now (F ++ frame.now ∷ [])
        → NotesFrame (record { asked = asked_of rows.old.asked; which = which; rows = groups.now }) F frame.now listener.new
        (rows_of rows.old) (rows_of rows.new) messages (W.written sink.old) (W.written sink.new)) }
    ensures same { OnOk result (asked_of rows.new.asked ≡ asked_of rows.old.asked) }
    ensures writer { LeavesWriter result (turn W.written W.has_failed sink.old sink.new) }
    ensures stops { result ≡ Err line_fault.Write → (which : FilterRecord) (F : List FrameRecord) → Hears listener.old F
        → Chooses which chooser.now (F ++ frame.now ∷ [])
        → StopsFrame (record { asked = asked_of rows.old.asked; which = which; rows = groups.now }) F frame.now
        (rows_of rows.old) (W.written sink.old) (W.written sink.new) }
    ensures asked { result ≡ Err line_fault.Memory → (F : List FrameRecord) → Hears listener.old F → AsksForBoxes F frame.now }
{
    match listener.feed_as(is_single, frame) {
        Err(AllocError) => Err(LineFault::Memory),
        Ok(None) => Ok(0),
        Ok(Some(heard)) => {
            if !chooser.takes(&heard) {
                return Ok(1);
            }
            match put_heard(groups, &heard, rows, sink) {
                Ok(()) => Ok(1),
                Err(DeviceFault) => Err(LineFault::Write),
            }
        }
    }
}

/// Takes the values of a message to its rows.
fn put_heard<W: Sink>(
    groups: &Groups<'_>,
    heard: &Heard<'_>,
    rows: &mut Rows<'_>,
    sink: &mut W,
) -> Result<(), DeviceFault>
    ensures rows { OnOk result (rows_of rows.new ≡ rows_behind (asked_of rows.old.asked) (rows_of rows.old)
        (kept_of (asked_of rows.old.asked) (hearing_of heard.now)
        (readings_in groups.now (pgn_raw heard.now.message.pgn) heard.now.message.payload.now))) }
    ensures same { OnOk result (asked_of rows.new.asked ≡ asked_of rows.old.asked) }
    ensures puts { Puts (text_behind (asked_of rows.old.asked) (rows_of rows.old) (kept_of (asked_of rows.old.asked) (hearing_of heard.now)
        (readings_in groups.now (pgn_raw heard.now.message.pgn) heard.now.message.payload.now)))
        result (turn W.written W.has_failed sink.old sink.new) }
{
    rows.stamp = heard.message.stamp;
    match groups.visit(heard.message.pgn, heard.message.payload, rows, sink) {
        Ok(()) => Ok(()),
        Err(DeviceFault) => Err(DeviceFault),
    }
}
