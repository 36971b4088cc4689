//! The summary of the report of a log: the run that writes it, and the account of frames that it writes.
ghost use Rattle.std.specs.Prelude.{◌≡◌, ◌<◌, ◌++◌, ◌∷◌, [], List};
ghost use Rattle.std.specs.Prelude.{IfOk, OnErr, Err};
ghost use Rattle.j39_memory.specs.ByOrigin.{pairs_of};
ghost use Rattle.j39_frame.specs.Frame.{FrameRecord};
ghost use Rattle.j39_frame.specs.Identifier.{pgn_of};
ghost use Rattle.j39_groups.specs.Readings.{is_reported_in};
ghost use Rattle.std.specs.List.{flat_map};
ghost use Rattle.j39_io.specs.Turn.{turn};
ghost use Rattle.j39_listen.specs.Chooses.{Chooses, which_of};
ghost use Rattle.j39_listen.specs.Filter.{FilterRecord, first_stamp, messages_taken};
ghost use Rattle.j39_listen.specs.Headed.{begins_flushed};
ghost use Rattle.j39_listen.specs.Heard.{AreHeard, Hearing};
ghost use Rattle.j39_listen.specs.Listening.{Hears};
ghost use Rattle.j39_listen.specs.Report.{Entry, entries_of};
ghost use Rattle.j39_listen.specs.Output.{nothing};
ghost use Rattle.j39_listen.specs.Ran.{PassesOn, Ran};
ghost use Rattle.j39_reports.specs.SummarySoFar.{HasSummed, NotesFrame};
ghost use Rattle.j39_frame.specs.declared.origin.Origin.{Origin};
ghost use Rattle.j39_reports.specs.RowsSoFar.{AreCounted, AreRowsOf};
ghost use Rattle.j39_reports.specs.Summary.{absences_of};
ghost use Rattle.j39_reports.specs.SummaryRun.{AsksForRows, MakesSummary};

use crate::summaries::lines::put_rows;
use crate::summaries::rows::Rows;
use j39_frame::{Frame, Id};
use j39_groups::Groups;
use j39_io::{DeviceFault, Sink, Source};
use j39_listen::{
    Account, Chooser, Counts, Format, LineFault, Listener, Made, Roles, RunFault, Wanted,
    run_headed, run_over,
};
use j39_log::Bus;
use std::alloc::{AllocError, Global};

/// What a summary is to tell, and in which form.
#[derive(Clone, Copy)]
pub struct SummaryWanted<'g, 't> {
    pub wanted: Wanted<'g, 't>,
    pub format: Format,
}

/// Writes the summary of a log of at most `limit` bytes of what is wanted: a line, a record of
/// comma-separated values (RFC 4180), or an object (RFC 8259), for each parameter that a controller on the bus reported, in the order of their
/// first values. The names of the columns of records are written before the log is read. Without a bus it is that of
/// the first frame in the log.
pub fn summary<R: Source, W: Sink>(
    alloc: Global,
    summed: SummaryWanted<'_, '_>,
    source: &mut R,
    sink: &mut W,
    bus: Option<Bus>,
    limit: u64,
) -> Result<Counts, RunFault>
    // What the run promises is `Ran`: what is written is the summary of what the filter takes of the log's report, of all of it
    // without one, and nothing else. Memory is
    // wanted only at a frame that announces a message, and at one where a message is heard that has a value of a
    // parameter without a row, or a text, or a parameter that is not available for the first time.
    ensures ran { Ran (MakesSummary summed.entry.format (which_of summed.entry.wanted.filter) summed.entry.wanted.groups.now)
        (AsksForRows (which_of summed.entry.wanted.filter) summed.entry.wanted.groups.now) bus limit result
        (turn R.remaining R.has_failed source.old source.new) (turn W.written W.has_failed sink.old sink.new) }

    // What was written is passed on at the end, and before each read, the names of the columns before the first.
    ensures flushed { PassesOn result (begins_flushed summed.entry.format (W.is_flushed sink.old)) (W.is_flushed sink.new) }
{
    let account = SummaryAccount::new(alloc, summed);
    match summed.format {
        Format::Line(_) => run_over(account, source, sink, bus, limit),
        Format::Record => run_headed(COLUMNS, account, source, sink, bus, limit),
        Format::Object => run_over(account, source, sink, bus, limit),
    }
}

/// The names of the columns of records.
const COLUMNS: &[u8] =
    b"address,destination,name,pgn,spn,parameter,values,words,absent,first_stamp,first_utc,last_stamp,last_utc,least,most,unit,first,last,state\r\n";

/// What is heard so far, and the rows of its summary.
#[derive(Drop)]
pub(crate) struct SummaryAccount<'g, 't> {
    roles: Roles<'g, 't>,
    form: Format,
    chooser: Chooser<'g>,
    listener: Listener,
    rows: Rows<'t>,
    messages: u64,
}

impl<'g, 't> SummaryAccount<'g, 't> {
    /// The summary of no frames.
    pub fn new(alloc: Global, summed: SummaryWanted<'g, 't>) -> SummaryAccount<'g, 't>
        ensures { HasSummed summed.entry.format (which_of summed.entry.wanted.filter) summed.entry.wanted.groups.now result [] nothing }
    {
        let Wanted { groups, filter } = summed.wanted;
        SummaryAccount {
            roles: Roles::new(groups),
            form: summed.format,
            chooser: Chooser::new(filter),
            listener: Listener::new(alloc),
            rows: Rows::new(alloc),
            messages: 0,
        }
    }
}

impl<'g, 't> Account for SummaryAccount<'g, 't> {
    ghost use Rattle.j39_reports.specs.SummarySoFar.{HasSummed, SummaryAsked};
    ghost use Rattle.j39_reports.specs.SummaryRun.{AsksForRows, MakesSummaryIn};

    ghost Subject = { SummaryAsked };

    ghost has_met = { λ subject bus. HasSummed subject.form subject.which subject.rows };

    ghost makes = { λ subject. MakesSummaryIn subject.form subject.which subject.rows };

    ghost asks = { λ subject. AsksForRows subject.which subject.rows };

    /// Most frames are of groups that nobody hears.
    #[inline(always)]
    fn passes_over(&self, id: Id) -> bool {
        self.roles.passes_over(id) && self.chooser.is_begun()
    }

    #[inline(always)]
    fn feed<W: Sink>(&mut self, _: &Bus, frame: &Frame, _: &mut W) -> Result<(), LineFault> {
        self.chooser.note(frame);
        let groups = self.roles.groups;
        let role = self.roles.of(frame.id);
        match note(
            &mut self.listener,
            groups,
            &self.chooser,
            &mut self.rows,
            role.is_single,
            frame,
        ) {
            Ok(messages) => {
                self.messages = self.messages.saturating_add(messages);
                Ok(())
            }
            Err(AllocError) => Err(LineFault::Memory),
        }
    }

    fn close<W: Sink>(&self, sink: &mut W) -> Result<Made, DeviceFault> {
        put_rows(&self.rows, self.form, self.roles.groups, sink)?;
        Ok(Made {
            messages: self.messages,
            lines: self.rows.rows.len() as u64,
        })
    }

    fn laws() {}
}

/// Takes what is heard at a frame to its rows, and answers how many messages that is; the caller says whether messages of
/// its group are heard in one frame.
#[inline(never)]
fn note<'t>(
    listener: &mut Listener,
    groups: &Groups<'t>,
    chooser: &Chooser<'_>,
    rows: &mut Rows<'t>,
    is_single: bool,
    frame: &Frame,
) -> Result<u64, AllocError>
    requires { is_single ≡ is_reported_in groups.now (pgn_of frame.now.id) }
    ensures noted { IfOk result (λ messages. (which : FilterRecord) (F : List FrameRecord) (before : List Entry)
        → Hears listener.old F → Chooses which chooser.now (F ++ frame.now ∷ [])
        → AreRowsOf (pairs_of rows.old.rows) before → (absent : List Origin)
        → AreCounted (pairs_of rows.old.absences.counts) absent
        → NotesFrame which groups.now F frame.now listener.new rows.new before absent messages) }
    ensures asked { OnErr result ((which : FilterRecord) (F : List FrameRecord) (heard : List Hearing)
        → Hears listener.old F → Chooses which chooser.now (F ++ frame.now ∷ []) → AreHeard groups.now F heard
        → AreRowsOf (pairs_of rows.old.rows)
        (flat_map (entries_of groups.now) (messages_taken which (first_stamp F) heard))
        → AreCounted (pairs_of rows.old.absences.counts)
        (flat_map (absences_of groups.now) (messages_taken which (first_stamp F) heard))
        → AsksForRows which groups.now F frame.now) }
{
    match listener.feed_as(is_single, frame) {
        Err(AllocError) => Err(AllocError),
        Ok(None) => Ok(0),
        Ok(Some(heard)) => {
            if !chooser.takes(&heard) {
                return Ok(1);
            }
            rows.begin(&heard);
            match groups.visit(heard.message.pgn, heard.message.payload, rows, &mut ()) {
                Ok(()) => {
                    if rows.is_refused {
                        return Err(AllocError);
                    }
                    Ok(1)
                }
                Err(AllocError) => Err(AllocError),
            }
        }
    }
}
