//! The run that tells which faults are there at the end of a log.
ghost use Rattle.std.specs.Prelude.{◌≡◌};
ghost use Rattle.j39_io.specs.Turn.{turn};
ghost use Rattle.j39_listen.specs.Chooses.{which_of};
ghost use Rattle.j39_listen.specs.Headed.{begins_flushed};
ghost use Rattle.j39_listen.specs.Ran.{PassesOn};
ghost use Rattle.j39_fault_reports.specs.Broken.{ToldFaults};
ghost use Rattle.j39_fault_reports.specs.FaultsSoFar.{manner_of};
ghost use Rattle.j39_fault_reports.specs.FaultsNowRun.{AsksForFaultsNow, MakesFaultsNow};

use crate::current_faults::account::FaultsNow;
use crate::fault_news::form::Writing;
use crate::fault_news::run::{FaultCounts, counted};
use j39_faults::Conversion;
use j39_io::{Sink, Source};
use j39_listen::{Filter, Format, RunFault, run_headed_keeping, run_keeping};
use j39_log::Bus;
use std::alloc::Global;

/// The names of the columns of records.
const COLUMNS: &[u8] =
    b"first_stamp,first_utc,address,name,last_stamp,last_utc,messages,silent,state,spn,fmi,count,lamps,parameter,meaning\r\n";

/// What a run is to tell of the faults that are there.
#[derive(Clone, Copy)]
pub struct CurrentWanted<'c, 't> {
    pub writing: Writing<'c, 't>,
    /// By which versions of the conversion the SPNs of controllers are read: the first that is for a controller counts.
    pub conversions: &'c [Conversion],
    /// Of which messages; `None` for all.
    pub filter: Option<Filter<'c>>,
}

/// Writes which faults are there at the end of a log of at most `limit` bytes: a line, a record of comma-separated
/// values (RFC 4180), or an object (RFC 8259), for each code that the last message of DM1 of each controller names, or one that it names none, in
/// the order of their addresses; since when, and in how many messages one behind the other. Before its lines stands one of its lamps, if
/// they aren't all off. With a filter, of the messages between
/// its moments, and those whose last message it takes. The names of the columns of records are written before the log is read. Without a bus it is that of the
/// first frame in the log.
pub fn faults_now<R: Source, W: Sink>(
    alloc: Global,
    wanted: CurrentWanted<'_, '_>,
    source: &mut R,
    sink: &mut W,
    bus: Option<Bus>,
    limit: u64,
) -> Result<FaultCounts, RunFault>
    // What the run promises is `Ran`: what is written is what the filter takes of the faults that are there at the end of the
    // log, and nothing else. Memory is wanted only at a frame of the log that announces a message, or at the first message of active codes
    // of its address between the moments. And it counts which messages of codes were broken.
    ensures told { ToldFaults (MakesFaultsNow wanted.entry.writing.form (manner_of wanted.entry.writing) wanted.entry.conversions.now (which_of wanted.entry.filter))
        (AsksForFaultsNow (which_of wanted.entry.filter)) bus limit result
        (turn R.remaining R.has_failed source.old source.new) (turn W.written W.has_failed sink.old sink.new) }

    // What was written is passed on at the end, and before each read, the names of the columns before the first.
    ensures flushed { PassesOn result (begins_flushed wanted.entry.writing.form (W.is_flushed sink.old)) (W.is_flushed sink.new) }
{
    let CurrentWanted {
        writing,
        conversions,
        filter,
    } = wanted;
    let account = FaultsNow::new(alloc, writing, conversions, filter);
    match writing.form {
        Format::Line(_) => {
            let (ran, account) = run_keeping(account, source, sink, bus, limit);
            counted(ran, account.broken())
        }
        Format::Record => {
            let (ran, account) = run_headed_keeping(COLUMNS, account, source, sink, bus, limit);
            counted(ran, account.broken())
        }
        Format::Object => {
            let (ran, account) = run_keeping(account, source, sink, bus, limit);
            counted(ran, account.broken())
        }
    }
}
