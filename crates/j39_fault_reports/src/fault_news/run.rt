//! The runs that tell the faults in a log.
ghost use Rattle.std.specs.Prelude.{◌≡◌, IfOk};
ghost use Rattle.j39_io.specs.Turn.{turn};
ghost use Rattle.j39_listen.specs.Headed.{begins_flushed};
ghost use Rattle.j39_listen.specs.Ran.{PassesOn};
ghost use Rattle.j39_fault_reports.specs.Broken.{ToldFaults, counts_in};
ghost use Rattle.j39_fault_reports.specs.FaultAsking.{AsksForFaults};
ghost use Rattle.j39_fault_reports.specs.FaultRun.{MakesFaults};
ghost use Rattle.j39_fault_reports.specs.FaultRows.{fault_columns};
ghost use Rattle.j39_fault_reports.specs.FaultsSoFar.{manner_of};
ghost use Rattle.j39_listen.specs.Chooses.{which_of};
ghost use Rattle.j39_fault_reports.specs.News.{chosen_of};

use crate::fault_news::account::FaultNews;
use crate::fault_news::telling::{FaultsWanted, Telling};
use j39_io::{Sink, Source};
use j39_listen::{Counts, Format, RunFault, run_headed_keeping, run_keeping};
use j39_log::Bus;
use std::alloc::Global;

/// The columns of records of codes.
const COLUMNS: &[u8] =
    b"stamp,utc,address,destination,name,state,spn,fmi,count,lamps,parameter,meaning\r\n";

/// Those of records of changes.
const CHANGE_COLUMNS: &[u8] =
    b"stamp,utc,address,destination,name,change,spn,fmi,count,lamps,parameter,meaning\r\n";

/// What a run that tells faults counts.
#[derive(Clone, Copy, Debug, PartialEq, Eq)]
pub struct FaultCounts {
    /// As every run does.
    pub counts: Counts,
    /// Messages of codes in packets that were announced and did not come whole. A count of either that would pass 2^64 - 1
    /// stays there (own).
    pub broken: u64,
}

/// Writes the fault codes in a log of at most `limit` bytes: a line, a record of comma-separated values (RFC 4180),
/// or an object (RFC 8259), for each code that is told of a message of faults, with the name of its parameter; one
/// too for a message whose codes are told, and that has none. Before the lines of a message stands one of the lamps, if they aren't all
/// off, or where changes are told, if they changed. The names of the columns of records are written before the
/// log is read. Without a bus it is that of the first frame in the log.
pub fn faults<R: Source, W: Sink>(
    alloc: Global,
    wanted: FaultsWanted<'_, '_>,
    source: &mut R,
    sink: &mut W,
    bus: Option<Bus>,
    limit: u64,
) -> Result<FaultCounts, RunFault>
    // What the run promises is `Ran`: what is written is the faults that are told in the frames of the log, and nothing
    // else. Memory is wanted only at a frame of the log that announces a message, or at the first message of faults of
    // its group from an address between the moments. And it counts which messages of codes were broken.
    ensures told { ToldFaults (MakesFaults wanted.entry.writing.form (manner_of wanted.entry.writing) (chosen_of wanted.entry.choice))
        (AsksForFaults wanted.entry.choice.telling (which_of wanted.entry.choice.filter)) bus limit result
        (turn R.remaining R.has_failed source.old source.new) (turn W.written W.has_failed sink.old sink.new) }

    // What was written is passed on at the end, and before each read, the names of the columns before the first.
    ensures flushed { PassesOn result (begins_flushed wanted.entry.writing.form (W.is_flushed sink.old)) (W.is_flushed sink.new) }
{
    let FaultsWanted { writing, choice } = wanted;
    let account = FaultNews::new(alloc, writing, choice);
    match writing.form {
        Format::Line(_) => {
            let (ran, news) = run_keeping(account, source, sink, bus, limit);
            counted(ran, news.broken())
        }
        Format::Record => {
            let columns = columns_of(choice.telling);
            let (ran, news) = run_headed_keeping(columns, account, source, sink, bus, limit);
            counted(ran, news.broken())
        }
        Format::Object => {
            let (ran, news) = run_keeping(account, source, sink, bus, limit);
            counted(ran, news.broken())
        }
    }
}

/// What a run counted, with how many messages were broken.
pub(crate) fn counted(ran: Result<Counts, RunFault>, broken: u64) -> Result<FaultCounts, RunFault>
    ensures counts { counts_in result ≡ ran }
    ensures broken { IfOk result (λ told. told.broken ≡ broken) }
{
    match ran {
        Ok(counts) => Ok(FaultCounts { counts, broken }),
        Err(fault) => Err(fault),
    }
}

/// The names of the columns of records.
fn columns_of(telling: Telling) -> &'static [u8]
    ensures { result.now ≡ fault_columns telling }
{
    match telling {
        Telling::News => COLUMNS,
        Telling::All => COLUMNS,
        Telling::Changes => CHANGE_COLUMNS,
    }
}
