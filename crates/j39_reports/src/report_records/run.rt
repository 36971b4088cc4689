//! The run that writes the report as records of comma-separated values.
ghost use Rattle.std.specs.Prelude.{◌≡◌, Err, IfSome, OnOk, true};
ghost use Rattle.j39_io.specs.Turn.{turn};
ghost use Rattle.j39_listen.specs.Asking.{AsksForBoxes};
ghost use Rattle.j39_listen.specs.Chooses.{which_of};
ghost use Rattle.j39_listen.specs.Headed.{Headed};
ghost use Rattle.j39_listen.specs.Ran.{PassesOn, Ran};
ghost use Rattle.j39_listen.specs.Run.{WritesAsked, WritesWholeLines};
ghost use Rattle.j39_listen.specs.declared.running.RunFault.TheVariants.{Read};
ghost use Rattle.j39_reports.specs.EntryText.{entry_record, header_text};
ghost use Rattle.j39_reports.specs.ReportRecords.{MakesRecords};

use crate::report_records::records::RecordForm;
use j39_io::{Sink, Source};
use j39_listen::{Counts, Report, RunFault, Wanted, run_headed};
use j39_log::Bus;
use std::alloc::Global;

/// The names of the columns.
const HEADER: &[u8] =
    b"stamp,utc,address,destination,name,pgn,group,spn,parameter,value,unit,state\r\n";

/// Writes the report of a log of at most `limit` bytes by a table of parameters as comma-separated values (RFC 4180):
/// the names of the columns, and a record for each value that a filter takes; for each if none is given. Without a bus it is
/// that of the first frame in the log.
pub fn report_csv<R: Source, W: Sink>(
    alloc: Global,
    wanted: Wanted<'_, '_>,
    source: &mut R,
    sink: &mut W,
    bus: Option<Bus>,
    limit: u64,
) -> Result<Counts, RunFault>
    // What the run promises is `Ran`: what is written is the header and the records of what the filter takes of the log's
    // report, and nothing else. Memory is wanted only at a frame of the log that announces a message.
    ensures ran { Ran (Headed header_text (MakesRecords wanted.entry.groups.now (which_of wanted.entry.filter))) AsksForBoxes bus limit result
        (turn R.remaining R.has_failed source.old source.new) (turn W.written W.has_failed sink.old sink.new) }

    // Of what publishers sent, they are exactly those of the values published that the filter takes.
    ensures asked { OnOk result (IfSome (R.remaining source.old) (λ log. WritesAsked header_text entry_record
        (which_of wanted.entry.filter) wanted.entry.groups.now bus log (W.written sink.old) (W.written sink.new))) }

    // What was written is passed on at the end, and before each read, the header before the first.
    ensures flushed { PassesOn result true (W.is_flushed sink.new) }

    // Where a read ends the run, the header and all that the whole lines before it make was written.
    ensures kept_up { result ≡ Err Read → WritesWholeLines (Headed header_text (MakesRecords wanted.entry.groups.now (which_of wanted.entry.filter)))
        bus (R.remaining source.old) (R.remaining source.new) (W.written sink.old) (W.written sink.new) }
{
    let Wanted { groups, filter } = wanted;
    let form = RecordForm::new(groups);
    let report = Report::new(alloc, groups, filter, form);
    run_headed(HEADER, report, source, sink, bus, limit)
}
