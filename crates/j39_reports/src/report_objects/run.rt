//! The run that writes the report as objects of JSON.
ghost use Rattle.std.specs.Prelude.{◌≡◌, [], Err, IfSome, OnOk};
ghost use Rattle.j39_io.specs.Turn.{turn};
ghost use Rattle.j39_listen.specs.Asking.{AsksForBoxes};
ghost use Rattle.j39_listen.specs.Chooses.{which_of};
ghost use Rattle.j39_listen.specs.Ran.{PassesOn, Ran};
ghost use Rattle.j39_listen.specs.Run.{WritesAsked, WritesWholeLines};
ghost use Rattle.j39_listen.specs.declared.running.RunFault.TheVariants.{Read};
ghost use Rattle.j39_reports.specs.EntryObject.{entry_object};
ghost use Rattle.j39_reports.specs.ReportObjects.{MakesObjects};

use crate::report_objects::objects::ObjectForm;
use j39_io::{Sink, Source};
use j39_listen::{Counts, Report, RunFault, Wanted, run_over};
use j39_log::Bus;
use std::alloc::Global;

/// Writes the report of a log of at most `limit` bytes by a table of parameters as objects of JSON (RFC 8259): one for each
/// value that a filter takes, in a line of its own; for each if none is given. Without a bus it is that of the first frame in
/// the log.
pub fn report_json<R: Source, W: Sink>(
    alloc: Global,
    wanted: Wanted<'_, '_>,
    source: &mut R,
    sink: &mut W,
    bus: Option<Bus>,
    limit: u64,
) -> Result<Counts, RunFault>
    // What the run promises is `Ran`: what is written is the objects of what the filter takes of the log's report, and nothing
    // else. Memory is wanted only at a frame of the log that announces a message.
    ensures ran { Ran (MakesObjects wanted.entry.groups.now (which_of wanted.entry.filter)) AsksForBoxes bus limit result
        (turn R.remaining R.has_failed source.old source.new) (turn W.written W.has_failed sink.old sink.new) }

    // Of what publishers sent, they are exactly those of the values published that the filter takes.
    ensures asked { OnOk result (IfSome (R.remaining source.old) (λ log. WritesAsked [] entry_object
        (which_of wanted.entry.filter) wanted.entry.groups.now bus log (W.written sink.old) (W.written sink.new))) }

    // What was written is passed on at the end, and before each read.
    ensures flushed { PassesOn result (W.is_flushed sink.old) (W.is_flushed sink.new) }

    // Where a read ends the run, all that the whole lines before it make was written.
    ensures kept_up { result ≡ Err Read → WritesWholeLines (MakesObjects wanted.entry.groups.now (which_of wanted.entry.filter)) bus
        (R.remaining source.old) (R.remaining source.new) (W.written sink.old) (W.written sink.new) }
{
    let Wanted { groups, filter } = wanted;
    let form = ObjectForm::new(groups);
    let report = Report::new(alloc, groups, filter, form);
    run_over(report, source, sink, bus, limit)
}
