//! The runs that write the report of what is heard on a bus, whole or kept to what a filter takes.
ghost use Rattle.std.specs.Prelude.{◌≡◌, [], Err, IfSome, OnOk};
ghost use Rattle.j39_io.specs.Turn.{turn};
ghost use Rattle.j39_groups.specs.Table.{the_table};
ghost use Rattle.j39_listen.specs.Asking.{AsksForBoxes};
ghost use Rattle.j39_listen.specs.Chooses.{which_of};
ghost use Rattle.j39_listen.specs.Filter.{MakesFiltered, no_filter};
ghost use Rattle.j39_listen.specs.Output.{MakesReport};
ghost use Rattle.j39_listen.specs.Ran.{PassesOn, Ran};
ghost use Rattle.j39_listen.specs.Report.{entry_text};
ghost use Rattle.j39_listen.specs.Run.{WritesAsked, WritesPublished, WritesWholeLines};
ghost use Rattle.j39_listen.specs.declared.running.RunFault.TheVariants.{Read};

use crate::Counts;
use crate::report::Report;
use crate::report_lines::Pen;
use crate::running::{RunFault, run_over};
use crate::wanted::Wanted;
use j39_groups::Groups;
use j39_io::{Sink, Source};
use j39_log::Bus;
use std::alloc::Global;

/// Writes the report of a log of at most `limit` bytes by the built-in table: a line for each value that a
/// controller on the bus reported. Without a bus it is that of the first frame in the log.
pub fn run<R: Source, W: Sink>(
    alloc: Global,
    source: &mut R,
    sink: &mut W,
    bus: Option<Bus>,
    limit: u64,
) -> Result<Counts, RunFault>
    // What the run promises is `Ran`. The report promise: what is written is the report of the log, and nothing else.
    // Memory is wanted only at a frame of the log that announces a message.
    ensures ran { Ran (MakesReport the_table) AsksForBoxes bus limit result
        (turn R.remaining R.has_failed source.old source.new) (turn W.written W.has_failed sink.old sink.new) }

    // The headline: of what publishers sent, its lines under their addresses are exactly the values
    // published, but for the messages that lost a packet.
    ensures published { OnOk result (IfSome (R.remaining source.old)
        (λ log. WritesPublished the_table bus log (W.written sink.old) (W.written sink.new))) }

    // What was written is passed on at the end, and before each read.
    ensures flushed { PassesOn result (W.is_flushed sink.old) (W.is_flushed sink.new) }

    // Where a read ends the run, all that the whole lines before it make was written.
    ensures kept_up { result ≡ Err Read → WritesWholeLines (MakesReport the_table) bus
        (R.remaining source.old) (R.remaining source.new) (W.written sink.old) (W.written sink.new) }
{
    let groups = Groups::built_in();
    // Named, so that its proof is one whether a table that was read would own memory or not.
    let ran = run_with(alloc, &groups, source, sink, bus, limit);
    ran
}

/// Writes the report of a log of at most `limit` bytes by a table of parameters: a line for each value of it that
/// a controller on the bus reported. Without a bus it is that of the first frame in the log.
pub fn run_with<R: Source, W: Sink>(
    alloc: Global,
    groups: &Groups<'_>,
    source: &mut R,
    sink: &mut W,
    bus: Option<Bus>,
    limit: u64,
) -> Result<Counts, RunFault>
    // What the run promises is `Ran`. The report promise: what is written is the report of the log, and nothing else.
    // Memory is wanted only at a frame of the log that announces a message.
    ensures ran { Ran (MakesReport groups.now) AsksForBoxes bus limit result
        (turn R.remaining R.has_failed source.old source.new) (turn W.written W.has_failed sink.old sink.new) }

    // The headline: of what publishers sent, its lines under their addresses are exactly the values
    // published, but for the messages that lost a packet.
    ensures published { OnOk result (IfSome (R.remaining source.old)
        (λ log. WritesPublished groups.now bus log (W.written sink.old) (W.written sink.new))) }

    // What was written is passed on at the end, and before each read.
    ensures flushed { PassesOn result (W.is_flushed sink.old) (W.is_flushed sink.new) }

    // Where a read ends the run, all that the whole lines before it make was written.
    ensures kept_up { result ≡ Err Read → WritesWholeLines (MakesReport groups.now) bus
        (R.remaining source.old) (R.remaining source.new) (W.written sink.old) (W.written sink.new) }
{
    let filter = None;
    run_filtered(alloc, Wanted { groups, filter }, source, sink, bus, limit)
}

/// Writes the report of a log of at most `limit` bytes that tells what is wanted: the entries of a
/// table that a filter takes, all of them if none is given. Without a bus it is that of the first frame in the log.
pub fn run_filtered<R: Source, W: Sink>(
    alloc: Global,
    wanted: Wanted<'_, '_>,
    source: &mut R,
    sink: &mut W,
    bus: Option<Bus>,
    limit: u64,
) -> Result<Counts, RunFault>
    // What the run promises is `Ran`: what is written is what the filter takes of the report of the log, and nothing else.
    // Memory is wanted only at a frame of the log that announces a message.
    ensures ran { Ran (MakesFiltered wanted.entry.groups.now (which_of wanted.entry.filter)) AsksForBoxes bus limit result
        (turn R.remaining R.has_failed source.old source.new) (turn W.written W.has_failed sink.old sink.new) }

    // The headline, where nothing is asked for: of what publishers sent, its lines under their addresses are exactly the values
    // published, but for the messages that lost a packet.
    ensures published { which_of wanted.entry.filter ≡ no_filter → OnOk result (IfSome (R.remaining source.old)
        (λ log. WritesPublished wanted.entry.groups.now bus log (W.written sink.old) (W.written sink.new))) }

    // And by a filter: they are exactly those of these values that it takes.
    ensures asked { OnOk result (IfSome (R.remaining source.old) (λ log. WritesAsked [] (λ rows. entry_text)
        (which_of wanted.entry.filter) wanted.entry.groups.now bus log (W.written sink.old) (W.written sink.new))) }

    // What was written is passed on at the end, and before each read.
    ensures flushed { PassesOn result (W.is_flushed sink.old) (W.is_flushed sink.new) }

    // Where a read ends the run, all that the whole lines before it make was written.
    ensures kept_up { result ≡ Err Read → WritesWholeLines (MakesFiltered wanted.entry.groups.now (which_of wanted.entry.filter)) bus
        (R.remaining source.old) (R.remaining source.new) (W.written sink.old) (W.written sink.new) }
{
    let Wanted { groups, filter } = wanted;
    let pen = Pen::new(groups);
    let report = Report::new(alloc, groups, filter, pen);
    run_over(report, source, sink, bus, limit)
}
