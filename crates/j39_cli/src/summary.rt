//! The command `summary`: its words.
ghost use Rattle.std.specs.Prelude.{◌≡◌, ◌⊎◌, OnOk, codes, false, true};
ghost use Rattle.clap.specs.Words.{found_of};
ghost use Rattle.j39_io.specs.Turn.{turn};
ghost use Rattle.j39_listen.specs.Ran.{Ran};
ghost use Rattle.j39_reports.specs.SummaryRun.{AsksForRows, MakesSummary};
ghost use Rattle.j39_cli.specs.Asked.{filter_in};
ghost use Rattle.j39_cli.specs.LogCommand.{log_limit};
ghost use Rattle.j39_cli.specs.CommandWords.{IsAnswered, command_found};
ghost use Rattle.j39_cli.specs.SummaryCommand.{IsSummaryRun, summary_app};
ghost use Rattle.j39_cli.specs.Rules.{IsMade};

use crate::command::new_command;
use crate::log::{LOG_LIMIT, copy_of, tell_end, tell_fault};
use crate::options::{RowOptions, rows_given, with_rows};
use crate::{ParseFault, Task};
use clap::{ArgMatches, Command};
use j39_groups::Groups;
use j39_io::{Sink, Source};
use j39_listen::{Counts, RunFault, Wanted};
use j39_reports::SummaryWanted;
use std::alloc::{AllocError, Global};

const ABOUT: &str = "\
Writes one line for each parameter that a log has values of, by address, NAME, PGN
and SPN, in the order of their first values: how many values there were, how many
of them words (error, indicator or reserved), how often it was not available, the
times of the first and the last, the least and the most number with their unit, the
first value, the last, and what the parameter is called. What is a value is said by
`j1939 report --help`.";

const HELP: &str = "\
At the end the counts go to standard error, as those of `j1939 report`; lines are
those of the summary.

Example:
  j1939 summary --bus can0 trip.log
writes lines such as
  00 8000000001401234 61444 190 3 0 2 (0000000001.010000) (0000000001.030000)
     1499.875 1500.125 rpm 1500.000 1499.875 engine speed
each in one line.";

/// What clap is told of it.
pub(crate) fn command<'a>(alloc: Global) -> Result<Command<'a>, AllocError>
    ensures { IsMade result summary_app }
{
    let about = "Writes what each parameter in a log did";
    let command = new_command(alloc, "summary", about, ABOUT, HELP);
    let help = "The parameters to sum up alone: 1 to 32 SPNs, with commas between them";
    with_rows(alloc, command, help)
}

/// The task that its words ask for.
pub(crate) fn task<'a>(alloc: Global, given: &ArgMatches<'a>) -> Result<Task<'a>, ParseFault>
    ensures { IsAnswered (command_found (codes "summary") (found_of given.now)) result }
{
    match rows_given(alloc, given) {
        Ok(options) => Ok(Task::Summary(options)),
        Err(fault) => Err(fault),
    }
}

/// Performs it by a table of parameters, or by its rows of those that are asked for: the summary goes to `sink`, the counts
/// or what failed to `err`.
#[inline(never)]
pub(crate) fn perform<R: Source, W: Sink, E: Sink>(
    alloc: Global,
    groups: &Groups<'_>,
    options: &RowOptions<'_>,
    source: &mut R,
    sink: &mut W,
    err: &mut E,
) -> u8
    ensures run { IsSummaryRun options.now groups.now result
        (turn R.remaining R.has_failed source.old source.new)
        (turn W.written W.has_failed sink.old sink.new)
        (turn E.written E.has_failed err.old err.new) }
    ensures status { (result ≡ 0) ⊎ (result ≡ 1) }
    ensures flushed { result ≡ 0 → W.is_flushed sink.new ≡ true }
    ensures passed_out { W.is_flushed sink.old ≡ true → W.has_failed sink.new ≡ false → W.is_flushed sink.new ≡ true }
    ensures passed_on { E.has_failed err.new ≡ false → E.is_flushed err.new ≡ true }
{
    let Some(spns) = &options.asked.spns else {
        return tell_end(
            &options.input.bus,
            run(alloc, groups, options, source, sink),
            err,
        );
    };
    match groups.restricted_to(alloc, spns.as_slice()) {
        Ok(kept) => tell_end(
            &options.input.bus,
            run(alloc, &kept, options, source, sink),
            err,
        ),
        Err(AllocError) => tell_fault(RunFault::Memory, err),
    }
}

/// Reads a log, and writes the summary of what is asked for of its report by a table of parameters.
fn run<R: Source, W: Sink>(
    alloc: Global,
    groups: &Groups<'_>,
    options: &RowOptions<'_>,
    source: &mut R,
    sink: &mut W,
) -> Result<Counts, RunFault>
    ensures ran { Ran (MakesSummary options.now.format (filter_in options.now.asked) groups.now)
        (AsksForRows (filter_in options.now.asked) groups.now) options.now.input.bus log_limit result
        (turn R.remaining R.has_failed source.old source.new) (turn W.written W.has_failed sink.old sink.new) }
    ensures flushed { OnOk result (W.is_flushed sink.new ≡ true) }
    ensures passed_out { W.is_flushed sink.old ≡ true → W.has_failed sink.new ≡ false → W.is_flushed sink.new ≡ true }
{
    let filter = options.asked.filter_given();
    let bus = copy_of(&options.input.bus);
    let summed = SummaryWanted {
        wanted: Wanted { groups, filter },
        format: options.format,
    };
    j39_reports::summary(alloc, summed, source, sink, bus, LOG_LIMIT)
}
