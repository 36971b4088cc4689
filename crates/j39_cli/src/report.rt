//! The command `report`: its words, and how it is performed.
ghost use Rattle.std.specs.Prelude.{◌≡◌, ◌⊎◌, Err, IfSome, OnOk, codes, false, true};
ghost use Rattle.j39_io.specs.Turn.{turn};
ghost use Rattle.clap.specs.Words.{found_of};
ghost use Rattle.j39_listen.specs.Asking.{AsksForBoxes};
ghost use Rattle.j39_listen.specs.Filter.{no_filter};
ghost use Rattle.j39_listen.specs.Ran.{Ran};
ghost use Rattle.j39_listen.specs.Run.{WritesAsked, WritesPublished, WritesWholeLines};
ghost use Rattle.j39_listen.specs.declared.format.Clock.TheVariants.{Seconds};
ghost use Rattle.j39_listen.specs.declared.format.Format.TheVariants.{Line};
ghost use Rattle.j39_listen.specs.declared.running.RunFault.TheVariants.{Read};
ghost use Rattle.j39_cli.specs.Asked.{filter_in};
ghost use Rattle.j39_cli.specs.CommandWords.{IsAnswered, command_found};
ghost use Rattle.j39_cli.specs.LogCommand.{log_limit};
ghost use Rattle.j39_cli.specs.ReportCommand.{IsReportRun, form_in, head_in, makes_in, report_app};
ghost use Rattle.j39_cli.specs.Rules.{IsMade};

use crate::command::new_command;
use crate::log::{LOG_LIMIT, copy_of, tell_end, tell_fault};
use crate::options::{RowOptions, rows_given, with_rows};
use crate::{ParseFault, Task};
use clap::{ArgMatches, Command};
use j39_groups::Groups;
use j39_io::{Sink, Source};
use j39_listen::{Clock, Counts, Format, RunFault, Wanted, run_filtered};
use j39_reports::{report_csv, report_in_utc, report_json};
use std::alloc::{AllocError, Global};

const ABOUT: &str = "\
Writes one line for each parameter value in a log: the time, the source address
(hex), the NAME that holds this address (hex, or dashes if no claim before tells
it), the PGN, the SPN, and the value with its unit. A value is a number, on or off,
a text in quotes, or what the sender says in its place: error (it has a fault),
indicator (a code of the parameter's own) or reserved (a code that means nothing
yet). What it marks as not available has no line. Messages in packets are put
together, broadcast or sent to one controller. `j1939 groups` says what the PGNs
and SPNs are.";

const HELP: &str = "\
At the end the counts go to standard error:
  frames    frames of the bus that is read
  other     lines that hold no such frame: of another bus, standard or remote
            frames, CAN FD, error frames
  unread    lines of no form that candump -l or -L writes
  messages  messages that were heard: in packets of any group, in one frame of the
            groups that are reported
  lines     lines written

Example:
  j1939 report --bus can0 trip.log
writes lines such as
  (0000000001.010000) 00 8000000001401234 61444 190 1500.000 rpm";

/// What clap is told of it.
pub(crate) fn command<'a>(alloc: Global) -> Result<Command<'a>, AllocError>
    ensures { IsMade result report_app }
{
    let about = "Writes the parameter values in a log";
    let command = new_command(alloc, "report", about, ABOUT, HELP);
    let help = "The parameters to write alone: 1 to 32 SPNs, with commas between them";
    with_rows(alloc, command, help)
}

/// The task that its words ask for.
pub(crate) fn task<'a>(alloc: Global, given: &ArgMatches<'a>) -> Result<Task<'a>, ParseFault>
    ensures { IsAnswered (command_found (codes "report") (found_of given.now)) result }
{
    match rows_given(alloc, given) {
        Ok(options) => Ok(Task::Report(options)),
        Err(fault) => Err(fault),
    }
}

/// Performs it by a table of parameters, or by its rows of those that are asked for: the report goes to `sink`, the counts
/// or what failed to `err`.
#[inline(never)]
pub(crate) fn perform<R: Source, W: Sink, E: Sink>(
    alloc: Global,
    groups: &Groups<'_>,
    options: &RowOptions<'_>,
    source: &mut R,
    sink: &mut W,
    err: &mut E,
) -> u8
    ensures run { IsReportRun options.now groups.now result
        (turn R.remaining R.has_failed source.old source.new)
        (turn W.written W.has_failed sink.old sink.new)
        (turn E.written E.has_failed err.old err.new) }
    ensures status { (result ≡ 0) ⊎ (result ≡ 1) }
    ensures flushed { result ≡ 0 → W.is_flushed sink.new ≡ true }
    ensures passed_out { W.is_flushed sink.old ≡ true → W.has_failed sink.new ≡ false → W.is_flushed sink.new ≡ true }
    ensures passed_on { E.has_failed err.new ≡ false → E.is_flushed err.new ≡ true }
{
    let Some(spns) = &options.asked.spns else {
        return tell_end(
            &options.input.bus,
            run(alloc, groups, options, source, sink),
            err,
        );
    };
    match groups.restricted_to(alloc, spns.as_slice()) {
        Ok(kept) => tell_end(
            &options.input.bus,
            run(alloc, &kept, options, source, sink),
            err,
        ),
        Err(AllocError) => tell_fault(RunFault::Memory, err),
    }
}

/// Reads a log, and writes what is asked for of its report by a table of parameters.
fn run<R: Source, W: Sink>(
    alloc: Global,
    groups: &Groups<'_>,
    options: &RowOptions<'_>,
    source: &mut R,
    sink: &mut W,
) -> Result<Counts, RunFault>
    ensures ran { Ran (makes_in options.now.format (filter_in options.now.asked) groups.now) AsksForBoxes options.now.input.bus
        log_limit result
        (turn R.remaining R.has_failed source.old source.new) (turn W.written W.has_failed sink.old sink.new) }
    ensures published { options.now.format ≡ Line Seconds → filter_in options.now.asked ≡ no_filter → OnOk result (IfSome (R.remaining source.old)
        (λ log. WritesPublished groups.now options.now.input.bus log (W.written sink.old) (W.written sink.new))) }
    ensures asked { OnOk result (IfSome (R.remaining source.old)
        (λ log. WritesAsked (head_in options.now.format) (form_in options.now.format)
        (filter_in options.now.asked) groups.now options.now.input.bus log (W.written sink.old) (W.written sink.new))) }
    ensures kept_up { result ≡ Err Read → WritesWholeLines (makes_in options.now.format (filter_in options.now.asked) groups.now)
        options.now.input.bus
        (R.remaining source.old) (R.remaining source.new) (W.written sink.old) (W.written sink.new) }
    ensures flushed { OnOk result (W.is_flushed sink.new ≡ true) }
    ensures passed_out { W.is_flushed sink.old ≡ true → W.has_failed sink.new ≡ false → W.is_flushed sink.new ≡ true }
{
    let filter = options.asked.filter_given();
    let wanted = Wanted { groups, filter };
    let bus = copy_of(&options.input.bus);
    match options.format {
        Format::Line(Clock::Seconds) => {
            run_filtered(alloc, wanted, source, sink, bus, LOG_LIMIT)
        }
        Format::Line(Clock::Utc) => report_in_utc(alloc, wanted, source, sink, bus, LOG_LIMIT),
        Format::Record => report_csv(alloc, wanted, source, sink, bus, LOG_LIMIT),
        Format::Object => report_json(alloc, wanted, source, sink, bus, LOG_LIMIT),
    }
}
