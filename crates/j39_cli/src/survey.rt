//! The command `survey`: its words, and how it is performed.
ghost use Rattle.std.specs.Prelude.{◌≡◌, codes, false, true};
ghost use Rattle.j39_io.specs.Turn.{turn};
ghost use Rattle.clap.specs.Words.{found_of};
ghost use Rattle.j39_names.specs.Naming.{naming_of};
ghost use Rattle.j39_cli.specs.CommandWords.{IsAnswered, command_found};
ghost use Rattle.j39_cli.specs.SurveyCommand.{IsSurvey, survey_app};
ghost use Rattle.j39_cli.specs.Rules.{IsMade};

use crate::command::{new_command, with_names, with_table};
use crate::log::{LOG_LIMIT, copy_of, tell_fault, with_forms, with_log};
use crate::words::{bus_value, format_value, log_input};
use crate::{ParseFault, Task, WordText};
use clap::{ArgMatches, Command};
use j39_io::{Sink, Source};
use j39_log::Bus;
use j39_survey::SurveyWanted;
use std::alloc::{AllocError, Global};

const ABOUT: &str = "\
Writes what a log is: how many lines it has; for each of the first sixteen
interfaces its frames, its first and last stamp, and how often a stamp is below
the one before (back), and the frames of all others (elsewhere); for each group (PGN)
of one interface its frames, how many messages in packets were announced and came
whole, from how many controllers' addresses, and how far apart its frames, or
announcements, came, in seconds, with the time since when it stayed away the longest;
whether a report reads it (read), the network needs it (network) or neither (not read:
fault codes are read by `j1939 faults`), and its name; the lines that hold no such
frame, by kind; and the lines that are unread, of which the first five are shown. With
--csv and --json the column record says what a row is of.";

const HELP: &str = "\
Example:
  j1939 survey trip.log
writes lines such as
  lines 12000
  interface can0 frames 12000 from (0000000001.010000) to (0000000061.000000) back 0
  group 61444 frames 2400 announced 0 whole 0 addresses 1 least 0.024871
     mean 0.025003 most 0.051212 since (0000000031.001000) read EEC1
  other standard 0 remote 0 fd 0 error 0 odd 0
  unread 0";

/// What clap is told of it.
pub(crate) fn command<'a>(alloc: Global) -> Result<Command<'a>, AllocError>
    ensures { IsMade result survey_app }
{
    let about = "Writes what a log is: its interfaces, groups and lines";
    let command = new_command(alloc, "survey", about, ABOUT, HELP);
    let command = with_names(alloc, with_table(alloc, command));
    with_log(alloc, with_forms(alloc, command))
}

/// The task that its words ask for.
pub(crate) fn task<'a>(alloc: Global, given: &ArgMatches<'a>) -> Result<Task<'a>, ParseFault>
    ensures { IsAnswered (command_found (codes "survey") (found_of given.now)) result }
{
    let table = given.get_str("table").map(WordText::new);
    let names = given.get_str("names").map(WordText::new);
    let bus = bus_value(given)?;
    let format = format_value(given)?;
    match log_input(alloc, bus, given) {
        Ok(input) => Ok(Task::Survey {
            input,
            table,
            names,
            format,
        }),
        Err(fault) => Err(fault),
    }
}

/// Performs it: the survey goes to `sink`, what failed to `err`.
#[inline(never)]
pub(crate) fn perform<R: Source, W: Sink, E: Sink>(
    alloc: Global,
    wanted: SurveyWanted<'_, '_>,
    bus: &Option<Bus>,
    source: &mut R,
    sink: &mut W,
    err: &mut E,
) -> u8
    ensures survey { IsSurvey wanted.entry.form bus.now (naming_of wanted.entry.naming.now) result
        (turn R.remaining R.has_failed source.old source.new)
        (turn W.written W.has_failed sink.old sink.new)
        (turn E.written E.has_failed err.old err.new) }
    ensures flushed { result ≡ 0 → W.is_flushed sink.new ≡ true }
    ensures passed_out { W.is_flushed sink.old ≡ true → W.has_failed sink.new ≡ false → W.is_flushed sink.new ≡ true }
    ensures passed_on { result ≡ 1 → E.has_failed err.new ≡ false → E.is_flushed err.new ≡ true }
{
    let bus = copy_of(bus);
    match j39_survey::survey(alloc, wanted, source, sink, bus, LOG_LIMIT) {
        Ok(()) => 0,
        Err(fault) => tell_fault(fault, err),
    }
}
