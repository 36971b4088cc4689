//! The command `faults`: its words, and how it is performed.
ghost use Rattle.std.specs.Prelude.{◌≡◌, ◌∷◌, [], Some, codes, true, false};
ghost use Rattle.j39_io.specs.Turn.{turn};
ghost use Rattle.j39_listen.specs.Headed.{begins_flushed};
ghost use Rattle.j39_cli.specs.Answer.{IsReadAs};
ghost use Rattle.j39_listen.specs.Ran.{PassesOn};
ghost use Rattle.j39_cli.specs.LogCommand.{log_limit};
ghost use Rattle.clap.specs.Words.{first_value, found_of};
ghost use Rattle.j39_cli.specs.CommandWords.{IsAnswered, command_found};
ghost use Rattle.j39_cli.specs.FaultsCommand.{IsFaultsBy, asks_by, faults_app, makes_by, told_by, told_check, versions_in};
ghost use Rattle.j39_names.specs.Naming.{naming_of};
ghost use Rattle.j39_fault_reports.specs.Broken.{ToldFaults};
ghost use Rattle.j39_cli.specs.Rules.{IsMade, is_given};

use crate::asked::{asked_value, with_asked};
use crate::command::{new_command, with_flag, with_names, with_option, with_table};
use crate::conversions::{ConversionWord, Conversions};
use crate::fields::fault_counts_line;
use crate::heads::with_head;
use crate::lists::slice_of;
use crate::log::{LOG_LIMIT, copy_of, end_text, tell_fault, with_forms, with_log};
use crate::options::{FaultOptions, RowOptions};
use crate::refusal::show;
use crate::words::{bus_value, format_value, is_set, list_value, log_input};
use crate::{Argument, FaultsTold, ParseFault, Task, WordText};
use clap::{ArgMatches, Command};
use j39_fault_reports::{
    Choice, CurrentWanted, FaultCounts, FaultsWanted, Telling, Writing, faults, faults_now,
};
use j39_faults::Conversion;
use j39_io::{Sink, Source};
use j39_listen::RunFault;
use j39_names::Naming;
use std::alloc::{AllocError, Global};

const ABOUT: &str = "\
Writes the fault codes in a log, as they become news: one line for each code of each
message of DM1 (active codes), DM2 (previously active), DM27 (pending), DM28
(permanent), and of emissions DM6, DM12 and DM23 (pending, active, previously
active) that tells something else, or under another NAME, than the last message
before of that group from that address, or that is the first. With --all, of each
message. A message with no code writes none. Who asks to clear codes is told too:
the previously active ones (DM3), or the active ones (DM11), of all (FF) or of one.

With --changes instead: what became of each active code from one DM1 of a controller
to its next, also from another address, or before its NAME was known: set (that
before doesn't name it, or there is none), again (its count rose), cleared (this one
doesn't name it); silence clears none.

With --now instead: each code that the last DM1 of a controller names, or that it
names none, at the log's end or --until. Then the line's time is that of the first
DM1 since which the controller names the code; behind the NAME stand the time of the
last DM1, how many there are, and how long before the last frame it came, if five
seconds or more (silent 47.850000). Who fell silent still stands there.

The line has the time, the source address (hex), the NAME that holds it (hex, or
dashes if no claim before tells it), the state, or what became of the code, the SPN,
the FMI, how often it came (or -), what the parameter is called, and what the FMI
means. Before the lines of a message stands one of the sender's lamps (a flashing
one with *), if they aren't all off; with --changes, if they changed (- if all went
off). With --spn none does.";

const HELP: &str = "\
At the end the counts go to standard error:
  frames    frames of the bus that is read
  other     lines that hold no such frame: of another bus, standard or remote
            frames, CAN FD, error frames
  unread    lines of no form that candump -l or -L writes
  messages  messages of faults that were heard, in one frame or in packets; with
            --now those of DM1
  lines     lines written
  broken    messages of codes that a BAM or an RTS announced and that were not heard

Example:
  j1939 faults --bus can0 trip.log
writes lines such as
  (1700000000.250000) 00 8000000001401234 lamps red,amber
  (1700000000.250000) 00 8000000001401234 active 110 0 3 coolant temperature: data valid but above normal operational range, most severe level";

/// What clap is told of it.
pub(crate) fn command<'a>(alloc: Global) -> Result<Command<'a>, AllocError>
    ensures { IsMade result faults_app }
{
    let about = "Writes the fault codes in a log";
    let command = with_table(alloc, new_command(alloc, "faults", about, ABOUT, HELP));
    let command = with_names(alloc, command);
    let help =
        "By which version of their conversion older SPNs are read: 1, 2 or 3, of all; or NAME=1,..";
    let command = with_option(alloc, command, "conversion", "C", false, help);
    let help = "The codes of these parameters alone: 1 to 32 SPNs, with commas between them";
    let command = with_asked(alloc, command, help);
    let help = "Each message of faults, whether it is news or not";
    let command = with_flag(alloc, command, "all", help);
    let help = "What became of active codes: set, again (its count rose) or cleared";
    let command = with_flag(alloc, command, "changes", help);
    let help = "What the last DM1 of each controller names, since when, in how many messages";
    let command = with_flag(alloc, command, "now", help);
    let command = with_head(alloc, command);
    with_log(alloc, with_forms(alloc, command))
}

/// The task that its words ask for.
pub(crate) fn task<'a>(alloc: Global, given: &ArgMatches<'a>) -> Result<Task<'a>, ParseFault>
    ensures { IsAnswered (command_found (codes "faults") (found_of given.now)) result }
{
    let table = given.get_str("table").map(WordText::new);
    let names = given.get_str("names").map(WordText::new);
    let bus = bus_value(given)?;
    let conversions = list_value::<ConversionWord>(given, "conversion", Argument::Conversion)?;
    let asked = asked_value(given)?;
    let told = told_value(given)?;
    let format = format_value(given)?;
    match log_input(alloc, bus, given) {
        Ok(input) => {
            let rows = RowOptions {
                input,
                table,
                asked,
                format,
                has_head: is_set(given, "head"),
            };
            Ok(Task::Faults(FaultOptions {
                rows,
                names,
                conversions,
                told,
            }))
        }
        Err(fault) => Err(fault),
    }
}

/// What is told by its words.
fn told_value(given: &ArgMatches<'_>) -> Result<FaultsTold, ParseFault>
    ensures { let all = is_given (first_value (found_of given.now) (codes "all")) in
        let changes = is_given (first_value (found_of given.now) (codes "changes")) in
        let now = is_given (first_value (found_of given.now) (codes "now")) in
        IsReadAs (told_check all changes now ∷ []) (λ told. told_by all changes now ≡ Some told) result }
{
    let all = is_set(given, "all");
    match told_by(all, is_set(given, "changes"), is_set(given, "now")) {
        Some(told) => Ok(told),
        None => Err(ParseFault::BadValue(Argument::Together)),
    }
}

/// What is told by `--all`, `--changes` and `--now`, of which no two go together.
fn told_by(all: bool, changes: bool, now: bool) -> Option<FaultsTold>
    ensures { result ≡ told_by all changes now }
{
    match (all, changes, now) {
        (false, false, false) => Some(FaultsTold::InMessages(Telling::News)),
        (true, false, false) => Some(FaultsTold::InMessages(Telling::All)),
        (false, true, false) => Some(FaultsTold::InMessages(Telling::Changes)),
        (false, false, true) => Some(FaultsTold::Now),
        (true, true, _) => None,
        (true, false, true) => None,
        (false, true, true) => None,
    }
}

/// The versions of the conversion that are known: none where none is given.
fn versions_in(conversions: &Option<Conversions>) -> &[Conversion]
    ensures { result.now ≡ versions_in conversions.now }
{
    match conversions {
        Some(conversions) => conversions.as_slice(),
        None => &[],
    }
}

/// Performs it by these names: the faults go to `sink`, the counts or what failed to `err`.
#[inline(never)]
pub(crate) fn perform<R: Source, W: Sink, E: Sink>(
    alloc: Global,
    naming: &Naming<'_, '_>,
    options: &FaultOptions<'_>,
    source: &mut R,
    sink: &mut W,
    err: &mut E,
) -> u8
    ensures run { IsFaultsBy options.now (naming_of naming.now) result
        (turn R.remaining R.has_failed source.old source.new)
        (turn W.written W.has_failed sink.old sink.new)
        (turn E.written E.has_failed err.old err.new) }
    ensures flushed { result ≡ 0 → W.is_flushed sink.new ≡ true }
    ensures passed_out { W.is_flushed sink.old ≡ true → W.has_failed sink.new ≡ false → W.is_flushed sink.new ≡ true }
    ensures passed_on { E.has_failed err.new ≡ false → E.is_flushed err.new ≡ true }
{
    match run(alloc, naming, options, source, sink) {
        Ok(told) => {
            let counts = fault_counts_line(told);
            let text = end_text(
                &options.rows.input.bus,
                told.counts.frames,
                counts.as_slice(),
            );
            show(err, text.as_slice());
            0
        }
        Err(fault) => tell_fault(fault, err),
    }
}

/// Runs over the log.
fn run<R: Source, W: Sink>(
    alloc: Global,
    naming: &Naming<'_, '_>,
    options: &FaultOptions<'_>,
    source: &mut R,
    sink: &mut W,
) -> Result<FaultCounts, RunFault>
    ensures told { ToldFaults (makes_by options.now (naming_of naming.now)) (asks_by options.now) options.now.rows.input.bus log_limit result
        (turn R.remaining R.has_failed source.old source.new) (turn W.written W.has_failed sink.old sink.new) }
    ensures flushed { PassesOn result (begins_flushed options.now.rows.format (W.is_flushed sink.old)) (W.is_flushed sink.new) }
{
    let rows = &options.rows;
    let conversions = versions_in(&options.conversions);
    let filter = rows.asked.filter_given();
    let writing = Writing {
        form: rows.format,
        naming,
        spns: slice_of(&rows.asked.spns),
    };
    let bus = copy_of(&rows.input.bus);
    match options.told {
        FaultsTold::InMessages(telling) => {
            let choice = Choice {
                telling,
                conversions,
                filter,
            };
            let wanted = FaultsWanted { writing, choice };
            faults(alloc, wanted, source, sink, bus, LOG_LIMIT)
        }
        FaultsTold::Now => {
            let wanted = CurrentWanted {
                writing,
                conversions,
                filter,
            };
            faults_now(alloc, wanted, source, sink, bus, LOG_LIMIT)
        }
    }
}
