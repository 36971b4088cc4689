//! The command `nodes`: its words, and how it is performed.
ghost use Rattle.std.specs.Prelude.{◌≡◌, ◌∷◌, [], codes, option_map};
ghost use Rattle.j39_io.specs.Turn.{turn};
ghost use Rattle.clap.specs.Words.{first_value, found_of};
ghost use Rattle.j39_listen.specs.Asking.{AsksNowhere};
ghost use Rattle.j39_survey.specs.Nodes.{MakesNodesOf};
ghost use Rattle.j39_survey.specs.SeenNodes.{long_silence};
ghost use Rattle.j39_listen.specs.Ran.{PassesOn, Ran};
ghost use Rattle.j39_cli.specs.Answer.{IsReadAs, value_check};
ghost use Rattle.j39_cli.specs.CommandWords.{IsAnswered, command_found};
ghost use Rattle.j39_cli.specs.LogCommand.{log_limit};
ghost use Rattle.j39_cli.specs.NodesCommand.{makes_told, nodes_app, told_by, told_flushed};
ghost use Rattle.j39_cli.specs.Rules.{IsMade};
ghost use Rattle.j39_cli.specs.Seconds.{AreSeconds, seconds_value};
ghost use Rattle.j39_cli.specs.declared.task.Argument.TheVariants as argument;

use crate::asked::SenderWord;
use crate::command::{new_command, with_flag, with_names, with_option};
use crate::heads::with_head;
use crate::lists::slice_of;
use crate::log::{LOG_LIMIT, copy_of, with_forms, with_log};
use crate::seconds::micros_of;
use crate::words::{bus_value, format_value, is_set, list_value, log_input};
use crate::{Argument, NodesTold, ParseFault, Senders, Task, WordText};
use clap::{ArgMatches, Command};
use j39_io::{Sink, Source};
use j39_listen::{Counts, Format, RunFault};
use j39_log::Bus;
use j39_names::Named;
use j39_survey::{LONG_SILENCE, SeenAsked, nodes_of, nodes_seen};
use std::alloc::{AllocError, Global};

const ABOUT: &str = "\
Writes who holds which address at the end of a log: one line for each address that is
held, rising, with the source address and the NAME that holds it, both in hex. A
controller whose claim was lost to a smaller NAME, or that gave its address up, holds
none. `j1939 name` explains a NAME.

With --seen or --silent, and in each of the other forms, it also has the time of that
NAME's last claim of it and of the last frame from there; for how many seconds it was
silent at the end of the log, and at most between two frames, since when, each if as
many as --silent says or more; and what the NAME's function and manufacturer are called,
if that is known. Then an address that nobody holds has a line too (dashes for the NAME,
- for the claim), if other frames than claims came from there since its holder last
changed.";

const HELP: &str = "\
At the end the counts go to standard error:
  frames    frames of the bus that is read
  other     lines that hold no such frame
  unread    lines of no form that candump -l or -L writes
  messages  0: messages are not heard
  lines     lines written

Example:
  j1939 nodes --bus can0 trip.log
writes lines such as
  00 8000000001401234
and with --seen
  00 8000000001401234 (1700000000.000000) (1700000060.250000) longest 12.300000 since (1700000004.100000) function engine manufacturer Cummins
  0B ---------------- - (1700000012.400000) silent 47.850000";

/// What clap is told of it.
pub(crate) fn command<'a>(alloc: Global) -> Result<Command<'a>, AllocError>
    ensures { IsMade result nodes_app }
{
    let about = "Writes who holds which address after a log";
    let command = with_names(alloc, new_command(alloc, "nodes", about, ABOUT, HELP));
    let help = "These addresses (hex), or those of these NAMEs (16 hex digits), alone";
    let command = with_option(alloc, command, "from", "A,..", false, help);
    let help = "Also when each was claimed and heard last, and who talks without a claim";
    let command = with_flag(alloc, command, "seen", help);
    let help = "The same, with silences of so many seconds or more; without it, 5";
    let command = with_option(alloc, command, "silent", "S", false, help);
    let command = with_head(alloc, command);
    with_log(alloc, with_forms(alloc, command))
}

/// The task that its words ask for.
pub(crate) fn task<'a>(alloc: Global, given: &ArgMatches<'a>) -> Result<Task<'a>, ParseFault>
    ensures { IsAnswered (command_found (codes "nodes") (found_of given.now)) result }
{
    let names = given.get_str("names").map(WordText::new);
    let bus = bus_value(given)?;
    let from = list_value::<SenderWord>(given, "from", Argument::From)?;
    let silence = silence_value(given)?;
    let format = format_value(given)?;
    match log_input(alloc, bus, given) {
        Ok(input) => Ok(Task::Nodes {
            input,
            names,
            from,
            told: told_by(silence, is_set(given, "seen"), format),
            has_head: is_set(given, "head"),
        }),
        Err(fault) => Err(fault),
    }
}

/// The least silence that is told, where it is given.
fn silence_value(given: &ArgMatches<'_>) -> Result<Option<u64>, ParseFault>
    ensures { IsReadAs (value_check AreSeconds argument.Silent (first_value (found_of given.now) (codes "silent")) ∷ [])
        (λ silence. silence ≡ option_map seconds_value (first_value (found_of given.now) (codes "silent"))) result }
{
    match given.get_str("silent") {
        None => Ok(None),
        Some(text) => match micros_of(text.as_bytes()) {
            Some(silence) => Ok(Some(silence)),
            None => Err(ParseFault::BadValue(Argument::Silent)),
        },
    }
}

/// What is told by `--seen`, by `--silent` and in this format.
fn told_by(silence: Option<u64>, is_seen: bool, format: Format) -> NodesTold
    ensures { result ≡ told_by silence is_seen format }
{
    match silence {
        Some(silence) => NodesTold::Seen { format, silence },
        None => {
            if is_seen {
                seen(format)
            } else {
                match format {
                    Format::Line(_) => NodesTold::Held,
                    Format::Record => seen(Format::Record),
                    Format::Object => seen(Format::Object),
                }
            }
        }
    }
}

/// Who was seen, and each silence that is told where nothing else is said.
fn seen(format: Format) -> NodesTold
    ensures { result ≡ NodesTold.Seen format long_silence }
{
    NodesTold::Seen {
        format,
        silence: LONG_SILENCE,
    }
}

/// Reads a log, and tells of the addresses after it, of those that are asked for.
#[inline(never)]
pub(crate) fn run<R: Source, W: Sink>(
    own: &[Named<'_>],
    told: NodesTold,
    from: &Option<Senders>,
    bus: &Option<Bus>,
    source: &mut R,
    sink: &mut W,
) -> Result<Counts, RunFault>
    ensures ran { Ran (makes_told own.now told from.now) AsksNowhere bus.now log_limit result
        (turn R.remaining R.has_failed source.old source.new) (turn W.written W.has_failed sink.old sink.new) }
    ensures flushed { PassesOn result (told_flushed told (W.is_flushed sink.old)) (W.is_flushed sink.new) }
{
    let bus = copy_of(bus);
    match told {
        NodesTold::Held => held(from, source, sink, bus),
        NodesTold::Seen { format, silence } => {
            let asked = SeenAsked {
                own,
                format,
                silence,
                from: slice_of(from),
            };
            nodes_seen(asked, source, sink, bus, LOG_LIMIT)
        }
    }
}

/// Reads a log, and writes who holds which address after it.
fn held<R: Source, W: Sink>(
    from: &Option<Senders>,
    source: &mut R,
    sink: &mut W,
    bus: Option<Bus>,
) -> Result<Counts, RunFault>
    ensures ran { Ran (MakesNodesOf from.now) AsksNowhere bus log_limit result
        (turn R.remaining R.has_failed source.old source.new) (turn W.written W.has_failed sink.old sink.new) }
    ensures flushed { PassesOn result (W.is_flushed sink.old) (W.is_flushed sink.new) }
{
    match from {
        Some(senders) => nodes_of(senders.as_slice(), source, sink, bus, LOG_LIMIT),
        None => j39_survey::nodes(source, sink, bus, LOG_LIMIT),
    }
}
