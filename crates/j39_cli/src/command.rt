//! What clap is told of the whole command line; each command tells its own.
ghost use Rattle.std.specs.Prelude.{◌≡◌, IfOk, false};
ghost use Rattle.clap.specs.Words.{App, app_of, new_app, rule_of, with_rule, with_subcommand};
ghost use Rattle.j39_cli.specs.Command.{bare_app, line_app};
ghost use Rattle.j39_cli.specs.HexCommand.{hex_app};
ghost use Rattle.j39_cli.specs.Rules.{IsMade, flag_rule, option_rule, value_rule, values_rule, with_names, with_table};

use crate::{answer, cut, faults, grid, groups, id, name, nodes, report, summary, survey, watch};
use clap::{Arg, ArgAction, Command};
use std::alloc::{AllocError, Global};

/// What `--version` prints behind the program's name.
const VERSION: &str = "0.2.0";

const LINE_HELP: &str = "\
Examples:
  j1939 report trip.log
  j1939 report --table my.table trip.log
  j1939 report --spn 190,110 --csv trip.log
  candump -L can0 | j1939 report
  j1939 faults trip.log
  j1939 summary trip.log
  j1939 grid --every 0.5 --spn 190,110 --csv trip.log
  candump -L can0 | j1939 watch
  j1939 nodes trip.log
  j1939 survey trip.log
  j1939 answer --name 8000000001401234 --address 0 trip.log
  j1939 groups
  j1939 id 18EEFF00
  j1939 name 8000000001401234
  j1939 cut --source 0 --pgn 65260 --at 2.000000 --bus can0 \\
    3146554A4136435631324C4B31323334352A

Exit status:
  0  done, or help was asked for
  1  out of memory, a read or a write failed, the log, the table or the names
     can't be opened or are too long, or a line of the table or of the names is wrong
  2  the words are no command, or a value is wrong";

/// The whole command line. What makes it, and each command, takes a result and hands on its error, since a `?` at each step
/// would be an exit that drops a whole command, and the proof of ten such exits takes minutes.
#[tactic(auto, unfolding(crate::specs::Command::line_app))]
pub(crate) fn line<'a>(alloc: Global) -> Result<Command<'a>, AllocError>
    ensures { IfOk result (λ c. app_of c ≡ line_app) }
{
    let line = bare(alloc);
    let line = with_command(line, report::command(alloc));
    let line = with_command(line, faults::command(alloc));
    let line = with_command(line, summary::command(alloc));
    let line = with_command(line, grid::command(alloc));
    let line = with_command(line, watch::command(alloc));
    let line = with_command(line, nodes::command(alloc));
    let line = with_command(line, survey::command(alloc));
    let line = with_command(line, answer::command(alloc));
    let line = with_command(line, groups::command(alloc));
    let line = with_command(line, id::command(alloc));
    let line = with_command(line, name::command(alloc));
    with_command(line, cut::command(alloc))
}

fn bare<'a>(alloc: Global) -> Result<Command<'a>, AllocError>
    ensures { IsMade result bare_app }
{
    let line = Command::new(alloc, "j1939")
        .version(VERSION)
        .about("Reads and writes logs of a J1939 bus, in the form of candump -l.")
        .after_help(LINE_HELP)
        .subcommand_required(true);
    Ok(line)
}

/// A command with no arguments yet, and its texts of help.
pub(crate) fn new_command<'a>(
    alloc: Global,
    name: &'a str,
    about: &'a str,
    long_about: &'a str,
    help: &'a str,
) -> Result<Command<'a>, AllocError>
    ensures { IsMade result (new_app name.entry.now) }
{
    let command = Command::new(alloc, name)
        .about(about)
        .long_about(long_about)
        .after_help(help);
    Ok(command)
}

/// A command with one word, HEX, and its texts of help.
pub(crate) fn hex_command<'a>(
    alloc: Global,
    name: &'a str,
    about: &'a str,
    long_about: &'a str,
    after_help: &'a str,
    help: &'a str,
) -> Result<Command<'a>, AllocError>
    ensures { IsMade result (hex_app name.entry.now) }
{
    let command = new_command(alloc, name, about, long_about, after_help);
    with_value(alloc, command, "hex", "HEX", true, help)
}

/// The command with `--table T`, which each takes that goes by a table of parameters.
pub(crate) fn with_table<'a>(
    alloc: Global,
    command: Result<Command<'a>, AllocError>,
) -> Result<Command<'a>, AllocError>
    ensures { (told : App) → IsMade command.entry told → IsMade result (with_table told) }
{
    let help = "The parameters to read: a file of lines as `groups` writes them, or trucks";
    with_option(alloc, command, "table", "T", false, help)
}

/// The command with `--names FILE`, which each takes that tells what numbers are called.
pub(crate) fn with_names<'a>(
    alloc: Global,
    command: Result<Command<'a>, AllocError>,
) -> Result<Command<'a>, AllocError>
    ensures { (told : App) → IsMade command.entry told → IsMade result (with_names told) }
{
    let help =
        "Names of one's own: a file of lines such as `spn 110 coolant` or `group 65280 lights`";
    with_option(alloc, command, "names", "FILE", false, help)
}

/// The command with `--name VALUE` more.
pub(crate) fn with_option<'a>(
    alloc: Global,
    command: Result<Command<'a>, AllocError>,
    name: &'a str,
    value: &'a str,
    is_required: bool,
    help: &'a str,
) -> Result<Command<'a>, AllocError>
    ensures { (told : App) → IsMade command.entry told
        → IsMade result (with_rule told (option_rule name.entry.now is_required)) }
{
    let arg = Arg::new(alloc, name)
        .long(name)
        .value_name(value)
        .required(is_required)
        .help(help);
    with_arg(command, arg)
}

/// The command with the flag `--name` more.
pub(crate) fn with_flag<'a>(
    alloc: Global,
    command: Result<Command<'a>, AllocError>,
    name: &'a str,
    help: &'a str,
) -> Result<Command<'a>, AllocError>
    ensures { (told : App) → IsMade command.entry told → IsMade result (with_rule told (flag_rule name.entry.now)) }
{
    let arg = Arg::new(alloc, name)
        .long(name)
        .action(ArgAction::SetTrue)
        .help(help);
    with_arg(command, arg)
}

/// The command with one more value that stands alone.
pub(crate) fn with_value<'a>(
    alloc: Global,
    command: Result<Command<'a>, AllocError>,
    name: &'a str,
    value: &'a str,
    is_required: bool,
    help: &'a str,
) -> Result<Command<'a>, AllocError>
    ensures { (told : App) → IsMade command.entry told
        → IsMade result (with_rule told (value_rule name.entry.now is_required)) }
{
    let arg = Arg::new(alloc, name)
        .value_name(value)
        .required(is_required)
        .help(help);
    with_arg(command, arg)
}

/// The command with as many values more as there are, each of which stands alone.
pub(crate) fn with_values<'a>(
    alloc: Global,
    command: Result<Command<'a>, AllocError>,
    name: &'a str,
    value: &'a str,
    help: &'a str,
) -> Result<Command<'a>, AllocError>
    ensures { (told : App) → IsMade command.entry told → IsMade result (with_rule told (values_rule name.entry.now)) }
{
    let arg = Arg::new(alloc, name)
        .value_name(value)
        .action(ArgAction::Append)
        .help(help);
    with_arg(command, arg)
}

/// The command with one argument more.
fn with_arg<'a>(
    command: Result<Command<'a>, AllocError>,
    arg: Arg<'a>,
) -> Result<Command<'a>, AllocError>
    requires { arg.global ≡ false }
    ensures { (told : App) → IsMade command.entry told → IsMade result (with_rule told (rule_of arg.entry)) }
{
    command?.arg(arg)
}

/// The line with one command more. Both are unpacked at once, so that the exit drops neither.
fn with_command<'a>(
    line: Result<Command<'a>, AllocError>,
    command: Result<Command<'a>, AllocError>,
) -> Result<Command<'a>, AllocError>
    ensures { (line_told told : App) → IsMade line.entry line_told → IsMade command.entry told
        → IsMade result (with_subcommand line_told told.top) }
{
    let (line, command) = line.ok().zip(command.ok()).ok_or(AllocError)?;
    line.subcommand(command)
}
