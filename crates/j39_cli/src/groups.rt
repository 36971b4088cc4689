//! The command `groups`: its words, and how it is performed.
ghost use Rattle.std.specs.Prelude.{◌≡◌, OnOk, codes, false, true};
ghost use Rattle.clap.specs.Words.{found_of};
ghost use Rattle.j39_io.specs.Puts.{Puts};
ghost use Rattle.j39_io.specs.Turn.{turn};
ghost use Rattle.j39_groups.specs.Printed.{rows_text};
ghost use Rattle.j39_cli.specs.CommandWords.{IsAnswered, command_found};
ghost use Rattle.j39_cli.specs.GroupsCommand.{groups_app};
ghost use Rattle.j39_cli.specs.WholeText.{IsShown};
ghost use Rattle.j39_cli.specs.Rules.{IsMade};

use crate::command::{new_command, with_table};
use crate::shown::status_of;
use crate::{ParseFault, Task, WordText};
use clap::{ArgMatches, Command};
use j39_groups::Groups;
use j39_io::{DeviceFault, Sink};
use std::alloc::{AllocError, Global};

const ABOUT: &str = "\
Writes what a report may hold: a line for each parameter, with eight columns.
  PGN     of its group
  group   the group's short name
  SPN     of the parameter
  place   4-5 are bytes of the payload, 1.3-4 bits of a byte, 4.7-5.2 bits of two;
          *2 is the second of the texts between the bytes `*`, and 2- the texts
          from a byte on; s behind it is of a signed number, u of one without
          raw numbers that are no values
  scale   what one raw step is worth
  offset  the value of the raw number 0
  unit    of both, and of the report's value
  name    of the parameter, and behind ` = ` those of its states
Switches and texts have dashes for scale, offset and unit.";

const HELP: &str = "\
Examples:
  j1939 groups | grep EEC1
writes three lines, of which the last is
  61444 EEC1 190 4-5 0.125 0.000 rpm engine speed
  j1939 groups > my.table
makes a table to edit; lines that begin with # are comments.";

/// What clap is told of it.
pub(crate) fn command<'a>(alloc: Global) -> Result<Command<'a>, AllocError>
    ensures { IsMade result groups_app }
{
    let about = "Writes the parameters that a report may hold";
    with_table(alloc, new_command(alloc, "groups", about, ABOUT, HELP))
}

/// The task that its words ask for.
pub(crate) fn task<'a>(given: &ArgMatches<'a>) -> Result<Task<'a>, ParseFault>
    ensures { IsAnswered (command_found (codes "groups") (found_of given.now)) result }
{
    Ok(Task::Groups(given.get_str("table").map(WordText::new)))
}

/// Performs it: the table's lines go to `sink`, a fault to `err`.
pub(crate) fn perform<W: Sink, E: Sink>(groups: &Groups<'_>, sink: &mut W, err: &mut E) -> u8
    ensures shown { IsShown (rows_text groups.now) result
        (turn W.written W.has_failed sink.old sink.new)
        (turn E.written E.has_failed err.old err.new) }
    ensures flushed { result ≡ 0 → W.is_flushed sink.new ≡ true }
    ensures passed_out { W.is_flushed sink.old ≡ true → W.has_failed sink.new ≡ false → W.is_flushed sink.new ≡ true }
    ensures silent { result ≡ 0 → err.new ≡ err.old }
    ensures passed_on { result ≡ 1 → E.has_failed err.new ≡ false → E.is_flushed err.new ≡ true }
{
    status_of(put_lines(groups, sink), err)
}

/// Writes the lines and passes them on.
fn put_lines<W: Sink>(groups: &Groups<'_>, sink: &mut W) -> Result<(), DeviceFault>
    ensures puts { Puts (rows_text groups.now) result (turn W.written W.has_failed sink.old sink.new) }
    ensures flushed { OnOk result (W.is_flushed sink.new ≡ true) }
    ensures passed_out { W.is_flushed sink.old ≡ true → W.has_failed sink.new ≡ false → W.is_flushed sink.new ≡ true }
{
    groups.put(sink)?;
    sink.flush()
}
