//! The command `cut`: its words, and how it is performed.
ghost use Rattle.std.specs.Prelude.{◌≡◌, ◌^◌, Err, IfOk, codes};
ghost use Rattle.clap.specs.Words.{found_of};
ghost use Rattle.j39_cli.specs.CommandWords as written;
ghost use Rattle.j39_cli.specs.CommandWords.{IsAnswer, Tells};
ghost use Rattle.j39_cli.specs.CutCommand.{IsMomentText, cut_app};
ghost use Rattle.j39_cli.specs.Numbers.{IsNumberBelow};
ghost use Rattle.j39_log.specs.Bus.{IsBusName};
ghost use Rattle.j39_cli.specs.Task.{IsInRange};
ghost use Rattle.j39_cli.specs.Rules.{IsMade};

use crate::command::{new_command, with_option, with_value};
use crate::cut_values::{payload_of, pgn_of, source_of, stamp_of};
use crate::words::required;
use crate::{Argument, Outgoing, ParseFault, Task};
use clap::{ArgMatches, Command};
use j39_log::Bus;
use std::alloc::{AllocError, Global};

const ABOUT: &str = "\
Cuts a message of 9 to 1,785 bytes into the frames that broadcast it, and writes
them as lines of a log: the announcement, then its packets, each 50 ms after the
frame before it.";

const HELP: &str = "\
Example:
  j1939 cut --source 0 --pgn 65260 --at 2.000000 --bus can0 \\
    3146554A4136435631324C4B31323334352A
writes four lines, of which the first is
  (0000000002.000000) can0 1CECFF00#20120003FFECFE00";

/// What clap is told of it.
pub(crate) fn command<'a>(alloc: Global) -> Result<Command<'a>, AllocError>
    ensures { IsMade result cut_app }
{
    let about = "Writes the frames that broadcast a long message";
    let command = new_command(alloc, "cut", about, ABOUT, HELP);
    let help = "The address that the message is sent from, 0 to 253, in decimal";
    let command = with_option(alloc, command, "source", "N", true, help);
    let help = "The PGN of the message, 0 to 262143, in decimal";
    let command = with_option(alloc, command, "pgn", "N", true, help);
    let help = "The time of the announcement: seconds, a point and six digits, as 2.000000";
    let command = with_option(alloc, command, "at", "STAMP", true, help);
    let help = "The interface that the lines name, as can0";
    let command = with_option(alloc, command, "bus", "B", true, help);
    let help = "The bytes of the message, 9 to 1,785 pairs of hex digits (of either case, no 0x)";
    with_value(alloc, command, "hex", "HEX", true, help)
}

/// The task that its words ask for.
pub(crate) fn task<'a>(alloc: Global, given: &ArgMatches<'a>) -> Result<Task<'a>, ParseFault>
    ensures tells { Tells (codes "cut") (found_of given.now) result }
    ensures in_range { IfOk result IsInRange }
{
    let source = required(alloc, given, "source")?;
    let pgn = required(alloc, given, "pgn")?;
    let at = required(alloc, given, "at")?;
    let bus = required(alloc, given, "bus")?;
    let hex = required(alloc, given, "hex")?;
    task_of(alloc, source, pgn, at, bus, hex)
}

/// The task of these texts: the values are checked in their order, and last the end.
fn task_of<'a>(
    alloc: Global,
    source: &str,
    pgn: &str,
    at: &str,
    bus: &str,
    hex: &str,
) -> Result<Task<'a>, ParseFault>
    ensures answer { IsAnswer (written.cut source.now pgn.now at.now bus.now hex.now) result }
    ensures in_range { IfOk result IsInRange }

    // Memory is wanted for HEX alone, where the values before it are in range.
    ensures memory { result ≡ Err ParseFault.Memory → IsNumberBelow 254 source.now
        × IsNumberBelow (2 ^ 18) pgn.now × IsMomentText at.now × IsBusName bus.now }
{
    let Some(source) = source_of(source) else {
        return Err(ParseFault::BadValue(Argument::Source));
    };
    let Some(pgn) = pgn_of(pgn) else {
        return Err(ParseFault::BadValue(Argument::Pgn));
    };
    let Some(at) = stamp_of(at.as_bytes()) else {
        return Err(ParseFault::BadValue(Argument::At));
    };
    let Some(bus) = Bus::new(bus.as_bytes()) else {
        return Err(ParseFault::BadValue(Argument::Bus));
    };
    let payload = payload_of(alloc, hex)?;
    match Outgoing::new(source, pgn, at, bus, payload) {
        Some(outgoing) => Ok(Task::Cut(outgoing)),
        None => Err(ParseFault::BadValue(Argument::At)),
    }
}
