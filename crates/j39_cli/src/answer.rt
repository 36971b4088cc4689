//! The command `answer`: its words, and how it is performed.
ghost use Rattle.std.specs.Prelude.{◌≡◌, ◌≢◌, ◌↔◌, [], IfOk, IfSome, IsSome, codes, false, true, Err};
ghost use Rattle.std.specs.Str.Parse.{digits_value};
ghost use Rattle.j39_io.specs.Turn.{turn};
ghost use Rattle.clap.specs.Words.{first_value, found_of};
ghost use Rattle.j39_address.specs.Name.{name_raw};
ghost use Rattle.j39_address.specs.Node.{idle_node};
ghost use Rattle.j39_listen.specs.Asking.{AsksForBoxes};
ghost use Rattle.j39_listen.specs.Output.{MakesAnswers};
ghost use Rattle.j39_cli.specs.AnswerCommand.{answer_app};
ghost use Rattle.j39_cli.specs.CommandWords as written;
ghost use Rattle.j39_cli.specs.CommandWords.{IsAnswered, Tells};
ghost use Rattle.j39_cli.specs.Form.{texts_found};
ghost use Rattle.j39_cli.specs.Numbers.{IsNumberBelow};
ghost use Rattle.j39_cli.specs.LogCommand.{IsRun};
ghost use Rattle.j39_cli.specs.Task.{IsInRange};
ghost use Rattle.j39_cli.specs.Rules.{IsMade};

use crate::command::{new_command, with_option};
use crate::cut_values::source_of;
use crate::log::{LOG_LIMIT, copy_of, tell_end, with_log};
use crate::name::name_of;
use crate::words::{bus_value, log_input, required};
use crate::{Address, Argument, ParseFault, Task};
use clap::{ArgMatches, Command};
use j39_address::Name;
use j39_io::{Sink, Source};
use j39_log::Bus;
use std::alloc::{AllocError, Global};

const ABOUT: &str = "\
Writes the frames that a controller with this NAME would have sent to get and keep
an address, had it been on the bus of a log, as lines of a log. It claims its address
at the first frame. It answers a claim of the same address, takes another address
or gives up, answers requests for address claims, and obeys a commanded address
that is broadcast. `j1939 name` explains a NAME.";

const HELP: &str = "\
A frame whose identifier ends with FE says that the controller has no address.

At the end the counts go to standard error:
  frames    frames of the bus that is read
  other     lines that hold no such frame
  unread    lines of no form that candump -l or -L writes
  messages  messages that were heard
  lines     lines written, one for each frame that would be sent

Example:
  j1939 answer --name 8000000001401234 --address 0 trip.log
writes lines such as
  (0000000001.000000) can0 18EEFF00#3412400100000080";

/// What clap is told of it.
pub(crate) fn command<'a>(alloc: Global) -> Result<Command<'a>, AllocError>
    ensures { IsMade result answer_app }
{
    let about = "Writes what a controller would have sent to get and keep an address";
    let command = new_command(alloc, "answer", about, ABOUT, HELP);
    let help = "Its NAME, 16 hex digits (of either case, no 0x), the top bits first";
    let command = with_option(alloc, command, "name", "H", true, help);
    let help = "The address that it claims first, 0 to 253, in decimal";
    with_log(
        alloc,
        with_option(alloc, command, "address", "N", true, help),
    )
}

/// The task that its words ask for.
pub(crate) fn task<'a>(alloc: Global, given: &ArgMatches<'a>) -> Result<Task<'a>, ParseFault>
    ensures tells { Tells (codes "answer") (found_of given.now) result }
    ensures memory { result ≡ Err ParseFault.Memory → texts_found (found_of given.now) (codes "file") ≢ [] }
    ensures in_range { IfOk result IsInRange }
{
    let name = required(alloc, given, "name")?;
    let address = required(alloc, given, "address")?;
    task_of(alloc, name, address, given)
}

/// The task of these texts: the values are checked in their order.
fn task_of<'a>(
    alloc: Global,
    name: &str,
    address: &str,
    given: &ArgMatches<'a>,
) -> Result<Task<'a>, ParseFault>
    ensures { IsAnswered (written.answer name.now address.now (first_value (found_of given.now) (codes "bus"))
        (texts_found (found_of given.now) (codes "file"))) result }
{
    let Some(name) = name_of(name) else {
        return Err(ParseFault::BadValue(Argument::Name));
    };
    let Some(address) = address_of(address) else {
        return Err(ParseFault::BadValue(Argument::Address));
    };
    let bus = bus_value(given)?;
    match log_input(alloc, bus, given) {
        Ok(input) => Ok(Task::Answer {
            name,
            address,
            input,
        }),
        Err(fault) => Err(fault),
    }
}

/// The address of this number in decimal; `None` for other text, and from 254 up.
fn address_of(text: &str) -> Option<Address>
    ensures known { IsSome result ↔ IsNumberBelow 254 text.now }
    ensures value { IfSome result (λ address. address ≡ digits_value 10 text.now) }
{
    Address::new(source_of(text)?)
}

/// Performs it: the lines go to `sink`, the counts or what failed to `err`.
#[inline(never)]
pub(crate) fn perform<R: Source, W: Sink, E: Sink>(
    alloc: Global,
    name: Name,
    address: &Address,
    bus: &Option<Bus>,
    source: &mut R,
    sink: &mut W,
    err: &mut E,
) -> u8
    ensures run { IsRun AsksForBoxes (MakesAnswers (idle_node (name_raw name) address.now)) bus.now result
        (turn R.remaining R.has_failed source.old source.new)
        (turn W.written W.has_failed sink.old sink.new)
        (turn E.written E.has_failed err.old err.new) }
    ensures flushed { result ≡ 0 → W.is_flushed sink.new ≡ true }
    ensures passed_out { W.is_flushed sink.old ≡ true → W.has_failed sink.new ≡ false → W.is_flushed sink.new ≡ true }
    ensures passed_on { E.has_failed err.new ≡ false → E.is_flushed err.new ≡ true }
{
    let address = address.number();
    match j39_listen::answer(alloc, source, sink, copy_of(bus), name, address, LOG_LIMIT) {
        Ok(Some(counts)) => tell_end(bus, Ok(counts), err),
        // An address is 253 at most, so that nothing comes here.
        Ok(None) => 1,
        Err(fault) => tell_end(bus, Err(fault), err),
    }
}
