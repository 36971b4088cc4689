//! The words of the command line.
ghost use Rattle.std.specs.Option.{SomeIff};
ghost use Rattle.std.specs.Str.Parse.{digits_value};
ghost use Rattle.bus_demo.specs.Numerals.{IsNumberWithin};

use crate::bus::losses::{LOSSES, Loss};
use clap::error::ErrorKind;
use clap::{Arg, ArgAction, ArgMatches, Command, Error};
use j39_io::number;
use std::alloc::{AllocError, Global};
use std::convert::AsStr;

const HELP: &str = "\
Examples:
  bus_demo | j1939 report
  bus_demo --seed 7 --seconds 10 --lose 98,105
  bus_demo --book 2> bus.book > bus.log
  bus_demo --outside < frames

Four controllers share the bus: two want one address, one is commanded to another,
each sends engine speed, temperatures and distance, one broadcasts its vehicle's
identification, and one sends its component's to another. A frame that is lost is
seen by no one: neither the log nor another controller has it.

With --outside another controller shares the bus: its frames come on standard input,
as lines of a log. The bus goes on to the moment of each, all hear it, and it is a
line of the log as well. One of the four then asks address 00 for its vehicle's
identification.

With --display six controllers tell their faults each second, all at once and in
packets, and a display hears them: what it received is in the book as delivered.

With --loss little is sent but what a loss is for: the engine's rival takes its
address a second after the start, while the engine broadcasts, sends to the tool or
receives from it; or the tool sends two messages to the gearbox, or commands it.

Exit status:
  0  done, or help was asked for
  1  out of memory, a read or a write failed, or a line is no frame
  2  the words are wrong";

/// The longest time that is played, in seconds.
const LONGEST: u64 = 3_600;

/// What is to be played.
#[derive(Drop)]
pub(crate) struct Words {
    /// What the gauges and the turns of the controllers' loops hang on.
    pub seed: u64,
    /// How long it goes, 1 to 3,600 seconds.
    pub seconds: u64,
    /// The numbers of the frames that are lost, counted from 1: with nothing lost, a frame's number is its line in the log.
    pub lose: Vec<u64>,
    /// Whether the book is told in the place of the counts.
    pub book: bool,
    /// Whether frames of a controller outside come on standard input.
    pub outside: bool,
    /// Whether six that tell their faults and a display are played in the place of the four.
    pub display: bool,
    /// What is lost, where that is played in their place.
    pub loss: Option<Loss>,
}

/// Why there is nothing to play.
#[derive(Drop)]
pub(crate) enum Refusal {
    /// Memory was refused.
    Memory,
    /// Help was asked for; with clap's text.
    Help(String),
    /// The words are no command line; with what clap says of them.
    Usage(String),
    /// The value of this word is wrong.
    BadValue(&'static str),
}

impl From<AllocError> for Refusal {
    fn from(_error: AllocError) -> Refusal {
        Refusal::Memory
    }
}

/// What the words ask for. They begin with the program's name.
pub(crate) fn read_words<S: AsStr>(alloc: Global, words: &[S]) -> Result<Words, Refusal> {
    let command = command(alloc)?;
    match command.try_get_matches_from(words) {
        Ok(matches) => words_of(alloc, &matches),
        Err(error) => Err(refusal_of(alloc, &error)),
    }
}

/// The values that clap met.
fn words_of(alloc: Global, matches: &ArgMatches<'_>) -> Result<Words, Refusal> {
    Ok(Words {
        seed: value(matches, "seed", 1, 0, u64::MAX).ok_or(Refusal::BadValue("--seed"))?,
        seconds: value(matches, "seconds", 3, 1, LONGEST).ok_or(Refusal::BadValue("--seconds"))?,
        lose: numbers(alloc, matches.get_str("lose"))?,
        book: matches.get_flag("book"),
        outside: matches.get_flag("outside"),
        display: matches.get_flag("display"),
        loss: loss_of(matches.get_str("loss"))?,
    })
}

/// What clap is told.
fn command<'a>(alloc: Global) -> Result<Command<'a>, AllocError> {
    let seed = "Any number: one seed gives one log; without it 1";
    let seconds = "How long it goes, 1 to 3600; without it 3";
    let lose = "The frames that are lost, counted from 1";
    let book = "Tell what was handed in, and what became of it, in the place of the counts";
    let outside = "Take the frames of one more controller from standard input";
    let display = "Play six controllers that tell their faults in packets, and a display";
    let loss = "Play a loss: broadcast, transfer, session, request or command";
    let args = [
        option(alloc, "seed", "N", seed),
        option(alloc, "seconds", "N", seconds),
        option(alloc, "lose", "N,N..", lose),
        flag(alloc, "book", book),
        flag(alloc, "outside", outside),
        flag(alloc, "display", display),
        option(alloc, "loss", "WHAT", loss),
    ];
    let args = Vec::from_array(alloc, args)?;
    Command::new(alloc, "bus_demo")
        .about("Plays a J1939 bus of simulated controllers, and writes its log as candump -L does.")
        .after_help(HELP)
        .args(args)
}

/// `--name VALUE`
fn option<'a>(alloc: Global, name: &'a str, value: &'a str, help: &'a str) -> Arg<'a> {
    Arg::new(alloc, name)
        .long(name)
        .value_name(value)
        .help(help)
}

/// `--name`
fn flag<'a>(alloc: Global, name: &'a str, help: &'a str) -> Arg<'a> {
    Arg::new(alloc, name)
        .long(name)
        .action(ArgAction::SetTrue)
        .help(help)
}

fn refusal_of(alloc: Global, error: &Error) -> Refusal {
    let kind = error.kind();
    match error.to_string(alloc) {
        Err(_) => Refusal::Memory,
        Ok(_) if kind == ErrorKind::OutOfMemory => Refusal::Memory,
        Ok(text) if kind == ErrorKind::DisplayHelp => Refusal::Help(text),
        Ok(text) => Refusal::Usage(text),
    }
}

/// What is lost, by its word.
fn loss_of(word: Option<&str>) -> Result<Option<Loss>, Refusal> {
    let Some(word) = word else {
        return Ok(None);
    };
    for (name, loss) in LOSSES {
        if name == word {
            return Ok(Some(loss));
        }
    }
    Err(Refusal::BadValue("--loss"))
}

/// The number that a word has, within bounds, or the one that stands for none; `None` for a wrong one.
fn value(matches: &ArgMatches<'_>, id: &str, none: u64, least: u64, most: u64) -> Option<u64> {
    match matches.get_str(id) {
        None => Some(none),
        Some(text) => within(text, least, most),
    }
}

/// The number of one or more decimal digits, within bounds.
fn within(text: &str, least: u64, most: u64) -> Option<u64>
    ensures { SomeIff result (IsNumberWithin least most text.now) (digits_value 10 text.now) }
{
    if text.is_empty() {
        return None;
    }
    let value = number(text.as_bytes(), 10)?;
    if least <= value && value <= most {
        Some(value)
    } else {
        None
    }
}

/// The numbers of a list, each 1 or more, with commas between them.
fn numbers(alloc: Global, list: Option<&str>) -> Result<Vec<u64>, Refusal> {
    let mut numbers = Vec::new(alloc);
    let Some(list) = list else {
        return Ok(numbers);
    };
    for text in list.split(',') {
        match within(text, 1, u64::MAX) {
            Some(number) => numbers.push(number).map_err(|_| Refusal::Memory)?,
            None => return Err(Refusal::BadValue("--lose")),
        }
    }
    Ok(numbers)
}
