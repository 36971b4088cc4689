//! The command `watch`: its words.
ghost use Rattle.std.specs.Prelude.{◌≡◌, ◌≤◌, ◌-◌, ◌↔◌, ◌⊎◌, ◌∷◌, [], IfOk, IfSome, IsSome, codes, false, if◌then◌else◌, option_map, true, unwrap_or};
ghost use Rattle.std.specs.Str.Parse.{digits_value};
ghost use Rattle.clap.specs.Words.{first_value, found_of};
ghost use Rattle.j39_io.specs.Turn.{turn};
ghost use Rattle.j39_listen.specs.Ran.{PassesOn, Ran};
ghost use Rattle.j39_listen.specs.declared.format.Clock.TheVariants.{Seconds, Utc};
ghost use Rattle.j39_names.specs.Naming.{naming_of};
ghost use Rattle.j39_watch.specs.NotesSoFar.{size_of};
ghost use Rattle.j39_watch.specs.Watch.{AsksForWatch, MakesWatch};
ghost use Rattle.j39_cli.specs.Answer.{IsReadAs, value_check};
ghost use Rattle.j39_cli.specs.Asked.{filter_in};
ghost use Rattle.j39_cli.specs.CommandWords.{IsAnswered, command_found};
ghost use Rattle.j39_cli.specs.LogCommand.{log_limit};
ghost use Rattle.j39_cli.specs.Numbers.{IsNumberIn};
ghost use Rattle.j39_cli.specs.Rules.{IsMade};
ghost use Rattle.j39_cli.specs.WatchCommand.{IsRows, IsScreenSize, IsWatchRun, IsWidth, watch_app};

use crate::asked::{asked_value, with_asked};
use crate::command::{new_command, with_flag, with_names, with_option, with_table};
use crate::cut_values::number_below;
use crate::log::{LOG_LIMIT, copy_of, tell_end, tell_fault, with_log};
use crate::words::{bus_value, is_set, log_input};
use crate::{Argument, Asked, LogInput, ParseFault, Task, WordText};
use clap::{ArgMatches, Command};
use j39_groups::Groups;
use j39_io::{Sink, Source};
use j39_listen::{Clock, Counts, RunFault};
use j39_names::Naming;
use j39_watch::{ScreenSize, Watched};
use std::alloc::{AllocError, Global};

const ABOUT: &str = "\
Draws a screen at the first frame of each half second of the log's stamps, and one
at the end, each over the one before: the stamp of the last frame, the active faults
and the last value of each parameter of the controllers that are on the bus. While
no frame comes, it stays as it is. A line of faults has the source address (hex), the
NAME, how long ago its last message came, and what `j1939 faults` says of it; that of
a value the address (with >destination), the NAME, the PGN, the SPN, the value, its
age by the stamps, how many came in the second before, and what the parameter is
called. On a terminal, unless NO_COLOR is set and not empty, faults are red while the
red stop lamp of their controller is on, else yellow while its amber warning lamp is,
and errors are yellow. Lines are cut at --width; where not all fit, the last says how
many more there are.";

const HELP: &str = "\
At the end the counts go to standard error, as those of `j1939 report`; lines are
those of the last screen.

Example:
  candump -L can0 | j1939 watch --rows $(tput lines) --width $(tput cols)
draws lines such as
  00    8000000001401234 61444  190    1500.125 rpm   0.0s   50/s  engine speed";

/// What `watch` is told.
#[derive(Drop)]
pub struct WatchOptions<'a> {
    /// The log to read.
    pub input: LogInput<'a>,
    /// The file of the table, as of a report.
    pub table: Option<WordText<'a>>,
    /// The file of names of one's own, as of faults.
    pub names: Option<WordText<'a>>,
    /// What is asked for; parameters of values alone.
    pub asked: Asked,
    /// How many lines a screen has, and how long they are.
    pub size: ScreenSize,
}

/// What clap is told of it.
pub(crate) fn command<'a>(alloc: Global) -> Result<Command<'a>, AllocError>
    ensures { IsMade result watch_app }
{
    let about = "Shows what a bus says now: faults and last values, in place";
    let command = with_table(alloc, new_command(alloc, "watch", about, ABOUT, HELP));
    let command = with_names(alloc, command);
    let help =
        "The parameters to show alone, beside faults: 1 to 32 SPNs, with commas between them";
    let command = with_asked(alloc, command, help);
    let help = "How many rows the terminal has, 2 to 1000; without it, LINES says so, or 24";
    let command = with_option(alloc, command, "rows", "N", false, help);
    let help = "How many columns it has, 20 to 512; without it, COLUMNS says so, or 80";
    let command = with_option(alloc, command, "width", "N", false, help);
    let help = "In colours, also where it is no terminal or NO_COLOR is set";
    let command = with_flag(alloc, command, "colour", help);
    let help = "With the time of the last frame in UTC, as 2023-11-14T22:13:20.250000Z";
    with_log(alloc, with_flag(alloc, command, "utc", help))
}

/// The task that its words ask for.
pub(crate) fn task<'a>(alloc: Global, given: &ArgMatches<'a>) -> Result<Task<'a>, ParseFault>
    ensures { IsAnswered (command_found (codes "watch") (found_of given.now)) result }
{
    let table = given.get_str("table").map(WordText::new);
    let names = given.get_str("names").map(WordText::new);
    let bus = bus_value(given)?;
    let asked = asked_value(given)?;
    let rows = number_value(given, "rows", Argument::Rows, 2, 1000)?;
    let width = number_value(given, "width", Argument::Width, 20, 512)?;
    let size = size_for(rows, width, is_set(given, "colour"), is_set(given, "utc"));
    match log_input(alloc, bus, given) {
        Ok(input) => Ok(Task::Watch(WatchOptions {
            input,
            table,
            names,
            asked,
            size,
        })),
        Err(fault) => Err(fault),
    }
}

/// The number of an argument from the least to the most, where it is given.
fn number_value(
    given: &ArgMatches<'_>,
    id: &str,
    argument: Argument,
    least: u16,
    most: u16,
) -> Result<Option<u16>, ParseFault>
    ensures read { IsReadAs (value_check (IsNumberIn least most) argument (first_value (found_of given.now) id.now) ∷ [])
        (λ n. n ≡ option_map (digits_value 10) (first_value (found_of given.now) id.now)) result }
    ensures in_range { IfOk result (λ n. IfSome n (λ n. (least ≤ n) × (n ≤ most))) }
{
    match given.get_str(id) {
        None => Ok(None),
        Some(text) => match number_in(text, least, most) {
            Some(number) => Ok(Some(number)),
            None => Err(ParseFault::BadValue(argument)),
        },
    }
}

/// The number of decimal digits from the least to the most; `None` for other text.
fn number_in(text: &str, least: u16, most: u16) -> Option<u16>
    ensures known { IsSome result ↔ IsNumberIn least most text.now }
    ensures value { IfSome result (λ n. n ≡ digits_value 10 text.now) }
    ensures in_range { IfSome result (λ n. (least ≤ n) × (n ≤ most)) }
{
    let number = number_below(text.as_bytes(), u64::from(most) + 1)? as u16;
    if least <= number { Some(number) } else { None }
}

/// The screen of a terminal of so many rows and columns: the last row is left to the cursor, so that nothing scrolls.
fn size_for(rows: Option<u16>, width: Option<u16>, is_coloured: bool, is_utc: bool) -> ScreenSize
    requires rows { IfSome rows (λ n. (2 ≤ n) × (n ≤ 1000)) }
    requires width { IfSome width (λ n. (20 ≤ n) × (n ≤ 512)) }
    ensures size { size_of result ≡ record {
      rows = unwrap_or rows 24 - 1;
      width = unwrap_or width 80;
      is_coloured = is_coloured;
      clock = if is_utc then Utc else Seconds;
    } }
    ensures in_range { IsScreenSize (size_of result) }
{
    let rows = rows.unwrap_or(24);
    let width = width.unwrap_or(80);
    let clock = if is_utc { Clock::Utc } else { Clock::Seconds };
    ScreenSize::new(rows - 1, width, is_coloured, clock).unwrap()
}

/// Performs it by names and their table of parameters, or by its rows of those that are asked for: the screens go to `sink`, the counts or
/// what failed to `err`.
#[inline(never)]
pub(crate) fn perform<R: Source, W: Sink, E: Sink>(
    alloc: Global,
    naming: &Naming<'_, '_>,
    options: &WatchOptions<'_>,
    source: &mut R,
    sink: &mut W,
    err: &mut E,
) -> u8
    ensures run { IsWatchRun options.now (naming_of naming.now) naming.now.groups.now result
        (turn R.remaining R.has_failed source.old source.new)
        (turn W.written W.has_failed sink.old sink.new)
        (turn E.written E.has_failed err.old err.new) }
    ensures status { (result ≡ 0) ⊎ (result ≡ 1) }
    ensures flushed { result ≡ 0 → W.is_flushed sink.new ≡ true }
    ensures passed_out { W.is_flushed sink.old ≡ true → W.has_failed sink.new ≡ false → W.is_flushed sink.new ≡ true }
    ensures passed_on { E.has_failed err.new ≡ false → E.is_flushed err.new ≡ true }
{
    let Some(spns) = &options.asked.spns else {
        return tell_end(
            &options.input.bus,
            run(alloc, naming, naming.groups, options, source, sink),
            err,
        );
    };
    match naming.groups.restricted_to(alloc, spns.as_slice()) {
        Ok(kept) => tell_end(
            &options.input.bus,
            run(alloc, naming, &kept, options, source, sink),
            err,
        ),
        Err(AllocError) => tell_fault(RunFault::Memory, err),
    }
}

/// Reads a log, and draws what it is at each half second: of values, those of these groups.
fn run<R: Source, W: Sink>(
    alloc: Global,
    naming: &Naming<'_, '_>,
    groups: &Groups<'_>,
    options: &WatchOptions<'_>,
    source: &mut R,
    sink: &mut W,
) -> Result<Counts, RunFault>
    ensures ran { Ran (MakesWatch (naming_of naming.now) groups.now (filter_in options.now.asked) (size_of options.now.size))
        (AsksForWatch groups.now (filter_in options.now.asked)) options.now.input.bus log_limit result
        (turn R.remaining R.has_failed source.old source.new) (turn W.written W.has_failed sink.old sink.new) }
    ensures flushed { PassesOn result (W.is_flushed sink.old) (W.is_flushed sink.new) }
{
    let watched = Watched {
        naming: *naming,
        groups,
        filter: options.asked.filter_given(),
        size: options.size,
    };
    let bus = copy_of(&options.input.bus);
    j39_watch::watch(alloc, watched, source, sink, bus, LOG_LIMIT)
}
