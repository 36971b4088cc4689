//! The command `grid`: its words, and how it is performed.
ghost use Rattle.std.specs.Prelude.{◌≡◌, ◌≢◌, ◌⊎◌, ◌≤◌, ◌↔◌, ◌∷◌, [], IfSome, IsSome, None, OnOk, codes, false, length, true, unwrap_or};
ghost use Rattle.std.specs.Option.{SomeIff};
ghost use Rattle.clap.specs.Words.{first_value, found_of};
ghost use Rattle.j39_io.specs.Turn.{turn};
ghost use Rattle.j39_listen.specs.Asking.{AsksForBoxes};
ghost use Rattle.j39_listen.specs.Ran.{Ran};
ghost use Rattle.j39_grid.specs.GridRun.{MakesGrid};
ghost use Rattle.j39_cli.specs.Answer.{IsReadAs};
ghost use Rattle.j39_cli.specs.CommandWords.{IsAnswered, command_found};
ghost use Rattle.j39_cli.specs.Every.{IsSpan};
ghost use Rattle.j39_cli.specs.GridCommand.{IsEvery, IsGridRun, columns_check, every_check, every_in, grid_app, subject_in};
ghost use Rattle.j39_cli.specs.LogCommand.{log_limit};
ghost use Rattle.j39_cli.specs.Rules.{IsMade};
ghost use Rattle.j39_cli.specs.Seconds.{seconds_value};

use crate::command::{new_command, with_option};
use crate::log::{LOG_LIMIT, copy_of, tell_end, tell_fault};
use crate::options::{RowOptions, rows_given, with_rows};
use crate::seconds::micros_of;
use crate::{Argument, ParseFault, Spns, Task};
use clap::{ArgMatches, Command};
use j39_grid::{GridAsked, GridWanted};
use j39_groups::Groups;
use j39_io::{Sink, Source};
use j39_listen::{Counts, RunFault, Wanted};
use std::alloc::{AllocError, Global};
use std::marker::Model;

/// How long the spans of a grid are, in microseconds: to a day.
#[derive(Drop)]
pub struct Every {
    micros: u64,
}

impl Model for Every {
    ghost use Rattle.std.specs.Prelude.{ℕ};
    ghost use Rattle.j39_cli.specs.Every.{IsSpan};

    ghost Value = { ℕ };

    ghost view = { λ every. every.micros };

    ghost invariant = { λ every. IsSpan every.micros };
}

impl Every {
    /// A second.
    const SECOND: u64 = 1_000_000;

    /// A day.
    const LONGEST: u64 = 86_400_000_000;

    /// Spans of so many microseconds; `None` for none, and for more than a day.
    pub fn new(micros: u64) -> Option<Every>
        ensures known { IsSome result ↔ IsSpan micros }
        ensures value { IfSome result (λ every. every ≡ micros) }
    {
        if 0 < micros && micros <= Self::LONGEST {
            Some(Every { micros })
        } else {
            None
        }
    }

    /// The microseconds.
    pub fn micros(&self) -> u64
        ensures value { result ≡ self.now }
        ensures in_range { IsSpan self.now }
    {
        self.micros
    }
}

/// What `grid` is told.
#[derive(Drop)]
pub struct GridOptions<'a> {
    /// Which log, what is asked for of it, and how it is written.
    pub rows: RowOptions<'a>,
    /// How long a row's span is.
    pub every: Every,
}

const ABOUT: &str = "\
Writes one line for each span of time in which a parameter that --spn asks for has a
value: the time at which the span begins, and for each parameter, in their order, the
last value in it, a number without its unit, or - if none came. A text stands in no
column. Spans have the seconds that --every says; they follow one another from 1
January 1970 on. With --csv the columns are called as the table calls the parameters:
for a spreadsheet, or a plot. If several controllers send one parameter, --from
chooses.";

const HELP: &str = "\
At the end the counts go to standard error, as those of `j1939 report`; lines are
those of the grid.

Example:
  j1939 grid --every 0.5 --spn 190,110 trip.log
writes lines such as
  (1700000000.500000) 1500.125 90";

/// What clap is told of it.
pub(crate) fn command<'a>(alloc: Global) -> Result<Command<'a>, AllocError>
    ensures { IsMade result grid_app }
{
    let about = "Writes a row for each span of time, a column for each parameter";
    let command = new_command(alloc, "grid", about, ABOUT, HELP);
    let help = "How many seconds a row stands for, 0.000001 to 86400; without it, 1";
    let command = with_option(alloc, command, "every", "S", false, help);
    let help =
        "The parameters of the columns, which must be given: 1 to 32 SPNs, with commas between them";
    with_rows(alloc, command, help)
}

/// The task that its words ask for.
pub(crate) fn task<'a>(alloc: Global, given: &ArgMatches<'a>) -> Result<Task<'a>, ParseFault>
    ensures { IsAnswered (command_found (codes "grid") (found_of given.now)) result }
{
    let every = every_value(given)?;
    has_columns(given)?;
    match rows_given(alloc, given) {
        Ok(rows) => Ok(Task::Grid(GridOptions { rows, every })),
        Err(fault) => Err(fault),
    }
}

/// How long spans are: a second, if nothing is said.
fn every_value(given: &ArgMatches<'_>) -> Result<Every, ParseFault>
    ensures { IsReadAs (every_check (first_value (found_of given.now) (codes "every")) ∷ [])
        (λ every. every ≡ every_in (first_value (found_of given.now) (codes "every"))) result }
{
    match given.get_str("every") {
        None => Ok(Every {
            micros: Every::SECOND,
        }),
        Some(text) => match every_of(text.as_bytes()) {
            Some(every) => Ok(every),
            None => Err(ParseFault::BadValue(Argument::Every)),
        },
    }
}

/// The span of so many seconds; `None` for other text.
fn every_of(text: &[u8]) -> Option<Every>
    ensures { SomeIff result (IsEvery text.now) (seconds_value text.now) }
{
    let micros = micros_of(text)?;
    Every::new(micros)
}

/// Parameters have to be asked for.
fn has_columns(given: &ArgMatches<'_>) -> Result<(), ParseFault>
    ensures { IsReadAs (columns_check (first_value (found_of given.now) (codes "spn")) ∷ []) (λ _. Unit {0}) result }
{
    match given.get_str("spn") {
        None => Err(ParseFault::BadValue(Argument::Spn)),
        Some(_) => Ok(()),
    }
}

/// Performs it by a table's rows of the parameters that are asked for: the grid goes to `sink`, the counts or what failed to
/// `err`.
#[inline(never)]
pub(crate) fn perform<R: Source, W: Sink, E: Sink>(
    alloc: Global,
    groups: &Groups<'_>,
    options: &GridOptions<'_>,
    source: &mut R,
    sink: &mut W,
    err: &mut E,
) -> u8
    ensures run { IsGridRun options.now groups.now result
        (turn R.remaining R.has_failed source.old source.new)
        (turn W.written W.has_failed sink.old sink.new)
        (turn E.written E.has_failed err.old err.new) }
    ensures status { (result ≡ 0) ⊎ (result ≡ 1) }
    ensures flushed { result ≡ 0 → W.is_flushed sink.new ≡ true }
    ensures passed_out { W.is_flushed sink.old ≡ true → W.has_failed sink.new ≡ false → W.is_flushed sink.new ≡ true }
    ensures passed_on { E.has_failed err.new ≡ false → E.is_flushed err.new ≡ true }
{
    let Some(spns) = &options.rows.asked.spns else {
        return tell_end(
            &options.rows.input.bus,
            run(alloc, groups, options, source, sink),
            err,
        );
    };
    match groups.restricted_to(alloc, spns.as_slice()) {
        Ok(kept) => tell_end(
            &options.rows.input.bus,
            run(alloc, &kept, options, source, sink),
            err,
        ),
        Err(AllocError) => tell_fault(RunFault::Memory, err),
    }
}

/// Reads a log, and writes the grid of what is asked for of its report by a table of parameters.
fn run<R: Source, W: Sink>(
    alloc: Global,
    groups: &Groups<'_>,
    options: &GridOptions<'_>,
    source: &mut R,
    sink: &mut W,
) -> Result<Counts, RunFault>
    ensures ran { Ran (MakesGrid (subject_in options.now groups.now)) AsksForBoxes options.now.rows.input.bus log_limit result
        (turn R.remaining R.has_failed source.old source.new) (turn W.written W.has_failed sink.old sink.new) }
    ensures flushed { OnOk result (W.is_flushed sink.new ≡ true) }
    ensures passed_out { W.is_flushed sink.old ≡ true → W.has_failed sink.new ≡ false → W.is_flushed sink.new ≡ true }
{
    let rows = &options.rows;
    let spns = columns_of(&rows.asked.spns);
    let asked = GridAsked::new(rows.format, options.every.micros(), spns).unwrap();
    let filter = rows.asked.filter_given();
    let wanted = Wanted { groups, filter };
    let bus = copy_of(&rows.input.bus);
    let gridded = GridWanted { wanted, asked };
    j39_grid::grid(alloc, gridded, source, sink, bus, LOG_LIMIT)
}

/// The parameters of the columns.
pub(crate) fn columns_of(spns: &Option<Spns>) -> &[u32]
    ensures value { result.now ≡ unwrap_or spns.now [] }
    ensures few { length result.now ≤ 32 }
{
    match spns {
        Some(spns) => spns.as_slice(),
        None => &[],
    }
}
