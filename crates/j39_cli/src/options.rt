//! What the commands are told that read a log by a table and write rows.
ghost use Rattle.std.specs.Prelude.{◌≡◌, ◌≢◌, [], Err, codes};
ghost use Rattle.clap.specs.Words.{App, found_of};
ghost use Rattle.j39_cli.specs.Answer.{AreChecked, OrMemory};
ghost use Rattle.j39_cli.specs.Asked.{with_asked};
ghost use Rattle.j39_cli.specs.Form.{texts_found};
ghost use Rattle.j39_cli.specs.LogCommand.{with_forms, with_log};
ghost use Rattle.j39_cli.specs.RowOptions.{AreOptions, row_checks, rows_found};
ghost use Rattle.j39_cli.specs.Rules.{IsMade, with_head, with_table};

use crate::asked::{asked_value, with_asked};
use crate::command::with_table;
use crate::heads::with_head;
use crate::log::{with_forms, with_log};
use crate::words::{bus_value, format_value, is_set, log_input};
use crate::{Asked, Conversions, FaultsTold, LogInput, ParseFault, WordText};
use clap::{ArgMatches, Command};
use j39_listen::Format;
use std::alloc::{AllocError, Global};

/// What a command is told that reads a log by a table, and writes rows of what is asked for.
#[derive(Drop)]
pub struct RowOptions<'a> {
    /// The log to read.
    pub input: LogInput<'a>,
    /// The file of the table of parameters; `None` for the built-in one.
    pub table: Option<WordText<'a>>,
    /// What is asked for.
    pub asked: Asked,
    /// How it is written.
    pub format: Format,
    /// Whether lines have a head.
    pub has_head: bool,
}

/// What `faults` is told.
#[derive(Drop)]
pub struct FaultOptions<'a> {
    /// Which log, and what is asked for of it.
    pub rows: RowOptions<'a>,
    /// The file of names of one's own; `None` for none.
    pub names: Option<WordText<'a>>,
    /// By which versions of their conversion SPNs are read; `None` for none.
    pub conversions: Option<Conversions>,
    /// What is told of the faults.
    pub told: FaultsTold,
}

/// The command with the arguments of rows, with this help for the parameters.
pub(crate) fn with_rows<'a>(
    alloc: Global,
    command: Result<Command<'a>, AllocError>,
    spns: &'a str,
) -> Result<Command<'a>, AllocError>
    ensures { (told : App) → IsMade command.entry told → IsMade result (with_log (with_forms (with_head (with_asked (with_table told))))) }
{
    let command = with_asked(alloc, with_table(alloc, command), spns);
    with_log(alloc, with_forms(alloc, with_head(alloc, command)))
}

/// What the words of such a command say.
pub(crate) fn rows_given<'a>(
    alloc: Global,
    given: &ArgMatches<'a>,
) -> Result<RowOptions<'a>, ParseFault>
    ensures read { AreChecked (row_checks (rows_found (found_of given.now)))
        (OrMemory (AreOptions (rows_found (found_of given.now)))) result }
    ensures memory { result ≡ Err ParseFault.Memory → texts_found (found_of given.now) (codes "file") ≢ [] }
{
    let table = given.get_str("table").map(WordText::new);
    let bus = bus_value(given)?;
    let asked = asked_value(given)?;
    let format = format_value(given)?;
    match log_input(alloc, bus, given) {
        Ok(input) => Ok(RowOptions {
            input,
            table,
            asked,
            format,
            has_head: is_set(given, "head"),
        }),
        Err(fault) => Err(fault),
    }
}
