//! What a command line asks for, and why it may ask for nothing.
ghost use Rattle.std.specs.Prelude.{◌≡◌, ◌≢◌, ◌↔◌, [], IfOk, IfSome, IsSome, OnErr, Some, map, option_map};
ghost use Rattle.j39_frame.specs.Address.{IsAddress};
ghost use Rattle.j39_cli.specs.Answer.{argument_form, argument_text};
ghost use Rattle.j39_cli.specs.Task.{file_of, files_of, names_of, table_of};

use crate::{FaultOptions, GridOptions, Outgoing, RowOptions, Senders, WatchOptions};
use j39_address::Name;
use j39_fault_reports::Telling;
use j39_frame::{Id, is_address};
use j39_listen::Format;
use j39_log::Bus;
use std::alloc::{AllocError, Global};
use std::fmt;
use std::marker::Model;
use thiserror::Error;

/// A text that stands among the words.
#[derive(Drop)]
pub struct WordText<'a> {
    text: &'a str,
}

impl<'a> Model for WordText<'a> {
    ghost use Rattle.std.specs.Prelude.{ℕ, List};

    ghost Value = { List ℕ };

    ghost view = { λ word. word.text.now };
}

impl<'a> WordText<'a> {
    /// The text as one of the words.
    pub fn new(text: &'a str) -> WordText<'a>
        ensures { result ≡ text.entry.now }
    {
        WordText { text }
    }

    /// The text itself.
    pub fn as_str(&self) -> &'a str
        ensures { result.now ≡ self.now }
    {
        self.text
    }
}

/// An address of a controller, 0 to 253.
#[derive(Drop)]
pub struct Address {
    number: u8,
}

impl Model for Address {
    ghost use Rattle.std.specs.Prelude.{ℕ};
    ghost use Rattle.j39_frame.specs.Address.{IsAddress};

    ghost Value = { ℕ };

    ghost view = { λ address. address.number };

    ghost invariant = { λ address. IsAddress address.number };
}

impl Address {
    /// The address of this number; `None` from 254 up.
    pub fn new(number: u8) -> Option<Address>
        ensures known { IsSome result ↔ IsAddress number }
        ensures value { IfSome result (λ address. address ≡ number) }
    {
        if is_address(number) {
            Some(Address { number })
        } else {
            None
        }
    }

    /// Its number, 0 to 253.
    pub fn number(&self) -> u8
        ensures value { result ≡ self.now }
        ensures is_address { IsAddress self.now }
    {
        self.number
    }
}

/// Names of files that stand among the words, in their order.
#[derive(Drop)]
pub struct Files<'a> {
    names: Vec<&'a str>,
}

impl<'a> Model for Files<'a> {
    ghost use Rattle.std.specs.Prelude.{ℕ, List, map};

    ghost Value = { List (List ℕ) };

    ghost view = { λ files. map (λ name. name.now) files.names.items };
}

impl<'a> Files<'a> {
    /// These names, which stay where they are.
    pub fn new(alloc: Global, names: &[&'a str]) -> Result<Files<'a>, AllocError>
        ensures names { IfOk result (λ files. files ≡ map (λ name. name.now) names.now) }
        ensures memory { OnErr result (names.now ≢ []) }
    {
        if names.is_empty() {
            return Ok(Files {
                names: Vec::new(alloc),
            });
        }
        let names = Vec::from_slice(alloc, names)?;
        Ok(Files { names })
    }

    /// The names themselves.
    pub fn as_slice(&self) -> &[&'a str]
        ensures { map (λ name. name.now) result.now ≡ self.now }
    {
        self.names.as_slice()
    }
}

/// The log that a command reads.
#[derive(Drop)]
pub struct LogInput<'a> {
    /// The bus to read; `None` for that of the first frame.
    pub bus: Option<Bus>,
    /// Each FILE that is given, `-` for standard input; none for that alone.
    pub file: Files<'a>,
}

/// What is told of faults.
#[derive(Clone, Copy, Debug, PartialEq, Eq)]
pub enum FaultsTold {
    /// What messages say, one behind the other.
    InMessages(Telling),
    /// What is there at the end of the log.
    Now,
}

/// What is told of the addresses after a log.
#[derive(Clone, Copy, Debug, PartialEq, Eq)]
pub enum NodesTold {
    /// Who holds which, a line each.
    Held,
    /// Also when its holder claimed it last, when a frame came last from there, and who talks at one that nobody holds.
    Seen {
        /// How they are written.
        format: Format,
        /// The least silence that is told, in microseconds.
        silence: u64,
    },
}

/// A command with its values.
#[derive(Drop)]
pub enum Task<'a> {
    /// The report of a log.
    Report(RowOptions<'a>),
    /// The summary of a log.
    Summary(RowOptions<'a>),
    /// The grid of a log's report.
    Grid(GridOptions<'a>),
    /// The fault codes in a log.
    Faults(FaultOptions<'a>),
    /// Who holds which address after a log.
    Nodes {
        /// The log to read.
        input: LogInput<'a>,
        /// The file of names of one's own, as of faults.
        names: Option<WordText<'a>>,
        /// The senders that are asked for; `None` for all.
        from: Option<Senders>,
        /// What is told of them.
        told: NodesTold,
        /// Whether lines have a head.
        has_head: bool,
    },
    /// What a node would send, had it been on the bus of a log.
    Answer {
        /// The node's NAME.
        name: Name,
        /// The address that it starts with.
        address: Address,
        /// The log to read.
        input: LogInput<'a>,
    },
    /// What a log is.
    Survey {
        /// The log to read.
        input: LogInput<'a>,
        /// The file of the table, as of a report.
        table: Option<WordText<'a>>,
        /// The file of names of one's own, as of faults.
        names: Option<WordText<'a>>,
        /// How it is written.
        format: Format,
    },
    /// What a log is, at each half second.
    Watch(WatchOptions<'a>),
    /// The fields of an identifier.
    Id(Id),
    /// The fields of a NAME.
    Name(Name),
    /// The frames of a message.
    Cut(Outgoing),
    /// The parameters that a report may hold: by the table of this file, or the built-in one.
    Groups(Option<WordText<'a>>),
}

impl<'a> Task<'a> {
    /// Each FILE; none where it isn't given, or the command reads no log.
    pub fn files(&self) -> &[&'a str]
        ensures { map (λ name. name.now) result.now ≡ files_of self.now }
    {
        match self {
            Task::Report(options) => options.input.file.as_slice(),
            Task::Summary(options) => options.input.file.as_slice(),
            Task::Grid(options) => options.rows.input.file.as_slice(),
            Task::Faults(options) => options.rows.input.file.as_slice(),
            Task::Nodes { input, .. } => input.file.as_slice(),
            Task::Answer { input, .. } => input.file.as_slice(),
            Task::Survey { input, .. } => input.file.as_slice(),
            Task::Watch(options) => options.input.file.as_slice(),
            _ => &[],
        }
    }

    /// The first FILE; `None` where none is given, or the command reads no log.
    pub fn file(&self) -> Option<&'a str>
        ensures { option_map (λ text. text.now) result ≡ file_of self.now }
    {
        match self.files() {
            [first, ..] => Some(*first),
            [] => None,
        }
    }

    /// The file of the table of parameters, `--table`; `None` where it isn't given, or the command takes none.
    pub fn table(&self) -> Option<&'a str>
        ensures { option_map (λ text. text.now) result ≡ table_of self.now }
    {
        match self {
            Task::Report(options) => text_of(&options.table),
            Task::Summary(options) => text_of(&options.table),
            Task::Grid(options) => text_of(&options.rows.table),
            Task::Faults(options) => text_of(&options.rows.table),
            Task::Survey { table, .. } => text_of(table),
            Task::Watch(options) => text_of(&options.table),
            Task::Groups(table) => text_of(table),
            _ => None,
        }
    }

    /// The file of names of one's own, `--names`; `None` where it isn't given, or the command takes none.
    pub fn names(&self) -> Option<&'a str>
        ensures { option_map (λ text. text.now) result ≡ names_of self.now }
    {
        match self {
            Task::Faults(options) => text_of(&options.names),
            Task::Nodes { names, .. } => text_of(names),
            Task::Survey { names, .. } => text_of(names),
            Task::Watch(options) => text_of(&options.names),
            _ => None,
        }
    }
}

fn text_of<'a>(word: &Option<WordText<'a>>) -> Option<&'a str>
    ensures { option_map (λ text. text.now) result ≡ word.now }
{
    match word {
        Some(word) => Some(word.as_str()),
        None => None,
    }
}

/// An argument that takes a value.
#[derive(Clone, Copy, Debug, PartialEq, Eq)]
pub enum Argument {
    /// `--bus`, the interface to read.
    Bus,
    /// `--name`, a node's NAME.
    Name,
    /// `--address`, a node's address.
    Address,
    /// `--source`, the address that a message is sent from.
    Source,
    /// `--pgn` of `cut`, the parameter group of a message.
    Pgn,
    /// `--at`, the stamp of a message's first frame.
    At,
    /// HEX, hex digits that stand alone.
    Hex,
    /// `--pgn`, the groups that are asked for.
    Pgns,
    /// `--spn`, the parameters that are asked for.
    Spn,
    /// `--from`, the senders that are asked for.
    From,
    /// `--to`, the destinations that are asked for.
    To,
    /// `--since`, the first moment that is asked for.
    Since,
    /// `--until`, the last one.
    Until,
    /// `--every`, how long the spans of a grid are.
    Every,
    /// `--silent`, the least silence that is told.
    Silent,
    /// `--conversion`, the versions by which SPNs are read.
    Conversion,
    /// `--rows`, how many rows the terminal has.
    Rows,
    /// `--width`, how many columns.
    Width,
    /// Two of `--all`, `--changes` and `--now`, which don't go together.
    Together,
    /// Two of `--csv`, `--json` and `--utc`, which don't.
    Forms,
}

impl Argument {
    /// The argument as help spells it.
    pub(crate) fn text(self) -> &'static str
        ensures { result.now ≡ argument_text self }
    {
        match self {
            Argument::Bus => "--bus",
            Argument::Name => "--name",
            Argument::Address => "--address",
            Argument::Source => "--source",
            Argument::Pgn => "--pgn",
            Argument::Pgns => "--pgn",
            Argument::At => "--at",
            Argument::Hex => "HEX",
            Argument::Spn => "--spn",
            Argument::From => "--from",
            Argument::To => "--to",
            Argument::Since => "--since",
            Argument::Until => "--until",
            Argument::Every => "--every",
            Argument::Silent => "--silent",
            Argument::Conversion => "--conversion",
            Argument::Rows => "--rows",
            Argument::Width => "--width",
            Argument::Together => "--all, --changes, --now together",
            Argument::Forms => "--csv, --json, --utc together",
        }
    }

    /// What it takes, told where the value is wrong; `None` for those of which that line stands alone.
    pub(crate) fn form(self) -> Option<&'static str>
        ensures { option_map (λ form. form.now) result ≡ argument_form self }
    {
        let form = match self {
            Argument::Bus
            | Argument::Name
            | Argument::Address
            | Argument::Source
            | Argument::Pgn
            | Argument::At
            | Argument::Hex => return None,
            Argument::Pgns =>
                "--pgn takes up to 32 numbers below 262144 (decimal) with commas between, as 61444,65262",
            Argument::Spn =>
                "--spn takes up to 32 numbers below 524288 with commas between, as 190,110",
            Argument::From =>
                "--from takes up to 32 addresses (hex) or NAMEs (16 hex digits) with commas between, as 00,8000000001401234",
            Argument::To => "--to takes up to 32 addresses (hex) with commas between, as 0B,FF",
            Argument::Since =>
                "--since takes 1700000000.5, 2023-11-14T22:13:20Z, or +90 behind the first frame",
            Argument::Until =>
                "--until takes 1700000000.5, 2023-11-14T22:13:20Z, or +90 behind the first frame",
            Argument::Every => "--every takes seconds from 0.000001 to 86400, as 0.5",
            Argument::Silent => "--silent takes seconds, as 0.5",
            Argument::Conversion =>
                "--conversion takes versions from 1 to 3, as 2, or of NAMEs, as 8000000001401234=1,2",
            Argument::Rows => "--rows takes 2 to 1000",
            Argument::Width => "--width takes 20 to 512",
            Argument::Together => "one of --all, --changes and --now goes at a time",
            Argument::Forms => "one of --csv, --json and --utc goes at a time",
        };
        Some(form)
    }
}

impl fmt::Display for Argument {
    ghost output = { λ argument. Some (argument_text argument) };

    fn fmt<W: fmt::Write>(&self, f: &mut fmt::Formatter<W>) -> fmt::Result {
        f.write_str(self.text())
    }
}

/// Why there is no task.
#[derive(Debug, Drop, Error)]
pub enum ParseFault {
    /// Memory was refused.
    #[error("out of memory")]
    Memory,
    /// The words are no command; with what clap says of them.
    #[error("{0}")]
    Usage(String),
    /// The value of this argument is out of range.
    #[error("bad value for {0}")]
    BadValue(Argument),
    /// The words ask for help; with clap's text.
    #[error("{0}")]
    Help(String),
}
