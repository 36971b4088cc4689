//! Why a line of a table, or of names, is refused.
ghost use Rattle.std.specs.Prelude.{◌≡◌};
ghost use Rattle.j39_table.specs.FaultWords.{name_fault_words, row_fault_words};

use std::fmt;
use thiserror::Error;

/// The first column of a line with which no row goes on.
#[derive(Clone, Copy, Debug, PartialEq, Eq)]
pub enum RowFault {
    /// The first column is no group (PGN) that a table may list.
    Pgn,
    /// The second column is no short name of a group.
    Group,
    /// The third column is no parameter's number (SPN).
    Spn,
    /// The fourth column is no place in a payload.
    Place,
    /// The fifth column is no step, or none of this place.
    Step,
    /// The sixth column is no offset, or none of this place and step.
    Offset,
    /// The seventh column is no unit, or none of this place.
    Unit,
    /// The line has no name.
    Name,
    /// What stands behind the name and ` = ` is no list of states, or none of this place.
    States,
}

impl RowFault {
    /// What is said of it.
    pub fn words(self) -> &'static str
        ensures { result.now ≡ row_fault_words self }
    {
        match self {
            RowFault::Pgn => "no PGN",
            RowFault::Group => "no group",
            RowFault::Spn => "no SPN",
            RowFault::Place => "no place",
            RowFault::Step => "no step",
            RowFault::Offset => "no offset",
            RowFault::Unit => "no unit",
            RowFault::Name => "no name",
            RowFault::States => "no states",
        }
    }
}

impl fmt::Display for RowFault {
    ghost use Rattle.std.specs.Prelude.{Some};
    ghost use Rattle.j39_table.specs.FaultWords.{row_fault_words};

    ghost output = { λ fault. Some (row_fault_words fault) };

    fn fmt<W: fmt::Write>(&self, f: &mut fmt::Formatter<W>) -> fmt::Result {
        f.write_str(self.words())
    }
}

/// Why a line of names is refused, by the first of these that it is.
#[derive(Clone, Copy, Debug, PartialEq, Eq)]
pub enum NameFault {
    /// The first word is no kind of number.
    Kind,
    /// The second word is no number of this kind.
    Number,
    /// No name stands behind the number.
    Name,
    /// A line before names this number.
    Twice,
}

impl NameFault {
    /// What is said of it.
    pub fn words(self) -> &'static str
        ensures { result.now ≡ name_fault_words self }
    {
        match self {
            NameFault::Kind => "no kind",
            NameFault::Number => "no number of its kind",
            NameFault::Name => "no name",
            NameFault::Twice => "named before",
        }
    }
}

impl fmt::Display for NameFault {
    ghost use Rattle.std.specs.Prelude.{Some};
    ghost use Rattle.j39_table.specs.FaultWords.{name_fault_words};

    ghost output = { λ fault. Some (name_fault_words fault) };

    fn fmt<W: fmt::Write>(&self, f: &mut fmt::Formatter<W>) -> fmt::Result {
        f.write_str(self.words())
    }
}

/// Why a table is refused, or names of one's own are. Lines count from 1.
#[derive(Clone, Copy, Debug, PartialEq, Eq, Error)]
pub enum TableFault {
    /// The line of this number is the first that is no comment and spells no row, by its first wrong column.
    #[error("line {0}: {1}")]
    Line(u32, RowFault),
    /// The line of this number is the first that is no comment and names no number that none before it names.
    #[error("line {0}: {1}")]
    Name(u32, NameFault),
    /// The line of this number comes behind 65,536 rows, and is no comment.
    #[error("line {0}: more than 65536 rows")]
    TooManyRows(u32),
    /// The table has more than 1,048,576 bytes.
    #[error("longer than 1048576 bytes")]
    TooLong,
    /// There is no memory for the rows.
    #[error("out of memory")]
    Memory,
}
