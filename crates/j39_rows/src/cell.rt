//! What stands in a row.
ghost use Rattle.std.specs.Prelude.{◌≡◌, option_map};
ghost use Rattle.j39_frame.specs.Stamp.{stamp_micros};
ghost use Rattle.j39_rows.specs.Models.{cell_of, column_of};
ghost use Rattle.j39_rows.specs.Row.{address_cell, name_cell, name_column, number_cell, or_nothing, seconds_cell, text, text_or_nothing, utc_cell};

use j39_frame::Stamp;

/// What stands as it is in lines and records.
#[derive(Clone, Copy)]
pub enum Plain<'a> {
    Number(u64),
    /// A number in units of its last place, and how many places it has.
    Scaled(i64, u8),
    /// A number of microseconds, in seconds.
    Micros(u64),
    /// Bytes that need no quotes in a record, and no escape in an object.
    Word(&'a [u8]),
    /// A moment in seconds; in lines by their clock.
    Seconds(Stamp),
    /// A moment in UTC.
    Utc(Stamp),
    /// An address in two hex digits.
    Address(u8),
    /// A NAME in sixteen hex digits.
    Name(u64),
}

/// What stands in a column.
#[derive(Clone, Copy)]
pub enum Cell<'a> {
    /// Nothing: in a line what its place has for that, in a record an empty field, in an object `null`.
    Nothing,
    /// The same, but in a line these bytes.
    Aside(&'a [u8]),
    Is(Plain<'a>),
    /// Any bytes: a field of a record, a string of an object.
    Text(&'a [u8]),
    /// What a controller sent as a text: in quotes in a line; in an object its bytes stand beside it where it isn't UTF-8.
    Sent(&'a [u8]),
}

/// Where a column stands in lines.
#[derive(Clone, Copy)]
pub enum Place<'a> {
    /// Behind the first bytes; the second stand for nothing.
    Always(&'a [u8], &'a [u8]),
    /// Behind these bytes, where there is something.
    IfAny(&'a [u8]),
}

/// A column of a row, with what stands in it: its name, which records and objects have, and its place, which lines have.
#[derive(Clone, Copy)]
pub enum Column<'a> {
    /// In each form.
    All(&'a [u8], Place<'a>, Cell<'a>),
    /// In lines alone.
    InLines(Place<'a>, Cell<'a>),
    /// In records and objects alone.
    BesideLines(&'a [u8], Cell<'a>),
}

/// Behind a space, with a dash for nothing.
pub const DASH: Place<'static> = Place::Always(b" ", b"-");

impl Column<'static> {
    /// A NAME, or sixteen dashes in lines.
    pub fn name(name: Option<u64>) -> Column<'static>
        ensures { column_of result ≡ name_column name }
    {
        Column::All(
            b"name",
            Place::Always(b" ", b"----------------"),
            Cell::name(name),
        )
    }
}

/// What a row begins with: what its first column is called and what stands there, and columns behind it.
#[derive(Clone, Copy)]
pub struct Head<'a> {
    pub name: &'a [u8],
    pub first: Plain<'a>,
    pub columns: &'a [Column<'a>],
}

impl<'a> Cell<'a> {
    /// A number.
    pub fn number(number: u64) -> Cell<'a>
        ensures { cell_of result ≡ number_cell number }
    {
        Cell::Is(Plain::Number(number))
    }

    /// An address, or nothing.
    pub fn address(address: Option<u8>) -> Cell<'a>
        ensures { cell_of result ≡ or_nothing address_cell address }
    {
        match address {
            Some(address) => Cell::Is(Plain::Address(address)),
            None => Cell::Nothing,
        }
    }

    /// A moment in seconds, or nothing.
    pub fn seconds(moment: Option<Stamp>) -> Cell<'a>
        ensures { cell_of result ≡ or_nothing seconds_cell (option_map stamp_micros moment) }
    {
        match moment {
            Some(moment) => Cell::Is(Plain::Seconds(moment)),
            None => Cell::Nothing,
        }
    }

    /// A moment in UTC, or nothing.
    pub fn utc(moment: Option<Stamp>) -> Cell<'a>
        ensures { cell_of result ≡ or_nothing utc_cell (option_map stamp_micros moment) }
    {
        match moment {
            Some(moment) => Cell::Is(Plain::Utc(moment)),
            None => Cell::Nothing,
        }
    }

    /// A NAME, or nothing.
    pub fn name(name: Option<u64>) -> Cell<'a>
        ensures { cell_of result ≡ or_nothing name_cell name }
    {
        match name {
            Some(name) => Cell::Is(Plain::Name(name)),
            None => Cell::Nothing,
        }
    }

    /// A text, or nothing for an empty one.
    pub fn text(text: &'a [u8]) -> Cell<'a>
        ensures { cell_of result ≡ text_or_nothing text.now }
    {
        if text.is_empty() {
            Cell::Nothing
        } else {
            Cell::Text(text)
        }
    }

    /// A text, if there is one.
    pub fn optional(bytes: Option<&'a [u8]>) -> Cell<'a>
        ensures { cell_of result ≡ or_nothing text (option_map (λ b. b.now) bytes.entry) }
    {
        match bytes {
            Some(bytes) => Cell::Text(bytes),
            None => Cell::Nothing,
        }
    }
}
