//! The columns of a fault.
ghost use Rattle.std.specs.Prelude.{◌≡◌, codes, map, option_map};
ghost use Rattle.j39_address.specs.Name.{name_raw};
ghost use Rattle.j39_frame.specs.Stamp.{stamp_micros};
ghost use Rattle.j39_fault_reports.specs.FaultRows.{coded, lights_columns, message_columns, spn_cell, state_name, uncoded};
ghost use Rattle.j39_rows.specs.Row.{name_column};
ghost use Rattle.j39_rows.specs.Models.{cell_of, column_of, head_of};
ghost use Rattle.j39_rows.specs.Row.{number_cell, or_nothing, seconds};

use j39_address::Name;
use j39_faults::{Code, Parameter, State, fmi_words};
use j39_frame::Stamp;
use j39_listen::Heard;
use j39_rows::{Cell, Column, DASH, Head, Place, Plain};

/// Behind a space, where there is something.
const IF_ANY: Place<'static> = Place::IfAny(b" ");

/// What the rows of a message have behind its stamp: the same moment in UTC, the address, the destination and the NAME.
pub(crate) fn message_columns(heard: &Heard<'_>) -> [Column<'static>; 4]
    ensures { map column_of result ≡ message_columns (stamp_micros heard.now.message.stamp) heard.now.message.source
        heard.now.destination (option_map name_raw heard.now.name) }
{
    let message = &heard.message;
    sender_columns(message.stamp, message.source, heard.destination, heard.name)
}

/// The same of what an address sent at this moment.
pub(crate) fn sender_columns(
    stamp: Stamp,
    address: u8,
    destination: Option<u8>,
    name: Option<Name>,
) -> [Column<'static>; 4]
    ensures { map column_of result ≡ message_columns (stamp_micros stamp) address destination (option_map name_raw name) }
{
    [
        Column::BesideLines(b"utc", Cell::Is(Plain::Utc(stamp))),
        Column::All(b"address", DASH, Cell::Is(Plain::Address(address))),
        Column::All(
            b"destination",
            Place::IfAny(b">"),
            Cell::address(destination),
        ),
        Column::name(name.map(Name::raw)),
    ]
}

/// What the rows of a message of this moment begin with, of these columns.
pub(crate) fn moment_head<'a>(stamp: Stamp, columns: &'a [Column<'a>; 4]) -> Head<'a>
    ensures { head_of result ≡ record { name = codes "stamp"; first = seconds (stamp_micros stamp); columns = map column_of columns.now } }
{
    Head {
        name: b"stamp",
        first: Plain::Seconds(stamp),
        columns,
    }
}

/// What a line of lamps has behind what it begins with.
pub(crate) fn lights_columns(lamps: Cell<'_>) -> [Column<'_>; 7]
    ensures { map column_of result ≡ lights_columns (cell_of lamps.entry) }
{
    [
        Column::All(b"state", DASH, Cell::Is(Plain::Word(b"lamps"))),
        Column::BesideLines(b"spn", Cell::Nothing),
        Column::BesideLines(b"fmi", Cell::Nothing),
        Column::BesideLines(b"count", Cell::Nothing),
        Column::All(b"lamps", DASH, lamps),
        Column::BesideLines(b"parameter", Cell::Nothing),
        Column::BesideLines(b"meaning", Cell::Nothing),
    ]
}

/// What the column is called that tells the state of a code, or what became of it.
pub(crate) fn state_name(state: State) -> &'static [u8]
    ensures { result.now ≡ state_name state }
{
    match state {
        State::Is(_) => b"state",
        State::Became(_) => b"change",
    }
}

/// What is said where there is no code: a word for what, in lines another in the place of the SPN, the lamps, and what it means.
pub(crate) fn uncoded<'a>(
    name: &'a [u8],
    word: &'a [u8],
    spn: &'a [u8],
    lamps: Cell<'a>,
    meaning: &'a [u8],
) -> [Column<'a>; 7]
    ensures { map column_of result ≡ uncoded name.now word.now spn.now (cell_of lamps.entry) meaning.now }
{
    [
        Column::All(name, DASH, Cell::Is(Plain::Word(word))),
        Column::All(b"spn", DASH, Cell::Aside(spn)),
        Column::All(b"fmi", DASH, Cell::Nothing),
        Column::All(b"count", IF_ANY, Cell::Nothing),
        Column::BesideLines(b"lamps", lamps),
        Column::All(b"parameter", IF_ANY, Cell::Nothing),
        Column::BesideLines(b"meaning", Cell::Text(meaning)),
    ]
}

/// What is said of a code whose parameter is called so.
pub(crate) fn coded<'a>(
    name: &'a [u8],
    word: &'a [u8],
    lamps: Cell<'a>,
    parameter: &'a [u8],
    code: Code,
) -> [Column<'a>; 7]
    ensures { map column_of result ≡ coded name.now word.now (cell_of lamps.entry) parameter.now code }
{
    let meaning = fmi_words(code.fmi).as_bytes();
    [
        Column::All(name, DASH, Cell::Is(Plain::Word(word))),
        Column::All(b"spn", DASH, spn_cell(code.parameter)),
        Column::All(b"fmi", DASH, Cell::number(u64::from(code.fmi))),
        Column::All(b"count", DASH, count_cell(code.count)),
        Column::BesideLines(b"lamps", lamps),
        Column::All(b"parameter", IF_ANY, Cell::Text(parameter)),
        Column::All(b"meaning", Place::IfAny(b": "), Cell::Text(meaning)),
    ]
}

fn spn_cell(parameter: Parameter) -> Cell<'static>
    ensures { cell_of result ≡ spn_cell parameter }
{
    match parameter {
        Parameter::Known(spn) => Cell::number(u64::from(spn)),
        Parameter::OneOf(_) => Cell::Nothing,
    }
}

/// How often a code came, where that is available.
fn count_cell(count: Option<u8>) -> Cell<'static>
    ensures { cell_of result ≡ or_nothing number_cell count }
{
    match count {
        Some(count) => Cell::number(u64::from(count)),
        None => Cell::Nothing,
    }
}
