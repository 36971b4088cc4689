//! The one writer of rows.
ghost use Rattle.std.specs.Prelude.{◌≡◌, ◌≤◌, ◌++◌, codes, decimal, length, map};
ghost use Rattle.std.specs.List.{flat_map};
ghost use Rattle.hex.specs.Hex.{encode_upper};
ghost use Rattle.j39_frame.specs.Stamp.{stamp_micros};
ghost use Rattle.j39_groups.specs.ValueText.{text_in_field};
ghost use Rattle.j39_io.specs.Puts.{Puts};
ghost use Rattle.j39_io.specs.Turn.{turn};
ghost use Rattle.j39_listen.specs.declared.format.Format.TheVariants.{Record};
ghost use Rattle.j39_rows.specs.Json.{bytes_under, string_text};
ghost use Rattle.j39_rows.specs.Members.{seconds_number};
ghost use Rattle.j39_rows.specs.Models.{cell_of, column_of, head_of, place_of, plain_of};
ghost use Rattle.j39_rows.specs.Row.{closing, column_text, field_behind, head_text, line_text, member_text, moment_text, object_text, opening, plain_text, row_text, seconds, shown_text, word};

use crate::cell::{Cell, Column, Head, Place, Plain};
use crate::json::{put_bytes_under, put_string};
use crate::parts::put_parts;
use crate::utc::utc_text;
use arrayvec::ArrayVec;
use j39_frame::Stamp;
use j39_groups::{Value, put_value, scaled_text};
use j39_io::printing::{push_bytes, push_hex, push_last_digits, push_number};
use j39_io::{DeviceFault, Sink, put_all, put_behind_comma};
use j39_listen::{Clock, Format};
use j39_log::{push_seconds, push_stamp};

/// A number, a moment, an address or a NAME.
pub type Short = ArrayVec<u8, 32>;

/// Writes a row in a form. After a fault a front of it was written.
#[tactic(auto, unfolding(crate::specs::Row::row_text))]
pub fn put_row<W: Sink>(
    form: Format,
    head: Head<'_>,
    columns: &[Column<'_>],
    sink: &mut W,
) -> Result<(), DeviceFault>
    ensures { Puts (row_text form (head_of head.entry) (map column_of columns.now)) result
        (turn W.written W.has_failed sink.old sink.new) }
{
    put_head(form, head, sink)?;
    put_columns(form, columns, sink)?;
    put_all(sink, closing(form))
}

/// Writes what a row begins with.
fn put_head<W: Sink>(form: Format, head: Head<'_>, sink: &mut W) -> Result<(), DeviceFault>
    ensures { Puts (head_text form (head_of head.entry)) result (turn W.written W.has_failed sink.old sink.new) }
{
    put_opening(form, head.name, sink)?;
    put_plain(form, head.first, sink)?;
    put_columns(form, head.columns, sink)
}

/// Writes what stands before the first column.
fn put_opening<W: Sink>(form: Format, name: &[u8], sink: &mut W) -> Result<(), DeviceFault>
    ensures { Puts (opening form name.now) result (turn W.written W.has_failed sink.old sink.new) }
{
    match form {
        Format::Line(_) => Ok(()),
        Format::Record => Ok(()),
        Format::Object => {
            let parts: [&[u8]; 3] = [b"{\"", name, b"\":"];
            put_parts(&parts, sink)
        }
    }
}

fn closing(form: Format) -> &'static [u8]
    ensures { result.now ≡ closing form }
{
    match form {
        Format::Line(_) => b"\n",
        Format::Record => b"\r\n",
        Format::Object => b"}\n",
    }
}

/// Writes columns behind the first of a row. After a fault a front of them was written.
pub fn put_columns<W: Sink>(
    form: Format,
    columns: &[Column<'_>],
    sink: &mut W,
) -> Result<(), DeviceFault>
    ensures { Puts (flat_map (column_text form) (map column_of columns.now)) result
        (turn W.written W.has_failed sink.old sink.new) }
{
    for column in columns {
        put_column(form, *column, sink)?;
    }
    Ok(())
}

/// Writes a column with what stands before it.
fn put_column<W: Sink>(form: Format, column: Column<'_>, sink: &mut W) -> Result<(), DeviceFault>
    ensures { Puts (column_text form (column_of column.entry)) result
        (turn W.written W.has_failed sink.old sink.new) }
{
    match (form, column) {
        (Format::Line(clock), Column::All(_, place, cell)) => {
            put_in_line(clock, place, cell, sink)
        }
        (Format::Line(clock), Column::InLines(place, cell)) => {
            put_in_line(clock, place, cell, sink)
        }
        (Format::Line(_), Column::BesideLines(_, _)) => Ok(()),
        (Format::Record, Column::All(_, _, cell)) => put_field(cell, sink),
        (Format::Record, Column::InLines(_, _)) => Ok(()),
        (Format::Record, Column::BesideLines(_, cell)) => put_field(cell, sink),
        (Format::Object, Column::All(name, _, cell)) => put_member(name, cell, sink),
        (Format::Object, Column::InLines(_, _)) => Ok(()),
        (Format::Object, Column::BesideLines(name, cell)) => put_member(name, cell, sink),
    }
}

#[tactic(auto, unfolding(crate::specs::Row::line_text))]
fn put_in_line<W: Sink>(
    clock: Clock,
    place: Place<'_>,
    cell: Cell<'_>,
    sink: &mut W,
) -> Result<(), DeviceFault>
    ensures { Puts (line_text clock (place_of place.entry) (cell_of cell.entry)) result
        (turn W.written W.has_failed sink.old sink.new) }
{
    match (place, cell) {
        (Place::Always(before, none), Cell::Nothing) => {
            let parts: [&[u8]; 2] = [before, none];
            put_parts(&parts, sink)
        }
        (Place::IfAny(_), Cell::Nothing) => Ok(()),
        (Place::Always(before, _), cell) => put_behind(clock, before, cell, sink),
        (Place::IfAny(before), cell) => put_behind(clock, before, cell, sink),
    }
}

/// Writes what stands before a cell in a line, and the cell.
fn put_behind<W: Sink>(
    clock: Clock,
    before: &[u8],
    cell: Cell<'_>,
    sink: &mut W,
) -> Result<(), DeviceFault>
    ensures { Puts (before.now ++ shown_text clock (cell_of cell.entry)) result
        (turn W.written W.has_failed sink.old sink.new) }
{
    put_all(sink, before)?;
    put_shown(clock, cell, sink)
}

#[tactic(auto, unfolding(j39_groups::specs::ValueText::value_text))]
fn put_shown<W: Sink>(clock: Clock, cell: Cell<'_>, sink: &mut W) -> Result<(), DeviceFault>
    ensures { Puts (shown_text clock (cell_of cell.entry)) result (turn W.written W.has_failed sink.old sink.new) }
{
    match cell {
        Cell::Nothing => Ok(()),
        Cell::Aside(bytes) => put_all(sink, bytes),
        Cell::Is(plain) => put_plain(Format::Line(clock), plain, sink),
        Cell::Text(bytes) => put_all(sink, bytes),
        Cell::Sent(bytes) => put_value(&Value::Text(bytes), sink),
    }
}

/// Writes a comma and a cell as a field of a record.
#[tactic(auto, unfolding(crate::specs::Row::field_behind))]
fn put_field<W: Sink>(cell: Cell<'_>, sink: &mut W) -> Result<(), DeviceFault>
    ensures { Puts (field_behind (cell_of cell.entry)) result (turn W.written W.has_failed sink.old sink.new) }
{
    match cell {
        Cell::Nothing => put_all(sink, b","),
        Cell::Aside(_) => put_all(sink, b","),
        Cell::Is(plain) => put_plain_field(plain, sink),
        Cell::Text(bytes) => put_behind_comma(bytes, sink),
        Cell::Sent(bytes) => put_sent_field(bytes, sink),
    }
}

fn put_plain_field<W: Sink>(plain: Plain<'_>, sink: &mut W) -> Result<(), DeviceFault>
    ensures { Puts (codes "," ++ plain_text Record (plain_of plain.entry)) result
        (turn W.written W.has_failed sink.old sink.new) }
{
    put_all(sink, b",")?;
    put_plain(Format::Record, plain, sink)
}

fn put_sent_field<W: Sink>(bytes: &[u8], sink: &mut W) -> Result<(), DeviceFault>
    ensures { Puts (codes "," ++ text_in_field bytes.now) result (turn W.written W.has_failed sink.old sink.new) }
{
    put_all(sink, b",")?;
    Value::Text(bytes).put_field(sink)
}

/// Writes a member of an object, behind another.
fn put_member<W: Sink>(name: &[u8], cell: Cell<'_>, sink: &mut W) -> Result<(), DeviceFault>
    ensures { Puts (member_text name.now (cell_of cell.entry)) result
        (turn W.written W.has_failed sink.old sink.new) }
{
    let key: [&[u8]; 3] = [b",\"", name, b"\":"];
    put_parts(&key, sink)?;
    put_in_object(name, cell, sink)
}

#[tactic(auto, unfolding(crate::specs::Row::object_text))]
fn put_in_object<W: Sink>(name: &[u8], cell: Cell<'_>, sink: &mut W) -> Result<(), DeviceFault>
    ensures { Puts (object_text name.now (cell_of cell.entry)) result
        (turn W.written W.has_failed sink.old sink.new) }
{
    match cell {
        Cell::Nothing => put_all(sink, b"null"),
        Cell::Aside(_) => put_all(sink, b"null"),
        Cell::Is(plain) => put_plain(Format::Object, plain, sink),
        Cell::Text(bytes) => put_string(bytes, sink),
        Cell::Sent(bytes) => put_sent_member(name, bytes, sink),
    }
}

/// Writes a text, and its bytes beside it where it isn't all UTF-8.
fn put_sent_member<W: Sink>(name: &[u8], bytes: &[u8], sink: &mut W) -> Result<(), DeviceFault>
    ensures { Puts (string_text bytes.now ++ bytes_under (name.now ++ codes "_bytes") bytes.now) result
        (turn W.written W.has_failed sink.old sink.new) }
{
    put_string(bytes, sink)?;
    put_bytes_under(name, b"_bytes", bytes, sink)
}

/// Writes what stands as it is, but for marks in an object.
fn put_plain<W: Sink>(form: Format, plain: Plain<'_>, sink: &mut W) -> Result<(), DeviceFault>
    ensures { Puts (plain_text form (plain_of plain.entry)) result (turn W.written W.has_failed sink.old sink.new) }
{
    match plain {
        Plain::Number(number) => put_all(sink, decimal_of(number).as_slice()),
        Plain::Scaled(number, places) => put_all(sink, scaled_text(number, places).as_slice()),
        Plain::Micros(micros) => put_all(sink, seconds_number(micros).as_slice()),
        Plain::Word(word) => put_word(form, word, sink),
        Plain::Seconds(stamp) => put_all(sink, seconds_of(form, stamp).as_slice()),
        Plain::Utc(stamp) => put_word(form, utc_text(stamp).as_slice(), sink),
        Plain::Address(address) => put_word(form, hex_of(&[address]).as_slice(), sink),
        Plain::Name(name) => put_word(form, hex_of(&name.to_be_bytes()).as_slice(), sink),
    }
}

fn put_word<W: Sink>(form: Format, bytes: &[u8], sink: &mut W) -> Result<(), DeviceFault>
    ensures { Puts (plain_text form (word bytes.now)) result (turn W.written W.has_failed sink.old sink.new) }
{
    match form {
        Format::Line(_) => put_all(sink, bytes),
        Format::Record => put_all(sink, bytes),
        Format::Object => {
            let parts: [&[u8]; 3] = [b"\"", bytes, b"\""];
            put_parts(&parts, sink)
        }
    }
}

#[tactic(auto, using(crate::proofs::NumberLemmas::short_decimal))]
fn decimal_of(number: u64) -> Short
    ensures { result.items ≡ decimal number }
{
    let mut text = ArrayVec::new();
    push_number(&mut text, number);
    text
}

fn seconds_of(form: Format, stamp: Stamp) -> Short
    ensures { result.items ≡ plain_text form (seconds (stamp_micros stamp)) }
{
    match form {
        Format::Line(clock) => moment_text(clock, stamp),
        Format::Record => {
            let mut text = ArrayVec::new();
            push_seconds(&mut text, stamp.micros());
            text
        }
        Format::Object => seconds_number(stamp.micros()),
    }
}

/// A moment as a line tells it by its clock.
pub fn moment_text(clock: Clock, stamp: Stamp) -> Short
    ensures { result.items ≡ moment_text clock (stamp_micros stamp) }
{
    let mut text = ArrayVec::new();
    match clock {
        Clock::Seconds => push_stamp(&mut text, stamp),
        Clock::Utc => push_bytes(&mut text, utc_text(stamp).as_slice()),
    }
    text
}

/// A number of microseconds, in seconds.
#[tactic(auto, unfolding(j39_groups::specs::ValueText::magnitude_text), using(crate::proofs::NumberLemmas::short_decimal))]
fn seconds_number(micros: u64) -> Short
    ensures { result.items ≡ seconds_number micros }
{
    let mut text = ArrayVec::new();
    push_number(&mut text, micros / 1_000_000);
    text.push(b'.');
    push_last_digits(&mut text, 6, micros);
    text
}

fn hex_of(bytes: &[u8]) -> Short
    requires { length bytes.now ≤ 16 }
    ensures { result.items ≡ encode_upper bytes.now }
{
    let mut text = ArrayVec::new();
    push_hex(&mut text, bytes);
    text
}
