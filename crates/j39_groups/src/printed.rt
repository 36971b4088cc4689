//! A table of parameters, as it is printed (own).
ghost use Rattle.std.specs.Prelude.{◌≡◌, ◌+◌, ◌*◌, ◌≤◌, ◌<◌, ◌^◌, ◌++◌, ◌∷◌, [], codes, decimal, true};
ghost use Rattle.std.specs.List.{flat_map, list_all};
ghost use Rattle.arrayvec.specs.ArrayVec.{array_vec_len};
ghost use Rattle.j39_io.specs.Puts.{Puts};
ghost use Rattle.j39_io.specs.Turn.{turn};
ghost use Rattle.j39_groups.specs.Fields.{IsSound};
ghost use Rattle.j39_groups.specs.Models.{field_record, row_record, scale_record};
ghost use Rattle.j39_groups.specs.Printed.{bits_end, bits_text, bytes_or_bits_text, line_of_columns, mark, place_text, range_text, row_text, scale_columns, scale_text, slot_text};
ghost use Rattle.j39_groups.specs.Rows.{is_row};

use crate::field::Field;
use crate::row::Row;
use crate::slot::Slot;
use crate::text::{Text, scaled_text};
use arrayvec::ArrayVec;
use j39_io::printing::push_number;
use j39_io::{DeviceFault, Sink, put_all};

/// Writes a line for each row.
pub(crate) fn put_rows<W: Sink>(rows: &[Row<'_>], sink: &mut W) -> Result<(), DeviceFault>
    requires { list_all is_row rows.now ≡ true }
    ensures { Puts (flat_map (λ row. row_text (row_record row)) rows.now)
        result (turn W.written W.has_failed sink.old sink.new) }
{
    for row in rows {
        put_row(row, sink)?;
    }
    Ok(())
}

/// Writes a row's line.
fn put_row<W: Sink>(row: &Row<'_>, sink: &mut W) -> Result<(), DeviceFault>
    requires { is_row row.now ≡ true }
    ensures { Puts (row_text (row_record row.now)) result (turn W.written W.has_failed sink.old sink.new) }
{
    let place = place_of(row.field);
    let scale = scale_of(row.field);
    put_columns(
        row.pgn,
        row.group,
        row.spn,
        place.as_slice(),
        &scale,
        row.name,
        sink,
    )
}

/// The columns of a scale.
#[derive(Drop)]
struct ScaleTexts<'u> {
    /// What a raw step is worth.
    pub step: Text,
    /// The value of the raw number 0.
    pub offset: Text,
    pub unit: &'u [u8],
}

/// Writes a line of these columns.
fn put_columns<'x, W: Sink>(
    pgn: u32,
    group: &'x [u8],
    spn: u32,
    place: &'x [u8],
    scale: &'x ScaleTexts<'x>,
    name: &'x [u8],
    sink: &mut W,
) -> Result<(), DeviceFault>
    ensures { Puts (line_of_columns pgn group.now spn place.now (scale_columns scale.now.step.items scale.now.offset.items scale.now.unit.now) name.now)
        result (turn W.written W.has_failed sink.old sink.new) }
{
    let pgn = decimal_of(pgn);
    let spn = decimal_of(spn);
    let parts: [&[u8]; 16] = [
        pgn.as_slice(),
        b" ",
        group,
        b" ",
        spn.as_slice(),
        b" ",
        place,
        b" ",
        scale.step.as_slice(),
        b" ",
        scale.offset.as_slice(),
        b" ",
        scale.unit,
        b" ",
        name,
        b"\n",
    ];
    put_parts(&parts, sink)
}

pub(crate) fn put_parts<W: Sink>(parts: &[&[u8]], sink: &mut W) -> Result<(), DeviceFault>
    ensures { Puts (flat_map (λ part. part.now) parts.now) result (turn W.written W.has_failed sink.old sink.new) }
{
    for part in parts {
        put_all(sink, part)?;
    }
    Ok(())
}

/// A number in decimal.
pub fn decimal_of(number: u32) -> ArrayVec<u8, 32>
    ensures { result.items ≡ decimal number }
{
    let mut text = ArrayVec::new();
    push_decimal(&mut text, number);
    text
}

/// Appends a number in decimal, of ten digits at most.
pub fn push_decimal(text: &mut ArrayVec<u8, 32>, number: u32)
    requires { array_vec_len text.old + 10 ≤ 32 }
    ensures items { text.new.items ≡ text.old.items ++ decimal number }
    ensures len { array_vec_len text.new ≤ array_vec_len text.old + 10 }
{
    push_number(text, u64::from(number));
}

/// Where a field stands, in bytes and bits that count from 1.
fn place_of(field: Field<'_>) -> ArrayVec<u8, 32>
    requires { IsSound field }
    ensures { result.items ≡ place_text (field_record field.entry) }
{
    match field {
        Field::Number { first, last, .. } => bytes_place(first, u16::from(last)),
        Field::Bits {
            byte,
            low,
            count,
            ..
        } => bits_place(byte, low, count),
        Field::Full {
            byte,
            low,
            count,
            is_signed,
            ..
        } => full_place(byte, low, count, is_signed),
        Field::Switch { byte, low, high } => switch_place(byte, low, high),
        Field::Text { part } => part_place(part),
        Field::Texts { byte, .. } => parts_place(byte),
    }
}

fn bytes_place(first: u8, last: u16) -> ArrayVec<u8, 32>
    ensures items { result.items ≡ range_text first last }
    ensures len { array_vec_len result ≤ 31 }
{
    let mut text = ArrayVec::new();
    push_short(&mut text, u16::from(first));
    if u16::from(first) != last {
        text.push(b'-');
        push_short(&mut text, last);
    }
    text
}

fn switch_place(byte: u8, low: u8, high: u8) -> ArrayVec<u8, 32>
    ensures { result.items ≡ decimal byte ++ codes "." ++ range_text low high }
{
    let mut text = ArrayVec::new();
    push_decimal(&mut text, u32::from(byte));
    text.push(b'.');
    push_range(&mut text, low, high);
    text
}

fn part_place(part: u8) -> ArrayVec<u8, 32>
    ensures { result.items ≡ codes "*" ++ decimal part }
{
    let mut text = ArrayVec::new();
    text.push(b'*');
    push_decimal(&mut text, u32::from(part));
    text
}

fn parts_place(byte: u8) -> ArrayVec<u8, 32>
    ensures { result.items ≡ decimal byte ++ codes "-" }
{
    let mut text = ArrayVec::new();
    push_decimal(&mut text, u32::from(byte));
    text.push(b'-');
    text
}

/// Appends two numbers with `-` between, or one where they are the same.
pub fn push_range(text: &mut ArrayVec<u8, 32>, first: u8, last: u8)
    requires { array_vec_len text.old + 21 ≤ 32 }
    ensures items { text.new.items ≡ text.old.items ++ range_text first last }
    ensures len { array_vec_len text.new ≤ array_vec_len text.old + 21 }
{
    push_decimal(text, u32::from(first));
    if first != last {
        text.push(b'-');
        push_decimal(text, u32::from(last));
    }
}

/// So many bits from the bit `low` of a byte on.
fn bits_place(byte: u8, low: u8, count: u8) -> ArrayVec<u8, 32>
    requires starts { 0 < low }
    requires ends { low ≤ 8 }
    requires some { 0 < count }
    requires narrow { count ≤ 32 }
    ensures items { result.items ≡ bits_text byte low (bits_end low count) }
    ensures len { array_vec_len result ≤ 31 }
{
    let last = u16::from(low + count - 2);
    let mut text = ArrayVec::new();
    push_short(&mut text, u16::from(byte));
    text.push(b'.');
    push_short(&mut text, u16::from(low));
    if last / 8 > 0 {
        text.push(b'-');
        push_short(&mut text, u16::from(byte) + last / 8);
        text.push(b'.');
        push_short(&mut text, last % 8 + 1);
    } else if last + 1 != u16::from(low) {
        text.push(b'-');
        push_short(&mut text, last + 1);
    }
    text
}

/// Bits with `s` or `u` behind, by bytes where they are whole ones.
fn full_place(byte: u8, low: u8, count: u8, is_signed: bool) -> ArrayVec<u8, 32>
    requires byte { 0 < byte }
    requires starts { 0 < low }
    requires ends { low ≤ 8 }
    requires some { 0 < count }
    requires narrow { count ≤ 32 }
    ensures { result.items ≡ bytes_or_bits_text byte low count ++ mark is_signed ∷ [] }
{
    let mut text = bytes_or_bits_place(byte, low, count);
    text.push(if is_signed { b's' } else { b'u' });
    text
}

fn bytes_or_bits_place(byte: u8, low: u8, count: u8) -> ArrayVec<u8, 32>
    requires byte { 0 < byte }
    requires starts { 0 < low }
    requires ends { low ≤ 8 }
    requires some { 0 < count }
    requires narrow { count ≤ 32 }
    ensures items { result.items ≡ bytes_or_bits_text byte low count }
    ensures len { array_vec_len result ≤ 31 }
{
    if low == 1 && count % 8 == 0 {
        bytes_place(byte, u16::from(byte) + u16::from(count) / 8 - 1)
    } else {
        bits_place(byte, low, count)
    }
}

/// Appends a number in decimal, of five digits at most.
fn push_short(text: &mut ArrayVec<u8, 32>, number: u16)
    requires { array_vec_len text.old + 5 ≤ 32 }
    ensures items { text.new.items ≡ text.old.items ++ decimal number }
    ensures len { array_vec_len text.new ≤ array_vec_len text.old + 5 }
{
    push_number(text, u64::from(number));
}

/// What a raw step is worth, the value of the raw number 0, and the unit; dashes where there is none.
fn scale_of(field: Field<'_>) -> ScaleTexts<'_>
    requires { IsSound field }
    ensures { scale_columns result.step.items result.offset.items result.unit.now
        ≡ scale_text (field_record field.entry) }
{
    match field {
        Field::Number { scale, .. } => scale_texts(scale),
        Field::Bits { scale, .. } => scale_texts(scale),
        Field::Full { scale, .. } => scale_texts(scale),
        Field::Switch { .. } => dashes(),
        Field::Text { .. } => dashes(),
        Field::Texts { .. } => dashes(),
    }
}

fn scale_texts(scale: Slot<'_>) -> ScaleTexts<'_>
    requires { scale.step < 2 ^ 63 }
    ensures { scale_columns result.step.items result.offset.items result.unit.now
        ≡ slot_text (scale_record scale.entry) }
{
    let step = scaled_text(scale.step as i64, scale.places);
    let offset = scaled_text(scale.offset, scale.places);
    ScaleTexts {
        step,
        offset,
        unit: scale.unit,
    }
}

fn dashes<'u>() -> ScaleTexts<'u>
    ensures { scale_columns result.step.items result.offset.items result.unit.now ≡ codes "- - -" }
{
    ScaleTexts {
        step: dash(),
        offset: dash(),
        unit: b"-",
    }
}

fn dash() -> Text
    ensures { result.items ≡ codes "-" }
{
    let mut text = ArrayVec::new();
    text.push(b'-');
    text
}
