//! The text of a value (own).
ghost use Rattle.std.specs.Prelude.{◌≡◌, ◌+◌, ◌*◌, ◌/◌, ◌%◌, ◌^◌, ◌<◌, ◌≤◌, ◌++◌, ◌∷◌, [], codes, true};
ghost use Rattle.std.specs.Io.KnownBytes.{Appends};
ghost use Rattle.std.specs.List.{flat_map};
ghost use Rattle.std.specs.Fmt.{decimal, digit_glyph};
ghost use Rattle.arrayvec.specs.ArrayVec.{array_vec_len};
ghost use Rattle.j39_io.specs.Puts.{Puts};
ghost use Rattle.j39_io.specs.Turn.{turn};
ghost use Rattle.j39_groups.specs.Models.{scale_record, value_of};
ghost use Rattle.j39_groups.specs.ValueText.{value_text, number_text, scaled_text, magnitude_text, byte_text, is_plain, quoted};

use crate::printed::put_parts;
use crate::slot::Slot;
use crate::value::Value;
use arrayvec::ArrayVec;
use j39_io::printing::{push_bytes, push_number};
use j39_io::{DeviceFault, Sink, put_all};

/// A sign, 20 digits, a point, 255 places, a space and a unit fit.
pub type Text = ArrayVec<u8, 288>;

/// Writes a value's text (own): a number in decimal with its places and unit, a word, or a text in
/// quotes. After a fault a front of the text was written.
#[tactic(auto, unfolding(crate::specs::ValueText::value_text))]
pub fn put_value<W: Sink>(value: &Value<'_, '_>, sink: &mut W) -> Result<(), DeviceFault>
    ensures { Puts (value_text (value_of value.now)) result (turn W.written W.has_failed sink.old sink.new) }
{
    match *value {
        Value::Number(number, scale) => put_number(number, scale, sink),
        Value::On => put_all(sink, b"on"),
        Value::Off => put_all(sink, b"off"),
        Value::Error => put_all(sink, b"error"),
        Value::Reserved => put_all(sink, b"reserved"),
        Value::Indicator => put_all(sink, b"indicator"),
        Value::Text(text) => put_quoted(text, sink),
    }
}

/// Writes a number in decimal with its places, a space and the unit.
fn put_number<W: Sink>(number: i64, scale: Slot<'_>, sink: &mut W) -> Result<(), DeviceFault>
    ensures { Puts (number_text number (scale_record scale.entry)) result (turn W.written W.has_failed sink.old sink.new) }
{
    let text = scaled_text(number, scale.places);
    put_spaced(text.as_slice(), scale.unit, sink)
}

/// Writes two texts with a space between.
fn put_spaced<'x, W: Sink>(text: &'x [u8], unit: &'x [u8], sink: &mut W) -> Result<(), DeviceFault>
    ensures { Puts (text.now ++ codes " " ++ unit.now) result (turn W.written W.has_failed sink.old sink.new) }
{
    let parts: [&[u8]; 3] = [text, b" ", unit];
    put_parts(&parts, sink)
}

/// The number in decimal with its places.
pub fn scaled_text(number: i64, places: u8) -> Text
    ensures items { result.items ≡ scaled_text places number }
    ensures len { array_vec_len result ≤ places + 22 }
{
    let mut out = ArrayVec::new();
    if number.is_negative() {
        out.push(b'-');
    }
    push_magnitude(&mut out, number.unsigned_abs(), places);
    out
}

/// Appends a magnitude with its places, from the last digit back.
fn push_magnitude(out: &mut Text, magnitude: u64, places: u8)
    requires { array_vec_len out.old + places + 21 ≤ 288 }
    ensures items { out.new.items ≡ out.old.items ++ magnitude_text places magnitude }
    ensures len { array_vec_len out.new ≤ array_vec_len out.old + places + 21 }
{
    if places == 0 {
        push_number(out, magnitude);
    } else if places == 1 {
        push_number(out, magnitude / 10);
        push_bytes(out, b".");
        push_digit(out, magnitude % 10);
    } else {
        push_magnitude(out, magnitude / 10, places - 1);
        push_digit(out, magnitude % 10);
    }
}

fn push_digit(out: &mut Text, digit: u64)
    requires digit { digit < 10 }
    requires room { array_vec_len out.old < 288 }
    ensures items { out.new.items ≡ out.old.items ++ (48 + digit) ∷ [] }
    ensures len { array_vec_len out.new ≡ array_vec_len out.old + 1 }
{
    out.push(b'0' + digit as u8);
}

/// Writes a text in quotes.
fn put_quoted<W: Sink>(text: &[u8], sink: &mut W) -> Result<(), DeviceFault>
    ensures { Puts (quoted text.now) result (turn W.written W.has_failed sink.old sink.new) }
{
    put_all(sink, b"\"")?;
    put_escaped(text, sink)?;
    put_all(sink, b"\"")
}

/// Writes each byte as it is or escaped.
pub(crate) fn put_escaped<W: Sink>(text: &[u8], sink: &mut W) -> Result<(), DeviceFault>
    ensures { Puts (flat_map byte_text text.now) result (turn W.written W.has_failed sink.old sink.new) }
{
    for &byte in text {
        put_all(sink, byte_text(byte).as_slice())?;
    }
    Ok(())
}

/// A printable byte as it is; any other, the quote and the backslash in hex.
fn byte_text(byte: u8) -> ArrayVec<u8, 4>
    ensures { result.items ≡ byte_text byte }
{
    let mut out = ArrayVec::new();
    if is_plain(byte) {
        out.push(byte);
    } else {
        out.push(b'\\');
        out.push(b'x');
        out.push(hex_digit(byte / 16));
        out.push(hex_digit(byte % 16));
    }
    out
}

fn is_plain(byte: u8) -> bool
    ensures { result ≡ is_plain byte }
{
    byte >= b' ' && byte <= b'~' && byte != b'"' && byte != b'\\'
}

/// A digit from 0 to 15 in upper-case hex.
fn hex_digit(digit: u8) -> u8
    requires { digit < 16 }
    ensures { result ≡ digit_glyph true digit }
{
    if digit < 10 {
        b'0' + digit
    } else {
        b'A' + (digit - 10)
    }
}
