//! Strings of JSON (RFC 8259, 7).
ghost use Rattle.std.specs.Prelude.{◌≡◌, ◌∷◌, ◌++◌, [], codes};
ghost use Rattle.std.specs.List.{flat_map};
ghost use Rattle.std.specs.Str.{is_utf8};
ghost use Rattle.std.specs.Str.Lossy.{utf8_lossy};
ghost use Rattle.hex.specs.Hex.{encode_upper};
ghost use Rattle.j39_io.specs.Puts.{Puts};
ghost use Rattle.j39_io.specs.Turn.{turn};
ghost use Rattle.j39_rows.specs.Json.{bytes_under, character_text, hex_text, key_text, string_text};

use crate::parts::put_parts;
use arrayvec::ArrayVec;
use j39_io::printing::{push_bytes, push_hex};
use j39_io::{DeviceFault, Sink, put_all};

/// The bytes of U+FFFD.
const REPLACEMENT: &[u8] = b"\xEF\xBF\xBD";

/// Writes bytes as a string, with U+FFFD for what is no UTF-8. After a fault a front of that was written.
#[tactic(auto, unfolding(crate::specs::Json::string_text))]
pub fn put_string<W: Sink>(text: &[u8], sink: &mut W) -> Result<(), DeviceFault>
    ensures { Puts (string_text text.now) result (turn W.written W.has_failed sink.old sink.new) }
{
    put_all(sink, b"\"")?;
    put_characters(text, sink)?;
    put_all(sink, b"\"")
}

/// Writes the characters of a string.
fn put_characters<W: Sink>(text: &[u8], sink: &mut W) -> Result<(), DeviceFault>
    ensures { Puts (flat_map character_text (utf8_lossy text.now)) result
        (turn W.written W.has_failed sink.old sink.new) }
{
    for chunk in text.utf8_chunks() {
        put_bytes(chunk.valid().as_bytes(), sink)?;
        if !chunk.invalid().is_empty() {
            put_all(sink, REPLACEMENT)?;
        }
    }
    Ok(())
}

/// Writes bytes that are UTF-8.
fn put_bytes<W: Sink>(bytes: &[u8], sink: &mut W) -> Result<(), DeviceFault>
    ensures { Puts (flat_map character_text bytes.now) result (turn W.written W.has_failed sink.old sink.new) }
{
    for &byte in bytes {
        put_all(sink, character(byte).as_slice())?;
    }
    Ok(())
}

/// A byte of a character as it stands in a string.
fn character(byte: u8) -> ArrayVec<u8, 6>
    ensures { result.items ≡ character_text byte }
{
    let mut out = ArrayVec::new();
    match byte {
        b'"' => push_bytes(&mut out, b"\\\""),
        b'\\' => push_bytes(&mut out, b"\\\\"),
        0..=31 => {
            push_bytes(&mut out, b"\\u00");
            push_hex(&mut out, &[byte]);
        }
        _ => out.push(byte),
    }
    out
}

/// Writes the bytes of a text that isn't all UTF-8 as a member of these two parts' name; nothing of any other. After a fault a
/// front of that was written.
#[tactic(auto, unfolding(crate::specs::Json::bytes_under))]
pub fn put_bytes_under<W: Sink>(
    name: &[u8],
    ending: &[u8],
    text: &[u8],
    sink: &mut W,
) -> Result<(), DeviceFault>
    ensures { Puts (bytes_under (name.now ++ ending.now) text.now) result
        (turn W.written W.has_failed sink.old sink.new) }
{
    if is_utf8(text) {
        Ok(())
    } else {
        put_in_hex(name, ending, text, sink)
    }
}

fn is_utf8(text: &[u8]) -> bool
    ensures { result ≡ is_utf8 text.now }
{
    std::str::from_utf8(text).is_ok()
}

/// Writes the key of the bytes, and the bytes.
fn put_in_hex<W: Sink>(
    name: &[u8],
    ending: &[u8],
    text: &[u8],
    sink: &mut W,
) -> Result<(), DeviceFault>
    ensures { Puts (key_text (name.now ++ ending.now) ++ (codes "\"" ++ (hex_text text.now ++ codes "\""))) result
        (turn W.written W.has_failed sink.old sink.new) }
{
    let key: [&[u8]; 5] = [b",\"", name, ending, b"\":", b"\""];
    put_parts(&key, sink)?;
    put_hex(text, sink)?;
    put_all(sink, b"\"")
}

/// Writes bytes as pairs of hex digits.
fn put_hex<W: Sink>(bytes: &[u8], sink: &mut W) -> Result<(), DeviceFault>
    ensures { Puts (hex_text bytes.now) result (turn W.written W.has_failed sink.old sink.new) }
{
    for &byte in bytes {
        put_all(sink, hex_pair(byte).as_slice())?;
    }
    Ok(())
}

fn hex_pair(byte: u8) -> ArrayVec<u8, 2>
    ensures { result.items ≡ encode_upper (byte ∷ []) }
{
    let mut pair = ArrayVec::new();
    push_hex(&mut pair, &[byte]);
    pair
}
