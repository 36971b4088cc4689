//! A record, field by field (RFC 4180).
ghost use Rattle.std.specs.Prelude.{◌≡◌, ◌++◌, codes, map};
ghost use Rattle.std.specs.List.{flat_map, list_any};
ghost use Rattle.j39_io.specs.Puts.{Puts};
ghost use Rattle.j39_io.specs.Turn.{turn};
ghost use Rattle.j39_io.specs.Records.{behind_front, escaped_front, field_text, is_formula, is_special, later_text, quoted_byte, record_text};

use crate::device::{DeviceFault, Sink, put_all};

/// Writes a record: the first field and those behind it, with a comma between each two, one in quotes where it has a
/// comma, a quote or an end of line, and an end of line behind them (RFC 4180, 2). None begins a formula (`without_formula`). After a fault a front of it was written.
pub fn put_record<W: Sink>(first: &[u8], later: &[&[u8]], sink: &mut W) -> Result<(), DeviceFault>
    ensures { Puts (record_text first.now (map (λ field. field.now) later.now))
        result (turn W.written W.has_failed sink.old sink.new) }
{
    put_field(first, sink)?;
    put_later(later, sink)?;
    put_all(sink, b"\r\n")
}

/// Writes the fields behind the first.
fn put_later<W: Sink>(fields: &[&[u8]], sink: &mut W) -> Result<(), DeviceFault>
    ensures { Puts (flat_map (λ field. later_text field.now) fields.now)
        result (turn W.written W.has_failed sink.old sink.new) }
{
    for field in fields {
        put_behind_comma(field, sink)?;
    }
    Ok(())
}

/// Writes a comma and a field: one more of a record that has begun. After a fault a front of that was written.
pub fn put_behind_comma<W: Sink>(field: &[u8], sink: &mut W) -> Result<(), DeviceFault>
    ensures { Puts (later_text field.now) result (turn W.written W.has_failed sink.old sink.new) }
{
    put_all(sink, b",")?;
    put_field(field, sink)
}

fn put_field<W: Sink>(field: &[u8], sink: &mut W) -> Result<(), DeviceFault>
    ensures { Puts (field_text field.now) result (turn W.written W.has_failed sink.old sink.new) }
{
    let (front, rest) = without_formula(field);
    if has_special(rest) {
        put_quoted(front, rest, sink)
    } else {
        put_all(sink, front)?;
        put_all(sink, rest)
    }
}

/// Whether a spreadsheet would take a field for a formula: it begins with `=`, `+`, `-` or `@`, and goes on (own).
#[inline]
#[tactic(auto, unfolding(crate::specs::Records::is_formula))]
pub fn is_formula(field: &[u8]) -> bool
    ensures { result ≡ is_formula field.now }
{
    match field.split_first() {
        None => false,
        Some((first, rest)) => {
            (*first == b'=' || *first == b'+' || *first == b'-' || *first == b'@')
                && !rest.is_empty()
        }
    }
}

/// What stands for the first byte of a field that a spreadsheet would take for a formula, and the bytes behind it; of any
/// other field nothing, and all of it.
#[tactic(auto, unfolding(crate::specs::Records::is_formula, crate::specs::Records::escaped_front, crate::specs::Records::behind_front))]
pub fn without_formula(field: &[u8]) -> (&[u8], &[u8])
    ensures front { result.0.now ≡ escaped_front field.now }
    ensures rest { result.1.now ≡ behind_front field.now }
{
    let nothing: &[u8] = b"";
    match field.split_first() {
        None => (nothing, field),
        Some((first, rest)) => {
            if rest.is_empty() {
                return (nothing, field);
            }
            match *first {
                b'=' => (b"\\x3D", rest),
                b'+' => (b"\\x2B", rest),
                b'-' => (b"\\x2D", rest),
                b'@' => (b"\\x40", rest),
                _ => (nothing, field),
            }
        }
    }
}

/// Whether a field has a byte that may stand in quotes alone (RFC 4180, 2).
#[inline]
pub fn has_special(field: &[u8]) -> bool
    ensures { result ≡ list_any is_special field.now }
{
    field.iter().any(|byte| *byte == b',' || *byte == b'"' || *byte == b'\r' || *byte == b'\n')
}

/// Writes a field in quotes, of which the front has no quote.
fn put_quoted<W: Sink>(front: &[u8], rest: &[u8], sink: &mut W) -> Result<(), DeviceFault>
    ensures { Puts (codes "\"" ++ (front.now ++ (flat_map quoted_byte rest.now ++ codes "\"")))
        result (turn W.written W.has_failed sink.old sink.new) }
{
    put_all(sink, b"\"")?;
    put_all(sink, front)?;
    put_doubled(rest, sink)?;
    put_all(sink, b"\"")
}

/// Writes the bytes with each quote twice.
fn put_doubled<W: Sink>(field: &[u8], sink: &mut W) -> Result<(), DeviceFault>
    ensures { Puts (flat_map quoted_byte field.now) result (turn W.written W.has_failed sink.old sink.new) }
{
    for byte in field {
        put_all(sink, quoted(byte))?;
    }
    Ok(())
}

/// A byte as it stands in quotes.
fn quoted(byte: &u8) -> &[u8]
    ensures { result.now ≡ quoted_byte byte.now }
{
    if *byte == b'"' {
        b"\"\""
    } else {
        std::slice::from_ref(byte)
    }
}
