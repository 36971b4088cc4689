//! Strings of JSON (RFC 8259, 7).
ghost use Rattle.j39_rows.specs.Members.{in_marks};
ghost use Rattle.std.specs.Prelude.{◌≡◌, ◌+◌, ◌≤◌, IfSome, false, length, map, nat_lt, true};
ghost use Rattle.std.specs.List.{list_any};
ghost use Rattle.std.specs.Option.{option_map};
ghost use Rattle.std.specs.Simd.Lanes.{mask_l};
ghost use Rattle.j39_io.specs.Backwards.{WritesBefore};
ghost use Rattle.j39_io.specs.Puts.{Puts};
ghost use Rattle.j39_io.specs.Turn.{turn};
ghost use Rattle.j39_reports.specs.Json.{is_marked, string_or_null};
ghost use Rattle.j39_rows.specs.Json.{string_text};

use crate::report_records::bits_of;
use j39_io::backwards::{byte_before, bytes_before, slice_before};
use j39_io::{DeviceFault, Sink, put_all};
use j39_rows::put_string;
use std::simd::prelude::*;

/// Writes a text as a string, or `null` where there is none. After a fault a front of that was written.
pub(crate) fn put_string_or_null<W: Sink>(
    text: Option<&[u8]>,
    sink: &mut W,
) -> Result<(), DeviceFault>
    ensures { Puts (string_or_null (option_map (λ bytes. bytes.now) text.entry)) result
        (turn W.written W.has_failed sink.old sink.new) }
{
    match text {
        Some(text) => put_string(text, sink),
        None => put_all(sink, b"null"),
    }
}

/// Writes a text as a string before `end`, or `null`. `None`, and nothing of use is written, where it is long, or has a byte that
/// doesn't stand as it is.
#[inline(always)]
pub(crate) fn string_or_null_before(
    out: &mut [u8],
    end: usize,
    text: Option<&[u8]>,
) -> Option<usize>
    requires room { 65 ≤ end }
    requires within { end ≤ length out.old }
    ensures written { IfSome result (λ start. WritesBefore out.old out.new end start
        (string_or_null (option_map (λ bytes. bytes.now) text.entry))) }
    ensures short { IfSome result (λ start. end ≤ start + 65) }
{
    match text {
        Some(text) => string_before(out, end, text),
        None => Some(bytes_before(out, end, *b"null")),
    }
}

/// Writes a text as a string before `end`.
#[inline(always)]
fn string_before(out: &mut [u8], end: usize, text: &[u8]) -> Option<usize>
    requires room { 65 ≤ end }
    requires within { end ≤ length out.old }
    ensures written { IfSome result (λ start. WritesBefore out.old out.new end start (string_text text.now)) }
    ensures short { IfSome result (λ start. end ≤ start + 65) }
{
    if text.len() > 63 || !is_plain(text) {
        return None;
    }
    let last = byte_before(out, end, b'"');
    let first = slice_before(out, last, text);
    Some(byte_before(out, first, b'"'))
}

/// Whether each byte of a text stands in a string as it is; of some that do it may say no.
#[inline(always)]
fn is_plain(text: &[u8]) -> bool
    ensures { result ≡ true → string_text text.now ≡ in_marks text.now }
{
    !may_be_marked(text)
}

/// Whether a text may have a byte that doesn't stand as it is. It looks at eight bytes at once, the last eight of a longer text
/// last.
#[inline(always)]
fn may_be_marked(text: &[u8]) -> bool
    ensures { result ≡ false → list_any is_marked text.now ≡ false }
{
    let Some((_, last)) = text.split_last_chunk::<8>() else {
        return has_marked(text);
    };
    let mut rest = text;
    while let Some((block, later)) = rest.split_first_chunk::<8>() {
        let marked = marked_bits(block);
        if marked != 0 {
            return true;
        }
        rest = later;
    }
    marked_bits(last) != 0
}

/// Bits of which one is set where a byte of a block doesn't stand as it is.
#[inline(always)]
fn marked_bits(block: &[u8; 8]) -> u64
    ensures { result ≡ 0 → list_any is_marked block.now ≡ false }
{
    let below = bits_below(block, b' ');
    let above = bits_above(block, b'~');
    let quotes = bits_of(block, b'"');
    let backslashes = bits_of(block, b'\\');
    below | above | quotes | backslashes
}

/// A bit for each byte of a block, set where it is below this one.
#[inline(always)]
fn bits_below(block: &[u8; 8], byte: u8) -> u64
    ensures { result ≡ mask_l (map (λ b. nat_lt b byte) block.now) }
{
    u8x8::from_array(*block)
        .simd_lt(u8x8::splat(byte))
        .to_bitmask()
}

/// A bit for each byte of a block, set where it is above this one.
#[inline(always)]
fn bits_above(block: &[u8; 8], byte: u8) -> u64
    ensures { result ≡ mask_l (map (λ b. nat_lt byte b) block.now) }
{
    u8x8::from_array(*block)
        .simd_gt(u8x8::splat(byte))
        .to_bitmask()
}

fn has_marked(text: &[u8]) -> bool
    ensures { result ≡ list_any is_marked text.now }
{
    text.iter().any(|byte| *byte < b' ' || *byte > b'~' || *byte == b'"' || *byte == b'\\')
}
