//! The record of one reading in a block, the last byte first.
ghost use Rattle.std.specs.Prelude.{◌≡◌, ◌==◌, ◌+◌, ◌≤◌, ◌++◌, ℕ, List, IfSome, false, length, map};
ghost use Rattle.std.specs.List.{list_any};
ghost use Rattle.std.specs.Simd.Lanes.{mask_l};
ghost use Rattle.j39_io.specs.Backwards.{WritesBefore};
ghost use Rattle.j39_io.specs.Records.{is_special, later_text};
ghost use Rattle.j39_groups.specs.Models.{value_of};
ghost use Rattle.j39_groups.specs.ValueText.{scaled_text, value_field};
ghost use Rattle.j39_reports.specs.EntryText.{named_fields, value_fields};
ghost use Rattle.j39_reports.specs.MessageRecords.{begun_fields};

use crate::head::Head;
use crate::report_records::record_head::digits_before;
use crate::waiting::BLOCK;
use j39_groups::{Value, magnitude_before};
use j39_io::backwards::{byte_before, bytes_before, slice_before};
use j39_io::{has_special, is_formula};
use std::simd::prelude::*;

/// Writes the record of a reading at the end of a block, and answers where it starts: what it begins with, and the fields
/// behind that. `None`, and nothing of use is written, for a text of the sender's, a number with more than fifteen places, and
/// a field that is long or must stand in quotes.
#[inline(always)]
pub(crate) fn record_before(
    out: &mut [u8; BLOCK],
    begin: &Head,
    spn: u32,
    parameter: &[u8],
    value: Value<'_, '_>,
    state: &[u8],
) -> Option<usize>
    ensures written { (group : List ℕ) → IfSome result (λ start. WritesBefore out.old out.new 2048 start
        (named_fields (begun_fields begin.now group) spn parameter.now ++ value_fields (value_of value.entry) state.now)) }
    ensures within { IfSome result (λ start. start ≤ 2048) }
{
    if !begin.has_group {
        return None;
    }
    let unit = value.unit();
    let last = bytes_before(out, BLOCK, *b"\r\n");
    let end = field_before(out, last, state)?;
    let behind = field_before(out, end, unit)?;
    let bare = bare_before(out, behind, value)?;
    let gap = byte_before(out, bare, b',');
    let name = field_before(out, gap, parameter)?;
    let number = digits_before(out, name, spn);
    let comma = byte_before(out, number, b',');
    Some(slice_before(out, comma, begin.bytes()))
}

/// Writes a comma and a field. `None`, and nothing of use is written, where it is long, must stand in quotes, or would be a
/// formula.
#[inline(always)]
pub(crate) fn field_before(out: &mut [u8], end: usize, field: &[u8]) -> Option<usize>
    requires room { 64 ≤ end }
    requires within { end ≤ length out.old }
    ensures written { IfSome result (λ start. WritesBefore out.old out.new end start (later_text field.now)) }
    ensures short { IfSome result (λ start. end ≤ start + 64) }
    ensures starts { IfSome result (λ start. start + length field.now + 1 ≡ end) }
{
    if field.len() > 63 {
        return None;
    }
    if may_be_special(field) {
        return None;
    }
    if is_formula(field) {
        return None;
    }
    let first = slice_before(out, end, field);
    Some(byte_before(out, first, b','))
}

/// Whether a field may have a byte that stands in quotes alone. It looks at eight bytes at once.
#[inline(always)]
fn may_be_special(field: &[u8]) -> bool
    ensures { result ≡ false → list_any is_special field.now ≡ false }
{
    let mut rest = field;
    while let Some((block, later)) = rest.split_first_chunk::<8>() {
        let special = special_bits(block);
        if special != 0 {
            return true;
        }
        rest = later;
    }
    has_special(rest)
}

/// Bits of which one is set where a byte of a block stands in quotes alone.
#[inline(always)]
fn special_bits(block: &[u8; 8]) -> u64
    ensures { result ≡ 0 → list_any is_special block.now ≡ false }
{
    let commas = bits_of(block, b',');
    let quotes = bits_of(block, b'"');
    let carriage_returns = bits_of(block, b'\r');
    let newlines = bits_of(block, b'\n');
    commas | quotes | carriage_returns | newlines
}

/// A bit for each byte of a block, set where it is this byte.
#[inline(always)]
pub(crate) fn bits_of(block: &[u8; 8], byte: u8) -> u64
    ensures { result ≡ mask_l (map (λ b. b == byte) block.now) }
{
    u8x8::from_array(*block)
        .simd_eq(u8x8::splat(byte))
        .to_bitmask()
}

/// Writes a value without its unit.
#[inline(always)]
#[tactic(auto, unfolding(j39_groups::specs::ValueText::value_field, j39_groups::specs::ValueText::bare_text, j39_groups::specs::ValueText::value_text))]
pub(crate) fn bare_before(out: &mut [u8], end: usize, value: Value<'_, '_>) -> Option<usize>
    requires room { 38 ≤ end }
    requires within { end ≤ length out.old }
    ensures written { IfSome result (λ start. WritesBefore out.old out.new end start
        (value_field (value_of value.entry))) }
    ensures short { IfSome result (λ start. end ≤ start + 38) }
{
    match value {
        Value::Number(number, scale) => scaled_before(out, end, number, scale.places()),
        Value::On => Some(bytes_before(out, end, *b"on")),
        Value::Off => Some(bytes_before(out, end, *b"off")),
        Value::Error => Some(bytes_before(out, end, *b"error")),
        Value::Reserved => Some(bytes_before(out, end, *b"reserved")),
        Value::Indicator => Some(bytes_before(out, end, *b"indicator")),
        Value::Text(_) => None,
    }
}

/// Writes a number in decimal with its places: fifteen at most.
#[inline(always)]
pub fn scaled_before(out: &mut [u8], end: usize, number: i64, places: u8) -> Option<usize>
    requires room { 38 ≤ end }
    requires within { end ≤ length out.old }
    ensures written { IfSome result (λ start. WritesBefore out.old out.new end start (scaled_text places number)) }
    ensures short { IfSome result (λ start. end ≤ start + 38) }
{
    if places > 15 {
        return None;
    }
    let digits = magnitude_before(out, end, number.unsigned_abs(), places);
    if number.is_negative() {
        Some(byte_before(out, digits, b'-'))
    } else {
        Some(digits)
    }
}
