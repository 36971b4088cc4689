//! The values in one field of a payload (J1939-71).
ghost use Rattle.std.specs.Prelude.{◌≡◌, ◌+◌, ◌-◌, ◌*◌, ◌/◌, ◌%◌, ◌^◌, ◌<◌, ◌≤◌, ◌==◌, slice_get, drop, false, unsigned_abs, IfSome};
ghost use Rattle.std.specs.List.{list_all};
ghost use Rattle.std.specs.Option.{option_map, option_and_then, option_to_list};
ghost use Rattle.j39_groups.specs.Fields.{HasOneValue, IsShort, IsSound, IsSoundBits, IsSoundBytes, largest};
ghost use Rattle.j39_groups.specs.Models.{field_record, field_slot, no_slot, scale_record, short_value, value_of};
ghost use Rattle.j39_groups.specs.Parts.{parts_of};
ghost use Rattle.j39_groups.specs.Readings.{bits_meaning, by_top_byte, filled_text_meaning, full_value, number_meaning, raw_bits, raw_number, switch_meaning, text_meaning, values_at};
ghost use Rattle.j39_groups.specs.Sightings.{holds_number};
ghost use Rattle.j39_groups.specs.Value.{SlotRecord, ValueRecord};
ghost use Rattle.j39_groups.specs.Ranges.{is_valid};

use crate::field::Field;
use crate::raw::{is_valid, raw_bits, raw_number, raw_of, top_byte};
use crate::short::Short;
use crate::slot::Slot;
use crate::value::Value;

/// The value in a field that has one at most; `None` for several texts.
#[inline(always)]
#[tactic(auto, unfolding(crate::specs::Readings::values_at))]
pub(crate) fn value_in<'t, 'v>(bytes: &'v [u8], field: Field<'t>) -> Option<Value<'t, 'v>>
    requires { IsSound field }
    ensures { HasOneValue field.entry
        → option_to_list (option_map value_of result) ≡ values_at bytes.now (field_record field.entry) }
{
    match field {
        Field::Number { scale, .. } => with(short_in(bytes, &field), scale),
        Field::Bits { scale, .. } => with(short_in(bytes, &field), scale),
        Field::Full {
            byte,
            low,
            count,
            is_signed,
            scale,
        } => {
            let raw = raw_bits(bytes, byte, low, count);
            with(full_of(raw, count, is_signed, &scale), scale)
        }
        Field::Switch { .. } => with(short_in(bytes, &field), Slot::NONE),
        Field::Text { part } => text_at(bytes, part),
        Field::Texts { .. } => None,
    }
}

#[inline(always)]
fn with<'t, 'v>(short: Option<Short>, scale: Slot<'t>) -> Option<Value<'t, 'v>>
    ensures { option_map value_of result ≡ option_map (short_value (scale_record scale.entry)) short }
{
    match short {
        Some(short) => Some(short.with(scale)),
        None => None,
    }
}

/// The number or the switch in a field; `None` for numbers in full, which are rare, and texts.
#[inline(always)]
#[tactic(auto, unfolding(crate::specs::Readings::values_at))]
pub(crate) fn short_in(bytes: &[u8], field: &Field<'_>) -> Option<Short>
    requires { IsSound field.now }
    ensures { IsShort field.now → option_to_list (option_map (short_value (field_slot field.now)) result)
        ≡ values_at bytes.now (field_record field.now) }
{
    match field {
        Field::Number { first, last, scale } => number_of(bytes, *first, *last, scale),
        Field::Bits {
            byte,
            low,
            count,
            scale,
        } => bits_of(bytes, *byte, *low, *count, scale),
        Field::Full { .. } => None,
        Field::Switch { byte, low, .. } => switch_at(bytes, *byte, *low),
        Field::Text { .. } => None,
        Field::Texts { .. } => None,
    }
}

/// Whether a payload has all bits of a number or a switch; no text is one.
#[tactic(auto, unfolding(crate::specs::Sightings::holds_number, crate::specs::Readings::raw_bits))]
pub(crate) fn holds_number(bytes: &[u8], field: &Field<'_>) -> bool
    requires { IsSound field.now }
    ensures { result ≡ holds_number bytes.now (field_record field.now) }
{
    match field {
        Field::Number { last, .. } => usize::from(*last) <= bytes.len(),
        Field::Bits {
            byte,
            low,
            count,
            ..
        } => raw_bits(bytes, *byte, *low, *count).is_some(),
        Field::Full {
            byte,
            low,
            count,
            ..
        } => raw_bits(bytes, *byte, *low, *count).is_some(),
        Field::Switch { byte, .. } => usize::from(*byte) <= bytes.len(),
        Field::Text { .. } => false,
        Field::Texts { .. } => false,
    }
}

/// The number in the bytes `first` to `last`.
#[inline(always)]
pub(crate) fn number_of(bytes: &[u8], first: u8, last: u8, scale: &Slot<'_>) -> Option<Short>
    requires { IsSoundBytes first last scale.now }
    ensures { option_map (short_value (scale_record scale.now)) result
        ≡ option_and_then (number_meaning (last - (first - 1)) (scale_record scale.now))
        (raw_number first last bytes.now) }
{
    // Most have one byte.
    if first == last {
        return number(raw_of::<1>(bytes, first)?, 1, scale);
    }
    match last - (first - 1) {
        2 => number(raw_of::<2>(bytes, first)?, 2, scale),
        count => number(raw_number(bytes, first, last)?, count, scale),
    }
}

/// What a raw number of `count` bytes means.
#[inline(always)]
#[tactic(auto, unfolding(crate::specs::Readings::by_top_byte))]
fn number(raw: u32, count: u8, scale: &Slot<'_>) -> Option<Short>
    requires some { 0 < count }
    requires narrow { count ≤ 4 }
    requires fits { scale.now.step * raw + unsigned_abs scale.now.offset < 2 ^ 63 }
    ensures { option_map (short_value (scale_record scale.now)) result ≡ number_meaning count (scale_record scale.now) raw }
{
    let top = top_byte(raw, count);
    if is_valid(top) {
        Some(Short::Number(scale.value(raw)))
    } else {
        word_by_top_byte(top)
    }
}

/// What a raw number means that is not valid.
#[inline(always)]
#[tactic(auto, unfolding(crate::specs::Readings::by_top_byte))]
fn word_by_top_byte(top: u32) -> Option<Short>
    requires { is_valid top ≡ false }
    ensures { (slot : SlotRecord) (valid : ValueRecord) → option_map (short_value slot) result ≡ by_top_byte top valid }
{
    match top {
        0xFB => Some(Short::Indicator),
        0xFC..=0xFD => Some(Short::Reserved),
        0xFE => Some(Short::Error),
        _ => None,
    }
}

#[inline]
fn bits_of(bytes: &[u8], byte: u8, low: u8, count: u8, scale: &Slot<'_>) -> Option<Short>
    requires { IsSoundBits byte low count scale.now }
    ensures { option_map (short_value (scale_record scale.now)) result
        ≡ option_and_then (bits_meaning count (scale_record scale.now)) (raw_bits byte low count bytes.now) }
{
    let raw = raw_bits(bytes, byte, low, count)?;
    bits_meaning(raw, count, scale)
}

/// What a number of `count` bits means.
#[inline]
#[tactic(auto, unfolding(crate::specs::Readings::bits_meaning))]
fn bits_meaning(raw: u32, count: u8, scale: &Slot<'_>) -> Option<Short>
    requires some { 0 < count }
    requires few { count ≤ 32 }
    requires narrow { raw < 2 ^ count }
    requires fits { largest count scale.now < 2 ^ 63 }
    ensures { option_map (short_value (scale_record scale.now)) result ≡ bits_meaning count (scale_record scale.now) raw }
{
    if count % 8 == 0 {
        return number(raw, count / 8, scale);
    }
    if count > 1 && u64::from(raw) + 1 == 1u64 << count {
        return None;
    }
    if count == 2 && raw == 2 {
        return Some(Short::Error);
    }
    Some(Short::Number(scale.value(raw)))
}

/// The number whose raw numbers are all valid.
#[inline(never)]
fn full_of(raw: Option<u32>, count: u8, is_signed: bool, scale: &Slot<'_>) -> Option<Short>
    requires some { 0 < count }
    requires few { count ≤ 32 }
    requires narrow { IfSome raw (λ raw. raw < 2 ^ count) }
    requires fits { largest count scale.now < 2 ^ 63 }
    ensures { option_map (short_value (scale_record scale.now)) result
        ≡ option_map (full_value count is_signed (scale_record scale.now)) raw }
{
    let raw = raw?;
    let number = if is_signed {
        scale.signed_value(raw, count)
    } else {
        scale.value(raw)
    };
    Some(Short::Number(number))
}

/// The switch in the two bits from `low` on; `None` where the payload does not reach them or it is
/// not available.
#[inline(always)]
pub(crate) fn switch_at(bytes: &[u8], byte: u8, low: u8) -> Option<Short>
    requires byte { 0 < byte }
    requires starts { 0 < low }
    requires ends { low < 8 }
    ensures { option_map (short_value no_slot) result
        ≡ option_and_then (λ b. switch_meaning (b / 2 ^ (low - 1) % 4)) (slice_get bytes.now (byte - 1)) }
{
    let byte = bytes.get(usize::from(byte) - 1).copied()?;
    switch_of(two_bits(byte, low))
}

/// The two bits from the bit `low` on.
fn two_bits(byte: u8, low: u8) -> u8
    requires starts { 0 < low }
    requires ends { low < 8 }
    ensures { result ≡ byte / 2 ^ (low - 1) % 4 }
{
    byte >> (low - 1) & 3
}

#[tactic(auto, unfolding(crate::specs::Readings::switch_meaning))]
fn switch_of(bits: u8) -> Option<Short>
    ensures { option_map (short_value no_slot) result ≡ switch_meaning bits }
{
    match bits {
        0 => Some(Short::Off),
        1 => Some(Short::On),
        2 => Some(Short::Error),
        _ => None,
    }
}

/// The text in the numbered part, where there is one.
#[inline(never)]
fn text_at<'t, 'v>(bytes: &'v [u8], part: u8) -> Option<Value<'t, 'v>>
    requires { 0 < part }
    ensures { option_map value_of result ≡ option_and_then text_meaning (slice_get (parts_of bytes.now) (part - 1)) }
{
    let text = part_at(bytes, usize::from(part) - 1)?;
    text_of(text)
}

/// The part at this index, from 0, between the bytes `*`.
fn part_at(bytes: &[u8], index: usize) -> Option<&[u8]>
    ensures { option_map (λ part. part.now) result ≡ slice_get (parts_of bytes.now) index }
{
    bytes.split(|b| *b == b'*').nth(index)
}

#[tactic(auto, unfolding(crate::specs::Readings::text_meaning))]
fn text_of<'t, 'v>(text: &'v [u8]) -> Option<Value<'t, 'v>>
    ensures { option_map value_of result ≡ text_meaning text.now }
{
    if text.is_empty() {
        None
    } else {
        Some(Value::Text(text))
    }
}

/// A part where a group fills what it does not use with bytes FF.
#[tactic(auto, unfolding(crate::specs::Readings::filled_text_meaning))]
pub(crate) fn filled_text_of<'t, 'v>(part: &'v [u8]) -> Option<Value<'t, 'v>>
    ensures { option_map value_of result ≡ filled_text_meaning part.now }
{
    if is_filler(part) {
        None
    } else {
        Some(Value::Text(part))
    }
}

/// Whether a part is empty or of bytes FF alone.
fn is_filler(part: &[u8]) -> bool
    ensures { result ≡ list_all (λ b. b == 0xFF) part.now }
{
    part.iter().all(|b| *b == 0xFF)
}

/// The bytes from this one on.
pub(crate) fn bytes_from(bytes: &[u8], byte: u8) -> &[u8]
    requires { 0 < byte }
    ensures { result.now ≡ drop (byte - 1) bytes.now }
{
    let start = usize::from(byte) - 1;
    let (_, rest) = bytes.split_at(start.min(bytes.len()));
    rest
}
