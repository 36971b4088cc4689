//! The raw number in a payload (J1939-71).
ghost use Rattle.std.specs.Prelude.{◌≡◌, ◌+◌, ◌-◌, ◌/◌, ◌%◌, ◌^◌, ◌<◌, ◌≤◌, length};
ghost use Rattle.byteorder.specs.Endian.{little_number};
ghost use Rattle.j39_groups.specs.Ranges.{is_valid};
ghost use Rattle.j39_groups.specs.Readings.{raw_bits, raw_number};

use byteorder::{ByteOrder, LittleEndian};

/// The number in so many bytes from `first` on: a width that is known beforehand is read at once.
#[inline(always)]
pub(crate) fn raw_of<const N: usize>(bytes: &[u8], first: u8) -> Option<u32>
    requires starts { 0 < first }
    requires some { 0 < N }
    requires narrow { N ≤ 4 }
    ensures { result ≡ raw_number first (first - 1 + N) bytes.now }
{
    let start = usize::from(first) - 1;
    if start + N > bytes.len() {
        return None;
    }
    Some(little_number(&bytes[start..start + N]))
}

/// The number in the bytes `first` to `last`, the low byte first.
pub(crate) fn raw_number(bytes: &[u8], first: u8, last: u8) -> Option<u32>
    requires starts { 0 < first }
    requires ordered { first ≤ last }
    requires narrow { last < first + 4 }
    ensures { result ≡ raw_number first last bytes.now }
{
    let start = usize::from(first) - 1;
    let end = usize::from(last);
    if end > bytes.len() {
        return None;
    }
    Some(little_number(&bytes[start..end]))
}

/// The number of one to four bytes, the low byte first.
fn little_number(part: &[u8]) -> u32
    requires some { 0 < length part.now }
    requires narrow { length part.now ≤ 4 }
    ensures { result ≡ little_number (length part.now) part.now }
{
    match part {
        [byte] => u32::from(*byte),
        [_, _] => u32::from(LittleEndian::read_u16(part)),
        [_, _, _, _] => LittleEndian::read_u32(part),
        _ => LittleEndian::read_uint(part, part.len()) as u32,
    }
}

/// The number in `count` bits from the bit `low` of a byte on.
pub(crate) fn raw_bits(bytes: &[u8], byte: u8, low: u8, count: u8) -> Option<u32>
    requires byte { 0 < byte }
    requires starts { 0 < low }
    requires ends { low ≤ 8 }
    requires some { 0 < count }
    requires narrow { count ≤ 32 }
    ensures { result ≡ raw_bits byte low count bytes.now }
{
    let start = usize::from(byte) - 1;
    let end = start + (usize::from(low) - 1 + usize::from(count) + 7) / 8;
    if end > bytes.len() {
        return None;
    }
    Some(bits_in(&bytes[start..end], low, count))
}

/// The number in `count` bits from the bit `low` of the first byte on.
fn bits_in(part: &[u8], low: u8, count: u8) -> u32
    requires some { 0 < length part.now }
    requires narrow { length part.now ≤ 8 }
    requires starts { 0 < low }
    requires ends { low ≤ 8 }
    requires few { count ≤ 32 }
    ensures { result ≡ little_number (length part.now) part.now / 2 ^ (low - 1) % 2 ^ count }
{
    let whole = LittleEndian::read_uint(part, part.len());
    let size = 1u64 << count;
    ((whole >> (low - 1)) % size) as u32
}

/// The top byte of a raw number of `count` bytes.
pub(crate) fn top_byte(raw: u32, count: u8) -> u32
    requires some { 0 < count }
    requires narrow { count ≤ 4 }
    ensures { result ≡ raw / 256 ^ (count - 1) }
{
    match count {
        1 => raw,
        2 => raw >> 8,
        3 => raw >> 16,
        _ => raw >> 24,
    }
}

/// Whether a raw number with this top byte is valid.
pub(crate) fn is_valid(top: u32) -> bool
    ensures { result ≡ is_valid top }
{
    top <= 0xFA
}
