//! A quick reader of the line as `candump` writes it: ten digits of seconds, six decimals or nine,
//! one space between the fields, and none before or after them.
ghost use Rattle.std.specs.Prelude.{◌≡◌, ◌<◌, ◌+◌, ◌*◌, ◌^◌, ◌++◌, ◌∷◌, ◌⊎◌, ◌≤◌, [], ℕ, List, length, take, drop, get_or, map, not, IfSome, None, Ok, codes};
ghost use Rattle.std.specs.Bool.{OnTrue};
ghost use Rattle.std.specs.List.{AllByRecursion, prefix_len, range_with_len};
ghost use Rattle.std.specs.Str.Parse.{AllDigits};
ghost use Rattle.hex.specs.Hex.{decode_of};
ghost use Rattle.j39_log.specs.Bus.{IsBusName};
ghost use Rattle.j39_io.specs.Chars.{space};
ghost use Rattle.j39_log.specs.Fields.{IsField};
ghost use Rattle.j39_log.specs.Identifiers.{IsWritten};
ghost use Rattle.j39_log.specs.Line.{HasParts};
ghost use Rattle.j39_log.specs.Lanes.{is_gap, pair_at, stamp_lanes};
ghost use Rattle.j39_log.specs.LastSecond.{AreDecimals, IsSecond};
ghost use Rattle.j39_log.specs.LineRead.{spelled_of};
ghost use Rattle.j39_log.specs.Spelled.{Spells};
ghost use Rattle.j39_frame.specs.Stamp.{stamp_micros};
ghost use Rattle.j39_frame.specs.declared.identifier.Id.{Id};
ghost use Rattle.j39_log.specs.Text.{IsFrameText, IsStampText};

use crate::fast::lanes::{are_below, eight, four, gaps_of, pairs};
use crate::line::{body_of, holds_hash, read_any};
use crate::text::{bytes_of, frame_of};
use crate::{LINE_LIMIT, Line};
use arrayvec::ArrayVec;
use j39_frame::{Frame, Id, Stamp};
use std::simd::prelude::*;

/// Reads a line, and hands one of another form on.
#[inline(always)]
pub(crate) fn read_plain(line: &[u8]) -> Line<'_>
    ensures { Spells line.now (spelled_of result) }
{
    let Some((stamp, bus, third)) = parts_of(line) else {
        return general(line);
    };
    if let Some(frame) = frame_at(stamp, third) {
        return Line::Frame { bus, frame };
    }
    match frame_of(third) {
        None if is_field(third) && holds_hash(third) => Line::Other,
        _ => general(line),
    }
}

/// Reads a line of any form, and hands its parts on one by one: so those of the quick reader stay in registers.
#[inline(always)]
fn general(line: &[u8]) -> Line<'_>
    ensures { Spells line.now (spelled_of result) }
{
    match read_any(line) {
        Line::Frame { bus, frame } => Line::Frame { bus, frame },
        Line::Other => Line::Other,
        Line::Unread => Line::Unread,
        Line::Blank => Line::Blank,
    }
}

/// The stamp of a line, its bus and what follows the bus and a space.
#[inline(always)]
pub(crate) fn parts_of(line: &[u8]) -> Option<(Stamp, &[u8], &[u8])>
    ensures { IfSome result (λ found. IsField found.2.now
        → HasParts line.now found.1.now found.2.now (stamp_micros found.0)) }
{
    if line.len() > LINE_LIMIT {
        return None;
    }
    let (front, rest) = body_of(line).split_first_chunk::<18>()?;
    let stamp = stamp_of(front)?;
    let rest = after_stamp(rest)?;
    let (bus, third) = bus_of(rest)?;
    Some((stamp, bus, third))
}

/// What is taken off the third to the last byte of `(0123456789.012345` to give digits.
const ZEROS: [u8; 16] = [
    48, 48, 48, 48, 48, 48, 48, 48, 48, 46, 48, 48, 48, 48, 48, 48,
];

/// The stamp that begins with `(`, ten digits, `.` and six digits.
#[inline(always)]
pub(crate) fn stamp_of(front: &[u8; 18]) -> Option<Stamp>
    ensures { IfSome result (λ stamp. (cut : List ℕ) → AllDigits 10 cut → (length cut ≡ 0) ⊎ (length cut ≡ 3)
        → IsStampText (front.now ++ (cut ++ codes ")")) (stamp_micros stamp)) }
{
    let micros = second_of(front)?;
    let more = decimals_of(front)?;
    Stamp::new(micros + more)
}

/// The microseconds before the second of `(`, ten digits and `.`, where six digits follow.
#[inline(always)]
pub(crate) fn second_of(front: &[u8; 18]) -> Option<u64>
    ensures value { IfSome result (λ micros. IsSecond (take 12 front.now) micros) }
    ensures fits { IfSome result (λ micros. micros < 2 ^ 60) }
{
    let first = front[1].wrapping_sub(48);
    if front[0] != b'(' || front[11] != b'.' || first > 9 {
        return None;
    }
    let p = pairs_of(front)?;
    Some(micros_before(first, &p))
}

/// The microseconds that the six digits at the end write.
#[inline(always)]
pub(crate) fn decimals_of(front: &[u8; 18]) -> Option<u64>
    ensures value { IfSome result (λ more. AreDecimals (drop 12 front.now) more) }
    ensures fits { IfSome result (λ more. more < 2 ^ 32) }
{
    let p = pairs_of(front)?;
    Some(micros_within(&p))
}

/// The microseconds that six digits behind a second write.
#[inline(always)]
pub(crate) fn decimals(front: &[u8; 18]) -> u64
    ensures value { (micros : ℕ) → IsSecond (take 12 front.now) micros → AllDigits 10 (drop 12 front.now)
        → AreDecimals (drop 12 front.now) result }
    ensures fits { result < 2 ^ 32 }
{
    micros_within(&pairs(lanes_of(front), 10))
}

/// The microseconds that a first digit of seconds and the first five pairs write.
#[inline(always)]
fn micros_before(first: u8, p: &[u8; 8]) -> u64
    ensures value { result ≡ first * 10 ^ 15 + get_or p.now 0 0 * 10 ^ 13 + get_or p.now 1 0 * 10 ^ 11
        + get_or p.now 2 0 * 10 ^ 9 + get_or p.now 3 0 * 10 ^ 7 + get_or p.now 4 0 * 10 ^ 5 }
    ensures fits { result < 2 ^ 60 }
{
    let front = ((u64::from(first) * 100 + u64::from(p[0])) * 100 + u64::from(p[1])) * 10_000;
    let seconds = front + u64::from(p[2]) * 100 + u64::from(p[3]);
    seconds * 10_000_000 + u64::from(p[4]) * 100_000
}

/// The microseconds that the last three pairs write.
#[inline(always)]
fn micros_within(p: &[u8; 8]) -> u64
    ensures value { result ≡ get_or p.now 5 0 * 10 ^ 4 + get_or p.now 6 0 * 100 + get_or p.now 7 0 }
    ensures fits { result < 2 ^ 32 }
{
    (u64::from(p[5]) * 100 + u64::from(p[6])) * 100 + u64::from(p[7])
}

/// The pairs of the digits behind the first: four pairs, the last second with a zero, and three pairs.
#[inline(always)]
fn pairs_of(front: &[u8; 18]) -> Option<[u8; 8]>
    ensures { IfSome result (λ p. AllByRecursion (λ d. d < 10) (stamp_lanes front.now)
        × (p ≡ map (pair_at 10 (stamp_lanes front.now)) (range_with_len 0 8))) }
{
    let digits = lanes_of(front);
    if !are_below(digits, 10) {
        return None;
    }
    Some(pairs(digits, 10))
}

/// The third to the last byte, each less the zero or the point that stands there.
#[inline(always)]
fn lanes_of(front: &[u8; 18]) -> u8x16
    ensures { result ≡ stamp_lanes front.now }
{
    u8x16::from_slice(&front[2..]) - u8x16::from_array(ZEROS)
}

/// What follows the six decimals, three that are cut or none, `)` and a space.
#[inline(always)]
fn after_stamp(rest: &[u8]) -> Option<&[u8]>
    ensures { IfSome result (λ later. (cut : List ℕ) × AllDigits 10 cut × ((length cut ≡ 0) ⊎ (length cut ≡ 3))
        × (rest.now ≡ cut ++ (codes ") " ++ later.now))) }
{
    match rest {
        [b')', b' ', later @ ..] => Some(later),
        [a, b, c, b')', b' ', later @ ..] if is_digit(*a) && is_digit(*b) && is_digit(*c) => {
            Some(later)
        }
        _ => None,
    }
}

pub(crate) fn is_digit(b: u8) -> bool
    ensures { OnTrue result (AllDigits 10 (b ∷ [])) }
{
    b.is_ascii_digit()
}

/// A bus, and what follows it and a space.
#[inline(always)]
fn bus_of(text: &[u8]) -> Option<(&[u8], &[u8])>
    ensures { IfSome result (λ found. IsBusName found.0.now × (text.now ≡ found.0.now ++ (space ∷ found.1.now))) }
{
    let n = name_len(text);
    if n == 0 || n > 15 {
        return None;
    }
    let (bus, later) = text.split_at(n);
    match later.split_first() {
        Some((b' ', third)) => Some((bus, third)),
        _ => None,
    }
}

/// How many bytes at the start of a text are visible characters of ASCII, where that is less than 16.
#[inline(always)]
fn name_len(text: &[u8]) -> usize
    ensures { result < 16 → result ≡ prefix_len (λ b. not (is_gap b)) text.now }
{
    match text.split_first_chunk::<16>() {
        Some((block, _)) => gaps_of(block).trailing_zeros() as usize,
        None => short_name_len(text),
    }
}

/// The same of any text, byte by byte.
fn short_name_len(text: &[u8]) -> usize
    ensures { result ≡ prefix_len (λ b. not (is_gap b)) text.now }
{
    text.iter().take_while(|b| !is_gap(**b)).count()
}

fn is_gap(b: u8) -> bool
    ensures { result ≡ is_gap b }
{
    b.wrapping_sub(b'!') >= 94
}

/// The frame of 8 hex digits, `#` and pairs of them.
#[inline(always)]
pub(crate) fn frame_at(stamp: Stamp, text: &[u8]) -> Option<Frame>
    ensures { IfSome result (λ frame. (frame.stamp ≡ stamp_micros stamp) × IsFrameText text.now frame.id frame.bytes) }
{
    let (digits, rest) = text.split_first_chunk::<8>()?;
    frame_behind(stamp, digits, id_of(digits)?, rest)
}

/// The frame of the identifier that 8 hex digits write, where `#` and pairs of hex digits follow them.
#[inline(always)]
pub(crate) fn frame_behind(stamp: Stamp, digits: &[u8; 8], id: Id, rest: &[u8]) -> Option<Frame>
    requires { IsWritten digits.now id }
    ensures { IfSome result (λ frame. (frame.stamp ≡ stamp_micros stamp)
        × IsFrameText (digits.now ++ rest.now) frame.id frame.bytes) }
{
    match rest.split_first() {
        Some((b'#', pairs)) => Some(Frame::from_parts(stamp, id, data_of(pairs)?)),
        _ => None,
    }
}

/// The identifier that 8 hex digits write.
#[inline(always)]
pub(crate) fn id_of(digits: &[u8; 8]) -> Option<Id>
    ensures some { IfSome result (IsWritten digits.now) }
    ensures none { result ≡ None → (id : Id) → IsWritten digits.now id → ⊥ }
{
    let bytes = four(digits)?;
    Id::new(u32::from_be_bytes(bytes))
}

#[inline(always)]
fn data_of(pairs: &[u8]) -> Option<ArrayVec<u8, 8>>
    ensures { IfSome result (λ bytes. (decode_of pairs.now ≡ Ok bytes.items) × (length bytes.items ≤ 8)) }
{
    match pairs.as_array::<16>() {
        Some(all) => Some(ArrayVec::from_array_in((), eight(all)?)),
        None => match bytes_of(pairs) {
            Some(bytes) => Some(bytes),
            None => None,
        },
    }
}

/// Whether a text is a field.
fn is_field(text: &[u8]) -> bool
    ensures { OnTrue result (IsField text.now) }
{
    !text.is_empty() && text.iter().all(|b| *b != b' ')
}
