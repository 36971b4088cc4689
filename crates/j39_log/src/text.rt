//! The texts of a line's fields.
ghost use Rattle.std.specs.Prelude.{◌≡◌, ◌≤◌, ◌^◌, ◌<◌, ℕ, List, length, IsSome, IfSome, IsSomeAnd, SomeIff, Some, None, Ok, IsTrue, ◌*◌, ◌⊎◌};
ghost use Rattle.std.specs.Int.{to_be_bytes, w32};
ghost use Rattle.std.specs.Bool.{OnTrue};
ghost use Rattle.hex.specs.Hex.{decode_of};
ghost use Rattle.std.specs.Str.Parse.{AllDigits, digits_value};
ghost use Rattle.j39_frame.specs.Stamp.{stamp_micros};
ghost use Rattle.j39_frame.specs.Identifier.{id_raw};
ghost use Rattle.j39_log.specs.Text.{HasStampParts, IsStampText, HasFrameParts, IsFrameText};

use arrayvec::ArrayVec;
use j39_frame::{Id, Stamp};

/// The number that at most ten decimal digits write, which needs no look for overflow.
fn number(digits: &[u8]) -> Option<u64>
    requires { length digits.now ≤ 10 }
    ensures value { SomeIff result (AllDigits 10 digits.now) (digits_value 10 digits.now) }
    ensures fits { IfSome result (λ n. n < 10 ^ length digits.now) }
{
    let mut value = 0u64;
    for &digit in digits {
        let digit = char::from(digit).to_digit(10)?;
        value = value * 10 + u64::from(digit);
    }
    Some(value)
}

/// The parts of a stamp of which the last `cut` decimals are cut.
fn stamp_parts(text: &[u8], cut: usize) -> Option<(&[u8], &[u8], &[u8])>
    requires { (cut ≡ 0) ⊎ (cut ≡ 3) }
    ensures found { IfSome result (λ parts. HasStampParts text.now parts.0.now parts.1.now parts.2.now) }
    ensures only { (seconds micros rest : List ℕ) → HasStampParts text.now seconds micros rest → length rest ≡ cut
        → IsSomeAnd result (λ parts. (parts.0.now ≡ seconds) × (parts.1.now ≡ micros) × (parts.2.now ≡ rest)) }
{
    let n = text.len();
    if n < 10 + cut
        || n > 19 + cut
        || text[0] != b'('
        || text[n - cut - 8] != b'.'
        || text[n - 1] != b')'
    {
        return None;
    }
    let end = n - cut - 1;
    Some((&text[1..end - 7], &text[end - 6..end], &text[end..n - 1]))
}

/// The stamp of a text of which the last `cut` decimals are cut.
fn stamp_with(text: &[u8], cut: usize) -> Option<Stamp>
    requires { (cut ≡ 0) ⊎ (cut ≡ 3) }
    ensures found { IfSome result (λ stamp. IsStampText text.now (stamp_micros stamp)) }
    ensures only { (micros : ℕ) → (p : IsStampText text.now micros) → length p.cut ≡ cut
        → IsSomeAnd result (λ stamp. stamp_micros stamp ≡ micros) }
{
    let (seconds, micros, rest) = stamp_parts(text, cut)?;
    let seconds = number(seconds)?;
    let micros = number(micros)?;
    number(rest)?;
    Stamp::new(seconds * 1_000_000 + micros)
}

pub(crate) fn stamp_of(text: &[u8]) -> Option<Stamp>
    ensures found { IfSome result (λ stamp. IsStampText text.now (stamp_micros stamp)) }
    ensures only { (micros : ℕ) → IsStampText text.now micros
        → IsSomeAnd result (λ stamp. stamp_micros stamp ≡ micros) }
{
    match stamp_with(text, 0) {
        Some(stamp) => Some(stamp),
        None => stamp_with(text, 3),
    }
}

fn frame_parts(text: &[u8]) -> Option<(&[u8], &[u8])>
    ensures found { IfSome result (λ parts. HasFrameParts text.now parts.0.now parts.1.now) }
    ensures only { (digits pairs : List ℕ) → HasFrameParts text.now digits pairs
        → IsSomeAnd result (λ parts. (parts.0.now ≡ digits) × (parts.1.now ≡ pairs)) }
{
    if text.len() < 9 || text[8] != b'#' {
        return None;
    }
    Some((&text[..8], &text[9..]))
}

/// Writes the bytes that pairs of hex digits spell.
fn decode(pairs: &[u8], out: &mut [u8]) -> bool
    requires { length pairs.now ≡ 2 * length out.old }
    ensures found { OnTrue result (decode_of pairs.now ≡ Ok out.new) }
    ensures only { (bytes : List ℕ) → decode_of pairs.now ≡ Ok bytes → IsTrue result }
{
    hex::decode_to_slice(pairs, out).is_ok()
}

fn id_of(digits: &[u8]) -> Option<Id>
    requires { length digits.now ≡ 8 }
    ensures found { IfSome result (λ id. (decode_of digits.now ≡ Ok (to_be_bytes w32 (id_raw id)))
        × (id_raw id < 2 ^ 29)) }
    ensures only { (raw : ℕ) → decode_of digits.now ≡ Ok (to_be_bytes w32 raw) → raw < 2 ^ 29
        → IsSomeAnd result (λ id. id_raw id ≡ raw) }
{
    let mut raw = [0u8; 4];
    if !decode(digits, &mut raw) {
        return None;
    }
    Id::new(u32::from_be_bytes(raw))
}

#[inline(never)]
pub(crate) fn bytes_of(pairs: &[u8]) -> Option<ArrayVec<u8, 8>>
    ensures found { IfSome result (λ bytes. (decode_of pairs.now ≡ Ok bytes.items) × (length bytes.items ≤ 8)) }
    ensures only { (bytes : List ℕ) → decode_of pairs.now ≡ Ok bytes → length bytes ≤ 8
        → IsSomeAnd result (λ kept. kept.items ≡ bytes) }
{
    if pairs.len() > 16 || pairs.len() % 2 == 1 {
        return None;
    }
    let mut room = [0u8; 8];
    let (out, _) = room.split_at_mut(pairs.len() / 2);
    if !decode(pairs, out) {
        return None;
    }
    let mut bytes = ArrayVec::new();
    bytes.try_extend_from_slice(&room[..pairs.len() / 2]).ok()?;
    Some(bytes)
}

pub(crate) fn frame_of(text: &[u8]) -> Option<(Id, ArrayVec<u8, 8>)>
    ensures found { IfSome result (λ frame. IsFrameText text.now (id_raw frame.0) frame.1.items) }
    ensures only { (id : ℕ) (bytes : List ℕ) → IsFrameText text.now id bytes
        → IsSomeAnd result (λ frame. (id_raw frame.0 ≡ id) × (frame.1.items ≡ bytes)) }
{
    let (digits, pairs) = frame_parts(text)?;
    let id = id_of(digits)?;
    let bytes = bytes_of(pairs)?;
    Some((id, bytes))
}
