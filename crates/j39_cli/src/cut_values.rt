//! The values of `cut`, from their texts.
ghost use Rattle.std.specs.Prelude.{◌≡◌, ◌≤◌, ◌<◌, ◌^◌, ◌↔◌, ◌⊎◌, IfErr, IfOk, IfSome, IsSome, length};
ghost use Rattle.std.specs.Option.{SomeIff};
ghost use Rattle.std.specs.Str.Parse.{AllDigits, digits_value};
ghost use Rattle.j39_frame.specs.Pgn.{pgn_raw};
ghost use Rattle.j39_frame.specs.Stamp.{stamp_micros};
ghost use Rattle.j39_cli.specs.CutCommand.{IsMomentText, IsPayloadText, moment_value};
ghost use Rattle.j39_cli.specs.CutCommand as cut;
ghost use Rattle.j39_cli.specs.Numbers.{IsNumberBelow};

use crate::{Argument, ParseFault};
use hex::FromHexError;
use j39_frame::{Pgn, Stamp};
use j39_io::number;
use j39_transport::{LONGEST, SHORTEST};
use std::alloc::Global;

/// The number of decimal digits, leading zeros taken; `None` for other text, and from the limit up.
pub(crate) fn number_below(text: &[u8], limit: u64) -> Option<u64>
    ensures { SomeIff result (IsNumberBelow limit text.now) (digits_value 10 text.now) }
{
    if text.is_empty() {
        return None;
    }
    let value = number(text, 10)?;
    if value < limit { Some(value) } else { None }
}

/// The address of this number in decimal; `None` for other text, and from 254 up.
pub(crate) fn source_of(text: &str) -> Option<u8>
    ensures { SomeIff result (IsNumberBelow 254 text.now) (digits_value 10 text.now) }
{
    let source = number_below(text.as_bytes(), 254)?;
    Some(source as u8)
}

/// The group of this number in decimal; `None` for other text, and from 2^18 up.
pub(crate) fn pgn_of(text: &str) -> Option<Pgn>
    ensures known { IsSome result ↔ IsNumberBelow (2 ^ 18) text.now }
    ensures value { IfSome result (λ pgn. pgn_raw pgn ≡ digits_value 10 text.now) }
{
    let raw = number_below(text.as_bytes(), 1 << 18)?;
    Pgn::new(raw as u32)
}

/// The moment of 1 to 10 digits, `.` and 6 digits; `None` for other text.
#[tactic(auto, using(crate::proofs::DigitLemmas::moment_fits))]
pub(crate) fn stamp_of(text: &[u8]) -> Option<Stamp>
    ensures known { IsSome result ↔ IsMomentText text.now }
    ensures value { IfSome result (λ stamp. stamp_micros stamp ≡ moment_value text.now) }
{
    let n = text.len();
    if n < 8 || n > 17 || text[n - 7] != b'.' {
        return None;
    }
    let seconds = short_number(&text[..n - 7])?;
    let micros = short_number(&text[n - 6..])?;
    Stamp::new(seconds * 1_000_000 + micros)
}

/// The number of at most ten decimal digits.
#[tactic(auto, using(crate::proofs::DigitLemmas::ten_digits))]
pub(crate) fn short_number(digits: &[u8]) -> Option<u64>
    requires { length digits.now ≤ 10 }
    ensures value { SomeIff result (AllDigits 10 digits.now) (digits_value 10 digits.now) }
    ensures fits { IfSome result (λ n. n < 10 ^ 10) }
{
    number(digits, 10)
}

/// The bytes of 9 to 1,785 pairs of hex digits.
pub(crate) fn payload_of(alloc: Global, text: &str) -> Result<Vec<u8>, ParseFault>
    ensures ok { IfOk result (λ payload. IsPayloadText text.now × (payload.items ≡ cut.payload_of text.now)) }
    ensures err { IfErr result (λ fault. (fault ≡ ParseFault.Memory)
        ⊎ ((¬ IsPayloadText text.now) × (fault ≡ ParseFault.BadValue Argument.Hex))) }
{
    match hex::decode(alloc, text.as_bytes()) {
        Ok(payload) => sized(payload),
        Err(FromHexError::OutOfMemory) => Err(ParseFault::Memory),
        Err(_) => Err(ParseFault::BadValue(Argument::Hex)),
    }
}

/// The bytes, where they are 9 to 1,785.
fn sized(payload: Vec<u8>) -> Result<Vec<u8>, ParseFault>
    ensures ok { IfOk result (λ sized. (sized.items ≡ payload.items)
        × (9 ≤ length payload.items) × (length payload.items ≤ 1785)) }
    ensures err { IfErr result (λ fault. (¬ ((9 ≤ length payload.items) × (length payload.items ≤ 1785)))
        × (fault ≡ ParseFault.BadValue Argument.Hex)) }
{
    if payload.len() < SHORTEST || payload.len() > LONGEST {
        return Err(ParseFault::BadValue(Argument::Hex));
    }
    Ok(payload)
}
