//! Whether blocks of sixteen bytes are as the lines of a bus have them: each byte is asked in a lane of its own, and all at once.
ghost use Rattle.std.specs.Prelude.{◌≡◌, ◌-◌, ◌<◌, Ok, map, replicate};
ghost use Rattle.std.specs.Bool.{OnTrue};
ghost use Rattle.std.specs.List.{AllByRecursion};
ghost use Rattle.hex.specs.Hex.{decode_of};
ghost use Rattle.j39_log.specs.Form.{Fits, rests};
ghost use Rattle.std.specs.Simd.Lanes.{zip2};
ghost use Rattle.j39_log.specs.Lanes.{bytes_of, hex_lane};

use crate::fast::lanes::{are_below, hex_values};
use std::simd::prelude::*;

/// What may stand in a block: in each place a byte, or one that lies at most so far above it.
#[derive(Clone, Copy, Debug)]
pub(crate) struct Form {
    pub least: [u8; 16],
    pub above: [u8; 16],
}

/// How far each byte lies outside of what may stand in its place.
#[inline(always)]
fn outside(block: &[u8; 16], least: u8x16, above: u8x16) -> u8x16
    ensures value { result ≡ rests block.now least above }
    ensures bytes { AllByRecursion (λ b. b < 256) least }
{
    (u8x16::from_array(*block) - least).saturating_sub(above)
}

/// How far each value lies above that of the last hex digit.
#[inline(always)]
fn above_hex(values: u8x16) -> u8x16
    ensures { result ≡ zip2 (λ a b. a - b) values (replicate 16 15) }
{
    values.saturating_sub(u8x16::splat(15))
}

/// The values of sixteen hex digits, and 16 or more for another byte.
#[inline(always)]
pub(crate) fn values_of(digits: &[u8; 16]) -> u8x16
    ensures value { result ≡ map hex_lane digits.now }
    ensures digits { AllByRecursion (λ v. v < 16) result → decode_of digits.now ≡ Ok (bytes_of digits.now) }
{
    hex_values(u8x16::from_array(*digits))
}

/// Whether no lane of three is set.
#[inline(always)]
fn are_zero(a: u8x16, b: u8x16, c: u8x16) -> bool
    ensures a { OnTrue result (AllByRecursion (λ x. x ≡ 0) a) }
    ensures b { OnTrue result (AllByRecursion (λ x. x ≡ 0) b) }
    ensures c { OnTrue result (AllByRecursion (λ x. x ≡ 0) c) }
{
    are_below(a | b | c, 1)
}

/// Whether two blocks fit their forms, and values are those of hex digits.
#[inline(always)]
pub(crate) fn have_form(
    first: &[u8; 16],
    first_form: &Form,
    second: &[u8; 16],
    second_form: &Form,
    values: u8x16,
) -> bool
    ensures first { OnTrue result (Fits first.now first_form.now) }
    ensures second { OnTrue result (Fits second.now second_form.now) }
    ensures values { OnTrue result (AllByRecursion (λ v. v < 16) values) }
{
    let least = u8x16::from_array(first_form.least);
    let above = u8x16::from_array(first_form.above);
    let front = outside(first, least, above);
    let least = u8x16::from_array(second_form.least);
    let above = u8x16::from_array(second_form.above);
    let next = outside(second, least, above);
    are_zero(front, next, above_hex(values))
}
