//! Digits by vectors, all at once.
ghost use Rattle.std.specs.Prelude.{◌≡◌, ◌≤◌, ◌<◌, ℕ, List, map, IfSome, None, Ok, true};
ghost use Rattle.std.specs.Simd.Lanes.{mask_l};
ghost use Rattle.std.specs.Bool.{OnTrue};
ghost use Rattle.std.specs.List.{AllByRecursion, range_with_len};
ghost use Rattle.hex.specs.Hex.{decode_of};
ghost use Rattle.j39_log.specs.Lanes.{hex_lane, is_gap, pair_at};

use std::simd::prelude::*;

/// Whether each lane is below `limit`.
#[inline(always)]
pub(crate) fn are_below<const N: usize>(v: Simd<u8, N>, limit: u8) -> bool
    requires { N ≤ 64 }
    ensures so { OnTrue result (AllByRecursion (λ x. x < limit) v.entry) }
    ensures no { AllByRecursion (λ x. x < limit) v.entry → result ≡ true }
{
    v.simd_ge(Simd::splat(limit)).to_bitmask() == 0
}

/// A bit for each byte that is no visible character of ASCII.
#[inline(always)]
pub(crate) fn gaps_of(block: &[u8; 16]) -> u64
    ensures { result ≡ mask_l (map is_gap block.now) }
{
    let from_first = u8x16::from_array(*block) - u8x16::splat(33);
    from_first.simd_ge(u8x16::splat(94)).to_bitmask()
}

/// The value of each hex digit, and 16 or more for another byte: digits come to 246 and up, which wraps to 0 to 9, letters
/// to 0 to 5, and what is neither is kept from wrapping.
#[inline(always)]
pub(crate) fn hex_values<const N: usize>(v: Simd<u8, N>) -> Simd<u8, N>
    ensures { result ≡ map hex_lane v.entry }
{
    let digit = (v + Simd::splat(198)).simd_max(Simd::splat(6)) + Simd::splat(10);
    let letter = ((v | Simd::splat(32)) - Simd::splat(97)).simd_min(Simd::splat(245));
    digit.simd_min(letter + Simd::splat(10))
}

/// The bytes that 8 hex digits write; `None` where one is no digit.
#[inline(always)]
pub(crate) fn four(digits: &[u8; 8]) -> Option<[u8; 4]>
    ensures some { IfSome result (λ bytes. decode_of digits.now ≡ Ok bytes) }
    ensures none { result ≡ None → (bytes : List ℕ) → decode_of digits.now ≡ Ok bytes → ⊥ }
{
    let value = hex_values(u8x8::from_array(*digits));
    if !are_below(value, 16) {
        return None;
    }
    let high: u8x4 = value.swizzle([0, 2, 4, 6]);
    let low: u8x4 = value.swizzle([1, 3, 5, 7]);
    Some((high * u8x4::splat(16) + low).to_array())
}

/// The bytes that 16 hex digits write; `None` where one is no digit.
#[inline(always)]
pub(crate) fn eight(digits: &[u8; 16]) -> Option<[u8; 8]>
    ensures { IfSome result (λ bytes. decode_of digits.now ≡ Ok bytes) }
{
    let value = hex_values(u8x16::from_array(*digits));
    if !are_below(value, 16) {
        return None;
    }
    Some(pairs(value, 16))
}

/// The number of each pair of digits.
#[inline(always)]
pub(crate) fn pairs(values: u8x16, base: u8) -> [u8; 8]
    ensures { result ≡ map (pair_at base values) (range_with_len 0 8) }
{
    let high: u8x8 = values.swizzle([0, 2, 4, 6, 8, 10, 12, 14]);
    let low: u8x8 = values.swizzle([1, 3, 5, 7, 9, 11, 13, 15]);
    (high * u8x8::splat(base) + low).to_array()
}
