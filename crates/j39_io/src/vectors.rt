//! Digits by vectors, all at once.
ghost use Rattle.std.specs.Prelude.{◌≡◌, map};
ghost use Rattle.hex.specs.Hex.{encode_upper};
ghost use Rattle.j39_io.specs.Vectors.{digit_lane};

use std::simd::prelude::*;

/// Eight bytes as sixteen upper-case hex digits.
#[inline(always)]
pub fn hex_of_eight(bytes: &[u8; 8]) -> [u8; 16]
    ensures { result ≡ encode_upper bytes.now }
{
    let all = u8x8::from_array(*bytes);
    let high = all >> u8x8::splat(4);
    let low = all & u8x8::splat(15);
    let values: u8x16 = high.shuffle(low, [0, 8, 1, 9, 2, 10, 3, 11, 4, 12, 5, 13, 6, 14, 7, 15]);
    digits_of(values).to_array()
}

/// The digit of each value below 16.
#[inline(always)]
fn digits_of(values: u8x16) -> u8x16
    ensures { result ≡ map digit_lane values }
{
    let start = values
        .simd_lt(u8x16::splat(10))
        .select(u8x16::splat(48), u8x16::splat(55));
    values + start
}
