//! The first line of bytes.
ghost use Rattle.std.specs.Prelude.{◌≡◌, ◌++◌, ◌∷◌, ◌≤◌, length, map, MatchOption, ◌==◌};
ghost use Rattle.std.specs.List.{prefix_len};
ghost use Rattle.std.specs.Simd.Lanes.{mask_l};
ghost use Rattle.j39_io.specs.Chars.{newline};
ghost use Rattle.j39_log.specs.Log.{HasNoNewline};
ghost use Rattle.j39_log.specs.Newline.{TakesLine, is_no_newline};

use std::simd::prelude::*;

/// The bytes before the first newline, and those after it; `None` where there is no newline.
#[inline(always)]
pub(crate) fn split_line(bytes: &[u8]) -> Option<(&[u8], &[u8])>
    ensures { MatchOption result (HasNoNewline bytes.now) (λ cut. TakesLine bytes.now cut.0.now cut.1.now) }
{
    let (line, rest) = bytes.split_at(line_len(bytes));
    match rest.split_first() {
        None => None,
        Some((_, rest)) => Some((line, rest)),
    }
}

/// How many bytes come before the first newline, or before the end where there is none. It looks at
/// 64 bytes at once.
#[inline(always)]
fn line_len(bytes: &[u8]) -> usize
    ensures value { result ≡ prefix_len is_no_newline bytes.now }
    ensures fits { result ≤ length bytes.now }
{
    let mut rest = bytes;
    let mut len = 0;
    while let Some((block, later)) = rest.split_first_chunk::<64>() {
        let newlines = newlines_of(block);
        if newlines != 0 {
            return len + newlines.trailing_zeros() as usize;
        }
        rest = later;
        len += 64;
    }
    len + short_len(rest)
}

/// A bit for each byte of a block, set where it is a newline.
#[inline(always)]
fn newlines_of(block: &[u8; 64]) -> u64
    ensures { result ≡ mask_l (map (λ b. b == newline) block.now) }
{
    u8x64::from_array(*block)
        .simd_eq(u8x64::splat(b'\n'))
        .to_bitmask()
}

/// The same, byte by byte.
fn short_len(bytes: &[u8]) -> usize
    ensures value { result ≡ prefix_len is_no_newline bytes.now }
    ensures fits { result ≤ length bytes.now }
{
    bytes.iter().take_while(|b| **b != b'\n').count()
}
