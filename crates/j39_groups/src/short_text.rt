//! Short texts, and a magnitude that is written backwards.
ghost use Rattle.std.specs.Prelude.{◌≡◌, ◌+◌, ◌≤◌, drop, length};
ghost use Rattle.j39_io.specs.Backwards.{WritesBefore};
ghost use Rattle.j39_groups.specs.Ready.{short_text};
ghost use Rattle.j39_groups.specs.ValueText.{magnitude_text};

use j39_io::backwards::{byte_before, last_digits_before, number_before, tail_before};

/// A text of at most 16 bytes: the bytes of a block from `from` on. A block is copied whole, by one move.
#[derive(Clone, Copy)]
pub(crate) struct ShortText {
    pub bytes: [u8; 16],
    pub from: u8,
}

impl ShortText {
    /// The text without a byte.
    pub const EMPTY: ShortText = ShortText {
        bytes: [b' '; 16],
        from: 16,
    };
}

/// Writes a short text.
#[inline(always)]
pub(crate) fn short_before(out: &mut [u8], end: usize, text: &ShortText) -> usize
    requires from { text.now.from ≤ 16 }
    requires room { 16 ≤ end }
    requires within { end ≤ length out.old }
    ensures written { WritesBefore out.old out.new end result (short_text text.now) }
    ensures short { end ≤ result + 16 }
{
    let bytes = text.bytes;
    tail_before(out, end, &bytes, usize::from(text.from))
}

/// Writes a magnitude with its places, fifteen at most, before `end`, and answers where it starts: 36 bytes at most.
#[inline(always)]
pub fn magnitude_before(out: &mut [u8], end: usize, magnitude: u64, places: u8) -> usize
    requires places { places ≤ 15 }
    requires room { 37 ≤ end }
    requires within { end ≤ length out.old }
    ensures written { WritesBefore out.old out.new end result (magnitude_text places magnitude) }
    ensures short { end ≤ result + 36 }
{
    if places == 0 {
        return number_before(out, end, magnitude);
    }
    let (digits, whole) = last_digits_before(out, end, usize::from(places), magnitude);
    let point = byte_before(out, digits, b'.');
    number_before(out, point, whole)
}
