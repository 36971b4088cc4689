//! Stamps as text: appended to a line, and kept.
ghost use Rattle.std.specs.Prelude.{◌≡◌, ◌+◌, ◌≤◌, ◌++◌, length};
ghost use Rattle.arrayvec.specs.ArrayVec.{array_vec_len};
ghost use Rattle.j39_frame.specs.Stamp.{stamp_micros};
ghost use Rattle.j39_log.specs.StampText.{seconds_text, stamp_text};

use arrayvec::ArrayVec;
use j39_frame::Stamp;
use j39_io::backwards::{byte_before, bytes_before, last_digits_before};
use j39_io::printing::push_last_digits;

/// A stamp and its text, kept from stamp to stamp: that of most frames stands in their line.
#[derive(Clone, Copy, Debug)]
pub struct StampText {
    pub(crate) micros: u64,
    pub(crate) text: [u8; 19],
    pub ghost spelled: { text ≡ stamp_text micros },
}

impl StampText {
    ghost use Rattle.j39_io.specs.Backwards.{WritesBefore};
    ghost use Rattle.j39_log.specs.StampTexts.{text_micros};

    /// The text of so many microseconds, as `(0000000001.010000)`: the seconds in ten digits, the microseconds in six.
    #[inline(never)]
    pub fn of(micros: u64) -> StampText
        ensures { text_micros result ≡ micros }
    {
        let mut text = [0; 19];
        let close = byte_before(&mut text, 19, b')');
        let (fraction, _) = last_digits_before(&mut text, close, 6, micros % 1_000_000);
        let point = byte_before(&mut text, fraction, b'.');
        let (seconds, _) = last_digits_before(&mut text, point, 10, micros / 1_000_000);
        let _ = byte_before(&mut text, seconds, b'(');
        StampText { micros, text }
    }

    /// Writes the text of a stamp so that it ends before `end`, and answers where it starts: it is made where the stamp isn't the
    /// one that is kept.
    #[inline(always)]
    pub fn stamp_before(&mut self, out: &mut [u8], end: usize, stamp: Stamp) -> usize
        requires room { 19 ≤ end }
        requires within { end ≤ length out.old }
        ensures written { WritesBefore out.old out.new end result (stamp_text (stamp_micros stamp)) }
        ensures starts { result + 19 ≡ end }
    {
        let micros = stamp.micros();
        if self.micros != micros {
            *self = StampText::of(micros);
        }
        bytes_before(out, end, self.text)
    }
}

/// Appends microseconds as seconds with six places, as `0000000001.010000`.
pub fn push_seconds<const N: usize>(out: &mut ArrayVec<u8, N>, micros: u64)
    requires { array_vec_len out.old + 17 ≤ N }
    ensures items { out.new.items ≡ out.old.items ++ seconds_text micros }
    ensures len { array_vec_len out.new ≡ array_vec_len out.old + 17 }
{
    push_last_digits(out, 10, micros / 1_000_000);
    out.push(b'.');
    push_last_digits(out, 6, micros % 1_000_000);
}

/// Appends a stamp, as `(0000000001.010000)`: the seconds in ten digits, the microseconds in six.
pub fn push_stamp<const N: usize>(out: &mut ArrayVec<u8, N>, stamp: Stamp)
    requires { array_vec_len out.old + 19 ≤ N }
    ensures items { out.new.items ≡ out.old.items ++ stamp_text (stamp_micros stamp) }
    ensures len { array_vec_len out.new ≡ array_vec_len out.old + 19 }
{
    let micros = stamp.micros();
    out.push(b'(');
    push_last_digits(out, 10, micros / 1_000_000);
    out.push(b'.');
    push_last_digits(out, 6, micros % 1_000_000);
    out.push(b')');
}
