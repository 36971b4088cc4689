//! The line of a frame.
ghost use Rattle.std.specs.Prelude.{◌≡◌, ◌<◌, ◌^◌, map};
ghost use Rattle.j39_log.specs.Lanes.{hex_lane};

use crate::fast::lanes::pairs;
use crate::fast::plain::decimals;
use crate::stamp_text::StampText;
use arrayvec::ArrayVec;
use j39_frame::{Frame, Id, Stamp};
use j39_io::backwards::bytes_before;
use std::simd::prelude::*;

/// The line of a frame of a bus, whose form is right. Its stamp and its data are made of it where they are asked for.
#[derive(Clone, Copy)]
pub struct FrameLine<'a> {
    pub(crate) front: &'a [u8; 18],
    /// The microseconds before its second.
    pub(crate) second: u64,
    /// The frame's identifier.
    pub id: Id,
    /// The digits of its data.
    pub(crate) data: &'a [u8; 16],
    /// Their values, which were asked for the form.
    pub(crate) values: [u8; 16],
    ghost fits: { second < 2 ^ 60 },
    ghost read: { values ≡ map hex_lane data.now },
}

impl<'a> FrameLine<'a> {
    ghost use Rattle.std.specs.Prelude.{IfSome};
    ghost use Rattle.j39_frame.specs.Frame.{FrameRecord};
    ghost use Rattle.j39_log.specs.FrameLine.{BeginsStamp, IsFrameOf};
    ghost use Rattle.j39_log.specs.StampTexts.{text_micros};

    /// The line's frame.
    #[inline(always)]
    pub fn frame(&self) -> Option<Frame>
        ensures { IfSome result (λ frame. IsFrameOf self.now frame) }
    {
        let stamp = Stamp::new(self.second + decimals(self.front))?;
        let bytes = ArrayVec::from_array_in((), pairs(u8x16::from_array(self.values), 16));
        Some(Frame::from_parts(stamp, self.id, bytes))
    }

    /// The stamp of its frame with its text, which stands in the line.
    #[inline(always)]
    pub fn stamp_text(&self) -> StampText
        requires { BeginsStamp self.now }
        ensures stamp { (frame : FrameRecord) → IsFrameOf self.now frame → text_micros result ≡ frame.stamp }
    {
        let mut text = [b')'; 19];
        let _ = bytes_before(&mut text, 18, *self.front);
        let micros = self.second + decimals(self.front);
        StampText { micros, text }
    }
}
