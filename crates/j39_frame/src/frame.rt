//! Frames.
ghost use Rattle.std.specs.Prelude.{◌≡◌, ◌<◌, ◌≤◌, ◌↔◌, length, IsSome, IfSome, All};
ghost use Rattle.j39_frame.specs.Stamp.{stamp_micros};
ghost use Rattle.j39_frame.specs.Identifier.{id_raw};

use crate::{Id, Stamp};
use arrayvec::ArrayVec;
use std::marker::Model;

/// A frame of a log: its moment, its identifier and its 0 to 8 bytes of data.
#[derive(Debug, Drop)]
pub struct Frame {
    /// When it was seen on the bus.
    pub stamp: Stamp,
    /// Its 29-bit identifier.
    pub id: Id,
    /// Its data.
    pub bytes: ArrayVec<u8, 8>,
}

impl Model for Frame {
    ghost use Rattle.std.specs.Prelude.{ℕ, List};
    ghost use Rattle.j39_frame.specs.Stamp.{stamp_micros};
    ghost use Rattle.j39_frame.specs.Identifier.{id_raw};
    ghost use Rattle.j39_frame.specs.Frame.{FrameRecord, IsFrame};

    ghost Value = { FrameRecord };

    ghost view = { λ f. record { stamp = stamp_micros f.stamp; id = id_raw f.id; bytes = f.bytes.items } };

    ghost invariant = { λ f. IsFrame (record
        { stamp = stamp_micros f.stamp; id = id_raw f.id; bytes = f.bytes.items }) };
}

impl Frame {
    /// The frame of these parts; `None` above 8 bytes.
    pub fn new(stamp: Stamp, id: Id, bytes: &[u8]) -> Option<Frame>
        ensures known { IsSome result ↔ (length bytes.now ≤ 8) }
        ensures value { IfSome result (λ frame.
            frame ≡ record { stamp = stamp_micros stamp; id = id_raw id; bytes = bytes.now }) }
    {
        let mut kept = ArrayVec::new();
        kept.try_extend_from_slice(bytes).ok()?;
        Some(Frame {
            stamp,
            id,
            bytes: kept,
        })
    }

    /// The frame of these parts, which are any.
    #[inline]
    pub fn from_parts(stamp: Stamp, id: Id, bytes: ArrayVec<u8, 8>) -> Frame
        ensures { result ≡ record { stamp = stamp_micros stamp; id = id_raw id; bytes = bytes.items } }
    {
        let _bytes = are_bytes(bytes.as_slice());
        let _len = bytes.is_full();
        Frame { stamp, id, bytes }
    }
}

fn are_bytes(bytes: &[u8])
    ensures { All (λ b. b < 256) bytes.now }
{}
