//! Frames as C has them.
ghost use Rattle.std.specs.Prelude.{◌≡◌, ◌↔◌, IsSome, IfSome, ◌∷◌, [], pos};
ghost use Rattle.std.specs.Option.{option_map};
ghost use Rattle.j39_frame.specs.Stamp.{stamp_micros};
ghost use Rattle.j39_transport.specs.Cutting.{to_send, without_stamp};
ghost use Rattle.j39_c.specs.Calls.{Puts};
ghost use Rattle.j39_c.specs.Can.{Fits, frame_of};
ghost use Rattle.j39_c.specs.Codes.{IsSentAt, sent, sent_packet};

use j39_frame::{Frame, Id, Stamp};

/// A frame, `j1939_frame` of the header.
#[repr(C)]
#[derive(Clone, Copy, Debug)]
pub struct CanFrame {
    /// When it was seen or is sent, in microseconds, below 10^16.
    pub micros: u64,
    /// Its 29-bit identifier.
    pub id: u32,
    /// How many bytes of data it has, 0 to 8.
    pub len: u8,
    /// Its data; what stands behind the first `len` bytes says nothing.
    pub data: [u8; 8],
}

/// What fills the data behind a frame's bytes.
const FILLER: u8 = 0xFF;

/// The frame of these parts; `None` for one that is out of range.
pub(crate) fn frame_in(can: &CanFrame) -> Option<Frame>
    ensures known { IsSome result ↔ Fits can.now }
    ensures value { IfSome result (λ frame. frame ≡ frame_of can.now) }
{
    let stamp = Stamp::new(can.micros)?;
    let id = Id::new(can.id)?;
    let bytes = can.data.get(..usize::from(can.len))?;
    Frame::new(stamp, id, bytes)
}

/// Writes out a frame that is to be sent: 1, or 0 where there is none.
pub(crate) fn put_frame(frame: Option<Frame>, can: &mut CanFrame) -> i32
    ensures { Puts frame 1 (pos 1 ∷ []) result (sent result can.new) (can.new ≡ can.old) }
{
    let Some(frame) = frame else {
        return 0;
    };
    write_frame(&frame, can);
    1
}

/// Writes out a frame.
pub(crate) fn write_frame(frame: &Frame, can: &mut CanFrame)
    ensures { frame_of can.new ≡ frame.now }
{
    let bytes = frame.bytes.as_slice();
    let mut data = [FILLER; 8];
    data[..bytes.len()].copy_from_slice(bytes);
    *can = CanFrame {
        micros: frame.stamp.micros(),
        id: frame.id.raw(),
        len: bytes.len() as u8,
        data,
    };
}

/// Writes out a frame of eight bytes that is to be sent at a moment: 1, or 0 where there is none.
pub(crate) fn put_packet(packet: Option<(Id, [u8; 8])>, now: Stamp, can: &mut CanFrame) -> i32
    ensures puts { Puts (option_map to_send packet) 1 (pos 1 ∷ []) result (sent_packet result can.new)
        (can.new ≡ can.old) }
    ensures moment { IsSentAt result can.new (stamp_micros now) }
{
    let Some(packet) = packet else {
        return 0;
    };
    let (id, bytes) = packet;
    write_packet(id, bytes, now, can);
    1
}

/// Writes out a frame of eight bytes.
pub(crate) fn write_packet(id: Id, bytes: [u8; 8], now: Stamp, can: &mut CanFrame)
    ensures value { without_stamp (frame_of can.new) ≡ to_send (id, bytes) }
    ensures moment { can.new.micros ≡ stamp_micros now }
{
    *can = CanFrame {
        micros: now.micros(),
        id: id.raw(),
        len: 8,
        data: bytes,
    };
}
