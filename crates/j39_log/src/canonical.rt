//! The canonical line of a frame.
ghost use Rattle.std.specs.Prelude.{◌≡◌};
ghost use Rattle.j39_log.specs.Bus.{IsBusName};
ghost use Rattle.j39_log.specs.Canonical.{line_text};
ghost use Rattle.j39_frame.specs.Frame.{IsFrame};
ghost use Rattle.j39_log.specs.Line.{IsFrameLine};

use crate::{Bus, push_stamp};
use arrayvec::ArrayVec;
use j39_frame::Frame;
use j39_io::printing::{push_bytes, push_hex};

/// The line of a frame of a bus as `candump -l` writes it, without a newline: 31 to 61 bytes.
pub fn line_of(frame: &Frame, bus: &Bus) -> ArrayVec<u8, 64>
    ensures text { result.items ≡ line_text frame.now bus.now }
    ensures spells { IsFrameLine result.items bus.now frame.now }
{
    text_of(frame, bus)
}

fn text_of(frame: &Frame, bus: &Bus) -> ArrayVec<u8, 64>
    ensures text { result.items ≡ line_text frame.now bus.now }
    ensures range { IsFrame frame.now }
    ensures name { IsBusName bus.now }
{
    let mut out = ArrayVec::new();
    push_stamp(&mut out, frame.stamp);
    out.push(b' ');
    push_bytes(&mut out, bus.bytes());
    out.push(b' ');
    push_hex(&mut out, &frame.id.raw().to_be_bytes());
    out.push(b'#');
    push_hex(&mut out, frame.bytes.as_slice());
    out
}
