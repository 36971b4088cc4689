//! Requests for address claims (J1939-21, 5.4.2; J1939-81, 4.2.1).
ghost use Rattle.std.specs.Prelude.{◌≡◌};
ghost use Rattle.j39_address.specs.Request.{request_of};

use crate::claim::ADDRESS_CLAIMED;
use byteorder::{ByteOrder, LittleEndian};
use j39_frame::Frame;

/// Where a request for address claims goes, 255 for one to all; `None` for a frame that is no such
/// request. It is a frame of group 59904 whose first three bytes are the group 60928, the low byte
/// first; that more bytes are taken is (own).
pub(crate) fn request_of(frame: &Frame) -> Option<u8>
    ensures { result ≡ request_of frame.now }
{
    let bytes = frame.bytes.as_slice();
    if frame.id.is_request()
        && bytes.len() >= 3
        && LittleEndian::read_u24(bytes) == ADDRESS_CLAIMED
    {
        frame.id.destination()
    } else {
        None
    }
}
