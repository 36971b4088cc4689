//! Address claims (J1939-81, 4.2.2).
ghost use Rattle.std.specs.Prelude.{◌≡◌, Some};
ghost use Rattle.std.specs.Option.{option_map};
ghost use Rattle.j39_frame.specs.Stamp.{stamp_micros};
ghost use Rattle.j39_address.specs.Name.{name_raw};
ghost use Rattle.j39_address.specs.Claim.{claim_by, claim_frame, claim_of};

use crate::Name;
use byteorder::{ByteOrder, LittleEndian};
use j39_frame::{Frame, GLOBAL_ADDRESS, Id, Stamp};

/// The group of claims.
pub(crate) const ADDRESS_CLAIMED: u32 = 60_928;

/// The NAME that a frame tells and the address that it claims, 254 where it says that it can't claim
/// one; `None` for a frame that is no claim. A claim is a frame of group 60928, to any destination
/// (own), of exactly 8 bytes, from a source 0 to 254.
#[inline]
pub fn claim_of(frame: &Frame) -> Option<(Name, u8)>
    ensures { option_map claim_by result ≡ claim_of frame.now }
{
    if frame.id.is_address_claimed()
        && frame.bytes.len() == 8
        && frame.id.source() < GLOBAL_ADDRESS
    {
        let name = Name::new(LittleEndian::read_u64(frame.bytes.as_slice()));
        Some((name, frame.id.source()))
    } else {
        None
    }
}

/// The frame by which a NAME claims an address, or says that it can't claim one, where it is 254:
/// priority 6, to all.
pub(crate) fn claim_frame(name: Name, address: u8, now: Stamp) -> Option<Frame>
    ensures { result ≡ Some (claim_frame (stamp_micros now) (name_raw name) address) }
{
    let front = (6 << 26) + (ADDRESS_CLAIMED << 8);
    let to_all = u32::from(GLOBAL_ADDRESS) << 8;
    let id = Id::new(front + to_all + u32::from(address))?;
    Frame::new(now, id, name.bytes().as_slice())
}
