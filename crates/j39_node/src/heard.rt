//! What a frame that is heard says: it is read once.
ghost use Rattle.std.specs.Prelude.{◌≡◌};
ghost use Rattle.std.specs.Option.{option_map};
ghost use Rattle.j39_address.specs.Claim.{claim_by};
ghost use Rattle.j39_node.specs.History.{asked_group, is_some};
ghost use Rattle.j39_node.specs.Is.{IsRead, claim_in, request_in};

use byteorder::{ByteOrder, LittleEndian};
use j39_address::{Name, claim_of};
use j39_frame::Frame;

/// What a frame says to the stack.
#[derive(Clone, Copy)]
pub(crate) enum Heard {
    /// A NAME claims an address, or says by 254 that it can't claim one (J1939-81, 4.2.2).
    Claim(Name, u8),
    /// The group that it asks for (J1939-21, 5.4.2).
    Request(u32),
    /// It is neither.
    Other,
}

impl Heard {
    /// Reads a frame.
    pub(crate) fn of(frame: &Frame) -> Heard
        ensures { IsRead result frame.now }
    {
        if let Some((name, address)) = claim_of(frame) {
            return Heard::Claim(name, address);
        }
        match asked_group(frame) {
            Some(group) => Heard::Request(group),
            None => Heard::Other,
        }
    }

    /// The claim.
    pub(crate) fn claim(self) -> Option<(Name, u8)>
        ensures { option_map claim_by result ≡ claim_in self }
    {
        match self {
            Heard::Claim(name, address) => Some((name, address)),
            Heard::Request(_group) => None,
            Heard::Other => None,
        }
    }

    /// The group that is asked for.
    pub(crate) fn request(self) -> Option<u32>
        ensures { result ≡ request_in self }
    {
        match self {
            Heard::Claim(_name, _address) => None,
            Heard::Request(group) => Some(group),
            Heard::Other => None,
        }
    }

    /// Whether it is a request for this group.
    pub(crate) fn asks_for(self, group: u32) -> bool
        ensures { result ≡ is_some (request_in self) group }
    {
        match self.request() {
            Some(asked) => asked == group,
            None => false,
        }
    }
}

fn asked_group(frame: &Frame) -> Option<u32>
    ensures { result ≡ asked_group frame.now }
{
    let bytes = frame.bytes.as_slice();
    if frame.id.is_request() && bytes.len() >= 3 {
        Some(LittleEndian::read_u24(bytes))
    } else {
        None
    }
}
