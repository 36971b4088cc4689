//! Messages that a listener hears.
ghost use Rattle.std.specs.Prelude.{◌≡◌};
ghost use Rattle.j39_frame.specs.Identifier.{destination_of, id_raw};
ghost use Rattle.j39_frame.specs.Pgn.{pgn_raw};
ghost use Rattle.j39_listen.specs.Heard.{sent_to, to_one};

use j39_address::Name;
use j39_frame::{GLOBAL_ADDRESS, Id, Pgn};
use j39_transport::Message;

/// A message, with whom it was sent to, and the NAME that held its source address when its last frame came.
#[derive(Debug, Drop)]
pub struct Heard<'a> {
    /// Who sent it, its group, its bytes, and the stamp of its last frame.
    pub message: Message<'a>,
    /// The address that it was sent to, 255 for all. Where its group has none (PF 240 and up; J1939-21, 5.2.5), that of its transfer by
    /// RTS and CTS, else `None`.
    pub destination: Option<u8>,
    /// The NAME of the sender; `None` where no claim tells it.
    pub name: Option<Name>,
}

impl<'a> Heard<'a> {
    /// The same message, in a place of its own: what a slow call is handed lies in memory, and what is read on the quick path
    /// need not.
    #[inline(always)]
    pub fn again(&self) -> Heard<'a>
        ensures { result ≡ self.now }
    {
        Heard {
            message: Message {
                source: self.message.source,
                pgn: self.message.pgn,
                payload: self.message.payload,
                stamp: self.message.stamp,
            },
            destination: self.destination,
            name: self.name,
        }
    }
}

/// The destination of a message of this group whose last frame has this identifier.
#[inline(always)]
pub(crate) fn destination(pgn: Pgn, id: Id) -> Option<u8>
    ensures { result ≡ sent_to (pgn_raw pgn) (id_raw id) }
{
    if pgn.raw() / 256 % 256 < 240 {
        Some(id.ps())
    } else {
        to_one(id)
    }
}

/// The one address that a frame with this identifier goes to; `None` for all.
#[inline(always)]
fn to_one(id: Id) -> Option<u8>
    ensures { result ≡ to_one (destination_of (id_raw id)) }
{
    match id.destination() {
        Some(address) => {
            if address == GLOBAL_ADDRESS {
                None
            } else {
                Some(address)
            }
        }
        None => None,
    }
}
