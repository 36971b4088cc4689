//! What the readings of a message have in common.
ghost use Rattle.std.specs.Prelude.{◌≡◌};
ghost use Rattle.j39_frame.specs.Stamp.{stamp_micros};
ghost use Rattle.j39_listen.specs.HeardModel.{hearing_of};
ghost use Rattle.j39_reports.specs.MessageHeads.{IsHeadOf, origin_in};

use j39_address::Name;
use j39_frame::{Origin, Stamp};
use j39_listen::Heard;

/// The moment, the sender, the destination and the group of a message; what is small stands side by side, with little between.
#[derive(Clone, Copy, Debug)]
pub struct MessageHead {
    pub stamp: Stamp,
    pub name: Option<u64>,
    pub pgn: u32,
    pub address: u8,
    pub destination: Option<u8>,
}

impl MessageHead {
    /// At the moment 0, of nobody.
    pub fn new() -> MessageHead
        ensures { stamp_micros result.stamp ≡ 0 }
    {
        MessageHead {
            stamp: Stamp::new(0).unwrap(),
            address: 0,
            destination: None,
            name: None,
            pgn: 0,
        }
    }

    /// That of a message.
    #[inline(always)]
    pub fn of(heard: &Heard<'_>) -> MessageHead
        ensures { IsHeadOf result (hearing_of heard.now) }
    {
        MessageHead {
            stamp: heard.message.stamp,
            address: heard.message.source,
            destination: heard.destination,
            name: heard.name.map(Name::raw),
            pgn: heard.message.pgn.raw(),
        }
    }

    /// The origin of a parameter of the message.
    #[inline(always)]
    pub fn origin(&self, spn: u32) -> Origin
        ensures { result ≡ origin_in self.now spn }
    {
        Origin {
            address: self.address,
            destination: self.destination,
            name: self.name,
            pgn: self.pgn,
            spn,
        }
    }
}
