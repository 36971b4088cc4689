//! Messages cut into packets (J1939-21, 5.10).
ghost use Rattle.std.specs.Prelude.{◌≡◌, ◌≤◌, ◌↔◌, ◌++◌, List, length, take, drop, map, replicate, IsSome, IfSome};
ghost use Rattle.j39_frame.specs.Address.{IsAddress};
ghost use Rattle.j39_frame.specs.Frame.{FrameRecord};
ghost use Rattle.j39_frame.specs.Identifier.{id_raw, priority_of};
ghost use Rattle.j39_frame.specs.Pgn.{pgn_raw};
ghost use Rattle.j39_transport.specs.Message.{IsLong, as_broadcast, packets_of};
ghost use Rattle.j39_transport.specs.Carries.{Carries, joined};
ghost use Rattle.j39_transport.specs.Protocol.{filler};
ghost use Rattle.j39_transport.specs.Cutting.{cut_frame, cut_frames, packet_data, to_send, without_stamp};

use crate::announcement::Announcement;
use crate::protocol::{BROADCAST_ANNOUNCE, FILLER, LONGEST, NO_LIMIT, SHORTEST};
use crate::writing;
use j39_frame::{GLOBAL_ADDRESS, Id, Pgn, is_address};
use std::marker::Model;

/// A message of 9 to 1,785 bytes, to be sent in packets of seven bytes.
#[derive(Drop)]
pub struct Cut<'a> {
    source: u8,
    pgn: Pgn,
    payload: &'a [u8],
}

impl<'a> Model for Cut<'a> {
    ghost use Rattle.j39_frame.specs.Pgn.{pgn_raw};
    ghost use Rattle.j39_transport.specs.Message.{MessageRecord, IsLong};

    ghost Value = { MessageRecord };

    ghost view = { λ c. record { source = c.source; pgn = pgn_raw c.pgn; bytes = c.payload.now } };

    ghost invariant = { λ c. IsLong (record { source = c.source; pgn = pgn_raw c.pgn; bytes = c.payload.now }) };
}

impl<'a> Cut<'a> {
    /// The message, cut; `None` outside 9 to 1,785 bytes, or for a source above 253.
    pub fn new(source: u8, pgn: Pgn, payload: &'a [u8]) -> Option<Cut<'a>>
        ensures known { IsSome result ↔ (IsAddress source × (9 ≤ length payload.now) × (length payload.now ≤ 1785)) }
        ensures value { IfSome result (λ cut.
            cut ≡ record { source = source; pgn = pgn_raw pgn; bytes = payload.now }) }
    {
        if !is_address(source) || payload.len() < SHORTEST || payload.len() > LONGEST {
            return None;
        }
        let _fits = pgn.raw();
        Some(Cut {
            source,
            pgn,
            payload,
        })
    }

    /// A message that is known to be long.
    pub(crate) fn of(source: u8, pgn: Pgn, payload: &'a [u8]) -> Cut<'a>
        requires { IsLong (record { source = source; pgn = pgn_raw pgn; bytes = payload.now }) }
        ensures { result ≡ record { source = source; pgn = pgn_raw pgn; bytes = payload.now } }
    {
        Cut {
            source,
            pgn,
            payload,
        }
    }

    /// How many packets the message takes, 2 to 255.
    pub fn packets(&self) -> u8
        ensures value { result ≡ packets_of self.now }
        ensures long { IsLong self.now }
    {
        self.size().div_ceil(7) as u8
    }

    /// The frames that broadcast the message: frame 0 is the announcement, frames 1 to `packets` are
    /// the packets, each of priority 7; `None` above.
    #[tactic(auto, using(crate::proofs::CuttingLemmas::broadcast_carries, crate::proofs::CuttingLemmas::cut_payload), unfolding(crate::specs::Cutting::cut_frame, crate::specs::Cutting::announcement_of, crate::specs::Cutting::packet_of))]
    pub fn frame(&self, k: u16) -> Option<(Id, [u8; 8])>
        ensures known { IsSome result ↔ (k ≤ packets_of self.now) }
        ensures value { IfSome result (λ frame. to_send frame ≡ cut_frame (as_broadcast self.now) self.now k) }
        ensures priority { IfSome result (λ frame. priority_of (id_raw frame.0) ≡ 7) }

        // At whatever moments, the frames carry the message as a broadcast.
        ensures carries { (frames : List FrameRecord)
            → map without_stamp frames ≡ cut_frames (as_broadcast self.now) self.now
            → Carries (as_broadcast self.now) self.now frames }
        ensures payload { (frames : List FrameRecord)
            → map without_stamp frames ≡ cut_frames (as_broadcast self.now) self.now
            → take (length self.now.bytes) (joined (drop 1 frames)) ≡ self.now.bytes }
    {
        let packets = self.packets();
        if k == 0 {
            let group = self.pgn.raw();
            let bytes = writing::announcement_bytes(
                BROADCAST_ANNOUNCE,
                self.size(),
                packets,
                NO_LIMIT,
                group,
            );
            Some((writing::control_id(self.source, GLOBAL_ADDRESS), bytes))
        } else if k <= u16::from(packets) {
            let bytes = writing::packet_bytes(k as u8, self.data(k as u8));
            Some((writing::data_id(self.source, GLOBAL_ADDRESS), bytes))
        } else {
            None
        }
    }

    /// The address that sends it.
    pub(crate) fn source(&self) -> u8
        ensures value { result ≡ self.now.source }
        ensures address { IsAddress result }
    {
        self.source
    }

    pub(crate) fn pgn(&self) -> Pgn
        ensures { pgn_raw result ≡ self.now.pgn }
    {
        self.pgn
    }

    /// What it announces.
    pub(crate) fn announcement(&self) -> Announcement
        ensures size { result.size ≡ length self.now.bytes }
        ensures packets { result.packets ≡ packets_of self.now }
        ensures group { pgn_raw result.group ≡ self.now.pgn }
    {
        Announcement {
            group: self.pgn,
            size: self.size(),
            packets: self.packets(),
        }
    }

    /// The size in bytes, 9 to 1,785.
    pub(crate) fn size(&self) -> u16
        ensures value { result ≡ length self.now.bytes }
        ensures long { IsLong self.now }
    {
        self.payload.len() as u16
    }

    /// The data of a packet: the next seven bytes, filled up.
    #[tactic(auto, unfolding(crate::specs::Cutting::packet_data))]
    pub(crate) fn data(&self, number: u8) -> [u8; 7]
        requires first { 1 ≤ number }
        requires last { number ≤ packets_of self.now }
        ensures { result ≡ packet_data self.now.bytes number }
    {
        let at = 7 * (usize::from(number) - 1);
        filled(&self.payload[at..])
    }
}

/// The first seven bytes, filled up.
#[tactic(auto, using(crate::proofs::PacketLemmas::filled_up))]
fn filled(bytes: &[u8]) -> [u8; 7]
    ensures { result ≡ take 7 (bytes.now ++ replicate 7 filler) }
{
    let mut data = [FILLER; 7];
    let n = bytes.len().min(7);
    data[..n].copy_from_slice(&bytes[..n]);
    data
}
