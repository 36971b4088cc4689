//! What an announcement names.
ghost use Rattle.std.specs.Prelude.{◌≡◌, ◌≤◌, ◌↔◌, IsTrue, IsSome, IfSome};
ghost use Rattle.j39_frame.specs.Pgn.{pgn_raw};
ghost use Rattle.j39_transport.specs.Frames.{agree, packets_for};

use crate::protocol::{LONGEST, SHORTEST};
use j39_frame::Pgn;

/// What a BAM or an RTS announces: a message of 9 to 1,785 bytes, in as many packets as it takes.
#[derive(Clone, Copy)]
pub(crate) struct Announcement {
    pub(crate) group: Pgn,
    pub(crate) size: u16,
    pub(crate) packets: u8,
    pub ghost least: { 9 ≤ size },
    pub ghost most: { size ≤ 1785 },
    pub ghost enough: { packets ≡ packets_for size },
}

impl Announcement {
    /// What stands in a buffer before its first message.
    pub(crate) fn unused() -> Announcement
        ensures { result.packets ≡ 2 }
    {
        Announcement {
            group: Pgn::new(0).unwrap(),
            size: 9,
            packets: 2,
        }
    }

    /// What is announced; `None` where size, packets and group don't agree.
    pub(crate) fn new(group: u32, size: u16, packets: u8) -> Option<Announcement>
        ensures known { IsSome result ↔ IsTrue (agree size packets group) }
        ensures value { IfSome result (λ a.
            (pgn_raw a.group ≡ group) × (a.size ≡ size) × (a.packets ≡ packets)) }
    {
        let group = Pgn::new(group)?;
        let bytes = usize::from(size);
        if bytes >= SHORTEST && bytes <= LONGEST && takes(size, packets) {
            Some(Announcement {
                group,
                size,
                packets,
            })
        } else {
            None
        }
    }
}

/// Whether a message of this size takes so many packets.
fn takes(size: u16, packets: u8) -> bool
    requires { size ≤ 65000 }
    ensures { IsTrue result ↔ (packets ≡ packets_for size) }
{
    u16::from(packets) == (size + 6) / 7
}
