//! Messages that are broadcast in packets (J1939-21, 5.10.3.5 and 5.12.3).
ghost use Rattle.std.specs.Prelude.{◌≡◌, ◌≤◌, ◌||◌, ◌==◌, ◌+◌, ℕ, List, length, min, nat_eq, None, Some, IfOk, IfSome, IsSomeAnd, true, if◌then◌else◌};
ghost use Rattle.std.specs.Option.{option_map};
ghost use Rattle.j39_frame.specs.Identifier.{id_raw};
ghost use Rattle.j39_frame.specs.Pgn.{pgn_raw};
ghost use Rattle.j39_frame.specs.Stamp.{stamp_micros};
ghost use Rattle.j39_frame.specs.Network.{transport_control_group, transport_data_group};
ghost use Rattle.j39_transport.specs.Message.{packets_of};
ghost use Rattle.j39_node.specs.History.{Who, broadcast_from, can_broadcast, carried, is_left, nothing};
ghost use Rattle.j39_node.specs.Boxes.{how_many};

use crate::Ending;
use crate::hold::SLACK;
use crate::own::{Own, TRANSPORT_CONTROL, TRANSPORT_DATA};
use arrayvec::ArrayVec;
use j39_frame::{Frame, GLOBAL_ADDRESS, Id, Pgn, Stamp};
use j39_transport::{Cut, LONGEST};
use std::alloc::{AllocError, Global};

/// A broadcast that is not told to have ended.
#[derive(Drop)]
pub(crate) struct Open {
    pub(crate) token: u64,
    pub(crate) group: Pgn,
    pub(crate) bytes: Box<ArrayVec<u8, LONGEST>>,
    pub ghost least: { 9 ≤ length bytes.value.items },
    pub ghost most: { length bytes.value.items ≤ 1785 },
}

impl Open {
    ghost use Rattle.j39_node.specs.Is.{opened, packet_by, stamped, who_of};

    /// A message that is to be broadcast, in a box.
    fn new(token: u64, group: Pgn, bytes: &[u8], mut kept: Box<ArrayVec<u8, LONGEST>>) -> Open
        requires { can_broadcast (pgn_raw group) bytes.now ≡ true }
        ensures { (w : Who) → opened w result ≡ (token, broadcast_from w (pgn_raw group) bytes.now) }
    {
        kept.clear();
        let _fits = kept.try_extend_from_slice(bytes);
        Open {
            token,
            group,
            bytes: kept,
        }
    }

    /// How many packets it takes.
    fn packets(&self) -> u16
        ensures value { (w : Who) → result ≡ packets_of (opened w self.now).1 }
        ensures most { result ≤ 255 }
    {
        ((self.bytes.len() as u32 + 6) / 7) as u16
    }

    /// Frame `count` of it; `None` past its last.
    fn frame(&self, own: &Own, count: u16, now: Stamp) -> Option<Frame>
        ensures { option_map stamped result ≡ option_map (λ m. (stamp_micros now, m))
            (packet_by (Some (opened (who_of nothing own.now) self.now)) count 0) }
    {
        let cut = Cut::new(own.address, self.group, self.bytes.as_slice())?;
        let (_id, bytes) = cut.frame(count)?;
        let id = frame_id(own.address, count)?;
        Frame::new(now, id, &bytes)
    }
}

/// The lane of broadcasts: one is open at a time.
#[derive(Drop)]
pub(crate) struct Lane {
    pub(crate) current: Option<Open>,
    /// The box for the next, while none is open.
    pub(crate) free: Option<Box<ArrayVec<u8, LONGEST>>>,
    /// How many of its frames were taken.
    pub(crate) count: u16,
    pub(crate) next_token: u64,
    pub ghost one: { how_many current + how_many free ≤ 1 },
}

impl Lane {
    ghost use Rattle.j39_node.specs.Is.{broadcast_end, lane_of, opened, packet_by, stamped, who_of};

    /// The box of a broadcast, where there are any for transfers: it takes memory.
    #[inline(never)]
    pub(crate) fn room(
        alloc: Global,
        transfers: u8,
    ) -> Result<Option<Box<ArrayVec<u8, LONGEST>>>, AllocError>
        ensures { IfOk result (λ free. how_many free ≡ min 1 transfers) }
    {
        if transfers == 0 {
            return Ok(None);
        }
        Ok(Some(Box::new(alloc, ArrayVec::new())?))
    }

    /// No broadcast was accepted, and this is the box of the next.
    pub(crate) fn new(free: Option<Box<ArrayVec<u8, LONGEST>>>) -> Lane
        ensures { (w : Who) → lane_of w result ≡ record { current = None; count = 0; next_token = 0; boxes = how_many free } }
    {
        Lane {
            current: None,
            free,
            count: 0,
            next_token: 0,
        }
    }

    /// The next frame of the open broadcast, once it is due.
    pub(crate) fn frame(&self, own: &Own, pause: u32, now: Stamp) -> Option<Frame>
        ensures frame { option_map stamped result ≡ option_map (λ m. (stamp_micros now, m))
            (packet_by (lane_of (who_of nothing own.now) self.now).current self.now.count pause) }
        ensures count { IfSome result (λ f. self.now.count ≤ 255) }
    {
        if pause > SLACK {
            return None;
        }
        match &self.current {
            Some(broadcast) => {
                if self.count > broadcast.packets() {
                    return None;
                }
                broadcast.frame(own, self.count, now)
            }
            None => None,
        }
    }

    /// Whether a frame of the open broadcast wasn't taken.
    pub(crate) fn is_left(&self) -> bool
        ensures { (w : Who) → result ≡ is_left (lane_of w self.now).current self.now.count }
    {
        match &self.current {
            Some(broadcast) => self.count <= broadcast.packets(),
            None => false,
        }
    }

    /// Opens a broadcast, and answers its token; `None` where no box is free, or no token is left.
    pub(crate) fn open(&mut self, group: Pgn, bytes: &[u8]) -> Option<u64>
        requires { can_broadcast (pgn_raw group) bytes.now ≡ true }
        ensures known { result ≡ (if nat_eq (how_many self.old.free) 0 || nat_eq self.old.next_token 18446744073709551615 then None else Some self.old.next_token) }
        ensures opened { IfSome result (λ token. (w : Who) → lane_of w self.new ≡ record
            { current = Some (token, broadcast_from w (pgn_raw group) bytes.now); count = 0; next_token = token + 1; boxes = (lane_of w self.old).boxes }) }
        ensures stays { result ≡ None → self.new ≡ self.old }
    {
        if self.next_token == u64::MAX {
            return None;
        }
        let kept = self.free.take()?;
        let token = self.next_token;
        self.current = Some(Open::new(token, group, bytes, kept));
        self.count = 0;
        self.next_token += 1;
        Some(token)
    }

    /// Closes the broadcast that is open: its box is free for the next.
    pub(crate) fn close(&mut self)
        ensures { (w : Who) → lane_of w self.new ≡ record (lane_of w self.old) { current = None } }
    {
        if let Some(broadcast) = self.current.take() {
            self.free = Some(broadcast.bytes);
        }
    }

    /// How the open broadcast ended.
    pub(crate) fn ended(&self, is_lost: bool) -> Option<(u64, Ending)>
        ensures { (w : Who) → result ≡ broadcast_end (lane_of w self.now).current self.now.count is_lost }
    {
        match &self.current {
            Some(broadcast) => {
                if broadcast.packets() < self.count {
                    return Some((broadcast.token, Ending::Done));
                }
                if is_lost {
                    return Some((broadcast.token, Ending::Withdrawn));
                }
                None
            }
            None => None,
        }
    }
}

/// The identifier of frame `count` of a broadcast.
fn frame_id(source: u8, count: u16) -> Option<Id>
    ensures { IsSomeAnd result (λ id. (bytes : List ℕ) → carried (id_raw id) bytes ≡ record {
      source = source;
      destination = Some 255;
      priority = 7;
      group = if count == 0 then transport_control_group else transport_data_group;
      bytes = bytes;
    }) }
{
    let number = if count == 0 {
        TRANSPORT_CONTROL
    } else {
        TRANSPORT_DATA
    };
    let group = Pgn::new(number)?;
    Id::compose(7, group, GLOBAL_ADDRESS, source)
}
