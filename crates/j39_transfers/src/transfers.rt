//! Messages that are sent in packets, each to another address.
ghost use Rattle.std.specs.Prelude.{◌≡◌, ◌↔◌, ◌≤◌, ◌<◌, ◌+◌, ◌*◌, ◌++◌, ◌∷◌, [], ◌^◌, ℕ, Option, Some, None, Err, Ok, IsTrue, IsSome, IfSome, IfOk, OnErr, true, false, length, map, nat_eq, nat_lt};
ghost use Rattle.std.specs.List.{find, list_any, position};
ghost use Rattle.std.specs.Option.{is_some, option_map};
ghost use Rattle.std.specs.Vec.{vec_capacity};
ghost use Rattle.j39_address.specs.Claims.{holder_in};
ghost use Rattle.j39_address.specs.Name.{name_raw};
ghost use Rattle.j39_frame.specs.Address.{IsAddress};
ghost use Rattle.j39_frame.specs.Pgn.{pgn_raw};
ghost use Rattle.j39_frame.specs.Stamp.{stamp_micros};
ghost use Rattle.j39_transport.specs.Cutting.{to_send};
ghost use Rattle.j39_transfers.specs.Boxes.{in_box, rest_by};
ghost use Rattle.j39_transfers.specs.declared.kinds.Ending.TheVariants as how;
ghost use Rattle.j39_transfers.specs.Transfers.{sender_of, answer, awake, begins, breaks, can_begin, can_move, goes, hears, hears_in, is_of, is_open, is_over, is_resting, leaves, leaves_in, listed, loses, moves, none_of, said, sends, sooner, soonest, to, tells, to, told, urgency};

use crate::kinds::{Ending, Outgoing, Refused};
use crate::running::{Rest, Running};
use j39_address::{Claims, Name};
use j39_boxes::remove;
use j39_frame::{Frame, Id, Pgn, Stamp, is_address};
use j39_transport::SenderInPlace;
use std::alloc::{AllocError, Global};

/// The messages that an address sends in packets: a transfer in each of its boxes, to each destination one; and which pairs of group and
/// destination rest.
pub struct Transfers {
    pub(crate) own: u8,
    pub(crate) boxes: u8,
    /// Those that aren't told to have ended: which sent a frame last, last.
    pub(crate) current: Vec<Box<Running>>,
    pub(crate) free: Vec<Box<Running>>,
    pub(crate) resting: Vec<Rest>,
    pub ghost address: { IsAddress own },
    pub ghost counted: { length current.items + length free.items ≡ boxes },
    pub ghost current_fits: { boxes ≤ vec_capacity current },
    pub ghost free_fits: { boxes ≤ vec_capacity free },
    pub ghost rests_fit: { 2 * boxes ≤ vec_capacity resting },
    pub ghost rests_left: { length resting.items + length current.items ≤ 2 * boxes },
}

// In what holds it this would be much code, by which that would be built on the stack, and not where it stays.
impl Drop for Transfers {
    #[inline(never)]
    fn drop(self) {
        let Transfers {
            own: _,
            boxes: _,
            current,
            free,
            resting,
        } = self;
        drop(current);
        drop(free);
        drop(resting);
    }
}

impl Transfers {
    ghost use Rattle.j39_transfers.specs.Boxes.{order_of};
    ghost use Rattle.j39_transfers.specs.Shown.{transfers_of};

    /// No transfer from an address, with memory for so many boxes, 1.9 kB each: no other call takes memory. `None` above 253, where
    /// nothing is taken; an error where memory is refused.
    pub fn new(alloc: Global, own: u8, boxes: u8) -> Result<Option<Transfers>, AllocError>
        ensures known { IfOk result (λ found. IsSome found ↔ IsAddress own) }
        ensures none { IfOk result (λ found. IfSome found (λ s. transfers_of s ≡ none_of own boxes)) }
        ensures refused { OnErr result (IsAddress own) }
    {
        if !is_address(own) {
            return Ok(None);
        }
        let count = usize::from(boxes);
        let mut free = Vec::with_capacity(alloc, count)?;
        for _ in 0..count {
            free.push_reserved(Box::new(alloc, Running::blank())?);
        }
        Ok(Some(Transfers {
            own,
            boxes,
            current: Vec::with_capacity(alloc, count)?,
            free,
            resting: Vec::with_capacity(alloc, 2 * count)?,
        }))
    }

    /// A message is to be sent to an address that this NAME holds. It is refused where it can't be sent so, one to its destination isn't
    /// told, its pair of group and destination rests, no box is free, or as many as twice the boxes rest or may yet.
    pub fn begin(
        &mut self,
        message: &Outgoing<'_>,
        name: Option<Name>,
        now: Stamp,
    ) -> Result<(), Refused>
        ensures answers { result ≡ answer (order_of message.now) (awake (stamp_micros now) (transfers_of self.old)) }
        ensures begins { transfers_of self.new ≡ begins (order_of message.now) (option_map name_raw name) (stamp_micros now)
            (transfers_of self.old) }
    {
        self.wake(now);
        let sender = self.sender(message).ok_or(Refused::BadValue)?;
        if self.is_open(message.destination) {
            return Err(Refused::Busy);
        }
        if self.is_resting(message.destination, message.group) {
            return Err(Refused::Resting);
        }
        if self.resting.len() + self.current.len() >= 2 * usize::from(self.boxes) {
            return Err(Refused::Full);
        }
        let mut running = self.free.pop().ok_or(Refused::Full)?;
        running.begin(sender, message, name, now);
        self.current.push_reserved(running);
        Ok(())
    }

    /// A frame was heard at this time: a clear to send, an acknowledgment or an abort is heard by the transfer to its source.
    pub fn hear(&mut self, frame: &Frame, now: Stamp)
        ensures { transfers_of self.new ≡ hears frame.now (stamp_micros now) (transfers_of self.old) }
    {
        hear_all(self.current.as_mut_slice(), frame, now);
    }

    /// The frame that goes first at this time: of those transfers with the smallest priority number that send one, the one whose last
    /// frame is longest ago.
    pub fn first_frame(&self, now: Stamp) -> Option<(Id, [u8; 8])>
        ensures { option_map to_send result ≡ said (stamp_micros now) (transfers_of self.now) }
    {
        let place = self.turn(now)?;
        self.current[place].frame(now)
    }

    /// The frame that goes first at this time was sent.
    pub fn drop_frame(&mut self, now: Stamp)
        ensures sent { transfers_of self.new ≡ sends (stamp_micros now) (transfers_of self.old) }
    {
        if let Some(place) = self.turn(now) {
            let mut first = remove(&mut self.current, place);
            first.sent(now);
            self.current.push_reserved(first);
        }
    }

    /// In how many microseconds one of them sends a frame, if nothing is heard till then; `None` if none does.
    pub fn due_in(&self, now: Stamp) -> Option<u64>
        ensures { result ≡ soonest (stamp_micros now) (transfers_of self.now).running }
    {
        let mut found = None;
        for running in &self.current {
            found = sooner(found, running.due_in(now));
        }
        found
    }

    /// One that ended: its token, and how. Its box is free again.
    pub fn take_ended(&mut self) -> Option<(u64, Ending)>
        ensures told { result ≡ told (transfers_of self.old) }
        ensures ends { transfers_of self.new ≡ tells (transfers_of self.old) }
    {
        let place = self.over()?;
        let running = remove(&mut self.current, place);
        let ended = running.ended();
        rest(&mut self.resting, running.rest());
        self.free.push_reserved(running);
        ended
    }

    /// Those end whose destination has another holder than was known, or a restarted one: that at this address.
    pub fn leave(&mut self, gone: Option<u8>, holders: &Claims, now: Stamp)
        ensures { transfers_of self.new ≡ leaves gone (holder_in holders.now) (stamp_micros now) (transfers_of self.old) }
    {
        leave_all(self.current.as_mut_slice(), gone, holders, now);
    }

    /// The address is lost: all end that aren't over.
    pub fn lose(&mut self, now: Stamp)
        ensures { transfers_of self.new ≡ loses (stamp_micros now) (transfers_of self.old) }
    {
        lose_all(self.current.as_mut_slice(), now);
    }

    /// Sends from another address from now on; what rests goes on to rest. False above 253, or where one isn't told to have ended: then
    /// nothing changes.
    pub fn move_to(&mut self, own: u8) -> bool
        ensures known { result ≡ can_move own (transfers_of self.old) }
        ensures moved { transfers_of self.new ≡ moves own (transfers_of self.old) }
        ensures stays { result ≡ false → self.new ≡ self.old }
    {
        if !is_address(own) || !self.current.is_empty() {
            return false;
        }
        self.own = own;
        true
    }

    /// The address.
    pub fn address(&self) -> u8
        ensures { result ≡ (transfers_of self.now).own }
    {
        self.own
    }

    /// Whether a transfer to this address isn't told to have ended.
    pub fn is_open(&self, destination: u8) -> bool
        ensures { result ≡ is_open destination (transfers_of self.now).running }
    {
        self.place_of(destination).is_some()
    }

    /// The place of the transfer to an address.
    fn place_of(&self, destination: u8) -> Option<usize>
        ensures { result ≡ position (λ b. nat_eq destination (to (in_box b))) self.now.current.items }
    {
        self.current
            .iter()
            .position(|running| destination == running.destination())
    }

    /// The place of the first that is over.
    fn over(&self) -> Option<usize>
        ensures { result ≡ position (λ b. is_over (in_box b)) self.now.current.items }
    {
        self.current.iter().position(|running| running.is_over())
    }

    /// The sender of a message, if it can be sent so.
    fn sender(&self, message: &Outgoing<'_>) -> Option<SenderInPlace>
        ensures known { IsSome result ↔ IsTrue (can_begin self.now.own (order_of message.now)) }
        ensures value { IfSome result (λ sender. sender ≡ sender_of self.now.own (order_of message.now)) }
    {
        if message.destination == self.own {
            return None;
        }
        SenderInPlace::new(
            self.own,
            message.group,
            message.payload,
            message.destination,
        )
    }

    /// Those that rested long enough no longer do.
    fn wake(&mut self, now: Stamp)
        ensures wakes { transfers_of self.new ≡ awake (stamp_micros now) (transfers_of self.old) }
        ensures stays { (self.new.current ≡ self.old.current) × (self.new.free ≡ self.old.free) × (self.new.own ≡ self.old.own) × (self.new.boxes ≡ self.old.boxes) }
    {
        self.resting.retain(|rest| now.micros() < rest.until);
    }

    fn is_resting(&self, to: u8, group: Pgn) -> bool
        ensures { result ≡ is_resting to (pgn_raw group) (transfers_of self.now).rests }
    {
        self.rest_of(to, group).is_some()
    }

    /// The place of what rests of this pair.
    fn rest_of(&self, to: u8, group: Pgn) -> Option<usize>
        ensures place { result ≡ position (λ x. is_of to (pgn_raw group) (rest_by x)) self.now.resting.items }
    {
        self.resting
            .iter()
            .position(|rest| rest.to == to && rest.group.raw() == group.raw())
    }

    /// The place of the transfer whose frame goes first.
    fn turn(&self, now: Stamp) -> Option<usize>
        ensures { result ≡ position (λ b. goes (stamp_micros now) (urgency (stamp_micros now) (map in_box self.now.current.items)) (in_box b))
            self.now.current.items }
    {
        let urgency = self.urgency(now)?;
        self.place(urgency, now)
    }

    /// The place of the first that sends a frame and has this priority number.
    fn place(&self, urgency: u64, now: Stamp) -> Option<usize>
        ensures { result ≡ position (λ b. goes (stamp_micros now) (Some urgency) (in_box b)) self.now.current.items }
    {
        self.current
            .iter()
            .position(|running| running.goes(urgency, now))
    }

    /// The smallest priority number of those that send a frame.
    fn urgency(&self, now: Stamp) -> Option<u64>
        ensures { result ≡ urgency (stamp_micros now) (map in_box self.now.current.items) }
    {
        let mut found = None;
        for running in &self.current {
            found = sooner(found, running.urgency(now));
        }
        found
    }
}

fn sooner(one: Option<u64>, other: Option<u64>) -> Option<u64>
    ensures { result ≡ sooner one other }
{
    match (one, other) {
        (None, _) => other,
        (Some(_), None) => one,
        (Some(m), Some(n)) => Some(m.min(n)),
    }
}

/// Each hears a frame.
fn hear_all(current: &mut [Box<Running>], frame: &Frame, now: Stamp)
    ensures { map in_box current.new ≡ map (hears_in frame.now (stamp_micros now)) (map in_box current.old) }
{
    for running in current.iter_mut() {
        running.hear(frame, now);
    }
}

/// Those end whose destination changed hands.
fn leave_all(current: &mut [Box<Running>], gone: Option<u8>, holders: &Claims, now: Stamp)
    ensures { map in_box current.new ≡ map (leaves_in gone (holder_in holders.now) (stamp_micros now)) (map in_box current.old) }
{
    for running in current.iter_mut() {
        running.leave(gone, holders, now);
    }
}

/// Each is broken off.
fn lose_all(current: &mut [Box<Running>], now: Stamp)
    ensures { map in_box current.new ≡ map (breaks how.Withdrawn (stamp_micros now)) (map in_box current.old) }
{
    for running in current.iter_mut() {
        running.break_off(Ending::Withdrawn, now);
    }
}

/// What rests by an end, behind the others; room was made for it.
fn rest(resting: &mut Vec<Rest>, rest: Option<Rest>)
    requires { length resting.old.items < vec_capacity resting.old }
    ensures items { map rest_by resting.new.items ≡ map rest_by resting.old.items ++ listed (option_map rest_by rest) }
    ensures count { length resting.new.items ≤ length resting.old.items + 1 }
    ensures room { vec_capacity resting.old ≤ vec_capacity resting.new }
{
    if let Some(rest) = rest {
        resting.push_reserved(rest);
    }
}
