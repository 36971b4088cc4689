//! The sessions of an address, each of another source, and what they received.
ghost use Rattle.std.specs.Prelude.{◌≡◌, ◌↔◌, ◌≤◌, ◌<◌, ◌+◌, ◌++◌, ◌^◌, ℕ, Option, Some, None, IsTrue, IsSome, IfSome, IfOk, OnErr, true, false, length, map, [], ◌∷◌, nat_eq, nat_lt, List, unwrap_or};
ghost use Rattle.std.specs.List.{All, position, slice_get};
ghost use Rattle.std.specs.Option.{is_some, option_map};
ghost use Rattle.std.specs.Vec.{vec_capacity};
ghost use Rattle.j39_address.specs.Claims.{holder_in};
ghost use Rattle.j39_address.specs.Name.{name_raw};
ghost use Rattle.j39_frame.specs.Address.{IsAddress};
ghost use Rattle.j39_frame.specs.Identifier.{pgn_of, source_of};
ghost use Rattle.j39_frame.specs.Pgn.{pgn_raw};
ghost use Rattle.j39_frame.specs.Stamp.{stamp_micros};
ghost use Rattle.j39_transport.specs.Cutting.{ToSend};
ghost use Rattle.j39_transport.specs.ReceiverModel.{message_shown};
ghost use Rattle.j39_transport.specs.Receiving.{new_receiver};
ghost use Rattle.j39_sessions.specs.Sessions.{earliest, from, hears, is_left, is_of, is_same, is_of_session, is_open, leaves, limit_in, listed, loses, made, none_of, of, others, put_in, releases, replied, says, session_by, sooner, step_at, ticks, without, Session};
ghost use Rattle.j39_sessions.specs.Seats.{IsOpenAt, Lends, bytes_of, in_box, session_with};

use crate::seat::Seat;
use arrayvec::ArrayVec;
use j39_address::{Claims, Name};
use j39_boxes::remove;
use j39_frame::{Frame, NULL_ADDRESS, Pgn, Stamp, is_address};
use j39_transport::{Message, Receiver};
use std::alloc::{AllocError, Global};

/// The groups of sessions: their control, and their packets (J1939-21, 5.10.2).
const TRANSPORT_CONTROL: u32 = 60_416;

const TRANSPORT_DATA: u32 = 60_160;

/// What is to be said to an address.
#[derive(Clone, Copy)]
pub(crate) struct Said {
    pub(crate) to: u8,
    pub(crate) bytes: [u8; 8],
}

impl Default for Said {
    fn default() -> Said {
        Said {
            to: 0,
            bytes: [0; 8],
        }
    }
}

/// The messages that come in packets to an address: an open session, or a whole message that waits, in each of its boxes, of each
/// source one session; and what is to be said, one frame to an address.
#[derive(Drop)]
pub struct Sessions {
    pub(crate) own: u8,
    /// How many packets it grants at once at most; 0 sets no limit.
    pub(crate) most: u8,
    /// For whom there is no box.
    refuser: Receiver,
    /// Those that are open: which heard a frame last, last.
    pub(crate) current: Vec<Box<Seat>>,
    /// Those whose message waits, the oldest first.
    pub(crate) whole: Vec<Box<Seat>>,
    pub(crate) free: Vec<Box<Seat>>,
    pub(crate) replies: ArrayVec<Said, 16>,
    pub ghost address: { IsAddress own },
    pub ghost refuses: { refuser.state ≡ new_receiver own },
    pub ghost opened: { All (IsOpenAt own) current.items },
    pub ghost lent: { All Lends whole.items },
    pub ghost current_fits: { length current.items + length whole.items + length free.items ≤ vec_capacity current },
    pub ghost whole_fits: { length current.items + length whole.items + length free.items ≤ vec_capacity whole },
    pub ghost free_fits: { length current.items + length whole.items + length free.items ≤ vec_capacity free },
}

impl Sessions {
    ghost use Rattle.j39_sessions.specs.Shown.{sessions_of};

    /// No session at an address, which grants at most so many packets at once (0 sets no limit), with memory for so many boxes, 1.9 kB
    /// each: no other call takes memory. `None` above 253, where nothing is taken; an error where memory is refused.
    pub fn new(alloc: Global, own: u8, most: u8, boxes: u8) -> Result<Option<Sessions>, AllocError>
        ensures known { IfOk result (λ found. IsSome found ↔ IsAddress own) }
        ensures none { IfOk result (λ found. IfSome found (λ s. sessions_of s ≡ none_of own most boxes)) }
        ensures refused { OnErr result (IsAddress own) }
    {
        let Some(refuser) = Receiver::new(alloc, own) else {
            return Ok(None);
        };
        let count = usize::from(boxes);
        let mut free = Vec::with_capacity(alloc, count)?;
        for _ in 0..count {
            if let Some(seat) = Seat::new(alloc, own)? {
                free.push_reserved(Box::new(alloc, seat)?);
            }
        }
        Ok(Some(Sessions {
            own,
            most,
            refuser,
            current: Vec::with_capacity(alloc, count)?,
            whole: Vec::with_capacity(alloc, count)?,
            free,
            replies: ArrayVec::new(),
        }))
    }

    /// A frame was heard at this time, whose source this NAME holds. Of a session to the address it is that of its source, or it
    /// opens one where a box is free; where none is, an RTS is refused (abort 2). Answers the source and the group of the message
    /// that is whole by it, and waits.
    pub fn hear(&mut self, frame: &Frame, now: Stamp, name: Option<Name>) -> Option<(u8, u32)>
        ensures made { result ≡ option_map (λ m. (m.source, m.pgn)) (made (stamp_micros now) frame.now (sessions_of self.old)) }
        ensures heard { sessions_of self.new ≡ hears (stamp_micros now) (option_map name_raw name) frame.now (sessions_of self.old) }
    {
        if !is_of_session(self.own, frame) {
            return None;
        }
        match self.take_out(frame.id.source()) {
            Some(seat) => self.take(seat, frame, now),
            None => match self.free.pop() {
                Some(mut seat) => {
                    seat.begin(self.own, now, name);
                    self.take(seat, frame, now)
                }
                None => {
                    self.refuse(frame);
                    None
                }
            },
        }
    }

    /// Time passes: a session that heard nothing for its time asks again, or is aborted (abort 3), at the latest (n + 3) * 1,250 ms,
    /// of n packets, after its source opened one where none was.
    pub fn tick(&mut self, now: Stamp)
        ensures { sessions_of self.new ≡ ticks (stamp_micros now) (sessions_of self.old) }
    {
        let count = self.current.len();
        for _ in 0..count {
            let mut seat = remove(&mut self.current, 0);
            let source = seat.source();
            let said = seat.tick(now);
            self.reply(source, said);
            self.settle(seat);
        }
    }

    /// Those end whose source has another holder than when it was opened, or none, or whose holder restarted: the one at this
    /// address. What waits to be said to them isn't said.
    pub fn leave(&mut self, gone: Option<u8>, holders: &Claims)
        ensures { sessions_of self.new ≡ leaves gone (holder_in holders.now) (sessions_of self.old) }
    {
        while let Some(place) = self.left(gone, holders) {
            let seat = remove(&mut self.current, place);
            self.silence(seat.source());
            self.free.push_reserved(seat);
        }
    }

    /// The address is lost: all sessions end, and nothing is said.
    pub fn lose(&mut self)
        ensures { sessions_of self.new ≡ loses (sessions_of self.old) }
    {
        while let Some(seat) = self.current.pop() {
            self.free.push_reserved(seat);
        }
        self.replies.clear();
    }

    /// Begins anew at another address: as `lose`. False above 253, where nothing changes.
    pub fn move_to(&mut self, own: u8) -> bool
        ensures known { IsTrue result ↔ IsAddress own }
        ensures moved { result ≡ true → sessions_of self.new ≡ record (loses (sessions_of self.old)) { own = own } }
        ensures stays { result ≡ false → self.new ≡ self.old }
    {
        if !is_address(own) {
            return false;
        }
        self.lose();
        let _is_address = self.refuser.move_to(own);
        self.own = own;
        true
    }

    /// The address.
    pub fn address(&self) -> u8
        ensures { result ≡ (sessions_of self.now).own }
    {
        self.own
    }

    /// The oldest message that waits.
    pub fn message(&self) -> Option<Message<'_>>
        ensures value { option_map (λ m. (stamp_micros m.stamp, message_shown m)) result ≡ slice_get (sessions_of self.now).waits 0 }
        ensures most { IfSome result (λ m. length m.payload.now ≤ 1785) }
    {
        let seat = self.whole.first()?;
        Some(Message {
            stamp: seat.stamp,
            ..seat.receiver.delivered()?
        })
    }

    /// The NAME that held the source of the oldest message that waits; `None` if nobody did, or none waits.
    pub fn sender(&self) -> Option<Name>
        ensures { option_map name_raw result ≡ unwrap_or (slice_get (sessions_of self.now).senders 0) None }
    {
        self.whole.first()?.name
    }

    /// Frees the box of the oldest message that waits; whether one did.
    pub fn release(&mut self) -> bool
        ensures waited { result ≡ nat_lt 0 (length (sessions_of self.old).waits) }
        ensures released { sessions_of self.new ≡ releases (sessions_of self.old) }
    {
        if self.whole.is_empty() {
            return false;
        }
        let seat = remove(&mut self.whole, 0);
        self.free.push_reserved(seat);
        true
    }

    /// Whether a message waits.
    pub fn is_waiting(&self) -> bool
        ensures { result ≡ nat_lt 0 (length (sessions_of self.now).waits) }
    {
        !self.whole.is_empty()
    }

    /// The first that is to be said: to whom, and its bytes.
    pub fn first_reply(&self) -> Option<(u8, [u8; 8])>
        ensures { option_map (λ x. record { to = x.0; bytes = x.1 }) result ≡ slice_get (sessions_of self.now).replies 0 }
    {
        let said = self.replies.as_slice().first()?;
        Some((said.to, said.bytes))
    }

    /// The first that is to be said was sent.
    pub fn drop_reply(&mut self)
        ensures { sessions_of self.new ≡ says (sessions_of self.old) }
    {
        if !self.replies.is_empty() {
            let _first = self.replies.remove(0);
        }
    }

    /// Whether something is to be said.
    pub fn has_reply(&self) -> bool
        ensures { result ≡ nat_lt 0 (length (sessions_of self.now).replies) }
    {
        !self.replies.is_empty()
    }

    /// The last moment, in microseconds, at which a tick says nothing; `None` with no session.
    pub fn limit(&self) -> Option<u64>
        ensures value { result ≡ earliest (sessions_of self.now).sessions }
        ensures fits { IfSome result (λ n. n < 2 ^ 54) }
    {
        let mut found = None;
        for seat in &self.current {
            found = sooner(found, Some(seat.limit()));
        }
        found
    }

    /// Whether a session of this source, with a message of this group, is open.
    pub fn is_open(&self, source: u8, group: Pgn) -> bool
        ensures { result ≡ is_open source (pgn_raw group) (sessions_of self.now).sessions }
    {
        self.place_of(source, group).is_some()
    }

    /// The place of such a session.
    fn place_of(&self, source: u8, group: Pgn) -> Option<usize>
        ensures { result ≡ position (λ b. is_of source (pgn_raw group) (in_box b)) self.now.current.items }
    {
        self.current
            .iter()
            .position(|seat| seat.is_of(source, group))
    }

    /// The place of the first whose source has another holder.
    fn left(&self, gone: Option<u8>, holders: &Claims) -> Option<usize>
        ensures { result ≡ position (λ b. is_left gone (holder_in holders.now) (in_box b)) self.now.current.items }
    {
        self.current
            .iter()
            .position(|seat| seat.is_left(gone, holders))
    }

    /// Takes out the session of a source.
    fn take_out(&mut self, source: u8) -> Option<Box<Seat>>
        ensures value { option_map in_box result ≡ of source (sessions_of self.old).sessions }
        ensures opened { IfSome result (IsOpenAt self.old.own) }
        ensures rest { map in_box self.new.current.items ≡ others source (sessions_of self.old).sessions }
        ensures none { result ≡ None → self.new ≡ self.old }
        ensures stays { (self.new.whole ≡ self.old.whole) × (self.new.free ≡ self.old.free) × (self.new.replies ≡ self.old.replies) × (self.new.own ≡ self.old.own)
            × (self.new.most ≡ self.old.most) }
        ensures counts { IsSome result → length self.new.current.items + 1 ≡ length self.old.current.items }
        ensures room { IsSome result → vec_capacity self.new.current ≡ vec_capacity self.old.current }
    {
        let place = self.place(source)?;
        Some(remove(&mut self.current, place))
    }

    /// The place of the session of a source.
    fn place(&self, source: u8) -> Option<usize>
        ensures { result ≡ position (λ b. nat_eq source (from (in_box b))) self.now.current.items }
    {
        self.current.iter().position(|seat| source == seat.source())
    }

    /// A frame is heard in a box.
    fn take(&mut self, mut seat: Box<Seat>, frame: &Frame, now: Stamp) -> Option<(u8, u32)>
        requires at { seat.value.receiver.state.own ≡ self.old.own }
        requires eight { length frame.now.bytes ≡ 8 }
        requires current { length self.old.current.items + length self.old.whole.items + length self.old.free.items < vec_capacity self.old.current }
        requires whole { length self.old.current.items + length self.old.whole.items + length self.old.free.items < vec_capacity self.old.whole }
        requires free { length self.old.current.items + length self.old.whole.items + length self.old.free.items < vec_capacity self.old.free }
        ensures made { (o : Option Session) → o ≡ option_map (session_with seat.value) seat.value.receiver.state.session
            → result ≡ option_map (λ m. (m.source, m.pgn)) (step_at self.old.own self.old.most true frame.now (stamp_micros now) o).delivers }
        ensures taken { (o : Option Session) → o ≡ option_map (session_with seat.value) seat.value.receiver.state.session
            → sessions_of self.new ≡ record (put_in (source_of frame.now.id) (stamp_micros seat.value.since) (option_map name_raw seat.value.name) frame.now
            (step_at self.old.own self.old.most true frame.now (stamp_micros now) o) (sessions_of self.old)) { boxes = (sessions_of self.old).boxes + 1 } }
    {
        let outcome = seat.hear(self.most, frame, now);
        self.reply(frame.id.source(), outcome.says);
        if outcome.made.is_some() {
            self.whole.push_reserved(seat);
            return outcome.made;
        }
        self.settle(seat);
        None
    }

    /// Puts a box behind those that are open, or to those that are free.
    fn settle(&mut self, seat: Box<Seat>)
        requires at { seat.value.receiver.state.own ≡ self.old.own }
        requires current { length self.old.current.items + length self.old.whole.items + length self.old.free.items < vec_capacity self.old.current }
        requires whole { length self.old.current.items + length self.old.whole.items + length self.old.free.items < vec_capacity self.old.whole }
        requires free { length self.old.current.items + length self.old.whole.items + length self.old.free.items < vec_capacity self.old.free }
        ensures settled { sessions_of self.new ≡ record (sessions_of self.old) {
          boxes = (sessions_of self.old).boxes + 1;
          sessions = (sessions_of self.old).sessions ++ listed (option_map (session_with seat.value) seat.value.receiver.state.session);
        } }
        ensures stays { (self.new.whole ≡ self.old.whole) × (self.new.own ≡ self.old.own) }
    {
        if seat.is_open() {
            self.current.push_reserved(seat);
        } else {
            self.free.push_reserved(seat);
        }
    }

    /// An RTS for whose message no box is free is refused (abort 2).
    fn refuse(&mut self, frame: &Frame)
        ensures { (now : ℕ) → sessions_of self.new ≡ record (sessions_of self.old) {
          replies = replied (source_of frame.now.id) (step_at self.old.own self.old.most false frame.now now None).sends (sessions_of self.old).replies;
        } }
    {
        if let Some(reply) = self.refuser.refuse(frame) {
            self.say(frame.id.source(), reply.1);
        }
    }

    /// What is to be said to an address, in place of what waits to be said to it.
    fn reply(&mut self, address: u8, said: Option<[u8; 8]>)
        ensures replied { (sends : Option ToSend) → said ≡ bytes_of sends → sessions_of self.new ≡ record (sessions_of self.old) {
          replies = replied address sends (sessions_of self.old).replies;
        } }
        ensures stays { self.new ≡ record self.old { replies = self.new.replies } }
    {
        if let Some(bytes) = said {
            self.say(address, bytes);
        }
    }

    fn say(&mut self, address: u8, bytes: [u8; 8])
        ensures replied { (id : ℕ) → sessions_of self.new ≡ record (sessions_of self.old) {
          replies = replied address (Some (record { id = id; bytes = bytes })) (sessions_of self.old).replies;
        } }
        ensures stays { self.new ≡ record self.old { replies = self.new.replies } }
    {
        self.silence(address);
        if !self.replies.is_full() {
            self.replies.push(Said { to: address, bytes });
        }
    }

    /// What waits to be said to an address isn't said.
    fn silence(&mut self, address: u8)
        ensures without { sessions_of self.new ≡ record (sessions_of self.old) { replies = without address (sessions_of self.old).replies } }
        ensures stays { self.new ≡ record self.old { replies = self.new.replies } }
    {
        self.replies.retain(|said| address != said.to);
    }
}

/// Whether a frame is one of sessions from an address to this one.
fn is_of_session(own: u8, frame: &Frame) -> bool
    ensures { result ≡ is_of_session own frame.now }
{
    frame.id.source() < NULL_ADDRESS
        && frame.id.ps() == own
        && (is_of(frame, TRANSPORT_CONTROL) || is_of(frame, TRANSPORT_DATA))
        && frame.bytes.len() == 8
}

fn is_of(frame: &Frame, group: u32) -> bool
    ensures { result ≡ nat_eq (pgn_of frame.now.id) group }
{
    frame.id.pgn().raw() == group
}

fn sooner(one: Option<u64>, other: Option<u64>) -> Option<u64>
    ensures { result ≡ sooner one other }
{
    match (one, other) {
        (None, _) => other,
        (Some(_), None) => one,
        (Some(m), Some(n)) => Some(m.min(n)),
    }
}

pub(crate) fn is_same(one: Option<Name>, other: Option<Name>) -> bool
    ensures { result ≡ is_same (option_map name_raw one) (option_map name_raw other) }
{
    match (one, other) {
        (None, None) => true,
        (None, Some(_name)) => false,
        (Some(_name), None) => false,
        (Some(one), Some(other)) => one.raw() == other.raw(),
    }
}
