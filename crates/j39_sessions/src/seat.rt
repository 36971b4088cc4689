//! A box with one source's session, or its message.
ghost use Rattle.std.specs.Prelude.{◌≡◌, ◌↔◌, ◌≤◌, ◌+◌, ◌^◌, ◌<◌, ℕ, Option, Some, None, IsTrue, IsSome, IfSome, IfOk, OnErr, true, false, length};
ghost use Rattle.std.specs.Option.{is_some, option_map};
ghost use Rattle.j39_address.specs.Claims.{holder_in};
ghost use Rattle.j39_address.specs.Name.{name_raw};
ghost use Rattle.j39_frame.specs.Address.{IsAddress};
ghost use Rattle.j39_frame.specs.Stamp.{stamp_micros};
ghost use Rattle.j39_transport.specs.Cutting.{to_send};
ghost use Rattle.j39_transport.specs.Receiving.{new_receiver, said_to};
ghost use Rattle.j39_transport.specs.Signals.{Abort, written};
ghost use Rattle.j39_frame.specs.Pgn.{pgn_raw};
ghost use Rattle.j39_sessions.specs.Sessions.{fewest, from, is_left, is_of, limit_in, longest, narrowed, number_in, shown, strays, tick_of};

use crate::sessions::is_same;
use byteorder::{ByteOrder, LittleEndian};
use j39_address::{Claims, Name};
use j39_frame::{Frame, NULL_ADDRESS, Pgn, Stamp};
use j39_transport::{Receiver, Reply};
use std::alloc::{AllocError, Global};

/// The longest wait of the two ends, in microseconds (T2 of J1939-21, 5.10.2.4).
const T2: u64 = 1_250_000;

/// The first byte of an RTS.
const REQUEST_TO_SEND: u8 = 16;

/// What a box says to a frame, and the source and the group of the message that is whole by it.
#[derive(Clone, Copy)]
pub(crate) struct Outcome {
    pub(crate) says: Option<[u8; 8]>,
    pub(crate) made: Option<(u8, u32)>,
}

impl Outcome {
    ghost use Rattle.j39_sessions.specs.Seats.{Receives};

    /// What a receiver says to a frame, and which message it delivers.
    fn of(receiver: &mut Receiver, frame: &Frame, now: Stamp) -> Outcome
        ensures { receiver.old.has_box ≡ true → Receives receiver.old frame.now (stamp_micros now) result receiver.new }
    {
        match receiver.on(frame, now) {
            Reply::Nothing => Outcome {
                says: None,
                made: None,
            },
            Reply::Send(_id, bytes) => Outcome {
                says: Some(bytes),
                made: None,
            },
            Reply::Delivered(message, _id, bytes) => Outcome {
                says: Some(bytes),
                made: Some((message.source, message.pgn.raw())),
            },
        }
    }
}

/// A receiver with its buffer, in which its message stays when it is whole.
#[derive(Drop)]
pub(crate) struct Seat {
    pub(crate) receiver: Receiver,
    /// The stamp of the frame that it heard last.
    pub(crate) stamp: Stamp,
    /// The time since which the source of its session has one open.
    pub(crate) since: Stamp,
    /// The NAME that held its source then.
    pub(crate) name: Option<Name>,
    pub ghost boxed: { receiver.has_box ≡ true },
}

impl Seat {
    ghost use Rattle.j39_sessions.specs.Seats.{Receives, bytes_of, session_in};

    /// A box at an address, in which nothing was begun; `None` above 253.
    #[inline(always)]
    pub(crate) fn new(alloc: Global, own: u8) -> Result<Option<Seat>, AllocError>
        ensures known { IfOk result (λ found. IsSome found ↔ IsAddress own) }
        ensures refused { OnErr result (IsAddress own) }
    {
        let Some(receiver) = Receiver::with_buffer(alloc, own)? else {
            return Ok(None);
        };
        Ok(Some(Seat {
            receiver,
            stamp: Stamp::new(0).unwrap(),
            since: Stamp::new(0).unwrap(),
            name: None,
        }))
    }

    /// Its next session is at this address, of a source that this NAME holds at this time.
    pub(crate) fn begin(&mut self, own: u8, now: Stamp, name: Option<Name>)
        requires { IsAddress own }
        ensures state { self.new.receiver.state ≡ new_receiver own }
        ensures since { self.new.since ≡ now }
        ensures name { self.new.name ≡ name }
    {
        let _is_address = self.receiver.move_to(own);
        self.since = now;
        self.name = name;
    }

    /// A frame from the source of its session, or by which one may be opened. A packet that strays isn't shown to the receiver (own), nor
    /// of an RTS that more may be granted at once.
    pub(crate) fn hear(&mut self, most: u8, frame: &Frame, now: Stamp) -> Outcome
        requires { length frame.now.bytes ≡ 8 }
        ensures heard { Receives self.old.receiver (shown self.old.receiver.state.own most self.old.receiver.state.session frame.now) (stamp_micros now)
            result self.new.receiver }
        ensures stamp { stamp_micros self.new.stamp ≡ frame.now.stamp }
        ensures stays { (self.new.since ≡ self.old.since) × (self.new.name ≡ self.old.name) }
    {
        self.stamp = frame.stamp;
        if self.strays(frame) {
            return Outcome {
                says: None,
                made: None,
            };
        }
        match narrowed(most, frame) {
            Some(shown) => Outcome::of(&mut self.receiver, &shown, now),
            None => Outcome::of(&mut self.receiver, frame, now),
        }
    }

    /// Time passes: an open session whose time is over is ended (abort 3).
    pub(crate) fn tick(&mut self, now: Stamp) -> Option<[u8; 8]>
        requires { IsSome self.old.receiver.state.session }
        ensures says { result ≡ bytes_of (tick_of self.old.receiver.state.own (stamp_micros now) (session_in self.old)).sends }
        ensures state { self.new.receiver.state ≡ (tick_of self.old.receiver.state.own (stamp_micros now) (session_in self.old)).after }
        ensures stays { (self.new.since ≡ self.old.since) × (self.new.name ≡ self.old.name) }
    {
        if self.latest() < now.micros() {
            let abort = abort_bytes(self.group());
            self.receiver.end();
            return Some(abort);
        }
        match self.receiver.tick(now) {
            Some(reply) => {
                let bytes = reply.1;
                Some(bytes)
            }
            None => None,
        }
    }

    /// The last moment at which a tick says nothing.
    pub(crate) fn limit(&self) -> u64
        requires { IsSome self.now.receiver.state.session }
        ensures value { result ≡ limit_in (session_in self.now) }
        ensures fits { result < 2 ^ 54 }
    {
        match self.receiver.limit() {
            Some(limit) => limit.min(self.latest()),
            None => 0,
        }
    }

    /// The time after which a tick aborts its session: (n + 3) * 1,250 ms, of n packets, after it was opened (own).
    fn latest(&self) -> u64
        requires { IsSome self.now.receiver.state.session }
        ensures value { result ≡ (session_in self.now).since + longest (session_in self.now).reception.message.packets }
        ensures fits { result < 2 ^ 54 }
    {
        let packets = self.receiver.packets().unwrap_or(0);
        self.since.micros() + (u64::from(packets) + 3) * T2
    }

    /// Whether a frame is a packet that its session expects not.
    fn strays(&self, frame: &Frame) -> bool
        ensures { result ≡ strays (number_in (said_to self.now.receiver.state.own frame.now)) self.now.receiver.state.session }
    {
        match number_in(self.receiver.address(), frame) {
            Some(number) => self.receiver.busy() && !self.receiver.expects(number),
            None => false,
        }
    }

    /// Whether one is open.
    pub(crate) fn is_open(&self) -> bool
        ensures { result ≡ is_some self.now.receiver.state.session }
    {
        self.receiver.busy()
    }

    /// Whether the source of its session has another holder than when it was opened, or none, or its holder restarted.
    pub(crate) fn is_left(&self, gone: Option<u8>, holders: &Claims) -> bool
        ensures { result ≡ is_left gone (holder_in holders.now) (session_in self.now) }
    {
        let source = self.source();
        gone == Some(source) || !is_same(self.name, holders.holder(source))
    }

    /// Whose session it is.
    pub(crate) fn source(&self) -> u8
        ensures { result ≡ from (session_in self.now) }
    {
        match self.receiver.source() {
            Some(source) => source,
            None => 0,
        }
    }

    /// Whether its session is of this source, and its message of this group.
    pub(crate) fn is_of(&self, source: u8, group: Pgn) -> bool
        ensures { result ≡ is_of source (pgn_raw group) (session_in self.now) }
    {
        self.source() == source && self.group().raw() == group.raw()
    }

    /// The group of its session's message.
    pub(crate) fn group(&self) -> Pgn
        ensures { pgn_raw result ≡ (session_in self.now).reception.message.group }
    {
        match self.receiver.group() {
            Some(group) => group,
            None => Pgn::new(0).unwrap(),
        }
    }
}

/// The abort of a session of this group whose time is over (J1939-21, 5.10.3.4).
#[tactic(auto, unfolding(j39_transport::specs::Signals::written))]
fn abort_bytes(group: Pgn) -> [u8; 8]
    ensures { (source to : ℕ) → result ≡ (written source to (Abort 3 (pgn_raw group))).bytes }
{
    let mut bytes = [255, 3, 255, 255, 255, 0, 0, 0];
    LittleEndian::write_u24(&mut bytes[5..], group.raw());
    bytes
}

/// The number of a packet that goes from an address to this one; none goes to the null address.
#[tactic(auto, using(crate::proofs::PacketLemmas::number_is))]
fn number_in(own: u8, frame: &Frame) -> Option<u8>
    ensures { result ≡ number_in (said_to own frame.now) }
{
    if frame.id.source() < NULL_ADDRESS
        && (frame.id.ps() == own && own != NULL_ADDRESS)
        && (frame.id.is_transport_data() && frame.bytes.len() == 8)
    {
        frame.bytes.as_slice().get(0).copied()
    } else {
        None
    }
}

/// An RTS as one whose sender takes at most so many packets at once (0 sets no limit); `None` for other frames.
fn narrowed(most: u8, frame: &Frame) -> Option<Frame>
    requires { length frame.now.bytes ≡ 8 }
    ensures some { IfSome result (λ g. g ≡ record { stamp = frame.now.stamp; id = frame.now.id; bytes = narrowed most frame.now }) }
    ensures none { result ≡ None → narrowed most frame.now ≡ frame.now.bytes }
{
    let bytes = frame.bytes.as_slice();
    if !(frame.id.is_transport_control() && bytes[0] == REQUEST_TO_SEND) {
        return None;
    }
    let mut shown = [0; 8];
    shown.copy_from_slice(bytes);
    shown[4] = fewest(most, bytes[4]);
    Frame::new(frame.stamp, frame.id, &shown)
}

/// How many packets a sender takes at once, of those that may be granted; 0 sets no limit in either.
fn fewest(most: u8, asked: u8) -> u8
    ensures { result ≡ fewest most asked }
{
    if most == 0 {
        asked
    } else if asked == 0 {
        most
    } else {
        asked.min(most)
    }
}
