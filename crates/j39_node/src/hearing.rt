//! Broadcasts in packets that are heard, one of each source, in as many boxes as there are (J1939-21, 5.10.3.5 and 5.13.3).
ghost use Rattle.std.specs.Prelude.{ℕ, ◌≡◌, [], ◌++◌, ◌∷◌, ◌&&◌, ◌||◌, not, true, false, ◌+◌, ◌*◌, ◌≤◌, ◌<◌, ◌^◌, length, map, drop, min, nat_eq, nat_lt, slice_get, slice_index, None, Some, if◌then◌else◌, IsSome, IfSome, IfOk, ◌↔◌};
ghost use Rattle.std.specs.List.{All, list_any, position};
ghost use Rattle.std.specs.Option.{is_some as is_there, option_map};
ghost use Rattle.std.specs.Vec.{vec_capacity};
ghost use Rattle.j39_frame.specs.Identifier.{source_of};
ghost use Rattle.j39_frame.specs.Pgn.{pgn_raw};
ghost use Rattle.j39_frame.specs.Stamp.{stamp_micros};
ghost use Rattle.j39_address.specs.Claims.{holder_in};
ghost use Rattle.j39_address.specs.Name.{name_raw};
ghost use Rattle.j39_sessions.specs.Sessions.{is_same};
ghost use Rattle.j39_transport.specs.Frames.{agree, goes, pgn_named, size_named};
ghost use Rattle.j39_transport.specs.Key.{Broadcast, is_key};
ghost use Rattle.j39_transport.specs.ReceiverModel.{message_shown};
ghost use Rattle.j39_node.specs.Hearing.{sender_in, with_sender, AreApart, IsFit, announces, begun, earliest, expires, goes_on, is_gap, is_late, is_over, is_unheard_in, is_whole, late_at, made_in, of, others, packed, skips, those_over, whole_of, with_one, without_source};
ghost use Rattle.j39_node.specs.Asking.{comes_by, comes_in, made_of};
ghost use Rattle.j39_node.specs.History.{nothing};
ghost use Rattle.j39_node.specs.Boxes.{broadcast_by, in_box};

use crate::controller::sooner;
use crate::own::{Own, TRANSPORT_CONTROL, TRANSPORT_DATA};
use arrayvec::ArrayVec;
use j39_address::{Claims, Name};
use j39_boxes::remove;
use j39_frame::{Frame, GLOBAL_ADDRESS, NULL_ADDRESS, Pgn, Stamp};
use j39_transport::{LONGEST, Message, SHORTEST};
use std::alloc::{AllocError, Global};

/// The first byte of an announcement to all (BAM).
const ANNOUNCEMENT: u8 = 32;

/// The longest time from one packet of a broadcast to the next, in microseconds (J1939-21, 5.13.3).
const LIMIT: u64 = 750_000;

/// What an announcement to all names.
#[derive(Clone, Copy)]
struct Announcement {
    group: Pgn,
    size: u16,
}

impl Announcement {
    /// What a frame announces to all; `None` for any other frame.
    fn of(frame: &Frame) -> Option<Announcement>
        ensures known { IsSome result ↔ (announces frame.now ≡ true) }
        ensures value { IfSome result (λ a. (pgn_raw a.group ≡ pgn_named frame.now) × (a.size ≡ size_named frame.now)) }
    {
        if !is_announcement(frame) {
            return None;
        }
        let bytes = frame.bytes.as_slice();
        let group = Pgn::new(group_in(bytes))?;
        let size = size_in(bytes);
        Some(Announcement { group, size })
    }
}

/// A broadcast of which packets came, or all.
#[derive(Drop)]
pub(crate) struct Assembly {
    /// First: so an empty one is written where it stays.
    pub(crate) bytes: ArrayVec<u8, LONGEST>,
    pub(crate) source: u8,
    pub(crate) group: Pgn,
    pub(crate) size: u16,
    /// The number of its last packet.
    pub(crate) count: u8,
    /// The moment of its last packet, or of its announcement.
    pub(crate) stamp: Stamp,
    /// The same, by the sum of the forward steps.
    pub(crate) time: Stamp,
    /// The time since which its source has one open.
    pub(crate) since: Stamp,
    /// The NAME that held its source at its announcement.
    pub(crate) name: Option<Name>,
}

/// When an announcement is heard: its time, since when its source has one open, and the NAME that holds its source.
#[derive(Clone, Copy)]
struct Opening {
    time: Stamp,
    since: Stamp,
    name: Option<Name>,
}

impl Assembly {
    /// A box in which nothing was begun yet.
    #[inline(always)]
    fn unused() -> Assembly {
        Assembly {
            bytes: ArrayVec::new(),
            source: NULL_ADDRESS,
            group: Pgn::new(0).unwrap(),
            size: 0,
            count: 0,
            stamp: Stamp::new(0).unwrap(),
            time: Stamp::new(0).unwrap(),
            since: Stamp::new(0).unwrap(),
            name: None,
        }
    }

    /// A message is announced.
    fn begin(&mut self, announcement: Announcement, frame: &Frame, opening: Opening)
        requires group { pgn_raw announcement.group ≡ pgn_named frame.now }
        requires size { announcement.size ≡ size_named frame.now }
        ensures { broadcast_by self.new ≡ begun (option_map name_raw opening.name) (stamp_micros opening.since) (stamp_micros opening.time) frame.now }
    {
        self.bytes.clear();
        self.source = frame.id.source();
        self.group = announcement.group;
        self.size = announcement.size;
        self.count = 0;
        self.stamp = frame.stamp;
        self.time = opening.time;
        self.since = opening.since;
        self.name = opening.name;
    }

    fn is_whole(&self) -> bool
        ensures { result ≡ is_whole (broadcast_by self.now) }
    {
        usize::from(self.size) <= self.bytes.len()
    }

    fn is_late(&self, time: Stamp) -> bool
        ensures { result ≡ is_late (stamp_micros time) (broadcast_by self.now) }
    {
        self.expires() < time.micros()
    }

    /// Whether its source has another holder than at its announcement, or restarted, or it is out of time.
    fn is_over(&self, gone: Option<u8>, holders: &Claims, time: Stamp) -> bool
        ensures { result ≡ is_over gone (holder_in holders.now) (stamp_micros time) (broadcast_by self.now) }
    {
        gone == Some(self.source)
            || !is_same(self.name, holders.holder(self.source))
            || self.is_late(time)
    }

    /// Till when its next packet may come: 750 ms after the last, or its announcement, and (n + 1) * 750 ms, of n packets, after
    /// the first of its source's that took one another's place (own).
    fn expires(&self) -> u64
        ensures value { result ≡ expires (broadcast_by self.now) }
        ensures fits { result < 2 ^ 60 }
    {
        let packets = (u64::from(self.size) + 6) / 7;
        let account = self.since.micros() + (packets + 1) * LIMIT;
        account.min(self.time.micros() + LIMIT)
    }

    /// Whether it is in time, of this group, and from this address, or from anybody where that is 255.
    fn answers(&self, group: u32, to: u8, time: Stamp) -> bool
        ensures { (token : ℕ) → result ≡ comes_by (stamp_micros time) (record { token = token; group = group; to = to }) (broadcast_by self.now) }
    {
        !self.is_late(time)
            && self.group.raw() == group
            && (to == GLOBAL_ADDRESS || self.source == to)
    }

    /// Whether one before this packet was lost.
    fn is_gap(&self, frame: &Frame) -> bool
        requires { length frame.now.bytes ≡ 8 }
        ensures { result ≡ skips frame.now (broadcast_by self.now) }
    {
        let number = frame.bytes.as_slice()[0];
        u16::from(self.count) + 1 < u16::from(number)
    }

    /// A packet with no gap: the next, or a repeat.
    fn goes_on(&mut self, frame: &Frame, time: Stamp)
        requires { length frame.now.bytes ≡ 8 }
        ensures current { IsFit (broadcast_by self.old) → skips frame.now (broadcast_by self.old) ≡ false
            → Some (broadcast_by self.new) ≡ goes_on (stamp_micros time) frame.now (broadcast_by self.old) }
        ensures name { self.new.name ≡ self.old.name }
    {
        let bytes = frame.bytes.as_slice();
        let number = bytes[0];
        if u16::from(number) == u16::from(self.count) + 1 {
            let _fits = self.bytes.try_extend_from_slice(&bytes[1..]);
            self.count = number;
            self.stamp = frame.stamp;
            self.time = time;
        }
    }
}

/// What a frame does: a message for the program breaks off by it, or isn't heard; or this source's, of this group, is whole.
#[derive(Clone, Copy)]
pub(crate) struct Outcome {
    pub(crate) is_missed: bool,
    pub(crate) made: Option<(u8, u32)>,
}

/// The broadcasts that are heard, or wait for the program, each in its box.
#[derive(Drop)]
pub(crate) struct Hearing {
    pub(crate) current: Vec<Box<Assembly>>,
    /// Those that wait, the oldest first.
    pub(crate) whole: Vec<Box<Assembly>>,
    pub(crate) free: Vec<Box<Assembly>>,
    /// How many that were announced weren't received.
    pub(crate) missed: u64,
    pub ghost wholes: { All (λ b. is_whole (in_box b) ≡ true) whole.items },
    pub ghost opens: { length current.items + length whole.items + length free.items ≤ vec_capacity current },
    pub ghost waits: { length current.items + length whole.items + length free.items ≤ vec_capacity whole },
    pub ghost frees: { length current.items + length whole.items + length free.items ≤ vec_capacity free },
}

impl Hearing {
    ghost use Rattle.j39_node.specs.Is.{hearing_it, hearing_of, leaving, releasing, senders_of, who_of};

    /// Nothing was heard. It takes memory for so many at once.
    // In its caller it would make that keep copies of all that a controller is made of on the stack.
    #[inline(never)]
    pub(crate) fn new(alloc: Global, boxes: u8) -> Result<Hearing, AllocError>
        ensures nothing { IfOk result (λ h. hearing_of h ≡ record { listening = record { current = []; waits = [] }; boxes = boxes; missed = 0 }) }
        ensures nobody { IfOk result (λ h. senders_of h ≡ []) }
    {
        let most = usize::from(boxes);
        let mut free = Vec::with_capacity(alloc, most)?;
        for _ in 0..most {
            free.push_reserved(Box::new(alloc, Assembly::unused())?);
        }
        Ok(Hearing {
            current: Vec::with_capacity(alloc, most)?,
            whole: Vec::with_capacity(alloc, most)?,
            free,
            missed: 0,
        })
    }

    /// It begins anew, in the same boxes.
    pub(crate) fn begin_anew(&mut self)
        ensures anew { (hearing_of self.old).listening.waits ≡ [] → hearing_of self.new
            ≡ record { listening = record { current = []; waits = [] }; boxes = (hearing_of self.old).boxes; missed = 0 } }
        ensures whole { self.new.whole ≡ self.old.whole }
    {
        while let Some(heard) = self.current.pop() {
            self.free.push_reserved(heard);
        }
        self.missed = 0;
    }

    /// Whether one of this group is open, in time, and from this address, or from anybody where that is 255.
    pub(crate) fn is_coming(&self, group: u32, to: u8, time: Stamp) -> bool
        ensures { (token : ℕ) → result ≡ comes_in (stamp_micros time) (record { token = token; group = group; to = to }) (hearing_of self.now).listening.current }
    {
        for heard in &self.current {
            if heard.answers(group, to, time) {
                return true;
            }
        }
        false
    }

    /// Those end that are over at this time: another NAME holds their source, or nobody, or its holder restarted, or they are late.
    /// Whether any did.
    pub(crate) fn leave(&mut self, gone: Option<u8>, holders: &Claims, time: Stamp) -> bool
        ensures broken { result ≡ nat_lt 0 (length (those_over gone (holder_in holders.now) (stamp_micros time) (hearing_of self.old).listening.current)) }
        ensures left { hearing_of self.new ≡ leaving gone (holder_in holders.now) (stamp_micros time) (hearing_of self.old) }
        ensures whole { self.new.whole ≡ self.old.whole }
    {
        let before = self.current.len();
        while let Some(place) = self.over(gone, holders, time) {
            let heard = remove(&mut self.current, place);
            self.free.push_reserved(heard);
        }
        let over = before - self.current.len();
        self.missed = self.missed.saturating_add(over as u64);
        0 < over
    }

    /// The place of the first that is over.
    fn over(&self, gone: Option<u8>, holders: &Claims, time: Stamp) -> Option<usize>
        ensures { result ≡ position (λ b. is_over gone (holder_in holders.now) (stamp_micros time) (in_box b)) self.now.current.items }
    {
        self.current
            .iter()
            .position(|heard| heard.is_over(gone, holders, time))
    }

    /// The first moment at which a tick ends one.
    pub(crate) fn next_tick(&self, moment: u64, clock: Stamp) -> Option<Stamp>
        ensures { option_map stamp_micros result ≡ late_at (earliest (hearing_of self.now).listening.current) moment (stamp_micros clock) }
    {
        let left = (self.earliest()? + 1).saturating_sub(clock.micros());
        Stamp::new(moment.saturating_add(left))
    }

    /// When the first of them is late.
    fn earliest(&self) -> Option<u64>
        ensures value { result ≡ earliest (hearing_of self.now).listening.current }
        ensures fits { IfSome result (λ n. n < 2 ^ 60) }
    {
        let mut found = None;
        for heard in &self.current {
            found = sooner(found, Some(heard.expires()));
        }
        found
    }

    /// A frame was heard at this time.
    pub(crate) fn hear(
        &mut self,
        own: &Own,
        holders: &Claims,
        frame: &Frame,
        time: Stamp,
    ) -> Outcome
        ensures missed { result.is_missed ≡ is_unheard_in (hearing_of self.old).boxes (who_of nothing own.now) frame.now (hearing_of self.old).listening }
        ensures made { AreApart (hearing_of self.old).listening.current → All IsFit (hearing_of self.old).listening.current
            → result.made ≡ made_of (option_map (λ x. x.1) (made_in (hearing_of self.old).boxes (who_of nothing own.now)
            (holder_in holders.now (source_of frame.now.id)) (stamp_micros time) frame.now (hearing_of self.old).listening)) }
        ensures heard { AreApart (hearing_of self.old).listening.current → All IsFit (hearing_of self.old).listening.current
            → hearing_of self.new ≡ hearing_it (who_of nothing own.now) (holder_in holders.now (source_of frame.now.id)) (stamp_micros time) frame.now (hearing_of self.old) }
        ensures senders { senders_of self.new ≡ with_sender result.made
            (sender_in (of (source_of frame.now.id) (hearing_of self.old).listening.current)) (senders_of self.old) }
    {
        match Announcement::of(frame) {
            Some(announcement) => {
                let is_missed = self.announce(own, holders, announcement, frame, time);
                Outcome {
                    is_missed,
                    made: None,
                }
            }
            None => {
                if is_to_all(frame, TRANSPORT_DATA) {
                    return self.pack(frame, time);
                }
                Outcome {
                    is_missed: false,
                    made: None,
                }
            }
        }
    }

    /// The oldest that waits for the program.
    pub(crate) fn message(&self) -> Option<Message<'_>>
        ensures value { option_map (λ m. (stamp_micros m.stamp, message_shown m)) result ≡ slice_get (hearing_of self.now).listening.waits 0 }
        ensures most { IfSome result (λ m. length m.payload.now ≤ 1785) }
    {
        let heard = self.whole.first()?;
        Some(Message {
            source: heard.source,
            pgn: heard.group,
            payload: &heard.bytes.as_slice()[..usize::from(heard.size)],
            stamp: heard.stamp,
        })
    }

    /// The NAME that held the source of the oldest that waits.
    pub(crate) fn sender(&self) -> Option<Name>
        ensures { IfSome (slice_get (senders_of self.now) 0) (λ name. option_map name_raw result ≡ name) }
    {
        self.whole.first()?.name
    }

    /// Frees the box of the oldest that waits; whether one did.
    pub(crate) fn release(&mut self) -> bool
        ensures waited { result ≡ nat_lt 0 (length (hearing_of self.old).listening.waits) }
        ensures released { hearing_of self.new ≡ releasing (hearing_of self.old) }
        ensures senders { senders_of self.new ≡ drop 1 (senders_of self.old) }
    {
        if self.whole.is_empty() {
            return false;
        }
        let heard = remove(&mut self.whole, 0);
        self.free.push_reserved(heard);
        true
    }

    /// Whether one that is whole waits.
    pub(crate) fn is_waiting(&self) -> bool
        ensures { result ≡ nat_lt 0 (length (hearing_of self.now).listening.waits) }
    {
        !self.whole.is_empty()
    }

    /// Takes out the open one of a source.
    fn take_out(&mut self, source: u8) -> Option<Box<Assembly>>
        ensures value { option_map in_box result ≡ of source (hearing_of self.old).listening.current }
        ensures rest { AreApart (hearing_of self.old).listening.current → map in_box self.new.current.items ≡ others source (hearing_of self.old).listening.current }
        ensures none { result ≡ None → self.new ≡ self.old }
        ensures stays { (self.new.whole ≡ self.old.whole) × (self.new.free ≡ self.old.free) × (self.new.missed ≡ self.old.missed) }
        ensures counts { IsSome result → length self.new.current.items + 1 ≡ length self.old.current.items }
        ensures room { IsSome result → vec_capacity self.new.current ≡ vec_capacity self.old.current }
    {
        let place = self.place(source)?;
        Some(remove(&mut self.current, place))
    }

    /// The place of the open one of a source.
    fn place(&self, source: u8) -> Option<usize>
        ensures { result ≡ position (λ b. nat_eq source (in_box b).source) self.now.current.items }
    {
        self.current.iter().position(|heard| source == heard.source)
    }

    /// A message is announced; whether one for the program breaks off by that, or isn't heard.
    fn announce(
        &mut self,
        own: &Own,
        holders: &Claims,
        announcement: Announcement,
        frame: &Frame,
        time: Stamp,
    ) -> bool
        requires announces { announces frame.now ≡ true }
        requires group { pgn_raw announcement.group ≡ pgn_named frame.now }
        requires size { announcement.size ≡ size_named frame.now }
        ensures missed { result ≡ is_unheard_in (hearing_of self.old).boxes (who_of nothing own.now) frame.now (hearing_of self.old).listening }
        ensures heard { AreApart (hearing_of self.old).listening.current
            → hearing_of self.new ≡ hearing_it (who_of nothing own.now) (holder_in holders.now (source_of frame.now.id)) (stamp_micros time) frame.now (hearing_of self.old) }
        ensures senders { senders_of self.new ≡ senders_of self.old }
    {
        let source = source_in(frame);
        let name = holders.holder(source);
        let is_ignored = own.is_ignored(announcement.group);
        match self.take_out(source) {
            Some(mut heard) => {
                self.miss();
                if is_ignored {
                    self.free.push_reserved(heard);
                    return true;
                }
                let since = heard.since;
                heard.begin(announcement, frame, Opening { time, since, name });
                let _none = self.settle(heard);
                true
            }
            None => {
                if is_ignored {
                    return false;
                }
                match self.free.pop() {
                    Some(mut heard) => {
                        heard.begin(
                            announcement,
                            frame,
                            Opening {
                                time,
                                since: time,
                                name,
                            },
                        );
                        let _none = self.settle(heard);
                        false
                    }
                    None => {
                        self.miss();
                        true
                    }
                }
            }
        }
    }

    /// A packet is heard. One that leaves a gap ends the open one of its source.
    fn pack(&mut self, frame: &Frame, time: Stamp) -> Outcome
        requires { length frame.now.bytes ≡ 8 }
        ensures missed { result.is_missed ≡ is_gap frame.now (of (source_of frame.now.id) (hearing_of self.old).listening.current) }
        ensures made { All IsFit (hearing_of self.old).listening.current → result.made
            ≡ made_of (option_map (λ x. x.1) (whole_of (packed (stamp_micros time) frame.now (of (source_of frame.now.id) (hearing_of self.old).listening.current)))) }
        ensures heard { AreApart (hearing_of self.old).listening.current → All IsFit (hearing_of self.old).listening.current → hearing_of self.new ≡ record {
          listening = with_one (packed (stamp_micros time) frame.now (of (source_of frame.now.id) (hearing_of self.old).listening.current))
              (without_source (source_of frame.now.id) (hearing_of self.old).listening);
          boxes = (hearing_of self.old).boxes;
          missed = if result.is_missed then min (self.old.missed + 1) 18446744073709551615 else self.old.missed;
        } }
        ensures senders { senders_of self.new ≡ with_sender result.made
            (sender_in (of (source_of frame.now.id) (hearing_of self.old).listening.current)) (senders_of self.old) }
    {
        let Some(mut heard) = self.take_out(source_in(frame)) else {
            return Outcome {
                is_missed: false,
                made: None,
            };
        };
        if heard.is_gap(frame) {
            self.free.push_reserved(heard);
            self.miss();
            return Outcome {
                is_missed: true,
                made: None,
            };
        }
        heard.goes_on(frame, time);
        Outcome {
            is_missed: false,
            made: self.settle(heard),
        }
    }

    /// Puts a box behind the whole ones that wait, or those that are open. Answers the source and the group of a whole one.
    fn settle(&mut self, heard: Box<Assembly>) -> Option<(u8, u32)>
        requires current { length self.old.current.items + length self.old.whole.items + length self.old.free.items < vec_capacity self.old.current }
        requires whole { length self.old.current.items + length self.old.whole.items + length self.old.free.items < vec_capacity self.old.whole }
        requires free { length self.old.current.items + length self.old.whole.items + length self.old.free.items < vec_capacity self.old.free }
        ensures made { result ≡ made_of (option_map (λ x. x.1) (whole_of (Some (in_box heard)))) }
        ensures settled { hearing_of self.new ≡ record {
          listening = with_one (Some (in_box heard)) (hearing_of self.old).listening;
          boxes = (hearing_of self.old).boxes + 1;
          missed = self.old.missed;
        } }
        ensures senders { senders_of self.new ≡ with_sender result (in_box heard).name (senders_of self.old) }
    {
        if heard.is_whole() {
            let made = Some((heard.source, heard.group.raw()));
            self.whole.push_reserved(heard);
            made
        } else {
            self.current.push_reserved(heard);
            None
        }
    }

    fn miss(&mut self)
        ensures { self.new ≡ record self.old { missed = min (self.old.missed + 1) 18446744073709551615 } }
    {
        self.missed = self.missed.saturating_add(1);
    }
}

fn source_in(frame: &Frame) -> u8
    ensures { result ≡ source_of frame.now.id }
{
    frame.id.source()
}

/// A frame that announces a message to all: of 9 to 1,785 bytes, in as many packets as it takes.
#[tactic(auto, unfolding(j39_transport::specs::Frames::is_announcement, j39_transport::specs::Frames::names_message))]
fn is_announcement(frame: &Frame) -> bool
    ensures value { result ≡ announces frame.now }
    ensures eight { result ≡ true → length frame.now.bytes ≡ 8 }
    ensures group { result ≡ true → pgn_named frame.now < 2 ^ 18 }
{
    is_to_all(frame, TRANSPORT_CONTROL)
        && frame.bytes.as_slice()[0] == ANNOUNCEMENT
        && names_message(frame.bytes.as_slice())
}

fn names_message(bytes: &[u8]) -> bool
    requires { length bytes.now ≡ 8 }
    ensures value { result ≡ agree (slice_index bytes.now 1 + 256 * slice_index bytes.now 2) (slice_index bytes.now 3)
        (slice_index bytes.now 5 + 256 * slice_index bytes.now 6 + 65536 * slice_index bytes.now 7) }
    ensures group { result ≡ true
        → slice_index bytes.now 5 + 256 * slice_index bytes.now 6 + 65536 * slice_index bytes.now 7 < 2 ^ 18 }
{
    let size = usize::from(size_in(bytes));
    SHORTEST <= size
        && size <= LONGEST
        && usize::from(bytes[3]) == (size + 6) / 7
        && group_in(bytes) < 1 << 18
}

/// The size of a message, in bytes 2 and 3 of its announcement.
fn size_in(bytes: &[u8]) -> u16
    requires { length bytes.now ≡ 8 }
    ensures { result ≡ slice_index bytes.now 1 + 256 * slice_index bytes.now 2 }
{
    u16::from(bytes[1]) + 256 * u16::from(bytes[2])
}

/// Its group, in bytes 6 to 8.
fn group_in(bytes: &[u8]) -> u32
    requires { length bytes.now ≡ 8 }
    ensures { result ≡ slice_index bytes.now 5 + 256 * slice_index bytes.now 6 + 65536 * slice_index bytes.now 7 }
{
    u32::from(bytes[5]) + 256 * u32::from(bytes[6]) + 65536 * u32::from(bytes[7])
}

/// A frame of 8 bytes and this group, from an address to all.
#[tactic(auto, unfolding(j39_transport::specs::Frames::goes, j39_transport::specs::Frames::group_of, j39_transport::specs::Frames::source_of, j39_transport::specs::Frames::destination_of))]
fn is_to_all(frame: &Frame, group: u32) -> bool
    ensures value { result ≡ (is_key (Broadcast (source_of frame.now.id)) && goes group (source_of frame.now.id) 255 frame.now) }
    ensures eight { result ≡ true → length frame.now.bytes ≡ 8 }
{
    frame.id.source() < NULL_ADDRESS
        && frame.id.pgn().raw() == group
        && frame.id.ps() == GLOBAL_ADDRESS
        && frame.bytes.len() == 8
}

fn is_same(before: Option<Name>, after: Option<Name>) -> bool
    ensures { result ≡ is_same (option_map name_raw before) (option_map name_raw after) }
{
    match (before, after) {
        (None, None) => true,
        (None, Some(_name)) => false,
        (Some(_name), None) => false,
        (Some(one), Some(other)) => one.raw() == other.raw(),
    }
}
