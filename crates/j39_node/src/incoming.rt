//! Messages that come in packets to the address that is held (J1939-21, 5.10.3): when its sessions hear a frame, by the controller's time.
ghost use Rattle.std.specs.Prelude.{if◌then◌else◌, IsTrue, ◌≡◌, ◌≤◌, ◌<◌, ◌+◌, ◌-◌, ◌↔◌, ◌++◌, ◌∷◌, [], ℕ, List, length, true, false, IfSome, IsSomeAnd, nat_lt, Option, Some, None, unwrap_or};
ghost use Rattle.std.specs.List.{slice_get};
ghost use Rattle.std.specs.Option.{option_map};
ghost use Rattle.j39_frame.specs.Address.{IsAddress};
ghost use Rattle.j39_frame.specs.Frame.{FrameRecord};
ghost use Rattle.j39_frame.specs.Identifier.{destination_of, id_raw, source_of};
ghost use Rattle.j39_frame.specs.Pgn.{pgn_raw};
ghost use Rattle.j39_frame.specs.Stamp.{stamp_micros};
ghost use Rattle.j39_address.specs.Name.{name_raw};
ghost use Rattle.j39_address.specs.Claims.{Knows, holder_in};
ghost use Rattle.j39_transport.specs.ReceiverModel.{message_shown};
ghost use Rattle.j39_sessions.specs.Sessions.{is_open, leaves, loses, made, none_of, releases, says};
ghost use Rattle.j39_sessions.specs.Shown.{sessions_of};
ghost use Rattle.j39_node.specs.History.{carried};
ghost use Rattle.j39_address.specs.Claim.{claim_of};
ghost use Rattle.j39_node.specs.History.{is_some as is_some_of};
ghost use Rattle.j39_node.specs.Reception.{called_for, calls_whom, claimed_again, is_called, if_heard, waned, whom, later, replies_of, reply_from, tick_at};
ghost use Rattle.j39_node.specs.Is.{IsRead, claim_in, found, hears, incoming_of, passed_to, stamped, takes_in, ticks, with_called, with_reception};
ghost use Rattle.j39_node.specs.Times.{called_time};

use crate::heard::Heard;
use crate::own::{ADDRESS_CLAIMED, TRANSPORT_CONTROL};
use j39_address::{Claims, Name};
use j39_frame::{Frame, GLOBAL_ADDRESS, Id, Pgn, Stamp};
use j39_sessions::Sessions;
use j39_transport::Message;

/// For so long, in microseconds, a claim counts as called for (own).
const CALLED_TIME: u64 = 1_250_000;

/// What a frame that is heard says, and means to the own address.
#[derive(Clone, Copy)]
pub(crate) struct Bearing {
    pub(crate) heard: Heard,
    /// It is a smaller NAME's claim of the address, which is lost by it.
    pub(crate) drives_away: bool,
    /// It is a claim by another of the own NAME, which tells nothing of who holds an address.
    pub(crate) is_double: bool,
    /// The address is held.
    pub(crate) is_held: bool,
}

/// What a frame does: whose holder restarted by it, and the source and the group of the message that it makes whole.
#[derive(Clone, Copy)]
pub(crate) struct Outcome {
    pub(crate) gone: Option<u8>,
    pub(crate) made: Option<(u8, u32)>,
}

/// The sessions of the address, and their time.
#[derive(Drop)]
pub(crate) struct Incoming {
    pub(crate) sessions: Sessions,
    /// The moment of the last frame heard or tick.
    pub(crate) moment: u64,
    /// The sum of the forward steps from one of these to the next: the sessions' time.
    pub(crate) clock: Stamp,
    /// What is left of the time in which a claim was called for, from this moment on.
    pub(crate) called: u64,
    /// Whose claim was called for: that of an address, or all (255).
    pub(crate) whom: u8,
}

impl Incoming {
    /// Nothing was received in these sessions.
    #[inline(always)]
    pub(crate) fn new(sessions: Sessions) -> Incoming
        ensures { incoming_of result ≡ record { moment = 0; clock = 0; called = record { left = 0; whose = 0 }; reception = sessions_of sessions } }
    {
        Incoming {
            sessions,
            moment: 0,
            clock: Stamp::new(0).unwrap(),
            called: 0,
            whom: 0,
        }
    }

    /// A frame was heard: it may be a claim, by which the source of a session has another holder, or restarted, or the address is lost,
    /// or one of a session, if the address is held.
    pub(crate) fn hear(
        &mut self,
        holders: &mut Claims,
        bearing: Bearing,
        frame: &Frame,
        now: Stamp,
    ) -> Outcome
        requires { IsRead bearing.heard frame.now }
        ensures restarted { result.gone ≡ claimed_again (holder_in holders.old) (waned (stamp_micros now - (incoming_of self.old).moment) (incoming_of self.old).called)
            (claim_of frame.now) }
        ensures knows { (F : List FrameRecord) → Knows holders.old F
            → Knows holders.new (if bearing.is_double then F else F ++ frame.now ∷ []) }
        ensures made { result.made ≡ option_map (λ m. (m.source, m.pgn)) (if_heard bearing.drives_away bearing.is_held
            (made (later (incoming_of self.old).clock (stamp_micros now - (incoming_of self.old).moment)) frame.now
            (found (stamp_micros now) frame.now (holder_in holders.old) (holder_in holders.new) (incoming_of self.old)))) }
        ensures heard { incoming_of self.new
            ≡ hears bearing.drives_away bearing.is_held (stamp_micros now) frame.now (holder_in holders.old) (holder_in holders.new) (incoming_of self.old) }
    {
        self.pass(now);
        let gone = self.claimed_again(holders, bearing.heard);
        let calls = calls_whom(holders, bearing.heard, frame);
        tell(holders, frame, bearing.is_double);
        self.sessions.leave(gone, holders);
        let made = self.take_in(holders, bearing, frame);
        self.call(calls, now);
        Outcome { gone, made }
    }

    /// A frame is heard by the sessions, if the address is held; if it is lost by it, they end. Answers what is whole by it.
    fn take_in(&mut self, holders: &Claims, bearing: Bearing, frame: &Frame) -> Option<(u8, u32)>
        ensures made { result ≡ option_map (λ m. (m.source, m.pgn)) (if_heard bearing.drives_away bearing.is_held
            (made (incoming_of self.old).clock frame.now (incoming_of self.old).reception)) }
        ensures heard { incoming_of self.new ≡ with_reception (takes_in bearing.drives_away bearing.is_held (incoming_of self.old).clock
            (holder_in holders.now (source_of frame.now.id)) frame.now (incoming_of self.old).reception) (incoming_of self.old) }
    {
        if bearing.drives_away {
            self.sessions.lose();
            None
        } else if bearing.is_held {
            let name = holders.holder(frame.id.source());
            self.sessions.hear(frame, self.clock, name)
        } else {
            None
        }
    }

    /// The address that its holder claims again, where nothing called for that.
    fn claimed_again(&self, holders: &Claims, heard: Heard) -> Option<u8>
        ensures { result ≡ claimed_again (holder_in holders.now) (incoming_of self.now).called (claim_in heard) }
    {
        let (name, address) = heard.claim()?;
        if holds(holders, address, name) && !self.is_called(address) {
            Some(address)
        } else {
            None
        }
    }

    /// Whether the claim of this address was called for.
    fn is_called(&self, address: u8) -> bool
        ensures { result ≡ is_called address (incoming_of self.now).called }
    {
        self.called != 0 && (self.whom == address || self.whom == GLOBAL_ADDRESS)
    }

    /// The claim of an address is called for at this moment, or that of all (255), or none.
    pub(crate) fn call(&mut self, whom: Option<u8>, now: Stamp)
        ensures { incoming_of self.new ≡ with_called (called_for (called_time + (stamp_micros now - (incoming_of self.old).moment))
            whom (incoming_of self.old).called) (incoming_of self.old) }
    {
        if let Some(address) = whom {
            self.whom = if self.called == 0 || self.whom == address {
                address
            } else {
                GLOBAL_ADDRESS
            };
            self.called = CALLED_TIME + now.micros().saturating_sub(self.moment);
        }
    }

    /// Begins anew at another address, at this moment: open sessions are dropped, and what was to be said. Their memory is kept. False
    /// above 253, where nothing changes.
    pub(crate) fn move_to(&mut self, own: u8, moment: u64) -> bool
        ensures known { IsTrue result ↔ IsAddress own }
        ensures moved { result ≡ true → incoming_of self.new ≡ record {
          moment = moment;
          clock = later 0 moment;
          called = record { left = 0; whose = 0 };
          reception = record (loses (incoming_of self.old).reception) { own = own };
        } }
        ensures stays { result ≡ false → self.new ≡ self.old }
    {
        if !self.sessions.move_to(own) {
            return false;
        }
        self.moment = moment;
        self.clock = later(Stamp::new(0).unwrap(), moment);
        self.called = 0;
        self.whom = 0;
        true
    }

    /// Time passes.
    pub(crate) fn tick(&mut self, now: Stamp)
        ensures { incoming_of self.new ≡ ticks (stamp_micros now) (incoming_of self.old) }
    {
        self.pass(now);
        self.sessions.tick(self.clock);
    }

    /// Its own claim is taken: sessions end whose source has another holder by it.
    pub(crate) fn note(&mut self, holders: &mut Claims, claim: &Frame)
        ensures knows { (F : List FrameRecord) → Knows holders.old F → Knows holders.new (F ++ claim.now ∷ []) }
        ensures left { incoming_of self.new ≡ with_reception (leaves None (holder_in holders.new) (incoming_of self.old).reception) (incoming_of self.old) }
    {
        tell(holders, claim, false);
        self.sessions.leave(None, holders);
    }

    /// The first moment at which a tick says something.
    pub(crate) fn next_tick(&self) -> Option<Stamp>
        ensures { option_map stamp_micros result ≡ tick_at (Rattle.j39_sessions.specs.Sessions.earliest (incoming_of self.now).reception.sessions)
            (incoming_of self.now).moment (incoming_of self.now).clock }
    {
        let left = (self.sessions.limit()? + 1).saturating_sub(self.clock.micros());
        Stamp::new(self.moment.saturating_add(left))
    }

    /// Whether a session of this source, with a message of this group, is open.
    pub(crate) fn is_open(&self, source: u8, group: Pgn) -> bool
        ensures { result ≡ is_open source (pgn_raw group) (incoming_of self.now).reception.sessions }
    {
        self.sessions.is_open(source, group)
    }

    /// The sessions' time at this moment: time that goes back is no time.
    pub(crate) fn clock_at(&self, now: Stamp) -> Stamp
        ensures { stamp_micros result ≡ later (incoming_of self.now).clock (stamp_micros now - (incoming_of self.now).moment) }
    {
        let step = now.micros().saturating_sub(self.moment);
        later(self.clock, step)
    }

    /// Whether something is to be said.
    pub(crate) fn has_reply(&self) -> bool
        ensures { result ≡ nat_lt 0 (length (replies_of (incoming_of self.now).reception)) }
    {
        self.sessions.has_reply()
    }

    /// The first reply's frame.
    pub(crate) fn frame(&self, now: Stamp) -> Option<Frame>
        ensures { option_map stamped result
            ≡ option_map (λ m. (stamp_micros now, m)) (slice_get (replies_of (incoming_of self.now).reception) 0) }
    {
        let (to, bytes) = self.sessions.first_reply()?;
        reply_frame(self.sessions.address(), to, &bytes, now)
    }

    /// The first reply's frame, which is taken.
    pub(crate) fn take_frame(&mut self, now: Stamp) -> Option<Frame>
        ensures frame { option_map stamped result
            ≡ option_map (λ m. (stamp_micros now, m)) (slice_get (replies_of (incoming_of self.old).reception) 0) }
        ensures taken { incoming_of self.new ≡ with_reception (says (incoming_of self.old).reception) (incoming_of self.old) }
    {
        let frame = self.frame(now);
        self.sessions.drop_reply();
        frame
    }

    /// The oldest message that waits.
    pub(crate) fn message(&self) -> Option<Message<'_>>
        ensures value { option_map (λ m. (stamp_micros m.stamp, message_shown m)) result ≡ slice_get (incoming_of self.now).reception.waits 0 }
        ensures most { IfSome result (λ m. length m.payload.now ≤ 1785) }
    {
        self.sessions.message()
    }

    /// The NAME that held its source; `None` where nobody did, or none waits.
    pub(crate) fn sender(&self) -> Option<Name>
        ensures { option_map name_raw result ≡ unwrap_or (slice_get (incoming_of self.now).reception.senders 0) None }
    {
        self.sessions.sender()
    }

    /// Frees its box; whether one waited.
    pub(crate) fn release(&mut self) -> bool
        ensures waited { result ≡ nat_lt 0 (length (incoming_of self.old).reception.waits) }
        ensures released { incoming_of self.new ≡ with_reception (releases (incoming_of self.old).reception) (incoming_of self.old) }
    {
        self.sessions.release()
    }

    /// To this moment.
    fn pass(&mut self, now: Stamp)
        ensures { incoming_of self.new ≡ passed_to (stamp_micros now) (incoming_of self.old) }
    {
        self.clock = self.clock_at(now);
        self.called = self
            .called
            .saturating_sub(now.micros().saturating_sub(self.moment));
        self.moment = now.micros();
    }
}

/// The frame of a reply.
fn reply_frame(own: u8, to: u8, bytes: &[u8], now: Stamp) -> Option<Frame>
    ensures { length bytes.now ≤ 8 → option_map stamped result ≡ Some (stamp_micros now, reply_from own to bytes.now) }
{
    let id = control_id(own, to)?;
    Frame::new(now, id, bytes)
}

/// Notes a claim, unless it is another's of the own NAME.
fn tell(holders: &mut Claims, frame: &Frame, is_double: bool)
    ensures knows { (F : List FrameRecord) → Knows holders.old F → Knows holders.new (if is_double then F else F ++ frame.now ∷ []) }
{
    if !is_double {
        let _changed = holders.note(frame);
    }
}

/// This much later, at most the last moment that a stamp can tell.
fn later(clock: Stamp, step: u64) -> Stamp
    ensures { stamp_micros result ≡ later (stamp_micros clock) step }
{
    let moment = clock.micros().saturating_add(step);
    Stamp::new(moment.min(Stamp::LIMIT - 1)).unwrap()
}

/// Whether this NAME holds the address.
fn holds(holders: &Claims, address: u8, name: Name) -> bool
    ensures { result ≡ is_some_of (holder_in holders.now address) (name_raw name) }
{
    match holders.holder(address) {
        Some(holder) => holder.raw() == name.raw(),
        None => false,
    }
}

/// Whose claim a frame calls for.
fn calls_whom(holders: &Claims, heard: Heard, frame: &Frame) -> Option<u8>
    ensures { IsRead heard frame.now → result ≡ calls_whom (holder_in holders.now) frame.now (claim_of frame.now) }
{
    match heard.claim() {
        Some((name, address)) => {
            if holds(holders, address, name) {
                None
            } else {
                Some(address)
            }
        }
        None => {
            if heard.asks_for(ADDRESS_CLAIMED) {
                Some(whom(frame.id))
            } else {
                None
            }
        }
    }
}

/// To whom a message of this identifier goes: an address, or all (255).
pub(crate) fn whom(id: Id) -> u8
    ensures { result ≡ whom (destination_of (id_raw id)) }
{
    match id.destination() {
        Some(address) => address,
        None => GLOBAL_ADDRESS,
    }
}

/// The identifier of a frame by which a session is steered.
fn control_id(source: u8, destination: u8) -> Option<Id>
    ensures { IsSomeAnd result (λ id. (bytes : List ℕ) → carried (id_raw id) bytes ≡ reply_from source destination bytes) }
{
    let group = Pgn::new(TRANSPORT_CONTROL)?;
    Id::compose(7, group, destination, source)
}
