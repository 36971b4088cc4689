//! The receiving end of directed transfers (J1939-21, 5.10.3).
ghost use Rattle.std.specs.Prelude.{◌≡◌, ◌≤◌, ◌<◌, ◌+◌, ◌^◌, ◌↔◌, ◌||◌, ◌∷◌, ◌++◌, [], ℕ, IsTrue, IsSome, IfSome, IfOk, OnErr, Bool, true, false, List, None, length};
ghost use Rattle.std.specs.Borrow.{sem};
ghost use Rattle.std.specs.Io.BufRead.{Rests};
ghost use Rattle.std.specs.Option.{is_some, option_map};
ghost use Rattle.j39_frame.specs.Address.{IsAddress};
ghost use Rattle.j39_frame.specs.Frame.{FrameRecord};
ghost use Rattle.j39_frame.specs.Pgn.{pgn_raw};
ghost use Rattle.j39_frame.specs.Stamp.{stamp_micros};
ghost use Rattle.j39_transport.specs.Cutting.{to_send};
ghost use Rattle.j39_transport.specs.Frames.{source_of};
ghost use Rattle.j39_transport.specs.Key.Key.{Directed};
ghost use Rattle.j39_transport.specs.ReceiverStands.{ReceiverStandsFor, WereHanded, HasHeard};
ghost use Rattle.j39_transport.specs.Reception.{expects, takes_request, takes_data, takes_abort, takes_signal, takes_tick, is_taken, limit_of};
ghost use Rattle.j39_transport.specs.Receiving.{said_to, RecvStep, HearStep, Tick, Heard, recv_step, answer_in, lent_after, result_of, new_receiver, partner_of};
ghost use Rattle.j39_transport.specs.SessionModel.{opened_by};
ghost use Rattle.j39_transport.specs.SignalModel.{said};
ghost use Rattle.j39_transport.specs.ReceiverModel.{stepped, reacted, has_box, stamped, lent_by, whole_in, IsAt, IsStep, Lends, BuffersRecord, answer_of, IsStamped};

use crate::announcement::Announcement;
use crate::message::Message;
use crate::protocol::{BUSY, NO_RESOURCES};
use crate::reception::{Reception, Step};
use crate::signal::{self, Pair, Signal};
use j39_frame::{Frame, Id, NULL_ADDRESS, Pgn, Stamp, is_address};
use std::alloc::{AllocError, Global};
use std::marker::Model;

/// What a receiver answers to a frame.
#[derive(Debug, Drop)]
pub enum Reply<'a> {
    /// Nothing.
    Nothing,
    /// A frame to send.
    Send(Id, [u8; 8]),
    /// A message that is whole, and its acknowledgment, to be sent.
    Delivered(Message<'a>, Id, [u8; 8]),
}

/// Receives the messages that are sent to one address, one at a time.
#[derive(Drop)]
pub struct Receiver {
    own: u8,
    buffers: Buffers,
}

impl Model for Receiver {
    ghost use Rattle.j39_frame.specs.Address.{IsAddress};
    ghost use Rattle.j39_transport.specs.Receiving.{BoxedReceiver};
    ghost use Rattle.j39_transport.specs.ReceiverModel.{has_box, lent_by};

    ghost Value = { BoxedReceiver };

    ghost view = { λ r. record {
      state = record { own = r.own; session = r.buffers.session };
      has_box = has_box r.buffers;
      lent = lent_by r.buffers;
    } };

    ghost invariant = { λ r. IsAddress r.own };
}

impl Receiver {
    ghost use Rattle.j39_transport.specs.contracts.receiver.Receiver.{the_row};

    /// A receiver at an address, with no session; `None` above 253. It takes no memory: that comes at
    /// an RTS, and may be wanting there.
    pub fn new(alloc: Global, own: u8) -> Option<Receiver>
        ensures known { IsSome result ↔ IsAddress own }
        ensures value { IfSome result (λ receiver. receiver ≡ record { state = new_receiver own; has_box = false; lent = None }) }
        ensures stands { IfSome result (λ receiver. ReceiverStandsFor [] receiver.state) }
    {
        if !is_address(own) {
            return None;
        }
        Some(Receiver {
            own,
            buffers: Buffers {
                alloc,
                session: None,
                spare: None,
            },
        })
    }

    /// A receiver at an address, with no session and with its buffer, 1.8 kB, taken at once: so no
    /// call of it wants memory, and no RTS is answered by abort 2. `None` above 253, where nothing is
    /// taken; an error where memory is refused.
    pub fn with_buffer(alloc: Global, own: u8) -> Result<Option<Receiver>, AllocError>
        ensures known { IfOk result (λ found. IsSome found ↔ IsAddress own) }
        ensures value { IfOk result (λ found. IfSome found (λ receiver.
            receiver ≡ record { state = new_receiver own; has_box = true; lent = None })) }
        ensures stands { IfOk result (λ found. IfSome found (λ receiver. ReceiverStandsFor [] receiver.state)) }
        ensures refused { OnErr result (IsAddress own) }
    {
        if is_address(own) {
            let spare = Some(boxed(alloc)?);
            Ok(Some(Receiver {
                own,
                buffers: Buffers {
                    alloc,
                    session: None,
                    spare,
                },
            }))
        } else {
            Ok(None)
        }
    }

    /// Takes a frame of the bus, of whatever group, at a moment. Memory is taken at an RTS alone, and
    /// only by a receiver that has no buffer yet; where it is refused, abort 2 is answered and nothing
    /// has changed.
    pub fn on(&mut self, frame: &Frame, now: Stamp) -> Reply<'_>
        ensures answer { (found : Bool)
            × (answer_of result ≡ answer_in (recv_step self.old.state (Heard frame.now) (stamp_micros now) found)) }
        ensures boxed { self.old.has_box ≡ true
            → answer_of result ≡ answer_in (recv_step self.old.state (Heard frame.now) (stamp_micros now) true) }
        ensures delivered { (E : List FrameRecord) → ReceiverStandsFor E self.old.state
            → WereHanded self.old.state.own (E ++ frame.now ∷ []) (answer_of result).delivers }
        ensures stamp { IsStamped (stamp_micros now) result }
        ensures short { IfSome (answer_of result).delivers (λ message. length message.bytes ≤ 1785) }
        ensures* after { sem 𝓛 (Rests the_row self.entry (λ n.
            HasHeard self.old frame.now (stamp_micros now) (answer_of result) n)) }
    {
        self.hear(frame, now)
    }

    fn hear(&mut self, frame: &Frame, now: Stamp) -> Reply<'_>
        ensures answer { (found : Bool) × (self.old.has_box ≡ true → found ≡ true)
            × (answer_of result ≡ answer_in (recv_step self.old.state (Heard frame.now) (stamp_micros now) found)) }
        ensures stamp { IsStamped (stamp_micros now) result }
        ensures short { IfSome (answer_of result).delivers (λ message. length message.bytes ≤ 1785) }
        ensures* after { sem 𝓛 (Rests the_row self.entry (λ n.
            HearStep self.old frame.now (stamp_micros now) (answer_of result) n)) }
    {
        let source = signal::source_in(frame);
        let pair = Pair {
            from: source,
            to: self.own,
        };
        let signal = said_to(self.own, frame);
        let step = self.buffers.take_signal(pair, signal, now);
        self.buffers.lend(step, self.own, source)
    }

    /// Lets time pass, and answers the frame to send, if there is one: a CTS again, or abort 3.
    pub fn tick(&mut self, now: Stamp) -> Option<(Id, [u8; 8])>
        ensures step { RecvStep self.old.state Tick (stamp_micros now)
            (record { sends = option_map to_send result; delivers = None }) self.new.state }
        ensures buffer { self.new.has_box ≡ self.old.has_box }
        ensures lent { self.new.lent ≡ self.old.lent }
        ensures stands { (E : List FrameRecord) → ReceiverStandsFor E self.old.state
            → ReceiverStandsFor E self.new.state }
    {
        self.wait(now)
    }

    #[tactic(auto, unfolding(crate::specs::Receiving::recv_step), using(crate::proofs::ReceptionLemmas::tick_delivers_nothing))]
    fn wait(&mut self, now: Stamp) -> Option<(Id, [u8; 8])>
        ensures step { RecvStep self.old.state Tick (stamp_micros now)
            (record { sends = option_map to_send result; delivers = None }) self.new.state }
        ensures buffer { self.new.has_box ≡ self.old.has_box }
        ensures lent { self.new.lent ≡ self.old.lent }
    {
        let to = self.buffers.partner();
        match self.buffers.tick(now) {
            Step::Quiet => None,
            Step::Says(signal) => Some(signal::write(signal, self.own, to)),
            Step::Aborts(signal) => Some(signal::write(signal, self.own, to)),
            Step::Delivers(signal) => Some(signal::write(signal, self.own, to)),
        }
    }

    /// The abort that refuses an RTS for whose message there is no room elsewhere, as one does that finds no memory; for
    /// a receiver with no session.
    #[tactic(auto, unfolding(crate::specs::Receiving::recv_step, crate::specs::Reception::takes_signal, crate::specs::Reception::takes_request, crate::specs::Reception::takes_data, crate::specs::Reception::takes_abort))]
    pub fn refuse(&self, frame: &Frame) -> Option<(Id, [u8; 8])>
        ensures { self.now.state.session ≡ None → (now : ℕ) → recv_step self.now.state (Heard frame.now) now false
            ≡ record { after = self.now.state; sends = option_map to_send result; delivers = None } }
    {
        match said_to(self.own, frame) {
            Some(Signal::RequestToSend(announcement, _)) => {
                let abort = Signal::Abort(NO_RESOURCES, announcement.group.raw());
                Some(signal::write(abort, self.own, signal::source_in(frame)))
            }
            Some(Signal::BroadcastAnnounce(_)) => None,
            Some(Signal::ClearToSend(_, _, _)) => None,
            Some(Signal::Acknowledgment(_, _, _)) => None,
            Some(Signal::Abort(_, _)) => None,
            Some(Signal::Packet(_, _)) => None,
            None => None,
        }
    }

    /// Ends the session, if one is open, without a frame.
    pub fn end(&mut self)
        ensures state { self.new.state ≡ new_receiver self.old.state.own }
        ensures buffer { self.new.has_box ≡ self.old.has_box }
        ensures lent { self.new.lent ≡ self.old.lent }
    {
        self.buffers.end();
    }

    /// Begins anew at another address, as `with_buffer` would there, with no frame and no memory taken: a session is
    /// dropped, and the buffer is kept. False above 253, where nothing changes.
    pub fn move_to(&mut self, own: u8) -> bool
        ensures known { IsTrue result ↔ IsAddress own }
        ensures moved { result ≡ true → self.new.state ≡ new_receiver own }
        ensures stays { result ≡ false → self.new ≡ self.old }
        ensures buffer { self.new.has_box ≡ self.old.has_box }
        ensures lent { self.new.lent ≡ self.old.lent }
        ensures stands { result ≡ true → ReceiverStandsFor [] self.new.state }
    {
        if !is_address(own) {
            return false;
        }
        self.end();
        self.own = own;
        true
    }

    /// The address that it is at.
    pub fn address(&self) -> u8
        ensures { result ≡ self.now.state.own }
    {
        self.own
    }

    /// Whose session is open.
    pub fn source(&self) -> Option<u8>
        ensures { result ≡ option_map (λ r. r.message.source) self.now.state.session }
    {
        match &self.buffers.session {
            Some(session) => Some(session.source()),
            None => None,
        }
    }

    /// The group of the open session's message.
    pub fn group(&self) -> Option<Pgn>
        ensures { option_map pgn_raw result ≡ option_map (λ r. r.message.group) self.now.state.session }
    {
        match &self.buffers.session {
            Some(session) => Some(session.pgn()),
            None => None,
        }
    }

    /// How many packets the open session's message has.
    pub fn packets(&self) -> Option<u8>
        ensures { result ≡ option_map (λ r. r.message.packets) self.now.state.session }
    {
        match &self.buffers.session {
            Some(session) => Some(session.packets()),
            None => None,
        }
    }

    /// Whether the open session's packet of this number is next, or the last that was granted.
    pub fn expects(&self, number: u8) -> bool
        ensures { result ≡ expects number self.now.state.session }
    {
        match &self.buffers.session {
            Some(session) => session.expects(number),
            None => false,
        }
    }

    /// The moment, in microseconds, after which a tick answers a frame; `None` with no session.
    pub fn limit(&self) -> Option<u64>
        ensures value { result ≡ option_map (λ r. r.message.last + limit_of r) self.now.state.session }
        ensures fits { IfSome result (λ moment. moment < 2 ^ 54) }
    {
        match &self.buffers.session {
            Some(session) => Some(session.limit()),
            None => None,
        }
    }

    /// The message that it delivered last, till its buffer is used again.
    pub fn delivered(&self) -> Option<Message<'_>>
        ensures value { option_map stamped result ≡ self.now.lent }
        ensures short { IfSome result (λ message. length message.payload.now ≤ 1785) }
    {
        self.buffers.lent()
    }

    /// Whether a session is open. A controller starts its next message to a receiver when this is
    /// false there.
    pub fn busy(&self) -> bool
        ensures value { IsTrue result ↔ IsSome self.now.state.session }
    {
        self.buffers.session.is_some()
    }
}

/// What a frame says to the controller at its own address.
#[tactic(auto, unfolding(crate::specs::Receiving::said_to, crate::specs::Frames::source_of))]
fn said_to(own: u8, frame: &Frame) -> Option<Signal>
    ensures { option_map said result ≡ said_to own frame.now }
{
    let source = frame.id.source();
    if is_address(source) {
        signal::read_between(frame, source, own)
    } else {
        None
    }
}

/// A session with its buffer, or none.
type ReceptionBox = Option<Box<Reception>>;

/// A buffer for a message: the one place where memory is taken.
fn boxed(alloc: Global) -> Result<Box<Reception>, AllocError>
    ensures { IfOk result (λ made. whole_in (Some made.value) ≡ None) }
{
    Ok(Box::new(alloc, Reception::unused())?)
}

/// The session of a receiver with its buffer, and the buffer that no session uses.
#[derive(Drop)]
struct Buffers {
    alloc: Global,
    session: ReceptionBox,
    /// The session last over: its message is lent from it, and the next RTS uses its box again. Or a
    /// buffer in which no message was begun yet.
    spare: ReceptionBox,
}

impl Model for Buffers {
    ghost use Rattle.j39_transport.specs.ReceiverModel.{BuffersRecord, IsOpen, stored_in};

    ghost Value = { BuffersRecord };

    ghost view = { λ b. record { session = stored_in b.session; spare = stored_in b.spare } };

    ghost invariant = { λ b. IsOpen (stored_in b.session) };
}

impl Buffers {
    /// Where the answer of a tick goes: to the session's source.
    fn partner(&self) -> u8
        ensures { result ≡ partner_of self.now.session }
    {
        match &self.session {
            Some(session) => session.source(),
            None => NULL_ADDRESS,
        }
    }

    /// Whether the session of another source is open.
    fn is_taken(&self, source: u8) -> bool
        ensures { result ≡ is_taken source self.now.session }
    {
        match &self.session {
            None => false,
            Some(session) => source != session.source(),
        }
    }

    /// Ends the session, and keeps its buffer.
    fn end(&mut self)
        ensures session { self.new.session ≡ None }
        ensures buffer { has_box self.new ≡ has_box self.old }
        ensures lent { lent_by self.new ≡ lent_by self.old }
    {
        if let Some(session) = self.session.take() {
            self.spare = Some(session);
        }
    }

    /// Puts a session back, or where it is over aside.
    fn settle(&mut self, session: Box<Reception>, step: Step)
        requires empty { self.old.session ≡ None }
        requires step { IsStep step session.value }
        ensures does { reacted step self.new ≡ stepped step session.value }
        ensures buffer { has_box self.new ≡ true }
        ensures lends { (now : ℕ) → IsAt now step session.value
            → lent_by self.new ≡ lent_after now (reacted step self.new).delivers self.new.session None }
    {
        match step {
            Step::Quiet => self.session = Some(session),
            Step::Says(_) => self.session = Some(session),
            Step::Aborts(_) => self.spare = Some(session),
            Step::Delivers(_) => self.spare = Some(session),
        }
    }

    /// A packet of a source.
    #[tactic(auto, unfolding(crate::specs::Reception::takes_data))]
    fn take_data(&mut self, source: u8, number: u8, part: &[u8; 7], now: Stamp) -> Step
        ensures does { reacted result self.new
            ≡ takes_data source number part.now (stamp_micros now) self.old.session }
        ensures buffer { has_box self.new ≡ has_box self.old }
        ensures lends { Lends (stamp_micros now) result self.old self.new }
    {
        match self.session.take() {
            None => Step::Quiet,
            Some(mut session) => {
                if source == session.source() {
                    let step = session.take_packet(number, part, now);
                    self.settle(session, step);
                    step
                } else {
                    self.session = Some(session);
                    Step::Quiet
                }
            }
        }
    }

    /// An abort of a source.
    #[tactic(auto, unfolding(crate::specs::Reception::takes_abort))]
    fn take_abort(&mut self, source: u8, pgn: u32) -> Step
        ensures does { reacted result self.new ≡ takes_abort source pgn self.old.session }
        ensures buffer { has_box self.new ≡ has_box self.old }
        ensures lends { (now : ℕ) → Lends now result self.old self.new }
    {
        match self.session.take() {
            None => Step::Quiet,
            Some(session) => {
                if source == session.source() && pgn == session.pgn().raw() {
                    self.spare = Some(session);
                } else {
                    self.session = Some(session);
                }
                Step::Quiet
            }
        }
    }

    /// The buffer of the open session, or the spare one, or memory for one.
    fn take_box(&mut self) -> Result<Box<Reception>, AllocError>
        ensures session { OnErr result (self.new.session ≡ self.old.session) }
        ensures buffer { OnErr result (has_box self.new ≡ false) }
        ensures lacked { OnErr result (has_box self.old ≡ false) }
    {
        match self.session.take() {
            Some(session) => Ok(session),
            None => match self.spare.take() {
                Some(session) => Ok(session),
                None => boxed(self.alloc),
            },
        }
    }

    /// An RTS: with a buffer at hand, no memory is wanted.
    #[tactic(auto, unfolding(crate::specs::Reception::takes_request, crate::specs::Reception::grants, crate::specs::Reception::begun, crate::specs::Reception::granted_at))]
    fn take_request(&mut self, pair: Pair, announcement: Announcement, most: u8, now: Stamp) -> Step
        ensures does { reacted result self.new
            ≡ takes_request (opened_by pair.from pair.to announcement (stamp_micros now)) most (stamp_micros now)
            (has_box self.new) self.old.session }
        ensures buffer { has_box self.new ≡ is_some self.new.session || has_box self.old }
        ensures lends { Lends (stamp_micros now) result self.old self.new }
    {
        let group = announcement.group.raw();
        if self.is_taken(pair.from) {
            return Step::Aborts(Signal::Abort(BUSY, group));
        }
        let mut session = match self.take_box() {
            Ok(session) => session,
            Err(_) => return Step::Aborts(Signal::Abort(NO_RESOURCES, group)),
        };
        session.restart(pair, announcement, most, now);
        let signal = session.grant(now);
        self.session = Some(session);
        Step::Says(signal)
    }

    /// What is said from a source to the receiver at its own address. Memory was found for an RTS
    /// where there is a buffer afterwards: so no answer needs to tell that it was refused.
    #[tactic(auto, unfolding(crate::specs::Reception::takes_signal), using(crate::proofs::ReceptionLemmas::box_again))]
    fn take_signal(&mut self, pair: Pair, signal: Option<Signal>, now: Stamp) -> Step
        ensures does { reacted result self.new
            ≡ takes_signal (Directed pair.from pair.to) (option_map said signal) (stamp_micros now)
            (has_box self.new) self.old.session }
        ensures buffer { has_box self.new ≡ is_some self.new.session || has_box self.old }
        ensures lends { Lends (stamp_micros now) result self.old self.new }
    {
        match signal {
            None => Step::Quiet,
            Some(Signal::BroadcastAnnounce(_)) => Step::Quiet,
            Some(Signal::RequestToSend(announcement, most)) => {
                self.take_request(pair, announcement, most, now)
            }
            Some(Signal::ClearToSend(_, _, _)) => Step::Quiet,
            Some(Signal::Acknowledgment(_, _, _)) => Step::Quiet,
            Some(Signal::Abort(_, pgn)) => self.take_abort(pair.from, pgn),
            Some(Signal::Packet(number, part)) => self.take_data(pair.from, number, &part, now),
        }
    }

    /// Time that passes.
    #[tactic(auto, unfolding(crate::specs::Reception::takes_tick))]
    fn tick(&mut self, now: Stamp) -> Step
        ensures does { reacted result self.new ≡ takes_tick (stamp_micros now) self.old.session }
        ensures buffer { has_box self.new ≡ has_box self.old }
        ensures lent { lent_by self.new ≡ lent_by self.old }
    {
        match self.session.take() {
            None => Step::Quiet,
            Some(mut session) => {
                let step = session.tick(now);
                self.settle(session, step);
                step
            }
        }
    }

    /// The message of the session last over, if that was whole and none is open.
    fn lent(&self) -> Option<Message<'_>>
        ensures value { option_map stamped result ≡ lent_by self.now }
        ensures short { IfSome result (λ message. length message.payload.now ≤ 1785) }
    {
        match (&self.session, &self.spare) {
            (None, Some(session)) => session.whole(),
            (None, None) => None,
            (Some(_), _) => None,
        }
    }

    /// The answer, with a message that is delivered lent out of its buffer.
    fn lend(&self, step: Step, own: u8, to: u8) -> Reply<'_>
        ensures answer { answer_of result ≡ answer_in (result_of own to (reacted step self.now)) }
        ensures stamp { (now : ℕ) (old : BuffersRecord) → Lends now step old self.now → IsStamped now result }
        ensures short { IfSome (answer_of result).delivers (λ message. length message.bytes ≤ 1785) }
    {
        let (signal, lent) = match step {
            Step::Quiet => return Reply::Nothing,
            Step::Says(signal) => (signal, None),
            Step::Aborts(signal) => (signal, None),
            Step::Delivers(signal) => (signal, self.lent()),
        };
        let (id, bytes) = signal::write(signal, own, to);
        match lent {
            Some(message) => Reply::Delivered(message, id, bytes),
            None => Reply::Send(id, bytes),
        }
    }
}
