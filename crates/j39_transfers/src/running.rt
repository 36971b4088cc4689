//! A box with one transfer.
ghost use Rattle.std.specs.Prelude.{◌≡◌, ℕ, Option, Some, None, IsTrue, IsSome, IfSome, length};
ghost use Rattle.std.specs.Option.{is_some, option_map};
ghost use Rattle.j39_address.specs.Claims.{holder_in};
ghost use Rattle.j39_address.specs.Name.{name_raw};
ghost use Rattle.j39_frame.specs.Stamp.{stamp_micros};
ghost use Rattle.j39_frame.specs.Pgn.{pgn_raw};
ghost use Rattle.j39_transport.specs.Cutting.{to_send};
ghost use Rattle.j39_transport.specs.SenderModel.{IsSender};
ghost use Rattle.j39_transfers.specs.Transfers.{breaks, due_in, end_of, ending, frame_of, gives_up, goes, hears_in, is_due, is_ended, is_left, is_over, is_spent, leaves_in, rest_of, sends_in, signal_by, urgency_in};
ghost use Rattle.j39_transport.specs.Sending.{is_running};

use crate::kinds::{Ending, Outgoing};
use j39_address::{Claims, Name};
use j39_frame::{Frame, Id, Pgn, Stamp};
use j39_transport::{SendEvent, SendState, SenderInPlace};

/// How many clears to send may grant nothing new.
const BUDGET: u8 = 64;

/// The reason of an abort: as often as may be, it was asked to send again (J1939-21).
const ASKED_TOO_OFTEN: u8 = 5;

/// The reasons by which a receiver refuses a request to send: it has another session, or no memory (J1939-21, 5.10.3.4).
const BUSY: u8 = 1;

const NO_RESOURCES: u8 = 2;

/// For how long one rests that wasn't acknowledged, in microseconds.
const REST_TIME: u64 = 4_000_000;

/// A group that isn't sent to an address till a moment.
#[derive(Clone, Copy)]
pub(crate) struct Rest {
    pub(crate) to: u8,
    pub(crate) group: Pgn,
    pub(crate) until: u64,
}

/// A transfer that isn't told to have ended.
#[derive(Drop)]
pub(crate) struct Running {
    pub(crate) sender: SenderInPlace,
    pub(crate) token: u64,
    pub(crate) priority: u8,
    /// The highest packet that it was granted.
    pub(crate) granted: u8,
    /// How many clears to send granted nothing higher.
    pub(crate) spent: u8,
    /// When it began, was cleared to send, sent a frame or ended last.
    pub(crate) last: Stamp,
    /// The NAME that was known to hold its destination's address.
    pub(crate) name: Option<Name>,
    /// How it was broken off.
    pub(crate) broken: Option<Ending>,
}

impl Running {
    ghost use Rattle.j39_transfers.specs.Boxes.{rest_by, transfer_in};

    /// A box in which nothing was begun.
    #[inline(always)]
    pub(crate) fn blank() -> Running {
        Running {
            sender: SenderInPlace::new(0, Pgn::new(0).unwrap(), &[0; 9], 0).unwrap(),
            token: 0,
            priority: 0,
            granted: 0,
            spent: 0,
            last: Stamp::new(0).unwrap(),
            name: None,
            broken: None,
        }
    }

    /// Its next transfer is this one.
    pub(crate) fn begin(
        &mut self,
        sender: SenderInPlace,
        message: &Outgoing<'_>,
        name: Option<Name>,
        now: Stamp,
    )
        ensures { transfer_in self.new ≡ record {
          token = message.now.token;
          priority = message.now.priority;
          sender = sender;
          granted = 0;
          spent = 0;
          last = stamp_micros now;
          name = option_map name_raw name;
          broken = None;
        } }
    {
        self.sender = sender;
        self.token = message.token;
        self.priority = message.priority;
        self.granted = 0;
        self.spent = 0;
        self.last = now;
        self.name = name;
        self.broken = None;
    }

    /// A frame was heard.
    pub(crate) fn hear(&mut self, frame: &Frame, now: Stamp)
        ensures { transfer_in self.new ≡ hears_in frame.now (stamp_micros now) (transfer_in self.old) }
    {
        if self.is_over() || self.is_spent() {
            return;
        }
        if let Some(last) = self.sender.granted(frame) {
            self.last = now;
            if last > self.granted {
                self.granted = last;
            } else {
                self.spent += 1;
            }
        }
        let _silent = self.sender.on(SendEvent::Heard(frame), now);
        if self.is_ended() {
            self.last = now;
        }
    }

    /// The frame that it sends.
    pub(crate) fn frame(&self, now: Stamp) -> Option<(Id, [u8; 8])>
        ensures value { option_map to_send result ≡ frame_of (stamp_micros now) (transfer_in self.now) }
    {
        if self.broken.is_some() {
            None
        } else if self.gives_up() {
            Some(self.sender.abort(ASKED_TOO_OFTEN))
        } else {
            self.sender.next(now)
        }
    }

    /// That frame was sent.
    pub(crate) fn sent(&mut self, now: Stamp)
        ensures { transfer_in self.new ≡ sends_in (stamp_micros now) (transfer_in self.old) }
    {
        self.last = now;
        if self.gives_up() {
            self.sender.fail(ASKED_TOO_OFTEN);
        } else {
            let _sent = self.sender.on(SendEvent::Tick, now);
        }
    }

    /// In how many microseconds it sends one, if nothing is heard till then.
    pub(crate) fn due_in(&self, now: Stamp) -> Option<u64>
        ensures { result ≡ due_in (stamp_micros now) (transfer_in self.now) }
    {
        if self.broken.is_some() {
            None
        } else if self.gives_up() {
            Some(0)
        } else {
            self.sender.sends_in(now)
        }
    }

    /// Whether it sends one now.
    pub(crate) fn is_due(&self, now: Stamp) -> bool
        ensures { result ≡ is_due (stamp_micros now) (transfer_in self.now) }
    {
        match self.due_in(now) {
            Some(left) => left == 0,
            None => false,
        }
    }

    /// Its priority number, if it sends one now.
    pub(crate) fn urgency(&self, now: Stamp) -> Option<u64>
        ensures { result ≡ urgency_in (stamp_micros now) (transfer_in self.now) }
    {
        if self.is_due(now) {
            Some(u64::from(self.priority))
        } else {
            None
        }
    }

    /// Whether it sends one now, and has this priority number.
    pub(crate) fn goes(&self, urgency: u64, now: Stamp) -> bool
        ensures { result ≡ goes (stamp_micros now) (Some urgency) (transfer_in self.now) }
    {
        self.is_due(now) && u64::from(self.priority) == urgency
    }

    /// It ends, unless it is over.
    pub(crate) fn break_off(&mut self, ending: Ending, now: Stamp)
        ensures { transfer_in self.new ≡ breaks ending (stamp_micros now) (transfer_in self.old) }
    {
        if !self.is_over() {
            self.broken = Some(ending);
            self.last = now;
        }
    }

    /// Who holds which address may have changed: it ends where its destination has another holder than was known, or a restarted one.
    pub(crate) fn leave(&mut self, gone: Option<u8>, holders: &Claims, now: Stamp)
        ensures { transfer_in self.new ≡ leaves_in gone (holder_in holders.now) (stamp_micros now) (transfer_in self.old) }
    {
        if self.is_left(gone, holders) {
            self.break_off(Ending::Gone, now);
        } else {
            self.name = holders.holder(self.destination());
        }
    }

    fn is_left(&self, gone: Option<u8>, holders: &Claims) -> bool
        ensures { result ≡ is_left gone (holder_in holders.now) (transfer_in self.now) }
    {
        let destination = self.destination();
        if gone == Some(destination) {
            return true;
        }
        match (self.name, holders.holder(destination)) {
            (None, _) => false,
            (Some(_name), None) => true,
            (Some(one), Some(other)) => one.raw() != other.raw(),
        }
    }

    /// How it ended.
    pub(crate) fn ending(&self) -> Option<Ending>
        ensures { result ≡ ending (transfer_in self.now) }
    {
        match self.sender.state() {
            SendState::Done => Some(Ending::Done),
            SendState::Failed(reason) => Some(Ending::Failed(reason)),
            SendState::Idle => self.broken,
            SendState::Waiting => self.broken,
            SendState::Sending => self.broken,
        }
    }

    /// Its token, and how it ended.
    pub(crate) fn ended(&self) -> Option<(u64, Ending)>
        ensures { result ≡ end_of (transfer_in self.now) }
    {
        let ending = self.ending()?;
        Some((self.token, ending))
    }

    /// Whether it ended.
    pub(crate) fn is_over(&self) -> bool
        ensures { result ≡ is_over (transfer_in self.now) }
    {
        self.ending().is_some()
    }

    /// The pair of group and destination that rests by its end; none where it was acknowledged, nothing of it was sent, or its request to
    /// send was refused: then its destination has no session of it.
    pub(crate) fn rest(&self) -> Option<Rest>
        ensures rests { option_map rest_by result ≡ rest_of (transfer_in self.now) }
    {
        match self.sender.state() {
            SendState::Idle => return None,
            SendState::Done => return None,
            SendState::Failed(reason) => {
                let is_refusal = reason == BUSY || reason == NO_RESOURCES;
                if is_refusal && self.granted == 0 && self.spent == 0 {
                    return None;
                }
            }
            SendState::Waiting => {}
            SendState::Sending => {}
        }
        Some(Rest {
            to: self.destination(),
            group: self.sender.group(),
            until: self.last.micros() + REST_TIME,
        })
    }

    /// To whom it goes.
    pub(crate) fn destination(&self) -> u8
        ensures { result ≡ (transfer_in self.now).sender.destination }
    {
        self.sender.destination()
    }

    fn is_spent(&self) -> bool
        ensures { result ≡ is_spent (transfer_in self.now) }
    {
        self.spent > BUDGET
    }

    fn gives_up(&self) -> bool
        ensures { result ≡ gives_up (transfer_in self.now) }
    {
        self.is_spent() && self.is_running()
    }

    fn is_running(&self) -> bool
        ensures { result ≡ is_running self.now.sender.state }
    {
        match self.sender.state() {
            SendState::Idle => false,
            SendState::Waiting => true,
            SendState::Sending => true,
            SendState::Done => false,
            SendState::Failed(_reason) => false,
        }
    }

    /// Whether it was acknowledged or aborted.
    fn is_ended(&self) -> bool
        ensures { result ≡ is_ended self.now.sender.state }
    {
        match self.sender.state() {
            SendState::Idle => false,
            SendState::Waiting => false,
            SendState::Sending => false,
            SendState::Done => true,
            SendState::Failed(_reason) => true,
        }
    }
}
