//! One message that a receiver is receiving.
ghost use Rattle.std.specs.Prelude.{◌≡◌, ◌<◌, ◌≤◌, ◌+◌, ◌^◌, length, None, Some, IfSome};
ghost use Rattle.std.specs.Option.{option_map};
ghost use Rattle.j39_frame.specs.Pgn.{pgn_raw};
ghost use Rattle.j39_frame.specs.Stamp.{stamp_micros};
ghost use Rattle.j39_transport.specs.Reception.{begun, expects, most_named, granted_at, window, asks_again, goes_on, takes_packet, takes_tick, limit_of};
ghost use Rattle.j39_transport.specs.ReceiverModel.{stepped, stamped, whole_in, IsAt, IsStep};
ghost use Rattle.j39_transport.specs.SessionModel.{opened_by};
ghost use Rattle.j39_transport.specs.SignalModel.{said};
ghost use Rattle.j39_transport.specs.Signals.{ClearToSend};

use crate::announcement::Announcement;
use crate::message::Message;
use crate::protocol::{NO_LIMIT, TIMEOUT, TIMER_T1, TIMER_T2};
use crate::session::Session;
use crate::signal::{Pair, Signal};
use j39_frame::{Pgn, Stamp};
use std::marker::Model;

/// How often a receiver asks again for a message (own).
const MOST_ASKS: u8 = 2;

/// What an event does. A session that answers it with nothing or a CTS is open still, and one that
/// answers with an abort or delivers is over.
#[derive(Clone, Copy)]
pub(crate) enum Step {
    /// Nothing is said.
    Quiet,
    /// This CTS is said.
    Says(Signal),
    /// This abort is said.
    Aborts(Signal),
    /// The message is whole, and this acknowledgment is said.
    Delivers(Signal),
}

/// A message that is being received, with what was granted of it.
#[derive(Drop)]
pub(crate) struct Reception {
    message: Session,
    most: u8,
    granted: u8,
    asks: u8,
    fresh: bool,
}

impl Model for Reception {
    ghost use Rattle.j39_transport.specs.Reception.{ReceptionRecord};
    ghost use Rattle.j39_transport.specs.ReceiverModel.{IsReception};

    ghost Value = { ReceptionRecord };

    ghost view = { λ r. record {
      message = r.message;
      most = r.most;
      granted = r.granted;
      asks = r.asks;
      fresh =
          r.fresh;
    } };

    ghost invariant = { λ r. IsReception (record
        { message = r.message; most = r.most; granted = r.granted; asks = r.asks; fresh = r.fresh }) };
}

impl Reception {
    /// A buffer in which no message was begun yet.
    pub(crate) fn unused() -> Reception
        ensures { whole_in (Some result) ≡ None }
    {
        Reception {
            message: Session::new(
                Pair { from: 0, to: 0 },
                Announcement::unused(),
                Stamp::new(0).unwrap(),
            ),
            most: 1,
            granted: 0,
            asks: 0,
            fresh: true,
        }
    }

    /// Begins a message in this buffer.
    #[tactic(auto, unfolding(crate::specs::Reception::begun))]
    pub(crate) fn restart(&mut self, pair: Pair, announcement: Announcement, most: u8, now: Stamp)
        ensures { self.new ≡ begun (opened_by pair.from pair.to announcement (stamp_micros now)) most }
    {
        self.message.restart(pair, announcement, now);
        self.most = most_packets(most);
        self.granted = 0;
        self.asks = 0;
        self.fresh = true;
    }

    pub(crate) fn source(&self) -> u8
        ensures { result ≡ self.now.message.source }
    {
        self.message.source()
    }

    pub(crate) fn pgn(&self) -> Pgn
        ensures { pgn_raw result ≡ self.now.message.group }
    {
        self.message.pgn()
    }

    /// How many packets it has.
    pub(crate) fn packets(&self) -> u8
        ensures { result ≡ self.now.message.packets }
    {
        self.message.packets()
    }

    /// Whether this packet is next, or the last that was granted.
    pub(crate) fn expects(&self, number: u8) -> bool
        ensures { result ≡ expects number (Some self.now) }
    {
        u16::from(number) == u16::from(self.message.count()) + 1 || number == self.granted
    }

    /// Its message, if that is whole.
    pub(crate) fn whole(&self) -> Option<Message<'_>>
        ensures value { option_map stamped result ≡ whole_in (Some self.now) }
        ensures short { IfSome result (λ message. length message.payload.now ≤ 1785) }
    {
        if self.message.count() != self.message.packets() {
            return None;
        }
        Some(Message {
            source: self.message.source(),
            pgn: self.message.pgn(),
            payload: self.message.payload(),
            stamp: self.message.last(),
        })
    }

    /// Grants the next packets: the CTS to send.
    #[tactic(auto, unfolding(crate::specs::Reception::granted_at))]
    pub(crate) fn grant(&mut self, now: Stamp) -> Signal
        requires { self.old.message.count < self.old.message.packets }
        ensures after { self.new ≡ granted_at (stamp_micros now) self.old }
        ensures says { said result ≡ ClearToSend (window self.old) (self.old.message.count + 1) self.old.message.group }
    {
        let got = self.message.count();
        let count = self.most.min(self.message.packets() - got);
        self.granted = got + count;
        self.fresh = true;
        self.message.touch(now);
        Signal::ClearToSend(count, got + 1, self.message.pgn().raw())
    }

    /// Asks for the packets from the number that comes next, at most twice for a message.
    #[tactic(auto, unfolding(crate::specs::Reception::asks_again, crate::specs::Reception::grants, crate::specs::Reception::granted_at))]
    fn ask_again(&mut self, now: Stamp) -> Step
        requires { self.old.message.count < self.old.message.packets }
        ensures step { stepped result self.new ≡ asks_again (stamp_micros now) self.old }
        ensures open { IsStep result self.new }
        ensures at { IsAt (stamp_micros now) result self.new }
    {
        if self.asks == MOST_ASKS {
            Step::Aborts(Signal::Abort(TIMEOUT, self.message.pgn().raw()))
        } else {
            self.asks += 1;
            Step::Says(self.grant(now))
        }
    }

    /// Goes on after the packet that came next was appended.
    #[tactic(auto, unfolding(crate::specs::Reception::goes_on, crate::specs::Reception::grants, crate::specs::Reception::granted_at, crate::specs::Reception::delivers_message))]
    fn go_on(&mut self, now: Stamp) -> Step
        ensures step { stepped result self.new ≡ goes_on (stamp_micros now) self.old }
        ensures open { IsStep result self.new }
        ensures at { IsAt self.old.message.last result self.new }
    {
        if self.message.count() == self.message.packets() {
            Step::Delivers(self.message.acknowledgment())
        } else if self.message.count() == self.granted {
            Step::Says(self.grant(now))
        } else {
            Step::Quiet
        }
    }

    /// Takes a packet of the session's source.
    #[tactic(auto, unfolding(crate::specs::Reception::takes_packet))]
    pub(crate) fn take_packet(&mut self, number: u8, part: &[u8], now: Stamp) -> Step
        requires lacks { self.old.message.count < self.old.message.packets }
        requires seven { length part.now ≡ 7 }
        ensures step { stepped result self.new ≡ takes_packet number part.now (stamp_micros now) self.old }
        ensures open { IsStep result self.new }
        ensures at { IsAt (stamp_micros now) result self.new }
    {
        if u16::from(number) == u16::from(self.message.count()) + 1 {
            self.message.append(part, now);
            self.fresh = false;
            self.go_on(now)
        } else if number == self.granted {
            self.ask_again(now)
        } else {
            self.message.touch(now);
            self.fresh = false;
            Step::Quiet
        }
    }

    /// The moment after which a tick asks again.
    pub(crate) fn limit(&self) -> u64
        ensures value { result ≡ self.now.message.last + limit_of self.now }
        ensures fits { result < 2 ^ 54 }
    {
        let wait = if self.fresh { TIMER_T2 } else { TIMER_T1 };
        self.message.last().micros() + wait
    }

    /// Lets time pass.
    #[tactic(auto, unfolding(crate::specs::Reception::takes_tick))]
    pub(crate) fn tick(&mut self, now: Stamp) -> Step
        requires { self.old.message.count < self.old.message.packets }
        ensures step { stepped result self.new ≡ takes_tick (stamp_micros now) (Some self.old) }
        ensures open { IsStep result self.new }
        ensures at { IsAt (stamp_micros now) result self.new }
    {
        if now.micros() > self.limit() {
            self.ask_again(now)
        } else {
            Step::Quiet
        }
    }
}

/// The most packets for one CTS, as an RTS names them; 0 sets no limit (own).
fn most_packets(most: u8) -> u8
    ensures { result ≡ most_named most }
{
    if most == 0 { NO_LIMIT } else { most }
}
