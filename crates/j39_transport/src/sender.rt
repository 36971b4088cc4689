//! The sending end of a directed transfer (J1939-21, 5.10.3).
ghost use Rattle.std.specs.Prelude.{◌≡◌, ◌≤◌, ◌↔◌, IsSome, IfSome, Some};
ghost use Rattle.std.specs.Option.{option_map};
ghost use Rattle.j39_frame.specs.Address.{IsAddress};
ghost use Rattle.j39_frame.specs.Stamp.{stamp_micros};
ghost use Rattle.j39_transport.specs.Cutting.{to_send};
ghost use Rattle.j39_transport.specs.Message.{packets_of};
ghost use Rattle.j39_transport.specs.Protocol.{timer_t3};
ghost use Rattle.j39_transport.specs.Sending.{SendStep, IsOwn, new_sender, ticks_in, sends_packet, waits, hears, cleared, acknowledged, aborted};
ghost use Rattle.j39_transport.specs.SenderModel.{IsSender, event_of, sender_of, state_of};
ghost use Rattle.j39_transport.specs.SignalModel.{said};

use crate::Cut;
use crate::progress::{Progress, SendEvent, SendState};
use crate::protocol::{NO_LIMIT, TIMEOUT, TIMER_T3, TIMER_T4};
use crate::signal::{self, Signal};
use j39_frame::{Id, Stamp, is_address};
use std::marker::Model;

/// How far a sender is, without its message.
#[derive(Clone, Copy)]
pub(crate) struct Course {
    pub(crate) destination: u8,
    pub(crate) progress: Progress,
    pub(crate) since: Stamp,
    pub(crate) highest: u8,
}

/// Sends one message to one controller, by request to send (RTS) and clear to send (CTS).
#[derive(Drop)]
pub struct Sender<'a> {
    cut: Cut<'a>,
    destination: u8,
    progress: Progress,
    since: Stamp,
    highest: u8,
}

impl<'a> Model for Sender<'a> {
    ghost use Rattle.j39_frame.specs.Stamp.{stamp_micros};
    ghost use Rattle.j39_transport.specs.Sending.{SenderRecord};
    ghost use Rattle.j39_transport.specs.SenderModel.{progress_in, IsSender};

    ghost Value = { SenderRecord };

    ghost view = { λ s. record {
      message = s.cut;
      destination = s.destination;
      state =
          progress_in s.progress;
      since = stamp_micros s.since;
      highest = s.highest;
    } };

    ghost invariant = { λ s. IsSender (record {
      message = s.cut;
      destination = s.destination;
      state = progress_in s.progress;
      since =
          stamp_micros s.since;
      highest = s.highest;
    }) };
}

impl<'a> Sender<'a> {
    /// A sender of a message to an address; `None` for a destination above 253. It sends its RTS at the
    /// first tick.
    #[tactic(auto, unfolding(crate::specs::Sending::new_sender))]
    pub fn new(cut: Cut<'a>, destination: u8) -> Option<Sender<'a>>
        ensures known { IsSome result ↔ IsAddress destination }
        ensures value { IfSome result (λ sender. sender ≡ new_sender cut.entry destination) }
    {
        if !is_address(destination) {
            return None;
        }
        let _long = cut.packets();
        Some(Sender {
            cut,
            destination,
            progress: Progress::Idle,
            since: Stamp::new(0).unwrap(),
            highest: 0,
        })
    }

    /// A sender of a message that is so far with it.
    pub(crate) fn resumed(cut: Cut<'a>, course: Course) -> Sender<'a>
        requires { IsSender (sender_of cut course) }
        ensures { result ≡ sender_of cut.entry course }
    {
        let Course {
            destination,
            progress,
            since,
            highest,
        } = course;
        Sender {
            cut,
            destination,
            progress,
            since,
            highest,
        }
    }

    /// How far it is with its message.
    pub(crate) fn course(&self) -> Course
        ensures course { sender_of self.now.message result ≡ self.now }
        ensures sound { IsSender self.now }
    {
        Course {
            destination: self.destination,
            progress: self.progress,
            since: self.since,
            highest: self.highest,
        }
    }

    /// Takes an event at a moment, and answers the frame to send, if there is one: at a tick alone.
    pub fn on(&mut self, event: SendEvent<'_>, now: Stamp) -> Option<(Id, [u8; 8])>
        ensures step { SendStep self.old (event_of event.entry) (stamp_micros now)
            (option_map to_send result) self.new }
        ensures own { IfSome (option_map to_send result) (IsOwn self.old) }
    {
        let _ = &self.cut;
        self.step(event, now)
    }

    #[tactic(auto, unfolding(crate::specs::Sending::send_step))]
    fn step(&mut self, event: SendEvent<'_>, now: Stamp) -> Option<(Id, [u8; 8])>
        ensures { SendStep self.old (event_of event.entry) (stamp_micros now) (option_map to_send result) self.new }
    {
        let source = self.cut.source();
        let destination = self.destination;
        match event {
            SendEvent::Tick => {
                let signal = self.tick(now)?;
                Some(signal::write(signal, source, destination))
            }
            SendEvent::Heard(frame) => {
                let signal = signal::read_between(frame, destination, source);
                self.hear(signal, now);
                None
            }
        }
    }

    /// How far it is.
    pub fn state(&self) -> SendState
        ensures value { result ≡ state_of self.now.state }
    {
        match self.progress {
            Progress::Idle => SendState::Idle,
            Progress::Waiting(_) => SendState::Waiting,
            Progress::Sending(_, _) => SendState::Sending,
            Progress::Done => SendState::Done,
            Progress::Failed(reason) => SendState::Failed(reason),
        }
    }

    #[tactic(auto, unfolding(crate::specs::Sending::ticks_in))]
    fn tick(&mut self, now: Stamp) -> Option<Signal>
        ensures after { self.new ≡ (ticks_in self.old.state (stamp_micros now) self.old).after }
        ensures says { option_map said result ≡ (ticks_in self.old.state (stamp_micros now) self.old).says }
    {
        match self.progress {
            Progress::Idle => {
                self.wait(TIMER_T3, now);
                Some(Signal::RequestToSend(self.cut.announcement(), NO_LIMIT))
            }
            Progress::Waiting(limit) => {
                if now.micros() > self.since.micros() + limit {
                    self.progress = Progress::Failed(TIMEOUT);
                    Some(Signal::Abort(TIMEOUT, self.cut.pgn().raw()))
                } else {
                    None
                }
            }
            Progress::Sending(next, last) => Some(self.send(next, last, now)),
            Progress::Done => None,
            Progress::Failed(_) => None,
        }
    }

    fn wait(&mut self, limit: u64, now: Stamp)
        requires { limit ≤ timer_t3 }
        ensures { self.new ≡ waits limit (stamp_micros now) self.old }
    {
        self.progress = Progress::Waiting(limit);
        self.since = now;
    }

    /// Sends a packet, of those granted up to the last.
    #[tactic(auto, unfolding(crate::specs::Sending::sends_packet))]
    fn send(&mut self, number: u8, last: u8, now: Stamp) -> Signal
        requires first { 1 ≤ number }
        requires granted { number ≤ last }
        requires last { last ≤ packets_of self.old.message }
        ensures after { self.new ≡ (sends_packet number last (stamp_micros now) self.old).after }
        ensures says { Some (said result) ≡ (sends_packet number last (stamp_micros now) self.old).says }
    {
        self.highest = self.highest.max(number);
        if number == last {
            self.progress = Progress::Waiting(TIMER_T3);
            self.since = now;
        } else {
            self.progress = Progress::Sending(number + 1, last);
        }
        Signal::Packet(number, self.cut.data(number))
    }

    /// What the receiver says; only what names the message's group counts.
    #[tactic(auto, unfolding(crate::specs::Sending::hears))]
    fn hear(&mut self, signal: Option<Signal>, now: Stamp)
        ensures { self.new ≡ hears (option_map said signal) (stamp_micros now) self.old }
    {
        let group = self.cut.pgn().raw();
        match signal {
            Some(Signal::ClearToSend(count, next, pgn)) if pgn == group => self.clear(
                count, next, now,
            ),
            Some(Signal::Acknowledgment(size, packets, pgn)) if pgn == group => self.acknowledge(
                size, packets,
            ),
            Some(Signal::Abort(reason, pgn)) if pgn == group => self.abort(reason),
            _ => {}
        }
    }

    #[tactic(auto, unfolding(crate::specs::Sending::cleared))]
    fn clear(&mut self, count: u8, next: u8, now: Stamp)
        ensures { self.new ≡ cleared count next (stamp_micros now) self.old }
    {
        if let Progress::Waiting(_) = self.progress {
            let packets = self.cut.packets();
            if count == 0 {
                self.wait(TIMER_T4, now);
            } else if next >= 1
                && next <= packets
                && u16::from(next) <= u16::from(self.highest) + 1
            {
                let last = (u16::from(next) + u16::from(count) - 1).min(u16::from(packets));
                self.progress = Progress::Sending(next, last as u8);
            }
        }
    }

    #[tactic(auto, unfolding(crate::specs::Sending::acknowledged))]
    fn acknowledge(&mut self, size: u16, packets: u8)
        ensures { self.new ≡ acknowledged size packets self.old }
    {
        if let Progress::Waiting(_) = self.progress {
            if size == self.cut.size() && packets == self.cut.packets() && self.highest == packets {
                self.progress = Progress::Done;
            }
        }
    }

    #[tactic(auto, unfolding(crate::specs::Sending::aborted))]
    fn abort(&mut self, reason: u8)
        ensures { self.new ≡ aborted reason self.old }
    {
        match self.progress {
            Progress::Waiting(_) => self.progress = Progress::Failed(reason),
            Progress::Sending(_, _) => self.progress = Progress::Failed(reason),
            Progress::Idle => {}
            Progress::Done => {}
            Progress::Failed(_) => {}
        }
    }
}
