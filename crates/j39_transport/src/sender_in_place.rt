//! A sender that keeps its message in place (J1939-21, 5.10.3).
ghost use Rattle.std.specs.Prelude.{◌≡◌, ◌≤◌, ◌↔◌, IfSome, IsSome, Some, length};
ghost use Rattle.std.specs.Option.{option_map};
ghost use Rattle.j39_frame.specs.Address.{IsAddress};
ghost use Rattle.j39_frame.specs.Pgn.{pgn_raw};
ghost use Rattle.j39_frame.specs.Stamp.{stamp_micros};
ghost use Rattle.j39_transport.specs.Cutting.{to_send};
ghost use Rattle.j39_transport.specs.Sending.{IsOwn, SendStep, Tick, aborted, new_sender, send_step, sent_by};
ghost use Rattle.j39_transport.specs.SenderNext.{clears, granted_by, sends_in};
ghost use Rattle.j39_transport.specs.Signals.{Abort, said_between, written};
ghost use Rattle.j39_transport.specs.SenderModel.{IsSender, event_of, state_of};

use crate::Cut;
use crate::progress::{Progress, SendEvent, SendState};
use crate::protocol::LONGEST;
use crate::sender::{Course, Sender};
use crate::signal::{self, Signal};
use arrayvec::ArrayVec;
use j39_frame::{Frame, Id, Pgn, Stamp, is_address};
use std::marker::Model;

/// Sends one message to one controller, as a `Sender` does, and keeps its bytes in place: it takes no memory.
#[derive(Drop)]
pub struct SenderInPlace {
    source: u8,
    pgn: Pgn,
    payload: ArrayVec<u8, LONGEST>,
    course: Course,
}

impl Model for SenderInPlace {
    ghost use Rattle.j39_frame.specs.Pgn.{pgn_raw};
    ghost use Rattle.j39_transport.specs.Sending.{SenderRecord};
    ghost use Rattle.j39_transport.specs.SenderModel.{IsSender, sender_of};

    ghost Value = { SenderRecord };

    ghost view = { λ s. sender_of (record { source = s.source; pgn = pgn_raw s.pgn; bytes = s.payload.items }) s.course };

    ghost invariant = { λ s. IsSender (sender_of
        (record { source = s.source; pgn = pgn_raw s.pgn; bytes = s.payload.items }) s.course) };
}

impl SenderInPlace {
    /// A sender of these bytes from one address to another; `None` outside 9 to 1,785 bytes, or for an address above
    /// 253. It sends its RTS at the first tick.
    #[tactic(auto, unfolding(crate::specs::Sending::new_sender))]
    pub fn new(source: u8, pgn: Pgn, payload: &[u8], destination: u8) -> Option<SenderInPlace>
        ensures known { IsSome result ↔ (IsAddress destination × IsAddress source
            × (9 ≤ length payload.now) × (length payload.now ≤ 1785)) }
        ensures value { IfSome result (λ sender. sender ≡ new_sender
            (record { source = source; pgn = pgn_raw pgn; bytes = payload.now }) destination) }
    {
        let cut = Cut::new(source, pgn, payload)?;
        let _long = cut.packets();
        if !is_address(destination) {
            return None;
        }
        let mut kept = ArrayVec::new();
        kept.try_extend_from_slice(payload).ok()?;
        Some(SenderInPlace {
            source,
            pgn,
            payload: kept,
            course: Course {
                destination,
                progress: Progress::Idle,
                since: Stamp::new(0).unwrap(),
                highest: 0,
            },
        })
    }

    /// Takes an event at a moment, and answers the frame to send, if there is one: at a tick alone.
    pub fn on(&mut self, event: SendEvent<'_>, now: Stamp) -> Option<(Id, [u8; 8])>
        ensures step { SendStep self.old (event_of event.entry) (stamp_micros now)
            (option_map to_send result) self.new }
        ensures own { IfSome (option_map to_send result) (IsOwn self.old) }
    {
        let mut sender = Sender::resumed(self.cut(), self.course);
        let sent = sender.on(event, now);
        self.course = sender.course();
        sent
    }

    /// The frame that a tick at this moment would send.
    pub fn next(&self, now: Stamp) -> Option<(Id, [u8; 8])>
        ensures value { option_map to_send result ≡ sent_by self.now (send_step self.now Tick (stamp_micros now)).says }
        ensures sound { IsSender self.now }
    {
        let mut sender = Sender::resumed(self.cut(), self.course);
        sender.on(SendEvent::Tick, now)
    }

    /// In how many microseconds from this moment a tick sends a frame, if nothing is heard till then; `None` where it is over.
    pub fn sends_in(&self, now: Stamp) -> Option<u64>
        ensures value { result ≡ sends_in self.now.state self.now.since (stamp_micros now) }
    {
        match self.course.progress {
            Progress::Idle => Some(0),
            Progress::Waiting(limit) => {
                Some((self.course.since.micros() + limit + 1).saturating_sub(now.micros()))
            }
            Progress::Sending(_, _) => Some(0),
            Progress::Done => None,
            Progress::Failed(_) => None,
        }
    }

    /// Up to which packet a frame clears, 0 for one that holds; `None` for any other, or one that it doesn't take.
    pub fn granted(&self, frame: &Frame) -> Option<u8>
        ensures value { result ≡ granted_by self.now (said_between self.now.destination self.now.message.source frame.now) }
    {
        let signal = signal::read_between(frame, self.course.destination, self.source);
        match (self.course.progress, signal) {
            (Progress::Waiting(_), Some(Signal::ClearToSend(count, next, pgn)))
                if pgn == self.pgn.raw() => { self.cleared(count, next) }
            _ => None,
        }
    }

    /// Gives up for a reason.
    #[tactic(auto, unfolding(crate::specs::Sending::aborted))]
    pub fn fail(&mut self, reason: u8)
        ensures value { self.new ≡ aborted reason self.old }
    {
        match self.course.progress {
            Progress::Waiting(_) => self.course.progress = Progress::Failed(reason),
            Progress::Sending(_, _) => self.course.progress = Progress::Failed(reason),
            Progress::Idle => {}
            Progress::Done => {}
            Progress::Failed(_) => {}
        }
    }

    /// The frame by which it would give up.
    pub fn abort(&self, reason: u8) -> (Id, [u8; 8])
        ensures value { to_send result ≡ written self.now.message.source self.now.destination (Abort reason self.now.message.pgn) }
        ensures sound { IsSender self.now }
    {
        signal::write(
            Signal::Abort(reason, self.pgn.raw()),
            self.source,
            self.course.destination,
        )
    }

    /// To whom it sends.
    pub fn destination(&self) -> u8
        ensures value { result ≡ self.now.destination }
    {
        self.course.destination
    }

    /// The group of its message.
    pub fn group(&self) -> Pgn
        ensures { pgn_raw result ≡ self.now.message.pgn }
    {
        self.pgn
    }

    fn cleared(&self, count: u8, next: u8) -> Option<u8>
        ensures { result ≡ clears count next self.now }
    {
        let packets = self.cut().packets();
        if count == 0 {
            return Some(0);
        }
        if next >= 1 && next <= packets && u16::from(next) <= u16::from(self.course.highest) + 1 {
            let last = (u16::from(next) + u16::from(count) - 1).min(u16::from(packets));
            Some(last as u8)
        } else {
            None
        }
    }

    /// How far it is.
    pub fn state(&self) -> SendState
        ensures value { result ≡ state_of self.now.state }
    {
        let sender = Sender::resumed(self.cut(), self.course);
        sender.state()
    }

    /// Its message.
    fn cut(&self) -> Cut<'_>
        ensures { result ≡ self.now.message }
    {
        Cut::of(self.source, self.pgn, self.payload.as_slice())
    }
}
