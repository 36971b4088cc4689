//! A sender that owns its message (J1939-21, 5.10.3).
ghost use Rattle.std.specs.Prelude.{◌≡◌, ◌≤◌, ◌↔◌, IfSome, IsSome, length};
ghost use Rattle.std.specs.Option.{option_map};
ghost use Rattle.j39_frame.specs.Address.{IsAddress};
ghost use Rattle.j39_frame.specs.Pgn.{pgn_raw};
ghost use Rattle.j39_frame.specs.Stamp.{stamp_micros};
ghost use Rattle.j39_transport.specs.Cutting.{to_send};
ghost use Rattle.j39_transport.specs.Sending.{IsOwn, SendStep, new_sender};
ghost use Rattle.j39_transport.specs.SenderModel.{event_of, state_of};

use crate::Cut;
use crate::progress::{Progress, SendEvent, SendState};
use crate::sender::{Course, Sender};
use j39_frame::{Id, Pgn, Stamp, is_address};
use std::marker::Model;

/// Sends one message to one controller, as a `Sender` does, and owns its bytes: it can be kept for any time.
#[derive(Drop)]
pub struct OwnedSender {
    source: u8,
    pgn: Pgn,
    payload: Vec<u8>,
    course: Course,
}

impl Model for OwnedSender {
    ghost use Rattle.j39_frame.specs.Pgn.{pgn_raw};
    ghost use Rattle.j39_transport.specs.Sending.{SenderRecord};
    ghost use Rattle.j39_transport.specs.SenderModel.{IsSender, sender_of};

    ghost Value = { SenderRecord };

    ghost view = { λ s. sender_of (record { source = s.source; pgn = pgn_raw s.pgn; bytes = s.payload.items }) s.course };

    ghost invariant = { λ s. IsSender (sender_of
        (record { source = s.source; pgn = pgn_raw s.pgn; bytes = s.payload.items }) s.course) };
}

impl OwnedSender {
    /// A sender of these bytes from one address to another; `None` outside 9 to 1,785 bytes, or for an address above
    /// 253. It sends its RTS at the first tick.
    #[tactic(auto, unfolding(crate::specs::Sending::new_sender))]
    pub fn new(source: u8, pgn: Pgn, payload: Vec<u8>, destination: u8) -> Option<OwnedSender>
        ensures known { IsSome result ↔ (IsAddress destination × IsAddress source
            × (9 ≤ length payload.items) × (length payload.items ≤ 1785)) }
        ensures value { IfSome result (λ sender. sender ≡ new_sender
            (record { source = source; pgn = pgn_raw pgn; bytes = payload.items }) destination) }
    {
        let cut = Cut::new(source, pgn, payload.as_slice())?;
        let _long = cut.packets();
        if !is_address(destination) {
            return None;
        }
        Some(OwnedSender {
            source,
            pgn,
            payload,
            course: Course {
                destination,
                progress: Progress::Idle,
                since: Stamp::new(0).unwrap(),
                highest: 0,
            },
        })
    }

    /// Takes an event at a moment, and answers the frame to send, if there is one: at a tick alone.
    pub fn on(&mut self, event: SendEvent<'_>, now: Stamp) -> Option<(Id, [u8; 8])>
        ensures step { SendStep self.old (event_of event.entry) (stamp_micros now)
            (option_map to_send result) self.new }
        ensures own { IfSome (option_map to_send result) (IsOwn self.old) }
    {
        let mut sender = Sender::resumed(self.cut(), self.course);
        let sent = sender.on(event, now);
        self.course = sender.course();
        sent
    }

    /// How far it is.
    pub fn state(&self) -> SendState
        ensures value { result ≡ state_of self.now.state }
    {
        let sender = Sender::resumed(self.cut(), self.course);
        sender.state()
    }

    /// Its message.
    fn cut(&self) -> Cut<'_>
        ensures { result ≡ self.now.message }
    {
        Cut::of(self.source, self.pgn, self.payload.as_slice())
    }
}
