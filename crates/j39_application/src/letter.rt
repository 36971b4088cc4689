//! What goes to a NAME, and its box.
ghost use Rattle.std.specs.Prelude.{◌≡◌, ◌∷◌, [], IfOk};
ghost use Rattle.j39_frame.specs.Stamp.{stamp_micros};
ghost use Rattle.j39_application.specs.Answers.{LeadsOn};
ghost use Rattle.j39_application.specs.Boxes.{errand_of, letter_in};
ghost use Rattle.j39_application.specs.Outbox.{IsMet, goes_by, hands_in, left_by, settled_by};
ghost use Rattle.j39_application.specs.Sending.{numbers};

use crate::kept::Waits;
use crate::sending::{Outgoing, Token, Way, send};
use arrayvec::ArrayVec;
use j39_address::Name;
use j39_frame::{Pgn, Stamp};
use j39_node::{Controller, Refused};
use j39_transport::LONGEST;

/// How long a NAME, or the controller itself, may hold no address, in microseconds (own): 1,250 ms, as long as an answer to a request
/// may take.
const PATIENCE: u64 = 1_250_000;

/// How a message or a request to a NAME was settled.
#[derive(Clone, Copy, Debug, PartialEq, Eq)]
pub enum Settled {
    /// It was handed in to the controller, which tells how it ends by this token.
    HandedIn(Token),
    /// The controller refused it for good: as `BadValue`, or as `NoAddress`, where it still held none itself after 1,250 ms.
    Refused(Refused),
    /// Its NAME held no address for 1,250 ms.
    Gone,
}

/// What goes to a NAME.
#[derive(Drop)]
pub(crate) enum Errand {
    /// A message of this priority and group.
    Message {
        priority: u8,
        group: Pgn,
        bytes: ArrayVec<u8, LONGEST>,
    },
    /// A request for this group (J1939-21, 5.4.2).
    Request {
        group: Pgn,
    },
}

/// What goes to a NAME.
#[derive(Drop)]
pub(crate) struct Letter {
    /// How many were accepted before it.
    pub(crate) number: u64,
    pub(crate) name: Name,
    pub(crate) errand: Errand,
}

/// A box with one.
#[derive(Drop)]
pub(crate) struct Posted {
    pub(crate) letter: Letter,
    /// What is left of the 1,250 ms, in microseconds.
    pub(crate) left: u64,
}

impl Waits for Posted {
    ghost use Rattle.std.specs.Prelude.{◌≡◌, Option};
    ghost use Rattle.j39_node.specs.declared.controller.Controller.{Controller};
    ghost use Rattle.j39_application.specs.Boxes.{letter_by, letter_in};
    ghost use Rattle.j39_application.specs.Outbox.{IsMet, Letter, aged, numbered};
    ghost use Rattle.j39_application.specs.declared.letter.Settled.{Settled};

    type Start = Letter;

    type End = (u64, Settled);

    ghost Shown = { Letter };

    ghost shown = { letter_in };

    ghost begun = { letter_by };

    ghost later = { aged };

    ghost time_left = { λ o. o.left };

    ghost Meets = { λ now o after end old new. (how : Option Settled) × (end ≡ numbered o.number how) × IsMet now o after how old new };

    #[inline(always)]
    fn blank() -> Posted {
        let errand = Errand::Request {
            group: Pgn::new(0).unwrap(),
        };
        Posted {
            letter: Letter {
                number: 0,
                name: Name::new(0),
                errand,
            },
            left: 0,
        }
    }

    fn begin(&mut self, letter: Letter) {
        self.letter = letter;
        self.left = PATIENCE;
    }

    fn pass(&mut self, time: u64) {
        self.left = self.left.saturating_sub(time);
    }

    fn time_left(&self) -> u64 {
        self.left
    }

    fn turn(&mut self, controller: &mut Controller, now: Stamp) -> Option<(u64, Settled)> {
        match self.settles(controller, now) {
            Some(settled) => Some((self.letter.number, settled)),
            None => None,
        }
    }
}

impl Posted {
    /// Hands it in to the address that its NAME holds, and answers how it is settled by that; or as gone, where the NAME holds none and
    /// nothing is left of its time. `None` where it stays. Its time goes on where either of both, NAME or controller, holds none.
    fn settles(&mut self, controller: &mut Controller, now: Stamp) -> Option<Settled>
        ensures meets { IsMet (stamp_micros now) (letter_in self.old) (letter_in self.new) result controller.old controller.new }
        ensures number { self.new.letter.number ≡ self.old.letter.number }
    {
        match controller.address_of(self.letter.name) {
            Some(address) => {
                let answer = self.hand_in(controller, now, address);
                let settled = settled_by(self.left, answer);
                self.left = left_by(self.left, answer);
                settled
            }
            None => {
                if self.left == 0 {
                    Some(Settled::Gone)
                } else {
                    None
                }
            }
        }
    }

    /// Hands it in to an address.
    fn hand_in(
        &self,
        controller: &mut Controller,
        now: Stamp,
        address: u8,
    ) -> Result<Token, Refused>
        ensures goes { LeadsOn (hands_in (stamp_micros now) (errand_of self.now.letter.errand) address (numbers result) ∷ []) controller.old controller.new }
        ensures way { IfOk result (λ token. token.way ≡ goes_by (errand_of self.now.letter.errand) address) }
    {
        match &self.letter.errand {
            Errand::Message {
                priority,
                group,
                bytes,
            } => {
                let message = Outgoing {
                    priority: *priority,
                    group: *group,
                    to: address,
                    bytes: bytes.as_slice(),
                };
                send(controller, now, &message)
            }
            Errand::Request { group } => {
                let number = controller.ask(now, *group, address)?;
                Ok(Token::new(Way::Frame, number))
            }
        }
    }
}

/// How one with so much of its time left is settled by what the controller answers: not at all where there is no room, nor where that
/// holds no address itself, unless nothing is left.
fn settled_by(left: u64, answer: Result<Token, Refused>) -> Option<Settled>
    ensures { result ≡ settled_by left answer }
{
    match answer {
        Ok(token) => Some(Settled::HandedIn(token)),
        Err(Refused::NoAddress) => {
            if left == 0 {
                Some(Settled::Refused(Refused::NoAddress))
            } else {
                None
            }
        }
        Err(Refused::BadValue) => Some(Settled::Refused(Refused::BadValue)),
        Err(Refused::Full) => None,
    }
}

/// What is left of its time then: that goes on where the controller holds no address itself, else it counts anew.
fn left_by(left: u64, answer: Result<Token, Refused>) -> u64
    ensures { result ≡ left_by left answer }
{
    match answer {
        Ok(_) => PATIENCE,
        Err(Refused::NoAddress) => left,
        Err(Refused::BadValue) => PATIENCE,
        Err(Refused::Full) => PATIENCE,
    }
}
