//! A request that a program serves, and its box.
ghost use Rattle.std.specs.Prelude.{◌≡◌, Some, true, false, length, nat_le, if◌then◌else◌};
ghost use Rattle.j39_frame.specs.Stamp.{stamp_micros};
ghost use Rattle.j39_node.specs.Is.{request_by};
ghost use Rattle.j39_application.specs.Answers.{IsLeft, IsMet, lacks, reply};
ghost use Rattle.j39_node.specs.declared.controller.Controller.{Controller};
ghost use Rattle.j39_application.specs.Sending.{draft_of};
ghost use Rattle.j39_application.specs.Boxes.{asked_of, open_in};

use crate::kept::Waits;
use crate::sending::{Outgoing, send};
use arrayvec::ArrayVec;
use j39_address::Name;
use j39_frame::{GLOBAL_ADDRESS, Pgn, Stamp};
use j39_node::{Answer, Controller, Refused, Request};
use j39_transport::LONGEST;

/// How long a request may wait for its answer, in microseconds (own): 200 ms.
const PATIENCE: u64 = 200_000;

/// The priority of an answer.
const PRIORITY: u8 = 6;

/// A request for a group that was taken (J1939-21, 5.4.2).
#[derive(Clone, Copy, Debug)]
pub struct Asked {
    /// The address that asks, 0 to 253.
    pub source: u8,
    /// 255 where all are asked, else the controller's address.
    pub destination: u8,
    /// The group that is asked for.
    pub group: Pgn,
    /// The NAME that held `source` when it was heard first; `None` where nobody did.
    pub name: Option<Name>,
}

/// A box with one request.
#[derive(Drop)]
pub(crate) struct Open {
    pub(crate) asked: Asked,
    /// The bytes of its answer, where it has one.
    pub(crate) answer: Option<ArrayVec<u8, LONGEST>>,
    /// What is left of its 200 ms, in microseconds.
    pub(crate) left: u64,
}

impl Asked {
    pub(crate) fn new(request: &Request) -> Asked
        ensures asked { asked_of result ≡ request_by request.now }
        ensures name { result.name ≡ request.now.name }
    {
        Asked {
            source: request.source,
            destination: request.destination,
            group: request.group,
            name: request.name,
        }
    }

    fn request(self) -> Request
        ensures { request_by result ≡ asked_of self }
    {
        Request {
            source: self.source,
            destination: self.destination,
            group: self.group,
            name: self.name,
        }
    }

    /// Its answer: of its group, to all where all were asked, else to who asked.
    fn reply(self, bytes: &[u8]) -> Outgoing<'_>
        ensures { draft_of result ≡ reply (asked_of self) bytes.now }
    {
        let to = if self.destination == GLOBAL_ADDRESS {
            GLOBAL_ADDRESS
        } else {
            self.source
        };
        Outgoing {
            priority: PRIORITY,
            group: self.group,
            to,
            bytes,
        }
    }
}

impl Waits for Open {
    ghost use Rattle.std.specs.Option.{is_some};
    ghost use Rattle.j39_node.specs.declared.controller.Controller.{Controller};
    ghost use Rattle.j39_application.specs.Answers.{IsMet, Open, aged, opened};
    ghost use Rattle.j39_application.specs.Boxes.{asked_of, open_in};

    type Start = Asked;

    type End = ();

    ghost Shown = { Open };

    ghost shown = { open_in };

    ghost begun = { λ r. opened (asked_of r) };

    ghost later = { aged };

    ghost time_left = { λ o. o.left };

    ghost Meets = { λ now o after end old new. (after ≡ o) × IsMet now o (is_some end) old new };

    #[inline(always)]
    fn blank() -> Open {
        Open {
            asked: Asked {
                source: 0,
                destination: 0,
                group: Pgn::new(0).unwrap(),
                name: None,
            },
            answer: None,
            left: 0,
        }
    }

    fn begin(&mut self, asked: Asked) {
        self.asked = asked;
        self.answer = None;
        self.left = PATIENCE;
    }

    fn pass(&mut self, time: u64) {
        self.left = self.left.saturating_sub(time);
    }

    fn time_left(&self) -> u64 {
        self.left
    }

    fn turn(&mut self, controller: &mut Controller, now: Stamp) -> Option<()> {
        if self.settles(controller, now) {
            Some(())
        } else {
            None
        }
    }
}

impl Open {
    /// Whether it is one of the same source, to the same destination and for the same group, that has no answer.
    pub(crate) fn lacks(&self, asked: Asked) -> bool
        ensures { result ≡ lacks (asked_of asked) (open_in self.now) }
    {
        (asked.source == self.asked.source
            && (asked.destination == self.asked.destination
                && asked.group.raw() == self.asked.group.raw()))
            && self.answer.is_none()
    }

    /// Its answer is this; false above 1,785 bytes, where it stays as it was.
    pub(crate) fn answer(&mut self, bytes: &[u8]) -> bool
        ensures known { result ≡ nat_le (length bytes.now) 1785 }
        ensures keeps { open_in self.new ≡ (if result then record (open_in self.old) { answer = Some bytes.now } else open_in self.old) }
    {
        match ArrayVec::try_from(bytes) {
            Ok(kept) => {
                self.answer = Some(kept);
                true
            }
            Err(_) => false,
        }
    }

    /// Hands its answer in, if it has one; where there is no room, and nothing is left of its time, it is refused as busy. True where it is
    /// settled by that.
    #[tactic(auto, using(crate::proofs::AnswerLemmas::stays))]
    fn settles(&self, controller: &mut Controller, now: Stamp) -> bool
        ensures meets { IsMet (stamp_micros now) (open_in self.now) result controller.old controller.new }
    {
        if self.hand_in(controller, now) {
            return true;
        }
        if self.left == 0 {
            return self.refuse(controller, now);
        }
        false
    }

    /// Hands its answer in, if it has one; false where it has none, or there is no room.
    fn hand_in(&self, controller: &mut Controller, now: Stamp) -> bool
        ensures meets { result ≡ true → IsMet (stamp_micros now) (open_in self.now) true controller.old controller.new }
        ensures leaves { result ≡ false → IsLeft (stamp_micros now) (open_in self.now) controller.old controller.new }
    {
        let bytes = match &self.answer {
            Some(bytes) => bytes,
            None => return false,
        };
        let message = self.asked.reply(bytes.as_slice());
        match send(controller, now, &message) {
            Ok(_) => true,
            Err(Refused::NoAddress) => true,
            Err(Refused::BadValue) => true,
            Err(Refused::Full) => false,
        }
    }

    /// Refuses it as busy, if it came to one address; false where there is no room.
    fn refuse(&self, controller: &mut Controller, now: Stamp) -> bool
        ensures meets { (first : Controller) → IsLeft (stamp_micros now) (open_in self.now) first controller.old → self.now.left ≡ 0
            → IsMet (stamp_micros now) (open_in self.now) result first controller.new }
    {
        if self.asked.destination == GLOBAL_ADDRESS {
            return true;
        }
        match controller.acknowledge(now, self.asked.request(), Answer::Busy) {
            Ok(()) => true,
            Err(Refused::NoAddress) => true,
            Err(Refused::BadValue) => true,
            Err(Refused::Full) => false,
        }
    }
}
