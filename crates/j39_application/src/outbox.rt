//! Messages and requests to NAMEs: each goes to the address that its NAME holds when its frame is taken (J1939-81, 4.2).
ghost use Rattle.std.specs.Prelude.{◌≡◌, ◌≤◌, ◌<◌, ◌+◌, ◌++◌, ◌∷◌, [], List, Option, IfOk, length, slice_get};
ghost use Rattle.std.specs.Vec.{vec_capacity};
ghost use Rattle.j39_address.specs.Name.{name_raw};
ghost use Rattle.j39_frame.specs.Pgn.{pgn_raw};
ghost use Rattle.j39_frame.specs.Stamp.{stamp_micros};
ghost use Rattle.j39_node.specs.History.Act.{TakeFrame};
ghost use Rattle.j39_node.specs.History.Call.{At};
ghost use Rattle.j39_application.specs.Answers.{LeadsOn};
ghost use Rattle.j39_application.specs.Boxes.{errand_of};
ghost use Rattle.j39_application.specs.Kept.{stays};
ghost use Rattle.j39_application.specs.Outbox.{IsMet, IsTake, Letter as Shown, Message, Request, answer, ends, has_room, keeps, none_out, number_of, put, soonest, tells};
ghost use Rattle.j39_application.specs.declared.letter.Settled.{Settled};

use crate::kept::Kept;
use crate::letter::{Errand, Letter, Posted, Settled};
use arrayvec::ArrayVec;
use j39_address::Name;
use j39_frame::{Frame, Pgn, Stamp};
use j39_node::{Controller, Refused};
use std::alloc::{AllocError, Global};

/// The highest priority number of a message (J1939-21, 5.2.1).
const LEAST_PRIORITY: u8 = 7;

/// Messages and requests to NAMEs that aren't handed in yet, each in a box till its end is told.
#[derive(Drop)]
pub struct Outbox {
    pub(crate) kept: Kept<Posted>,
    /// How many were accepted.
    pub(crate) accepted: u64,
    /// Those that were settled and aren't told, the first first.
    pub(crate) settled: Vec<(u64, Settled)>,
    pub ghost untold: { length kept.current.items + length settled.items ≤ kept.boxes },
    pub ghost settled_fits: { kept.boxes ≤ vec_capacity settled },
}

impl Outbox {
    ghost use Rattle.j39_application.specs.Shown.{outbox_of};

    /// Nothing to send, with memory for so many, 1.9 kB each: no other call takes memory. An error where memory is refused.
    pub fn new(alloc: Global, boxes: u8) -> Result<Outbox, AllocError>
        ensures { IfOk result (λ s. outbox_of s ≡ none_out boxes) }
    {
        Ok(Outbox {
            kept: Kept::new(alloc, boxes)?,
            accepted: 0,
            settled: Vec::with_capacity(alloc, usize::from(boxes))?,
        })
    }

    /// Keeps a message of 0 to 1,785 bytes for a NAME, with a priority of 0 to 7; answers its number: how many were accepted before.
    /// `BadValue` for a higher priority number or more bytes, `Full` where each box has one whose end isn't told (or 2^64 - 1 were
    /// accepted). The controller judges the group (`Settled::Refused`). In one frame a group of PF 240 and up goes to all.
    pub fn send(
        &mut self,
        now: Stamp,
        name: Name,
        priority: u8,
        group: Pgn,
        bytes: &[u8],
    ) -> Result<u64, Refused>
        ensures answers { result ≡ answer (Message priority (pgn_raw group) bytes.now) (outbox_of self.old) }
        ensures keeps { outbox_of self.new
            ≡ keeps (stamp_micros now) (name_raw name) (Message priority (pgn_raw group) bytes.now) (outbox_of self.old) }
    {
        if priority > LEAST_PRIORITY {
            return Err(Refused::BadValue);
        }
        match ArrayVec::try_from(bytes) {
            Ok(bytes) => {
                let errand = Errand::Message {
                    priority,
                    group,
                    bytes,
                };
                self.put(now, name, errand)
            }
            Err(_) => Err(Refused::BadValue),
        }
    }

    /// Keeps a request to a NAME for a group (J1939-21, 5.4.2); answers its number, or `Full`, as `send`.
    pub fn ask(&mut self, now: Stamp, name: Name, group: Pgn) -> Result<u64, Refused>
        ensures answers { result ≡ answer (Request (pgn_raw group)) (outbox_of self.old) }
        ensures keeps { outbox_of self.new ≡ keeps (stamp_micros now) (name_raw name) (Request (pgn_raw group)) (outbox_of self.old) }
    {
        self.put(now, name, Errand::Request { group })
    }

    /// The frame that goes out now: a driver takes all from here. What the controller has due goes first. Where it has none, each that is
    /// kept, the oldest first, is handed in to the address that its NAME holds now (J1939-81, 4.2), till a frame is due by that. What the
    /// controller refuses as `Full` stays. So does, for 1,250 ms, what has a NAME without address, which then is gone, and what the
    /// controller refuses as `NoAddress`, having none itself, which then is refused so. They count anew from a take at which both have one.
    pub fn take_frame(&mut self, controller: &mut Controller, now: Stamp) -> Option<Frame>
        ensures takes { IsTake (stamp_micros now) (outbox_of self.old) controller.old controller.new result (outbox_of self.new) }
    {
        if let Some(due) = due_frame(controller, now) {
            return Some(due);
        }
        self.kept.pass(now);
        let count = self.kept.current.len();
        for _ in 0..count {
            self.turn_first(controller, now);
            if let Some(frame) = due_frame(controller, now) {
                return Some(frame);
            }
        }
        None
    }

    /// How one was settled, by its number: each once, in the order in which they were. Its box is free from then. `None` if none is left.
    pub fn take_settled(&mut self) -> Option<(u64, Settled)>
        ensures oldest { result ≡ slice_get (outbox_of self.old).settled 0 }
        ensures frees { outbox_of self.new ≡ tells (outbox_of self.old) }
    {
        if self.settled.is_empty() {
            return None;
        }
        Some(self.settled.remove(0))
    }

    /// In how many microseconds from the last take that handed one in or answered none, or the last `send` or `ask` that kept one, the
    /// first one's 1,250 ms are over, 0 where they are: then a take is due. `None` if none is kept.
    pub fn due_in(&self) -> Option<u64>
        ensures { result ≡ soonest (outbox_of self.now).letters }
    {
        self.kept.due_in()
    }

    fn has_room(&self) -> bool
        ensures { result ≡ has_room (outbox_of self.now) }
    {
        let used = self.kept.current.len() + self.settled.len();
        used < usize::from(self.kept.boxes) && self.accepted < u64::MAX
    }

    /// Keeps one that can be sent, and answers its number, if there is room.
    fn put(&mut self, now: Stamp, name: Name, errand: Errand) -> Result<u64, Refused>
        ensures answers { result ≡ number_of (outbox_of self.old) }
        ensures keeps { outbox_of self.new ≡ put (stamp_micros now) (name_raw name) (errand_of errand) (outbox_of self.old) }
    {
        if !self.has_room() {
            return Err(Refused::Full);
        }
        let number = self.accepted;
        self.kept.pass(now);
        self.kept.begin(Letter {
            number,
            name,
            errand,
        });
        self.accepted += 1;
        Ok(number)
    }

    /// The turn of the first, which goes behind the others, if it stays, else behind those that were settled.
    fn turn_first(&mut self, controller: &mut Controller, now: Stamp)
        requires { 0 < length self.old.kept.current.items }
        ensures meets { (o : Shown) (R : List Shown) → (outbox_of self.old).letters ≡ o ∷ R → (after : Shown) × (settled : Option Settled)
            × IsMet (stamp_micros now) o after settled controller.old controller.new
            × ((outbox_of self.new).letters ≡ R ++ stays settled after)
            × ((outbox_of self.new).settled ≡ (outbox_of self.old).settled ++ ends settled o.number) }
        ensures stays { (self.new.kept.boxes ≡ self.old.kept.boxes) × (self.new.accepted ≡ self.old.accepted)
            × (self.new.kept.moment ≡ self.old.kept.moment) }
    {
        if let Some(settled) = self.kept.turn_first(controller, now) {
            self.settled.push_reserved(settled);
        }
    }
}

/// Takes the frame that the controller has due.
// `take_frame` of a controller is written out where it is called: here once for an outbox.
#[inline(never)]
fn due_frame(controller: &mut Controller, now: Stamp) -> Option<Frame>
    ensures { LeadsOn (At (stamp_micros now) (TakeFrame result) ∷ []) controller.old controller.new }
{
    controller.take_frame(now)
}
