//! Answers that aren't forgotten: each request is answered, or refused in time (J1939-21, 5.4.2 and 5.4.4).
ghost use Rattle.std.specs.Prelude.{◌≡◌, ◌≤◌, ◌<◌, ◌+◌, ◌++◌, ◌∷◌, [], Bool, List, Option, Some, None, IfOk, IfSome, length, map, nat_lt, if◌then◌else◌};
ghost use Rattle.std.specs.List.{position, slice_get};
ghost use Rattle.j39_address.specs.Name.{name_raw};
ghost use Rattle.j39_node.specs.Reception.{askers};
ghost use Rattle.std.specs.Option.{option_map};
ghost use Rattle.j39_frame.specs.Stamp.{stamp_micros};
ghost use Rattle.j39_node.specs.History.{Call, Who, handed};
ghost use Rattle.j39_node.specs.History.Call.{TakeRequest};
ghost use Rattle.j39_node.specs.Is.{Is};
ghost use Rattle.j39_application.specs.Answers.{Deed, IsTurn, LeadsOn, answers, calls, can_answer, lacks, none_in, soonest, takes, turned};
ghost use Rattle.j39_application.specs.Boxes.{asked_of, in_box};

use crate::asked::{Asked, Open as Boxed};
use crate::kept::Kept;
use j39_frame::Stamp;
use j39_node::Controller;
use std::alloc::{AllocError, Global};

/// The requests that a program serves and hasn't answered, each in a box (J1939-21, 5.4.2).
#[derive(Drop)]
pub struct Answers {
    pub(crate) kept: Kept<Boxed>,
}

impl Answers {
    ghost use Rattle.j39_application.specs.Shown.{answers_of};

    /// No request, with memory for so many, 1.8 kB each: no other call takes memory. An error where memory is refused.
    pub fn new(alloc: Global, boxes: u8) -> Result<Answers, AllocError>
        ensures { IfOk result (λ s. answers_of s ≡ none_in boxes) }
    {
        Ok(Answers {
            kept: Kept::new(alloc, boxes)?,
        })
    }

    /// Takes the oldest request that waits in the controller, if one does and a box is free. From then on it is open, for 200 ms.
    pub fn take_request(&mut self, controller: &mut Controller, now: Stamp) -> Option<Asked>
        ensures full { length (answers_of self.old).requests ≡ (answers_of self.old).boxes
            → (result ≡ None) × (self.new ≡ self.old) × (controller.new ≡ controller.old) }
        ensures takes { length (answers_of self.old).requests < (answers_of self.old).boxes
            → answers_of self.new ≡ takes (stamp_micros now) (option_map asked_of result) (answers_of self.old) }
        ensures asker { IfSome result (λ r. (w : Who) (H : List Call) → Is w H controller.old
            → slice_get (askers w H) (length (handed H)) ≡ Some (option_map name_raw r.name)) }
        ensures goes { length (answers_of self.old).requests < (answers_of self.old).boxes
            → (w : Who) (H : List Call) → Is w H controller.old → Is w (TakeRequest (option_map asked_of result) ∷ H) controller.new }
    {
        if self.kept.is_full() {
            return None;
        }
        self.kept.pass(now);
        let request = controller.take_request()?;
        let asked = Asked::new(&request);
        self.kept.begin(asked);
        Some(asked)
    }

    /// Keeps the bytes, 0 to 1,785, for the oldest open request like this that has none yet: each turn hands them in, till they are
    /// accepted. False where none lacks an answer, or the bytes are more: then nothing changes.
    pub fn answer(&mut self, asked: Asked, bytes: &[u8]) -> bool
        ensures known { result ≡ can_answer (asked_of asked) bytes.now (answers_of self.old) }
        ensures keeps { answers_of self.new ≡ answers (asked_of asked) bytes.now (answers_of self.old) }
    {
        match self.place_of(asked) {
            Some(place) => self.kept.current[place].answer(bytes),
            None => false,
        }
    }

    /// Hands in each answer that was given, the oldest request's first. What isn't answered, or finds no room, stays till its 200 ms are
    /// over: then it is refused as `Busy` (J1939-21, 5.4.4), and stays only while there is no room for that; one to all is dropped. So
    /// is what can't be sent, or refused, for another reason.
    pub fn turn(&mut self, controller: &mut Controller, now: Stamp)
        ensures does { (ds : List Deed) × IsTurn (stamp_micros now) (answers_of self.old) ds
            × (answers_of self.new ≡ turned (stamp_micros now) ds (answers_of self.old))
            × LeadsOn (calls ds) controller.old controller.new }
    {
        self.kept.pass(now);
        let count = self.kept.current.len();
        for _ in 0..count {
            self.kept.turn_first(controller, now);
        }
    }

    /// In how many microseconds the first one's 200 ms are over, 0 where they are: then a turn is due, as after each answer. `None` if
    /// none is open.
    pub fn due_in(&self) -> Option<u64>
        ensures { result ≡ soonest (answers_of self.now).requests }
    {
        self.kept.due_in()
    }

    /// The place of the oldest like this that has no answer.
    fn place_of(&self, asked: Asked) -> Option<usize>
        ensures { result ≡ position (λ b. lacks (asked_of asked) (in_box b)) self.now.kept.current.items }
    {
        self.kept.current.iter().position(|open| open.lacks(asked))
    }
}
