//! What waits in boxes for its turn over a controller, the oldest first: answers, and what goes to NAMEs.
ghost use Rattle.std.specs.Prelude.{◌≡◌, ◌+◌, ◌++◌, ◌∷◌, ◌-◌, ◌<◌, ◌≤◌, [], ℕ, Option, Some, List, IfOk, length, map, nat_eq};
ghost use Rattle.std.specs.Vec.{vec_capacity};
ghost use Rattle.j39_frame.specs.Stamp.{stamp_micros};
ghost use Rattle.j39_transfers.specs.Transfers.{listed, sooner};
ghost use Rattle.j39_application.specs.Kept.{soonest, stays, views};

use j39_boxes::remove;
use j39_frame::Stamp;
use j39_node::Controller;
use std::alloc::{AllocError, Global};

/// What a box holds: it waits for so long at most, till a turn of it ends it.
pub(crate) trait Waits: Drop {
    ghost use Rattle.j39_node.specs.declared.controller.Controller.{Controller};

    /// What it begins with.
    type Start: Drop;

    /// How a turn ends it.
    type End: Drop;

    // What it shows: when it began with this, later by so much time, and how long it still may wait; and what its turn does, by the
    // controller before and after, of what it showed, shows then, and how it ended.
    ghost Shown: { Type 0 };

    ghost shown: { Self → Shown };

    ghost begun: { Self.Start → Shown };

    ghost later: { ℕ → Shown → Shown };

    ghost time_left: { Shown → ℕ };

    ghost Meets: { ℕ → Shown → Shown → Option Self.End → Controller → Controller → Type 0 };

    /// One in which nothing began.
    fn blank() -> Self;

    /// It begins anew.
    fn begin(&mut self, start: Self::Start)
        ensures { shown self.new ≡ begun start };

    /// So much time passed, in microseconds.
    fn pass(&mut self, time: u64)
        ensures { shown self.new ≡ later time (shown self.old) };

    /// How long it still may wait, in microseconds.
    fn time_left(&self) -> u64
        ensures { result ≡ time_left (shown self.now) };

    /// Its turn: how that ends it, `None` where it stays.
    fn turn(&mut self, controller: &mut Controller, now: Stamp) -> Option<Self::End>
        ensures { Meets (stamp_micros now) (shown self.old) (shown self.new) result controller.old controller.new };
}

/// So many boxes: those that wait, the oldest first, and the free ones.
#[derive(Drop)]
pub(crate) struct Kept<T> {
    pub(crate) boxes: u8,
    /// The moment that was told last, in microseconds.
    pub(crate) moment: u64,
    pub(crate) current: Vec<Box<T>>,
    pub(crate) free: Vec<Box<T>>,
    pub ghost counted: { length current.items + length free.items ≡ boxes },
    pub ghost current_fits: { boxes ≤ vec_capacity current },
    pub ghost free_fits: { boxes ≤ vec_capacity free },
}

impl<T: Waits> Kept<T> {
    ghost use Rattle.j39_node.specs.declared.controller.Controller.{Controller};

    /// None, with memory for so many: no other call takes memory. An error where memory is refused.
    pub(crate) fn new(alloc: Global, boxes: u8) -> Result<Kept<T>, AllocError>
        ensures { IfOk result (λ s. (s.boxes ≡ boxes) × (s.moment ≡ 0) × (s.current.items ≡ [])) }
    {
        let count = usize::from(boxes);
        let mut free = Vec::with_capacity(alloc, count)?;
        for _ in 0..count {
            free.push_reserved(Box::new(alloc, T::blank())?);
        }
        Ok(Kept {
            boxes,
            moment: 0,
            current: Vec::with_capacity(alloc, count)?,
            free,
        })
    }

    /// No box is free.
    pub(crate) fn is_full(&self) -> bool
        ensures { result ≡ nat_eq (length self.now.current.items) self.now.boxes }
    {
        self.free.is_empty()
    }

    /// One begins behind the others.
    pub(crate) fn begin(&mut self, start: T::Start)
        requires { length self.old.current.items < self.old.boxes }
        ensures begins { views T.shown self.new.current.items ≡ views T.shown self.old.current.items ++ T.begun start ∷ [] }
        ensures stays { (self.new.boxes ≡ self.old.boxes) × (self.new.moment ≡ self.old.moment) }
    {
        if let Some(mut next) = self.free.pop() {
            next.begin(start);
            self.current.push_reserved(next);
        }
    }

    /// The time passes since the last moment that was told; one before it is no time.
    pub(crate) fn pass(&mut self, now: Stamp)
        ensures passes { views T.shown self.new.current.items
            ≡ map (T.later (stamp_micros now - self.old.moment)) (views T.shown self.old.current.items) }
        ensures moment { self.new.moment ≡ stamp_micros now }
        ensures stays { (self.new.boxes ≡ self.old.boxes) × (length self.new.current.items ≡ length self.old.current.items) }
    {
        let time = now.micros().saturating_sub(self.moment);
        pass_all(self.current.as_mut_slice(), time);
        self.moment = now.micros();
    }

    /// How long the first still may wait, in microseconds; `None` if none does.
    pub(crate) fn due_in(&self) -> Option<u64>
        ensures { result ≡ soonest T.time_left (views T.shown self.now.current.items) }
    {
        let mut found = None;
        for waiting in &self.current {
            found = sooner(found, waiting.time_left());
        }
        found
    }

    /// The turn of the first: how that ends it; it goes behind the others, if it stays.
    pub(crate) fn turn_first(&mut self, controller: &mut Controller, now: Stamp) -> Option<T::End>
        requires { 0 < length self.old.current.items }
        ensures meets { (o : T.Shown) (R : List T.Shown) → views T.shown self.old.current.items ≡ o ∷ R → (after : T.Shown)
            × T.Meets (stamp_micros now) o after result controller.old controller.new
            × (views T.shown self.new.current.items ≡ R ++ stays result after) }
        ensures counts { length self.new.current.items + length (listed result) ≡ length self.old.current.items }
        ensures stays { (self.new.boxes ≡ self.old.boxes) × (self.new.moment ≡ self.old.moment) }
    {
        let mut first = remove(&mut self.current, 0);
        let end = first.turn(controller, now);
        if end.is_some() {
            self.free.push_reserved(first);
        } else {
            self.current.push_reserved(first);
        }
        end
    }
}

fn sooner(found: Option<u64>, left: u64) -> Option<u64>
    ensures { result ≡ sooner found (Some left) }
{
    match found {
        None => Some(left),
        Some(other) => Some(left.min(other)),
    }
}

/// So much time passed for each, in microseconds.
fn pass_all<T: Waits>(current: &mut [Box<T>], time: u64)
    ensures { views T.shown current.new ≡ map (T.later time) (views T.shown current.old) }
{
    for waiting in current.iter_mut() {
        waiting.pass(time);
    }
}
