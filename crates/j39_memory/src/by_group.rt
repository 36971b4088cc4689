//! What holds a value for each parameter group, in their row: memory that is asked for once.
ghost use Rattle.std.specs.Prelude.{◌≡◌, ◌≤◌, ◌<◌, IfOk, length, get_or, replicate, set};
ghost use Rattle.std.specs.Vec.{vec_capacity};
ghost use Rattle.j39_memory.specs.Index.{IsIndex};

use std::alloc::{AllocError, Global};

/// How many parameter groups an identifier can have (J1939-21, 5.2): in each of four pages 240, and 16 times 256.
const GROUPS: usize = 17_344;

/// What stands in the index for a group whose value is still that of the start.
const UNTOUCHED: u16 = u16::MAX;

/// What is done to a value.
pub trait GroupChange<T> {
    /// From which value to which.
    ghost changes: { Self → T → T → Type 0 };

    /// Does it.
    fn make(self, value: &mut T)
        ensures { changes self value.old value.new };
}

/// A value for each parameter group. Few groups are heard in one log: only the index has a place for each, of two bytes, and a
/// value is put behind the others when it is first changed, in memory that was asked for at the start.
#[derive(Drop)]
pub struct ByGroup<T: Copy> {
    start: T,
    index: Vec<u16>,
    values: Vec<T>,
    ghost all: { length index.items ≡ 17344 },
    ghost sound: { IsIndex index.items (length values.items) },
    ghost room: { 17344 ≤ vec_capacity values },
}

impl<T: Copy> ByGroup<T> {
    ghost use Rattle.j39_memory.specs.ByGroup.{values_of};

    /// This value for each group. An error comes where memory is refused, and from nothing else.
    #[inline]
    pub fn new(alloc: Global, value: T) -> Result<ByGroup<T>, AllocError>
        ensures { IfOk result (λ all. ((copy : T) → T.is_clone value copy → copy ≡ value)
            → values_of all ≡ replicate 17344 value) }
    {
        let index = vec![in alloc; UNTOUCHED; GROUPS]?;
        let values = Vec::with_capacity(alloc, GROUPS)?;
        Ok(ByGroup {
            start: value,
            index,
            values,
        })
    }

    /// The value of the group at this place.
    #[inline(always)]
    pub fn get(&self, place: usize) -> &T
        requires { place < 17344 }
        ensures { (other : T) → result.now ≡ get_or (values_of self.now) place other }
    {
        match self.values.get(usize::from(self.index[place])) {
            Some(value) => value,
            None => &self.start,
        }
    }

    /// Changes the value of the group at this place.
    #[inline(always)]
    pub fn change<C: GroupChange<T>>(&mut self, place: usize, change: C)
        requires { place < 17344 }
        ensures { (value : T) × C.changes change (get_or (values_of self.old) place value) value
            × (values_of self.new ≡ set (values_of self.old) place value) }
    {
        let at = usize::from(self.index[place]);
        if at < self.values.len() {
            change.make(&mut self.values[at]);
        } else {
            self.begin(place, change);
        }
    }

    /// The same, of a value that is still that of the start.
    #[inline(never)]
    fn begin<C: GroupChange<T>>(&mut self, place: usize, change: C)
        requires within { place < 17344 }
        requires untouched { length self.old.values.items ≤ get_or self.old.index.items place 65535 }
        ensures { (value : T) × C.changes change (get_or (values_of self.old) place value) value
            × (values_of self.new ≡ set (values_of self.old) place value) }
    {
        let mut value = self.start;
        change.make(&mut value);
        let at = self.values.len() as u16;
        self.index[place] = at;
        let _ = self.values.push(value);
    }
}
