//! What holds a value for each parameter group, in their row: the places themselves.
ghost use Rattle.std.specs.Prelude.{◌≡◌, ◌<◌, IfOk, get_or, replicate, set};

use std::alloc::{AllocError, Global};

/// How many parameter groups an identifier can have (J1939-21, 5.2): in each of four pages 240, and 16 times 256.
const GROUPS: usize = 17_344;

/// What is done to a value.
pub trait GroupChange<T> {
    /// From which value to which.
    ghost changes: { Self → T → T → Type 0 };

    /// Does it.
    fn make(self, value: &mut T)
        ensures { changes self value.old value.new };
}

/// A value for each parameter group.
#[derive(Drop)]
pub struct ByGroup<T: Copy> {
    values: [T; GROUPS],
}

impl<T: Copy> ByGroup<T> {
    ghost use Rattle.j39_memory_in_place.specs.ByGroup.{values_of};

    /// This value for each group. It takes no memory, and answers no error.
    #[inline]
    pub fn new(_: Global, value: T) -> Result<ByGroup<T>, AllocError>
        ensures { IfOk result (λ all. ((copy : T) → T.is_clone value copy → copy ≡ value)
            → values_of all ≡ replicate 17344 value) }
    {
        Ok(ByGroup {
            values: [value; GROUPS],
        })
    }

    /// The value of the group at this place.
    #[inline]
    pub fn get(&self, place: usize) -> &T
        requires { place < 17344 }
        ensures { (other : T) → result.now ≡ get_or (values_of self.now) place other }
    {
        &self.values[place]
    }

    /// Changes the value of the group at this place.
    #[inline]
    pub fn change<C: GroupChange<T>>(&mut self, place: usize, change: C)
        requires { place < 17344 }
        ensures { (value : T) × C.changes change (get_or (values_of self.old) place value) value
            × (values_of self.new ≡ set (values_of self.old) place value) }
    {
        let values = &mut self.values[..];
        change.make(&mut values[place]);
    }
}
