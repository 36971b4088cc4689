//! What holds one value: a box of memory.
ghost use Rattle.std.specs.Prelude.{◌≡◌, IfOk};
ghost use Rattle.std.specs.Borrow.{sem};
ghost use Rattle.j39_memory.specs.Stored.{value_of, LendsValue};

use std::alloc::{AllocError, Global};
use std::ops::{Deref, DerefMut};

/// A value, in a box of its own.
#[derive(Drop)]
pub struct Stored<T: Drop> {
    place: Box<T>,
}

impl<T: Drop> Stored<T> {
    /// Stores a value. An error comes where memory is refused, and from nothing else.
    #[inline]
    pub fn new(alloc: Global, value: T) -> Result<Stored<T>, AllocError>
        ensures { IfOk result (λ s. value_of s ≡ value) }
    {
        Ok(Stored {
            place: Box::new(alloc, value)?,
        })
    }
}

impl<T: Drop> Deref for Stored<T> {
    type Target = T;

    ghost deref_gives = { λ s x. x ≡ value_of s };

    #[inline]
    fn deref(&self) -> &T
        ensures { result.now ≡ value_of self.now }
    {
        self.place.as_ref()
    }
}

impl<T: Drop> DerefMut for Stored<T> {
    ghost deref_mut_gives = { λ s x. x ≡ value_of s };

    #[inline]
    fn deref_mut(&mut self) -> &mut T
        ensures* lends { sem 𝓛 (LendsValue T.row self.entry result) }
        ensures value { result.now ≡ value_of self.old }
    {
        self.place.as_mut()
    }
}
