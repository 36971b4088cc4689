//! What holds one value: the place itself.
ghost use Rattle.std.specs.Prelude.{◌≡◌, IfOk};
ghost use Rattle.std.specs.Borrow.{sem};
ghost use Rattle.j39_memory_in_place.specs.Stored.{value_of, LendsValue};

use std::alloc::{AllocError, Global};
use std::ops::{Deref, DerefMut};

/// A value, where it stands.
#[derive(Drop)]
pub struct Stored<T: Drop> {
    place: T,
}

impl<T: Drop> Stored<T> {
    /// Stores a value. It takes no memory, and answers no error.
    #[inline]
    pub fn new(_: Global, value: T) -> Result<Stored<T>, AllocError>
        ensures { IfOk result (λ s. value_of s ≡ value) }
    {
        Ok(Stored { place: value })
    }
}

impl<T: Drop> Deref for Stored<T> {
    type Target = T;

    ghost deref_gives = { λ s x. x ≡ value_of s };

    #[inline]
    fn deref(&self) -> &T
        ensures { result.now ≡ value_of self.now }
    {
        &self.place
    }
}

impl<T: Drop> DerefMut for Stored<T> {
    ghost deref_mut_gives = { λ s x. x ≡ value_of s };

    #[inline]
    fn deref_mut(&mut self) -> &mut T
        ensures* lends { sem 𝓛 (LendsValue T.row self.entry result) }
        ensures value { result.now ≡ value_of self.old }
    {
        &mut self.place
    }
}
