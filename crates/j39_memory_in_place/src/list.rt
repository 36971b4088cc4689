//! A list of items that grows: the places themselves.
ghost use Rattle.std.specs.Prelude.{◌≡◌, ◌==◌, ◌<◌, ◌≤◌, ◌++◌, ◌∷◌, [], ℕ, IsOk, OnOk, OnErr, filter, length};
ghost use Rattle.std.specs.List.Sorted.{IsNonDecreasingBy};

use crate::settling::settle_all;
use std::alloc::{AllocError, Global};

/// How many items a list may have.
pub const MOST: usize = 65_536;

/// What a list may be sorted by.
pub trait Keyed {
    /// The number of an item.
    ghost key_of: { Self → ℕ };

    /// The number by which it is sorted.
    fn key(&self) -> u32
        ensures { result ≡ key_of self.now };
}

/// Items in the order in which they were put, 65,536 at most.
#[derive(Drop)]
pub struct List<T: Copy> {
    places: [T; MOST],
    len: usize,
    ghost few: { len ≤ 65536 },
}

impl<T: Copy + Default> List<T> {
    ghost use Rattle.j39_memory_in_place.specs.Items.{first_places, items_of, places_of};

    /// The list without an item. It takes no memory.
    pub fn new(_: Global) -> List<T>
        ensures items { items_of result ≡ [] }
        ensures places { places_of result ≡ first_places }
    {
        List {
            places: [T::default(); MOST],
            len: 0,
        }
    }
}

impl<T: Copy> List<T> {
    ghost use Rattle.j39_memory_in_place.specs.Items.{items_of, places_of};

    /// Puts an item behind the others. It takes no memory, and answers no error.
    #[inline]
    pub fn push(&mut self, item: T) -> Result<(), AllocError>
        requires room { length (items_of self.old) < 65536 }
        ensures ok { OnOk result (items_of self.new ≡ items_of self.old ++ item ∷ []) }
        ensures err { OnErr result (items_of self.new ≡ items_of self.old) }
        ensures full { OnErr result (places_of self.old ≤ length (items_of self.old)) }
    {
        self.places[self.len] = item;
        self.len += 1;
        Ok(())
    }

    /// The items.
    #[inline]
    pub fn as_slice(&self) -> &[T]
        ensures value { result.now ≡ items_of self.now }
        ensures few { length result.now ≤ 65536 }
    {
        &self.places[..self.len]
    }

    /// How many items there are.
    #[inline]
    pub fn len(&self) -> usize
        ensures value { result ≡ length (items_of self.now) }
        ensures few { result ≤ 65536 }
    {
        self.len
    }

    /// Sorts the items by their numbers; those of one number stay in their order. It takes no memory, and answers no
    /// error.
    pub fn sort(&mut self) -> Result<(), AllocError>
    where
        T: Keyed,
        ensures sorted { OnOk result (IsNonDecreasingBy T.key_of (items_of self.new)) }
        ensures kept { (key : ℕ) → filter (λ item. T.key_of item == key) (items_of self.new)
            ≡ filter (λ item. T.key_of item == key) (items_of self.old) }
        ensures len { length (items_of self.new) ≡ length (items_of self.old) }
        ensures made { length (items_of self.old) ≤ 20 → IsOk result }
        ensures err { OnErr result (items_of self.new ≡ items_of self.old) }
    {
        settle_all(&mut self.places[..self.len]);
        Ok(())
    }
}
