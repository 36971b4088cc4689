//! A list of items that grows: memory that is asked for as it does.
ghost use Rattle.std.specs.Prelude.{◌≡◌, ◌==◌, ◌<◌, ◌≤◌, ◌++◌, ◌∷◌, [], ℕ, IsOk, OnOk, OnErr, filter, length};
ghost use Rattle.std.specs.List.Sorted.{IsNonDecreasingBy};

use std::alloc::{AllocError, Global};

/// How many items a list may have.
pub const MOST: usize = 65_536;

/// What a list may be sorted by.
pub trait Keyed {
    /// The number of an item.
    ghost key_of: { Self → ℕ };

    /// The number by which it is sorted.
    fn key(&self) -> u32
        ensures { result ≡ key_of self.now };
}

/// Items in the order in which they were put, 65,536 at most.
#[derive(Drop)]
pub struct List<T: Copy> {
    items: Vec<T>,
    ghost few: { length items.items ≤ 65536 },
}

impl<T: Copy + Default> List<T> {
    ghost use Rattle.j39_memory.specs.Items.{first_places, items_of, places_of};

    /// The list without an item. It takes no memory.
    pub fn new(alloc: Global) -> List<T>
        ensures items { items_of result ≡ [] }
        ensures places { places_of result ≡ first_places }
    {
        List {
            items: Vec::new(alloc),
        }
    }
}

impl<T: Copy> List<T> {
    ghost use Rattle.j39_memory.specs.Items.{items_of, places_of};

    /// Puts an item behind the others. An error comes where memory is refused, and from nothing else.
    #[inline]
    pub fn push(&mut self, item: T) -> Result<(), AllocError>
        requires room { length (items_of self.old) < 65536 }
        ensures ok { OnOk result (items_of self.new ≡ items_of self.old ++ item ∷ []) }
        ensures err { OnErr result (items_of self.new ≡ items_of self.old) }
        ensures full { OnErr result (places_of self.old ≤ length (items_of self.old)) }
    {
        match self.items.push(item) {
            Ok(()) => Ok(()),
            Err(_) => Err(AllocError),
        }
    }

    /// The items.
    #[inline]
    pub fn as_slice(&self) -> &[T]
        ensures value { result.now ≡ items_of self.now }
        ensures few { length result.now ≤ 65536 }
    {
        self.items.as_slice()
    }

    /// How many items there are.
    #[inline]
    pub fn len(&self) -> usize
        ensures value { result ≡ length (items_of self.now) }
        ensures few { result ≤ 65536 }
    {
        self.items.len()
    }

    /// Sorts the items by their numbers; those of one number stay in their order. An error comes where memory is
    /// refused, and of 20 items none does.
    pub fn sort(&mut self) -> Result<(), AllocError>
    where
        T: Keyed,
        ensures sorted { OnOk result (IsNonDecreasingBy T.key_of (items_of self.new)) }
        ensures kept { (key : ℕ) → filter (λ item. T.key_of item == key) (items_of self.new)
            ≡ filter (λ item. T.key_of item == key) (items_of self.old) }
        ensures len { length (items_of self.new) ≡ length (items_of self.old) }
        ensures made { length (items_of self.old) ≤ 20 → IsOk result }
        ensures err { OnErr result (items_of self.new ≡ items_of self.old) }
    {
        self.items.sort_by_key(|item| item.key())?;
        Ok(())
    }
}
