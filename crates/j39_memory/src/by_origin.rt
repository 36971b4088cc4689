//! The values, each with its origin.
ghost use Rattle.std.specs.Prelude.{◌≡◌, ◌↔◌, ◌++◌, ◌∷◌, ◌<◌, ◌≤◌, [], Result, None, Some, IsTrue, OnErr, OnOk, length, slice_get, slice_set};
ghost use Rattle.std.specs.declared.alloc.AllocError.{AllocError};
ghost use Rattle.std.specs.BTreeMap.{get};
ghost use Rattle.std.specs.List.{IsDistinct};
ghost use Rattle.std.specs.Map.{keys_of};
ghost use Rattle.std.proofs.Props.{props};
ghost use Rattle.j39_frame.specs.Origin.{is_same, origin_cmp, place_in};
ghost use Rattle.j39_frame.specs.declared.origin.Origin.{Origin};

use crate::list::MOST;
use j39_frame::Origin;
use std::alloc::{AllocError, Global};
use std::collections::BTreeMap;

/// What is done to a value.
pub trait OriginChange<T> {
    /// From which value to which, and what is answered between both.
    ghost changes: { Self → T → Result (Unit {0}) AllocError → T → Type 0 };

    /// Does it.
    fn make(self, value: &mut T) -> Result<(), AllocError>
        ensures { changes self value.old result value.new };
}

/// A value for each origin, 65,536 at most, in the order in which the origins came. Where each stands is found in a tree: whoever
/// chooses NAMEs makes no way in it longer.
#[derive(Drop)]
pub struct ByOrigin<T: Drop> {
    values: Vec<(Origin, T)>,
    places: BTreeMap<Origin, usize>,
    ghost placed: { (origin : Origin) → get origin_cmp places origin ≡ place_in values.items origin } by { Prim.hlevel props },
    ghost apart: { IsDistinct is_same (keys_of values.items) } by { Prim.hlevel props },
    ghost few: { length values.items ≤ 65536 },
}

impl<T: Drop> ByOrigin<T> {
    ghost use Rattle.j39_memory.specs.ByOrigin.{pairs_of, room_in};

    /// No values.
    #[inline]
    pub fn new(alloc: Global) -> ByOrigin<T>
        ensures { pairs_of result ≡ [] }
    {
        ByOrigin {
            values: Vec::new(alloc),
            places: BTreeMap::new(alloc),
        }
    }

    /// How many values there are.
    #[inline]
    pub fn len(&self) -> usize
        ensures { result ≡ length (pairs_of self.now) }
    {
        self.values.len()
    }

    /// Where an origin stands, if it has a value.
    #[inline]
    pub fn place_of(&self, origin: Origin) -> Option<usize>
        ensures { result ≡ place_in (pairs_of self.now) origin }
    {
        self.places.get(&origin).copied()
    }

    /// Whether it is this place where an origin stands.
    #[inline(always)]
    pub fn stands_at(&self, place: usize, origin: Origin) -> bool
        ensures { IsTrue result ↔ (place_in (pairs_of self.now) origin ≡ Some place) }
    {
        match self.values.get(place) {
            Some((found, _)) => *found == origin,
            None => false,
        }
    }

    /// The origin at a place, and its value.
    #[inline]
    pub fn pair_at(&self, place: usize) -> (Origin, &T)
        requires { place < length (pairs_of self.now) }
        ensures { slice_get (pairs_of self.now) place ≡ Some (result.0, result.1.now) }
    {
        let (origin, value) = &self.values[place];
        (*origin, value)
    }

    /// Changes the value at a place, and answers what the change does.
    #[inline(always)]
    pub fn change<C: OriginChange<T>>(&mut self, place: usize, change: C) -> Result<(), AllocError>
        requires { place < length (pairs_of self.old) }
        ensures { (origin : Origin) × (old : T) × (new : T) × C.changes change old result new
            × (slice_get (pairs_of self.old) place ≡ Some (origin, old))
            × (pairs_of self.new ≡ slice_set (pairs_of self.old) place (origin, new)) }
    {
        change.make(&mut self.values[place].1)
    }

    /// Adds a value of an origin that has none. An error comes where memory is refused, or there are 65,536 already.
    #[inline]
    pub fn add(&mut self, origin: Origin, value: T) -> Result<(), AllocError>
        requires { place_in (pairs_of self.old) origin ≡ None }
        ensures added { OnOk result (pairs_of self.new ≡ pairs_of self.old ++ (origin, value) ∷ []) }
        ensures refused { OnErr result (pairs_of self.new ≡ pairs_of self.old) }
        ensures few { length (pairs_of self.new) ≤ 65536 }
        ensures full { OnErr result (room_in self.old ≡ 0) }
    {
        let place = self.values.len();
        if place >= MOST {
            return Err(AllocError);
        }
        self.values.try_reserve(1)?;
        match self.places.insert(origin, place) {
            Ok(_) => {
                self.values.push_reserved((origin, value));
                Ok(())
            }
            Err(_) => Err(AllocError),
        }
    }
}
