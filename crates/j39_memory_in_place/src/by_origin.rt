//! The values, each with its origin.
ghost use Rattle.std.specs.Prelude.{◌≡◌, ◌↔◌, ◌++◌, ◌∷◌, ◌<◌, ◌≤◌, [], Result, None, Some, IsTrue, OnErr, OnOk, length, slice_get, slice_set, take};
ghost use Rattle.std.specs.List.{IsDistinct};
ghost use Rattle.std.specs.Map.{keys_of};
ghost use Rattle.std.proofs.Props.{props};
ghost use Rattle.std.specs.declared.alloc.AllocError.{AllocError};
ghost use Rattle.j39_frame.specs.Origin.{is_same, place_in};
ghost use Rattle.j39_memory_in_place.specs.Paired.{paired};

use crate::hints::{Hints, NEIGHBOURS};
use j39_frame::Origin;
use std::alloc::{AllocError, Global};
use std::array;

/// How many origins have a place.
const PLACES: usize = 4096;

/// What is done to a value.
pub trait OriginChange<T> {
    /// From which value to which, and what is answered between both.
    ghost changes: { Self → T → Result (Unit {0}) AllocError → T → Type 0 };

    /// Does it.
    fn make(self, value: &mut T) -> Result<(), AllocError>
        ensures { changes self value.old result value.new };
}

/// A value for each origin, in the order in which the origins came: the first places are taken.
#[derive(Drop)]
pub struct ByOrigin<T: Drop> {
    origins: [Origin; PLACES],
    values: [Option<T>; PLACES],
    hints: Hints,
    count: usize,
    ghost fits: { count ≤ 4096 },
    ghost origins_fit: { length origins ≡ 4096 },
    ghost values_fit: { length values ≡ 4096 },
    ghost held: { keys_of (paired (take count origins) values) ≡ take count origins },
    ghost apart: { IsDistinct is_same (take count origins) } by { Prim.hlevel props },
}

impl<T: Drop> ByOrigin<T> {
    ghost use Rattle.j39_memory_in_place.specs.ByOrigin.{pairs_of, room_in};

    /// No values.
    #[inline]
    pub fn new(_: Global) -> ByOrigin<T>
        ensures { pairs_of result ≡ [] }
    {
        ByOrigin {
            origins: [NO_ORIGIN; PLACES],
            values: empty(),
            hints: Hints::new(),
            count: 0,
        }
    }

    /// How many values there are.
    #[inline]
    pub fn len(&self) -> usize
        ensures { result ≡ length (pairs_of self.now) }
    {
        self.count
    }

    /// Where an origin stands, if it has a value.
    #[inline]
    pub fn place_of(&self, origin: Origin) -> Option<usize>
        ensures { result ≡ place_in (pairs_of self.now) origin }
    {
        for step in 0..NEIGHBOURS {
            let place = self.hints.get(origin, step);
            if self.stands_at(place, origin) {
                return Some(place);
            }
        }
        self.search(origin)
    }

    /// The same, with no hint.
    fn search(&self, origin: Origin) -> Option<usize>
        ensures { result ≡ place_in (pairs_of self.now) origin }
    {
        for place in 0..self.count {
            if self.stands_at(place, origin) {
                return Some(place);
            }
        }
        None
    }

    /// Whether it is this place where an origin stands.
    #[inline(always)]
    pub fn stands_at(&self, place: usize, origin: Origin) -> bool
        ensures { IsTrue result ↔ (place_in (pairs_of self.now) origin ≡ Some place) }
    {
        if place >= self.count {
            return false;
        }
        self.origins[place] == origin
    }

    /// The origin at a place, and its value.
    #[inline]
    pub fn pair_at(&self, place: usize) -> (Origin, &T)
        requires { place < length (pairs_of self.now) }
        ensures { slice_get (pairs_of self.now) place ≡ Some (result.0, result.1.now) }
    {
        match &self.values[place] {
            Some(value) => (self.origins[place], value),
            None => unreachable!(),
        }
    }

    /// Changes the value at a place, and answers what the change does.
    #[inline(always)]
    pub fn change<C: OriginChange<T>>(&mut self, place: usize, change: C) -> Result<(), AllocError>
        requires { place < length (pairs_of self.old) }
        ensures { (origin : Origin) × (old : T) × (new : T) × C.changes change old result new
            × (slice_get (pairs_of self.old) place ≡ Some (origin, old))
            × (pairs_of self.new ≡ slice_set (pairs_of self.old) place (origin, new)) }
    {
        let values = &mut self.values[..];
        match &mut values[place] {
            Some(value) => change.make(value),
            None => unreachable!(),
        }
    }

    /// Adds a value of an origin that has none. An error comes where there is no room for it.
    #[inline]
    pub fn add(&mut self, origin: Origin, value: T) -> Result<(), AllocError>
        requires { place_in (pairs_of self.old) origin ≡ None }
        ensures added { OnOk result (pairs_of self.new ≡ pairs_of self.old ++ (origin, value) ∷ []) }
        ensures refused { OnErr result (pairs_of self.new ≡ pairs_of self.old) }
        ensures few { length (pairs_of self.new) ≤ 65536 }
        ensures full { OnErr result (room_in self.old ≡ 0) }
    {
        let place = self.count;
        if place >= PLACES {
            return Err(AllocError);
        }
        self.hints.put(origin, place as u16);
        self.origins[place] = origin;
        self.values[place] = Some(value);
        self.count = place + 1;
        Ok(())
    }
}

/// What stands where no origin came.
const NO_ORIGIN: Origin = Origin {
    address: 0,
    destination: None,
    name: None,
    pgn: 0,
    spn: 0,
};

/// Places with no value.
fn empty<T: Drop>() -> [Option<T>; PLACES] {
    array::from_fn(|_| -> Option<T> { None })
}
