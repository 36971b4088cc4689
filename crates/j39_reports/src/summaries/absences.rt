//! How often the parameter of each origin was not available.
ghost use Rattle.std.specs.Prelude.{◌≡◌, ◌++◌, ◌∷◌, [], List, OnErr, OnOk, false};
ghost use Rattle.std.specs.List.{list_any};
ghost use Rattle.j39_memory.specs.ByOrigin.{pairs_of};
ghost use Rattle.j39_frame.specs.Origin.{is_same};
ghost use Rattle.j39_frame.specs.declared.origin.Origin.{Origin};
ghost use Rattle.j39_reports.specs.RowsSoFar.{AreCounted, counted};

use crate::summaries::guesses::Guesses;
use j39_frame::Origin;
use j39_memory::{ByOrigin, OriginChange};
use std::alloc::{AllocError, Global};

/// How often the parameter of each origin was not available. A count that would pass 2^64 - 1 stays there (own).
#[derive(Drop)]
pub(crate) struct Absences {
    pub counts: ByOrigin<u64>,
    guesses: Guesses,
}

impl Absences {
    /// None.
    pub fn new(alloc: Global) -> Absences
        ensures { AreCounted (pairs_of result.counts) [] }
    {
        Absences {
            counts: ByOrigin::new(alloc),
            guesses: Guesses::new(),
        }
    }

    /// The parameter of this origin was not available once more.
    #[inline(never)]
    pub fn count(&mut self, origin: Origin) -> Result<(), AllocError>
        ensures counted { OnOk result ((absences : List Origin) → AreCounted (pairs_of self.old.counts) absences
            → AreCounted (pairs_of self.new.counts) (absences ++ origin ∷ [])) }
        ensures wanted { OnErr result ((absences : List Origin) → AreCounted (pairs_of self.old.counts) absences
            → list_any (is_same origin) absences ≡ false) }
    {
        let place = self.guesses.place_of(&self.counts, origin);
        match place {
            Some(at) => self.counts.change(at, AddedAbsence {}),
            None => self.counts.add(origin, 1),
        }
    }

    /// How often the parameter of this origin was not available.
    pub fn of(&self, origin: Origin) -> u64
        ensures { result ≡ counted (pairs_of self.now.counts) origin }
    {
        match self.counts.place_of(origin) {
            Some(at) => {
                let (_, count) = self.counts.pair_at(at);
                *count
            }
            None => 0,
        }
    }
}

/// Once more.
#[derive(Clone, Copy)]
struct AddedAbsence {}

impl OriginChange<u64> for AddedAbsence {
    ghost use Rattle.std.specs.Prelude.{◌≡◌, ◌+◌, IsOk};
    ghost use Rattle.j39_listen.specs.Counting.{capped};

    ghost changes = { λ more old result new. IsOk result × (new ≡ capped (old + 1)) };

    #[inline(always)]
    fn make(self, count: &mut u64) -> Result<(), AllocError> {
        *count = count.saturating_add(1);
        Ok(())
    }
}
