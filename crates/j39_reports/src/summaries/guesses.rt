//! Where what was heard last stands.
ghost use Rattle.std.specs.Prelude.{◌≡◌, ℕ, IfSome, Some, get_or, replicate, slice_set};
ghost use Rattle.j39_memory.specs.ByOrigin.{pairs_of};
ghost use Rattle.j39_frame.specs.Origin.{place_in};
ghost use Rattle.j39_reports.specs.Leads.{guess_place};

use j39_frame::Origin;
use j39_memory::ByOrigin;

/// How many places are remembered.
const PLACES: usize = 1024;

/// Where what was heard last stands, by address and a number, of a parameter or of a group, as a look-up costs more than a value.
#[derive(Drop)]
pub struct Guesses {
    places: [usize; PLACES],
}

impl Guesses {
    /// Each is the first place.
    pub fn new() -> Guesses
        ensures { result.places ≡ replicate 1024 0 }
    {
        Guesses {
            places: [0; PLACES],
        }
    }

    /// Where what has this address and this number stands, if anything does: that is to be asked there.
    #[inline(always)]
    pub(crate) fn guess(&self, address: u8, number: u32) -> usize
        ensures { (d : ℕ) → result ≡ get_or self.now.places (guess_place address number) d }
    {
        self.places[guess_at(address, number)]
    }

    /// What has this address and this number stands there.
    #[inline]
    pub(crate) fn remember(&mut self, address: u8, number: u32, place: usize)
        ensures { self.new.places ≡ slice_set self.old.places (guess_place address number) place }
    {
        self.places[guess_at(address, number)] = place;
    }

    /// Where an origin stands, if that is remembered: most values are of an origin that is.
    #[inline(always)]
    pub fn known_place<T: Drop>(&self, values: &ByOrigin<T>, origin: Origin) -> Option<usize>
        ensures { IfSome result (λ place. place_in (pairs_of values.now) origin ≡ Some place) }
    {
        let guess = self.guess(origin.address, origin.spn);
        if values.stands_at(guess, origin) {
            Some(guess)
        } else {
            None
        }
    }

    /// Where an origin stands, if it has a value.
    #[inline(never)]
    pub fn place_of<T: Drop>(&mut self, values: &ByOrigin<T>, origin: Origin) -> Option<usize>
        ensures { result ≡ place_in (pairs_of values.now) origin }
    {
        if let Some(place) = self.known_place(values, origin) {
            return Some(place);
        }
        let place = values.place_of(origin);
        self.remember(origin.address, origin.spn, place.unwrap_or(values.len()));
        place
    }
}

/// Where the guess for an address and a number stands. Few of one bus have one place.
#[inline(always)]
fn guess_at(address: u8, number: u32) -> usize
    ensures { result ≡ guess_place address number }
{
    (usize::from(address) * 37 + number as usize) % PLACES
}
