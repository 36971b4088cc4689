//! Where an origin may stand.
ghost use Rattle.std.specs.Prelude.{◌<◌};

use j39_frame::Origin;

/// How many hints there are.
const HINTS: usize = 16_384;

/// How many hints an origin has.
pub(crate) const NEIGHBOURS: usize = 8;

/// What stands where there is no hint: no place has this number.
const NOWHERE: u16 = u16::MAX;

/// Places of origins, each among the hints of its origin. A hint may be wrong: who takes it looks what stands there.
#[derive(Drop)]
pub(crate) struct Hints {
    places: [u16; HINTS],
}

impl Hints {
    /// No hints.
    pub(crate) fn new() -> Hints {
        Hints {
            places: [NOWHERE; HINTS],
        }
    }

    /// One of the hints of an origin.
    #[inline]
    pub(crate) fn get(&self, origin: Origin, step: usize) -> usize {
        usize::from(self.places[hint_at(origin, step)])
    }

    /// Hints at the place of an origin: in the first hint of its that is free, or else in its first one.
    pub(crate) fn put(&mut self, origin: Origin, place: u16) {
        for step in 0..NEIGHBOURS {
            let at = hint_at(origin, step);
            if self.places[at] == NOWHERE {
                self.places[at] = place;
                return;
            }
        }
        self.places[hint_at(origin, 0)] = place;
    }
}

/// Where a hint of an origin stands.
#[inline]
fn hint_at(origin: Origin, step: usize) -> usize
    ensures { result < HINTS }
{
    let controller = origin
        .name
        .unwrap_or(0)
        .wrapping_add(u64::from(origin.address));
    let parameter = (u64::from(origin.pgn) << 32) | u64::from(origin.spn);
    let mixed = (controller.rotate_left(24) ^ parameter).wrapping_mul(0x9E37_79B9_7F4A_7C15);
    ((mixed >> 50) as usize).wrapping_add(step) % HINTS
}
