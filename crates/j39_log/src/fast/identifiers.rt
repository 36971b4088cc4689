//! Identifiers by their digits, remembered: most lines have one of a few.
ghost use Rattle.std.specs.Prelude.{◌<◌, IfSome};
ghost use Rattle.std.proofs.Props.{props};
ghost use Rattle.j39_log.specs.Identifiers.{AreKnown, IsWritten};
ghost use Rattle.j39_frame.specs.declared.identifier.Id.{Id};

use crate::fast::plain::id_of;
use j39_frame::Id;

/// How many identifiers are remembered.
const PLACES: usize = 2048;

/// Eight hex digits as a number, and the identifier that they write.
#[derive(Clone, Copy, Debug)]
struct Known {
    digits: u64,
    id: Id,
}

/// The identifiers that were read last.
#[derive(Debug, Drop)]
pub(crate) struct Identifiers {
    known: [Known; PLACES],
    ghost sound: { AreKnown known } by { Prim.hlevel props },
}

impl Identifiers {
    /// With the identifier 0 in each place: what is remembered changes no answer.
    pub(crate) fn new() -> Identifiers {
        // Eight digits 0.
        let digits = 0x3030_3030_3030_3030;
        let id = Id::new(0).unwrap();
        let zero = Known { digits, id };
        Identifiers {
            known: [zero; PLACES],
        }
    }

    /// The identifier that eight hex digits write, where it is remembered.
    #[inline(always)]
    pub(crate) fn of(&self, digits: &[u8; 8]) -> Option<Id>
        ensures { IfSome result (IsWritten digits.now) }
    {
        let number = u64::from_le_bytes(*digits);
        let known = &self.known[place_of(number)];
        if known.digits == number {
            Some(known.id)
        } else {
            None
        }
    }

    /// Remembers what eight hex digits write; whether that is new.
    pub(crate) fn learn(&mut self, digits: &[u8; 8]) -> bool {
        if self.of(digits).is_some() {
            return false;
        }
        let number = u64::from_le_bytes(*digits);
        match id_of(digits) {
            Some(id) => {
                self.known[place_of(number)] = Known { digits: number, id };
                true
            }
            None => false,
        }
    }
}

/// Where eight digits are remembered.
#[inline(always)]
fn place_of(digits: u64) -> usize
    ensures { result < 2048 }
{
    (digits.wrapping_mul(0x9E37_79B9_7F4A_7C15) >> 53) as usize
}
