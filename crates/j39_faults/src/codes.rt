//! The codes of a payload, from byte 3 on, four bytes each (J1939-73, 5.7.1).
ghost use Rattle.std.specs.Prelude.{◌≡◌, ◌+◌, ◌*◌, ◌<◌, length};
ghost use Rattle.std.specs.Iterator.{YieldsFirst, item_count};
ghost use Rattle.j39_faults.specs.Codes.{code_at, codes_of, places_of};
ghost use Rattle.j39_faults.specs.CodesLeft.{codes_left};

use crate::code::{Code, code_of};

/// The codes of a payload that are left to be told, in the payload's order.
#[derive(Clone, Debug, Drop)]
pub struct Codes<'p> {
    payload: &'p [u8],
    place: usize,
}

/// The codes that a payload of DM1 or DM2 tells. Less than four bytes at its end are filling.
pub fn codes_of(payload: &[u8]) -> Codes<'_>
    ensures { codes_left result ≡ codes_of payload.now }
{
    Codes { payload, place: 0 }
}

impl<'p> Iterator for Codes<'p> {
    type Item = Code;

    ghost next_gives = { YieldsFirst codes_left };

    ghost remaining = { item_count codes_left };

    fn next(&mut self) -> Option<Code> {
        while self.place < places_of(self.payload) {
            let place = self.place;
            self.place += 1;
            if let Some(code) = code_at(self.payload, place) {
                return Some(code);
            }
        }
        None
    }
}

/// How many times four bytes stand behind byte 2.
fn places_of(payload: &[u8]) -> usize
    ensures { result ≡ places_of payload.now }
{
    payload.len().saturating_sub(2) / 4
}

/// The code at a place, if there is one.
fn code_at(payload: &[u8], place: usize) -> Option<Code>
    requires { place < places_of payload.now }
    ensures { result ≡ code_at payload.now place }
{
    code_of(
        payload[2 + 4 * place],
        payload[3 + 4 * place],
        payload[4 + 4 * place],
        payload[5 + 4 * place],
    )
}
