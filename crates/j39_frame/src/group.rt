//! The groups that an identifier can have, in a row (J1939-21, 5.2).
ghost use Rattle.std.specs.Prelude.{◌≡◌, ◌<◌, ℕ};
ghost use Rattle.j39_frame.specs.Groups.{IsHeardGroup, place_of_group};
ghost use Rattle.j39_frame.specs.Pgn.{pgn_raw};

use crate::Pgn;

impl Pgn {
    /// Where the group stands among the 17,344 that an identifier can have, rising from 0.
    #[inline]
    pub fn place(self) -> usize
        requires { IsHeardGroup (pgn_raw self) }
        ensures value { result ≡ place_of_group (pgn_raw self) }
        ensures fits { result < 17344 }
        ensures distinct { (other : ℕ) → IsHeardGroup other → place_of_group other ≡ result → other ≡ pgn_raw self }
    {
        let raw = self.raw();
        let page = raw >> 16;
        let place = if raw & 0xFFFF < 0xF000 {
            (raw >> 8) + 4080 * page
        } else {
            raw - 61_200 * (page + 1)
        };
        place as usize
    }
}
