//! Parameter group numbers (J1939-21, 5.2).
ghost use Rattle.std.specs.Prelude.{◌≡◌, ◌^◌, ◌<◌, ◌↔◌, IsSome, IfSome};

/// A parameter group number (PGN) of 18 bits: EDP, DP, PF and PS.
#[derive(Clone, Copy, Debug, PartialEq, Eq, PartialOrd, Ord)]
pub struct Pgn {
    pub(crate) raw: u32,
    pub ghost fits: { raw < 2 ^ 18 },
}

impl Pgn {
    ghost use Rattle.j39_frame.specs.Pgn.{pgn_raw};

    /// The group of this number; `None` from 2^18 up.
    pub fn new(raw: u32) -> Option<Pgn>
        ensures known { IsSome result ↔ (raw < 2 ^ 18) }
        ensures value { IfSome result (λ pgn. pgn_raw pgn ≡ raw) }
    {
        if raw < 1 << 18 {
            Some(Pgn { raw })
        } else {
            None
        }
    }

    /// The number, 0 to 262,143.
    pub fn raw(self) -> u32
        ensures value { result ≡ pgn_raw self }
        ensures fits { result < 2 ^ 18 }
    {
        self.raw
    }
}
