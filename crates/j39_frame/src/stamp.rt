//! Moments of a log.
ghost use Rattle.std.specs.Prelude.{◌≡◌, ◌^◌, ◌<◌, ◌↔◌, IsSome, IfSome};

/// A moment in microseconds, 0 to 10^16 - 1: below 10^10 seconds (own).
#[derive(Clone, Copy, Debug, PartialEq, Eq, PartialOrd, Ord)]
pub struct Stamp {
    micros: u64,
    pub ghost fits: { micros < 10 ^ 16 },
}

impl Stamp {
    ghost use Rattle.j39_frame.specs.Stamp.{stamp_micros};

    /// Every stamp is below this number of microseconds.
    pub const LIMIT: u64 = 10_000_000_000_000_000;

    /// The moment after this many microseconds; `None` from 10^16 up.
    pub fn new(micros: u64) -> Option<Stamp>
        ensures known { IsSome result ↔ (micros < 10 ^ 16) }
        ensures value { IfSome result (λ stamp. stamp_micros stamp ≡ micros) }
    {
        if micros < Self::LIMIT {
            Some(Stamp { micros })
        } else {
            None
        }
    }

    /// The microseconds, 0 to 10^16 - 1.
    pub fn micros(self) -> u64
        ensures value { result ≡ stamp_micros self }
        ensures fits { result < 10 ^ 16 }
    {
        self.micros
    }
}
