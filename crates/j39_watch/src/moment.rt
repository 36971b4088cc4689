//! The moment of the last frame, and its half second.
ghost use Rattle.std.specs.Prelude.{◌≡◌, ◌&&◌, ℕ, None, Some, false, nat_le, nat_lt, not, option_map};
ghost use Rattle.j39_frame.specs.Stamp.{stamp_micros};
ghost use Rattle.j39_watch.specs.Watch.{is_due};

use j39_frame::Stamp;

/// Half a second, in microseconds.
const HALF: u64 = 500_000;

/// The stamp of the last frame, and from where to where its half second goes: a frame in it needs no division. Before the
/// first frame it goes nowhere.
#[derive(Clone, Copy, Debug)]
pub(crate) struct Moment {
    pub last: Option<Stamp>,
    from: u64,
    until: u64,
    pub ghost half: { (stamp : ℕ) → is_due (option_map stamp_micros last) stamp ≡ not (nat_le from stamp && nat_lt stamp until) },
}

impl Moment {
    /// Before the first frame.
    pub fn new() -> Moment
        ensures { result.last ≡ None }
    {
        Moment {
            last: None,
            from: 0,
            until: 0,
        }
    }

    /// Goes on to a frame of this stamp, and answers whether it begins another half second than the last one, or is the
    /// first.
    #[inline(always)]
    pub fn go_on(&mut self, stamp: Stamp) -> bool
        ensures due { result ≡ is_due (option_map stamp_micros self.old.last) (stamp_micros stamp) }
        ensures last { self.new.last ≡ Some stamp }
    {
        if self.from <= stamp.micros() && stamp.micros() < self.until {
            *self = self.within(stamp);
            false
        } else {
            *self = Moment::of(stamp);
            true
        }
    }

    /// That of a frame of this stamp.
    fn of(stamp: Stamp) -> Moment
        ensures { result.last ≡ Some stamp }
    {
        let from = stamp.micros() / HALF * HALF;
        Moment {
            last: Some(stamp),
            from,
            until: from + HALF,
        }
    }

    /// That of a frame of this stamp, which lies in the same half second.
    #[inline(always)]
    fn within(self, stamp: Stamp) -> Moment
        requires { is_due (option_map stamp_micros self.last) (stamp_micros stamp) ≡ false }
        ensures { result.last ≡ Some stamp }
    {
        Moment {
            last: Some(stamp),
            from: self.from,
            until: self.until,
        }
    }
}
