//! What happened and is not told.
ghost use Rattle.std.specs.Prelude.{◌≡◌, ◌&&◌, ◌||◌, not, false, None};
ghost use Rattle.std.specs.Option.{is_some, option_or};

use crate::News;

#[derive(Clone, Copy)]
pub(crate) struct Untold {
    pub(crate) lost: bool,
    pub(crate) another: bool,
    /// The address that another of its NAME claimed last.
    pub(crate) doubled: Option<u8>,
    pub(crate) missed: bool,
}

impl Untold {
    /// Nothing happened.
    pub(crate) fn none() -> Untold
        ensures { result ≡ record { lost = false; another = false; doubled = None; missed = false } }
    {
        Untold {
            lost: false,
            another: false,
            doubled: None,
            missed: false,
        }
    }

    /// Whether nothing is untold.
    pub(crate) fn is_none(self) -> bool
        ensures { result ≡ not (self.lost || (self.another || (is_some self.doubled || self.missed))) }
    {
        !(self.lost || (self.another || (self.doubled.is_some() || self.missed)))
    }

    /// A message was missed, or not.
    pub(crate) fn with_missed(self, missed: bool) -> Untold
        ensures { result ≡ record { lost = self.lost; another = self.another; doubled = self.doubled; missed = missed || self.missed } }
    {
        Untold {
            lost: self.lost,
            another: self.another,
            doubled: self.doubled,
            missed: missed || self.missed,
        }
    }

    /// Another of its NAME claims this address, or none does.
    pub(crate) fn with_double(self, doubled: Option<u8>) -> Untold
        ensures { result ≡ record
            { lost = self.lost; another = self.another; doubled = option_or doubled self.doubled; missed = self.missed } }
    {
        Untold {
            lost: self.lost,
            another: self.another,
            doubled: doubled.or(self.doubled),
            missed: self.missed,
        }
    }

    /// A frame was heard: it drives away from the address, which was lost before or not; another sent it from the address; it
    /// was missed, or a broadcast was.
    pub(crate) fn heard(
        self,
        drives_away: bool,
        was_lost: bool,
        another: bool,
        missed: bool,
        unheard: bool,
    ) -> Untold
        ensures { result ≡ record {
          lost = self.lost || (drives_away && not was_lost);
          another = self.another || another;
          doubled = self.doubled;
          missed = self.missed || (missed || unheard);
        } }
    {
        Untold {
            lost: self.lost || (drives_away && !was_lost),
            another: self.another || another,
            doubled: self.doubled,
            missed: self.missed || (missed || unheard),
        }
    }
}
