//! What a run counts.
ghost use Rattle.std.specs.Prelude.{◌≡◌};

/// What a run met and wrote. A count that would pass 2^64 - 1 stays there (own).
#[derive(Clone, Copy, Debug, Default, PartialEq, Eq)]
pub struct Counts {
    /// Frames of the run's bus.
    pub frames: u64,
    /// Lines of candump's form that hold no such frame.
    pub other: u64,
    /// Lines of no such form.
    pub unread: u64,
    /// Messages that were heard.
    pub messages: u64,
    /// Lines that were written.
    pub lines: u64,
}

/// What was met in the lines of a log.
#[derive(Clone, Copy, Debug, Default, PartialEq, Eq)]
pub(crate) struct Tally {
    pub frames: u64,
    pub other: u64,
    pub unread: u64,
}

/// What a line counts as.
#[derive(Clone, Copy, Debug, PartialEq, Eq)]
pub(crate) enum Met {
    Frame,
    Other,
    Unread,
    Blank,
}

const NOTHING: Tally = Tally {
    frames: 0,
    other: 0,
    unread: 0,
};

const FRAME: Tally = Tally {
    frames: 1,
    ..NOTHING
};

const OTHER: Tally = Tally {
    other: 1,
    ..NOTHING
};

const UNREAD: Tally = Tally {
    unread: 1,
    ..NOTHING
};

impl Tally {
    ghost use Rattle.j39_listen.specs.LinesSoFar.{met_tally, sum_of};

    /// This and one line more: each kind has an arm of its own, so that only one count is added to.
    #[inline(always)]
    pub fn with(self, met: Met) -> Tally
        ensures { result ≡ sum_of self (met_tally met) }
    {
        match met {
            Met::Frame => self.and(FRAME),
            Met::Other => self.and(OTHER),
            Met::Unread => self.and(UNREAD),
            Met::Blank => self.and(NOTHING),
        }
    }

    /// This and more, each at most 2^64 - 1.
    pub fn and(self, more: Tally) -> Tally
        ensures { result ≡ sum_of self more }
    {
        Tally {
            frames: self.frames.saturating_add(more.frames),
            other: self.other.saturating_add(more.other),
            unread: self.unread.saturating_add(more.unread),
        }
    }
}

/// What was made of the frames of a log. A count that would pass 2^64 - 1 stays there (own).
#[derive(Clone, Copy, Debug, Default, PartialEq, Eq)]
pub struct Made {
    /// Messages that were heard.
    pub messages: u64,
    /// Lines that were written.
    pub lines: u64,
}

impl Made {
    ghost use Rattle.j39_listen.specs.ReportSoFar.{made_sum};

    /// This and more, each at most 2^64 - 1.
    pub fn and(self, more: Made) -> Made
        ensures { result ≡ made_sum self more }
    {
        Made {
            messages: self.messages.saturating_add(more.messages),
            lines: self.lines.saturating_add(more.lines),
        }
    }
}
