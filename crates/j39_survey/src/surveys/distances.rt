//! How far apart a group came.
ghost use Rattle.std.specs.Prelude.{◌≡◌, ◌<◌, ◌++◌, ◌∷◌, ◌/◌, [], ℕ, List, Some, option_map};

use j39_frame::Stamp;

/// A moment, and how long after it the next came, in microseconds; 0 where that goes back.
#[derive(Clone, Copy)]
pub(crate) struct Silence {
    pub since: Stamp,
    pub length: u64,
}

impl Silence {
    ghost use Rattle.j39_survey.specs.GroupCounts.{longer};
    ghost use Rattle.j39_survey.specs.SurveyModels.{silence_record};

    /// Becomes another one that is longer.
    #[inline(always)]
    fn lengthen(&mut self, other: Silence)
        ensures { silence_record self.new ≡ longer (silence_record self.old) (silence_record other) }
    {
        if self.length < other.length {
            *self = other;
        }
    }
}

/// Some silences, in microseconds.
#[derive(Clone, Copy)]
pub(crate) struct Spread {
    pub count: u64,
    pub sum: u64,
    pub least: u64,
    pub longest: Silence,
    pub ghost some: { 0 < count },
}

impl Spread {
    ghost use Rattle.j39_survey.specs.GroupCounts as counted;
    ghost use Rattle.j39_survey.specs.GroupCounts.{spread_of};
    ghost use Rattle.j39_survey.specs.SurveyModels.{silence_record, spread_record};

    /// One silence.
    fn of(silence: Silence) -> Spread
        ensures { Some (spread_record result) ≡ spread_of (silence_record silence ∷ []) }
    {
        Spread {
            count: 1,
            sum: silence.length,
            least: silence.length,
            longest: silence,
        }
    }

    /// One silence more. It changes in place, as it is the longest least often.
    #[inline(always)]
    fn add(&mut self, silence: Silence)
        ensures { (ss : List counted.Silence) → Some (spread_record self.old) ≡ spread_of ss
            → Some (spread_record self.new) ≡ spread_of (ss ++ silence_record silence ∷ []) }
    {
        self.count = self.count.saturating_add(1);
        self.sum = self.sum.saturating_add(silence.length);
        self.least = self.least.min(silence.length);
        self.longest.lengthen(silence);
    }

    /// Some silences, or none so far, and one more.
    #[inline(always)]
    fn grow(spread: &mut Option<Spread>, silence: Silence)
        ensures { (ss : List counted.Silence) → option_map spread_record spread.old ≡ spread_of ss
            → option_map spread_record spread.new ≡ spread_of (ss ++ silence_record silence ∷ []) }
    {
        match spread {
            Some(spread) => spread.add(silence),
            None => *spread = Some(Spread::of(silence)),
        }
    }

    /// Their mean, rounded down.
    pub fn mean(self) -> u64
        ensures { result ≡ self.sum / self.count }
    {
        self.sum / self.count
    }
}

/// The last moment so far, and how far the moments are behind one another.
#[derive(Clone, Copy)]
pub(crate) struct Distances {
    pub last: Option<Stamp>,
    pub spread: Option<Spread>,
}

impl Distances {
    ghost use Rattle.j39_frame.specs.Stamp.{stamp_micros};
    ghost use Rattle.j39_survey.specs.SurveyModels.{HaveMeasured};

    /// Of no moments.
    pub fn new() -> Distances
        ensures { HaveMeasured result [] }
    {
        Distances {
            last: None,
            spread: None,
        }
    }

    /// One moment more.
    #[inline(always)]
    pub fn add(&mut self, moment: Stamp)
        ensures { (moments : List ℕ) → HaveMeasured self.old moments → HaveMeasured self.new (moments ++ stamp_micros moment ∷ []) }
    {
        if let Some(since) = self.last {
            let length = moment.micros().saturating_sub(since.micros());
            Spread::grow(&mut self.spread, Silence { since, length });
        }
        self.last = Some(moment);
    }
}
