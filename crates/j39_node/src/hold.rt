//! How far a controller is with its address, and the moment that it is at.
ghost use Rattle.std.specs.Prelude.{◌≡◌, ◌+◌, ◌-◌, ◌&&◌, ◌||◌, not, nat_eq, if◌then◌else◌, min, true};
ghost use Rattle.std.specs.Option.{option_map};
ghost use Rattle.j39_frame.specs.Stamp.{stamp_micros};
ghost use Rattle.j39_node.specs.History.{stamp_at};
ghost use Rattle.j39_node.specs.declared.hold.Standing.TheVariants as standing;
ghost use Rattle.j39_node.specs.Hold.{acknowledged, asked, first, passed, heard, moved, claimed, paused, spoken, went, opens, stands, lost, less, claims, left_at, anew, can_claim, unclaims};

use j39_frame::Stamp;

/// How long an address is claimed before it is held, in microseconds (J1939-81, 4.5).
const CLAIM_TIME: u32 = 250_000;

/// The time from one frame of a broadcast to the moment at which the next is overdue, in microseconds: 50 ms, the least
/// (J1939-21, 5.12.3), and for how long that is due without being overdue (own).
const PACKET_TIME: u32 = 50_000 + SLACK;

/// For how long a frame of a broadcast is due without being overdue, in microseconds (own).
pub(crate) const SLACK: u32 = 100_000;

/// How long a request waits for its answer, in microseconds (own).
const ANSWER_TIME: u32 = 1_250_000;

/// How long another at the address isn't answered again, in microseconds (own).
const PATIENCE: u32 = 5_000_000;

/// How far the address is.
#[derive(Clone, Copy)]
pub(crate) enum Standing {
    /// No claim of it was taken.
    Idle,
    /// A claim of it was taken; so many microseconds are left until it is held.
    Claimed(u32),
    /// A smaller NAME claimed it.
    Lost,
}

impl Standing {
    fn less(self, step: u64) -> Standing
        ensures { result ≡ less step self }
    {
        match self {
            Standing::Idle => Standing::Idle,
            Standing::Claimed(left) => Standing::Claimed(left_of(left, step)),
            Standing::Lost => Standing::Lost,
        }
    }

    fn unclaimed(self) -> Standing
        ensures { result ≡ unclaims self }
    {
        match self {
            Standing::Idle => Standing::Idle,
            Standing::Claimed(_left) => Standing::Idle,
            Standing::Lost => Standing::Lost,
        }
    }

    fn claimed(self) -> Standing
        ensures { result ≡ claims self }
    {
        match self {
            Standing::Idle => Standing::Claimed(CLAIM_TIME),
            Standing::Claimed(left) => Standing::Claimed(left),
            Standing::Lost => Standing::Lost,
        }
    }
}

#[derive(Clone, Copy)]
pub(crate) struct Hold {
    pub(crate) moment: u64,
    pub(crate) standing: Standing,
    pub(crate) owes_claim: bool,
    /// How many of the frames taken last were claims or acknowledgments, up to two.
    pub(crate) turns: u8,
    /// The frame taken last, but for these, was a reply.
    pub(crate) yields: bool,
    /// What is left of the time in which another at its address isn't answered again.
    pub(crate) patience: u32,
    /// What is left of the time for which 'cannot claim' waits.
    pub(crate) delay: u32,
    /// What is left of the time until the next frame of a broadcast is overdue.
    pub(crate) pause: u32,
    /// The sum of all forward steps.
    pub(crate) age: u64,
    /// What is left of the time that the open request waits.
    pub(crate) wait: u32,
}

impl Hold {
    /// Nothing was claimed; the first claim is owed.
    pub(crate) fn new() -> Hold
        ensures { result ≡ first }
    {
        Hold {
            moment: 0,
            standing: Standing::Idle,
            owes_claim: true,
            turns: 0,
            yields: false,
            patience: 0,
            delay: 0,
            pause: 0,
            age: 0,
            wait: 0,
        }
    }

    /// Begins anew at another address, at the same moment, and as old.
    pub(crate) fn moved(self) -> Hold
        ensures { result ≡ moved self }
    {
        let mut hold = Hold::new().passed_to(self.moment);
        hold.age = self.age;
        hold
    }

    /// At this moment: time that goes back is no time.
    pub(crate) fn passed(self, now: Stamp) -> Hold
        ensures { result ≡ passed (stamp_micros now) self }
    {
        self.passed_to(now.micros())
    }

    fn passed_to(self, moment: u64) -> Hold
        ensures { result ≡ passed moment self }
    {
        let step = moment.saturating_sub(self.moment);
        Hold {
            moment,
            standing: self.standing.less(step),
            owes_claim: self.owes_claim,
            turns: self.turns,
            yields: self.yields,
            patience: left_of(self.patience, step),
            delay: left_of(self.delay, step),
            pause: left_of(self.pause, step),
            age: self.age.saturating_add(step),
            wait: left_of(self.wait, step),
        }
    }

    /// A frame was heard that drives away from the address, or that is answered by a claim, or is another's from the address; a
    /// word that none can be claimed waits for this long.
    pub(crate) fn heard(self, drives_away: bool, calls: bool, another: bool, delay: u32) -> Hold
        ensures { result ≡ heard drives_away calls another delay self }
    {
        let answers = another && self.patience == 0;
        let patience = if answers { PATIENCE } else { self.patience };
        let waits = self.is_lost() && self.owes_claim;
        let delay = if (calls || answers) && !waits {
            delay
        } else {
            self.delay
        };
        let standing = if drives_away {
            Standing::Lost
        } else {
            self.standing
        };
        Hold {
            moment: self.moment,
            standing,
            owes_claim: self.owes_claim || calls || answers,
            turns: self.turns,
            yields: self.yields,
            patience,
            delay,
            pause: self.pause,
            age: self.age,
            wait: self.wait,
        }
    }

    /// It is to be claimed anew; a word that none can be claimed waits for this long.
    pub(crate) fn anew(mut self, delay: u32) -> Hold
        ensures { result ≡ anew delay self }
    {
        self.standing = self.standing.unclaimed();
        self.owes_claim = true;
        self.delay = delay;
        self
    }

    /// A claim that is owed goes, unless it gives way.
    pub(crate) fn claims(self, gives_way: bool) -> bool
        ensures { result ≡ (can_claim self && not gives_way) }
    {
        self.owes_claim && (!self.is_lost() || self.delay == 0) && !gives_way
    }

    /// A claim was taken.
    pub(crate) fn claimed(self) -> Hold
        ensures { result ≡ claimed self }
    {
        Hold {
            moment: self.moment,
            standing: self.standing.claimed(),
            owes_claim: false,
            turns: self.turns.saturating_add(1).min(2),
            yields: self.yields,
            patience: self.patience,
            delay: self.delay,
            pause: self.pause,
            age: self.age,
            wait: self.wait,
        }
    }

    /// An acknowledgment was taken.
    pub(crate) fn acknowledged(mut self) -> Hold
        ensures { result ≡ acknowledged self }
    {
        self.turns = self.turns.saturating_add(1).min(2);
        self
    }

    /// A frame was taken behind which no reply yields.
    pub(crate) fn went(mut self) -> Hold
        ensures { result ≡ went self }
    {
        self.turns = 0;
        self.yields = false;
        self
    }

    /// A reply was taken.
    pub(crate) fn spoken(mut self) -> Hold
        ensures { result ≡ spoken self }
    {
        self.turns = 0;
        self.yields = true;
        self
    }

    /// A frame of a broadcast was taken.
    pub(crate) fn paused(mut self) -> Hold
        ensures { result ≡ paused self }
    {
        self.pause = PACKET_TIME;
        self.went()
    }

    /// A broadcast was accepted.
    pub(crate) fn opens(mut self) -> Hold
        ensures { result ≡ opens self }
    {
        self.pause = self.pause.max(SLACK);
        self
    }

    /// A message was taken: whether it was the request.
    pub(crate) fn asked(self, is_request: bool) -> Hold
        ensures { result ≡ asked is_request self }
    {
        let wait = if is_request { ANSWER_TIME } else { self.wait };
        Hold {
            moment: self.moment,
            standing: self.standing,
            owes_claim: self.owes_claim,
            turns: 0,
            yields: false,
            patience: self.patience,
            delay: self.delay,
            pause: self.pause,
            age: self.age,
            wait,
        }
    }

    /// The time of the transfers.
    pub(crate) fn clock(self) -> Stamp
        ensures { stamp_micros result ≡ min self.age 9999999999999999 }
    {
        let micros = self.age.min(Stamp::LIMIT - 1);
        Stamp::new(micros).unwrap()
    }

    pub(crate) fn is_held(self) -> bool
        ensures { result ≡ stands self.standing }
    {
        match self.standing {
            Standing::Idle => false,
            Standing::Claimed(left) => left == 0,
            Standing::Lost => false,
        }
    }

    pub(crate) fn is_lost(self) -> bool
        ensures { result ≡ lost self.standing }
    {
        match self.standing {
            Standing::Idle => false,
            Standing::Claimed(_left) => false,
            Standing::Lost => true,
        }
    }

    /// The moment that it is at.
    pub(crate) fn at(self) -> Option<Stamp>
        ensures { option_map stamp_micros result ≡ stamp_at self.moment }
    {
        Stamp::new(self.moment)
    }

    /// The moment after so many microseconds.
    pub(crate) fn later(self, micros: u64) -> Option<Stamp>
        ensures { option_map stamp_micros result ≡ stamp_at (self.moment + micros) }
    {
        Stamp::new(self.moment.saturating_add(micros))
    }

    /// When the claim that is owed goes; or else when the address will be held.
    pub(crate) fn claim_at(self) -> Option<Stamp>
        ensures { option_map stamp_micros result
            ≡ (if self.owes_claim then stamp_at (self.moment + self.delay) else left_at self.standing self.moment) }
    {
        if self.owes_claim {
            self.later(u64::from(self.delay))
        } else {
            self.held_at()
        }
    }

    /// When the address will be held.
    fn held_at(self) -> Option<Stamp>
        ensures { option_map stamp_micros result ≡ left_at self.standing self.moment }
    {
        match self.standing {
            Standing::Idle => None,
            Standing::Claimed(left) => {
                if left > 0 {
                    self.later(u64::from(left))
                } else {
                    None
                }
            }
            Standing::Lost => None,
        }
    }
}

/// What is left so much later.
fn left_of(left: u32, step: u64) -> u32
    ensures { result ≡ left - step }
{
    match u32::try_from(step) {
        Ok(step) => left.saturating_sub(step),
        Err(_) => 0,
    }
}
