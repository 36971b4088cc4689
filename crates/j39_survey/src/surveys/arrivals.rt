//! The frames with which a group came.
ghost use Rattle.std.specs.Prelude.{◌≡◌, ◌++◌, ◌∷◌, [], List};
ghost use Rattle.j39_frame.specs.Frame.{FrameRecord};
ghost use Rattle.j39_frame.specs.Identifier.{id_raw};
ghost use Rattle.j39_frame.specs.Stamp.{stamp_micros};

use crate::surveys::distances::Distances;
use crate::surveys::senders::Senders;
use j39_frame::{Id, Stamp};

/// How many there are so far, from how many addresses, and how far apart.
#[derive(Clone, Copy)]
pub(crate) struct Arrivals {
    pub count: u64,
    pub senders: Senders,
    pub distances: Distances,
}

impl Arrivals {
    ghost use Rattle.j39_survey.specs.SurveyModels.{HaveArrived};

    /// Of no frames.
    pub fn new() -> Arrivals
        ensures { HaveArrived result [] }
    {
        Arrivals {
            count: 0,
            senders: Senders::new(),
            distances: Distances::new(),
        }
    }

    /// One frame more.
    #[inline(always)]
    pub fn add(&mut self, id: Id, stamp: Stamp)
        ensures { (frames : List FrameRecord) (frame : FrameRecord) → frame.id ≡ id_raw id → frame.stamp ≡ stamp_micros stamp
            → HaveArrived self.old frames → HaveArrived self.new (frames ++ frame ∷ []) }
    {
        self.count = self.count.saturating_add(1);
        self.senders.add(id.source());
        self.distances.add(stamp);
    }
}
