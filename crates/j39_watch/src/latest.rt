//! The last value of one origin, and how many came of late.
ghost use Rattle.std.specs.Prelude.{◌≡◌, ◌/◌, IfOk, OnErr, OnOk};
ghost use Rattle.j39_frame.specs.Stamp.{stamp_micros};
ghost use Rattle.j39_frame.specs.declared.origin.Origin.{Origin};
ghost use Rattle.j39_groups.specs.Models.{value_of};
ghost use Rattle.j39_watch.specs.LatestSoFar.{came_before, latest_begun, latest_grown, latest_row};
ghost use Rattle.j39_reports.specs.RowModels.{entry_at};
ghost use Rattle.j39_reports.specs.SummaryRun.{IsText};
ghost use Rattle.j39_watch.specs.Watch.{second};

use j39_frame::Stamp;
use j39_groups::Value;
use j39_memory::OriginChange;
use j39_reports::{Sample, StoredValue};
use std::alloc::{AllocError, Global};

/// A second, in microseconds.
const SECOND: u64 = 1_000_000;

/// The last value of an origin, how many came in its second, and how many in the one before. A count that would pass
/// 2^64 - 1 stays there (own).
#[derive(Drop)]
pub(crate) struct Latest<'t> {
    pub seen: Sample<'t>,
    pub within: u64,
    pub before: u64,
}

impl<'t> Latest<'t> {
    /// That of one value. Only a text takes memory.
    pub fn begin(
        alloc: Global,
        stamp: Stamp,
        value: Value<'t, '_>,
    ) -> Result<Latest<'t>, AllocError>
        ensures begun { IfOk result (λ latest. (origin : Origin)
            → latest_row (origin, latest) ≡ latest_begun (entry_at origin (stamp_micros stamp) (value_of value.entry))) }
        ensures wanted { OnErr result (IsText (value_of value.entry)) }
    {
        let value = StoredValue::of(alloc, value)?;
        Ok(Latest {
            seen: Sample { stamp, value },
            within: 1,
            before: 0,
        })
    }

    /// One value more. Only a text takes memory.
    #[inline(always)]
    pub fn follow(
        &mut self,
        alloc: Global,
        stamp: Stamp,
        value: Value<'t, '_>,
    ) -> Result<(), AllocError>
        ensures followed { OnOk result ((origin : Origin) → latest_row (origin, self.new)
            ≡ latest_grown (latest_row (origin, self.old)) (entry_at origin (stamp_micros stamp) (value_of value.entry))) }
        ensures wanted { OnErr result (IsText (value_of value.entry)) }
    {
        let value = StoredValue::of(alloc, value)?;
        let now = second_of(stamp);
        let then = second_of(self.seen.stamp);
        if now == then {
            self.within = self.within.saturating_add(1);
        } else {
            self.before = if now == then + 1 { self.within } else { 0 };
            self.within = 1;
        }
        self.seen = Sample { stamp, value };
        Ok(())
    }

    /// How many values came in the second before that of this moment.
    pub fn came_before(&self, now: Stamp) -> u64
        ensures { (origin : Origin) → result ≡ came_before (latest_row (origin, self.now)) (stamp_micros now / second) }
    {
        let now = second_of(now);
        let then = second_of(self.seen.stamp);
        if now == then {
            self.before
        } else if now == then + 1 {
            self.within
        } else {
            0
        }
    }
}

/// The second of a moment.
#[inline(always)]
fn second_of(stamp: Stamp) -> u64
    ensures { result ≡ stamp_micros stamp / second }
{
    stamp.micros() / SECOND
}

/// One value more of an origin that has one.
#[derive(Clone, Copy)]
pub(crate) struct NextValue<'t, 'v> {
    pub alloc: Global,
    pub stamp: Stamp,
    pub value: Value<'t, 'v>,
}

impl<'t, 'v> OriginChange<Latest<'t>> for NextValue<'t, 'v> {
    ghost use Rattle.std.specs.Prelude.{OnErr, OnOk};
    ghost use Rattle.j39_groups.specs.Models.{value_of};
    ghost use Rattle.j39_watch.specs.LatestSoFar.{HasFollowed};
    ghost use Rattle.j39_reports.specs.SummaryRun.{IsText};

    ghost changes = { λ next old result new. OnOk result (HasFollowed old (stamp_micros next.stamp)
        (value_of next.value) new) × OnErr result (IsText (value_of next.value)) };

    #[inline(always)]
    fn make(self, latest: &mut Latest<'t>) -> Result<(), AllocError> {
        latest.follow(self.alloc, self.stamp, self.value)
    }
}
