//! What came of each group so far.
ghost use Rattle.std.specs.Prelude.{◌≡◌, [], ℕ, IfOk, Option, option_map};
ghost use Rattle.j39_transport.specs.Announced.{announced_by};
ghost use Rattle.j39_frame.specs.Frame.{FrameRecord};
ghost use Rattle.j39_frame.specs.Groups.{IsHeardGroup};
ghost use Rattle.j39_frame.specs.Identifier.{id_raw, pgn_of};
ghost use Rattle.j39_frame.specs.Stamp.{stamp_micros};
ghost use Rattle.j39_frame.specs.Pgn.{pgn_raw};
ghost use Rattle.j39_survey.specs.CameSoFar.{at_group, at_named, with_announced, with_own, with_whole};
ghost use Rattle.j39_survey.specs.GroupCounts.{Came, group_named, nothing};

use crate::surveys::arrivals::Arrivals;
use j39_frame::{Frame, Id, Pgn, Stamp};
use j39_groups::is_network_group;
use j39_memory::{ByGroup, GroupChange};
use j39_transport::announced_group;
use std::alloc::{AllocError, Global};

/// What came of a group so far.
#[derive(Clone, Copy)]
pub(crate) struct GroupCount {
    /// With which frames: of its own, and those that announced it.
    pub arrivals: Arrivals,
    /// How many of these were its own.
    pub frames: u64,
    /// How many announced a message of it.
    pub announced: u64,
    /// How many messages in packets came whole.
    pub whole: u64,
}

impl GroupCount {
    ghost use Rattle.j39_survey.specs.SurveyModels.{HasCounted};

    /// Nothing.
    fn new() -> GroupCount
        ensures { HasCounted result nothing }
    {
        GroupCount {
            arrivals: Arrivals::new(),
            frames: 0,
            announced: 0,
            whole: 0,
        }
    }
}

/// A frame of the group, without its data, which aren't counted.
#[derive(Clone, Copy)]
struct OwnFrame {
    id: Id,
    stamp: Stamp,
}

impl GroupChange<GroupCount> for OwnFrame {
    ghost use Rattle.j39_survey.specs.SurveyModels.{HasCounted};

    ghost changes = { λ own old new. (frame : FrameRecord) → frame.id ≡ id_raw own.id → frame.stamp ≡ stamp_micros own.stamp
        → (c : Came) → HasCounted old c → HasCounted new (with_own frame c) };

    fn make(self, count: &mut GroupCount) {
        count.arrivals.add(self.id, self.stamp);
        count.frames = count.frames.saturating_add(1);
    }
}

/// A frame that announces a message of the group.
#[derive(Clone, Copy)]
struct Announcement {
    id: Id,
    stamp: Stamp,
}

impl GroupChange<GroupCount> for Announcement {
    ghost use Rattle.j39_survey.specs.SurveyModels.{HasCounted};

    ghost changes = { λ it old new. (frame : FrameRecord) → frame.id ≡ id_raw it.id → frame.stamp ≡ stamp_micros it.stamp
        → (c : Came) → HasCounted old c → HasCounted new (with_announced frame c) };

    fn make(self, count: &mut GroupCount) {
        count.arrivals.add(self.id, self.stamp);
        count.announced = count.announced.saturating_add(1);
    }
}

/// A message of the group that came whole.
#[derive(Clone, Copy)]
struct WholeMessage;

impl GroupChange<GroupCount> for WholeMessage {
    ghost use Rattle.j39_survey.specs.SurveyModels.{HasCounted};

    ghost changes = { λ it old new. (c : Came) → HasCounted old c → HasCounted new (with_whole c) };

    fn make(self, count: &mut GroupCount) {
        count.whole = count.whole.saturating_add(1);
    }
}

/// What came of each group.
#[derive(Drop)]
pub(crate) struct GroupTable {
    counts: ByGroup<GroupCount>,
}

impl GroupTable {
    ghost use Rattle.j39_survey.specs.SurveyModels.{HasCounted, HaveCounted};

    /// Nothing of any. This takes memory, and nothing else does.
    pub fn new(alloc: Global) -> Result<GroupTable, AllocError>
        ensures { IfOk result (λ table. HaveCounted table (λ pgn. nothing)) }
    {
        let counts = ByGroup::new(alloc, GroupCount::new())?;
        Ok(GroupTable { counts })
    }

    /// One frame more, of its own group.
    #[inline(always)]
    pub fn add_frame(&mut self, frame: &Frame)
        ensures { (came : ℕ → Came) → HaveCounted self.old came
            → HaveCounted self.new (at_group (pgn_of frame.now.id) (with_own frame.now) came) }
    {
        let at = frame.id.pgn().place();
        let (id, stamp) = (frame.id, frame.stamp);
        self.counts.change(at, OwnFrame { id, stamp });
    }

    /// The message that a frame announces, where it announces one.
    #[inline(always)]
    pub fn add_announced(&mut self, frame: &Frame)
        ensures { (came : ℕ → Came) → HaveCounted self.old came
            → HaveCounted self.new (at_named (announced_by frame.now) (with_announced frame.now) came) }
    {
        // A frame of another group costs its identifier alone.
        if !is_network_group(frame.id.pgn()) {
            return;
        }
        match announced_group(frame) {
            Some(pgn) => {
                let (id, stamp) = (frame.id, frame.stamp);
                self.change(pgn, Announcement { id, stamp });
            }
            None => {}
        }
    }

    /// A message of this group that came whole, where one did.
    pub fn add_whole(&mut self, pgn: Option<Pgn>)
        ensures { (came : ℕ → Came) → HaveCounted self.old came
            → HaveCounted self.new (at_named (option_map (λ group. pgn_raw group) pgn) with_whole came) }
    {
        match pgn {
            Some(pgn) => self.change(pgn, WholeMessage),
            None => {}
        }
    }

    /// Changes what came of the group that a number names.
    fn change<C: GroupChange<GroupCount>>(&mut self, pgn: Pgn, change: C)
        ensures { (step : Came → Came) → ((old new : GroupCount) → C.changes change old new
            → (c : Came) → HasCounted old c → HasCounted new (step c)) → (came : ℕ → Came) → HaveCounted self.old came
            → HaveCounted self.new (at_group (group_named (pgn_raw pgn)) step came) }
    {
        let at = group_in(pgn).place();
        self.counts.change(at, change);
    }

    /// What came of a group.
    #[inline(always)]
    pub fn count(&self, pgn: Pgn) -> &GroupCount
        requires { IsHeardGroup (pgn_raw pgn) }
        ensures { (came : ℕ → Came) → HaveCounted self.now came → HasCounted result.now (came (pgn_raw pgn)) }
    {
        self.counts.get(pgn.place())
    }
}

/// The group that a number names, without the destination that stands in its low byte where PF is below 240.
fn group_in(pgn: Pgn) -> Pgn
    ensures named { pgn_raw result ≡ group_named (pgn_raw pgn) }
    ensures heard { IsHeardGroup (pgn_raw result) }
{
    let raw = pgn.raw();
    if raw / 256 % 256 >= 240 {
        return pgn;
    }
    match Pgn::new(raw / 256 * 256) {
        Some(group) => group,
        None => pgn,
    }
}
