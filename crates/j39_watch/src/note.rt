//! What is heard at a frame, noted.
ghost use Rattle.std.specs.Prelude.{◌≡◌, ◌∷◌, ℕ, ◌≤◌, ◌<◌, ◌||◌, ◌++◌, [], not, List, None, IfOk, OnErr, OnOk, length, true};
ghost use Rattle.j39_frame.specs.Frame.{FrameRecord};
ghost use Rattle.j39_frame.specs.Identifier.{pgn_of};
ghost use Rattle.j39_groups.specs.Readings.{is_reported_in};
ghost use Rattle.j39_listen.specs.Chooses.{Chooses};
ghost use Rattle.j39_listen.specs.Filter.{FilterRecord, first_stamp, in_time, is_in_time, takes_message};
ghost use Rattle.j39_listen.specs.Heard.{AreHeard, AreHeardWith, Hearing};
ghost use Rattle.j39_listen.specs.HeardModel.{hearing_of};
ghost use Rattle.j39_listen.specs.Listening.{Hears};
ghost use Rattle.j39_listen.specs.Report.{Entry};
ghost use Rattle.j39_memory.specs.ByOrigin.{pairs_of};
ghost use Rattle.j39_fault_reports.specs.CurrentPlaces.{at};
ghost use Rattle.j39_fault_reports.specs.CurrentSoFar.{AreKept};
ghost use Rattle.j39_fault_reports.specs.Spoken.{active_among, is_active_message};
ghost use Rattle.j39_watch.specs.LatestSoFar.{AreLatest};
ghost use Rattle.j39_fault_reports.specs.News.{is_fault_group};
ghost use Rattle.j39_watch.specs.NotesSoFar.{Notes, WantsOne, if_counts};
ghost use Rattle.j39_watch.specs.Watch.{AsksForWatch, entries_asked};

use crate::values::Values;
use j39_fault_reports::{LastActives, is_of_fault_group, take_heard};
use j39_frame::Frame;
use j39_groups::Groups;
use j39_listen::{Chooser, Heard, Listener, Roles};
use std::alloc::{AllocError, Global};

/// Notes what is heard at a frame, and answers how many messages that is whose values may be shown. Most frames are of
/// groups that nobody hears: those are done with here, and leave all as it was.
#[inline(always)]
pub(crate) fn note<'t>(
    listener: &mut Listener,
    places: &mut LastActives,
    values: &mut Values<'t>,
    roles: &mut Roles<'_, 't>,
    chooser: &Chooser<'_>,
    frame: &Frame,
) -> Result<u64, AllocError>
    ensures noted { IfOk result (λ messages. (which : FilterRecord) (F : List FrameRecord) (before : List Entry) (ms : List Hearing)
        → Hears listener.old F → Chooses which chooser.now (F ++ frame.now ∷ [])
        → AreLatest (pairs_of values.old.rows) before → AreKept [] places.old ms
        → Notes roles.old.groups.now which F frame.now listener.new values.new places.new before ms messages) }
    ensures asked { OnErr result ((which : FilterRecord) (F : List FrameRecord) (heard faults : List Hearing) → Hears listener.old F
        → Chooses which chooser.now (F ++ frame.now ∷ []) → AreHeard roles.old.groups.now F heard
        → AreLatest (pairs_of values.old.rows) (entries_asked roles.old.groups.now which (first_stamp F) heard)
        → AreHeardWith is_fault_group F faults
        → AreKept [] places.old (in_time which (first_stamp (F ++ frame.now ∷ [])) (active_among faults))
        → AsksForWatch roles.old.groups.now which F frame.now) }
    ensures table { roles.new.groups ≡ roles.old.groups }
{
    let groups = roles.groups;
    let role = roles.of(frame.id);
    let is_fault = is_of_fault_group(frame.id);
    if !is_either(role.is_heard, is_fault) {
        return Ok(0);
    }
    note_heard(
        listener,
        places,
        values,
        groups,
        chooser,
        role.is_single,
        is_fault,
        frame,
    )
}

/// The same of a frame at which a message may be heard: of which of both kinds its group is, the caller says.
#[inline(never)]
fn note_heard<'t>(
    listener: &mut Listener,
    places: &mut LastActives,
    values: &mut Values<'t>,
    groups: &Groups<'t>,
    chooser: &Chooser<'_>,
    is_reported: bool,
    is_fault: bool,
    frame: &Frame,
) -> Result<u64, AllocError>
    requires reported { is_reported ≡ is_reported_in groups.now (pgn_of frame.now.id) }
    requires fault { is_fault ≡ is_fault_group (pgn_of frame.now.id) }
    ensures noted { IfOk result (λ messages. (which : FilterRecord) (F : List FrameRecord) (before : List Entry) (ms : List Hearing)
        → Hears listener.old F → Chooses which chooser.now (F ++ frame.now ∷ [])
        → AreLatest (pairs_of values.old.rows) before → AreKept [] places.old ms
        → Notes groups.now which F frame.now listener.new values.new places.new before ms messages) }
    ensures asked { OnErr result ((which : FilterRecord) (F : List FrameRecord) (heard faults : List Hearing) → Hears listener.old F
        → Chooses which chooser.now (F ++ frame.now ∷ []) → AreHeard groups.now F heard
        → AreLatest (pairs_of values.old.rows) (entries_asked groups.now which (first_stamp F) heard)
        → AreHeardWith is_fault_group F faults
        → AreKept [] places.old (in_time which (first_stamp (F ++ frame.now ∷ [])) (active_among faults))
        → AsksForWatch groups.now which F frame.now) }
{
    match listener.feed_as(is_either(is_reported, is_fault), frame) {
        Err(AllocError) => Err(AllocError),
        Ok(None) => Ok(0),
        Ok(Some(heard)) => {
            let has_faults = is_either(is_fault, !is_reported);
            let has_values = is_either(is_reported, !is_fault);
            let is_timely = chooser.is_in_time(heard.message.stamp);
            let is_taken = chooser.takes(&heard);
            match note_fault(values.alloc, has_faults, is_timely, &heard, places) {
                Err(AllocError) => Err(AllocError),
                Ok(()) => note_values(groups, has_values, is_taken, &heard, values),
            }
        }
    }
}

fn is_either(one: bool, other: bool) -> bool
    ensures { result ≡ (one || other) }
{
    one || other
}

/// Notes a message of faults, if it counts as one and came between the moments.
#[inline(always)]
fn note_fault(
    alloc: Global,
    counts: bool,
    is_timely: bool,
    heard: &Heard<'_>,
    places: &mut LastActives,
) -> Result<(), AllocError>
    requires { length heard.now.message.payload.now ≤ 1785 }
    ensures kept { OnOk result ((which : FilterRecord) (first : ℕ) (ms : List Hearing)
        → is_timely ≡ is_in_time which first (hearing_of heard.now).stamp → AreKept [] places.old ms
        → AreKept [] places.new (ms ++ in_time which first (active_among (if_counts counts (hearing_of heard.now))))) }
    ensures asked { OnErr result ((counts ≡ true) × (is_active_message (hearing_of heard.now) ≡ true) × (is_timely ≡ true)
        × (at places.old heard.now.message.source ≡ None)) }
    ensures fits { OnErr result (heard.now.message.source < 256) }
{
    if !counts {
        return Ok(());
    }
    match take_heard(alloc, &heard.again(), is_timely, &[], places) {
        Ok(_) => Ok(()),
        Err(AllocError) => Err(AllocError),
    }
}

/// Notes the values of a message, if it counts as one that has some and is taken, and answers how many messages count.
fn note_values<'t>(
    groups: &Groups<'t>,
    counts: bool,
    is_taken: bool,
    heard: &Heard<'_>,
    values: &mut Values<'t>,
) -> Result<u64, AllocError>
    ensures counted { IfOk result (λ messages. messages ≡ length (if_counts counts (hearing_of heard.now))) }
    ensures noted { OnOk result ((which : FilterRecord) (first : ℕ) (before : List Entry)
        → is_taken ≡ takes_message which first (hearing_of heard.now) → AreLatest (pairs_of values.old.rows) before
        → AreLatest (pairs_of values.new.rows)
        (before ++ entries_asked groups.now which first (if_counts counts (hearing_of heard.now)))) }
    ensures asked { OnErr result ((counts ≡ true) × (is_taken ≡ true) × ((before : List Entry) → AreLatest (pairs_of values.old.rows) before
        → WantsOne groups.now before (hearing_of heard.now))) }
{
    if !counts {
        return Ok(0);
    }
    if !is_taken {
        return Ok(1);
    }
    values.begin(heard);
    match groups.visit(heard.message.pgn, heard.message.payload, values, &mut ()) {
        Ok(()) => Ok(1),
        Err(AllocError) => Err(AllocError),
    }
}
