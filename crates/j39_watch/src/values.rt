//! The last values of all origins.
ghost use Rattle.std.specs.Prelude.{◌≡◌, ◌++◌, ◌∷◌, [], None, OnErr, OnOk, List};
ghost use Rattle.j39_frame.specs.Origin.{place_in};
ghost use Rattle.j39_frame.specs.Stamp.{stamp_micros};
ghost use Rattle.j39_groups.specs.Models.{value_of};
ghost use Rattle.j39_listen.specs.HeardModel.{hearing_of};
ghost use Rattle.j39_listen.specs.Report.{Entry};
ghost use Rattle.j39_memory.specs.ByOrigin.{pairs_of};
ghost use Rattle.j39_watch.specs.LatestSoFar.{AreLatest, HasFollowedMessage};
ghost use Rattle.j39_reports.specs.MessageHeads.{origin_in};
ghost use Rattle.j39_reports.specs.RowModels.{entry_at};
ghost use Rattle.j39_reports.specs.SummaryRun.{WantsRow};

use crate::latest::{Latest, NextValue};
use j39_frame::{Origin, Stamp};
use j39_groups::{ReadingVisitor, Value};
use j39_listen::Heard;
use j39_memory::ByOrigin;
use j39_reports::{Guesses, MessageHead};
use std::alloc::{AllocError, Global};

/// The last values by their origins, in the order of their first values; where the last ones stand; and what the readings of
/// a message have in common.
#[derive(Drop)]
pub(crate) struct Values<'t> {
    pub rows: ByOrigin<Latest<'t>>,
    guesses: Guesses,
    pub alloc: Global,
    head: MessageHead,
}

impl<'t> Values<'t> {
    /// No values.
    pub fn new(alloc: Global) -> Values<'t>
        ensures { AreLatest (pairs_of result.rows) [] }
    {
        Values {
            rows: ByOrigin::new(alloc),
            guesses: Guesses::new(),
            alloc,
            head: MessageHead::new(),
        }
    }

    /// Takes what the readings of a message have in common.
    #[inline(always)]
    pub fn begin(&mut self, heard: &Heard<'_>)
        ensures { (before : List Entry) → AreLatest (pairs_of self.old.rows) before
            → HasFollowedMessage (record { before = before; hearing = hearing_of heard.now }) self.new [] }
    {
        self.head = MessageHead::of(heard);
    }
}

/// Takes a value to its row, which stands at this place if there is one.
#[inline(always)]
fn take<'t>(
    rows: &mut ByOrigin<Latest<'t>>,
    alloc: Global,
    place: Option<usize>,
    origin: Origin,
    stamp: Stamp,
    value: Value<'t, '_>,
) -> Result<(), AllocError>
    requires { place ≡ place_in (pairs_of rows.old) origin }
    ensures taken { OnOk result ((before : List Entry) → AreLatest (pairs_of rows.old) before
        → AreLatest (pairs_of rows.new) (before ++ entry_at origin (stamp_micros stamp) (value_of value.entry) ∷ [])) }
    ensures wanted { OnErr result ((before : List Entry) → AreLatest (pairs_of rows.old) before
        → WantsRow before (entry_at origin (stamp_micros stamp) (value_of value.entry))) }
{
    match place {
        Some(at) => rows.change(
            at,
            NextValue {
                alloc,
                stamp,
                value,
            },
        ),
        None => add(rows, alloc, origin, stamp, value),
    }
}

/// Begins a row.
#[inline(never)]
fn add<'t>(
    rows: &mut ByOrigin<Latest<'t>>,
    alloc: Global,
    origin: Origin,
    stamp: Stamp,
    value: Value<'t, '_>,
) -> Result<(), AllocError>
    requires { place_in (pairs_of rows.old) origin ≡ None }
    ensures { OnOk result ((before : List Entry) → AreLatest (pairs_of rows.old) before
        → AreLatest (pairs_of rows.new) (before ++ entry_at origin (stamp_micros stamp) (value_of value.entry) ∷ [])) }
{
    let latest = Latest::begin(alloc, stamp, value)?;
    rows.add(origin, latest)
}

/// Takes a value to its row wherever that stands, off the quick path.
#[inline(never)]
fn take_elsewhere<'t>(
    rows: &mut ByOrigin<Latest<'t>>,
    guesses: &mut Guesses,
    alloc: Global,
    head: &MessageHead,
    spn: u32,
    value: Value<'t, '_>,
) -> Result<(), AllocError>
    ensures taken { OnOk result ((before : List Entry) → AreLatest (pairs_of rows.old) before
        → AreLatest (pairs_of rows.new)
        (before ++ entry_at (origin_in head.now spn) (stamp_micros head.now.stamp) (value_of value.entry) ∷ [])) }
    ensures wanted { OnErr result ((before : List Entry) → AreLatest (pairs_of rows.old) before
        → WantsRow before (entry_at (origin_in head.now spn) (stamp_micros head.now.stamp) (value_of value.entry))) }
{
    let origin = head.origin(spn);
    let place = guesses.place_of(rows, origin);
    take(rows, alloc, place, origin, head.stamp, value)
}

impl<'t> ReadingVisitor<'t, ()> for Values<'t> {
    ghost use Rattle.j39_watch.specs.LatestSoFar.{Behind, HasFollowedMessage, WantsRoomAt};

    type Fault = AllocError;

    ghost Subject = { Behind };

    ghost has_taken = { λ message values medium. HasFollowedMessage message values };

    ghost has_stopped = { λ message before at values medium. WantsRoomAt message before at };

    #[inline(always)]
    fn visit(&mut self, spn: u32, value: Value<'t, '_>, _: &mut ()) -> Result<(), AllocError> {
        let origin = self.head.origin(spn);
        match self.guesses.known_place(&self.rows, origin) {
            Some(place) => {
                let stamp = self.head.stamp;
                take(
                    &mut self.rows,
                    self.alloc,
                    Some(place),
                    origin,
                    stamp,
                    value,
                )
            }
            None => take_elsewhere(
                &mut self.rows,
                &mut self.guesses,
                self.alloc,
                &self.head,
                spn,
                value,
            ),
        }
    }

    /// Nothing is shown of what is not available.
    #[inline(always)]
    fn visit_absent(&mut self, _: u32, _: &mut ()) -> Result<(), AllocError> {
        Ok(())
    }
}
