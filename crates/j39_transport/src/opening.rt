//! Announcements: the one place where memory is taken, before anything changes.
ghost use Rattle.std.specs.Prelude.{◌≡◌, ◌<◌, false, None, Some, IfOk, OnErr, MatchResult, slice_set};
ghost use Rattle.std.specs.Option.{is_some};
ghost use Rattle.j39_frame.specs.Address.{global_address};
ghost use Rattle.j39_frame.specs.Stamp.{stamp_micros};
ghost use Rattle.j39_memory.specs.Stored.{value_of};
ghost use Rattle.j39_transport.specs.Sessions.{at, find, stored_in};
ghost use Rattle.j39_transport.specs.AssemblerStep.{room, spare_left, with_announced};
ghost use Rattle.j39_transport.specs.SessionModel.{opened_by};

use crate::announcement::Announcement;
use crate::session::Session;
use crate::signal::Pair;
use crate::table::{PAIRS, SOURCES, SessionBox, Table};
use j39_frame::{GLOBAL_ADDRESS, Stamp};
use j39_memory::Stored;
use std::alloc::{AllocError, Global};

/// Takes out the session at a place, or else that last lent.
fn take_used<const N: usize>(
    table: &mut Table<N>,
    place: usize,
    lent: &mut SessionBox,
) -> SessionBox
    requires place { place < N }
    ensures table { table.new ≡ slice_set table.old place None }
    ensures spare { is_some (stored_in lent.new) ≡ spare_left (at table.old place) (is_some (stored_in lent.old)) }
    ensures none { stored_in result ≡ None
        → (at table.old place ≡ None) × (is_some (stored_in lent.old) ≡ false) }
{
    match table.take(place) {
        Some(session) => Some(session),
        None => lent.take(),
    }
}

/// Takes the session at a place, or that last lent, or memory for one, and begins it anew.
#[tactic(auto, using(crate::proofs::TableLemmas::set_same))]
fn take_box<const N: usize>(
    table: &mut Table<N>,
    place: usize,
    lent: &mut SessionBox,
    alloc: Global,
    pair: Pair,
    announcement: Announcement,
    stamp: Stamp,
) -> Result<Stored<Session>, AllocError>
    requires place { place < N }
    ensures value { IfOk result (λ b. value_of b ≡ opened_by pair.from pair.to announcement (stamp_micros stamp)) }
    ensures table { MatchResult result
        (λ _. table.new ≡ slice_set table.old place None)
        (λ _. table.new ≡ table.old) }
    ensures spare { MatchResult result
        (λ _. is_some (stored_in lent.new) ≡ spare_left (at table.old place) (is_some (stored_in lent.old)))
        (λ _. is_some (stored_in lent.new) ≡ is_some (stored_in lent.old)) }
    ensures lacked { OnErr result ((at table.old place ≡ None) × (is_some (stored_in lent.old) ≡ false)) }
{
    match take_used(table, place, lent) {
        Some(mut session) => {
            session.restart(pair, announcement, stamp);
            Ok(session)
        }
        None => boxed(alloc, pair, announcement, stamp),
    }
}

/// A session that is stored. Only here a whole buffer is written.
fn boxed(
    alloc: Global,
    pair: Pair,
    announcement: Announcement,
    stamp: Stamp,
) -> Result<Stored<Session>, AllocError>
    ensures { IfOk result (λ b. value_of b ≡ opened_by pair.from pair.to announcement (stamp_micros stamp)) }
{
    Ok(Stored::new(alloc, Session::new(pair, announcement, stamp))?)
}

/// Opens a broadcast, in place of that of its source.
#[tactic(auto, using(crate::proofs::TableLemmas::set_again))]
pub(crate) fn announce_broadcast(
    table: &mut Table<SOURCES>,
    source: u8,
    lent: &mut SessionBox,
    alloc: Global,
    announcement: Announcement,
    stamp: Stamp,
) -> Result<(), AllocError>
    requires { source < 254 }
    ensures table { MatchResult result
        (λ _. table.new
        ≡ slice_set table.old source (Some (opened_by source global_address announcement (stamp_micros stamp))))
        (λ _. table.new ≡ table.old) }
    ensures spare { MatchResult result
        (λ _. is_some (stored_in lent.new) ≡ spare_left (at table.old source) (is_some (stored_in lent.old)))
        (λ _. is_some (stored_in lent.new) ≡ is_some (stored_in lent.old)) }
    ensures lacked { OnErr result ((at table.old source ≡ None) × (is_some (stored_in lent.old) ≡ false)) }
{
    let place = usize::from(source);
    let pair = Pair {
        from: source,
        to: GLOBAL_ADDRESS,
    };
    let session = take_box(table, place, lent, alloc, pair, announcement, stamp)?;
    table.put(place, session);
    Ok(())
}

/// The place that an announcement leaves empty: that of its own pair, else the oldest.
fn room(found: Option<usize>) -> usize
    ensures { result ≡ room found }
{
    match found {
        Some(place) => place,
        None => PAIRS - 1,
    }
}

/// Opens a directed message, in place of that of its pair; the sixteenth oldest is left out.
pub(crate) fn announce_directed(
    table: &mut Table<PAIRS>,
    pair: Pair,
    lent: &mut SessionBox,
    alloc: Global,
    announcement: Announcement,
    stamp: Stamp,
) -> Result<(), AllocError>
    ensures table { MatchResult result
        (λ _. table.new
        ≡ with_announced pair.from pair.to (opened_by pair.from pair.to announcement (stamp_micros stamp)) table.old)
        (λ _. table.new ≡ table.old) }
    ensures spare { MatchResult result
        (λ _. is_some (stored_in lent.new)
        ≡ spare_left (at table.old (room (find pair.from pair.to table.old))) (is_some (stored_in lent.old)))
        (λ _. is_some (stored_in lent.new) ≡ is_some (stored_in lent.old)) }
    ensures lacked { OnErr result ((at table.old (room (find pair.from pair.to table.old)) ≡ None)
        × (is_some (stored_in lent.old) ≡ false)) }
{
    let place = room(table.find(pair.from, pair.to));
    let session = take_box(table, place, lent, alloc, pair, announcement, stamp)?;
    table.push(session);
    Ok(())
}
