//! Packets, handed to the open messages that they are of.
ghost use Rattle.std.specs.Prelude.{◌≡◌, ◌<◌, ◌≤◌, ◌||◌, ℕ, length, slice_set};
ghost use Rattle.std.specs.Option.{is_some};
ghost use Rattle.j39_frame.specs.Stamp.{stamp_micros};
ghost use Rattle.j39_memory.specs.Stored.{value_of};
ghost use Rattle.j39_transport.specs.Protocol.{directed_limit};
ghost use Rattle.j39_transport.specs.Sessions.{at, stored_in, find};
ghost use Rattle.j39_transport.specs.AssemblerStep.{is_whole, moves, packed, told, told_at, with_place};
ghost use Rattle.j39_transport.specs.AssemblerModel.{shown_move, IsMove, outcome_by, CanLend};

use crate::protocol::DIRECTED_LIMIT;
use crate::session::Session;
use crate::signal::Pair;
use crate::table::{PAIRS, SessionBox, Table};
use j39_frame::Stamp;
use j39_memory::Stored;

/// What a frame was to the open messages.
#[derive(Clone, Copy)]
pub(crate) enum Accepted {
    Whole,
    Taken,
    Ignored,
}

/// What a packet made of a session.
#[derive(Drop)]
pub(crate) enum Moved {
    Ends(Stored<Session>),
    Grows(Stored<Session>),
    Stays(Stored<Session>),
    Late,
}

/// The session after the packet of this number and bytes.
#[tactic(auto, unfolding(crate::specs::AssemblerStep::moves))]
fn after_packet(
    mut session: Stored<Session>,
    limit: u64,
    number: u8,
    bytes: &[u8],
    stamp: Stamp,
) -> Moved
    requires limit { limit ≤ directed_limit }
    requires seven { length bytes.now ≡ 7 }
    requires open { (value_of session).count < (value_of session).packets }
    ensures value { shown_move result
        ≡ moves limit number bytes.now (stamp_micros stamp) (value_of session) }
    ensures moved { IsMove result }
{
    if stamp.micros() > session.last().micros() + limit {
        return Moved::Late;
    }
    if u16::from(number) == u16::from(session.count()) + 1 {
        session.append(bytes, stamp);
        if session.count() == session.packets() {
            Moved::Ends(session)
        } else {
            Moved::Grows(session)
        }
    } else {
        session.touch(stamp);
        Moved::Stays(session)
    }
}

/// Hands a packet to the session at a place. A message that is whole stands in `lent` then.
#[tactic(auto, using(crate::proofs::TableLemmas::set_again, crate::proofs::TableLemmas::set_same))]
pub(crate) fn take_packet<const N: usize>(
    table: &mut Table<N>,
    place: usize,
    lent: &mut SessionBox,
    limit: u64,
    number: u8,
    bytes: &[u8],
    stamp: Stamp,
) -> Accepted
    requires place { place < N }
    requires limit { limit ≤ directed_limit }
    requires seven { length bytes.now ≡ 7 }
    ensures table { table.new ≡ slice_set table.old place
        (packed limit number bytes.now (stamp_micros stamp) (at table.old place)) }
    ensures lends { CanLend result (stored_in lent.new) }
    ensures told { (source : ℕ)
        → outcome_by result source (stamp_micros stamp) (stored_in lent.new)
        ≡ told source limit number bytes.now (stamp_micros stamp) (at table.old place) }
    ensures spare { is_some (stored_in lent.new)
        ≡ is_whole (told 0 limit number bytes.now (stamp_micros stamp) (at table.old place))
        || is_some (stored_in lent.old) }
{
    let Some(session) = table.take(place) else {
        return Accepted::Ignored;
    };
    match after_packet(session, limit, number, bytes, stamp) {
        Moved::Ends(session) => {
            *lent = Some(session);
            Accepted::Whole
        }
        Moved::Grows(session) => {
            table.put(place, session);
            Accepted::Taken
        }
        Moved::Stays(session) => {
            table.put(place, session);
            Accepted::Ignored
        }
        Moved::Late => Accepted::Ignored,
    }
}

/// Hands a packet to the session from one address to another.
pub(crate) fn take_directed_packet(
    table: &mut Table<PAIRS>,
    pair: Pair,
    lent: &mut SessionBox,
    number: u8,
    bytes: &[u8],
    stamp: Stamp,
) -> Accepted
    requires { length bytes.now ≡ 7 }
    ensures table { table.new ≡ with_place (find pair.from pair.to table.old)
        (packed directed_limit number bytes.now (stamp_micros stamp)) table.old }
    ensures lends { CanLend result (stored_in lent.new) }
    ensures told { (from : ℕ)
        → outcome_by result from (stamp_micros stamp) (stored_in lent.new)
        ≡ told_at (find pair.from pair.to table.old)
        (told from directed_limit number bytes.now (stamp_micros stamp)) table.old }
    ensures spare { is_some (stored_in lent.new)
        ≡ is_whole (told_at (find pair.from pair.to table.old)
        (told 0 directed_limit number bytes.now (stamp_micros stamp)) table.old) || is_some (stored_in lent.old) }
{
    match table.find(pair.from, pair.to) {
        Some(place) => take_packet(table, place, lent, DIRECTED_LIMIT, number, bytes, stamp),
        None => Accepted::Ignored,
    }
}
