//! What a receiver says to an open message, and aborts.
ghost use Rattle.std.specs.Prelude.{◌≡◌};
ghost use Rattle.j39_frame.specs.Stamp.{stamp_micros};
ghost use Rattle.j39_transport.specs.Sessions.{find};
ghost use Rattle.j39_transport.specs.AssemblerStep.{granted, finished, with_place};

use crate::protocol::DIRECTED_LIMIT;
use crate::signal::Pair;
use crate::table::{PAIRS, Table};
use j39_frame::Stamp;

/// Hands a CTS to the session that it lets go on.
#[tactic(auto, unfolding(crate::specs::AssemblerStep::granted), using(crate::proofs::TableLemmas::set_again, crate::proofs::TableLemmas::set_same))]
pub(crate) fn grant(table: &mut Table<PAIRS>, pair: Pair, group: u32, stamp: Stamp)
    ensures { table.new
        ≡ with_place (find pair.from pair.to table.old) (granted group (stamp_micros stamp)) table.old }
{
    let Some(place) = table.find(pair.from, pair.to) else {
        return;
    };
    let Some(mut session) = table.take(place) else {
        return;
    };
    if session.pgn().raw() == group {
        if stamp.micros() > session.last().micros() + DIRECTED_LIMIT {
            return;
        }
        session.touch(stamp);
    }
    table.put(place, session);
}

/// Ends the session of this group from one address to another.
#[tactic(auto, unfolding(crate::specs::AssemblerStep::finished, crate::specs::AssemblerStep::closed), using(crate::proofs::TableLemmas::set_again, crate::proofs::TableLemmas::set_same))]
pub(crate) fn finish(table: &mut Table<PAIRS>, pair: Pair, group: u32)
    ensures { table.new ≡ finished pair.from pair.to group table.old }
{
    let Some(place) = table.find(pair.from, pair.to) else {
        return;
    };
    let Some(session) = table.take(place) else {
        return;
    };
    if session.pgn().raw() != group {
        table.put(place, session);
    }
}
