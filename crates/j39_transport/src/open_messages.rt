//! All open messages.
ghost use Rattle.std.specs.Prelude.{◌≡◌, ◌≤◌, ◌*◌, ◌+◌, ◌||◌, ℕ, length, IfOk, OnErr, MatchResult};
ghost use Rattle.std.specs.Option.{is_some};
ghost use Rattle.j39_frame.specs.Address.{IsAddress};
ghost use Rattle.j39_frame.specs.Stamp.{stamp_micros};
ghost use Rattle.j39_transport.specs.Frames.{source_of};
ghost use Rattle.j39_transport.specs.Key.{key_between};
ghost use Rattle.j39_transport.specs.Sessions.{stored_in};
ghost use Rattle.j39_transport.specs.Signals.{said_by};
ghost use Rattle.j39_transport.specs.AssemblerStep.{after_packet, answer_to_packet, state_after, answer, state_without, without_broadcast, empty_state, spare_after, is_whole, LacksBox, messages_open, bytes_held};
ghost use Rattle.j39_transport.specs.AssemblerModel.{outcome_by, CanLend};

use crate::control::{finish, grant};
use crate::opening::{announce_broadcast, announce_directed};
use crate::packet::{Accepted, take_directed_packet, take_packet};
use crate::protocol::BROADCAST_LIMIT;
use crate::signal::{self, Pair, Signal};
use crate::table::{PAIRS, SOURCES, SessionBox, Table};
use j39_frame::{Frame, GLOBAL_ADDRESS, Stamp};
use std::alloc::{AllocError, Global};
use std::marker::Model;

/// All open messages: broadcasts by their source, and directed messages by how many directed
/// announcements came since their own.
#[derive(Drop)]
pub(crate) struct OpenMessages {
    broadcasts: Table<SOURCES>,
    directed: Table<PAIRS>,
}

impl Model for OpenMessages {
    ghost use Rattle.j39_transport.specs.AssemblerStep.{OpenMessagesRecord};

    ghost Value = { OpenMessagesRecord };

    ghost view = { λ s. record { broadcasts = s.broadcasts; directed = s.directed } };
}

impl OpenMessages {
    pub(crate) fn new() -> OpenMessages
        ensures { result ≡ empty_state }
    {
        OpenMessages {
            broadcasts: Table::new(),
            directed: Table::new(),
        }
    }

    /// Takes what a frame says. A message that is whole stands in `lent` then.
    #[tactic(auto, unfolding(crate::specs::AssemblerStep::state_after, crate::specs::AssemblerStep::answer, crate::specs::AssemblerStep::spare_after))]
    pub(crate) fn accept(
        &mut self,
        lent: &mut SessionBox,
        alloc: Global,
        frame: &Frame,
    ) -> Result<Accepted, AllocError>
        ensures answer { IfOk result (λ a.
            outcome_by a (source_of frame.now.id) frame.now.stamp (stored_in lent.new)
            ≡ answer self.old frame.now (said_by frame.now)) }
        ensures lends { IfOk result (λ a. CanLend a (stored_in lent.new)) }
        ensures lacked { OnErr result (LacksBox self.old (is_some (stored_in lent.old)) frame.now (said_by frame.now)) }
        ensures after { MatchResult result
            (λ _. self.new ≡ state_after self.old frame.now (said_by frame.now))
            (λ _. self.new ≡ self.old) }
        ensures spare { MatchResult result
            (λ _. is_some (stored_in lent.new)
            ≡ spare_after self.old (is_some (stored_in lent.old)) frame.now (said_by frame.now))
            (λ _. is_some (stored_in lent.new) ≡ is_some (stored_in lent.old)) }
    {
        let pair = Pair::of(frame);
        let stamp = frame.stamp;
        match signal::read(frame) {
            None => Ok(Accepted::Ignored),
            Some(Signal::BroadcastAnnounce(announcement)) => {
                announce_broadcast(
                    &mut self.broadcasts,
                    pair.from,
                    lent,
                    alloc,
                    announcement,
                    stamp,
                )?;
                Ok(Accepted::Taken)
            }
            Some(Signal::RequestToSend(announcement, _)) => {
                announce_directed(&mut self.directed, pair, lent, alloc, announcement, stamp)?;
                Ok(Accepted::Taken)
            }
            Some(Signal::ClearToSend(_, _, group)) => {
                grant(&mut self.directed, pair.back(), group, stamp);
                Ok(Accepted::Ignored)
            }
            Some(Signal::Acknowledgment(_, _, group)) => {
                finish(&mut self.directed, pair.back(), group);
                Ok(Accepted::Ignored)
            }
            Some(Signal::Abort(_, group)) => {
                finish(&mut self.directed, pair.back(), group);
                finish(&mut self.directed, pair, group);
                Ok(Accepted::Ignored)
            }
            Some(Signal::Packet(number, part)) => {
                let accepted = self.take_packet(lent, pair, number, &part, stamp);
                Ok(accepted)
            }
        }
    }

    #[tactic(auto, unfolding(crate::specs::Key::key_between))]
    fn take_packet(
        &mut self,
        lent: &mut SessionBox,
        pair: Pair,
        number: u8,
        bytes: &[u8],
        stamp: Stamp,
    ) -> Accepted
        requires address { IsAddress pair.from }
        requires seven { length bytes.now ≡ 7 }
        ensures after { self.new
            ≡ after_packet self.old (stamp_micros stamp) (key_between pair.from pair.to) number bytes.now }
        ensures lends { CanLend result (stored_in lent.new) }
        ensures answer { (from : ℕ)
            → outcome_by result from (stamp_micros stamp) (stored_in lent.new)
            ≡ answer_to_packet self.old from (stamp_micros stamp) (key_between pair.from pair.to) number bytes.now }
        ensures spare { is_some (stored_in lent.new)
            ≡ is_whole (answer_to_packet self.old 0 (stamp_micros stamp) (key_between pair.from pair.to)
            number bytes.now)
            || is_some (stored_in lent.old) }
    {
        if pair.to == GLOBAL_ADDRESS {
            let place = usize::from(pair.from);
            take_packet(
                &mut self.broadcasts,
                place,
                lent,
                BROADCAST_LIMIT,
                number,
                bytes,
                stamp,
            )
        } else {
            take_directed_packet(&mut self.directed, pair, lent, number, bytes, stamp)
        }
    }

    /// Ends all messages.
    pub(crate) fn clear(&mut self)
        ensures { self.new ≡ empty_state }
    {
        self.broadcasts.clear();
        self.directed.clear();
    }

    /// Ends all messages of a source.
    pub(crate) fn forget(&mut self, source: u8)
        ensures { self.new ≡ state_without self.old source }
    {
        forget_broadcast(&mut self.broadcasts, source);
        self.directed.forget(source);
    }

    /// How many messages are open.
    pub(crate) fn open(&self) -> usize
        ensures value { result ≡ messages_open self.now }
        ensures few { result ≤ 270 }
    {
        self.broadcasts.open() + self.directed.open()
    }

    /// Seven bytes for each packet appended in an open message.
    pub(crate) fn held(&self) -> usize
        ensures value { result ≡ bytes_held self.now }
        ensures bounded { result ≤ 1785 * messages_open self.now }
    {
        self.broadcasts.held() + self.directed.held()
    }
}

/// Ends the broadcast of a source.
#[tactic(auto, unfolding(crate::specs::AssemblerStep::without_broadcast))]
fn forget_broadcast(table: &mut Table<SOURCES>, source: u8)
    ensures { table.new ≡ without_broadcast source table.old }
{
    let place = usize::from(source);
    if place < SOURCES {
        let _dropped = table.take(place);
    }
}
