//! The frames of a controller, in the order in which they go.
ghost use Rattle.std.specs.Prelude.{true, ◌≡◌, Option, List, ◌∷◌, ◌&&◌, ◌||◌, ◌==◌, ◌+◌, nat_eq, nat_le, not, if◌then◌else◌, Some, None, length, ◌<◌, false};
ghost use Rattle.std.specs.List.{slice_get};
ghost use Rattle.std.specs.Option.{option_map};
ghost use Rattle.j39_frame.specs.Address.{null_address};
ghost use Rattle.j39_frame.specs.Stamp.{stamp_micros};
ghost use Rattle.j39_node.specs.History.{Who, Call, is_left, nothing, content};
ghost use Rattle.j39_node.specs.Reception.{replies_of};
ghost use Rattle.j39_node.specs.Transfers.{carried_by, clock};
ghost use Rattle.j39_transfers.specs.Transfers.{said};
ghost use Rattle.j39_node.specs.Hold.{lost, stands};
ghost use Rattle.j39_node.specs.History.Call.{At};
ghost use Rattle.j39_node.specs.History.Act.{TakeFrame};
ghost use Rattle.j39_node.specs.Is.{Is, IsOthers, next_claims_request, lane_of, next_frame, packet_by, posted, stamped, who_of, port_of, incoming_of, is_apart, is_turn, ready_in, turn_frame, turn_of};

use crate::asking;
use crate::controller::Controller;
use crate::hold::{Hold, SLACK};
use crate::outgoing::past;
use crate::requests::Due;
use crate::turn::{Turn, is_that};
use j39_frame::{Frame, GLOBAL_ADDRESS, NULL_ADDRESS, Stamp};

impl Controller {
    /// The frame that `take_frame` would give now: for a driver whose queue may be full, which takes it once it lies there.
    pub fn peek_frame(&self, now: Stamp) -> Option<Frame>
        ensures { (w : Who) (H : List Call) → Is w H self.now
            → option_map stamped result ≡ next_frame w H (stamp_micros now) }
    {
        let hold = self.hold.passed(now);
        let gives_way = self.gives_way(hold, now);
        if hold.claims(gives_way) {
            let address = self.claim_address();
            return self.own.claim(address, now);
        }
        if !hold.is_held() {
            return None;
        }
        match self.first_due(gives_way) {
            Some(due) => self.own.acknowledgment(due, now),
            None => self.peek_other(hold, now),
        }
    }

    /// The frame that goes out now; by this it is sent. `None` where nothing is due.
    // Written out where a program calls it, since a frame that is handed over in memory costs 100 instructions.
    #[inline(always)]
    pub fn take_frame(&mut self, now: Stamp) -> Option<Frame>
        ensures { (w : Who) (H : List Call) → Is w H self.old → Is w (At (stamp_micros now) (TakeFrame result) ∷ H) self.new }
    {
        let hold = self.hold.passed(now);
        let gives_way = self.gives_way(hold, now);
        if hold.claims(gives_way) {
            let address = self.claim_address();
            self.hold = hold.claimed();
            let claim = self.own.claim(address, now)?;
            self.incoming.note(&mut self.holders, &claim);
            self.incoming.call(Some(address), now);
            let clock = hold.clock();
            self.transfers.all.leave(None, &self.holders, clock);
            let breaks = self.hearing.leave(None, &self.holders, self.incoming.clock);
            self.news = self.news.with_missed(breaks);
            return Some(claim);
        }
        if !hold.is_held() {
            self.hold = hold;
            return None;
        }
        if self.is_acknowledgment_due(gives_way) {
            self.hold = hold.acknowledged();
            return self.own.acknowledgment(&self.desk.due.remove(0), now);
        }
        self.take_other(hold, now)
    }

    /// The same, beside claims and acknowledgments, by the hold that was led to this moment.
    #[inline(always)]
    fn take_other(&mut self, hold: Hold, now: Stamp) -> Option<Frame>
        ensures { (w : Who) (H : List Call) → Is w H self.old → IsOthers w H (stamp_micros now) hold
            → Is w (At (stamp_micros now) (TakeFrame result) ∷ H) self.new }
    {
        self.hold = hold;
        match self.turn(hold, now)? {
            Turn::Reply => {
                self.hold = hold.spoken();
                self.incoming.take_frame(now)
            }
            Turn::Single => {
                let next = self.outgoing.as_slice().get(self.taken)?;
                let frame = next.frame(now);
                let is_request = self.asking.take(next.token);
                self.incoming.call(next.asks_whom(), now);
                self.hold = hold.asked(is_request);
                self.taken = past(self.outgoing.as_slice(), self.taken + 1);
                frame
            }
            Turn::Packet => {
                let packet = self.lane.frame(&self.own, hold.pause, now)?;
                self.lane.count += 1;
                self.hold = hold.paused();
                Some(packet)
            }
            Turn::Move => {
                let clock = hold.clock();
                let frame = self.transfers.frame(clock, now)?;
                self.transfers.all.drop_frame(clock);
                self.hold = hold.went();
                Some(frame)
            }
        }
    }

    /// A request for the claims of all (255), or of an address, from the null address: where no address is held, it may go at any
    /// moment, before the first claim too (J1939-81, 4.2.1). `None` where one is held, or for 254. What answers it is heard as any
    /// claim is; then `free_address` tells where to move.
    pub fn claims_request(&self, now: Stamp, to: u8) -> Option<Frame>
        ensures { (w : Who) (H : List Call) → Is w H self.now
            → option_map stamped result ≡ next_claims_request w H (stamp_micros now) to }
    {
        let is_held = self.hold.passed(now).is_held();
        if !is_held && (to == GLOBAL_ADDRESS || to < NULL_ADDRESS) {
            asking::claims_request(to, now)
        } else {
            None
        }
    }

    /// The frame that goes next, beside claims and acknowledgments.
    fn peek_other(&self, hold: Hold, now: Stamp) -> Option<Frame>
        ensures { option_map stamped result ≡ option_map (λ m. (stamp_micros now, m))
            (turn_frame (turn_of hold.yields (ready_in self.now hold)) (slice_get (replies_of (incoming_of self.now.incoming).reception) 0)
            (option_map posted (slice_get self.now.outgoing.items self.now.taken))
            (packet_by (lane_of (who_of nothing self.now.own) self.now.lane).current self.now.lane.count hold.pause)
            (option_map carried_by (said (clock hold.age) (port_of self.now.transfers).state))) }
    {
        match self.turn(hold, now)? {
            Turn::Reply => self.incoming.frame(now),
            Turn::Single => self.peek_message(now),
            Turn::Packet => self.lane.frame(&self.own, hold.pause, now),
            Turn::Move => self.transfers.frame(hold.clock(), now),
        }
    }

    /// The frame of the first message that wasn't taken.
    fn peek_message(&self, now: Stamp) -> Option<Frame>
        ensures { option_map stamped result ≡ option_map (λ m. (stamp_micros now, m))
            (option_map content (option_map posted (slice_get self.now.outgoing.items self.now.taken))) }
    {
        match self.outgoing.as_slice().get(self.taken) {
            Some(next) => next.frame(now),
            None => None,
        }
    }

    /// What goes next, beside claims and acknowledgments: an overdue frame of the open broadcast, a reply, unless it yields, a message, a
    /// frame of that broadcast, one of a transfer.
    // A transfer's frame is made to see whether it is due, so it is asked for last.
    fn turn(&self, hold: Hold, now: Stamp) -> Option<Turn>
        ensures { result ≡ turn_of hold.yields (ready_in self.now hold) }
    {
        let is_left = self.lane.is_left();
        if is_left && hold.pause == 0 {
            return Some(Turn::Packet);
        }
        let replies = self.incoming.has_reply();
        if replies && !hold.yields {
            return Some(Turn::Reply);
        }
        if self.taken < self.outgoing.len() {
            return Some(Turn::Single);
        }
        if is_left && hold.pause <= SLACK {
            return Some(Turn::Packet);
        }
        if self.sends_apart(hold, now) {
            return Some(Turn::Move);
        }
        if replies { Some(Turn::Reply) } else { None }
    }

    /// A frame of a transfer is due, and isn't the very frame that the first reply is.
    fn sends_apart(&self, hold: Hold, now: Stamp) -> bool
        ensures { result ≡ is_apart (option_map carried_by (said (clock hold.age) (port_of self.now.transfers).state))
            (slice_get (replies_of (incoming_of self.now.incoming).reception) 0) }
    {
        let frame = self.transfers.frame(hold.clock(), now);
        let reply = self.incoming.frame(now);
        match (frame, reply) {
            (None, _) => false,
            (Some(_), None) => true,
            (Some(frame), Some(reply)) => !is_that(&frame, &reply),
        }
    }

    /// Two claims or acknowledgments were taken in a row, and another frame can be taken, which goes first.
    fn gives_way(&self, hold: Hold, now: Stamp) -> bool
        ensures { result
            ≡ (nat_le 2 hold.turns && (stands hold.standing && is_turn (turn_of hold.yields (ready_in self.now hold)))) }
    {
        hold.turns >= 2 && hold.is_held() && self.turn(hold, now).is_some()
    }

    /// An acknowledgment goes before what is left, unless it gives way.
    fn is_acknowledgment_due(&self, gives_way: bool) -> bool
        ensures { result ≡ (not gives_way && not (nat_eq (length self.now.desk.due.items) 0)) }
    {
        !gives_way && !self.desk.due.is_empty()
    }

    /// The acknowledgment that goes now.
    fn first_due(&self, gives_way: bool) -> Option<&Due>
        ensures { option_map (λ d. d.now) result ≡ (if gives_way then None else slice_get self.now.desk.due.items 0) }
    {
        if gives_way {
            None
        } else {
            self.desk.due.as_slice().get(0)
        }
    }

    /// The address that its claim tells.
    fn claim_address(&self) -> u8
        ensures { result ≡ (if lost self.now.hold.standing then null_address else self.now.own.address) }
    {
        if self.hold.is_lost() {
            NULL_ADDRESS
        } else {
            self.own.address
        }
    }
}
