//! When a controller has something to do.
ghost use Rattle.std.specs.Prelude.{◌≡◌, Option, List, ◌&&◌, ◌||◌, nat_lt, Some, None, length, ◌<◌, false};
ghost use Rattle.std.specs.Option.{option_map};
ghost use Rattle.j39_frame.specs.Stamp.{stamp_micros};
ghost use Rattle.j39_node.specs.History.{Who, Call, is_left};
ghost use Rattle.j39_node.specs.Reception.{replies_of};
ghost use Rattle.j39_node.specs.Ticks.{next_tick};
ghost use Rattle.j39_node.specs.Transfers.{clock, next_due, packet_in, packets_in, sooner};
ghost use Rattle.j39_transfers.specs.Transfers.{soonest};
ghost use Rattle.j39_node.specs.Hold.{can_claim, stands};
ghost use Rattle.j39_node.specs.Asking.{is_coming, out_at};
ghost use Rattle.j39_node.specs.Is.{asking_of, Is, lane_of, port_of, hearing_of, incoming_of, waits_with};

use crate::controller::Controller;
use crate::hold::SLACK;
use j39_frame::Stamp;

impl Controller {
    /// The moment before which `take_frame` answers none, if nothing is heard or handed in till then: that of the last call,
    /// where a frame can be taken, or that at which a packet can be, or 'cannot claim', or its address is held. `None` where there is none.
    pub fn next_due(&self) -> Option<Stamp>
        ensures { (w : Who) (H : List Call) → Is w H self.now → option_map stamp_micros result ≡ next_due w H }
    {
        if self.has_frame() {
            self.hold.at()
        } else if self.hold.is_held() {
            self.hold.later(self.packets_in()?)
        } else {
            self.hold.claim_at()
        }
    }

    /// The moment before which `tick` does nothing but let time pass, if no frame is heard till then: at it a session that waits asks
    /// again or is aborted, a broadcast in packets is over, or a request times out. `None` where none of these is open.
    pub fn next_tick(&self) -> Option<Stamp>
        ensures { (w : Who) (H : List Call) → Is w H self.now → option_map stamp_micros result ≡ next_tick w H }
    {
        let broadcast = self
            .hearing
            .next_tick(self.incoming.moment, self.incoming.clock);
        let heard = sooner_stamp(broadcast, self.request_tick());
        sooner_stamp(self.incoming.next_tick(), heard)
    }

    /// When the open request times out.
    fn request_tick(&self) -> Option<Stamp>
        ensures { option_map stamp_micros result ≡ out_at (waits_with (is_coming (incoming_of self.now.incoming).clock (option_map (λ x. x.question) (asking_of self.now.asking))
            (incoming_of self.now.incoming).reception.sessions
            (hearing_of self.now.hearing).listening.current) (asking_of self.now.asking))
            self.now.hold.moment self.now.hold.wait }
    {
        if self.asking.is_waiting(self.is_coming(self.incoming.clock)) {
            self.hold.later(u64::from(self.hold.wait))
        } else {
            None
        }
    }

    /// A frame can be taken.
    fn has_frame(&self) -> bool
        ensures { result ≡ (can_claim self.now.hold || (stands self.now.hold.standing
            && (nat_lt self.now.taken (length self.now.outgoing.items) || (nat_lt 0 (length self.now.desk.due.items)
            || nat_lt 0 (length (replies_of (incoming_of self.now.incoming).reception)))))) }
    {
        self.hold.claims(false) || (self.hold.is_held() && self.is_waiting())
    }

    /// In how long a frame of packets can be taken.
    fn packets_in(&self) -> Option<u64>
        ensures { (w : Who) → result
            ≡ sooner (packet_in (is_left (lane_of w self.now.lane).current self.now.lane.count) self.now.hold.pause)
            (soonest (clock self.now.hold.age) (port_of self.now.transfers).state.running) }
    {
        let packet = if self.lane.is_left() {
            Some(u64::from(self.hold.pause.saturating_sub(SLACK)))
        } else {
            None
        };
        sooner(packet, self.transfers.all.due_in(self.hold.clock()))
    }

    /// A message, an acknowledgment or a reply waits.
    pub(super) fn is_waiting(&self) -> bool
        ensures { result ≡ (nat_lt self.now.taken (length self.now.outgoing.items) || (nat_lt 0 (length self.now.desk.due.items)
            || nat_lt 0 (length (replies_of (incoming_of self.now.incoming).reception)))) }
    {
        self.taken < self.outgoing.len() || 0 < self.desk.due.len() || self.incoming.has_reply()
    }
}

pub(crate) fn sooner(one: Option<u64>, other: Option<u64>) -> Option<u64>
    ensures { result ≡ sooner one other }
{
    match (one, other) {
        (None, _) => other,
        (Some(_), None) => one,
        (Some(m), Some(n)) => Some(m.min(n)),
    }
}

fn sooner_stamp(one: Option<Stamp>, other: Option<Stamp>) -> Option<Stamp>
    ensures { option_map stamp_micros result ≡ sooner (option_map stamp_micros one) (option_map stamp_micros other) }
{
    match (one, other) {
        (None, _) => other,
        (Some(_), None) => one,
        (Some(m), Some(n)) => Some(if m.micros() <= n.micros() { m } else { n }),
    }
}
