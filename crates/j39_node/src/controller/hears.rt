//! What a controller makes of frames that it hears, and of time.
ghost use Rattle.std.specs.Prelude.{true, ◌≡◌, ℕ, Option, List, ◌∷◌, ◌==◌, IfSome, Some, None, ◌<◌, false};
ghost use Rattle.std.specs.Option.{option_map};
ghost use Rattle.j39_frame.specs.Stamp.{stamp_micros};
ghost use Rattle.j39_node.specs.History.{Who, Call, is_left};
ghost use Rattle.j39_node.specs.Hearing.{unheard};
ghost use Rattle.j39_node.specs.Hold.{lost};
ghost use Rattle.j39_node.specs.History.Call.{At};
ghost use Rattle.j39_node.specs.History.Act.{Hear, Tick, Again};
ghost use Rattle.j39_node.specs.Asking.{is_coming};
ghost use Rattle.j39_node.specs.Is.{asking_of, Is, silence, hearing_of, incoming_of};

use crate::AskEnding;
use crate::controller::Controller;
use crate::heard::Heard;
use crate::incoming::Bearing;
use crate::requests::asked;
use j39_frame::{Frame, Stamp};

impl Controller {
    /// Hears a frame of another controller, at the moment of this call. The frame's own stamp goes into what is received, and is
    /// no moment: it may be of another clock.
    pub fn hear(&mut self, frame: &Frame, now: Stamp)
        ensures { (w : Who) (H : List Call) → Is w H self.old → Is w (At (stamp_micros now) (Hear frame.now) ∷ H) self.new }
    {
        self.hold = self.hold.passed(now);
        let is_coming = self.is_coming(self.incoming.clock_at(now));
        let is_held = self.hold.is_held();
        let heard = Heard::of(frame);
        let wanted = self.own.is_for_program(is_held, frame);
        let misses = self.inbox.misses(wanted);
        let sender = self.holders.holder(frame.id.source());
        self.inbox.offer(wanted, frame, sender);
        let request = asked(&self.own, is_held, heard, frame, sender);
        let request = self.desk.fresh(&self.own, request);
        self.desk.hear(&self.own, request);
        let doubled = self.own.double(heard);
        let bearing = Bearing {
            heard,
            drives_away: self.own.is_driven_away(heard),
            is_double: doubled.is_some(),
            is_held,
        };
        let received = self.incoming.hear(&mut self.holders, bearing, frame, now);
        let time = self.incoming.clock;
        let breaks = self.hearing.leave(received.gone, &self.holders, time);
        let broadcast = self.hearing.hear(&self.own, &self.holders, frame, time);
        let made = received.made.or(broadcast.made);
        let is_lost = self.hold.is_lost();
        let calls = self.own.calls_for_claim(is_lost, heard, frame);
        let another = self.own.is_another(is_held, frame);
        self.news = self.news.heard(
            bearing.drives_away,
            is_lost,
            another,
            misses,
            broadcast.is_missed,
        );
        self.news = self.news.with_double(doubled).with_missed(breaks);
        self.hold = self
            .hold
            .heard(bearing.drives_away, calls, another, self.own.delay());
        let clock = self.hold.clock();
        self.transfers
            .hear(self.hold.is_lost(), &self.holders, frame, clock);
        let silence = self.silence(is_coming);
        self.asking.hear(&self.own, silence, frame, made);
    }

    /// Claims its address anew, and forgets nothing else: for a driver whose bus was away (after bus-off, or where its interface
    /// was down), so that others may have missed the claim, or this one theirs. It holds the address 250 ms after that claim is
    /// taken, and what was accepted waits till then. Where the address is lost it says again that it can't claim one. To another
    /// such controller the claim is that of a restart (own): what comes to it in packets from here is over.
    pub fn again(&mut self, now: Stamp)
        ensures { (w : Who) (H : List Call) → Is w H self.old → Is w (At (stamp_micros now) Again ∷ H) self.new }
    {
        self.hold = self.hold.passed(now).anew(self.own.delay());
    }

    /// Time passes.
    pub fn tick(&mut self, now: Stamp)
        ensures { (w : Who) (H : List Call) → Is w H self.old → Is w (At (stamp_micros now) Tick ∷ H) self.new }
    {
        self.hold = self.hold.passed(now);
        self.incoming.tick(now);
        let breaks = self.hearing.leave(None, &self.holders, self.incoming.clock);
        self.news = self.news.with_missed(breaks);
    }

    /// An answer to the open request is on its way, at this time.
    pub(super) fn is_coming(&self, time: Stamp) -> bool
        ensures { result ≡ is_coming (stamp_micros time) (option_map (λ x. x.question) (asking_of self.now.asking))
            (incoming_of self.now.incoming).reception.sessions
            (hearing_of self.now.hearing).listening.current }
    {
        self.asking.is_coming(&self.incoming, &self.hearing, time)
    }

    /// How the open request ended without a word.
    pub(super) fn silence(&self, is_coming: bool) -> Option<AskEnding>
        ensures { result ≡ silence self.now.hold.wait is_coming (lost self.now.hold.standing) (asking_of self.now.asking) }
    {
        self.asking
            .silence(self.hold.wait, is_coming, self.hold.is_lost())
    }
}
