//! What a controller is told to send, to ask and to acknowledge.
ghost use Rattle.std.specs.Prelude.{true, ◌≡◌, Option, List, ◌∷◌, ◌||◌, ◌==◌, ◌+◌, nat_eq, Some, None, length, ◌<◌, false};
ghost use Rattle.std.specs.Option.{option_map};
ghost use Rattle.j39_frame.specs.Pgn.{pgn_raw};
ghost use Rattle.j39_frame.specs.Stamp.{stamp_micros};
ghost use Rattle.j39_node.specs.History.{Who, Call};
ghost use Rattle.j39_node.specs.History.Call.{At, Renew, Withdraw};
ghost use Rattle.j39_node.specs.History.Act.{Ask, Send, Acknowledge, Broadcast, Transfer};
ghost use Rattle.j39_node.specs.Asking.{is_asking};
ghost use Rattle.j39_node.specs.Is.{asking_of, Is, request_by};

use crate::controller::Controller;
use crate::outgoing::{Outgoing, can_broadcast, can_transfer, latest, past, place_of, renew};
use crate::requests::Due;
use crate::{Answer, Refused, Request, asking};
use j39_frame::{Pgn, Stamp};

impl Controller {
    /// Hands in a message of 0 to 8 bytes, to all (255) or to another's address; answers its token. A group of PF 240 and
    /// up goes to all.
    pub fn send(
        &mut self,
        now: Stamp,
        priority: u8,
        group: Pgn,
        to: u8,
        bytes: &[u8],
    ) -> Result<u64, Refused>
        ensures { (w : Who) (H : List Call) → Is w H self.old → Is w (At (stamp_micros now) (Send (record
            { priority = priority; group = pgn_raw group; to = to; bytes = bytes.now }) result) ∷ H) self.new }
    {
        self.hold = self.hold.passed(now);
        if !self.hold.is_held() {
            return Err(Refused::NoAddress);
        }
        match Outgoing::new(self.next_token, &self.own, priority, group, to, bytes) {
            Some(message) => {
                if self.is_full() {
                    return Err(Refused::Full);
                }
                let token = self.next_token;
                self.outgoing.push(message);
                self.next_token += 1;
                Ok(token)
            }
            None => Err(Refused::BadValue),
        }
    }

    /// Puts a message of 0 to 8 bytes in the place of the last that waits to be taken with its priority, group and destination, and is no
    /// request, so that the newest value goes: answers its token, which stays, and the older bytes are never sent. `None`, where nothing
    /// changes, if none waits, or the message can't be sent (`send` tells why): then hand it in by `send`.
    pub fn renew(&mut self, priority: u8, group: Pgn, to: u8, bytes: &[u8]) -> Option<u64>
        ensures { (w : Who) (H : List Call) → Is w H self.old → Is w (Renew (record
            { priority = priority; group = pgn_raw group; to = to; bytes = bytes.now }) result ∷ H) self.new }
    {
        let message = Outgoing::new(0, &self.own, priority, group, to, bytes)?;
        let place = latest(self.outgoing.as_slice(), self.taken, &message)?;
        renew(&mut self.outgoing, place, message)
    }

    /// Withdraws a message of `send` that waits to be taken: it is never sent, and is told as `Withdrawn` once all before it have
    /// ended. False, where nothing changes, if none waits under this token, for a request, and where the address is lost, by which
    /// all that wait end.
    pub fn withdraw(&mut self, token: u64) -> bool
        ensures { (w : Who) (H : List Call) → Is w H self.old → Is w (Withdraw token result ∷ H) self.new }
    {
        if self.hold.is_lost() {
            return false;
        }
        let place = match place_of(self.outgoing.as_slice(), self.taken, token) {
            Some(place) => place,
            None => return false,
        };
        renew(&mut self.outgoing, place, Outgoing::blank());
        self.taken = past(self.outgoing.as_slice(), self.taken);
        true
    }

    /// Hands in a message of 9 to 1,785 bytes, to all: an announcement and packets, at least 50 ms from one frame to the next;
    /// answers its token, 0, 1, 2 and so on, apart from those of `send`. `Full` while one is accepted and not told to have
    /// ended, and where there are no boxes for transfers.
    // Where a caller sends frames too, these need no stack for its bytes.
    #[inline(never)]
    pub fn broadcast(&mut self, now: Stamp, group: Pgn, bytes: &[u8]) -> Result<u64, Refused>
        ensures { (w : Who) (H : List Call) → Is w H self.old
            → Is w (At (stamp_micros now) (Broadcast (pgn_raw group) bytes.now result) ∷ H) self.new }
    {
        self.hold = self.hold.passed(now);
        if !self.hold.is_held() {
            return Err(Refused::NoAddress);
        }
        if !can_broadcast(group, bytes) {
            return Err(Refused::BadValue);
        }
        match self.lane.open(group, bytes) {
            Some(token) => {
                self.hold = self.hold.opens();
                Ok(token)
            }
            None => Err(Refused::Full),
        }
    }

    /// Hands in a message of 9 to 1,785 bytes, to another's address: a request to send, and the packets that it clears; answers its
    /// token, 0, 1, 2 and so on, apart from those of `send` and `broadcast`. Of the transfers that send a frame at a time one goes first
    /// whose priority number, 0 to 7, is smallest, and those of one number take turns; their frames all have priority 7. `Full` while one
    /// to this address, or in each box one, is accepted and not told to have ended; and while it rests: for 4 seconds after the end of one
    /// of this group to this address, which wasn't acknowledged, so that nothing late of it is taken for this one's. None rests of which
    /// nothing was sent, or whose request to send was refused. `Full` too while twice as many others as boxes rest or may yet.
    // Where a caller sends frames too, these need no stack for its bytes.
    #[inline(never)]
    pub fn transfer(
        &mut self,
        now: Stamp,
        priority: u8,
        group: Pgn,
        to: u8,
        bytes: &[u8],
    ) -> Result<u64, Refused>
        ensures { (w : Who) (H : List Call) → Is w H self.old
            → Is w (At (stamp_micros now) (Transfer priority (pgn_raw group) to bytes.now result) ∷ H) self.new }
    {
        self.hold = self.hold.passed(now);
        if !self.hold.is_held() {
            return Err(Refused::NoAddress);
        }
        if !can_transfer(&self.own, priority, group, to, bytes) {
            return Err(Refused::BadValue);
        }
        let name = self.holders.holder(to);
        let clock = self.hold.clock();
        self.transfers
            .begin(priority, group, to, bytes, name, clock)
    }

    /// Asks an address, or all (255), for a group, also for claims, by a message of priority 6; answers its token, one of those
    /// of `send`, to which `take_ended` tells that its frame was taken. `Full` while one is accepted and not told by
    /// `take_ask_ended`, or sixteen messages are. The answer itself is received like any message: subscribe its group, unless it
    /// comes by a transfer. One that is broadcast in packets counts if it is heard: if its group is subscribed, and no other
    /// broadcast lies there or is open. Where one in packets comes, its end is waited for, even if the 1,250 ms of the request
    /// are over before.
    pub fn ask(&mut self, now: Stamp, group: Pgn, to: u8) -> Result<u64, Refused>
        ensures { (w : Who) (H : List Call) → Is w H self.old
            → Is w (At (stamp_micros now) (Ask (pgn_raw group) to result) ∷ H) self.new }
    {
        self.hold = self.hold.passed(now);
        if !self.hold.is_held() {
            return Err(Refused::NoAddress);
        }
        match asking::request(self.next_token, &self.own, group, to) {
            Some(message) => {
                if self.asks_no_more() {
                    return Err(Refused::Full);
                }
                let token = self.next_token;
                self.outgoing.push(message);
                self.asking.current = Some(asking::Open::new(token, group, to));
                self.next_token += 1;
                Ok(token)
            }
            None => Err(Refused::BadValue),
        }
    }

    /// Acknowledges a request to its address; `BadValue` for one to all, which is never acknowledged, `Full` while sixteen
    /// acknowledgments are due.
    pub fn acknowledge(
        &mut self,
        now: Stamp,
        request: Request,
        answer: Answer,
    ) -> Result<(), Refused>
        ensures { (w : Who) (H : List Call) → Is w H self.old
            → Is w (At (stamp_micros now) (Acknowledge (request_by request) answer result) ∷ H) self.new }
    {
        self.hold = self.hold.passed(now);
        if !self.hold.is_held() {
            return Err(Refused::NoAddress);
        }
        if request.destination != self.own.address {
            return Err(Refused::BadValue);
        }
        if self.desk.due.is_full() {
            return Err(Refused::Full);
        }
        self.desk.due.push(Due::new(answer, &request));
        Ok(())
    }

    /// No request can be accepted.
    fn asks_no_more(&self) -> bool
        ensures room { result ≡ false → length self.now.outgoing.items < 16 }
        ensures value { result
            ≡ ((nat_eq (length self.now.outgoing.items) 16 || nat_eq self.now.next_token 18446744073709551615)
            || is_asking (option_map (λ x. x.question) (asking_of self.now.asking))) }
    {
        self.is_full() || self.asking.is_open()
    }

    fn is_full(&self) -> bool
        ensures room { result ≡ false → length self.now.outgoing.items < 16 }
        ensures value { result ≡ (nat_eq (length self.now.outgoing.items) 16 || nat_eq self.now.next_token 18446744073709551615) }
    {
        self.outgoing.is_full() || self.next_token == u64::MAX
    }
}
