//! A node's own address: claimed, defended, lost and commanded (J1939-81, 4.2 and 4.5).
ghost use Rattle.std.specs.Prelude.{◌≡◌, ◌≢◌, ◌<◌, ◌≤◌, ◌↔◌, ℕ, Some, None, IsSome, IfSome, IsTrue};
ghost use Rattle.j39_frame.specs.Address.{IsAddress, null_address};
ghost use Rattle.j39_frame.specs.Stamp.{stamp_micros};
ghost use Rattle.j39_address.specs.Name.{name_raw};
ghost use Rattle.j39_address.specs.Claim.{claim_by};
ghost use Rattle.j39_address.specs.Claims.{holder_in};
ghost use Rattle.j39_address.specs.Command.{command_by};
ghost use Rattle.j39_address.specs.Node.{Node, IsCapable, address_of, idle_node};
ghost use Rattle.j39_address.specs.Node.NodeStatus.{Idle, Cannot};
ghost use Rattle.j39_address.specs.Call.{call_of};
ghost use Rattle.j39_address.specs.Call.Call.{Start, Tick, Heard, Asked, Commanded};
ghost use Rattle.j39_address.specs.Claimer.{IsNode, Steps, status_of, status_in, plain};
ghost use Rattle.j39_address.specs.Claiming.{Says, IsLeastUnheld};
ghost use Rattle.j39_address.specs.declared.status.Status.TheVariants as status;

use crate::claim::claim_frame;
use crate::request::request_of;
use crate::status::State;
use crate::{Claims, Name, Status, claim_of};
use j39_frame::{Frame, GLOBAL_ADDRESS, NULL_ADDRESS, Stamp, is_address};

/// How long an address is claimed before it is the node's own, in microseconds.
const CLAIM_TIME: u64 = 250_000;

/// A node: a controller that claims an address and keeps it. Each of its calls is one step of the
/// rules, and what a call answers is to be sent. It is plain data, and each pattern of bits is one: so
/// it may lie in memory that C hands in.
#[repr(C)]
#[derive(Drop)]
pub struct Claimer {
    name: Name,
    preferred: u8,
    status: State,
    moment: u64,
    claims: Claims,
}

impl Claimer {
    /// An idle node of this NAME, to start with this address; `None` for one above 253.
    pub fn new(name: Name, preferred: u8) -> Option<Claimer>
        ensures known { IsSome result ↔ IsAddress preferred }
        ensures node { IfSome result (λ claimer. IsNode claimer (idle_node (name_raw name) preferred)) }
    {
        if !is_address(preferred) {
            return None;
        }
        Some(Claimer {
            name,
            preferred,
            status: State::of(Status::Idle),
            moment: 0,
            claims: Claims::new(),
        })
    }

    /// The node's NAME.
    pub fn name(&self) -> Name
        ensures { (node : Node) → IsNode self.now node → name_raw result ≡ node.name }
    {
        self.name
    }

    /// How far the node is with its address.
    pub fn status(&self) -> Status
        ensures { (node : Node) → IsNode self.now node → status_of result ≡ node.status }
    {
        self.status.status()
    }

    /// Claims the preferred address, where the node is idle; any other is started already.
    pub fn start(&mut self, now: Stamp) -> Option<Frame>
        ensures { Steps self.old Start (stamp_micros now) result self.new }
    {
        match self.status.status() {
            Status::Idle => self.claim(self.preferred, now),
            _ => None,
        }
    }

    /// Makes a claimed address the node's own, 250 ms or more after it began to claim it.
    pub fn tick(&mut self, now: Stamp)
        ensures { Steps self.old Tick (stamp_micros now) None self.new }
    {
        if let Status::Claiming(address) = self.status.status() {
            if now.micros().saturating_sub(self.moment) >= CLAIM_TIME {
                self.status = State::of(Status::Holding(address));
            }
        }
    }

    /// Hears a frame. Answered are a claim of the node's own address and a request for address claims:
    /// by the claim again, by a claim of another address, or by "cannot claim".
    pub fn on(&mut self, frame: &Frame, now: Stamp) -> Option<Frame>
        ensures { Steps self.old (call_of frame.now) (stamp_micros now) result self.new }
    {
        match claim_of(frame) {
            Some((name, address)) => self.hear(name, address, now),
            None => self.asked(request_of(frame)?, now),
        }
    }

    /// Claims the address 0 to 253 that the node is commanded to take; a command to another NAME, of
    /// another address or to an idle node is ignored (own).
    pub fn commanded(&mut self, name: Name, address: u8, now: Stamp) -> Option<Frame>
        ensures { Steps self.old (Commanded (command_by (name, address))) (stamp_micros now) result self.new }
    {
        if self.is_idle() || !self.is_named(name) || !is_address(address) {
            return None;
        }
        self.claim(address, now)
    }

    /// Hears the claim of a NAME for an address, 254 where it can't claim one.
    fn hear(&mut self, name: Name, address: u8, now: Stamp) -> Option<Frame>
        ensures { Steps self.old (Heard (claim_by (name, address))) (stamp_micros now) result self.new }
    {
        if self.is_named(name) {
            return None;
        }
        self.claims.note_claim(name, address);
        if !self.is_at(address) {
            return None;
        }
        if self.name.raw() < name.raw() {
            return self.say(address, now);
        }
        match self.free_address() {
            Some(free) => self.claim(free, now),
            None => self.give_up(now),
        }
    }

    /// Hears a request for address claims.
    fn asked(&mut self, destination: u8, now: Stamp) -> Option<Frame>
        ensures { Steps self.old (Asked destination) (stamp_micros now) result self.new }
    {
        match self.status.address() {
            Some(address) => {
                if destination == GLOBAL_ADDRESS || destination == address {
                    self.say(address, now)
                } else {
                    None
                }
            }
            None => {
                if destination == GLOBAL_ADDRESS && self.has_given_up() {
                    self.say(NULL_ADDRESS, now)
                } else {
                    None
                }
            }
        }
    }

    fn is_named(&self, name: Name) -> bool
        ensures { IsTrue result ↔ (name_raw name ≡ name_raw self.now.name) }
    {
        name.raw() == self.name.raw()
    }

    fn is_at(&self, address: u8) -> bool
        ensures { IsTrue result ↔ (address_of (status_of (status_in self.now.status)) ≡ Some address) }
    {
        match self.status.address() {
            Some(own) => own == address,
            None => false,
        }
    }

    fn is_idle(&self) -> bool
        ensures { IsTrue result ↔ (status_of (status_in self.now.status) ≡ Idle) }
    {
        matches!(self.status.status(), Status::Idle)
    }

    fn has_given_up(&self) -> bool
        ensures { IsTrue result ↔ (status_of (status_in self.now.status) ≡ Cannot) }
    {
        matches!(self.status.status(), Status::Cannot)
    }

    /// The least address of 128 to 247 that nobody holds, where the NAME may claim another address
    /// than its preferred one.
    fn free_address(&self) -> Option<u8>
        ensures found { IfSome result (λ a. IsCapable (name_raw self.now.name) × IsLeastUnheld self.now.claims a) }
        ensures none { result ≡ None → IsCapable (name_raw self.now.name)
            → (b : ℕ) → 128 ≤ b → b ≤ 247 → holder_in self.now.claims b ≢ None }
    {
        if self.name.arbitrary() != 1 {
            return None;
        }
        for address in 128..248u8 {
            if self.claims.holder(address).is_none() {
                return Some(address);
            }
        }
        None
    }

    /// Claims the address from now on.
    fn claim(&mut self, address: u8, now: Stamp) -> Option<Frame>
        ensures { Says (record self.old {
          status = plain (status.Claiming address);
          moment =
              stamp_micros now;
        }) self.new address (stamp_micros now) result }
    {
        self.status = State::of(Status::Claiming(address));
        self.moment = now.micros();
        self.say(address, now)
    }

    /// Has no address, and says so.
    fn give_up(&mut self, now: Stamp) -> Option<Frame>
        ensures { Says (record self.old { status = plain status.Cannot }) self.new null_address
            (stamp_micros now) result }
    {
        self.status = State::of(Status::Cannot);
        self.say(NULL_ADDRESS, now)
    }

    /// Notes that the node claims the address, 254 where it can't claim one, and answers the frame.
    fn say(&mut self, address: u8, now: Stamp) -> Option<Frame>
        ensures { Says self.old self.new address (stamp_micros now) result }
    {
        self.claims.note_claim(self.name, address);
        claim_frame(self.name, address, now)
    }
}
