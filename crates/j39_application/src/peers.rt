//! Who is there, by NAME: who came, moved or left, and who is silent (J1939-81, 4.2).
ghost use Rattle.std.specs.Prelude.{◌≡◌, ◌≢◌, ◌<◌, ◌↔◌, ◌∷◌, [], ℕ, List, Option, None, Some, IfSome, IsTrue, true};
ghost use Rattle.std.specs.Option.{option_map};
ghost use Rattle.j39_address.specs.Claim.{claims_of};
ghost use Rattle.j39_address.specs.Holder.{IsHolderAfter};
ghost use Rattle.j39_address.specs.Name.{name_raw};
ghost use Rattle.j39_frame.specs.Stamp.{stamp_micros};
ghost use Rattle.j39_node.specs.History.{Who, Call, told_claims};
ghost use Rattle.j39_node.specs.Is.{Is};
ghost use Rattle.j39_application.specs.Peers.{HeardSince, IsToldNext, Knows, NoneIsNew, Seen, Told, heard_in, peer_in, told_in};

use j39_address::Name;
use j39_frame::{Frame, NULL_ADDRESS, Stamp};
use j39_node::Controller;

/// One place for each address that can be held.
const PLACES: usize = 254;

/// What a program was told of who holds which address, and when a frame of each was noted last. It is plain data.
#[repr(C)]
#[derive(Drop)]
pub struct Peers {
    /// The NAME that was told to hold each address, where one was.
    names: [Name; PLACES],
    /// When a frame came last from each address, in microseconds.
    moments: [u64; PLACES],
    /// 0 for each address that nobody was told to hold.
    are_told: [u8; PLACES],
    /// 0 for each address from which no frame came.
    are_heard: [u8; PLACES],
}

/// That an address has another holder than was told last. A NAME that moves leaves one and comes to another, the lesser first.
#[derive(Clone, Copy, Debug, PartialEq, Eq)]
pub struct Peer {
    /// 0 to 253.
    pub address: u8,
    /// Who was told to hold it; `None` where nobody was.
    pub was: Option<Name>,
    /// Who holds it; `None` where nobody does.
    pub name: Option<Name>,
}

impl Peers {
    /// Nothing was told or heard.
    pub fn new() -> Peers
        ensures { Knows result [] [] }
    {
        Peers {
            names: [Name::new(0); PLACES],
            moments: [0; PLACES],
            are_told: [0; PLACES],
            are_heard: [0; PLACES],
        }
    }

    /// A frame was heard at this moment, the driver's; its own stamp isn't used.
    pub fn hear(&mut self, frame: &Frame, now: Stamp)
        ensures { (F : List Seen) (T : List Told) → Knows self.old F T
            → Knows self.new ((stamp_micros now, frame.now) ∷ F) T }
    {
        let place = usize::from(frame.id.source());
        if place < PLACES {
            self.moments[place] = now.micros();
            self.are_heard[place] = 1;
        }
    }

    /// The least address whose holder, by the claims that the controller heard and its own that were taken, isn't the one told last: so who
    /// comes, moves or leaves is told once. `None` where there is none: then all that was told is so.
    pub fn take(&mut self, controller: &Controller) -> Option<Peer>
        ensures next { IfSome result (λ peer. (F : List Seen) (T : List Told) → Knows self.old F T
            → Knows self.new F (peer_in peer ∷ T) × ((w : Who) (H : List Call) → Is w H controller.now
            → IsToldNext (claims_of (told_claims w H)) T (peer_in peer))) }
        ensures none { result ≡ None → (self.new ≡ self.old) × ((F : List Seen) (T : List Told) → Knows self.old F T
            → (w : Who) (H : List Call) → Is w H controller.now → NoneIsNew (claims_of (told_claims w H)) T) }
    {
        for address in 0..NULL_ADDRESS {
            let was = self.told(address);
            let name = controller.holder(address);
            if !is_same(was, name) {
                self.put(address, name);
                return Some(Peer { address, was, name });
            }
        }
        None
    }

    /// Whether this NAME holds an address, by the same claims, whose last noted frame has this moment or a later one, whoever sent it.
    pub fn heard_since(&self, controller: &Controller, name: Name, moment: Stamp) -> bool
        ensures { (F : List Seen) (T : List Told) → Knows self.now F T → (w : Who) (H : List Call) → Is w H controller.now
            → (result ≡ true ↔ HeardSince (claims_of (told_claims w H)) F (name_raw name) (stamp_micros moment)) }
    {
        match controller.address_of(name) {
            Some(address) => match self.heard(address) {
                Some(last) => moment.micros() <= last,
                None => false,
            },
            None => false,
        }
    }

    /// Who was told to hold an address.
    fn told(&self, address: u8) -> Option<Name>
        ensures { option_map name_raw result ≡ told_in self.now address }
    {
        let place = usize::from(address);
        if place < PLACES && self.are_told[place] != 0 {
            Some(self.names[place])
        } else {
            None
        }
    }

    /// When a frame came last from an address.
    fn heard(&self, address: u8) -> Option<u64>
        ensures { result ≡ heard_in self.now address }
    {
        let place = usize::from(address);
        if place < PLACES && self.are_heard[place] != 0 {
            Some(self.moments[place])
        } else {
            None
        }
    }

    /// This was told of an address below 254.
    fn put(&mut self, address: u8, name: Option<Name>)
        requires { address < 254 }
        ensures told { told_in self.new address ≡ option_map name_raw name }
        ensures others { (a : ℕ) → a ≢ address → told_in self.new a ≡ told_in self.old a }
        ensures heard { (a : ℕ) → heard_in self.new a ≡ heard_in self.old a }
    {
        let place = usize::from(address);
        match name {
            Some(name) => {
                self.names[place] = name;
                self.are_told[place] = 1;
            }
            None => self.are_told[place] = 0,
        }
    }
}

fn is_same(one: Option<Name>, other: Option<Name>) -> bool
    ensures { result ≡ true ↔ option_map name_raw one ≡ option_map name_raw other }
{
    match (one, other) {
        (None, None) => true,
        (Some(one), Some(other)) => one.raw() == other.raw(),
        _ => false,
    }
}
