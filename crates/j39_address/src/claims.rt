//! Who holds an address (J1939-81, 4.2.2).
ghost use Rattle.std.specs.Prelude.{◌≡◌, ◌≢◌, ℕ, List, [], ◌∷◌, ◌++◌, Option, Some, None, IfSome};
ghost use Rattle.std.specs.Option.{option_map};
ghost use Rattle.j39_frame.specs.Address.{IsAddress};
ghost use Rattle.j39_frame.specs.Frame.{FrameRecord};
ghost use Rattle.j39_address.specs.Name.{name_raw};
ghost use Rattle.j39_address.specs.Claim.{Claim, claim_by, claims_of};
ghost use Rattle.j39_address.specs.Holder.{IsHolderAfter};
ghost use Rattle.j39_address.specs.Changes.{AreChanged};
ghost use Rattle.j39_address.specs.Claims.{Knows, StandsFor, holder_in};
ghost use Rattle.j39_address.specs.Noting.{Leaves, Takes, in_order};

use crate::{Name, claim_of};
use arrayvec::ArrayVec;
use j39_frame::{Frame, NULL_ADDRESS, is_address};

/// One place for each address that can be held.
const PLACES: usize = 254;

/// The holders of the addresses 0 to 253, by the claims so far. It is plain data, and each pattern of bits is one.
#[repr(C)]
#[derive(Drop)]
pub struct Claims {
    /// The NAME that holds each address, where one does.
    names: [Name; PLACES],
    /// 0 for each address that nobody holds.
    are_held: [u8; PLACES],
}

impl Claims {
    /// Nobody holds an address.
    pub fn new() -> Claims
        ensures { Knows result [] }
    {
        Claims {
            names: [Name::new(0); PLACES],
            are_held: [0; PLACES],
        }
    }

    /// The NAME that holds the address; `None` where nobody does, and for 254 and 255.
    #[inline]
    pub fn holder(&self, address: u8) -> Option<Name>
        ensures value { option_map name_raw result ≡ holder_in self.now address }
        ensures holder { (F : List FrameRecord) → Knows self.now F
            → IsHolderAfter (claims_of F) address (option_map name_raw result) }
    {
        let place = usize::from(address);
        if is_address(address) && self.are_held[place] != 0 {
            Some(self.names[place])
        } else {
            None
        }
    }

    /// Notes the frame, and gives the addresses whose holder it changed, from nobody or to nobody too,
    /// rising. A frame that is no claim changes nothing.
    #[inline]
    pub fn note(&mut self, frame: &Frame) -> ArrayVec<u8, 2>
        ensures knows { (F : List FrameRecord) → Knows self.old F → Knows self.new (F ++ frame.now ∷ []) }
        ensures changed { (F : List FrameRecord) → Knows self.old F
            → AreChanged (claims_of F) (claims_of (F ++ frame.now ∷ [])) result.items }
    {
        match claim_of(frame) {
            Some((name, address)) => self.note_claim(name, address),
            None => ArrayVec::new(),
        }
    }

    /// Notes the claim of a NAME for an address, and gives the addresses whose holder it changed.
    #[inline(never)]
    pub(crate) fn note_claim(&mut self, name: Name, address: u8) -> ArrayVec<u8, 2>
        ensures stands { (C : List (Option Claim)) → StandsFor self.old C
            → StandsFor self.new (C ++ Some (claim_by (name, address)) ∷ []) }
        ensures changed { (C : List (Option Claim)) → StandsFor self.old C
            → AreChanged C (C ++ Some (claim_by (name, address)) ∷ []) result.items }
    {
        let left = self.leave(name, address);
        let taken = self.take(name, address);
        in_order(left, taken)
    }

    /// Frees the address that the NAME holds, unless it is this one.
    fn leave(&mut self, name: Name, address: u8) -> Option<u8>
        ensures { Leaves self.old self.new (name_raw name) address result }
    {
        if self.holder(address) == Some(name) {
            return None;
        }
        let held = self.address_of(name)?;
        self.are_held[usize::from(held)] = 0;
        Some(held)
    }

    /// The first address that the NAME holds.
    fn address_of(&self, name: Name) -> Option<u8>
        ensures found { IfSome result (λ b. IsAddress b × (holder_in self.now b ≡ Some (name_raw name))) }
        ensures none { result ≡ None → (b : ℕ) → holder_in self.now b ≢ Some (name_raw name) }
    {
        for address in 0..NULL_ADDRESS {
            if self.holder(address) == Some(name) {
                return Some(address);
            }
        }
        None
    }

    /// Gives the address to the NAME, unless it is 254 or a NAME that is not larger holds it.
    fn take(&mut self, name: Name, address: u8) -> Option<u8>
        ensures { Takes self.old self.new (name_raw name) address result }
    {
        if !is_address(address) {
            return None;
        }
        if let Some(held) = self.holder(address) {
            if held.raw() <= name.raw() {
                return None;
            }
        }
        let place = usize::from(address);
        self.names[place] = name;
        self.are_held[place] = 1;
        Some(address)
    }
}

/// At most two addresses, the lower first.
fn in_order(left: Option<u8>, taken: Option<u8>) -> ArrayVec<u8, 2>
    ensures { result.items ≡ in_order left taken }
{
    match (left, taken) {
        (None, None) => ArrayVec::new(),
        (None, Some(a)) => one(a),
        (Some(b), None) => one(b),
        (Some(b), Some(a)) => if b < a { two(b, a) } else { two(a, b) },
    }
}

fn one(a: u8) -> ArrayVec<u8, 2>
    ensures { result.items ≡ a ∷ [] }
{
    let mut addresses = ArrayVec::new();
    addresses.push(a);
    addresses
}

fn two(a: u8, b: u8) -> ArrayVec<u8, 2>
    ensures { result.items ≡ a ∷ b ∷ [] }
{
    let mut addresses = ArrayVec::new();
    addresses.push(a);
    addresses.push(b);
    addresses
}
