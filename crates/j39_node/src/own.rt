//! Who a controller is, and what the frames of others are to it (J1939-81, 4.2; J1939-21, 5.4.2).
ghost use Rattle.std.specs.Prelude.{◌≡◌, ◌&&◌, ◌||◌, not, nat_eq, Option, Some, Bool, IsSomeAnd, IsSome, IfSome, ◌↔◌, ◌≤◌, ◌*◌, length, map, ℕ, List, ◌==◌, []};
ghost use Rattle.std.specs.List.{list_any};
ghost use Rattle.std.specs.Option.{option_map};
ghost use Rattle.j39_frame.specs.Identifier.{pgn_of, id_raw, destination_of};
ghost use Rattle.j39_frame.specs.Pgn.{pgn_raw};
ghost use Rattle.j39_frame.specs.Stamp.{stamp_micros};
ghost use Rattle.j39_address.specs.Name.{name_raw};
ghost use Rattle.j39_node.specs.History.{is_smaller, is_larger, is_some, is_none, is_asked, calls_for_claim, is_for_program, is_own_group, is_subscribed, has_group, AreFew, asks_with, claim_from, claim_with, carried, is_another, is_served, nothing, double};
ghost use Rattle.j39_frame.specs.Address.{IsAddress};

use crate::Setup;
use crate::heard::Heard;
use crate::requests::Due;
use arrayvec::ArrayVec;
use byteorder::{ByteOrder, LittleEndian};
use j39_address::Name;
use j39_frame::{Frame, GLOBAL_ADDRESS, Id, NULL_ADDRESS, Pgn, Stamp, is_address};

/// The group of claims.
pub(crate) const ADDRESS_CLAIMED: u32 = 60_928;

/// The group of acknowledgments.
pub(crate) const ACKNOWLEDGMENT: u32 = 59_392;

/// The group of requests.
pub(crate) const REQUEST: u32 = 59_904;

/// The groups of sessions of packets.
pub(crate) const TRANSPORT_CONTROL: u32 = 60_416;

pub(crate) const TRANSPORT_DATA: u32 = 60_160;

/// The unit in which the time is told for which 'cannot claim' waits, in microseconds (J1939-81, 4.2.2).
const DELAY_UNIT: u32 = 600;

/// The NAME of a controller, the address that it claims, and the groups that its program serves and subscribed.
#[derive(Drop)]
pub(crate) struct Own {
    pub(crate) name: Name,
    pub(crate) address: u8,
    /// How long 'cannot claim' waits, in 0.6 ms.
    pub(crate) delay: u8,
    pub(crate) served: ArrayVec<u32, 16>,
    /// All where there is none.
    pub(crate) subscribed: Option<ArrayVec<u32, 64>>,
    /// How many broadcasts in packets are heard at once.
    pub(crate) boxes: u8,
    /// How many messages in packets to its address, and from it; and how many packets it grants at once at most, 0 sets no limit.
    pub(crate) sessions: u8,
    pub(crate) transfers: u8,
    pub(crate) window: u8,
    pub ghost fits: { IsAddress address },
}

impl Own {
    ghost use Rattle.j39_node.specs.Hearing.{is_ignored};
    ghost use Rattle.j39_node.specs.Is.{IsRead, IsRight, claim_in, refusal_by, stamped, who_for, who_of};

    /// `None` for an address above 253, more than 16 groups served, or more than 64 subscribed.
    #[inline(always)]
    pub(crate) fn new(setup: &Setup<'_>) -> Option<Own>
        ensures known { IsSome result ↔ IsRight (who_for setup.now) }
        ensures value { IfSome result (λ own. who_of nothing own ≡ who_for setup.now) }
    {
        if !is_address(setup.address) {
            return None;
        }
        Some(Own {
            name: setup.name,
            address: setup.address,
            delay: setup.delay,
            served: numbers(setup.served)?,
            subscribed: subscriptions(setup.subscribed)?,
            boxes: setup.broadcasts,
            sessions: setup.sessions,
            transfers: setup.transfers,
            window: setup.window,
        })
    }

    /// Whether a smaller NAME claims the address.
    pub(crate) fn is_driven_away(&self, heard: Heard) -> bool
        ensures { result ≡ is_smaller (who_of nothing self.now) (claim_in heard) }
    {
        match heard.claim() {
            Some((name, address)) => address == self.address && name.raw() < self.name.raw(),
            None => false,
        }
    }

    /// Whether a larger NAME claims the address.
    pub(crate) fn is_challenged(&self, heard: Heard) -> bool
        ensures { result ≡ is_larger (who_of nothing self.now) (claim_in heard) }
    {
        match heard.claim() {
            Some((name, address)) => address == self.address && self.name.raw() < name.raw(),
            None => false,
        }
    }

    /// The address that another of its NAME claims.
    pub(crate) fn double(&self, heard: Heard) -> Option<u8>
        ensures { result ≡ double (who_of nothing self.now) (claim_in heard) }
    {
        match heard.claim() {
            Some((name, address)) => {
                if name.raw() == self.name.raw() {
                    Some(address)
                } else {
                    None
                }
            }
            None => None,
        }
    }

    /// How long 'cannot claim' waits behind what calls for it, in microseconds.
    pub(crate) fn delay(&self) -> u32
        ensures { result ≡ self.now.delay * 600 }
    {
        u32::from(self.delay) * DELAY_UNIT
    }

    /// Whether the frame is a request for claims, to all or, unless the address is lost, to it.
    pub(crate) fn is_asked(&self, is_lost: bool, heard: Heard, frame: &Frame) -> bool
        ensures { IsRead heard frame.now → result ≡ is_asked (who_of nothing self.now) is_lost frame.now }
    {
        heard.asks_for(ADDRESS_CLAIMED)
            && (is_to(frame, GLOBAL_ADDRESS) || (is_to(frame, self.address) && !is_lost))
    }

    /// Whether a claim answers the frame.
    pub(crate) fn calls_for_claim(&self, is_lost: bool, heard: Heard, frame: &Frame) -> bool
        ensures { IsRead heard frame.now → result ≡ calls_for_claim (who_of nothing self.now) is_lost frame.now }
    {
        let contested = self.is_driven_away(heard) || self.is_challenged(heard);
        (contested && !is_lost) || self.is_asked(is_lost, heard, frame)
    }

    /// Whether the frame is one for the program.
    pub(crate) fn is_for_program(&self, is_held: bool, frame: &Frame) -> bool
        ensures { result ≡ is_for_program (who_of nothing self.now) is_held frame.now }
    {
        frame.id.source() < NULL_ADDRESS
            && (self.is_subscribed(frame.id.pgn())
                && !(is_own_group(frame.id.pgn()) || frame.id.is_request()))
            && (is_undirected(frame)
                || is_to(frame, GLOBAL_ADDRESS)
                || (is_to(frame, self.address) && is_held))
    }

    /// Whether another sends the frame from the address that is held, and it is no claim.
    pub(crate) fn is_another(&self, is_held: bool, frame: &Frame) -> bool
        ensures { result ≡ is_another (who_of nothing self.now) is_held frame.now }
    {
        is_held && (frame.id.source() == self.address && !frame.id.is_address_claimed())
    }

    /// Whether its program serves the group.
    pub(crate) fn is_served(&self, group: Pgn) -> bool
        ensures { result ≡ is_served (who_of nothing self.now) (pgn_raw group) }
    {
        is_among(self.served.as_slice(), group.raw())
    }

    /// Whether a message of the group isn't for the program: the group is the stack's own, or isn't subscribed.
    pub(crate) fn is_ignored(&self, group: Pgn) -> bool
        ensures { result ≡ is_ignored (who_of nothing self.now) (pgn_raw group) }
    {
        is_own_group(group) || !self.is_subscribed(group)
    }

    /// Whether its program subscribed the group.
    pub(crate) fn is_subscribed(&self, group: Pgn) -> bool
        ensures { result ≡ is_subscribed (who_of nothing self.now) (pgn_raw group) }
    {
        match &self.subscribed {
            Some(groups) => is_among(groups.as_slice(), group.raw()),
            None => true,
        }
    }

    /// The acknowledgment of a request.
    pub(crate) fn acknowledgment(&self, due: &Due, now: Stamp) -> Option<Frame>
        ensures { option_map stamped result ≡ Some (stamp_micros now, refusal_by (who_of nothing self.now) due.now) }
    {
        let id = acknowledgment_id(self.address)?;
        let bytes = due.bytes();
        Frame::new(now, id, &bytes)
    }

    /// The claim of an address, or the word that none can be claimed where it is the null address.
    pub(crate) fn claim(&self, address: u8, now: Stamp) -> Option<Frame>
        ensures { option_map stamped result ≡ Some (stamp_micros now, claim_from (who_of nothing self.now) address) }
    {
        let id = claim_id(address)?;
        Frame::new(now, id, self.name.bytes().as_slice())
    }
}

fn is_among(groups: &[u32], group: u32) -> bool
    ensures { result ≡ list_any (λ g. g == group) groups.now }
{
    groups.iter().any(|listed| *listed == group)
}

/// The numbers of these groups; `None` for more than 16.
fn numbers(groups: &[Pgn]) -> Option<ArrayVec<u32, 16>>
    ensures known { IsSome result ↔ (length groups.now ≤ 16) }
    ensures value { IfSome result (λ numbers. numbers.items ≡ map pgn_raw groups.now) }
{
    let mut numbers = ArrayVec::new();
    for group in groups {
        numbers.try_push(group.raw()).ok()?;
    }
    Some(numbers)
}

/// The numbers of the groups that are subscribed, or all; `None` for more than 64.
fn subscriptions(groups: Option<&[Pgn]>) -> Option<Option<ArrayVec<u32, 64>>>
    ensures known { IsSome result ↔ AreFew (option_map (λ g. map pgn_raw g.now) groups.entry) }
    ensures value { IfSome result (λ numbers. option_map (λ n. n.items) numbers ≡ option_map (λ g. map pgn_raw g.now) groups.entry) }
{
    match groups {
        Some(groups) => {
            let numbers = few(groups)?;
            Some(Some(numbers))
        }
        None => Some(None),
    }
}

fn few(groups: &[Pgn]) -> Option<ArrayVec<u32, 64>>
    ensures known { IsSome result ↔ (length (map pgn_raw groups.now) ≤ 64) }
    ensures value { IfSome result (λ numbers. numbers.items ≡ map pgn_raw groups.now) }
{
    let mut numbers = ArrayVec::new();
    for group in groups {
        numbers.try_push(group.raw()).ok()?;
    }
    Some(numbers)
}

fn acknowledgment_id(address: u8) -> Option<Id>
    ensures { IsSomeAnd result (λ id. (bytes : List ℕ) → carried (id_raw id) bytes ≡ record
        { source = address; destination = Some 255; priority = 6; group = 59392; bytes = bytes }) }
{
    let group = Pgn::new(ACKNOWLEDGMENT)?;
    Id::compose(6, group, GLOBAL_ADDRESS, address)
}

pub(crate) fn claim_id(address: u8) -> Option<Id>
    ensures { IsSomeAnd result (λ id. carried (id_raw id) ≡ claim_with address) }
{
    let group = Pgn::new(ADDRESS_CLAIMED)?;
    Id::compose(6, group, GLOBAL_ADDRESS, address)
}

/// Whether a message asks for the group.
pub(crate) fn asks_for(id: Id, bytes: &[u8], group: u32) -> bool
    ensures { result ≡ asks_with (carried (id_raw id) bytes.now) group }
{
    id.is_request() && bytes.len() >= 3 && LittleEndian::read_u24(bytes) == group
}

pub(crate) fn is_to(frame: &Frame, address: u8) -> bool
    ensures { result ≡ is_some (destination_of frame.now.id) address }
{
    match frame.id.destination() {
        Some(destination) => destination == address,
        None => false,
    }
}

pub(crate) fn is_undirected(frame: &Frame) -> bool
    ensures { result ≡ is_none (destination_of frame.now.id) }
{
    match frame.id.destination() {
        Some(_destination) => false,
        None => true,
    }
}

/// Whether the stack itself speaks the group.
pub(crate) fn is_own_group(group: Pgn) -> bool
    ensures { result ≡ is_own_group (pgn_raw group) }
{
    let number = group.raw();
    number == TRANSPORT_CONTROL || number == TRANSPORT_DATA || number == ADDRESS_CLAIMED
}
