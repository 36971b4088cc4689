//! Messages that were accepted, and are not told to have ended.
ghost use Rattle.std.specs.Prelude.{◌≡◌, ◌↔◌, ◌≤◌, IsSome, IfSome, Some, None, true, List, [], length, map, nat_le, ◌&&◌, if◌then◌else◌};
ghost use Rattle.std.specs.List.{slice_get};
ghost use Rattle.std.specs.Option.{option_map};
ghost use Rattle.j39_frame.specs.Pgn.{pgn_raw};
ghost use Rattle.j39_frame.specs.Stamp.{stamp_micros};
ghost use Rattle.j39_node.specs.declared.kinds.Ending.TheVariants.{Done, Withdrawn};
ghost use Rattle.j39_node.specs.Reception.{asked_whom};
ghost use Rattle.j39_node.specs.History.{blank, can_broadcast, is_blank, past, can_send, is_sendable, message_from, is_directed, nothing, is_alike, is_one, latest};
ghost use Rattle.j39_node.specs.Transfers.{can_transfer};
ghost use Rattle.j39_node.specs.Is.{who_of, may_go, place_of, posted, stamped, Renews};

use crate::Ending;
use crate::incoming::whom;
use crate::own::{ACKNOWLEDGMENT, ADDRESS_CLAIMED, Own, asks_for, claim_id, is_own_group};
use arrayvec::ArrayVec;
use j39_frame::{Frame, GLOBAL_ADDRESS, Id, NULL_ADDRESS, Pgn, Stamp};
use j39_transport::{LONGEST, SHORTEST};

/// A message of one frame, with its token.
#[derive(Drop)]
pub(crate) struct Outgoing {
    pub(crate) token: u64,
    pub(crate) id: Id,
    pub(crate) bytes: ArrayVec<u8, 8>,
}

impl Default for Outgoing {
    fn default() -> Outgoing {
        Outgoing {
            token: 0,
            id: Id::new(0).unwrap(),
            bytes: ArrayVec::new(),
        }
    }
}

impl Outgoing {
    /// The message of this controller; `None` where it can't be sent.
    pub(crate) fn new(
        token: u64,
        own: &Own,
        priority: u8,
        group: Pgn,
        to: u8,
        bytes: &[u8],
    ) -> Option<Outgoing>
        ensures known { IsSome result ↔ (can_send (who_of nothing own.now) (record
            { priority = priority; group = pgn_raw group; to = to; bytes = bytes.now }) ≡ true) }
        ensures value { IfSome result (λ x. posted x ≡ (
          token,
          message_from (who_of nothing own.now) (record
              { priority = priority; group = pgn_raw group; to = to; bytes = bytes.now }),
        )) }
    {
        if !can_send(own, priority, group, to, bytes) {
            return None;
        }
        let id = Id::compose(priority, group, to, own.address)?;
        let mut kept = ArrayVec::new();
        kept.try_extend_from_slice(bytes).ok()?;
        Some(Outgoing {
            token,
            id,
            bytes: kept,
        })
    }

    /// What stands in the place of one that was withdrawn.
    pub(crate) fn blank() -> Outgoing
        ensures { posted result ≡ (0, blank) }
    {
        Outgoing {
            token: 0,
            id: claim_id(NULL_ADDRESS).unwrap(),
            bytes: ArrayVec::new(),
        }
    }

    /// Whether it was withdrawn.
    pub(crate) fn is_blank(&self) -> bool
        ensures { result ≡ is_blank (posted self.now) }
    {
        self.id.pgn().raw() == ADDRESS_CLAIMED
    }

    /// How it ends in its turn.
    pub(crate) fn ending(&self) -> Ending
        ensures { result ≡ (if is_blank (posted self.now) then Withdrawn else Done) }
    {
        if self.is_blank() {
            Ending::Withdrawn
        } else {
            Ending::Done
        }
    }

    /// Whether it may be withdrawn: it wasn't, and is no request.
    fn may_go(&self) -> bool
        ensures { result ≡ may_go (Some (posted self.now)) }
    {
        !(self.is_blank() || self.id.is_request())
    }

    /// The two have one priority, one group and one destination, and are no requests.
    pub(crate) fn is_alike(&self, other: &Outgoing) -> bool
        ensures { result ≡ is_alike (posted self.now).1 (posted other.now).1 }
    {
        self.id.priority() == other.id.priority()
            && self.id.pgn() == other.id.pgn()
            && (is_one(self.id.destination(), other.id.destination()) && !self.id.is_request())
    }

    /// Its frame.
    pub(crate) fn frame(&self, now: Stamp) -> Option<Frame>
        ensures { option_map stamped result ≡ Some (stamp_micros now, (posted self.now).1) }
    {
        Frame::new(now, self.id, self.bytes.as_slice())
    }

    /// Whose claim it asks for.
    pub(crate) fn asks_whom(&self) -> Option<u8>
        ensures { result ≡ asked_whom (posted self.now).1 }
    {
        if asks_for(self.id, self.bytes.as_slice(), ADDRESS_CLAIMED) {
            Some(whom(self.id))
        } else {
            None
        }
    }
}

fn is_one(one: Option<u8>, other: Option<u8>) -> bool
    ensures { result ≡ is_one one other }
{
    match (one, other) {
        (None, None) => true,
        (None, Some(_)) => false,
        (Some(_), None) => false,
        (Some(one), Some(other)) => one == other,
    }
}

/// The place of the last of these, from the nth on, that is alike.
pub(crate) fn latest(outgoing: &[Outgoing], n: usize, message: &Outgoing) -> Option<usize>
    ensures value { result ≡ latest (posted message.now).1 n 0 (map posted outgoing.now) None }
{
    let mut found = None;
    let mut place = 0;
    for waits in outgoing {
        found = later_of(n, place, message.is_alike(waits), found);
        place += 1;
    }
    found
}

/// This place, if it isn't before the nth and alike; else the one that was found.
fn later_of(n: usize, place: usize, is_alike: bool, found: Option<usize>) -> Option<usize>
    ensures { result ≡ (if nat_le n place && is_alike then Some place else found) }
{
    if n <= place && is_alike {
        Some(place)
    } else {
        found
    }
}

/// The message of this place, which keeps its token, is now this one.
pub(crate) fn renew(
    outgoing: &mut ArrayVec<Outgoing, 16>,
    place: usize,
    message: Outgoing,
) -> Option<u64>
    ensures renewed { IfSome result (λ token. Renews outgoing.old.items place (posted message) token outgoing.new.items) }
    ensures none { result ≡ None → length outgoing.old.items ≤ place }
{
    let token = outgoing.as_slice().get(place)?.token;
    outgoing.as_mut_slice()[place] = Outgoing {
        token,
        id: message.id,
        bytes: message.bytes,
    };
    Some(token)
}

/// The place of the message of this token, of which the first has the least, if it isn't before the nth and may be withdrawn.
pub(crate) fn place_of(outgoing: &[Outgoing], n: usize, token: u64) -> Option<usize>
    ensures { result ≡ place_of n token (map posted outgoing.now) }
{
    let first = outgoing.get(0)?.token;
    let place = usize::try_from(token.checked_sub(first)?).ok()?;
    if waits(outgoing, n, place) {
        Some(place)
    } else {
        None
    }
}

/// Whether one that may be withdrawn is at this place, and not before the nth.
fn waits(outgoing: &[Outgoing], n: usize, place: usize) -> bool
    ensures { result ≡ (nat_le n place && may_go (slice_get (map posted outgoing.now) place)) }
{
    match outgoing.get(place) {
        Some(message) => n <= place && message.may_go(),
        None => false,
    }
}

/// The place of the first from the nth on that wasn't withdrawn.
pub(crate) fn past(outgoing: &[Outgoing], n: usize) -> usize
    ensures { result ≡ past (map is_blank (map posted outgoing.now)) n }
{
    let mut place = n;
    while place < outgoing.len() && outgoing[place].is_blank() {
        place += 1;
    }
    place
}

fn can_send(own: &Own, priority: u8, group: Pgn, to: u8, bytes: &[u8]) -> bool
    ensures { result ≡ can_send (who_of nothing own.now) (record
        { priority = priority; group = pgn_raw group; to = to; bytes = bytes.now }) }
{
    priority < 8
        && is_sendable(group)
        && (to == GLOBAL_ADDRESS || (to < NULL_ADDRESS && !(to == own.address)))
        && bytes.len() <= 8
}

/// Whether it can be sent in packets to this address, with this priority among transfers.
pub(crate) fn can_transfer(own: &Own, priority: u8, group: Pgn, to: u8, bytes: &[u8]) -> bool
    ensures { result ≡ can_transfer (who_of nothing own.now) priority (pgn_raw group) to bytes.now }
{
    priority < 8 && can_broadcast(group, bytes) && (to < NULL_ADDRESS && !(to == own.address))
}

/// Whether it can be sent in packets to all.
pub(crate) fn can_broadcast(group: Pgn, bytes: &[u8]) -> bool
    ensures { result ≡ can_broadcast (pgn_raw group) bytes.now }
{
    is_sendable(group) && (SHORTEST <= bytes.len() && bytes.len() <= LONGEST)
}

/// Whether an identifier can have the group, and the stack itself doesn't speak it.
pub(crate) fn is_sendable(group: Pgn) -> bool
    ensures { result ≡ is_sendable (pgn_raw group) }
{
    !(is_directed(group) && !(group.raw() & 0xFF == 0))
        && !(is_own_group(group) || group.raw() == ACKNOWLEDGMENT)
}

fn is_directed(group: Pgn) -> bool
    ensures { result ≡ is_directed (pgn_raw group) }
{
    group.raw() >> 8 & 0xFF < 240
}
