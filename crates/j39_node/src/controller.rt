//! A controller.
ghost use Rattle.std.specs.Prelude.{IsTrue, true, ◌≡◌, ℕ, Option, List, [], ◌↔◌, ◌&&◌, ◌==◌, ◌+◌, min, IsSome, IfSome, Some, None, length, map, ◌<◌, ◌≤◌, false};
ghost use Rattle.std.specs.Option.{option_map};
ghost use Rattle.j39_frame.specs.Address.{IsAddress};
ghost use Rattle.j39_frame.specs.Pgn.{pgn_raw};
ghost use Rattle.j39_address.specs.Name.{name_raw};
ghost use Rattle.j39_address.specs.Claim.{claims_of};
ghost use Rattle.j39_address.specs.Holder.{IsHolderAfter};
ghost use Rattle.j39_address.specs.Node.{IsLeastFree, NoneFree};
ghost use Rattle.j39_sessions.specs.Sessions.{none_of};
ghost use Rattle.j39_sessions.specs.Shown.{sessions_of};
ghost use Rattle.j39_transfers.specs.Shown.{transfers_of};
ghost use Rattle.j39_transfers.specs.Transfers.{none_of as no_transfers};
ghost use Rattle.j39_node.specs.History.{Who, Call, missed, told_claims, nothing};
ghost use Rattle.j39_node.specs.Boxes.{how_many};
ghost use Rattle.j39_node.specs.Hearing.{unheard};
ghost use Rattle.j39_node.specs.Moving.{HasMoved, IsSettled, has_given, has_told};
ghost use Rattle.j39_node.specs.Is.{Is, IsRight, hearing_after, hearing_of, senders_of, status_after, who_for, who_of};

pub(crate) use due::sooner;

mod accepts;
mod due;
mod frames;
mod gives;
mod hears;

use crate::Setup;
use crate::asking::{self, Asking};
use crate::hearing::Hearing;
use crate::hold::{Hold, Standing};
use crate::incoming::Incoming;
use crate::lane::Lane;
use crate::news::Untold;
use crate::outgoing::Outgoing;
use crate::own::Own;
use crate::received::Inbox;
use crate::requests::Desk;
use crate::transfers::Transfers;
use arrayvec::ArrayVec;
use j39_address::{Claims, Name, Status};
use j39_frame::{NULL_ADDRESS, Pgn};
use j39_sessions::Sessions;
use j39_transport::LONGEST;
use std::alloc::{AllocError, Global};

/// A controller of one address: it claims it, defends it, sends messages of one frame and receives those of others, sends longer
/// ones in packets, to all or to one address, and receives those that come in packets to its own, or to all. Claims go first,
/// then acknowledgments, packets to all that are 100 ms late, what it says as a receiver, messages, packets to all, and packets
/// to one; but of three frames one is neither of the first two, and what it says as a receiver takes turns with all behind it
/// (own). `new` takes memory, and no other call does or fails.
#[derive(Drop)]
pub struct Controller {
    own: Own,
    hold: Hold,
    /// What was accepted and is not told to have ended, the oldest first.
    outgoing: ArrayVec<Outgoing, 16>,
    /// The place of the first of these that waits: those before it were taken or withdrawn.
    taken: usize,
    next_token: u64,
    asking: Asking,
    inbox: Inbox,
    desk: Desk,
    /// Who holds which address, by the claims heard and its own that were taken. Behind what ends at a multiple of eight bytes: so it
    /// is written where it stays.
    holders: Claims,
    lane: Lane,
    incoming: Incoming,
    transfers: Transfers,
    hearing: Hearing,
    news: Untold,
}

impl Controller {
    ghost use Rattle.std.specs.Prelude.{◌≡◌, ◌<◌, ℕ, List, [], ◌↔◌, ◌≤◌, length, map, min, IfOk, OnErr, IsSome, IfSome, Some, None};
    ghost use Rattle.j39_node.specs.Is.{Is};
    ghost use Rattle.j39_node.specs.History.{Who, Call};

    /// A controller. `None` for an address above 253, more than 16 groups served, or more than 64 subscribed, where no memory is
    /// taken. An error where memory is refused.
    pub fn new(alloc: Global, setup: &Setup<'_>) -> Result<Option<Controller>, AllocError>
        ensures known { IfOk result (λ found. IsSome found ↔ IsRight (who_for setup.now)) }
        ensures is { IfOk result (λ found. IfSome found (λ c. Is (who_for setup.now) [] c)) }
        ensures refused { OnErr result (IsRight (who_for setup.now)) }
    {
        let Some(own) = Own::new(setup) else {
            return Ok(None);
        };
        let free = Lane::room(alloc, setup.transfers)?;
        let Some(sessions) = Sessions::new(alloc, setup.address, setup.window, setup.sessions)?
        else {
            return Ok(None);
        };
        let Some(transfers) = j39_transfers::Transfers::new(alloc, setup.address, setup.transfers)?
        else {
            return Ok(None);
        };
        let hearing = Hearing::new(alloc, setup.broadcasts)?;
        Ok(Some(Controller::begun(own, sessions, transfers, hearing, free)))
    }

    /// The same, built in a box of its own: so it takes little stack.
    pub fn boxed(alloc: Global, setup: &Setup<'_>) -> Result<Option<Box<Controller>>, AllocError>
        ensures known { IfOk result (λ found. IsSome found ↔ IsRight (who_for setup.now)) }
        ensures is { IfOk result (λ found. IfSome found (λ b. Is (who_for setup.now) [] b.value)) }
        ensures refused { OnErr result (IsRight (who_for setup.now)) }
    {
        let Some(own) = Own::new(setup) else {
            return Ok(None);
        };
        let free = Lane::room(alloc, setup.transfers)?;
        let Some(transfers) = j39_transfers::Transfers::new(alloc, setup.address, setup.transfers)?
        else {
            return Ok(None);
        };
        let Some(sessions) = Sessions::new(alloc, setup.address, setup.window, setup.sessions)?
        else {
            return Ok(None);
        };
        let hearing = Hearing::new(alloc, setup.broadcasts)?;
        match Box::new(
            alloc,
            Controller::begun(own, sessions, transfers, hearing, free),
        ) {
            Ok(controller) => Ok(Some(controller)),
            Err(_) => Err(AllocError),
        }
    }

    /// Nothing was called of it.
    #[inline(always)]
    fn begun(
        own: Own,
        sessions: Sessions,
        transfers: j39_transfers::Transfers,
        hearing: Hearing,
        free: Option<Box<ArrayVec<u8, LONGEST>>>,
    ) -> Controller
        requires sessions { sessions_of sessions ≡ none_of own.address own.window own.sessions }
        requires transfers { transfers_of transfers ≡ no_transfers own.address own.transfers }
        requires hearing { hearing_of hearing ≡ hearing_after (who_of nothing own) [] }
        requires senders { senders_of hearing ≡ [] }
        requires free { how_many free ≡ min 1 own.transfers }
        ensures { Is (who_of nothing own) [] result }
    {
        Controller {
            own,
            hold: Hold::new(),
            outgoing: ArrayVec::new(),
            taken: 0,
            next_token: 0,
            asking: Asking::new(),
            inbox: Inbox::new(),
            desk: Desk::new(),
            holders: Claims::new(),
            lane: Lane::new(free),
            incoming: Incoming::new(sessions),
            transfers: Transfers::new(transfers),
            hearing,
            news: Untold::none(),
        }
    }

    /// How far it is with its address, at the moment of the last call: `Idle` until its first claim is taken.
    pub fn status(&self) -> Status
        ensures { (w : Who) (H : List Call) → Is w H self.now → result ≡ status_after w H }
    {
        match self.hold.standing {
            Standing::Idle => Status::Idle,
            Standing::Claimed(left) => {
                if left == 0 {
                    Status::Holding(self.own.address)
                } else {
                    Status::Claiming(self.own.address)
                }
            }
            Standing::Lost => Status::Cannot,
        }
    }

    /// The address that it claims.
    pub fn address(&self) -> u8
        ensures { (w : Who) (H : List Call) → Is w H self.now → result ≡ w.address }
    {
        self.own.address
    }

    /// The NAME that holds the address, by the claims heard and its own that were taken; `None` where nobody does.
    pub fn holder(&self, address: u8) -> Option<Name>
        ensures { (w : Who) (H : List Call) → Is w H self.now
            → IsHolderAfter (claims_of (told_claims w H)) address (option_map name_raw result) }
    {
        self.holders.holder(address)
    }

    /// The address that a NAME holds, by the same claims.
    pub fn address_of(&self, name: Name) -> Option<u8>
        ensures found { IfSome result (λ a. (w : Who) (H : List Call) → Is w H self.now
            → IsHolderAfter (claims_of (told_claims w H)) a (Some (name_raw name))) }
        ensures none { result ≡ None → (w : Who) (H : List Call) → Is w H self.now → (a : ℕ) → a < 254
            → IsHolderAfter (claims_of (told_claims w H)) a (Some (name_raw name)) → ⊥ }
    {
        j39_address::laws::holders();
        for address in 0..NULL_ADDRESS {
            if self.holder(address) == Some(name) {
                return Some(address);
            }
        }
        None
    }

    /// The least address of 128 to 247 that nobody holds, by the same claims (J1939-81, 4.4.3.3); `None` where there is none. A
    /// controller that lost its address, and whose NAME is arbitrary address capable, may move there.
    pub fn free_address(&self) -> Option<u8>
        ensures found { IfSome result (λ a. (w : Who) (H : List Call) → Is w H self.now
            → IsLeastFree (claims_of (told_claims w H)) a) }
        ensures none { result ≡ None → (w : Who) (H : List Call) → Is w H self.now → NoneFree (claims_of (told_claims w H)) }
    {
        for address in 128..248u8 {
            if self.holders.holder(address).is_none() {
                return Some(address);
            }
        }
        None
    }

    /// Begins anew at another address, which it will claim: with the same NAME and groups, with what it knows of who holds which
    /// address and which transfers rest, and with nothing else, as a controller that `new` gives. What was due is dropped, a
    /// session too, without a frame. False, where nothing changes, for an address above 253, or as long as something that was
    /// accepted isn't told to have ended, or something received or news wasn't taken.
    ///
    /// A command to move (J1939-81, 4.2.3) is received as a broadcast in packets: `j39_address::commanded_of` reads it.
    pub fn move_to(&mut self, address: u8) -> bool
        ensures known { (w : Who) (H : List Call) → Is w H self.old
            → (IsTrue result ↔ (IsAddress address × IsSettled w H)) }
        ensures moved { result ≡ true → (w : Who) (H : List Call) → Is w H self.old → HasMoved w H address self.new }
        ensures stays { result ≡ false → self.new ≡ self.old }
    {
        if !self.is_settled() {
            return false;
        }
        if !self.transfers.move_to(address) {
            return false;
        }
        let _known = self.incoming.move_to(address, self.hold.moment);
        self.own.address = address;
        self.hold = self.hold.moved();
        self.taken = 0;
        self.next_token = 0;
        self.inbox.missed = 0;
        self.desk.due.clear();
        self.lane.count = 0;
        self.lane.next_token = 0;
        self.hearing.begin_anew();
        true
    }

    /// How many messages for the program were missed, since sixteen lay unread, or of broadcasts in packets, since no box was free,
    /// or they broke off.
    pub fn missed(&self) -> u64
        ensures { (w : Who) (H : List Call) → Is w H self.now
            → result ≡ min (missed w H + unheard w H) 18446744073709551615 }
    {
        self.inbox.missed.saturating_add(self.hearing.missed)
    }

    /// All that was accepted, but for transfers, is told to have ended, and all that was received, and news, is taken.
    fn is_settled(&self) -> bool
        ensures { result ≡ (has_told self.now && has_given self.now) }
    {
        self.has_told() && self.has_given()
    }

    /// All that was accepted, but for transfers, is told to have ended.
    fn has_told(&self) -> bool
        ensures { result ≡ has_told self.now }
    {
        self.outgoing.is_empty() && self.lane.current.is_none() && self.asking.current.is_none()
    }

    /// All that was received, and news, is taken.
    fn has_given(&self) -> bool
        ensures { result ≡ has_given self.now }
    {
        self.inbox.unread.is_empty()
            && self.desk.waiting.is_empty()
            && !self.incoming.sessions.is_waiting()
            && !self.hearing.is_waiting()
            && self.news.is_none()
    }
}
