//! Messages that are sent in packets, each to one address (J1939-21, 5.10.3): by `j39_transfers`, at the controller's time.
ghost use Rattle.std.specs.Prelude.{◌≡◌, ◌+◌, ◌||◌, ℕ, nat_eq, None, Some, Err, Ok, Option, not, true, false, if◌then◌else◌};
ghost use Rattle.std.specs.Option.{option_map};
ghost use Rattle.std.specs.Result.{is_ok};
ghost use Rattle.j39_address.specs.Claims.{holder_in};
ghost use Rattle.j39_address.specs.Name.{name_raw};
ghost use Rattle.j39_frame.specs.Pgn.{pgn_raw};
ghost use Rattle.j39_frame.specs.Stamp.{stamp_micros};
ghost use Rattle.j39_node.specs.Times.{last_count};
ghost use Rattle.j39_node.specs.Transfers.{carried_by, order};
ghost use Rattle.j39_node.specs.declared.kinds.Refused.TheVariants as refused;
ghost use Rattle.j39_transfers.specs.Shown.{transfers_of};
ghost use Rattle.j39_transfers.specs.Transfers.{answer, awake, begins, can_move, hears, leaves, loses, moves, said};

use crate::Refused;
use j39_address::{Claims, Name};
use j39_frame::{Frame, Pgn, Stamp};
use j39_transfers::Outgoing;

/// The transfers from the address, and the token of the next.
#[derive(Drop)]
pub(crate) struct Transfers {
    pub(crate) all: j39_transfers::Transfers,
    pub(crate) next_token: u64,
}

impl Transfers {
    ghost use Rattle.j39_node.specs.Is.{port_of, stamped};

    /// None was accepted.
    #[inline(always)]
    pub(crate) fn new(all: j39_transfers::Transfers) -> Transfers
        ensures { port_of result ≡ record { state = transfers_of all; next_token = 0 } }
    {
        Transfers { all, next_token: 0 }
    }

    /// Begins anew at another address; what rests goes on to rest. False above 253, or where one isn't told to have ended: then nothing
    /// changes.
    pub(crate) fn move_to(&mut self, own: u8) -> bool
        ensures known { result ≡ can_move own (port_of self.old).state }
        ensures moved { result ≡ true → port_of self.new ≡ record { state = moves own (port_of self.old).state; next_token = 0 } }
        ensures stays { result ≡ false → self.new ≡ self.old }
    {
        if !self.all.move_to(own) {
            return false;
        }
        self.next_token = 0;
        true
    }

    /// A message is to be sent that can be, to an address that this NAME holds: answers its token, if there is room for it.
    pub(crate) fn begin(
        &mut self,
        priority: u8,
        group: Pgn,
        to: u8,
        bytes: &[u8],
        name: Option<Name>,
        clock: Stamp,
    ) -> Result<u64, Refused>
        ensures answers { result ≡ (if nat_eq self.old.next_token last_count
            || not (is_ok (answer (order self.old.next_token priority (pgn_raw group) to bytes.now) (awake (stamp_micros clock) (port_of self.old).state)))
            then Err refused.Full else Ok self.old.next_token) }
        ensures begins { (port_of self.new).state ≡ (if nat_eq self.old.next_token last_count then (port_of self.old).state
            else begins (order self.old.next_token priority (pgn_raw group) to bytes.now) (option_map name_raw name) (stamp_micros clock) (port_of self.old).state) }
        ensures token { self.new.next_token ≡ (if is_ok result then self.old.next_token + 1 else self.old.next_token) }
    {
        if self.next_token == u64::MAX {
            return Err(Refused::Full);
        }
        let message = Outgoing {
            token: self.next_token,
            destination: to,
            group,
            priority,
            payload: bytes,
        };
        match self.all.begin(&message, name, clock) {
            Ok(()) => {
                let token = self.next_token;
                self.next_token += 1;
                Ok(token)
            }
            Err(_refused) => Err(Refused::Full),
        }
    }

    /// A frame was heard, by which the own address is lost, or another may have another holder.
    pub(crate) fn hear(&mut self, is_lost: bool, holders: &Claims, frame: &Frame, clock: Stamp)
        ensures token { self.new.next_token ≡ self.old.next_token }
        ensures heard { (port_of self.new).state ≡ (if is_lost then loses (stamp_micros clock) (port_of self.old).state
            else hears frame.now (stamp_micros clock) (leaves None (holder_in holders.now) (stamp_micros clock) (port_of self.old).state)) }
    {
        if is_lost {
            self.all.lose(clock);
        } else {
            self.all.leave(None, holders, clock);
            self.all.hear(frame, clock);
        }
    }

    /// The frame that goes first.
    pub(crate) fn frame(&self, clock: Stamp, now: Stamp) -> Option<Frame>
        ensures { option_map stamped result
            ≡ option_map (λ m. (stamp_micros now, m)) (option_map carried_by (said (stamp_micros clock) (port_of self.now).state)) }
    {
        let (id, bytes) = self.all.first_frame(clock)?;
        Frame::new(now, id, &bytes)
    }
}
