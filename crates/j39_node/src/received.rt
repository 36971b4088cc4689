//! Messages that were received.
ghost use Rattle.std.specs.Prelude.{◌≡◌, ◌&&◌, [], Some, length, map, nat_lt, not};
ghost use Rattle.std.specs.Option.{option_map};
ghost use Rattle.j39_address.specs.Name.{name_raw};
ghost use Rattle.j39_node.specs.Is.{received_by, sender_by, stamped, offered, counted};

use arrayvec::ArrayVec;
use j39_address::Name;
use j39_frame::{Frame, Pgn, Stamp};

/// A message that was heard.
#[derive(Drop)]
pub struct Received {
    /// When it was heard.
    pub stamp: Stamp,
    /// Who sent it, 0 to 253.
    pub source: u8,
    /// The NAME that held that address when it was heard, by the claims heard and the own ones that were taken; `None` where nobody
    /// did.
    pub name: Option<Name>,
    /// 255 where it is to all, or this controller's address; `None` for a group of PF 240 and up.
    pub destination: Option<u8>,
    /// Its priority, 0 (the highest) to 7.
    pub priority: u8,
    /// Its group.
    pub group: Pgn,
    /// Its data.
    pub bytes: ArrayVec<u8, 8>,
}

impl Default for Received {
    fn default() -> Received {
        Received {
            stamp: Stamp::new(0).unwrap(),
            source: 0,
            name: None,
            destination: None,
            priority: 0,
            group: Pgn::new(0).unwrap(),
            bytes: ArrayVec::new(),
        }
    }
}

impl Received {
    /// The message of a frame, whose source this NAME holds.
    pub(crate) fn of(frame: &Frame, name: Option<Name>) -> Option<Received>
        ensures message { option_map received_by result ≡ Some (stamped frame.now) }
        ensures sender { option_map sender_by result ≡ Some (option_map name_raw name) }
    {
        let mut bytes = ArrayVec::new();
        bytes.try_extend_from_slice(frame.bytes.as_slice()).ok()?;
        Some(Received {
            stamp: frame.stamp,
            source: frame.id.source(),
            name,
            destination: frame.id.destination(),
            priority: frame.id.priority(),
            group: frame.id.pgn(),
            bytes,
        })
    }
}

/// What was received and not read.
#[derive(Drop)]
pub(crate) struct Inbox {
    pub(crate) unread: ArrayVec<Received, 16>,
    pub(crate) missed: u64,
}

impl Inbox {
    /// Nothing was received.
    pub(crate) fn new() -> Inbox
        ensures unread { result.unread.items ≡ [] }
        ensures missed { result.missed ≡ 0 }
    {
        Inbox {
            unread: ArrayVec::new(),
            missed: 0,
        }
    }

    /// Whether a message that is wanted would be missed.
    pub(crate) fn misses(&self, wanted: bool) -> bool
        ensures { result ≡ (wanted && not (nat_lt (length self.now.unread.items) 16)) }
    {
        wanted && !(self.unread.len() < 16)
    }

    /// Keeps the frame, whose source this NAME holds, where it is wanted and there is room, else counts it as missed.
    pub(crate) fn offer(&mut self, wanted: bool, frame: &Frame, name: Option<Name>)
        ensures unread { map received_by self.new.unread.items
            ≡ offered wanted (stamped frame.now) (map received_by self.old.unread.items) }
        ensures senders { map sender_by self.new.unread.items
            ≡ offered wanted (option_map name_raw name) (map sender_by self.old.unread.items) }
        ensures missed { self.new.missed
            ≡ counted wanted (map received_by self.old.unread.items) self.old.missed }
    {
        if !wanted {
            return;
        }
        if self.unread.is_full() {
            self.missed = self.missed.saturating_add(1);
            return;
        }
        if let Some(message) = Received::of(frame, name) {
            self.unread.push(message);
        }
    }
}
