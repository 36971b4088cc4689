//! What was handed in to send, and what became of it.
ghost use Rattle.std.specs.Prelude.{◌≡◌, ◌∷◌, ◌++◌, ◌↔◌, [], IfSome, IsTrue, None, length, false, true};
ghost use Rattle.std.specs.List.{count_by};
ghost use Rattle.std.specs.Result.{IfOk, OnErr, OnOk};
ghost use Rattle.bus_demo.specs.Delivered.{IsLastOf, IsNoneOf, IsOf, IsWholeAt};
ghost use Rattle.bus_demo.specs.Fates.{IsFated, is_whole};
ghost use Rattle.bus_demo.specs.Noted.{delivered_in};
ghost use Rattle.j39_frame.specs.Stamp.{stamp_micros};
ghost use Rattle.j39_transport.specs.ReceiverModel.{message_shown};

use j39_address::Name;
use j39_frame::{GLOBAL_ADDRESS, Pgn, Stamp};
use j39_transport::Message;
use std::alloc::{AllocError, Global};

/// A frame of a message that goes to all: the message's number, and whether it is the last one.
#[derive(Clone, Copy)]
pub struct MessageFrame {
    pub number: usize,
    pub is_last: bool,
}

/// A message in packets that a receiver delivered.
#[derive(Drop)]
pub struct Delivery {
    /// When its last packet was seen.
    pub stamp: Stamp,
    pub source: u8,
    pub pgn: Pgn,
    pub payload: Vec<u8>,
}

/// What became of a message.
#[derive(Clone, Copy, PartialEq, Eq)]
pub enum Fate {
    /// It is on its way.
    Open,
    /// Its last frame was seen on the bus, and none was lost that wasn't sent again.
    Whole(Stamp),
    /// A frame of it was lost, or its transfer failed.
    Lost,
    /// Its sender lost its address before it was whole.
    Withdrawn,
}

/// A message that a controller was told to send.
#[derive(Drop)]
pub struct Handed {
    /// The NAME of the controller, and the address that it held.
    pub name: Name,
    pub address: u8,
    /// Where it goes: 255 for all.
    pub to: u8,
    pub pgn: Pgn,
    pub payload: Vec<u8>,
    pub fate: Fate,
}

/// Whether it is the message that a receiver delivered: it goes to one controller, and has the source, the group and the
/// payload of what was delivered.
fn is_of(handed: &Handed, delivered: &Message<'_>) -> bool
    ensures { IsTrue result ↔ IsOf (message_shown delivered.now) handed.now }
{
    handed.to != GLOBAL_ADDRESS
        && handed.address == delivered.source
        && handed.pgn == delivered.pgn
        && handed.payload.as_slice() == delivered.payload
}

/// The number of the last message that is the one delivered.
fn last_of(handed: &[Handed], delivered: &Message<'_>) -> Option<usize>
    ensures last { IfSome result (IsLastOf (message_shown delivered.now) handed.now) }
    ensures none { result ≡ None → IsNoneOf (message_shown delivered.now) handed.now 0 }
{
    let mut place = handed.len();
    'places: while place > 0 {
        place -= 1;
        if is_of(&handed[place], delivered) {
            return Some(place);
        }
    }
    None
}

/// The book of a bus. It knows nothing of any log.
#[derive(Drop)]
pub struct Book {
    alloc: Global,
    handed: Vec<Handed>,
    deliveries: Vec<Delivery>,
    done: Vec<usize>,
}

impl Book {
    ghost use Rattle.std.specs.Prelude.{◌≡◌, ℕ, Some, slice_get};
    ghost use Rattle.bus_demo.specs.declared.bus.book.Handed.{Handed};
    ghost use Rattle.bus_demo.specs.declared.bus.book.Fate.TheVariants.{Open, Whole};

    /// An empty book.
    pub fn new(alloc: Global) -> Book
        ensures handed { result.handed.items ≡ [] }
        ensures delivered { result.deliveries.items ≡ [] }
        ensures done { result.done.items ≡ [] }
    {
        Book {
            alloc,
            handed: Vec::new(alloc),
            deliveries: Vec::new(alloc),
            done: Vec::new(alloc),
        }
    }

    /// Notes a message that is handed in now, and answers its number.
    pub fn hand_in(&mut self, message: Handed) -> Result<usize, AllocError>
        ensures number { IfOk result (λ number. number ≡ length self.old.handed.items) }
        ensures last { OnOk result (self.new.handed.items ≡ self.old.handed.items ++ message ∷ []) }
        ensures kept { OnErr result (self.new.handed.items ≡ self.old.handed.items) }
        ensures rest { self.new ≡ record self.old { handed = self.new.handed } }
    {
        let number = self.handed.len();
        self.handed.push(message)?;
        Ok(number)
    }

    /// Notes that a frame was seen on the bus.
    pub fn seen(&mut self, part: MessageFrame, now: Stamp)
        ensures open { part.is_last ≡ false → self.new ≡ self.old }
        ensures last { (message : Handed) → part.is_last ≡ true
            → slice_get self.old.handed.items part.number ≡ Some message → message.fate ≡ Open
            → slice_get self.new.handed.items part.number ≡ Some (record message { fate = Whole now }) }
        ensures settled { (message : Handed) → slice_get self.old.handed.items part.number ≡ Some message
            → (message.fate ≡ Open → ⊥) → slice_get self.new.handed.items part.number ≡ Some message }
        ensures others { (k : ℕ) → (k ≡ part.number → ⊥)
            → slice_get self.new.handed.items k ≡ slice_get self.old.handed.items k }
        ensures count { length self.new.handed.items ≡ length self.old.handed.items }
        ensures rest { self.new ≡ record self.old { handed = self.new.handed } }
    {
        if part.is_last {
            self.settle(part.number, Fate::Whole(now));
        }
    }

    /// Notes that a frame, which may be one of a message, was lost, or seen at this moment.
    pub fn note(&mut self, part: Option<MessageFrame>, is_lost: bool, now: Stamp)
        ensures { IsFated part is_lost now self.old self.new }
    {
        match part {
            Some(part) if is_lost => self.settle(part.number, Fate::Lost),
            Some(part) => self.seen(part, now),
            None => {}
        }
    }

    /// Notes what became of a message, where it was open.
    pub fn settle(&mut self, number: usize, fate: Fate)
        ensures count { length self.new.handed.items ≡ length self.old.handed.items }
        ensures others { (k : ℕ) → (k ≡ number → ⊥)
            → slice_get self.new.handed.items k ≡ slice_get self.old.handed.items k }
        ensures open { (message : Handed) → slice_get self.old.handed.items number ≡ Some message → message.fate ≡ Open
            → slice_get self.new.handed.items number ≡ Some (record message { fate = fate }) }
        ensures settled { (message : Handed) → slice_get self.old.handed.items number ≡ Some message
            → (message.fate ≡ Open → ⊥) → slice_get self.new.handed.items number ≡ Some message }
        ensures rest { self.new ≡ record self.old { handed = self.new.handed } }
    {
        if let Some(message) = self.handed.get_mut(number) {
            if message.fate == Fate::Open {
                message.fate = fate;
            }
        }
    }

    /// Notes what a receiver delivered: the message that was handed in last with this source, group and
    /// payload to one controller is whole.
    pub fn deliver(&mut self, message: &Message<'_>) -> Result<(), AllocError>
        ensures last { OnOk result (delivered_in self.new ≡ delivered_in self.old ++ (stamp_micros message.now.stamp, message_shown message.now) ∷ []) }
        ensures kept { OnErr result (self.new.deliveries.items ≡ self.old.deliveries.items) }
        ensures whole { (number : ℕ) (handed : Handed) → IsLastOf (message_shown message.now) self.old.handed.items number
            → slice_get self.old.handed.items number ≡ Some handed → handed.fate ≡ Open
            → IsWholeAt (stamp_micros message.now.stamp) handed (slice_get self.new.handed.items number) }
        ensures others { (k : ℕ) → (IsLastOf (message_shown message.now) self.old.handed.items k → ⊥)
            → slice_get self.new.handed.items k ≡ slice_get self.old.handed.items k }
        ensures count { length self.new.handed.items ≡ length self.old.handed.items }
        ensures done { self.new.done ≡ self.old.done }
    {
        self.note_whole(message);
        self.receive(message)
    }

    /// Notes what a receiver delivered, and nothing of who sent it.
    pub fn receive(&mut self, message: &Message<'_>) -> Result<(), AllocError>
        ensures last { OnOk result (delivered_in self.new ≡ delivered_in self.old ++ (stamp_micros message.now.stamp, message_shown message.now) ∷ []) }
        ensures kept { OnErr result (self.new.deliveries.items ≡ self.old.deliveries.items) }
        ensures rest { self.new ≡ record self.old { deliveries = self.new.deliveries } }
    {
        self.deliveries.push(Delivery {
            stamp: message.stamp,
            source: message.source,
            pgn: message.pgn,
            payload: Vec::from_slice(self.alloc, message.payload)?,
        })?;
        Ok(())
    }

    /// Notes that the message that was delivered is whole.
    fn note_whole(&mut self, delivered: &Message<'_>)
        ensures whole { (number : ℕ) (handed : Handed) → IsLastOf (message_shown delivered.now) self.old.handed.items number
            → slice_get self.old.handed.items number ≡ Some handed → handed.fate ≡ Open
            → IsWholeAt (stamp_micros delivered.now.stamp) handed (slice_get self.new.handed.items number) }
        ensures others { (k : ℕ) → (IsLastOf (message_shown delivered.now) self.old.handed.items k → ⊥)
            → slice_get self.new.handed.items k ≡ slice_get self.old.handed.items k }
        ensures count { length self.new.handed.items ≡ length self.old.handed.items }
        ensures rest { self.new ≡ record self.old { handed = self.new.handed } }
    {
        match last_of(self.handed.as_slice(), delivered) {
            Some(number) => self.settle(number, Fate::Whole(delivered.stamp)),
            None => {}
        }
    }

    /// Notes that a sender counts a message as done.
    pub fn count_done(&mut self, number: usize) -> Result<(), AllocError>
        ensures last { OnOk result (self.new.done.items ≡ self.old.done.items ++ number ∷ []) }
        ensures kept { OnErr result (self.new.done.items ≡ self.old.done.items) }
        ensures rest { self.new ≡ record self.old { done = self.new.done } }
    {
        self.done.push(number)?;
        Ok(())
    }

    /// All messages that were handed in, in order; each one's number is its place.
    pub fn handed(&self) -> &[Handed]
        ensures { result.now ≡ self.now.handed.items }
    {
        self.handed.as_slice()
    }

    /// How many of them are whole.
    pub fn whole(&self) -> usize
        ensures { result ≡ count_by is_whole self.now.handed.items }
    {
        self.handed
            .iter()
            .filter(|message| matches!(message.fate, Fate::Whole(_)))
            .count()
    }

    /// What receivers delivered, in order.
    pub fn deliveries(&self) -> &[Delivery]
        ensures { result.now ≡ self.now.deliveries.items }
    {
        self.deliveries.as_slice()
    }

    /// The numbers of the messages that senders count as done, in order.
    pub fn done(&self) -> &[usize]
        ensures { result.now ≡ self.now.done.items }
    {
        self.done.as_slice()
    }
}
