//! A controller, and the numbers that the book has for what it was handed.
ghost use Rattle.std.specs.Prelude.{◌≡◌, ◌↔◌, ◌++◌, ℕ, [], Bool, IfOk, IfSome, IsSome, IsTrue, List, OnOk, Option, false, length, slice_get, true};
ghost use Rattle.std.specs.Option.{is_some, option_map};
ghost use Rattle.j39_transfers.specs.declared.kinds.Ending.{Ending as TransferEnding};
ghost use Rattle.j39_frame.specs.Address.{IsAddress};
ghost use Rattle.j39_frame.specs.Stamp.{stamp_micros};
ghost use Rattle.j39_address.specs.Name.{name_raw};
ghost use Rattle.j39_node.specs.History.{Who, Call};
ghost use Rattle.j39_application.specs.Sending.{draft_of};
ghost use Rattle.j39_node.specs.History.Call.{ReleaseTransfer, TakeTransferEnded};
ghost use Rattle.j39_node.specs.Hearing.{waiting};
ghost use Rattle.j39_node.specs.Is.{Is, next_frame, stamped};
ghost use Rattle.j39_node.specs.Moving.{IsSettled};
ghost use Rattle.j39_node.specs.Reception.{reception};
ghost use Rattle.j39_node.specs.Ticks.{next_tick};
ghost use Rattle.j39_node.specs.Transfers.{next_transfer_ended};
ghost use Rattle.bus_demo.specs.Calls.{Calls, Continues, HandsIn, Heard, Takes, Ticked, command_to, held_after, is_handing, is_taking};
ghost use Rattle.bus_demo.specs.Moving.{MovesIfLost, MovesTo};
ghost use Rattle.bus_demo.specs.Noted.{IsNoted, delivered_in, done_by, listed, shown_to};
ghost use Rattle.bus_demo.specs.Fates.{IsOf};
ghost use Rattle.bus_demo.specs.Scenario.{member_of, who_is};

use crate::bus::book::{Book, Fate, MessageFrame};
use crate::bus::role::Role;
use arrayvec::ArrayVec;
use j39_address::{Name, Status, commanded_of};
use j39_application::{End, Outgoing, Way, send, take_ended};
use j39_frame::{Frame, GLOBAL_ADDRESS, Stamp};
use j39_node::{Controller, Setup, TransferEnding};
use std::alloc::{AllocError, Global};

/// A frame that is sent, and the message of which it is one.
#[derive(Drop)]
pub struct Sent {
    pub frame: Frame,
    pub part: Option<MessageFrame>,
}

/// How many messages in packets it receives at once.
const SESSIONS: u8 = 4;

/// How many messages in packets it sends to others' addresses at once.
const TRANSFERS: u8 = 1;

/// How many packets it lets a sender send at once.
const WINDOW: u8 = 16;

/// A controller, and the numbers that the book has for what it was handed and has not told to have ended.
#[derive(Drop)]
pub struct Station {
    controller: Controller,
    /// Those of one frame, the oldest first.
    singles: ArrayVec<usize, 16>,
    broadcast: Option<usize>,
    transfer: Option<usize>,
}

impl Station {
    /// One that has claimed no address yet; `None` for an address above 253.
    pub fn new(alloc: Global, role: &Role) -> Result<Option<Station>, AllocError>
        ensures known { IfOk result (λ found. IsSome found ↔ IsAddress role.now.preferred) }
        ensures fresh { IfOk result (λ found. IfSome found (λ station. Is (who_is (member_of role.now)) [] station.controller)) }
    {
        let setup = Setup {
            name: Name::new(role.name),
            address: role.preferred,
            delay: 0,
            served: &[],
            subscribed: None,
            broadcasts: role.broadcasts,
            sessions: SESSIONS,
            transfers: TRANSFERS,
            window: WINDOW,
        };
        let Some(controller) = Controller::new(alloc, &setup)? else {
            return Ok(None);
        };
        Ok(Some(Station {
            controller,
            singles: ArrayVec::new(),
            broadcast: None,
            transfer: None,
        }))
    }

    /// The address that it holds.
    pub fn held(&self) -> Option<u8>
        ensures { (w : Who) (H : List Call) → Is w H self.now.controller → result ≡ held_after w H }
    {
        match self.controller.status() {
            Status::Holding(address) => Some(address),
            Status::Claiming(_) => None,
            Status::Idle => None,
            Status::Cannot => None,
        }
    }

    /// Whether a message comes to it in packets: it waits for the next.
    pub fn is_receiving(&self) -> bool
        ensures { (w : Who) (H : List Call) → Is w H self.now.controller → result ≡ is_some (next_tick w H) }
    {
        match self.controller.next_tick() {
            Some(_due) => true,
            None => false,
        }
    }

    /// The frame that it would send now.
    pub fn peek_frame(&self, now: Stamp) -> Option<Frame>
        ensures { (w : Who) (H : List Call) → Is w H self.now.controller
            → option_map stamped result ≡ next_frame w H (stamp_micros now) }
    {
        self.controller.peek_frame(now)
    }

    /// The frame that it sends now.
    pub fn take_frame(&mut self, now: Stamp) -> Option<Sent>
        ensures calls { Takes (stamp_micros now) (option_map (λ sent. sent.frame) result)
            self.old.controller self.new.controller }
        ensures part { IfSome result (λ sent. IfSome sent.part (IsOf self.old)) }
    {
        let frame = self.controller.take_frame(now)?;
        let part = self.part_of(&frame);
        Some(Sent { frame, part })
    }

    /// The message to all of which the frame that was taken last is one.
    fn part_of(&mut self, frame: &Frame) -> Option<MessageFrame>
        ensures calls { Calls is_taking self.old.controller self.new.controller }
        ensures part { IfSome result (IsOf self.old) }
    {
        if self.controller.take_ended().is_some() {
            return self.take_single();
        }
        let is_last = self.controller.take_broadcast_ended().is_some();
        self.take_packet(frame, is_last)
    }

    /// The frame is that of the oldest message of one frame, which is over.
    fn take_single(&mut self) -> Option<MessageFrame>
        ensures part { IfSome result (IsOf self.old) }
        ensures rest { self.new ≡ record self.old { singles = self.new.singles } }
    {
        let number = self.first_single()?;
        Some(MessageFrame {
            number,
            is_last: true,
        })
    }

    /// The frame is one of the broadcast, if of any, and its last one or not.
    fn take_packet(&mut self, frame: &Frame, is_last: bool) -> Option<MessageFrame>
        ensures part { IfSome result (IsOf self.old) }
        ensures rest { self.new ≡ record self.old { broadcast = self.new.broadcast } }
    {
        let number = self.broadcast?;
        if is_last {
            self.broadcast = None;
        }
        if is_packet_to_all(frame) {
            Some(MessageFrame { number, is_last })
        } else {
            None
        }
    }

    /// The number of the oldest message of one frame, which is over.
    fn first_single(&mut self) -> Option<usize>
        ensures first { result ≡ slice_get self.old.singles.items 0 }
        ensures rest { self.new ≡ record self.old { singles = self.new.singles } }
    {
        if self.singles.is_empty() {
            return None;
        }
        let first = self.singles.remove(0);
        Some(first)
    }

    /// Hands in a message, which has this number in the book: whether it was accepted.
    pub fn hand_in(&mut self, message: &Outgoing<'_>, number: usize, now: Stamp) -> bool
        ensures goes { HandsIn (stamp_micros now) (draft_of message.now) result self.old.controller self.new.controller }
        ensures calls { Calls (is_handing (stamp_micros now)) self.old.controller self.new.controller }
    {
        match send(&mut self.controller, now, message) {
            Ok(token) => {
                self.number(token.way, number);
                true
            }
            Err(_refused) => false,
        }
    }

    /// What was accepted to go this way has this number. Of one frame no more are kept than a controller accepts.
    fn number(&mut self, way: Way, number: usize)
        ensures { self.new.controller ≡ self.old.controller }
    {
        match way {
            Way::Frame => self.singles.try_push(number).unwrap_or(()),
            Way::Broadcast => self.broadcast = Some(number),
            Way::Transfer => self.transfer = Some(number),
        }
    }

    /// Lets time pass, and notes how messages ended.
    pub fn tick(&mut self, now: Stamp, book: &mut Book) -> Result<(), AllocError>
        ensures ticks { OnOk result (Ticked (stamp_micros now) self.old.controller self.new.controller) }
        ensures count { length book.new.handed.items ≡ length book.old.handed.items }
    {
        self.controller.tick(now);
        self.settle(book)?;
        self.withdraw(book);
        Ok(())
    }

    /// Hears a frame of another controller, and notes what was received, and how messages ended.
    pub fn hear(
        &mut self,
        frame: &Frame,
        is_display: bool,
        book: &mut Book,
    ) -> Result<(), AllocError>
        ensures hears { OnOk result (Heard frame.now self.old.controller self.new.controller) }
        ensures noted { OnOk result ((w : Who) (H : List Call) → Is w H self.old.controller
            → IsNoted w H frame.now is_display self.old.transfer book.old book.new) }
        ensures count { length book.new.handed.items ≡ length book.old.handed.items }
    {
        self.controller.hear(frame, frame.stamp);
        self.show(is_display, book)?;
        self.settle(book)?;
        self.deliver(book)?;
        self.withdraw(book);
        self.clear();
        Ok(())
    }

    /// Takes the message that was broadcast in packets: the address that it commands, if it does and this is the NAME.
    pub fn command(&mut self, name: Name) -> Option<u8>
        ensures value { (w : Who) (H : List Call) → Is w H self.old.controller
            → result ≡ command_to (name_raw name) (slice_get (waiting w H) 0) }
        ensures calls { Calls is_taking self.old.controller self.new.controller }
    {
        let address = self.commanded(name);
        self.controller.release_broadcast();
        address
    }

    fn commanded(&self, name: Name) -> Option<u8>
        ensures { (w : Who) (H : List Call) → Is w H self.now.controller
            → result ≡ command_to (name_raw name) (slice_get (waiting w H) 0) }
    {
        let message = self.controller.received_broadcast()?;
        let (whom, address) = commanded_of(&message)?;
        if whom == name { Some(address) } else { None }
    }

    /// Begins anew at an address, if it is one and all is over: whether it did.
    pub fn move_to(&mut self, address: u8) -> bool
        ensures known { (w : Who) (H : List Call) → Is w H self.old.controller
            → (IsTrue result ↔ (IsAddress address × IsSettled w H)) }
        ensures moved { result ≡ true → MovesTo address self.old.controller self.new.controller }
        ensures stays { result ≡ false → self.new ≡ self.old }
    {
        self.controller.move_to(address)
    }

    /// Begins anew at a free address, if its own is lost and all is over.
    pub fn move_if_lost(&mut self)
        ensures { MovesIfLost self.old.controller self.new.controller }
    {
        if self.controller.status() != Status::Cannot {
            return;
        }
        if let Some(address) = self.controller.free_address() {
            self.controller.move_to(address);
        }
    }

    /// Notes how a transfer ended.
    fn settle(&mut self, book: &mut Book) -> Result<(), AllocError>
        ensures done { OnOk result ((w : Who) (H : List Call) → Is w H self.old.controller
            → book.new.done.items ≡ book.old.done.items ++ done_by (next_transfer_ended w H) self.old.transfer) }
        ensures calls { (answer : Option (ℕ × TransferEnding))
            × Continues (TakeTransferEnded answer) self.old.controller self.new.controller }
        ensures deliveries { book.new.deliveries ≡ book.old.deliveries }
        ensures count { length book.new.handed.items ≡ length book.old.handed.items }
    {
        let Some((_token, ending)) = self.controller.take_transfer_ended() else {
            return Ok(());
        };
        let Some(number) = self.transfer else {
            return Ok(());
        };
        self.transfer = None;
        match ending {
            TransferEnding::Done => return book.count_done(number),
            TransferEnding::Withdrawn => book.settle(number, Fate::Withdrawn),
            TransferEnding::Failed(_) => book.settle(number, Fate::Lost),
            TransferEnding::Gone => book.settle(number, Fate::Lost),
        }
        Ok(())
    }

    /// Notes the message in packets that came to all, where it is a display.
    fn show(&self, is_display: bool, book: &mut Book) -> Result<(), AllocError>
        ensures shown { OnOk result ((w : Who) (H : List Call) → Is w H self.now.controller
            → delivered_in book.new ≡ delivered_in book.old ++ shown_to is_display (slice_get (waiting w H) 0)) }
        ensures rest { book.new ≡ record book.old { deliveries = book.new.deliveries } }
    {
        if !is_display {
            return Ok(());
        }
        match self.controller.received_broadcast() {
            Some(message) => book.receive(&message),
            None => Ok(()),
        }
    }

    /// Notes the message in packets that came to its address.
    fn deliver(&mut self, book: &mut Book) -> Result<(), AllocError>
        ensures delivered { OnOk result ((w : Who) (H : List Call) → Is w H self.old.controller
            → delivered_in book.new ≡ delivered_in book.old ++ listed (slice_get (reception w H).waits 0)) }
        ensures calls { OnOk result ((waits : Bool)
            × Continues (ReleaseTransfer waits) self.old.controller self.new.controller) }
        ensures done { book.new.done ≡ book.old.done }
        ensures count { length book.new.handed.items ≡ length book.old.handed.items }
    {
        if let Some(message) = self.controller.received_transfer() {
            book.deliver(&message)?;
        }
        self.controller.release_transfer();
        Ok(())
    }

    /// Notes the messages to all that won't go, since the address is lost: sixteen of one frame at most, and a broadcast.
    fn withdraw(&mut self, book: &mut Book)
        ensures calls { Calls is_taking self.old.controller self.new.controller }
        ensures fates { book.new ≡ record book.old { handed = book.new.handed } }
        ensures count { length book.new.handed.items ≡ length book.old.handed.items }
    {
        for _message in 0..17 {
            self.withdraw_next(book);
        }
    }

    fn withdraw_next(&mut self, book: &mut Book)
        ensures calls { Calls is_taking self.old.controller self.new.controller }
        ensures fates { book.new ≡ record book.old { handed = book.new.handed } }
        ensures count { length book.new.handed.items ≡ length book.old.handed.items }
    {
        if let Some(number) = self.withdrawn() {
            book.settle(number, Fate::Withdrawn);
        }
    }

    /// The number of the next one. Of a transfer the end was noted before.
    fn withdrawn(&mut self) -> Option<usize>
        ensures { Calls is_taking self.old.controller self.new.controller }
    {
        match take_ended(&mut self.controller) {
            Some((_token, End::Frame(_))) => self.first_single(),
            Some((_token, End::Broadcast(_))) => self.broadcast.take(),
            _ => None,
        }
    }

    /// Takes what nobody here reads: messages of one frame, of which sixteen wait at most, and news of three kinds.
    fn clear(&mut self)
        ensures { Calls is_taking self.old.controller self.new.controller }
    {
        for _message in 0..16 {
            self.controller.take_received();
        }
        self.controller.take_news();
        self.controller.take_news();
        self.controller.take_news();
    }
}

/// Whether it is a frame of a message in packets to all.
fn is_packet_to_all(frame: &Frame) -> bool {
    (frame.id.is_transport_control() || frame.id.is_transport_data())
        && frame.id.destination() == Some(GLOBAL_ADDRESS)
}
