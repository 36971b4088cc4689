//! A controller of the demo: the stack's own, with what it sends of its own accord.
ghost use Rattle.std.specs.Prelude.{◌≡◌, ◌↔◌, ◌⊎◌, ◌+◌, ◌<◌, ◌≤◌, ◌^◌, [], IfOk, IfSome, IsOk, IsSome, IsTrue, List, None, OnOk, length};
ghost use Rattle.std.specs.Option.{is_some, option_map};
ghost use Rattle.j39_frame.specs.Address.{IsAddress};
ghost use Rattle.j39_frame.specs.Stamp.{stamp_micros};
ghost use Rattle.j39_address.specs.Name.{name_raw};
ghost use Rattle.j39_node.specs.History.{Who, Call};
ghost use Rattle.j39_node.specs.Is.{Is};
ghost use Rattle.j39_node.specs.Ticks.{next_tick};
ghost use Rattle.bus_demo.specs.Calls.{Calls, Takes, held_after, is_handing};
ghost use Rattle.bus_demo.specs.Fates.{IsOf};
ghost use Rattle.bus_demo.specs.Moving.{Moves};
ghost use Rattle.bus_demo.specs.Playing.{IsHeard, IsHeardNoted, IsTurned, controller_of, target};
ghost use Rattle.bus_demo.specs.Publishing.{AreDueAgain};
ghost use Rattle.bus_demo.specs.Scenario.{IsPlayed, member_of};
ghost use Rattle.bus_demo.specs.Turning.{IsWish};

use crate::bus::book::Book;
use crate::bus::gauges::Gauges;
use crate::bus::publisher::Publisher;
use crate::bus::role::Role;
use crate::bus::station::{Sent, Station};
use j39_address::Name;
use j39_frame::{Frame, Id, Stamp, is_address};
use std::alloc::{AllocError, Global};

/// The time between two turns of a controller's loop, in microseconds.
const TURN: u64 = 10_000;

/// A controller on the bus, and what it sends of its own accord.
#[derive(Drop)]
pub struct Player {
    name: Name,
    /// The book has each broadcast in packets that it receives.
    is_display: bool,
    station: Station,
    publisher: Publisher,
    /// When its loop turns first, and next. Before, it hears the bus, and sends nothing.
    starts: u64,
    due: u64,
    /// The address that it was commanded to claim, and didn't yet.
    commanded: Option<u8>,
}

impl Player {
    /// One that has claimed no address yet; `None` for a preferred address above 253.
    pub fn new(alloc: Global, role: &Role, mut gauges: Gauges) -> Result<Option<Player>, AllocError>
        ensures known { IfOk result (λ found. IsSome found ↔ IsAddress role.now.preferred) }
        ensures fresh { IfOk result (λ found. IfSome found (IsPlayed (member_of role.now))) }

        // Its loop turns first within 10 ms of its start.
        ensures due { IfOk result (λ found. IfSome found (λ player. role.now.starts + 10000 < 2 ^ 64
            → (role.now.starts ≤ player.due) × (player.due < role.now.starts + 10000))) }
    {
        let starts = role.starts.saturating_add(u64::from(gauges.below(10_000)));
        let Some(station) = Station::new(alloc, role)? else {
            return Ok(None);
        };
        Ok(Some(Player {
            name: Name::new(role.name),
            is_display: role.is_display,
            station,
            publisher: Publisher::new(alloc, role, gauges),
            starts,
            due: starts,
            commanded: None,
        }))
    }

    /// The address that it holds.
    pub fn held(&self) -> Option<u8>
        ensures { (w : Who) (H : List Call) → Is w H (controller_of self.now) → result ≡ held_after w H }
    {
        self.station.held()
    }

    /// Its NAME.
    pub fn name(&self) -> Name
        ensures { result ≡ self.now.name }
    {
        self.name
    }

    /// Whether a message comes to it in packets: it waits for the next.
    pub fn is_receiving(&self) -> bool
        ensures { (w : Who) (H : List Call) → Is w H (controller_of self.now) → result ≡ is_some (next_tick w H) }
    {
        self.station.is_receiving()
    }

    /// The identifier of the frame that it wishes to send now.
    pub fn wish(&self, now: Stamp) -> Option<Id>
        ensures { IsWish (stamp_micros now) self.now result }
    {
        if now.micros() < self.starts {
            return None;
        }
        let frame = self.station.peek_frame(now)?;
        Some(frame.id)
    }

    /// The frame that it wishes to send now, which the bus takes.
    pub fn take_frame(&mut self, now: Stamp) -> Option<Sent>
        ensures takes { Takes (stamp_micros now) (option_map (λ sent. sent.frame) result)
            (controller_of self.old) (controller_of self.new) }
        ensures part { IfSome result (λ sent. IfSome sent.part (IsOf self.old.station)) }
        ensures rest { self.new ≡ record self.old { station = self.new.station } }
    {
        self.station.take_frame(now)
    }

    /// Lets time pass: the loop turns every 10 ms.
    pub fn pass(&mut self, now: Stamp, book: &mut Book) -> Result<(), AllocError>
        ensures waits { stamp_micros now < self.old.due
            → IsOk result × (self.new ≡ self.old) × (book.new ≡ book.old) }
        ensures turns { OnOk result (self.old.due ≤ stamp_micros now → IsTurned self.old (stamp_micros now) self.new) }
    {
        if now.micros() < self.due {
            return Ok(());
        }
        self.due = self.due.saturating_add(TURN);
        self.station.tick(now, book)?;
        self.move_on();
        self.publish(now, book)
    }

    /// Sends what is due, while an address is held that it may stay at.
    fn publish(&mut self, now: Stamp, book: &mut Book) -> Result<(), AllocError>
        ensures silent { (w : Who) (H : List Call) → Is w H (controller_of self.old)
            → (held_after w H ≡ None) ⊎ IsSome self.old.commanded → self.new ≡ self.old }
        ensures measures { OnOk result ((w : Who) (H : List Call) → Is w H (controller_of self.old)
            → IsSome (held_after w H) → self.old.commanded ≡ None
            → AreDueAgain (stamp_micros now) self.old.publisher.rates self.new.publisher.rates) }
        ensures hands_in { Calls (is_handing (stamp_micros now)) (controller_of self.old) (controller_of self.new) }
        ensures rest { self.new ≡ record self.old { station = self.new.station; publisher = self.new.publisher } }
    {
        match (self.station.held(), self.commanded) {
            (Some(address), None) => self.publisher.turn(address, now, &mut self.station, book),
            _ => Ok(()),
        }
    }

    /// Hears a frame that another controller sent.
    pub fn hear(&mut self, frame: &Frame, book: &mut Book) -> Result<(), AllocError>
        ensures heard { OnOk result (IsHeard self.old frame.now self.new) }
        ensures noted { OnOk result (IsHeardNoted self.old frame.now book.old book.new) }
        ensures count { length book.new.handed.items ≡ length book.old.handed.items }
        ensures rest { self.new ≡ record self.old { station = self.new.station; commanded = self.new.commanded } }
    {
        self.station.hear(frame, self.is_display, book)?;
        let command = self.station.command(self.name);
        self.commanded = target(command, self.commanded);
        self.move_on();
        Ok(())
    }

    /// Moves to the address that it was commanded to claim, or to a free one where its own is lost; not before all that it was
    /// handed has ended.
    fn move_on(&mut self)
        ensures moves { Moves self.old.commanded (controller_of self.old) self.new.commanded (controller_of self.new) }
        ensures rest { self.new ≡ record self.old { station = self.new.station; commanded = self.new.commanded } }
    {
        match self.commanded {
            Some(address) => {
                if self.station.move_to(address) {
                    self.commanded = None;
                }
            }
            None => self.station.move_if_lost(),
        }
    }
}

/// The address that it is to claim, by a command that it hears, or by the last one.
fn target(command: Option<u8>, last: Option<u8>) -> Option<u8>
    ensures { result ≡ target command last }
{
    match command {
        Some(address) => { if is_address(address) { command } else { last } }
        None => last,
    }
}
