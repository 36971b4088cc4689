//! What a controller sends: single frames again and again, its faults, and planned messages, long ones among them.
ghost use Rattle.std.specs.Prelude.{◌≡◌, ◌<◌, ◌⊎◌, ℕ, IsOk, None, OnOk, Some, drop, false, slice_get};
ghost use Rattle.j39_address.specs.Name.{name_raw};
ghost use Rattle.j39_frame.specs.Stamp.{stamp_micros};
ghost use Rattle.bus_demo.specs.Calls.{Calls, is_handing};
ghost use Rattle.bus_demo.specs.Faults.{are_due};
ghost use Rattle.bus_demo.specs.Publishing.{AreDueAgain, AreNoted, IsQuiet, group_due, plan_due, rate_after};

use crate::bus::book::{Book, Fate, Handed};
use crate::bus::diagnostics::Diagnostics;
use crate::bus::gauges::{Gauges, Group};
use crate::bus::role::{Plan, Rate, Role};
use crate::bus::station::Station;
use j39_address::Name;
use j39_application::Outgoing;
use j39_frame::{GLOBAL_ADDRESS, Pgn, Stamp};
use std::alloc::{AllocError, Global};

/// The priority of a planned message of one frame, and of one of faults.
const SLOW: u8 = 6;

/// The group of the active faults (DM1).
const ACTIVE_FAULTS: u32 = 65_226;

/// What a controller sends of its own accord.
#[derive(Drop)]
pub struct Publisher {
    alloc: Global,
    name: Name,
    gauges: Gauges,
    rates: [Rate; 3],
    /// The messages that are still to be begun.
    plans: &'static [Plan],
    diagnostics: Diagnostics,
}

impl Publisher {
    /// One that has sent nothing.
    pub fn new(alloc: Global, role: &Role, gauges: Gauges) -> Publisher
        ensures name { name_raw result.name ≡ role.now.name }
        ensures gauges { result.gauges ≡ gauges }
        ensures rates { result.rates ≡ role.now.rates }
        ensures plans { result.plans.now ≡ role.now.plans.now }
    {
        Publisher {
            alloc,
            name: Name::new(role.name),
            gauges,
            rates: role.rates,
            plans: role.plans,
            diagnostics: Diagnostics::new(role.faults),
        }
    }

    /// A turn while this address is held: what is due is handed to the controller.
    pub fn turn(
        &mut self,
        address: u8,
        now: Stamp,
        station: &mut Station,
        book: &mut Book,
    ) -> Result<(), AllocError>
        ensures noted { OnOk result (AreNoted (name_raw self.old.name) book.old.handed.items book.new.handed.items) }
        ensures due { OnOk result (AreDueAgain (stamp_micros now) self.old.rates self.new.rates) }
        ensures calls { Calls (is_handing (stamp_micros now)) station.old.controller station.new.controller }
        ensures told { OnOk result ((self.new.diagnostics ≡ self.old.diagnostics)
            ⊎ (self.new.diagnostics ≡ record self.old.diagnostics { told = Some (stamp_micros now) })) }
        ensures plans { OnOk result ((self.new.plans.now ≡ self.old.plans.now)
            ⊎ (self.new.plans.now ≡ drop 1 self.old.plans.now)) }
        ensures quiet { IsQuiet (stamp_micros now) self.old → IsOk result × (self.new ≡ self.old)
            × (station.new ≡ station.old) × (book.new ≡ book.old) }
    {
        self.measure(address, now, station, book)?;
        self.tell_faults(address, now, station, book)?;
        self.begin(address, now, station, book)
    }

    /// Sends each group that is due.
    fn measure(
        &mut self,
        address: u8,
        now: Stamp,
        station: &mut Station,
        book: &mut Book,
    ) -> Result<(), AllocError>
        ensures noted { OnOk result (AreNoted (name_raw self.old.name) book.old.handed.items book.new.handed.items) }
        ensures due { OnOk result (AreDueAgain (stamp_micros now) self.old.rates self.new.rates) }
        ensures calls { Calls (is_handing (stamp_micros now)) station.old.controller station.new.controller }
        ensures quiet { ((k : ℕ) → group_due (stamp_micros now) (slice_get self.old.rates k) ≡ None)
            → IsOk result × (self.new ≡ self.old) × (station.new ≡ station.old) × (book.new ≡ book.old) }
        ensures rest { self.new ≡ record self.old { gauges = self.new.gauges; rates = self.new.rates } }
    {
        for place in 0..self.rates.len() {
            self.measure_at(place, address, now, station, book)?;
        }
        Ok(())
    }

    /// Sends the group of this place, where it is due.
    fn measure_at(
        &mut self,
        place: usize,
        address: u8,
        now: Stamp,
        station: &mut Station,
        book: &mut Book,
    ) -> Result<(), AllocError>
        requires { place < 3 }
        ensures noted { OnOk result (AreNoted (name_raw self.old.name) book.old.handed.items book.new.handed.items) }
        ensures rate { slice_get self.new.rates place ≡ rate_after (stamp_micros now) (slice_get self.old.rates place) }
        ensures others { (k : ℕ) → (k ≡ place → ⊥) → slice_get self.new.rates k ≡ slice_get self.old.rates k }
        ensures calls { Calls (is_handing (stamp_micros now)) station.old.controller station.new.controller }
        ensures quiet { group_due (stamp_micros now) (slice_get self.old.rates place) ≡ None
            → IsOk result × (self.new ≡ self.old) × (station.new ≡ station.old) × (book.new ≡ book.old) }
        ensures rest { self.new ≡ record self.old { gauges = self.new.gauges; rates = self.new.rates } }
    {
        let Some(group) = self.due_group(place, now) else {
            return Ok(());
        };
        let Some(payload) = self.gauges.payload(group) else {
            return Ok(());
        };
        let message = Outgoing {
            priority: group.priority(),
            group: group.pgn(),
            to: GLOBAL_ADDRESS,
            bytes: &payload,
        };
        self.hand_in(&message, address, now, station, book)?;
        Ok(())
    }

    /// The group of this place, where it is due, and then not again before its period is over.
    fn due_group(&mut self, place: usize, now: Stamp) -> Option<Group>
        requires { place < 3 }
        ensures group { result ≡ group_due (stamp_micros now) (slice_get self.old.rates place) }
        ensures rate { slice_get self.new.rates place ≡ rate_after (stamp_micros now) (slice_get self.old.rates place) }
        ensures others { (k : ℕ) → (k ≡ place → ⊥) → slice_get self.new.rates k ≡ slice_get self.old.rates k }
        ensures quiet { result ≡ None → self.new ≡ self.old }
        ensures rest { self.new ≡ record self.old { rates = self.new.rates } }
    {
        let rate = self.rates[place];
        if now.micros() < rate.due {
            return None;
        }
        self.rates[place].due = now.micros().saturating_add(rate.period);
        Some(rate.group)
    }

    /// Hands in a message, and notes it where it is accepted: whether it was.
    fn hand_in(
        &self,
        message: &Outgoing<'_>,
        address: u8,
        now: Stamp,
        station: &mut Station,
        book: &mut Book,
    ) -> Result<bool, AllocError>
        ensures noted { OnOk result (AreNoted (name_raw self.now.name) book.old.handed.items book.new.handed.items) }
        ensures calls { Calls (is_handing (stamp_micros now)) station.old.controller station.new.controller }
    {
        let number = book.handed().len();
        if !station.hand_in(message, number, now) {
            return Ok(false);
        }
        book.hand_in(Handed {
            name: self.name,
            address,
            to: message.to,
            pgn: message.group,
            payload: Vec::from_slice(self.alloc, message.bytes)?,
            fate: Fate::Open,
        })?;
        Ok(true)
    }

    /// Tells its faults, where they are due.
    fn tell_faults(
        &mut self,
        address: u8,
        now: Stamp,
        station: &mut Station,
        book: &mut Book,
    ) -> Result<(), AllocError>
        ensures noted { OnOk result (AreNoted (name_raw self.old.name) book.old.handed.items book.new.handed.items) }
        ensures calls { Calls (is_handing (stamp_micros now)) station.old.controller station.new.controller }
        ensures told { (self.new.diagnostics ≡ self.old.diagnostics)
            ⊎ (self.new.diagnostics ≡ record self.old.diagnostics { told = Some (stamp_micros now) }) }
        ensures quiet { are_due self.old.diagnostics.faults.now self.old.diagnostics.told (stamp_micros now) ≡ false
            → IsOk result × (self.new ≡ self.old) × (station.new ≡ station.old) × (book.new ≡ book.old) }
        ensures rest { self.new ≡ record self.old { diagnostics = self.new.diagnostics } }
    {
        if !self.diagnostics.are_due(now.micros()) {
            return Ok(());
        }
        let faults = self.diagnostics.message(self.alloc, now.micros())?;
        let Some((group, faults)) = Pgn::new(ACTIVE_FAULTS).zip(faults) else {
            return Ok(());
        };
        let message = Outgoing {
            priority: SLOW,
            group,
            to: GLOBAL_ADDRESS,
            bytes: faults.as_slice(),
        };
        if self.hand_in(&message, address, now, station, book)? {
            self.diagnostics.note(now.micros());
        }
        Ok(())
    }

    /// Begins the next planned message whose moment has come, one at a time.
    fn begin(
        &mut self,
        address: u8,
        now: Stamp,
        station: &mut Station,
        book: &mut Book,
    ) -> Result<(), AllocError>
        ensures noted { OnOk result (AreNoted (name_raw self.old.name) book.old.handed.items book.new.handed.items) }
        ensures calls { Calls (is_handing (stamp_micros now)) station.old.controller station.new.controller }
        ensures plans { (self.new.plans.now ≡ self.old.plans.now) ⊎ (self.new.plans.now ≡ drop 1 self.old.plans.now) }
        ensures quiet { plan_due (stamp_micros now) self.old.plans.now ≡ None → IsOk result × (self.new ≡ self.old)
            × (station.new ≡ station.old) × (book.new ≡ book.old) }
        ensures rest { self.new ≡ record self.old { plans = self.new.plans } }
    {
        let Some((plan, rest)) = self.plans.split_first() else {
            return Ok(());
        };
        if now.micros() < plan.at {
            return Ok(());
        }
        let Some(group) = Pgn::new(plan.pgn) else {
            return Ok(());
        };
        let message = Outgoing {
            priority: SLOW,
            group,
            to: plan.to,
            bytes: plan.payload,
        };
        if self.hand_in(&message, address, now, station, book)? {
            self.plans = rest;
        }
        Ok(())
    }
}
