//! The faults of a controller, and when it tells them: by DM1, each second, and where one begins or ends (J1939-73, 5.7.1).
ghost use Rattle.std.specs.Prelude.{◌≡◌, ◌↔◌, IfOk, IfSome, IsSome, IsTrue, None, Some};
ghost use Rattle.std.specs.List.{list_any};
ghost use Rattle.j39_faults.specs.FaultsMessage.{can_be_message, faults_message};
ghost use Rattle.bus_demo.specs.Faults.{are_due, codes_at, has_changed, lamp, lamps_at, stands, stands_severe};

use j39_faults::{Code, FaultsMessage, Flash, Lamp, LampState, Lamps, faults_message};
use std::alloc::{AllocError, Global};

/// The time between two messages of faults of which none begins or ends, in microseconds.
const PERIOD: u64 = 1_000_000;

/// A fault that stands for a time: a second at least, since a code is told to change at most once a second.
#[derive(Clone, Copy)]
pub struct Fault {
    pub code: Code,
    /// From this moment on, in microseconds, and before that one.
    pub begins: u64,
    pub ends: u64,
    /// The red lamp is on for it. The amber one is for each.
    pub is_severe: bool,
}

impl Fault {
    /// Whether it stands at this moment.
    fn stands(&self, micros: u64) -> bool
        ensures { result ≡ stands micros self.now }
    {
        self.begins <= micros && micros < self.ends
    }

    /// Whether it stands, and is severe.
    fn stands_severe(&self, micros: u64) -> bool
        ensures { result ≡ stands_severe micros self.now }
    {
        self.stands(micros) && self.is_severe
    }

    /// Whether it began or ended after one moment, and not after the other.
    fn has_changed(&self, since: u64, micros: u64) -> bool
        ensures { result ≡ has_changed since micros self.now }
    {
        (since < self.begins && self.begins <= micros) || (since < self.ends && self.ends <= micros)
    }
}

/// The faults that a controller has, and when it told them last.
#[derive(Drop)]
pub struct Diagnostics {
    faults: &'static [Fault],
    told: Option<u64>,
}

impl Diagnostics {
    /// None was told.
    pub fn new(faults: &'static [Fault]) -> Diagnostics
        ensures { (result.faults.now ≡ faults.now) × (result.told ≡ None) }
    {
        Diagnostics { faults, told: None }
    }

    /// Whether they are to be told at this moment. A controller without any never tells.
    pub fn are_due(&self, micros: u64) -> bool
        ensures { result ≡ are_due self.now.faults.now self.now.told micros }
    {
        match self.told {
            Some(told) => {
                PERIOD <= micros.saturating_sub(told) || has_changed(self.faults, told, micros)
            }
            None => !self.faults.is_empty(),
        }
    }

    /// The payload of DM1 at this moment; `None` where no message can tell them.
    pub fn message(&self, alloc: Global, micros: u64) -> Result<Option<FaultsMessage>, AllocError>
        ensures known { IfOk result (λ message. IsSome message
            ↔ IsTrue (can_be_message (codes_at self.now.faults.now micros))) }
        ensures bytes { IfOk result (λ message. IfSome message (λ m. m.items
            ≡ faults_message (lamps_at self.now.faults.now micros) (codes_at self.now.faults.now micros))) }
    {
        let codes = codes(alloc, self.faults, micros)?;
        Ok(faults_message(lamps(self.faults, micros), codes.as_slice()))
    }

    /// They are told at this moment.
    pub fn note(&mut self, micros: u64)
        ensures { self.new ≡ record self.old { told = Some micros } }
    {
        self.told = Some(micros);
    }
}

fn has_changed(faults: &[Fault], since: u64, micros: u64) -> bool
    ensures { result ≡ list_any (has_changed since micros) faults.now }
{
    faults.iter().any(|fault| fault.has_changed(since, micros))
}

/// The codes of those that stand at this moment, in their order.
fn codes(alloc: Global, faults: &[Fault], micros: u64) -> Result<Vec<Code>, AllocError>
    ensures { IfOk result (λ codes. codes.items ≡ codes_at faults.now micros) }
{
    let mut codes = Vec::new(alloc);
    for fault in faults {
        if fault.stands(micros) {
            codes.push(fault.code)?;
        }
    }
    Ok(codes)
}

/// The lamps at this moment.
fn lamps(faults: &[Fault], micros: u64) -> Lamps
    ensures { result ≡ lamps_at faults.now micros }
{
    Lamps {
        malfunction: lamp(false),
        red: lamp(is_any_severe(faults, micros)),
        amber: lamp(is_any(faults, micros)),
        protect: lamp(false),
    }
}

/// Whether one stands at this moment.
fn is_any(faults: &[Fault], micros: u64) -> bool
    ensures { result ≡ list_any (stands micros) faults.now }
{
    faults.iter().any(|fault| fault.stands(micros))
}

/// Whether a severe one does.
fn is_any_severe(faults: &[Fault], micros: u64) -> bool
    ensures { result ≡ list_any (stands_severe micros) faults.now }
{
    faults.iter().any(|fault| fault.stands_severe(micros))
}

/// A lamp that doesn't flash.
fn lamp(is_on: bool) -> Lamp
    ensures { result ≡ lamp is_on }
{
    Lamp {
        state: if is_on { LampState::On } else { LampState::Off },
        flash: Flash::Steady,
    }
}
