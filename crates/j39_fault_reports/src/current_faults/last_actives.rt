//! For each address what the last message of active codes of its controller says.
ghost use Rattle.std.specs.Option.{option_or};
ghost use Rattle.std.specs.Prelude.{◌≡◌, ◌≤◌, ◌<◌, ℕ, IfOk, None, OnErr, OnOk, Some, length, option_map, replicate, slice_set, if◌then◌else◌};
ghost use Rattle.j39_address.specs.Name.{name_raw};
ghost use Rattle.j39_listen.specs.HeardModel.{hearing_of};
ghost use Rattle.j39_memory.specs.Stored.{value_of};
ghost use Rattle.j39_fault_reports.specs.CurrentPlaces.{at, last_by, name_in, stored_in};
ghost use Rattle.j39_fault_reports.specs.Places.{AreLeft, HaveTaken, IsTakenOut, is_of, kept_before, kept_below};

use crate::current_faults::last_active::LastActive;
use crate::fault_news::account::is_byte;
use j39_address::Name;
use j39_faults::{Conversion, Lamps};
use j39_listen::Heard;
use j39_memory::Stored;
use std::alloc::{AllocError, Global};
use std::array;
use std::marker::Model;

/// Nobody spoke, or the last said this.
type ActiveBox = Option<Stored<LastActive>>;

/// As many places as a source byte has values; a message comes from 0 to 253 alone.
pub const SOURCES: usize = 256;

/// What the last message of each address says.
#[derive(Drop)]
pub struct LastActives {
    places: [ActiveBox; SOURCES],
}

impl Model for LastActives {
    ghost use Rattle.std.specs.Prelude.{◌≡◌, length};
    ghost use Rattle.j39_fault_reports.specs.CurrentPlaces.{LastActives, shown};

    ghost Value = { LastActives };

    ghost view = { λ t. shown t.places };

    ghost invariant = { λ t. length t.places ≡ 256 };
}

fn empty() -> [ActiveBox; SOURCES]
    ensures { result ≡ replicate 256 None }
{
    array::from_fn(
        |_| -> ActiveBox
            ensures { result ≡ None }
        { None },
    )
}

impl LastActives {
    /// Nobody spoke.
    #[tactic(auto, using(crate::proofs::NowPlaceLemmas::shown_new))]
    pub fn new() -> LastActives
        ensures { result ≡ replicate 256 None }
    {
        let places = empty();
        LastActives { places }
    }

    /// What the last message of an address says.
    pub fn get(&self, address: usize) -> Option<&LastActive>
        requires { address < 256 }
        ensures { option_map (λ last. last.now) result ≡ at self.now address }
    {
        match &self.places[address] {
            Some(last) => Some(&**last),
            None => None,
        }
    }

    /// Takes what a message of active codes says, behind what its controller said before, at whichever address. Memory is taken
    /// if nothing is kept of either.
    pub fn take(
        &mut self,
        alloc: Global,
        conversions: &[Conversion],
        heard: &Heard<'_>,
        lamps: Lamps,
    ) -> Result<(), AllocError>
        requires { length heard.now.message.payload.now ≤ 1785 }
        ensures taken { OnOk result (HaveTaken name_in self.old (option_map name_raw heard.now.name) heard.now.message.source
            (last_by conversions.now (kept_before name_in self.old (option_map name_raw heard.now.name) heard.now.message.source) (hearing_of heard.now) lamps) self.new) }
        ensures first { OnErr result (at self.old heard.now.message.source ≡ None) }
    {
        let _fits = is_byte(heard.message.source);
        let source = usize::from(heard.message.source);
        let before = self.take_before(source, heard.name);
        let last = next(alloc, before, conversions, heard, lamps)?;
        self.put(source, Some(last));
        Ok(())
    }

    /// Takes out what a NAME said, at whichever address, or else what was said at this one.
    fn take_before(&mut self, address: usize, name: Option<Name>) -> ActiveBox
        requires { address < 256 }
        ensures { IsTakenOut name_in self.old (option_map name_raw name) address (stored_in result) self.new }
    {
        let _ = &self.places;
        if self.is_of(address, name) {
            return self.take_out(address);
        }
        let moved = self.leave(name);
        let here = self.take_out(address);
        either(moved, here)
    }

    /// Takes out what a NAME said at whichever address.
    fn leave(&mut self, name: Option<Name>) -> ActiveBox
        ensures left { length self.old ≡ 256 → AreLeft name_in (option_map name_raw name) self.old 256 self.new }
        ensures found { length self.old ≡ 256 → stored_in result ≡ kept_below name_in self.old (option_map name_raw name) 256 }
    {
        let mut found = None;
        for address in 0..SOURCES {
            if self.is_of(address, name) {
                found = self.take_out(address);
            }
        }
        found
    }

    /// Whether what was said there was under this NAME.
    fn is_of(&self, address: usize, name: Option<Name>) -> bool
        requires { address < 256 }
        ensures { result ≡ is_of name_in (option_map name_raw name) (at self.now address) }
    {
        match self.get(address) {
            Some(last) => last.is_of(name),
            None => false,
        }
    }

    /// Takes out what was said there.
    #[tactic(auto, using(crate::proofs::NowPlaceLemmas::left_empty, crate::proofs::NowPlaceLemmas::at_shown))]
    fn take_out(&mut self, address: usize) -> ActiveBox
        requires { address < 256 }
        ensures after { self.new ≡ slice_set self.old address None }
        ensures value { stored_in result ≡ at self.old address }
    {
        self.places[address].take()
    }

    /// Puts in what is said there, if anything is.
    #[tactic(auto, using(crate::proofs::NowPlaceLemmas::put_in))]
    fn put(&mut self, address: usize, last: ActiveBox)
        requires { address < 256 }
        ensures { self.new ≡ slice_set self.old address (stored_in last) }
    {
        self.places[address] = last;
    }
}

/// The first that was said.
fn either(moved: ActiveBox, here: ActiveBox) -> ActiveBox
    ensures { stored_in result ≡ option_or (stored_in moved) (stored_in here) }
{
    match moved {
        Some(last) => Some(last),
        None => here,
    }
}

/// What a message says behind what was said before, in the same box if there is one.
fn next(
    alloc: Global,
    before: ActiveBox,
    conversions: &[Conversion],
    heard: &Heard<'_>,
    lamps: Lamps,
) -> Result<Stored<LastActive>, AllocError>
    requires { length heard.now.message.payload.now ≤ 1785 }
    ensures said { IfOk result (λ last. value_of last ≡ last_by conversions.now (stored_in before) (hearing_of heard.now) lamps) }
    ensures first { OnErr result (stored_in before ≡ None) }
{
    match before {
        Some(mut last) => {
            last.go_on(conversions, heard, lamps);
            Ok(last)
        }
        None => first(alloc, conversions, heard, lamps),
    }
}

/// What the first message of an address says, in a box.
#[inline(never)]
fn first(
    alloc: Global,
    conversions: &[Conversion],
    heard: &Heard<'_>,
    lamps: Lamps,
) -> Result<Stored<LastActive>, AllocError>
    requires { length heard.now.message.payload.now ≤ 1785 }
    ensures { IfOk result (λ last. value_of last ≡ last_by conversions.now None (hearing_of heard.now) lamps) }
{
    Stored::new(alloc, LastActive::first(conversions, heard, lamps))
}
