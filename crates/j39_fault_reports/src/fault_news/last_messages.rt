//! For each address what was said last.
ghost use Rattle.std.specs.Option.{option_or};
ghost use Rattle.std.specs.Prelude.{◌≡◌, ◌<◌, IfOk, None, OnErr, OnOk, Some, length, option_map, replicate, slice_set};
ghost use Rattle.j39_address.specs.Name.{name_raw};
ghost use Rattle.j39_memory.specs.Stored.{value_of};
ghost use Rattle.j39_fault_reports.specs.LastMessages.{at, differs, name_of, stored_in, said_by};
ghost use Rattle.j39_fault_reports.specs.Places.{AreLeft, IsTakenOut, is_of, kept_below};

use crate::fault_news::last_message::LastMessage;
use j39_address::Name;
use j39_faults::Version;
use j39_memory::Stored;
use std::alloc::{AllocError, Global};
use std::array;
use std::marker::Model;

/// Nothing was said, or this.
type MessageBox = Option<Stored<LastMessage>>;

/// As many places as a source byte has values; a message comes from 0 to 253 alone.
const SOURCES: usize = 256;

fn empty() -> [MessageBox; SOURCES]
    ensures { result ≡ replicate 256 None }
{
    array::from_fn(
        |_| -> MessageBox
            ensures { result ≡ None }
        { None },
    )
}

/// What was said last by each address, in messages of one group.
#[derive(Drop)]
pub(crate) struct LastMessages {
    places: [MessageBox; SOURCES],
}

impl Model for LastMessages {
    ghost use Rattle.std.specs.Prelude.{◌≡◌, length};
    ghost use Rattle.j39_fault_reports.specs.LastMessages.{LastMessages, shown};

    ghost Value = { LastMessages };

    ghost view = { λ t. shown t.places };

    ghost invariant = { λ t. length t.places ≡ 256 };
}

impl LastMessages {
    /// Nobody said anything.
    #[tactic(auto, using(crate::proofs::PlaceLemmas::shown_new))]
    pub(crate) fn new() -> LastMessages
        ensures { result ≡ replicate 256 None }
    {
        let places = empty();
        LastMessages { places }
    }

    /// Takes out what a NAME said, at whichever address, or else what was said at this one.
    pub(crate) fn take_before(&mut self, address: usize, name: Option<Name>) -> MessageBox
        requires { address < 256 }
        ensures { IsTakenOut name_of self.old (option_map name_raw name) address (stored_in result) self.new }
    {
        let _ = &self.places;
        if self.is_of(address, name) {
            return self.take(address);
        }
        let moved = self.leave(name);
        let here = self.take(address);
        either(moved, here)
    }

    /// Takes out what a NAME said at whichever address.
    fn leave(&mut self, name: Option<Name>) -> MessageBox
        ensures left { length self.old ≡ 256 → AreLeft name_of (option_map name_raw name) self.old 256 self.new }
        ensures found { length self.old ≡ 256 → stored_in result ≡ kept_below name_of self.old (option_map name_raw name) 256 }
    {
        let mut found = None;
        for address in 0..SOURCES {
            if self.is_of(address, name) {
                found = self.take(address);
            }
        }
        found
    }

    /// Whether what was said there was under this NAME.
    #[tactic(auto, using(crate::proofs::PlaceLemmas::shown_at))]
    fn is_of(&self, address: usize, name: Option<Name>) -> bool
        requires { address < 256 }
        ensures { result ≡ is_of name_of (option_map name_raw name) (at self.now address) }
    {
        match &self.places[address] {
            Some(said) => said.is_of(name),
            None => false,
        }
    }

    /// Takes out what was said last at an address.
    #[tactic(auto, using(crate::proofs::PlaceLemmas::left_empty, crate::proofs::PlaceLemmas::shown_at))]
    fn take(&mut self, address: usize) -> MessageBox
        requires { address < 256 }
        ensures after { self.new ≡ slice_set self.old address None }
        ensures value { stored_in result ≡ at self.old address }
    {
        self.places[address].take()
    }

    /// Puts in what an address says.
    #[tactic(auto, using(crate::proofs::PlaceLemmas::put_in))]
    pub(crate) fn put(&mut self, source: u8, said: Stored<LastMessage>)
        ensures { self.new ≡ slice_set self.old source (Some (value_of said)) }
    {
        self.places[usize::from(source)] = Some(said);
    }

    /// Notes what an address says, and answers whether that is news by this version of the conversion. Memory is taken where the address said nothing
    /// before.
    #[tactic(auto, using(crate::proofs::PlaceLemmas::set_again, crate::proofs::PlaceLemmas::empty_again))]
    pub(crate) fn note(
        &mut self,
        alloc: Global,
        version: Option<Version>,
        source: u8,
        payload: &[u8],
        name: Option<Name>,
    ) -> Result<bool, AllocError>
        ensures news { IfOk result (λ is_news. is_news
            ≡ differs version (at self.old source) payload.now (option_map name_raw name)) }
        ensures after { OnOk result (self.new
            ≡ slice_set self.old source (Some (said_by payload.now (option_map name_raw name)))) }
        ensures first { OnErr result (at self.old source ≡ None) }
        ensures kept { OnErr result (self.new ≡ self.old) }
    {
        let Some(mut said) = self.take(usize::from(source)) else {
            self.put(source, Stored::new(alloc, LastMessage::new(payload, name))?);
            return Ok(true);
        };
        let is_known = said.is(version, payload, name);
        said.replace(payload, name);
        self.put(source, said);
        Ok(!is_known)
    }
}

/// The first that was said.
fn either(moved: MessageBox, here: MessageBox) -> MessageBox
    ensures { stored_in result ≡ option_or (stored_in moved) (stored_in here) }
{
    match moved {
        Some(said) => Some(said),
        None => here,
    }
}
