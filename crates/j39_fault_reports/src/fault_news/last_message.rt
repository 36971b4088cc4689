//! What was said last in a message of faults.
ghost use Rattle.std.specs.Prelude.{◌≡◌, ◌≤◌, Some, length, option_map, take};
ghost use Rattle.j39_address.specs.Name.{name_raw};
ghost use Rattle.j39_frame.specs.Origin.{is_same_or_none};
ghost use Rattle.j39_fault_reports.specs.LastMessages.{is_said, said_before, said_by};
ghost use Rattle.j39_fault_reports.specs.News.{goes_on};
ghost use Rattle.j39_fault_reports.specs.Spoken.{is_same_name};

use arrayvec::ArrayVec;
use j39_address::Name;
use j39_faults::{Version, tells_same};
use j39_io::printing::push_bytes;
use j39_transport::LONGEST;
use std::marker::Model;

/// The bytes of a message, and the NAME that it came under.
#[derive(Drop)]
pub(crate) struct LastMessage {
    bytes: ArrayVec<u8, LONGEST>,
    name: Option<Name>,
}

impl Model for LastMessage {
    ghost use Rattle.std.specs.Option.{option_map};
    ghost use Rattle.j39_address.specs.Name.{name_raw};
    ghost use Rattle.j39_fault_reports.specs.LastMessages.{LastRecord};

    ghost Value = { LastRecord };

    ghost view = { λ said. record { bytes = said.bytes.items; name = option_map name_raw said.name } };
}

impl LastMessage {
    /// What a payload says, at most 1,785 bytes of it.
    pub(crate) fn new(payload: &[u8], name: Option<Name>) -> LastMessage
        ensures { result ≡ said_by payload.now (option_map name_raw name) }
    {
        let mut bytes = ArrayVec::new();
        push_bytes(&mut bytes, front_of(payload));
        LastMessage { bytes, name }
    }

    /// Says this in place of what was said, in the same buffer.
    pub(crate) fn replace(&mut self, payload: &[u8], name: Option<Name>)
        ensures { self.new ≡ said_by payload.now (option_map name_raw name) }
    {
        self.bytes.clear();
        push_bytes(&mut self.bytes, front_of(payload));
        self.name = name;
    }

    /// Its bytes, if they may be of who speaks now, under this NAME; else none.
    pub(crate) fn bytes_for(&self, name: Option<Name>) -> &[u8]
        ensures { result.now ≡ said_before (Some self.now) (option_map name_raw name) }
    {
        if goes_on(self.name, name) {
            self.bytes.as_slice()
        } else {
            &[]
        }
    }

    /// Whether it came under this NAME.
    pub(crate) fn is_of(&self, name: Option<Name>) -> bool
        ensures { result ≡ is_same_name self.now.name (option_map name_raw name) }
    {
        is_same_name(self.name, name)
    }

    /// Whether a payload tells the same by this version of the conversion, under the same NAME or under none.
    pub(crate) fn is(&self, version: Option<Version>, payload: &[u8], name: Option<Name>) -> bool
        ensures { result ≡ is_said version self.now payload.now (option_map name_raw name) }
    {
        tells_same(version, self.bytes.as_slice(), payload) && is_same_or_none(self.name, name)
    }
}

/// At most the first 1,785 bytes.
fn front_of(payload: &[u8]) -> &[u8]
    ensures value { result.now ≡ take 1785 payload.now }
    ensures short { length result.now ≤ 1785 }
{
    if payload.len() <= LONGEST {
        payload
    } else {
        let (front, _) = payload.split_at(LONGEST);
        front
    }
}

/// Whether who speaks under the later NAME may be who spoke before: under the same, or before a claim told any.
pub(crate) fn goes_on(before: Option<Name>, now: Option<Name>) -> bool
    ensures { result ≡ goes_on (option_map name_raw before) (option_map name_raw now) }
{
    match (before, now) {
        (None, _) => true,
        (Some(_), None) => false,
        (Some(before), Some(now)) => before.raw() == now.raw(),
    }
}

/// Whether two messages came under one NAME, or both under none.
fn is_same_or_none(one: Option<Name>, other: Option<Name>) -> bool
    ensures { result ≡ is_same_or_none (option_map name_raw one) (option_map name_raw other) }
{
    match (one, other) {
        (None, None) => true,
        (None, Some(_)) => false,
        (Some(_), None) => false,
        (Some(one), Some(other)) => one.raw() == other.raw(),
    }
}

/// Whether two messages came under one NAME.
pub(crate) fn is_same_name(one: Option<Name>, other: Option<Name>) -> bool
    ensures { result ≡ is_same_name (option_map name_raw one) (option_map name_raw other) }
{
    match (one, other) {
        (None, _) => false,
        (Some(_), None) => false,
        (Some(one), Some(other)) => one.raw() == other.raw(),
    }
}
