//! The readings of a message as points of a series.
ghost use Rattle.std.specs.Prelude.{◌≡◌, [], if◌then◌else◌};
ghost use Rattle.std.specs.Option.{option_map};
ghost use Rattle.j39_address.specs.Name.{name_raw};
ghost use Rattle.j39_frame.specs.Origin.{is_same_or_none};
ghost use Rattle.j39_groups.specs.Models.{value_of};
ghost use Rattle.j39_io.specs.Puts.{Puts};
ghost use Rattle.j39_io.specs.Turn.{turn};
ghost use Rattle.j39_listen.specs.HeardModel.{hearing_of};
ghost use Rattle.j39_web.specs.Series.{asked_destination, asked_name, is_from, kind_of, number_of, places_of, point_bytes};
ghost use Rattle.j39_web.specs.SeriesSoFar.{IsBegun};

use j39_address::Name;
use j39_groups::{ReadingVisitor, Value};
use j39_io::{DeviceFault, Sink, put_all};
use j39_listen::Heard;

/// A parameter of a controller, as a page names it.
#[repr(C)]
#[derive(Clone, Copy, Debug, PartialEq, Eq)]
pub struct SeriesOrigin {
    /// The NAME that held the address, where one did.
    pub name: u64,
    /// Whether one did: 0 where none.
    pub has_name: u32,
    /// The address of the controller.
    pub address: u32,
    /// The number of the group (PGN).
    pub pgn: u32,
    /// The number of the parameter (SPN).
    pub spn: u32,
    /// The address that it was sent to, 255 for all; 256 and above where the group has no destination.
    pub destination: u32,
}

impl SeriesOrigin {
    /// The NAME that is asked for, or none.
    fn name(&self) -> Option<u64>
        ensures { result ≡ asked_name self.now }
    {
        if self.has_name == 0 {
            None
        } else {
            Some(self.name)
        }
    }

    /// The destination that is asked for, or none.
    fn destination(&self) -> Option<u32>
        ensures { result ≡ asked_destination self.now }
    {
        if self.destination < 256 {
            Some(self.destination)
        } else {
            None
        }
    }

    /// Whether a message is of this group, from this controller, and sent to this destination.
    fn is_from(&self, heard: &Heard<'_>) -> bool
        ensures { result ≡ is_from self.now heard.now.message.source heard.now.destination
            (option_map name_raw heard.now.name) (hearing_of heard.now).message.pgn }
    {
        let is_sent_there = is_same_destination(heard.destination, self.destination());
        let is_named = is_same_name(heard.name, self.name());
        let is_of_group = heard.message.pgn.raw() == self.pgn;
        u32::from(heard.message.source) == self.address
            && (is_sent_there && (is_named && is_of_group))
    }
}

/// Whether both are the same address, or none.
fn is_same_destination(sent: Option<u8>, asked: Option<u32>) -> bool
    ensures { result ≡ is_same_or_none sent asked }
{
    match (sent, asked) {
        (None, None) => true,
        (Some(address), Some(number)) => u32::from(address) == number,
        _ => false,
    }
}

/// Whether both are the same NAME, or none.
fn is_same_name(held: Option<Name>, asked: Option<u64>) -> bool
    ensures { result ≡ is_same_or_none (option_map name_raw held) asked }
{
    match (held, asked) {
        (None, None) => true,
        (Some(name), Some(raw)) => name.raw() == raw,
        _ => false,
    }
}

/// The readings of a message so far.
#[derive(Drop)]
pub(crate) struct Points {
    pub is_from: bool,
    pub spn: u32,
    pub stamp: u64,
    pub lines: u64,
}

impl Points {
    /// None so far.
    pub fn new(of: &SeriesOrigin, heard: &Heard<'_>) -> Points
        ensures begun { IsBegun of.now (hearing_of heard.now) result }
        ensures none { result.lines ≡ 0 }
    {
        Points {
            is_from: of.is_from(heard),
            spn: of.spn,
            stamp: heard.message.stamp.micros(),
            lines: 0,
        }
    }
}

impl<'t, W: Sink> ReadingVisitor<'t, W> for Points {
    ghost use Rattle.std.specs.Prelude.{◌++◌, ◌∷◌, []};
    ghost use Rattle.j39_groups.specs.Sightings.{told_in};
    ghost use Rattle.j39_web.specs.SeriesSoFar.{Begun, HasStopped, HasWritten};

    type Fault = DeviceFault;

    ghost Subject = { Begun };

    ghost has_taken = { λ subject points sink sightings.
        HasWritten subject points (record { bytes = W.written sink; has_failed = W.has_failed sink }) (told_in sightings) };

    ghost has_stopped = { λ subject before at points sink.
        HasStopped subject (told_in (before ++ at ∷ [])) (record { bytes = W.written sink; has_failed = W.has_failed sink }) };

    fn visit(&mut self, spn: u32, value: Value<'t, '_>, sink: &mut W) -> Result<(), DeviceFault> {
        let is_asked = self.is_from && spn == self.spn;
        put_point(is_asked, self.stamp, value, sink)?;
        self.lines = self.lines.saturating_add(1);
        Ok(())
    }

    #[inline(always)]
    fn visit_absent(&mut self, _: u32, _: &mut W) -> Result<(), DeviceFault> {
        Ok(())
    }
}

/// Writes the point of a reading, where it is asked for.
#[inline(always)]
fn put_point<W: Sink>(
    is_asked: bool,
    stamp: u64,
    value: Value<'_, '_>,
    sink: &mut W,
) -> Result<(), DeviceFault>
    ensures { Puts (if is_asked then point_bytes stamp (value_of value.entry) else [])
        result (turn W.written W.has_failed sink.old sink.new) }
{
    if is_asked {
        put_all(sink, &point_of(stamp, value))
    } else {
        Ok(())
    }
}

/// The bytes of a point.
#[tactic(auto, unfolding(crate::specs::Series::point_bytes))]
fn point_of(stamp: u64, value: Value<'_, '_>) -> [u8; 24]
    ensures { result ≡ point_bytes stamp (value_of value.entry) }
{
    let mut point = [0; 24];
    point[..8].copy_from_slice(&stamp.to_le_bytes());
    point[8..16].copy_from_slice(&number_of(value).to_le_bytes());
    point[16..20].copy_from_slice(&places_of(value).to_le_bytes());
    point[20..].copy_from_slice(&kind_of(value).to_le_bytes());
    point
}

/// A number in units of its last printed place; 1 for a switch that is on.
fn number_of(value: Value<'_, '_>) -> i64
    ensures { result ≡ number_of (value_of value.entry) }
{
    match value {
        Value::Number(number, _) => number,
        Value::On => 1,
        _ => 0,
    }
}

/// How many decimal places a number has.
fn places_of(value: Value<'_, '_>) -> u32
    ensures { result ≡ places_of (value_of value.entry) }
{
    match value {
        Value::Number(_, scale) => u32::from(scale.places()),
        _ => 0,
    }
}

/// Which kind of value it is.
fn kind_of(value: Value<'_, '_>) -> u32
    ensures { result ≡ kind_of (value_of value.entry) }
{
    match value {
        Value::Number(_, _) => 0,
        Value::Off => 1,
        Value::On => 2,
        Value::Error => 3,
        Value::Indicator => 4,
        Value::Reserved => 5,
        Value::Text(_) => 6,
    }
}
