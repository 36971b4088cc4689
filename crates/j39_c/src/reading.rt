//! The readings of a message (J1939-71).
ghost use Rattle.std.specs.Prelude.{◌≡◌, ◌≢◌, ◌≤◌, ◌↔◌, ◌∷◌, [], ℕ, Some, None, IfOk, IfErr, IfSome, IsSome, length, pos, replicate, take, true};
ghost use Rattle.j39_groups.specs.Models.{reading_of, scale_record, value_of};
ghost use Rattle.j39_groups.specs.Slots.{IsRawOf};
ghost use Rattle.j39_groups.specs.ValueText.{value_text};
ghost use Rattle.j39_c.specs.Calls.{Answers, Fills, FillsFront};
ghost use Rattle.j39_c.specs.Codes.{bad_value, end, no_memory, no_room};
ghost use Rattle.j39_c.specs.Readings.{IsFilled, IsPlain, IsReadable, IsTextAnswer, reading_in};
ghost use Rattle.j39_c.specs.Units.{has_short_unit};
ghost use Rattle.j39_c.specs.declared.refusal.Refusal.TheVariants.{NoMemory};

use crate::handed_out::put;
use crate::message::WholeMessage;
use crate::refusal::Refusal;
use j39_frame::Pgn;
use j39_groups::{Reading, Slot, Value, put_value, raw_of, reading_at};
use j39_io::{DeviceFault, Sink};
use std::alloc::Global;

/// The longest text that a call can tell.
const MOST: usize = 0x7FFF_FFFF;

/// A reading, `j1939_reading` of the header.
#[repr(C)]
#[derive(Clone, Copy, Debug)]
pub struct PlainReading {
    /// Of a number: its value, in units of the last decimal place.
    pub number: i64,
    /// The parameter (SPN).
    pub spn: u32,
    /// 0 a number, 1 on, 2 off, 3 error, 4 reserved, 5 indicator, 6 a text.
    pub kind: u8,
    /// Of a number: how many decimal places it has.
    pub places: u8,
    /// Of a number: its unit, ended by a zero.
    pub unit: [u8; 8],
}

/// Reads reading number `index` of a message, by the built-in table: 0; -1 for a message that is none, -6 behind the
/// last reading.
#[unsafe(no_mangle)]
pub extern "C" fn j39_reading(message: &WholeMessage, out: &mut PlainReading, index: usize) -> i32
    ensures read { IsReadable message.now → IfSome (reading_in message.now index) (λ reading.
        (result ≡ pos 0) × IsPlain out.new reading) }
    ensures behind { IsReadable message.now → reading_in message.now index ≡ None → result ≡ end }
    ensures bad { (IsReadable message.now → ⊥) → result ≡ bad_value }
    ensures answers { Answers 0 (bad_value ∷ end ∷ []) result }
    ensures fills { Fills (pos 0 ∷ []) result (out.new ≡ out.old) }
{
    let (Some(pgn), Some(payload)) = (Pgn::new(message.pgn), payload_of(message)) else {
        return Refusal::BadValue.code();
    };
    let Some(reading) = reading_at(pgn, payload, index) else {
        return Refusal::End.code();
    };
    *out = plain(&reading);
    0
}

/// Writes out the text of reading number `index` of a message, as a report prints it, with no zero at its end: its
/// length; -1 for a message that is none, -3 where memory is refused, -5 where it doesn't fit, -6 behind the last
/// reading.
#[unsafe(no_mangle)]
pub extern "C" fn j39_reading_text(
    alloc: Global,
    message: &WholeMessage,
    index: usize,
    text: &mut [u8],
) -> i32
    ensures read { IsReadable message.now → IfSome (reading_in message.now index) (λ reading.
        IsTextAnswer (length text.old) (value_text reading.value) result text.new) }
    ensures behind { IsReadable message.now → reading_in message.now index ≡ None → result ≡ end }
    ensures bad { (IsReadable message.now → ⊥) → result ≡ bad_value }
    ensures answers { Answers (length text.old) (bad_value ∷ no_memory ∷ no_room ∷ end ∷ []) result }
    ensures fills { FillsFront result text.old text.new }
{
    let (Some(pgn), Some(payload)) = (Pgn::new(message.pgn), payload_of(message)) else {
        return Refusal::BadValue.code();
    };
    put_text(alloc, reading_at(pgn, payload, index), text)
}

/// The bytes of a message; `None` for one that says too many.
pub(crate) fn payload_of(message: &WholeMessage) -> Option<&[u8]>
    ensures known { IsSome result ↔ (message.now.len ≤ 1785) }
    ensures value { IfSome result (λ payload. payload.now ≡ take message.now.len message.now.data) }
{
    message.data.get(..usize::from(message.len))
}

/// Whether a value's unit has its place in `PlainReading`.
pub(crate) fn has_short_unit(value: &Value<'_, '_>) -> bool
    ensures { result ≡ has_short_unit (value_of value.now) }
{
    value.unit().len() <= 7
}

/// A reading in plain numbers.
pub(crate) fn plain(reading: &Reading<'_, '_>) -> PlainReading
    requires { has_short_unit (value_of reading.now.value) ≡ true }
    ensures { IsPlain result (reading_of reading.now) }
{
    let spn = reading.spn;
    match reading.value {
        Value::Number(number, scale) => PlainReading {
            number,
            spn,
            kind: 0,
            places: scale.places(),
            unit: unit_of(scale),
        },
        Value::On => of_kind(spn, 1),
        Value::Off => of_kind(spn, 2),
        Value::Error => of_kind(spn, 3),
        Value::Reserved => of_kind(spn, 4),
        Value::Indicator => of_kind(spn, 5),
        Value::Text(_) => of_kind(spn, 6),
    }
}

/// A reading that is no number.
fn of_kind(spn: u32, kind: u8) -> PlainReading
    ensures { result ≡ record { number = pos 0; spn = spn; kind = kind; places = 0; unit = replicate 8 0 } }
{
    PlainReading {
        number: 0,
        spn,
        kind,
        places: 0,
        unit: [0; 8],
    }
}

/// The unit of a scale, filled up with zeros: one at least.
fn unit_of(scale: Slot<'_>) -> [u8; 8]
    requires { length (scale_record scale).unit ≤ 7 }
    ensures { IsFilled result (scale_record scale.entry).unit }
{
    let text = scale.unit();
    let mut unit = [0; 8];
    unit[..text.len()].copy_from_slice(text);
    unit
}

/// Writes out the text of the value that is picked, and answers its length; -6 where none is.
pub(crate) fn put_text(alloc: Global, picked: Option<Reading<'_, '_>>, text: &mut [u8]) -> i32
    ensures text { IfSome picked.entry (λ reading. IsTextAnswer (length text.old) (value_text (value_of reading.value)) result text.new) }
    ensures behind { picked.entry ≡ None → result ≡ end }
    ensures answers { Answers (length text.old) (no_memory ∷ no_room ∷ end ∷ []) result }
    ensures fills { FillsFront result text.old text.new }
{
    let Some(found) = picked else {
        return Refusal::End.code();
    };
    match text_of(alloc, &found.value) {
        Ok(made) => copy(made.as_slice(), text),
        Err(refusal) => refusal.code(),
    }
}

/// A value's text.
fn text_of(alloc: Global, value: &Value<'_, '_>) -> Result<Vec<u8>, Refusal>
    ensures text { IfOk result (λ text. text.items ≡ value_text (value_of value.now)) }
    ensures refused { IfErr result (λ refusal. refusal ≡ NoMemory) }
{
    let mut text = Text::new(alloc);
    match put_value(value, &mut text) {
        Ok(()) => Ok(text.bytes),
        Err(_) => Err(Refusal::NoMemory),
    }
}

/// Copies bytes to the front of a buffer, and answers how many.
pub(crate) fn copy(from: &[u8], to: &mut [u8]) -> i32
    ensures text { IsTextAnswer (length to.old) from.now result to.new }
    ensures answers { Answers (length to.old) (no_room ∷ []) result }
    ensures fills { FillsFront result to.old to.new }
{
    let n = from.len();
    if n > to.len() || n > MOST {
        return Refusal::NoRoom.code();
    }
    to[..n].copy_from_slice(from);
    n as i32
}

/// A text in memory, as a sink.
#[derive(Drop)]
pub(crate) struct Text {
    pub bytes: Vec<u8>,
    has_failed: bool,
    is_flushed: bool,
}

impl Text {
    /// The empty text.
    pub fn new(alloc: Global) -> Text
        ensures { result.bytes.items ≡ [] }
    {
        Text {
            bytes: Vec::new(alloc),
            has_failed: false,
            is_flushed: false,
        }
    }
}

impl Sink for Text {
    ghost use Rattle.std.specs.Prelude.{Some, false};

    ghost written = { λ text. Some text.bytes.items };

    ghost has_failed = { λ text. text.has_failed };

    ghost is_flushed = { λ text. text.is_flushed };

    fn put(&mut self, bytes: &[u8]) -> Result<usize, DeviceFault> {
        match self.bytes.extend_from_slice(bytes) {
            Ok(()) => {
                self.is_flushed = false;
                Ok(bytes.len())
            }
            Err(_) => {
                self.has_failed = true;
                Err(DeviceFault)
            }
        }
    }

    fn flush(&mut self) -> Result<(), DeviceFault> {
        self.is_flushed = true;
        Ok(())
    }
}

/// The raw number of a value of a parameter, in units of its last decimal place: 1 and the number, or 0 where there
/// is none.
#[unsafe(no_mangle)]
pub extern "C" fn j39_raw_of(spn: u32, value: i64, raw: &mut u32) -> i32
    ensures found { result ≡ pos 1 → IsRawOf spn value raw.new }
    ensures only { (n : ℕ) → IsRawOf spn value n → (result ≡ pos 1) × (raw.new ≡ n) }
    ensures none { result ≢ pos 1 → (result ≡ pos 0) × (raw.new ≡ raw.old) }
    ensures answers { Answers 1 [] result }
    ensures fills { Fills (pos 1 ∷ []) result (raw.new ≡ raw.old) }
{
    put(raw_of(spn, value), raw)
}
