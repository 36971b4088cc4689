//! The text of a value without its unit, and the unit (own).
ghost use Rattle.std.specs.Prelude.{◌≡◌};
ghost use Rattle.j39_io.specs.Puts.{Puts};
ghost use Rattle.j39_io.specs.Turn.{turn};
ghost use Rattle.j39_groups.specs.Models.{value_of};
ghost use Rattle.j39_groups.specs.ValueText.{text_in_field, unit_of, value_field};

use crate::text::{put_escaped, put_value, scaled_text};
use crate::value::Value;
use j39_io::{DeviceFault, Sink, put_all, without_formula};

impl<'t> Value<'t, '_> {
    /// Writes what stands in a record: a number in decimal with its places, a word, or a text in quotes, none that a spreadsheet
    /// takes for a formula. After a fault a front of that was written.
    #[tactic(auto, unfolding(crate::specs::ValueText::bare_text, crate::specs::ValueText::value_field))]
    pub fn put_field<W: Sink>(self, sink: &mut W) -> Result<(), DeviceFault>
        ensures { Puts (value_field (value_of self.entry)) result (turn W.written W.has_failed sink.old sink.new) }
    {
        match self {
            Value::Number(number, scale) => {
                put_all(sink, scaled_text(number, scale.places).as_slice())
            }
            Value::On => put_value(&self, sink),
            Value::Off => put_value(&self, sink),
            Value::Error => put_value(&self, sink),
            Value::Reserved => put_value(&self, sink),
            Value::Indicator => put_value(&self, sink),
            Value::Text(text) => put_text(text, sink),
        }
    }

    /// A number's unit, of any bytes; nothing for any other value.
    #[tactic(auto, unfolding(crate::specs::ValueText::unit_of))]
    pub fn unit(self) -> &'t [u8]
        ensures { result.now ≡ unit_of (value_of self.entry) }
    {
        match self {
            Value::Number(_, scale) => scale.unit,
            Value::On => b"",
            Value::Off => b"",
            Value::Error => b"",
            Value::Reserved => b"",
            Value::Indicator => b"",
            Value::Text(_) => b"",
        }
    }
}

/// Writes a text in quotes. What would be a formula begins with `\x3D` or its like.
fn put_text<W: Sink>(text: &[u8], sink: &mut W) -> Result<(), DeviceFault>
    ensures { Puts (text_in_field text.now) result (turn W.written W.has_failed sink.old sink.new) }
{
    let (front, rest) = without_formula(text);
    put_all(sink, b"\"")?;
    put_all(sink, front)?;
    put_escaped(rest, sink)?;
    put_all(sink, b"\"")
}
