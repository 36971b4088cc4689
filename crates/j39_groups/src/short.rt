//! Values that are no texts, as they are read: a number without its scale.
ghost use Rattle.std.specs.Prelude.{◌≡◌};
ghost use Rattle.j39_groups.specs.Models.{scale_record, short_value, value_of};

use crate::slot::Slot;
use crate::value::Value;

/// A number in units of the last printed place, or a word: small enough to be handed on without a copy.
#[derive(Clone, Copy)]
pub(crate) enum Short {
    Number(i64),
    On,
    Off,
    Error,
    Reserved,
    Indicator,
}

impl Short {
    /// The value, of a number with this scale.
    #[inline(always)]
    pub fn with<'t, 'v>(self, scale: Slot<'t>) -> Value<'t, 'v>
        ensures { value_of result ≡ short_value (scale_record scale.entry) self }
    {
        match self {
            Short::Number(number) => Value::Number(number, scale),
            Short::On => Value::On,
            Short::Off => Value::Off,
            Short::Error => Value::Error,
            Short::Reserved => Value::Reserved,
            Short::Indicator => Value::Indicator,
        }
    }
}
