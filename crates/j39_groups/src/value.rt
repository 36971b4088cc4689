//! What a parameter's raw value means.

use crate::slot::Slot;

/// A parameter's value (J1939-71): `'t` is how long the table lives, `'v` how long the payload.
#[derive(Clone, Copy)]
pub enum Value<'t, 'v> {
    /// A valid number, `raw * step + offset`, in units of the last printed place, and its slot.
    Number(i64, Slot<'t>),
    /// A switch that is on.
    On,
    /// A switch that is off.
    Off,
    /// The sender reports an error (top byte FE, or bits 10).
    Error,
    /// A raw value in the reserved range (top byte FC or FD).
    Reserved,
    /// A raw value in the range of parameter specific indicators (top byte FB).
    Indicator,
    /// A text that is not empty, lent out of the payload; any bytes but `*`.
    Text(&'v [u8]),
}

/// A parameter that was read (J1939-71).
#[derive(Clone, Copy)]
pub struct Reading<'t, 'v> {
    /// The parameter's number (SPN).
    pub spn: u32,
    /// Its value.
    pub value: Value<'t, 'v>,
}

/// The filler of places that hold no reading yet.
impl Default for Reading<'_, '_> {
    ghost use Rattle.std.specs.Prelude.{◌≡◌};
    ghost use Rattle.j39_groups.specs.Value.{ReadingRecord, reserved};
    ghost use Rattle.j39_groups.specs.Models.{reading_of};

    ghost is_default = { λ reading. reading_of reading ≡ record { spn = 0; value = reserved } };

    fn default() -> Self {
        Reading {
            spn: 0,
            value: Value::Reserved,
        }
    }
}
