//! The scale of a number, read from its columns.
ghost use Rattle.std.specs.Prelude.{◌≡◌, ◌+◌, ◌-◌, ◌*◌, ◌^◌, ◌<◌, ◌≤◌, ℕ, ℤ, IfSome, IsSomeAnd, pos, ◌∷◌, []};
ghost use Rattle.j39_table.specs.Fields.{HasScale};
ghost use Rattle.j39_table.specs.Scales.{SaysOffset, SaysStep};

use crate::RowFault;
use crate::columns::scaled_in;
use crate::words::is_word;
use j39_groups::Slot;

/// The scale that three columns say, for numbers of so many bits.
pub(crate) fn scale_in<'t>(
    bits: u8,
    step: &[u8],
    offset: &[u8],
    unit: &'t [u8],
) -> Result<Slot<'t>, RowFault>
    requires some { 0 < bits }
    requires narrow { bits ≤ 32 }
    ensures { HasScale bits (step.now ∷ offset.now ∷ unit.entry.now ∷ []) result }
{
    let Some((step, places)) = step_in(step, bits) else {
        return Err(RowFault::Step);
    };
    let Some(offset) = offset_in(offset, places, room_of(step, bits)) else {
        return Err(RowFault::Offset);
    };
    if !is_word(unit) {
        return Err(RowFault::Unit);
    }
    Ok(Slot::of_own_table(step, offset, places, unit))
}

/// The step that a text says, and its places.
pub(crate) fn step_in(text: &[u8], bits: u8) -> Option<(u64, u8)>
    requires some { 0 < bits }
    requires narrow { bits ≤ 32 }
    ensures found { IfSome result (λ found. SaysStep text.now bits found.0 found.1) }
    ensures only { (step places : ℕ) → SaysStep text.now bits step places
        → IsSomeAnd result (λ found. (found.0 ≡ step) × (found.1 ≡ places)) }
{
    let (step, places) = scaled_in(text)?;
    let step = positive(step)?;
    let span = step.checked_mul(largest_raw(bits))?;
    if span < 1 << 63 {
        Some((step, places))
    } else {
        None
    }
}

fn positive(number: i64) -> Option<u64>
    ensures found { IfSome result (λ n. (pos n ≡ number) × (0 < n)) }
    ensures only { (n : ℕ) → 0 < n → pos n ≡ number → IsSomeAnd result (λ m. m ≡ n) }
{
    match u64::try_from(number) {
        Ok(number) if number > 0 => Some(number),
        _ => None,
    }
}

/// The offset below a bound that a text with these places says.
pub(crate) fn offset_in(text: &[u8], places: u8, room: u64) -> Option<i64>
    requires few { places ≤ 15 }
    requires near { room ≤ 2 ^ 63 }
    ensures found { IfSome result (λ offset. SaysOffset text.now places room offset) }
    ensures only { (offset : ℤ) → SaysOffset text.now places room offset → IsSomeAnd result (λ found. found ≡ offset) }
{
    let (offset, its_places) = scaled_in(text)?;
    if its_places == places && offset.unsigned_abs() < room {
        Some(offset)
    } else {
        None
    }
}

/// The largest number of so many bits.
fn largest_raw(bits: u8) -> u64
    requires { bits ≤ 32 }
    ensures { result ≡ 2 ^ bits - 1 }
{
    (1u64 << bits) - 1
}

/// How far from 0 an offset may be, where each value fits.
pub(crate) fn room_of(step: u64, bits: u8) -> u64
    requires narrow { bits ≤ 32 }
    requires fits { step * (2 ^ bits - 1) < 2 ^ 63 }
    ensures { result + step * (2 ^ bits - 1) ≡ 2 ^ 63 }
{
    (1 << 63) - step * largest_raw(bits)
}
