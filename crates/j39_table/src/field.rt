//! Where a parameter stands and how it is read, from four columns of a line.
ghost use Rattle.std.specs.Prelude.{◌≡◌, ◌≢◌, ◌↔◌, IsTrue, ◌∷◌, [], IfSome, IfNone, Some, None, codes};
ghost use Rattle.j39_groups.specs.Models.{field_record};
ghost use Rattle.j39_table.specs.Fields.{HasField, IsAlone, unscaled_of};
ghost use Rattle.j39_table.specs.Positions.{IsGoodPlace, text_of_place};

use crate::RowFault;
use crate::position::{Position, place_in};
use crate::scale::scale_in;
use j39_groups::Field;

/// The field that four columns say.
pub(crate) fn field_in<'t>(
    place: &[u8],
    step: &[u8],
    offset: &[u8],
    unit: &'t [u8],
) -> Result<Field<'t>, RowFault>
    ensures { HasField (place.now ∷ step.now ∷ offset.now ∷ unit.entry.now ∷ []) result }
{
    let Some(place) = place_in(place) else {
        return Err(RowFault::Place);
    };
    if is_dash(step) {
        unscaled_field(place, offset, unit)
    } else {
        scaled_field(place, step, offset, unit)
    }
}

/// The field of a place without a scale, where dashes stand for the offset and the unit too.
fn unscaled_field<'t>(place: Position, offset: &[u8], unit: &[u8]) -> Result<Field<'t>, RowFault>
    requires good { IsGoodPlace place }
    requires alone { IsAlone place }
    ensures { HasField (text_of_place place ∷ codes "-" ∷ offset.now ∷ unit.now ∷ []) result }
{
    let Some(field) = unscaled(place) else {
        return Err(RowFault::Step);
    };
    if !is_dash(offset) {
        return Err(RowFault::Offset);
    }
    if !is_dash(unit) {
        return Err(RowFault::Unit);
    }
    Ok(field)
}

fn is_dash(text: &[u8]) -> bool
    ensures { IsTrue result ↔ (text.now ≡ codes "-") }
{
    matches!(text, [b'-'])
}

fn unscaled<'t>(place: Position) -> Option<Field<'t>>
    ensures found { IfSome result (λ field. unscaled_of place ≡ Some (field_record field)) }
    ensures only { IfNone result (unscaled_of place ≡ None) }
{
    match place {
        Position::Bytes { .. } => None,
        Position::Bits { byte, low, count } => switch_of(byte, low, count),
        Position::Full { .. } => None,
        Position::Part { part } => Some(Field::Text { part }),
        Position::Texts { byte } => Some(Field::Texts { byte, count: 31 }),
    }
}

/// The switch in two bits of one byte.
fn switch_of<'t>(byte: u8, low: u8, count: u8) -> Option<Field<'t>>
    ensures found { IfSome result (λ field. unscaled_of (Position.Bits byte low count) ≡ Some (field_record field)) }
    ensures only { IfNone result (unscaled_of (Position.Bits byte low count) ≡ None) }
{
    if count == 2 && low < 8 {
        Some(Field::Switch {
            byte,
            low,
            high: low + 1,
        })
    } else {
        None
    }
}

/// The field of a place with a scale.
fn scaled_field<'t>(
    place: Position,
    step: &[u8],
    offset: &[u8],
    unit: &'t [u8],
) -> Result<Field<'t>, RowFault>
    requires good { IsGoodPlace place }
    requires alone { IsAlone place }
    requires number { step.now ≢ codes "-" }
    ensures { HasField (text_of_place place ∷ step.now ∷ offset.now ∷ unit.entry.now ∷ []) result }
{
    match place {
        Position::Bytes { first, last } => {
            match scale_in(8 * (last - first + 1), step, offset, unit) {
                Ok(scale) => Ok(Field::Number { first, last, scale }),
                Err(fault) => Err(fault),
            }
        }
        Position::Bits { byte, low, count } => match scale_in(count, step, offset, unit) {
            Ok(scale) => Ok(Field::Bits {
                byte,
                low,
                count,
                scale,
            }),
            Err(fault) => Err(fault),
        },
        Position::Full {
            byte,
            low,
            count,
            is_signed,
        } => match scale_in(count, step, offset, unit) {
            Ok(scale) => Ok(Field::Full {
                byte,
                low,
                count,
                is_signed,
                scale,
            }),
            Err(fault) => Err(fault),
        },
        Position::Part { .. } => Err(RowFault::Step),
        Position::Texts { .. } => Err(RowFault::Step),
    }
}
