//! The slots and raw values of parameters by their numbers.
ghost use Rattle.std.specs.Prelude.{◌≡◌, ◌+◌, ◌-◌, ◌^◌, ◌<◌, ℕ, Some, IfSome, slice_get, true};
ghost use Rattle.std.specs.Option.{option_map};
ghost use Rattle.std.specs.List.{filter_map, list_all};
ghost use Rattle.j39_groups.specs.Fields.{is_sound};
ghost use Rattle.j39_groups.specs.Models.{row_record, scale_record};
ghost use Rattle.j39_groups.specs.Rows.{IsSoundCount, is_built_in, is_rising, is_row, sized_slot_record};
ghost use Rattle.j39_groups.specs.Slots.{slot_at, sized_slot_of_spn, slot_of_spn, IsAt, IsRawOf};

use crate::field::Field;
use crate::raw::{is_valid, top_byte};
use crate::row::Row;
use crate::slot::Slot;
use crate::table::built_in_rows;

/// The slot of a parameter (SPN) of the built-in table that is a number (J1939-71); `None` for switches, texts and
/// unknown parameters.
pub fn slot_of(spn: u32) -> Option<Slot<'static>>
    ensures { option_map scale_record result ≡ slot_of_spn spn }
{
    let sized = sized_scale_of(spn)?;
    Some(sized.scale)
}

/// The valid raw number of a parameter (SPN) with this value, in units of the last printed place
/// (J1939-71). `None` where the parameter has no slot, the value is off the slot's steps, or the raw
/// number is past the valid range (top byte 00 to FA).
pub fn raw_of(spn: u32, value: i64) -> Option<u32>
    ensures found { IfSome result (λ raw. IsRawOf spn value raw) }
    ensures only { (raw : ℕ) → IsRawOf spn value raw → result ≡ Some raw }
{
    let sized = sized_scale_of(spn)?;
    let raw = sized.scale.raw(value)?;
    if !is_valid(top_byte(raw, sized.count)) {
        return None;
    }
    Some(raw)
}

/// How many bytes a number has, and its scale.
#[derive(Clone, Copy)]
struct SizedScale<'t> {
    count: u8,
    scale: Slot<'t>,
}

/// The scale of a parameter in the table.
#[tactic(auto, unfolding(crate::specs::Slots::sized_slot_of_spn))]
fn sized_scale_of(spn: u32) -> Option<SizedScale<'static>>
    ensures value { option_map sized_slot_record result ≡ sized_slot_of_spn spn }
    ensures sound { IfSome result (λ n. IsSoundCount n.count n.scale) }
{
    find_scale(built_in_rows(), spn)
}

fn find_scale<'t>(rows: &[Row<'t>], spn: u32) -> Option<SizedScale<'t>>
    requires sound { list_all is_row rows.now ≡ true }
    requires built_in { is_built_in rows.now ≡ true }
    ensures value { option_map sized_slot_record result
        ≡ slice_get (filter_map (λ row. slot_at spn (row_record row)) rows.now) 0 }
    ensures sound { IfSome result (λ n. IsSoundCount n.count n.scale) }
{
    for row in rows {
        if let Some(sized) = scale_in(row, spn) {
            return Some(sized);
        }
    }
    None
}

/// The scale in a row, where it is a row of this parameter.
fn scale_in<'t>(row: &Row<'t>, spn: u32) -> Option<SizedScale<'t>>
    requires sound { is_sound row.now.field ≡ true }
    requires rises { is_rising row.now.field ≡ true }
    ensures value { option_map sized_slot_record result ≡ slot_at spn (row_record row.now) }
    ensures sound { IfSome result (λ n. IsSoundCount n.count n.scale) }
{
    if row.spn != spn {
        return None;
    }
    match row.field {
        Field::Number { first, last, scale } => Some(SizedScale {
            count: last - (first - 1),
            scale,
        }),
        Field::Bits { .. } => None,
        Field::Full { .. } => None,
        Field::Switch { .. } => None,
        Field::Text { .. } => None,
        Field::Texts { .. } => None,
    }
}
