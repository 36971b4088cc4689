//! What is prepared for the line of a row.
ghost use Rattle.std.specs.Prelude.{◌≡◌, true, IfSome};
ghost use Rattle.j39_groups.specs.Ready.{is_end, is_label, is_prepared, is_scale_end};

use crate::field::Field;
use crate::short_text::ShortText;
use crate::slot::Slot;
use j39_io::backwards::{byte_before, number_before, slice_before};

/// How the line of a number or a switch ends.
#[derive(Clone, Copy)]
pub(crate) struct Ending {
    /// Of a number a space, its unit and a newline.
    pub text: ShortText,
    /// Of a number how many decimal places are printed, 15 at most.
    pub places: u8,
}

/// What the line of a row takes beside its value.
#[derive(Clone, Copy)]
pub(crate) struct Prepared {
    /// The group's number and a space, and the parameter's and a space.
    pub label: ShortText,
    pub end: Ending,
}

/// What the line of a row takes; `None` where that is too long, or a value is a text or of a number in full.
pub(crate) fn prepare(pgn: u32, spn: u32, field: Field<'_>) -> Option<Prepared>
    ensures { is_prepared result pgn spn field.entry ≡ true }
{
    match (label_of(pgn, spn), end_of(field)) {
        (Some(label), Some(end)) => Some(Prepared { label, end }),
        _ => None,
    }
}

/// A group's number and a space, and a parameter's and a space; `None` where one has more than six digits.
fn label_of(pgn: u32, spn: u32) -> Option<ShortText>
    ensures { IfSome result (λ label. is_label label pgn spn ≡ true) }
{
    if pgn > 999_999 || spn > 999_999 {
        return None;
    }
    let mut bytes = [b' '; 16];
    let number = number_before(&mut bytes, 15, u64::from(spn));
    let space = byte_before(&mut bytes, number, b' ');
    let from = number_before(&mut bytes, space, u64::from(pgn));
    Some(ShortText {
        bytes,
        from: from as u8,
    })
}

/// What stands behind the numbers of a field, where it is short and none of its values is a text or of a number in full.
fn end_of(field: Field<'_>) -> Option<Ending>
    ensures { is_end result field.entry ≡ true }
{
    match field {
        Field::Number { scale, .. } => scale_end(scale),
        Field::Bits { scale, .. } => scale_end(scale),
        Field::Full { .. } => None,
        Field::Switch { .. } => Some(Ending {
            text: ShortText::EMPTY,
            places: 0,
        }),
        Field::Text { .. } => None,
        Field::Texts { .. } => None,
    }
}

/// A space, the unit and a newline.
fn scale_end(scale: Slot<'_>) -> Option<Ending>
    ensures { IfSome result (λ end. is_scale_end end scale.entry ≡ true) }
{
    if scale.places > 15 || scale.unit.len() > 14 {
        return None;
    }
    let mut bytes = [b' '; 16];
    let newline = byte_before(&mut bytes, 16, b'\n');
    let unit = slice_before(&mut bytes, newline, scale.unit);
    let from = byte_before(&mut bytes, unit, b' ');
    Some(Ending {
        text: ShortText {
            bytes,
            from: from as u8,
        },
        places: scale.places,
    })
}
