//! What a record has on both sides of a value, and of a group.
ghost use Rattle.std.specs.Prelude.{◌≡◌, [], option_map, unwrap_or};

use crate::report_records::quick_record::{bare_before, field_before};
use crate::report_records::record_head::digits_before;
use crate::sides::{SIDE, SideForm, VALUE};
use j39_groups::Value;
use j39_io::backwards::{byte_before, bytes_before};

/// What a record has on both sides of a value: before it the number of the parameter and what it is called, behind it the unit,
/// and the end of the line. Of a group it has the number, and what it is called.
#[derive(Drop)]
pub(crate) struct RecordSides;

impl SideForm for RecordSides {
    ghost use Rattle.std.specs.Prelude.{◌++◌, ◌∷◌, [], decimal, unwrap_or};
    ghost use Rattle.j39_io.specs.Records.{comma, later_text};
    ghost use Rattle.j39_groups.specs.ValueText.{value_field};
    ghost use Rattle.j39_reports.specs.Columns.{last_field};

    ghost before = { λ spn name. (comma ∷ decimal spn) ++ later_text (unwrap_or name []) ++ (comma ∷ []) };

    ghost value_text = { value_field };

    ghost behind = { λ unit. later_text (unwrap_or unit []) ++ last_field [] };

    ghost of_group = { λ pgn name. (comma ∷ decimal pgn) ++ later_text (unwrap_or name []) };

    fn write_before(out: &mut [u8], spn: u32, name: &[u8]) -> Option<usize> {
        let gap = byte_before(out, SIDE, b',');
        let called = field_before(out, gap, name)?;
        let number = digits_before(out, called, spn);
        Some(byte_before(out, number, b','))
    }

    #[inline(always)]
    fn write_value(out: &mut [u8; 80], value: Value<'_, '_>) -> Option<usize> {
        let start = bare_before(out, VALUE, value)?;
        Some(start)
    }

    fn write_behind(out: &mut [u8], unit: Option<&[u8]>) -> Option<usize> {
        let end = bytes_before(out, SIDE, *b",\r\n");
        let start = field_before(out, end, or_nothing(unit))?;
        Some(start)
    }

    fn write_group(out: &mut [u8], pgn: u32, name: Option<&[u8]>) -> Option<usize> {
        let called = field_before(out, SIDE, or_nothing(name))?;
        let number = digits_before(out, called, pgn);
        Some(byte_before(out, number, b','))
    }
}

/// What something is called; nothing where it has no name.
pub(crate) fn or_nothing(text: Option<&[u8]>) -> &[u8]
    ensures { result.now ≡ unwrap_or (option_map (λ bytes. bytes.now) text.entry) [] }
{
    match text {
        Some(text) => text,
        None => b"",
    }
}
