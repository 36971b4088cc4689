//! What an object has on both sides of a value, and of a group.
use crate::json::string_or_null_before;
use crate::report_objects::quick_object::json_before;
use crate::report_records::digits_before;
use crate::sides::{SIDE, SideForm, VALUE};
use j39_groups::Value;
use j39_io::backwards::bytes_before;

/// What an object has on both sides of a value: before it the number of the parameter and what it is called, behind it the unit,
/// and the end of the line. Of a group it has the number, and what it is called.
#[derive(Drop)]
pub(crate) struct ObjectSides;

impl SideForm for ObjectSides {
    ghost use Rattle.std.specs.Prelude.{◌++◌, None, codes, decimal};
    ghost use Rattle.j39_reports.specs.EntryObject.{behind_members, group_member, parameter_members, value_json};

    ghost before = { λ spn name. parameter_members spn name ++ codes ",\"value\":" };

    ghost value_text = { value_json };

    ghost behind = { λ unit. behind_members unit None };

    ghost of_group = { λ pgn name. codes ",\"pgn\":" ++ decimal pgn ++ group_member name };

    fn write_before(out: &mut [u8], spn: u32, name: &[u8]) -> Option<usize> {
        let value = bytes_before(out, SIDE, *b",\"value\":");
        let called = string_or_null_before(out, value, Some(name))?;
        if called < 30 {
            return None;
        }
        let key = bytes_before(out, called, *b",\"parameter\":");
        let number = digits_before(out, key, spn);
        Some(bytes_before(out, number, *b",\"spn\":"))
    }

    #[inline(always)]
    fn write_value(out: &mut [u8; 80], value: Value<'_, '_>) -> Option<usize> {
        let start = json_before(out, VALUE, value)?;
        Some(start)
    }

    fn write_behind(out: &mut [u8], unit: Option<&[u8]>) -> Option<usize> {
        let end = bytes_before(out, SIDE, *b",\"state\":null}\n");
        let text = string_or_null_before(out, end, unit)?;
        Some(bytes_before(out, text, *b",\"unit\":"))
    }

    fn write_group(out: &mut [u8], pgn: u32, name: Option<&[u8]>) -> Option<usize> {
        let called = string_or_null_before(out, SIDE, name)?;
        let key = bytes_before(out, called, *b",\"group\":");
        let number = digits_before(out, key, pgn);
        Some(bytes_before(out, number, *b",\"pgn\":"))
    }
}
