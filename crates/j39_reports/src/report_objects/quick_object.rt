//! The object of one reading in a block, the last byte first.
ghost use Rattle.std.specs.Prelude.{◌≡◌, ◌+◌, ◌≤◌, ◌++◌, ℕ, IfSome, List, Option, length};
ghost use Rattle.std.specs.Option.{option_map};
ghost use Rattle.j39_io.specs.Backwards.{WritesBefore};
ghost use Rattle.j39_groups.specs.Models.{value_of};
ghost use Rattle.j39_reports.specs.EntryObject.{parameter_members, unit_in, value_json, value_members};
ghost use Rattle.j39_reports.specs.MessageObjects.{opened};

use crate::head::Head;
use crate::json::string_or_null_before;
use crate::report_records::{digits_before, scaled_before};
use crate::sides::unit_in;
use crate::waiting::BLOCK;
use j39_groups::Value;
use j39_io::backwards::{bytes_before, slice_before};

/// Writes the object of a reading at the end of a block, and answers where it starts. `None`, and nothing of use is written, for a
/// text of the sender's, a number with more than fifteen places, and a text of the table that is long or doesn't stand as it is.
#[inline(always)]
pub(crate) fn object_before(
    out: &mut [u8; BLOCK],
    opening: &Head,
    spn: u32,
    parameter: Option<&[u8]>,
    value: Value<'_, '_>,
    state: Option<&[u8]>,
) -> Option<usize>
    ensures written { (group : Option (List ℕ)) → IfSome result (λ start. WritesBefore out.old out.new 2048 start
        (opened opening.now group ++ (parameter_members spn (option_map (λ text. text.now) parameter.entry)
        ++ value_members (value_of value.entry) (option_map (λ text. text.now) state.entry)))) }
    ensures within { IfSome result (λ start. start ≤ 2048) }
{
    if !opening.has_group {
        return None;
    }
    let behind = value_before(out, BLOCK, value, state)?;
    let number = parameter_before(out, behind, spn, parameter)?;
    Some(slice_before(out, number, opening.bytes()))
}

/// Writes the number of the parameter, and what it is called.
#[inline(always)]
fn parameter_before(out: &mut [u8], end: usize, spn: u32, parameter: Option<&[u8]>) -> Option<usize>
    requires room { 95 ≤ end }
    requires within { end ≤ length out.old }
    ensures written { IfSome result (λ start. WritesBefore out.old out.new end start
        (parameter_members spn (option_map (λ text. text.now) parameter.entry))) }
    ensures short { IfSome result (λ start. end ≤ start + 95) }
{
    let name = string_or_null_before(out, end, parameter)?;
    let key = bytes_before(out, name, *b",\"parameter\":");
    let number = digits_before(out, key, spn);
    Some(bytes_before(out, number, *b",\"spn\":"))
}

/// Writes the value, its unit, what its state is called, and the end of the line.
#[inline(always)]
fn value_before(
    out: &mut [u8],
    end: usize,
    value: Value<'_, '_>,
    state: Option<&[u8]>,
) -> Option<usize>
    requires room { 196 ≤ end }
    requires within { end ≤ length out.old }
    ensures written { IfSome result (λ start. WritesBefore out.old out.new end start
        (value_members (value_of value.entry) (option_map (λ text. text.now) state.entry))) }
    ensures short { IfSome result (λ start. end ≤ start + 196) }
{
    let last = bytes_before(out, end, *b"}\n");
    let words = string_or_null_before(out, last, state)?;
    let state_key = bytes_before(out, words, *b",\"state\":");
    let unit = string_or_null_before(out, state_key, unit_in(value))?;
    let unit_key = bytes_before(out, unit, *b",\"unit\":");
    let json = json_before(out, unit_key, value)?;
    Some(bytes_before(out, json, *b",\"value\":"))
}

/// Writes a value: a number, or a word as a string.
#[inline(always)]
#[tactic(auto, unfolding(crate::specs::EntryObject::value_json))]
pub(crate) fn json_before(out: &mut [u8], end: usize, value: Value<'_, '_>) -> Option<usize>
    requires room { 38 ≤ end }
    requires within { end ≤ length out.old }
    ensures written { IfSome result (λ start. WritesBefore out.old out.new end start (value_json (value_of value.entry))) }
    ensures short { IfSome result (λ start. end ≤ start + 38) }
{
    match value {
        Value::Number(number, scale) => scaled_before(out, end, number, scale.places()),
        Value::On => Some(bytes_before(out, end, *b"\"on\"")),
        Value::Off => Some(bytes_before(out, end, *b"\"off\"")),
        Value::Error => Some(bytes_before(out, end, *b"\"error\"")),
        Value::Reserved => Some(bytes_before(out, end, *b"\"reserved\"")),
        Value::Indicator => Some(bytes_before(out, end, *b"\"indicator\"")),
        Value::Text(_) => None,
    }
}
