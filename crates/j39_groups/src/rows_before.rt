//! The lines of the readings by a group's rows, in one block, the last line first.
ghost use Rattle.std.specs.Prelude.{◌≡◌, ◌+◌, ◌≤◌, ◌++◌, ◌∷◌, [], IfSome, IsTrue, Some, drop, length, true};
ghost use Rattle.std.specs.Fmt.{sign_text};
ghost use Rattle.std.specs.List.{flat_map, list_all};
ghost use Rattle.std.specs.Option.{option_map, option_to_list};
ghost use Rattle.j39_io.specs.Backwards.{WritesBefore};
ghost use Rattle.j39_io.specs.Chars.{newline};
ghost use Rattle.j39_groups.specs.Lines.{in_group, reading_line, readings_by, row_lines};
ghost use Rattle.j39_groups.specs.Models.{field_record, field_slot, row_record, short_value};
ghost use Rattle.j39_groups.specs.Readings.{readings_at, values_at};
ghost use Rattle.j39_groups.specs.Ready.{HasEnd, short_text};
ghost use Rattle.j39_groups.specs.Rows.{is_row};
ghost use Rattle.j39_groups.specs.ValueText.{magnitude_text, value_text};

use crate::prepared::{Ending, Prepared};
use crate::row::Row;
use crate::short::Short;
use crate::short_text::{magnitude_before, short_before};
use crate::value_in::short_in;
use j39_io::backwards::{byte_before, bytes_before, tail_before};

/// The most bytes that the lines of a message begin with.
pub const HEAD: usize = 48;

/// The most bytes of a line that is written here: its head, a label, and a value with a newline.
const LINE: usize = HEAD + 16 + 56;

/// The bytes of a block that the lines of eight rows fit in.
pub const LINES: usize = 8 * LINE;

/// Writes a line for each reading of a payload by these rows. The lines end at the end of `out`; answers where they start,
/// and how many they are. `None`, and nothing of use is written, where one of these rows has no end.
#[inline(always)]
pub(crate) fn rows_before(
    out: &mut [u8; LINES],
    head: &[u8; HEAD],
    from: usize,
    rows: &[Row<'_>],
    bytes: &[u8],
) -> Option<(usize, u64)>
    requires from { from ≤ 48 }
    requires few { length rows.now ≤ 8 }
    requires sound { list_all is_row rows.now ≡ true }
    ensures written { IfSome result (λ found. WritesBefore out.old out.new 960 found.0
        (flat_map (row_lines (drop from head.now) bytes.now) rows.now)) }
    ensures lines { IfSome result (λ found. found.1 ≡ length (flat_map (readings_by bytes.now) rows.now)) }
    ensures few { IfSome result (λ found. found.1 ≤ length rows.now) }
{
    let mut left = rows.len();
    let mut at = LINES;
    let mut lines = 0;
    'rows: while left > 0 {
        left -= 1;
        let (start, more) = row_before(out, at, head, from, &rows[left], bytes)?;
        at = start;
        lines += more;
    }
    Some((at, lines))
}

/// Writes the line of a row, where its value is there, and answers where it starts, and how many lines these are.
#[inline(always)]
fn row_before(
    out: &mut [u8],
    end: usize,
    head: &[u8; HEAD],
    from: usize,
    row: &Row<'_>,
    bytes: &[u8],
) -> Option<(usize, u64)>
    requires from { from ≤ 48 }
    requires sound { is_row row.now ≡ true }
    requires room { 120 ≤ end }
    requires within { end ≤ length out.old }
    ensures written { IfSome result (λ found. WritesBefore out.old out.new end found.0
        (flat_map (reading_line (in_group (drop from head.now) row.now.pgn)) (readings_at bytes.now (row_record row.now)))) }
    ensures lines { IfSome result (λ found. found.1 ≡ length (readings_at bytes.now (row_record row.now))) }
    ensures one { IfSome result (λ found. found.1 ≤ 1) }
    ensures short { IfSome result (λ found. end ≤ found.0 + 120) }
{
    let prepared = row.prepared.as_ref()?;
    match ready_value(row, prepared, bytes) {
        Some(short) => {
            let start = line_before(out, end, head, from, row, prepared, short);
            Some((start, 1))
        }
        None => Some((end, 0)),
    }
}

/// The value in a row that has one at most, whose line is prepared.
#[inline(always)]
fn ready_value(row: &Row<'_>, prepared: &Prepared, bytes: &[u8]) -> Option<Short>
    requires sound { is_row row.now ≡ true }
    requires prepared { row.now.prepared ≡ Some prepared.now }
    ensures value { option_to_list (option_map (short_value (field_slot row.now.field)) result)
        ≡ values_at bytes.now (field_record row.now.field) }
    ensures ends { IfSome result (λ short. HasEnd prepared.now.end (short_value (field_slot row.now.field) short)) }
{
    short_in(bytes, &row.field)
}

/// Writes the line of a value of a row.
#[inline(always)]
fn line_before(
    out: &mut [u8],
    end: usize,
    head: &[u8; HEAD],
    from: usize,
    row: &Row<'_>,
    prepared: &Prepared,
    short: Short,
) -> usize
    requires from { from ≤ 48 }
    requires sound { is_row row.now ≡ true }
    requires prepared { row.now.prepared ≡ Some prepared.now }
    requires ends { HasEnd prepared.now.end (short_value (field_slot row.now.field) short) }
    requires room { 120 ≤ end }
    requires within { end ≤ length out.old }
    ensures written { WritesBefore out.old out.new end result (reading_line (in_group (drop from head.now) row.now.pgn)
        (record { spn = row.now.spn; value = short_value (field_slot row.now.field) short })) }
    ensures short { end ≤ result + 120 }
{
    let text = value_before(out, end, short, row, &prepared.end);
    let label = short_before(out, text, &prepared.label);
    tail_before(out, label, head, from)
}

/// Writes the text of a value of a row, and a newline.
#[inline(always)]
#[tactic(auto, unfolding(crate::specs::ValueText::value_text))]
fn value_before(out: &mut [u8], end: usize, short: Short, row: &Row<'_>, ending: &Ending) -> usize
    requires ends { HasEnd ending.now (short_value (field_slot row.now.field) short) }
    requires room { 56 ≤ end }
    requires within { end ≤ length out.old }
    ensures written { WritesBefore out.old out.new end result
        (value_text (short_value (field_slot row.now.field) short) ++ (newline ∷ [])) }
    ensures short { end ≤ result + 53 }
{
    match short {
        Short::Number(number) => {
            let is_negative = number.is_negative();
            let magnitude = number.unsigned_abs();
            number_before_end(out, end, is_negative, magnitude, ending)
        }
        Short::On => bytes_before(out, end, *b"on\n"),
        Short::Off => bytes_before(out, end, *b"off\n"),
        Short::Error => bytes_before(out, end, *b"error\n"),
        Short::Reserved => bytes_before(out, end, *b"reserved\n"),
        Short::Indicator => bytes_before(out, end, *b"indicator\n"),
    }
}

/// Writes a number in decimal with its places, and its end.
#[inline(always)]
fn number_before_end(
    out: &mut [u8],
    end: usize,
    is_negative: bool,
    magnitude: u64,
    ending: &Ending,
) -> usize
    requires from { ending.now.text.from ≤ 16 }
    requires places { ending.now.places ≤ 15 }
    requires room { 56 ≤ end }
    requires within { end ≤ length out.old }
    ensures written { WritesBefore out.old out.new end result
        (sign_text is_negative ++ magnitude_text ending.now.places magnitude ++ short_text ending.now.text) }
    ensures short { end ≤ result + 53 }
{
    let unit = short_before(out, end, &ending.text);
    let digits = magnitude_before(out, unit, magnitude, ending.places);
    sign_before(out, digits, is_negative)
}

#[inline(always)]
fn sign_before(out: &mut [u8], end: usize, is_negative: bool) -> usize
    requires room { 1 ≤ end }
    requires within { end ≤ length out.old }
    ensures written { WritesBefore out.old out.new end result (sign_text is_negative) }
    ensures short { end ≤ result + 1 }
{
    if is_negative {
        byte_before(out, end, b'-')
    } else {
        end
    }
}
