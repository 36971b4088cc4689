//! What is read in the payload of a group (J1939-71), by the built-in table.
ghost use Rattle.std.specs.Prelude.{◌≡◌, ◌+◌, ◌≤◌, ◌<◌, ◌==◌, ◌++◌, [], map, filter, slice_get, take, true};
ghost use Rattle.std.specs.List.{filter_map, flat_map, list_all};
ghost use Rattle.std.specs.Option.{option_map, option_to_list};
ghost use Rattle.arrayvec.specs.ArrayVec.{array_vec_len};
ghost use Rattle.j39_frame.specs.Pgn.{pgn_raw};
ghost use Rattle.j39_groups.specs.Fields.{is_sound};
ghost use Rattle.j39_groups.specs.Lines.{row_readings};
ghost use Rattle.j39_groups.specs.Models.{reading_of, row_record, value_of};
ghost use Rattle.j39_groups.specs.Parts.{parts_of};
ghost use Rattle.j39_groups.specs.Picks.{IsPicked};
ghost use Rattle.j39_groups.specs.Readings.{filled_text_meaning, readings_at, readings_of};
ghost use Rattle.j39_groups.specs.Rows.{is_built_in, is_row, most_values};

use crate::field::Field;
use crate::row::Row;
use crate::table::built_in_rows;
use crate::value::{Reading, Value};
use crate::value_in::{bytes_from, filled_text_of, short_in, value_in};
use arrayvec::ArrayVec;
use j39_frame::Pgn;

/// What is read in a payload of this group, of any length, in the table's order (J1939-71). Nothing
/// for a group that is not reported; no reading for a parameter with a byte past the payload's end,
/// one that is not available, or an empty text, nor, in software identification, for a text of bytes
/// FF alone (own). Texts are lent out of the payload.
#[tactic(auto, unfolding(crate::specs::Readings::readings_in))]
pub fn readings(pgn: Pgn, bytes: &[u8]) -> ArrayVec<Reading<'static, '_>, 32>
    ensures { map reading_of result.items ≡ readings_of (pgn_raw pgn) bytes.now }
{
    read_rows(built_in_rows(), pgn.raw(), bytes)
}

fn read_rows<'t, 'v>(rows: &[Row<'t>], pgn: u32, bytes: &'v [u8]) -> ArrayVec<Reading<'t, 'v>, 32>
    requires sound { list_all is_row rows.now ≡ true }
    requires built_in { is_built_in rows.now ≡ true }
    ensures { map reading_of result.items
        ≡ flat_map (λ row. readings_at bytes.now (row_record row)) (filter (λ row. row.pgn == pgn) rows.now) }
{
    let mut found = ArrayVec::new();
    for row in rows {
        if row.pgn == pgn {
            push_readings(&mut found, row, bytes);
        }
    }
    found
}

/// Appends what is read by one row.
#[tactic(auto, unfolding(crate::specs::Readings::values_at))]
pub(crate) fn push_readings<'t, 'v>(
    found: &mut ArrayVec<Reading<'t, 'v>, 32>,
    row: &Row<'t>,
    bytes: &'v [u8],
)
    requires sound { is_sound row.now.field ≡ true }
    requires room { array_vec_len found.old + most_values row.now.field ≤ 32 }
    ensures items { map reading_of found.new.items
        ≡ map reading_of found.old.items ++ readings_at bytes.now (row_record row.now) }
    ensures len { array_vec_len found.new ≤ array_vec_len found.old + most_values row.now.field }
{
    match row.field {
        Field::Texts { byte, count } => push_texts(found, row.spn, bytes_from(bytes, byte), count),
        Field::Number { .. } => push_value(found, row.spn, value_in(bytes, row.field)),
        Field::Bits { .. } => push_value(found, row.spn, value_in(bytes, row.field)),
        Field::Full { .. } => push_value(found, row.spn, value_in(bytes, row.field)),
        Field::Switch { .. } => push_value(found, row.spn, value_in(bytes, row.field)),
        Field::Text { .. } => push_value(found, row.spn, value_in(bytes, row.field)),
    }
}

/// Appends the reading of a value, where there is one.
fn push_value<'t, 'v>(
    found: &mut ArrayVec<Reading<'t, 'v>, 32>,
    spn: u32,
    value: Option<Value<'t, 'v>>,
)
    requires { array_vec_len found.old < 32 }
    ensures items { map reading_of found.new.items
        ≡ map reading_of found.old.items
        ++ map (λ value. record { spn = spn; value = value }) (option_to_list (option_map value_of value.entry)) }
    ensures len { array_vec_len found.new ≤ array_vec_len found.old + 1 }
{
    if let Some(value) = value {
        found.push(Reading { spn, value });
    }
}

/// Appends the readings of the first `count` parts.
pub(crate) fn push_texts<'t, 'v>(
    found: &mut ArrayVec<Reading<'t, 'v>, 32>,
    spn: u32,
    bytes: &'v [u8],
    count: u8,
)
    requires { array_vec_len found.old + count ≤ 32 }
    ensures items { map reading_of found.new.items
        ≡ map reading_of found.old.items
        ++ map (λ value. record { spn = spn; value = value })
        (filter_map filled_text_meaning (take count (parts_of bytes.now))) }
    ensures len { array_vec_len found.new ≤ array_vec_len found.old + count }
{
    for part in bytes.split(|b| *b == b'*').take(usize::from(count)) {
        push_value(found, spn, filled_text_of(part));
    }
}

/// Reading number `index`, from 0 on, of those that `readings` gives; `None` behind the last. It makes no list of them.
#[tactic(auto, unfolding(crate::specs::Readings::readings_in))]
pub fn reading_at(pgn: Pgn, bytes: &[u8], index: usize) -> Option<Reading<'static, '_>>
    ensures { option_map reading_of result ≡ slice_get (readings_of (pgn_raw pgn) bytes.now) index }
{
    match pick_of_rows(built_in_rows(), pgn.raw(), bytes, index) {
        Ok(reading) => Some(reading),
        Err(_) => None,
    }
}

/// Picks the reading behind so many, by those of these rows that are the group's; else how many are still to be left out.
fn pick_of_rows<'t, 'v>(
    rows: &[Row<'t>],
    pgn: u32,
    bytes: &'v [u8],
    mut left: usize,
) -> Result<Reading<'t, 'v>, usize>
    requires { list_all is_row rows.now ≡ true }
    ensures { IsPicked (flat_map (row_readings pgn bytes.now) rows.now) left result }
{
    for row in rows {
        if row.pgn == pgn && !is_absent(row, bytes) {
            match pick_of_row(row, bytes, left) {
                Ok(reading) => return Ok(reading),
                Err(rest) => left = rest,
            }
        }
    }
    Err(left)
}

/// Whether a row's number or switch is past the payload's end, or not available: a short way past the row.
#[inline(always)]
#[tactic(auto, unfolding(crate::specs::Readings::values_at))]
fn is_absent(row: &Row<'_>, bytes: &[u8]) -> bool
    requires { is_sound row.now.field ≡ true }
    ensures { result ≡ true → readings_at bytes.now (row_record row.now) ≡ [] }
{
    match row.field {
        Field::Number { .. } => short_in(bytes, &row.field).is_none(),
        Field::Bits { .. } => short_in(bytes, &row.field).is_none(),
        Field::Switch { .. } => short_in(bytes, &row.field).is_none(),
        Field::Full { .. } => false,
        Field::Text { .. } => false,
        Field::Texts { .. } => false,
    }
}

/// The reading behind so many, `left`, of those that a row, as `Row::new` makes it, gives in a payload of its group (J1939-71);
/// else how many are still to be left out.
pub fn pick<'t, 'v>(row: &Row<'t>, bytes: &'v [u8], left: usize) -> Result<Reading<'t, 'v>, usize>
    requires { is_row row.now ≡ true }
    ensures { IsPicked (readings_at bytes.now (row_record row.now)) left result }
{
    pick_of_rows(&[*row], row.pgn, bytes, left)
}

/// The same, by one row.
#[inline(always)]
#[tactic(auto, unfolding(crate::specs::Readings::values_at))]
fn pick_of_row<'t, 'v>(
    row: &Row<'t>,
    bytes: &'v [u8],
    left: usize,
) -> Result<Reading<'t, 'v>, usize>
    requires { is_sound row.now.field ≡ true }
    ensures { IsPicked (readings_at bytes.now (row_record row.now)) left result }
{
    match row.field {
        Field::Texts { byte, count } => pick_text(row.spn, bytes_from(bytes, byte), count, left),
        Field::Number { .. } => pick_value(row.spn, value_in(bytes, row.field), left),
        Field::Bits { .. } => pick_value(row.spn, value_in(bytes, row.field), left),
        Field::Full { .. } => pick_value(row.spn, value_in(bytes, row.field), left),
        Field::Switch { .. } => pick_value(row.spn, value_in(bytes, row.field), left),
        Field::Text { .. } => pick_value(row.spn, value_in(bytes, row.field), left),
    }
}

/// The same, of a value, where there is one.
#[inline(always)]
fn pick_value<'t, 'v>(
    spn: u32,
    value: Option<Value<'t, 'v>>,
    left: usize,
) -> Result<Reading<'t, 'v>, usize>
    ensures { IsPicked (map (λ value. record { spn = spn; value = value })
        (option_to_list (option_map value_of value.entry))) left result }
{
    match value {
        None => Err(left),
        Some(value) => {
            if left == 0 {
                Ok(Reading { spn, value })
            } else {
                Err(left - 1)
            }
        }
    }
}

/// The same, of the first `count` parts.
fn pick_text<'t, 'v>(
    spn: u32,
    bytes: &'v [u8],
    count: u8,
    mut left: usize,
) -> Result<Reading<'t, 'v>, usize>
    ensures { IsPicked (map (λ value. record { spn = spn; value = value })
        (filter_map filled_text_meaning (take count (parts_of bytes.now)))) left result }
{
    for part in bytes.split(|b| *b == b'*').take(usize::from(count)) {
        match pick_value(spn, filled_text_of(part), left) {
            Ok(reading) => return Ok(reading),
            Err(rest) => left = rest,
        }
    }
    Err(left)
}
