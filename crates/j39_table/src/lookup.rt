//! A table that stays a text: its rows are read from their lines when they are asked for, and nothing takes memory.
ghost use Rattle.std.specs.Prelude.{◌≡◌, ◌≢◌, ◌==◌, ◌<◌, ℕ, List, None, Some, Err, IfErr, IfSome, MatchResult, OnOk, false, true, if◌then◌else◌, length, slice_get};
ghost use Rattle.std.specs.Option.{option_map};
ghost use Rattle.j39_frame.specs.Pgn.{pgn_raw};
ghost use Rattle.j39_groups.specs.Models.{reading_of, row_record};
ghost use Rattle.j39_groups.specs.Picks.{IsPicked};
ghost use Rattle.j39_groups.specs.Readings.{readings_in};
ghost use Rattle.j39_groups.specs.Row.{RowRecord};
ghost use Rattle.j39_groups.specs.Rows.{is_row};
ghost use Rattle.j39_table.specs.Spelled.{SpellsRow};
ghost use Rattle.j39_table.specs.Tables.{IsFaultOf, IsTable, IsTableOf, SpellRows, is_row_line, lines_of, row_lines};
ghost use Rattle.j39_table.specs.declared.fault.TableFault.TheVariants.{Memory};

use crate::TableFault;
use crate::columns::decimal_in;
use crate::line::columns_of;
use crate::row::{read_row, row_of};
use crate::taking::{Taker, first_line, is_row_line, take_lines};
use j39_frame::Pgn;
use j39_groups::{Reading, Row, pick};

/// Whether a text is a table that `read` takes where there is memory; if not, its first fault, never `Memory`.
pub fn check(text: &[u8]) -> Result<(), TableFault>
    ensures table { OnOk result (IsTable text.now) }
    ensures wrong { IfErr result (λ fault. IsFaultOf text.now fault) }
    ensures memory { result ≢ Err Memory }
{
    take_lines(&mut Checker, text)
}

/// What keeps nothing of the rows.
#[derive(Drop)]
struct Checker;

impl<'t> Taker<'t> for Checker {
    ghost use Rattle.std.specs.Prelude.{⊤};
    ghost use Rattle.j39_table.specs.declared.fault.TableFault.TheVariants.{Memory};

    ghost Item = { RowRecord };

    ghost spells = { SpellsRow };

    ghost has = { λ _ _. ⊤ };

    ghost is_fault = { λ text fault. IsFaultOf text fault × (fault ≢ Memory) };

    fn take(&mut self, number: u32, line: &'t [u8]) -> Result<(), TableFault> {
        match read_row(line) {
            Ok(_) => Ok(()),
            Err(fault) => Err(TableFault::Line(number, fault)),
        }
    }
}

/// Reading number `index`, from 0 on, of a payload of this group by the table that a text says (J1939-71), in the table's order;
/// `None` behind the last. Of a text that is no table (`check`) nothing is promised.
pub fn reading_at<'t, 'v>(
    text: &'t [u8],
    pgn: Pgn,
    bytes: &'v [u8],
    index: usize,
) -> Option<Reading<'t, 'v>>
    ensures { (table : List RowRecord) → IsTableOf text.now table
        → option_map reading_of result ≡ slice_get (readings_in table (pgn_raw pgn) bytes.now) index }
{
    match pick_in(text, pgn.raw(), bytes, index) {
        Ok(reading) => Some(reading),
        Err(_) => None,
    }
}

/// Picks the reading behind so many of those that a text's rows give; else how many are still to be left out.
fn pick_in<'t, 'v>(
    text: &'t [u8],
    pgn: u32,
    bytes: &'v [u8],
    mut left: usize,
) -> Result<Reading<'t, 'v>, usize>
    ensures { (rows : List RowRecord) → SpellRows (row_lines (lines_of text.now)) rows
        → IsPicked (readings_in rows pgn bytes.now) left result }
{
    let mut rest = Some(text);
    while let Some(text) = rest {
        let (line, behind) = first_line(text);
        rest = behind;
        if let Some(row) = row_in(line, pgn) {
            match pick(&row, bytes, left) {
                Ok(reading) => return Ok(reading),
                Err(rest) => left = rest,
            }
        }
    }
    Err(left)
}

/// The row that a line spells, where it is one of this group. The other columns are read of no other line.
fn row_in(line: &[u8], pgn: u32) -> Option<Row<'_>>
    ensures found { (row : RowRecord) → is_row_line line.now ≡ true → SpellsRow line.now row
        → option_map row_record result ≡ (if row.pgn == pgn then Some row else None) }
    ensures comment { is_row_line line.now ≡ false → result ≡ None }
    ensures sound { IfSome result (λ row. is_row row ≡ true) }
{
    if !is_row_line(line) {
        return None;
    }
    let columns = columns_of(line);
    if decimal_in(columns.pgn) != Some(pgn) {
        return None;
    }
    match row_of(columns) {
        Ok(row) => Some(row),
        Err(_) => None,
    }
}
