//! A line of a table.
ghost use Rattle.std.specs.Prelude.{◌≡◌, ℕ, IfOk, IfErr, IfSome, IsSomeAnd, true};
ghost use Rattle.std.specs.Result.{IsOkAnd};
ghost use Rattle.j39_frame.specs.Pgn.{pgn_raw};
ghost use Rattle.j39_groups.specs.Models.{row_record};
ghost use Rattle.j39_groups.specs.Row.{RowRecord};
ghost use Rattle.j39_groups.specs.Rows.{is_row};
ghost use Rattle.j39_table.specs.Faults.{column_of};
ghost use Rattle.j39_table.specs.Lines.{column_texts};
ghost use Rattle.j39_table.specs.Spelled.{HasRow, IsWrongColumn, SaysGroup, SaysParameter, SpellsRow};

use crate::RowFault;
use crate::columns::decimal_in;
use crate::field::field_in;
use crate::line::{Columns, columns_of};
use crate::states::{are_states, states_limit};
use crate::words::{is_name, is_word};
use j39_frame::Pgn;
use j39_groups::{Row, is_heard_group, is_network_group, split_states};

/// The row that a line spells, as `j1939 groups` prints it: seven words with spaces between, a name, and maybe names of states; or the
/// first column with which no row goes on.
pub fn read_row(line: &[u8]) -> Result<Row<'_>, RowFault>
    ensures found { IfOk result (λ row. SpellsRow line.now (row_record row)) }
    ensures only { (row : RowRecord) → SpellsRow line.now row → IsOkAnd result (λ found. row_record found ≡ row) }
    ensures wrong { IfErr result (λ fault. IsWrongColumn line.now (column_of fault)) }
    ensures row { IfOk result (λ row. is_row row ≡ true) }
{
    row_of(columns_of(line))
}

pub(crate) fn row_of(columns: Columns<'_>) -> Result<Row<'_>, RowFault>
    ensures { HasRow (column_texts columns.entry) result }
{
    let Some(pgn) = group_in(columns.pgn) else {
        return Err(RowFault::Pgn);
    };
    if !is_word(columns.group) {
        return Err(RowFault::Group);
    }
    let Some(spn) = parameter_in(columns.spn) else {
        return Err(RowFault::Spn);
    };
    let field = match field_in(columns.place, columns.step, columns.offset, columns.unit) {
        Ok(field) => field,
        Err(fault) => return Err(fault),
    };
    let (name, states) = split_states(columns.name);
    if !is_name(name) {
        return Err(RowFault::Name);
    }
    if !are_states(states_limit(field), states) {
        return Err(RowFault::States);
    }
    Ok(Row::new(pgn, columns.group, spn, columns.name, field))
}

/// The group that a text says, where a table may list it.
fn group_in(text: &[u8]) -> Option<Pgn>
    ensures found { IfSome result (λ pgn. SaysGroup text.now (pgn_raw pgn)) }
    ensures only { (pgn : ℕ) → SaysGroup text.now pgn → IsSomeAnd result (λ found. pgn_raw found ≡ pgn) }
{
    let pgn = Pgn::new(decimal_in(text)?)?;
    if is_network_group(pgn) || !is_heard_group(pgn) {
        None
    } else {
        Some(pgn)
    }
}

/// The parameter's number that a text says.
fn parameter_in(text: &[u8]) -> Option<u32>
    ensures found { IfSome result (λ spn. SaysParameter text.now spn) }
    ensures only { (spn : ℕ) → SaysParameter text.now spn → IsSomeAnd result (λ found. found ≡ spn) }
{
    let spn = decimal_in(text)?;
    if spn < 1 << 19 { Some(spn) } else { None }
}
