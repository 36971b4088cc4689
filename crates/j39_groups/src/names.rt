//! What groups and parameters are called.
ghost use Rattle.std.specs.Prelude.{◌≡◌, map, option_map, slice_get};
ghost use Rattle.std.specs.List.{filter_map};
ghost use Rattle.std.specs.Option.{option_copied};
ghost use Rattle.j39_groups.specs.Models.{row_record};
ghost use Rattle.j39_groups.specs.Names.{group_at, parameter_name, row_at};

use crate::row::Row;
use crate::states::called;

/// What these rows call a group.
pub(crate) fn group_name_in<'r>(rows: &'r [Row<'_>], pgn: u32) -> Option<&'r [u8]>
    ensures { option_copied result ≡ slice_get (filter_map (λ row. group_at pgn (row_record row)) rows.now) 0 }
{
    for row in rows {
        if row.pgn == pgn {
            return Some(row.group);
        }
    }
    None
}

/// What these rows call a parameter, of whatever group.
pub(crate) fn name_in<'r>(rows: &'r [Row<'_>], spn: u32) -> Option<&'r [u8]>
    ensures { option_map (λ name. name.now) result ≡ parameter_name (map row_record rows.now) spn }
{
    for row in rows {
        if row.spn == spn {
            return Some(called(row.name));
        }
    }
    None
}

/// The first of these rows that is a parameter's of a group.
pub(crate) fn row_in_group<'r, 't>(rows: &'r [Row<'t>], pgn: u32, spn: u32) -> Option<&'r Row<'t>>
    ensures { option_map (λ row. row_record row.now) result
        ≡ slice_get (filter_map (λ row. row_at pgn spn (row_record row)) rows.now) 0 }
{
    for listed in rows {
        if let Some(row) = row_at(listed, pgn, spn) {
            return Some(row);
        }
    }
    None
}

fn row_at<'r, 't>(row: &'r Row<'t>, pgn: u32, spn: u32) -> Option<&'r Row<'t>>
    ensures { option_map (λ row. row_record row.now) result ≡ row_at pgn spn (row_record row.now) }
{
    if row.pgn == pgn && row.spn == spn {
        Some(row)
    } else {
        None
    }
}
