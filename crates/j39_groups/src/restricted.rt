//! The rows of some parameters, out of a table.
ghost use Rattle.std.specs.Prelude.{◌≡◌, ◌<◌, ◌≤◌, IfOk, OnErr, length, map, true};
ghost use Rattle.std.specs.List.{list_all};
ghost use Rattle.j39_groups.specs.GivenRows.{rows_in};
ghost use Rattle.j39_groups.specs.Models.{row_record};
ghost use Rattle.j39_groups.specs.Readings.{is_among, rows_of_spns};
ghost use Rattle.j39_groups.specs.Rows.{is_row};

use crate::row::Row;
use crate::rows::Rows;
use std::alloc::{AllocError, Global};

/// The rows of these parameters (SPN), of those of a table. An error comes for want of memory alone, and not where no
/// row is kept.
pub(crate) fn restricted_rows<'t>(
    alloc: Global,
    rows: &[Row<'t>],
    spns: &[u32],
) -> Result<Rows<'t>, AllocError>
    requires few { length rows.now ≤ 65536 }
    requires sound { list_all is_row rows.now ≡ true }
    ensures kept { IfOk result (λ kept. rows_in kept ≡ rows_of_spns spns.now (map row_record rows.now)) }
    ensures wanted { OnErr result (0 < length (rows_of_spns spns.now (map row_record rows.now))) }
{
    let mut kept = Rows::new(alloc);
    for row in rows {
        if is_among(spns, row.spn) {
            kept.push(*row)?;
        }
    }
    Ok(kept)
}

fn is_among(spns: &[u32], spn: u32) -> bool
    ensures { result ≡ is_among spns.now spn }
{
    spns.iter().any(|listed| *listed == spn)
}
