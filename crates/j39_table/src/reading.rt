//! A whole table.
ghost use Rattle.std.specs.Prelude.{Err, ◌≡◌, ◌<◌, IfOk, IfErr, length};
ghost use Rattle.j39_table.specs.Tables.{IsFaultOf, IsTableOf};
ghost use Rattle.j39_table.specs.declared.fault.TableFault.TheVariants.{TooLong};

use crate::TableFault;
use crate::row::read_row;
use crate::taking::{Taker, take_lines};
use j39_groups::{Groups, Rows};
use std::alloc::Global;

/// The table that a text of at most 1 MiB says: a line for each row, as `j1939 groups` prints it, 65,536 rows at most.
/// A line that is empty, or whose first byte that is no space is `#`, says nothing; a carriage return at a line's end
/// does not count. Rows of one group stay in their order.
pub fn read(alloc: Global, text: &[u8]) -> Result<Groups<'_>, TableFault>
    ensures table { IfOk result (λ groups. IsTableOf text.now groups) }
    ensures wrong { IfErr result (λ fault. IsFaultOf text.now fault) }
    ensures long { 1048576 < length text.now → result ≡ Err TooLong }
{
    let mut rows = Rows::new(alloc);
    take_lines(&mut rows, text)?;
    match Groups::from_rows(rows) {
        Ok(groups) => Ok(groups),
        Err(_) => Err(TableFault::Memory),
    }
}

impl<'t> Taker<'t> for Rows<'t> {
    ghost use Rattle.j39_groups.specs.GivenRows.{rows_in};
    ghost use Rattle.j39_groups.specs.Row.{RowRecord};
    ghost use Rattle.j39_table.specs.Spelled.{SpellsRow};

    ghost Item = { RowRecord };

    ghost spells = { SpellsRow };

    ghost has = { λ rows items. rows_in rows ≡ items };

    ghost is_fault = { IsFaultOf };

    fn take(&mut self, number: u32, line: &'t [u8]) -> Result<(), TableFault> {
        match read_row(line) {
            Ok(row) => match self.push(row) {
                Ok(()) => Ok(()),
                Err(_) => Err(TableFault::Memory),
            },
            Err(fault) => Err(TableFault::Line(number, fault)),
        }
    }
}
