//! What the program says of a file that is no table of parameters, or that says no names.
ghost use Rattle.std.specs.Prelude.{◌≡◌, false, true};
ghost use Rattle.j39_io.specs.Turn.{turn};
ghost use Rattle.j39_cli.specs.OwnTable.{table_line};
ghost use Rattle.j39_cli.specs.Tells.{Tells};

use crate::refusal::complain;
use j39_io::Sink;
use j39_table::TableFault;

/// Says why this file is no table, or says no names, and answers the exit status. A fault of the writer is passed over.
pub fn wrong_table<E: Sink>(file: &str, fault: TableFault, err: &mut E) -> u8
    ensures status { result ≡ 1 }
    ensures err { Tells (turn E.written E.has_failed err.old err.new)
        (table_line file.now fault) }
    ensures passed_on { E.has_failed err.new ≡ false → E.is_flushed err.new ≡ true }
{
    match fault {
        TableFault::Memory => complain(err, b"out of memory", b""),
        _ => complain(err, file.as_bytes(), fault.text().as_slice()),
    }
    1
}
