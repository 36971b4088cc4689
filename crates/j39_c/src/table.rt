//! Tables of parameters of one's own, and the readings of a message by them. A table is its text.
ghost use Rattle.std.specs.Prelude.{◌≡◌, ◌≢◌, ◌+◌, ℕ, ◌∷◌, [], List, None, IfSome, length, pos};
ghost use Rattle.j39_groups.specs.Row.{RowRecord};
ghost use Rattle.j39_groups.specs.ValueText.{value_text};
ghost use Rattle.j39_listen.specs.Report.{entry_of, entry_text};
ghost use Rattle.j39_table.specs.Faults.{column_of as column_before};
ghost use Rattle.j39_table.specs.Tables.{IsFaultOf, IsTable, IsTableOf};
ghost use Rattle.j39_table.specs.declared.fault.TableFault.{TableFault as Fault};
ghost use Rattle.j39_table.specs.declared.fault.TableFault.TheVariants.{Memory};
ghost use Rattle.j39_c.specs.Calls.{Answers, Fills, FillsFront};
ghost use Rattle.j39_c.specs.Codes.{IsDone, IsRefused, bad_value, end, no_memory, no_room};
ghost use Rattle.j39_c.specs.Messages.{hearing_in};
ghost use Rattle.j39_c.specs.OwnTables.{IsWrongAt};
ghost use Rattle.j39_c.specs.Readings.{IsPlainAnswer, IsReadable, IsReportable, IsTextAnswer, reading_by};

use crate::message::WholeMessage;
use crate::reading::{PlainReading, has_short_unit, payload_of, plain, put_text};
use crate::refusal::Refusal;
use crate::report_line::put_report;
use j39_frame::{Pgn, Stamp};
use j39_table::{RowFault, TableFault, check, reading_at};
use std::alloc::Global;

/// Where a text is wrong that is no table, `j1939_wrong` of the header.
#[repr(C)]
#[derive(Clone, Copy, Debug)]
pub struct PlainWrong {
    /// The line, from 1 on; 0 of a text that is too long.
    pub line: u32,
    /// The column, from 1 on; 0 of a text that is too long, and of a line behind 65,536 rows.
    pub column: u8,
}

/// Whether a text is a table: 0; or -1, and where it is wrong.
#[unsafe(no_mangle)]
pub extern "C" fn j39_table_check(text: &[u8], wrong: &mut PlainWrong) -> i32
    ensures table { IsDone result → IsTable text.now }
    ensures wrong { IsRefused result → (fault : Fault) × (IsFaultOf text.now fault × IsWrongAt wrong.new fault) }
    ensures answers { Answers 0 (bad_value ∷ []) result }
    ensures fills { Fills (bad_value ∷ []) result (wrong.new ≡ wrong.old) }
{
    match check(text) {
        Ok(()) => 0,
        Err(fault) => {
            *wrong = wrong_at(fault);
            Refusal::BadValue.code()
        }
    }
}

/// Where a fault of a table is.
fn wrong_at(fault: TableFault) -> PlainWrong
    ensures { (text : List ℕ) → IsFaultOf text fault → fault ≢ Memory → IsWrongAt result fault }
{
    match fault {
        TableFault::Line(line, fault) => PlainWrong {
            line,
            column: column_of(fault),
        },
        TableFault::TooManyRows(line) => PlainWrong { line, column: 0 },
        TableFault::Name(line, _) => PlainWrong { line, column: 0 },
        TableFault::TooLong => PlainWrong { line: 0, column: 0 },
        TableFault::Memory => PlainWrong { line: 0, column: 0 },
    }
}

/// Which column a fault of a line names, from 1 on.
fn column_of(fault: RowFault) -> u8
    ensures { result ≡ column_before fault + 1 }
{
    match fault {
        RowFault::Pgn => 1,
        RowFault::Group => 2,
        RowFault::Spn => 3,
        RowFault::Place => 4,
        RowFault::Step => 5,
        RowFault::Offset => 6,
        RowFault::Unit => 7,
        RowFault::Name => 8,
        RowFault::States => 9,
    }
}

/// Reads reading number `index` of a message, by the table that a text says: 0; -1 for a message that is none, -5 where the unit has
/// more than seven bytes, -6 behind the last reading.
#[unsafe(no_mangle)]
pub extern "C" fn j39_reading_by(
    text: &[u8],
    message: &WholeMessage,
    out: &mut PlainReading,
    index: usize,
) -> i32
    ensures read { (table : List RowRecord) → IsTableOf text.now table → IsReadable message.now
        → IfSome (reading_by table message.now index) (λ reading. IsPlainAnswer out.new reading result) }
    ensures behind { (table : List RowRecord) → IsTableOf text.now table → IsReadable message.now
        → reading_by table message.now index ≡ None → result ≡ end }
    ensures bad { (IsReadable message.now → ⊥) → result ≡ bad_value }
    ensures answers { Answers 0 (bad_value ∷ no_room ∷ end ∷ []) result }
    ensures fills { Fills (pos 0 ∷ []) result (out.new ≡ out.old) }
{
    let (Some(pgn), Some(payload)) = (Pgn::new(message.pgn), payload_of(message)) else {
        return Refusal::BadValue.code();
    };
    let Some(reading) = reading_at(text, pgn, payload, index) else {
        return Refusal::End.code();
    };
    if !has_short_unit(&reading.value) {
        return Refusal::NoRoom.code();
    }
    *out = plain(&reading);
    0
}

/// Writes out the text of reading number `index`, by the table that a text says, as `j39_reading_text` does by the built-in one.
#[unsafe(no_mangle)]
pub extern "C" fn j39_reading_text_by(
    alloc: Global,
    table: &[u8],
    message: &WholeMessage,
    index: usize,
    text: &mut [u8],
) -> i32
    ensures read { (rows : List RowRecord) → IsTableOf table.now rows → IsReadable message.now
        → IfSome (reading_by rows message.now index) (λ reading.
        IsTextAnswer (length text.old) (value_text reading.value) result text.new) }
    ensures behind { (rows : List RowRecord) → IsTableOf table.now rows → IsReadable message.now
        → reading_by rows message.now index ≡ None → result ≡ end }
    ensures bad { (IsReadable message.now → ⊥) → result ≡ bad_value }
    ensures answers { Answers (length text.old) (bad_value ∷ no_memory ∷ no_room ∷ end ∷ []) result }
    ensures fills { FillsFront result text.old text.new }
{
    let (Some(pgn), Some(payload)) = (Pgn::new(message.pgn), payload_of(message)) else {
        return Refusal::BadValue.code();
    };
    put_text(alloc, reading_at(table, pgn, payload, index), text)
}

/// Writes out the line of reading number `index`, by the table that a text says, as `j39_report_line` does by the built-in one.
#[unsafe(no_mangle)]
pub extern "C" fn j39_report_line_by(
    alloc: Global,
    table: &[u8],
    message: &WholeMessage,
    index: usize,
    text: &mut [u8],
) -> i32
    ensures read { (rows : List RowRecord) → IsTableOf table.now rows → IsReportable message.now
        → IfSome (reading_by rows message.now index) (λ reading.
        IsTextAnswer (length text.old) (entry_text (entry_of (hearing_in message.now) reading)) result text.new) }
    ensures behind { (rows : List RowRecord) → IsTableOf table.now rows → IsReportable message.now
        → reading_by rows message.now index ≡ None → result ≡ end }
    ensures bad { (IsReportable message.now → ⊥) → result ≡ bad_value }
    ensures answers { Answers (length text.old) (bad_value ∷ no_memory ∷ no_room ∷ end ∷ []) result }
    ensures fills { FillsFront result text.old text.new }
{
    let (Some(pgn), Some(payload)) = (Pgn::new(message.pgn), payload_of(message)) else {
        return Refusal::BadValue.code();
    };
    let Some(moment) = Stamp::new(message.micros) else {
        return Refusal::BadValue.code();
    };
    let Some(found) = reading_at(table, pgn, payload, index) else {
        return Refusal::End.code();
    };
    put_report(alloc, moment, message, &found, text)
}
