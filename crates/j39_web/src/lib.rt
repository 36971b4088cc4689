//! What a web page calls: each call makes a text of a log, in room that the page lends.
#![tactic(auto)]

ghost use Rattle.std.specs.Prelude.{◌≡◌, ◌≢◌, ◌<◌, ◌≤◌, ◌↔◌, ◌⊎◌, ◌∷◌, [], None, ⊤, length, take};
ghost use Rattle.j39_names.specs.Naming.{by_table};
ghost use Rattle.j39_address.specs.Name.{fields_of};
ghost use Rattle.j39_fault_reports.specs.FaultAsking.{AsksForFaults};
ghost use Rattle.j39_fault_reports.specs.FaultRun.{MakesFaults};
ghost use Rattle.j39_fault_reports.specs.Faults.{manner_in};
ghost use Rattle.j39_fault_reports.specs.News.{news};
ghost use Rattle.j39_fault_reports.specs.declared.fault_news.telling.Telling.TheVariants.{News};
ghost use Rattle.j39_groups.specs.Printed.{rows_text};
ghost use Rattle.j39_listen.specs.Asking.{AsksForBoxes};
ghost use Rattle.j39_listen.specs.Filter.{no_filter};
ghost use Rattle.j39_survey.specs.SeenNodes.{MakesSeenNodes, long_silence};
ghost use Rattle.j39_listen.specs.Output.{MakesReport};
ghost use Rattle.j39_listen.specs.declared.format.Clock.TheVariants.{Seconds};
ghost use Rattle.j39_listen.specs.declared.format.Format.TheVariants.{Line, Record};
ghost use Rattle.j39_reports.specs.SummaryRun.{AsksForRows, MakesSummary};
ghost use Rattle.j39_table.specs.FaultWords.{fault_text};
ghost use Rattle.j39_table.specs.declared.fault.TableFault.{TableFault};
ghost use Rattle.j39_web.specs.Answers.{IsWrongBus, done, given_bus, no_memory, too_small, wrong_bus, wrong_table};
ghost use Rattle.j39_web.specs.Calls.{Tells};
ghost use Rattle.j39_web.specs.Fields.{fields_in};
ghost use Rattle.j39_web.specs.Series.{MakesSeries};
ghost use Rattle.j39_web.specs.Tables.{ByRowsOf, ByTable, IsNoTable, IsWrongTable, TableOverflows, WantsRows};
ghost use Rattle.j39_web.specs.Text.{AsksSomewhere, IsMade, IsPublished, IsSurveyed, Overflows, SurveyOverflows, counts_in, no_counts};
ghost use Rattle.j39_web.specs.Writings.{MakesTable};

mod answers;
mod fields;
mod points;
mod room;
mod series;
mod texts;
mod writing;

use answers::{
    Given, NO_MEMORY, WRONG_BUS, answer, bus_named, refused, table_said, tell, tell_values, why,
};
use fields::NameFields;
use j39_table::TableFault;
use points::SeriesOrigin;
use std::alloc::Global;
use texts::LogText;
use writing::Writing;

/// Writes the report of a log by a table into a room: a line for each value that a controller on the bus reported. A bus
/// of no bytes is that of the first frame in the log, and a table of no bytes the one that is built in. The answer is 0
/// where the report stands at the front of the room, and is told; 1 where memory is refused, 2 where the room has no more
/// bytes than the report, 3 where the bus's bytes are no name, and 4 where the table's say no table.
#[unsafe(no_mangle)]
pub extern "C" fn j39_report(
    alloc: Global,
    log: &[u8],
    bus: &[u8],
    table: &[u8],
    room: &mut [u8],
    text: &mut LogText,
) -> u32
    // What is written is the report of the log. Memory is wanted at a frame that announces a message.
    ensures tells { Tells (ByTable table.now) MakesReport
        (λ _. AsksSomewhere AsksForBoxes (given_bus bus.now) log.now)
        log.now bus.now table.now room.old room.new text.old text.new result }

    // Of what publishers sent, its lines under their addresses are exactly the values published.
    ensures published { result ≡ done → ByTable table.now
        (λ rows. IsPublished rows (given_bus bus.now) log.now text.new room.new) }
{
    tell(
        alloc,
        Writing::Report,
        Given { log, bus, table },
        room,
        text,
    )
}

/// Writes the report of some parameters (SPN) alone as comma-separated values: the names of the columns, and a record for
/// each value. The bus, the table and the answers are those of `j39_report`.
#[unsafe(no_mangle)]
pub extern "C" fn j39_values(
    alloc: Global,
    log: &[u8],
    bus: &[u8],
    table: &[u8],
    spns: &[u32],
    room: &mut [u8],
    text: &mut LogText,
) -> u32
    // What is written is the report by the rows of these parameters, as records. Memory is wanted whatever the log is.
    ensures { Tells (ByRowsOf spns.now table.now) MakesTable (λ _. ⊤)
        log.now bus.now table.now room.old room.new text.old text.new result }
{
    let given = Given { log, bus, table };
    tell_values(alloc, Writing::Records, given, spns, room, text)
}

/// Writes the readings of one parameter of one controller as numbers: a point of 24 bytes for each, in order. Of each
/// number the low byte comes first: the moment in microseconds (64 bits), the value in units of its last decimal place
/// (64 bits, in two's complement), how many places it has (32 bits), and its kind (32 bits): 0 a number, 1 off, 2 on, 3 an
/// error, 4 an indicator, 5 a reserved value, 6 a text. The value of what is on is 1, and of what is no number else 0.
/// The answers are those of `j39_report`; what is told but the bytes is what `j39_values` tells of this parameter.
#[unsafe(no_mangle)]
pub extern "C" fn j39_series(
    alloc: Global,
    log: &[u8],
    bus: &[u8],
    table: &[u8],
    of: &SeriesOrigin,
    room: &mut [u8],
    text: &mut LogText,
) -> u32
    // What is written is a point for each of these readings of the report. Memory is wanted whatever the log is.
    ensures { Tells (ByRowsOf (of.now.spn ∷ []) table.now) (MakesSeries of.now) (λ _. ⊤)
        log.now bus.now table.now room.old room.new text.old text.new result }
{
    let given = Given { log, bus, table };
    tell_values(alloc, Writing::Series(*of), given, &[of.spn], room, text)
}

/// Writes what each parameter of a log did by a table, as comma-separated values: how many values there were, the least,
/// the most, the first and the last. The bus, the table and the answers are those of `j39_report`.
#[unsafe(no_mangle)]
pub extern "C" fn j39_summary(
    alloc: Global,
    log: &[u8],
    bus: &[u8],
    table: &[u8],
    room: &mut [u8],
    text: &mut LogText,
) -> u32
    // What is written is the summary of the log's report. Memory is wanted at a frame that announces a message, and
    // where a value is the first of its parameter, or a text.
    ensures { Tells (ByTable table.now) (MakesSummary Record no_filter)
        (λ rows. AsksSomewhere (AsksForRows no_filter rows) (given_bus bus.now) log.now)
        log.now bus.now table.now room.old room.new text.old text.new result }
{
    tell(
        alloc,
        Writing::Summary,
        Given { log, bus, table },
        room,
        text,
    )
}

/// Writes the fault codes in a log (DM1, DM2) into a room, as they become news: a line for each code, with the name that
/// the table has for its parameter. The bus, the table and the answers are those of `j39_report`.
#[unsafe(no_mangle)]
pub extern "C" fn j39_faults(
    alloc: Global,
    log: &[u8],
    bus: &[u8],
    table: &[u8],
    room: &mut [u8],
    text: &mut LogText,
) -> u32
    // What is written is the faults that are told in the log's frames. Memory is wanted at a frame that announces a
    // message, and at one at which an address says its codes for the first time.
    ensures { Tells (ByTable table.now) (λ rows. MakesFaults (Line Seconds) (manner_in (Line Seconds) (by_table rows) None) news)
        (λ _. AsksSomewhere (AsksForFaults News no_filter) (given_bus bus.now) log.now)
        log.now bus.now table.now room.old room.new text.old text.new result }
{
    tell(
        alloc,
        Writing::Faults,
        Given { log, bus, table },
        room,
        text,
    )
}

/// Writes who holds which address at the end of a log into a room, a line for each address. The bus and the answers
/// are those of `j39_report`, but that no memory is wanted, and no table.
#[unsafe(no_mangle)]
pub extern "C" fn j39_nodes(log: &[u8], bus: &[u8], room: &mut [u8], text: &mut LogText) -> u32
    // What stands at the front of the room is who holds an address after the log's frames, and nothing else.
    ensures nodes { result ≡ done → IsMade (MakesSeenNodes (record { own = []; form = Line Seconds; silence = long_silence; from = None })) (given_bus bus.now) log.now text.new room.new }

    // The room is too small exactly where that text has as many bytes, or more.
    ensures fits { result ≡ done → text.new.bytes < length room.new }
    ensures too_small { result ≡ too_small → Overflows (MakesSeenNodes (record { own = []; form = Line Seconds; silence = long_silence; from = None })) (given_bus bus.now) log.now room.new }

    ensures bus { (result ≡ wrong_bus) ↔ IsWrongBus bus.now }
    ensures answers { result ≤ wrong_bus }
    ensures memory { result ≢ no_memory }
    ensures kept { result ≢ done → text.new ≡ text.old }
    ensures untouched { result ≡ wrong_bus → room.new ≡ room.old }
{
    match bus_named(bus) {
        Some(bus) => answer(texts::nodes(log, bus, room), text),
        None => WRONG_BUS,
    }
}

/// Writes what a log is into a room: how many lines it has, its interfaces, the groups of the bus, by the table, its other
/// lines by kind, and its unread lines. The bus, the table and the answers are those of `j39_report`; of what is told all but
/// the bytes is 0.
#[unsafe(no_mangle)]
pub extern "C" fn j39_survey(
    alloc: Global,
    log: &[u8],
    bus: &[u8],
    table: &[u8],
    room: &mut [u8],
    text: &mut LogText,
) -> u32
    // What stands at the front of the room is the survey of the log's lines, and nothing else.
    ensures survey { result ≡ done → ByTable table.now
        (λ rows. IsSurveyed (record { form = Line Seconds; naming = by_table rows; given = given_bus bus.now }) log.now text.new room.new) }

    // The room is too small exactly where the survey has as many bytes, or more.
    ensures fits { result ≡ done → text.new.bytes < length room.new }
    ensures too_small { result ≡ too_small → ByTable table.now
        (λ rows. SurveyOverflows (record { form = Line Seconds; naming = by_table rows; given = given_bus bus.now }) log.now room.new) }

    ensures memory { result ≡ no_memory → WantsRows table.now ⊎ ByTable table.now (λ _. ⊤) }
    ensures bus { (result ≡ wrong_bus) ↔ IsWrongBus bus.now }
    ensures table { result ≡ wrong_table → IsWrongTable table.now }
    ensures answers { result ≤ wrong_table }
    ensures counts { result ≡ done → counts_in text.new ≡ no_counts }
    ensures kept { result ≢ done → text.new ≡ text.old }
    ensures untouched { (result ≡ wrong_bus) ⊎ (result ≡ wrong_table) → room.new ≡ room.old }
{
    let Some(bus) = bus_named(bus) else {
        return WRONG_BUS;
    };
    match table_said(alloc, table) {
        Ok(groups) => answer(texts::survey(alloc, log, bus, &groups, room), text),
        Err(fault) => refused(fault),
    }
}

/// Writes the parameters that a report by a table may hold into a room, a line for each; at 4 what is said of the
/// table's bytes behind the name of their file, as ` line 12: no step`. Of what is told all but the bytes is 0.
#[unsafe(no_mangle)]
pub extern "C" fn j39_groups(
    alloc: Global,
    table: &[u8],
    room: &mut [u8],
    text: &mut LogText,
) -> u32
    ensures parameters { result ≡ done
        → ByTable table.now (λ rows. take text.new.bytes room.new ≡ rows_text rows) }
    ensures wrong { result ≡ wrong_table → (fault : TableFault) × IsNoTable table.now fault
        × (take text.new.bytes room.new ≡ fault_text fault) }
    ensures fits { (result ≡ done) ⊎ (result ≡ wrong_table) → text.new.bytes < length room.new }
    ensures too_small { result ≡ too_small → TableOverflows table.now room.new }
    ensures memory { result ≡ no_memory → WantsRows table.now }
    ensures bus { result ≢ wrong_bus }
    ensures answers { result ≤ wrong_table }
    ensures counts { (result ≡ done) ⊎ (result ≡ wrong_table) → counts_in text.new ≡ no_counts }
    ensures kept { result ≢ done → result ≢ wrong_table → text.new ≡ text.old }
    ensures untouched { result ≡ no_memory → room.new ≡ room.old }
{
    match table_said(alloc, table) {
        Ok(groups) => answer(texts::parameters(&groups, room), text),
        Err(TableFault::Memory) => NO_MEMORY,
        Err(fault) => why(texts::fault_words(fault, room), text),
    }
}

/// Tells the ten fields of a NAME (J1939-81, 4.1.1).
#[unsafe(no_mangle)]
pub extern "C" fn j39_name(raw: u64, fields: &mut NameFields)
    ensures { fields_in fields.new ≡ fields_of raw }
{
    *fields = NameFields::new(raw);
}
