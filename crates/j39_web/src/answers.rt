//! What a call answers, and what it is given beside the log.
ghost use Rattle.std.specs.Prelude.{◌≡◌, ◌≢◌, ◌<◌, ◌↔◌, ◌⊎◌, ⊤, [], None, Ok, Err, IfErr, IfOk, IfSome};
ghost use Rattle.j39_table.specs.Tables.{IsFaultOf};
ghost use Rattle.j39_table.specs.declared.fault.TableFault.TheVariants as table;
ghost use Rattle.j39_web.specs.Answers.{IsWrongBus, done, given_bus, no_memory, too_small, wrong_bus, wrong_table};
ghost use Rattle.j39_web.specs.Calls.{Tells};
ghost use Rattle.j39_web.specs.Tables.{ByRowsOf, ByTable, IsGivenTable};
ghost use Rattle.j39_web.specs.Text.{AsksSomewhere};
ghost use Rattle.j39_web.specs.Writings.{asks, makes};
ghost use Rattle.j39_web.specs.declared.texts.Refusal.TheVariants.{Memory, TooSmall};

use crate::texts::{self, BusLog, LogText, Refusal};
use crate::writing::Writing;
use j39_groups::Groups;
use j39_log::Bus;
use j39_table::{TableFault, read};
use std::alloc::Global;

/// The text stands in the room.
const DONE: u32 = 0;

/// Memory was refused.
pub(crate) const NO_MEMORY: u32 = 1;

/// The room has no more bytes than the text.
const TOO_SMALL: u32 = 2;

/// The bytes of a bus are no name.
pub(crate) const WRONG_BUS: u32 = 3;

/// The bytes of a table say none.
const WRONG_TABLE: u32 = 4;

/// The bytes that a call is given: a log, the name of its bus, and a table.
#[derive(Clone, Copy)]
pub(crate) struct Given<'a> {
    pub log: &'a [u8],
    pub bus: &'a [u8],
    pub table: &'a [u8],
}

/// Tells what is written of a log on the bus of this name, by the table that these bytes say.
pub(crate) fn tell(
    alloc: Global,
    writing: Writing,
    given: Given<'_>,
    room: &mut [u8],
    text: &mut LogText,
) -> u32
    ensures { Tells (ByTable given.entry.table.now) (makes writing)
        (λ rows. AsksSomewhere (asks writing rows) (given_bus given.entry.bus.now) given.entry.log.now)
        given.entry.log.now given.entry.bus.now given.entry.table.now room.old room.new text.old text.new result }
{
    let Some(bus) = bus_named(given.bus) else {
        return WRONG_BUS;
    };
    let log = BusLog {
        bytes: given.log,
        bus,
    };
    match table_said(alloc, given.table) {
        Ok(groups) => answer(texts::made(alloc, writing, log, &groups, room), text),
        Err(fault) => refused(fault),
    }
}

/// Tells what is written of a log by the rows of some parameters (SPN) alone.
pub(crate) fn tell_values(
    alloc: Global,
    writing: Writing,
    given: Given<'_>,
    spns: &[u32],
    room: &mut [u8],
    text: &mut LogText,
) -> u32
    ensures { Tells (ByRowsOf spns.now given.entry.table.now) (makes writing) (λ _. ⊤)
        given.entry.log.now given.entry.bus.now given.entry.table.now room.old room.new text.old text.new result }
{
    let Some(bus) = bus_named(given.bus) else {
        return WRONG_BUS;
    };
    let log = BusLog {
        bytes: given.log,
        bus,
    };
    match table_said(alloc, given.table) {
        Ok(groups) => answer(
            texts::values(alloc, writing, log, &groups, spns, room),
            text,
        ),
        Err(fault) => refused(fault),
    }
}

/// The bus of this name, or none given where there are no bytes; `None` for bytes that name none.
#[tactic(auto, unfolding(crate::specs::Answers::given_bus))]
pub(crate) fn bus_named(bytes: &[u8]) -> Option<Option<Bus>>
    ensures known { IsWrongBus bytes.now ↔ (result ≡ None) }
    ensures value { IfSome result (λ bus. bus ≡ given_bus bytes.now) }
{
    if bytes.is_empty() {
        return Some(None);
    }
    match Bus::new(bytes) {
        Some(bus) => Some(Some(bus)),
        None => None,
    }
}

/// The table that these bytes say, and the one that is built in where there are none.
#[tactic(auto, unfolding(crate::specs::Tables::IsGivenTable))]
pub(crate) fn table_said(alloc: Global, bytes: &[u8]) -> Result<Groups<'_>, TableFault>
    ensures table { IfOk result (λ groups. IsGivenTable bytes.now groups) }
    ensures some { IfErr result (λ fault. bytes.now ≢ []) }
    ensures wrong { IfErr result (λ fault. IsFaultOf bytes.now fault) }
{
    if bytes.is_empty() {
        return Ok(Groups::built_in());
    }
    read(alloc, bytes)
}

/// What is answered where the bytes of a table say none.
pub(crate) fn refused(fault: TableFault) -> u32
    ensures memory { result ≡ no_memory → fault ≡ table.Memory }
    ensures wrong { result ≡ wrong_table → fault ≢ table.Memory }
    ensures answers { (result ≡ no_memory) ⊎ (result ≡ wrong_table) }
{
    match fault {
        TableFault::Memory => NO_MEMORY,
        _ => WRONG_TABLE,
    }
}

/// Tells a text, and answers that it is there, or why not.
pub(crate) fn answer(made: Result<LogText, Refusal>, text: &mut LogText) -> u32
    ensures done { result ≡ done → made ≡ Ok text.new }
    ensures memory { result ≡ no_memory → made ≡ Err Memory }
    ensures too_small { result ≡ too_small → made ≡ Err TooSmall }
    ensures answers { result < wrong_bus }
    ensures kept { result ≢ done → text.new ≡ text.old }
{
    match made {
        Ok(written) => {
            *text = written;
            DONE
        }
        Err(Refusal::Memory) => NO_MEMORY,
        Err(Refusal::TooSmall) => TOO_SMALL,
    }
}

/// Tells what is said of bytes that are no table, and answers that they are none, or why that isn't told.
pub(crate) fn why(said: Result<LogText, Refusal>, text: &mut LogText) -> u32
    ensures wrong { result ≡ wrong_table → said ≡ Ok text.new }
    ensures memory { result ≡ no_memory → said ≡ Err Memory }
    ensures too_small { result ≡ too_small → said ≡ Err TooSmall }
    ensures answers { (result ≡ wrong_table) ⊎ (result ≡ no_memory) ⊎ (result ≡ too_small) }
    ensures kept { result ≢ wrong_table → text.new ≡ text.old }
{
    match said {
        Ok(written) => {
            *text = written;
            WRONG_TABLE
        }
        Err(Refusal::Memory) => NO_MEMORY,
        Err(Refusal::TooSmall) => TOO_SMALL,
    }
}
