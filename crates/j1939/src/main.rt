//! The program `j1939`: its words, files and standard streams, over `j39_cli`.
#![tactic(auto)]

ghost use Rattle.std.specs.Prelude.{◌≡◌, ◌≢◌, ◌≤◌, ◌⊎◌, ℕ, IfOk, List, codes, false, map, true};
ghost use Rattle.std.specs.IoError.{error_kind};
ghost use Rattle.j39_io.specs.Turn.{Turn, turn};
ghost use Rattle.j39_names.specs.Naming.{naming_of};
ghost use Rattle.j39_table.specs.declared.fault.TableFault.{TableFault};
ghost use Rattle.j39_cli.specs.OwnTable.{table_line};
ghost use Rattle.j39_cli.specs.Refusal.{IsWrongLine, error_line, folder_line};
ghost use Rattle.j39_cli.specs.Tells.{Tells};
ghost use Rattle.j1939.specs.Done.{Follows, IsDone, IsDoneBy, IsDoneByNames, IsDoneByText, IsDoneNaming, IsDoneOnce};

mod input;
mod table;
mod terminal;

use input::{Unopened, opened};
use j39_cli::{
    Joined, ParseFault, Task, asks_for_unknown, asks_input_twice, not_a_file, parse, perform_with,
    refuse, tell_files, unopened, wrong_table,
};
use j39_groups::Groups;
use j39_io::{Sink, Told};
use j39_names::{Named, Naming};
use j39_table::{TableFault, read, read_names};
use std::convert::AsStr;
use std::io::{BufWriter, ErrorKind};
use std::process::ExitCode;
use std::{env, fs, io};
use table::{names_text, table_text};
use terminal::add_terminal;

/// The bytes that are kept before they are written.
const OUT_BUFFER: usize = 65_536;

fn main(rt: HostRuntime) -> ExitCode {
    ExitCode::from(status_of(&rt))
}

/// Does what the program's words ask for, and answers the exit status; where there are no words to read, it says why.
fn status_of(rt: &HostRuntime) -> u8
    ensures { result ≤ 2 }
{
    let mut err = Told::new(rt.stderr());
    match answer(rt, &mut err) {
        Ok(status) => status,
        Err(error) => refuse(&fault_of(rt, &error), &mut Told::new(rt.stdout()), &mut err),
    }
}

/// Why there are no words to read: memory was refused, or one of them is no text.
fn fault_of(rt: &HostRuntime, error: &io::Error) -> ParseFault
    ensures memory { error_kind error.now ≡ ErrorKind.OutOfMemory → result ≡ ParseFault.Memory }
    ensures words { result ≢ ParseFault.Memory → IsWrongLine result }
{
    if error.kind() == ErrorKind::OutOfMemory {
        return ParseFault::Memory;
    }
    let text = "error: a word is not UTF-8; a log of such a name is read by < FILE\n";
    match String::from_str(rt.alloc(), text) {
        Ok(text) => ParseFault::Usage(text),
        Err(_) => ParseFault::Memory,
    }
}

/// Does what the program's words ask for, and answers the exit status.
fn answer<E: Sink>(rt: &HostRuntime, err: &mut E) -> io::Result<u8>
    ensures status { IfOk result (λ status. status ≤ 2) }
    ensures followed { IfOk result (λ status. (words : List (List ℕ)) × (out : Turn) × Follows words status out
        (turn E.written E.has_failed err.old err.new)) }
{
    let mut words = Vec::new(rt.alloc());
    for word in env::args(rt)? {
        words.push(word)?;
    }
    add_terminal(rt, &mut words)?;
    let out = BufWriter::with_capacity(rt.alloc(), OUT_BUFFER, rt.stdout())?;
    Ok(follow(rt, words.as_slice(), &mut Told::new(out), err))
}

/// Does what these words ask for, and answers the exit status: 2 for wrong words, and where no row has a parameter that they
/// ask for, or they ask for standard input twice.
fn follow<S: AsStr, W: Sink, E: Sink>(rt: &HostRuntime, words: &[S], out: &mut W, err: &mut E) -> u8
    ensures status { result ≤ 2 }
    ensures followed { Follows (map S.text words.now) result
        (turn W.written W.has_failed out.old out.new) (turn E.written E.has_failed err.old err.new) }

    // What is told is passed on, where its writer has not failed.
    ensures passed_out { result ≡ 0 → W.has_failed out.new ≡ false → W.is_flushed out.new ≡ true }
    ensures passed_on { (result ≡ 0 → ⊥) → E.has_failed err.new ≡ false → E.is_flushed err.new ≡ true }
{
    match parse(rt.alloc(), words) {
        Ok(task) => {
            if asks_input_twice(&task, err) {
                2
            } else {
                done(rt, &task, out, err)
            }
        }
        Err(fault) => refuse(&fault, out, err),
    }
}

/// Performs a task by its names of one's own, or by none.
fn done<W: Sink, E: Sink>(rt: &HostRuntime, task: &Task<'_>, out: &mut W, err: &mut E) -> u8
    ensures status { result ≤ 2 }
    ensures done { IsDone task.now result
        (turn W.written W.has_failed out.old out.new) (turn E.written E.has_failed err.old err.new) }
    ensures flushed { result ≡ 0 → W.is_flushed out.new ≡ true }
    ensures passed_on { (result ≡ 0 → ⊥) → E.has_failed err.new ≡ false → E.is_flushed err.new ≡ true }
{
    let Some(name) = task.names() else {
        return by_table(rt, task, &[], out, err);
    };
    match names_text(rt, name) {
        Ok(text) => by_names(rt, task, name, text.as_slice(), out, err),
        Err(error) => unread(name, &error, err),
    }
}

/// Performs a task by the names that a text says, or says why it says none.
fn by_names<W: Sink, E: Sink>(
    rt: &HostRuntime,
    task: &Task<'_>,
    name: &str,
    text: &[u8],
    out: &mut W,
    err: &mut E,
) -> u8
    ensures status { result ≤ 2 }
    ensures done { IsDoneByNames name.now task.now text.now result
        (turn W.written W.has_failed out.old out.new) (turn E.written E.has_failed err.old err.new) }
    ensures flushed { result ≡ 0 → W.is_flushed out.new ≡ true }
    ensures passed_on { (result ≡ 0 → ⊥) → E.has_failed err.new ≡ false → E.is_flushed err.new ≡ true }
{
    match read_names(rt.alloc(), text) {
        Ok(own) => by_table(rt, task, own.as_slice(), out, err),
        Err(fault) => wrong_table(name, fault, err),
    }
}

/// Performs a task by these names and its table, or the built-in one.
fn by_table<W: Sink, E: Sink>(
    rt: &HostRuntime,
    task: &Task<'_>,
    own: &[Named<'_>],
    out: &mut W,
    err: &mut E,
) -> u8
    ensures status { result ≤ 2 }
    ensures done { IsDoneNaming own.now task.now result
        (turn W.written W.has_failed out.old out.new) (turn E.written E.has_failed err.old err.new) }
    ensures flushed { result ≡ 0 → W.is_flushed out.new ≡ true }
    ensures passed_on { (result ≡ 0 → ⊥) → E.has_failed err.new ≡ false → E.is_flushed err.new ≡ true }
{
    let Some(name) = task.table() else {
        let groups = &Groups::built_in();
        return by_rows(rt, task, &Naming { own, groups }, out, err);
    };
    match table_text(rt, name) {
        Ok(text) => by_text(rt, task, own, name, text.as_slice(), out, err),
        Err(error) => unread(name, &error, err),
    }
}

/// Says why a table or names can't be read, and answers the exit status.
fn unread<E: Sink>(name: &str, error: &io::Error, err: &mut E) -> u8
    ensures status { result ≡ 1 }
    ensures memory { error_kind error.now ≡ ErrorKind.OutOfMemory
        → Tells (turn E.written E.has_failed err.old err.new) (table_line name.now TableFault.Memory) }
    ensures folder { error_kind error.now ≡ ErrorKind.IsADirectory
        → Tells (turn E.written E.has_failed err.old err.new) (folder_line name.now) }
    ensures other { error_kind error.now ≢ ErrorKind.OutOfMemory → error_kind error.now ≢ ErrorKind.IsADirectory
        → Tells (turn E.written E.has_failed err.old err.new) (error_line (codes "cannot open ") name.now) }
    ensures one_of { Tells (turn E.written E.has_failed err.old err.new) (error_line (codes "cannot open ") name.now)
        ⊎ (Tells (turn E.written E.has_failed err.old err.new) (folder_line name.now)
        ⊎ Tells (turn E.written E.has_failed err.old err.new) (table_line name.now TableFault.Memory)) }
    ensures passed_on { E.has_failed err.new ≡ false → E.is_flushed err.new ≡ true }
{
    if error.kind() == ErrorKind::OutOfMemory {
        wrong_table(name, TableFault::Memory, err)
    } else if error.kind() == ErrorKind::IsADirectory {
        not_a_file(name, err)
    } else {
        unopened(name, err)
    }
}

/// Performs a task by these names and the table that a text says, or says why it says none. Apart, so that its caller needs no
/// room for a second table.
#[inline(never)]
fn by_text<W: Sink, E: Sink>(
    rt: &HostRuntime,
    task: &Task<'_>,
    own: &[Named<'_>],
    name: &str,
    text: &[u8],
    out: &mut W,
    err: &mut E,
) -> u8
    ensures status { result ≤ 2 }
    ensures done { IsDoneByText own.now name.now task.now text.now result
        (turn W.written W.has_failed out.old out.new) (turn E.written E.has_failed err.old err.new) }
    ensures flushed { result ≡ 0 → W.is_flushed out.new ≡ true }
    ensures passed_on { (result ≡ 0 → ⊥) → E.has_failed err.new ≡ false → E.is_flushed err.new ≡ true }
{
    match read(rt.alloc(), text) {
        Ok(groups) => {
            let groups = &groups;
            by_rows(rt, task, &Naming { own, groups }, out, err)
        }
        Err(fault) => wrong_table(name, fault, err),
    }
}

/// Performs a task by these names, where their table has a row of a parameter that is asked for, and says which have none.
fn by_rows<W: Sink, E: Sink>(
    rt: &HostRuntime,
    task: &Task<'_>,
    naming: &Naming<'_, '_>,
    out: &mut W,
    err: &mut E,
) -> u8
    ensures status { result ≤ 2 }
    ensures done { IsDoneBy (naming_of naming.now) task.now result
        (turn W.written W.has_failed out.old out.new) (turn E.written E.has_failed err.old err.new) }
    ensures flushed { result ≡ 0 → W.is_flushed out.new ≡ true }
    ensures passed_on { (result ≡ 0 → ⊥) → E.has_failed err.new ≡ false → E.is_flushed err.new ≡ true }
{
    if asks_for_unknown(naming.groups, task, err) {
        2
    } else {
        over(rt, task, naming, out, err)
    }
}

/// Performs a task by these names, over its FILEs or over standard input.
fn over<W: Sink, E: Sink>(
    rt: &HostRuntime,
    task: &Task<'_>,
    naming: &Naming<'_, '_>,
    out: &mut W,
    err: &mut E,
) -> u8
    ensures status { (result ≡ 0) ⊎ (result ≡ 1) }
    ensures done { IsDoneOnce (naming_of naming.now) task.now result
        (turn W.written W.has_failed out.old out.new) (turn E.written E.has_failed err.old err.new) }
    ensures flushed { result ≡ 0 → W.is_flushed out.new ≡ true }
    ensures passed_on { result ≡ 1 → E.has_failed err.new ≡ false → E.is_flushed err.new ≡ true }
{
    match opened(rt, task.files()) {
        Ok(logs) => {
            tell_files(logs.seen.as_slice(), err);
            let mut log = Joined::new(logs.first, logs.later);
            perform_with(rt.alloc(), naming, task, &mut log, out, err)
        }
        Err(Unopened::File(file)) => unopened(file, err),
        Err(Unopened::Folder(file)) => not_a_file(file, err),
        Err(Unopened::Memory) => refuse(&ParseFault::Memory, out, err),
    }
}
