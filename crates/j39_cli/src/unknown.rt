//! What a task asks for and can't have: parameters that no row of the table has, moments between which none lies, and standard
//! input twice.
ghost use Rattle.std.specs.Prelude.{◌≡◌, ◌<◌, [], codes, count_by, false, length, map, true};
ghost use Rattle.std.specs.List.{flat_map, list_any};
ghost use Rattle.j39_io.specs.Puts.{Puts};
ghost use Rattle.j39_io.specs.Turn.{turn};
ghost use Rattle.j39_cli.specs.LogCommand.{is_input};
ghost use Rattle.j39_cli.specs.Refusal.{error_line};
ghost use Rattle.j39_cli.specs.Task.{asks_input_twice};
ghost use Rattle.j39_cli.specs.Tells.{Tells};
ghost use Rattle.j39_cli.specs.Unknown.{are_turned, asked_text, asks_for_unknown, has_row, none_has, turned_text, unknown_line, unknown_text, words_if};

use crate::refusal::{complain, put_line};
use crate::{Asked, Spns, Task};
use j39_groups::{Groups, decimal_of};
use j39_io::{DeviceFault, Sink};
use j39_listen::Moment;

/// Says which of the parameters that a task asks for no row of the table has, and answers whether that is all of them; and
/// that nothing lies between the moments that it asks for, where that is so. A fault of the writer is passed over.
pub fn asks_for_unknown<E: Sink>(groups: &Groups<'_>, task: &Task<'_>, err: &mut E) -> bool
    ensures answer { result ≡ asks_for_unknown groups.now task.now }
    ensures told { Tells (turn E.written E.has_failed err.old err.new) (unknown_text groups.now task.now) }
    ensures passed_on { result ≡ true → E.has_failed err.new ≡ false → E.is_flushed err.new ≡ true }
    ensures some { 0 < length (unknown_text groups.now task.now) → E.has_failed err.new ≡ false
        → E.is_flushed err.new ≡ true }
{
    match task {
        Task::Report(options) => tell_asked(groups, &options.asked, err),
        Task::Summary(options) => tell_asked(groups, &options.asked, err),
        Task::Grid(options) => tell_asked(groups, &options.rows.asked, err),
        Task::Watch(options) => tell_asked(groups, &options.asked, err),
        Task::Faults(options) => {
            tell_turned(&options.rows.asked, err);
            false
        }
        _ => false,
    }
}

/// Says which of the parameters that are asked for no row has, and answers whether that is all of them; and the same of moments.
fn tell_asked<E: Sink>(groups: &Groups<'_>, asked: &Asked, err: &mut E) -> bool
    ensures answer { result ≡ none_has groups.now asked.now.spns }
    ensures told { Tells (turn E.written E.has_failed err.old err.new) (asked_text groups.now asked.now) }
    ensures passed_on { E.has_failed err.new ≡ false → E.is_flushed err.new ≡ true }
{
    show_asked(groups, asked, err);
    match &asked.spns {
        Some(spns) => !has_any(groups, spns.as_slice()),
        None => false,
    }
}

/// Says that standard input is asked for twice, and answers whether it is. A fault of the writer is passed over.
pub fn asks_input_twice<E: Sink>(task: &Task<'_>, err: &mut E) -> bool
    ensures answer { result ≡ asks_input_twice task.now }
    ensures told { result ≡ true
        → Tells (turn E.written E.has_failed err.old err.new) (error_line (codes "standard input (-) twice among FILE") []) }
    ensures silent { result ≡ false → err.new ≡ err.old }
    ensures passed_on { result ≡ true → E.has_failed err.new ≡ false → E.is_flushed err.new ≡ true }
{
    let is_twice = inputs_among(task.files()) > 1;
    if is_twice {
        complain(err, b"standard input (-) twice among FILE", b"");
    }
    is_twice
}

/// How many of these stand for standard input.
fn inputs_among(files: &[&str]) -> usize
    ensures { result ≡ count_by is_input (map (λ file. file.now) files.now) }
{
    files.iter().filter(|file| **file == "-").count()
}

/// Says what is asked for and can't be had. A fault of the writer is passed over.
fn show_asked<E: Sink>(groups: &Groups<'_>, asked: &Asked, err: &mut E)
    ensures told { Tells (turn E.written E.has_failed err.old err.new) (asked_text groups.now asked.now) }
    ensures passed_on { E.has_failed err.new ≡ false → E.is_flushed err.new ≡ true }
{
    match put_asked(groups, asked, err) {
        Ok(()) => {
            let _ = err.flush();
        }
        Err(DeviceFault) => {}
    }
}

/// Says that nothing lies between the moments, where that is so. A fault of the writer is passed over.
fn tell_turned<E: Sink>(asked: &Asked, err: &mut E)
    ensures told { Tells (turn E.written E.has_failed err.old err.new) (turned_text asked.now) }
    ensures passed_on { E.has_failed err.new ≡ false → E.is_flushed err.new ≡ true }
{
    match put_turned(asked, err) {
        Ok(()) => {
            let _ = err.flush();
        }
        Err(DeviceFault) => {}
    }
}

/// Writes what is asked for and can't be had.
fn put_asked<E: Sink>(groups: &Groups<'_>, asked: &Asked, err: &mut E) -> Result<(), DeviceFault>
    ensures { Puts (asked_text groups.now asked.now) result (turn E.written E.has_failed err.old err.new) }
{
    put_if_any(groups, &asked.spns, err)?;
    put_turned(asked, err)
}

/// Writes a line for each of these that no row has, if any are asked for.
fn put_if_any<E: Sink>(
    groups: &Groups<'_>,
    spns: &Option<Spns>,
    err: &mut E,
) -> Result<(), DeviceFault>
    ensures { Puts (words_if groups.now spns.now) result (turn E.written E.has_failed err.old err.new) }
{
    match spns {
        Some(spns) => put_unknown(groups, spns.as_slice(), err),
        None => Ok(()),
    }
}

/// Writes that nothing lies between the moments, where that is so.
fn put_turned<E: Sink>(asked: &Asked, err: &mut E) -> Result<(), DeviceFault>
    ensures { Puts (turned_text asked.now) result (turn E.written E.has_failed err.old err.new) }
{
    if are_turned(asked.since, asked.until) {
        put_line(err, b"--since is behind --until", b"")
    } else {
        Ok(())
    }
}

/// Whether the last moment lies before the first, whatever the stamp of the first frame.
fn are_turned(since: Option<Moment>, until: Option<Moment>) -> bool
    ensures { result ≡ are_turned since until }
{
    match (since, until) {
        (Some(Moment::At(since)), Some(Moment::At(until))) => until < since,
        (Some(Moment::Behind(since)), Some(Moment::Behind(until))) => until < since,
        (Some(Moment::At(_)), Some(Moment::Behind(_))) => false,
        (Some(Moment::Behind(_)), Some(Moment::At(_))) => false,
        (Some(_), None) => false,
        (None, _) => false,
    }
}

/// Whether some row has one of these.
fn has_any(groups: &Groups<'_>, spns: &[u32]) -> bool
    ensures { result ≡ list_any (has_row groups.now) spns.now }
{
    spns.iter().any(|spn| has_row(groups, *spn))
}

/// Writes a line for each of these that no row has.
fn put_unknown<E: Sink>(groups: &Groups<'_>, spns: &[u32], err: &mut E) -> Result<(), DeviceFault>
    ensures { Puts (flat_map (unknown_line groups.now) spns.now) result
        (turn E.written E.has_failed err.old err.new) }
{
    for spn in spns {
        put_where_unknown(groups, *spn, err)?;
    }
    Ok(())
}

/// Writes a line where no row has this parameter.
fn put_where_unknown<E: Sink>(groups: &Groups<'_>, spn: u32, err: &mut E) -> Result<(), DeviceFault>
    ensures { Puts (unknown_line groups.now spn) result (turn E.written E.has_failed err.old err.new) }
{
    if has_row(groups, spn) {
        Ok(())
    } else {
        put_line(err, b"no row has SPN ", decimal_of(spn).as_slice())
    }
}

/// Whether a row of the table has this parameter.
fn has_row(groups: &Groups<'_>, spn: u32) -> bool
    ensures { result ≡ has_row groups.now spn }
{
    groups.parameter_name(spn).is_some()
}
