//! From words to a task.
ghost use Rattle.std.specs.Prelude.{◌≡◌, ◌≢◌, ◌⊎◌, ◌∷◌, [], Err, IfErr, IfOk, IsErrAnd, List, None, OnErr, OnOk, Some, codes, map, option_map, true};
ghost use Rattle.clap.specs.Words.{HasMatchesOf, Row, Text, first_value, found_of, kind_of};
ghost use Rattle.clap.specs.Words.{fault_of, subcommand_name_of, subcommand_of, subcommand_rows_of, takes};
ghost use Rattle.j39_cli.specs.Command.{line_app};
ghost use Rattle.j39_cli.specs.CommandWords.{CommandWords, HasTexts, HasValues, IsAnswer, Tells, words_of};
ghost use Rattle.j39_cli.specs.Spelling.{IsEntered, IsSpelled};
ghost use Rattle.j39_cli.specs.Answer.{IsInput, IsReadAs, bus_check, value_check};
ghost use Rattle.j39_cli.specs.Asked.{IsMoment, moment_in};
ghost use Rattle.j39_cli.specs.Form.{texts_found, texts_of};
ghost use Rattle.j39_cli.specs.Lists.{IsListOf, values_in};
ghost use Rattle.j39_cli.specs.LogCommand.{forms_check, written_by};
ghost use Rattle.j39_cli.specs.Refused.{IsRefusal, IsSaid};
ghost use Rattle.j39_cli.specs.Rules.{is_given};
ghost use Rattle.j39_cli.specs.Task.{IsInRange};

use crate::asked::moment_of;
use crate::command::line;
use crate::lists::{Listed, Word, list_of};
use crate::{
    Argument, Files, LogInput, ParseFault, Task, answer, cut, faults, grid, groups, id, name,
    nodes, report, summary, survey, watch,
};
use clap::error::ErrorKind;
use clap::{ArgMatches, Error};
use j39_listen::{Clock, Format, Moment};
use j39_log::Bus;
use std::alloc::{AllocError, Global};
use std::convert::AsStr;

/// The task that the words ask for. They begin with the program's name. They spell a command as the help
/// says, or as clap takes it besides: with `--bus=can0`, with options behind FILE. What is said of words that
/// clap doesn't take is clap's.
pub fn parse<'a, S: AsStr>(alloc: Global, words: &'a [S]) -> Result<Task<'a>, ParseFault>
    ensures answer { (program : Text) (s : CommandWords) → HasValues s
        → map S.text words.entry.now ≡ program ∷ words_of s → IsAnswer s result }
    ensures in_range { IfOk result IsInRange }

    // Whatever words clap takes, the command that it enters is answered; and each task answered is one that the
    // words spell.
    ensures spelled { (s : CommandWords) → takes line_app (map S.text words.entry.now) ≡ true
        → IsEntered (subcommand_of line_app (map S.text words.entry.now)) s → IsAnswer s result }
    ensures task { IfOk result (λ _. (s : CommandWords)
        × IsSpelled (map S.text words.entry.now) s × IsAnswer s result) }

    // Words in which clap finds a fault are refused: by one of the kinds of its faults, or memory ran out.
    ensures refused { fault_of line_app (map S.text words.entry.now) ≢ []
        → IsErrAnd result (IsRefusal (fault_of line_app (map S.text words.entry.now))) }
{
    match matched(alloc, words) {
        Ok(matches) => task_of(alloc, &matches),
        Err(fault) => Err(fault),
    }
}

/// What clap makes of the words.
fn matched<'a, S: AsStr>(alloc: Global, words: &'a [S]) -> Result<ArgMatches<'a>, ParseFault>
    ensures ok { IfOk result (HasMatchesOf line_app (map S.text words.entry.now)) }
    ensures faultless { OnOk result (fault_of line_app (map S.text words.entry.now) ≡ []) }
    ensures err { IfErr result (λ fault. takes line_app (map S.text words.entry.now) ≡ true
        → fault ≡ ParseFault.Memory) }
    ensures refused { IfErr result (IsRefusal (fault_of line_app (map S.text words.entry.now))) }
{
    let Ok(line) = line(alloc) else {
        return Err(ParseFault::Memory);
    };
    match line.try_get_matches_from(words) {
        Ok(matches) => Ok(matches),
        Err(error) => Err(fault_of(alloc, &error)),
    }
}

fn fault_of(alloc: Global, error: &Error) -> ParseFault
    ensures { IsSaid (kind_of error.now) result }
{
    let kind = error.kind();
    if kind == ErrorKind::OutOfMemory {
        return ParseFault::Memory;
    }
    match error.to_string(alloc) {
        Err(_) => ParseFault::Memory,
        Ok(text) if kind == ErrorKind::DisplayHelp || kind == ErrorKind::DisplayVersion => {
            ParseFault::Help(text)
        }
        Ok(text) => ParseFault::Usage(text),
    }
}

/// The task of the command that clap met.
fn task_of<'a>(alloc: Global, matches: &ArgMatches<'a>) -> Result<Task<'a>, ParseFault>
    ensures answer { (s : CommandWords) (met : Text × List Row) → subcommand_rows_of matches.now ≡ Some met
        → HasTexts s met → IsAnswer s result }
    ensures memory { result ≡ Err ParseFault.Memory → (subcommand_name_of matches.now ≡ Some (codes "cut"))
        ⊎ ((met : Text × List Row) × (subcommand_rows_of matches.now ≡ Some met) × (texts_of (codes "file") met.1 ≢ [])) }
    ensures met { IfOk result (λ _. (s : CommandWords)
        × IsEntered (subcommand_rows_of matches.now) s × IsAnswer s result) }
    ensures in_range { IfOk result IsInRange }
{
    match matches.subcommand() {
        Some((name, given)) => task_named(alloc, name, given),
        // clap requires a command, so that nothing comes here.
        None => Err(ParseFault::Usage(String::new(alloc))),
    }
}

/// The task of the command of this name, with the values that clap met.
fn task_named<'a>(alloc: Global, name: &str, given: &ArgMatches<'a>) -> Result<Task<'a>, ParseFault>
    ensures tells { Tells name.now (found_of given.now) result }
    ensures memory { result ≡ Err ParseFault.Memory → (name.now ≡ codes "cut")
        ⊎ (texts_found (found_of given.now) (codes "file") ≢ []) }
    ensures in_range { IfOk result IsInRange }
{
    match name {
        "report" => report::task(alloc, given),
        "summary" => summary::task(alloc, given),
        "grid" => grid::task(alloc, given),
        "id" => id::task(required(alloc, given, "hex")?),
        "name" => name::task(required(alloc, given, "hex")?),
        "cut" => cut::task(alloc, given),
        "nodes" => nodes::task(alloc, given),
        "answer" => answer::task(alloc, given),
        "groups" => groups::task(given),
        "faults" => faults::task(alloc, given),
        "survey" => survey::task(alloc, given),
        "watch" => watch::task(alloc, given),
        // clap knows no other, so that nothing comes here.
        _ => Err(ParseFault::Usage(String::new(alloc))),
    }
}

/// The value of `--bus`, where it is given.
pub(crate) fn bus_value(given: &ArgMatches<'_>) -> Result<Option<Bus>, ParseFault>
    ensures { IsReadAs (bus_check (first_value (found_of given.now) (codes "bus")) ∷ [])
        (λ bus. bus ≡ first_value (found_of given.now) (codes "bus")) result }
{
    match given.get_str("bus") {
        None => Ok(None),
        Some(name) => match Bus::new(name.as_bytes()) {
            Some(bus) => Ok(Some(bus)),
            None => Err(ParseFault::BadValue(Argument::Bus)),
        },
    }
}

/// The log of this bus that is named by each FILE, where it is given. It is asked for last, since it holds memory.
pub(crate) fn log_input<'a>(
    alloc: Global,
    bus: Option<Bus>,
    given: &ArgMatches<'a>,
) -> Result<LogInput<'a>, ParseFault>
    ensures { IsInput bus (texts_found (found_of given.now) (codes "file")) result }
{
    match files_given(alloc, given) {
        Ok(file) => Ok(LogInput { bus, file }),
        Err(AllocError) => Err(ParseFault::Memory),
    }
}

/// Each FILE that is given.
fn files_given<'a>(alloc: Global, given: &ArgMatches<'a>) -> Result<Files<'a>, AllocError>
    ensures names { IfOk result (λ files. files ≡ texts_found (found_of given.now) (codes "file")) }
    ensures memory { OnErr result (texts_found (found_of given.now) (codes "file") ≢ []) }
{
    match given.get_strs("file") {
        Some(names) => Files::new(alloc, names),
        None => Files::new(alloc, &[]),
    }
}

/// How what the log has is written by `--csv`, `--json` and `--utc`, which don't go together.
pub(crate) fn format_value(given: &ArgMatches<'_>) -> Result<Format, ParseFault>
    ensures { let csv = is_given (first_value (found_of given.now) (codes "csv")) in
        let json = is_given (first_value (found_of given.now) (codes "json")) in
        let utc = is_given (first_value (found_of given.now) (codes "utc")) in
        IsReadAs (forms_check csv json utc ∷ []) (λ format. written_by csv json utc ≡ Some format) result }
{
    match written_by(
        is_set(given, "csv"),
        is_set(given, "json"),
        is_set(given, "utc"),
    ) {
        Some(format) => Ok(format),
        None => Err(ParseFault::BadValue(Argument::Forms)),
    }
}

fn written_by(csv: bool, json: bool, utc: bool) -> Option<Format>
    ensures { result ≡ written_by csv json utc }
{
    match (csv, json, utc) {
        (false, false, false) => Some(Format::Line(Clock::Seconds)),
        (true, false, false) => Some(Format::Record),
        (false, true, false) => Some(Format::Object),
        (false, false, true) => Some(Format::Line(Clock::Utc)),
        (true, true, _) => None,
        (true, false, true) => None,
        (false, true, true) => None,
    }
}

/// The values of an argument that takes a list, where it is given.
pub(crate) fn list_value<W: Word>(
    given: &ArgMatches<'_>,
    id: &str,
    argument: Argument,
) -> Result<Option<Listed<W::Value>>, ParseFault>
    ensures { IsReadAs (value_check (IsListOf W.IsWord) argument (first_value (found_of given.now) id.now) ∷ [])
        (λ list. list ≡ option_map (values_in W.value_of) (first_value (found_of given.now) id.now)) result }
{
    match given.get_str(id) {
        None => Ok(None),
        Some(text) => match list_of::<W>(text.as_bytes()) {
            Some(list) => Ok(Some(list)),
            None => Err(ParseFault::BadValue(argument)),
        },
    }
}

/// The moment of an argument, where it is given.
pub(crate) fn moment_value(
    given: &ArgMatches<'_>,
    id: &str,
    argument: Argument,
) -> Result<Option<Moment>, ParseFault>
    ensures { IsReadAs (value_check IsMoment argument (first_value (found_of given.now) id.now) ∷ [])
        (λ moment. moment ≡ option_map moment_in (first_value (found_of given.now) id.now)) result }
{
    match given.get_str(id) {
        None => Ok(None),
        Some(text) => match moment_of(text.as_bytes()) {
            Some(moment) => Ok(Some(moment)),
            None => Err(ParseFault::BadValue(argument)),
        },
    }
}

/// Whether a flag is given.
pub(crate) fn is_set(given: &ArgMatches<'_>, id: &str) -> bool
    ensures { result ≡ is_given (first_value (found_of given.now) id.now) }
{
    match given.get_str(id) {
        Some(text) => text == "true",
        None => false,
    }
}

/// The value of an argument. clap requires it, so that it is there.
pub(crate) fn required<'a>(
    alloc: Global,
    given: &ArgMatches<'a>,
    id: &str,
) -> Result<&'a str, ParseFault>
    ensures ok { IfOk result (λ text. first_value (found_of given.now) id.now ≡ Some text.now) }
    ensures err { IfErr result (λ _. first_value (found_of given.now) id.now ≡ None) }
    ensures memory { result ≢ Err ParseFault.Memory }
{
    match given.get_str(id) {
        Some(text) => Ok(text),
        None => Err(ParseFault::Usage(String::new(alloc))),
    }
}
