//! Names of one's own.
ghost use Rattle.std.specs.Prelude.{Err, ◌≡◌, ◌<◌, ℕ, List as ListOf, IfOk, IfErr, IfSome, IsSomeAnd, MatchResult, length};
ghost use Rattle.std.specs.List.{list_any};
ghost use Rattle.j39_memory.specs.Items.{items_of};
ghost use Rattle.j39_names.specs.Naming.{is_of};
ghost use Rattle.j39_table.specs.Names.{IsNamesFault, IsNamesOf, IsNumberOf, IsWrongName, SpellsName, end_of, kind_said};
ghost use Rattle.j39_table.specs.Taking.{IsNewName};
ghost use Rattle.j39_table.specs.declared.fault.TableFault.TheVariants.{TooLong};

use crate::columns::decimal_in;
use crate::line::{without_spaces, word};
use crate::taking::{Taker, take_lines};
use crate::words::is_name;
use crate::{NameFault, TableFault};
use j39_memory::List;
use j39_names::{Kind, Named};
use std::alloc::Global;

/// The names that a text of at most 1 MiB says: in each line, of 65,536 at most, `spn`, `group`, `function` or `maker`, a number of
/// that kind in decimal, which no line before has, and to the line's end what it is called. Lines that say nothing are those of a
/// table.
pub fn read_names(alloc: Global, text: &[u8]) -> Result<List<Named<'_>>, TableFault>
    ensures names { IfOk result (λ names. IsNamesOf text.now (items_of names)) }
    ensures wrong { IfErr result (λ fault. IsNamesFault text.now fault) }
    ensures long { 1048576 < length text.now → result ≡ Err TooLong }
{
    let mut names = List::new(alloc);
    take_lines(&mut names, text)?;
    Ok(names)
}

impl<'t> Taker<'t> for List<Named<'t>> {
    ghost use Rattle.std.specs.Prelude.{[]};
    ghost use Rattle.j39_names.specs.declared.naming.Named.{Named as Name};
    ghost use Rattle.j39_table.specs.Names.{AreNew};

    ghost Item = { Name };

    ghost spells = { SpellsName };

    ghost has = { λ names items. (items_of names ≡ items) × AreNew [] items };

    ghost is_fault = { IsNamesFault };

    fn take(&mut self, number: u32, line: &'t [u8]) -> Result<(), TableFault> {
        match named_in(self.as_slice(), line) {
            Ok(named) => match self.push(named) {
                Ok(()) => Ok(()),
                Err(_) => Err(TableFault::Memory),
            },
            Err(fault) => Err(TableFault::Name(number, fault)),
        }
    }
}

/// The name that a line spells, where none of these is of its number.
fn named_in<'t>(names: &[Named<'t>], line: &'t [u8]) -> Result<Named<'t>, NameFault>
    ensures { MatchResult result (IsNewName line.now names.now) (IsWrongName line.now names.now) }
{
    match spelled_in(line) {
        Ok(named) => {
            if is_named(names, named.kind, named.number) {
                Err(NameFault::Twice)
            } else {
                Ok(named)
            }
        }
        Err(fault) => Err(fault),
    }
}

/// Whether one of these is this number of this kind.
fn is_named(names: &[Named<'_>], kind: Kind, number: u32) -> bool
    ensures { result ≡ list_any (is_of kind number) names.now }
{
    names.iter().any(|named| named.is_of(kind, number))
}

/// The name that a line spells.
fn spelled_in(line: &[u8]) -> Result<Named<'_>, NameFault>
    ensures { MatchResult result (SpellsName line.now)
        (λ fault. (names : ListOf Named) → IsWrongName line.now names fault) }
{
    let (kind, rest) = word(line);
    let (number, rest) = word(rest);
    let name = without_spaces(rest);
    let Some(kind) = kind_in(kind) else {
        return Err(NameFault::Kind);
    };
    let Some(number) = number_in(kind, number) else {
        return Err(NameFault::Number);
    };
    if is_name(name) {
        Ok(Named { kind, number, name })
    } else {
        Err(NameFault::Name)
    }
}

fn kind_in(word: &[u8]) -> Option<Kind>
    ensures { result ≡ kind_said word.now }
{
    if word == b"spn".as_slice() {
        Some(Kind::Parameter)
    } else if word == b"group".as_slice() {
        Some(Kind::Group)
    } else if word == b"function".as_slice() {
        Some(Kind::Function)
    } else if word == b"maker".as_slice() {
        Some(Kind::Maker)
    } else {
        None
    }
}

/// The number of a kind that a text is in decimal.
fn number_in(kind: Kind, text: &[u8]) -> Option<u32>
    ensures found { IfSome result (IsNumberOf kind text.now) }
    ensures only { (number : ℕ) → IsNumberOf kind text.now number → IsSomeAnd result (λ found. found ≡ number) }
{
    let number = decimal_in(text)?;
    if number < end_of(kind) {
        Some(number)
    } else {
        None
    }
}

fn end_of(kind: Kind) -> u32
    ensures { result ≡ end_of kind }
{
    match kind {
        Kind::Parameter => 1 << 19,
        Kind::Group => 1 << 18,
        Kind::Function => 1 << 8,
        Kind::Maker => 1 << 11,
    }
}
