//! The command `name`: its words, and how it is performed.
ghost use Rattle.std.specs.Prelude.{◌≡◌, ◌↔◌, ◌++◌, ◌≤◌, ◌+◌, IfSome, IsSome, length};
ghost use Rattle.std.specs.Str.Parse.{digits_value};
ghost use Rattle.arrayvec.specs.ArrayVec.{array_vec_len};
ghost use Rattle.j39_address.specs.Name.{name_raw};
ghost use Rattle.j39_cli.specs.CommandWords as written;
ghost use Rattle.j39_cli.specs.CommandWords.{IsAnswered};
ghost use Rattle.j39_cli.specs.NameCommand.{IsNameText, field_line, name_app, name_text};
ghost use Rattle.j39_cli.specs.Rules.{IsMade};

use crate::command::hex_command;
use crate::fields::push_field;
use crate::{Argument, ParseFault, Task};
use arrayvec::ArrayVec;
use clap::Command;
use j39_address::Name;
use j39_io::number;
use j39_io::printing::push_bytes;
use std::alloc::{AllocError, Global};

const ABOUT: &str = "\
Writes the ten fields of a 64-bit NAME in decimal, one on a line, from the top
bits on. A controller claims its address with its NAME; of two that claim one
address, the smaller NAME wins.";

const HELP: &str = "\
Example:
  j1939 name 8000000001401234
writes ten lines, of which the first and the last are
  arbitrary 1
  identity 4660";

/// What clap is told of it.
pub(crate) fn command<'a>(alloc: Global) -> Result<Command<'a>, AllocError>
    ensures { IsMade result name_app }
{
    let about = "Writes the fields of a 64-bit NAME";
    let help = "The NAME, 16 hex digits (of either case, no 0x), the top bits first";
    hex_command(alloc, "name", about, ABOUT, HELP, help)
}

/// The task that its word asks for.
pub(crate) fn task<'a>(hex: &str) -> Result<Task<'a>, ParseFault>
    ensures { IsAnswered (written.name hex.now) result }
{
    match name_of(hex) {
        Some(name) => Ok(Task::Name(name)),
        None => Err(ParseFault::BadValue(Argument::Hex)),
    }
}

/// The NAME of 16 hex digits of either case; `None` for other text.
#[tactic(auto, using(crate::proofs::DigitLemmas::sixteen_digits))]
pub(crate) fn name_of(text: &str) -> Option<Name>
    ensures known { IsSome result ↔ IsNameText text.now }
    ensures value { IfSome result (λ name. name_raw name ≡ digits_value 16 text.now) }
{
    if text.len() != 16 {
        return None;
    }
    let raw = number(text.as_bytes(), 16)?;
    Some(Name::new(raw))
}

/// The lines of a NAME's fields.
pub(crate) fn name_lines(name: Name) -> ArrayVec<u8, 384>
    ensures { result.items ≡ name_text (name_raw name) }
{
    let mut lines = ArrayVec::new();
    push_line(&mut lines, b"arbitrary", u64::from(name.arbitrary()));
    push_line(&mut lines, b"industry", u64::from(name.industry()));
    push_line(
        &mut lines,
        b"system-instance",
        u64::from(name.system_instance()),
    );
    push_line(&mut lines, b"system", u64::from(name.system()));
    push_line(&mut lines, b"reserved", u64::from(name.reserved()));
    push_line(&mut lines, b"function", u64::from(name.function()));
    push_line(
        &mut lines,
        b"function-instance",
        u64::from(name.function_instance()),
    );
    push_line(&mut lines, b"ecu-instance", u64::from(name.ecu_instance()));
    push_line(&mut lines, b"manufacturer", u64::from(name.manufacturer()));
    push_line(&mut lines, b"identity", u64::from(name.identity()));
    lines
}

/// Appends the line of a field.
#[tactic(auto, unfolding(crate::specs::NameCommand::field_line))]
fn push_line<const N: usize>(lines: &mut ArrayVec<u8, N>, label: &[u8], value: u64)
    requires { array_vec_len lines.old + length label.now + 22 ≤ N }
    ensures items { lines.new.items ≡ lines.old.items ++ field_line label.now value }
    ensures len { array_vec_len lines.new ≤ array_vec_len lines.old + length label.now + 22 }
{
    push_bytes(lines, label);
    push_field(lines, b" ", value);
    lines.push(b'\n');
}
