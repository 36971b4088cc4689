//! The command `id`: its words, and how it is performed.
ghost use Rattle.std.specs.Prelude.{◌≡◌, ◌↔◌, ◌++◌, ◌≤◌, ◌+◌, IfSome, IsSome, codes};
ghost use Rattle.std.specs.Str.Parse.{digits_value};
ghost use Rattle.arrayvec.specs.ArrayVec.{array_vec_len};
ghost use Rattle.j39_frame.specs.Identifier.{id_raw};
ghost use Rattle.j39_cli.specs.CommandWords as written;
ghost use Rattle.j39_cli.specs.CommandWords.{IsAnswered};
ghost use Rattle.j39_cli.specs.IdCommand.{IsIdText, destination_text, id_app, id_text};
ghost use Rattle.j39_cli.specs.Rules.{IsMade};

use crate::command::hex_command;
use crate::fields::push_field;
use crate::{Argument, ParseFault, Task};
use arrayvec::ArrayVec;
use clap::Command;
use j39_frame::Id;
use j39_io::number;
use j39_io::printing::push_bytes;
use std::alloc::{AllocError, Global};

const ABOUT: &str = "\
Writes the fields of a 29-bit identifier in decimal: the priority, the PGN, the
destination address (255 for all, - if the group has none) and the source
address.";

const HELP: &str = "\
Example:
  j1939 id 18EEFF00
writes
  priority 6 pgn 60928 destination 255 source 0";

/// What clap is told of it.
pub(crate) fn command<'a>(alloc: Global) -> Result<Command<'a>, AllocError>
    ensures { IsMade result id_app }
{
    let about = "Writes the fields of a 29-bit identifier";
    let help =
        "The identifier, 1 to 8 hex digits (of either case, no 0x) of a number below 20000000";
    hex_command(alloc, "id", about, ABOUT, HELP, help)
}

/// The task that its word asks for.
pub(crate) fn task<'a>(hex: &str) -> Result<Task<'a>, ParseFault>
    ensures { IsAnswered (written.id hex.now) result }
{
    match id_of(hex) {
        Some(id) => Ok(Task::Id(id)),
        None => Err(ParseFault::BadValue(Argument::Hex)),
    }
}

/// The identifier of 1 to 8 hex digits of either case; `None` for other text, and from 2^29 up.
fn id_of(text: &str) -> Option<Id>
    ensures known { IsSome result ↔ IsIdText text.now }
    ensures value { IfSome result (λ id. id_raw id ≡ digits_value 16 text.now) }
{
    if text.is_empty() || text.len() > 8 {
        return None;
    }
    let raw = number(text.as_bytes(), 16)?;
    if raw >= 1 << 29 {
        return None;
    }
    Id::new(raw as u32)
}

/// The line of an identifier's fields, with its newline.
pub(crate) fn id_line(id: Id) -> ArrayVec<u8, 128>
    ensures { result.items ≡ id_text (id_raw id) }
{
    let mut line = ArrayVec::new();
    push_field(&mut line, b"priority ", u64::from(id.priority()));
    push_field(&mut line, b" pgn ", u64::from(id.pgn().raw()));
    push_destination(&mut line, id.destination());
    push_field(&mut line, b" source ", u64::from(id.source()));
    line.push(b'\n');
    line
}

fn push_destination<const N: usize>(line: &mut ArrayVec<u8, N>, destination: Option<u8>)
    requires { array_vec_len line.old + 33 ≤ N }
    ensures items { line.new.items ≡ line.old.items ++ codes " destination " ++ destination_text destination }
    ensures len { array_vec_len line.new ≤ array_vec_len line.old + 33 }
{
    match destination {
        Some(address) => push_field(line, b" destination ", u64::from(address)),
        None => push_bytes(line, b" destination -"),
    }
}
