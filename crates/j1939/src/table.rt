//! The files of a table of parameters, where it is found, and of names: their texts.
ghost use Rattle.std.specs.Prelude.{◌≡◌, ◌==◌, ◌++◌, ◌||◌, IfOk, codes, string_bytes};
ghost use Rattle.std.specs.List.{list_any};

use j39_table::MOST_BYTES;
use std::alloc::{AllocError, Global};
use std::env;
use std::fs::{self, File};
use std::io::{self, ErrorKind, Read};

/// Where the tables that come with the program are, from its own folder on: installed, and in the project, where it is built
/// and as it is shipped.
const SHIPPED: [&str; 3] = ["../share/j1939", "../tables", "../crates/j1939/tables"];

/// The text of the table of this name: of the one that comes with the program under it, or else of a file. Of a longer text
/// than a table has, one byte too many.
pub(crate) fn table_text(rt: &HostRuntime, name: &str) -> io::Result<Vec<u8>> {
    let shipped = if is_path(name) {
        None
    } else {
        open_shipped(rt, name)?
    };
    match shipped {
        Some(file) => text_of(rt, file),
        None => names_text(rt, name),
    }
}

/// The text of a file of names; of a longer one than names have, one byte too many.
pub(crate) fn names_text(rt: &HostRuntime, name: &str) -> io::Result<Vec<u8>> {
    text_of(rt, fs::open(rt, name)?)
}

fn text_of(rt: &HostRuntime, file: File) -> io::Result<Vec<u8>> {
    let mut text = Vec::new(rt.alloc());
    file.take(MOST_BYTES as u64 + 1).read_to_end(&mut text)?;
    Ok(text)
}

/// Whether a name can't be one of a table that comes with the program: a file's, which has a `/` or a `.`.
fn is_path(name: &str) -> bool
    ensures { result ≡ list_any (λ byte. byte == 0x2F || byte == 0x2E) name.now }
{
    name.as_bytes()
        .iter()
        .any(|byte| *byte == b'/' || *byte == b'.')
}

/// The table that comes with the program under this name; none where the program's folder can't be told.
fn open_shipped(rt: &HostRuntime, name: &str) -> io::Result<Option<File>> {
    let program = match env::current_exe(rt) {
        Ok(program) => program,
        Err(error) if error.kind() == ErrorKind::OutOfMemory => return Err(error),
        Err(_) => return Ok(None),
    };
    let Some(folder) = program.parent() else {
        return Ok(None);
    };
    for place in SHIPPED {
        let path = shipped_path(rt.alloc(), folder.as_str(), place, name)?;
        if let Ok(file) = fs::open(rt, path.as_str()) {
            return Ok(Some(file));
        }
    }
    Ok(None)
}

/// Where the table of this name is, in a place from the program's folder on.
fn shipped_path(alloc: Global, folder: &str, place: &str, name: &str) -> Result<String, AllocError>
    ensures { IfOk result (λ path. string_bytes path
        ≡ ((((folder.now ++ codes "/") ++ place.now) ++ codes "/") ++ name.now) ++ codes ".table") }
{
    let mut path = String::from_str(alloc, folder)?;
    path.push_str("/")?;
    path.push_str(place)?;
    path.push_str("/")?;
    path.push_str(name)?;
    path.push_str(".table")?;
    Ok(path)
}
