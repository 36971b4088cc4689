//! The terminal, as the environment has it.
ghost use Rattle.std.specs.Prelude.{◌≡◌, ◌≤◌, length, true};

use std::alloc::AllocError;
use std::convert::AsStr;
use std::env::{self, VarError};
use std::io::{self, IsTerminal};

/// An option of `watch` that says how large the terminal is, the variable that says it too, and which numbers it takes.
struct Size {
    option: &'static str,
    variable: &'static str,
    least: u16,
    most: u16,
}

const ROWS: Size = Size {
    option: "--rows",
    variable: "LINES",
    least: 2,
    most: 1000,
};

const WIDTH: Size = Size {
    option: "--width",
    variable: "COLUMNS",
    least: 20,
    most: 512,
};

/// The flag of `watch` that asks for colours.
const COLOUR: &str = "--colour";

/// Adds what the environment says of the terminal to the words of `watch`, where they don't say it: its size, and whether it
/// has colours. A variable with no number that the option takes says nothing.
pub(crate) fn add_terminal(rt: &HostRuntime, words: &mut Vec<String>) -> io::Result<()> {
    add_option(rt, &ROWS, words)?;
    add_option(rt, &WIDTH, words)?;
    if is_wanted(COLOUR, words.as_slice())
        && rt.stdout().is_terminal()
        && !is_set(rt, "NO_COLOR")?
    {
        words.insert(2, String::from_str(rt.alloc(), COLOUR)?)?;
    }
    Ok(())
}

/// Whether a variable is there, and not empty.
fn is_set(rt: &HostRuntime, variable: &str) -> io::Result<bool> {
    match env::var(rt, variable) {
        Ok(text) => Ok(!text.as_str().is_empty()),
        Err(VarError::OutOfMemory) => Err(io::Error::from(AllocError)),
        Err(VarError::NotUnicode) => Ok(true),
        Err(VarError::NotPresent) => Ok(false),
    }
}

/// Adds one of the options behind the command.
fn add_option(rt: &HostRuntime, size: &Size, words: &mut Vec<String>) -> io::Result<()> {
    if !is_wanted(size.option, words.as_slice()) {
        return Ok(());
    }
    let Some(number) = number_of(rt, size)? else {
        return Ok(());
    };
    words.insert(2, format!(in rt.alloc(); "{}={number}", size.option)?)?;
    Ok(())
}

/// Whether the words are those of `watch`, and none of them is the option.
fn is_wanted(option: &str, words: &[String]) -> bool
    ensures { result ≡ true → 2 ≤ length words.now }
{
    words.len() >= 2
        && words[1].as_str() == "watch"
        && !words.iter().any(|word| word.as_str().starts_with(option))
}

/// The number that the variable has, if the option takes it.
fn number_of(rt: &HostRuntime, size: &Size) -> io::Result<Option<u16>> {
    match env::var(rt, size.variable) {
        Ok(text) => match text.as_str().parse::<u16>() {
            Ok(number) if size.least <= number && number <= size.most => Ok(Some(number)),
            _ => Ok(None),
        },
        Err(VarError::OutOfMemory) => Err(io::Error::from(AllocError)),
        Err(VarError::NotPresent | VarError::NotUnicode) => Ok(None),
    }
}
