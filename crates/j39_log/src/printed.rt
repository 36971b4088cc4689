//! Lines that `candump` prints where it is not asked for a log.
ghost use Rattle.std.specs.Prelude.{◌≡◌};
ghost use Rattle.j39_log.specs.Fields.{fields_in};
ghost use Rattle.j39_log.specs.Printed.{are_printed, are_printed_fields, is_bracketed, is_identifier, is_printed};

use crate::LINE_LIMIT;
use crate::fields::next_field;
use crate::kind::are_hex;

/// Whether a line is one that `candump` prints without `-L` or `-l`: an interface, an identifier of 3 or 8 hex digits
/// and a length in brackets, behind a stamp in parentheses or none (own). No line of more than 256 bytes is one.
#[cold]
#[inline(never)]
#[tactic(auto, unfolding(crate::specs::Printed::is_printed))]
pub fn is_printed(line: &[u8]) -> bool
    ensures { result ≡ is_printed line.now }
{
    line.len() <= LINE_LIMIT && has_printed_fields(line)
}

fn has_printed_fields(text: &[u8]) -> bool
    ensures { result ≡ are_printed_fields (fields_in text.now) }
{
    match next_field(text) {
        None => false,
        Some((first, rest)) => {
            if first.starts_with(b"(") {
                has_printed(rest)
            } else {
                has_printed(text)
            }
        }
    }
}

fn has_printed(text: &[u8]) -> bool
    ensures { result ≡ are_printed (fields_in text.now) }
{
    let Some((_, rest)) = next_field(text) else {
        return false;
    };
    let Some((id, rest)) = next_field(rest) else {
        return false;
    };
    match next_field(rest) {
        None => false,
        Some((len, _)) => is_identifier(id) && is_bracketed(len),
    }
}

fn is_identifier(field: &[u8]) -> bool
    ensures { result ≡ is_identifier field.now }
{
    (field.len() == 3 || field.len() == 8) && are_hex(field)
}

fn is_bracketed(field: &[u8]) -> bool
    ensures { result ≡ is_bracketed field.now }
{
    match field {
        [b'[', digit, b']'] => digit.is_ascii_digit(),
        [b'[', digit, next, b']'] => digit.is_ascii_digit() && next.is_ascii_digit(),
        _ => false,
    }
}
