//! What becomes of a code from a message of faults to the next (own).
ghost use Rattle.std.specs.Prelude.{◌≡◌};
ghost use Rattle.j39_faults.specs.Changes.{change_since, clearing_by, grew, is_same_fault, named_in};
ghost use Rattle.j39_faults.specs.Conversions.{codes_by};
ghost use Rattle.j39_faults.specs.Sameness.{is_same_parameter};

use crate::code::Code;
use crate::codes::codes_of;
use crate::conversion::{Version, code_by};
use crate::sameness::is_same_parameter;

/// What became of a code, an SPN with an FMI.
#[derive(Clone, Copy, Debug, PartialEq, Eq)]
pub enum Change {
    /// A message names it, and that before didn't.
    Set,
    /// Both name it, and its count rose.
    Again,
    /// That before names it, and the message doesn't.
    Cleared,
}

/// What became of a code that a message names, read by this version of the conversion, if anything did, where the one
/// before it has this payload.
pub fn change_since(version: Option<Version>, before: &[u8], code: Code) -> Option<Change>
    ensures { result ≡ change_since (codes_by version before.now) code }
{
    match named_in(version, before, code) {
        None => Some(Change::Set),
        Some(last) => {
            if grew(last.count, code.count) {
                Some(Change::Again)
            } else {
                None
            }
        }
    }
}

/// Whether a code that the message before named, read by this version, is cleared by one with this payload.
pub fn clearing_by(version: Option<Version>, payload: &[u8], code: Code) -> Option<Change>
    ensures { result ≡ clearing_by (codes_by version payload.now) code }
{
    match named_in(version, payload, code) {
        None => Some(Change::Cleared),
        Some(_) => None,
    }
}

/// The first code of a payload with the SPN and FMI of this one.
fn named_in(version: Option<Version>, payload: &[u8], code: Code) -> Option<Code>
    ensures { result ≡ named_in (codes_by version payload.now) code }
{
    for one in codes_of(payload) {
        let one = code_by(version, one);
        if is_same_fault(one, code) {
            return Some(one);
        }
    }
    None
}

/// Whether two codes are one: their SPNs and FMIs are, whatever their counts.
pub fn is_same_fault(one: Code, other: Code) -> bool
    ensures { result ≡ is_same_fault one other }
{
    is_same_parameter(one.parameter, other.parameter) && one.fmi == other.fmi
}

fn grew(before: Option<u8>, now: Option<u8>) -> bool
    ensures { result ≡ grew before now }
{
    match (before, now) {
        (Some(before), Some(now)) => before < now,
        (Some(_), None) => false,
        (None, _) => false,
    }
}
