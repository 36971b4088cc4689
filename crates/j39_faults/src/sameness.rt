//! Whether two messages of faults tell the same (own).
ghost use Rattle.std.specs.Prelude.{◌≡◌};
ghost use Rattle.std.specs.Bool.{Decides};
ghost use Rattle.j39_faults.specs.Conversions.{codes_by};
ghost use Rattle.j39_faults.specs.Sameness.{is_same_code, is_same_count, is_same_parameter, is_same_spns, said_by, same_codes, same_lamps, tells_same};

use crate::code::{Candidates, Code, Parameter};
use crate::codes::codes_of;
use crate::conversion::{Version, code_by};
use crate::lamp_names::lamps_text;
use crate::lamps::{Lamps, lamps_of};

/// Whether two payloads tell the same: what is told of the lamps, and the codes, in order, by a version of the conversion
/// where one is known. How a lamp flashes that isn't on isn't told, and filling isn't.
pub fn tells_same(version: Option<Version>, one: &[u8], other: &[u8]) -> bool
    ensures value { result ≡ tells_same version one.now other.now }
    ensures means { Decides result (said_by version one.now ≡ said_by version other.now) }
{
    same_lamps(lamps_of(one), lamps_of(other)) && same_codes(version, one, other)
}

fn same_lamps(one: Option<Lamps>, other: Option<Lamps>) -> bool
    ensures { result ≡ same_lamps one other }
{
    match (one, other) {
        (None, None) => true,
        (None, Some(_)) => false,
        (Some(_), None) => false,
        (Some(one), Some(other)) => lamps_text(one).as_slice() == lamps_text(other).as_slice(),
    }
}

fn same_codes(version: Option<Version>, one: &[u8], other: &[u8]) -> bool
    ensures { result ≡ same_codes (codes_by version one.now) (codes_by version other.now) }
{
    let mut others = codes_of(other);
    for code in codes_of(one) {
        let Some(twin) = others.next() else {
            return false;
        };
        if !is_same_code(code_by(version, code), code_by(version, twin)) {
            return false;
        }
    }
    others.next().is_none()
}

fn is_same_code(one: Code, other: Code) -> bool
    ensures { result ≡ is_same_code one other }
{
    is_same_parameter(one.parameter, other.parameter)
        && one.fmi == other.fmi
        && is_same_count(one.count, other.count)
}

pub(crate) fn is_same_parameter(one: Parameter, other: Parameter) -> bool
    ensures { result ≡ is_same_parameter one other }
{
    match (one, other) {
        (Parameter::Known(one), Parameter::Known(other)) => one == other,
        (Parameter::Known(_), Parameter::OneOf(_)) => false,
        (Parameter::OneOf(_), Parameter::Known(_)) => false,
        (Parameter::OneOf(one), Parameter::OneOf(other)) => is_same_spns(one, other),
    }
}

fn is_same_spns(one: Candidates, other: Candidates) -> bool
    ensures { result ≡ is_same_spns one other }
{
    one.version_1 == other.version_1
        && one.version_2 == other.version_2
        && one.version_3 == other.version_3
}

fn is_same_count(one: Option<u8>, other: Option<u8>) -> bool
    ensures { result ≡ is_same_count one other }
{
    match (one, other) {
        (None, None) => true,
        (None, Some(_)) => false,
        (Some(_), None) => false,
        (Some(one), Some(other)) => one == other,
    }
}
