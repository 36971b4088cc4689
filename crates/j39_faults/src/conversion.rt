//! By which version the SPN of a code of conversion method 1 is read (J1939-73, 5.7.1).
ghost use Rattle.std.specs.Prelude.{◌≡◌};
ghost use Rattle.j39_faults.specs.Conversions.{code_by, is_for, parameter_by, spn_by, version_for};

use crate::code::{Candidates, Code, Parameter};

/// A version of the conversion of SPNs that conversion method 1 may stand for.
#[derive(Clone, Copy, Debug, Default, PartialEq, Eq)]
pub enum Version {
    #[default]
    One,
    Two,
    Three,
}

/// By which version the SPNs of a controller are read.
#[derive(Clone, Copy, Debug, Default, PartialEq, Eq)]
pub struct Conversion {
    /// The controller's NAME; `None` for all controllers.
    pub name: Option<u64>,
    pub version: Version,
}

/// The version of the first of these conversions that is for the controller of this NAME, or for all; `None` where there is
/// none, and so none is known.
pub fn version_for(conversions: &[Conversion], name: Option<u64>) -> Option<Version>
    ensures { result ≡ version_for conversions.now name }
{
    for conversion in conversions {
        if is_for(conversion.name, name) {
            return Some(conversion.version);
        }
    }
    None
}

fn is_for(one: Option<u64>, name: Option<u64>) -> bool
    ensures { result ≡ is_for one name }
{
    match (one, name) {
        (None, _) => true,
        (Some(_), None) => false,
        (Some(one), Some(name)) => one == name,
    }
}

/// A code with its SPN by this version where its conversion method is 1; the code as it is where no version is known.
pub fn code_by(version: Option<Version>, code: Code) -> Code
    ensures { result ≡ code_by version code }
{
    Code {
        parameter: parameter_by(version, code.parameter),
        fmi: code.fmi,
        count: code.count,
    }
}

fn parameter_by(version: Option<Version>, parameter: Parameter) -> Parameter
    ensures { result ≡ parameter_by version parameter }
{
    match (version, parameter) {
        (None, parameter) => parameter,
        (Some(_), Parameter::Known(spn)) => Parameter::Known(spn),
        (Some(version), Parameter::OneOf(spns)) => Parameter::Known(spn_by(version, spns)),
    }
}

fn spn_by(version: Version, spns: Candidates) -> u32
    ensures { result ≡ spn_by version spns }
{
    match version {
        Version::One => spns.version_1,
        Version::Two => spns.version_2,
        Version::Three => spns.version_3,
    }
}
