//! What the parameters of codes are called.
ghost use Rattle.std.specs.Prelude.{◌≡◌, option_map};
ghost use Rattle.j39_fault_reports.specs.Faults.{name_in};
ghost use Rattle.j39_names.specs.Naming.{naming_of};

use j39_faults::{Code, Parameter};
use j39_names::Naming;

/// What the parameter of a code is called, where its SPN is known.
pub(crate) fn name_in<'n>(naming: &Naming<'n, '_>, code: Code) -> Option<&'n [u8]>
    ensures { option_map (λ name. name.now) result ≡ name_in (naming_of naming.now) code }
{
    let Parameter::Known(spn) = code.parameter else {
        return None;
    };
    naming.parameter_name(spn)
}
