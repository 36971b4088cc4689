//! How faults are written.
ghost use Rattle.std.specs.Prelude.{◌≡◌};
ghost use Rattle.j39_fault_reports.specs.Faults.{has_lights, is_number_of, is_parameter_of, lights_asked, names_asked};
ghost use Rattle.j39_fault_reports.specs.FaultsSoFar.{manner_of, spns_now};

use j39_faults::{Code, Lamps, Parameter, State};
use j39_listen::Format;
use j39_names::Naming;

/// In which form faults are written, by which names, and of which parameters.
#[derive(Clone, Copy)]
pub struct Writing<'g, 't> {
    pub form: Format,
    pub naming: &'g Naming<'g, 't>,
    /// Of which parameters (SPN) alone codes are told; one whose number isn't known by any that it may have. `None` for all.
    pub spns: Option<&'g [u32]>,
}

/// Whether lamps have a line of their own.
pub(crate) fn lights_asked(writing: Writing<'_, '_>) -> bool
    ensures { result ≡ lights_asked (manner_of writing.entry) }
{
    has_lights(writing.form) && names_asked(writing.spns, None)
}

fn has_lights(form: Format) -> bool
    ensures { result ≡ has_lights form }
{
    match form {
        Format::Line(_) => true,
        Format::Record => false,
        Format::Object => false,
    }
}

/// Whether a code is asked for, or that there is none.
pub(crate) fn names_asked(spns: Option<&[u32]>, code: Option<Code>) -> bool
    ensures { result ≡ names_asked (spns_now spns.entry) code }
{
    let Some(spns) = spns else {
        return true;
    };
    match code {
        Some(code) => is_parameter_of(spns, code.parameter),
        None => false,
    }
}

/// Whether one of the numbers that a parameter may have is among these.
fn is_parameter_of(spns: &[u32], parameter: Parameter) -> bool
    ensures { result ≡ is_parameter_of spns.now parameter }
{
    match parameter {
        Parameter::Known(spn) => is_number_of(spns, spn),
        Parameter::OneOf(these) => {
            is_number_of(spns, these.version_1)
                || is_number_of(spns, these.version_2)
                || is_number_of(spns, these.version_3)
        }
    }
}

fn is_number_of(spns: &[u32], spn: u32) -> bool
    ensures { result ≡ is_number_of spns.now spn }
{
    spns.iter().any(|asked| *asked == spn)
}

/// What is said of a code, or that a message has none.
#[derive(Clone, Copy)]
pub(crate) struct Saying {
    pub state: State,
    pub lamps: Lamps,
    pub code: Option<Code>,
}
