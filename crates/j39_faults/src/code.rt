//! A diagnostic trouble code, four bytes (J1939-73, 5.7.1).
ghost use Rattle.std.specs.Prelude.{◌≡◌, ◌<◌, ◌/◌, ◌%◌, ◌^◌};
ghost use Rattle.j39_faults.specs.Codes.{candidates_of, code_of, count_of, is_no_code, parameter_of, spn_of};

/// A code.
#[derive(Clone, Copy, Debug, PartialEq, Eq)]
pub struct Code {
    /// What it speaks of.
    pub parameter: Parameter,
    /// What is wrong with it, 0 to 31; `fmi_words` has it in words.
    pub fmi: u8,
    /// How often it came, 0 to 126; `None` where that is not available.
    pub count: Option<u8>,
}

/// The parameter of a code.
#[derive(Clone, Copy, Debug, PartialEq, Eq)]
pub enum Parameter {
    /// Its SPN, below 524,288 (conversion method 0).
    Known(u32),
    /// Its maker knows which of these is its SPN (conversion method 1).
    OneOf(Candidates),
}

/// The SPN of a code by each version of its conversion that conversion method 1 may stand for.
#[derive(Clone, Copy, Debug, PartialEq, Eq)]
pub struct Candidates {
    /// The high byte, the middle one, and the low 3 bits.
    pub version_1: u32,
    /// The middle byte, the high one, and the low 3 bits.
    pub version_2: u32,
    /// As with conversion method 0.
    pub version_3: u32,
}

/// What four bytes say, if they are a code.
#[tactic(auto, unfolding(crate::specs::Codes::code_of))]
pub(crate) fn code_of(first: u8, second: u8, third: u8, fourth: u8) -> Option<Code>
    ensures { result ≡ code_of first second third fourth }
{
    if is_no_code(first, second, third, fourth) {
        return None;
    }
    Some(Code {
        parameter: parameter_of(first, second, third, fourth / 128),
        fmi: third % 32,
        count: count_of(fourth),
    })
}

/// SPN 0 with FMI 0, or bytes FF alone.
fn is_no_code(first: u8, second: u8, third: u8, fourth: u8) -> bool
    ensures { result ≡ is_no_code first second third fourth }
{
    if first == 0xFF && second == 0xFF && third == 0xFF && fourth == 0xFF {
        return true;
    }
    spn_of(first, second, third) == 0 && third % 32 == 0
}

/// The parameter by the conversion method.
fn parameter_of(first: u8, second: u8, third: u8, method: u8) -> Parameter
    ensures { result ≡ parameter_of first second third method }
{
    if method == 0 {
        Parameter::Known(spn_of(first, second, third))
    } else {
        Parameter::OneOf(candidates_of(first, second, third))
    }
}

/// The 19 bits of an SPN: the low 16 first, the low byte before the high one, the upper 3 in the top of the third byte.
fn spn_of(first: u8, second: u8, third: u8) -> u32
    ensures { result ≡ spn_of first second third }
{
    u32::from(first) + 256 * u32::from(second) + 65536 * u32::from(third / 32)
}

/// The SPN by each of the older versions.
fn candidates_of(first: u8, second: u8, third: u8) -> Candidates
    ensures { result ≡ candidates_of first second third }
{
    let low = u32::from(third / 32);
    Candidates {
        version_1: 2048 * u32::from(first) + 8 * u32::from(second) + low,
        version_2: 8 * u32::from(first) + 2048 * u32::from(second) + low,
        version_3: spn_of(first, second, third),
    }
}

/// The occurrence count in the low 7 bits; 127 says that it is not available.
fn count_of(fourth: u8) -> Option<u8>
    ensures { result ≡ count_of (fourth % 128) }
{
    match fourth % 128 {
        127 => None,
        count => Some(count),
    }
}
