//! Why a call does nothing.
ghost use Rattle.std.specs.Prelude.{◌≡◌};
ghost use Rattle.j39_c.specs.Codes.{code_of};

/// Why a call does nothing.
#[derive(Clone, Copy, Debug, PartialEq, Eq)]
pub(crate) enum Refusal {
    /// A number is out of its range.
    BadValue,
    /// The handle holds nothing, or another kind of part.
    NoPart,
    /// Memory is refused.
    NoMemory,
    /// The handle holds a part already.
    InUse,
    /// The caller's buffer is too small.
    NoRoom,
    /// There are no more.
    End,
    /// The controller holds no address.
    NoAddress,
    /// As many wait as there is room for.
    Full,
}

impl Refusal {
    /// Its number in C.
    pub(crate) fn code(self) -> i32
        ensures { result ≡ code_of self }
    {
        match self {
            Refusal::BadValue => -1,
            Refusal::NoPart => -2,
            Refusal::NoMemory => -3,
            Refusal::InUse => -4,
            Refusal::NoRoom => -5,
            Refusal::End => -6,
            Refusal::NoAddress => -8,
            Refusal::Full => -9,
        }
    }
}
