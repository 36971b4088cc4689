//! How far a node is with its address (J1939-81, 4.5).
ghost use Rattle.std.specs.Prelude.{◌≡◌};
ghost use Rattle.j39_address.specs.Claimer.{status_of, status_in, plain};
ghost use Rattle.j39_address.specs.Node.{address_of};

/// How far a node is with its address.
#[derive(Clone, Copy, Debug, PartialEq, Eq)]
pub enum Status {
    /// It was not started.
    Idle,
    /// It claims this address, and no tick came 250 ms or more after it began to.
    Claiming(u8),
    /// This address is its own.
    Holding(u8),
    /// It lost its address and found no other.
    Cannot,
}

impl Status {
    /// The address that is claimed or held, 0 to 253.
    pub(crate) fn address(self) -> Option<u8>
        ensures { result ≡ address_of (status_of self) }
    {
        match self {
            Status::Claiming(address) => Some(address),
            Status::Holding(address) => Some(address),
            Status::Idle => None,
            Status::Cannot => None,
        }
    }
}

/// A status as two numbers, any two.
#[repr(C)]
#[derive(Clone, Copy)]
pub(crate) struct State {
    /// 0 idle, 1 claiming, 2 holding, any other: none can be claimed.
    kind: u8,
    address: u8,
}

impl State {
    pub(crate) fn of(status: Status) -> State
        ensures { result ≡ plain status }
    {
        match status {
            Status::Idle => State {
                kind: 0,
                address: 0,
            },
            Status::Claiming(address) => State { kind: 1, address },
            Status::Holding(address) => State { kind: 2, address },
            Status::Cannot => State {
                kind: 3,
                address: 0,
            },
        }
    }

    pub(crate) fn status(self) -> Status
        ensures { result ≡ status_in self }
    {
        match self.kind {
            0 => Status::Idle,
            1 => Status::Claiming(self.address),
            2 => Status::Holding(self.address),
            _ => Status::Cannot,
        }
    }

    pub(crate) fn address(self) -> Option<u8>
        ensures { result ≡ address_of (status_of (status_in self)) }
    {
        self.status().address()
    }
}
