//! What calls answer.
ghost use Rattle.std.specs.Prelude.{◌≡◌};
ghost use Rattle.j39_node.specs.History.{control_of};

/// How a message that was accepted ended.
#[derive(Clone, Copy, Debug, PartialEq, Eq)]
pub enum Ending {
    /// Its frames were taken.
    Done,
    /// The address was lost before, or the program took it back.
    Withdrawn,
}

/// How a request that was accepted ended (J1939-21, 5.4.2 and 5.4.4).
#[derive(Clone, Copy, Debug, PartialEq, Eq)]
pub enum AskEnding {
    /// Whom was asked sent the group, in one frame or in packets.
    Answered,
    /// Whom was asked acknowledged it: `Ack` is positive, all others refuse.
    Acknowledged(Answer),
    /// None of this came within 1,250 ms after its frame was taken, nor was coming in packets.
    TimedOut,
    /// The address was lost before.
    Withdrawn,
}

/// Why a message isn't accepted.
#[derive(Clone, Copy, Debug, PartialEq, Eq)]
pub enum Refused {
    /// No address is held.
    NoAddress,
    /// A priority above 7, a group that no identifier can have or that the stack itself speaks (claims, acknowledgments,
    /// packets), no other's address, or more than 8 bytes; a broadcast or a transfer outside 9 to 1,785 bytes; an acknowledgment
    /// of a request to all.
    BadValue,
    /// Sixteen messages are accepted and not told to have ended; a broadcast is, or a transfer, or a request; sixteen
    /// acknowledgments are due. Where none is: there are no boxes for transfers, which a broadcast wants too; or a transfer of this group
    /// to this address rests since less than 4 seconds, or sixteen others do.
    Full,
}

/// How a request is acknowledged (J1939-21, 5.4.4).
#[derive(Clone, Copy, Debug, PartialEq, Eq)]
pub enum Answer {
    /// Positive: what was asked for is done.
    Ack,
    /// Negative: the group isn't supported.
    Nack,
    /// Access is denied.
    Denied,
    /// It can't respond now.
    Busy,
}

impl Answer {
    /// The control byte.
    pub(crate) fn control(self) -> u8
        ensures { result ≡ control_of self }
    {
        match self {
            Answer::Ack => 0,
            Answer::Nack => 1,
            Answer::Denied => 2,
            Answer::Busy => 3,
        }
    }
}

/// What happened to a controller.
#[derive(Clone, Copy, Debug, PartialEq, Eq)]
pub enum News {
    /// A smaller NAME claimed its address.
    AddressLost,
    /// Another sends from the address that it holds, and not a claim.
    AnotherAtAddress,
    /// Another of its NAME claims this address. Whose NAME it is can't be told from the bus: one of the two has to get another.
    NameDoubled(u8),
    /// Messages were missed, since sixteen lay unread; `missed` tells how many.
    MessagesMissed,
}
