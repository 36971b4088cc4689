//! What transfers are given, and what they answer.
use j39_frame::Pgn;

/// A message that is to be sent in packets to one address.
#[derive(Clone, Copy, Debug)]
pub struct Outgoing<'a> {
    /// By which its end is told.
    pub token: u64,
    /// To whom it goes.
    pub destination: u8,
    /// The group of the message.
    pub group: Pgn,
    /// Among transfers: a smaller number goes first. Frames in packets always have priority 7.
    pub priority: u8,
    /// 9 to 1,785 bytes.
    pub payload: &'a [u8],
}

/// How a transfer ended.
#[derive(Clone, Copy, Debug, PartialEq, Eq)]
pub enum Ending {
    /// Its destination acknowledged it.
    Done,
    /// The address was lost before.
    Withdrawn,
    /// It was aborted: by its destination for this reason, for 3 where that was silent, for 5 where that cleared nothing new too
    /// often. It may have arrived all the same.
    Failed(u8),
    /// Who held its destination's address no longer does.
    Gone,
}

/// Why a transfer doesn't begin.
#[derive(Clone, Copy, Debug, PartialEq, Eq)]
pub enum Refused {
    /// The message can't be sent so.
    BadValue,
    /// One to its destination isn't told to have ended.
    Busy,
    /// One of its group to its destination ended less than 4 s ago, unacknowledged.
    Resting,
    /// No box is free, or as many rest as may.
    Full,
}
