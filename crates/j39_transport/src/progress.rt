//! What happens to a sender, and how far it is.
use j39_frame::Frame;

/// What happens to a sender.
#[derive(Debug, Drop)]
pub enum SendEvent<'a> {
    /// Time passes: a sender sends at a tick alone.
    Tick,
    /// A frame was seen on the bus, of whatever group.
    Heard(&'a Frame),
}

/// How far a sender is.
#[derive(Clone, Copy, Debug, PartialEq, Eq)]
pub enum SendState {
    /// It has sent nothing.
    Idle,
    /// It waits for an answer of the receiver.
    Waiting,
    /// It has packets to send, one a tick.
    Sending,
    /// The receiver acknowledged the message.
    Done,
    /// The transfer was aborted: by the receiver for this reason, or for 3 where it was silent. The
    /// message may have been delivered all the same.
    Failed(u8),
}

/// How far a sender is, with the limit of its waiting in microseconds, or the next packet and the last
/// one that are granted.
#[derive(Clone, Copy)]
pub(crate) enum Progress {
    Idle,
    Waiting(u64),
    Sending(u8, u8),
    Done,
    Failed(u8),
}
