//! Messages, and what an assembler answers.
use j39_frame::{Pgn, Stamp};

/// A message: put together of packets, or a frame of a group by itself.
#[derive(Debug, Drop)]
pub struct Message<'a> {
    /// The address that sent it, 0 to 253.
    pub source: u8,
    /// Its group.
    pub pgn: Pgn,
    /// Its 9 to 1,785 bytes, without padding.
    pub payload: &'a [u8],
    /// When it was whole: the stamp of its last packet.
    pub stamp: Stamp,
}

/// What a frame was to an assembler.
#[derive(Debug, Drop)]
pub enum Fed<'a> {
    /// The last packet of this message.
    Whole(Message<'a>),
    /// An announcement, or a packet that was appended and is not the last.
    Taken,
    /// All else.
    Ignored,
}
