//! What a frame is to an assembler.
ghost use Rattle.std.specs.Prelude.{◌≡◌, OnErr};

use j39_frame::Frame;
use j39_transport::{Assembler, Fed};
use std::alloc::AllocError;

/// What a frame is to an assembler.
#[derive(Clone, Copy, Debug, PartialEq, Eq)]
pub enum Kind {
    /// It completes the message that is wanted: of 00, of the group 65260, with this payload.
    Whole,
    /// It completes another.
    Other,
    /// It is of a message that is open.
    Taken,
    /// It is none, or of no message.
    Ignored,
}

/// Feeds a frame. Where memory is refused nothing has changed, so it may be fed again.
pub fn fed(assembler: &mut Assembler, frame: &Frame, payload: &[u8]) -> Result<Kind, AllocError>
    ensures refused { OnErr result (assembler.new ≡ assembler.old) }
{
    Ok(match assembler.feed(frame)? {
        Fed::Whole(message) => {
            let is_heard = message.source == 0 && message.pgn.raw() == 65_260;
            if is_heard && message.payload == payload {
                Kind::Whole
            } else {
                Kind::Other
            }
        }
        Fed::Taken => Kind::Taken,
        Fed::Ignored => Kind::Ignored,
    })
}
