//! What goes next, beside claims and acknowledgments.
ghost use Rattle.std.specs.Prelude.{◌≡◌, Some};
ghost use Rattle.j39_node.specs.History.{message_of};
ghost use Rattle.j39_node.specs.Reception.{is_that};
ghost use Rattle.j39_sessions.specs.Sessions.{is_same};
ghost use Rattle.std.specs.Str.{bytes_eq};

use j39_frame::Frame;

/// What goes next.
#[derive(Clone, Copy)]
pub(crate) enum Turn {
    /// The first reply that waits.
    Reply,
    /// The first message of one frame that waits.
    Single,
    /// A frame of the open broadcast.
    Packet,
    /// A frame of a transfer.
    Move,
}

/// Whether one is the very frame that another is, but for stamp, priority and source.
pub(crate) fn is_that(one: &Frame, other: &Frame) -> bool
    ensures { result ≡ is_that (message_of one.now) (Some (message_of other.now)) }
{
    one.id.pgn().raw() == other.id.pgn().raw()
        && is_same(one.id.destination(), other.id.destination())
        && has_same_bytes(one.bytes.as_slice(), other.bytes.as_slice())
}

/// Whether a payload is another, byte for byte. (`==` of slices compares many at once, in 1.8 kB of code.)
fn has_same_bytes(one: &[u8], other: &[u8]) -> bool
    ensures { result ≡ bytes_eq one.now other.now }
{
    if one.len() != other.len() {
        return false;
    }
    for place in 0..one.len() {
        if one[place] != other[place] {
            return false;
        }
    }
    true
}

fn is_same(one: Option<u8>, other: Option<u8>) -> bool
    ensures { result ≡ is_same one other }
{
    match (one, other) {
        (None, None) => true,
        (None, Some(_)) => false,
        (Some(_), None) => false,
        (Some(one), Some(other)) => one == other,
    }
}
