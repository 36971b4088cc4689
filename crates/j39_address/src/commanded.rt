//! Commanded addresses (J1939-81, 4.2.3).
ghost use Rattle.std.specs.Prelude.{◌≡◌};
ghost use Rattle.std.specs.Option.{option_map};
ghost use Rattle.j39_frame.specs.Pgn.{pgn_raw};
ghost use Rattle.j39_address.specs.Command.{command_by, commanded_of};

use crate::Name;
use byteorder::{ByteOrder, LittleEndian};
use j39_transport::Message;

/// The NAME that a message commands, and the address 0 to 255 that it is to claim; `None` for a
/// message that is no commanded address. One is of group 65240 and has exactly 9 bytes: the NAME, the
/// low byte first, then the address.
pub fn commanded_of(message: &Message<'_>) -> Option<(Name, u8)>
    ensures { option_map command_by result ≡ commanded_of (pgn_raw message.now.pgn) message.now.payload.now }
{
    if message.pgn.is_commanded_address() && message.payload.len() == 9 {
        let name = Name::new(LittleEndian::read_u64(message.payload));
        Some((name, message.payload[8]))
    } else {
        None
    }
}
