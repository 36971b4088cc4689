//! Writing the frames of the transport protocol (J1939-21, 5.10.3 and 5.10.4).
ghost use Rattle.std.specs.Prelude.{◌≡◌, ◌∷◌, ◌<◌, length};
ghost use Rattle.byteorder.specs.Endian.{little_bytes};
ghost use Rattle.j39_frame.specs.Identifier.{id_raw};
ghost use Rattle.j39_frame.specs.Network.{transport_control_group, transport_data_group};
ghost use Rattle.j39_transport.specs.Protocol.{clear_to_send, connection_abort, filler};
ghost use Rattle.j39_transport.specs.Cutting.{announcement_bytes, transport_id};

use crate::protocol::{CLEAR_TO_SEND, CONNECTION_ABORT, FILLER, TRANSPORT_CONTROL, TRANSPORT_DATA};
use byteorder::{ByteOrder, LittleEndian};
use j39_frame::Id;

/// The identifier of a TP.CM frame.
pub(crate) fn control_id(source: u8, destination: u8) -> Id
    ensures { id_raw result ≡ transport_id transport_control_group source destination }
{
    transport_id(TRANSPORT_CONTROL, source, destination)
}

/// The identifier of a TP.DT frame.
pub(crate) fn data_id(source: u8, destination: u8) -> Id
    ensures { id_raw result ≡ transport_id transport_data_group source destination }
{
    transport_id(TRANSPORT_DATA, source, destination)
}

/// An identifier of a group of the transport protocol, which is sent with priority 7.
fn transport_id(group: u32, source: u8, destination: u8) -> Id
    requires { group < 65281 }
    ensures { id_raw result ≡ transport_id group source destination }
{
    let front = (7 << 26) + (group << 8);
    Id::new(front + u32::from(destination) * 256 + u32::from(source)).unwrap()
}

/// The data of an announcement: its kind, and the most packets for one CTS. An end-of-message
/// acknowledgment has the same form.
pub(crate) fn announcement_bytes(kind: u8, size: u16, packets: u8, most: u8, pgn: u32) -> [u8; 8]
    ensures { result ≡ announcement_bytes kind size packets most pgn }
{
    let mut bytes = [kind, 0, 0, packets, most, 0, 0, 0];
    LittleEndian::write_u16(&mut bytes[1..3], size);
    write_group(&mut bytes[5..], pgn);
    bytes
}

/// The data of a CTS of so many packets, from this number on.
pub(crate) fn clear_to_send_bytes(count: u8, next: u8, pgn: u32) -> [u8; 8]
    ensures { result ≡ clear_to_send ∷ count ∷ next ∷ filler ∷ filler ∷ little_bytes 3 pgn }
{
    answer_bytes(CLEAR_TO_SEND, count, next, pgn)
}

/// The data of an abort for this reason.
pub(crate) fn abort_bytes(reason: u8, pgn: u32) -> [u8; 8]
    ensures { result ≡ connection_abort ∷ reason ∷ filler ∷ filler ∷ filler ∷ little_bytes 3 pgn }
{
    answer_bytes(CONNECTION_ABORT, reason, FILLER, pgn)
}

fn answer_bytes(kind: u8, second: u8, third: u8, pgn: u32) -> [u8; 8]
    ensures { result ≡ kind ∷ second ∷ third ∷ filler ∷ filler ∷ little_bytes 3 pgn }
{
    let mut bytes = [kind, second, third, FILLER, FILLER, 0, 0, 0];
    write_group(&mut bytes[5..], pgn);
    bytes
}

/// A group as the last three bytes of a TP.CM frame. A higher bit, which no group has, isn't written.
fn write_group(bytes: &mut [u8], pgn: u32)
    requires { length bytes.old ≡ 3 }
    ensures { bytes.new ≡ little_bytes 3 pgn }
{
    LittleEndian::write_u24(bytes, pgn % (1 << 24));
}

/// The data of a packet: its number, then seven bytes of the message.
pub(crate) fn packet_bytes(number: u8, bytes: [u8; 7]) -> [u8; 8]
    ensures { result ≡ number ∷ bytes }
{
    let [a, b, c, d, e, f, g] = bytes;
    [number, a, b, c, d, e, f, g]
}
