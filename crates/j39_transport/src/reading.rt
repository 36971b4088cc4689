//! Reading the fields of the transport protocol's frames (J1939-21, 5.10.3).
ghost use Rattle.std.specs.Prelude.{◌≡◌, ◌+◌, ◌*◌, length, slice_index};

use byteorder::{ByteOrder, LittleEndian};

/// The size of a message, in bytes 2 and 3.
pub(crate) fn size_in(bytes: &[u8]) -> u16
    requires { length bytes.now ≡ 8 }
    ensures { result ≡ slice_index bytes.now 1 + 256 * slice_index bytes.now 2 }
{
    LittleEndian::read_u16(&bytes[1..3])
}

/// The group of a message, in bytes 6 to 8.
pub(crate) fn group_in(bytes: &[u8]) -> u32
    requires { length bytes.now ≡ 8 }
    ensures { result
        ≡ slice_index bytes.now 5 + 256 * slice_index bytes.now 6 + 65536 * slice_index bytes.now 7 }
{
    LittleEndian::read_u24(&bytes[5..])
}
