//! Addresses (J1939-21, 5.2.5 and 5.2.6; J1939-81, 4.2).
ghost use Rattle.std.specs.Prelude.{◌↔◌, IsTrue};
ghost use Rattle.j39_frame.specs.Address.{IsAddress};

/// The source of a controller that holds no address.
pub const NULL_ADDRESS: u8 = 254;

/// The destination that stands for all controllers.
pub const GLOBAL_ADDRESS: u8 = 255;

/// Whether a controller can hold this address: 0 to 253.
pub fn is_address(address: u8) -> bool
    ensures { IsTrue result ↔ IsAddress address }
{
    address < NULL_ADDRESS
}
