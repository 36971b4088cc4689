//! The groups that the stack itself speaks (J1939-21, 5.4.2 and 5.10; J1939-81, 4.2).
ghost use Rattle.std.specs.Prelude.{◌≡◌, ◌==◌, ◌/◌, ◌%◌};
ghost use Rattle.j39_frame.specs.Identifier.{id_raw, pgn_of};
ghost use Rattle.j39_frame.specs.Pgn.{pgn_raw};
ghost use Rattle.j39_frame.specs.Network.{address_claimed_group, commanded_address_group, request_group, transport_control_group, transport_data_group};

use crate::{Id, Pgn};

impl Id {
    /// Whether the group is the request, 59904 (J1939-21, 5.4.2).
    #[inline]
    pub fn is_request(self) -> bool
        ensures { result ≡ (pgn_of (id_raw self) == request_group) }
    {
        self.front() == 0xEA
    }

    /// Whether the group is transport data (TP.DT), 60160 (J1939-21, 5.10.4).
    #[inline]
    pub fn is_transport_data(self) -> bool
        ensures { result ≡ (pgn_of (id_raw self) == transport_data_group) }
    {
        self.front() == 0xEB
    }

    /// Whether the group is transport control (TP.CM), 60416 (J1939-21, 5.10.3).
    #[inline]
    pub fn is_transport_control(self) -> bool
        ensures { result ≡ (pgn_of (id_raw self) == transport_control_group) }
    {
        self.front() == 0xEC
    }

    /// Whether the group is address claimed, 60928, as "cannot claim" is too (J1939-81, 4.2.2).
    #[inline]
    pub fn is_address_claimed(self) -> bool
        ensures { result ≡ (pgn_of (id_raw self) == address_claimed_group) }
    {
        self.front() == 0xEE
    }

    /// EDP, DP and PF, which are all that a group of PF below 240 has.
    #[inline]
    fn front(self) -> u32
        ensures { result ≡ id_raw self / 65536 % 1024 }
    {
        self.raw() >> 16 & 0x3FF
    }
}

impl Pgn {
    /// Whether the group is the commanded address, 65240 (J1939-81, 4.2.3).
    #[inline]
    pub fn is_commanded_address(self) -> bool
        ensures { result ≡ (pgn_raw self == commanded_address_group) }
    {
        self.raw() == 65_240
    }
}
