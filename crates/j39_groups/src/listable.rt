//! Which groups a table may list.
ghost use Rattle.std.specs.Prelude.{◌≡◌};
ghost use Rattle.j39_frame.specs.Pgn.{pgn_raw};
ghost use Rattle.j39_groups.specs.Readings.{is_heard_group, is_network_group};

use j39_frame::Pgn;

/// Whether a group is of packets (60160), of announcements (60416) or of claims (60928), which no table makes a
/// parameter group of (J1939-21, 5.10; J1939-81, 4.2).
pub fn is_network_group(pgn: Pgn) -> bool
    ensures { result ≡ is_network_group (pgn_raw pgn) }
{
    let raw = pgn.raw();
    raw == 60160 || raw == 60416 || raw == 60928
}

/// Whether frames of a group can be heard: below PF 240 its low byte is 0, for it has no group extension
/// (J1939-21, 5.2).
pub fn is_heard_group(pgn: Pgn) -> bool
    ensures { result ≡ is_heard_group (pgn_raw pgn) }
{
    let raw = pgn.raw();
    240 <= raw / 256 % 256 || raw % 256 == 0
}
