//! Which groups tell faults, and which clear them (J1939-73, 5.7).
ghost use Rattle.std.specs.Prelude.{◌≡◌};
ghost use Rattle.j39_frame.specs.Pgn.{pgn_raw};
ghost use Rattle.j39_faults.specs.FaultGroups.{cleared_at, cleared_by, cleared_in, kind_of};

use j39_frame::Pgn;

/// Which codes a message tells.
#[derive(Clone, Copy, Debug, PartialEq, Eq)]
pub enum Kind {
    /// Those that are active now (DM1).
    Active,
    /// Those that were active before (DM2).
    Previous,
    /// Those of emissions that were seen, and aren't confirmed yet (DM6).
    EmissionPending,
    /// Those of emissions that are active now (DM12).
    EmissionActive,
    /// Those of emissions that were active before (DM23).
    EmissionPrevious,
    /// All that were seen, and aren't confirmed yet (DM27).
    Pending,
    /// Those that no tool can clear (DM28).
    Permanent,
}

/// Which codes a group's messages tell: group 65226 (DM1) the active ones, 65227 (DM2) the previously active ones,
/// 65231 (DM6), 65236 (DM12) and 64949 (DM23) the pending, active and previously active ones of emissions, 64898 (DM27)
/// all pending ones, 64896 (DM28) the permanent ones; no other group tells any.
pub fn fault_group(pgn: Pgn) -> Option<Kind>
    ensures { result ≡ kind_of (pgn_raw pgn) }
{
    match pgn.raw() {
        65226 => Some(Kind::Active),
        65227 => Some(Kind::Previous),
        65231 => Some(Kind::EmissionPending),
        65236 => Some(Kind::EmissionActive),
        64949 => Some(Kind::EmissionPrevious),
        64898 => Some(Kind::Pending),
        64896 => Some(Kind::Permanent),
        _ => None,
    }
}

/// The group of requests (J1939-21, 5.4.2).
const REQUEST: u32 = 59904;

/// Which codes a message asks to clear: a request for group 65228 (DM3) the previously active ones, one for 65235 (DM11)
/// the active ones; no other message asks for any. The first three bytes are the group; that more are taken is (own).
#[tactic(auto, unfolding(crate::specs::FaultGroups::cleared_in))]
pub fn cleared_in(pgn: Pgn, payload: &[u8]) -> Option<Kind>
    ensures { result ≡ cleared_in (pgn_raw pgn) payload.now }
{
    if pgn.raw() == REQUEST {
        cleared_at(payload)
    } else {
        None
    }
}

fn cleared_at(payload: &[u8]) -> Option<Kind>
    ensures { result ≡ cleared_at payload.now }
{
    let first = *payload.first()?;
    let second = *payload.get(1)?;
    let third = *payload.get(2)?;
    cleared_by(u32::from(first) + 256 * u32::from(second) + 65536 * u32::from(third))
}

fn cleared_by(group: u32) -> Option<Kind>
    ensures { result ≡ cleared_by group }
{
    match group {
        65228 => Some(Kind::Previous),
        65235 => Some(Kind::Active),
        _ => None,
    }
}
