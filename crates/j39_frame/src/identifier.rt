//! Identifiers (J1939-21, 5.2).
ghost use Rattle.std.specs.Prelude.{◌≡◌, ℕ, ◌+◌, ◌*◌, ◌^◌, ◌<◌, ◌↔◌, IsSome, IfSome, IsSomeAnd, Some, None, if◌then◌else◌, nat_lt};

use crate::Pgn;

/// A 29-bit identifier: priority, EDP, DP, PF, PS and source address, from the top.
#[derive(Clone, Copy, Debug, PartialEq, Eq, PartialOrd, Ord)]
pub struct Id {
    raw: u32,
    pub ghost fits: { raw < 2 ^ 29 },
}

impl Id {
    ghost use Rattle.j39_frame.specs.Pgn.{pgn_raw};
    ghost use Rattle.j39_frame.specs.Identifier.{id_raw, source_of, ps_of, pf_of, priority_of, pgn_of, destination_of, CanCompose};

    /// The identifier of these bits; `None` from 2^29 up.
    pub fn new(raw: u32) -> Option<Id>
        ensures known { IsSome result ↔ (raw < 2 ^ 29) }
        ensures value { IfSome result (λ id. id_raw id ≡ raw) }
    {
        if raw < 1 << 29 {
            Some(Id { raw })
        } else {
            None
        }
    }

    /// The 29 bits.
    pub fn raw(self) -> u32
        ensures value { result ≡ id_raw self }
        ensures fits { result < 2 ^ 29 }
    {
        self.raw
    }

    /// The source address (SA), 0 to 255.
    pub fn source(self) -> u8
        ensures { result ≡ source_of (id_raw self) }
    {
        (self.raw & 0xFF) as u8
    }

    /// The PDU specific byte (PS): a destination where PF is below 240, else part of the PGN.
    pub fn ps(self) -> u8
        ensures { result ≡ ps_of (id_raw self) }
    {
        (self.raw >> 8 & 0xFF) as u8
    }

    /// The PDU format (PF).
    pub fn pf(self) -> u8
        ensures { result ≡ pf_of (id_raw self) }
    {
        (self.raw >> 16 & 0xFF) as u8
    }

    /// The priority, 0 (the highest) to 7.
    pub fn priority(self) -> u8
        ensures value { result ≡ priority_of (id_raw self) }
        ensures small { result < 8 }
    {
        (self.raw >> 26) as u8
    }

    /// The group: EDP, DP and PF, and PS too where PF is 240 or more.
    pub fn pgn(self) -> Pgn
        ensures { pgn_raw result ≡ pgn_of (id_raw self) }
    {
        let pf = self.pf();
        let low = if pf < 240 { 0 } else { self.ps() };
        let group = u32::from(pf) << 8 | u32::from(low);
        let page = self.raw >> 24 & 3;
        Pgn {
            raw: page << 16 | group,
        }
    }

    /// The destination address, 255 for all; `None` for PF 240 and up.
    pub fn destination(self) -> Option<u8>
        ensures { result ≡ destination_of (id_raw self) }
    {
        if self.pf() < 240 {
            Some(self.ps())
        } else {
            None
        }
    }

    /// The identifier of these fields. `None` for a priority above 7, or a group of PF below 240
    /// whose low byte is not 0. For PF 240 and up the destination is not used.
    pub fn compose(priority: u8, pgn: Pgn, destination: u8, source: u8) -> Option<Id>
        ensures known { IsSome result ↔ CanCompose priority (pgn_raw pgn) }
        ensures priority { IfSome result (λ id. priority_of (id_raw id) ≡ priority) }
        ensures pgn { IfSome result (λ id. pgn_of (id_raw id) ≡ pgn_raw pgn) }
        ensures destination { IfSome result (λ id.
            destination_of (id_raw id) ≡ (if nat_lt (pf_of (id_raw id)) 240 then Some destination else None)) }
        ensures source { IfSome result (λ id. source_of (id_raw id) ≡ source) }

        // The fields of an identifier, with any destination where it has none, give it back.
        ensures back { (raw : ℕ) → raw < 2 ^ 29
            → priority ≡ priority_of raw → pgn_raw pgn ≡ pgn_of raw → source ≡ source_of raw
            → IfSome (destination_of raw) (λ d. destination ≡ d) → IsSomeAnd result (λ id. id_raw id ≡ raw) }
    {
        let group = pgn.raw();
        let front = group >> 8;
        let low = (group & 0xFF) as u8;
        let is_directed = front & 0xFF < 240;
        if priority > 7 || is_directed && low != 0 {
            return None;
        }
        let specific = if is_directed { destination } else { low };
        Some(Id {
            raw: composed(priority, front, specific, source),
        })
    }
}

/// The fields in one number; `front` is EDP, DP and PF.
fn composed(priority: u8, front: u32, specific: u8, source: u8) -> u32
    requires priority { priority < 8 }
    requires front { front < 1024 }
    ensures { result ≡ priority * 67108864 + front * 65536 + specific * 256 + source }
{
    let tail = u32::from(specific) << 8 | u32::from(source);
    let group = front << 16 | tail;
    u32::from(priority) << 26 | group
}
