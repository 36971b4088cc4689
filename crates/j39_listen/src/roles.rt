//! What the frames of an identifier are to who hears by a table, remembered: most frames have one of a few.
ghost use Rattle.std.specs.Prelude.{◌≡◌, ◌<◌, true, false};
ghost use Rattle.j39_frame.specs.Identifier.{id_raw};
ghost use Rattle.std.proofs.Props.{props};
ghost use Rattle.j39_listen.specs.RolesSoFar.{AreKnown, IsRole, is_heard};

use j39_frame::Id;
use j39_groups::{Groups, is_network_group};

/// How many identifiers are remembered.
const PLACES: usize = 2048;

/// What the frames of an identifier are.
#[derive(Clone, Copy)]
pub struct Role {
    /// A message each, of a group that the table reports.
    pub is_single: bool,
    /// That, or claims, or parts of messages.
    pub is_heard: bool,
}

/// An identifier, of more than 29 bits where none is remembered, and what its frames are.
#[derive(Clone, Copy)]
struct Known {
    id: u32,
    role: Role,
}

/// A table, and what the frames of the identifiers are that were asked for last.
#[derive(Drop)]
pub struct Roles<'g, 't> {
    pub groups: &'g Groups<'t>,
    known: [Known; PLACES],
    ghost sound: { AreKnown groups.now known } by { Prim.hlevel props },
}

impl<'g, 't> Roles<'g, 't> {
    /// With nothing remembered.
    pub fn new(groups: &'g Groups<'t>) -> Roles<'g, 't>
        ensures { result.groups ≡ groups.entry }
    {
        let none = Known {
            id: u32::MAX,
            role: Role {
                is_single: false,
                is_heard: false,
            },
        };
        Roles {
            groups,
            known: [none; PLACES],
        }
    }

    /// What the frames of an identifier are.
    #[inline(always)]
    pub fn of(&mut self, id: Id) -> Role
        ensures role { IsRole self.old.groups.now (id_raw id) result }
        ensures table { self.new.groups ≡ self.old.groups }
    {
        let raw = id.raw();
        let place = place_of(raw);
        let known = self.known[place];
        if known.id == raw {
            known.role
        } else {
            self.learn(place, id)
        }
    }

    /// Whether it is remembered that frames of an identifier are not heard.
    #[inline(always)]
    pub fn passes_over(&self, id: Id) -> bool
        ensures { result ≡ true → is_heard self.now.groups.now (id_raw id) ≡ false }
    {
        let raw = id.raw();
        let place = place_of(raw);
        self.known[place].id == raw && !self.known[place].role.is_heard
    }

    /// Asks the table, and remembers what it says.
    #[inline(never)]
    fn learn(&mut self, place: usize, id: Id) -> Role
        requires { place < 2048 }
        ensures role { IsRole self.old.groups.now (id_raw id) result }
        ensures table { self.new.groups ≡ self.old.groups }
    {
        let pgn = id.pgn();
        let is_single = self.groups.is_reported(pgn);
        let is_heard = is_single || is_network_group(pgn);
        let role = Role {
            is_single,
            is_heard,
        };
        self.known[place] = Known { id: id.raw(), role };
        role
    }
}

/// Where an identifier is remembered.
#[inline(always)]
fn place_of(raw: u32) -> usize
    ensures { result < 2048 }
{
    (raw.wrapping_mul(0x9E37_79B1) >> 21) as usize
}
