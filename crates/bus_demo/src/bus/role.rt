//! What a controller is told to do.
ghost use Rattle.std.specs.Prelude.{◌≡◌, ◌∷◌, []};
ghost use Rattle.bus_demo.specs.Scenario.{member, member_of};
ghost use Rattle.bus_demo.specs.declared.bus.gauges.Group.TheVariants.{Distance, Engine, Temperatures};

use crate::bus::diagnostics::Fault;
use crate::bus::gauges::Group;

/// A group that is sent every so many microseconds, and when it is due next.
#[derive(Clone, Copy)]
pub struct Rate {
    pub group: Group,
    pub period: u64,
    pub due: u64,
}

/// A message that is to be sent at a moment, in microseconds, or as soon after it as the controller is free
/// to: in packets from 9 bytes on, and else in one frame.
#[derive(Clone, Copy)]
pub struct Plan {
    pub at: u64,
    /// 255 for all, else the address that it goes to.
    pub to: u8,
    pub pgn: u32,
    pub payload: &'static [u8],
}

/// What a controller is, and what it is to do.
#[derive(Clone, Copy)]
pub struct Role {
    pub name: u64,
    pub preferred: u8,
    /// When it claims its address, in microseconds. It hears the bus before, too.
    pub starts: u64,
    pub rates: [Rate; 3],
    pub plans: &'static [Plan],
    /// The faults that it has and tells by DM1; one with none here sends no DM1.
    pub faults: &'static [Fault],
    /// How many broadcasts in packets it hears at once.
    pub broadcasts: u8,
    /// It is a display: the book has each broadcast in packets that it receives.
    pub is_display: bool,
}

impl Role {
    /// One that only measures, and hears eight broadcasts at once.
    pub fn new(name: u64, preferred: u8, starts: u64, rates: [Rate; 3]) -> Role
        ensures { (member_of result ≡ member name preferred) × (result.starts ≡ starts) }
    {
        Role {
            name,
            preferred,
            starts,
            rates,
            plans: &[],
            faults: &[],
            broadcasts: 8,
            is_display: false,
        }
    }
}

/// The rates of the three groups, by their periods in microseconds.
pub fn rates(engine: u64, temperatures: u64, distance: u64) -> [Rate; 3]
    ensures { result ≡ record { group = Engine; period = engine; due = 0 }
        ∷ record { group = Temperatures; period = temperatures; due = 0 }
        ∷ record { group = Distance; period = distance; due = 0 } ∷ [] }
{
    [
        sent_each(Group::Engine, engine),
        sent_each(Group::Temperatures, temperatures),
        sent_each(Group::Distance, distance),
    ]
}

/// A group whose first message is due at once.
fn sent_each(group: Group, period: u64) -> Rate
    ensures { result ≡ record { group = group; period = period; due = 0 } }
{
    Rate {
        group,
        period,
        due: 0,
    }
}
