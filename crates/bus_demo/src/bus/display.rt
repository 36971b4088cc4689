//! What is played with `--display`: six controllers tell two to four fault codes each second (DM1), all at once and so in packets,
//! and a display with a box for each receives them.
ghost use Rattle.std.specs.Prelude.{◌≡◌, IfOk};
ghost use Rattle.bus_demo.specs.Scenario.{PlaysDisplay, member, member_of};

use crate::bus::diagnostics::Fault;
use crate::bus::player::Player;
use crate::bus::role::{Role, rates};
use crate::bus::scenario::play;
use j39_faults::{Code, Parameter};
use std::alloc::{AllocError, Global};

/// Four that last: SPN 110 and 175 as the engine has them, and two of a maker's own, there (FMI 31) and not counted.
static FAULTS: [Fault; 4] = [
    Fault {
        code: Code {
            parameter: Parameter::Known(110),
            fmi: 0,
            count: Some(2),
        },
        begins: 0,
        ends: u64::MAX,
        is_severe: true,
    },
    Fault {
        code: Code {
            parameter: Parameter::Known(175),
            fmi: 2,
            count: Some(1),
        },
        begins: 0,
        ends: u64::MAX,
        is_severe: false,
    },
    Fault {
        code: Code {
            parameter: Parameter::Known(520_201),
            fmi: 31,
            count: None,
        },
        begins: 0,
        ends: u64::MAX,
        is_severe: false,
    },
    Fault {
        code: Code {
            parameter: Parameter::Known(520_202),
            fmi: 31,
            count: None,
        },
        begins: 0,
        ends: u64::MAX,
        is_severe: false,
    },
];

/// One that measures each second, and tells these faults.
fn teller(name: u64, preferred: u8, starts: u64, faults: &'static [Fault]) -> Role
    ensures { (member_of result ≡ member name preferred) × (result.starts ≡ starts) × (result.faults.now ≡ faults.now) }
{
    Role {
        faults,
        ..Role::new(
            name,
            preferred,
            starts,
            rates(1_000_000, 1_000_000, 1_000_000),
        )
    }
}

/// The six, each with other faults, of which each starts 10 ms behind the one before, and the display.
pub fn controllers(alloc: Global, seed: u64) -> Result<Vec<Player>, AllocError>
    ensures { IfOk result (λ players. PlaysDisplay players.items) }
{
    let display = Role {
        broadcasts: 6,
        is_display: true,
        ..teller(0x8000_0000_0340_2007, 0x28, 0, &[])
    };
    let roles = [
        teller(0x8000_0000_0340_2001, 0x00, 0, &FAULTS[..2]),
        teller(0x8000_0000_0340_2002, 0x03, 10_000, &FAULTS[1..3]),
        teller(0x8000_0000_0340_2003, 0x0B, 20_000, &FAULTS[2..]),
        teller(0x8000_0000_0340_2004, 0x0F, 30_000, &FAULTS[..3]),
        teller(0x8000_0000_0340_2005, 0x21, 40_000, &FAULTS[1..]),
        teller(0x8000_0000_0340_2006, 0x31, 50_000, &FAULTS),
        display,
    ];
    play(alloc, seed, &roles)
}
