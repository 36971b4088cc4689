//! What the demo plays: four controllers.
//!
//! The engine takes address 00. A second later a rival with a smaller NAME claims it too, so that the
//! engine moves to 80. The tool commands the gearbox to move from 03 to 05. Each of them sends engine
//! speed, temperatures and distance. The engine broadcasts its vehicle's identification (VI), and the
//! rival sends its component's (CI) to the tool. The engine says each second, and at a change, which of its
//! fault codes are active (DM1): first none, then one, then three, then none.
ghost use Rattle.std.specs.Prelude.{◌≡◌, ◌∷◌, ◌++◌, [], IfOk, OnOk, map};
ghost use Rattle.j39_frame.specs.Address.{IsAddress};
ghost use Rattle.bus_demo.specs.Scenario.{ArePlayed, HaveAddresses, IsPlayed, PlaysAll, member, member_of};
ghost use Rattle.bus_demo.specs.declared.bus.player.Player.{Player};

use crate::bus::diagnostics::Fault;
use crate::bus::gauges::Gauges;
use crate::bus::player::Player;
use crate::bus::role::{Plan, Role, rates};
use j39_faults::{Code, Parameter};
use j39_frame::GLOBAL_ADDRESS;
use std::alloc::{AllocError, Global};

/// The vehicle identification number, with the `*` that ends it.
pub const VIN: &[u8] = b"1FUJA6CV12LK12345*";

/// Make, model, serial number and unit number.
pub const COMPONENT: &[u8] = b"ACME*X1 RETARDER*77-1203*UNIT 9*";

/// The gearbox's NAME, the low byte first, and the address that it is to take.
pub const COMMAND: &[u8] = &[0x03, 0x10, 0x40, 0x02, 0, 0, 0, 0x80, 0x05];

/// The address of the tool.
pub const TOOL: u8 = 0xF9;

/// The groups of planned messages: VI, CI and the commanded address.
const VEHICLE_IDENTIFICATION: u32 = 65_260;

const COMPONENT_IDENTIFICATION: u32 = 65_259;

pub const COMMANDED_ADDRESS: u32 = 65_240;

/// A request (J1939-21, 5.4.2).
const REQUEST: u32 = 59_904;

/// SPN 110, the temperature of the coolant, is above normal (FMI 0); SPN 175, that of the oil, is erratic (FMI 2); and
/// SPN 520201, one of its maker's own, is there (FMI 31), which isn't counted.
static ENGINE_FAULTS: [Fault; 3] = [
    Fault {
        code: Code {
            parameter: Parameter::Known(110),
            fmi: 0,
            count: Some(2),
        },
        begins: 500_000,
        ends: 3_900_000,
        is_severe: true,
    },
    Fault {
        code: Code {
            parameter: Parameter::Known(175),
            fmi: 2,
            count: Some(1),
        },
        begins: 1_900_000,
        ends: 3_900_000,
        is_severe: false,
    },
    Fault {
        code: Code {
            parameter: Parameter::Known(520_201),
            fmi: 31,
            count: None,
        },
        begins: 1_900_000,
        ends: 3_900_000,
        is_severe: false,
    },
];

static ENGINE_PLANS: [Plan; 1] = [Plan {
    at: 1_600_000,
    to: GLOBAL_ADDRESS,
    pgn: VEHICLE_IDENTIFICATION,
    payload: VIN,
}];

static RIVAL_PLANS: [Plan; 1] = [Plan {
    at: 1_700_000,
    to: TOOL,
    pgn: COMPONENT_IDENTIFICATION,
    payload: COMPONENT,
}];

/// The tool commands the gearbox to move.
const MOVE: Plan = Plan {
    at: 2_200_000,
    to: GLOBAL_ADDRESS,
    pgn: COMMANDED_ADDRESS,
    payload: COMMAND,
};

static TOOL_PLANS: [Plan; 1] = [MOVE];

/// It then asks address 00 for its vehicle's identification, where a controller is outside.
static ASKING_TOOL_PLANS: [Plan; 2] = [
    MOVE,
    Plan {
        at: 2_500_000,
        to: 0x00,
        pgn: REQUEST,
        payload: &[0xEC, 0xFE, 0x00],
    },
];

fn engine() -> Role
    ensures { (member_of result ≡ member 0x8000000003401001 0) × (result.starts ≡ 0) }
{
    Role {
        plans: &ENGINE_PLANS,
        faults: &ENGINE_FAULTS,
        ..Role::new(
            0x8000_0000_0340_1001,
            0x00,
            0,
            rates(100_000, 500_000, 1_000_000),
        )
    }
}

fn rival() -> Role
    ensures { (member_of result ≡ member 0x8000000001401002 0) × (result.starts ≡ 1000000) }
{
    Role {
        plans: &RIVAL_PLANS,
        ..Role::new(
            0x8000_0000_0140_1002,
            0x00,
            1_000_000,
            rates(100_000, 1_000_000, 1_000_000),
        )
    }
}

fn gearbox() -> Role
    ensures { (member_of result ≡ member 0x8000000002401003 3) × (result.starts ≡ 20000) }
{
    Role::new(
        0x8000_0000_0240_1003,
        0x03,
        20_000,
        rates(200_000, 1_000_000, 1_000_000),
    )
}

fn tool(asks: bool) -> Role
    ensures { (member_of result ≡ member 0x8000000004401004 0xF9) × (result.starts ≡ 100000) }
{
    Role {
        plans: if asks {
            &ASKING_TOOL_PLANS
        } else {
            &TOOL_PLANS
        },
        ..Role::new(
            0x8000_0000_0440_1004,
            TOOL,
            100_000,
            rates(500_000, 1_000_000, 1_000_000),
        )
    }
}

/// The four controllers. Where another is outside, the tool asks it.
pub fn controllers(alloc: Global, seed: u64, outside: bool) -> Result<Vec<Player>, AllocError>
    ensures { IfOk result (λ players. PlaysAll players.items) }
{
    play(alloc, seed, &[engine(), rival(), gearbox(), tool(outside)])
}

/// The controllers of these roles, in their order. The seed decides when in a time of 10 ms each one's loop turns, and what its
/// gauges show.
pub(super) fn play(alloc: Global, seed: u64, roles: &[Role]) -> Result<Vec<Player>, AllocError>
    ensures { IfOk result (λ players. HaveAddresses (map member_of roles.now) → ArePlayed (map member_of roles.now) players.items) }
{
    let mut players = Vec::new(alloc);
    for (place, role) in roles.iter().enumerate() {
        join(&mut players, alloc, role, Gauges::new(seed, place as u64))?;
    }
    Ok(players)
}

/// Puts the controller of a role behind the others.
fn join(
    players: &mut Vec<Player>,
    alloc: Global,
    role: &Role,
    gauges: Gauges,
) -> Result<(), AllocError>
    ensures { OnOk result (IsAddress role.now.preferred → (player : Player) × IsPlayed (member_of role.now) player
        × (players.new.items ≡ players.old.items ++ player ∷ [])) }
{
    let found = Player::new(alloc, role, gauges)?;
    if let Some(player) = found {
        players.push(player)?;
    }
    Ok(())
}
