//! What is played with `--loss`: a bus on which a controller loses its address, or a transfer fails, and little else happens.
//!
//! The engine takes address 00, and loses it to its rival a second after the start. The gearbox is at 03, the tool at F9.
ghost use Rattle.std.specs.Prelude.{◌≡◌, IfOk};
ghost use Rattle.bus_demo.specs.Scenario.{PlaysAll, member, member_of};

use crate::bus::player::Player;
use crate::bus::role::{Plan, Role, rates};
use crate::bus::scenario::{COMMAND, COMMANDED_ADDRESS, TOOL, play};
use j39_frame::GLOBAL_ADDRESS;
use std::alloc::{AllocError, Global};

/// What is lost, or what is sent for a loss.
#[derive(Clone, Copy)]
pub enum Loss {
    /// The sender's address in a broadcast.
    InBroadcast,
    /// The sender's address in a transfer.
    InTransfer,
    /// The receiver's address while it has a session open.
    WithSession,
    /// Nothing, unless a frame is named: the tool has two messages for the gearbox.
    OfRequest,
    /// Nothing: the tool sends the gearbox a commanded address in a transfer.
    OfCommand,
}

/// The words of `--loss`.
pub const LOSSES: [(&str, Loss); 5] = [
    ("broadcast", Loss::InBroadcast),
    ("transfer", Loss::InTransfer),
    ("session", Loss::WithSession),
    ("request", Loss::OfRequest),
    ("command", Loss::OfCommand),
];

/// The group of software identification (SOFT).
const SOFTWARE: u32 = 65_242;

/// 12 packets: a broadcast of it takes 600 ms.
const LONG: &[u8] =
    b"BUILD 2026.11.23*REVISION 4 OF THE ENGINE'S SOFTWARE*CHECKED*SIGNED*RELEASED*END*";

/// 255 packets: a transfer of it takes some 140 ms.
const LONGEST: &[u8] = &[0x2A; 1_785];

const SHORT: &[u8] = b"REVISION 5*END*";

const ENGINE: u8 = 0x00;

const GEARBOX: u8 = 0x03;

const NONE: &[Plan] = &[];

const LONG_TO_ALL: &[Plan] = &[Plan {
    at: 700_000,
    to: GLOBAL_ADDRESS,
    pgn: SOFTWARE,
    payload: LONG,
}];

const LONG_TO_TOOL: &[Plan] = &[Plan {
    at: 950_000,
    to: TOOL,
    pgn: SOFTWARE,
    payload: LONGEST,
}];

const LONG_TO_ENGINE: &[Plan] = &[Plan {
    at: 950_000,
    to: ENGINE,
    pgn: SOFTWARE,
    payload: LONGEST,
}];

const TWO_TO_GEARBOX: &[Plan] = &[
    Plan {
        at: 500_000,
        to: GEARBOX,
        pgn: SOFTWARE,
        payload: LONG,
    },
    Plan {
        at: 500_000,
        to: GEARBOX,
        pgn: SOFTWARE,
        payload: SHORT,
    },
];

const COMMAND_TO_GEARBOX: &[Plan] = &[Plan {
    at: 500_000,
    to: GEARBOX,
    pgn: COMMANDED_ADDRESS,
    payload: COMMAND,
}];

fn role(name: u64, preferred: u8, starts: u64, plans: &'static [Plan]) -> Role
    ensures { (member_of result ≡ member name preferred) × (result.starts ≡ starts) }
{
    Role {
        plans,
        ..Role::new(
            name,
            preferred,
            starts,
            rates(1_000_000, 1_000_000, 1_000_000),
        )
    }
}

/// The engine, its rival, the gearbox and the tool, with what engine and tool are to send.
pub fn controllers(alloc: Global, seed: u64, loss: Loss) -> Result<Vec<Player>, AllocError>
    ensures { IfOk result (λ players. PlaysAll players.items) }
{
    let (engine, tool) = match loss {
        Loss::InBroadcast => (LONG_TO_ALL, NONE),
        Loss::InTransfer => (LONG_TO_TOOL, NONE),
        Loss::WithSession => (NONE, LONG_TO_ENGINE),
        Loss::OfRequest => (NONE, TWO_TO_GEARBOX),
        Loss::OfCommand => (NONE, COMMAND_TO_GEARBOX),
    };
    four(alloc, seed, engine, tool)
}

/// The four, with what engine and tool are to send.
fn four(
    alloc: Global,
    seed: u64,
    engine: &'static [Plan],
    tool: &'static [Plan],
) -> Result<Vec<Player>, AllocError>
    ensures { IfOk result (λ players. PlaysAll players.items) }
{
    let engine = role(0x8000_0000_0340_1001, ENGINE, 0, engine);
    let rival = role(0x8000_0000_0140_1002, ENGINE, 1_000_000, NONE);
    let gearbox = role(0x8000_0000_0240_1003, GEARBOX, 0, NONE);
    let tool = role(0x8000_0000_0440_1004, TOOL, 0, tool);
    play(alloc, seed, &[engine, rival, gearbox, tool])
}
