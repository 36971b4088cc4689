//! When a node holds the address that it claims, and when it loses it.
use crate::steps::{frame, is_line};
use j39_address::{Claimer, Name, Status};
use j39_frame::Stamp;
use std::test::Fail;

const NAME: u64 = 0x8000000001401234;

/// `NAME` without the bit of an arbitrary address capable NAME.
const FIXED: u64 = 0x0000000001401234;

/// What happens to a node; a frame that it sends is given as its line.
enum Step {
    /// It is started at this moment, and sends that.
    Starts(u64, Option<&'static str>),
    /// It hears the frame of a line, and sends that.
    Hears(&'static str, Option<&'static str>),
    /// It is commanded to take this address at this moment, and sends that.
    IsCommanded(u8, u64, Option<&'static str>),
    /// Time passes up to this moment.
    Passes(u64),
    /// It is so far.
    Is(Status),
}

use Status::{Cannot, Claiming, Holding, Idle};
use Step::{Hears, Is, IsCommanded, Passes, Starts};

static NODES: &[(&str, u64, &[Step])] = &[
    // It holds the address 250 ms after its claim, and defends it.
    (
        "claimer_holds_after_250_ms",
        NAME,
        &[
            Passes(0),
            Is(Idle),
            Starts(
                0,
                Some("(0000000000.000000) can0 18EEFF00#3412400100000080"),
            ),
            Passes(249_999),
            Is(Claiming(0)),
            Passes(250_000),
            Is(Holding(0)),
            Hears(
                "(0.300000) can0 18EEFF00#7856400100000080",
                Some("(0000000000.300000) can0 18EEFF00#3412400100000080"),
            ),
            Is(Holding(0)),
            Starts(400_000, None),
        ],
    ),
    // A time before the claim is no time passed.
    (
        "time_that_goes_back",
        NAME,
        &[
            Starts(
                1_000_000,
                Some("(0000000001.000000) can0 18EEFF00#3412400100000080"),
            ),
            Passes(0),
            Is(Claiming(0)),
            Passes(1_250_000),
            Is(Holding(0)),
        ],
    ),
    // It takes the least free address, and claims it for 250 ms anew.
    (
        "loser_moves",
        NAME,
        &[
            Starts(
                1_000_000,
                Some("(0000000001.000000) can0 18EEFF00#3412400100000080"),
            ),
            Hears("(1.000000) can0 18EEFF80#7856400100000080", None),
            Hears(
                "(1.100000) can0 18EEFF00#0100400100000080",
                Some("(0000000001.100000) can0 18EEFF81#3412400100000080"),
            ),
            Passes(1_349_999),
            Is(Claiming(0x81)),
            Passes(1_350_000),
            Is(Holding(0x81)),
        ],
    ),
    // A NAME that may not choose gives up, until it is commanded.
    (
        "loser_without_a_choice",
        FIXED,
        &[
            Starts(
                1_000_000,
                Some("(0000000001.000000) can0 18EEFF00#3412400100000000"),
            ),
            Hears(
                "(1.000000) can0 18EEFF00#0100400100000000",
                Some("(0000000001.000000) can0 18EEFFFE#3412400100000000"),
            ),
            Is(Cannot),
            IsCommanded(254, 2_000_000, None),
            Is(Cannot),
            IsCommanded(
                5,
                2_000_000,
                Some("(0000000002.000000) can0 18EEFF05#3412400100000000"),
            ),
            Is(Claiming(5)),
        ],
    ),
];

/// Whether the node does as the step says; `None` where the step isn't one.
fn does(node: &mut Claimer, raw: u64, step: &Step) -> Option<bool> {
    match step {
        Starts(micros, wanted) => is_line(node.start(Stamp::new(*micros)?), *wanted),
        Hears(line, wanted) => {
            let heard = frame(line)?;
            is_line(node.on(&heard, heard.stamp), *wanted)
        }
        IsCommanded(address, micros, wanted) => {
            let sent = node.commanded(Name::new(raw), *address, Stamp::new(*micros)?);
            is_line(sent, *wanted)
        }
        Passes(micros) => {
            node.tick(Stamp::new(*micros)?);
            Some(true)
        }
        Is(status) => Some(node.status() == *status),
    }
}

/// The place of the first step that the node doesn't take as it says.
fn wrong_step(node: &mut Claimer, raw: u64, steps: &[Step]) -> Option<usize> {
    for (place, step) in steps.iter().enumerate() {
        if does(node, raw, step) != Some(true) {
            return Some(place);
        }
    }
    None
}

#[test]
fn nodes(rt: HostRuntime) -> Result<(), Fail> {
    for (name, raw, steps) in NODES.iter() {
        let mut node = Claimer::new(Name::new(*raw), 0).ok_or("node")?;
        assert_eq!(rt; wrong_step(&mut node, *raw, steps), None, "{name}");
    }
    Ok(())
}
