//! Several messages sent in packets at once, each to another address, from two boxes.
use crate::steps::{frame, is_line};
use j39_address::Claims;
use j39_frame::{Frame, Pgn, Stamp};
use j39_transfers::{Ending, Outgoing, Refused, Transfers};
use std::test::Fail;

/// What is done with them, and what they answer. Moments are microseconds.
enum Step {
    /// At this moment 15 bytes of group 65226, of this token and priority, are to be sent to this address.
    Begins(u64, u64, u8, u8, Result<(), Refused>),
    /// The frame of this line is heard.
    Hears(&'static str),
    /// At this moment the frame of this line goes first, and is sent; or there is none.
    Sends(u64, Option<&'static str>),
    /// At this moment one is due in so long.
    IsDueIn(u64, Option<u64>),
    /// At this moment the NAME that held address 12 is gone.
    Leaves(u64),
    /// At this moment the address is lost.
    Loses(u64),
    /// This end is told.
    Ends(Option<(u64, Ending)>),
}

use Step::{Begins, Ends, Hears, IsDueIn, Leaves, Loses, Sends};

const BYTES: &[u8] = b"ABCDEFGHIJKLMNO";

/// To address 11, which holds for ever, 12 and 13: the requests to send.
const TO_11: Option<&str> = Some("(0000000000.000000) can0 1CEC0B80#100F0003FFCAFE00");

const TO_12: Option<&str> = Some("(0000000000.000000) can0 1CEC0C80#100F0003FFCAFE00");

const TO_13: Option<&str> = Some("(0000000000.000000) can0 1CEC0D80#100F0003FFCAFE00");

/// While 11 holds, 12 and 13 get theirs one after another, and 12 the next.
static HELD: &[Step] = &[
    Begins(0, 1, 11, 7, Ok(())),
    Begins(0, 2, 12, 7, Ok(())),
    Begins(0, 3, 11, 7, Err(Refused::Busy)),
    Begins(0, 3, 128, 7, Err(Refused::BadValue)),
    Begins(0, 3, 13, 7, Err(Refused::Full)),
    Sends(1_000, TO_11),
    Sends(1_100, TO_12),
    Sends(1_200, None),
    Hears("(0.002000) can0 1CEC800B#1100FFFFFFCAFE00"),
    // What another says of the group changes nothing.
    Hears("(0.003000) can0 1CEC800E#FF01FFFFFFCAFE00"),
    Hears("(0.004000) can0 1CEC800C#110301FFFFCAFE00"),
    Sends(
        5_000,
        Some("(0000000000.000000) can0 1CEB0C80#0141424344454647"),
    ),
    Sends(
        5_100,
        Some("(0000000000.000000) can0 1CEB0C80#0248494A4B4C4D4E"),
    ),
    Sends(
        5_200,
        Some("(0000000000.000000) can0 1CEB0C80#034FFFFFFFFFFFFF"),
    ),
    Ends(None),
    Hears("(0.006000) can0 1CEC800C#130F0003FFCAFE00"),
    Ends(Some((2, Ending::Done))),
    Hears("(1.000000) can0 1CEC800B#1100FFFFFFCAFE00"),
    // What was acknowledged doesn't rest.
    Begins(1_000_000, 4, 12, 7, Ok(())),
    Sends(1_000_000, TO_12),
    Hears("(1.001000) can0 1CEC800C#FF01FFFFFFCAFE00"),
    Ends(Some((4, Ending::Failed(1)))),
    // Nor what was refused.
    Begins(1_002_000, 5, 12, 7, Ok(())),
    Sends(1_002_000, TO_12),
    IsDueIn(1_002_000, Some(1_048_001)),
    // Who is silent has 1,250 ms, and who holds 1,050 ms.
    Sends(
        2_050_001,
        Some("(0000000000.000000) can0 1CEC0B80#FF03FFFFFFCAFE00"),
    ),
    Ends(Some((1, Ending::Failed(3)))),
    Begins(2_060_000, 6, 11, 7, Err(Refused::Resting)),
    Begins(2_060_000, 6, 13, 7, Ok(())),
    Sends(2_060_000, TO_13),
    Leaves(2_070_000),
    Ends(Some((5, Ending::Gone))),
    // Its rest ends with that of the 4 s since.
    Begins(6_050_000, 7, 11, 7, Err(Refused::Resting)),
    Begins(6_050_001, 7, 11, 7, Ok(())),
    Loses(6_050_001),
    Ends(Some((6, Ending::Withdrawn))),
    Ends(Some((7, Ending::Withdrawn))),
    Ends(None),
];

/// Packets go by turns, and the smaller priority number first.
static TURNS: &[Step] = &[
    Begins(0, 1, 11, 7, Ok(())),
    Begins(0, 2, 12, 3, Ok(())),
    Sends(0, TO_12),
    Sends(0, TO_11),
    Hears("(0.001000) can0 1CEC800B#110301FFFFCAFE00"),
    Sends(
        1_000,
        Some("(0000000000.000000) can0 1CEB0B80#0141424344454647"),
    ),
    Hears("(0.002000) can0 1CEC800C#110101FFFFCAFE00"),
    Sends(
        2_000,
        Some("(0000000000.000000) can0 1CEB0C80#0141424344454647"),
    ),
    Sends(
        2_000,
        Some("(0000000000.000000) can0 1CEB0B80#0248494A4B4C4D4E"),
    ),
    // An abort in the middle rests, and not what was never sent.
    Hears("(0.003000) can0 1CEC800C#FF01FFFFFFCAFE00"),
    Ends(Some((2, Ending::Failed(1)))),
    Begins(4_000, 3, 12, 7, Err(Refused::Resting)),
    Begins(4_000, 3, 13, 7, Ok(())),
    Loses(4_000),
    Ends(Some((1, Ending::Withdrawn))),
    Ends(Some((3, Ending::Withdrawn))),
    Begins(5_000, 4, 11, 7, Err(Refused::Resting)),
    Begins(5_000, 4, 13, 7, Ok(())),
];

/// Two by turns.
static BY_TURNS: &[Step] = &[
    Begins(0, 1, 11, 7, Ok(())),
    Begins(0, 2, 12, 7, Ok(())),
    Sends(0, TO_11),
    Sends(0, TO_12),
    Hears("(0.001000) can0 1CEC800B#110301FFFFCAFE00"),
    Hears("(0.001000) can0 1CEC800C#110301FFFFCAFE00"),
    Sends(
        1_000,
        Some("(0000000000.000000) can0 1CEB0B80#0141424344454647"),
    ),
    Sends(
        1_000,
        Some("(0000000000.000000) can0 1CEB0C80#0141424344454647"),
    ),
    Sends(
        1_000,
        Some("(0000000000.000000) can0 1CEB0B80#0248494A4B4C4D4E"),
    ),
    Sends(
        1_000,
        Some("(0000000000.000000) can0 1CEB0C80#0248494A4B4C4D4E"),
    ),
];

/// None begins without a box.
static NO_BOX: &[Step] = &[
    Begins(0, 1, 11, 7, Err(Refused::Full)),
    Sends(0, None),
    Ends(None),
];

/// The frame that goes first, as one of moment 0.
fn first(transfers: &Transfers, now: Stamp) -> Option<Frame> {
    let sent = transfers.first_frame(now)?;
    let bytes = sent.1;
    Frame::new(Stamp::new(0)?, sent.0, &bytes)
}

/// Whether they answer so.
fn is_step(transfers: &mut Transfers, claims: &mut Claims, step: &Step) -> Option<bool> {
    match step {
        Begins(now, token, destination, priority, answer) => {
            let message = Outgoing {
                token: *token,
                destination: *destination,
                group: Pgn::new(65_226)?,
                priority: *priority,
                payload: BYTES,
            };
            let holder = claims.holder(*destination);
            Some(transfers.begin(&message, holder, Stamp::new(*now)?) == *answer)
        }
        Hears(line) => {
            let heard = frame(line)?;
            transfers.hear(&heard, heard.stamp);
            Some(true)
        }
        Sends(now, line) => {
            let now = Stamp::new(*now)?;
            let sent = first(transfers, now);
            transfers.drop_frame(now);
            is_line(sent, *line)
        }
        IsDueIn(now, left) => Some(transfers.due_in(Stamp::new(*now)?) == *left),
        Leaves(now) => {
            let _left = claims.note(&frame("(0.000000) can0 18EEFFFE#0700000000000000")?);
            transfers.leave(None, claims, Stamp::new(*now)?);
            Some(true)
        }
        Loses(now) => {
            transfers.lose(Stamp::new(*now)?);
            Some(true)
        }
        Ends(ended) => Some(transfers.take_ended() == *ended),
    }
}

/// The place of the first step that isn't so.
fn wrong(transfers: &mut Transfers, claims: &mut Claims, steps: &[Step]) -> Option<usize> {
    for (place, step) in steps.iter().enumerate() {
        if is_step(transfers, claims, step) != Some(true) {
            return Some(place);
        }
    }
    None
}

/// Address 12 is held by a NAME.
fn holders() -> Claims {
    let mut claims = Claims::new();
    if let Some(claim) = frame("(0.000000) can0 18EEFF0C#0700000000000000") {
        let _came = claims.note(&claim);
    }
    claims
}

#[test]
fn who_holds_keeps_nobody_else(rt: HostRuntime) -> Result<(), Fail> {
    let mut transfers = Transfers::new(rt.alloc(), 128, 2)?.ok_or("transfers")?;
    assert_eq!(rt; wrong(&mut transfers, &mut holders(), HELD), None);
    Ok(())
}

#[test]
fn packets_go_by_turns(rt: HostRuntime) -> Result<(), Fail> {
    let mut transfers = Transfers::new(rt.alloc(), 128, 2)?.ok_or("transfers")?;
    assert_eq!(rt; wrong(&mut transfers, &mut holders(), TURNS), None);
    let mut transfers = Transfers::new(rt.alloc(), 128, 2)?.ok_or("transfers")?;
    assert_eq!(rt; wrong(&mut transfers, &mut holders(), BY_TURNS), None);
    Ok(())
}

#[test]
fn none_begins_without_boxes(rt: HostRuntime) -> Result<(), Fail> {
    let mut transfers = Transfers::new(rt.alloc(), 128, 0)?.ok_or("transfers")?;
    assert_eq!(rt; wrong(&mut transfers, &mut holders(), NO_BOX), None);
    assert!(rt; transfers.move_to(129));
    assert_eq!(rt; transfers.address(), 129);
    assert!(rt; Transfers::new(rt.alloc(), 254, 2)?.is_none());
    Ok(())
}
