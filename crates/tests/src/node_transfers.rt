//! Transfers of a controller to one address: from 80 to 0B, of the group 65226.
use crate::steps::{Step, controller, wrong_step};
use Step::{Broadcasts, EndsTransfer, Gives, Hears, HearsOften, IsDue, Moves, Transfers};
use TransferEnding::{Done, Failed, Gone, Withdrawn};
use j39_frame::{Frame, Id, Pgn, Stamp};
use j39_node::{Controller, Refused, TransferEnding};
use j39_transport::{Receiver, Reply};
use std::alloc::Global;
use std::test::Fail;

const MESSAGE: [u8; 18] = *b"1FUJA6CV12LK12345*";

/// It claims address 128 at 0, and holds it from 250,000 on.
static BEGINS: &[Step] = &[
    Gives(
        0,
        Some("(0000000000.000000) can0 18EEFF80#0200000000000000"),
    ),
    Transfers(249_999, 11, &MESSAGE, Err(Refused::NoAddress)),
    Transfers(250_000, 128, &MESSAGE, Err(Refused::BadValue)),
    Transfers(250_000, 254, &MESSAGE, Err(Refused::BadValue)),
    Transfers(250_000, 255, &MESSAGE, Err(Refused::BadValue)),
    Transfers(
        250_000,
        11,
        &[1, 2, 3, 4, 5, 6, 7, 8],
        Err(Refused::BadValue),
    ),
    Transfers(250_000, 11, &[0; 1_786], Err(Refused::BadValue)),
    Transfers(250_000, 11, &MESSAGE, Ok(0)),
    Transfers(250_000, 11, &MESSAGE, Err(Refused::Full)),
    IsDue(Some(250_000)),
    Gives(
        250_000,
        Some("(0000000000.250000) can0 1CEC0B80#10120003FFCAFE00"),
    ),
    IsDue(Some(1_500_001)),
    Gives(1_000_000, None),
    EndsTransfer(None),
];

/// Cleared for two packets, held, cleared for the third, and acknowledged; a broadcast goes beside, and before.
static WINDOWS: &[Step] = &[
    Hears("(1.000000) can0 1CEC800B#110201FFFFCAFE00"),
    Broadcasts(1_000_000, &[1, 2, 3, 4, 5, 6, 7, 8, 9], Ok(0)),
    IsDue(Some(1_000_000)),
    Gives(
        1_000_000,
        Some("(0000000001.000000) can0 1CECFF80#20090002FFCAFE00"),
    ),
    Gives(
        1_000_000,
        Some("(0000000001.000000) can0 1CEB0B80#013146554A413643"),
    ),
    Gives(
        1_000_001,
        Some("(0000000001.000001) can0 1CEB0B80#025631324C4B3132"),
    ),
    Gives(1_000_002, None),
    IsDue(Some(1_050_000)),
    Gives(
        1_050_000,
        Some("(0000000001.050000) can0 1CEBFF80#0101020304050607"),
    ),
    Gives(
        1_100_000,
        Some("(0000000001.100000) can0 1CEBFF80#020809FFFFFFFFFF"),
    ),
    IsDue(Some(2_250_002)),
    Hears("(1.200000) can0 1CEC800B#1100FFFFFFCAFE00"),
    IsDue(Some(2_250_001)),
    // Another's, and one of another group: neither counts.
    Hears("(1.200000) can0 1CEC800C#110103FFFFCAFE00"),
    Hears("(1.200000) can0 1CEC800B#110103FFFFCBFE00"),
    Hears("(1.200000) can0 1CEC800B#13120003FFCAFE00"),
    EndsTransfer(None),
    Hears("(2.250000) can0 1CEC800B#110103FFFFCAFE00"),
    Gives(
        2_250_000,
        Some("(0000000002.250000) can0 1CEB0B80#033334352AFFFFFF"),
    ),
    EndsTransfer(None),
    Hears("(2.250001) can0 1CEC800B#13120003FFCAFE00"),
    IsDue(None),
    EndsTransfer(Some((0, Done))),
    EndsTransfer(None),
    Transfers(2_250_001, 11, &MESSAGE, Ok(1)),
];

/// It answers others while its own packets may go: a reply goes behind each frame of its transfer, and one of these behind each reply.
static ANSWERS: &[Step] = &[
    Hears("(1.000000) can0 1CEC800B#110301FFFFCAFE00"),
    Hears("(1.000000) can0 1CEC800C#10120003FFECFE00"),
    Hears("(1.000000) can0 1CEC800D#10120003FFECFE00"),
    Gives(
        1_000_000,
        Some("(0000000001.000000) can0 1CEC0C80#110301FFFFECFE00"),
    ),
    Gives(
        1_000_000,
        Some("(0000000001.000000) can0 1CEB0B80#013146554A413643"),
    ),
    Gives(
        1_000_000,
        Some("(0000000001.000000) can0 1CEC0D80#FF02FFFFFFECFE00"),
    ),
    Gives(
        1_000_000,
        Some("(0000000001.000000) can0 1CEB0B80#025631324C4B3132"),
    ),
    Gives(
        1_000_000,
        Some("(0000000001.000000) can0 1CEB0B80#033334352AFFFFFF"),
    ),
    Gives(1_000_000, None),
];

/// Aborted by its destination.
static ABORTED: &[Step] = &[
    Hears("(1.000000) can0 1CEC800B#FF01FFFFFFCAFE00"),
    IsDue(None),
    Transfers(1_000_000, 11, &MESSAGE, Err(Refused::Full)),
    EndsTransfer(Some((0, Failed(1)))),
    EndsTransfer(None),
];

/// Nobody answers; a clock that is set back is no time.
static ABSENT: &[Step] = &[
    Gives(500_000, None),
    IsDue(Some(1_000_001)),
    Gives(1_000_000, None),
    Gives(
        1_000_001,
        Some("(0000000001.000001) can0 1CEC0B80#FF03FFFFFFCAFE00"),
    ),
    EndsTransfer(Some((0, Failed(3)))),
];

/// It holds again and again.
static HOLDS: &[Step] = &[
    HearsOften(64, "(1.000000) can0 1CEC800B#1100FFFFFFCAFE00"),
    IsDue(Some(2_050_001)),
    Hears("(1.100000) can0 1CEC800B#1100FFFFFFCAFE00"),
    IsDue(Some(1_100_000)),
    EndsTransfer(None),
    Gives(
        1_100_000,
        Some("(0000000001.100000) can0 1CEC0B80#FF05FFFFFFCAFE00"),
    ),
    EndsTransfer(Some((0, Failed(5)))),
];

/// The NAME of 0B says again who it is; then another takes the address.
static REPLACED: &[Step] = &[
    Hears("(1.000000) can0 18EEFF0B#0900000000000000"),
    Hears("(1.000000) can0 18EEFF0B#0900000000000000"),
    Hears("(1.000000) can0 18EEFF0B#0A00000000000000"),
    IsDue(Some(1_500_001)),
    Hears("(1.000001) can0 18EEFF0B#0800000000000000"),
    IsDue(None),
    Hears("(1.000002) can0 1CEC800B#110301FFFFCAFE00"),
    Gives(1_000_003, None),
    EndsTransfer(Some((0, Gone))),
];

/// A smaller NAME takes the own address, and is acknowledged to by mistake.
static LOST: &[Step] = &[
    Hears("(1.000000) can0 1CEC800B#110301FFFFCAFE00"),
    Gives(
        1_000_000,
        Some("(0000000001.000000) can0 1CEB0B80#013146554A413643"),
    ),
    Gives(
        1_000_000,
        Some("(0000000001.000000) can0 1CEB0B80#025631324C4B3132"),
    ),
    Gives(
        1_000_000,
        Some("(0000000001.000000) can0 1CEB0B80#033334352AFFFFFF"),
    ),
    Hears("(1.000001) can0 18EEFF80#0100000000000000"),
    Hears("(1.000002) can0 1CEC800B#13120003FFCAFE00"),
    EndsTransfer(Some((0, Withdrawn))),
    Transfers(1_000_003, 11, &MESSAGE, Err(Refused::NoAddress)),
];

/// Nobody answers. It moves to its own address, and may not send to 0B again before four seconds are over.
static MOVED: &[Step] = &[
    Gives(
        1_500_001,
        Some("(0000000001.500001) can0 1CEC0B80#FF03FFFFFFCAFE00"),
    ),
    EndsTransfer(Some((0, Failed(3)))),
    Moves(128),
    Gives(
        1_600_000,
        Some("(0000000001.600000) can0 18EEFF80#0200000000000000"),
    ),
    Transfers(1_850_000, 11, &MESSAGE, Err(Refused::Full)),
    Moves(129),
    Gives(
        1_850_001,
        Some("(0000000001.850001) can0 18EEFF81#0200000000000000"),
    ),
    Transfers(5_500_000, 11, &MESSAGE, Err(Refused::Full)),
    Transfers(5_500_001, 11, &MESSAGE, Ok(0)),
];

/// Two are busy: neither rests, so a third is sent to at once, and each of them again. Who is busy behind a clear to send has a
/// session, and rests.
static BUSY: &[Step] = &[
    Hears("(1.000000) can0 1CEC800B#FF01FFFFFFCAFE00"),
    EndsTransfer(Some((0, Failed(1)))),
    Transfers(1_000_000, 12, &MESSAGE, Ok(1)),
    Gives(
        1_000_000,
        Some("(0000000001.000000) can0 1CEC0C80#10120003FFCAFE00"),
    ),
    Hears("(1.000001) can0 1CEC800C#FF01FFFFFFCAFE00"),
    EndsTransfer(Some((1, Failed(1)))),
    Transfers(1_000_001, 13, &MESSAGE, Ok(2)),
    Gives(
        1_000_001,
        Some("(0000000001.000001) can0 1CEC0D80#10120003FFCAFE00"),
    ),
    Hears("(1.000002) can0 1CEC800D#110301FFFFCAFE00"),
    Hears("(1.000002) can0 1CEC800D#FF01FFFFFFCAFE00"),
    EndsTransfer(Some((2, Failed(1)))),
    Transfers(1_000_002, 13, &MESSAGE, Err(Refused::Full)),
    Transfers(1_000_002, 12, &MESSAGE, Ok(3)),
];

/// Two don't answer, and rest, each for its own four seconds; others are sent to meanwhile.
static TWO_REST: &[Step] = &[
    Gives(
        1_500_001,
        Some("(0000000001.500001) can0 1CEC0B80#FF03FFFFFFCAFE00"),
    ),
    EndsTransfer(Some((0, Failed(3)))),
    Transfers(1_500_001, 12, &MESSAGE, Ok(1)),
    Gives(
        1_500_001,
        Some("(0000000001.500001) can0 1CEC0C80#10120003FFCAFE00"),
    ),
    Gives(
        2_750_002,
        Some("(0000000002.750002) can0 1CEC0C80#FF03FFFFFFCAFE00"),
    ),
    EndsTransfer(Some((1, Failed(3)))),
    Transfers(2_750_002, 11, &MESSAGE, Err(Refused::Full)),
    Transfers(2_750_002, 12, &MESSAGE, Err(Refused::Full)),
    Transfers(2_750_002, 13, &MESSAGE, Ok(2)),
    Gives(
        2_750_002,
        Some("(0000000002.750002) can0 1CEC0D80#10120003FFCAFE00"),
    ),
    Hears("(2.750003) can0 1CEC800D#FF02FFFFFFCAFE00"),
    EndsTransfer(Some((2, Failed(2)))),
    Transfers(5_500_000, 11, &MESSAGE, Err(Refused::Full)),
    Transfers(5_500_001, 11, &MESSAGE, Ok(3)),
    Gives(
        5_500_001,
        Some("(0000000005.500001) can0 1CEC0B80#10120003FFCAFE00"),
    ),
    Hears("(5.500002) can0 1CEC800B#FF01FFFFFFCAFE00"),
    EndsTransfer(Some((3, Failed(1)))),
    Transfers(6_750_001, 12, &MESSAGE, Err(Refused::Full)),
    Transfers(6_750_002, 12, &MESSAGE, Ok(4)),
];

/// The place of the first wrong step, after an address is held and a request to send was sent.
fn wrong_after(alloc: Global, steps: &[Step]) -> Result<Option<usize>, Fail> {
    let mut node = controller(alloc, &[])?;
    Ok(match wrong_step(&mut node, BEGINS) {
        Some(place) => Some(place.saturating_add(1_000)),
        None => wrong_step(&mut node, steps),
    })
}

#[test]
fn transfers_of_a_node(rt: HostRuntime) -> Result<(), Fail> {
    for steps in [
        WINDOWS, ANSWERS, ABORTED, ABSENT, HOLDS, REPLACED, LOST, MOVED, BUSY, TWO_REST,
    ] {
        assert_eq!(rt; wrong_after(rt.alloc(), steps)?, None);
    }
    Ok(())
}

/// Whether a transfer to this address begins at this moment, and is broken off by its destination, for another reason than that it
/// is busy.
fn breaks_off(node: &mut Controller, now: Stamp, to: u8) -> Option<bool> {
    let group = Pgn::new(65_226)?;
    if node.transfer(now, 7, group, to, &MESSAGE).is_err() {
        return Some(false);
    }
    let request = node.take_frame(now)?;
    let id = Id::compose(7, Pgn::new(60_416)?, request.id.source(), to)?;
    let abort = [0xFF, 250, 0xFF, 0xFF, 0xFF, 0xCA, 0xFE, 0];
    node.hear(&Frame::new(now, id, &abort)?, now);
    Some(node.take_transfer_ended()?.1 == Failed(250))
}

#[test]
fn sixteen_rest(rt: HostRuntime) -> Result<(), Fail> {
    let mut node = controller(rt.alloc(), &[])?;
    let _claim = node.take_frame(Stamp::new(0).ok_or("moment")?);
    for place in 0..16u8 {
        let now = Stamp::new(250_000 + u64::from(place)).ok_or("moment")?;
        assert_eq!(rt; breaks_off(&mut node, now, place), Some(true));
    }
    let early = Stamp::new(4_249_999).ok_or("moment")?;
    assert_eq!(rt; breaks_off(&mut node, early, 16), Some(false));
    let late = Stamp::new(4_250_000).ok_or("moment")?;
    assert_eq!(rt; breaks_off(&mut node, late, 1), Some(false));
    assert_eq!(rt; breaks_off(&mut node, late, 16), Some(true));
    Ok(())
}

/// How many bytes the receiver at 0B delivers, and how the transfer ended, where it hears each frame at once.
fn delivered(
    node: &mut Controller,
    receiver: &mut Receiver,
    bytes: &[u8],
) -> Option<(usize, Option<(u64, TransferEnding)>)> {
    let now = Stamp::new(250_000)?;
    node.transfer(now, 7, Pgn::new(65_226)?, 11, bytes).ok()?;
    let mut got = 0;
    // No transfer takes more frames: a request to send, and at most 255 packets.
    for _frame in 0..256 {
        let Some(sent) = node.take_frame(now) else {
            break;
        };
        match receiver.on(&sent, now) {
            Reply::Nothing => {}
            Reply::Send(id, data) => node.hear(&j39_frame::Frame::new(now, id, &data)?, now),
            Reply::Delivered(message, id, data) => {
                if message.payload == bytes {
                    got = message.payload.len().saturating_add(got);
                }
                node.hear(&j39_frame::Frame::new(now, id, &data)?, now);
            }
        }
    }
    Some((got, node.take_transfer_ended()))
}

#[test]
fn transfers_to_a_receiver(rt: HostRuntime) -> Result<(), Fail> {
    let mut node = controller(rt.alloc(), &[])?;
    let _claim = node.take_frame(Stamp::new(0).ok_or("moment")?);
    let mut receiver = crate::transfers::receiver(rt.alloc()).ok_or("receiver")?;
    let bytes: [u8; 1_785] = std::array::from_fn(|place| (place % 251) as u8);
    for (token, size) in [9, 14, 15, 1_785].into_iter().enumerate() {
        let payload = bytes.get(..size).ok_or("size")?;
        let met = delivered(&mut node, &mut receiver, payload);
        assert_eq!(rt; met, Some((size, Some((token as u64, Done)))));
    }
    Ok(())
}
