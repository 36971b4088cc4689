//! Both ends of a directed transfer, frame by frame: from 00 to 0B, of the group 65260.
use j39_frame::{Frame, Id, Pgn, Stamp};
use j39_transport::{Cut, Receiver, Reply, SendEvent, SendState, Sender};
use std::alloc::Global;
use std::test::Fail;

pub(crate) const VIN: [u8; 18] = *b"1FUJA6CV12LK12345*";

/// The identifiers of a sender's TP.CM and TP.DT, and of a receiver's TP.CM.
pub(crate) const CONTROL: u32 = 0x1CEC0B00;

pub(crate) const DATA: u32 = 0x1CEB0B00;

pub(crate) const BACK: u32 = 0x1CEC000B;

pub(crate) const RTS: [u8; 8] = [0x10, 0x12, 0, 3, 0xFF, 0xEC, 0xFE, 0];

pub(crate) const CTS: [u8; 8] = [0x11, 3, 1, 0xFF, 0xFF, 0xEC, 0xFE, 0];

/// A CTS for the second packet and the third.
const TWO_MORE: [u8; 8] = [0x11, 2, 2, 0xFF, 0xFF, 0xEC, 0xFE, 0];

const HOLD: [u8; 8] = [0x11, 0, 0xFF, 0xFF, 0xFF, 0xEC, 0xFE, 0];

const ACKNOWLEDGMENT: [u8; 8] = [0x13, 0x12, 0, 3, 0xFF, 0xEC, 0xFE, 0];

const TIMEOUT: [u8; 8] = [0xFF, 3, 0xFF, 0xFF, 0xFF, 0xEC, 0xFE, 0];

pub(crate) const P1: [u8; 8] = [1, 0x31, 0x46, 0x55, 0x4A, 0x41, 0x36, 0x43];

pub(crate) const P2: [u8; 8] = [2, 0x56, 0x31, 0x32, 0x4C, 0x4B, 0x31, 0x32];

pub(crate) const P3: [u8; 8] = [3, 0x33, 0x34, 0x35, 0x2A, 0xFF, 0xFF, 0xFF];

/// An identifier and the data of a frame to send.
pub(crate) type Sent = Option<(u32, [u8; 8])>;

pub(crate) fn sender() -> Option<Sender<'static>> {
    Sender::new(Cut::new(0, Pgn::new(65260)?, &VIN)?, 0x0B)
}

fn shown(sent: Option<(Id, [u8; 8])>) -> Sent {
    let (id, bytes) = sent?;
    Some((id.raw(), bytes))
}

/// What a sender sends at a tick.
pub(crate) fn tick(sender: &mut Sender<'_>, micros: u64) -> Sent {
    shown(sender.on(SendEvent::Tick, Stamp::new(micros)?))
}

/// How far a sender is after a frame of the receiver, which it doesn't answer.
fn told(sender: &mut Sender<'_>, bytes: &[u8], micros: u64) -> Option<SendState> {
    let frame = Frame::new(Stamp::new(0)?, Id::new(BACK)?, bytes)?;
    match sender.on(SendEvent::Heard(&frame), Stamp::new(micros)?) {
        Some(_) => None,
        None => Some(sender.state()),
    }
}

/// A receiver at 0B with its buffer.
pub(crate) fn receiver(alloc: Global) -> Option<Receiver> {
    Receiver::with_buffer(alloc, 0x0B).ok()?
}

/// What a receiver sends at a frame, and how many bytes it delivers.
pub(crate) fn heard(
    receiver: &mut Receiver,
    raw: u32,
    bytes: &[u8],
    micros: u64,
) -> Option<(Sent, usize)> {
    let frame = Frame::new(Stamp::new(0)?, Id::new(raw)?, bytes)?;
    Some(match receiver.on(&frame, Stamp::new(micros)?) {
        Reply::Nothing => (None, 0),
        Reply::Send(id, bytes) => (Some((id.raw(), bytes)), 0),
        Reply::Delivered(message, id, bytes) => (Some((id.raw(), bytes)), message.payload.len()),
    })
}

/// What a receiver sends at a tick.
pub(crate) fn receiver_tick(receiver: &mut Receiver, micros: u64) -> Sent {
    shown(receiver.tick(Stamp::new(micros)?))
}

/// What happens to a sender.
enum SenderStep {
    /// Time passes, and it sends this.
    Tick(u64, Sent),
    /// It hears these bytes of the receiver, sends nothing, and is so far.
    Hears(&'static [u8], u64, SendState),
    /// It announces, hears a CTS for all packets, and sends them at 1, 2 and 3.
    SendsAll,
}

use SendState::{Done, Failed, Sending, Waiting};
use SenderStep::{Hears, SendsAll, Tick};

/// The steps of a sender, and how far it is behind the last.
static SENDERS: &[(&str, &[SenderStep], SendState)] = &[
    // The second packet is lost, and sent again with the one behind it.
    (
        "transfer_with_a_loss",
        &[
            SendsAll,
            Hears(&TWO_MORE, 3, Sending),
            Tick(4, Some((DATA, P2))),
            Tick(5, Some((DATA, P3))),
            Hears(&ACKNOWLEDGMENT, 6, Done),
        ],
        Done,
    ),
    // The sender fails, though the receiver has delivered.
    (
        "acknowledgment_that_is_lost",
        &[
            SendsAll,
            Tick(1_250_003, None),
            Tick(1_250_004, Some((CONTROL, TIMEOUT))),
        ],
        Failed(3),
    ),
    // A CTS of a packet that there isn't, of number 0, of another group, and an acknowledgment too early.
    (
        "frames_that_a_sender_ignores",
        &[
            Tick(0, Some((CONTROL, RTS))),
            Hears(&[0x11, 3, 2, 0xFF, 0xFF, 0xEC, 0xFE, 0], 0, Waiting),
            Hears(&[0x11, 3, 0, 0xFF, 0xFF, 0xEC, 0xFE, 0], 0, Waiting),
            Hears(&[0x11, 3, 1, 0xFF, 0xFF, 0xEB, 0xFE, 0], 0, Waiting),
            Hears(&ACKNOWLEDGMENT, 0, Waiting),
        ],
        Waiting,
    ),
    // A CTS of 255 packets grants all that there are.
    (
        "all_packets_granted",
        &[
            Tick(0, Some((CONTROL, RTS))),
            Hears(&[0x11, 0xFF, 1, 0xFF, 0xFF, 0xEC, 0xFE, 0], 0, Sending),
            Tick(1, Some((DATA, P1))),
            Tick(1, Some((DATA, P2))),
            Tick(1, Some((DATA, P3))),
        ],
        Waiting,
    ),
    // After 1,050 ms.
    (
        "hold_that_ends",
        &[
            Tick(0, Some((CONTROL, RTS))),
            Hears(&HOLD, 7, Waiting),
            Tick(1_050_007, None),
            Tick(1_050_008, Some((CONTROL, TIMEOUT))),
        ],
        Failed(3),
    ),
];

/// Whether the sender announces, and sends all packets behind a CTS.
fn sends_all(sender: &mut Sender<'_>) -> bool {
    tick(sender, 0) == Some((CONTROL, RTS))
        && told(sender, &CTS, 0) == Some(Sending)
        && tick(sender, 1) == Some((DATA, P1))
        && tick(sender, 2) == Some((DATA, P2))
        && tick(sender, 3) == Some((DATA, P3))
}

/// Whether the sender does as the step says.
fn does(sender: &mut Sender<'_>, step: &SenderStep) -> bool {
    match step {
        Tick(micros, sent) => tick(sender, *micros) == *sent,
        Hears(bytes, micros, state) => told(sender, bytes, *micros) == Some(*state),
        SendsAll => sends_all(sender),
    }
}

#[test]
fn senders(rt: HostRuntime) -> Result<(), Fail> {
    for (name, steps, end) in SENDERS.iter() {
        let mut sender = sender().ok_or("sender")?;
        for (place, step) in steps.iter().enumerate() {
            assert!(rt; does(&mut sender, step), "{name}, step {place}");
        }
        assert_eq!(rt; sender.state(), *end, "{name}");
    }
    Ok(())
}

/// What happens to a receiver.
enum ReceiverStep {
    /// Time passes, and it sends this.
    Passes(u64, Sent),
    /// It hears this frame, sends that, and delivers so many bytes, which it shows then.
    Receives(u32, [u8; 8], Sent, usize),
}

use ReceiverStep::{Passes, Receives};

/// The steps of a receiver, and whether it is busy behind the last.
static RECEIVERS: &[(&str, &[ReceiverStep], bool)] = &[
    // The second packet is lost, and asked for again.
    (
        "transfer_with_a_loss",
        &[
            Receives(CONTROL, RTS, Some((BACK, CTS)), 0),
            Receives(DATA, P1, None, 0),
            Receives(DATA, P3, Some((BACK, TWO_MORE)), 0),
            Receives(DATA, P2, None, 0),
            Receives(DATA, P3, Some((BACK, ACKNOWLEDGMENT)), 18),
        ],
        false,
    ),
    // Another source is told that it is busy. Nothing comes: it asks twice more, and gives up.
    (
        "receiver_refusals_and_timeouts",
        &[
            Receives(CONTROL, RTS, Some((BACK, CTS)), 0),
            Receives(
                0x1CEC0B21,
                RTS,
                Some((0x1CEC210B, [0xFF, 1, 0xFF, 0xFF, 0xFF, 0xEC, 0xFE, 0])),
                0,
            ),
            Passes(1_250_000, None),
            Passes(1_250_001, Some((BACK, CTS))),
            Passes(2_500_002, Some((BACK, CTS))),
            Passes(3_750_003, Some((BACK, TIMEOUT))),
        ],
        false,
    ),
    // Between two packets of a CTS the limit is 750 ms.
    (
        "packet_that_is_late",
        &[
            Receives(CONTROL, RTS, Some((BACK, CTS)), 0),
            Receives(DATA, P1, None, 0),
            Passes(750_000, None),
            Passes(750_001, Some((BACK, TWO_MORE))),
        ],
        true,
    ),
    // For 8 bytes, for 1,786, and for another number of packets than the size has.
    (
        "requests_that_a_receiver_ignores",
        &[
            Receives(CONTROL, [0x10, 8, 0, 2, 0xFF, 0xEC, 0xFE, 0], None, 0),
            Receives(CONTROL, [0x10, 0xFA, 6, 0xFF, 0xFF, 0xEC, 0xFE, 0], None, 0),
            Receives(CONTROL, [0x10, 0x12, 0, 4, 0xFF, 0xEC, 0xFE, 0], None, 0),
        ],
        false,
    ),
    // The most packets for one CTS: none, and two. The second RTS takes the place of the first.
    (
        "limits_of_a_request",
        &[
            Receives(
                CONTROL,
                [0x10, 0x12, 0, 3, 0, 0xEC, 0xFE, 0],
                Some((BACK, CTS)),
                0,
            ),
            Receives(
                CONTROL,
                [0x10, 0x12, 0, 3, 2, 0xEC, 0xFE, 0],
                Some((BACK, [0x11, 2, 1, 0xFF, 0xFF, 0xEC, 0xFE, 0])),
                0,
            ),
            Receives(DATA, P1, None, 0),
            Receives(
                DATA,
                P2,
                Some((BACK, [0x11, 1, 3, 0xFF, 0xFF, 0xEC, 0xFE, 0])),
                0,
            ),
        ],
        true,
    ),
    (
        "limit_of_two_packets",
        &[
            Receives(
                CONTROL,
                [0x10, 0x12, 0, 3, 2, 0xEC, 0xFE, 0],
                Some((BACK, [0x11, 2, 1, 0xFF, 0xFF, 0xEC, 0xFE, 0])),
                0,
            ),
            Receives(DATA, P1, None, 0),
            Receives(
                DATA,
                P2,
                Some((BACK, [0x11, 1, 3, 0xFF, 0xFF, 0xEC, 0xFE, 0])),
                0,
            ),
        ],
        true,
    ),
    (
        "abort_of_another_group",
        &[
            Receives(CONTROL, RTS, Some((BACK, CTS)), 0),
            Receives(CONTROL, [0xFF, 3, 0xFF, 0xFF, 0xFF, 0xEB, 0xFE, 0], None, 0),
        ],
        true,
    ),
    // For any reason.
    (
        "abort_of_a_sender",
        &[
            Receives(CONTROL, RTS, Some((BACK, CTS)), 0),
            Receives(
                CONTROL,
                [0xFF, 0x63, 0xFF, 0xFF, 0xFF, 0xEC, 0xFE, 0],
                None,
                0,
            ),
        ],
        false,
    ),
];

/// Whether the receiver does as the step says.
fn receives(receiver: &mut Receiver, step: &ReceiverStep) -> bool {
    match step {
        Passes(micros, sent) => receiver_tick(receiver, *micros) == *sent,
        Receives(raw, bytes, sent, size) => {
            heard(receiver, *raw, bytes, 0) == Some((*sent, *size)) && shown_size(receiver) == *size
        }
    }
}

/// How many bytes the message has that the receiver shows.
fn shown_size(receiver: &Receiver) -> usize {
    match receiver.delivered() {
        Some(message) => message.payload.len(),
        None => 0,
    }
}

#[test]
fn receivers(rt: HostRuntime) -> Result<(), Fail> {
    for (name, steps, is_busy) in RECEIVERS.iter() {
        let mut receiver = receiver(rt.alloc()).ok_or("receiver")?;
        for (place, step) in steps.iter().enumerate() {
            assert!(rt; receives(&mut receiver, step), "{name}, step {place}");
        }
        assert_eq!(rt; receiver.busy(), *is_busy, "{name}");
    }
    Ok(())
}

/// Whether a receiver sends and delivers nothing at each front of these bytes.
fn is_deaf(receiver: &mut Receiver, raw: u32, bytes: &[u8; 8]) -> bool {
    for length in 0..8 {
        if heard(receiver, raw, &bytes[..length], 0) != Some((None, 0)) {
            return false;
        }
    }
    true
}

static RECEIVED: &[ReceiverStep] = &[
    Receives(DATA, P1, None, 0),
    Receives(DATA, P2, None, 0),
    Receives(DATA, P3, Some((BACK, ACKNOWLEDGMENT)), 18),
];

/// Frames of 0 to 7 bytes change nothing: behind them both ends do as if there had been none.
#[test]
fn short_frames(rt: HostRuntime) -> Result<(), Fail> {
    let mut sender = sender().ok_or("sender")?;
    assert_eq!(rt; tick(&mut sender, 0), Some((CONTROL, RTS)));
    for length in 0..8 {
        assert_eq!(rt;
            told(&mut sender, &CTS[..length], 0),
            Some(Waiting),
            "{length}"
        );
    }
    assert_eq!(rt; told(&mut sender, &CTS, 0), Some(Sending));

    let mut receiver = receiver(rt.alloc()).ok_or("receiver")?;
    assert!(rt; is_deaf(&mut receiver, CONTROL, &RTS) && !receiver.busy());
    assert_eq!(rt;
        heard(&mut receiver, CONTROL, &RTS, 0),
        Some((Some((BACK, CTS)), 0))
    );
    assert!(rt; is_deaf(&mut receiver, DATA, &P1));
    for step in RECEIVED {
        assert!(rt; receives(&mut receiver, step));
    }
    Ok(())
}
