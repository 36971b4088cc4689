//! Several sessions of packets to one address at once, in two boxes.
use crate::steps::frame;
use j39_frame::Stamp;
use j39_sessions::Sessions;
use std::test::Fail;

/// What is done with them, and what they answer.
enum Step {
    /// The frame of this line is heard, which makes a message of this source whole, or none.
    Hears(&'static str, Option<u8>),
    /// Time passes till this moment.
    Ticks(u64),
    /// First of all this is said to this address, as it was sent.
    Says(u8, [u8; 8]),
    SaysNothing,
    /// The oldest message that waits is of this source, with these bytes.
    Has(u8, &'static [u8]),
    HasNothing,
    /// The oldest is released, and one waited.
    Releases(bool),
}

use Step::{Has, HasNothing, Hears, Releases, Says, SaysNothing, Ticks};

/// To an RTS of three packets of group 65260, to one for which no box is free, and to the last packet.
const CLEAR: [u8; 8] = [17, 3, 1, 255, 255, 0xEC, 0xFE, 0];

const NO_ROOM: [u8; 8] = [255, 2, 255, 255, 255, 0xEC, 0xFE, 0];

const DONE: [u8; 8] = [19, 17, 0, 3, 255, 0xEC, 0xFE, 0];

const TIMED_OUT: [u8; 8] = [255, 3, 255, 255, 255, 0xEC, 0xFE, 0];

/// Addresses 11, 12 and 13 send 17 bytes to address 128 at once.
static STEPS: &[Step] = &[
    Hears("(0.000000) can0 1CEC800B#10110003FFECFE00", None),
    Hears("(0.001000) can0 1CEC800C#10110003FFECFE00", None),
    Hears("(0.002000) can0 1CEC800D#10110003FFECFE00", None),
    Says(11, CLEAR),
    Says(12, CLEAR),
    Says(13, NO_ROOM),
    SaysNothing,
    Hears("(0.010000) can0 1CEB800B#0141424344454647", None),
    Hears("(0.011000) can0 1CEB800C#0161626364656667", None),
    // A packet of who has no session, and one that came before.
    Hears("(0.012000) can0 1CEB800D#0131323334353637", None),
    Hears("(0.013000) can0 1CEB800C#0171727374757677", None),
    Hears("(0.020000) can0 1CEB800C#02686970717273FF", None),
    Hears("(0.021000) can0 1CEB800B#0248494A4B4C4D4E", None),
    Hears("(0.030000) can0 1CEB800B#034F5051FFFFFFFF", Some(11)),
    Says(11, DONE),
    Has(11, b"ABCDEFGHIJKLMNOPQ"),
    // Both boxes are in use still: by a message that waits, and by an open session.
    Hears("(0.040000) can0 1CEC800D#10110003FFECFE00", None),
    Says(13, NO_ROOM),
    Releases(true),
    HasNothing,
    Hears("(0.050000) can0 1CEC800D#10110003FFECFE00", None),
    Says(13, CLEAR),
    Hears("(0.060000) can0 1CEB800D#0131323334353637", None),
    // An RTS in place of an open session of its source begins anew in its box.
    Hears("(0.070000) can0 1CEC800C#10110003FFECFE00", None),
    Says(12, CLEAR),
    Hears("(0.080000) can0 1CEB800D#0238393031323334", None),
    Hears("(0.090000) can0 1CEB800D#03353637FFFFFFFF", Some(13)),
    Says(13, DONE),
    // Who is silent asks for a third CTS in vain.
    Ticks(1_400_000),
    Says(12, CLEAR),
    Ticks(2_700_000),
    Says(12, CLEAR),
    Ticks(4_000_000),
    Says(12, TIMED_OUT),
    SaysNothing,
    Has(13, b"12345678901234567"),
    Releases(true),
    Releases(false),
];

/// Of three packets two are granted at once, and then the third, whatever the RTS takes at once.
static TWO_AT_ONCE: &[Step] = &[
    Hears("(0.000000) can0 1CEC800B#10110003FFECFE00", None),
    Says(11, [17, 2, 1, 255, 255, 0xEC, 0xFE, 0]),
    Hears("(0.010000) can0 1CEB800B#0141424344454647", None),
    SaysNothing,
    Hears("(0.020000) can0 1CEB800B#0248494A4B4C4D4E", None),
    Says(11, [17, 1, 3, 255, 255, 0xEC, 0xFE, 0]),
    Hears("(0.030000) can0 1CEB800B#034F5051FFFFFFFF", Some(11)),
    Says(11, DONE),
    // Who takes one at once is granted one.
    Hears("(0.100000) can0 1CEC800C#1011000301ECFE00", None),
    Says(12, [17, 1, 1, 255, 255, 0xEC, 0xFE, 0]),
];

/// Whether the oldest message that waits is of this source, with these bytes.
fn has(sessions: &Sessions, source: u8, bytes: &[u8]) -> bool {
    match sessions.message() {
        Some(message) => {
            let is_payload = message.payload == bytes;
            is_payload && message.source == source
        }
        None => false,
    }
}

/// Whether they answer so.
fn is_step(sessions: &mut Sessions, step: &Step) -> Option<bool> {
    match step {
        Hears(line, made) => {
            let heard = frame(line)?;
            let whole = sessions.hear(&heard, heard.stamp, None);
            Some(match (whole, made) {
                (Some((source, group)), Some(expected)) => source == *expected && group == 65_260,
                (None, None) => true,
                (_, _) => false,
            })
        }
        Ticks(now) => {
            sessions.tick(Stamp::new(*now)?);
            Some(true)
        }
        Says(to, bytes) => {
            let (address, said) = sessions.first_reply()?;
            sessions.drop_reply();
            Some(address == *to && said == *bytes)
        }
        SaysNothing => Some(!sessions.has_reply()),
        Has(source, bytes) => Some(has(sessions, *source, bytes)),
        HasNothing => Some(sessions.message().is_none()),
        Releases(waited) => Some(sessions.release() == *waited),
    }
}

/// The place of the first step that isn't so.
fn wrong(sessions: &mut Sessions, steps: &[Step]) -> Option<usize> {
    for (place, step) in steps.iter().enumerate() {
        if is_step(sessions, step) != Some(true) {
            return Some(place);
        }
    }
    None
}

#[test]
fn several_are_received_at_once(rt: HostRuntime) -> Result<(), Fail> {
    let mut sessions = Sessions::new(rt.alloc(), 128, 16, 2)?.ok_or("sessions")?;
    assert_eq!(rt; wrong(&mut sessions, STEPS), None);
    Ok(())
}

#[test]
fn no_more_are_granted_at_once(rt: HostRuntime) -> Result<(), Fail> {
    let mut sessions = Sessions::new(rt.alloc(), 128, 2, 2)?.ok_or("sessions")?;
    assert_eq!(rt; wrong(&mut sessions, TWO_AT_ONCE), None);
    Ok(())
}

#[test]
fn with_no_box_each_is_refused(rt: HostRuntime) -> Result<(), Fail> {
    let mut sessions = Sessions::new(rt.alloc(), 128, 16, 0)?.ok_or("sessions")?;
    let asks = frame("(0.000000) can0 1CEC800B#10110003FFECFE00").ok_or("frame")?;
    let made = sessions.hear(&asks, asks.stamp, None);
    assert!(rt; made.is_none());
    assert!(rt; sessions.first_reply() == Some((11, NO_ROOM)));
    Ok(())
}
