//! What goes to a NAME: to the address that it holds when its frame is taken, or nowhere, if it, or the controller, holds none for
//! 1,250 ms.
use crate::steps::{self, Step, controller, is_line};
use Post::{Asks, Does, Gives, HandsIn, IsDue, Sends, Settles};
use Step::{Again, Ends, EndsAsk, EndsTransfer, Hears, Ticks};
use j39_address::Name;
use j39_application::{Outbox, Settled, Token, Way};
use j39_frame::{Pgn, Stamp};
use j39_node::{AskEnding, Controller, Ending, Refused, TransferEnding};
use std::alloc::Global;
use std::test::Fail;

/// What is done with an outbox, and what it answers. Moments are microseconds.
enum Post {
    /// Its controller is told this, and answers so.
    Does(Step),
    /// At this moment it takes group 61184 with these bytes, priority 6, for this NAME: its number, or why not.
    Sends(u64, u64, &'static [u8], Result<u64, Refused>),
    /// At this moment it is to ask this NAME for group 65259: its number, or why not.
    Asks(u64, u64, Result<u64, Refused>),
    /// At this moment it gives the frame of this line, or none.
    Gives(u64, Option<&'static str>),
    /// It tells that the one of this number was handed in, this way, behind so many.
    HandsIn(u64, Way, u64),
    /// It tells this of one that was settled.
    Settles(Option<(u64, Settled)>),
    /// The first 1,250 ms are over in so many microseconds.
    IsDue(Option<u64>),
}

/// The controller of NAME 2 claims 128, and holds it then.
const CLAIMS: Post = Gives(
    0,
    Some("(0000000000.000000) can0 18EEFF80#0200000000000000"),
);

const HOLDS: Post = Does(Ticks(250_000));

/// NAME 5 claims 11.
const COMES: Post = Does(Hears("(0.300000) can0 18EEFF0B#0500000000000000"));

/// NAME 5 comes to 11 a microsecond before its time is over, moves to 12, and gets what is for it at both; also in packets.
static COMES_AND_MOVES: &[Post] = &[
    CLAIMS,
    HOLDS,
    Sends(300_000, 5, &[1, 2, 3], Ok(0)),
    Gives(300_000, None),
    IsDue(Some(1_250_000)),
    Gives(1_549_999, None),
    IsDue(Some(1)),
    Settles(None),
    Does(Hears("(1.550000) can0 18EEFF0B#0500000000000000")),
    Gives(1_550_000, Some("(0000000001.550000) can0 18EF0B80#010203")),
    HandsIn(0, Way::Frame, 0),
    IsDue(None),
    Does(Hears("(1.600000) can0 18EEFF0C#0500000000000000")),
    Sends(1_600_000, 5, &[4], Ok(1)),
    Sends(1_600_000, 5, &[1, 2, 3, 4, 5, 6, 7, 8, 9], Ok(2)),
    Gives(1_600_000, Some("(0000000001.600000) can0 18EF0C80#04")),
    HandsIn(1, Way::Frame, 1),
    Settles(None),
    Gives(
        1_600_000,
        Some("(0000000001.600000) can0 1CEC0C80#10090002FF00EF00"),
    ),
    HandsIn(2, Way::Transfer, 0),
    Gives(1_600_000, None),
];

/// NAME 5 moves between what is kept and taken, and between two takes: each frame goes where it is then. What the controller has due goes
/// first, and till then nothing is handed in, nor does the time of what is kept pass.
static MOVES_BETWEEN: &[Post] = &[
    CLAIMS,
    HOLDS,
    COMES,
    Sends(300_000, 5, &[1], Ok(0)),
    Sends(300_000, 5, &[2], Ok(1)),
    Asks(300_000, 5, Ok(2)),
    Does(Step::Sends(300_000, 255, &[9], Ok(0))),
    Does(Hears("(0.300001) can0 18EEFF0C#0500000000000000")),
    Gives(300_001, Some("(0000000000.300001) can0 18FEF180#09")),
    Settles(None),
    IsDue(Some(1_250_000)),
    Gives(300_002, Some("(0000000000.300002) can0 18EF0C80#01")),
    HandsIn(0, Way::Frame, 1),
    Settles(None),
    IsDue(Some(1_249_998)),
    Gives(300_002, Some("(0000000000.300002) can0 18EF0C80#02")),
    HandsIn(1, Way::Frame, 2),
    Does(Hears("(0.300003) can0 18EEFF0D#0500000000000000")),
    Gives(300_003, Some("(0000000000.300003) can0 18EA0D80#EBFE00")),
    HandsIn(2, Way::Frame, 3),
    Gives(300_003, None),
    IsDue(None),
];

/// NAME 5 leaves 11 behind the RTS of one message in packets, and in the midst of another to 12: both end, and nothing goes on.
static LEAVES_PACKETS: &[Post] = &[
    CLAIMS,
    HOLDS,
    COMES,
    Sends(300_000, 5, &[1, 2, 3, 4, 5, 6, 7, 8, 9], Ok(0)),
    Gives(
        300_000,
        Some("(0000000000.300000) can0 1CEC0B80#10090002FF00EF00"),
    ),
    HandsIn(0, Way::Transfer, 0),
    Does(Hears("(0.310000) can0 18EEFF0C#0500000000000000")),
    Does(EndsTransfer(Some((0, TransferEnding::Gone)))),
    Sends(310_000, 5, &[1, 2, 3, 4, 5, 6, 7, 8, 9], Ok(1)),
    Gives(
        310_000,
        Some("(0000000000.310000) can0 1CEC0C80#10090002FF00EF00"),
    ),
    HandsIn(1, Way::Transfer, 1),
    Does(Hears("(0.320000) can0 1CEC800C#110201FFFF00EF00")),
    Gives(
        320_000,
        Some("(0000000000.320000) can0 1CEB0C80#0101020304050607"),
    ),
    Does(Hears("(0.320000) can0 18EEFF0D#0500000000000000")),
    Gives(320_000, None),
    Does(EndsTransfer(Some((1, TransferEnding::Gone)))),
];

/// NAME 9 never comes: one box is full till that is told. A moment that goes back is no time.
static NEVER_COMES: &[Post] = &[
    CLAIMS,
    HOLDS,
    Sends(300_000, 9, &[1], Ok(0)),
    Sends(300_000, 9, &[2], Err(Refused::Full)),
    Gives(200_000, None),
    IsDue(Some(1_250_000)),
    Gives(1_449_999, None),
    IsDue(Some(1)),
    Gives(1_450_000, None),
    IsDue(None),
    Sends(1_450_000, 9, &[2], Err(Refused::Full)),
    Settles(Some((0, Settled::Gone))),
    Settles(None),
    Sends(1_450_000, 9, &[2], Ok(1)),
];

/// NAME 5 at 11 is asked twice: the second request waits till the first has ended, which NAME 5's answer does; its 1,250 ms count anew.
static IS_ASKED: &[Post] = &[
    CLAIMS,
    HOLDS,
    COMES,
    Asks(300_000, 5, Ok(0)),
    Asks(300_000, 5, Ok(1)),
    Gives(300_000, Some("(0000000000.300000) can0 18EA0B80#EBFE00")),
    HandsIn(0, Way::Frame, 0),
    Gives(1_000_000, None),
    Settles(None),
    IsDue(Some(1_250_000)),
    Does(Hears("(1.010000) can0 18FEEB0B#0102030405060708")),
    Does(EndsAsk(Some((0, AskEnding::Answered)))),
    Does(Ends(Some((0, Ending::Done)))),
    Gives(1_020_000, Some("(0000000001.020000) can0 18EA0B80#EBFE00")),
    HandsIn(1, Way::Frame, 1),
];

/// NAME 5 is at 11, and the controller's claim is won 250 ms after it went out: from then on it is handed in.
static COMES_EARLY: &[Post] = &[
    CLAIMS,
    Does(Hears("(0.100000) can0 18EEFF0B#0500000000000000")),
    Sends(100_000, 5, &[1, 2, 3], Ok(0)),
    Sends(100_000, 5, &[1, 2, 3, 4, 5, 6, 7, 8, 9], Ok(1)),
    Gives(100_000, None),
    IsDue(Some(1_250_000)),
    Gives(249_999, None),
    IsDue(Some(1_100_001)),
    Settles(None),
    Gives(250_000, Some("(0000000000.250000) can0 18EF0B80#010203")),
    HandsIn(0, Way::Frame, 0),
    Gives(
        250_000,
        Some("(0000000000.250000) can0 1CEC0B80#10090002FF00EF00"),
    ),
    HandsIn(1, Way::Transfer, 0),
    IsDue(None),
];

/// It claims anew, and what was handed in then waits for that as well: the 250 ms are over before the 1,250 ms.
static CLAIMS_ANEW: &[Post] = &[
    CLAIMS,
    HOLDS,
    COMES,
    Does(Again(1_000_000)),
    Asks(1_000_000, 5, Ok(0)),
    Gives(
        1_000_000,
        Some("(0000000001.000000) can0 18EEFF80#0200000000000000"),
    ),
    Gives(1_249_999, None),
    Settles(None),
    IsDue(Some(1_000_001)),
    Gives(1_250_000, Some("(0000000001.250000) can0 18EA0B80#EBFE00")),
    HandsIn(0, Way::Frame, 0),
];

/// The controller's address is lost: NAME 5 at 11 gets nothing, and after 1,250 ms that is told, once.
static LOSES: &[Post] = &[
    CLAIMS,
    Does(Hears("(0.100000) can0 18EEFF80#0000000000000000")),
    Does(Hears("(0.100000) can0 18EEFF0B#0500000000000000")),
    Sends(100_000, 5, &[1], Ok(0)),
    Gives(
        100_000,
        Some("(0000000000.100000) can0 18EEFFFE#0200000000000000"),
    ),
    Gives(100_000, None),
    Settles(None),
    Gives(1_349_999, None),
    IsDue(Some(1)),
    Settles(None),
    Gives(1_350_000, None),
    IsDue(None),
    Settles(Some((0, Settled::Refused(Refused::NoAddress)))),
    Settles(None),
];

/// Whether it does as the step says; `None` where the step isn't one.
fn does(outbox: &mut Outbox, node: &mut Controller, step: &Post) -> Option<bool> {
    Some(match step {
        Does(step) => steps::does(node, step)?,
        Sends(micros, name, bytes, wanted) => {
            let name = Name::new(*name);
            outbox.send(Stamp::new(*micros)?, name, 6, Pgn::new(61_184)?, bytes) == *wanted
        }
        Asks(micros, name, wanted) => {
            outbox.ask(Stamp::new(*micros)?, Name::new(*name), Pgn::new(65_259)?) == *wanted
        }
        Gives(micros, wanted) => {
            is_line(outbox.take_frame(node, Stamp::new(*micros)?), *wanted)?
        }
        HandsIn(number, way, token) => {
            let settled = Settled::HandedIn(Token::new(*way, *token));
            outbox.take_settled() == Some((*number, settled))
        }
        Settles(wanted) => outbox.take_settled() == *wanted,
        IsDue(wanted) => outbox.due_in() == *wanted,
    })
}

/// The place of the first step that an outbox of so many boxes, over a new controller, doesn't take as it says.
fn wrong_post(alloc: Global, boxes: u8, steps: &[Post]) -> Result<Option<usize>, Fail> {
    let mut node = controller(alloc, &[])?;
    let mut outbox = Outbox::new(alloc, boxes)?;
    for (place, step) in steps.iter().enumerate() {
        if does(&mut outbox, &mut node, step) != Some(true) {
            return Ok(Some(place));
        }
    }
    Ok(None)
}

#[test]
fn it_goes_where_its_name_is(rt: HostRuntime) -> Result<(), Fail> {
    assert_eq!(rt; wrong_post(rt.alloc(), 2, COMES_AND_MOVES)?, None);
    assert_eq!(rt; wrong_post(rt.alloc(), 3, MOVES_BETWEEN)?, None);
    Ok(())
}

#[test]
fn in_packets_it_ends_where_its_name_leaves(rt: HostRuntime) -> Result<(), Fail> {
    assert_eq!(rt; wrong_post(rt.alloc(), 1, LEAVES_PACKETS)?, None);
    Ok(())
}

#[test]
fn it_is_gone_after_a_while(rt: HostRuntime) -> Result<(), Fail> {
    assert_eq!(rt; wrong_post(rt.alloc(), 1, NEVER_COMES)?, None);
    Ok(())
}

#[test]
fn a_request_waits_for_room(rt: HostRuntime) -> Result<(), Fail> {
    assert_eq!(rt; wrong_post(rt.alloc(), 2, IS_ASKED)?, None);
    Ok(())
}

#[test]
fn it_waits_for_the_own_address(rt: HostRuntime) -> Result<(), Fail> {
    assert_eq!(rt; wrong_post(rt.alloc(), 2, COMES_EARLY)?, None);
    assert_eq!(rt; wrong_post(rt.alloc(), 1, CLAIMS_ANEW)?, None);
    Ok(())
}

#[test]
fn it_is_refused_without_own_address(rt: HostRuntime) -> Result<(), Fail> {
    assert_eq!(rt; wrong_post(rt.alloc(), 1, LOSES)?, None);
    Ok(())
}

/// What can never be sent isn't kept: a priority of 8, or 1,786 bytes.
fn refuses_what_never_goes(alloc: Global) -> Result<Option<bool>, Fail> {
    let mut outbox = Outbox::new(alloc, 1)?;
    let (Some(now), Some(group)) = (Stamp::new(0), Pgn::new(61_184)) else {
        return Ok(None);
    };
    let bytes = [0; 1_786];
    let urgent = outbox.send(now, Name::new(5), 8, group, b"");
    let long = outbox.send(now, Name::new(5), 7, group, &bytes);
    let longest = outbox.send(now, Name::new(5), 7, group, &bytes[..1_785]);
    Ok(Some(urgent == Err(Refused::BadValue) && long == Err(Refused::BadValue) && longest == Ok(0)))
}

#[test]
fn what_never_goes_is_refused(rt: HostRuntime) -> Result<(), Fail> {
    assert_eq!(rt; refuses_what_never_goes(rt.alloc())?, Some(true));
    Ok(())
}
