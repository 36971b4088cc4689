//! A controller: what it answers, call by call.
use crate::steps::{Step, controller, wrong_step};
use Status::{Cannot, Claiming, Holding, Idle};
use Step::{
    Broadcasts, Ends, EndsBroadcast, Gives, HandsOut, HandsOutNone, Hears, Holder, Is, IsAsked,
    IsAskedNothing, IsDue, Missed, Sends, Tells, WouldGive,
};
use j39_address::Status;
use j39_frame::{Pgn, Stamp};
use j39_node::{Answer, Controller, Ending, News, Refused};
use j39_transport::{Assembler, Fed};
use std::test::Fail;

/// NAME 2 at address 128, whose program serves group 65259.
static STEPS: &[Step] = &[
    Is(Idle),
    IsDue(Some(0)),
    WouldGive(
        90,
        Some("(0000000000.000090) can0 18EEFF80#0200000000000000"),
    ),
    Gives(
        100,
        Some("(0000000000.000100) can0 18EEFF80#0200000000000000"),
    ),
    Is(Claiming(128)),
    IsDue(Some(250_100)),
    Holder(128, Some(2)),
    Gives(250_099, None),
    Sends(250_099, 255, &[7], Err(Refused::NoAddress)),
    Sends(250_100, 255, &[7], Ok(0)),
    Is(Holding(128)),
    IsDue(Some(250_100)),
    Sends(250_100, 128, &[7], Err(Refused::BadValue)),
    WouldGive(250_150, Some("(0000000000.250150) can0 18FEF180#07")),
    Gives(250_200, Some("(0000000000.250200) can0 18FEF180#07")),
    WouldGive(250_201, None),
    IsDue(None),
    Ends(Some((0, Ending::Done))),
    Ends(None),
    // A larger NAME's claim of its address, and a request for claims from the null address, are answered by its claim.
    Hears("(0.260000) can0 18EEFF80#0300000000000000"),
    Gives(
        260_001,
        Some("(0000000000.260001) can0 18EEFF80#0200000000000000"),
    ),
    Hears("(0.260002) can0 18EAFFFE#00EE00"),
    Gives(
        260_003,
        Some("(0000000000.260003) can0 18EEFF80#0200000000000000"),
    ),
    // Another sends from its address, which is answered by its claim, and not again for five seconds.
    Tells(None),
    Hears("(0.270000) can0 18FEEE80#11"),
    Tells(Some(News::AnotherAtAddress)),
    Tells(None),
    HandsOut(128, 6, 65_262, &[0x11]),
    Gives(
        270_001,
        Some("(0000000000.270001) can0 18EEFF80#0200000000000000"),
    ),
    Hears("(0.280000) can0 18FEEE80#12"),
    Tells(Some(News::AnotherAtAddress)),
    HandsOut(128, 6, 65_262, &[0x12]),
    Gives(280_001, None),
    // To it, to all, and to another.
    Hears("(0.290000) can0 0C00800B#0102"),
    Hears("(0.290001) can0 18FEEE0B#11"),
    Hears("(0.290002) can0 0C00810B#0304"),
    HandsOut(11, 3, 0, &[1, 2]),
    HandsOut(11, 6, 65_262, &[0x11]),
    HandsOutNone,
    // A request that it serves, one that it doesn't, and one of each to all.
    Hears("(0.295000) can0 18EA800B#EBFE00"),
    Hears("(0.295000) can0 18EA800B#ECFE00"),
    Hears("(0.295000) can0 18EAFF0B#EBFE00"),
    Hears("(0.295000) can0 18EAFF0B#ECFE00"),
    Gives(
        295_001,
        Some("(0000000000.295001) can0 18E8FF80#01FFFFFF0BECFE00"),
    ),
    Gives(295_001, None),
    IsAsked(11, 65_259, 295_002, Answer::Denied, true),
    IsAsked(11, 65_259, 295_002, Answer::Ack, false),
    IsAskedNothing,
    Gives(
        295_003,
        Some("(0000000000.295003) can0 18E8FF80#02FFFFFF0BEBFE00"),
    ),
    // A message in packets, 50 ms apart: claims and single frames go before them.
    Broadcasts(296_000, &[1, 2, 3, 4, 5, 6, 7, 8], Err(Refused::BadValue)),
    Broadcasts(296_000, &[1; 1_786], Err(Refused::BadValue)),
    Broadcasts(296_000, &[1, 2, 3, 4, 5, 6, 7, 8, 9], Ok(0)),
    Broadcasts(296_000, &[1, 2, 3, 4, 5, 6, 7, 8, 9], Err(Refused::Full)),
    IsDue(Some(296_000)),
    EndsBroadcast(None),
    WouldGive(
        296_000,
        Some("(0000000000.296000) can0 1CECFF80#20090002FFCAFE00"),
    ),
    Gives(
        296_001,
        Some("(0000000000.296001) can0 1CECFF80#20090002FFCAFE00"),
    ),
    IsDue(Some(346_001)),
    WouldGive(346_000, None),
    Gives(346_000, None),
    IsDue(Some(346_001)),
    Sends(346_000, 255, &[7], Ok(1)),
    IsDue(Some(346_000)),
    Gives(350_000, Some("(0000000000.350000) can0 18FEF180#07")),
    IsDue(Some(350_000)),
    WouldGive(
        350_000,
        Some("(0000000000.350000) can0 1CEBFF80#0101020304050607"),
    ),
    Gives(
        350_000,
        Some("(0000000000.350000) can0 1CEBFF80#0101020304050607"),
    ),
    Ends(Some((1, Ending::Done))),
    EndsBroadcast(None),
    Gives(399_999, None),
    Gives(
        400_000,
        Some("(0000000000.400000) can0 1CEBFF80#020809FFFFFFFFFF"),
    ),
    IsDue(None),
    Broadcasts(600_000, &[1, 2, 3, 4, 5, 6, 7, 8, 9], Err(Refused::Full)),
    EndsBroadcast(Some((0, Ending::Done))),
    EndsBroadcast(None),
    // A clock that is set back is no time; a smaller NAME takes the address.
    Broadcasts(700_000, &[0; 1_785], Ok(1)),
    Gives(
        700_000,
        Some("(0000000000.700000) can0 1CECFF80#20F906FFFFCAFE00"),
    ),
    IsDue(Some(750_000)),
    Sends(0, 255, &[1, 2, 3, 4, 5, 6, 7, 8, 9], Err(Refused::BadValue)),
    IsDue(Some(50_000)),
    Sends(0, 0, &[], Ok(2)),
    EndsBroadcast(None),
    Hears("(0.300001) can0 18EEFF80#0100000000000000"),
    Is(Cannot),
    Holder(128, Some(1)),
    Gives(
        300_002,
        Some("(0000000000.300002) can0 18EEFFFE#0200000000000000"),
    ),
    Gives(300_003, None),
    Tells(Some(News::AddressLost)),
    Tells(None),
    Ends(Some((2, Ending::Withdrawn))),
    Ends(None),
    EndsBroadcast(Some((1, Ending::Withdrawn))),
    EndsBroadcast(None),
    Broadcasts(
        300_004,
        &[1, 2, 3, 4, 5, 6, 7, 8, 9],
        Err(Refused::NoAddress),
    ),
    Sends(300_004, 255, &[7], Err(Refused::NoAddress)),
    Missed(0),
];

/// Nobody reads: of 18 messages 16 are kept, and two missed.
static UNREAD: &[Step] = &[
    Hears("(0.100000) can0 18FEEE0B#01"),
    Hears("(0.100000) can0 18FEEE0B#02"),
    Hears("(0.100000) can0 18FEEE0B#03"),
    Hears("(0.100000) can0 18FEEE0B#04"),
    Hears("(0.100000) can0 18FEEE0B#05"),
    Hears("(0.100000) can0 18FEEE0B#06"),
    Hears("(0.100000) can0 18FEEE0B#07"),
    Hears("(0.100000) can0 18FEEE0B#08"),
    Hears("(0.100000) can0 18FEEE0B#09"),
    Hears("(0.100000) can0 18FEEE0B#0A"),
    Hears("(0.100000) can0 18FEEE0B#0B"),
    Hears("(0.100000) can0 18FEEE0B#0C"),
    Hears("(0.100000) can0 18FEEE0B#0D"),
    Hears("(0.100000) can0 18FEEE0B#0E"),
    Hears("(0.100000) can0 18FEEE0B#0F"),
    Hears("(0.100000) can0 18FEEE0B#10"),
    Tells(None),
    Hears("(0.100000) can0 18FEEE0B#11"),
    Hears("(0.100000) can0 18FEEE0B#12"),
    Missed(2),
    Tells(Some(News::MessagesMissed)),
    HandsOut(11, 6, 65_262, &[1]),
    HandsOut(11, 6, 65_262, &[2]),
    Hears("(0.100000) can0 18FEEE0B#13"),
    Missed(2),
];

/// All ask for its claim, and one for what it doesn't serve, whenever it could send: its message goes third.
static FLOOD: &[Step] = &[
    Gives(
        0,
        Some("(0000000000.000000) can0 18EEFF80#0200000000000000"),
    ),
    Hears("(0.250000) can0 18EAFF0B#00EE00"),
    Sends(250_001, 255, &[7], Ok(0)),
    Gives(
        250_001,
        Some("(0000000000.250001) can0 18EEFF80#0200000000000000"),
    ),
    Hears("(0.250002) can0 18EAFF0C#00EE00"),
    Hears("(0.250002) can0 18EA800B#ECFE00"),
    WouldGive(250_003, Some("(0000000000.250003) can0 18FEF180#07")),
    Gives(250_003, Some("(0000000000.250003) can0 18FEF180#07")),
    Hears("(0.250004) can0 18EAFF0D#00EE00"),
    Sends(250_005, 255, &[8], Ok(1)),
    Gives(
        250_005,
        Some("(0000000000.250005) can0 18EEFF80#0200000000000000"),
    ),
    Gives(
        250_006,
        Some("(0000000000.250006) can0 18E8FF80#01FFFFFF0BECFE00"),
    ),
    Hears("(0.250006) can0 18EAFF0E#00EE00"),
    Gives(250_007, Some("(0000000000.250007) can0 18FEF180#08")),
    Gives(
        250_008,
        Some("(0000000000.250008) can0 18EEFF80#0200000000000000"),
    ),
    Gives(250_009, None),
];

#[test]
fn node(rt: HostRuntime) -> Result<(), Fail> {
    let served = [Pgn::new(65_259).ok_or("group")?];
    for steps in [STEPS, UNREAD, FLOOD] {
        let mut node = controller(rt.alloc(), &served)?;
        assert_eq!(rt; wrong_step(&mut node, steps), None);
    }
    Ok(())
}

/// Broadcasts of so many bytes, each handed in when the last is over, and the moment of the last packet.
static LONG: &[(usize, u64)] = &[
    (9, 350_000),
    (14, 500_000),
    (15, 700_000),
    (1_785, 13_500_000),
];

/// The moment of the last packet of these bytes, where an assembler that hears each frame when it is due puts them together.
fn put_together(
    node: &mut Controller,
    assembler: &mut Assembler,
    now: u64,
    bytes: &[u8],
) -> Option<u64> {
    let group = Pgn::new(65_226)?;
    node.broadcast(Stamp::new(now)?, group, bytes).ok()?;
    for _frame in 0..256 {
        let due = node.next_due()?;
        let frame = node.take_frame(due)?;
        if let Fed::Whole(message) = assembler.feed(&frame).ok()? {
            let is_it = message.source == 128 && message.payload == bytes;
            return if is_it { Some(due.micros()) } else { None };
        }
    }
    None
}

#[test]
fn broadcasts_of_a_node(rt: HostRuntime) -> Result<(), Fail> {
    let mut node = controller(rt.alloc(), &[])?;
    let mut assembler = Assembler::new(rt.alloc());
    let _claim = node.take_frame(Stamp::new(0).ok_or("moment")?);
    let bytes: [u8; 1_785] = std::array::from_fn(|place| (place % 251) as u8);
    let mut now = 250_000;
    for (token, (size, last)) in LONG.iter().enumerate() {
        let payload = bytes.get(..*size).ok_or("size")?;
        let met = put_together(&mut node, &mut assembler, now, payload);
        assert_eq!(rt; met, Some(*last));
        let ended = Some((token as u64, Ending::Done));
        assert_eq!(rt; node.take_broadcast_ended(), ended);
        now = *last;
    }
    Ok(())
}
