//! The engine of `engine` at work: it claims, sends its speed, hears another's, answers two requests and refuses two.
use crate::engine::{Engine, turn};
use crate::steps::{frame, is_line};
use j39_address::Name;
use j39_frame::{Pgn, Stamp};
use std::test::Fail;

/// What it hears, at which moment in microseconds, and the frame that goes out.
type Step = (Option<&'static str>, u64, Option<&'static str>);

const STEPS: &[Step] = &[
    (
        None,
        0,
        Some("(0000000000.000000) can0 18EEFF00#0200000000000000"),
    ),
    (
        None,
        250_000,
        Some("(0000000000.250000) can0 0CF00400#FFFFFFE02EFFFFFF"),
    ),
    // Its VIN is wanted by 0B, then the identification of its component, and its hours, which it doesn't serve.
    (
        Some("(0.300000) can0 18EA000B#ECFE00"),
        300_000,
        Some("(0000000000.300000) can0 1CEC0B00#10120003FFECFE00"),
    ),
    (
        Some("(0.310000) can0 18EA000B#EBFE00"),
        310_000,
        Some("(0000000000.310000) can0 18E8FF00#02FFFFFF0BEBFE00"),
    ),
    (
        Some("(0.320000) can0 18EA000B#E5FE00"),
        320_000,
        Some("(0000000000.320000) can0 18E8FF00#01FFFFFF0BE5FE00"),
    ),
    // 0C wants its VIN while that goes to 0B.
    (
        Some("(0.325000) can0 18EA000C#ECFE00"),
        325_000,
        Some("(0000000000.325000) can0 18E8FF00#03FFFFFF0CECFE00"),
    ),
    // Another engine turns with 1,000 rpm.
    (
        Some("(0.330000) can0 0CF00401#FFFFFF401FFFFFFF"),
        330_000,
        None,
    ),
    // 0B clears three packets, and acknowledges them.
    (
        Some("(0.340000) can0 1CEC000B#110301FFFFECFE00"),
        340_000,
        Some("(0000000000.340000) can0 1CEB0B00#013146554A413643"),
    ),
    (
        None,
        341_000,
        Some("(0000000000.341000) can0 1CEB0B00#025631324C4B3132"),
    ),
    (
        None,
        342_000,
        Some("(0000000000.342000) can0 1CEB0B00#033334352AFFFFFF"),
    ),
    (
        Some("(0.345000) can0 1CEC000B#13120003FFECFE00"),
        345_000,
        None,
    ),
    // All are asked for their VIN.
    (
        Some("(0.346000) can0 18EAFF0B#ECFE00"),
        346_000,
        Some("(0000000000.346000) can0 1CECFF00#20120003FFECFE00"),
    ),
    (
        None,
        350_000,
        Some("(0000000000.350000) can0 0CF00400#FFFFFFE02EFFFFFF"),
    ),
    // What comes in packets makes room for the next.
    (
        Some("(0.351000) can0 1CEC000B#10090002FF00EF00"),
        351_000,
        Some("(0000000000.351000) can0 1CEC0B00#110201FFFF00EF00"),
    ),
    (
        Some("(0.352000) can0 1CEB000B#0101020304050607"),
        352_000,
        None,
    ),
    (
        Some("(0.353000) can0 1CEB000B#020809FFFFFFFFFF"),
        353_000,
        Some("(0000000000.353000) can0 1CEC0B00#13090002FF00EF00"),
    ),
    (
        Some("(0.354000) can0 1CEC000B#10090002FF00EF00"),
        354_000,
        Some("(0000000000.354000) can0 1CEC0B00#110201FFFF00EF00"),
    ),
    // A smaller NAME has its address: when it was told what ended by that, it moves.
    (
        Some("(0.355000) can0 18EEFF00#0100000000000000"),
        355_000,
        Some("(0000000000.355000) can0 18EEFF80#0200000000000000"),
    ),
];

/// Whether it does as the step says; `None` where the step isn't one.
fn does(engine: &mut Engine, step: &Step) -> Option<bool> {
    let (heard, micros, wanted) = step;
    let now = Stamp::new(*micros)?;
    let given = match heard {
        Some(line) => turn(engine, Some(&frame(line)?), now),
        None => turn(engine, None, now),
    };
    is_line(given, *wanted)
}

#[test]
fn an_engine_answers(rt: HostRuntime) -> Result<(), Fail> {
    let served = [
        Pgn::new(65_260).ok_or("group")?,
        Pgn::new(65_259).ok_or("group")?,
    ];
    let mut engine = Engine::new(rt.alloc(), Name::new(2), &served)?.ok_or("engine")?;
    let mut wrong = None;
    for (place, step) in STEPS.iter().enumerate() {
        if wrong.is_none() && does(&mut engine, step) != Some(true) {
            wrong = Some(place);
        }
    }
    assert_eq!(rt; wrong, None);
    assert_eq!(rt; engine.other_speed(), Some(1_000_000));
    Ok(())
}
