//! Answers that are kept: what finds no room in 200 ms is refused as busy.
use crate::steps::{Step, controller, wrong_step};
use Step::{Gives, Hears, Ticks};
use j39_application::Answers;
use j39_frame::{Pgn, Stamp};
use std::alloc::Global;
use std::test::Fail;

/// It claims 128, and 0B asks for its VIN, and for the identification of its component.
static ASKED: &[Step] = &[
    Gives(
        0,
        Some("(0000000000.000000) can0 18EEFF80#0200000000000000"),
    ),
    Ticks(250_000),
    Hears("(0.300000) can0 18EA800B#ECFE00"),
    Hears("(0.300000) can0 18EA800B#EBFE00"),
];

/// The VIN goes to 0B, where one transfer at most is open.
static ANSWERED: &[Step] = &[
    Gives(
        300_000,
        Some("(0000000000.300000) can0 1CEC0B80#10120003FFECFE00"),
    ),
    Gives(499_999, None),
];

static REFUSED: &[Step] = &[
    Gives(
        500_000,
        Some("(0000000000.500000) can0 18E8FF80#03FFFFFF0BEBFE00"),
    ),
    Gives(500_000, None),
];

/// Whether both requests are taken in their order, the first is answered, and the second waits 200 ms and is refused then, once.
fn is_kept(alloc: Global) -> Result<Option<bool>, Fail> {
    let (Some(vin), Some(component)) = (Pgn::new(65_260), Pgn::new(65_259)) else {
        return Ok(None);
    };
    let mut node = controller(alloc, &[vin, component])?;
    let mut answers = Answers::new(alloc, 2)?;
    let asked = wrong_step(&mut node, ASKED);
    let (Some(begin), Some(soon), Some(late)) = (
        Stamp::new(300_000),
        Stamp::new(499_999),
        Stamp::new(500_000),
    ) else {
        return Ok(None);
    };
    let mut are_kept = true;
    for _time in 0..2 {
        are_kept = match answers.take_request(&mut node, begin) {
            Some(request) => are_kept && answers.answer(request, b"1FUJA6CV12LK12345*"),
            None => false,
        };
    }
    answers.turn(&mut node, begin);
    let left = answers.due_in();
    answers.turn(&mut node, soon);
    let answered = wrong_step(&mut node, ANSWERED);
    answers.turn(&mut node, late);
    let refused = wrong_step(&mut node, REFUSED);
    let is_done = answers.due_in().is_none();
    Ok(Some(
        asked.is_none()
            && are_kept
            && left == Some(200_000)
            && answered.is_none()
            && refused.is_none()
            && is_done,
    ))
}

#[test]
fn what_finds_no_room_is_told_busy(rt: HostRuntime) -> Result<(), Fail> {
    assert_eq!(rt; is_kept(rt.alloc())?, Some(true));
    Ok(())
}
