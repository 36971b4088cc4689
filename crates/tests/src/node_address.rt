//! A controller's address over time: claimed anew, lost, doubled; and the newest value (`j39_node`).
use crate::setup::setup;
use crate::steps::{Step, made, wrong_step};
use Status::{Cannot, Holding, Idle};
use Step::{
    AddressOf, Again, Asks, Ends, Gives, Hears, Holder, Is, IsDue, Renews, Sends, Tells, Ticks,
    Withdraws,
};
use j39_address::Status;
use j39_node::{Ending, News, Setup};
use std::alloc::Global;
use std::test::Fail;

/// The address that it claims.
const OWN: u8 = 128;

/// Its address is held at 250 ms.
static HOLDS: &[Step] = &[
    Gives(
        0,
        Some("(0000000000.000000) can0 18EEFF80#0200000000000000"),
    ),
    Ticks(250_000),
];

/// The place of the first wrong step after these; 'cannot claim' waits 9 ms.
fn wrong_of(alloc: Global, steps: &[Step]) -> Result<Option<usize>, Fail> {
    let wanted = Setup {
        delay: 15,
        ..setup(2, OWN, &[])
    };
    let mut node = made(alloc, &wanted)?;
    if wrong_step(&mut node, HOLDS).is_some() {
        return Ok(Some(1_000));
    }
    Ok(wrong_step(&mut node, steps))
}

/// 50 values, each in place of the one before.
static NEWEST: &[Step] = &[
    Renews(&[0], None),
    Sends(300_000, 255, &[0], Ok(0)),
    Renews(&[1], Some(0)),
    Renews(&[2], Some(0)),
    Renews(&[3], Some(0)),
    Renews(&[4], Some(0)),
    Renews(&[5], Some(0)),
    Renews(&[6], Some(0)),
    Renews(&[7], Some(0)),
    Renews(&[8], Some(0)),
    Renews(&[9], Some(0)),
    Renews(&[10], Some(0)),
    Renews(&[11], Some(0)),
    Renews(&[12], Some(0)),
    Renews(&[13], Some(0)),
    Renews(&[14], Some(0)),
    Renews(&[15], Some(0)),
    Renews(&[16], Some(0)),
    Renews(&[17], Some(0)),
    Renews(&[18], Some(0)),
    Renews(&[19], Some(0)),
    Renews(&[20], Some(0)),
    Renews(&[21], Some(0)),
    Renews(&[22], Some(0)),
    Renews(&[23], Some(0)),
    Renews(&[24], Some(0)),
    Renews(&[25], Some(0)),
    Renews(&[26], Some(0)),
    Renews(&[27], Some(0)),
    Renews(&[28], Some(0)),
    Renews(&[29], Some(0)),
    Renews(&[30], Some(0)),
    Renews(&[31], Some(0)),
    Renews(&[32], Some(0)),
    Renews(&[33], Some(0)),
    Renews(&[34], Some(0)),
    Renews(&[35], Some(0)),
    Renews(&[36], Some(0)),
    Renews(&[37], Some(0)),
    Renews(&[38], Some(0)),
    Renews(&[39], Some(0)),
    Renews(&[40], Some(0)),
    Renews(&[41], Some(0)),
    Renews(&[42], Some(0)),
    Renews(&[43], Some(0)),
    Renews(&[44], Some(0)),
    Renews(&[45], Some(0)),
    Renews(&[46], Some(0)),
    Renews(&[47], Some(0)),
    Renews(&[48], Some(0)),
    Renews(&[49], Some(0)),
    Gives(1_300_000, Some("(0000000001.300000) can0 18FEF180#31")),
    Gives(1_300_000, None),
    Ends(Some((0, Ending::Done))),
    Ends(None),
];

/// Of two that wait alike the last gets the newest value: the older one goes before it.
static LAST: &[Step] = &[
    Sends(300_000, 255, &[1], Ok(0)),
    Sends(300_000, 255, &[2], Ok(1)),
    Renews(&[3], Some(1)),
    Gives(300_000, Some("(0000000000.300000) can0 18FEF180#01")),
    Gives(300_000, Some("(0000000000.300000) can0 18FEF180#03")),
    Gives(300_000, None),
];

/// Of four that wait, the last but one asks.
static WITHDRAWN: &[Step] = &[
    Sends(300_000, 255, &[0], Ok(0)),
    Sends(300_000, 255, &[1], Ok(1)),
    Asks(300_000, 65_265, 0x0B, Ok(2)),
    Sends(300_000, 255, &[3], Ok(3)),
    Withdraws(1, true),
    Withdraws(1, false),
    Withdraws(2, false),
    Withdraws(4, false),
    Gives(300_000, Some("(0000000000.300000) can0 18FEF180#00")),
    Withdraws(0, false),
    Gives(300_000, Some("(0000000000.300000) can0 18EA0B80#F1FE00")),
    Withdraws(3, true),
    Gives(300_000, None),
    Ends(Some((0, Ending::Done))),
    Ends(Some((1, Ending::Withdrawn))),
    Ends(Some((2, Ending::Done))),
    Ends(Some((3, Ending::Withdrawn))),
    Ends(None),
];

static ANEW: &[Step] = &[
    Renews(&[7], None),
    Sends(300_000, 255, &[7], Ok(0)),
    Again(300_000),
    Is(Idle),
    Renews(&[8], Some(0)),
    Gives(
        400_000,
        Some("(0000000000.400000) can0 18EEFF80#0200000000000000"),
    ),
    Gives(649_999, None),
    Gives(650_000, Some("(0000000000.650000) can0 18FEF180#08")),
    Is(Holding(OWN)),
];

static LOST: &[Step] = &[
    Hears("(0000000000.300000) can0 18EEFF80#0100000000000000"),
    Is(Cannot),
    IsDue(Some(309_000)),
    Gives(308_999, None),
    Gives(
        309_000,
        Some("(0000000000.309000) can0 18EEFFFE#0200000000000000"),
    ),
    Gives(309_000, None),
];

static DOUBLED: &[Step] = &[
    Hears("(0000000000.300000) can0 18EEFF33#0200000000000000"),
    Tells(Some(News::NameDoubled(0x33))),
    Tells(None),
    AddressOf(2, Some(OWN)),
    Holder(0x33, None),
    Is(Holding(OWN)),
    Gives(300_000, None),
];

#[test]
fn the_newest_value_goes(rt: HostRuntime) -> Result<(), Fail> {
    assert_eq!(rt; wrong_of(rt.alloc(), NEWEST)?, None);
    Ok(())
}

#[test]
fn the_last_that_waits_is_renewed(rt: HostRuntime) -> Result<(), Fail> {
    assert_eq!(rt; wrong_of(rt.alloc(), LAST)?, None);
    Ok(())
}

#[test]
fn what_waits_is_withdrawn(rt: HostRuntime) -> Result<(), Fail> {
    assert_eq!(rt; wrong_of(rt.alloc(), WITHDRAWN)?, None);
    Ok(())
}

#[test]
fn claims_anew(rt: HostRuntime) -> Result<(), Fail> {
    assert_eq!(rt; wrong_of(rt.alloc(), ANEW)?, None);
    Ok(())
}

#[test]
fn cannot_claim_waits(rt: HostRuntime) -> Result<(), Fail> {
    assert_eq!(rt; wrong_of(rt.alloc(), LOST)?, None);
    Ok(())
}

#[test]
fn another_of_its_name(rt: HostRuntime) -> Result<(), Fail> {
    assert_eq!(rt; wrong_of(rt.alloc(), DOUBLED)?, None);
    Ok(())
}
