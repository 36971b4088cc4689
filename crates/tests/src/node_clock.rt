//! A controller's time is that of its calls: woken each so many milliseconds, it hears frames whose stamps are older, and holds its
//! address and spaces its packets all the same. Two that hold one address, since a claim was missed, don't both keep it.
use crate::setup::setup;
use crate::steps::{controller, made};
use j39_address::Status;
use j39_frame::{Frame, GLOBAL_ADDRESS, Id, Pgn, Stamp};
use j39_node::{Controller, News};
use std::alloc::Global;
use std::test::Fail;

const OWN: u8 = 0x80;

/// How often it is woken, and how long it is after another's frame that the next comes, in microseconds.
const PERIODS: [u64; 5] = [1_000, 10_000, 20_000, 50_000, 80_000];

const SPACING: u64 = 2_500;

/// When its claim was taken, when its address was held, and the least and the most time from a packet to the next.
#[derive(Drop)]
struct Seen {
    claimed: Option<u64>,
    held: Option<u64>,
    packet: Option<u64>,
    least: u64,
    most: u64,
    packets: u32,
}

/// A frame of another with this stamp.
fn others(stamp: u64) -> Option<Frame> {
    let id = Id::compose(6, Pgn::new(65_262)?, GLOBAL_ADDRESS, 0x0B)?;
    Frame::new(Stamp::new(stamp)?, id, &[0x11])
}

/// Notes what it sends now.
fn note(seen: &mut Seen, sent: &Frame, now: u64) {
    if sent.id.is_address_claimed() {
        seen.claimed = Some(now);
        return;
    }
    if let Some(before) = seen.packet {
        seen.least = seen.least.min(now.saturating_sub(before));
        seen.most = seen.most.max(now.saturating_sub(before));
    }
    seen.packet = Some(now);
    seen.packets = seen.packets.saturating_add(1);
}

/// A turn: it hears what came since the last one, the oldest first, and sends all that is due.
fn wake(node: &mut Controller, seen: &mut Seen, now: u64, period: u64) -> Option<()> {
    let moment = Stamp::new(now)?;
    let mut age = period;
    for _frame in 0..33 {
        if age >= SPACING {
            age = age.saturating_sub(SPACING);
            node.hear(&others(now.saturating_sub(age))?, moment);
            node.tick(moment);
            node.take_received();
        }
        for _sent in 0..3 {
            if let Some(sent) = node.take_frame(moment) {
                note(seen, &sent, now);
            }
        }
    }
    node.tick(moment);
    if seen.held.is_none() && node.status() == Status::Holding(OWN) {
        seen.held = Some(now);
        node.broadcast(moment, Pgn::new(65_226)?, &[0x2A; 60]).ok()?;
    }
    Some(())
}

/// What is seen of a controller that is woken 60 times so.
fn driven(alloc: Global, period: u64) -> Result<Seen, Fail> {
    let mut node = controller(alloc, &[])?;
    let mut seen = Seen {
        claimed: None,
        held: None,
        packet: None,
        least: u64::MAX,
        most: 0,
        packets: 0,
    };
    let mut now = 0;
    for _turn in 0..2_000 {
        if seen.packets < 10 {
            wake(&mut node, &mut seen, now, period).ok_or("turn")?;
            now = now.saturating_add(period);
        }
    }
    Ok(seen)
}

#[test]
fn stamps_are_no_moments(rt: HostRuntime) -> Result<(), Fail> {
    for period in PERIODS {
        let seen = driven(rt.alloc(), period)?;
        let waited = seen
            .held
            .unwrap_or(0)
            .saturating_sub(seen.claimed.unwrap_or(u64::MAX));
        assert!(rt; 250_000 <= waited && waited < period.saturating_add(250_000));
        assert!(rt; seen.packets == 10 && 50_000 <= seen.least);
        assert!(rt; seen.most < period.saturating_add(50_000));
    }
    Ok(())
}

/// Holds the address, since it heard no claim of another.
fn holding(alloc: Global, name: u64) -> Result<Controller, Fail> {
    let mut node = made(alloc, &setup(name, OWN, &[]))?;
    node.take_frame(Stamp::new(0).ok_or("moment")?);
    node.tick(Stamp::new(250_000).ok_or("moment")?);
    Ok(node)
}

#[test]
fn one_keeps_the_address(rt: HostRuntime) -> Result<(), Fail> {
    let mut first = holding(rt.alloc(), 2)?;
    let mut second = holding(rt.alloc(), 3)?;
    let now = Stamp::new(300_000).ok_or("moment")?;
    assert!(rt; first.status() == Status::Holding(OWN) && second.status() == Status::Holding(OWN));
    let group = Pgn::new(65_265).ok_or("group")?;
    second
        .send(now, 6, group, GLOBAL_ADDRESS, &[7])
        .map_err(|_| "send")?;
    let sent = second.take_frame(now).ok_or("frame")?;
    first.hear(&sent, now);
    assert!(rt; first.take_news() == Some(News::AnotherAtAddress));
    let claim = first.take_frame(now).ok_or("claim")?;
    second.hear(&claim, now);
    assert!(rt; first.status() == Status::Holding(OWN) && second.status() == Status::Cannot);
    assert!(rt; second.take_news() == Some(News::AddressLost));
    Ok(())
}
