//! A controller among senders of DM1, each of three packets in each second, at any phase: with as many boxes as senders it receives all.
use crate::setup::setup;
use crate::steps::{controller, made};
use j39_frame::{Frame, GLOBAL_ADDRESS, Id, Pgn, Stamp};
use j39_node::{Controller, News, Setup};
use std::alloc::Global;
use std::test::Fail;

/// How many seconds each sends.
const SECONDS: u64 = 12;

/// From one frame of a sender to its next, in microseconds.
const GAP: u64 = 50_000;

/// Frame k of a DM1 of three packets: its announcement, then its packets.
fn frame(source: u8, k: u8, now: Stamp) -> Option<Frame> {
    let (group, bytes) = if k == 0 {
        (60_416, [32, 18, 0, 3, 255, 0xCA, 0xFE, 0])
    } else {
        (60_160, [k, source, k, 3, 4, 5, 6, 7])
    };
    Frame::new(
        now,
        Id::compose(7, Pgn::new(group)?, GLOBAL_ADDRESS, source)?,
        &bytes,
    )
}

/// Which frame this sender sends in this millisecond of a second, whose announcement is at its phase.
fn sends(phase: u64, milli: u64) -> Option<u8> {
    for k in 0..4u8 {
        if milli.saturating_mul(1_000) == phase.saturating_add(GAP.saturating_mul(u64::from(k))) {
            return Some(k);
        }
    }
    None
}

/// The phase of this sender, of 0 to 849 ms.
fn phase(seed: u64, source: u8) -> u64 {
    let place = u64::from(source).saturating_mul(seed.saturating_mul(31).saturating_add(137));
    place.wrapping_rem(850).saturating_mul(1_000)
}

/// How many messages the program gets of so many senders; `None` where a step fails.
fn received(node: &mut Controller, seed: u64, senders: u8) -> Option<u64> {
    let mut got = 0u64;
    for second in 0..SECONDS {
        for milli in 0..1_000u64 {
            let now = Stamp::new(
                second
                    .saturating_mul(1_000_000)
                    .saturating_add(milli.saturating_mul(1_000)),
            )?;
            for source in 0..senders {
                if let Some(k) = sends(phase(seed, source), milli) {
                    node.hear(&frame(source, k, now)?, now);
                }
            }
            if let Some(message) = node.received_broadcast() {
                if message.payload.len() != 18 {
                    return None;
                }
            }
            if node.release_broadcast() {
                got = got.saturating_add(1);
            }
        }
    }
    // What was whole in one millisecond waits.
    for _place in 0..senders {
        if node.release_broadcast() {
            got = got.saturating_add(1);
        }
    }
    Some(got)
}

/// How many of so many senders' were received, and missed, with as many boxes.
fn heard_of(alloc: Global, senders: u8, seed: u64) -> Result<(u64, u64), Fail> {
    let wanted = Setup {
        broadcasts: senders,
        ..setup(2, 128, &[])
    };
    let mut node = made(alloc, &wanted)?;
    let got = received(&mut node, seed, senders).ok_or("a step")?;
    Ok((got, node.missed()))
}

#[test]
fn all_are_received(rt: HostRuntime) -> Result<(), Fail> {
    for senders in [5u8, 10, 20] {
        for seed in 0..2u64 {
            let (got, missed) = heard_of(rt.alloc(), senders, seed)?;
            assert_eq!(rt; got, SECONDS.saturating_mul(u64::from(senders)));
            assert_eq!(rt; missed, 0);
        }
    }
    Ok(())
}

#[test]
fn two_in_step_need_two_boxes(rt: HostRuntime) -> Result<(), Fail> {
    let mut node = controller(rt.alloc(), &[])?;
    for second in 0..SECONDS {
        for k in 0..4u8 {
            let at = second
                .saturating_mul(1_000_000)
                .saturating_add(GAP.saturating_mul(u64::from(k)));
            let now = Stamp::new(at).ok_or("a moment")?;
            for source in [1u8, 2] {
                node.hear(&frame(source, k, now).ok_or("a frame")?, now);
            }
        }
        let source = node.received_broadcast().map(|message| message.source);
        assert_eq!(rt; source, Some(1));
        assert!(rt; node.release_broadcast());
    }
    assert_eq!(rt; node.missed(), SECONDS);
    assert_eq!(rt; node.take_news(), Some(News::MessagesMissed));
    Ok(())
}

#[test]
fn none_is_heard_without_a_box(rt: HostRuntime) -> Result<(), Fail> {
    let wanted = Setup {
        broadcasts: 0,
        ..setup(2, 128, &[])
    };
    let mut node = made(rt.alloc(), &wanted)?;
    let got = received(&mut node, 0, 1).ok_or("a step")?;
    assert_eq!(rt; got, 0);
    assert_eq!(rt; node.missed(), SECONDS);
    Ok(())
}
