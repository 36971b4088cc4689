//! Messages in packets to a controller from several sources at once, and from it to several destinations: as many as it has boxes, so
//! many packets granted at once.
use crate::setup::setup;
use crate::steps::made;
use j39_frame::{Frame, Id, Pgn, Stamp};
use j39_node::{Controller, Refused, Setup, TransferEnding};
use std::alloc::Global;
use std::test::Fail;

/// The groups of a session: its control, and its packets.
const CONTROL: u32 = 60_416;

const DATA: u32 = 60_160;

/// An RTS of 18 bytes of group 65260, in three packets, of which it takes all at once.
const REQUEST: [u8; 8] = [16, 18, 0, 3, 255, 0xEC, 0xFE, 0];

/// A frame of a session from this source to address 128.
fn of_session(source: u8, group: u32, bytes: &[u8; 8]) -> Option<Frame> {
    let group = Pgn::new(group)?;
    let id = Id::compose(7, group, 128, source)?;
    Frame::new(Stamp::new(0)?, id, bytes)
}

/// A packet of this number.
fn packet(source: u8, number: u8) -> Option<Frame> {
    of_session(
        source,
        DATA,
        &[
            number, source, source, source, source, source, source, source,
        ],
    )
}

/// How many of the frames that are due begin with these two bytes.
fn said(node: &mut Controller, now: Stamp, kind: u8, second: u8) -> u64 {
    let mut count = 0u64;
    for _ in 0..40 {
        if let Some(frame) = node.take_frame(now) {
            let bytes = frame.bytes.as_slice();
            if bytes.get(0) == Some(&kind) && bytes.get(1) == Some(&second) {
                count = count.saturating_add(1);
            }
        }
    }
    count
}

/// What becomes of 18 bytes of each of so many sources at once: how many are refused for want of a box, and received.
fn fates(node: &mut Controller, sources: u8) -> Option<(u64, u64)> {
    let _claim = node.take_frame(Stamp::new(0)?);
    let now = Stamp::new(1_000_000)?;
    for source in 0..sources {
        let request = of_session(source, CONTROL, &REQUEST)?;
        node.hear(&request, now);
    }
    let refused = said(node, now, 255, 2);
    for number in 1..4u8 {
        for source in 0..sources {
            let data = packet(source, number)?;
            node.hear(&data, now);
        }
    }
    let mut received = 0u64;
    for _ in 0..sources {
        if node.release_transfer() {
            received = received.saturating_add(1);
        }
    }
    Some((refused, received))
}

/// The same of a controller of so many boxes.
fn fates_in(alloc: Global, boxes: u8, sources: u8) -> Result<(u64, u64), Fail> {
    let wanted = Setup {
        sessions: boxes,
        ..setup(2, 128, &[])
    };
    let mut node = made(alloc, &wanted)?;
    let found = fates(&mut node, sources).ok_or("a step")?;
    Ok(found)
}

/// Boxes, sources, and what becomes of their messages.
type Row = (u8, u8, (u64, u64));

static ENOUGH: &[Row] = &[(10, 10, (0, 10)), (15, 15, (0, 15))];

static TOO_FEW: &[Row] = &[(3, 10, (7, 3)), (0, 1, (1, 0))];

#[test]
fn node_receives_as_many_at_once_as_it_has_boxes(rt: HostRuntime) -> Result<(), Fail> {
    for (boxes, sources, fates) in ENOUGH {
        assert_eq!(rt; fates_in(rt.alloc(), *boxes, *sources)?, *fates);
    }
    Ok(())
}

#[test]
fn node_refuses_who_finds_no_box(rt: HostRuntime) -> Result<(), Fail> {
    for (boxes, sources, fates) in TOO_FEW {
        assert_eq!(rt; fates_in(rt.alloc(), *boxes, *sources)?, *fates);
    }
    Ok(())
}

/// How many CTS grant two packets, of three, and then one, to who takes so many at once.
fn granted(node: &mut Controller, most: u8) -> Option<(u64, u64)> {
    let _claim = node.take_frame(Stamp::new(0)?);
    let now = Stamp::new(1_000_000)?;
    let bytes = [16, 18, 0, 3, most, 0xEC, 0xFE, 0];
    let request = of_session(11, CONTROL, &bytes)?;
    node.hear(&request, now);
    let first = said(node, now, 17, 2);
    for number in 1..3u8 {
        let data = packet(11, number)?;
        node.hear(&data, now);
    }
    let second = said(node, now, 17, 1);
    Some((first, second))
}

/// The same of a controller of this window.
fn granted_in(alloc: Global, window: u8, most: u8) -> Result<(u64, u64), Fail> {
    let wanted = Setup {
        window,
        ..setup(2, 128, &[])
    };
    let mut node = made(alloc, &wanted)?;
    let found = granted(&mut node, most).ok_or("a step")?;
    Ok(found)
}

/// Windows, and how many packets are taken at once: the node's, what was asked, and the less of both.
static WINDOWS: &[(u8, u8)] = &[(2, 255), (0, 2), (16, 2)];

#[test]
fn node_grants_at_most_its_window_and_what_is_asked(rt: HostRuntime) -> Result<(), Fail> {
    for (window, most) in WINDOWS {
        assert_eq!(rt; granted_in(rt.alloc(), *window, *most)?, (1, 1));
    }
    Ok(())
}

/// A frame of a session from this source to address 128, of group 65226 if it is one of control.
fn says(node: &mut Controller, source: u8, bytes: &[u8; 8], now: Stamp) -> Option<()> {
    let frame = of_session(source, CONTROL, bytes)?;
    node.hear(&frame, now);
    Some(())
}

/// The destination of the frame that goes next, and its first byte.
fn goes_to(node: &mut Controller, now: Stamp) -> Option<(u8, u8)> {
    let frame = node.take_frame(now)?;
    let first = frame.bytes.as_slice().get(0)?;
    Some((frame.id.destination()?, *first))
}

/// How many of so many transfers at once are done, each frame of which goes in its turn: a request to send to each, and, as each
/// clears all, the packets, one to each and again.
fn done_in_turn(node: &mut Controller, count: u8, now: Stamp) -> Option<u64> {
    let group = Pgn::new(65_226)?;
    for to in 0..count {
        node.transfer(now, 7, group, to, &[to; 18]).ok()?;
    }
    for to in 0..count {
        if goes_to(node, now)? != (to, 16) {
            return Some(0);
        }
    }
    for to in 0..count {
        says(node, to, &[17, 3, 1, 255, 255, 0xCA, 0xFE, 0], now)?;
    }
    for number in 1..4u8 {
        for to in 0..count {
            if goes_to(node, now)? != (to, number) {
                return Some(0);
            }
        }
    }
    for to in 0..count {
        says(node, to, &[19, 18, 0, 3, 255, 0xCA, 0xFE, 0], now)?;
    }
    let mut done = 0u64;
    for _ in 0..count {
        if node.take_transfer_ended()?.1 == TransferEnding::Done {
            done = done.saturating_add(1);
        }
    }
    Some(done)
}

#[test]
fn node_sends_to_as_many_at_once_as_it_has_boxes(rt: HostRuntime) -> Result<(), Fail> {
    let wanted = Setup {
        transfers: 16,
        ..setup(2, 128, &[])
    };
    let mut node = made(rt.alloc(), &wanted)?;
    let _claim = node.take_frame(Stamp::new(0).ok_or("moment")?);
    let now = Stamp::new(1_000_000).ok_or("moment")?;
    assert_eq!(rt; done_in_turn(&mut node, 16, now), Some(16));

    // One that is absent delays no other: its request to send goes, and then all go to the other.
    let group = Pgn::new(65_226).ok_or("group")?;
    assert_eq!(rt; node.transfer(now, 7, group, 200, &[1; 18]), Ok(16));
    assert_eq!(rt;
        node.transfer(now, 7, group, 200, &[1; 18]),
        Err(Refused::Full)
    );
    assert_eq!(rt; node.transfer(now, 7, group, 100, &[1; 18]), Ok(17));
    assert_eq!(rt; goes_to(&mut node, now), Some((200, 16)));
    assert_eq!(rt; goes_to(&mut node, now), Some((100, 16)));
    says(&mut node, 100, &[17, 3, 1, 255, 255, 0xCA, 0xFE, 0], now).ok_or("frame")?;
    for number in 1..4u8 {
        assert_eq!(rt; goes_to(&mut node, now), Some((100, number)));
    }
    assert!(rt; goes_to(&mut node, now).is_none());
    Ok(())
}

#[test]
fn node_without_boxes_sends_single_frames(rt: HostRuntime) -> Result<(), Fail> {
    let wanted = Setup {
        broadcasts: 0,
        sessions: 0,
        transfers: 0,
        ..setup(2, 128, &[])
    };
    let mut node = made(rt.alloc(), &wanted)?;
    let _claim = node.take_frame(Stamp::new(0).ok_or("moment")?);
    let now = Stamp::new(250_000).ok_or("moment")?;
    let group = Pgn::new(65_226).ok_or("group")?;
    assert_eq!(rt; node.broadcast(now, group, &[1; 9]), Err(Refused::Full));
    assert_eq!(rt; node.send(now, 6, group, 255, &[1; 8]), Ok(0));
    assert!(rt; node.take_frame(now).is_some());
    Ok(())
}
