//! A controller whose driver takes one frame in each 10 ms, while strangers ask for its claim and announce transfers to it before
//! each, and its program hands in messages as long as there is room: frames of its broadcast go in time, and messages and replies go.
//! Where no messages wait, a transfer goes. Requests that are repeated keep nobody else's out.
use crate::steps::controller;
use j39_frame::{Frame, GLOBAL_ADDRESS, Id, Pgn, Stamp};
use j39_node::{Controller, Ending, TransferEnding};
use std::alloc::Global;
use std::test::Fail;

const OWN: u8 = 0x80;

const PARTNER: u8 = 0x0B;

/// How often a frame is taken, in microseconds.
const PERIOD: u64 = 10_000;

/// 150 ms, and the time of three takes.
const MOST: u64 = 150_000 + 3 * PERIOD;

/// How many frames of each kind were taken, when the last one of the broadcast was, and the most time between two of these.
#[derive(Drop)]
struct Taken {
    claims: u32,
    replies: u32,
    messages: u32,
    packets: u32,
    last: u64,
    longest: u64,
    ended: bool,
}

fn frame(group: u32, to: u8, from: u8, bytes: &[u8], now: Stamp) -> Option<Frame> {
    Frame::new(now, Id::compose(6, Pgn::new(group)?, to, from)?, bytes)
}

/// What strangers send before a frame is taken: a request for claims, and a request to send of one of eight.
fn flood(node: &mut Controller, turn: u8, now: Stamp) -> Option<()> {
    let asks = frame(59_904, GLOBAL_ADDRESS, 0x30, &[0x00, 0xEE, 0x00], now)?;
    node.hear(&asks, now);
    let opens = [16, 9, 0, 2, 255, 0xCA, 0xFE, 0x00];
    let announces = frame(60_416, OWN, 0x31 + turn % 8, &opens, now)?;
    node.hear(&announces, now);
    Some(())
}

/// Messages are handed in until there is no room.
fn fill(node: &mut Controller, now: Stamp) -> Option<()> {
    let group = Pgn::new(65_265)?;
    for _place in 0..17 {
        node.take_ended();
    }
    for _place in 0..17 {
        if node.send(now, 6, group, GLOBAL_ADDRESS, &[1, 2]).is_err() {
            return Some(());
        }
    }
    None
}

fn note(taken: &mut Taken, sent: &Frame, now: u64) {
    let count = if sent.id.is_address_claimed() {
        &mut taken.claims
    } else if sent.id.pgn().raw() == 65_265 {
        &mut taken.messages
    } else if sent.id.destination() == Some(GLOBAL_ADDRESS) {
        taken.longest = taken.longest.max(now.saturating_sub(taken.last));
        taken.last = now;
        &mut taken.packets
    } else {
        &mut taken.replies
    };
    *count = count.saturating_add(1);
}

/// A broadcast of ten frames is handed in when the address is held, and 200 frames are taken since.
fn driven(node: &mut Controller) -> Option<Taken> {
    node.take_frame(Stamp::new(0)?)?;
    let start = 250_000;
    node.broadcast(Stamp::new(start)?, Pgn::new(65_226)?, &[0x2A; 60])
        .ok()?;
    let mut taken = Taken {
        claims: 0,
        replies: 0,
        messages: 0,
        packets: 0,
        last: start,
        longest: 0,
        ended: false,
    };
    for turn in 1..201u8 {
        let now = start.saturating_add(PERIOD.saturating_mul(u64::from(turn)));
        let moment = Stamp::new(now)?;
        flood(node, turn, moment)?;
        fill(node, moment)?;
        let sent = node.take_frame(moment)?;
        note(&mut taken, &sent, now);
    }
    taken.ended = node.take_broadcast_ended() == Some((0, Ending::Done));
    Some(taken)
}

#[test]
fn none_starves_in_a_flood(rt: HostRuntime) -> Result<(), Fail> {
    let mut node = controller(rt.alloc(), &[])?;
    let taken = driven(&mut node).ok_or("a step")?;
    assert!(rt; taken.ended && taken.packets == 10);
    assert!(rt; taken.longest <= MOST);
    assert!(rt; taken.claims >= 100 && taken.messages >= 25 && taken.replies >= 25);
    Ok(())
}

/// What the destination of the transfer answers to this frame: a clear to send to the request, an acknowledgment to the last packet.
fn answer(node: &mut Controller, sent: &Frame, now: Stamp) -> Option<()> {
    let first = *sent.bytes.as_slice().get(0)?;
    let is_control = sent.id.pgn().raw() == 60_416;
    if is_control && first == 16 {
        let clear = [17, 2, 1, 255, 255, 0xCA, 0xFE, 0x00];
        let clears = frame(60_416, OWN, PARTNER, &clear, now)?;
        node.hear(&clears, now);
    }
    if !is_control && first == 2 {
        let all = [19, 9, 0, 2, 255, 0xCA, 0xFE, 0x00];
        let acknowledges = frame(60_416, OWN, PARTNER, &all, now)?;
        node.hear(&acknowledges, now);
    }
    Some(())
}

/// A transfer of two packets is handed in: how many frames are taken till it is acknowledged, of at most a hundred.
fn transferred(node: &mut Controller) -> Option<u32> {
    node.take_frame(Stamp::new(0)?)?;
    let start = 250_000;
    node.transfer(
        Stamp::new(start)?,
        7,
        Pgn::new(65_226)?,
        PARTNER,
        &[0x2A; 9],
    )
    .ok()?;
    let mut frames = 0u32;
    for turn in 1..101u8 {
        let now = start.saturating_add(PERIOD.saturating_mul(u64::from(turn)));
        let moment = Stamp::new(now)?;
        flood(node, turn, moment)?;
        let sent = node.take_frame(moment)?;
        frames = frames.saturating_add(1);
        if sent.id.destination() == Some(PARTNER) {
            answer(node, &sent, moment)?;
        }
        if let Some((_token, TransferEnding::Done)) = node.take_transfer_ended() {
            return Some(frames);
        }
    }
    None
}

#[test]
fn a_transfer_goes_in_a_flood(rt: HostRuntime) -> Result<(), Fail> {
    let mut node = controller(rt.alloc(), &[])?;
    let frames = transferred(&mut node).ok_or("it doesn't end")?;
    assert!(rt; frames <= 24);
    Ok(())
}

/// A request of this source to the controller, for this group.
fn request(node: &mut Controller, from: u8, group: u32, now: Stamp) -> Option<()> {
    let [low, middle, high, _] = group.to_le_bytes();
    let asks = frame(59_904, OWN, from, &[low, middle, high], now)?;
    node.hear(&asks, now);
    Some(())
}

/// Each source of these is handed out once, in this order, and no other.
fn hands_out(node: &mut Controller, sources: &[u8]) -> bool {
    for source in sources {
        match node.take_request() {
            Some(request) => {
                if request.source != *source {
                    return false;
                }
            }
            None => return false,
        }
    }
    node.take_request().is_none()
}

/// One repeats two requests 10,000 times, for what is served and for what isn't, and fifteen others ask once: how many frames go then.
fn repeated(node: &mut Controller) -> Option<u32> {
    node.take_frame(Stamp::new(0)?)?;
    let now = Stamp::new(300_000)?;
    for _time in 0..10_000 {
        request(node, 0x30, 65_259, now)?;
        request(node, 0x30, 65_260, now)?;
    }
    for other in 0x31..0x40u8 {
        request(node, other, 65_259, now)?;
    }
    let mut frames = 0u32;
    for _take in 0..40 {
        if node.take_frame(now).is_some() {
            frames = frames.saturating_add(1);
        }
    }
    Some(frames)
}

#[test]
fn a_repeated_request_waits_once(rt: HostRuntime) -> Result<(), Fail> {
    let served = [Pgn::new(65_259).ok_or("group")?];
    let mut node = controller(rt.alloc(), &served)?;
    assert!(rt; repeated(&mut node) == Some(1));
    let sources = [
        0x30, 0x31, 0x32, 0x33, 0x34, 0x35, 0x36, 0x37, 0x38, 0x39, 0x3A, 0x3B, 0x3C, 0x3D, 0x3E,
        0x3F,
    ];
    assert!(rt; hands_out(&mut node, &sources));
    Ok(())
}
