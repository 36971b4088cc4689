//! A third that misbehaves, while two send one another messages in packets: frames of all kinds from an address that is neither's.
use crate::setup::setup;
use crate::steps::{controller, made};
use j39_frame::{Frame, Id, Pgn, Stamp};
use j39_node::{Controller, TransferEnding};
use rand_core::Rng;
use rand_pcg::Pcg32;
use std::alloc::Global;
use std::test::Fail;

const SENDER: u8 = 0x80;

const RECEIVER: u8 = 0x0B;

const STRANGER: u8 = 0x30;

/// The longest message: its broadcast takes 12.75 s.
static LONGEST: [u8; 1_785] = [0x2A; 1_785];

/// The frames of the third, and the microseconds from one to the next.
const FRAMES: u32 = 100_000;

const STEP: u64 = 130;

/// Request, clear to send, acknowledgment, broadcast announcement, abort, and none of them.
const CONTROLS: [u8; 6] = [16, 17, 19, 32, 255, 7];

const TARGETS: [u8; 3] = [255, SENDER, RECEIVER];

/// A sender, a receiver, the moment, and how many transfers came, were counted as done, and ended otherwise.
#[derive(Drop)]
struct Pair {
    sender: Controller,
    receiver: Controller,
    now: u64,
    came: u32,
    done: u32,
    failed: u32,
}

/// Eight bytes of a control frame that names the pair's group.
fn control(random: &mut Pcg32) -> [u8; 8] {
    let kind = CONTROLS[(random.next_u32() % 6) as usize];
    let [count, _, _, _] = random.next_u32().to_le_bytes();
    [kind, 9, 0, 2, count, 0xCA, 0xFE, 0x00]
}

/// A frame of the third: control frames and packets, requests and claims.
fn noise(random: &mut Pcg32, now: Stamp) -> Option<Frame> {
    let to = TARGETS[(random.next_u32() % 3) as usize];
    let [a, b, c, d] = random.next_u32().to_le_bytes();
    let (group, bytes) = match random.next_u32() % 5 {
        0 => (60_416, control(random)),
        1 => (60_416, [a, b, c, d, b, c, d, a]),
        2 => (60_160, [a, b, c, d, b, c, d, a]),
        3 => (59_904, [a, b, 0, d, b, c, d, a]),
        _ => (60_928, [a, b, c, d, b, c, d, a]),
    };
    Frame::new(now, Id::compose(6, Pgn::new(group)?, to, STRANGER)?, &bytes)
}

impl Pair {
    /// Both hold their addresses, and the broadcast and the first transfer are announced.
    fn new(alloc: Global) -> Result<Pair, Fail> {
        let sender = controller(alloc, &[])?;
        let receiver = made(alloc, &setup(3, RECEIVER, &[]))?;
        let mut pair = Pair {
            sender,
            receiver,
            now: 0,
            came: 0,
            done: 0,
            failed: 0,
        };
        pair.exchange().ok_or("claims")?;
        pair.now = 250_000;
        let now = Stamp::new(250_000).ok_or("moment")?;
        let group = Pgn::new(65_226).ok_or("group")?;
        pair.sender
            .broadcast(now, group, &LONGEST)
            .map_err(|_| "broadcast")?;
        pair.begin().ok_or("transfer")?;
        Ok(pair)
    }

    /// Four times each gives a frame, where it has one, and the other hears it.
    fn exchange(&mut self) -> Option<()> {
        let now = Stamp::new(self.now)?;
        for _turn in 0..4 {
            if let Some(frame) = self.sender.take_frame(now) {
                self.receiver.hear(&frame, now);
            }
            if let Some(frame) = self.receiver.take_frame(now) {
                self.sender.hear(&frame, now);
            }
        }
        Some(())
    }

    /// The next transfer is handed in, and announced.
    fn begin(&mut self) -> Option<()> {
        let now = Stamp::new(self.now)?;
        let group = Pgn::new(65_226)?;
        self.sender
            .transfer(now, 7, group, RECEIVER, &LONGEST)
            .ok()?;
        self.exchange()
    }

    /// The third's next frame is heard, and the two go on.
    fn go_on(&mut self, random: &mut Pcg32) -> Option<()> {
        self.now = self.now.saturating_add(STEP);
        let now = Stamp::new(self.now)?;
        let frame = noise(random, now)?;
        self.sender.hear(&frame, now);
        self.receiver.hear(&frame, now);
        self.sender.tick(now);
        self.receiver.tick(now);
        self.exchange()?;
        self.collect()
    }

    /// A transfer that came is counted, and the next one begins.
    fn collect(&mut self) -> Option<()> {
        if let Some(message) = self.receiver.received_transfer() {
            if message.source == SENDER && message.payload == LONGEST.as_slice() {
                self.came = self.came.saturating_add(1);
            }
        }
        if !self.receiver.release_transfer() {
            return Some(());
        }
        self.exchange()?;
        match self.sender.take_transfer_ended()? {
            (_token, TransferEnding::Done) => self.done = self.done.saturating_add(1),
            _ => self.failed = self.failed.saturating_add(1),
        }
        self.begin()
    }

    /// The broadcast came.
    fn has_broadcast(&self) -> bool {
        match self.receiver.received_broadcast() {
            Some(message) => message.source == SENDER && message.payload == LONGEST.as_slice(),
            None => false,
        }
    }
}

#[test]
fn a_third_misbehaves(rt: HostRuntime) -> Result<(), Fail> {
    let mut pair = Pair::new(rt.alloc())?;
    let mut random = Pcg32::new(1939, 1);
    for _frame in 0..FRAMES {
        pair.go_on(&mut random).ok_or("stuck")?;
    }
    assert!(rt; pair.has_broadcast());
    assert!(rt; pair.came == pair.done && pair.failed == 0 && 1_000 < pair.came);
    Ok(())
}
