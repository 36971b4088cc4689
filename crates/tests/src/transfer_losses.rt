//! A transfer with each frame lost, and with each two frames lost.
use crate::transfers::{Sent, heard, receiver, receiver_tick, sender, tick};
use j39_frame::{Frame, Id, Stamp};
use j39_transport::{Receiver, SendEvent, SendState, Sender};
use std::alloc::Global;
use std::test::Fail;

/// A bus that loses the frames of two places, counted from 0.
#[derive(Drop)]
struct Bus {
    first: u32,
    second: u32,
    sent: u32,
}

impl Bus {
    /// Whether the next frame comes through.
    fn carries(&mut self) -> bool {
        let place = self.sent;
        self.sent = place.wrapping_add(1);
        place != self.first && place != self.second
    }

    /// Hands a frame of the receiver to the sender, unless it is lost.
    fn hand_back(&mut self, sender: &mut Sender<'_>, sent: Sent, micros: u64) -> Option<()> {
        let Some(frame) = sent else {
            return Some(());
        };
        if self.carries() {
            let (raw, bytes) = frame;
            let now = Stamp::new(micros)?;
            let frame = Frame::new(now, Id::new(raw)?, &bytes)?;
            let _silent = sender.on(SendEvent::Heard(&frame), now);
        }
        Some(())
    }

    /// A tick of both ends, each frame handed at once: how many messages are delivered.
    fn tick(
        &mut self,
        sender: &mut Sender<'_>,
        receiver: &mut Receiver,
        micros: u64,
    ) -> Option<u32> {
        let mut delivered = 0;
        if let Some(frame) = tick(sender, micros) {
            if self.carries() {
                let (raw, bytes) = frame;
                let (answer, size) = heard(receiver, raw, &bytes, micros)?;
                self.hand_back(sender, answer, micros)?;
                delivered = if size > 0 { 1 } else { 0 };
            }
        }
        let asked = receiver_tick(receiver, micros);
        self.hand_back(sender, asked, micros)?;
        Some(delivered)
    }
}

/// An exchange, ticked every 100 ms until both ends rest: how often the message was delivered, how many
/// frames were sent, and whether the sender is done.
fn exchange(alloc: Global, first: u32, second: u32) -> Option<(u32, u32, bool)> {
    let mut bus = Bus {
        first,
        second,
        sent: 0,
    };
    let mut sender = sender()?;
    let mut receiver = receiver(alloc)?;
    let mut delivered = 0u32;
    for turn in 0..100u64 {
        let more = bus.tick(&mut sender, &mut receiver, turn * 100_000)?;
        delivered = delivered.wrapping_add(more);
        if !receiver.busy() {
            match sender.state() {
                SendState::Done => return Some((delivered, bus.sent, true)),
                SendState::Failed(_) => return Some((delivered, bus.sent, false)),
                _ => {}
            }
        }
    }
    None
}

/// As many frames as an exchange with two losses has at most.
const FRAMES: u32 = 16;

#[test]
fn each_two_frames_lost(rt: HostRuntime) -> Result<(), Fail> {
    assert_eq!(rt; exchange(rt.alloc(), FRAMES, FRAMES), Some((1, 6, true)));
    for first in 0..FRAMES {
        for second in first..FRAMES {
            let ended = exchange(rt.alloc(), first, second);
            let (delivered, sent, is_done) = ended.ok_or("no rest")?;
            assert!(rt; delivered <= 1, "{first} {second}");
            assert!(rt; !is_done || delivered == 1, "{first} {second}");
            assert!(rt; sent <= FRAMES, "{first} {second}");
        }
    }
    Ok(())
}
