//! Broadcasts, sent frame by frame.
ghost use Rattle.std.specs.Prelude.{◌≡◌, List, []};
ghost use Rattle.j39_frame.specs.Frame.{FrameRecord};
ghost use Rattle.j39_frame.specs.Stamp.{stamp_micros};
ghost use Rattle.j39_transport.specs.Broadcasting.{HasSent, answer_after, with_answer};
ghost use Rattle.j39_transport.specs.Message.{MessageRecord};
ghost use Rattle.j39_transport.specs.Polling.{PollStep, answer_of, so_far};

use crate::Cut;
use crate::protocol::GAP;
use j39_frame::{Id, Stamp};
use std::marker::Model;

/// What a broadcast asks for.
#[derive(Clone, Copy, Debug, PartialEq, Eq)]
pub enum Poll {
    /// To send this frame now.
    Send(Id, [u8; 8]),
    /// To poll again at this moment, in microseconds, and not before.
    WaitUntil(u64),
    /// Nothing: all frames were sent.
    Done,
}

/// How far a broadcast is, without its message: plain data, which its owner may keep anywhere. Each value is one.
#[repr(C)]
#[derive(Clone, Copy, Debug, Default, PartialEq, Eq)]
pub struct BroadcastCourse {
    /// From when on the next frame may be sent, in microseconds.
    pub due: u64,
    /// How many frames were sent.
    pub count: u16,
}

impl BroadcastCourse {
    /// Nothing was sent.
    pub fn new() -> BroadcastCourse
        ensures { (m : MessageRecord) → HasSent (so_far m result) [] }
    {
        BroadcastCourse { due: 0, count: 0 }
    }

    /// What to do at a moment for this message, the same at each poll. The first poll sends the announcement; a moment
    /// before that of the frame sent last is too early.
    pub fn poll(&mut self, message: &Cut<'_>, now: Stamp) -> Poll
        ensures answer { (sent : List FrameRecord) → HasSent (so_far message.now self.old) sent
            → answer_of result ≡ answer_after message.now sent (stamp_micros now) }
        ensures sent { (sent : List FrameRecord) → HasSent (so_far message.now self.old) sent
            → HasSent (so_far message.now self.new) (with_answer sent (stamp_micros now) (answer_of result)) }
        ensures step { PollStep (so_far message.now self.old) (stamp_micros now) (answer_of result)
            (so_far message.now self.new) }
    {
        self.step(message, now)
    }

    #[tactic(auto, unfolding(crate::specs::Polling::poll_step))]
    fn step(&mut self, message: &Cut<'_>, now: Stamp) -> Poll
        ensures { PollStep (so_far message.now self.old) (stamp_micros now) (answer_of result)
            (so_far message.now self.new) }
    {
        let _packets = message.packets();
        match message.frame(self.count) {
            None => Poll::Done,
            Some(frame) => {
                if now.micros() < self.due {
                    Poll::WaitUntil(self.due)
                } else {
                    let (id, bytes) = frame;
                    self.count += 1;
                    self.due = now.micros() + GAP;
                    Poll::Send(id, bytes)
                }
            }
        }
    }
}

/// A message that is broadcast, its frames at least 50 ms apart (own).
#[derive(Drop)]
pub struct Broadcast<'a> {
    cut: Cut<'a>,
    course: BroadcastCourse,
}

impl<'a> Model for Broadcast<'a> {
    ghost use Rattle.j39_transport.specs.Broadcasting.{BroadcastRecord};
    ghost use Rattle.j39_transport.specs.Polling.{so_far};

    ghost Value = { BroadcastRecord };

    ghost view = { λ b. so_far b.cut b.course };
}

impl<'a> Broadcast<'a> {
    /// A broadcast that has sent nothing.
    pub fn new(cut: Cut<'a>) -> Broadcast<'a>
        ensures message { result.message ≡ cut.entry }
        ensures sent { HasSent result [] }
    {
        Broadcast {
            cut,
            course: BroadcastCourse::new(),
        }
    }

    /// What to do at a moment. The first poll sends the announcement; a moment before that of the frame
    /// sent last is too early.
    pub fn poll(&mut self, now: Stamp) -> Poll
        ensures message { self.new.message ≡ self.old.message }
        ensures answer { (sent : List FrameRecord) → HasSent self.old sent
            → answer_of result ≡ answer_after self.old.message sent (stamp_micros now) }
        ensures sent { (sent : List FrameRecord) → HasSent self.old sent
            → HasSent self.new (with_answer sent (stamp_micros now) (answer_of result)) }
    {
        self.course.poll(&self.cut, now)
    }
}
