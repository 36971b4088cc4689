//! Messages put together again (J1939-21, 5.10).
ghost use Rattle.std.specs.Prelude.{◌≡◌, ◌≤◌, ◌*◌, ◌++◌, ◌∷◌, [], List, IfOk, OnErr, MatchResult};
ghost use Rattle.std.specs.Borrow.{sem};
ghost use Rattle.std.specs.Io.BufRead.{Rests};
ghost use Rattle.j39_frame.specs.Stamp.{stamp_micros};
ghost use Rattle.j39_transport.specs.Frames.{source_of};
ghost use Rattle.j39_transport.specs.Events.{Event};
ghost use Rattle.j39_transport.specs.Events.Event.{Frame as Came, Forget};
ghost use Rattle.j39_transport.specs.Answers.{IsAnnouncement, IsShort, AnswersAt, AreOpenAfter, AreHeldAfter};
ghost use Rattle.j39_transport.specs.Boxes.{WantsMemory};
ghost use Rattle.j39_transport.specs.Stands.{Stands};
ghost use Rattle.j39_transport.specs.Signals.{said_by};
ghost use Rattle.j39_transport.specs.Sessions.{stored_in};
ghost use Rattle.j39_transport.specs.AssemblerStep.{fed, answer, LacksBox, new_assembler, forgot, messages_open, bytes_held, spare_after};
ghost use Rattle.j39_transport.specs.AssemblerModel.{outcome_by, CanLend, outcome_of};

use crate::message::{Fed, Message};
use crate::open_messages::OpenMessages;
use crate::packet::Accepted;
use crate::table::SessionBox;
use j39_frame::{Frame, Stamp};
use std::alloc::{AllocError, Global};
use std::marker::Model;

/// Puts messages of more than eight bytes together again: broadcasts, and those that one
/// controller sends to another. It has 270 places, each empty or one box with an open message and
/// its buffer of 1,785 bytes, and besides at most the box of the message last lent.
#[derive(Drop)]
pub struct Assembler {
    alloc: Global,
    sessions: OpenMessages,
    /// The message last lent; its box is used again.
    lent: SessionBox,
}

impl Model for Assembler {
    ghost use Rattle.std.specs.Option.{is_some};
    ghost use Rattle.j39_transport.specs.Sessions.{stored_in};
    ghost use Rattle.j39_transport.specs.AssemblerStep.{AssemblerRecord};

    ghost Value = { AssemblerRecord };

    ghost view = { λ a. record { sessions = a.sessions; has_spare = is_some (stored_in a.lent) } };
}

impl Assembler {
    ghost use Rattle.j39_transport.specs.contracts.assembler.Assembler.{the_row};

    /// An assembler with no message open; it takes no memory.
    pub fn new(alloc: Global) -> Assembler
        ensures stands { Stands [] result }
        ensures empty { result ≡ new_assembler }
    {
        Self::empty(alloc)
    }

    fn empty(alloc: Global) -> Assembler
        ensures { result ≡ new_assembler }
    {
        Assembler {
            alloc,
            sessions: OpenMessages::new(),
            lent: None,
        }
    }

    /// Takes the next frame. Memory is taken at an announcement alone, where one more message is open
    /// with it and no box lies unused, and before anything changes: after an error the same frame may
    /// be fed again.
    pub fn feed(&mut self, frame: &Frame) -> Result<Fed<'_>, AllocError>
        ensures answer { IfOk result (λ fed. (E : List Event) → Stands E self.old
            → AnswersAt E frame.now (outcome_of fed)) }
        ensures short { IfOk result (λ fed. IsShort (outcome_of fed)) }
        ensures refused { OnErr result (IsAnnouncement frame.now) }
        ensures wanted { OnErr result ((E : List Event) → Stands E self.old → WantsMemory E frame.now) }
        ensures* after { sem 𝓛 (Rests the_row self.entry (λ n. MatchResult result
            (λ _. ((E : List Event) → Stands E self.old → Stands (E ++ Came frame.now ∷ []) n)
            × (n.has_spare ≡ spare_after self.old.sessions self.old.has_spare frame.now (said_by frame.now)))
            (λ _. n ≡ self.old))) }
    {
        self.step(frame)
    }

    /// Answers at once where a frame is of another group, which costs its identifier alone.
    #[tactic(auto, unfolding(crate::specs::Signals::said_by, crate::specs::Frames::group_of, crate::specs::AssemblerStep::state_after, crate::specs::AssemblerStep::answer, crate::specs::AssemblerStep::spare_after))]
    fn step(&mut self, frame: &Frame) -> Result<Fed<'_>, AllocError>
        ensures answer { IfOk result (λ taken. outcome_of taken
            ≡ answer self.old.sessions frame.now (said_by frame.now)) }
        ensures short { IfOk result (λ taken. IsShort (outcome_of taken)) }
        ensures lacked { OnErr result (LacksBox self.old.sessions self.old.has_spare frame.now (said_by frame.now)) }
        ensures* after { sem 𝓛 (Rests the_row self.entry (λ n. MatchResult result
            (λ _. n ≡ fed self.old frame.now (said_by frame.now))
            (λ _. n ≡ self.old))) }
    {
        if frame.id.is_transport_data() || frame.id.is_transport_control() {
            self.hand_on(frame)
        } else {
            Ok(Fed::Ignored)
        }
    }

    /// Hands a frame to the open messages, and answers what it was. Out of line: so a frame of
    /// another group pays nothing for it.
    #[tactic(auto, unfolding(crate::specs::Frames::source_of))]
    #[inline(never)]
    fn hand_on(&mut self, frame: &Frame) -> Result<Fed<'_>, AllocError>
        ensures answer { IfOk result (λ taken. outcome_of taken
            ≡ answer self.old.sessions frame.now (said_by frame.now)) }
        ensures short { IfOk result (λ taken. IsShort (outcome_of taken)) }
        ensures lacked { OnErr result (LacksBox self.old.sessions self.old.has_spare frame.now (said_by frame.now)) }
        ensures* after { sem 𝓛 (Rests the_row self.entry (λ n. MatchResult result
            (λ _. n ≡ fed self.old frame.now (said_by frame.now))
            (λ _. n ≡ self.old))) }
    {
        let accepted = self.sessions.accept(&mut self.lent, self.alloc, frame)?;
        Ok(lend(&self.lent, accepted, frame.id.source(), frame.stamp))
    }

    /// Ends all messages of a source, and gives their memory back.
    pub fn forget(&mut self, source: u8)
        ensures stands { (E : List Event) → Stands E self.old → Stands (E ++ Forget source ∷ []) self.new }
        ensures spare { self.new.has_spare ≡ self.old.has_spare }
    {
        self.leave_out(source);
    }

    fn leave_out(&mut self, source: u8)
        ensures { self.new ≡ forgot self.old source }
    {
        self.sessions.forget(source);
    }

    /// Ends all messages, and gives all memory back, also that of the message last lent.
    pub fn clear(&mut self)
        ensures stands { Stands [] self.new }
        ensures empty { self.new ≡ new_assembler }
    {
        self.sessions.clear();
        self.lent = None;
    }

    /// How many messages are open, 0 to 270.
    pub fn open(&self) -> usize
        ensures value { result ≡ messages_open self.now.sessions }
        ensures few { result ≤ 270 }
        ensures after { (E : List Event) → Stands E self.now → AreOpenAfter E result }
    {
        self.sessions.open()
    }

    /// Seven bytes for each packet appended in an open message.
    pub fn held(&self) -> usize
        ensures value { result ≡ bytes_held self.now.sessions }
        ensures bounded { result ≤ 1785 * messages_open self.now.sessions }
        ensures after { (E : List Event) → Stands E self.now → AreHeldAfter E result }
    {
        self.sessions.held()
    }
}

/// The answer, with a whole message lent out of its place.
fn lend(place: &SessionBox, accepted: Accepted, source: u8, stamp: Stamp) -> Fed<'_>
    requires { CanLend accepted (stored_in place.now) }
    ensures value { outcome_of result ≡ outcome_by accepted source (stamp_micros stamp) (stored_in place.now) }
    ensures short { IsShort (outcome_of result) }
{
    match accepted {
        Accepted::Whole => match place {
            Some(session) => Fed::Whole(Message {
                source,
                pgn: session.pgn(),
                payload: session.payload(),
                stamp,
            }),
            None => Fed::Ignored,
        },
        Accepted::Taken => Fed::Taken,
        Accepted::Ignored => Fed::Ignored,
    }
}
