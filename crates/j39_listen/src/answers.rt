//! What a node sends on a bus, as an account of its frames (J1939-81, 4.2 and 4.5).
ghost use Rattle.std.specs.Prelude.{◌≡◌, ◌≢◌, ◌<◌, ◌≤◌, ◌++◌, ◌∷◌, ◌↔◌, [], ℕ, List, Option, Result, true, length, option_map, IfOk, OnOk, OnErr, Ok, Err, None, Some};
ghost use Rattle.std.specs.Option.{option_to_list};
ghost use Rattle.std.specs.Result.{result_map_both};
ghost use Rattle.j39_io.specs.Puts.{Puts};
ghost use Rattle.j39_address.specs.Claimer.{IsNode};
ghost use Rattle.j39_address.specs.Command.{command_by, commanded_of};
ghost use Rattle.j39_address.specs.Name.{name_raw};
ghost use Rattle.j39_address.specs.Node.{Node, idle_node};
ghost use Rattle.j39_frame.specs.Address.{global_address, null_address};
ghost use Rattle.j39_io.specs.Turn.{turn};
ghost use Rattle.j39_frame.specs.Frame.{FrameRecord};
ghost use Rattle.j39_frame.specs.Identifier.{destination_of};
ghost use Rattle.j39_frame.specs.Pgn.{pgn_raw};
ghost use Rattle.j39_frame.specs.Stamp.{stamp_micros};
ghost use Rattle.j39_listen.specs.Asking.{AsksForBoxes};
ghost use Rattle.j39_listen.specs.Answers.{commands, sent_text};
ghost use Rattle.j39_listen.specs.AnswersSoFar.{HasAnswered, Notices, Obeys, all_sent, hears, starts};
ghost use Rattle.j39_listen.specs.Listening.{Hears};
ghost use Rattle.j39_listen.specs.Output.{MakesAnswers, nothing};
ghost use Rattle.j39_listen.specs.Ran.{PassesOn, Ran};
ghost use Rattle.j39_listen.specs.Run.{WritesWholeLines};
ghost use Rattle.j39_listen.specs.declared.counts.Counts.{Counts};
ghost use Rattle.j39_listen.specs.declared.running.RunFault.{RunFault};
ghost use Rattle.j39_listen.specs.declared.running.RunFault.TheVariants.{Read};

use crate::account::{Account, LineFault};
use crate::counts::Made;
use crate::running::{RunFault, run_over};
use crate::{Counts, Heard, Listener};
use j39_address::{Claimer, Name, commanded_of};
use j39_frame::{Frame, GLOBAL_ADDRESS, Stamp};
use j39_io::{DeviceFault, Sink, Source, put_all};
use j39_log::{Bus, line_of};
use std::alloc::{AllocError, Global};

/// Writes what a node of this NAME would send on the bus of a log, as lines of a log: it is started at the
/// first frame with the preferred address, hears each frame, and obeys commanded addresses that are broadcast,
/// each at the stamp of the frame. The log has at most `limit` bytes; without a bus it is that of the first
/// frame in it. `None`, with nothing read, for a preferred address above 253.
pub fn answer<R: Source, W: Sink>(
    alloc: Global,
    source: &mut R,
    sink: &mut W,
    bus: Option<Bus>,
    name: Name,
    preferred: u8,
    limit: u64,
) -> Result<Option<Counts>, RunFault>
    // What the run promises, where a node may start with the address, is `Ran`: what is written is what the node sends
    // with the frames of the log, and nothing else. Memory is wanted only at a frame of the log that announces a message.
    ensures ran { preferred < null_address → (ended : Result Counts RunFault)
        × (result ≡ result_map_both Some (λ fault. fault) ended)
        × Ran (MakesAnswers (idle_node (name_raw name) preferred)) AsksForBoxes bus limit ended
        (turn R.remaining R.has_failed source.old source.new) (turn W.written W.has_failed sink.old sink.new) }

    // What was written is passed on at the end, and before each read.
    ensures flushed { preferred < null_address → PassesOn result (W.is_flushed sink.old) (W.is_flushed sink.new) }

    // Where a read ends the run, all that is sent at the whole lines before it was written.
    ensures kept_up { preferred < null_address → result ≡ Err Read
        → WritesWholeLines (MakesAnswers (idle_node (name_raw name) preferred)) bus (R.remaining source.old)
        (R.remaining source.new) (W.written sink.old) (W.written sink.new) }

    // No node starts with an address above 253, and then nothing is read or written.
    ensures none { result ≡ Ok None ↔ null_address ≤ preferred }
    ensures untouched { null_address ≤ preferred → (source.new ≡ source.old) × (sink.new ≡ sink.old) }
{
    let Some(claimer) = Claimer::new(name, preferred) else {
        return Ok(None);
    };
    match run_over(Answers::new(alloc, claimer), source, sink, bus, limit) {
        Ok(counts) => Ok(Some(counts)),
        Err(fault) => Err(fault),
    }
}

/// A node on a bus, what is heard there so far, and the numbers of what it sent.
#[derive(Drop)]
pub(crate) struct Answers {
    claimer: Claimer,
    listener: Listener,
    is_idle: bool,
    made: Made,
}

impl Answers {
    /// The node with no frames.
    fn new(alloc: Global, claimer: Claimer) -> Answers
        ensures { (node : Node) (bus : List ℕ) → IsNode claimer node → HasAnswered node bus result [] nothing }
    {
        Answers {
            claimer,
            listener: Listener::new(alloc),
            is_idle: true,
            made: Made::default(),
        }
    }
}

impl Account for Answers {
    ghost use Rattle.std.specs.Prelude.{⊤};
    ghost use Rattle.j39_address.specs.Node.{Node};
    ghost use Rattle.j39_listen.specs.AnswersSoFar.{HasAnswered};
    ghost use Rattle.j39_listen.specs.Asking.{AsksForBoxes};
    ghost use Rattle.j39_listen.specs.Output.{MakesAnswers};

    ghost Subject = { Node };

    ghost has_met = { HasAnswered };

    ghost makes = { MakesAnswers };

    ghost asks = { λ subject. AsksForBoxes };

    // Time passes for the node, and it hears the frame; then the listener does, whose message may command it. Where
    // memory is refused nothing was sent at the frame.
    fn feed<W: Sink>(&mut self, bus: &Bus, frame: &Frame, sink: &mut W) -> Result<(), LineFault> {
        let (started, answered) = call(&mut self.claimer, self.is_idle, frame);
        let noticed = match notice(&mut self.listener, frame) {
            Ok(noticed) => noticed,
            Err(AllocError) => return Err(LineFault::Memory),
        };
        let obeyed = obey(&mut self.claimer, noticed.command, frame.stamp);
        self.is_idle = false;
        let sent = Sent {
            started,
            answered,
            obeyed,
        };
        match put_sent(&sent, bus, sink) {
            Ok(lines) => {
                let messages = noticed.messages;
                self.made = self.made.and(Made { messages, lines });
                Ok(())
            }
            Err(DeviceFault) => Err(LineFault::Write),
        }
    }

    fn close<W: Sink>(&self, _: &mut W) -> Result<Made, DeviceFault> {
        Ok(self.made)
    }

    fn laws() {}
}

/// How many messages are heard at a frame, and whom they command to take which address.
#[derive(Drop)]
pub(crate) struct Noticed {
    messages: u64,
    command: Option<(Name, u8)>,
}

fn notice(listener: &mut Listener, frame: &Frame) -> Result<Noticed, AllocError>
    ensures notices { IfOk result (λ noticed. (F : List FrameRecord) → Hears listener.old F
        → Notices F frame.now noticed) }
    ensures hears { OnOk result ((F : List FrameRecord) → Hears listener.old F
        → Hears listener.new (F ++ frame.now ∷ [])) }
    ensures asked { OnErr result ((F : List FrameRecord) → Hears listener.old F → AsksForBoxes F frame.now) }
{
    match listener.feed(frame) {
        Err(AllocError) => Err(AllocError),
        Ok(None) => Ok(Noticed {
            messages: 0,
            command: None,
        }),
        Ok(Some(heard)) => Ok(Noticed {
            messages: 1,
            command: command_in(frame, &heard),
        }),
    }
}

/// The commanded address that a message is whose last packet is this frame; `None` where the frame goes to one
/// controller alone.
fn command_in(frame: &Frame, heard: &Heard<'_>) -> Option<(Name, u8)>
    ensures to_all { result ≢ None → destination_of frame.now.id ≡ Some global_address }
    ensures command { destination_of frame.now.id ≡ Some global_address
        → option_map command_by result ≡ commanded_of (pgn_raw heard.now.message.pgn) heard.now.message.payload.now }
{
    match frame.id.destination() {
        Some(destination) if destination == GLOBAL_ADDRESS => commanded_of(&heard.message),
        _ => None,
    }
}

/// The frames that a node sends at a frame: when it is started, for what it hears, and for a command.
#[derive(Drop)]
pub(crate) struct Sent {
    started: Option<Frame>,
    answered: Option<Frame>,
    obeyed: Option<Frame>,
}

/// Calls the node with a frame, and before the first one starts it: what it sends when it is started, and for what it hears.
fn call(claimer: &mut Claimer, is_idle: bool, frame: &Frame) -> (Option<Frame>, Option<Frame>)
    ensures { Obeys claimer.old (starts is_idle ++ hears frame.now) frame.now.stamp
        (option_to_list result.0 ++ option_to_list result.1) claimer.new }
{
    let now = frame.stamp;
    let started = start(claimer, is_idle, now);
    (started, hear(claimer, frame, now))
}

fn start(claimer: &mut Claimer, is_idle: bool, now: Stamp) -> Option<Frame>
    ensures { Obeys claimer.old (starts is_idle) (stamp_micros now) (option_to_list result) claimer.new }
{
    if is_idle { claimer.start(now) } else { None }
}

fn hear(claimer: &mut Claimer, frame: &Frame, now: Stamp) -> Option<Frame>
    ensures { Obeys claimer.old (hears frame.now) (stamp_micros now) (option_to_list result) claimer.new }
{
    claimer.tick(now);
    claimer.on(frame, now)
}

fn obey(claimer: &mut Claimer, command: Option<(Name, u8)>, now: Stamp) -> Option<Frame>
    ensures { Obeys claimer.old (commands (option_map command_by command)) (stamp_micros now)
        (option_to_list result) claimer.new }
{
    match command {
        Some((name, address)) => claimer.commanded(name, address, now),
        None => None,
    }
}

/// Writes a line for each frame that is sent, and answers how many.
fn put_sent<W: Sink>(sent: &Sent, bus: &Bus, sink: &mut W) -> Result<u64, DeviceFault>
    ensures lines { IfOk result (λ n. n ≡ length (all_sent sent.now)) }
    ensures puts { Puts (sent_text bus.now (all_sent sent.now)) result (turn W.written W.has_failed sink.old sink.new) }
{
    let started = put_answer(&sent.started, bus, sink)?;
    let answered = put_answer(&sent.answered, bus, sink)?;
    let obeyed = put_answer(&sent.obeyed, bus, sink)?;
    Ok(started + answered + obeyed)
}

/// Writes the line of a frame where there is one, and answers how many lines that is.
fn put_answer<W: Sink>(answer: &Option<Frame>, bus: &Bus, sink: &mut W) -> Result<u64, DeviceFault>
    ensures one { IfOk result (λ n. n ≤ 1) }
    ensures lines { IfOk result (λ n. n ≡ length (option_to_list answer.now)) }
    ensures puts { Puts (sent_text bus.now (option_to_list answer.now))
        result (turn W.written W.has_failed sink.old sink.new) }
{
    match answer {
        None => Ok(0),
        Some(frame) => {
            put_all(sink, line_of(frame, bus).as_slice())?;
            put_all(sink, b"\n")?;
            Ok(1)
        }
    }
}
