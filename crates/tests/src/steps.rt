//! What is done with a controller, and what it answers: the tables of the tests, and their one reader. Frames are given as the lines
//! that a standard's reader would write.
use crate::setup::setup;
use j39_address::{Name, Status};
use j39_frame::{Frame, GLOBAL_ADDRESS, Id, Pgn, Stamp};
use j39_log::{Bus, Line, line_of, read_line};
use j39_node::{Answer, AskEnding, Controller, Ending, News, Refused, Setup, TransferEnding};
use j39_transport::Message;
use std::alloc::Global;
use std::test::Fail;

/// A step of a table. Moments are microseconds.
pub(crate) enum Step {
    /// It hears the frame of this line.
    Hears(&'static str),
    /// So many times.
    HearsOften(u8, &'static str),
    /// It hears the packets of these numbers, which 11 sends to this address (255: all) 50 ms apart, the first at this moment.
    HearsPackets(u64, u8, u8, u8),
    /// Time passes till this moment.
    Ticks(u64),
    /// At this moment it would give the frame of this line, or none, and gives it.
    Gives(u64, Option<&'static str>),
    /// It would, and isn't asked to.
    WouldGive(u64, Option<&'static str>),
    /// At this moment it takes group 65265 with these bytes, priority 6, to this address: its token, or why not.
    Sends(u64, u8, &'static [u8], Result<u64, Refused>),
    /// These bytes take the place of those of a message of group 65265 to all that waits: its token.
    Renews(&'static [u8], Option<u64>),
    /// It takes back the message of this token, or there is none.
    Withdraws(u64, bool),
    /// At this moment it takes group 65226 with these bytes to be broadcast: its token, or why not.
    Broadcasts(u64, &'static [u8], Result<u64, Refused>),
    /// At this moment it takes group 65226 with these bytes to be sent in packets to this address: its token, or why not.
    Transfers(u64, u8, &'static [u8], Result<u64, Refused>),
    /// At this moment it is to ask this address for this group: its token, or why not.
    Asks(u64, u32, u8, Result<u64, Refused>),
    /// It tells this end of a message.
    Ends(Option<(u64, Ending)>),
    /// Of a broadcast.
    EndsBroadcast(Option<(u64, Ending)>),
    /// Of a transfer.
    EndsTransfer(Option<(u64, TransferEnding)>),
    /// Of a request.
    EndsAsk(Option<(u64, AskEnding)>),
    /// It tells this.
    Tells(Option<News>),
    /// It hands out a message of this source, priority, group and bytes.
    HandsOut(u8, u8, u32, &'static [u8]),
    HandsOutNone,
    /// It hands out a request of this source for this group, which is acknowledged at this moment, so: whether it takes it.
    IsAsked(u8, u32, u64, Answer, bool),
    IsAskedNothing,
    /// A transfer of this source, group and bytes lies there.
    HasTransfer(u8, u32, &'static [u8]),
    HasNoTransfer,
    /// It makes room for a transfer, and one lay there.
    ReleasesTransfer(bool),
    /// A broadcast of this source, its last packet heard at this moment, of group 65260 and these bytes lies there.
    HasBroadcast(u8, u64, &'static [u8]),
    HasNoBroadcast,
    /// It makes room for a broadcast, and one lay there.
    ReleasesBroadcast(bool),
    /// It is so far with its address.
    Is(Status),
    /// It claims its address anew.
    Again(u64),
    /// It moves to this address.
    Moves(u8),
    /// Its next frame is due at this moment.
    IsDue(Option<u64>),
    /// A tick does something at this moment.
    Wakes(Option<u64>),
    /// This address is held by this NAME.
    Holder(u8, Option<u64>),
    /// This NAME holds this address.
    AddressOf(u64, Option<u8>),
    /// So many messages were missed.
    Missed(u64),
}

use Step::{
    AddressOf, Again, Asks, Broadcasts, Ends, EndsAsk, EndsBroadcast, EndsTransfer, Gives,
    HandsOut, HandsOutNone, HasBroadcast, HasNoBroadcast, HasNoTransfer, HasTransfer, Hears,
    HearsOften, HearsPackets, Holder, Is, IsAsked, IsAskedNothing, IsDue, Missed, Moves,
    ReleasesBroadcast, ReleasesTransfer, Renews, Sends, Tells, Ticks, Transfers, Wakes, Withdraws,
    WouldGive,
};

pub(crate) fn frame(line: &str) -> Option<Frame> {
    match read_line(line.as_bytes()) {
        Line::Frame { frame, .. } => Some(frame),
        _ => None,
    }
}

/// Shows the controller the frame of this line, at its stamp.
pub(crate) fn hear_line(node: &mut Controller, line: &str) -> Option<bool> {
    let heard = frame(line)?;
    node.hear(&heard, heard.stamp);
    Some(true)
}

/// Whether what is given is the frame of this line, or nothing where there is no line.
pub(crate) fn is_line(given: Option<Frame>, wanted: Option<&str>) -> Option<bool> {
    let bus = Bus::new(b"can0")?;
    Some(match (given, wanted) {
        (Some(frame), Some(line)) => line_of(&frame, &bus).as_slice() == line.as_bytes(),
        (given, wanted) => given.is_none() && wanted.is_none(),
    })
}

fn hears_often(node: &mut Controller, times: u8, line: &str) -> Option<bool> {
    for _time in 0..times {
        hear_line(node, line)?;
    }
    Some(true)
}

fn hears_packets(node: &mut Controller, micros: u64, to: u8, first: u8, last: u8) -> Option<bool> {
    let id = Id::compose(7, Pgn::new(60_160)?, to, 11)?;
    for number in first..=last {
        let now = Stamp::new(micros.checked_add(50_000 * u64::from(number - first))?)?;
        node.hear(&Frame::new(now, id, &[number, 0, 0, 0, 0, 0, 0, 0])?, now);
    }
    Some(true)
}

fn gives(node: &mut Controller, now: Stamp, wanted: Option<&str>) -> Option<bool> {
    let would = is_line(node.peek_frame(now), wanted)?;
    Some(is_line(node.take_frame(now), wanted)? && would)
}

fn sends(node: &mut Controller, now: Stamp, to: u8, bytes: &[u8]) -> Option<Result<u64, Refused>> {
    let group = if to == GLOBAL_ADDRESS { 65_265 } else { 0 };
    Some(node.send(now, 6, Pgn::new(group)?, to, bytes))
}

fn hands_out(
    node: &mut Controller,
    source: u8,
    priority: u8,
    group: u32,
    bytes: &[u8],
) -> Option<bool> {
    let message = node.take_received()?;
    let is_head = message.source == source && message.priority == priority;
    Some(is_head && message.group.raw() == group && message.bytes.as_slice() == bytes)
}

fn is_asked(
    node: &mut Controller,
    source: u8,
    group: u32,
    now: Stamp,
    answer: Answer,
) -> Option<bool> {
    let request = node.take_request()?;
    if request.source != source || request.group.raw() != group {
        return None;
    }
    Some(node.acknowledge(now, request, answer).is_ok())
}

fn lies_there(found: Option<Message<'_>>, source: u8, group: u32, bytes: &[u8]) -> Option<bool> {
    let message = found?;
    let is_payload = message.payload == bytes;
    Some(is_payload && message.source == source && message.pgn.raw() == group)
}

/// What it tells, and how it stands; `None` where that isn't the step.
fn tells(node: &mut Controller, step: &Step) -> Option<bool> {
    Some(match step {
        Ends(wanted) => node.take_ended() == *wanted,
        EndsBroadcast(wanted) => node.take_broadcast_ended() == *wanted,
        EndsTransfer(wanted) => node.take_transfer_ended() == *wanted,
        EndsAsk(wanted) => node.take_ask_ended() == *wanted,
        Tells(wanted) => node.take_news() == *wanted,
        Is(status) => node.status() == *status,
        Again(micros) => {
            node.again(Stamp::new(*micros)?);
            true
        }
        Moves(address) => node.move_to(*address),
        IsDue(wanted) => node.next_due().map(Stamp::micros) == *wanted,
        Wakes(wanted) => node.next_tick().map(Stamp::micros) == *wanted,
        Holder(address, wanted) => node.holder(*address).map(Name::raw) == *wanted,
        AddressOf(name, wanted) => node.address_of(Name::new(*name)) == *wanted,
        Missed(wanted) => node.missed() == *wanted,
        _ => return None,
    })
}

/// What it hands out; else as `tells`.
fn hands(node: &mut Controller, step: &Step) -> Option<bool> {
    match step {
        HandsOut(source, priority, group, bytes) => {
            hands_out(node, *source, *priority, *group, bytes)
        }
        HandsOutNone => Some(node.take_received().is_none()),
        IsAsked(source, group, micros, answer, taken) => {
            let now = Stamp::new(*micros)?;
            Some(is_asked(node, *source, *group, now, *answer)? == *taken)
        }
        IsAskedNothing => Some(node.take_request().is_none()),
        HasTransfer(source, group, bytes) => {
            lies_there(node.received_transfer(), *source, *group, bytes)
        }
        HasNoTransfer => Some(node.received_transfer().is_none()),
        ReleasesTransfer(wanted) => Some(node.release_transfer() == *wanted),
        HasBroadcast(source, micros, bytes) => {
            let message = node.received_broadcast()?;
            let is_then = message.stamp.micros() == *micros;
            Some(is_then && lies_there(Some(message), *source, 65_260, bytes)?)
        }
        HasNoBroadcast => Some(node.received_broadcast().is_none()),
        ReleasesBroadcast(wanted) => Some(node.release_broadcast() == *wanted),
        _ => tells(node, step),
    }
}

/// What it is handed to send; else as `hands`.
fn takes(node: &mut Controller, step: &Step) -> Option<bool> {
    match step {
        Sends(micros, to, bytes, wanted) => {
            Some(sends(node, Stamp::new(*micros)?, *to, bytes)? == *wanted)
        }
        Renews(bytes, wanted) => {
            Some(node.renew(6, Pgn::new(65_265)?, GLOBAL_ADDRESS, bytes) == *wanted)
        }
        Withdraws(token, wanted) => Some(node.withdraw(*token) == *wanted),
        Broadcasts(micros, bytes, wanted) => {
            Some(node.broadcast(Stamp::new(*micros)?, Pgn::new(65_226)?, bytes) == *wanted)
        }
        Transfers(micros, to, bytes, wanted) => {
            Some(node.transfer(Stamp::new(*micros)?, 7, Pgn::new(65_226)?, *to, bytes) == *wanted)
        }
        Asks(micros, group, to, wanted) => {
            Some(node.ask(Stamp::new(*micros)?, Pgn::new(*group)?, *to) == *wanted)
        }
        _ => hands(node, step),
    }
}

/// Whether the controller does as the step says; `None` where the step isn't one.
pub(crate) fn does(node: &mut Controller, step: &Step) -> Option<bool> {
    match step {
        Hears(line) => hear_line(node, line),
        HearsOften(times, line) => hears_often(node, *times, line),
        HearsPackets(micros, to, first, last) => hears_packets(node, *micros, *to, *first, *last),
        Ticks(micros) => {
            node.tick(Stamp::new(*micros)?);
            Some(true)
        }
        Gives(micros, wanted) => gives(node, Stamp::new(*micros)?, *wanted),
        WouldGive(micros, wanted) => is_line(node.peek_frame(Stamp::new(*micros)?), *wanted),
        _ => takes(node, step),
    }
}

/// The place of the first step that the controller doesn't take as it says.
pub(crate) fn wrong_step(node: &mut Controller, steps: &[Step]) -> Option<usize> {
    for (place, step) in steps.iter().enumerate() {
        if does(node, step) != Some(true) {
            return Some(place);
        }
    }
    None
}

/// A controller of this setup.
pub(crate) fn made(alloc: Global, setup: &Setup<'_>) -> Result<Controller, Fail> {
    let node = Controller::new(alloc, setup)?.ok_or("controller")?;
    Ok(node)
}

/// One of NAME 2 for address 128, which serves these groups.
pub(crate) fn controller(alloc: Global, served: &[Pgn]) -> Result<Controller, Fail> {
    made(alloc, &setup(2, 128, served))
}

/// The place of the first step of these that a new controller, which serves no group, doesn't take as it says.
pub(crate) fn wrong_of(alloc: Global, steps: &[Step]) -> Result<Option<usize>, Fail> {
    let mut node = controller(alloc, &[])?;
    Ok(wrong_step(&mut node, steps))
}
