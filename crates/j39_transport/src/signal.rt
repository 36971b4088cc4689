//! What the frames of the transport protocol say (J1939-21, 5.10.3 and 5.10.4).
ghost use Rattle.std.specs.Prelude.{◌≡◌, ◌∷◌, length, drop};
ghost use Rattle.std.specs.Option.{option_map};
ghost use Rattle.j39_transport.specs.Cutting.{to_send};
ghost use Rattle.j39_transport.specs.Frames.{source_of, destination_of};
ghost use Rattle.j39_transport.specs.Key.{is_key, key_between};
ghost use Rattle.j39_transport.specs.Signals.{broadcast_in, request_in, packet_in, control_in, said_by, said_between, bytes_with, written};
ghost use Rattle.j39_transport.specs.Announced.{announced_by};
ghost use Rattle.j39_transport.specs.SignalModel.{said, IsFromAddress};
ghost use Rattle.j39_frame.specs.Pgn.{pgn_raw};

use crate::announcement::Announcement;
use crate::protocol::{
    ACKNOWLEDGMENT, BROADCAST_ANNOUNCE, CLEAR_TO_SEND, CONNECTION_ABORT, FILLER, NO_LIMIT,
    REQUEST_TO_SEND,
};
use crate::reading::{group_in, size_in};
use crate::writing;
use j39_frame::{Frame, GLOBAL_ADDRESS, Id, Pgn, is_address};

/// What a frame of the transport protocol says.
#[derive(Clone, Copy)]
pub(crate) enum Signal {
    /// A BAM: what it announces.
    BroadcastAnnounce(Announcement),
    /// An RTS: what it announces, and the most packets for one CTS.
    RequestToSend(Announcement, u8),
    /// A CTS: how many packets, the first of them, and the group.
    ClearToSend(u8, u8, u32),
    /// An end-of-message acknowledgment: size, packets and group.
    Acknowledgment(u16, u8, u32),
    /// An abort: its reason and the group.
    Abort(u8, u32),
    /// A packet: its number and its data.
    Packet(u8, [u8; 7]),
}

/// What a frame says, from its source to where it goes (PS); `None` where it says nothing. One of
/// another group costs its identifier alone.
#[tactic(auto, unfolding(crate::specs::Signals::said_by, crate::specs::Frames::group_of))]
pub(crate) fn read(frame: &Frame) -> Option<Signal>
    ensures value { option_map said result ≡ said_by frame.now }
    ensures address { IsFromAddress (source_of frame.now.id) result }
{
    if frame.id.is_transport_data() && frame.bytes.len() == 8 {
        read_packet(frame)
    } else if frame.id.is_transport_control() && frame.bytes.len() == 8 {
        read_control(frame)
    } else {
        None
    }
}

/// The group of the message that a frame announces: a BAM, or an RTS (J1939-21, 5.10.3); `None` for any other frame.
pub fn announced_group(frame: &Frame) -> Option<Pgn>
    ensures { option_map (λ pgn. pgn_raw pgn) result ≡ announced_by frame.now }
{
    match read(frame) {
        Some(Signal::BroadcastAnnounce(announcement)) => Some(announcement.group),
        Some(Signal::RequestToSend(announcement, _)) => Some(announcement.group),
        _ => None,
    }
}

/// What a frame says from one address to another; `None` for any other frame.
#[tactic(auto, unfolding(crate::specs::Signals::said_between))]
pub(crate) fn read_between(frame: &Frame, source: u8, destination: u8) -> Option<Signal>
    ensures { option_map said result ≡ said_between source destination frame.now }
{
    if source_in(frame) == source && destination_in(frame) == destination {
        read(frame)
    } else {
        None
    }
}

/// From which address to which one something goes.
#[derive(Clone, Copy)]
pub(crate) struct Pair {
    pub(crate) from: u8,
    pub(crate) to: u8,
}

impl Pair {
    /// From a frame's source to where it goes.
    pub(crate) fn of(frame: &Frame) -> Pair
        ensures from { result.from ≡ source_of frame.now.id }
        ensures to { result.to ≡ destination_of frame.now.id }
    {
        Pair {
            from: source_in(frame),
            to: destination_in(frame),
        }
    }

    /// The way back.
    pub(crate) fn back(self) -> Pair
        ensures from { result.from ≡ self.to }
        ensures to { result.to ≡ self.from }
    {
        Pair {
            from: self.to,
            to: self.from,
        }
    }
}

#[tactic(auto, unfolding(crate::specs::Frames::source_of))]
pub(crate) fn source_in(frame: &Frame) -> u8
    ensures { result ≡ source_of frame.now.id }
{
    frame.id.source()
}

#[tactic(auto, unfolding(crate::specs::Frames::destination_of))]
fn destination_in(frame: &Frame) -> u8
    ensures { result ≡ destination_of frame.now.id }
{
    frame.id.ps()
}

/// Whether packets go from one address to the other.
#[tactic(auto, unfolding(crate::specs::Key::key_between))]
fn goes_between(source: u8, destination: u8) -> bool
    ensures { result ≡ is_key (key_between source destination) }
{
    if destination == GLOBAL_ADDRESS {
        is_address(source)
    } else {
        is_address(source) && is_address(destination)
    }
}

#[tactic(auto, unfolding(crate::specs::Signals::packet_in, crate::specs::Key::key_between))]
fn read_packet(frame: &Frame) -> Option<Signal>
    requires { length frame.now.bytes ≡ 8 }
    ensures value { option_map said result ≡ packet_in frame.now }
    ensures address { IsFromAddress (source_of frame.now.id) result }
{
    let bytes = frame.bytes.as_slice();
    if goes_between(source_in(frame), destination_in(frame)) {
        Some(Signal::Packet(bytes[0], packet(bytes)))
    } else {
        None
    }
}

/// The data of a packet.
fn packet(bytes: &[u8]) -> [u8; 7]
    requires { length bytes.now ≡ 8 }
    ensures { result ≡ drop 1 bytes.now }
{
    let mut part = [0; 7];
    part.copy_from_slice(&bytes[1..]);
    part
}

#[tactic(auto, unfolding(crate::specs::Signals::control_in))]
fn read_control(frame: &Frame) -> Option<Signal>
    requires { length frame.now.bytes ≡ 8 }
    ensures value { option_map said result ≡ control_in frame.now }
    ensures address { IsFromAddress (source_of frame.now.id) result }
{
    let bytes = frame.bytes.as_slice();
    match bytes[0] {
        REQUEST_TO_SEND => read_request(frame),
        BROADCAST_ANNOUNCE => read_broadcast(frame),
        CLEAR_TO_SEND => Some(Signal::ClearToSend(bytes[1], bytes[2], group_in(bytes))),
        ACKNOWLEDGMENT => Some(Signal::Acknowledgment(size_in(bytes), bytes[3], group_in(bytes))),
        CONNECTION_ABORT => Some(Signal::Abort(bytes[1], group_in(bytes))),
        _ => None,
    }
}

#[tactic(auto, unfolding(crate::specs::Signals::request_in, crate::specs::Frames::names_message))]
fn read_request(frame: &Frame) -> Option<Signal>
    requires { length frame.now.bytes ≡ 8 }
    ensures value { option_map said result ≡ request_in frame.now }
    ensures address { IsFromAddress (source_of frame.now.id) result }
{
    let bytes = frame.bytes.as_slice();
    if is_address(source_in(frame)) && is_address(destination_in(frame)) {
        let announcement = Announcement::new(group_in(bytes), size_in(bytes), bytes[3])?;
        Some(Signal::RequestToSend(announcement, bytes[4]))
    } else {
        None
    }
}

#[tactic(auto, unfolding(crate::specs::Signals::broadcast_in, crate::specs::Frames::names_message))]
fn read_broadcast(frame: &Frame) -> Option<Signal>
    requires { length frame.now.bytes ≡ 8 }
    ensures value { option_map said result ≡ broadcast_in frame.now }
    ensures address { IsFromAddress (source_of frame.now.id) result }
{
    let bytes = frame.bytes.as_slice();
    if is_address(source_in(frame)) && destination_in(frame) == GLOBAL_ADDRESS {
        let announcement = Announcement::new(group_in(bytes), size_in(bytes), bytes[3])?;
        Some(Signal::BroadcastAnnounce(announcement))
    } else {
        None
    }
}

/// The frame that says something from one address to another.
#[tactic(auto, unfolding(crate::specs::Signals::written))]
pub(crate) fn write(signal: Signal, source: u8, destination: u8) -> (Id, [u8; 8])
    ensures { to_send result ≡ written source destination (said signal) }
{
    let id = match signal {
        Signal::Packet(_, _) => writing::data_id(source, destination),
        _ => writing::control_id(source, destination),
    };
    (id, bytes_with(signal))
}

fn bytes_with(signal: Signal) -> [u8; 8]
    ensures { result ≡ bytes_with (said signal) }
{
    match signal {
        Signal::BroadcastAnnounce(a) => writing::announcement_bytes(
            BROADCAST_ANNOUNCE,
            a.size,
            a.packets,
            NO_LIMIT,
            a.group.raw(),
        ),
        Signal::RequestToSend(a, most) => {
            writing::announcement_bytes(REQUEST_TO_SEND, a.size, a.packets, most, a.group.raw())
        }
        Signal::ClearToSend(count, next, pgn) => writing::clear_to_send_bytes(count, next, pgn),
        Signal::Acknowledgment(size, packets, pgn) => {
            writing::announcement_bytes(ACKNOWLEDGMENT, size, packets, FILLER, pgn)
        }
        Signal::Abort(reason, pgn) => writing::abort_bytes(reason, pgn),
        Signal::Packet(number, part) => writing::packet_bytes(number, part),
    }
}
