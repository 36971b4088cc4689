//! Asking others for groups (J1939-21, 5.4.2 and 5.4.4).
ghost use Rattle.std.specs.Prelude.{◌≡◌, ◌&&◌, ◌||◌, ◌%◌, ◌/◌, ℕ, List, [], ◌∷◌, nat_lt, nat_eq, not, None, Some, Option, IsSome, IfSome, Bool, IsSomeAnd, true, false, ◌↔◌, if◌then◌else◌};
ghost use Rattle.std.specs.List.{slice_get};
ghost use Rattle.std.specs.Option.{option_map};
ghost use Rattle.j39_frame.specs.Identifier.{source_of};
ghost use Rattle.j39_frame.specs.Pgn.{pgn_raw};
ghost use Rattle.j39_node.specs.History.{carried, is_some, message_from, request_for, nothing};
ghost use Rattle.j39_frame.specs.Identifier.{id_raw};
ghost use Rattle.j39_frame.specs.Stamp.{stamp_micros};
ghost use Rattle.j39_node.specs.Is.{claims_request, hearing_of, incoming_of, posted, stamped, who_of};
ghost use Rattle.j39_node.specs.Asking.{can_ask, first, is_answer, is_of, is_reply, question, reaches, said_by, says_to, seeks, silent_end};

use crate::hearing::Hearing;
use crate::incoming::Incoming;
use crate::outgoing::{Outgoing, is_sendable};
use crate::own::{ACKNOWLEDGMENT, ADDRESS_CLAIMED, Own, REQUEST, is_to, is_undirected};
use crate::{Answer, AskEnding};
use j39_frame::{Frame, GLOBAL_ADDRESS, Id, NULL_ADDRESS, Pgn, Stamp};

/// A request that is not told to have ended.
#[derive(Drop)]
pub(crate) struct Open {
    pub(crate) token: u64,
    pub(crate) group: Pgn,
    /// Whom it asks; 255 is all.
    pub(crate) to: u8,
    pub(crate) is_taken: bool,
    /// How it ended, by what was heard.
    pub(crate) ending: Option<AskEnding>,
}

impl Open {
    ghost use Rattle.j39_node.specs.Is.{ask_record};

    /// One that was accepted.
    pub(crate) fn new(token: u64, group: Pgn, to: u8) -> Open
        ensures { ask_record result
            ≡ record { question = question token (pgn_raw group) to; taken = false; ending = None } }
    {
        Open {
            token,
            group,
            to,
            is_taken: false,
            ending: None,
        }
    }

    /// A frame is heard, before which it ended so without a word, or not.
    fn hear(
        &mut self,
        own: &Own,
        silence: Option<AskEnding>,
        frame: &Frame,
        made: Option<(u8, u32)>,
    )
        ensures question { (ask_record self.new).question ≡ (ask_record self.old).question }
        ensures taken { self.new.is_taken ≡ self.old.is_taken }
        ensures ending { self.new.ending ≡ first self.old.ending (first silence
            (if self.old.is_taken then says_to (who_of nothing own.now) (ask_record self.old).question frame.now made else None)) }
    {
        let heard = if self.is_taken {
            self.says(own, frame, made)
        } else {
            None
        };
        self.ending = first(self.ending, first(silence, heard));
    }

    /// What a frame says to it.
    fn says(&self, own: &Own, frame: &Frame, made: Option<(u8, u32)>) -> Option<AskEnding>
        ensures { result ≡ says_to (who_of nothing own.now) (ask_record self.now).question frame.now made }
    {
        if self.seeks(made) {
            Some(AskEnding::Answered)
        } else if !reaches(own, frame) {
            None
        } else if self.is_answer(frame) {
            Some(AskEnding::Answered)
        } else if self.is_reply(own, frame) {
            said_by(frame.bytes.as_slice())
        } else {
            None
        }
    }

    /// Whether a message in packets of this source and group answers it.
    fn seeks(&self, message: Option<(u8, u32)>) -> bool
        ensures { result ≡ seeks (ask_record self.now).question message }
    {
        match message {
            Some((source, group)) => {
                group == self.group.raw() && (self.to == GLOBAL_ADDRESS || source == self.to)
            }
            None => false,
        }
    }

    fn is_answer(&self, frame: &Frame) -> bool
        ensures { result ≡ is_answer (ask_record self.now).question frame.now }
    {
        frame.id.pgn().raw() == self.group.raw()
            && (self.to == GLOBAL_ADDRESS || frame.id.source() == self.to)
    }

    fn is_reply(&self, own: &Own, frame: &Frame) -> bool
        ensures { result ≡ is_reply (who_of nothing own.now) (ask_record self.now).question frame.now }
    {
        frame.id.pgn().raw() == ACKNOWLEDGMENT
            && (frame.id.source() == self.to
                && is_of(own.address, self.group, frame.bytes.as_slice()))
    }
}

/// The requests: one is open at a time.
#[derive(Drop)]
pub(crate) struct Asking {
    pub(crate) current: Option<Open>,
}

impl Asking {
    ghost use Rattle.j39_node.specs.Asking.{has_token, is_asking, is_coming};
    ghost use Rattle.j39_node.specs.Is.{ended_with, hears_with, silence, waits_with};
    ghost use Rattle.j39_node.specs.Is.{AskRecord, asking_of, ask_record};

    /// None was accepted.
    pub(crate) fn new() -> Asking
        ensures { result ≡ record { current = None } }
    {
        Asking { current: None }
    }

    /// Whether one is open.
    pub(crate) fn is_open(&self) -> bool
        ensures { result ≡ is_asking (option_map (λ x. x.question) (asking_of self.now)) }
    {
        self.current.is_some()
    }

    /// The message of this token was taken; whether it was the request.
    pub(crate) fn take(&mut self, token: u64) -> bool
        ensures current { asking_of self.new ≡ option_map (λ x. (let r : AskRecord = record
            { question = x.question; taken = x.taken || nat_eq x.question.token token; ending = x.ending } in r))
            (asking_of self.old) }
        ensures value { result ≡ has_token (option_map (λ x. x.question) (asking_of self.old)) token }
    {
        match &mut self.current {
            Some(open) => {
                let is_request = open.token == token;
                open.is_taken = open.is_taken || is_request;
                is_request
            }
            None => false,
        }
    }

    /// Whether an answer to the open request is on its way at this time, in a session or a broadcast.
    pub(crate) fn is_coming(&self, incoming: &Incoming, hearing: &Hearing, time: Stamp) -> bool
        ensures { result ≡ is_coming (stamp_micros time) (option_map (λ x. x.question) (asking_of self.now)) (incoming_of incoming.now).reception.sessions (hearing_of hearing.now).listening.current }
    {
        match &self.current {
            Some(open) => {
                incoming.is_open(open.to, open.group)
                    || hearing.is_coming(open.group.raw(), open.to, time)
            }
            None => false,
        }
    }

    /// How the open request ended without a word, with so much left of its time.
    pub(crate) fn silence(&self, left: u32, is_coming: bool, is_lost: bool) -> Option<AskEnding>
        ensures { result ≡ silence left is_coming is_lost (asking_of self.now) }
    {
        match &self.current {
            Some(open) => silent_end(open.is_taken, left, is_coming, is_lost),
            None => None,
        }
    }

    /// A frame is heard, before which the open request ended so without a word, or not.
    pub(crate) fn hear(
        &mut self,
        own: &Own,
        silence: Option<AskEnding>,
        frame: &Frame,
        made: Option<(u8, u32)>,
    )
        ensures { asking_of self.new
            ≡ option_map (hears_with (who_of nothing own.now) silence frame.now made) (asking_of self.old) }
    {
        if let Some(open) = &mut self.current {
            open.hear(own, silence, frame, made);
        }
    }

    /// How the open request ended: so without a word, if no other end came before.
    pub(crate) fn ended(&self, silence: Option<AskEnding>) -> Option<(u64, AskEnding)>
        ensures { result ≡ ended_with silence (asking_of self.now) }
    {
        match &self.current {
            Some(open) => {
                let ending = first(open.ending, silence)?;
                Some((open.token, ending))
            }
            None => None,
        }
    }

    /// Whether the open request waits for an answer, and none is coming.
    pub(crate) fn is_waiting(&self, is_coming: bool) -> bool
        ensures { result ≡ waits_with is_coming (asking_of self.now) }
    {
        match &self.current {
            Some(open) => match open.ending {
                Some(_ending) => false,
                None => open.is_taken && !is_coming,
            },
            None => false,
        }
    }
}

/// The message that asks an address, or all (255), for a group; `None` where none may.
pub(crate) fn request(token: u64, own: &Own, group: Pgn, to: u8) -> Option<Outgoing>
    ensures known { IsSome result ↔ (can_ask (who_of nothing own.now) (pgn_raw group) to ≡ true) }
    ensures value { IfSome result (λ x. posted x
        ≡ (token, message_from (who_of nothing own.now) (request_for (pgn_raw group) to))) }
{
    if !(is_sendable(group) || group.raw() == ADDRESS_CLAIMED) {
        return None;
    }
    let asked = Pgn::new(REQUEST)?;
    let [low, middle, high, _top] = group.raw().to_le_bytes();
    Outgoing::new(token, own, 6, asked, to, &[low, middle, high])
}

/// A request for claims from the null address.
pub(crate) fn claims_request(to: u8, now: Stamp) -> Option<Frame>
    ensures { option_map stamped result ≡ Some (stamp_micros now, claims_request to) }
{
    let id = request_id(to)?;
    Frame::new(now, id, &[0x00, 0xEE, 0x00])
}

fn request_id(to: u8) -> Option<Id>
    ensures { IsSomeAnd result (λ id. (bytes : List ℕ) → carried (id_raw id) bytes ≡ record
        { source = 254; destination = Some to; priority = 6; group = 59904; bytes = bytes }) }
{
    let group = Pgn::new(REQUEST)?;
    Id::compose(6, group, to, NULL_ADDRESS)
}

fn first(one: Option<AskEnding>, later: Option<AskEnding>) -> Option<AskEnding>
    ensures { result ≡ first one later }
{
    match one {
        Some(ending) => Some(ending),
        None => later,
    }
}

/// How a request ended without a word.
fn silent_end(is_taken: bool, left: u32, is_coming: bool, is_lost: bool) -> Option<AskEnding>
    ensures { result ≡ silent_end is_taken left is_coming is_lost }
{
    if is_taken && (left == 0 && !is_coming) {
        Some(AskEnding::TimedOut)
    } else if is_lost {
        Some(AskEnding::Withdrawn)
    } else {
        None
    }
}

/// Whether an address sends the frame, to all or to this one.
fn reaches(own: &Own, frame: &Frame) -> bool
    ensures { result ≡ reaches (who_of nothing own.now) frame.now }
{
    frame.id.source() < NULL_ADDRESS
        && (is_undirected(frame) || (is_to(frame, GLOBAL_ADDRESS) || is_to(frame, own.address)))
}

/// What the control byte of an acknowledgment says.
fn said_by(bytes: &[u8]) -> Option<AskEnding>
    ensures { result ≡ said_by (slice_get bytes.now 0) }
{
    match bytes.get(0) {
        Some(control) => ending_by(*control),
        None => None,
    }
}

fn ending_by(control: u8) -> Option<AskEnding>
    ensures { result ≡ said_by (Some control) }
{
    if control == 0 {
        Some(AskEnding::Acknowledged(Answer::Ack))
    } else if control == 1 {
        Some(AskEnding::Acknowledged(Answer::Nack))
    } else if control == 2 {
        Some(AskEnding::Acknowledged(Answer::Denied))
    } else if control == 3 {
        Some(AskEnding::Acknowledged(Answer::Busy))
    } else {
        None
    }
}

/// Whether an acknowledgment is of the group, and of this address or of none.
fn is_of(own: u8, group: Pgn, bytes: &[u8]) -> bool
    ensures { result ≡ is_of own (pgn_raw group) bytes.now }
{
    let [low, middle, high, _top] = group.raw().to_le_bytes();
    (has_at(bytes, 4, own) || has_at(bytes, 4, 255))
        && (has_at(bytes, 5, low) && (has_at(bytes, 6, middle) && has_at(bytes, 7, high)))
}

fn has_at(bytes: &[u8], at: usize, value: u8) -> bool
    ensures { result ≡ is_some (slice_get bytes.now at) value }
{
    match bytes.get(at) {
        Some(byte) => *byte == value,
        None => false,
    }
}
