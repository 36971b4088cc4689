//! What calls write out, as C has it.
ghost use Rattle.std.specs.Prelude.{◌≡◌, ◌↔◌, ◌<◌, ◌^◌, None, Some, IfSome, IsSome, IfOk, pos, ◌∷◌, [], ℕ};
ghost use Rattle.j39_application.specs.Sending.{coded, numbers, way_told};
ghost use Rattle.j39_application.specs.declared.sending.Way.{Way};
ghost use Rattle.j39_application.specs.declared.sending.Way.TheVariants as way;
ghost use Rattle.std.specs.Option.{option_map};
ghost use Rattle.j39_address.specs.Name.{name_raw};
ghost use Rattle.j39_frame.specs.Stamp.{stamp_micros};
ghost use Rattle.j39_node.specs.Is.{received_by, request_by};
ghost use Rattle.j39_c.specs.Calls.{Answers, Fills, Puts};
ghost use Rattle.j39_c.specs.Codes.{IsDone, bad_value, full, no_address, told};
ghost use Rattle.j39_c.specs.Controllers.{IsAccepted, IsRefusal, IsTaken, IsEnded, answer_in, ask_ending_in, ending_in, request_in, short_in, transfer_ending_in};
ghost use Rattle.j39_c.specs.Messages.{hearing_in, marked};

use crate::message::WholeMessage;
use crate::refusal::Refusal;
use j39_address::Name;
use j39_application::{End, Token, Way};
use j39_frame::{Pgn, Stamp};
use j39_node::{Answer, AskEnding, Ending, Received, Refused, Request, TransferEnding};
use j39_transport::Message;

/// A request for a group, `j1939_request` of the header.
#[repr(C)]
#[derive(Clone, Copy, Debug)]
pub struct PlainRequest {
    /// The NAME that held the source when it was heard first, where `is_named` isn't 0.
    pub name: u64,
    /// The group that is asked for.
    pub pgn: u32,
    /// The address that asks.
    pub source: u8,
    /// 255 where all are asked, else the controller's address.
    pub destination: u8,
    /// 0 where nobody held it.
    pub is_named: u8,
}

/// How what was accepted ended, `j1939_ended` of the header.
#[repr(C)]
#[derive(Clone, Copy, Debug)]
pub struct PlainEnded {
    /// Its token.
    pub token: u64,
    /// 1 done, 2 withdrawn, 3 failed, 4 its destination is gone, 5 acknowledged, 6 it timed out.
    pub ending: u8,
    /// The reason where it failed; how a request was acknowledged; else 0.
    pub detail: u8,
}

/// Writes out what was found: 1, or 0 where there is none.
pub(crate) fn put<T: Copy>(found: Option<T>, out: &mut T) -> i32
    ensures { Puts found 1 (pos 1 ∷ []) result (told result out.new) (out.new ≡ out.old) }
{
    match found {
        Some(found) => {
            *out = found;
            1
        }
        None => 0,
    }
}

/// Writes out a NAME: 1, or 0 where there is none.
pub(crate) fn put_name(holder: Option<Name>, name: &mut u64) -> i32
    ensures { Puts (option_map name_raw holder) 1 (pos 1 ∷ []) result (told result name.new)
        (name.new ≡ name.old) }
{
    put(holder.map(Name::raw), name)
}

/// Writes out a moment in microseconds: 1, or 0 where there is none.
pub(crate) fn put_moment(moment: Option<Stamp>, micros: &mut u64) -> i32
    ensures { Puts (option_map stamp_micros moment) 1 (pos 1 ∷ []) result (told result micros.new)
        (micros.new ≡ micros.old) }
{
    put(moment.map(Stamp::micros), micros)
}

/// Writes out the token of what was accepted: 1, or why it wasn't.
pub(crate) fn put_sent(answer: Result<Token, Refused>, token: &mut u64) -> i32
    ensures told { (w : Way) → IfOk answer (λ t. t.way ≡ w) → IsAccepted w result token.new (numbers answer) }
    ensures answers { Answers 1 (bad_value ∷ no_address ∷ full ∷ []) result }
    ensures fills { Fills (pos 1 ∷ []) result (token.new ≡ token.old) }
{
    match answer {
        Ok(accepted) => {
            *token = accepted.code();
            1
        }
        Err(why) => refused(why),
    }
}

/// Writes out the token of a request that was accepted: 1, or why it wasn't.
pub(crate) fn put_token(answer: Result<u64, Refused>, token: &mut u64) -> i32
    ensures told { IsAccepted way.Frame result token.new answer }
    ensures answers { Answers 1 (bad_value ∷ no_address ∷ full ∷ []) result }
    ensures fills { Fills (pos 1 ∷ []) result (token.new ≡ token.old) }
{
    match answer {
        Ok(accepted) => {
            *token = frame_code(accepted);
            1
        }
        Err(why) => refused(why),
    }
}

/// The token of what goes in one frame, as C has it.
pub(crate) fn frame_code(number: u64) -> u64
    ensures { result ≡ coded way.Frame number }
{
    Token::new(Way::Frame, number).code()
}

/// Whether an acknowledgment was accepted: 0, or why it wasn't.
pub(crate) fn taken(answer: Result<(), Refused>) -> i32
    ensures told { IsTaken result answer }
    ensures answers { Answers 0 (bad_value ∷ no_address ∷ full ∷ []) result }
{
    match answer {
        Ok(_accepted) => 0,
        Err(why) => refused(why),
    }
}

/// Why nothing was accepted, as a number.
pub(crate) fn refused(why: Refused) -> i32
    ensures told { IsRefusal why result }
    ensures answers { Answers 0 (bad_value ∷ no_address ∷ full ∷ []) result }
{
    match why {
        Refused::NoAddress => Refusal::NoAddress.code(),
        Refused::BadValue => Refusal::BadValue.code(),
        Refused::Full => Refusal::Full.code(),
    }
}

/// Writes out a message of one frame, with its sender's NAME, and its priority.
pub(crate) fn put_received(message: &Received, out: &mut WholeMessage, priority: &mut u8)
    ensures value { short_in out.new priority.new ≡ received_by message.now }
    ensures named { (hearing_in out.new).name ≡ option_map name_raw message.now.name }
{
    let whole = Message {
        source: message.source,
        pgn: message.group,
        payload: message.bytes.as_slice(),
        stamp: message.stamp,
    };
    out.put_message(&whole, message.name);
    out.put_destination(message.destination);
    *priority = message.priority;
}

/// Writes out a request: 1, or 0 where there is none.
pub(crate) fn put_request(request: Option<Request>, out: &mut PlainRequest) -> i32
    ensures puts { Puts (option_map request_by request) 1 (pos 1 ∷ []) result (told result (request_in out.new))
        (out.new ≡ out.old) }
    ensures asker { IfSome request (λ r. marked out.new.is_named out.new.name ≡ option_map name_raw r.name) }
{
    let Some(request) = request else {
        return 0;
    };
    let (name, is_named) = marked_name(request.name);
    *out = PlainRequest {
        name,
        pgn: request.group.raw(),
        source: request.source,
        destination: request.destination,
        is_named,
    };
    1
}

/// The request that C hands in, `None` for a group of 2^18 and above.
pub(crate) fn request_of(request: &PlainRequest) -> Option<Request>
    ensures known { IsSome result ↔ (request.now.pgn < 2 ^ 18) }
    ensures value { IfSome result (λ r. request_by r ≡ request_in request.now) }
{
    let group = Pgn::new(request.pgn)?;
    Some(Request {
        source: request.source,
        name: None,
        destination: request.destination,
        group,
    })
}

/// How a request is acknowledged, by its number.
pub(crate) fn answer_of(number: u8) -> Option<Answer>
    ensures { result ≡ answer_in number }
{
    match number {
        0 => Some(Answer::Ack),
        1 => Some(Answer::Nack),
        2 => Some(Answer::Denied),
        3 => Some(Answer::Busy),
        _ => None,
    }
}

/// The number of how a request was acknowledged.
fn number_of(answer: Answer) -> u8
    ensures { answer_in result ≡ Some answer }
{
    match answer {
        Answer::Ack => 0,
        Answer::Nack => 1,
        Answer::Denied => 2,
        Answer::Busy => 3,
    }
}

impl PlainEnded {
    /// The kind of what ended (1 a message of one frame, 2 a broadcast, 3 a transfer, 4 a request), and how it did.
    pub(crate) fn of(token: Token, end: End) -> (i32, PlainEnded)
        requires way { token.way ≡ way_told end }
        ensures ended { IsEnded result.0 result.1 (Some (token, end)) }
        ensures answers { Answers 4 [] result.0 }
        ensures fills { Fills (pos 1 ∷ pos 2 ∷ pos 3 ∷ pos 4 ∷ []) result.0 ⊥ }
    {
        let (kind, (ending, detail)) = match end {
            End::Frame(ending) => (1, message_ending(ending)),
            End::Broadcast(ending) => (2, message_ending(ending)),
            End::Transfer(ending) => (3, transfer_ending(ending)),
            End::Request(ending) => (4, request_ending(ending)),
        };
        let token = token.code();
        (
            kind,
            PlainEnded {
                token,
                ending,
                detail,
            },
        )
    }
}

/// How a message ended, as C has it.
fn message_ending(ending: Ending) -> (u8, u8)
    ensures { ending_in result.0 result.1 ≡ Some ending }
{
    match ending {
        Ending::Done => (1, 0),
        Ending::Withdrawn => (2, 0),
    }
}

/// How a transfer ended, as C has it.
fn transfer_ending(ending: TransferEnding) -> (u8, u8)
    ensures { transfer_ending_in result.0 result.1 ≡ Some ending }
{
    match ending {
        TransferEnding::Done => (1, 0),
        TransferEnding::Withdrawn => (2, 0),
        TransferEnding::Failed(reason) => (3, reason),
        TransferEnding::Gone => (4, 0),
    }
}

/// How a request ended, as C has it.
fn request_ending(ending: AskEnding) -> (u8, u8)
    ensures { ask_ending_in result.0 result.1 ≡ Some ending }
{
    match ending {
        AskEnding::Answered => (1, 0),
        AskEnding::Withdrawn => (2, 0),
        AskEnding::Acknowledged(answer) => (5, number_of(answer)),
        AskEnding::TimedOut => (6, 0),
    }
}

/// A NAME, and whether there is one.
pub(crate) fn marked_name(name: Option<Name>) -> (u64, u8)
    ensures { marked result.1 result.0 ≡ option_map name_raw name }
{
    match name {
        Some(name) => (name.raw(), 1),
        None => (0, 0),
    }
}
