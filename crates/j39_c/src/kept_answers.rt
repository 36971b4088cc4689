//! Answers that are kept till they are handed in, or refused as busy (J1939-21, 5.4.2 and 5.4.4).
ghost use Rattle.std.specs.Prelude.{⊤, ◌≡◌, ◌<◌, ◌^◌, ◌∷◌, [], pos};
ghost use Rattle.j39_frame.specs.Stamp.{stamp_micros};
ghost use Rattle.j39_node.specs.Is.{request_by};
ghost use Rattle.j39_application.specs.Answers.{none_in, soonest};
ghost use Rattle.j39_application.specs.Boxes.{asked_of};
ghost use Rattle.j39_application.specs.Shown.{answers_of};
ghost use Rattle.j39_c.specs.Calls.{Answers, Asks, Fills, Never, Opens};
ghost use Rattle.j39_c.specs.Codes.{IsDone, bad_value, in_use, no_memory, no_part, told};
ghost use Rattle.j39_c.specs.Controllers.{request_in};
ghost use Rattle.j39_c.specs.KeptAnswers.{CanKeep, KeepsAnswer, TakesAsked, TakesTurn};
ghost use Rattle.j39_c.specs.Parts.{answering_in, answers_in};

use crate::handed_out::{PlainRequest, put, put_request, request_of};
use crate::handle::Handle;
use crate::part::{ask, in_box, open};
use crate::refusal::Refusal;
use j39_application::{Answers as Kept, Asked};
use j39_frame::Stamp;
use j39_node::{Controller, Request};
use j39_transport::LONGEST;
use std::alloc::Global;

/// Opens answers with room for so many open requests, none of which is there: 0; -3 where memory is refused, -4 where the handle is
/// open.
#[unsafe(no_mangle)]
pub extern "C" fn j39_answers_new(alloc: Global, kept: &mut Handle, boxes: u8) -> i32
    ensures opens { Opens answers_in ⊤ kept.old.part result kept.new.part (λ made. answers_of made ≡ none_in boxes) }
    ensures answers { Answers 0 (no_memory ∷ in_use ∷ []) result }
{
    open!(
        alloc,
        kept,
        Answering(in_box(alloc, Kept::new(alloc, boxes)))
    )
}

/// Takes the oldest request that waits in a controller, if a box is free: 1 where `out` is, which is open from now on, for 200 ms, with
/// the NAME that held its source when it was heard; else 0. -1 for a moment of 10^16 microseconds and above, -2 where a handle holds no
/// answers or no controller.
#[unsafe(no_mangle)]
pub extern "C" fn j39_answers_take_request(
    alloc: Global,
    kept: &mut Handle,
    controller: &mut Handle,
    micros: u64,
    out: &mut PlainRequest,
) -> i32
    ensures asks { Asks answering_in (micros < 10 ^ 16) (kept.old.part, controller.old.part) result
        (kept.new.part, controller.new.part) (λ old new. TakesAsked micros result out.new old new) Never }
    ensures answers { Answers 1 (bad_value ∷ no_part ∷ []) result }
    ensures fills { Fills (pos 1 ∷ []) result (out.new ≡ out.old) }
{
    let Some(now) = Stamp::new(micros) else {
        return Refusal::BadValue.code();
    };
    ask!(alloc, kept, Answering(answers) => {
        ask!(alloc, controller, Controlling(held) => put_asked(answers, held, now, out))
    })
}

/// Keeps the bytes, 0 to 1,785, for the oldest open request like this that has no answer yet: 1, or 0 where none lacks one. The NAME
/// isn't read. -1 for more bytes, or a group of 2^18 and above, -2 where the handle holds no answers.
#[unsafe(no_mangle)]
pub extern "C" fn j39_answers_answer(
    alloc: Global,
    kept: &mut Handle,
    request: &PlainRequest,
    payload: &[u8],
) -> i32
    ensures asks { Asks answers_in (CanKeep request.now.pgn payload.now) kept.old.part result kept.new.part
        (λ old new. KeepsAnswer (request_in request.now) payload.now result old new) Never }
    ensures answers { Answers 1 (bad_value ∷ no_part ∷ []) result }
{
    let Some(request) = request_of(request) else {
        return Refusal::BadValue.code();
    };
    if payload.len() > LONGEST {
        return Refusal::BadValue.code();
    }
    ask!(alloc, kept, Answering(answers) => keep(answers, asked(request), payload))
}

/// The turn of each that is open, the oldest first: its answer is handed in to a controller; what isn't answered, or finds no room, stays
/// till its 200 ms are over, and is refused as busy then, or dropped, if all were asked: 0. -1 for a moment of 10^16 microseconds and
/// above, -2 where a handle holds no answers or no controller.
#[unsafe(no_mangle)]
pub extern "C" fn j39_answers_turn(
    alloc: Global,
    kept: &mut Handle,
    controller: &mut Handle,
    micros: u64,
) -> i32
    ensures asks { Asks answering_in (micros < 10 ^ 16) (kept.old.part, controller.old.part) result
        (kept.new.part, controller.new.part) (λ old new. (result ≡ pos 0) × TakesTurn micros old new) Never }
    ensures answers { Answers 0 (bad_value ∷ no_part ∷ []) result }
{
    let Some(now) = Stamp::new(micros) else {
        return Refusal::BadValue.code();
    };
    ask!(alloc, kept, Answering(answers) => {
        ask!(alloc, controller, Controlling(held) => {
            answers.turn(held, now);
            0
        })
    })
}

/// In how many microseconds the 200 ms of the first one are over: 1 and the time, or 0 where none is open; -2 where the handle holds no
/// answers.
#[unsafe(no_mangle)]
pub extern "C" fn j39_answers_due_in(alloc: Global, kept: &mut Handle, time: &mut u64) -> i32
    ensures asks { Asks answers_in ⊤ kept.old.part result kept.new.part
        (λ old _. told result time.new ≡ soonest (answers_of old).requests) Never }
    ensures same { kept.new.part ≡ kept.old.part }
    ensures answers { Answers 1 (no_part ∷ []) result }
    ensures fills { Fills (pos 1 ∷ []) result (time.new ≡ time.old) }
{
    ask!(alloc, kept, Answering(answers) => put(answers.due_in(), time))
}

/// Takes a request: 1, or 0 where none waits, or no box is free.
fn put_asked(
    kept: &mut Kept,
    controller: &mut Controller,
    now: Stamp,
    out: &mut PlainRequest,
) -> i32
    ensures done { IsDone result }
    ensures takes { TakesAsked (stamp_micros now) result out.new (kept.old, controller.old) (kept.new, controller.new) }
    ensures answers { Answers 1 [] result }
    ensures fills { Fills (pos 1 ∷ []) result (out.new ≡ out.old) }
{
    match kept.take_request(controller, now) {
        Some(asked) => put_request(Some(request(asked)), out),
        None => 0,
    }
}

/// Keeps an answer: 1, or 0 where none lacks one.
fn keep(kept: &mut Kept, asked: Asked, payload: &[u8]) -> i32
    ensures keeps { KeepsAnswer (asked_of asked) payload.now result kept.old kept.new }
    ensures answers { Answers 1 [] result }
{
    i32::from(kept.answer(asked, payload))
}

/// A request that is open, as a controller has it.
fn request(asked: Asked) -> Request
    ensures value { request_by result ≡ asked_of asked }
    ensures name { result.name ≡ asked.name }
{
    Request {
        source: asked.source,
        name: asked.name,
        destination: asked.destination,
        group: asked.group,
    }
}

/// A request of a controller, as one that is open.
fn asked(request: Request) -> Asked
    ensures { asked_of result ≡ request_by request }
{
    Asked {
        source: request.source,
        destination: request.destination,
        group: request.group,
        name: request.name,
    }
}
