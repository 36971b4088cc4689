//! What a controller is handed in, to be sent (J1939-21, 5.4 and 5.10).
ghost use Rattle.std.specs.Prelude.{⊤, ◌≡◌, ◌<◌, ◌^◌, ◌∷◌, ◌%◌, ◌/◌, [], ℕ, Option, Some, None, IfSome, IsSome, ◌↔◌, pos, false};
ghost use Rattle.std.specs.Option.{option_map};
ghost use Rattle.j39_application.specs.Sending.{coded, draft_of, sent_as, way_of};
ghost use Rattle.j39_application.specs.declared.sending.Way.TheVariants as way;
ghost use Rattle.j39_frame.specs.Pgn.{pgn_raw};
ghost use Rattle.j39_frame.specs.Stamp.{stamp_micros};
ghost use Rattle.j39_node.specs.declared.kinds.Answer.{Answer};
ghost use Rattle.j39_node.specs.History.Call.{Renew, Withdraw};
ghost use Rattle.j39_node.specs.History.Act.{Acknowledge, Ask};
ghost use Rattle.j39_c.specs.Calls.{Answers, Asks, Fills, Never};
ghost use Rattle.j39_c.specs.Codes.{bad_value, full, no_address, no_part, told};
ghost use Rattle.j39_c.specs.Parts.{controller_in};
ghost use Rattle.j39_c.specs.Controllers.{Continues, HandsIn, IsAccepted, IsAt, IsTaken, Offers, Withdraws, answer_in, request_in};

use crate::handed_out::{
    PlainRequest, answer_of, frame_code, put, put_sent, put_token, request_of, taken,
};
use crate::handle::Handle;
use crate::part::ask;
use crate::refusal::Refusal;
use j39_application::{Outgoing, send};
use j39_frame::{Pgn, Stamp};
use j39_node::Controller;
use std::alloc::Global;

/// Hands in a message of 0 to 1,785 bytes, to all (255) or to another's address: 1, and its token. Up to 8 bytes go in one frame, of this
/// priority, a group of PF 240 and up to all; more in packets, of priority 7. -8 where no address is held. -1 for a group that no
/// identifier can have or that the stack itself speaks, no other's address, more bytes, a priority above 7 (of what
/// doesn't go in packets to all), or a moment of 10^16 microseconds and above. -9 while as many of its way are accepted and not told to have ended as may be, or its pair of group
/// and destination rests. -2 where the handle holds no controller.
#[unsafe(no_mangle)]
pub extern "C" fn j39_controller_send(
    alloc: Global,
    controller: &mut Handle,
    micros: u64,
    priority: u8,
    pgn: u32,
    to: u8,
    payload: &[u8],
    token: &mut u64,
) -> i32
    ensures offers { Offers (IsAt pgn micros) controller.old.part result controller.new.part
        micros (sent_as (record { priority = priority; group = pgn; to = to; bytes = payload.now }))
        (IsAccepted (way_of (record { priority = priority; group = pgn; to = to; bytes = payload.now })) result token.new) }
    ensures answers { Answers 1 (bad_value ∷ no_part ∷ no_address ∷ full ∷ []) result }
    ensures fills { Fills (pos 1 ∷ []) result (token.new ≡ token.old) }
{
    let Some((group, now)) = group_and_moment(pgn, micros) else {
        return Refusal::BadValue.code();
    };
    let message = Outgoing {
        priority,
        group,
        to,
        bytes: payload,
    };
    ask!(alloc, controller, Controlling(held) => hand_in(held, now, &message, token))
}

/// Puts a message of 0 to 8 bytes in the place of the last that waits with its priority, group and destination, and is no request: 1,
/// and the token of that, which stays. 0, where nothing changes, if none waits or the message can't be sent. -1 for a group of 2^18
/// and above. -2 where the handle holds no controller.
#[unsafe(no_mangle)]
pub extern "C" fn j39_controller_renew(
    alloc: Global,
    controller: &mut Handle,
    priority: u8,
    pgn: u32,
    to: u8,
    payload: &[u8],
    token: &mut u64,
) -> i32
    ensures asks { Asks controller_in (pgn < 2 ^ 18) controller.old.part result controller.new.part
        (λ old new. (answer : Option ℕ) × (told result token.new ≡ option_map (coded way.Frame) answer)
        × Continues (Renew (record { priority = priority; group = pgn; to = to; bytes = payload.now }) answer) old new) Never }
    ensures answers { Answers 1 (bad_value ∷ no_part ∷ []) result }
    ensures fills { Fills (pos 1 ∷ []) result (token.new ≡ token.old) }
{
    let Some(group) = Pgn::new(pgn) else {
        return Refusal::BadValue.code();
    };
    ask!(alloc, controller, Controlling(held) => put(held.renew(priority, group, to, payload).map(frame_code), token))
}

/// Withdraws a message of one frame that waits: 1; it is never sent, and told as withdrawn once all before it have
/// ended. 0, where nothing changes, if none waits under this token, for a request, and where the address is lost. -2 where the
/// handle holds no controller.
#[unsafe(no_mangle)]
pub extern "C" fn j39_controller_withdraw(alloc: Global, controller: &mut Handle, token: u64) -> i32
    ensures asks { Asks controller_in ⊤ controller.old.part result controller.new.part
        (λ old new. Withdraws token result old new) Never }
    ensures answers { Answers 1 (no_part ∷ []) result }
{
    ask!(alloc, controller, Controlling(held) => withdraw(held, token))
}

/// Asks an address, or all (255), for a group: 1, and its token, one of those of `send`. -8 where no address is held. -1
/// for no other's address, a group of 2^18 and above, or a moment of 10^16 microseconds and above. -9 while one is
/// accepted and not told to have ended, or 16 messages are. -2 where the handle holds no controller.
#[unsafe(no_mangle)]
pub extern "C" fn j39_controller_ask(
    alloc: Global,
    controller: &mut Handle,
    micros: u64,
    pgn: u32,
    to: u8,
    token: &mut u64,
) -> i32
    ensures offers { Offers (IsAt pgn micros) controller.old.part result controller.new.part
        micros (Ask pgn to) (IsAccepted way.Frame result token.new) }
    ensures answers { Answers 1 (bad_value ∷ no_part ∷ no_address ∷ full ∷ []) result }
    ensures fills { Fills (pos 1 ∷ []) result (token.new ≡ token.old) }
{
    let Some((group, now)) = group_and_moment(pgn, micros) else {
        return Refusal::BadValue.code();
    };
    ask!(alloc, controller, Controlling(held) => put_token(held.ask(now, group, to), token))
}

/// Acknowledges a request to its address: 0. The answer is 0 positive, 1 negative, 2 access denied, 3 it can't respond
/// now. -8 where no address is held. -1 for another answer, a request to all, a group of 2^18 and above, or a moment of
/// 10^16 microseconds and above. -9 while 16 are due. -2 where the handle holds no controller.
#[unsafe(no_mangle)]
pub extern "C" fn j39_controller_acknowledge(
    alloc: Global,
    controller: &mut Handle,
    micros: u64,
    request: &PlainRequest,
    answer: u8,
) -> i32
    ensures offers { (kind : Answer) → answer_in answer ≡ Some kind → Offers (IsAt request.now.pgn micros)
        controller.old.part result controller.new.part
        micros (Acknowledge (request_in request.now) kind) (IsTaken result) }
    ensures bad { answer_in answer ≡ None → (result ≡ bad_value) × (controller.new.part ≡ controller.old.part) }
    ensures answers { Answers 0 (bad_value ∷ no_part ∷ no_address ∷ full ∷ []) result }
{
    let (Some(now), Some(asked), Some(answer)) = (
        Stamp::new(micros),
        request_of(request),
        answer_of(answer),
    ) else {
        return Refusal::BadValue.code();
    };
    ask!(alloc, controller, Controlling(held) => taken(held.acknowledge(now, asked, answer)))
}

/// Hands in a message: 1 and its token, or why it isn't accepted.
fn hand_in(controller: &mut Controller, now: Stamp, message: &Outgoing<'_>, token: &mut u64) -> i32
    ensures hands { HandsIn (stamp_micros now) (draft_of message.now) result token.new controller.old controller.new }
    ensures answers { Answers 1 (bad_value ∷ no_address ∷ full ∷ []) result }
    ensures fills { Fills (pos 1 ∷ []) result (token.new ≡ token.old) }
{
    put_sent(send(controller, now, message), token)
}

/// Withdraws the message under this token, if it is one of those that go in one frame: 1, or 0.
fn withdraw(controller: &mut Controller, token: u64) -> i32
    ensures withdraws { Withdraws token result controller.old controller.new }
    ensures answers { Answers 1 [] result }
{
    if token % 4 != 0 {
        return 0;
    }
    if controller.withdraw(token / 4) { 1 } else { 0 }
}

/// A group and a moment, where both are in their range.
pub(crate) fn group_and_moment(pgn: u32, micros: u64) -> Option<(Pgn, Stamp)>
    ensures known { IsSome result ↔ IsAt pgn micros }
    ensures value { IfSome result (λ found. (pgn_raw found.0 ≡ pgn) × (stamp_micros found.1 ≡ micros)) }
{
    Some((Pgn::new(pgn)?, Stamp::new(micros)?))
}
