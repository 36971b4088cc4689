//! Messages and requests to NAMEs, kept till their NAMEs hold addresses (J1939-81, 4.2).
ghost use Rattle.std.specs.Prelude.{⊤, ◌≡◌, ◌<◌, ◌^◌, ◌∷◌, [], Some, pos};
ghost use Rattle.j39_frame.specs.Stamp.{stamp_micros};
ghost use Rattle.j39_application.specs.Outbox.{IsTake, Message, Request, none_out, soonest};
ghost use Rattle.j39_application.specs.Shown.{outbox_of};
ghost use Rattle.j39_c.specs.Calls.{Answers, Asks, Fills, Never, Opens, Tries};
ghost use Rattle.j39_c.specs.Codes.{IsDone, bad_value, full, in_use, no_memory, no_part, sent, told};
ghost use Rattle.j39_c.specs.Controllers.{IsAt};
ghost use Rattle.j39_c.specs.Outboxes.{IsNumbered, IsSettled, Posts, TellsSettled};
ghost use Rattle.j39_c.specs.Parts.{outbox_in, posting_in};

use crate::can::{CanFrame, put_frame};
use crate::handed_out::{put, refused};
use crate::handle::Handle;
use crate::offering::group_and_moment;
use crate::part::{ask, in_box, open};
use crate::refusal::Refusal;
use j39_address::Name;
use j39_application::{Outbox, Settled};
use j39_frame::Stamp;
use j39_node::{Controller, Refused};
use std::alloc::Global;

/// How what was kept for a NAME was settled, `j1939_settled` of the header.
#[repr(C)]
#[derive(Clone, Copy, Debug)]
pub struct PlainSettled {
    /// Its number.
    pub number: u64,
    /// The token under which the controller tells how it ends, where it was handed in; else 0.
    pub token: u64,
    /// Why the controller refused it for good, -8 or -1, where it did; else 0.
    pub refusal: i32,
}

/// Opens an outbox with room for so many messages and requests, none of which is there: 0; -3 where memory is refused, -4 where the
/// handle is open.
#[unsafe(no_mangle)]
pub extern "C" fn j39_outbox_new(alloc: Global, outbox: &mut Handle, boxes: u8) -> i32
    ensures opens { Opens outbox_in ⊤ outbox.old.part result outbox.new.part (λ made. outbox_of made ≡ none_out boxes) }
    ensures answers { Answers 0 (no_memory ∷ in_use ∷ []) result }
{
    open!(
        alloc,
        outbox,
        Posting(in_box(alloc, Outbox::new(alloc, boxes)))
    )
}

/// Keeps a message of 0 to 1,785 bytes, with a priority of 0 to 7, for a NAME: 1, and its number, which is how many were accepted before.
/// -9 where each box has one whose end isn't told. -1 for a higher priority number, more bytes, a group of 2^18 and above, or a moment
/// of 10^16 microseconds and above. -2 where the handle holds no outbox.
#[unsafe(no_mangle)]
pub extern "C" fn j39_outbox_send(
    alloc: Global,
    outbox: &mut Handle,
    micros: u64,
    name: u64,
    priority: u8,
    pgn: u32,
    payload: &[u8],
    number: &mut u64,
) -> i32
    ensures tries { Tries outbox_in (IsAt pgn micros) outbox.old.part result outbox.new.part
        (λ old new. Posts micros name (Message priority pgn payload.now) result number.new old new) }
    ensures answers { Answers 1 (bad_value ∷ no_part ∷ full ∷ []) result }
    ensures fills { Fills (pos 1 ∷ []) result (number.new ≡ number.old) }
{
    let Some((group, now)) = group_and_moment(pgn, micros) else {
        return Refusal::BadValue.code();
    };
    ask!(alloc, outbox, Posting(kept) => put_number(kept.send(now, Name::new(name), priority, group, payload), number))
}

/// Keeps a request to a NAME for a group (J1939-21, 5.4.2): 1, and its number, as `send`. -9 where each box has one whose end isn't told.
/// -1 for a group of 2^18 and above, or a moment of 10^16 microseconds and above. -2 where the handle holds no outbox.
#[unsafe(no_mangle)]
pub extern "C" fn j39_outbox_ask(
    alloc: Global,
    outbox: &mut Handle,
    micros: u64,
    name: u64,
    pgn: u32,
    number: &mut u64,
) -> i32
    ensures tries { Tries outbox_in (IsAt pgn micros) outbox.old.part result outbox.new.part
        (λ old new. Posts micros name (Request pgn) result number.new old new) }
    ensures answers { Answers 1 (bad_value ∷ no_part ∷ full ∷ []) result }
    ensures fills { Fills (pos 1 ∷ []) result (number.new ≡ number.old) }
{
    let Some((group, now)) = group_and_moment(pgn, micros) else {
        return Refusal::BadValue.code();
    };
    ask!(alloc, outbox, Posting(kept) => put_number(kept.ask(now, Name::new(name), group), number))
}

/// Takes the frame that goes out now: what a controller has due; else, till a frame is due by that, each that is kept, the oldest first,
/// is handed in to it, to the address that its NAME holds: 1 where `out` is, else 0. -1 for a moment of 10^16 microseconds and above, -2
/// where a handle holds no outbox or no controller.
#[unsafe(no_mangle)]
pub extern "C" fn j39_outbox_take_frame(
    alloc: Global,
    outbox: &mut Handle,
    controller: &mut Handle,
    micros: u64,
    out: &mut CanFrame,
) -> i32
    ensures asks { Asks posting_in (micros < 10 ^ 16) (outbox.old.part, controller.old.part) result
        (outbox.new.part, controller.new.part) (λ old new. IsTake micros (outbox_of old.0) old.1 new.1 (sent result out.new) (outbox_of new.0)) Never }
    ensures answers { Answers 1 (bad_value ∷ no_part ∷ []) result }
    ensures fills { Fills (pos 1 ∷ []) result (out.new ≡ out.old) }
{
    let Some(now) = Stamp::new(micros) else {
        return Refusal::BadValue.code();
    };
    ask!(alloc, outbox, Posting(kept) => {
        ask!(alloc, controller, Controlling(held) => put_taken(kept, held, now, out))
    })
}

/// Takes how the next was settled, each once: 0 where none is left; else it is in `out`: 1 it was handed in, under a token, 2 the
/// controller refused it for good, 3 its NAME held no address for 1,250 ms. -2 where the handle holds no outbox.
#[unsafe(no_mangle)]
pub extern "C" fn j39_outbox_take_settled(
    alloc: Global,
    outbox: &mut Handle,
    out: &mut PlainSettled,
) -> i32
    ensures asks { Asks outbox_in ⊤ outbox.old.part result outbox.new.part
        (λ old new. TellsSettled result out.new old new) Never }
    ensures answers { Answers 3 (no_part ∷ []) result }
    ensures fills { Fills (pos 1 ∷ pos 2 ∷ pos 3 ∷ []) result (out.new ≡ out.old) }
{
    ask!(alloc, outbox, Posting(kept) => put_settled(kept, out))
}

/// In how many microseconds the 1,250 ms of the first one are over: 1 and the time, or 0 where none is kept; -2 where the handle holds
/// no outbox.
#[unsafe(no_mangle)]
pub extern "C" fn j39_outbox_due_in(alloc: Global, outbox: &mut Handle, time: &mut u64) -> i32
    ensures asks { Asks outbox_in ⊤ outbox.old.part result outbox.new.part
        (λ old _. told result time.new ≡ soonest (outbox_of old).letters) Never }
    ensures same { outbox.new.part ≡ outbox.old.part }
    ensures answers { Answers 1 (no_part ∷ []) result }
    ensures fills { Fills (pos 1 ∷ []) result (time.new ≡ time.old) }
{
    ask!(alloc, outbox, Posting(kept) => put(kept.due_in(), time))
}

/// Writes out the number of what is kept: 1, or why it isn't.
fn put_number(answer: Result<u64, Refused>, number: &mut u64) -> i32
    ensures told { IsNumbered result number.new answer }
    ensures fills { Fills (pos 1 ∷ []) result (number.new ≡ number.old) }
{
    match answer {
        Ok(accepted) => {
            *number = accepted;
            1
        }
        Err(why) => refused(why),
    }
}

/// Takes the frame that goes out now.
fn put_taken(kept: &mut Outbox, controller: &mut Controller, now: Stamp, out: &mut CanFrame) -> i32
    ensures done { IsDone result }
    ensures takes { IsTake (stamp_micros now) (outbox_of kept.old) controller.old controller.new (sent result out.new) (outbox_of kept.new) }
    ensures answers { Answers 1 [] result }
    ensures fills { Fills (pos 1 ∷ []) result (out.new ≡ out.old) }
{
    put_frame(kept.take_frame(controller, now), out)
}

/// Takes how the next was settled.
fn put_settled(kept: &mut Outbox, out: &mut PlainSettled) -> i32
    ensures done { IsDone result }
    ensures tells { TellsSettled result out.new kept.old kept.new }
    ensures answers { Answers 3 [] result }
    ensures fills { Fills (pos 1 ∷ pos 2 ∷ pos 3 ∷ []) result (out.new ≡ out.old) }
{
    let Some((number, how)) = kept.take_settled() else {
        return 0;
    };
    let (kind, settled) = PlainSettled::of(number, how);
    *out = settled;
    kind
}

impl PlainSettled {
    /// How one was settled (1 handed in, 2 refused for good, 3 gone), by its number.
    fn of(number: u64, how: Settled) -> (i32, PlainSettled)
        ensures settled { IsSettled result.0 result.1 (Some (number, how)) }
        ensures answers { Answers 3 [] result.0 }
        ensures fills { Fills (pos 1 ∷ pos 2 ∷ pos 3 ∷ []) result.0 ⊥ }
    {
        let (kind, token, refusal) = match how {
            Settled::HandedIn(token) => (1, token.code(), 0),
            Settled::Refused(why) => (2, 0, refused(why)),
            Settled::Gone => (3, 0, 0),
        };
        (
            kind,
            PlainSettled {
                number,
                token,
                refusal,
            },
        )
    }
}
