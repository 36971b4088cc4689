//! The sending end of directed transfers (J1939-21, 5.10.3).
ghost use Rattle.std.specs.Prelude.{◌≡◌, ◌<◌, ◌^◌, ⊤, Some, None, IfOk, IfErr, pos, ◌∷◌, []};
ghost use Rattle.j39_transport.specs.Sending.{Heard, SendStep, Tick, new_sender};
ghost use Rattle.j39_c.specs.Calls.{Answers, Asks, Fills, Never, Opens};
ghost use Rattle.j39_c.specs.Can.{Fits, frame_of};
ghost use Rattle.j39_c.specs.Codes.{IsDone, IsRefused, IsSentAt, bad_value, in_use, no_memory, no_part, sent_packet};
ghost use Rattle.j39_c.specs.Cut.{message_by};
ghost use Rattle.j39_c.specs.Parts.{CanSend, IsSendCode, IsSendRefusal, IsSendState, sender_in};

use crate::can::{CanFrame, frame_in, put_packet};
use crate::handle::Handle;
use crate::part::{Part, ask};
use crate::refusal::Refusal;
use j39_frame::{Frame, Pgn, Stamp, is_address};
use j39_transport::{Cut, OwnedSender, SendEvent, SendState};
use std::alloc::Global;

/// Opens a sender of these bytes, 9 to 1,785, from one address to another: 0; -1 for another number of bytes, an
/// address above 253 or a group of 2^18 and above, -3 where memory is refused, -4 where the handle is open. The bytes
/// are copied.
#[unsafe(no_mangle)]
pub extern "C" fn j39_sender_new(
    alloc: Global,
    sender: &mut Handle,
    source: u8,
    destination: u8,
    pgn: u32,
    payload: &[u8],
) -> i32
    ensures opens { Opens sender_in (CanSend (message_by source pgn payload.now) destination) sender.old.part result
        sender.new.part (λ made. made ≡ new_sender (message_by source pgn payload.now) destination) }
    ensures answers { Answers 0 (bad_value ∷ no_memory ∷ in_use ∷ []) result }
{
    if sender.is_open(alloc) {
        return Refusal::InUse.code();
    }
    match made(alloc, source, destination, pgn, payload) {
        Ok(part) => sender.put_new(alloc, part),
        Err(refusal) => refusal.code(),
    }
}

/// A sender of these bytes.
fn made(
    alloc: Global,
    source: u8,
    destination: u8,
    pgn: u32,
    payload: &[u8],
) -> Result<Part, Refusal>
    ensures made { IfOk result (λ part.
        CanSend (message_by source pgn payload.now) destination
        × (sender_in (Some part) ≡ Some (new_sender (message_by source pgn payload.now) destination))) }
    ensures refused { IfErr result (λ refusal.
        IsSendRefusal (message_by source pgn payload.now) destination refusal) }
{
    let Some(group) = Pgn::new(pgn) else {
        return Err(Refusal::BadValue);
    };
    if Cut::new(source, group, payload).is_none() || !is_address(destination) {
        return Err(Refusal::BadValue);
    }
    let Ok(bytes) = payload.to_vec(alloc) else {
        return Err(Refusal::NoMemory);
    };
    let Some(made) = OwnedSender::new(source, group, bytes, destination) else {
        return Err(Refusal::BadValue);
    };
    let Ok(made) = Box::new(alloc, made) else {
        return Err(Refusal::NoMemory);
    };
    Ok(Part::Sending(made))
}

/// Lets time pass for a sender: 1 where `out` is to be sent, else 0. -1 for a moment of 10^16 microseconds and above,
/// -2 where the handle holds no sender.
#[unsafe(no_mangle)]
pub extern "C" fn j39_sender_tick(
    alloc: Global,
    sender: &mut Handle,
    micros: u64,
    out: &mut CanFrame,
) -> i32
    ensures asks { Asks sender_in (micros < 10 ^ 16) sender.old.part result sender.new.part
        (λ old new. SendStep old Tick micros (sent_packet result out.new) new) Never }
    ensures moment { IsSentAt result out.new micros }
    ensures refused { IsRefused result → sender.new.part ≡ sender.old.part }
    ensures answers { Answers 1 (bad_value ∷ no_part ∷ []) result }
    ensures fills { Fills (pos 1 ∷ []) result (out.new ≡ out.old) }
{
    let Some(now) = Stamp::new(micros) else {
        return Refusal::BadValue.code();
    };
    ask!(alloc, sender, Sending(held) => put_packet(held.on(SendEvent::Tick, now), now, out))
}

/// Shows a sender a frame of the bus at its own moment: 0. -1 for a frame that is out of range, -2 where the handle
/// holds no sender.
#[unsafe(no_mangle)]
pub extern "C" fn j39_sender_on(alloc: Global, sender: &mut Handle, frame: &CanFrame) -> i32
    ensures asks { Asks sender_in (Fits frame.now) sender.old.part result sender.new.part
        (λ old new. (result ≡ pos 0)
        × SendStep old (Heard (frame_of frame.now)) (frame_of frame.now).stamp None new) Never }
    ensures refused { IsRefused result → sender.new.part ≡ sender.old.part }
    ensures answers { Answers 0 (bad_value ∷ no_part ∷ []) result }
{
    let Some(heard) = frame_in(frame) else {
        return Refusal::BadValue.code();
    };
    ask!(alloc, sender, Sending(held) => {
        show(held, &heard);
        0
    })
}

/// How far a sender is: 0 idle, 1 waiting, 2 sending, 3 done, 4 failed, for `reason`; -2 where the handle holds no
/// sender.
#[unsafe(no_mangle)]
pub extern "C" fn j39_sender_state(alloc: Global, sender: &mut Handle, reason: &mut u8) -> i32
    ensures asks { Asks sender_in ⊤ sender.old.part result sender.new.part
        (λ old _. IsSendState old.state result reason.new) Never }
    ensures same { sender.new.part ≡ sender.old.part }
    ensures answers { Answers 4 (no_part ∷ []) result }
    ensures fills { Fills (pos 4 ∷ []) result (reason.new ≡ reason.old) }
{
    ask!(alloc, sender, Sending(held) => put_state(held.state(), reason))
}

/// Shows a sender a frame at its own moment: nothing is sent at one.
#[tactic(auto, unfolding(j39_transport::specs::Sending::send_step))]
fn show(sender: &mut OwnedSender, frame: &Frame)
    ensures { SendStep sender.old (Heard frame.now) frame.now.stamp None sender.new }
{
    let _nothing = sender.on(SendEvent::Heard(frame), frame.stamp);
}

/// How far a sender is, as a number.
fn put_state(state: SendState, reason: &mut u8) -> i32
    ensures done { IsDone result }
    ensures state { IsSendCode state result reason.new }
    ensures answers { Answers 4 [] result }
    ensures fills { Fills (pos 4 ∷ []) result (reason.new ≡ reason.old) }
{
    match state {
        SendState::Idle => 0,
        SendState::Waiting => 1,
        SendState::Sending => 2,
        SendState::Done => 3,
        SendState::Failed(why) => {
            *reason = why;
            4
        }
    }
}
