//! The receiving end of directed transfers (J1939-21, 5.10.3).
ghost use Rattle.std.specs.Prelude.{◌≡◌, ◌<◌, ◌^◌, ⊤, pos, true, ◌∷◌, [], None};
ghost use Rattle.j39_frame.specs.Address.{IsAddress};
ghost use Rattle.j39_transport.specs.Receiving.{new_receiver};
ghost use Rattle.j39_c.specs.Calls.{Answers, Asks, Fills, Never, Opens};
ghost use Rattle.j39_c.specs.Can.{Fits, frame_of};
ghost use Rattle.j39_c.specs.Codes.{IsDone, IsRefused, IsSentAt, bad_value, in_use, no_memory, no_part, sent_packet};
ghost use Rattle.j39_c.specs.Parts.{LetsPass, ReceivesMore, busy_code, receiver_in};

use crate::can::{CanFrame, frame_in, put_packet, write_packet};
use crate::handle::Handle;
use crate::message::WholeMessage;
use crate::part::{Part, ask};
use crate::refusal::Refusal;
use j39_frame::{Frame, Stamp, is_address};
use j39_transport::{Receiver, Reply};
use std::alloc::Global;

/// Opens a receiver at an address, with its buffer: 0; -1 for an address above 253, -3 where memory is refused, -4
/// where the handle is open.
#[unsafe(no_mangle)]
pub extern "C" fn j39_receiver_new(alloc: Global, receiver: &mut Handle, own: u8) -> i32
    ensures opens { Opens receiver_in (IsAddress own) receiver.old.part result receiver.new.part
        (λ made. made ≡ record { state = new_receiver own; has_box = true; lent = None }) }
    ensures answers { Answers 0 (bad_value ∷ no_memory ∷ in_use ∷ []) result }
{
    if receiver.is_open(alloc) {
        return Refusal::InUse.code();
    }
    if !is_address(own) {
        return Refusal::BadValue.code();
    }
    let Ok(Some(made)) = Receiver::with_buffer(alloc, own) else {
        return Refusal::NoMemory.code();
    };
    let Ok(made) = Box::new(alloc, made) else {
        return Refusal::NoMemory.code();
    };
    receiver.put_new(alloc, Part::Receiving(made))
}

/// Hands a frame of the bus to a receiver at its own moment: 0; 1 where `out` is to be sent; 2 where `out` is to be
/// sent, and a message is delivered, which is in `message`. -1 for a frame that is out of range, -2 where the handle
/// holds no receiver.
#[unsafe(no_mangle)]
pub extern "C" fn j39_receiver_on(
    alloc: Global,
    receiver: &mut Handle,
    frame: &CanFrame,
    out: &mut CanFrame,
    message: &mut WholeMessage,
) -> i32
    ensures asks { Asks receiver_in (Fits frame.now) receiver.old.part result receiver.new.part
        (λ old new. ReceivesMore old (frame_of frame.now) result out.new message.new new) Never }
    ensures refused { IsRefused result → receiver.new.part ≡ receiver.old.part }
    ensures answers { Answers 2 (bad_value ∷ no_part ∷ []) result }
    ensures fills_out { Fills (pos 1 ∷ pos 2 ∷ []) result (out.new ≡ out.old) }
    ensures fills_message { Fills (pos 2 ∷ []) result (message.new ≡ message.old) }
{
    let Some(heard) = frame_in(frame) else {
        return Refusal::BadValue.code();
    };
    ask!(alloc, receiver, Receiving(held) => receive(held, &heard, out, message))
}

/// Lets time pass for a receiver: 1 where `out` is to be sent, else 0. -1 for a moment of 10^16 microseconds and
/// above, -2 where the handle holds no receiver.
#[unsafe(no_mangle)]
pub extern "C" fn j39_receiver_tick(
    alloc: Global,
    receiver: &mut Handle,
    micros: u64,
    out: &mut CanFrame,
) -> i32
    ensures asks { Asks receiver_in (micros < 10 ^ 16) receiver.old.part result receiver.new.part
        (λ old new. LetsPass old micros (sent_packet result out.new) new) Never }
    ensures moment { IsSentAt result out.new micros }
    ensures refused { IsRefused result → receiver.new.part ≡ receiver.old.part }
    ensures answers { Answers 1 (bad_value ∷ no_part ∷ []) result }
    ensures fills { Fills (pos 1 ∷ []) result (out.new ≡ out.old) }
{
    let Some(now) = Stamp::new(micros) else {
        return Refusal::BadValue.code();
    };
    ask!(alloc, receiver, Receiving(held) => put_packet(held.tick(now), now, out))
}

/// Whether a receiver has a session open: 1 or 0; -2 where the handle holds no receiver.
#[unsafe(no_mangle)]
pub extern "C" fn j39_receiver_busy(alloc: Global, receiver: &mut Handle) -> i32
    ensures asks { Asks receiver_in ⊤ receiver.old.part result receiver.new.part
        (λ old _. result ≡ busy_code old.state.session) Never }
    ensures same { receiver.new.part ≡ receiver.old.part }
    ensures answers { Answers 1 (no_part ∷ []) result }
{
    ask!(alloc, receiver, Receiving(held) => i32::from(held.busy()))
}

/// What a receiver answers to a frame at its own moment.
fn receive(
    receiver: &mut Receiver,
    frame: &Frame,
    out: &mut CanFrame,
    message: &mut WholeMessage,
) -> i32
    ensures done { IsDone result }
    ensures receives { ReceivesMore receiver.old frame.now result out.new message.new receiver.new }
    ensures answers { Answers 2 [] result }
    ensures fills_out { Fills (pos 1 ∷ pos 2 ∷ []) result (out.new ≡ out.old) }
    ensures fills_message { Fills (pos 2 ∷ []) result (message.new ≡ message.old) }
{
    let now = frame.stamp;
    match receiver.on(frame, now) {
        Reply::Nothing => 0,
        Reply::Send(id, bytes) => {
            write_packet(id, bytes, now, out);
            1
        }
        Reply::Delivered(whole, id, bytes) => {
            write_packet(id, bytes, now, out);
            message.put_message(&whole, None);
            2
        }
    }
}
