//! Messages put together of packets, whoever holds their sources' addresses (J1939-21, 5.10).
ghost use Rattle.std.specs.Prelude.{◌≡◌, ⊤, [], pos, ◌∷◌};
ghost use Rattle.j39_transport.specs.Stands.{Stands};
ghost use Rattle.j39_c.specs.Assemblers.{Forgets, LacksBox, PutsTogether};
ghost use Rattle.j39_c.specs.Calls.{Answers, Asks, Fills, Never, Opens};
ghost use Rattle.j39_c.specs.Can.{Fits, frame_of};
ghost use Rattle.j39_c.specs.Codes.{IsDone, IsRefused, bad_value, in_use, no_memory, no_part};
ghost use Rattle.j39_c.specs.Messages.{message_in};
ghost use Rattle.j39_c.specs.Parts.{assembler_in};

use crate::can::{CanFrame, frame_in};
use crate::emptied::Emptied;
use crate::handle::Handle;
use crate::message::WholeMessage;
use crate::part::{ask, open};
use crate::refusal::Refusal;
use j39_frame::Frame;
use j39_transport::{Assembler, Fed};
use std::alloc::Global;

/// Opens an assembler with no message open: 0; -3 where memory is refused, -4 where the handle is open.
#[unsafe(no_mangle)]
pub extern "C" fn j39_assembler_new(alloc: Global, assembler: &mut Handle) -> i32
    ensures opens { Opens assembler_in ⊤ assembler.old.part result assembler.new.part (λ made. Stands [] made) }
    ensures answers { Answers 0 (no_memory ∷ in_use ∷ []) result }
{
    open!(
        alloc,
        assembler,
        Assembling(Emptied::new(alloc, Assembler::new(alloc)))
    )
}

/// Feeds an assembler the next frame of the bus: 1 where a message is whole with it, which is in `out` then, of no NAME,
/// else 0. -1 for a frame that is out of range, -2 where the handle holds no assembler; -3 where memory is refused, at
/// an announcement alone. After one of these nothing has changed.
#[unsafe(no_mangle)]
pub extern "C" fn j39_assembler_feed(
    alloc: Global,
    assembler: &mut Handle,
    frame: &CanFrame,
    out: &mut WholeMessage,
) -> i32
    ensures asks { Asks assembler_in (Fits frame.now) assembler.old.part result assembler.new.part
        (λ old new. PutsTogether old (frame_of frame.now) (message_in result out.new) new)
        (λ old. LacksBox old (frame_of frame.now)) }
    ensures refused { IsRefused result → assembler.new.part ≡ assembler.old.part }
    ensures answers { Answers 1 (bad_value ∷ no_part ∷ no_memory ∷ []) result }
    ensures fills { Fills (pos 1 ∷ []) result (out.new ≡ out.old) }
{
    let Some(fed) = frame_in(frame) else {
        return Refusal::BadValue.code();
    };
    ask!(alloc, assembler, Assembling(held) => assemble(&mut held.part, &fed, out))
}

/// Ends all messages that a source has begun, as where its address has another holder: 0; -2 where the handle holds no
/// assembler.
#[unsafe(no_mangle)]
pub extern "C" fn j39_assembler_forget(alloc: Global, assembler: &mut Handle, source: u8) -> i32
    ensures asks { Asks assembler_in ⊤ assembler.old.part result assembler.new.part
        (λ old new. (result ≡ pos 0) × Forgets old source new) Never }
    ensures refused { IsRefused result → assembler.new.part ≡ assembler.old.part }
    ensures answers { Answers 0 (no_part ∷ []) result }
{
    ask!(alloc, assembler, Assembling(held) => {
        forget(&mut held.part, source);
        0
    })
}

/// What is whole with the next frame: 1 where a message is.
fn assemble(assembler: &mut Assembler, frame: &Frame, out: &mut WholeMessage) -> i32
    ensures whole { IsDone result
        → PutsTogether assembler.old frame.now (message_in result out.new) assembler.new }
    ensures wanted { IsRefused result → (result ≡ no_memory) × LacksBox assembler.old frame.now }
    ensures refused { IsRefused result → assembler.new ≡ assembler.old }
    ensures answers { Answers 1 (no_memory ∷ []) result }
    ensures fills { Fills (pos 1 ∷ []) result (out.new ≡ out.old) }
{
    match assembler.feed(frame) {
        Ok(Fed::Whole(message)) => {
            out.put_message(&message, None);
            1
        }
        Ok(Fed::Taken) => 0,
        Ok(Fed::Ignored) => 0,
        Err(_) => Refusal::NoMemory.code(),
    }
}

/// Ends all messages that a source has begun.
fn forget(assembler: &mut Assembler, source: u8)
    ensures { Forgets assembler.old source assembler.new }
{
    assembler.forget(source);
}
