//! A listener on a bus (J1939-21, 5.10; J1939-81, 4.2).
ghost use Rattle.std.specs.Prelude.{◌≡◌, ◌==◌, ◌&&◌, ⊤, [], ◌∷◌, not, pos};
ghost use Rattle.j39_frame.specs.Identifier.{pgn_of};
ghost use Rattle.j39_groups.specs.Readings.{is_network_group};
ghost use Rattle.j39_listen.specs.Listening.{Hears};
ghost use Rattle.j39_c.specs.Calls.{Answers, Asks, Fills, Never, Opens};
ghost use Rattle.j39_c.specs.Can.{Fits, frame_of};
ghost use Rattle.j39_c.specs.Codes.{IsDone, IsRefused, bad_value, in_use, no_memory, no_part, told};
ghost use Rattle.j39_c.specs.Messages.{message_in};
ghost use Rattle.j39_c.specs.Parts.{HearsMore, HearsMoreAs, IsHolderBy, LacksMemory, listener_in};

use crate::can::{CanFrame, frame_in};
use crate::emptied::Emptied;
use crate::handed_out::put_name;
use crate::handle::Handle;
use crate::message::WholeMessage;
use crate::part::{ask, open};
use crate::refusal::Refusal;
use j39_frame::Frame;
use j39_groups::is_network_group;
use j39_listen::Listener;
use std::alloc::{AllocError, Global};

/// Opens a listener that has heard nothing: 0; -3 where memory is refused, -4 where the handle is open.
#[unsafe(no_mangle)]
pub extern "C" fn j39_listener_new(alloc: Global, listener: &mut Handle) -> i32
    ensures opens { Opens listener_in ⊤ listener.old.part result listener.new.part (λ made. Hears made []) }
    ensures answers { Answers 0 (no_memory ∷ in_use ∷ []) result }
{
    open!(
        alloc,
        listener,
        Listening(Emptied::new(alloc, Listener::new(alloc)))
    )
}

/// Feeds a listener the next frame of the bus: 1 where a message is heard at it, which is in `out` then, else 0. -1
/// for a frame that is out of range, -2 where the handle holds no listener; -3 where memory is refused, at an
/// announcement alone. After one of these nothing has changed.
#[unsafe(no_mangle)]
pub extern "C" fn j39_listener_feed(
    alloc: Global,
    listener: &mut Handle,
    frame: &CanFrame,
    out: &mut WholeMessage,
) -> i32
    ensures asks { Asks listener_in (Fits frame.now) listener.old.part result listener.new.part
        (λ old new. HearsMore old (frame_of frame.now) (message_in result out.new) new)
        (λ old. LacksMemory old (frame_of frame.now)) }
    ensures refused { IsRefused result → listener.new.part ≡ listener.old.part }
    ensures answers { Answers 1 (bad_value ∷ no_part ∷ no_memory ∷ []) result }
    ensures fills { Fills (pos 1 ∷ []) result (out.new ≡ out.old) }
{
    let Some(fed) = frame_in(frame) else {
        return Refusal::BadValue.code();
    };
    ask!(alloc, listener, Listening(held) => hear(&mut held.part, &fed, out))
}

/// The same, where the caller says whether messages of the frame's group are heard in one frame: they are where `is_single` isn't 0,
/// but for the network's own groups, which never are.
#[unsafe(no_mangle)]
pub extern "C" fn j39_listener_feed_as(
    alloc: Global,
    listener: &mut Handle,
    is_single: u8,
    frame: &CanFrame,
    out: &mut WholeMessage,
) -> i32
    ensures asks { Asks listener_in (Fits frame.now) listener.old.part result listener.new.part
        (λ old new. HearsMoreAs (not (is_single == 0)) old (frame_of frame.now) (message_in result out.new) new)
        (λ old. LacksMemory old (frame_of frame.now)) }
    ensures refused { IsRefused result → listener.new.part ≡ listener.old.part }
    ensures answers { Answers 1 (bad_value ∷ no_part ∷ no_memory ∷ []) result }
    ensures fills { Fills (pos 1 ∷ []) result (out.new ≡ out.old) }
{
    let Some(fed) = frame_in(frame) else {
        return Refusal::BadValue.code();
    };
    ask!(alloc, listener, Listening(held) => hear_as(&mut held.part, is_single != 0, &fed, out))
}

/// Who holds an address, by the claims that a listener heard: 1 and the NAME, or 0 where no claim tells it and for 254
/// and 255; -2 where the handle holds no listener.
#[unsafe(no_mangle)]
pub extern "C" fn j39_listener_holder(
    alloc: Global,
    listener: &mut Handle,
    address: u8,
    name: &mut u64,
) -> i32
    ensures asks { Asks listener_in ⊤ listener.old.part result listener.new.part
        (λ heard _. IsHolderBy heard address (told result name.new)) Never }
    ensures same { listener.new.part ≡ listener.old.part }
    ensures answers { Answers 1 (no_part ∷ []) result }
    ensures fills { Fills (pos 1 ∷ []) result (name.new ≡ name.old) }
{
    ask!(alloc, listener, Listening(held) => put_name(held.part.holder(address), name))
}

/// What is heard at the next frame: 1 where it is a message.
fn hear(listener: &mut Listener, frame: &Frame, out: &mut WholeMessage) -> i32
    ensures heard { IsDone result → HearsMore listener.old frame.now (message_in result out.new) listener.new }
    ensures wanted { IsRefused result → (result ≡ no_memory) × LacksMemory listener.old frame.now }
    ensures refused { IsRefused result → listener.new ≡ listener.old }
    ensures answers { Answers 1 (no_memory ∷ []) result }
    ensures fills { Fills (pos 1 ∷ []) result (out.new ≡ out.old) }
{
    match listener.feed(frame) {
        Ok(Some(heard)) => {
            out.put(&heard);
            1
        }
        Ok(None) => 0,
        Err(_) => Refusal::NoMemory.code(),
    }
}

/// What is heard at the next frame, where the caller says whether its group is heard in one: 1 where it is a message.
fn hear_as(listener: &mut Listener, is_single: bool, frame: &Frame, out: &mut WholeMessage) -> i32
    ensures heard { IsDone result → HearsMoreAs is_single listener.old frame.now (message_in result out.new) listener.new }
    ensures wanted { IsRefused result → (result ≡ no_memory) × LacksMemory listener.old frame.now }
    ensures refused { IsRefused result → listener.new ≡ listener.old }
    ensures answers { Answers 1 (no_memory ∷ []) result }
    ensures fills { Fills (pos 1 ∷ []) result (out.new ≡ out.old) }
{
    match listener.feed_as(is_heard_alone(is_single, frame), frame) {
        Ok(Some(heard)) => {
            out.put(&heard);
            1
        }
        Ok(None) => 0,
        Err(AllocError) => Refusal::NoMemory.code(),
    }
}

/// Whether the frame is a message by itself, as the caller says: none of the network's groups is.
fn is_heard_alone(is_single: bool, frame: &Frame) -> bool
    ensures { result ≡ (is_single && not (is_network_group (pgn_of frame.now.id))) }
{
    is_single && !is_network_group(frame.id.pgn())
}
