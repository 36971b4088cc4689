//! What a controller hands out.
ghost use Rattle.std.specs.Prelude.{◌≡◌, ◌≤◌, ◌∷◌, [], ⊤, pos, IfSome, None, true, false, length, take, slice_get};
ghost use Rattle.std.specs.Option.{option_map};
ghost use Rattle.j39_address.specs.Name.{name_raw};
ghost use Rattle.j39_frame.specs.Stamp.{stamp_micros};
ghost use Rattle.j39_transport.specs.ReceiverModel.{message_shown};
ghost use Rattle.j39_node.specs.Hearing.{broadcast_senders, waiting};
ghost use Rattle.j39_node.specs.History.Call.{ReleaseBroadcast, ReleaseTransfer, TakeRequest};
ghost use Rattle.j39_node.specs.Reception.{reception, transfer_sender};
ghost use Rattle.j39_c.specs.Calls.{Answers, Asks, Fills, Never};
ghost use Rattle.j39_c.specs.Codes.{IsDone, IsRefused, no_part, told};
ghost use Rattle.j39_c.specs.Controllers.{Continues, IsAsked, Goes, IsNamed, Says, Waited, long_if, long_in, received_by, request_in, Ends};
ghost use Rattle.j39_c.specs.Messages.{hearing_in};
ghost use Rattle.j39_c.specs.Parts.{controller_in};

use crate::handed_out::{PlainEnded, PlainRequest, put_received, put_request};
use crate::handle::Handle;
use crate::message::WholeMessage;
use crate::part::ask;
use crate::refusal::Refusal;
use j39_address::Name;
use j39_application::take_ended;
use j39_node::Controller;
use j39_transport::Message;
use std::alloc::Global;

/// Takes how something ended that was accepted, each once: 0 where nothing did; else it is in `out`: 1 a message of one
/// frame, 2 a broadcast, 3 a transfer, 4 a request. -2 where the handle holds no controller.
#[unsafe(no_mangle)]
pub extern "C" fn j39_controller_take_ended(
    alloc: Global,
    controller: &mut Handle,
    out: &mut PlainEnded,
) -> i32
    ensures asks { Asks controller_in ⊤ controller.old.part result controller.new.part
        (λ old new. Ends result out.new old new) Never }
    ensures refused { IsRefused result → controller.new.part ≡ controller.old.part }
    ensures answers { Answers 4 (no_part ∷ []) result }
    ensures fills { Fills (pos 1 ∷ pos 2 ∷ pos 3 ∷ pos 4 ∷ []) result (out.new ≡ out.old) }
{
    ask!(alloc, controller, Controlling(held) => put_ended(held, out))
}

/// Takes a message that was received, each once: 0 where there is none; else it is in `out`: 1 a message of 0 to 8 bytes, with
/// its destination and its priority; 2 one in packets to its address, which is its destination; 3 one in packets to all, with
/// no destination. Each has the NAME that held the source when the last frame was heard. -2 where the handle holds no
/// controller.
#[unsafe(no_mangle)]
pub extern "C" fn j39_controller_take_received(
    alloc: Global,
    controller: &mut Handle,
    out: &mut WholeMessage,
    priority: &mut u8,
) -> i32
    ensures asks { Asks controller_in ⊤ controller.old.part result controller.new.part
        (λ old new. Goes (received_by result out.new priority.new) old new × Says (Waited result out.new) old
        × Says (IsNamed result out.new) old) Never }
    ensures refused { IsRefused result → controller.new.part ≡ controller.old.part }
    ensures answers { Answers 3 (no_part ∷ []) result }
    ensures fills_out { Fills (pos 1 ∷ pos 2 ∷ pos 3 ∷ []) result (out.new ≡ out.old) }
    ensures fills_priority { Fills (pos 1 ∷ []) result (priority.new ≡ priority.old) }
{
    ask!(alloc, controller, Controlling(held) => put_message(held, out, priority))
}

/// Takes a request for a group that the program serves, each once: 1 where there is one, which is in `out`, with the NAME that held its
/// source when it was heard, else 0. -2 where the handle holds no controller.
#[unsafe(no_mangle)]
pub extern "C" fn j39_controller_take_request(
    alloc: Global,
    controller: &mut Handle,
    out: &mut PlainRequest,
) -> i32
    ensures asks { Asks controller_in ⊤ controller.old.part result controller.new.part
        (λ old new. Continues (TakeRequest (told result (request_in out.new))) old new × Says (IsAsked result out.new) old) Never }
    ensures refused { IsRefused result → controller.new.part ≡ controller.old.part }
    ensures answers { Answers 1 (no_part ∷ []) result }
    ensures fills { Fills (pos 1 ∷ []) result (out.new ≡ out.old) }
{
    ask!(alloc, controller, Controlling(held) => put_asked(held, out))
}

/// Takes a request: 1, or 0 where there is none.
fn put_asked(controller: &mut Controller, out: &mut PlainRequest) -> i32
    ensures done { IsDone result }
    ensures takes { Continues (TakeRequest (told result (request_in out.new))) controller.old controller.new }
    ensures asker { Says (IsAsked result out.new) controller.old }
    ensures answers { Answers 1 [] result }
    ensures fills { Fills (pos 1 ∷ []) result (out.new ≡ out.old) }
{
    put_request(controller.take_request(), out)
}

/// Takes how something ended.
fn put_ended(controller: &mut Controller, out: &mut PlainEnded) -> i32
    ensures done { IsDone result }
    ensures goes { Ends result out.new controller.old controller.new }
    ensures answers { Answers 4 [] result }
    ensures fills { Fills (pos 1 ∷ pos 2 ∷ pos 3 ∷ pos 4 ∷ []) result (out.new ≡ out.old) }
{
    let Some((token, end)) = take_ended(controller) else {
        return 0;
    };
    let (kind, ended) = PlainEnded::of(token, end);
    *out = ended;
    kind
}

/// Takes a message, of the first kind of which there is one.
fn put_message(controller: &mut Controller, out: &mut WholeMessage, priority: &mut u8) -> i32
    ensures done { IsDone result }
    ensures goes { Goes (received_by result out.new priority.new) controller.old controller.new }
    ensures waited { Says (Waited result out.new) controller.old }
    ensures named { Says (IsNamed result out.new) controller.old }
    ensures answers { Answers 3 [] result }
    ensures fills_out { Fills (pos 1 ∷ pos 2 ∷ pos 3 ∷ []) result (out.new ≡ out.old) }
    ensures fills_priority { Fills (pos 1 ∷ []) result (priority.new ≡ priority.old) }
{
    if let Some(message) = controller.take_received() {
        put_received(&message, out, priority);
        return 1;
    }
    if put_transfer(controller, out) {
        return 2;
    }
    if put_broadcast(controller, out) {
        return 3;
    }
    0
}

/// Takes the message in packets to its address, where one waits.
fn put_transfer(controller: &mut Controller, out: &mut WholeMessage) -> bool
    ensures waits { Says (λ w H. slice_get (reception w H).waits 0 ≡ long_if result out.new) controller.old }
    ensures addressed { result ≡ true → Says (λ w H. (hearing_in out.new).destination ≡ Some w.address) controller.old }
    ensures named { result ≡ true → Says (λ w H. (hearing_in out.new).name ≡ transfer_sender w H) controller.old }
    ensures goes { result ≡ true → Continues (ReleaseTransfer true) controller.old controller.new }
    ensures kept { result ≡ false → (controller.new ≡ controller.old) × (out.new ≡ out.old) }
{
    let Some(message) = controller.received_transfer() else {
        return false;
    };
    put_long(&message, controller.transfer_sender(), out);
    out.put_destination(Some(controller.address()));
    controller.release_transfer();
    true
}

/// Takes the message in packets to all, where one waits.
fn put_broadcast(controller: &mut Controller, out: &mut WholeMessage) -> bool
    ensures waits { Says (λ w H. slice_get (waiting w H) 0 ≡ long_if result out.new) controller.old }
    ensures goes { result ≡ true → Continues (ReleaseBroadcast true) controller.old controller.new }
    ensures named { result ≡ true → Says (λ w H. IfSome (slice_get (broadcast_senders w H) 0) (λ name. (hearing_in out.new).name ≡ name)) controller.old }
    ensures to_all { result ≡ true → (hearing_in out.new).destination ≡ None }
    ensures kept { result ≡ false → (controller.new ≡ controller.old) × (out.new ≡ out.old) }
{
    let Some(message) = controller.received_broadcast() else {
        return false;
    };
    put_long(&message, controller.broadcast_sender(), out);
    controller.release_broadcast();
    true
}

/// Writes out a message in packets, and who sent it.
fn put_long(message: &Message<'_>, sender: Option<Name>, out: &mut WholeMessage)
    requires { length message.now.payload.now ≤ 1785 }
    ensures value { long_in out.new ≡ (stamp_micros message.now.stamp, message_shown message.now) }
    ensures named { (hearing_in out.new).name ≡ option_map name_raw sender }
    ensures to_all { (hearing_in out.new).destination ≡ None }
{
    out.put_message(message, sender);
}
