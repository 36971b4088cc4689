//! A node that claims an address (J1939-81, 4.2 and 4.5). It lies in C's own memory.
ghost use Rattle.std.specs.Prelude.{◌≡◌, ◌<◌, ◌^◌, None, pos, ◌∷◌, []};
ghost use Rattle.j39_frame.specs.Address.{IsAddress};
ghost use Rattle.j39_address.specs.Call.{call_of};
ghost use Rattle.j39_address.specs.Call.Call.{Start, Tick, Commanded};
ghost use Rattle.j39_address.specs.Claimer.{IsNode, Steps, status_of};
ghost use Rattle.j39_address.specs.Node.{Node, NodeStatus, idle_node};
ghost use Rattle.j39_c.specs.Calls.{Answers, Fills};
ghost use Rattle.j39_c.specs.Can.{Fits, frame_of};
ghost use Rattle.j39_c.specs.Codes.{IsDone, bad_value, sent};
ghost use Rattle.j39_c.specs.Nodes.{IsStatus};

use crate::can::{CanFrame, frame_in, put_frame};
use crate::refusal::Refusal;
use j39_address::{Claimer, Name, Status};
use j39_frame::{Frame, NULL_ADDRESS, Stamp};

/// Makes an idle node of this NAME, to start with this address: 0; -1 for an address above 253.
#[unsafe(no_mangle)]
pub extern "C" fn j39_node_init(node: &mut Claimer, name: u64, preferred: u8) -> i32
    ensures made { IsAddress preferred → (result ≡ pos 0) × IsNode node.new (idle_node name preferred) }
    ensures bad { (IsAddress preferred → ⊥) → (result ≡ bad_value) × (node.new ≡ node.old) }
    ensures answers { Answers 0 (bad_value ∷ []) result }
{
    match Claimer::new(Name::new(name), preferred) {
        Some(made) => {
            *node = made;
            0
        }
        None => Refusal::BadValue.code(),
    }
}

/// Claims the preferred address, where the node is idle: 1 where `out` is to be sent, else 0; -1 for a moment of 10^16
/// microseconds and above.
#[unsafe(no_mangle)]
pub extern "C" fn j39_node_start(node: &mut Claimer, micros: u64, out: &mut CanFrame) -> i32
    ensures done { micros < 10 ^ 16 → IsDone result }
    ensures step { micros < 10 ^ 16 → Steps node.old Start micros (sent result out.new) node.new }
    ensures bad { (micros < 10 ^ 16 → ⊥) → (result ≡ bad_value) × (node.new ≡ node.old) }
    ensures answers { Answers 1 (bad_value ∷ []) result }
    ensures fills { Fills (pos 1 ∷ []) result (out.new ≡ out.old) }
{
    let Some(now) = Stamp::new(micros) else {
        return Refusal::BadValue.code();
    };
    put_frame(node.start(now), out)
}

/// Makes a claimed address the node's own, 250 ms or more after it began to claim it: 0; -1 for a moment of 10^16
/// microseconds and above.
#[unsafe(no_mangle)]
pub extern "C" fn j39_node_tick(node: &mut Claimer, micros: u64) -> i32
    ensures step { micros < 10 ^ 16 → (result ≡ pos 0) × Steps node.old Tick micros None node.new }
    ensures bad { (micros < 10 ^ 16 → ⊥) → (result ≡ bad_value) × (node.new ≡ node.old) }
    ensures answers { Answers 0 (bad_value ∷ []) result }
{
    let Some(now) = Stamp::new(micros) else {
        return Refusal::BadValue.code();
    };
    node.tick(now);
    0
}

/// Hears a frame at its own moment: 1 where `out` is to be sent, else 0; -1 for a frame that is out of range.
#[unsafe(no_mangle)]
pub extern "C" fn j39_node_on(node: &mut Claimer, frame: &CanFrame, out: &mut CanFrame) -> i32
    ensures done { Fits frame.now → IsDone result }
    ensures step { Fits frame.now
        → Steps node.old (call_of (frame_of frame.now)) frame.now.micros (sent result out.new) node.new }
    ensures bad { (Fits frame.now → ⊥) → (result ≡ bad_value) × (node.new ≡ node.old) }
    ensures answers { Answers 1 (bad_value ∷ []) result }
    ensures fills { Fills (pos 1 ∷ []) result (out.new ≡ out.old) }
{
    let Some(heard) = frame_in(frame) else {
        return Refusal::BadValue.code();
    };
    put_frame(hear(node, &heard), out)
}

/// Hears a frame at its own moment.
fn hear(node: &mut Claimer, frame: &Frame) -> Option<Frame>
    ensures { Steps node.old (call_of frame.now) frame.now.stamp result node.new }
{
    node.on(frame, frame.stamp)
}

/// Claims the address that the node of this NAME is commanded to take: 1 where `out` is to be sent, else 0; -1 for a
/// moment of 10^16 microseconds and above. A command to another NAME, of an address above 253 or to an idle node is
/// ignored.
#[unsafe(no_mangle)]
pub extern "C" fn j39_node_commanded(
    node: &mut Claimer,
    name: u64,
    address: u8,
    micros: u64,
    out: &mut CanFrame,
) -> i32
    ensures done { micros < 10 ^ 16 → IsDone result }
    ensures step { micros < 10 ^ 16
        → Steps node.old (Commanded (record { name = name; address = address })) micros (sent result out.new) node.new }
    ensures bad { (micros < 10 ^ 16 → ⊥) → (result ≡ bad_value) × (node.new ≡ node.old) }
    ensures answers { Answers 1 (bad_value ∷ []) result }
    ensures fills { Fills (pos 1 ∷ []) result (out.new ≡ out.old) }
{
    let Some(now) = Stamp::new(micros) else {
        return Refusal::BadValue.code();
    };
    put_frame(node.commanded(Name::new(name), address, now), out)
}

/// How far the node is: 0 idle, 1 claiming `address`, 2 holding it, 3 it can claim none. `address` is 254 where there
/// is none.
#[unsafe(no_mangle)]
pub extern "C" fn j39_node_status(node: &Claimer, address: &mut u8) -> i32
    ensures status { (s : NodeStatus) × ((n : Node) → IsNode node.now n → s ≡ n.status)
        × IsStatus s result address.new }
    ensures answers { Answers 3 [] result }
{
    put_status(node.status(), address)
}

/// How far an address is, as a number.
pub(crate) fn put_status(status: Status, address: &mut u8) -> i32
    ensures done { IsDone result }
    ensures status { IsStatus (status_of status) result address.new }
    ensures answers { Answers 3 [] result }
{
    let (code, at) = match status {
        Status::Idle => (0, NULL_ADDRESS),
        Status::Claiming(own) => (1, own),
        Status::Holding(own) => (2, own),
        Status::Cannot => (3, NULL_ADDRESS),
    };
    *address = at;
    code
}
