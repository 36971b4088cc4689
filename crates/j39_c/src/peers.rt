//! Who is there, by NAME (J1939-81, 4.2). What was told lies in C's own memory.
ghost use Rattle.std.specs.Prelude.{⊤, ◌≡◌, ◌<◌, ◌^◌, ◌∷◌, [], List, pos};
ghost use Rattle.std.specs.Option.{option_map};
ghost use Rattle.j39_address.specs.Name.{name_raw};
ghost use Rattle.j39_frame.specs.Stamp.{stamp_micros};
ghost use Rattle.j39_c.specs.Calls.{Answers, Asks, Fills, Never};
ghost use Rattle.j39_c.specs.Can.{Fits, frame_of};
ghost use Rattle.j39_c.specs.Codes.{IsRefused, bad_value, no_part};
ghost use Rattle.j39_c.specs.Messages.{marked};
ghost use Rattle.j39_c.specs.Parts.{controller_in};
ghost use Rattle.j39_c.specs.Peers.{IsTold, TellsHeard, TakesPeer};
ghost use Rattle.j39_application.specs.Peers.{Knows, Seen, Told, peer_in};

use crate::can::{CanFrame, frame_in};
use crate::handed_out::marked_name;
use crate::handle::Handle;
use crate::part::ask;
use crate::refusal::Refusal;
use j39_address::Name;
use j39_application::{Peer, Peers};
use j39_frame::Stamp;
use j39_node::Controller;
use std::alloc::Global;

/// That an address has another holder than was told last, `j1939_peer` of the header.
#[repr(C)]
#[derive(Clone, Copy, Debug)]
pub struct PlainPeer {
    /// The NAME that was told to hold it, where one was.
    pub was: u64,
    /// The NAME that holds it, where one does.
    pub name: u64,
    /// 0 to 253.
    pub address: u8,
    /// 0 where nobody was told to hold it.
    pub had_one: u8,
    /// 0 where nobody holds it.
    pub has_one: u8,
}

/// Nothing was told or heard.
#[unsafe(no_mangle)]
pub extern "C" fn j39_peers_init(peers: &mut Peers)
    ensures { Knows peers.new [] [] }
{
    *peers = Peers::new();
}

/// Notes when a frame was heard: 0; -1 for a frame that is out of range, or a moment of 10^16 microseconds and above.
#[unsafe(no_mangle)]
pub extern "C" fn j39_peers_hear(peers: &mut Peers, frame: &CanFrame, micros: u64) -> i32
    ensures hears { Fits frame.now → micros < 10 ^ 16 → (F : List Seen) (T : List Told) → Knows peers.old F T
        → Knows peers.new ((micros, frame_of frame.now) ∷ F) T }
    ensures done { Fits frame.now → micros < 10 ^ 16 → result ≡ pos 0 }
    ensures bad { (Fits frame.now × (micros < 10 ^ 16) → ⊥) → (result ≡ bad_value) × (peers.new ≡ peers.old) }
    ensures answers { Answers 0 (bad_value ∷ []) result }
{
    let Some(heard) = frame_in(frame) else {
        return Refusal::BadValue.code();
    };
    let Some(now) = Stamp::new(micros) else {
        return Refusal::BadValue.code();
    };
    peers.hear(&heard, now);
    0
}

/// Takes what is new of who holds which address, by the claims that a controller heard and its own that were taken: 1 and the least
/// address whose holder isn't the one told last, or 0. -2 where the handle holds no controller.
#[unsafe(no_mangle)]
pub extern "C" fn j39_peers_take(
    alloc: Global,
    peers: &mut Peers,
    controller: &mut Handle,
    out: &mut PlainPeer,
) -> i32
    ensures asks { Asks controller_in ⊤ controller.old.part result controller.new.part
        (λ old _. TakesPeer result out.new peers.old peers.new old) Never }
    ensures same { controller.new.part ≡ controller.old.part }
    ensures refused { IsRefused result → peers.new ≡ peers.old }
    ensures answers { Answers 1 (no_part ∷ []) result }
    ensures fills { Fills (pos 1 ∷ []) result (out.new ≡ out.old) }
{
    ask!(alloc, controller, Controlling(held) => put_peer(peers, held, out))
}

/// Whether a NAME holds an address, by the same claims, whose last noted frame has this moment or a later one: 1, or 0. -1 for a moment of
/// 10^16 microseconds and above. -2 where the handle holds no controller.
#[unsafe(no_mangle)]
pub extern "C" fn j39_peers_heard_since(
    alloc: Global,
    peers: &Peers,
    controller: &mut Handle,
    name: u64,
    micros: u64,
) -> i32
    ensures asks { Asks controller_in (micros < 10 ^ 16) controller.old.part result controller.new.part
        (λ old _. TellsHeard result peers.now name micros old) Never }
    ensures same { controller.new.part ≡ controller.old.part }
    ensures answers { Answers 1 (bad_value ∷ no_part ∷ []) result }
{
    let Some(moment) = Stamp::new(micros) else {
        return Refusal::BadValue.code();
    };
    ask!(alloc, controller, Controlling(held) => tells_heard(peers, held, Name::new(name), moment))
}

/// Whether a NAME was heard at this moment or later: 1, or 0.
fn tells_heard(peers: &Peers, controller: &Controller, name: Name, moment: Stamp) -> i32
    ensures tells_heard { TellsHeard result peers.now (name_raw name) (stamp_micros moment) controller.now }
    ensures answers { Answers 1 [] result }
{
    if peers.heard_since(controller, name, moment) {
        1
    } else {
        0
    }
}

/// Takes what is new: 1 and an address, or 0.
fn put_peer(peers: &mut Peers, controller: &Controller, out: &mut PlainPeer) -> i32
    ensures takes { TakesPeer result out.new peers.old peers.new controller.now }
    ensures answers { Answers 1 [] result }
    ensures fills { Fills (pos 1 ∷ []) result (out.new ≡ out.old) }
{
    match peers.take(controller) {
        Some(peer) => {
            *out = plain(peer);
            1
        }
        None => 0,
    }
}

/// It, as C has it.
fn plain(peer: Peer) -> PlainPeer
    ensures { IsTold result (peer_in peer) }
{
    let (was, had_one) = marked_name(peer.was);
    let (name, has_one) = marked_name(peer.name);
    PlainPeer {
        was,
        name,
        address: peer.address,
        had_one,
        has_one,
    }
}
