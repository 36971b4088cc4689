//! A controller: it claims an address, and sends and receives (J1939-21, J1939-81).
ghost use Rattle.std.specs.Prelude.{◌≡◌, ◌<◌, ◌≤◌, ◌^◌, ◌∷◌, [], ⊤, None, Some, IfSome, IsSome, IfOk, IfErr, pos, true, ◌↔◌, length, map, take};
ghost use Rattle.std.specs.Option.{option_map};
ghost use Rattle.j39_address.specs.Claim.{claims_of};
ghost use Rattle.j39_address.specs.Claimer.{status_of};
ghost use Rattle.j39_address.specs.Holder.{IsHolderAfter};
ghost use Rattle.j39_frame.specs.Pgn.{pgn_raw};
ghost use Rattle.j39_node.specs.History.{told_claims};
ghost use Rattle.j39_node.specs.History.Call.{At, TakeNews};
ghost use Rattle.j39_node.specs.History.Act.{Again, Hear, TakeFrame, Tick};
ghost use Rattle.j39_node.specs.Is.{next_claims_request, next_frame, stamped, status_after};
ghost use Rattle.j39_node.specs.Ticks.{next_tick};
ghost use Rattle.j39_node.specs.Transfers.{next_due};
ghost use Rattle.j39_c.specs.Calls.{Answers, Asks, Fills, Never, Opens};
ghost use Rattle.j39_c.specs.Can.{Fits, frame_of};
ghost use Rattle.j39_c.specs.Codes.{IsDone, IsRefused, bad_value, in_use, no_memory, no_part, sent, told};
ghost use Rattle.j39_c.specs.Controllers.{CanRead, CanServe, Continues, IsAddressOf, IsFree, IsMakeRefusal, IsNew, CanSubscribe, Moves, Says, chosen_of, count_missed, news_in};
ghost use Rattle.j39_c.specs.Nodes.{IsStatus};
ghost use Rattle.j39_c.specs.Parts.{controller_in};

use crate::can::{CanFrame, frame_in, put_frame};
use crate::handed_out::{put, put_moment, put_name};
use crate::handle::Handle;
use crate::node::put_status;
use crate::part::{Part, ask};
use crate::refusal::Refusal;
use j39_address::Name;
use j39_frame::{Pgn, Stamp};
use j39_node::{Controller, News, Setup};
use std::alloc::Global;

/// The most groups that a program serves.
const MOST_SERVED: usize = 16;

/// The most groups that a program subscribes, unless it does all.
const MOST_SUBSCRIBED: usize = 64;

/// What a controller is made for beside its groups: what `j1939_setup` of the header begins with.
#[repr(C)]
#[derive(Clone, Copy, Debug)]
pub struct PlainSetup {
    /// Its NAME.
    pub name: u64,
    /// The address that it will claim, 0 to 253.
    pub address: u8,
    /// How long its 'cannot claim' waits, in 0.6 ms.
    pub delay: u8,
    /// How many broadcasts in packets it hears at once.
    pub broadcasts: u8,
    /// 0 where its program subscribes all groups.
    pub is_subscribed: u8,
    /// How many messages in packets to its address it receives at once.
    pub sessions: u8,
    /// How many packets it lets a sender send at once; 0 sets no limit.
    pub window: u8,
    /// How many messages in packets it sends to others' addresses at once.
    pub transfers: u8,
}

/// Opens a controller that is made for this, whose program serves these groups, and subscribes these, unless it does all: 0; -1 for an
/// address above 253, more than 16 groups served, or 64 subscribed, or one of 2^18 and above, -3 where memory is refused, -4 where the
/// handle is open.
#[unsafe(no_mangle)]
pub extern "C" fn j39_controller_new(
    alloc: Global,
    controller: &mut Handle,
    setup: &PlainSetup,
    served: &[u32],
    subscribed: &[u32],
) -> i32
    ensures opens { Opens controller_in (CanServe setup.now.address served.now (chosen_of setup.now subscribed.now)) controller.old.part
        result controller.new.part (IsNew setup.now served.now (chosen_of setup.now subscribed.now)) }
    ensures answers { Answers 0 (bad_value ∷ no_memory ∷ in_use ∷ []) result }
{
    if controller.is_open(alloc) {
        return Refusal::InUse.code();
    }
    match make(alloc, setup, served, chosen_of(setup, subscribed)) {
        Ok(made) => controller.put_new(alloc, Part::Controlling(made)),
        Err(refusal) => refusal.code(),
    }
}

/// The groups that are subscribed, if not all are.
fn chosen_of<'g>(setup: &PlainSetup, groups: &'g [u32]) -> Option<&'g [u32]>
    ensures { option_map (λ g. g.now) result ≡ chosen_of setup.now groups.now }
{
    if setup.is_subscribed == 0 {
        None
    } else {
        Some(groups)
    }
}

/// Lets time pass for what is received: 0; -1 for a moment of 10^16 microseconds and above, -2 where the handle holds no
/// controller.
#[unsafe(no_mangle)]
pub extern "C" fn j39_controller_tick(alloc: Global, controller: &mut Handle, micros: u64) -> i32
    ensures asks { Asks controller_in (micros < 10 ^ 16) controller.old.part result controller.new.part
        (λ old new. (result ≡ pos 0) × Continues (At micros Tick) old new) Never }
    ensures answers { Answers 0 (bad_value ∷ no_part ∷ []) result }
{
    let Some(now) = Stamp::new(micros) else {
        return Refusal::BadValue.code();
    };
    ask!(alloc, controller, Controlling(held) => {
        held.tick(now);
        0
    })
}

/// Claims the address anew, where the bus was away: 0; -1 for a moment of 10^16 microseconds and above, -2 where the handle
/// holds no controller.
#[unsafe(no_mangle)]
pub extern "C" fn j39_controller_again(alloc: Global, controller: &mut Handle, micros: u64) -> i32
    ensures asks { Asks controller_in (micros < 10 ^ 16) controller.old.part result controller.new.part
        (λ old new. (result ≡ pos 0) × Continues (At micros Again) old new) Never }
    ensures answers { Answers 0 (bad_value ∷ no_part ∷ []) result }
{
    let Some(now) = Stamp::new(micros) else {
        return Refusal::BadValue.code();
    };
    ask!(alloc, controller, Controlling(held) => {
        held.again(now);
        0
    })
}

/// Shows a controller a frame that another one sent: 0. -1 for a frame that is out of range, or a moment of 10^16
/// microseconds and above, -2 where the handle holds no controller.
#[unsafe(no_mangle)]
pub extern "C" fn j39_controller_hear(
    alloc: Global,
    controller: &mut Handle,
    frame: &CanFrame,
    micros: u64,
) -> i32
    ensures asks { Asks controller_in (Fits frame.now × (micros < 10 ^ 16)) controller.old.part result controller.new.part
        (λ old new. (result ≡ pos 0) × Continues (At micros (Hear (frame_of frame.now))) old new) Never }
    ensures answers { Answers 0 (bad_value ∷ no_part ∷ []) result }
{
    let Some(heard) = frame_in(frame) else {
        return Refusal::BadValue.code();
    };
    let Some(now) = Stamp::new(micros) else {
        return Refusal::BadValue.code();
    };
    ask!(alloc, controller, Controlling(held) => {
        held.hear(&heard, now);
        0
    })
}

/// Takes the frame that goes out now; by this it is sent: 1 where `out` is, else 0. -1 for a moment of 10^16
/// microseconds and above, -2 where the handle holds no controller.
#[unsafe(no_mangle)]
pub extern "C" fn j39_controller_take_frame(
    alloc: Global,
    controller: &mut Handle,
    micros: u64,
    out: &mut CanFrame,
) -> i32
    ensures asks { Asks controller_in (micros < 10 ^ 16) controller.old.part result controller.new.part
        (λ old new. Continues (At micros (TakeFrame (sent result out.new))) old new) Never }
    ensures refused { IsRefused result → controller.new.part ≡ controller.old.part }
    ensures answers { Answers 1 (bad_value ∷ no_part ∷ []) result }
    ensures fills { Fills (pos 1 ∷ []) result (out.new ≡ out.old) }
{
    let Some(now) = Stamp::new(micros) else {
        return Refusal::BadValue.code();
    };
    ask!(alloc, controller, Controlling(held) => put_frame(held.take_frame(now), out))
}

/// The frame that `take_frame` would give now: 1 where `out` is, else 0. -1 for a moment of 10^16 microseconds and
/// above, -2 where the handle holds no controller.
#[unsafe(no_mangle)]
pub extern "C" fn j39_controller_peek_frame(
    alloc: Global,
    controller: &mut Handle,
    micros: u64,
    out: &mut CanFrame,
) -> i32
    ensures asks { Asks controller_in (micros < 10 ^ 16) controller.old.part result controller.new.part
        (λ old _. Says (λ w H. option_map stamped (sent result out.new) ≡ next_frame w H micros) old) Never }
    ensures same { controller.new.part ≡ controller.old.part }
    ensures answers { Answers 1 (bad_value ∷ no_part ∷ []) result }
    ensures fills { Fills (pos 1 ∷ []) result (out.new ≡ out.old) }
{
    let Some(now) = Stamp::new(micros) else {
        return Refusal::BadValue.code();
    };
    ask!(alloc, controller, Controlling(held) => put_frame(held.peek_frame(now), out))
}

/// A request for the claims of all (255), or of an address, from the null address: 1 where `out` is, and may go at once,
/// else 0: where an address is held, and for 254. -1 for a moment of 10^16 microseconds and above, -2 where the handle holds no
/// controller.
#[unsafe(no_mangle)]
pub extern "C" fn j39_controller_claims_request(
    alloc: Global,
    controller: &mut Handle,
    micros: u64,
    to: u8,
    out: &mut CanFrame,
) -> i32
    ensures asks { Asks controller_in (micros < 10 ^ 16) controller.old.part result controller.new.part
        (λ old _. Says (λ w H. option_map stamped (sent result out.new) ≡ next_claims_request w H micros to) old) Never }
    ensures same { controller.new.part ≡ controller.old.part }
    ensures answers { Answers 1 (bad_value ∷ no_part ∷ []) result }
    ensures fills { Fills (pos 1 ∷ []) result (out.new ≡ out.old) }
{
    let Some(now) = Stamp::new(micros) else {
        return Refusal::BadValue.code();
    };
    ask!(alloc, controller, Controlling(held) => put_frame(held.claims_request(now, to), out))
}

/// The moment before which no frame goes out, if nothing is heard or handed in till then: 1 and the moment, or 0 where
/// there is none; -2 where the handle holds no controller.
#[unsafe(no_mangle)]
pub extern "C" fn j39_controller_next_due(
    alloc: Global,
    controller: &mut Handle,
    due: &mut u64,
) -> i32
    ensures asks { Asks controller_in ⊤ controller.old.part result controller.new.part
        (λ old _. Says (λ w H. told result due.new ≡ next_due w H) old) Never }
    ensures same { controller.new.part ≡ controller.old.part }
    ensures answers { Answers 1 (no_part ∷ []) result }
    ensures fills { Fills (pos 1 ∷ []) result (due.new ≡ due.old) }
{
    ask!(alloc, controller, Controlling(held) => put_moment(held.next_due(), due))
}

/// The moment before which a tick does nothing but let time pass, if no frame is heard till then: 1 and the moment, or 0
/// where there is none; -2 where the handle holds no controller.
#[unsafe(no_mangle)]
pub extern "C" fn j39_controller_next_tick(
    alloc: Global,
    controller: &mut Handle,
    due: &mut u64,
) -> i32
    ensures asks { Asks controller_in ⊤ controller.old.part result controller.new.part
        (λ old _. Says (λ w H. told result due.new ≡ next_tick w H) old) Never }
    ensures same { controller.new.part ≡ controller.old.part }
    ensures answers { Answers 1 (no_part ∷ []) result }
    ensures fills { Fills (pos 1 ∷ []) result (due.new ≡ due.old) }
{
    ask!(alloc, controller, Controlling(held) => put_moment(held.next_tick(), due))
}

/// How far a controller is with its address: 0 none was claimed yet, 1 claiming `address`, 2 holding it, 3 it can claim
/// none. `address` is 254 where there is none. -2 where the handle holds no controller.
#[unsafe(no_mangle)]
pub extern "C" fn j39_controller_status(
    alloc: Global,
    controller: &mut Handle,
    address: &mut u8,
) -> i32
    ensures asks { Asks controller_in ⊤ controller.old.part result controller.new.part
        (λ old _. Says (λ w H. IsStatus (status_of (status_after w H)) result address.new) old) Never }
    ensures same { controller.new.part ≡ controller.old.part }
    ensures answers { Answers 3 (no_part ∷ []) result }
    ensures fills { Fills (pos 0 ∷ pos 1 ∷ pos 2 ∷ pos 3 ∷ []) result (address.new ≡ address.old) }
{
    ask!(alloc, controller, Controlling(held) => put_status(held.status(), address))
}

/// Who holds an address, by the claims heard and its own that were taken: 1 and the NAME, or 0; -2 where the handle
/// holds no controller.
#[unsafe(no_mangle)]
pub extern "C" fn j39_controller_holder(
    alloc: Global,
    controller: &mut Handle,
    address: u8,
    name: &mut u64,
) -> i32
    ensures asks { Asks controller_in ⊤ controller.old.part result controller.new.part
        (λ old _. Says (λ w H. IsHolderAfter (claims_of (told_claims w H)) address (told result name.new)) old) Never }
    ensures same { controller.new.part ≡ controller.old.part }
    ensures answers { Answers 1 (no_part ∷ []) result }
    ensures fills { Fills (pos 1 ∷ []) result (name.new ≡ name.old) }
{
    ask!(alloc, controller, Controlling(held) => put_name(held.holder(address), name))
}

/// The address that a NAME holds, by the same claims: 1 and the address, or 0; -2 where the handle holds no controller.
#[unsafe(no_mangle)]
pub extern "C" fn j39_controller_address_of(
    alloc: Global,
    controller: &mut Handle,
    name: u64,
    address: &mut u8,
) -> i32
    ensures asks { Asks controller_in ⊤ controller.old.part result controller.new.part
        (λ old _. Says (λ w H. IsAddressOf w H name (told result address.new)) old) Never }
    ensures same { controller.new.part ≡ controller.old.part }
    ensures answers { Answers 1 (no_part ∷ []) result }
    ensures fills { Fills (pos 1 ∷ []) result (address.new ≡ address.old) }
{
    ask!(alloc, controller, Controlling(held) => put(held.address_of(Name::new(name)), address))
}

/// The least address of 128 to 247 that nobody holds, by the same claims: 1 and the address, or 0; -2 where the handle holds
/// no controller.
#[unsafe(no_mangle)]
pub extern "C" fn j39_controller_free_address(
    alloc: Global,
    controller: &mut Handle,
    address: &mut u8,
) -> i32
    ensures asks { Asks controller_in ⊤ controller.old.part result controller.new.part
        (λ old _. Says (λ w H. IsFree w H (told result address.new)) old) Never }
    ensures same { controller.new.part ≡ controller.old.part }
    ensures answers { Answers 1 (no_part ∷ []) result }
    ensures fills { Fills (pos 1 ∷ []) result (address.new ≡ address.old) }
{
    ask!(alloc, controller, Controlling(held) => put_free(held, address))
}

/// Begins anew at another address: 1 where it does. 0, where nothing changes, for an address above 253, and until all that
/// was accepted is told to have ended and all that was received, requests and news are taken. -2 where the handle holds no
/// controller.
#[unsafe(no_mangle)]
pub extern "C" fn j39_controller_move_to(alloc: Global, controller: &mut Handle, address: u8) -> i32
    ensures asks { Asks controller_in ⊤ controller.old.part result controller.new.part
        (λ old new. Moves address result old new) Never }
    ensures refused { IsRefused result → controller.new.part ≡ controller.old.part }
    ensures answers { Answers 1 (no_part ∷ []) result }
{
    ask!(alloc, controller, Controlling(held) => i32::from(held.move_to(address)))
}

/// How many messages for the program were missed: 0, and the count; -2 where the handle holds no controller.
#[unsafe(no_mangle)]
pub extern "C" fn j39_controller_missed(
    alloc: Global,
    controller: &mut Handle,
    count: &mut u64,
) -> i32
    ensures asks { Asks controller_in ⊤ controller.old.part result controller.new.part
        (λ old _. (result ≡ pos 0) × Says (λ w H. count.new ≡ count_missed w H) old) Never }
    ensures same { controller.new.part ≡ controller.old.part }
    ensures answers { Answers 0 (no_part ∷ []) result }
    ensures fills { Fills (pos 0 ∷ []) result (count.new ≡ count.old) }
{
    ask!(alloc, controller, Controlling(held) => {
        *count = held.missed();
        0
    })
}

/// Takes what happened: 0 nothing, 1 the address was lost, 2 another sends from it, 3 messages were missed, 4 and the address more
/// that another of its NAME claims; -2 where the handle holds no controller.
#[unsafe(no_mangle)]
pub extern "C" fn j39_controller_take_news(alloc: Global, controller: &mut Handle) -> i32
    ensures asks { Asks controller_in ⊤ controller.old.part result controller.new.part
        (λ old new. Continues (TakeNews (news_in result)) old new) Never }
    ensures refused { IsRefused result → controller.new.part ≡ controller.old.part }
    ensures answers { Answers 259 (no_part ∷ []) result }
{
    ask!(alloc, controller, Controlling(held) => number_of(held.take_news()))
}

/// A controller of these values, or why there is none.
fn make(
    alloc: Global,
    setup: &PlainSetup,
    served: &[u32],
    subscribed: Option<&[u32]>,
) -> Result<Box<Controller>, Refusal>
    ensures made { IfOk result (λ made. CanServe setup.now.address served.now (option_map (λ g. g.now) subscribed.entry)
        × IsNew setup.now served.now (option_map (λ g. g.now) subscribed.entry) made.value) }
    ensures refused { IfErr result (λ refusal. IsMakeRefusal setup.now.address served.now (option_map (λ g. g.now) subscribed.entry) refusal) }
{
    let mut groups = [Pgn::new(0).unwrap(); MOST_SERVED];
    if !read_groups(served, &mut groups) {
        return Err(Refusal::BadValue);
    }
    let mut wanted = [Pgn::new(0).unwrap(); MOST_SUBSCRIBED];
    let Some(subscribed) = read_wanted(subscribed, &mut wanted) else {
        return Err(Refusal::BadValue);
    };
    let made = Setup {
        name: Name::new(setup.name),
        address: setup.address,
        delay: setup.delay,
        served: &groups[..served.len()],
        subscribed,
        broadcasts: setup.broadcasts,
        sessions: setup.sessions,
        transfers: setup.transfers,
        window: setup.window,
    };
    match Controller::boxed(alloc, &made) {
        Ok(Some(made)) => Ok(made),
        Ok(None) => Err(Refusal::BadValue),
        Err(_) => Err(Refusal::NoMemory),
    }
}

/// Reads the groups that are subscribed into an array, if not all are; `None` where they can't be.
fn read_wanted<'a>(
    numbers: Option<&[u32]>,
    groups: &'a mut [Pgn; MOST_SUBSCRIBED],
) -> Option<Option<&'a [Pgn]>>
    ensures known { IsSome result ↔ CanSubscribe (option_map (λ n. n.now) numbers.entry) }
    ensures read { IfSome result (λ found. option_map (λ g. map pgn_raw g.now) found ≡ option_map (λ n. n.now) numbers.entry) }
{
    match numbers {
        Some(numbers) => {
            if !read_groups(numbers, groups) {
                return None;
            }
            Some(Some(&groups[..numbers.len()]))
        }
        None => Some(None),
    }
}

/// Reads the groups of these numbers to the front of a slice: whether all are groups, and there is room.
fn read_groups(numbers: &[u32], groups: &mut [Pgn]) -> bool
    ensures known { (result ≡ true) ↔ CanRead (length groups.old) numbers.now }
    ensures read { result ≡ true → map pgn_raw (take (length numbers.now) groups.new) ≡ numbers.now }
{
    if numbers.len() > groups.len() {
        return false;
    }
    for place in 0..numbers.len() {
        let Some(group) = Pgn::new(numbers[place]) else {
            return false;
        };
        groups[place] = group;
    }
    true
}

/// Writes out the least free address: 1, or 0 where there is none.
fn put_free(controller: &Controller, address: &mut u8) -> i32
    ensures done { IsDone result }
    ensures free { Says (λ w H. IsFree w H (told result address.new)) controller.now }
    ensures answers { Answers 1 [] result }
    ensures fills { Fills (pos 1 ∷ []) result (address.new ≡ address.old) }
{
    match controller.free_address() {
        Some(free) => {
            *address = free;
            1
        }
        None => 0,
    }
}

/// What happened, as a number.
fn number_of(news: Option<News>) -> i32
    ensures done { IsDone result }
    ensures value { news_in result ≡ news }
    ensures answers { Answers 259 [] result }
{
    match news {
        None => 0,
        Some(News::AddressLost) => 1,
        Some(News::AnotherAtAddress) => 2,
        Some(News::MessagesMissed) => 3,
        Some(News::NameDoubled(address)) => 4 + i32::from(address),
    }
}
