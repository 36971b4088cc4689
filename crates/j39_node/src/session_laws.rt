//! The laws of sessions in which messages come in packets to its address (J1939-21, 5.10.3).
ghost use Rattle.std.specs.Prelude.{◌≡◌, ◌≢◌, ◌↔◌, ◌||◌, ◌&&◌, ◌+◌, ◌-◌, ◌*◌, ◌<◌, ◌≤◌, ◌++◌, ℕ, suc, List, ◌∷◌, length, take, Some, None, IsTrue, false, nat_eq, []};
ghost use Rattle.j39_frame.specs.Address.{global_address};
ghost use Rattle.j39_frame.specs.Frame.{FrameRecord};
ghost use Rattle.j39_frame.specs.Identifier.{source_of};
ghost use Rattle.j39_transport.specs.Message.{MessageRecord};
ghost use Rattle.j39_transport.specs.Protocol.{timer_t2};
ghost use Rattle.j39_sessions.specs.Sessions.{Session, has_room, longest, tick_of};
ghost use Rattle.j39_transport.specs.Receiving.{said_to};
ghost use Rattle.j39_transport.specs.Session.{grown};
ghost use Rattle.j39_transport.specs.Signals.{Abort, Packet, RequestToSend, written};
ghost use Rattle.j39_node.specs.SteadyExample.{brought, brought_start, holding};
ghost use Rattle.j39_node.specs.Example.{last_from, request_from, two};
ghost use Rattle.j39_node.specs.Is.{AreAnswered};
ghost use Rattle.j39_node.specs.History.{Who, Call, holds, is_claim, step};
ghost use Rattle.j39_node.specs.History.Call.{At};
ghost use Rattle.j39_node.specs.History.Act.{Hear, TakeFrame, Tick};
ghost use Rattle.j39_node.specs.Packets.{Bring, IsPacket};
ghost use Rattle.j39_address.specs.Claim.{Claim, claim_of};
ghost use Rattle.j39_node.specs.Hearing.{found};
ghost use Rattle.j39_node.specs.Reception.{KeepsHolder, called, calls_whom, heard_at, holder, is_called, is_message, restarts, taken_whom, waned, reception, session, time_heard, whole};
ghost use Rattle.j39_node.specs.Since.{NeverBack, passed_in};
ghost use Rattle.j39_node.specs.Ticks.{StaysOpen, TicksWithin};
ghost use Rattle.j39_node.specs.Times.{called_time};

/// A session ends by itself, whatever its source or anybody else sends (own). Its account runs from the RTS by which one is open
/// where none was; no call begins another while it is open, an RTS in its place neither. Behind each tick it is at most (n + 3) *
/// 1,250 ms old, of a message of n packets; one that is older is aborted by it (abort 3), and its place is free. So to a driver
/// whose clock never goes back and that ticks within each g, it is whole, or closed, within (n + 3) * 1,250 ms + g of that RTS,
/// where n is the most packets that one of its source's RTS named.
pub fn sessions_end()
    ensures begins { (w : Who) (H : List Call) (now a : ℕ) (f : FrameRecord) (x : Session) → session w H a ≡ None
        → session w (At now (Hear f) ∷ H) a ≡ Some x → x.since ≡ time_heard (At now (Hear f) ∷ H) }
    ensures runs { (w : Who) (H : List Call) (call : Call) (a : ℕ) (x y : Session) → session w H a ≡ Some x
        → session w (call ∷ H) a ≡ Some y → (y.since ≡ x.since) × (y.name ≡ x.name) }
    ensures over { (w : Who) (H : List Call) (now a : ℕ) (x : Session) → session w (At now Tick ∷ H) a ≡ Some x
        → time_heard (At now Tick ∷ H) ≤ x.since + longest x.reception.message.packets }
    ensures aborts { (w : Who) (H : List Call) (now a : ℕ) (x : Session) → session w H a ≡ Some x
        → x.since + longest x.reception.message.packets < time_heard (At now Tick ∷ H)
        → (session w (At now Tick ∷ H) a ≡ None) × ((tick_of w.address (time_heard (At now Tick ∷ H)) x).sends
        ≡ Some (written w.address a (Abort 3 x.reception.message.group))) }
    ensures ends { (w : Who) (later earlier : List Call) (g n at a : ℕ) (f : FrameRecord) → session w earlier a ≡ None
        → StaysOpen w a n later (At at (Hear f) ∷ earlier) → TicksWithin g later (At at (Hear f) ∷ earlier)
        → NeverBack later (At at (Hear f) ∷ earlier)
        → time_heard (At at (Hear f) ∷ earlier) + passed_in later (At at (Hear f) ∷ earlier) < 10000000000000000
        → passed_in later (At at (Hear f) ∷ earlier) ≤ (n + 3) * timer_t2 + g }
{}

/// Of a session's packets the next one is appended, and the last makes the message whole, which then waits for the program; the session is
/// over. One that is neither next nor the last that was granted changes nothing: of the session's time neither. Nor does a packet of who
/// has no session.
pub fn session_packets_heard()
    ensures next { (w : Who) (H : List Call) (now : ℕ) (f : FrameRecord) (x : Session) (part : List ℕ) → IsTrue (holds w H now)
        → session w H (source_of f.id) ≡ Some x → said_to w.address f ≡ Some (Packet (suc x.reception.message.count) part)
        → suc x.reception.message.count ≢ x.reception.message.packets
        → (y : Session) × (session w (At now (Hear f) ∷ H) (source_of f.id) ≡ Some y)
        × (y.reception.message ≡ grown (time_heard (At now (Hear f) ∷ H)) part x.reception.message) }
    ensures whole { (w : Who) (H : List Call) (now : ℕ) (f : FrameRecord) (x : Session) (part : List ℕ) (m : MessageRecord)
        → IsTrue (holds w H now) → session w H (source_of f.id) ≡ Some x
        → said_to w.address f ≡ Some (Packet (suc x.reception.message.count) part) → suc x.reception.message.count ≡ x.reception.message.packets
        → m ≡ record
        { source = source_of f.id; pgn = x.reception.message.group; bytes = take x.reception.message.size (x.reception.message.bytes ++ part) }
        → (whole w H now f ≡ Some m) × (session w (At now (Hear f) ∷ H) (source_of f.id) ≡ None)
        × ((reception w (At now (Hear f) ∷ H)).waits ≡ (reception w H).waits ++ (f.stamp, m) ∷ []) }
    ensures strays { (w : Who) (H : List Call) (now number : ℕ) (f : FrameRecord) (x : Session) (part : List ℕ)
        → session w H (source_of f.id) ≡ Some x → said_to w.address f ≡ Some (Packet number part) → number ≢ suc x.reception.message.count
        → number ≢ x.reception.granted → ((a : ℕ) → session w (At now (Hear f) ∷ H) a ≡ session w H a)
        × ((reception w (At now (Hear f) ∷ H)).waits ≡ (reception w H).waits)
        × ((reception w (At now (Hear f) ∷ H)).senders ≡ (reception w H).senders)
        × ((reception w (At now (Hear f) ∷ H)).replies ≡ (reception w H).replies) }
    ensures of_none { (w : Who) (H : List Call) (now number : ℕ) (f : FrameRecord) (part : List ℕ) → session w H (source_of f.id) ≡ None
        → said_to w.address f ≡ Some (Packet number part) → reception w (At now (Hear f) ∷ H) ≡ reception w H }
{}

/// What is sent to it whole is received: where an RTS of s is heard while the address is held, no session of s is open and a box is free,
/// and behind it packets 1 to n of s in order, each while the address is held, and at most 750 ms (T1) behind the one before, the
/// message is whole at the last, and waits. Between them may come any frames of others, those of s that are no sender's, ticks in time,
/// and all other calls; but no claim by which s has another holder, or restarts, or the address is lost, and no `again` or `move_to`.
pub fn transfers_heard()
    ensures { (w : Who) (later earlier : List Call) (at now : ℕ) (rts f : FrameRecord) (size n most pgn last : ℕ) (joined part : List ℕ)
        (m : MessageRecord) → IsTrue (holds w earlier at) → session w earlier (source_of rts.id) ≡ None
        → IsTrue (has_room (source_of rts.id) (reception w earlier)) → said_to w.address rts ≡ Some (RequestToSend size (suc n) most pgn)
        → Bring w (source_of rts.id) (At at (Hear rts) ∷ earlier) later n joined last
        → IsPacket w (source_of rts.id) (suc n) last part (later ++ At at (Hear rts) ∷ earlier) now f
        → m ≡ record { source = source_of rts.id; pgn = pgn; bytes = take size (joined ++ part) }
        → (whole w (later ++ At at (Hear rts) ∷ earlier) now f ≡ Some m)
        × ((reception w (At now (Hear f) ∷ later ++ At at (Hear rts) ∷ earlier)).waits
        ≡ (reception w (later ++ At at (Hear rts) ∷ earlier)).waits ++ (f.stamp, m) ∷ []) }
{}

/// Address 11 sends two packets whole, beside a request of address 12: so `transfers_heard` speaks of something.
#[tactic(auto, unfolding(j39_transport::specs::Cutting::cut_frame, j39_transport::specs::Cutting::announcement_of, j39_transport::specs::Cutting::packet_of, j39_transport::specs::Cutting::packet_data, j39_transport::specs::Sending::new_sender, j39_transport::specs::Sending::send_step, j39_transport::specs::Sending::ticks_in, j39_transport::specs::Sending::sends_packet, j39_transport::specs::Sending::hears, j39_transport::specs::Sending::cleared, j39_transport::specs::Sending::acknowledged, j39_transport::specs::Sending::aborted, j39_transport::specs::Signals::said_between, j39_transport::specs::Signals::said_by, j39_transport::specs::Signals::control_in, j39_transport::specs::Signals::packet_in, j39_transport::specs::Frames::is_announcement, j39_transport::specs::Frames::is_packet, j39_transport::specs::Frames::goes, j39_transport::specs::Frames::group_of, j39_transport::specs::Frames::source_of, j39_transport::specs::Frames::destination_of, j39_transport::specs::Reception::takes_request, j39_transport::specs::Reception::begun, j39_transport::specs::Reception::grants, j39_transport::specs::Reception::granted_at, j39_transport::specs::Reception::takes_data, j39_transport::specs::Reception::takes_packet, j39_transport::specs::Reception::goes_on, j39_transport::specs::Reception::delivers_message, j39_transport::specs::Signals::request_in, j39_transport::specs::Signals::written, j39_transport::specs::Frames::names_message, j39_transport::specs::Key::key_between, j39_transport::specs::Receiving::recv_step, j39_transport::specs::Receiving::said_to, j39_transport::specs::Reception::takes_signal, j39_transport::specs::Reception::takes_tick))]
pub fn an_example_of_packets()
    ensures answered { AreAnswered two (brought ++ brought_start) }
    ensures opens { IsTrue (holds two holding 300000) × (session two holding 11 ≡ None) × IsTrue (has_room 11 (reception two holding))
        × (said_to two.address (request_from 300000) ≡ Some (RequestToSend 9 2 255 65226)) }
    ensures bring { Bring two 11 brought_start brought 1 (1 ∷ 2 ∷ 3 ∷ 4 ∷ 5 ∷ 6 ∷ 7 ∷ []) 300003 }
    ensures last { IsPacket two 11 2 300003 (8 ∷ 9 ∷ 255 ∷ 255 ∷ 255 ∷ 255 ∷ 255 ∷ []) (brought ++ brought_start) 300004 (last_from 300004) }
{}

/// A restart is met: where the holder of an address claims it again and nothing called for that in the 1,250 ms before (own), the
/// open session of that address ends by it, and the broadcast that is heard. For called for it is by a request for claims that
/// was heard, to the address or to all, a claim of the address by who doesn't hold it, or the controller's own claim of it or
/// request for claims that was taken; not by a frame of `claims_request`, which is in no history. What calls for one address's
/// claim calls for no other's, unless one was called for in that time. So since the RTS or the announcement of what is received
/// in packets no such claim of its source came (`between`, and `of_one` of both laws). Behind a request for claims to it or to
/// all, whoever sends it, a restart isn't seen.
pub fn restarts_are_met()
    ensures means { (w : Who) (H : List Call) (now a : ℕ) (f : FrameRecord) → (restarts w H now f ≡ Some a
        ↔ ((c : Claim) × (claim_of f ≡ Some c) × (c.address ≡ a) × (holder w H a ≡ Some c.name)
        × (is_called a (waned (now - heard_at H) (called w H)) ≡ false))) }
    ensures session { (w : Who) (H : List Call) (now a : ℕ) (f : FrameRecord) → restarts w H now f ≡ Some a
        → session w (At now (Hear f) ∷ H) a ≡ None }
    ensures broadcast { (w : Who) (H : List Call) (now : ℕ) (f : FrameRecord) (a : ℕ) → restarts w H now f ≡ Some a
        → found w H now f a ≡ None }
    ensures heard { (w : Who) (later H : List Call) (when now a b : ℕ) (f g : FrameRecord) → calls_whom (holder w H) f (claim_of f) ≡ Some b
        → IsTrue (nat_eq b a || nat_eq b global_address)
        → passed_in later (At when (Hear f) ∷ H) + step (later ++ At when (Hear f) ∷ H) now < called_time
        → restarts w (later ++ At when (Hear f) ∷ H) now g ≢ Some a }
    ensures taken { (w : Who) (later H : List Call) (when now a b : ℕ) (f g : FrameRecord) → taken_whom (is_claim f) (is_message f) f ≡ Some b
        → IsTrue (nat_eq b a || nat_eq b global_address)
        → passed_in later (At when (TakeFrame (Some f)) ∷ H) + step (later ++ At when (TakeFrame (Some f)) ∷ H) now < called_time
        → restarts w (later ++ At when (TakeFrame (Some f)) ∷ H) now g ≢ Some a }
    ensures alone { (w : Who) (H : List Call) (when a b : ℕ) (f : FrameRecord) → calls_whom (holder w H) f (claim_of f) ≡ Some b
        → (called w H).left ≤ when - heard_at H → b ≢ a → b ≢ global_address
        → is_called a (called w (At when (Hear f) ∷ H)) ≡ false }
    ensures between { (w : Who) (a : ℕ) (after before earlier : List Call) (now : ℕ) (f : FrameRecord)
        → KeepsHolder w a (after ++ At now (Hear f) ∷ before) earlier → restarts w (before ++ earlier) now f ≢ Some a }
{}
