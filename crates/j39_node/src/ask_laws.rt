//! Laws of requests over histories, as those of `laws`.
ghost use Rattle.std.specs.Prelude.{◌≡◌, ◌≢◌, ◌⊎◌, ◌+◌, ◌-◌, ◌%◌, ◌/◌, ◌<◌, ◌≤◌, ◌↔◌, ◌++◌, ℕ, List, [], ◌∷◌, length, Some, None, Option, Result, Ok, Err, IsTrue, false};
ghost use Rattle.std.specs.List.{slice_get};
ghost use Rattle.j39_frame.specs.Address.{IsAddress, global_address};
ghost use Rattle.j39_frame.specs.Frame.{FrameRecord};
ghost use Rattle.j39_frame.specs.Identifier.{destination_of, source_of};
ghost use Rattle.j39_address.specs.Claim.{claim_of};
ghost use Rattle.j39_transport.specs.Message.{MessageRecord};
ghost use Rattle.j39_node.specs.declared.controller.Controller.{Controller};
ghost use Rattle.j39_node.specs.declared.kinds.Answer.{Answer};
ghost use Rattle.j39_node.specs.declared.kinds.AskEnding.{AskEnding};
ghost use Rattle.j39_node.specs.declared.kinds.AskEnding.TheVariants as ending;
ghost use Rattle.j39_node.specs.declared.kinds.Refused.{Refused};
ghost use Rattle.j39_node.specs.declared.kinds.Refused.TheVariants as refused;
ghost use Rattle.j39_node.specs.History.{reached, Who, Call, accepted, address_after, holds, is_lost, is_smaller, message_of, sent, step, told};
ghost use Rattle.j39_node.specs.History.Call.{At, TakeAskEnded};
ghost use Rattle.j39_node.specs.History.Act.{Ask, Hear, TakeFrame, Tick};
ghost use Rattle.j39_node.specs.Reception.{session, time_heard, whole};
ghost use Rattle.j39_node.specs.Hearing.{OpenBroadcast, hearing, is_late, made_whole};
ghost use Rattle.j39_sessions.specs.Sessions.{Session};
ghost use Rattle.j39_node.specs.Asking.{AskedSince, HeardFirst, NoneEnds, Question, RanOut, asks, can_ask, comes, ended, is_request, is_taken, made, next_ask_ended, open_ask, says_to, told_asks, wait};
ghost use Rattle.j39_node.specs.AskExample.{ask_example};
ghost use Rattle.j39_node.specs.Example.{two};
ghost use Rattle.j39_node.specs.Is.{AreAnswered, Is};
ghost use Rattle.j39_node.specs.Times.{answer_time};

/// What `ask` answers: `NoAddress` where no address is held, `BadValue` where the group can't be asked for or the address not asked,
/// `Full` where a request is accepted and not told, or sixteen messages are (or as many as there are tokens were accepted), and else
/// the next token of `send`.
pub fn ask_means()
    ensures no_address { (w : Who) (H : List Call) (c : Controller) (now group to : ℕ) (answer : Result ℕ Refused)
        → Is w (At now (Ask group to answer) ∷ H) c → (answer ≡ Err refused.NoAddress ↔ (IsTrue (holds w H now) → ⊥)) }
    ensures bad_value { (w : Who) (H : List Call) (c : Controller) (now group to : ℕ) (answer : Result ℕ Refused)
        → Is w (At now (Ask group to answer) ∷ H) c
        → (answer ≡ Err refused.BadValue ↔ (IsTrue (holds w H now) × (IsTrue (can_ask w group to) → ⊥))) }
    ensures full { (w : Who) (H : List Call) (c : Controller) (now group to : ℕ) (answer : Result ℕ Refused)
        → Is w (At now (Ask group to answer) ∷ H) c
        → (answer ≡ Err refused.Full
        ↔ (IsTrue (holds w H now) × IsTrue (can_ask w group to)
        × ((length (asks H) ≡ length (told_asks H) + 1)
        ⊎ ((length (accepted w H) ≡ length (told H) + 16) ⊎ (length (accepted w H) ≡ 18446744073709551615))))) }
    ensures accepts { (w : Who) (H : List Call) (c : Controller) (now group to : ℕ) (answer : Result ℕ Refused)
        → Is w (At now (Ask group to answer) ∷ H) c → IsTrue (holds w H now) → IsTrue (can_ask w group to)
        → length (asks H) ≡ length (told_asks H) → length (accepted w H) < length (told H) + 16
        → length (accepted w H) < 18446744073709551615 → answer ≡ Ok (length (accepted w H)) }
    ensures token { (w : Who) (H : List Call) (c : Controller) (now group to k : ℕ)
        → Is w (At now (Ask group to (Ok k)) ∷ H) c → k ≡ length (accepted w H) }
{}

/// A request is the message of its token among those accepted, which `done_means` says are taken in order, each once: of priority 6,
/// to whom is asked, its three bytes the group, the low one first (J1939-21, 5.4.2). Where its frame was taken, this was at a call
/// before, and what is left of 1,250 ms is less by the time since.
pub fn request_means()
    ensures frame { (w : Who) (H : List Call) (c : Controller) (i : ℕ) (q : Question) → Is w H c → slice_get (asks H) i ≡ Some q
        → slice_get (accepted w H) q.token
        ≡ Some (
          q.token,
          record {
            source = w.address;
            destination = Some q.to;
            priority = 6;
            group = 59904;
            bytes = q.group % 256 ∷ q.group / 256 % 256 ∷ q.group / 65536 % 256 ∷ [];
          },
        ) }
    ensures once { (w : Who) (H : List Call) (c : Controller) (now : ℕ) (f : FrameRecord) (q : Question) → Is w H c → open_ask H ≡ Some q
        → IsTrue (is_request H f)
        → (is_taken q H ≡ false) × IsTrue (is_taken q (At now (TakeFrame (Some f)) ∷ H)) × (reached H ≡ q.token) }
    ensures since { (w : Who) (H : List Call) (c : Controller) (q : Question) → Is w H c → open_ask H ≡ Some q
        → IsTrue (is_taken q H) → (e : ℕ) × AskedSince H q e × (wait H ≡ answer_time - e) }
{}

/// Each request is told at most once, in order: as answered or acknowledged only where that was heard first, after its frame was taken
/// and less than 1,250 ms later, or while an answer in packets was coming; and where it was, it is so told. As timed out only where
/// 1,250 ms or more had passed since its frame was taken and no answer was coming; and where that is so, nothing was heard first and the
/// address isn't lost, it is so told. As withdrawn only where the address is lost. Where none is told, all are, or one is open, the
/// address isn't lost, and its frame wasn't taken, or less than 1,250 ms ago, or an answer is coming.
pub fn ask_done_means()
    ensures told { (w : Who) (H : List Call) (c : Controller) (k : ℕ) (e : AskEnding)
        → Is w (TakeAskEnded (Some (k, e)) ∷ H) c
        → (q : Question) × (open_ask H ≡ Some q) × (slice_get (asks H) (length (told_asks H)) ≡ Some q) × (q.token ≡ k) }
    ensures answered { (w : Who) (H : List Call) (c : Controller) (k : ℕ) (q : Question)
        → Is w (TakeAskEnded (Some (k, ending.Answered)) ∷ H) c → open_ask H ≡ Some q → HeardFirst w H q ending.Answered }
    ensures acknowledged { (w : Who) (H : List Call) (c : Controller) (k : ℕ) (a : Answer) (q : Question)
        → Is w (TakeAskEnded (Some (k, ending.Acknowledged a)) ∷ H) c → open_ask H ≡ Some q
        → HeardFirst w H q (ending.Acknowledged a) }
    ensures heard { (w : Who) (H later : List Call) (c : Controller) (now : ℕ) (f : FrameRecord) (q : Question) (e : AskEnding)
        (answer : Option (ℕ × AskEnding)) → Is w (TakeAskEnded answer ∷ later ++ At now (Hear f) ∷ H) c → NoneEnds later
        → open_ask H ≡ Some q → IsTrue (is_taken q H) → ended w H ≡ None
        → (step H now < wait H) ⊎ IsTrue (comes w H (time_heard (At now (Hear f) ∷ H)))
        → is_lost (address_after w (At now (Hear f) ∷ H)) ≡ false → says_to w q f (made w H now f) ≡ Some e → answer ≡ Some (q.token, e) }
    ensures timed_out { (w : Who) (H : List Call) (c : Controller) (k : ℕ) (q : Question)
        → Is w (TakeAskEnded (Some (k, ending.TimedOut)) ∷ H) c → open_ask H ≡ Some q → RanOut w H q }
    ensures times_out { (w : Who) (H : List Call) (c : Controller) (q : Question) (answer : Option (ℕ × AskEnding))
        → Is w (TakeAskEnded answer ∷ H) c → open_ask H ≡ Some q → IsTrue (is_taken q H) → wait H ≡ 0
        → comes w H (time_heard H) ≡ false → is_lost (address_after w H) ≡ false → ((e : AskEnding) → HeardFirst w H q e → ⊥)
        → answer ≡ Some (q.token, ending.TimedOut) }
    ensures withdrawn { (w : Who) (H : List Call) (c : Controller) (k : ℕ)
        → Is w (TakeAskEnded (Some (k, ending.Withdrawn)) ∷ H) c → IsTrue (is_lost (address_after w H)) }
    ensures all { (w : Who) (H : List Call) (c : Controller) → Is w (TakeAskEnded None ∷ H) c
        → (length (told_asks H) ≡ length (asks H))
        ⊎ ((q : Question) × (open_ask H ≡ Some q)
        × ((is_taken q H ≡ false) ⊎ (((e : ℕ) × AskedSince H q e × (e < answer_time)) ⊎ IsTrue (comes w H (time_heard H))))
        × (IsTrue (is_lost (address_after w H)) → ⊥)) }
{}

/// A message in packets, of the group and from whom was asked (from anybody where all were), answers a request by the frame that makes
/// it whole: one to this address, or a broadcast that is heard, which `announcements_heard` tells. It is coming from its begin on: while
/// its session, of the group and from who was asked, is open, or the broadcast isn't whole, nor late.
pub fn packets_answer()
    ensures transfer { (w : Who) (H : List Call) (now : ℕ) (f : FrameRecord) (m : MessageRecord) (q : Question) → whole w H now f ≡ Some m
        → m.pgn ≡ q.group → (q.to ≡ global_address) ⊎ (m.source ≡ q.to) → says_to w q f (made w H now f) ≡ Some ending.Answered }
    ensures broadcast { (w : Who) (H : List Call) (now : ℕ) (f : FrameRecord) (x : ℕ × MessageRecord) (q : Question) → IsAddress w.address
        → made_whole w H now f ≡ Some x → x.1.pgn ≡ q.group → (q.to ≡ global_address) ⊎ (x.1.source ≡ q.to)
        → says_to w q f (made w H now f) ≡ Some ending.Answered }
    ensures coming { (w : Who) (H : List Call) (time : ℕ) (q : Question) → open_ask H ≡ Some q → (IsTrue (comes w H time)
        ↔ (((x : Session) × (session w H q.to ≡ Some x) × (x.reception.message.group ≡ q.group))
        ⊎ ((x : OpenBroadcast) × (a : ℕ) × (hearing w H a ≡ Some x) × (is_late time x ≡ false) × (x.group ≡ q.group)
        × ((q.to ≡ global_address) ⊎ (x.source ≡ q.to))))) }
{}

/// A frame of who wasn't asked, unless all were, says nothing to a request, and neither does one that goes to another address. What says
/// nothing tells no end but that of a tick at the same moment, unless by it the address is lost, or an answer in packets begins or ends
/// by it or by that tick.
pub fn strangers_and_requests()
    ensures of_another { (w : Who) (H : List Call) (now : ℕ) (f : FrameRecord) (q : Question) → q.to ≢ global_address → source_of f.id ≢ q.to
        → says_to w q f (made w H now f) ≡ None }
    ensures to_another { (w : Who) (H : List Call) (now : ℕ) (f : FrameRecord) (q : Question) (a : ℕ) → destination_of f.id ≡ Some a
        → a ≢ global_address → a ≢ w.address → says_to w q f (made w H now f) ≡ None }
    ensures ends { (w : Who) (H : List Call) (now : ℕ) (f : FrameRecord) (q : Question) → open_ask H ≡ Some q → says_to w q f (made w H now f) ≡ None
        → is_smaller w (claim_of f) ≡ false
        → comes w (At now (Hear f) ∷ H) (time_heard (At now Tick ∷ H)) ≡ comes w H (time_heard (At now Tick ∷ H))
        → comes w (At now Tick ∷ H) (time_heard (At now Tick ∷ H)) ≡ comes w H (time_heard (At now Tick ∷ H))
        → next_ask_ended w (At now (Hear f) ∷ H) ≡ next_ask_ended w (At now Tick ∷ H) }
{}

/// All answers of this history are those that a controller gives: requests are answered, one in packets to all; one is refused, and one
/// hears nothing.
#[tactic(auto, unfolding(j39_transport::specs::Cutting::cut_frame, j39_transport::specs::Cutting::announcement_of, j39_transport::specs::Cutting::packet_of, j39_transport::specs::Cutting::packet_data, j39_transport::specs::Sending::new_sender, j39_transport::specs::Sending::send_step, j39_transport::specs::Sending::ticks_in, j39_transport::specs::Sending::sends_packet, j39_transport::specs::Sending::hears, j39_transport::specs::Sending::cleared, j39_transport::specs::Sending::acknowledged, j39_transport::specs::Sending::aborted, j39_transport::specs::Signals::said_between, j39_transport::specs::Signals::said_by, j39_transport::specs::Signals::control_in, j39_transport::specs::Signals::packet_in, j39_transport::specs::Frames::is_announcement, j39_transport::specs::Frames::is_packet, j39_transport::specs::Frames::goes, j39_transport::specs::Frames::group_of, j39_transport::specs::Frames::source_of, j39_transport::specs::Frames::destination_of, j39_transport::specs::Reception::takes_request, j39_transport::specs::Reception::begun, j39_transport::specs::Reception::grants, j39_transport::specs::Reception::granted_at, j39_transport::specs::Reception::takes_data, j39_transport::specs::Reception::takes_packet, j39_transport::specs::Reception::goes_on, j39_transport::specs::Reception::delivers_message, j39_transport::specs::Signals::request_in, j39_transport::specs::Signals::written, j39_transport::specs::Frames::names_message, j39_transport::specs::Key::key_between, j39_transport::specs::Receiving::recv_step, j39_transport::specs::Receiving::said_to, j39_transport::specs::Reception::takes_signal, j39_transport::specs::Reception::takes_tick))]
pub fn an_example_of_requests()
    ensures { AreAnswered two ask_example }
{}
