//! Laws of a driver that comes back in time: what was accepted ends.
ghost use Rattle.std.specs.Prelude.{◌≡◌, ◌≢◌, ◌⊎◌, ◌+◌, ◌-◌, ◌*◌, true, false, ◌<◌, ◌≤◌, ◌++◌, ℕ, List, ◌∷◌, length, None, Some, Ok, IsTrue, []};
ghost use Rattle.j39_transport.specs.Message.{packets_of};
ghost use Rattle.j39_transport.specs.Protocol.{gap, timer_t3};
ghost use Rattle.j39_node.specs.Reception.{is_reply, replies};
ghost use Rattle.j39_node.specs.SteadyExample.{announced_start, asked_start, between_packets, claims_asked, message_start, steady_example, steady_start, transfer_accepted, turns_example, two_claims};
ghost use Rattle.j39_node.specs.declared.controller.Controller.{Controller};
ghost use Rattle.j39_node.specs.declared.kinds.Ending.{Ending};
ghost use Rattle.j39_transfers.specs.Transfers.{is_over, Transfer as Running};
ghost use Rattle.j39_transfers.specs.declared.kinds.Ending.TheVariants as how;
ghost use Rattle.j39_frame.specs.Frame.{FrameRecord};
ghost use Rattle.j39_node.specs.History.{reached, Who, Call, Draft, accepted, address_after, broadcast_from, has_packets, is_held, is_lost, is_packet, sent, told, is_claim, message_of, Message};
ghost use Rattle.j39_node.specs.History.Call.{At};
ghost use Rattle.j39_node.specs.History.Act.{Ask, Broadcast, Send, TakeFrame, Transfer, Hear};
ghost use Rattle.j39_node.specs.Is.{AreAnswered, Is, next_broadcast_ended, next_ended, next_other};
ghost use Rattle.j39_node.specs.Transfers.{age, next_transfer_ended, open_to};
ghost use Rattle.j39_node.specs.Prompt.{IsPrompt, IsSteady, NoneTold, packets_taken, taken_for, tells_broadcast, tells_transfer, StaysFirst};
ghost use Rattle.j39_node.specs.Since.{passed_in};
ghost use Rattle.j39_node.specs.Example.{nine, two, announcement, busy_to, clear_to, own_claim};
ghost use Rattle.j39_node.specs.PromptExample.{both_transfers, prompt_example, prompt_start, roomy, transfer_example, transfer_start};
ghost use Rattle.j39_node.specs.Times.{packet_time};

/// A broadcast of n packets ends: where the driver is prompt by g microseconds since its acceptance, and more than
/// (n + 1) * (50 ms + g) passed, `take_broadcast_ended` would tell its end, unless it told it before. Nothing else that is
/// sent or heard lengthens this.
#[tactic(auto, using(crate::proofs::PromptLaws::broadcast_ends))]
pub fn broadcast_ends()
    ensures { (w : Who) (later earlier : List Call) (c : Controller) (g now group k : ℕ) (bytes : List ℕ)
        → Is w (later ++ At now (Broadcast group bytes (Ok k)) ∷ earlier) c → NoneTold tells_broadcast later
        → IsPrompt g later (At now (Broadcast group bytes (Ok k)) ∷ earlier)
        → (packets_of (broadcast_from w group bytes) + 1) * (gap + g) < passed_in later (At now (Broadcast group bytes (Ok k)) ∷ earlier)
        → (e : Ending) × (next_broadcast_ended w (later ++ At now (Broadcast group bytes (Ok k)) ∷ earlier) ≡ Some (k, e)) }
{}

/// A transfer of n packets ends, whatever its destination and others answer: where the driver is prompt by g microseconds since its
/// acceptance, and more than (n + 65) * (T3 + g) + g passed, it is over, unless its end was told before; and `take_transfer_ended` would
/// tell its end, or that of another. T3 is 1,250 ms; 64 clears to send may grant nothing new. So for the first 285 years.
#[tactic(auto, using(crate::proofs::EndLaws::transfer_ends))]
pub fn transfer_ends()
    ensures { (w : Who) (later earlier : List Call) (c : Controller) (g now priority group to k : ℕ) (bytes : List ℕ)
        → Is w (later ++ At now (Transfer priority group to bytes (Ok k)) ∷ earlier) c → NoneTold (tells_transfer k) later
        → IsPrompt g later (At now (Transfer priority group to bytes (Ok k)) ∷ earlier)
        → age w (later ++ At now (Transfer priority group to bytes (Ok k)) ∷ earlier) < 9000000000000000
        → (packets_of (broadcast_from w group bytes) + 65) * (timer_t3 + g) + g
        < passed_in later (At now (Transfer priority group to bytes (Ok k)) ∷ earlier)
        → (x : Running) × (open_to w to (later ++ At now (Transfer priority group to bytes (Ok k)) ∷ earlier) ≡ Some x) × (x.token ≡ k)
        × IsTrue (is_over x) × (next_transfer_ended w (later ++ At now (Transfer priority group to bytes (Ok k)) ∷ earlier) ≢ None) }
{}

/// A message of one frame ends, also that of a request: where the driver is prompt by g microseconds since its acceptance, and more
/// than g passed, its frame was taken, it is withdrawn, or the address is lost. What goes before it, claims, acknowledgments, replies
/// and older messages, is taken in this time too. Then `take_ended` would tell an end: that of the oldest message that it didn't tell.
pub fn message_ends()
    ensures sent { (w : Who) (later earlier : List Call) (c : Controller) (g now k : ℕ) (d : Draft)
        → Is w (later ++ At now (Send d (Ok k)) ∷ earlier) c → IsPrompt g later (At now (Send d (Ok k)) ∷ earlier)
        → g < passed_in later (At now (Send d (Ok k)) ∷ earlier)
        → (k < reached (later ++ At now (Send d (Ok k)) ∷ earlier))
        ⊎ IsTrue (is_lost (address_after w (later ++ At now (Send d (Ok k)) ∷ earlier))) }
    ensures sent_told { (w : Who) (later earlier : List Call) (c : Controller) (g now k : ℕ) (d : Draft)
        → Is w (later ++ At now (Send d (Ok k)) ∷ earlier) c → IsPrompt g later (At now (Send d (Ok k)) ∷ earlier)
        → g < passed_in later (At now (Send d (Ok k)) ∷ earlier) → length (told (later ++ At now (Send d (Ok k)) ∷ earlier)) ≤ k
        → (e : Ending) × (next_ended w (later ++ At now (Send d (Ok k)) ∷ earlier)
        ≡ Some (length (told (later ++ At now (Send d (Ok k)) ∷ earlier)), e)) }
    ensures asked { (w : Who) (later earlier : List Call) (c : Controller) (g now group to k : ℕ)
        → Is w (later ++ At now (Ask group to (Ok k)) ∷ earlier) c → IsPrompt g later (At now (Ask group to (Ok k)) ∷ earlier)
        → g < passed_in later (At now (Ask group to (Ok k)) ∷ earlier)
        → (k < reached (later ++ At now (Ask group to (Ok k)) ∷ earlier))
        ⊎ IsTrue (is_lost (address_after w (later ++ At now (Ask group to (Ok k)) ∷ earlier))) }
    ensures asked_told { (w : Who) (later earlier : List Call) (c : Controller) (g now group to k : ℕ)
        → Is w (later ++ At now (Ask group to (Ok k)) ∷ earlier) c → IsPrompt g later (At now (Ask group to (Ok k)) ∷ earlier)
        → g < passed_in later (At now (Ask group to (Ok k)) ∷ earlier) → length (told (later ++ At now (Ask group to (Ok k)) ∷ earlier)) ≤ k
        → (e : Ending) × (next_ended w (later ++ At now (Ask group to (Ok k)) ∷ earlier)
        ≡ Some (length (told (later ++ At now (Ask group to (Ok k)) ∷ earlier)), e)) }
{}

/// To a driver that takes one frame at least in each g, two frames of a broadcast are at most 150 ms + 3 g apart, whoever asks and
/// whatever else is due: as long as the next isn't taken, and at the call that takes it, no more passed. So a broadcast of n packets ends
/// within (n + 1) * (150 ms + 3 g). In 50 ms one is taken at most.
#[tactic(auto, using(crate::proofs::SteadyLaws::apart, crate::proofs::SteadyLaws::ends, crate::proofs::SteadyLaws::few))]
pub fn packets_go()
    ensures apart { (w : Who) (later earlier : List Call) (call : Call) (c : Controller) (g now : ℕ) (f : FrameRecord)
        → Is w (call ∷ later ++ At now (TakeFrame (Some f)) ∷ earlier) c → IsTrue (is_packet f)
        → IsTrue (has_packets w (At now (TakeFrame (Some f)) ∷ earlier)) → NoneTold tells_broadcast later → packets_taken later ≡ 0
        → is_lost (address_after w (later ++ At now (TakeFrame (Some f)) ∷ earlier)) ≡ false
        → IsSteady g (call ∷ later) (At now (TakeFrame (Some f)) ∷ earlier)
        → passed_in (call ∷ later) (At now (TakeFrame (Some f)) ∷ earlier) ≤ packet_time + 3 * g }
    ensures ends { (w : Who) (later earlier : List Call) (c : Controller) (g now group k : ℕ) (bytes : List ℕ)
        → Is w (later ++ At now (Broadcast group bytes (Ok k)) ∷ earlier) c → NoneTold tells_broadcast later
        → IsSteady g later (At now (Broadcast group bytes (Ok k)) ∷ earlier)
        → (packets_of (broadcast_from w group bytes) + 1) * (packet_time + 3 * g) < passed_in later (At now (Broadcast group bytes (Ok k)) ∷ earlier)
        → (e : Ending) × (next_broadcast_ended w (later ++ At now (Broadcast group bytes (Ok k)) ∷ earlier) ≡ Some (k, e)) }
    ensures few { (w : Who) (later earlier : List Call) (c : Controller) → Is w (later ++ earlier) c
        → gap * packets_taken later ≤ passed_in later earlier + gap }
{}

/// To such a driver a message that was accepted goes, that of a request too, whoever asks: where q accepted before it wait, its frame is
/// taken within 6 g * (q + p + 1), unless it is withdrawn or the address is lost; p frames of broadcasts are taken in this time. Then `take_ended` would tell an
/// end: that of the oldest message that it didn't tell.
#[tactic(auto, using(crate::proofs::SteadyLaws::message_goes, crate::proofs::SteadyLaws::message_told))]
pub fn messages_go()
    ensures sent { (w : Who) (later earlier : List Call) (c : Controller) (g k : ℕ) → Is w (later ++ earlier) c
        → IsTrue (is_held (address_after w earlier)) → k < length (accepted w earlier) → IsSteady g later earlier
        → (k - reached earlier + packets_taken later + 1) * (6 * g) < passed_in later earlier
        → (k < reached (later ++ earlier)) ⊎ IsTrue (is_lost (address_after w (later ++ earlier))) }
    ensures told { (w : Who) (later earlier : List Call) (c : Controller) (g k : ℕ) → Is w (later ++ earlier) c
        → IsTrue (is_held (address_after w earlier)) → k < length (accepted w earlier) → IsSteady g later earlier
        → (k - reached earlier + packets_taken later + 1) * (6 * g) < passed_in later earlier
        → length (told (later ++ earlier)) ≤ k
        → (e : Ending) × (next_ended w (later ++ earlier) ≡ Some (length (told (later ++ earlier)), e)) }
{}

/// To such a driver a reply goes, whatever else is due, packets of its own transfer too: as long as one is the first that waits, and none
/// is taken, at most 3 g * (p + 2) pass, where p frames of broadcasts are taken meanwhile; or the address is lost.
#[tactic(auto, using(crate::proofs::SteadyLaws::reply_goes))]
pub fn replies_go()
    ensures { (w : Who) (later earlier : List Call) (c : Controller) (g : ℕ) (m : Message) → Is w (later ++ earlier) c
        → IsTrue (is_held (address_after w earlier)) → StaysFirst w m later earlier → IsSteady g later earlier
        → is_lost (address_after w (later ++ earlier)) ≡ false
        → passed_in later earlier ≤ (packets_taken later + 2) * (3 * g) }
{}

/// To such a driver a transfer of n packets ends, whoever asks: within (n + 65) * (T3 + 3 g) + 6 g * (q + 1), for the first 285 years,
/// where q messages, frames of broadcasts and of transfers, its own too, and replies to addresses to which a transfer is open are taken
/// in this time. Messages without end hold it up, and so may a transfer's destination by RTS without end.
#[tactic(auto, using(crate::proofs::SteadyEnds::transfer_goes))]
pub fn transfers_go()
    ensures { (w : Who) (later earlier : List Call) (c : Controller) (g now priority group to k : ℕ) (bytes : List ℕ)
        → Is w (later ++ At now (Transfer priority group to bytes (Ok k)) ∷ earlier) c → NoneTold (tells_transfer k) later
        → IsSteady g later (At now (Transfer priority group to bytes (Ok k)) ∷ earlier)
        → age w (later ++ At now (Transfer priority group to bytes (Ok k)) ∷ earlier) < 9000000000000000
        → (packets_of (broadcast_from w group bytes) + 65) * (timer_t3 + 3 * g)
        + (taken_for w later (At now (Transfer priority group to bytes (Ok k)) ∷ earlier) + 1) * (6 * g)
        < passed_in later (At now (Transfer priority group to bytes (Ok k)) ∷ earlier)
        → (x : Running) × (open_to w to (later ++ At now (Transfer priority group to bytes (Ok k)) ∷ earlier) ≡ Some x) × (x.token ≡ k)
        × IsTrue (is_over x) × (next_transfer_ended w (later ++ At now (Transfer priority group to bytes (Ok k)) ∷ earlier) ≢ None) }
{}

/// A driver that is prompt by g microseconds takes one frame at least in each g too.
#[tactic(auto, using(crate::proofs::SteadyLaws::prompt_steady))]
pub fn prompt_is_steady()
    ensures { (g : ℕ) (later earlier : List Call) → IsPrompt g later earlier → IsSteady g later earlier }
{}

/// All answers of this history are those that a controller gives, its driver is prompt by 100 ms, and a broadcast of two packets
/// has ended in time: so the laws speak of something.
#[tactic(auto, unfolding(j39_transport::specs::Cutting::cut_frame, j39_transport::specs::Cutting::announcement_of, j39_transport::specs::Cutting::packet_of, j39_transport::specs::Cutting::packet_data, j39_transport::specs::Frames::is_announcement, j39_transport::specs::Frames::is_packet, j39_transport::specs::Frames::goes, j39_transport::specs::Frames::group_of, j39_transport::specs::Frames::source_of, j39_transport::specs::Frames::destination_of, j39_transport::specs::Signals::said_between))]
pub fn an_example_of_promptness()
    ensures answered { AreAnswered two (prompt_example ++ prompt_start) }
    ensures prompt { IsPrompt 100000 prompt_example prompt_start }
    ensures not_told { NoneTold tells_broadcast prompt_example }
    ensures long { (packets_of (broadcast_from two 65226 nine) + 1) * (gap + 100000) < passed_in prompt_example prompt_start }
{}

/// All answers of this history are those that a controller gives, its driver is prompt by a second, and a transfer of two packets has
/// ended in time, acknowledged: so `transfer_ends` speaks of something. With two boxes a second begins beside it, and takes its turn.
#[tactic(auto, unfolding(j39_transport::specs::Cutting::cut_frame, j39_transport::specs::Cutting::announcement_of, j39_transport::specs::Cutting::packet_of, j39_transport::specs::Cutting::packet_data, j39_transport::specs::Sending::new_sender, j39_transport::specs::Sending::send_step, j39_transport::specs::Sending::ticks_in, j39_transport::specs::Sending::sends_packet, j39_transport::specs::Sending::hears, j39_transport::specs::Sending::cleared, j39_transport::specs::Sending::acknowledged, j39_transport::specs::Sending::aborted, j39_transport::specs::Signals::said_between, j39_transport::specs::Signals::said_by, j39_transport::specs::Signals::control_in, j39_transport::specs::Signals::packet_in, j39_transport::specs::Frames::is_announcement, j39_transport::specs::Frames::is_packet, j39_transport::specs::Frames::goes, j39_transport::specs::Frames::group_of, j39_transport::specs::Frames::source_of, j39_transport::specs::Frames::destination_of, j39_transport::specs::Reception::takes_request, j39_transport::specs::Reception::begun, j39_transport::specs::Reception::grants, j39_transport::specs::Reception::granted_at, j39_transport::specs::Reception::takes_data, j39_transport::specs::Reception::takes_packet, j39_transport::specs::Reception::goes_on, j39_transport::specs::Reception::delivers_message, j39_transport::specs::Signals::request_in, j39_transport::specs::Signals::written, j39_transport::specs::Frames::names_message, j39_transport::specs::Key::key_between, j39_transport::specs::Receiving::recv_step, j39_transport::specs::Receiving::said_to, j39_transport::specs::Reception::takes_signal, j39_transport::specs::Reception::takes_tick))]
pub fn an_example_of_a_transfer()
    ensures answered { AreAnswered two (transfer_example ++ transfer_start) }
    ensures prompt { IsPrompt 1000000 transfer_example transfer_start }
    ensures not_told { NoneTold (tells_transfer 0) transfer_example }
    ensures long { (packets_of (broadcast_from two 65226 nine) + 65) * (timer_t3 + 1000000) + 1000000
        < passed_in transfer_example transfer_start }
    ensures ended { next_transfer_ended two (transfer_example ++ transfer_start) ≡ Some (0, how.Done) }
    ensures both { AreAnswered roomy both_transfers }
{}

/// All answers of this history are those that a controller gives, its driver takes one frame at least in each second, and a message, a
/// broadcast and a transfer have gone: so `messages_go`, `packets_go` and `transfers_go` speak of something.
#[tactic(auto, unfolding(j39_transport::specs::Cutting::cut_frame, j39_transport::specs::Cutting::announcement_of, j39_transport::specs::Cutting::packet_of, j39_transport::specs::Cutting::packet_data, j39_transport::specs::Sending::new_sender, j39_transport::specs::Sending::send_step, j39_transport::specs::Sending::ticks_in, j39_transport::specs::Sending::sends_packet, j39_transport::specs::Sending::hears, j39_transport::specs::Sending::cleared, j39_transport::specs::Sending::acknowledged, j39_transport::specs::Sending::aborted, j39_transport::specs::Signals::said_between, j39_transport::specs::Signals::said_by, j39_transport::specs::Signals::control_in, j39_transport::specs::Signals::packet_in, j39_transport::specs::Frames::is_announcement, j39_transport::specs::Frames::is_packet, j39_transport::specs::Frames::goes, j39_transport::specs::Frames::group_of, j39_transport::specs::Frames::source_of, j39_transport::specs::Frames::destination_of, j39_transport::specs::Reception::takes_request, j39_transport::specs::Reception::begun, j39_transport::specs::Reception::grants, j39_transport::specs::Reception::granted_at, j39_transport::specs::Reception::takes_data, j39_transport::specs::Reception::takes_packet, j39_transport::specs::Reception::goes_on, j39_transport::specs::Reception::delivers_message, j39_transport::specs::Signals::request_in, j39_transport::specs::Signals::written, j39_transport::specs::Frames::names_message, j39_transport::specs::Key::key_between, j39_transport::specs::Receiving::recv_step, j39_transport::specs::Receiving::said_to, j39_transport::specs::Reception::takes_signal, j39_transport::specs::Reception::takes_tick))]
pub fn an_example_of_steadiness()
    ensures answered { AreAnswered two (steady_example ++ steady_start) }
    ensures steady { IsSteady 1000000 (steady_example ++ transfer_accepted ++ At 300000 (Broadcast 65226 nine (Ok 0)) ∷ []) message_start }
    ensures not_told { NoneTold (tells_transfer 0) steady_example × NoneTold tells_broadcast (steady_example ++ transfer_accepted) }
    ensures message { IsTrue (is_held (address_after two steady_start)) × (0 < length (accepted two steady_start))
        × ((0 - reached steady_start + packets_taken steady_example + 1) * (6 * 1000000) < passed_in steady_example steady_start) }
    ensures broadcast { (packets_of (broadcast_from two 65226 nine) + 1) * (packet_time + 3 * 1000000)
        < passed_in (steady_example ++ transfer_accepted) (At 300000 (Broadcast 65226 nine (Ok 0)) ∷ message_start) }
    ensures apart { IsTrue (is_packet (announcement 400000)) × IsTrue (has_packets two announced_start) × (packets_taken between_packets ≡ 0)
        × (is_lost (address_after two (between_packets ++ announced_start)) ≡ false) }
    ensures transfer { (packets_of (broadcast_from two 65226 nine) + 65) * (timer_t3 + 3 * 1000000)
        + (taken_for two steady_example steady_start + 1) * (6 * 1000000) < passed_in steady_example steady_start }
{}

/// All answers of this history are those that a controller gives; two claims are taken in a row, and then a reply that is due; and
/// behind a reply a message that waits: so `takes_turns` speaks of something.
#[tactic(auto, unfolding(j39_transport::specs::Cutting::cut_frame, j39_transport::specs::Cutting::announcement_of, j39_transport::specs::Cutting::packet_of, j39_transport::specs::Cutting::packet_data, j39_transport::specs::Sending::new_sender, j39_transport::specs::Sending::send_step, j39_transport::specs::Sending::ticks_in, j39_transport::specs::Sending::sends_packet, j39_transport::specs::Sending::hears, j39_transport::specs::Sending::cleared, j39_transport::specs::Sending::acknowledged, j39_transport::specs::Sending::aborted, j39_transport::specs::Signals::said_between, j39_transport::specs::Signals::said_by, j39_transport::specs::Signals::control_in, j39_transport::specs::Signals::packet_in, j39_transport::specs::Frames::is_announcement, j39_transport::specs::Frames::is_packet, j39_transport::specs::Frames::goes, j39_transport::specs::Frames::group_of, j39_transport::specs::Frames::source_of, j39_transport::specs::Frames::destination_of, j39_transport::specs::Reception::takes_request, j39_transport::specs::Reception::begun, j39_transport::specs::Reception::grants, j39_transport::specs::Reception::granted_at, j39_transport::specs::Reception::takes_data, j39_transport::specs::Reception::takes_packet, j39_transport::specs::Reception::goes_on, j39_transport::specs::Reception::delivers_message, j39_transport::specs::Signals::request_in, j39_transport::specs::Signals::written, j39_transport::specs::Frames::names_message, j39_transport::specs::Key::key_between, j39_transport::specs::Receiving::recv_step, j39_transport::specs::Receiving::said_to, j39_transport::specs::Reception::takes_signal, j39_transport::specs::Reception::takes_tick))]
pub fn an_example_of_turns()
    ensures answered { AreAnswered two turns_example }
    ensures others { IsTrue (is_claim (own_claim 300006)) × (next_other two (At 300007 (Hear (claims_asked 300007)) ∷ two_claims) 300008
        ≡ Some (message_of (busy_to 300008))) }
    ensures behind_a_reply { IsTrue (is_reply (replies two asked_start) (clear_to 300001))
        × (reached (At 300001 (TakeFrame (Some (clear_to 300001))) ∷ asked_start)
        < length (accepted two (At 300001 (TakeFrame (Some (clear_to 300001))) ∷ asked_start))) }
{}
