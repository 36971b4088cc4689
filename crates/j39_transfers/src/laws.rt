//! What transfers promise over all that they went through.
ghost use Rattle.std.specs.Prelude.{◌≡◌, ◌≢◌, ◌⊎◌, ◌+◌, ◌*◌, ◌++◌, ◌<◌, ◌≤◌, ◌∷◌, [], ℕ, List, Option, Some, None, Ok, length, max, true, false};
ghost use Rattle.std.specs.List.{All, find};
ghost use Rattle.std.specs.Option.{is_some, option_map};
ghost use Rattle.j39_frame.specs.Frame.{FrameRecord};
ghost use Rattle.j39_frame.specs.Identifier.{source_of};
ghost use Rattle.j39_transport.specs.Cutting.{packet_data};
ghost use Rattle.j39_transport.specs.Frames.{destination_of};
ghost use Rattle.j39_transport.specs.Message.{packets_of};
ghost use Rattle.j39_transport.specs.Sending.{Idle, Sending, request_of};
ghost use Rattle.j39_transport.specs.Signals.{Abort, Acknowledgment, Packet, said_between};
ghost use Rattle.j39_transfers.specs.declared.kinds.Ending.TheVariants as how;
ghost use Rattle.j39_transfers.specs.Course.{ArePrompt, Course, due_by, longest};
ghost use Rattle.j39_transfers.specs.Events.{AreApart, AreBy, Begins, Event, PassesBy, Sends, Tells, WasTold, after, begun_tokens, goes_to, is_before, times, told_tokens, tokens};
ghost use Rattle.j39_transfers.specs.Example.{beginning, both, later, order};
ghost use Rattle.j39_transfers.specs.Transfers.{answer, awake, begins, ending, signal_by, hears, hears_in, is_due, is_over, is_resting, leaves, leaves_in, listens, loses, of, Order, rest_time, rests, said, sends, sends_in, soonest, tells, to, turn, Transfer, TransfersRecord};

/// To each destination one is open at most, and of the boxes no more are in use than there are; twice as many pairs rest or may yet.
#[tactic(auto, using(crate::proofs::LawLemmas::each_apart, crate::proofs::LawLemmas::all_fit))]
pub fn one_to_each()
    ensures one { (own boxes : ℕ) (E : List Event) → AreApart (after own boxes E).running }
    ensures fit { (own boxes : ℕ) (E : List Event) → length (after own boxes E).running ≤ boxes }
    ensures rest { (own boxes : ℕ) (E : List Event) → length (after own boxes E).rests + length (after own boxes E).running ≤ 2 * boxes }
{}

/// As often as a token began, it was told, or is open.
#[tactic(auto, using(crate::proofs::LawLemmas::all_accounted))]
pub fn accounted()
    ensures { (own boxes k : ℕ) (E : List Event) → times k (begun_tokens own boxes E)
        ≡ times k (told_tokens own boxes E) + times k (tokens (after own boxes E).running) }
{}

/// A frame of another, or to another, leaves a transfer, whatever it says; and what is sent, told or begun to one address leaves those to
/// others.
#[tactic(auto, using(crate::proofs::LawLemmas::of_another, crate::proofs::LawLemmas::to_another, crate::proofs::LawLemmas::sent_another, crate::proofs::LawLemmas::told_another, crate::proofs::LawLemmas::begun_another))]
pub fn strangers()
    ensures heard { (s : TransfersRecord) (now a : ℕ) (f : FrameRecord) → source_of f.id ≢ a → of a (hears f now s).running ≡ of a s.running }
    ensures elsewhere { (s : TransfersRecord) (now a : ℕ) (f : FrameRecord) (x : Transfer) → of a s.running ≡ Some x
        → destination_of f.id ≢ x.sender.message.source → of a (hears f now s).running ≡ Some x }
    ensures sent { (s : TransfersRecord) (now a : ℕ) (y : Transfer) → turn now s.running ≡ Some y → to y ≢ a
        → of a (sends now s).running ≡ of a s.running }
    ensures told { (s : TransfersRecord) (a : ℕ) (y : Transfer) → find is_over s.running ≡ Some y → to y ≢ a
        → of a (tells s).running ≡ of a s.running }
    ensures begun { (s : TransfersRecord) (now a : ℕ) (o : Order) (name : Option ℕ) → o.to ≢ a → of a (begins o name now s).running ≡ of a s.running }
{}

/// To its own transfer a frame or a claim does what it does to one that has no other beside it; so does the frame that it sends.
#[tactic(auto, using(crate::proofs::LawLemmas::its_heard, crate::proofs::LawLemmas::its_left, crate::proofs::LawLemmas::its_sent))]
pub fn as_if_alone()
    ensures heard { (s : TransfersRecord) (now a : ℕ) (f : FrameRecord) → of a (hears f now s).running ≡ option_map (hears_in f now) (of a s.running) }
    ensures left { (s : TransfersRecord) (now a : ℕ) (gone : Option ℕ) (holder : ℕ → Option ℕ)
        → of a (leaves gone holder now s).running ≡ option_map (leaves_in gone holder now) (of a s.running) }
    ensures sent { (own boxes now : ℕ) (E : List Event) (y : Transfer) → turn now (after own boxes E).running ≡ Some y
        → of (to y) (sends now (after own boxes E)).running ≡ Some (sends_in now y) }
{}

/// Of those that send a frame one goes first that has the smallest priority number; none goes only where none sends one.
#[tactic(auto, using(crate::proofs::TurnLemmas::most_urgent, crate::proofs::TurnLemmas::first_due, crate::proofs::DueLemmas::none_due))]
pub fn urgent_first()
    ensures urgent { (now a : ℕ) (xs : List Transfer) (y x : Transfer) → turn now xs ≡ Some y → of a xs ≡ Some x → is_due now x ≡ true
        → y.priority ≤ x.priority }
    ensures due { (now : ℕ) (xs : List Transfer) (y : Transfer) → turn now xs ≡ Some y → is_due now y ≡ true }
    ensures none { (now a : ℕ) (xs : List Transfer) (x : Transfer) → turn now xs ≡ None → of a xs ≡ Some x → is_due now x ≡ false }
{}

/// No destination waits for more than one frame of each other: behind a frame to another none goes there again, of its priority number or
/// a larger one, before one to this destination, if that is due and its end isn't told meanwhile.
#[tactic(auto, using(crate::proofs::TurnLemmas::by_turns))]
pub fn by_turns()
    ensures { (own boxes now when a : ℕ) (later E : List Event) (x y z : Transfer) → turn now (after own boxes E).running ≡ Some y → to y ≢ a
        → is_some (of a (after own boxes E).running) ≡ true → PassesBy own boxes a later (Sends now ∷ E)
        → of a (after own boxes (later ++ Sends now ∷ E)).running ≡ Some x → is_due when x ≡ true → x.priority ≤ z.priority
        → turn when (after own boxes (later ++ Sends now ∷ E)).running ≡ Some z → to z ≢ to y }
{}

/// In so long a frame is due, if nothing is heard till then, and not before; where it says nothing, none will be.
#[tactic(auto, using(crate::proofs::DueLemmas::none_before, crate::proofs::DueLemmas::one_then, crate::proofs::DueLemmas::none_ever))]
pub fn due_in_means()
    ensures before { (s : TransfersRecord) (now later d : ℕ) → soonest now s.running ≡ Some d → now ≤ later → later < now + d → said later s ≡ None }
    ensures due { (s : TransfersRecord) (now d : ℕ) → soonest now s.running ≡ Some d → is_some (said (now + d) s) ≡ true }
    ensures never { (s : TransfersRecord) (now later : ℕ) → soonest now s.running ≡ None → now ≤ later → said later s ≡ None }
{}

/// One that rests by its end does so till 4 s are over, from its end on, whatever comes between; and no other rests.
#[tactic(auto, using(crate::proofs::RestLemmas::it_rests, crate::proofs::RestLemmas::comes_from))]
pub fn rests_mean()
    ensures rests { (own boxes now : ℕ) (later E : List Event) (x : Transfer) → find is_over (after own boxes E).running ≡ Some x → rests x ≡ true
        → now < x.last + rest_time → AreBy now later
        → is_resting (to x) x.sender.message.pgn (awake now (after own boxes (later ++ Tells ∷ E))).rests ≡ true }
    ensures only { (own boxes now a group : ℕ) (E : List Event) → is_resting a group (awake now (after own boxes E)).rests ≡ true
        → WasTold own boxes now a group E }
{}

/// It ends in time: if each frame of a transfer of n packets is sent at most g after it is due, and nothing is heard later, it is over
/// within 1,250 ms + 2 g + (n + 65) (1,250 ms + (n + 1) g) of its beginning, whatever is heard: a frame of it isn't due later.
#[tactic(auto, using(crate::proofs::CourseLemmas::on_course, crate::proofs::CourseLemmas::ends_soon))]
pub fn ends_in_time()
    ensures course { (own boxes g start : ℕ) (o : Order) (name : Option ℕ) (later E : List Event)
        → answer o (awake start (after own boxes E)) ≡ Ok tt → ArePrompt own boxes g o.to later (Begins o name start ∷ E)
        → (x : Transfer) × (of o.to (after own boxes (later ++ Begins o name start ∷ E)).running ≡ Some x) × Course g start x }
    ensures bound { (g start : ℕ) (x : Transfer) → Course g start x → is_over x ≡ false
        → due_by x + g ≤ start + longest g (packets_of x.sender.message) }
{}

/// First the request to send goes, then the packets in order: a packet's number is at most one above the highest that went before.
#[tactic(auto, using(crate::proofs::OrderLemmas::request_goes, crate::proofs::OrderLemmas::packet_goes, crate::proofs::OrderLemmas::packet_counts, crate::proofs::OrderLemmas::packet_next))]
pub fn in_order()
    ensures request { (now : ℕ) (x : Transfer) → x.broken ≡ None → x.sender.state ≡ Idle → signal_by now x ≡ Some (request_of x.sender.message) }
    ensures packet { (now k last : ℕ) (x : Transfer) → x.broken ≡ None → x.spent ≤ 64 → x.sender.state ≡ Sending k last
        → signal_by now x ≡ Some (Packet k (packet_data x.sender.message.bytes k)) }
    ensures highest { (now k last : ℕ) (x : Transfer) → x.spent ≤ 64 → x.sender.state ≡ Sending k last
        → (sends_in now x).sender.highest ≡ max x.sender.highest k }
    ensures next { (own boxes a k last : ℕ) (E : List Event) (x : Transfer) → of a (after own boxes E).running ≡ Some x
        → x.sender.state ≡ Sending k last → k ≤ x.sender.highest + 1 }
{}

/// It is done only by an acknowledgment of its size, packets and group behind its last packet, and failed by an abort that is heard or sent.
#[tactic(auto, using(crate::proofs::OrderLemmas::done_heard, crate::proofs::OrderLemmas::done_last, crate::proofs::OrderLemmas::failed_by, crate::proofs::OrderLemmas::sent_failed, crate::proofs::OrderLemmas::sent_undone))]
pub fn done_means()
    ensures done { (f : FrameRecord) (now : ℕ) (x : Transfer) → is_over x ≡ false → ending (hears_in f now x) ≡ Some how.Done
        → said_between x.sender.destination x.sender.message.source f
        ≡ Some (Acknowledgment (length x.sender.message.bytes) (packets_of x.sender.message) x.sender.message.pgn) }
    ensures last { (f : FrameRecord) (now : ℕ) (x : Transfer) → is_over x ≡ false → ending (hears_in f now x) ≡ Some how.Done
        → x.sender.highest ≡ packets_of x.sender.message }
    ensures failed { (f : FrameRecord) (now reason : ℕ) (x : Transfer) → is_over x ≡ false → ending (hears_in f now x) ≡ Some (how.Failed reason)
        → said_between x.sender.destination x.sender.message.source f ≡ Some (Abort reason x.sender.message.pgn) }
    ensures sent { (now reason : ℕ) (x : Transfer) → is_due now x ≡ true → ending (sends_in now x) ≡ Some (how.Failed reason)
        → signal_by now x ≡ Some (Abort reason x.sender.message.pgn) }
    ensures undone { (now : ℕ) (x : Transfer) → is_due now x ≡ true → ending (sends_in now x) ≢ Some how.Done }
{}

/// Two begin at once, of which one is held by its destination: so `by_turns` and `ends_in_time` speak of something.
#[tactic(auto, using(crate::proofs::ExampleLemmas::begins, crate::proofs::ExampleLemmas::first, crate::proofs::ExampleLemmas::other, crate::proofs::ExampleLemmas::passes, crate::proofs::ExampleLemmas::second, crate::proofs::ExampleLemmas::prompt))]
pub fn an_example()
    ensures begins { answer (order 1 11) (awake 0 (after 128 2 [])) ≡ Ok tt }
    ensures first { option_map to (turn 1000 (after 128 2 beginning).running) ≡ Some 11 }
    ensures other { is_some (of 12 (after 128 2 beginning).running) ≡ true }
    ensures passes { PassesBy 128 2 12 later (Sends 1000 ∷ beginning) }
    ensures second { option_map to (turn 2000 (after 128 2 (Sends 1000 ∷ beginning)).running) ≡ Some 12 }
    ensures prompt { ArePrompt 128 2 10000 11 both (Begins (order 1 11) None 0 ∷ []) }
{}
