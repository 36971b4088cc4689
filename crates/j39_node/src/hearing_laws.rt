//! The laws of broadcasts in packets that are heard.
ghost use Rattle.std.specs.Prelude.{◌≡◌, ◌≢◌, ◌⊎◌, ◌<◌, ◌≤◌, ◌↔◌, ◌++◌, ◌+◌, ◌*◌, ◌||◌, ℕ, suc, Bool, List, [], ◌∷◌, length, take, drop, slice_index, None, Some, IsTrue, true, false};
ghost use Rattle.std.specs.List.{filter};
ghost use Rattle.j39_frame.specs.Frame.{FrameRecord};
ghost use Rattle.j39_frame.specs.Identifier.{source_of};
ghost use Rattle.j39_address.specs.Claim.{claim_of};
ghost use Rattle.j39_transport.specs.Frames.{packets_for, pgn_named};
ghost use Rattle.j39_transport.specs.Message.{MessageRecord};
ghost use Rattle.j39_transport.specs.Protocol.{broadcast_limit};
ghost use Rattle.j39_node.specs.declared.controller.Controller.{Controller};
ghost use Rattle.j39_node.specs.History.{Who, Call, is_claim, is_own_group, is_subscribed};
ghost use Rattle.j39_node.specs.History.Call.{At, ReleaseBroadcast};
ghost use Rattle.j39_node.specs.History.Act.{Hear, Tick, TakeFrame};
ghost use Rattle.j39_node.specs.Apart.{AreApartBy, sent_by};
ghost use Rattle.j39_node.specs.Hearing.{OpenBroadcast, WasBroadcast, account, announced, announces, broadcast_senders, found, found_in, got_broadcasts, grown, hearing, is_late, listening, made_whole, more, of, opened, over_by, packs, unheard, unheard_news, waiting, whole_broadcasts};
ghost use Rattle.j39_node.specs.Example.{announced_by, two_open, wide};
ghost use Rattle.j39_node.specs.Is.{AreAnswered, Is};
ghost use Rattle.j39_node.specs.Reception.{holder, known, time_heard};
ghost use Rattle.j39_node.specs.Since.{NeverBack, passed_in};
ghost use Rattle.j39_node.specs.Ticks.{StaysHeard, TicksWithin};

/// What packets to all make whole is got by the program, each once, in the order in which they were whole, or waits. It was sent by one:
/// its announcement was heard, then its packets in order, and of its source nothing between them but packets of numbers that came
/// before; and since the announcement one NAME held its source, and didn't restart, or none. Each that waits has a sender so.
pub fn broadcasts_received()
    ensures in_order { (w : Who) (H : List Call) → whole_broadcasts w H ≡ got_broadcasts w H ++ waiting w H }
    ensures got { (w : Who) (H : List Call) (c : Controller) (answer : Bool) → Is w (ReleaseBroadcast answer ∷ H) c
        → (answer ≡ true ↔ ((x : ℕ × MessageRecord) × (xs : List (ℕ × MessageRecord)) × (waiting w H ≡ x ∷ xs))) }
    ensures of_one { (w : Who) (H : List Call) (now : ℕ) (f : FrameRecord) (x : ℕ × MessageRecord) → made_whole w H now f ≡ Some x
        → WasBroadcast w (At now (Hear f) ∷ H) x.1 }
    ensures senders { (w : Who) (H : List Call) → length (broadcast_senders w H) ≡ length (waiting w H) }
{}

/// A broadcast that is announced for the program, of a group that is subscribed, is received or counted: it is whole, open, or counted
/// as unheard. It begins, unless all boxes are in use by whole ones that wait, and by those of other sources that are open and in time.
/// Of each source one is open at most, and no more are open or wait than there are boxes. What isn't for the program is never whole.
/// What is counted is news.
pub fn announcements_heard()
    ensures heard { (w : Who) (H : List Call) (now : ℕ) (f : FrameRecord) → announces f ≡ true → is_own_group (pgn_named f) ≡ false
        → IsTrue (is_subscribed w (pgn_named f)) → (hearing w (At now (Hear f) ∷ H) (source_of f.id) ≡ Some (opened w H now f))
        ⊎ (unheard w (At now (Hear f) ∷ H) ≡ suc (length (over_by w H (At now (Hear f))) + unheard w H)) }
    ensures full { (w : Who) (H : List Call) (now : ℕ) (f : FrameRecord) → announces f ≡ true → is_own_group (pgn_named f) ≡ false
        → IsTrue (is_subscribed w (pgn_named f)) → hearing w (At now (Hear f) ∷ H) (source_of f.id) ≢ Some (opened w H now f)
        → (w.boxes ≡ length (found_in w H now f).current + length (waiting w H)) × ((a : ℕ) (x : OpenBroadcast) → found w H now f a ≡ Some x
        → (source_of f.id ≢ a) × (is_late (time_heard (At now (Hear f) ∷ H)) x ≡ false)) }
    ensures boxes { (w : Who) (H : List Call) → length (listening w H).current + length (waiting w H) ≤ w.boxes }
    ensures exact { (w : Who) (H : List Call) → announced w H ≡ length (whole_broadcasts w H) + unheard w H + length (listening w H).current }
    ensures subscribed { (w : Who) (H : List Call) (now : ℕ) (f : FrameRecord) (x : ℕ × MessageRecord) → made_whole w H now f ≡ Some x
        → IsTrue (is_subscribed w x.1.pgn) × (is_own_group x.1.pgn ≡ false) }
    ensures news { (w : Who) (H : List Call) → IsTrue (unheard_news w H) → 0 < unheard w H }
    ensures told { (w : Who) (H : List Call) (call : Call) → unheard w (call ∷ H) ≢ unheard w H → IsTrue (unheard_news w (call ∷ H)) }
{}

/// A broadcast's box is free by itself, whatever its source or anybody else sends (own). A source's account runs from the announcement
/// before which it has none open; one that takes the place of another of its source goes on with it. What a frame finds, or a tick
/// leaves, had its last packet at most 750 ms before, and is at most (n + 1) * 750 ms old, of a message of n packets; what is
/// older is over by it. So to a driver whose clock never goes back and that ticks within each g, the box is free, or holds
/// what is whole, within (n + 1) * 750 ms + g of that announcement, where n is the most packets that one of its source's named.
pub fn broadcasts_end()
    ensures begins { (w : Who) (H : List Call) (now a : ℕ) (f : FrameRecord) (x : OpenBroadcast) → found w H now f a ≡ None
        → hearing w (At now (Hear f) ∷ H) a ≡ Some x → x.since ≡ time_heard (At now (Hear f) ∷ H) }
    ensures runs { (w : Who) (H : List Call) (call : Call) (a : ℕ) (x y : OpenBroadcast) → hearing w H a ≡ Some x
        → hearing w (call ∷ H) a ≡ Some y → of a (over_by w H call) ≡ None → y.since ≡ x.since }
    ensures heard { (w : Who) (H : List Call) (now a : ℕ) (f : FrameRecord) (x : OpenBroadcast) → found w H now f a ≡ Some x
        → (time_heard (At now (Hear f) ∷ H) ≤ x.time + broadcast_limit)
        × (time_heard (At now (Hear f) ∷ H) ≤ x.since + account (packets_for x.size)) }
    ensures ticked { (w : Who) (H : List Call) (now a : ℕ) (x : OpenBroadcast) → hearing w (At now Tick ∷ H) a ≡ Some x
        → (time_heard (At now Tick ∷ H) ≤ x.time + broadcast_limit)
        × (time_heard (At now Tick ∷ H) ≤ x.since + account (packets_for x.size)) }
    ensures ends { (w : Who) (later earlier : List Call) (g n at a : ℕ) (f : FrameRecord) → found w earlier at f a ≡ None
        → StaysHeard w a n later (At at (Hear f) ∷ earlier) → TicksWithin g later (At at (Hear f) ∷ earlier)
        → NeverBack later (At at (Hear f) ∷ earlier)
        → time_heard (At at (Hear f) ∷ earlier) + passed_in later (At at (Hear f) ∷ earlier) < 10000000000000000
        → passed_in later (At at (Hear f) ∷ earlier) ≤ (n + 1) * broadcast_limit + g }
{}

/// The next packet of the open broadcast of its source is appended, in time, and the last makes it whole; a repeat changes nothing, one
/// that leaves a gap ends it, and so does any frame that is late, and a claim by which its source has another holder, or none, or
/// restarts. In time, no frame of another source changes it, unless by it its source has another holder or restarts; nor does a frame
/// taken that is no claim, nor a broadcast that is released.
pub fn packets_heard()
    ensures next { (w : Who) (H : List Call) (now : ℕ) (f : FrameRecord) (x : OpenBroadcast) → announces f ≡ false → IsTrue (packs f)
        → found w H now f (source_of f.id) ≡ Some x → slice_index f.bytes 0 ≡ suc x.count → length x.bytes + 7 < x.size
        → hearing w (At now (Hear f) ∷ H) (source_of f.id) ≡ Some (grown (time_heard (At now (Hear f) ∷ H)) f x) }
    ensures whole { (w : Who) (H : List Call) (now : ℕ) (f : FrameRecord) (x : OpenBroadcast) → announces f ≡ false → IsTrue (packs f)
        → found w H now f (source_of f.id) ≡ Some x → slice_index f.bytes 0 ≡ suc x.count → x.size ≤ length x.bytes + 7
        → made_whole w H now f ≡ Some (
          f.stamp,
          record
              { source = x.source; pgn = x.group; bytes = take x.size (x.bytes ++ drop 1 f.bytes) },
        ) }
    ensures repeats { (w : Who) (H : List Call) (now : ℕ) (f : FrameRecord) (x : OpenBroadcast) → announces f ≡ false → IsTrue (packs f)
        → found w H now f (source_of f.id) ≡ Some x → slice_index f.bytes 0 ≤ x.count → hearing w (At now (Hear f) ∷ H) (source_of f.id) ≡ Some x }
    ensures gap { (w : Who) (H : List Call) (now : ℕ) (f : FrameRecord) (x : OpenBroadcast) → announces f ≡ false → IsTrue (packs f)
        → found w H now f (source_of f.id) ≡ Some x → suc x.count < slice_index f.bytes 0 → hearing w (At now (Hear f) ∷ H) (source_of f.id) ≡ None }
    ensures found { (w : Who) (H : List Call) (now a : ℕ) (f : FrameRecord) (x : OpenBroadcast) → hearing w H a ≡ Some x
        → (found w H now f a ≡ Some x ↔ ((holder w (At now (Hear f) ∷ H) a ≡ known w H now f a)
        × (is_late (time_heard (At now (Hear f) ∷ H)) x ≡ false))) }
    ensures none_found { (w : Who) (H : List Call) (now a : ℕ) (f : FrameRecord) (x : OpenBroadcast) → found w H now f a ≡ Some x → hearing w H a ≡ Some x }
    ensures others { (w : Who) (H : List Call) (now a : ℕ) (f : FrameRecord) → source_of f.id ≢ a
        → hearing w (At now (Hear f) ∷ H) a ≡ found w H now f a }
    ensures strangers { (w : Who) (H : List Call) (now : ℕ) (f : FrameRecord) → claim_of f ≡ None → announces f ≡ false
        → packs f ≡ false → listening w (At now (Hear f) ∷ H) ≡ listening w (At now Tick ∷ H) }
    ensures own { (w : Who) (H : List Call) (now : ℕ) (f : FrameRecord) → is_claim f ≡ false
        → listening w (At now (TakeFrame (Some f)) ∷ H) ≡ listening w H }
    ensures released { (w : Who) (H : List Call) (answer : Bool) → (listening w (ReleaseBroadcast answer ∷ H)).current ≡ (listening w H).current }
{}

/// What is heard of a source is the same with and without the frames of any other source that are no claims and no requests for claims,
/// and all that is whole of it, as long as its announcements find a box: a tick stands for each of them. So others narrow a source by
/// the boxes alone: where one is free, or one of the source is open, its announcement begins, whatever else is open. What a frame makes
/// whole is of its own source.
pub fn broadcasts_apart()
    ensures alike { (w : Who) (x a : ℕ) (H G : List Call) → x ≢ a → AreApartBy w x a H G
        → (hearing w H a ≡ hearing w G a) × (sent_by a (whole_broadcasts w H) ≡ sent_by a (whole_broadcasts w G)) }
    ensures heard { (w : Who) (H : List Call) (now a : ℕ) (f : FrameRecord) → claim_of f ≡ None → source_of f.id ≢ a
        → hearing w (At now (Hear f) ∷ H) a ≡ hearing w (At now Tick ∷ H) a }
    ensures whole { (w : Who) (H : List Call) (now : ℕ) (f : FrameRecord) (x : ℕ × MessageRecord) → made_whole w H now f ≡ Some x
        → x.1.source ≡ source_of f.id }
    ensures begins { (w : Who) (H : List Call) (now : ℕ) (f : FrameRecord) → announces f ≡ true → is_own_group (pgn_named f) ≡ false
        → IsTrue (is_subscribed w (pgn_named f)) → (length (found_in w H now f).current + length (waiting w H) < w.boxes)
        ⊎ ((x : OpenBroadcast) × (found w H now f (source_of f.id) ≡ Some x))
        → hearing w (At now (Hear f) ∷ H) (source_of f.id) ≡ Some (opened w H now f) }
{}

/// Two sources have a broadcast open at once: what the laws above say of one and of another is met together.
#[tactic(auto, unfolding(j39_transport::specs::Frames::is_announcement, j39_transport::specs::Frames::is_packet, j39_transport::specs::Frames::goes, j39_transport::specs::Frames::group_of, j39_transport::specs::Frames::source_of, j39_transport::specs::Frames::destination_of, j39_transport::specs::Frames::names_message))]
pub fn an_example_of_broadcasts()
    ensures answered { AreAnswered wide two_open }
    ensures first { hearing wide two_open 11 ≡ Some (opened wide [] 110 (announced_by 11 110)) }
    ensures second { hearing wide two_open 12 ≡ Some (opened wide [] 115 (announced_by 12 115)) }
{}
