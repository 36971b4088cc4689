//! Laws over histories, each the contract of a function that does nothing. `Is w H c` says that the controller c was made for
//! w and called as H says since, with the answers that H has; in H the newest call stands first.
ghost use Rattle.std.specs.Prelude.{◌≡◌, ◌||◌, ◌≢◌, ◌⊎◌, ◌+◌, ◌*◌, ◌-◌, ◌<◌, ◌≤◌, ◌↔◌, ◌++◌, ℕ, Bool, List, [], ◌∷◌, length, drop, map, Some, None, Option, Result, Ok, Err, IsTrue, true, false, take, nat_eq};
ghost use Rattle.std.specs.List.{All, slice_get};
ghost use Rattle.j39_frame.specs.Frame.{FrameRecord};
ghost use Rattle.j39_frame.specs.Identifier.{destination_of, source_of, pgn_of};
ghost use Rattle.j39_address.specs.Claim.{claim_of};
ghost use Rattle.j39_frame.specs.Network.{address_claimed_group, request_group};
ghost use Rattle.j39_transport.specs.Message.{MessageRecord, packets_of};
ghost use Rattle.j39_address.specs.declared.status.Status.TheVariants as status;
ghost use Rattle.j39_node.specs.declared.controller.Controller.{Controller};
ghost use Rattle.j39_node.specs.declared.kinds.Ending.{Ending};
ghost use Rattle.j39_node.specs.declared.kinds.Ending.TheVariants as ending;
ghost use Rattle.j39_node.specs.declared.kinds.Answer.{Answer};
ghost use Rattle.j39_node.specs.declared.kinds.Answer.TheVariants as answer;
ghost use Rattle.j39_node.specs.declared.kinds.News.{News};
ghost use Rattle.j39_node.specs.declared.kinds.News.TheVariants as news;
ghost use Rattle.j39_node.specs.declared.kinds.Refused.{Refused};
ghost use Rattle.j39_node.specs.declared.kinds.Refused.TheVariants as refused;
ghost use Rattle.j39_node.specs.History.{reached, Act, Who, is_smaller, Asked, Call, Message, Draft, IsFront, accepted, acknowledgment, acknowledgment_group, asked, asked_group, handed, is_served, requests, lost_news, another_news, missed_news, address_after, answers_another, calls, can_send, claim_address, claim_from, content, acknowledged, due, frames, got, heard, holds, is_held, is_lost, is_subscribed, kept, message_of, missed, moment, owes_claim, sent, step, told, all_frames, broadcasts, can_broadcast, first_frames, frame_of, has_packets, is_acknowledgment, is_claim, is_packet, is_transfer, open_broadcast, packets, told_broadcasts, refusal_waits, waits_already, is_alike, message_from, told_claims, delayed, doubled_news, marks, unblanked, is_blank};
ghost use Rattle.j39_node.specs.History.Call.{At, TakeBroadcastEnded, ReleaseTransfer, TakeNews, TakeRequest, TakeAskEnded, TakeEnded, TakeReceived, TakeTransferEnded, Renew, Withdraw};
ghost use Rattle.j39_node.specs.History.Act.{Acknowledge, Broadcast, Hear, Tick, TakeFrame, Send, Transfer, Again};
ghost use Rattle.j39_node.specs.Reception.{is_reply, yields, CameFromOne, delivered, got_transfers, heard_at, holder, is_move, known, reception, replies, session, session_tick, says, time_heard, whole};
ghost use Rattle.j39_sessions.specs.Sessions.{AreApart, Session, has_room, replied, reply_to, tick_of, without};
ghost use Rattle.j39_transport.specs.Cutting.{ToSend};
ghost use Rattle.j39_transport.specs.Receiving.{said_to};
ghost use Rattle.j39_transport.specs.Signals.{Abort, RequestToSend, written};
ghost use Rattle.j39_node.specs.Hearing.{hearing_tick, listening, over_by, unheard_news};
ghost use Rattle.j39_node.specs.Transfers.{age, next_due, next_transfer, told_transfers, transfers};
ghost use Rattle.j39_node.specs.Moves.{moves};
ghost use Rattle.j39_node.specs.Asking.{Question, asks, ended, next_ask_ended, open_ask, request_tick, told_asks};
ghost use Rattle.j39_node.specs.Ticks.{next_tick};
ghost use Rattle.j39_node.specs.declared.kinds.AskEnding.{AskEnding};
ghost use Rattle.j39_node.specs.declared.kinds.AskEnding.TheVariants.{TimedOut};
ghost use Rattle.j39_node.specs.Aside.{IsAside};
ghost use Rattle.j39_node.specs.Prompt.{NoneTold, takes_other};
ghost use Rattle.j39_node.specs.Since.{ClaimedSince, NeverBack, PacketSince, passed_in, HasDouble};
ghost use Rattle.j39_node.specs.Example.{example, two};
ghost use Rattle.j39_node.specs.Is.{AreAnswered, Is, gives_way, next_acknowledgment, next_frame, next_long, next_other, next_packet, is_apart, is_overdue, status_after};
ghost use Rattle.j39_node.specs.Times.{claim_time, gap, patience_time};

/// Each frame that is taken has the moment of its taking, and is the claim of its NAME, or comes from its address, which it
/// holds at that moment, and is no claim.
#[tactic(auto, using(crate::proofs::LawLemmas::moments, crate::proofs::LawLemmas::sources))]
pub fn sources()
    ensures moment { (w : Who) (H : List Call) (c : Controller) (now : ℕ) (f : FrameRecord)
        → Is w (At now (TakeFrame (Some f)) ∷ H) c → f.stamp ≡ now }
    ensures source { (w : Who) (H : List Call) (c : Controller) (now : ℕ) (f : FrameRecord)
        → Is w (At now (TakeFrame (Some f)) ∷ H) c
        → (message_of f ≡ claim_from w (claim_address w (address_after w H)))
        ⊎ (IsTrue (holds w H now) × (source_of f.id ≡ w.address) × (pgn_of f.id ≢ address_claimed_group)) }
{}

/// Between calls whose moments never go back the difference of their moments passes. Where a clock is set back, that call counts as no
/// time, and from its moment on time goes on.
pub fn time()
    ensures difference { (later earlier : List Call) → NeverBack later earlier
        → moment earlier + passed_in later earlier ≡ moment (later ++ earlier) }
    ensures set_back { (later earlier : List Call) (now : ℕ) (act : Act) → now ≤ moment (later ++ earlier)
        → (passed_in (At now act ∷ later) earlier ≡ passed_in later earlier) × (moment (At now act ∷ later ++ earlier) ≡ now) }
    ensures behind { (later earlier : List Call) → moment (later ++ earlier) ≤ moment earlier + passed_in later earlier }
{}

/// Where an address is held, a claim of it was taken, no smaller NAME's claim of it was heard since, and 250 ms or more passed; and
/// where that is so, and the address isn't lost, it is held.
pub fn held_means()
    ensures since { (w : Who) (H : List Call) (c : Controller) (now : ℕ) → Is w H c → IsTrue (holds w H now)
        → (e : ℕ) × ClaimedSince w H e × (claim_time ≤ e + step H now) }
    ensures in_time { (w : Who) (H : List Call) (now e : ℕ) → ClaimedSince w H e → (IsTrue (is_lost (address_after w H)) → ⊥)
        → claim_time ≤ e + step H now → IsTrue (holds w H now) }
{}

/// The tokens of the messages accepted are 0, 1, 2 and so on, and in this order each is told once to have ended, after it was
/// accepted. Where none is told, all that were taken are told; and all that were accepted, if the address is lost.
pub fn accounted_once()
    ensures accepted { (w : Who) (H : List Call) (c : Controller) (now k : ℕ) (d : Draft)
        → Is w (At now (Send d (Ok k)) ∷ H) c → k ≡ length (accepted w H) }
    ensures told { (w : Who) (H : List Call) (c : Controller) (k : ℕ) (e : Ending)
        → Is w (TakeEnded (Some (k, e)) ∷ H) c → (k ≡ length (told H)) × (k < length (accepted w H)) }
    ensures all { (w : Who) (H : List Call) (c : Controller) → Is w (TakeEnded None ∷ H) c
        → (reached H ≤ length (told H))
        × (IsTrue (is_lost (address_after w H)) → length (told H) ≡ length (accepted w H)) }
{}

/// The frames taken that are no claims, no acknowledgments and none of packets are the messages accepted but for those that were
/// withdrawn, in order, none left out. One is told as done where its frame was taken, and only there; as withdrawn only where it was
/// withdrawn, or the address is lost. Where an address is held and no frame is taken, none waits.
pub fn done_means()
    ensures in_order { (w : Who) (H : List Call) (c : Controller) → Is w H c
        → (sent H ≡ map content (unblanked (take (reached H) (accepted w H)))) × (reached H ≤ length (accepted w H))
        × (marks H ≡ map is_blank (accepted w H)) }
    ensures done { (w : Who) (H : List Call) (c : Controller) (k : ℕ) (e : Ending)
        → Is w (TakeEnded (Some (k, e)) ∷ H) c
        → (e ≡ ending.Done ↔ ((k < reached H) × (slice_get (marks H) k ≡ Some false))) }
    ensures withdrawn { (w : Who) (H : List Call) (c : Controller) (k : ℕ) (e : Ending)
        → Is w (TakeEnded (Some (k, e)) ∷ H) c → e ≡ ending.Withdrawn
        → IsTrue (is_lost (address_after w H)) ⊎ (slice_get (marks H) k ≡ Some true) }
    ensures none_waits { (w : Who) (H : List Call) (c : Controller) (now : ℕ) → Is w (At now (TakeFrame None) ∷ H) c
        → IsTrue (holds w H now)
        → (reached H ≡ length (accepted w H)) × (length (acknowledged H) ≡ length (due w H)) }
{}

/// `withdraw` takes back a message that waits, isn't withdrawn yet and is no request, unless the address is lost; and answers
/// whether it did. From then on it is withdrawn, and no other is by it; so its frame is never taken (`done_means`).
pub fn withdraw_means()
    ensures known { (w : Who) (H : List Call) (c : Controller) (k : ℕ) (answer : Bool) → Is w (Withdraw k answer ∷ H) c
        → (answer ≡ true ↔ ((is_lost (address_after w H) ≡ false) × (reached H ≤ k)
        × ((m : Message) × (slice_get (accepted w H) k ≡ Some (k, m)) × (nat_eq m.group request_group ≡ false)
        × (slice_get (marks H) k ≡ Some false)))) }
    ensures marks { (w : Who) (H : List Call) (c : Controller) (k : ℕ) → Is w (Withdraw k true ∷ H) c
        → slice_get (marks (Withdraw k true ∷ H)) k ≡ Some true }
    ensures others { (H : List Call) (k j : ℕ) → j ≢ k
        → slice_get (marks (Withdraw k true ∷ H)) j ≡ slice_get (marks H) j }
{}

/// What `send` answers: `NoAddress` where no address is held, `BadValue` where the message can't be sent, `Full` where sixteen
/// tokens are accepted and not told (or as many as there are tokens were accepted), and else the next token.
pub fn refused_means()
    ensures no_address { (w : Who) (H : List Call) (c : Controller) (now : ℕ) (d : Draft) (answer : Result ℕ Refused)
        → Is w (At now (Send d answer) ∷ H) c → (answer ≡ Err refused.NoAddress ↔ (IsTrue (holds w H now) → ⊥)) }
    ensures bad_value { (w : Who) (H : List Call) (c : Controller) (now : ℕ) (d : Draft) (answer : Result ℕ Refused)
        → Is w (At now (Send d answer) ∷ H) c
        → (answer ≡ Err refused.BadValue ↔ (IsTrue (holds w H now) × (IsTrue (can_send w d) → ⊥))) }
    ensures full { (w : Who) (H : List Call) (c : Controller) (now : ℕ) (d : Draft) (answer : Result ℕ Refused)
        → Is w (At now (Send d answer) ∷ H) c
        → (answer ≡ Err refused.Full
        ↔ (IsTrue (holds w H now) × IsTrue (can_send w d)
        × ((length (accepted w H) ≡ length (told H) + 16) ⊎ (length (accepted w H) ≡ 18446744073709551615)))) }
    ensures accepts { (w : Who) (H : List Call) (c : Controller) (now : ℕ) (d : Draft) (answer : Result ℕ Refused)
        → Is w (At now (Send d answer) ∷ H) c → IsTrue (holds w H now) → IsTrue (can_send w d)
        → length (accepted w H) < length (told H) + 16 → length (accepted w H) < 18446744073709551615
        → answer ≡ Ok (length (accepted w H)) }
{}

/// `renew` changes the last message that waits of its priority, group and destination, and is no request: that has these bytes from then
/// on, its token and its place stay, and no other changes. Where it answers none and the message can be sent, no such waits.
pub fn renew_means()
    ensures renewed { (w : Who) (H : List Call) (c : Controller) (d : Draft) (k : ℕ) → Is w (Renew d (Some k) ∷ H) c
        → (m : Message) × (slice_get (accepted w H) k ≡ Some (k, m)) × IsTrue (is_alike (message_from w d) m)
        × (reached H ≤ k) × (length (told H) ≤ k)
        × (slice_get (accepted w (Renew d (Some k) ∷ H)) k ≡ Some (k, message_from w d)) }
    ensures newest { (w : Who) (H : List Call) (c : Controller) (d : Draft) (k j : ℕ) (m : Message) → Is w (Renew d (Some k) ∷ H) c
        → k < j → slice_get (accepted w H) j ≡ Some (j, m) → is_alike (message_from w d) m ≡ false }
    ensures others { (w : Who) (H : List Call) (d : Draft) (k j : ℕ) → j ≢ k
        → slice_get (accepted w (Renew d (Some k) ∷ H)) j ≡ slice_get (accepted w H) j }
    ensures none { (w : Who) (H : List Call) (c : Controller) (d : Draft) (j : ℕ) (m : Message) → Is w (Renew d None ∷ H) c
        → IsTrue (can_send w d) → reached H ≤ j → length (told H) ≤ j → slice_get (accepted w H) j ≡ Some (j, m)
        → is_alike (message_from w d) m ≡ false }
{}

/// What was heard for the program and kept is got in order, each once, and nothing else; where none is got, all that was kept
/// is got. All but what was kept is missed, and one is missed only where sixteen lie unread. What is of a group that isn't subscribed is
/// neither kept nor missed.
pub fn received()
    ensures in_order { (w : Who) (H : List Call) (c : Controller) → Is w H c → IsFront (got H) (kept w H) }
    ensures all { (w : Who) (H : List Call) (c : Controller) → Is w (TakeReceived None ∷ H) c → got H ≡ kept w H }
    ensures counted { (w : Who) (H : List Call) → length (kept w H) + missed w H ≡ length (heard w H) }
    ensures room { (w : Who) (H : List Call) (now : ℕ) (f : FrameRecord) → missed w (At now (Hear f) ∷ H) ≢ missed w H
        → length (got H) + 16 ≤ length (kept w H) }
    ensures subscribed { (w : Who) (H : List Call) (now : ℕ) (f : FrameRecord) → is_subscribed w (pgn_of f.id) ≡ false
        → (kept w (At now (Hear f) ∷ H) ≡ kept w H) × (missed w (At now (Hear f) ∷ H) ≡ missed w H) }
{}

/// A claim that is owed is taken at once, but 'cannot claim' waits for the delay that `new` was given, from when the address is
/// lost, or (`delayed`) a request for claims is heard or `again` is called; then it is, and no frame goes before it. After `again` the next
/// frame taken is the claim, where the address isn't lost. After a frame was heard that a claim answers (another's claim of the
/// address, a request for claims, or another's frame from the address that is held, unless such a one was answered in the 5
/// seconds before), the next frame taken is its claim, or 'cannot claim' where the address is lost, unless that gives way; then
/// the one after it is. A claim is taken only where one is owed.
pub fn claims()
    ensures next { (w : Who) (H later : List Call) (c : Controller) (now when : ℕ) (f g : FrameRecord)
        → Is w (At now (TakeFrame (Some g)) ∷ later ++ At when (Hear f) ∷ H) c → frames later ≡ []
        → IsTrue (calls w H when f)
        → IsTrue (gives_way w (later ++ At when (Hear f) ∷ H) now)
        ⊎ (message_of g ≡ claim_from w (claim_address w (address_after w (later ++ At when (Hear f) ∷ H)))) }
    ensures second { (w : Who) (H later between : List Call) (c : Controller) (last now when : ℕ) (f g i : FrameRecord)
        → Is w (At last (TakeFrame (Some i)) ∷ between ++ (At now (TakeFrame (Some g)) ∷ later ++ At when (Hear f) ∷ H)) c
        → frames later ≡ [] → frames between ≡ [] → IsTrue (calls w H when f)
        → IsTrue (gives_way w (later ++ At when (Hear f) ∷ H) now)
        → message_of i ≡ claim_from w (claim_address w (address_after w
        (between ++ (At now (TakeFrame (Some g)) ∷ later ++ At when (Hear f) ∷ H)))) }
    ensures once { (w : Who) (H later : List Call) (when now : ℕ) (f g : FrameRecord) → IsTrue (answers_another w H when f)
        → passed_in later (At when (Hear f) ∷ H) + step (later ++ At when (Hear f) ∷ H) now < patience_time
        → answers_another w (later ++ At when (Hear f) ∷ H) now g ≡ false }
    ensures at_once { (w : Who) (H : List Call) (c : Controller) (now : ℕ) (answer : Option FrameRecord)
        → Is w (At now (TakeFrame answer) ∷ H) c → IsTrue (owes_claim w H)
        → (IsTrue (is_lost (address_after w H)) → delayed w H ≤ step H now) → answer ≢ None }
    ensures waits { (w : Who) (H later : List Call) (c : Controller) (when now : ℕ) (f : FrameRecord) (answer : Option FrameRecord)
        → Is w (At now (TakeFrame answer) ∷ later ++ At when (Hear f) ∷ H) c → frames later ≡ []
        → IsTrue (is_smaller w (claim_of f)) → is_lost (address_after w H) ≡ false
        → passed_in later (At when (Hear f) ∷ H) + step (later ++ At when (Hear f) ∷ H) now < w.delay * 600 → answer ≡ None }
    ensures most { (w : Who) (H : List Call) → delayed w H ≤ w.delay * 600 }
    ensures anew { (w : Who) (H later : List Call) (c : Controller) (when now : ℕ) (g : FrameRecord)
        → Is w (At now (TakeFrame (Some g)) ∷ later ++ At when Again ∷ H) c → frames later ≡ []
        → message_of g ≡ claim_from w (claim_address w (address_after w (later ++ At when Again ∷ H))) }
    ensures only { (w : Who) (H : List Call) (c : Controller) (now : ℕ) (f : FrameRecord)
        → Is w (At now (TakeFrame (Some f)) ∷ H) c → pgn_of f.id ≡ address_claimed_group → IsTrue (owes_claim w H) }
{}

/// Whatever is heard: where two claims or acknowledgments were taken in a row and another frame is due, that goes next. A message
/// that waits is due, a reply, and a frame of packets whose time has come. Behind a reply what else is due, so a message or a frame of
/// packets, goes before the next.
pub fn takes_turns()
    ensures others { (w : Who) (H later between : List Call) (c : Controller) (last second first : ℕ) (f g i : FrameRecord) (m : Message)
        → Is w (At last (TakeFrame (Some i)) ∷ between ++ (At second (TakeFrame (Some g)) ∷ later ++ At first (TakeFrame (Some f)) ∷ H)) c
        → frames later ≡ [] → frames between ≡ []
        → IsTrue (is_claim f || is_acknowledgment f) → IsTrue (is_claim g || is_acknowledgment g)
        → next_other w (between ++ (At second (TakeFrame (Some g)) ∷ later ++ At first (TakeFrame (Some f)) ∷ H)) last ≡ Some m
        → message_of i ≡ m }
    ensures due { (w : Who) (H : List Call) (now : ℕ) → IsTrue (holds w H now)
        → (reached H < length (accepted w H)) ⊎ ((replies w H ≢ []) ⊎ (next_long w H now ≢ None)) → next_other w H now ≢ None }
    ensures behind_a_reply { (w : Who) (H later : List Call) (c : Controller) (last first : ℕ) (f i : FrameRecord)
        → Is w (At last (TakeFrame (Some i)) ∷ later ++ At first (TakeFrame (Some f)) ∷ H) c → IsTrue (is_reply (replies w H) f)
        → NoneTold takes_other later
        → (reached (later ++ At first (TakeFrame (Some f)) ∷ H) < length (accepted w (later ++ At first (TakeFrame (Some f)) ∷ H)))
        ⊎ ((next_packet w (later ++ At first (TakeFrame (Some f)) ∷ H) last ≢ None)
        ⊎ IsTrue (is_apart (next_transfer w (later ++ At first (TakeFrame (Some f)) ∷ H) last)
        (slice_get (replies w (later ++ At first (TakeFrame (Some f)) ∷ H)) 0)))
        → (is_transfer i ≡ false) ⊎ IsTrue (is_move w (later ++ At first (TakeFrame (Some f)) ∷ H) i) }
{}

/// No frame is taken before the moment that `next_due` tells, if nothing is heard or handed in till then; and one is taken at the
/// moment of the last call, if it tells that, and where the address is held from the moment on that it tells. Time that passes
/// in two steps is the same as in one.
#[tactic(auto, using(crate::proofs::LawLemmas::quiet, crate::proofs::LawLemmas::due_now, crate::proofs::LawLemmas::due_then))]
pub fn quiet_till_due()
    ensures quiet { (w : Who) (H : List Call) (c : Controller) (now : ℕ) (answer : Option FrameRecord)
        → Is w (At now (TakeFrame answer) ∷ H) c → moment H ≤ now → now < 10000000000000000
        → ((t : ℕ) → next_due w H ≡ Some t → now < t) → answer ≡ None }
    ensures due { (w : Who) (H : List Call) (c : Controller) (now : ℕ) (answer : Option FrameRecord)
        → Is w (At now (TakeFrame answer) ∷ H) c → next_due w H ≡ Some (moment H) → answer ≢ None }
    ensures taken { (w : Who) (H : List Call) (c : Controller) (now t : ℕ) (answer : Option FrameRecord)
        → Is w (At now (TakeFrame answer) ∷ H) c → next_due w H ≡ Some t → t ≤ now → IsTrue (is_held (address_after w H))
        → age w H + step H t < 10000000000000000 → answer ≢ None }
    ensures ticks { (w : Who) (H : List Call) (now later : ℕ) → moment H ≤ now → now ≤ later
        → holds w (At now Tick ∷ H) later ≡ holds w H later }
{}

/// News is told while it stands, and where none is told none stands: that the address was lost, which it then is; that another
/// sends from it; that another of its NAME claims an address, which that one did, and which takes no address from it; that messages
/// were missed, of which there then are some.
pub fn news()
    ensures none { (w : Who) (H : List Call) (c : Controller) → Is w (TakeNews None ∷ H) c
        → (lost_news w H ≡ false) × (another_news w H ≡ false) × (doubled_news w H ≡ None) × ((missed_news w H || unheard_news w H) ≡ false) }
    ensures told { (w : Who) (H : List Call) (c : Controller) (n : News) → Is w (TakeNews (Some n) ∷ H) c
        → ((n ≡ news.AddressLost) × IsTrue (lost_news w H)) ⊎ ((n ≡ news.AnotherAtAddress) × IsTrue (another_news w H))
        ⊎ ((address : ℕ) × (n ≡ news.NameDoubled address) × (doubled_news w H ≡ Some address))
        ⊎ ((n ≡ news.MessagesMissed) × IsTrue (missed_news w H || unheard_news w H)) }
    ensures doubled { (w : Who) (H : List Call) (now : ℕ) (f : FrameRecord) (a : ℕ) → claim_of f ≡ Some (record { name = w.name; address = a })
        → (doubled_news w (At now (Hear f) ∷ H) ≡ Some a) × (told_claims w (At now (Hear f) ∷ H) ≡ told_claims w H) }
    ensures claimed { (w : Who) (H : List Call) (a : ℕ) → doubled_news w H ≡ Some a
        → HasDouble w a H }
    ensures lost { (w : Who) (H : List Call) → IsTrue (lost_news w H) → IsTrue (is_lost (address_after w H)) }
    ensures missed { (w : Who) (H : List Call) → IsTrue (missed_news w H) → 0 < missed w H }
{}

/// What `status` answers: `Holding` exactly where the address is held, `Cannot` where it is lost.
pub fn who()
    ensures holding { (w : Who) (H : List Call) (a : ℕ)
        → (status_after w H ≡ status.Holding a ↔ ((a ≡ w.address) × IsTrue (holds w H (moment H)))) }
    ensures cannot { (w : Who) (H : List Call)
        → (status_after w H ≡ status.Cannot ↔ IsTrue (is_lost (address_after w H))) }
{}

/// All answers of this history are those that a controller gives: it claims, holds, sends, receives, refuses, and loses its
/// address.
#[tactic(auto, unfolding(j39_transport::specs::Frames::is_announcement, j39_transport::specs::Frames::is_packet, j39_transport::specs::Frames::goes, j39_transport::specs::Cutting::cut_frame, j39_transport::specs::Cutting::announcement_of, j39_transport::specs::Cutting::packet_of, j39_transport::specs::Cutting::packet_data, j39_transport::specs::Sending::new_sender, j39_transport::specs::Sending::send_step, j39_transport::specs::Sending::ticks_in, j39_transport::specs::Sending::sends_packet, j39_transport::specs::Sending::hears, j39_transport::specs::Sending::cleared, j39_transport::specs::Sending::acknowledged, j39_transport::specs::Sending::aborted, j39_transport::specs::Signals::said_between, j39_transport::specs::Signals::said_by, j39_transport::specs::Signals::control_in, j39_transport::specs::Signals::packet_in, j39_transport::specs::Frames::group_of, j39_transport::specs::Frames::source_of, j39_transport::specs::Frames::destination_of, j39_transport::specs::Reception::takes_request, j39_transport::specs::Reception::begun, j39_transport::specs::Reception::grants, j39_transport::specs::Reception::granted_at, j39_transport::specs::Reception::takes_data, j39_transport::specs::Reception::takes_packet, j39_transport::specs::Reception::goes_on, j39_transport::specs::Reception::delivers_message, j39_transport::specs::Signals::request_in, j39_transport::specs::Signals::written, j39_transport::specs::Frames::names_message, j39_transport::specs::Key::key_between, j39_transport::specs::Receiving::recv_step, j39_transport::specs::Receiving::said_to, j39_transport::specs::Reception::takes_signal, j39_transport::specs::Reception::takes_tick))]
pub fn an_example()
    ensures { AreAnswered two example }
{}

/// What becomes of a request of an address for a group, to all or to the address that it holds: if the group is served, the program
/// is handed it, once, in order, and nothing is sent. A request to its address for what isn't served is refused by a NACK without
/// the program, and one for which there is no room by 'cannot respond'. A request to all is never acknowledged. While a request waits for
/// the program, the same of the same source changes nothing; and while a refusal is due, the same isn't due again.
pub fn requests()
    ensures handed { (w : Who) (H : List Call) (now : ℕ) (f : FrameRecord) (r : Asked) → asked w (holds w H now) f ≡ Some r
        → IsTrue (is_served w r.group) → waits_already w H r ≡ false → length (requests w H) < length (handed H) + 16
        → (requests w (At now (Hear f) ∷ H) ≡ requests w H ++ r ∷ []) × (due w (At now (Hear f) ∷ H) ≡ due w H) }
    ensures again { (w : Who) (H : List Call) (now : ℕ) (f : FrameRecord) (r : Asked) → asked w (holds w H now) f ≡ Some r
        → IsTrue (is_served w r.group) → IsTrue (waits_already w H r)
        → (requests w (At now (Hear f) ∷ H) ≡ requests w H) × (due w (At now (Hear f) ∷ H) ≡ due w H) }
    ensures refused { (w : Who) (H : List Call) (now : ℕ) (f : FrameRecord) (r : Asked) → asked w (holds w H now) f ≡ Some r
        → r.destination ≡ w.address → (IsTrue (is_served w r.group) → ⊥) → refusal_waits w H r ≡ false
        → length (due w H) < length (acknowledged H) + 16
        → (requests w (At now (Hear f) ∷ H) ≡ requests w H)
        × (due w (At now (Hear f) ∷ H) ≡ due w H ++ acknowledgment w answer.Nack r ∷ []) }
    ensures no_room { (w : Who) (H : List Call) (now : ℕ) (f : FrameRecord) (r : Asked) → asked w (holds w H now) f ≡ Some r
        → r.destination ≡ w.address → IsTrue (is_served w r.group) → waits_already w H r ≡ false → refusal_waits w H r ≡ false
        → length (handed H) + 16 ≤ length (requests w H) → length (due w H) < length (acknowledged H) + 16
        → (requests w (At now (Hear f) ∷ H) ≡ requests w H)
        × (due w (At now (Hear f) ∷ H) ≡ due w H ++ acknowledgment w answer.Busy r ∷ []) }
    ensures refused_once { (w : Who) (H : List Call) (now : ℕ) (f : FrameRecord) (r : Asked) → asked w (holds w H now) f ≡ Some r
        → IsTrue (refusal_waits w H r) → due w (At now (Hear f) ∷ H) ≡ due w H }
    ensures to_all { (w : Who) (H : List Call) (now : ℕ) (f : FrameRecord) (r : Asked) → asked w (holds w H now) f ≡ Some r
        → r.destination ≢ w.address → due w (At now (Hear f) ∷ H) ≡ due w H }
    ensures no_request { (w : Who) (H : List Call) (now : ℕ) (f : FrameRecord) → asked w (holds w H now) f ≡ None
        → (requests w (At now (Hear f) ∷ H) ≡ requests w H) × (due w (At now (Hear f) ∷ H) ≡ due w H) }
    ensures in_order { (w : Who) (H : List Call) (c : Controller) → Is w H c → IsFront (handed H) (requests w H) }
    ensures all { (w : Who) (H : List Call) (c : Controller) → Is w (TakeRequest None ∷ H) c → handed H ≡ requests w H }
{}

/// The acknowledgments that are taken are those that are due, in order, before any message, unless they give way. The program
/// acknowledges a request to the address that it holds, unless sixteen are due, and no other.
pub fn acknowledgments()
    ensures in_order { (w : Who) (H : List Call) (c : Controller) → Is w H c → IsFront (acknowledged H) (due w H) }
    ensures first { (w : Who) (H : List Call) (c : Controller) (now : ℕ) (f : FrameRecord)
        → Is w (At now (TakeFrame (Some f)) ∷ H) c → pgn_of f.id ≢ address_claimed_group → pgn_of f.id ≢ acknowledgment_group
        → IsTrue (gives_way w H now) ⊎ (acknowledged H ≡ due w H) }
    ensures accepts { (w : Who) (H : List Call) (c : Controller) (now : ℕ) (r : Asked) (a : Answer) (result : Result (Unit {0}) Refused)
        → Is w (At now (Acknowledge r a result) ∷ H) c → IsTrue (holds w H now) → r.destination ≡ w.address
        → length (due w H) < length (acknowledged H) + 16 → result ≡ Ok tt }
    ensures only { (w : Who) (H : List Call) (c : Controller) (now : ℕ) (r : Asked) (a : Answer)
        → Is w (At now (Acknowledge r a (Ok tt)) ∷ H) c → IsTrue (holds w H now) × (r.destination ≡ w.address) }
{}

/// What `broadcast` answers: `NoAddress` where no address is held, `BadValue` where the message can't be broadcast, `Full` where there
/// are no boxes for transfers, one is accepted and not told (or as many as there are tokens were accepted), and else the next token.
pub fn broadcast_means()
    ensures no_address { (w : Who) (H : List Call) (c : Controller) (now group : ℕ) (bytes : List ℕ) (answer : Result ℕ Refused)
        → Is w (At now (Broadcast group bytes answer) ∷ H) c → (answer ≡ Err refused.NoAddress ↔ (IsTrue (holds w H now) → ⊥)) }
    ensures bad_value { (w : Who) (H : List Call) (c : Controller) (now group : ℕ) (bytes : List ℕ) (answer : Result ℕ Refused)
        → Is w (At now (Broadcast group bytes answer) ∷ H) c
        → (answer ≡ Err refused.BadValue ↔ (IsTrue (holds w H now) × (IsTrue (can_broadcast group bytes) → ⊥))) }
    ensures full { (w : Who) (H : List Call) (c : Controller) (now group : ℕ) (bytes : List ℕ) (answer : Result ℕ Refused)
        → Is w (At now (Broadcast group bytes answer) ∷ H) c
        → (answer ≡ Err refused.Full
        ↔ (IsTrue (holds w H now) × IsTrue (can_broadcast group bytes)
        × ((w.transfers ≡ 0) ⊎ ((length (broadcasts w H) ≡ length (told_broadcasts H) + 1) ⊎ (length (broadcasts w H) ≡ 18446744073709551615))))) }
    ensures accepts { (w : Who) (H : List Call) (c : Controller) (now group : ℕ) (bytes : List ℕ) (answer : Result ℕ Refused)
        → Is w (At now (Broadcast group bytes answer) ∷ H) c → IsTrue (holds w H now) → IsTrue (can_broadcast group bytes) → 1 ≤ w.transfers
        → length (broadcasts w H) ≡ length (told_broadcasts H) → length (broadcasts w H) < 18446744073709551615
        → answer ≡ Ok (length (broadcasts w H)) }
    ensures token { (w : Who) (H : List Call) (c : Controller) (now group k : ℕ) (bytes : List ℕ)
        → Is w (At now (Broadcast group bytes (Ok k)) ∷ H) c → k ≡ length (broadcasts w H) }
{}

/// The frames of packets that are taken since a broadcast was accepted are its announcement and packets, in order, and no others are
/// taken. Each comes from the address that is held, where no acknowledgment waits, or it gives way, and no message, unless the frame is
/// overdue, and 50 ms or more after the one before. One that is overdue goes before all but claims and acknowledgments. Where the address
/// is held and one is left, but no frame is taken, one of packets was taken less than 50 ms before.
pub fn packets_mean()
    ensures in_order { (w : Who) (H : List Call) (c : Controller) (k : ℕ) (m : MessageRecord) → Is w H c
        → open_broadcast w H ≡ Some (k, m)
        → (slice_get (broadcasts w H) k ≡ Some m) × (packets H ≡ first_frames m (length (packets H))) }
    ensures only { (w : Who) (H : List Call) (c : Controller) (now : ℕ) (f : FrameRecord)
        → Is w (At now (TakeFrame (Some f)) ∷ H) c → IsTrue (is_packet f)
        → (k : ℕ) × (m : MessageRecord) × (open_broadcast w H ≡ Some (k, m))
        × (message_of f ≡ frame_of m (length (packets H))) × (length (packets H) ≤ packets_of m) }
    ensures behind { (w : Who) (H : List Call) (c : Controller) (now : ℕ) (f : FrameRecord)
        → Is w (At now (TakeFrame (Some f)) ∷ H) c → IsTrue (is_packet f)
        → IsTrue (holds w H now) × (IsTrue (is_overdue w H now) ⊎ (reached H ≡ length (accepted w H)))
        × (IsTrue (gives_way w H now) ⊎ (acknowledged H ≡ due w H)) }
    ensures overdue { (w : Who) (H : List Call) (c : Controller) (now : ℕ) (f : FrameRecord)
        → Is w (At now (TakeFrame (Some f)) ∷ H) c → IsTrue (is_overdue w H now) → is_claim f ≡ false → is_acknowledgment f ≡ false
        → IsTrue (is_packet f) }
    ensures spaced { (w : Who) (H later : List Call) (c : Controller) (now at : ℕ) (f g : FrameRecord)
        → Is w (At now (TakeFrame (Some g)) ∷ later ++ At at (TakeFrame (Some f)) ∷ H) c
        → IsTrue (is_packet f) → IsTrue (is_packet g)
        → gap ≤ passed_in (At now (TakeFrame (Some g)) ∷ later) (At at (TakeFrame (Some f)) ∷ H) }
    ensures waits { (w : Who) (H : List Call) (c : Controller) (now : ℕ) → Is w (At now (TakeFrame None) ∷ H) c
        → IsTrue (holds w H now) → IsTrue (has_packets w H) → (e : ℕ) × PacketSince H e × (e + step H now < gap) }
{}

/// The tokens of the broadcasts accepted are 0, 1, 2 and so on, and in this order each is told at most once to have ended: as done exactly
/// where all its frames were taken, as withdrawn only where the address is lost. Where none is told, all are, or a frame is left and
/// the address isn't lost.
pub fn broadcast_done_means()
    ensures told { (w : Who) (H : List Call) (c : Controller) (k : ℕ) (e : Ending)
        → Is w (TakeBroadcastEnded (Some (k, e)) ∷ H) c
        → (k ≡ length (told_broadcasts H)) × (k < length (broadcasts w H)) }
    ensures done { (w : Who) (H : List Call) (c : Controller) (k : ℕ) (e : Ending)
        → Is w (TakeBroadcastEnded (Some (k, e)) ∷ H) c
        → (e ≡ ending.Done
        ↔ ((m : MessageRecord) × (slice_get (broadcasts w H) k ≡ Some m) × (packets H ≡ all_frames m))) }
    ensures withdrawn { (w : Who) (H : List Call) (c : Controller) (k : ℕ) (e : Ending)
        → Is w (TakeBroadcastEnded (Some (k, e)) ∷ H) c → e ≡ ending.Withdrawn → IsTrue (is_lost (address_after w H)) }
    ensures all { (w : Who) (H : List Call) (c : Controller) → Is w (TakeBroadcastEnded None ∷ H) c
        → (length (told_broadcasts H) ≡ length (broadcasts w H))
        ⊎ (IsTrue (has_packets w H) × (IsTrue (is_lost (address_after w H)) → ⊥)) }
{}

/// What comes in packets to its address and is made whole by a frame is got by the program, each once, in order, or waits. It was
/// handed over by one sender: an RTS, then its packets in order, and since the RTS one NAME held its source, and didn't restart,
/// or none: with that NAME it waits. Where the address is held, the source has no session open and a box is free, an RTS begins one, and
/// a CTS (its first byte is 17) is said to its source. Of each source one is open at most, and no more are open or wait than there are
/// boxes.
pub fn transfers_received()
    ensures in_order { (w : Who) (H : List Call) → delivered w H ≡ got_transfers w H ++ (reception w H).waits }
    ensures got { (w : Who) (H : List Call) (c : Controller) (answer : Bool) → Is w (ReleaseTransfer answer ∷ H) c
        → (answer ≡ true ↔ ((x : ℕ × MessageRecord) × (xs : List (ℕ × MessageRecord)) × ((reception w H).waits ≡ x ∷ xs))) }
    ensures of_one { (w : Who) (H : List Call) (now : ℕ) (f : FrameRecord) (m : MessageRecord) → whole w H now f ≡ Some m
        → CameFromOne w (At now (Hear f) ∷ H) m }
    ensures begins { (w : Who) (H : List Call) (now : ℕ) (f : FrameRecord) (size packets most pgn : ℕ) → IsTrue (holds w H now)
        → session w H (source_of f.id) ≡ None → IsTrue (has_room (source_of f.id) (reception w H))
        → said_to w.address f ≡ Some (RequestToSend size packets most pgn)
        → (x : Session) × (y : ToSend) × (session w (At now (Hear f) ∷ H) (source_of f.id) ≡ Some x)
        × (says w H now f ≡ Some y) × (slice_get y.bytes 0 ≡ Some 17)
        × ((reception w (At now (Hear f) ∷ H)).replies ≡ replied (source_of f.id) (Some y) (reception w H).replies) }
    ensures sender { (w : Who) (H : List Call) (now : ℕ) (f : FrameRecord) (m : MessageRecord) → whole w H now f ≡ Some m
        → (reception w (At now (Hear f) ∷ H)).senders ≡ (reception w H).senders ++ holder w (At now (Hear f) ∷ H) m.source ∷ [] }
    ensures paired { (w : Who) (H : List Call) → length (reception w H).senders ≡ length (reception w H).waits }
    ensures boxes { (w : Who) (H : List Call) → AreApart (reception w H).sessions × (length (reception w H).sessions + length (reception w H).waits ≤ w.sessions) }
{}

/// What the receiver says to a frame waits in place of what it said to that address before. It says an end-of-message acknowledgment
/// (J1939-21, 5.10.3.3: its first byte is 19) of what this frame makes whole, and of nothing else: so what is acknowledged waits for the
/// program, or was got. Where a window is set, no CTS that answers a frame grants more packets (its second byte).
pub fn acknowledged_is_there()
    ensures says { (w : Who) (H : List Call) (now : ℕ) (f : FrameRecord) → IsTrue (holds w H now) → claim_of f ≡ None
        → (reception w (At now (Hear f) ∷ H)).replies ≡ replied (source_of f.id) (says w H now f) (reception w H).replies }
    ensures whole { (w : Who) (H : List Call) (now : ℕ) (f : FrameRecord) (m : MessageRecord) → whole w H now f ≡ Some m
        → (x : ToSend) × (says w H now f ≡ Some x) × (slice_get x.bytes 0 ≡ Some 19) }
    ensures only { (w : Who) (H : List Call) (now : ℕ) (f : FrameRecord) (x : ToSend) → says w H now f ≡ Some x
        → slice_get x.bytes 0 ≡ Some 19 → (m : MessageRecord) × (whole w H now f ≡ Some m) }
    ensures window { (w : Who) (H : List Call) (now n : ℕ) (f : FrameRecord) (y : ToSend) → 1 ≤ w.window → says w H now f ≡ Some y
        → slice_get y.bytes 0 ≡ Some 17 → slice_get y.bytes 1 ≡ Some n → n ≤ w.window }
{}

/// A frame taken that belongs to a session, goes to an address and is none of a transfer of its own is the first reply that waits: it
/// comes from the address that is held, behind claims, acknowledgments and an overdue frame of a broadcast, and before all else
/// unless it yields, and each is taken once. Where the address is held and no frame is taken, none waits. From an address that is
/// lost nothing is said.
pub fn replies_mean()
    ensures first { (w : Who) (H : List Call) (c : Controller) (now : ℕ) (f : FrameRecord)
        → Is w (At now (TakeFrame (Some f)) ∷ H) c → IsTrue (is_transfer f) → is_move w H f ≡ false
        → IsTrue (holds w H now) × (source_of f.id ≡ w.address) × (slice_get (replies w H) 0 ≡ Some (message_of f))
        × (next_acknowledgment w H now ≡ None) }
    ensures before { (w : Who) (H : List Call) (c : Controller) (now : ℕ) (f : FrameRecord) (m : Message)
        → Is w (At now (TakeFrame (Some f)) ∷ H) c → slice_get (replies w H) 0 ≡ Some m
        → is_claim f ≡ false → is_acknowledgment f ≡ false → is_overdue w H now ≡ false → yields w H ≡ false → message_of f ≡ m }
    ensures once { (w : Who) (H : List Call) (now : ℕ) (f : FrameRecord) → is_claim f ≡ false → IsTrue (is_transfer f) → is_move w H f ≡ false
        → (reception w (At now (TakeFrame (Some f)) ∷ H)).replies ≡ drop 1 (reception w H).replies }
    ensures others { (w : Who) (H : List Call) (now : ℕ) (f : FrameRecord) → is_claim f ≡ false
        → (is_transfer f ≡ false) ⊎ IsTrue (is_move w H f)
        → (reception w (At now (TakeFrame (Some f)) ∷ H)).replies ≡ (reception w H).replies }
    ensures none_waits { (w : Who) (H : List Call) (c : Controller) (now : ℕ) → Is w (At now (TakeFrame None) ∷ H) c
        → IsTrue (holds w H now) → (reception w H).replies ≡ [] }
    ensures lost { (w : Who) (H : List Call) → IsTrue (is_lost (address_after w H))
        → ((reception w H).sessions ≡ []) × ((reception w H).replies ≡ []) }
{}

/// A frame that doesn't go to its address changes nothing of what is received, and one of another source nothing of a session,
/// unless by it the address is lost or the session's source gets another holder or restarts; nor of the messages that wait. What
/// is said to others than its source stays, unless it is a claim.
pub fn strangers()
    ensures to_others { (w : Who) (H : List Call) (now : ℕ) (f : FrameRecord) → is_smaller w (claim_of f) ≡ false
        → ((a : ℕ) (x : Session) → session w H a ≡ Some x → holder w (At now (Hear f) ∷ H) a ≡ known w H now f a)
        → destination_of f.id ≢ Some w.address → reception w (At now (Hear f) ∷ H) ≡ reception w H }
    ensures from_others { (w : Who) (H : List Call) (now a : ℕ) (f : FrameRecord) (x : Session)
        → is_lost (address_after w (At now (Hear f) ∷ H)) ≡ false → holder w (At now (Hear f) ∷ H) a ≡ known w H now f a
        → session w H a ≡ Some x → source_of f.id ≢ a → session w (At now (Hear f) ∷ H) a ≡ Some x }
    ensures waits { (w : Who) (H : List Call) (now : ℕ) (f : FrameRecord) → session w H (source_of f.id) ≡ None
        → (reception w (At now (Hear f) ∷ H)).waits ≡ (reception w H).waits }
    ensures replies { (w : Who) (H : List Call) (now : ℕ) (f : FrameRecord) → claim_of f ≡ None
        → without (source_of f.id) (reception w (At now (Hear f) ∷ H)).replies ≡ without (source_of f.id) (reception w H).replies }
{}

/// What is heard accepts nothing, sends nothing and tells no end. A frame that neither goes to its address nor comes from it, and is
/// neither a claim nor a request, changes nothing of what is sent: at any moment the next frame is the one where time alone passed, and none was taken.
pub fn strangers_and_sending()
    ensures accepted { (w : Who) (H : List Call) (now : ℕ) (f : FrameRecord) → (accepted w (At now (Hear f) ∷ H) ≡ accepted w H)
        × (broadcasts w (At now (Hear f) ∷ H) ≡ broadcasts w H) × (transfers w (At now (Hear f) ∷ H) ≡ transfers w H) × (asks (At now (Hear f) ∷ H) ≡ asks H) }
    ensures sent { (w : Who) (H : List Call) (now a : ℕ) (f : FrameRecord) → (sent (At now (Hear f) ∷ H) ≡ sent H) × (packets (At now (Hear f) ∷ H) ≡ packets H)
        × (moves w a (At now (Hear f) ∷ H) ≡ moves w a H) × (acknowledged (At now (Hear f) ∷ H) ≡ acknowledged H) }
    ensures told { (H : List Call) (now : ℕ) (f : FrameRecord) → (told (At now (Hear f) ∷ H) ≡ told H) × (told_broadcasts (At now (Hear f) ∷ H) ≡ told_broadcasts H)
        × (told_transfers (At now (Hear f) ∷ H) ≡ told_transfers H) × (told_asks (At now (Hear f) ∷ H) ≡ told_asks H) }
    ensures broadcast { (w : Who) (H : List Call) (now : ℕ) (f : FrameRecord) → open_broadcast w (At now (Hear f) ∷ H) ≡ open_broadcast w H }
    ensures next { (w : Who) (H : List Call) (c : Controller) (when : ℕ) (f : FrameRecord) (now : ℕ) → Is w H c → claim_of f ≡ None
        → asked_group f ≡ None → destination_of f.id ≢ Some w.address → source_of f.id ≢ w.address
        → next_frame w (At when (Hear f) ∷ H) now ≡ next_frame w (At when (TakeFrame None) ∷ H) now }
{}

/// Which frame others exchange, no claim and no request for claims, makes no difference to any answer, whatever comes later.
/// Neither does it whether a tick stands in its place, unless a session (`ticks_wait`) or a request is out of time by it.
pub fn strangers_unheard()
    ensures alike { (w : Who) (later H : List Call) (now : ℕ) (f g : FrameRecord) → IsAside w f → IsAside w g
        → AreAnswered w (later ++ At now (Hear f) ∷ H) → AreAnswered w (later ++ At now (Hear g) ∷ H) }
    ensures time { (w : Who) (later H : List Call) (now : ℕ) (f : FrameRecord) → IsAside w f
        → reception w (At now Tick ∷ H) ≡ reception w H → ended w (At now (Hear f) ∷ H) ≡ ended w H
        → (AreAnswered w (later ++ At now (Hear f) ∷ H) ↔ AreAnswered w (later ++ At now Tick ∷ H)) }
{}

/// Where all boxes are in use by others' sessions, or by messages that wait for the program, an RTS to its address is answered by
/// abort 2, and none begins.
pub fn full_refuses()
    ensures { (w : Who) (H : List Call) (now : ℕ) (f : FrameRecord) (size packets most pgn : ℕ) → IsTrue (holds w H now)
        → said_to w.address f ≡ Some (RequestToSend size packets most pgn) → has_room (source_of f.id) (reception w H) ≡ false
        → reception w (At now (Hear f) ∷ H) ≡ record (reception w H) {
          replies = replied (source_of f.id) (Some (written w.address (source_of f.id) (Abort 2 pgn))) (reception w H).replies;
        } }
{}

/// `next_tick` tells the soonest of three moments. Before the sessions' a tick says nothing and ends none; from then on one says a
/// CTS or an abort (its first byte is 17 or 255) to a session's source, which waits unless sixteen others' do. Before the broadcasts' a tick leaves what is heard; from then on
/// one ends one. Before all three it ends no request; from the request's on this is told as timed out.
pub fn ticks_wait()
    ensures waits { (w : Who) (H : List Call) (now : ℕ) → heard_at H ≤ now → now < 10000000000000000
        → ((t : ℕ) → session_tick w H ≡ Some t → now < t) → reception w (At now Tick ∷ H) ≡ reception w H }
    ensures says { (w : Who) (H : List Call) (now t : ℕ) → session_tick w H ≡ Some t → t ≤ now
        → time_heard H + (t - heard_at H) < 10000000000000000 → (a : ℕ) × (x : Session) × (y : ToSend) × (session w H a ≡ Some x)
        × ((slice_get y.bytes 0 ≡ Some 17) ⊎ (slice_get y.bytes 0 ≡ Some 255)) × ((tick_of w.address (time_heard (At now Tick ∷ H)) x).sends ≡ Some y) }
    ensures told { (w : Who) (H : List Call) (now a : ℕ) (x : Session) (y : ToSend) → session w H a ≡ Some x
        → (tick_of w.address (time_heard (At now Tick ∷ H)) x).sends ≡ Some y
        → length (reception w H).replies + length (reception w H).sessions ≤ 16
        → reply_to a (reception w (At now Tick ∷ H)).replies ≡ Some (record { to = a; bytes = y.bytes }) }
    ensures keeps { (w : Who) (H : List Call) (now : ℕ) → heard_at H ≤ now → now < 10000000000000000
        → ((t : ℕ) → hearing_tick w H ≡ Some t → now < t) → listening w (At now Tick ∷ H) ≡ listening w H }
    ensures ends { (w : Who) (H : List Call) (now t : ℕ) → hearing_tick w H ≡ Some t → t ≤ now
        → time_heard H + (t - heard_at H) < 10000000000000000 → 0 < length (over_by w H (At now Tick)) }
    ensures none_ends { (w : Who) (H : List Call) (now : ℕ) → heard_at H ≤ now → now < 10000000000000000
        → ((t : ℕ) → next_tick w H ≡ Some t → now < t)
        → next_ask_ended w (At now Tick ∷ H) ≡ next_ask_ended w H }
    ensures times_out { (w : Who) (H : List Call) (c : Controller) (now t : ℕ) (answer : Option (ℕ × AskEnding))
        → request_tick w H ≡ Some t → t ≤ now → Is w (TakeAskEnded answer ∷ At now Tick ∷ H) c
        → (q : Question) × (open_ask H ≡ Some q) × (answer ≡ Some (q.token, TimedOut)) }
{}
