//! Laws over a bus and its controllers, each the contract of a function that does nothing.
ghost use Rattle.std.specs.Prelude.{◌≡◌, ◌≢◌, ◌⊎◌, ◌++◌, ◌+◌, ◌*◌, ◌^◌, ◌<◌, ◌≤◌, ◌∷◌, true, ℕ, List, IsTrue, None, Ok, Some, drop, false, filter, map, nat_eq, slice_get, take};
ghost use Rattle.std.specs.List.{All, Contains};
ghost use Rattle.j39_frame.specs.Frame.{FrameRecord};
ghost use Rattle.j39_frame.specs.Identifier.{pgn_of, source_of};
ghost use Rattle.j39_groups.specs.Readings.{is_reported_in};
ghost use Rattle.j39_groups.specs.Row.{RowRecord};
ghost use Rattle.j39_transport.specs.Message.{MessageRecord};
ghost use Rattle.j39_transport.specs.Protocol.{broadcast_limit};
ghost use Rattle.j39_listen.specs.Heard.{sent_to};
ghost use Rattle.j39_listen.specs.Report.{Entry, IsReport, entries_of};
ghost use Rattle.j39_node.specs.Hearing.{OpenBroadcast, announces, hearing, made_whole, unheard, whole_broadcasts};
ghost use Rattle.j39_node.specs.History.{Call, Who, address_after, all_frames, broadcast_from, broadcasts, content, frame_of, frames, got, holds, is_claim, is_for_program, is_lost, is_packet, is_subscribed, kept, message_of, missed, moment, open_broadcast, packets};
ghost use Rattle.j39_node.specs.History.Call.{At, TakeBroadcastEnded, TakeTransferEnded};
ghost use Rattle.j39_node.specs.History.Act.{Broadcast, Hear, TakeFrame, Transfer};
ghost use Rattle.j39_node.specs.Is.{AreAnswered};
ghost use Rattle.j39_node.specs.Prompt.{IsSteady};
ghost use Rattle.j39_node.specs.Reception.{delivered, holder};
ghost use Rattle.j39_node.specs.Times.{claim_time, packet_time};
ghost use Rattle.j39_node.specs.Transfers.{transfers};
ghost use Rattle.j39_node.specs.declared.kinds.Ending.TheVariants as end;
ghost use Rattle.j39_transfers.specs.declared.kinds.Ending.TheVariants as ending;
ghost use Rattle.j39_node.specs.Example.{announcement, nine, two};
ghost use Rattle.j39_net.specs.Example.{both, first, pair, passed, receiver, second, sender, transferred};
ghost use Rattle.j39_net.specs.Net.{ComesIn, Defends, InTime, IsAnnouncedAt, IsAsFar, IsDoneIn, IsLater, IsMember, IsNoClaim, IsNoneOf, IsNoRequest, IsPart, IsTimely, IsUnrivalled, IsWelcome, Member, Net, NoneAnew, NoneLate, OnlySends, Passed, done_by, log, messages_to, whole_since};

/// No two controllers hold one address (J1939-81, 4.2.2), whatever strangers send, where no claim of the controllers is lost or on its
/// way, and each of the two has claimed again since it heard a larger NAME claim its address. Where claims are on their way, each for less
/// than `delay` from controller to bus and from bus to controller, and each of the two claims again within g microseconds, it is so at
/// each moment, if 4 * delay + g is below 250 ms; or where their drivers come for a frame at least once in each g, if
/// 4 * delay + 2 * g + 1 is.
pub fn none_share()
    ensures at_rest { (delay now i j : ℕ) (L : List Passed) (members : List Member) (m n : Member)
        → Net delay now (IsNoClaim members) L members → IsMember members i m → IsMember members j n
        → Defends (λ when. now) now m.who m.history → Defends (λ when. now) now n.who n.history
        → m.who.address ≡ n.who.address → IsTrue (holds m.who m.history now) → IsTrue (holds n.who n.history now) → i ≡ j }
    ensures never { (delay g now i j : ℕ) (L : List Passed) (members : List Member) (m n : Member)
        → Net delay now (λ f. IsNoClaim members f ⊎ (now < f.stamp + delay)) L members → IsMember members i m → IsMember members j n
        → Defends (λ when. when + g) now m.who m.history → Defends (λ when. when + g) now n.who n.history
        → 4 * delay + g < claim_time
        → m.who.address ≡ n.who.address → IsTrue (holds m.who m.history now) → IsTrue (holds n.who n.history now) → i ≡ j }
    ensures driven { (delay g now i j : ℕ) (L : List Passed) (members : List Member) (m n : Member)
        → Net delay now (λ f. IsNoClaim members f ⊎ (now < f.stamp + delay)) L members → IsMember members i m → IsMember members j n
        → ComesIn g m.since now m.history → ComesIn g n.since now n.history → 4 * delay + 2 * g + 1 < claim_time
        → m.who.address ≡ n.who.address → IsTrue (holds m.who m.history now) → IsTrue (holds n.who n.history now) → i ≡ j }
{}

/// A controller whose driver comes for a frame at least once in each g microseconds claims again in any time above 2 g, whoever asks and
/// whatever else is due.
pub fn defends_in_time()
    ensures { (w : Who) (H : List Call) (g late start now : ℕ) → AreAnswered w H → InTime start now H → ComesIn g start now H
        → is_lost (address_after w H) ≡ false → 2 * g < late → Defends (λ when. when + late) now w H }
{}

/// Where nothing is lost, each frame that a member takes is on the bus at most `delay` later, and heard at most as long after that by each
/// other that was there when it was taken. A message to all of one frame, of a group that this one subscribes, it then got, or it waits
/// there, or messages were missed (`received` of `j39_node`).
pub fn carried()
    ensures on_the_bus { (delay now i at : ℕ) (L : List Passed) (members : List Member) (m : Member) (later earlier : List Call) (f : FrameRecord)
        → Net delay now (λ f. now < f.stamp + delay) L members → IsMember members i m
        → m.history ≡ later ++ At at (TakeFrame (Some f)) ∷ earlier → at + delay ≤ now
        → (k : ℕ) × (x : Passed) × (slice_get L k ≡ Some x) × (x.by ≡ Some i) × IsLater delay f x.frame }
    ensures heard { (delay now i j at : ℕ) (L : List Passed) (members : List Member) (m n : Member) (later earlier : List Call) (f : FrameRecord)
        → Net delay now (λ f. now < f.stamp + delay) L members → IsMember members i m → IsMember members j n → i ≢ j
        → m.history ≡ later ++ At at (TakeFrame (Some f)) ∷ earlier → n.since ≤ at → at + 2 * delay ≤ now
        → (behind : List Call) × (when : ℕ) × (g : FrameRecord) × (before : List Call) × (n.history ≡ behind ++ At when (Hear g) ∷ before)
        × (g.id ≡ f.id) × (g.bytes ≡ f.bytes) × (at ≤ when) × (when ≤ at + 2 * delay) }
    ensures kept { (delay now i j at : ℕ) (L : List Passed) (members : List Member) (m n : Member) (later earlier : List Call) (f : FrameRecord)
        → Net delay now (λ f. now < f.stamp + delay) L members → IsMember members i m → IsMember members j n → i ≢ j
        → m.history ≡ later ++ At at (TakeFrame (Some f)) ∷ earlier → n.since ≤ at → at + 2 * delay ≤ now
        → IsTrue (is_for_program n.who false f)
        → Contains (map content (kept n.who n.history)) (message_of f) ⊎ (0 < missed n.who n.history) }
{}

/// What a controller gets of messages of one frame from an address from which only one member sends comes in order, each at most once
/// and unchanged, of the frames that this one took, whatever is lost.
pub fn received_once()
    ensures { (delay now i j : ℕ) (L : List Passed) (members : List Member) (m n : Member)
        → Net delay now (λ f. Unit {0}) L members → IsMember members i m → IsMember members j n → OnlySends L i m.who.address
        → IsPart (filter (λ x. nat_eq x.source m.who.address) (map content (got n.history))) (map message_of (frames m.history)) }
{}

/// Of the broadcasts in packets that come whole from such an address, each is one that this member accepted, as it was accepted, in their
/// order, and each at most once, where none of its announcements (BAM) is lost or on its way since the other is there; packets may be. What is
/// whole is got, or waits (`broadcasts_received` of `j39_node`).
pub fn broadcasts_once()
    ensures { (delay now i j : ℕ) (L : List Passed) (members : List Member) (m n : Member)
        → Net delay now (λ f. announces f ≡ true → source_of f.id ≢ m.who.address) L members
        → IsMember members i m → IsMember members j n → i ≢ j → OnlySends L i m.who.address
        → All (λ b. b.pgn < 2 ^ 18) (broadcasts m.who m.history)
        → IsPart (filter (λ x. nat_eq x.source m.who.address) (map (λ x. x.1) (whole_broadcasts n.who n.history)))
        (broadcasts m.who m.history) }
{}

/// A broadcast in packets that was told as done is heard by each other that was there since it was accepted and subscribes its group, where
/// none of its frames is lost or on its way, and nobody else sends from its address, but for claims. Its announcement was heard there, at
/// most 2 * delay after the last moment before it was told, and behind that it came whole: it was got, or waits (`broadcasts_received` of
/// `j39_node`); or messages were counted as missed since, as `take_news` tells. It came whole where its announcement found a box free and
/// none of its source open, who holds its address stayed, and its sender's driver took one frame at least in each g since it was accepted,
/// where 150 ms + 3 * g + 2 * delay is at most 750 ms (T1). Strangers can keep the boxes full, or claim the address: then it is counted.
pub fn broadcasts_got()
    ensures { (delay now i j k at group : ℕ) (bytes : List ℕ) (L : List Passed) (members : List Member) (m n : Member) (after later earlier : List Call)
        → Net delay now (IsNoneOf (all_frames (broadcast_from m.who group bytes))) L members → IsMember members i m → IsMember members j n → i ≢ j
        → OnlySends L i m.who.address → group < 2 ^ 18
        → m.history ≡ after ++ (TakeBroadcastEnded (Some (k, end.Done)) ∷ later ++ At at (Broadcast group bytes (Ok k)) ∷ earlier)
        → n.since ≤ at → IsTrue (is_subscribed n.who group)
        → (behind : List Call) × (when : ℕ) × (f : FrameRecord) × (before : List Call) × (n.history ≡ behind ++ At when (Hear f) ∷ before)
        × (message_of f ≡ frame_of (broadcast_from m.who group bytes) 0) × (at ≤ when)
        × (when ≤ moment (later ++ At at (Broadcast group bytes (Ok k)) ∷ earlier) + 2 * delay)
        × (Contains (whole_since n.who before n.history) (broadcast_from m.who group bytes) ⊎ (unheard n.who before < unheard n.who n.history))
        × ((g : ℕ) → IsWelcome n.who behind before when f → IsSteady g later (At at (Broadcast group bytes (Ok k)) ∷ earlier)
        → packet_time + 3 * g + 2 * delay ≤ broadcast_limit
        → Contains (whole_since n.who before n.history) (broadcast_from m.who group bytes)) }
{}

/// A frame that is doubled, so that it is heard twice and no call is between, changes nothing the second time of who holds an address, makes
/// no broadcast in packets whole, and leaves one of its source as far as it is, if that stays open. Where both are of the same moment it
/// does; a second announcement is counted as if the first had broken off. A later one may end it: it is late by then, or a claim that was
/// called for no longer is, so that it tells a restart.
pub fn doubled()
    ensures holder { (w : Who) (H : List Call) (at now a : ℕ) (f : FrameRecord) → holder w (At now (Hear f) ∷ At at (Hear f) ∷ H) a
        ≡ holder w (At at (Hear f) ∷ H) a }
    ensures broadcast { (w : Who) (H : List Call) (at now : ℕ) (f : FrameRecord) → (made_whole w (At at (Hear f) ∷ H) now f ≡ None)
        × ((x y : OpenBroadcast) → hearing w (At at (Hear f) ∷ H) (source_of f.id) ≡ Some x
        → hearing w (At now (Hear f) ∷ At at (Hear f) ∷ H) (source_of f.id) ≡ Some y → IsAsFar x y) }
    ensures stays { (w : Who) (H : List Call) (at : ℕ) (f : FrameRecord) (x : OpenBroadcast) → hearing w (At at (Hear f) ∷ H) (source_of f.id) ≡ Some x
        → (y : OpenBroadcast) × (hearing w (At at (Hear f) ∷ At at (Hear f) ∷ H) (source_of f.id) ≡ Some y) }
{}

/// Of the transfers that come whole from such an address (J1939-21, 5.10.3), each is one that this member accepted for the other's address,
/// as it was accepted, in their order, and each at most once, where none of its requests (RTS) to that address is lost or on its way since
/// the other is there, and the other calls no `again`; packets and all that is answered may be lost. A packet doesn't tell of which transfer
/// it is: behind a request that is lost it would be one of the transfer before. What is whole is got, or waits (`transfers_received` of
/// `j39_node`).
pub fn transfers_once()
    ensures { (delay now i j : ℕ) (L : List Passed) (members : List Member) (m n : Member)
        → Net delay now (IsNoRequest m.who.address n.who.address) L members
        → IsMember members i m → IsMember members j n → i ≢ j → OnlySends L i m.who.address → NoneAnew n.history
        → All (λ x. x.1.pgn < 2 ^ 18) (transfers m.who m.history)
        → IsPart (filter (λ x. nat_eq x.source m.who.address) (map (λ x. x.1) (delivered n.who n.history)))
        (messages_to n.who.address (transfers m.who m.history)) }
{}

/// A transfer that its sender told as done was made whole at its destination: it was got, or waits there (`transfers_received` of
/// `j39_node`). So it is where the premises of `transfers_once` are met, nobody but its holder sends from the destination, but for claims, and
/// no acknowledgment of an older message of its group and length comes late: each that the destination took before it heard a request
/// (RTS) was taken more than 2 * delay before this one was accepted, or as many as it had taken then were heard before that. One that comes
/// late is taken for its own, since it tells only group and length.
pub fn done_is_received()
    ensures { (delay now i j k at priority group : ℕ) (bytes : List ℕ) (L : List Passed) (members : List Member) (m n : Member) (later earlier : List Call)
        → Net delay now (IsNoRequest m.who.address n.who.address) L members → IsMember members i m → IsMember members j n → i ≢ j
        → OnlySends L i m.who.address → OnlySends L j n.who.address → NoneAnew n.history
        → All (λ x. x.1.pgn < 2 ^ 18) (transfers m.who m.history)
        → m.history ≡ TakeTransferEnded (Some (k, ending.Done)) ∷ later ++ At at (Transfer priority group n.who.address bytes (Ok k)) ∷ earlier
        → NoneLate m.who.address n.who.address (broadcast_from m.who group bytes) (2 * delay) at earlier n.history
        → Contains (map (λ x. x.1) (delivered n.who n.history)) (broadcast_from m.who group bytes) }
{}

/// The report of the log (`j39_listen`) has what members send: each frame of theirs that is no claim, and of a group that is reported of
/// one frame, stands in it under its NAME, where none of their claims was lost, and before it in the log nobody else claimed by this
/// NAME, nor its address by a smaller one.
pub fn reported()
    ensures { (groups : List RowRecord) (delay now i k : ℕ) (L : List Passed) (members : List Member) (m : Member) (x : Passed) (entries : List Entry)
        → Net delay now (IsNoClaim members) L members → IsMember members i m → slice_get L k ≡ Some x → x.by ≡ Some i
        → is_claim x.frame ≡ false → IsTrue (is_reported_in groups (pgn_of x.frame.id)) → IsUnrivalled L k i m.who
        → IsReport groups (log L) entries
        → (before : List Entry) × (after : List Entry) × (entries ≡ before ++ (entries_of groups (record {
          message = record { source = m.who.address; pgn = pgn_of x.frame.id; bytes = x.frame.bytes };
          destination = sent_to (pgn_of x.frame.id) x.frame.id;
          stamp = x.frame.stamp;
          name = Some m.who.name;
        }) ++ after)) }
{}

/// So has it each broadcast of which a member took all frames: it stands in the report at its last frame, under its NAME, where of what
/// comes from its address nothing is lost or on its way, nobody else sends from there but claims, its frames in the log are 750 ms apart at
/// most (by `packets_go` of `j39_node` they are taken within 150 ms + 3 g), and before it nobody else claimed by this NAME, nor its address
/// by a smaller one.
pub fn broadcasts_reported()
    ensures { (groups : List RowRecord) (delay now i at token : ℕ) (L : List Passed) (members : List Member) (m : Member) (later earlier : List Call)
        (f : FrameRecord) (b : MessageRecord) (entries : List Entry)
        → Net delay now (λ f. IsNoClaim members f × (source_of f.id ≢ m.who.address)) L members → IsMember members i m
        → OnlySends L i m.who.address → All (λ b. b.pgn < 2 ^ 18) (broadcasts m.who earlier)
        → m.history ≡ later ++ At at (TakeFrame (Some f)) ∷ earlier → IsTrue (is_packet f) → open_broadcast m.who earlier ≡ Some (token, b)
        → packets (At at (TakeFrame (Some f)) ∷ earlier) ≡ all_frames b → IsReport groups (log L) entries
        → (last : ℕ) × (first : ℕ) × (x : Passed) × (slice_get L last ≡ Some x) × IsLater delay f x.frame
        × IsAnnouncedAt L m.who.address last first
        × (IsUnrivalled L last i m.who → IsTimely (log L) m.who.address b.pgn first last
        → (before : List Entry) × (after : List Entry) × (entries ≡ before ++ (entries_of groups (record {
          message = b;
          destination = sent_to b.pgn x.frame.id;
          stamp = x.frame.stamp;
          name = Some m.who.name;
        }) ++ after))) }
{}

/// Two controllers that claim one address meet the premises: one of them holds it, and the other gets its broadcast.
pub fn an_example()
    ensures at_rest { Net 1000 404000 (IsNoClaim both) passed both }
    ensures never { Net 1000 404000 (λ f. IsNoClaim both f ⊎ (404000 < f.stamp + 1000)) passed both }
    ensures announced { Net 1000 404000 (λ f. announces f ≡ true → source_of f.id ≢ first.who.address) passed both }
    ensures comes { ComesIn 100000 first.since 404000 first.history }
    ensures defends { Defends (λ when. when + 200001) 404000 first.who first.history }
    ensures holds { IsTrue (holds first.who first.history 404000) }
    ensures sends { OnlySends passed 0 128 }
    ensures alone { IsUnrivalled passed 6 0 first.who }
    ensures told { Net 1000 404000 (IsNoneOf (all_frames (broadcast_from two 65226 nine))) passed both × (first.history
        ≡ TakeBroadcastEnded (Some (0, end.Done)) ∷ take 3 (drop 1 first.history) ++ At 303000 (Broadcast 65226 nine (Ok 0)) ∷ drop 5 first.history)
        × IsSteady 50000 (take 3 (drop 1 first.history)) (At 303000 (Broadcast 65226 nine (Ok 0)) ∷ drop 5 first.history) }
    ensures welcome { IsWelcome second.who (take 3 second.history) (drop 4 second.history) 303400 (announcement 303300) }
    ensures taken { (open_broadcast first.who (drop 2 first.history) ≡ Some (0, broadcast_from two 65226 nine))
        × (packets first.history ≡ all_frames (broadcast_from two 65226 nine)) }
    ensures timely { IsTimely (log passed) 128 65226 4 6 }
    ensures whole { map (λ x. x.1) (whole_broadcasts second.who second.history) ≡ broadcasts first.who first.history }
{}

/// NAME 2 sends nine bytes to address 11, and is told that this is done: so the laws of transfers speak of something.
pub fn an_example_of_transfers()
    ensures joined { Net 1000 304000 (IsNoRequest 128 11) transferred pair }
    ensures apart { OnlySends transferred 0 128 × OnlySends transferred 1 11 }
    ensures anew { NoneAnew receiver.history }
    ensures done { sender.history
        ≡ TakeTransferEnded (Some (0, ending.Done)) ∷ take 5 (drop 1 sender.history) ++ At 301000 (Transfer 7 65226 11 nine (Ok 0)) ∷ drop 7 sender.history }
    ensures done_in { IsDoneIn (done_by 1000 800 2 (broadcast_from two 65226 nine)) two (take 5 (drop 1 sender.history)) (drop 6 sender.history) }
    ensures in_time { NoneLate 128 11 (broadcast_from two 65226 nine) 2000 301000 (drop 7 sender.history) receiver.history }
    ensures whole { map (λ x. x.1) (delivered receiver.who receiver.history) ≡ messages_to 11 (transfers two sender.history) }
{}
