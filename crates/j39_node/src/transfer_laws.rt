//! Laws of transfers over histories, as those of `laws`.
ghost use Rattle.std.specs.Prelude.{◌≡◌, ◌≢◌, ◌⊎◌, ◌+◌, ◌*◌, ◌<◌, ◌≤◌, ◌↔◌, ◌++◌, ℕ, List, [], ◌∷◌, length, Some, None, Option, Result, Ok, Err, IsTrue, true, false};
ghost use Rattle.std.specs.List.{All, find, slice_get};
ghost use Rattle.j39_frame.specs.Frame.{FrameRecord};
ghost use Rattle.j39_frame.specs.Identifier.{destination_of, source_of};
ghost use Rattle.j39_address.specs.Claim.{claim_of, claims_of};
ghost use Rattle.j39_address.specs.Holder.{IsHolderAfter};
ghost use Rattle.j39_transport.specs.Message.{MessageRecord, packets_of};
ghost use Rattle.j39_transport.specs.Sending.{Heard, Idle, Tick, is_waiting, send_step};
ghost use Rattle.j39_transport.specs.Signals.{Acknowledgment, said_between};
ghost use Rattle.j39_transfers.specs.declared.kinds.Ending.{Ending as TransferEnding};
ghost use Rattle.j39_transfers.specs.declared.kinds.Ending.TheVariants as how;
ghost use Rattle.j39_transfers.specs.Events.{WasTold};
ghost use Rattle.j39_transfers.specs.Transfers.{gives_up, is_due, is_open, is_over, is_refused, is_replaced, is_spent, turn, Transfer as Running};
ghost use Rattle.j39_node.specs.declared.controller.Controller.{Controller};
ghost use Rattle.j39_node.specs.declared.kinds.Refused.{Refused};
ghost use Rattle.j39_node.specs.declared.kinds.Refused.TheVariants as refused;
ghost use Rattle.j39_node.specs.History.{reached, Who, Call, accepted, acknowledged, address_after, due, has_packets, holds, is_lost, is_smaller, message_of, step, told_claims};
ghost use Rattle.j39_node.specs.History.Call.{At, TakeTransferEnded};
ghost use Rattle.j39_node.specs.History.Act.{Hear, TakeFrame, Tick as Ticks, Transfer};
ghost use Rattle.j39_node.specs.Prompt.{NoneTold, tells_transfer};
ghost use Rattle.j39_node.specs.Since.{PacketSince, RestsSince};
ghost use Rattle.j39_node.specs.Moving.{begun, moved};
ghost use Rattle.j39_node.specs.Reception.{holder, is_move};
ghost use Rattle.j39_node.specs.Transfers.{can_transfer, clock_at, is_resting, next_transfer, next_transfer_ended, open_to, priorities, resting_at, told_transfers, transfers, transfers_at};
ghost use Rattle.j39_node.specs.Moves.{Aborts, Acknowledges, Happened, IsMove, Replaces, abort_move, clears, moves};
ghost use Rattle.j39_node.specs.Is.{Is, gives_way, next_long};
ghost use Rattle.j39_node.specs.Times.{gap, rest_time};

/// What `transfer` answers: `NoAddress` where no address is held, `BadValue` where the message can't be sent so, `Full` where one to its
/// destination is accepted and not told, or one in each box (or as many as there are tokens were accepted), where it rests, or twice as
/// many pairs as boxes rest or may yet; and else the next token.
pub fn transfer_means()
    ensures no_address { (w : Who) (H : List Call) (c : Controller) (now priority group to : ℕ) (bytes : List ℕ) (answer : Result ℕ Refused)
        → Is w (At now (Transfer priority group to bytes answer) ∷ H) c → (answer ≡ Err refused.NoAddress ↔ (IsTrue (holds w H now) → ⊥)) }
    ensures bad_value { (w : Who) (H : List Call) (c : Controller) (now priority group to : ℕ) (bytes : List ℕ) (answer : Result ℕ Refused)
        → Is w (At now (Transfer priority group to bytes answer) ∷ H) c
        → (answer ≡ Err refused.BadValue ↔ (IsTrue (holds w H now) × (IsTrue (can_transfer w priority group to bytes) → ⊥))) }
    ensures full { (w : Who) (H : List Call) (c : Controller) (now priority group to : ℕ) (bytes : List ℕ) (answer : Result ℕ Refused)
        → Is w (At now (Transfer priority group to bytes answer) ∷ H) c
        → (answer ≡ Err refused.Full
        ↔ (IsTrue (holds w H now) × IsTrue (can_transfer w priority group to bytes)
        × ((length (transfers w H) ≡ 18446744073709551615)
        ⊎ (IsTrue (is_open to (transfers_at w H).running) ⊎ (IsTrue (is_resting w H now group to)
        ⊎ ((w.transfers ≤ length (transfers_at w H).running)
        ⊎ (2 * w.transfers ≤ length (resting_at w H now) + length (transfers_at w H).running))))))) }
    ensures accepts { (w : Who) (H : List Call) (c : Controller) (now priority group to : ℕ) (bytes : List ℕ) (answer : Result ℕ Refused)
        → Is w (At now (Transfer priority group to bytes answer) ∷ H) c → IsTrue (holds w H now) → IsTrue (can_transfer w priority group to bytes)
        → length (transfers w H) < 18446744073709551615 → is_open to (transfers_at w H).running ≡ false
        → is_resting w H now group to ≡ false → length (transfers_at w H).running < w.transfers
        → length (resting_at w H now) + length (transfers_at w H).running < 2 * w.transfers → answer ≡ Ok (length (transfers w H)) }
    ensures token { (w : Who) (H : List Call) (c : Controller) (now priority group to k : ℕ) (bytes : List ℕ)
        → Is w (At now (Transfer priority group to bytes (Ok k)) ∷ H) c → k ≡ length (transfers w H) }
    ensures counted { (w : Who) (H : List Call) (c : Controller) → Is w H c
        → (length (transfers w H) ≡ length (told_transfers H) + length (transfers_at w H).running)
        × (length (transfers_at w H).running ≤ w.transfers) }
{}

/// A frame of a transfer that is taken is one of the transfer to its destination that was accepted and isn't told, whose turn it is by
/// `j39_transfers`: first its request to send, then packets of its message, or an abort. It is taken where the address is held, no
/// message and no acknowledgment waits, and no frame of the open broadcast is due; where none is taken though the address is held, no
/// transfer has one. A transfer takes so many clears to send as it has packets, and 65 more, at most; where more than 64 granted nothing
/// new, and only there, its next frame is abort 5. At what is heard and taken its sender takes the steps that `j39_transport` defines.
pub fn moves_mean()
    ensures only { (w : Who) (H : List Call) (c : Controller) (now : ℕ) (f : FrameRecord)
        → Is w (At now (TakeFrame (Some f)) ∷ H) c → IsTrue (is_move w H f)
        → (a : ℕ) × (x : Running) × (turn (clock_at w H now) (transfers_at w H).running ≡ Some x) × (open_to w a H ≡ Some x)
        × (slice_get (transfers w H) x.token ≡ Some (a, x.sender.message)) × NoneTold (tells_transfer x.token) H
        × (destination_of f.id ≡ Some a) × IsMove a x.sender.message (moves w a H) (message_of f) }
    ensures behind { (w : Who) (H : List Call) (c : Controller) (now : ℕ) (f : FrameRecord)
        → Is w (At now (TakeFrame (Some f)) ∷ H) c → IsTrue (is_move w H f)
        → IsTrue (holds w H now) × (reached H ≡ length (accepted w H)) × (IsTrue (gives_way w H now) ⊎ (acknowledged H ≡ due w H)) }
    ensures after_broadcasts { (w : Who) (H : List Call) (c : Controller) (now : ℕ) (f : FrameRecord)
        → Is w (At now (TakeFrame (Some f)) ∷ H) c → IsTrue (is_move w H f) → IsTrue (has_packets w H)
        → (e : ℕ) × PacketSince H e × (e + step H now < gap) }
    ensures waits { (w : Who) (H : List Call) (c : Controller) (now : ℕ) → Is w (At now (TakeFrame None) ∷ H) c → IsTrue (holds w H now)
        → next_transfer w H now ≡ None }
    ensures gives_up { (w : Who) (H : List Call) (c : Controller) (now a : ℕ) (f : FrameRecord) (x : Running)
        → Is w (At now (TakeFrame (Some f)) ∷ H) c → IsTrue (is_move w H f) → destination_of f.id ≡ Some a → open_to w a H ≡ Some x
        → IsTrue (gives_up x) → message_of f ≡ abort_move a x.sender.message 5 }
    ensures patient { (w : Who) (H : List Call) (c : Controller) (now a : ℕ) (f : FrameRecord) (x : Running)
        → Is w (At now (TakeFrame (Some f)) ∷ H) c → IsTrue (is_move w H f) → open_to w a H ≡ Some x
        → message_of f ≡ abort_move a x.sender.message 5 → (65 ≤ x.spent) × (65 ≤ clears w a H) }
    ensures bounded { (w : Who) (H : List Call) (c : Controller) (a : ℕ) (x : Running) → Is w H c → open_to w a H ≡ Some x
        → clears w a H ≤ packets_of x.sender.message + 65 }
    ensures hears { (w : Who) (H : List Call) (c : Controller) (now a : ℕ) (f : FrameRecord) (x : Running) → Is w H c → open_to w a H ≡ Some x
        → is_lost (address_after w (At now (Hear f) ∷ H)) ≡ false
        → is_replaced (holder w H a) (holder w (At now (Hear f) ∷ H) a) ≡ false → x.broken ≡ None → is_spent x ≡ false
        → (y : Running) × (open_to w a (At now (Hear f) ∷ H) ≡ Some y)
        × (y.sender ≡ (send_step x.sender (Heard f) (clock_at w H now)).after) }
    ensures takes { (w : Who) (H : List Call) (c : Controller) (now a : ℕ) (f : FrameRecord) (x : Running)
        → Is w (At now (TakeFrame (Some f)) ∷ H) c → IsTrue (is_move w H f) → destination_of f.id ≡ Some a → open_to w a H ≡ Some x
        → gives_up x ≡ false
        → (y : Running) × (open_to w a (At now (TakeFrame (Some f)) ∷ H) ≡ Some y)
        × (y.sender ≡ (send_step x.sender Tick (clock_at w H now)).after) }
{}

/// Of the transfers that send a frame at a time one goes first whose priority number is smallest: the one whose frame is taken has no
/// larger number than another that is open and sends a frame then. A transfer has the number that was handed in with its message.
pub fn urgent_transfers_first()
    ensures numbered { (w : Who) (H : List Call) (c : Controller) (a : ℕ) (x : Running) → Is w H c → open_to w a H ≡ Some x
        → slice_get (priorities H) x.token ≡ Some x.priority }
    ensures first { (w : Who) (H : List Call) (c : Controller) (now a b : ℕ) (f : FrameRecord) (x y : Running)
        → Is w (At now (TakeFrame (Some f)) ∷ H) c → IsTrue (is_move w H f) → destination_of f.id ≡ Some a → open_to w a H ≡ Some x
        → open_to w b H ≡ Some y → IsTrue (is_due (clock_at w H now) y) → x.priority ≤ y.priority }
{}

/// The tokens of the transfers accepted are 0, 1, 2 and so on, and each is told at most once to have ended: as done only where its
/// destination acknowledged its size, packets and group after all its packets were taken, as failed only by an abort for that reason,
/// heard or taken; as gone only where its destination's address was left or lost by its holder, and there unless it was over; as
/// withdrawn only where the address is lost. One that waits with its last packet taken, and hears its acknowledgment, is done: till its
/// end is told as that, another's is, of fewer than there are boxes. Where none is told, none that is open is over, and all are told if the address is lost. `holder`
/// is `j39_address`'s holder.
pub fn transfer_done_means()
    ensures told { (w : Who) (H : List Call) (c : Controller) (k : ℕ) (e : TransferEnding)
        → Is w (TakeTransferEnded (Some (k, e)) ∷ H) c → NoneTold (tells_transfer k) H × (k < length (transfers w H)) }
    ensures done { (w : Who) (H : List Call) (c : Controller) (k : ℕ)
        → Is w (TakeTransferEnded (Some (k, how.Done)) ∷ H) c
        → (to : ℕ) × (m : MessageRecord) × (slice_get (transfers w H) k ≡ Some (to, m)) × Happened to (Acknowledges w to m) H }
    ensures acknowledged { (w : Who) (H later : List Call) (c : Controller) (now a : ℕ) (f : FrameRecord) (x : Running) (answer : Option (ℕ × TransferEnding))
        → Is w (TakeTransferEnded answer ∷ later ++ At now (Hear f) ∷ H) c → NoneTold (tells_transfer x.token) later → open_to w a H ≡ Some x
        → IsTrue (is_waiting x.sender.state) → x.sender.highest ≡ packets_of x.sender.message → x.broken ≡ None → is_spent x ≡ false
        → is_lost (address_after w (At now (Hear f) ∷ H)) ≡ false
        → is_replaced (holder w H a) (holder w (At now (Hear f) ∷ H) a) ≡ false
        → said_between a w.address f ≡ Some (Acknowledgment (length x.sender.message.bytes) (packets_of x.sender.message) x.sender.message.pgn)
        → (k : ℕ) × (e : TransferEnding) × (answer ≡ Some (k, e)) × (k ≡ x.token → e ≡ how.Done) }
    ensures failed { (w : Who) (H : List Call) (c : Controller) (k reason : ℕ)
        → Is w (TakeTransferEnded (Some (k, how.Failed reason)) ∷ H) c
        → (to : ℕ) × (m : MessageRecord) × (slice_get (transfers w H) k ≡ Some (to, m)) × Happened to (Aborts w reason to m) H }
    ensures gone { (w : Who) (H : List Call) (c : Controller) (k : ℕ)
        → Is w (TakeTransferEnded (Some (k, how.Gone)) ∷ H) c
        → (to : ℕ) × (m : MessageRecord) × (slice_get (transfers w H) k ≡ Some (to, m)) × Happened to (Replaces w to) H }
    ensures replaced { (w : Who) (H later : List Call) (c : Controller) (now a : ℕ) (f : FrameRecord) (x : Running) (answer : Option (ℕ × TransferEnding))
        → Is w (TakeTransferEnded answer ∷ later ++ At now (Hear f) ∷ H) c → NoneTold (tells_transfer x.token) later → open_to w a H ≡ Some x
        → is_over x ≡ false → is_lost (address_after w (At now (Hear f) ∷ H)) ≡ false
        → is_replaced (holder w H a) (holder w (At now (Hear f) ∷ H) a) ≡ true
        → (k : ℕ) × (e : TransferEnding) × (answer ≡ Some (k, e)) × (k ≡ x.token → e ≡ how.Gone) }
    ensures in_turn { (w : Who) (H later : List Call) (c : Controller) (a : ℕ) (x : Running) → Is w (later ++ H) c → open_to w a H ≡ Some x
        → IsTrue (is_over x) → NoneTold (tells_transfer x.token) later → length (told_transfers later) < w.transfers }
    ensures withdrawn { (w : Who) (H : List Call) (c : Controller) (k : ℕ)
        → Is w (TakeTransferEnded (Some (k, how.Withdrawn)) ∷ H) c → IsTrue (is_lost (address_after w H)) }
    ensures all { (w : Who) (H : List Call) (c : Controller) → Is w (TakeTransferEnded None ∷ H) c
        → All (λ x. is_over x ≡ false) (transfers_at w H).running
        × (IsTrue (is_lost (address_after w H)) → length (told_transfers H) ≡ length (transfers w H)) }
    ensures holder { (w : Who) (H : List Call) (a : ℕ) → IsHolderAfter (claims_of (told_claims w H)) a (holder w H a) }
{}

/// A frame that doesn't come from a transfer's destination, or not to its address, leaves that transfer but for who is known to hold its
/// destination, unless by it the destination's address is left or lost by its holder, or the address is lost. Where that is so of each
/// transfer that is open, what is sent next in packets is what a tick at the same moment leaves, and so is the end that is told next.
pub fn strangers_and_transfers()
    ensures transfer { (w : Who) (H : List Call) (c : Controller) (now a : ℕ) (f : FrameRecord) (x : Running) → Is w H c → open_to w a H ≡ Some x
        → (source_of f.id ≢ a) ⊎ (destination_of f.id ≢ Some w.address)
        → is_replaced (holder w H a) (holder w (At now (Hear f) ∷ H) a) ≡ false → is_smaller w (claim_of f) ≡ false
        → (y : Running) × (open_to w a (At now (Hear f) ∷ H) ≡ Some y) × (y ≡ record x { name = y.name }) }
    ensures next { (w : Who) (H : List Call) (c : Controller) (when now : ℕ) (f : FrameRecord) → Is w H c
        → ((a : ℕ) (x : Running) → open_to w a H ≡ Some x → ((source_of f.id ≢ a) ⊎ (destination_of f.id ≢ Some w.address))
        × (is_replaced (holder w H a) (holder w (At when (Hear f) ∷ H) a) ≡ false))
        → is_smaller w (claim_of f) ≡ false → next_long w (At when (Hear f) ∷ H) now ≡ next_long w (At when Ticks ∷ H) now }
    ensures ends { (w : Who) (H : List Call) (c : Controller) (now : ℕ) (f : FrameRecord) → Is w H c
        → ((a : ℕ) (x : Running) → open_to w a H ≡ Some x → ((source_of f.id ≢ a) ⊎ (destination_of f.id ≢ Some w.address))
        × (is_replaced (holder w H a) (holder w (At now (Hear f) ∷ H) a) ≡ false))
        → is_smaller w (claim_of f) ≡ false → next_transfer_ended w (At now (Hear f) ∷ H) ≡ next_transfer_ended w (At now Ticks ∷ H) }
{}

/// A group rests to a destination for 4 seconds after the end of a transfer of it by which it rests, once that was told, whatever comes
/// between, a move too; and only so long after such an end of this very pair, or as it did at the move. Where nothing was sent, or the
/// request to send was refused before anything was cleared, the end leaves all that rests as it was.
pub fn transfer_rests()
    ensures rests { (w : Who) (H : List Call) (now group to last : ℕ) → RestsSince w H group to last → clock_at w H now < last + rest_time
        → IsTrue (is_resting w H now group to) }
    ensures moves { (w : Who) (H moved_from : List Call) (now group to last a : ℕ) → RestsSince w moved_from group to last
        → clock_at (moved w moved_from a) (H ++ begun moved_from) now < last + rest_time
        → IsTrue (is_resting (moved w moved_from a) (H ++ begun moved_from) now group to) }
    ensures only { (w : Who) (H : List Call) (now group to : ℕ) → IsTrue (is_resting w H now group to)
        → ((last : ℕ) × RestsSince w H group to last × (clock_at w H now < last + rest_time))
        ⊎ WasTold 0 w.transfers (clock_at w H now) to group w.brought.events }
    ensures refused { (w : Who) (H : List Call) (now group to : ℕ) (ended : ℕ × TransferEnding) (x : Running)
        → find is_over (transfers_at w H).running ≡ Some x → (x.sender.state ≡ Idle) ⊎ IsTrue (is_refused x)
        → is_resting w (TakeTransferEnded (Some ended) ∷ H) now group to ≡ is_resting w H now group to }
{}
