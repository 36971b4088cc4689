//! Laws about the definitions, each the contract of a function that does nothing.
ghost use Rattle.std.specs.Prelude.{◌≡◌, ◌≢◌, ◌⊎◌, ◌+◌, ◌<◌, ◌≤◌, ◌^◌, ◌↔◌, ℕ, List, [], get_or, Option, Some, None};
ghost use Rattle.std.specs.List.{All};
ghost use Rattle.j39_frame.specs.Address.{global_address};
ghost use Rattle.j39_address.specs.Call.{Call, call_of};
ghost use Rattle.j39_address.specs.Call.Call.{Start, Tick, Heard};
ghost use Rattle.j39_address.specs.Claim.{Claim, claim_frame};
ghost use Rattle.j39_address.specs.Changes.{AreChanged};
ghost use Rattle.j39_address.specs.Holder.{Holds, HoldsSince, IsHolder};
ghost use Rattle.j39_address.specs.Net.{Net, IsMember, IsStart, NetRun, OneIsTold, NoneShared};
ghost use Rattle.j39_address.specs.Node.{Node, IsAt, IsCapable, IsFree, with_claim};
ghost use Rattle.j39_address.specs.Node.NodeStatus.{Idle, Claiming, Holding, Cannot};
ghost use Rattle.j39_address.specs.NodeStep.{NodeStep};
ghost use Rattle.j39_address.specs.Settling.{TimedCall, Runs, ClaimsSince, NoneDrivesAway, HasNoneLeft, IsSmallestAt};

/// A NAME holds an address since its last claim of it, if no smaller NAME held the address before that
/// claim or claimed it since.
pub fn holds_since_a_claim()
    ensures { (C : List (Option Claim)) (i n a : ℕ)
        → (Holds C i n a ↔ ((j : ℕ) × HoldsSince C i n a j (λ m. Holds C j m a))) }
{}

/// An address has at most one holder, and a NAME holds at most one address.
pub fn holders()
    ensures one_holder { (C : List (Option Claim)) (i n m a : ℕ) → Holds C i n a → Holds C i m a → n ≡ m }
    ensures one_address { (C : List (Option Claim)) (i n a b : ℕ) → Holds C i n a → Holds C i n b → a ≡ b }
{}

/// At each place each address has a holder or none, and which one depends on the claims before that
/// place alone.
pub fn one_answer()
    ensures some { (C : List (Option Claim)) (i a : ℕ) → (holder : Option ℕ) × IsHolder C i a holder }
    ensures same { (C D : List (Option Claim)) (i a : ℕ) (x y : Option ℕ)
        → ((j : ℕ) → j < i → get_or C j None ≡ get_or D j None) → IsHolder C i a x → IsHolder D i a y → x ≡ y }
{}

/// There is one list of the addresses whose holder changes.
pub fn one_list_of_changes()
    ensures { (earlier later : List (Option Claim)) (xs ys : List ℕ)
        → AreChanged earlier later xs → AreChanged earlier later ys → xs ≡ ys }
{}

/// Whatever a node is called with and when, it has exactly one step: no state and call is left open.
pub fn one_step()
    ensures some { (old : Node) (call : Call) (now : ℕ) → (answer : Option ℕ) × (new : Node)
        × NodeStep old call now answer new }
    ensures same { (old : Node) (call : Call) (now : ℕ) (x y : Option ℕ) (m n : Node)
        → NodeStep old call now x m → NodeStep old call now y n → (x ≡ y) × (m ≡ n) }
{}

/// The frame by which a NAME claims an address, or says that it can't claim one, is heard as that claim.
pub fn a_claim_is_heard()
    ensures { (now n a : ℕ) → n < 2 ^ 64 → a < global_address
        → call_of (claim_frame now n a) ≡ Heard (record { name = n; address = a }) }
{}

/// After any steps of a net of nodes, of two members at one address the claim of one is on its way to the
/// other. So, where no claim is on its way, no two members claim or hold one address.
pub fn contests()
    ensures told { (start net : Net) → IsStart start → NetRun start net → OneIsTold net }
    ensures none_shared { (start net : Net) → IsStart start → NetRun start net → net.pending ≡ [] → NoneShared net }
{}

/// A node that is started claims its preferred address at once. Where nothing drives it away from an
/// address that it claims, neither a smaller NAME's claim of it nor a command, it keeps that address, and
/// its first tick 250 ms after it began to claim makes it the node's own (J1939-81, 4.5.1). Before that
/// moment it has no address of its own, whatever comes.
pub fn settles()
    ensures begins { (idle started : Node) (t : ℕ) (answer : Option ℕ) → idle.status ≡ Idle
        → NodeStep idle Start t answer started
        → (answer ≡ Some idle.preferred) × (started.name ≡ idle.name) × ClaimsSince started idle.preferred t }
    ensures keeps { (node later : Node) (a t : ℕ) (calls : List TimedCall) → ClaimsSince node a t
        → NoneDrivesAway node.name a calls → Runs node calls later
        → (later.status ≡ Claiming a) ⊎ (later.status ≡ Holding a) }
    ensures holds { (node later last : Node) (a t now : ℕ) (calls : List TimedCall) (answer : Option ℕ)
        → ClaimsSince node a t → NoneDrivesAway node.name a calls → Runs node calls later
        → NodeStep later Tick now answer last → t + 250000 ≤ now → last.status ≡ Holding a }
    ensures holds_on { (node later : Node) (a : ℕ) (calls : List TimedCall) → node.status ≡ Holding a
        → NoneDrivesAway node.name a calls → Runs node calls later → later.status ≡ Holding a }
    ensures not_before { (node later : Node) (a b t : ℕ) (calls : List TimedCall) → ClaimsSince node a t
        → All (λ c. (t ≤ c.now) × (c.now < t + 250000)) calls → Runs node calls later → later.status ≢ Holding b }
{}

/// A node that loses its address to a smaller NAME's claim, and may choose, claims one of 128 to 247 that
/// nobody holds, if there is one (J1939-81, 4.5). It gives up at such a claim alone, and where it may
/// choose only if none is left.
pub fn moves_on()
    ensures claims_another { (old new : Node) (n a now free : ℕ) (answer : Option ℕ) → IsAt old a → n < old.name
        → IsCapable old.name → IsFree (with_claim old.claims n a) free
        → NodeStep old (Heard (record { name = n; address = a })) now answer new
        → (b : ℕ) × IsFree (with_claim old.claims n a) b × (answer ≡ Some b) × ClaimsSince new b now }
    ensures gives_up { (old new : Node) (call : Call) (now : ℕ) (answer : Option ℕ) → old.status ≢ Cannot
        → NodeStep old call now answer new → new.status ≡ Cannot → HasNoneLeft old call }
{}

/// In a net of distinct NAMEs that loses no claim, the smallest NAME that ever claims an address stays at
/// it from then on, unless it is commanded away. Once no claim is on its way it is there alone, and its
/// first tick 250 ms after it began to claim makes the address its own (J1939-81, 4.5).
pub fn smallest_stays()
    ensures stays { (start mid last : Net) (earlier : NetRun start mid) (later : NetRun mid last)
        (i a : ℕ) (m : Node) → IsSmallestAt start mid last earlier later i a m
        → (n : Node) × IsMember last i n × (n.name ≡ m.name) × IsAt n a }
    ensures alone { (start mid last : Net) (earlier : NetRun start mid) (later : NetRun mid last)
        (i a j : ℕ) (m n : Node) → IsSmallestAt start mid last earlier later i a m → last.pending ≡ []
        → IsMember last j n → IsAt n a → j ≡ i }
    ensures holds { (start mid last : Net) (earlier : NetRun start mid) (later : NetRun mid last)
        (i a now : ℕ) (m n ticked : Node) (answer : Option ℕ)
        → IsSmallestAt start mid last earlier later i a m → IsMember last i n
        → NodeStep n Tick now answer ticked → m.moment + 250000 ≤ now → ticked.status ≡ Holding a }
{}
