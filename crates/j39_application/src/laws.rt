//! What holds over all that an application hands in, and is told.
ghost use Rattle.std.specs.Prelude.{◌≡◌, ◌≢◌, ◌<◌, ◌+◌, ◌∷◌, ◌^◌, ℕ, List, Option, Some, Err};
ghost use Rattle.std.specs.List.{Contains};
ghost use Rattle.j39_address.specs.Claim.{Claim};
ghost use Rattle.j39_frame.specs.Address.{IsAddress, global_address};
ghost use Rattle.j39_node.specs.History.{Asked};
ghost use Rattle.j39_node.specs.declared.kinds.Refused.TheVariants as refused;
ghost use Rattle.j39_application.specs.Answers.{AnswersRecord, Deed, IsTurn, Open, calls, refuses, turned};
ghost use Rattle.j39_application.specs.Answers.Fate.{Dropped, HandedIn, ToldBusy};
ghost use Rattle.j39_application.specs.Course.{AreTurns, Event, after, example, late, times_ended, times_open, times_taken};
ghost use Rattle.j39_application.specs.Peers.{IsToldNext, NoneIsNew, Told, told_of};
ghost use Rattle.j39_application.specs.Sending.{coded};
ghost use Rattle.j39_application.specs.declared.sending.Way.{Way};

/// Two tokens have one code only if they are one, as long as fewer than 2^62 were accepted of each way.
#[tactic(auto, using(crate::proofs::TokenLemmas::apart))]
pub fn tokens_are_apart()
    ensures { (v w : Way) (m n : ℕ) → m < 2 ^ 62 → n < 2 ^ 62 → coded v m ≡ coded w n → (v ≡ w) × (m ≡ n) }
{}

/// Where nothing is new, a NAME was told last to hold one address at most.
#[tactic(auto, using(crate::proofs::PeerLemmas::at_one))]
pub fn peers_stand_at_one_address()
    ensures { (C : List (Option Claim)) (T : List Told) (a b n : ℕ) → NoneIsNew C T → IsAddress a → IsAddress b
        → told_of a T ≡ Some n → told_of b T ≡ Some n → a ≡ b }
{}

/// As long as no claim comes, addresses are told rising: so each is told once.
#[tactic(auto, using(crate::proofs::PeerLemmas::rising))]
pub fn peers_are_told_once()
    ensures { (C : List (Option Claim)) (T : List Told) (x y : Told) → IsToldNext C T x → IsToldNext C (x ∷ T) y → x.address < y.address }
{}

/// As often as a request was taken, such a one was handed in, was refused as busy, was dropped (for a reason that `Does` names), or is
/// open still: each has one of these fates, and one only.
#[tactic(auto, using(crate::proofs::CourseLemmas::accounted))]
pub fn none_is_forgotten()
    ensures { (boxes : ℕ) (E : List Event) (r : Asked) → AreTurns boxes E → times_taken r E
        ≡ times_open r (after boxes E).requests + (times_ended HandedIn r E + (times_ended ToldBusy r E + times_ended Dropped r E)) }
{}

/// Behind a turn none is open that came to one address and has nothing left of its 200 ms, unless the controller answered at that turn that
/// acknowledgments are full.
pub fn none_waits_too_long()
    ensures { (now : ℕ) (s : AnswersRecord) (ds : List Deed) (o : Open) → IsTurn now s ds → Contains (turned now ds s).requests o
        → o.left ≡ 0 → o.asked.destination ≢ global_address → Contains (calls ds) (refuses now o (Err refused.Full)) }
{}

/// These premises are met: by a request without an answer whose 200 ms are over, where there is no room to refuse it.
pub fn an_example_of_answers()
    ensures turns { AreTurns 1 example }
    ensures late { Contains (after 1 example).requests late × (late.left ≡ 0) × (late.asked.destination ≢ global_address) }
{}
