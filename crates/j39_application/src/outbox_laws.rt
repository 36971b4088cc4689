//! What holds over all that an application sends to NAMEs.
ghost use Rattle.std.specs.Prelude.{◌≡◌, ◌<◌, ◌+◌, ◌++◌, ◌∷◌, [], ℕ, Bool, List, None, Some, Err, Result};
ghost use Rattle.std.specs.List.{Contains};
ghost use Rattle.j39_frame.specs.Frame.{FrameRecord};
ghost use Rattle.j39_node.specs.History.{Call, Who, message_from, message_of};
ghost use Rattle.j39_node.specs.Is.{Is};
ghost use Rattle.j39_node.specs.declared.controller.Controller.{Controller};
ghost use Rattle.j39_node.specs.declared.kinds.Refused.{Refused};
ghost use Rattle.j39_node.specs.declared.kinds.Refused.TheVariants as why;
ghost use Rattle.j39_application.specs.Outbox.{Deed, IsTurn, Letter, OutboxRecord, Stands, StandsNowhere, calls, draft_to, hands_in, last_frame, turned};
ghost use Rattle.j39_application.specs.OutboxCourse.{AreTurns, Event, after, example, is_gone, is_handed_in, is_refused, times_among, times_kept, times_settled, times_told, waiting};
ghost use Rattle.j39_application.specs.declared.letter.Settled.{Settled};
ghost use Rattle.j39_application.specs.declared.letter.Settled.TheVariants as settled;
ghost use Rattle.j39_application.specs.declared.sending.Token.{Token};
ghost use Rattle.j39_application.specs.declared.sending.Way.TheVariants as way;

/// Each that an outbox accepted was handed in, was refused for good, is gone, or is kept: one of these, once, by its number. As often as
/// one was settled in a way it was told so, or waits to be told.
pub fn none_is_lost()
    ensures once { (boxes : ℕ) (E : List Event) (n : ℕ) → AreTurns boxes E → n < (after boxes E).accepted
        → times_kept n (after boxes E).letters + (times_settled is_handed_in n E + (times_settled is_refused n E + times_settled is_gone n E)) ≡ 1 }
    ensures told { (so : Settled → Bool) (boxes : ℕ) (E : List Event) (n : ℕ) → times_settled so n E
        ≡ times_among so n (after boxes E).settled + times_told so n boxes E }
{}

/// What a take hands in goes to an address that its NAME holds then, by the claims that the controller was told till then. What is gone by
/// it has a NAME that holds none, and nothing is left of its 1,250 ms. What is refused as `NoAddress` the controller answered so when it
/// was handed in, and nothing is left either.
pub fn each_goes_to_its_name()
    ensures to { (w : Who) (H : List Call) (now : ℕ) (s : OutboxRecord) (later : List Deed) (d : Deed) (earlier : List Deed)
        (rest : List Letter) (call : Call) → IsTurn w H now s (later ++ d ∷ earlier) rest → Contains d.calls call
        → (a : ℕ) × (answer : Result ℕ Refused) × (call ≡ hands_in now d.letter.errand a answer) × Stands w (calls now earlier ++ H) d.letter.name a }
    ensures gone { (w : Who) (H : List Call) (now : ℕ) (s : OutboxRecord) (later : List Deed) (d : Deed) (earlier : List Deed)
        (rest : List Letter) → IsTurn w H now s (later ++ d ∷ earlier) rest → d.settled ≡ Some settled.Gone
        → StandsNowhere w (calls now earlier ++ H) d.letter.name × (d.letter.left ≡ 0) }
    ensures refused { (w : Who) (H : List Call) (now : ℕ) (s : OutboxRecord) (later : List Deed) (d : Deed) (earlier : List Deed)
        (rest : List Letter) → IsTurn w H now s (later ++ d ∷ earlier) rest → d.settled ≡ Some (settled.Refused why.NoAddress) → (a : ℕ)
        × (d.calls ≡ hands_in now d.letter.errand a (Err why.NoAddress) ∷ []) × (d.letter.left ≡ 0) }
{}

/// What a take hands in as one frame, a request too, is the frame that this take answers: of this priority, group and bytes, to an address
/// that its NAME holds then.
pub fn each_goes_at_once()
    ensures { (w : Who) (H : List Call) (c : Controller) (now : ℕ) (s : OutboxRecord) (later : List Deed) (d : Deed) (earlier : List Deed)
        (rest : List Letter) (token : Token) → IsTurn w H now s (later ++ d ∷ earlier) rest → Is w (calls now (later ++ d ∷ earlier) ++ H) c
        → d.settled ≡ Some (settled.HandedIn token) → token.way ≡ way.Frame → (a : ℕ) × (f : FrameRecord)
        × Stands w (calls now earlier ++ H) d.letter.name a × (last_frame (later ++ d ∷ earlier) ≡ Some f)
        × (message_of f ≡ message_from w (draft_to a d.letter.errand)) }
{}

/// Behind a take that answers none, none is kept whose 1,250 ms are over, over a controller without address too: they count from when it
/// was accepted, and anew from a take at which its NAME held an address and the controller answered something else than `NoAddress`.
pub fn none_waits_too_long()
    ensures { (w : Who) (H : List Call) (now : ℕ) (s : OutboxRecord) (ds : List Deed) (rest : List Letter) (o : Letter)
        → IsTurn w H now s ds rest → last_frame ds ≡ None → Contains (turned now ds rest s).letters o → 0 < o.left }
{}

/// These premises are met: by a request to a NAME that nobody claimed yet.
pub fn an_example()
    ensures turns { AreTurns 1 example }
    ensures kept { ((after 1 example).accepted ≡ 1) × Contains (after 1 example).letters waiting }
{}
