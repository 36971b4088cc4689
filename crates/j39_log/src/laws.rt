//! Laws about the definitions, each the contract of a function that does nothing.
ghost use Rattle.std.specs.Prelude.{◌≡◌, ◌≢◌, ◌++◌, ◌∷◌, [], ℕ, List, Option, None, take};
ghost use Rattle.j39_frame.specs.Frame.{FrameRecord};
ghost use Rattle.j39_log.specs.Log.{AreFrames, AreLines, AreReadTo, IsLog};
ghost use Rattle.j39_log.specs.Splitter.{AnswersPiece, EndsLine};
ghost use Rattle.j39_log.specs.Spelled.{Spelled, Spells};

/// A line spells at most one thing: so at most one frame, of one bus.
pub fn one_spelled()
    ensures { (line : List ℕ) (s t : Spelled) → Spells line s → Spells line t → s ≡ t }
{}

/// A log has its lines, and no others.
pub fn lines_of_a_log()
    ensures some { (bytes : List ℕ) → (lines : List (List ℕ)) × AreLines bytes lines }
    ensures same { (bytes : List ℕ) (a b : List (List ℕ)) → AreLines bytes a → AreLines bytes b → a ≡ b }
{}

/// The lines that a `Splitter` hands out of the pieces of a log, and at its end, are the log's, wherever the pieces are cut.
pub fn lines_of_pieces()
    ensures begins { AreReadTo [] [] [] }
    ensures goes_on { (bytes : List ℕ) (lines : List (List ℕ)) (begun piece : List ℕ) (taken : ℕ) → AreReadTo bytes lines begun
        → AnswersPiece begun piece taken None → AreReadTo (bytes ++ piece) lines (begun ++ piece) }
    ensures line { (bytes : List ℕ) (lines : List (List ℕ)) (begun piece line : List ℕ) (taken : ℕ) → AreReadTo bytes lines begun
        → EndsLine begun piece line taken → AreReadTo (bytes ++ take taken piece) (lines ++ line ∷ []) [] }
    ensures ended { (bytes : List ℕ) (lines : List (List ℕ)) → AreReadTo bytes lines [] → AreLines bytes lines }
    ensures last { (bytes : List ℕ) (lines : List (List ℕ)) (begun : List ℕ) → AreReadTo bytes lines begun → begun ≢ []
        → AreLines bytes (lines ++ begun ∷ []) }
{}

/// A log spells at most one list, and so has at most one list of frames for each bus, given or not.
pub fn one_log()
    ensures spelled { (bytes : List ℕ) (s t : List Spelled) → IsLog bytes s → IsLog bytes t → s ≡ t }
    ensures frames { (given : Option (List ℕ)) (bytes : List ℕ) (f g : List FrameRecord)
        → AreFrames given bytes f → AreFrames given bytes g → f ≡ g }
{}
