//! A law of messages of faults, the contract of a function that does nothing.
ghost use Rattle.std.specs.Prelude.{◌≡◌, ◌<◌, ◌∷◌, [], ℕ, List, Some, true};
ghost use Rattle.j39_faults.specs.Codes.{code_of};
ghost use Rattle.j39_faults.specs.FaultsMessage.{can_tell, code_bytes, flashes_byte, states_byte};
ghost use Rattle.j39_faults.specs.LampBits.{lamps_of};
ghost use Rattle.j39_faults.specs.declared.code.Code.{Code};
ghost use Rattle.j39_faults.specs.declared.lamps.Lamps.{Lamps};

/// What is read can be told, by the bytes that it was read from: each code of conversion method 0, and all lamps.
pub fn told_again()
    ensures code { (first second third fourth : ℕ) (code : Code) → first < 256 → second < 256 → third < 256 → fourth < 128
        → code_of first second third fourth ≡ Some code
        → (can_tell code ≡ true) × (code_bytes code ≡ first ∷ second ∷ third ∷ fourth ∷ []) }
    ensures lamps { (states flashes : ℕ) (rest : List ℕ) (lamps : Lamps) → states < 256 → flashes < 256
        → lamps_of (states ∷ flashes ∷ rest) ≡ Some lamps
        → (states_byte lamps ≡ states) × (flashes_byte lamps ≡ flashes) }
{}
