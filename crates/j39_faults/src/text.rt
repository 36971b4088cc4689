//! The words for a code (own).
ghost use Rattle.std.specs.Prelude.{◌≡◌, ◌+◌, ◌≤◌, ◌++◌, codes, decimal, length};
ghost use Rattle.arrayvec.specs.ArrayVec.{array_vec_len};
ghost use Rattle.j39_faults.specs.Text.{candidates_words, clear_text, change_text, kind_text, parameter_words, state_text};

use crate::change::Change;
use crate::code::{Candidates, Parameter};
use crate::kind::Kind;
use arrayvec::ArrayVec;
use j39_io::printing::{push_bytes, push_number};

/// The longest word for a kind fits behind `clear-`.
pub type ClearWord = ArrayVec<u8, 32>;

/// Three numbers of ten digits and the words between fit.
pub type ParameterWords = ArrayVec<u8, 64>;

/// What is told of a code: that it is of a kind, or what became of it.
#[derive(Clone, Copy, Debug, PartialEq, Eq)]
pub enum State {
    Is(Kind),
    Became(Change),
}

/// What stands for the name of a parameter where there is none: `SPN` and its number, or its candidates.
pub fn parameter_words(parameter: Parameter) -> ParameterWords
    ensures { result.items ≡ parameter_words parameter }
{
    match parameter {
        Parameter::Known(spn) => spn_words(spn),
        Parameter::OneOf(spns) => candidates_words(spns),
    }
}

fn spn_words(spn: u32) -> ParameterWords
    ensures { result.items ≡ codes "SPN " ++ decimal spn }
{
    let mut text = ArrayVec::new();
    push_bytes(&mut text, b"SPN ");
    push_decimal(&mut text, spn);
    text
}

fn candidates_words(spns: Candidates) -> ParameterWords
    ensures { result.items ≡ candidates_words spns }
{
    let mut text = ArrayVec::new();
    push_bytes(&mut text, b"SPN ");
    push_decimal(&mut text, spns.version_1);
    push_bytes(&mut text, b", ");
    push_decimal(&mut text, spns.version_2);
    push_bytes(&mut text, b" or ");
    push_decimal(&mut text, spns.version_3);
    push_bytes(&mut text, b" by conversion 1, 2 or 3");
    text
}

/// The word for a kind's codes that are to be cleared: `clear-` and the kind's.
#[tactic(auto, unfolding(crate::specs::Text::clear_text))]
pub fn clear_word(kind: Kind) -> ClearWord
    ensures { result.items ≡ clear_text kind }
{
    let mut word = ArrayVec::new();
    push_bytes(&mut word, b"clear-");
    push_bytes(&mut word, kind_word(kind));
    word
}

/// The word for a state.
pub fn state_word(state: State) -> &'static [u8]
    ensures text { result.now ≡ state_text state }
    ensures short { length result.now ≤ 17 }
{
    match state {
        State::Is(kind) => kind_word(kind),
        State::Became(change) => change_word(change),
    }
}

fn change_word(change: Change) -> &'static [u8]
    ensures text { result.now ≡ change_text change }
    ensures short { length result.now ≤ 17 }
{
    match change {
        Change::Set => b"set",
        Change::Again => b"again",
        Change::Cleared => b"cleared",
    }
}

/// The word for a kind.
pub fn kind_word(kind: Kind) -> &'static [u8]
    ensures text { result.now ≡ kind_text kind }
    ensures short { length result.now ≤ 17 }
{
    match kind {
        Kind::Active => b"active",
        Kind::Previous => b"previous",
        Kind::EmissionPending => b"emission-pending",
        Kind::EmissionActive => b"emission-active",
        Kind::EmissionPrevious => b"emission-previous",
        Kind::Pending => b"pending",
        Kind::Permanent => b"permanent",
    }
}

#[tactic(auto, using(crate::proofs::NumberLemmas::decimal_ten))]
fn push_decimal<const N: usize>(text: &mut ArrayVec<u8, N>, number: u32)
    requires { array_vec_len text.old + 10 ≤ N }
    ensures items { text.new.items ≡ text.old.items ++ decimal number }
    ensures len { array_vec_len text.new ≤ array_vec_len text.old + 10 }
{
    push_number(text, u64::from(number));
}
