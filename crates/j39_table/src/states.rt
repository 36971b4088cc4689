//! The names of a parameter's states in a line.
ghost use Rattle.std.specs.Prelude.{◌≡◌, ◌↔◌, ◌<◌, ◌≤◌, ◌==◌, ◌^◌, ℕ, List, IfSome, IsSomeAnd, IsTrue, Some, count_by, length, nat_le};
ghost use Rattle.std.specs.List.{slice_split};
ghost use Rattle.j39_io.specs.Records.{comma};
ghost use Rattle.j39_groups.specs.Models.{field_record};
ghost use Rattle.j39_groups.specs.States.{state_words};
ghost use Rattle.j39_table.specs.Rows.{IsGoodField};
ghost use Rattle.j39_table.specs.States.{AreGoodStates, AreStates, IsState, bits_limit, states_limit};

use crate::position::digits_len;
use crate::words::is_name;
use j39_groups::{Field, state_words};
use j39_io::number;

/// What the raw numbers of a field that are ever told are below, of a signed one those that are not negative. A text has none.
pub(crate) fn states_limit(field: Field<'_>) -> u64
    requires { IsGoodField (field_record field) }
    ensures value { result ≡ states_limit (field_record field.entry) }
    ensures few { result ≤ 2 ^ 32 }
{
    match field {
        Field::Number { first, last, .. } => 0xFF * power_of_two(8 * (last - first)),
        Field::Bits { count, .. } => bits_limit(count),
        Field::Full {
            count,
            is_signed,
            ..
        } => power_of_two(if is_signed { count - 1 } else { count }),
        Field::Switch { .. } => 3,
        Field::Text { .. } => 0,
        Field::Texts { .. } => 0,
    }
}

/// From where up a number of so many bits is not available.
fn bits_limit(count: u8) -> u64
    requires few { count ≤ 32 }
    requires some { 0 < count }
    ensures value { result ≡ bits_limit count }
    ensures few { result ≤ 2 ^ 32 }
{
    if count % 8 == 0 {
        0xFF * power_of_two(count - 8)
    } else if count == 1 {
        2
    } else {
        power_of_two(count) - 1
    }
}

fn power_of_two(bits: u8) -> u64
    requires { bits ≤ 32 }
    ensures value { result ≡ 2 ^ bits }
    ensures few { result ≤ 2 ^ 32 }
{
    1 << bits
}

/// Whether what stands behind a name is nothing, or 256 names of states at most, each with a raw number below a limit and above
/// those before.
pub(crate) fn are_states(limit: u64, part: &[u8]) -> bool
    requires { limit ≤ 2 ^ 32 }
    ensures { IsTrue result ↔ AreGoodStates limit part.now }
{
    if part.is_empty() {
        return true;
    }
    if part.len() < 2 {
        return false;
    }
    are_few(&part[2..]) && rise(limit, &part[2..])
}

/// Whether there are 255 commas at most.
fn are_few(states: &[u8]) -> bool
    ensures { result ≡ nat_le (length (slice_split (λ b. b == comma) states.now)) 256 }
{
    commas_in(states) < 256
}

fn commas_in(states: &[u8]) -> usize
    ensures { result ≡ count_by (λ b. b == comma) states.now }
{
    states.iter().filter(|b| **b == b',').count()
}

/// Whether these are states, each with a number above those before.
fn rise(limit: u64, states: &[u8]) -> bool
    requires { limit ≤ 2 ^ 32 }
    ensures { IsTrue result ↔ AreStates 0 limit (slice_split (λ b. b == comma) states.now) }
{
    let mut least = 0;
    for state in states.split(|b| *b == b',') {
        let Some(raw) = state_in(least, limit, state) else {
            return false;
        };
        least = raw + 1;
    }
    true
}

/// The raw number of a state, from one on and below another.
fn state_in(least: u64, limit: u64, state: &[u8]) -> Option<u64>
    requires { limit ≤ 2 ^ 32 }
    ensures found { IfSome result (λ raw. IsState least limit state.now raw) }
    ensures only { (raw : ℕ) → IsState least limit state.now raw → IsSomeAnd result (λ found. found ≡ raw) }
{
    let raw = raw_in(state)?;
    let words = state_words(state, raw)?;
    if least <= raw && raw < limit && is_name(words) && words.len() <= 63 {
        Some(raw)
    } else {
        None
    }
}

/// The number behind the first byte.
fn raw_in(state: &[u8]) -> Option<u64>
    ensures { (raw : ℕ) (words : List ℕ) → raw < 2 ^ 32 → state_words raw state.now ≡ Some words
        → IsSomeAnd result (λ found. found ≡ raw) }
{
    let (_, rest) = state.split_first()?;
    let (digits, _) = rest.split_at(digits_len(rest));
    number(digits, 10)
}
