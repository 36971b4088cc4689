//! The columns of a line of a table, each read from the text that is printed for it.
ghost use Rattle.std.specs.Prelude.{◌≡◌, ◌+◌, ◌*◌, ◌^◌, ◌<◌, ◌≤◌, ℕ, ℤ, Bool, List, ◌++◌, IfSome, IsSomeAnd, decimal, length, unsigned_abs};
ghost use Rattle.std.specs.Fmt.{sign_text};
ghost use Rattle.std.specs.List.{prefix_len};
ghost use Rattle.j39_table.specs.Columns.{IsUnsigned, is_negative_number, is_not_point};
ghost use Rattle.j39_groups.specs.ValueText.{magnitude_text, scaled_text};

use j39_groups::{decimal_of, scaled_text};
use j39_io::number;

/// The number that a text is in decimal, as it is printed: with no leading zero.
pub(crate) fn decimal_in(text: &[u8]) -> Option<u32>
    ensures found { IfSome result (λ n. text.now ≡ decimal n) }
    ensures only { (n : ℕ) → n < 2 ^ 32 → text.now ≡ decimal n → IsSomeAnd result (λ m. m ≡ n) }
{
    let value = number(text, 10)?;
    let Ok(value) = u32::try_from(value) else {
        return None;
    };
    if decimal_of(value).as_slice() == text {
        Some(value)
    } else {
        None
    }
}

fn whole_len(text: &[u8]) -> usize
    ensures value { result ≡ prefix_len is_not_point text.now }
    ensures fits { result ≤ length text.now }
{
    text.iter().take_while(|b| **b != b'.').count()
}

/// Ten to so many places.
fn power(places: usize) -> u64
    requires { places ≤ 15 }
    ensures { result ≡ 10 ^ places }
{
    match places {
        0 => 1,
        1 => 10,
        2 => 100,
        3 => 1_000,
        4 => 10_000,
        5 => 100_000,
        6 => 1_000_000,
        7 => 10_000_000,
        8 => 100_000_000,
        9 => 1_000_000_000,
        10 => 10_000_000_000,
        11 => 100_000_000_000,
        12 => 1_000_000_000_000,
        13 => 10_000_000_000_000,
        14 => 100_000_000_000_000,
        _ => 1_000_000_000_000_000,
    }
}

/// What a text without a sign may be the printed form of: so many units of the last of so many places.
fn magnitude_in(text: &[u8]) -> Option<(u64, u8)>
    ensures few { IfSome result (λ found. found.1 ≤ 15) }
    ensures only { (magnitude places : ℕ) → places ≤ 15 → magnitude < 2 ^ 64
        → text.now ≡ magnitude_text places magnitude
        → IsSomeAnd result (λ found. (found.0 ≡ magnitude) × (found.1 ≡ places)) }
{
    let len = whole_len(text);
    if len >= text.len() {
        let magnitude = number(text, 10)?;
        return Some((magnitude, 0));
    }
    let (whole, rest) = text.split_at(len);
    let (_, part) = rest.split_at(1);
    if part.len() > 15 {
        return None;
    }
    let whole = number(whole, 10)?;
    let last = number(part, 10)?;
    let shifted = whole.checked_mul(power(part.len()))?;
    let magnitude = shifted.checked_add(last)?;
    Some((magnitude, part.len() as u8))
}

/// Whether a text begins with `-`, and the text behind it.
fn sign_of(text: &[u8]) -> (bool, &[u8])
    ensures { (negative : Bool) (digits : List ℕ) → IsUnsigned digits → text.now ≡ sign_text negative ++ digits
        → (result.0 ≡ negative) × (result.1.now ≡ digits) }
{
    match text {
        [b'-', rest @ ..] => (true, rest),
        _ => (false, text),
    }
}

/// So many units, with a sign.
fn signed(is_negative: bool, magnitude: u64) -> Option<i64>
    ensures { (n : ℤ) → is_negative ≡ is_negative_number n → magnitude ≡ unsigned_abs n → unsigned_abs n < 2 ^ 63
        → IsSomeAnd result (λ found. found ≡ n) }
{
    let Ok(value) = i64::try_from(magnitude) else {
        return None;
    };
    Some(if is_negative { -value } else { value })
}

/// The number that a text is, as it is printed, and its places.
pub(crate) fn scaled_in(text: &[u8]) -> Option<(i64, u8)>
    ensures found { IfSome result (λ found. text.now ≡ scaled_text found.1 found.0) }
    ensures few { IfSome result (λ found. found.1 ≤ 15) }
    ensures only { (n : ℤ) (places : ℕ) → places ≤ 15 → unsigned_abs n < 2 ^ 63 → text.now ≡ scaled_text places n
        → IsSomeAnd result (λ found. (found.0 ≡ n) × (found.1 ≡ places)) }
{
    let (is_negative, rest) = sign_of(text);
    let (magnitude, places) = magnitude_in(rest)?;
    let value = signed(is_negative, magnitude)?;
    if scaled_text(value, places).as_slice() == text {
        Some((value, places))
    } else {
        None
    }
}
