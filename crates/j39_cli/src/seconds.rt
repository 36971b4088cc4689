//! Seconds with decimals.
ghost use Rattle.std.specs.Prelude.{◌≡◌, ◌<◌, ◌≤◌, ◌-◌, ◌^◌, IfSome, drop, length};
ghost use Rattle.std.specs.List.{prefix_len};
ghost use Rattle.std.specs.Option.{SomeIff};
ghost use Rattle.std.specs.Str.Parse.{AllDigits};
ghost use Rattle.j39_cli.specs.Seconds.{AreSeconds, is_before_point, scaled, seconds_value};

use crate::cut_values::short_number;

/// The microseconds of seconds; behind a point they have one to six decimals.
pub(crate) fn micros_of(text: &[u8]) -> Option<u64>
    ensures { SomeIff result (AreSeconds text.now) (seconds_value text.now) }
{
    let (whole, behind) = text.split_at(point_place(text));
    if whole.is_empty() || whole.len() > 10 || behind.len() == 1 {
        return None;
    }
    let seconds = short_number(whole)?;
    let decimals = scaled(behind_first(behind))?;
    Some(seconds * 1_000_000 + decimals)
}

/// How many bytes come before the point.
pub(crate) fn point_place(text: &[u8]) -> usize
    ensures value { result ≡ prefix_len is_before_point text.now }
    ensures fits { result ≤ length text.now }
{
    text.iter().take_while(|b| **b != b'.').count()
}

/// What stands behind the first byte, where there is one.
pub(crate) fn behind_first(text: &[u8]) -> &[u8]
    ensures { result.now ≡ drop 1 text.now }
{
    if text.is_empty() {
        return text;
    }
    let (_, behind) = text.split_at(1);
    behind
}

/// The microseconds of at most six decimals.
fn scaled(digits: &[u8]) -> Option<u64>
    ensures value { SomeIff result (AllDigits 10 digits.now × (length digits.now ≤ 6)) (scaled digits.now) }
    ensures fits { IfSome result (λ n. n < 10 ^ 17) }
{
    if digits.len() > 6 {
        return None;
    }
    let value = short_number(digits)?;
    Some(value * scale_of(digits.len()))
}

/// How many microseconds the last of so many decimals stands for.
fn scale_of(decimals: usize) -> u64
    requires { decimals ≤ 6 }
    ensures value { result ≡ 10 ^ (6 - decimals) }
    ensures fits { result ≤ 10 ^ 6 }
{
    match decimals {
        0 => 1_000_000,
        1 => 100_000,
        2 => 10_000,
        3 => 1_000,
        4 => 100,
        5 => 10,
        _ => 1,
    }
}
