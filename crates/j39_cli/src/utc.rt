//! Moments in UTC (ISO 8601).
ghost use Rattle.std.specs.Prelude.{◌≡◌, ◌<◌, ◌≤◌, ◌+◌, ◌*◌, ◌^◌, IfSome, Some, length, ℕ};
ghost use Rattle.std.specs.Str.Parse.{AllDigits};
ghost use Rattle.std.specs.Option.{SomeIff};
ghost use Rattle.j39_rows.specs.Calendar.{day_after, days_in_month, is_leap_year};
ghost use Rattle.j39_cli.specs.UtcMoment.{IsClock, IsDate, IsSecond, IsUtc, day_number, days_of_months, days_of_years, is_utc, minutes_in, number_at, part, utc_value, year_length};
ghost use Rattle.j39_cli.specs.Seconds.{seconds_value};

use crate::cut_values::short_number;
use crate::seconds::{micros_of, point_place};

/// The moment of a date and a time of day in front of the last letter, as `2026-11-27T08:30:00Z`, in microseconds since
/// 1 January 1970.
pub(crate) fn utc_of(text: &[u8]) -> Option<u64>
    ensures { SomeIff result (IsUtc text.now) (utc_value text.now) }
{
    let n = text.len();
    if n < 18 {
        return None;
    }
    let (clock, behind) = text.split_at(17);
    let (second, _) = behind.split_at(n - 18);
    let minutes = minutes_of(clock)?;
    let micros = second_of(second)?;
    Some(minutes * 60_000_000 + micros)
}

/// The minutes since 1 January 1970, of as much as `2026-11-27T08:30:`.
fn minutes_of(text: &[u8]) -> Option<u64>
    requires { length text.now ≡ 17 }
    ensures value { SomeIff result (IsClock text.now) (minutes_in text.now) }
    ensures fits { IfSome result (λ n. n < 10 ^ 11) }
{
    if text[4] != b'-'
        || text[7] != b'-'
        || text[10] != b'T'
        || text[13] != b':'
        || text[16] != b':'
    {
        return None;
    }
    let year = number_at(text, 0, 4)?;
    let month = number_at(text, 5, 2)?;
    let day = number_at(text, 8, 2)?;
    let hour = number_at(text, 11, 2)?;
    let minute = number_at(text, 14, 2)?;
    let day = day_of(year, month, day)?;
    if hour > 23 || minute > 59 {
        return None;
    }
    Some((day * 24 + hour) * 60 + minute)
}

/// Whether the last letter says that it is UTC.
pub(crate) fn is_utc(text: &[u8]) -> bool
    ensures { result ≡ is_utc text.now }
{
    !text.is_empty() && text[text.len() - 1] == b'Z'
}

/// The number of so many digits at a place.
fn number_at(text: &[u8], from: usize, digits: usize) -> Option<u64>
    requires room { from + digits ≤ length text.now }
    requires short { digits ≤ 4 }
    ensures value { SomeIff result (AllDigits 10 (part from digits text.now)) (number_at from digits text.now) }
    ensures fits { IfSome result (λ n. n < 10 ^ digits) }
{
    short_number(&text[from..from + digits])
}

/// How many days after 1 January 1970 this date is, where the calendar has it.
fn day_of(year: u64, month: u64, day: u64) -> Option<u64>
    requires { year < 10 ^ 4 }
    ensures value { SomeIff result (IsDate (record { year = year; month = month; day = day }))
        (day_number (record { year = year; month = month; day = day })) }
    ensures fits { IfSome result (λ n. n < 10 ^ 7) }

    // It is that of the calendar: the date so many days after has that number.
    ensures calendar { (n : ℕ) → day_after n ≡ record { year = year; month = month; day = day } → result ≡ Some n }
{
    counted(year, month, day)
}

/// The same, as it is counted.
fn counted(year: u64, month: u64, day: u64) -> Option<u64>
    requires { year < 10 ^ 4 }
    ensures value { SomeIff result (IsDate (record { year = year; month = month; day = day }))
        (day_number (record { year = year; month = month; day = day })) }
    ensures fits { IfSome result (λ n. n < 10 ^ 7) }
{
    if year < 1970 || month == 0 || month > 12 || day == 0 || day > month_length(year, month) {
        return None;
    }
    Some(days_of_years(year - 1970) + days_of_months(year, month - 1) + (day - 1))
}

/// The days of so many years from 1970 on.
fn days_of_years(count: u64) -> u64
    requires { count < 10 ^ 4 }
    ensures value { result ≡ days_of_years count }
    ensures fits { result ≤ 366 * count }
{
    let mut days = 0;
    for n in 0..count {
        days += year_length(1970 + n);
    }
    days
}

/// The days of the first months of a year.
fn days_of_months(year: u64, count: u64) -> u64
    requires { count ≤ 12 }
    ensures value { result ≡ days_of_months year count }
    ensures fits { result ≤ 31 * count }
{
    let mut days = 0;
    for n in 0..count {
        days += month_length(year, n + 1);
    }
    days
}

fn year_length(year: u64) -> u64
    ensures value { result ≡ year_length year }
    ensures fits { result ≤ 366 }
{
    if is_leap_year(year) { 366 } else { 365 }
}

fn month_length(year: u64, month: u64) -> u64
    ensures value { result ≡ days_in_month year month }
    ensures fits { result ≤ 31 }
{
    if month == 2 {
        if is_leap_year(year) { 29 } else { 28 }
    } else if month == 4 || month == 6 || month == 9 || month == 11 {
        30
    } else {
        31
    }
}

fn is_leap_year(year: u64) -> bool
    ensures { result ≡ is_leap_year year }
{
    year % 4 == 0 && (year % 100 != 0 || year % 400 == 0)
}

/// The microseconds of two digits of seconds below 60, and of what decimals they have.
fn second_of(text: &[u8]) -> Option<u64>
    ensures value { SomeIff result (IsSecond text.now) (seconds_value text.now) }
    ensures fits { IfSome result (λ n. n < 10 ^ 17) }
{
    let micros = micros_of(text)?;
    if point_place(text) == 2 && micros < 60_000_000 {
        Some(micros)
    } else {
        None
    }
}
