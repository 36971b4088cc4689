//! Moments in UTC (ISO 8601).
ghost use Rattle.std.specs.Prelude.{◌≡◌, ◌+◌, ◌^◌, ◌≤◌, ◌<◌, ◌++◌, codes, pos};
ghost use Rattle.arrayvec.specs.ArrayVec.{array_vec_len};
ghost use Rattle.j39_rows.specs.Calendar.{day_after};
ghost use Rattle.j39_rows.specs.Utc.{date_text, second_text, time_text, utc_text};
ghost use Rattle.j39_frame.specs.Stamp.{stamp_micros};

use arrayvec::ArrayVec;
use j39_frame::Stamp;
use j39_io::printing::{push_bytes, push_last_digits};
use jiff_core::civil::Date;

/// A date, a time of day with six decimals, and the two letters.
pub type UtcText = ArrayVec<u8, 27>;

/// A moment as `2023-11-14T22:13:20.250000Z` (ISO 8601): the microseconds of a stamp are counted from 1 January 1970 on.
#[tactic(auto, unfolding(crate::specs::Utc::utc_text))]
pub fn utc_text(stamp: Stamp) -> UtcText
    ensures { result.items ≡ utc_text (stamp_micros stamp) }
{
    let micros = stamp.micros();
    let mut text = second_text(micros / 1_000_000);
    push_bytes(&mut text, b".");
    push_last_digits(&mut text, 6, micros % 1_000_000);
    push_bytes(&mut text, b"Z");
    text
}

/// The date and the time of day after so many seconds since 1 January 1970, as `2023-11-14T22:13:20`.
pub fn second_text(seconds: u64) -> UtcText
    requires { seconds < 10 ^ 10 }
    ensures items { result.items ≡ second_text seconds }
    ensures len { array_vec_len result ≡ 19 }
{
    let mut text = ArrayVec::new();
    push_date(&mut text, seconds / 86_400);
    push_bytes(&mut text, b"T");
    push_time(&mut text, seconds % 86_400);
    text
}

/// Appends the date of so many days after 1 January 1970.
fn push_date(text: &mut UtcText, day: u64)
    requires early { day ≤ 2_932_896 }
    requires room { array_vec_len text.old + 10 ≤ 27 }
    ensures items { text.new.items ≡ text.old.items ++ date_text (day_after day) }
    ensures len { array_vec_len text.new ≡ array_vec_len text.old + 10 }
{
    let date = date_of(day);
    push_last_digits(text, 4, date.year as u64);
    push_bytes(text, b"-");
    push_last_digits(text, 2, u64::from(date.month));
    push_bytes(text, b"-");
    push_last_digits(text, 2, u64::from(date.day));
}

/// The date of so many days after 1 January 1970.
fn date_of(day: u64) -> Date
    requires { day ≤ 2_932_896 }
    ensures year { result.year ≡ pos (day_after day).year }
    ensures month { result.month ≡ (day_after day).month }
    ensures day { result.day ≡ (day_after day).day }
{
    Date::from_unix_epoch_day(day as i64).unwrap()
}

/// Appends the time of day after so many seconds of it.
fn push_time(text: &mut UtcText, seconds: u64)
    requires { array_vec_len text.old + 8 ≤ 27 }
    ensures items { text.new.items ≡ text.old.items ++ time_text seconds }
    ensures len { array_vec_len text.new ≡ array_vec_len text.old + 8 }
{
    push_last_digits(text, 2, seconds / 3_600);
    push_bytes(text, b":");
    push_last_digits(text, 2, seconds / 60 % 60);
    push_bytes(text, b":");
    push_last_digits(text, 2, seconds % 60);
}
