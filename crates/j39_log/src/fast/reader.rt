//! A quick reader of the line of a frame of the run's bus, as `candump` writes it: each part stands where it mostly stands, so that
//! no end has to be looked for, the line's neither, and all are asked at once.
ghost use Rattle.std.specs.Prelude.{◌≡◌, ◌++◌, ◌∷◌, ◌⊎◌, [], ℕ, List, length, IfSome};
ghost use Rattle.std.specs.Str.Parse.{AllDigits};
ghost use Rattle.j39_io.specs.Chars.{carriage_return, newline};
ghost use Rattle.j39_log.specs.FrameLine.{BeginsLine, EndsAt, HasForm};

use crate::fast::form::{have_form, values_of};
use crate::fast::frame_line::FrameLine;
use crate::fast::plain::is_digit;
use crate::{Bus, LastSecond};

/// The bytes of the shortest such line, with its newline.
const SHORTEST: usize = 48;

/// The line of a frame of this bus that the bytes begin with, and what follows its newline, where the line has the form of
/// most (`Splitter::line_on`). `None` says nothing of the line. Its second and its identifier are kept for the next ones.
#[inline(always)]
pub(crate) fn first_line<'a>(
    bytes: &'a [u8],
    last: &mut LastSecond,
    bus: &Bus,
) -> Option<(FrameLine<'a>, &'a [u8])>
    ensures { IfSome result (λ found. BeginsLine bytes.now bus.now found.0 found.1.now) }
{
    match of_last_second(bytes, last, bus) {
        Some(found) => Some(found),
        None => {
            if !last.turn_to(bytes, bus) {
                return None;
            }
            of_last_second(bytes, last, bus)
        }
    }
}

/// The same, of a line whose second and identifier are remembered.
#[inline(always)]
fn of_last_second<'a>(
    bytes: &'a [u8],
    last: &LastSecond,
    bus: &Bus,
) -> Option<(FrameLine<'a>, &'a [u8])>
    ensures { IfSome result (λ found. BeginsLine bytes.now bus.now found.0 found.1.now) }
{
    match with_six(bytes, last, bus) {
        Some(found) => Some(found),
        None => with_nine(bytes, last, bus),
    }
}

/// The same, of one with six decimals.
#[inline(always)]
pub(crate) fn with_six<'a>(
    bytes: &'a [u8],
    last: &LastSecond,
    bus: &Bus,
) -> Option<(FrameLine<'a>, &'a [u8])>
    ensures { IfSome result (λ found. BeginsLine bytes.now bus.now found.0 found.1.now) }
{
    // Asked once, this needn't be asked of each part.
    if bytes.len() < SHORTEST {
        return None;
    }
    let (_, behind) = bytes.split_first_chunk::<16>()?;
    let (between, _) = behind.split_first_chunk::<16>()?;
    formed(bytes, between, bus.third_at, last, bus)
}

/// The same, of one with nine.
#[inline(always)]
fn with_nine<'a>(bytes: &'a [u8], last: &LastSecond, bus: &Bus) -> Option<(FrameLine<'a>, &'a [u8])>
    ensures { IfSome result (λ found. BeginsLine bytes.now bus.now found.0 found.1.now) }
{
    if bus.third_at > bytes.len() {
        return None;
    }
    let (_, behind) = bytes.split_first_chunk::<16>()?;
    let behind = after_three(behind)?;
    let (between, _) = behind.split_first_chunk::<16>()?;
    formed(bytes, between, bus.third_at + 3, last, bus)
}

/// What follows three digits.
#[inline(always)]
fn after_three(text: &[u8]) -> Option<&[u8]>
    ensures { IfSome result (λ later. (three : List ℕ) × AllDigits 10 three × (length three ≡ 3) × (text.now ≡ three ++ later.now)) }
{
    match text {
        [a, b, c, later @ ..] if is_digit(*a) && is_digit(*b) && is_digit(*c) => Some(later),
        _ => None,
    }
}

/// The line's parts, where they have the form of most: `between` begins with two digits, and the identifier
/// stands at `third_at`.
#[inline(always)]
fn formed<'a>(
    bytes: &'a [u8],
    between: &[u8; 16],
    third_at: usize,
    last: &LastSecond,
    bus: &Bus,
) -> Option<(FrameLine<'a>, &'a [u8])>
    ensures { IfSome result (λ found. HasForm bytes.now between.now third_at bus.now found.0 found.1.now) }
{
    let (front, _) = bytes.split_first_chunk::<18>()?;
    let (first, _) = bytes.split_first_chunk::<16>()?;
    if third_at > bytes.len() {
        return None;
    }
    let (_, third) = bytes.split_at(third_at);
    let (third, rest) = third.split_first_chunk::<26>()?;
    let (digits, third) = third.as_slice().split_first_chunk::<8>()?;
    let (hash, third) = third.split_first()?;
    let (data, third) = third.split_first_chunk::<16>()?;
    let (end, _) = third.split_first()?;
    let rest = after_end(*end, rest)?;
    let values = values_of(data);
    if *hash != b'#' || !have_form(first, &last.second.form, between, &bus.between, values) {
        return None;
    }
    let id = last.identifiers.of(digits)?;
    let second = last.second.micros;
    let line = FrameLine {
        front,
        second,
        id,
        data,
        values: values.to_array(),
    };
    Some((line, rest))
}

/// What follows the end of a line, which begins behind the data: nothing, or a space and `R` or `T`, as `candump -x` writes them;
/// then a CR or none, and a newline.
#[inline(always)]
fn after_end(end: u8, rest: &[u8]) -> Option<&[u8]>
    ensures { IfSome result (λ later. EndsAt (end ∷ rest.now) later.now) }
{
    match end {
        b'\n' => Some(rest),
        b'\r' => after_newline(rest),
        _ => after_flag(end, rest),
    }
}

/// The same, where a space comes first. It is no part of its caller, whose way for most lines so stays short.
#[inline(never)]
fn after_flag(end: u8, rest: &[u8]) -> Option<&[u8]>
    ensures { IfSome result (λ later. EndsAt (end ∷ rest.now) later.now) }
{
    if end != b' ' {
        return None;
    }
    let (flag, rest) = rest.split_first()?;
    let (end, rest) = rest.split_first()?;
    if *flag != b'R' && *flag != b'T' {
        return None;
    }
    after_cr(*end, rest)
}

/// What follows a newline, whose first byte was taken off, or the CR before it.
fn after_cr(end: u8, rest: &[u8]) -> Option<&[u8]>
    ensures { IfSome result (λ later. (cr : List ℕ) × ((cr ≡ []) ⊎ (cr ≡ carriage_return ∷ []))
        × (end ∷ rest.now ≡ cr ++ (newline ∷ later.now))) }
{
    match end {
        b'\n' => Some(rest),
        b'\r' => after_newline(rest),
        _ => None,
    }
}

/// What follows a newline.
fn after_newline(text: &[u8]) -> Option<&[u8]>
    ensures { IfSome result (λ later. text.now ≡ newline ∷ later.now) }
{
    match text {
        [b'\n', later @ ..] => Some(later),
        _ => None,
    }
}
