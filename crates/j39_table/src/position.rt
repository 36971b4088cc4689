//! Where a parameter stands, read from its text.
ghost use Rattle.std.specs.Prelude.{◌≡◌, ◌+◌, ◌-◌, ◌*◌, ◌/◌, ◌%◌, ◌<◌, ◌≤◌, ◌++◌, ◌∷◌, ◌↔◌, [], ℕ, List, Some, IfSome, IsSomeAnd, IsTrue, codes, decimal, length};
ghost use Rattle.std.specs.List.{prefix_len};
ghost use Rattle.arrayvec.specs.ArrayVec.{array_vec_len};
ghost use Rattle.j39_groups.specs.Printed.{bits_end, bits_text, bytes_or_bits_text};
ghost use Rattle.j39_table.specs.declared.position.Position.{Position};
ghost use Rattle.j39_table.specs.Positions.{IsAfterDigits, IsGoodBits, IsGoodPlace, IsPlainPlace, behind_first_byte, behind_low_bit, end_text, is_digit, text_of_place, without_mark};

use arrayvec::ArrayVec;
use j39_groups::{push_decimal, push_range};
use j39_io::{number, printing};

/// Where a parameter stands in the payload. Bytes, bits and parts count from 1.
#[derive(Clone, Copy, Debug, PartialEq, Eq)]
pub(crate) enum Position {
    /// The bytes `first` to `last`.
    Bytes {
        first: u8,
        last: u8,
    },
    /// `count` bits from the bit `low` of a byte on.
    Bits {
        byte: u8,
        low: u8,
        count: u8,
    },
    /// The same where each raw number is a value, in two's complement or unsigned.
    Full {
        byte: u8,
        low: u8,
        count: u8,
        is_signed: bool,
    },
    /// One of the parts of the payload between the bytes `*`.
    Part {
        part: u8,
    },
    /// The parts of the bytes from `byte` on.
    Texts {
        byte: u8,
    },
}

/// The place that a text says, as it is printed.
pub(crate) fn place_in(text: &[u8]) -> Option<Position>
    ensures found { IfSome result (λ place. IsGoodPlace place × (text.now ≡ text_of_place place)) }
    ensures only { (place : Position) → IsGoodPlace place → text.now ≡ text_of_place place → result ≡ Some place }
{
    let place = likely_place(text)?;
    let is_good = is_good(place);
    if is_good && place_text(place).as_slice() == text {
        Some(place)
    } else {
        None
    }
}

/// Whether a place is one that a table may say.
fn is_good(place: Position) -> bool
    ensures { IsTrue result ↔ IsGoodPlace place }
{
    match place {
        Position::Bytes { first, last } => 0 < first && first <= last && last - first < 4,
        Position::Bits { byte, low, count } => is_good_bits(byte, low, count),
        Position::Full {
            byte,
            low,
            count,
            ..
        } => is_good_bits(byte, low, count),
        Position::Part { part } => 0 < part,
        Position::Texts { byte } => 0 < byte,
    }
}

fn is_good_bits(byte: u8, low: u8, count: u8) -> bool
    ensures { IsTrue result ↔ IsGoodBits byte low count }
{
    0 < byte
        && 0 < low
        && low <= 8
        && 0 < count
        && count <= 32
        && u32::from(byte) + (u32::from(low) + u32::from(count) - 2) / 8 <= 255
}

/// A place as it is printed.
fn place_text(place: Position) -> ArrayVec<u8, 32>
    requires { IsGoodPlace place }
    ensures { result.items ≡ text_of_place place }
{
    let mut text = ArrayVec::new();
    match place {
        Position::Bytes { first, last } => push_range(&mut text, first, last),
        Position::Bits { byte, low, count } => push_bits(&mut text, byte, low, low + count - 2),
        Position::Full {
            byte,
            low,
            count,
            is_signed,
        } => {
            push_bytes_or_bits(&mut text, byte, low, count);
            text.push(if is_signed { b's' } else { b'u' });
        }
        Position::Part { part } => {
            text.push(b'*');
            push_decimal(&mut text, u32::from(part));
        }
        Position::Texts { byte } => {
            push_decimal(&mut text, u32::from(byte));
            text.push(b'-');
        }
    }
    text
}

/// Appends the place of bits, by bytes where they are whole ones.
fn push_bytes_or_bits(text: &mut ArrayVec<u8, 32>, byte: u8, low: u8, count: u8)
    requires empty { array_vec_len text.old ≡ 0 }
    requires good { IsGoodBits byte low count }
    ensures items { text.new.items ≡ bytes_or_bits_text byte low count }
    ensures len { array_vec_len text.new ≤ 31 }
{
    if low == 1 && count % 8 == 0 {
        push_range(text, byte, byte + (count / 8 - 1));
    } else {
        push_bits(text, byte, low, low + count - 2);
    }
}

/// Appends the place of bits: `last` bits stand before the last one, from the first bit of the byte on.
fn push_bits(text: &mut ArrayVec<u8, 32>, byte: u8, low: u8, last: u8)
    requires empty { array_vec_len text.old ≡ 0 }
    requires within { byte + last / 8 ≤ 255 }
    ensures items { text.new.items ≡ bits_text byte low last }
    ensures len { array_vec_len text.new ≤ 31 }
{
    push_number(text, byte);
    text.push(b'.');
    if last / 8 == 0 {
        push_range(text, low, last + 1);
    } else {
        push_number(text, low);
        text.push(b'-');
        push_number(text, byte + last / 8);
        text.push(b'.');
        push_number(text, last % 8 + 1);
    }
}

/// What a text says where it is a place as it is printed; it may be no place.
fn likely_place(text: &[u8]) -> Option<Position>
    ensures { (place : Position) → IsGoodPlace place → text.now ≡ text_of_place place → result ≡ Some place }
{
    match text {
        [front @ .., b's'] => full_place(front, true),
        [front @ .., b'u'] => full_place(front, false),
        _ => plain_place(text),
    }
}

/// The same of a text whose last byte says that each raw number is a value.
fn full_place(front: &[u8], is_signed: bool) -> Option<Position>
    ensures { (byte low count : ℕ) → IsGoodBits byte low count → front.now ≡ bytes_or_bits_text byte low count
        → result ≡ Some (Position.Full byte low count is_signed) }
{
    let place = plain_place(front)?;
    in_full(place, is_signed)
}

/// The number in these bytes or bits each of whose raw numbers is a value.
fn in_full(place: Position, is_signed: bool) -> Option<Position>
    ensures { (byte low count : ℕ) → IsGoodBits byte low count → place ≡ without_mark byte low count
        → result ≡ Some (Position.Full byte low count is_signed) }
{
    match place {
        Position::Bytes { first, last } => full_bytes(first, last, is_signed),
        Position::Bits { byte, low, count } => Some(Position::Full {
            byte,
            low,
            count,
            is_signed,
        }),
        Position::Full { .. } => None,
        Position::Part { .. } => None,
        Position::Texts { .. } => None,
    }
}

/// The same in the bytes `first` to `last`, where they are four at most.
fn full_bytes(first: u8, last: u8, is_signed: bool) -> Option<Position>
    ensures { first ≤ last → last < first + 4
        → result ≡ Some (Position.Full first 1 (8 * (last - first + 1)) is_signed) }
{
    let more = last.checked_sub(first)?;
    if more > 3 {
        return None;
    }
    Some(Position::Full {
        byte: first,
        low: 1,
        count: 8 * (more + 1),
        is_signed,
    })
}

/// The same of a text without such a mark.
fn plain_place(text: &[u8]) -> Option<Position>
    ensures { (place : Position) → IsGoodPlace place → IsPlainPlace place → text.now ≡ text_of_place place
        → result ≡ Some place }
{
    match text {
        [b'*', rest @ ..] => part_in(rest),
        _ => counted_place(text),
    }
}

fn part_in(text: &[u8]) -> Option<Position>
    ensures { (part : ℕ) → part ≤ 255 → text.now ≡ decimal part → result ≡ Some (Position.Part part) }
{
    let (part, _) = leading_number(text)?;
    Some(Position::Part { part })
}

fn counted_place(text: &[u8]) -> Option<Position>
    ensures bytes { (first last : ℕ) → first ≤ 255 → last ≤ 255
        → text.now ≡ decimal first ++ behind_first_byte first last
        → result ≡ Some (Position.Bytes first last) }
    ensures bits { (byte low count : ℕ) → IsGoodBits byte low count → text.now ≡ bits_text byte low (bits_end low count)
        → result ≡ Some (Position.Bits byte low count) }
    ensures texts { (byte : ℕ) → byte ≤ 255 → text.now ≡ decimal byte ++ codes "-" → result ≡ Some (Position.Texts byte) }
{
    let (first, rest) = leading_number(text)?;
    place_behind(first, rest)
}

fn place_behind(first: u8, rest: &[u8]) -> Option<Position>
    ensures bytes { (last : ℕ) → last ≤ 255 → rest.now ≡ behind_first_byte first last
        → result ≡ Some (Position.Bytes first last) }
    ensures bits { (low count : ℕ) → IsGoodBits first low count
        → rest.now ≡ 46 ∷ decimal low ++ behind_low_bit first low (bits_end low count)
        → result ≡ Some (Position.Bits first low count) }
    ensures texts { rest.now ≡ codes "-" → result ≡ Some (Position.Texts first) }
{
    match rest {
        [] => Some(Position::Bytes { first, last: first }),
        [b'-', rest @ ..] => bytes_from(first, rest),
        [b'.', rest @ ..] => bits_from(first, rest),
        _ => None,
    }
}

fn bytes_from(first: u8, rest: &[u8]) -> Option<Position>
    ensures bytes { (last : ℕ) → last ≤ 255 → rest.now ≡ decimal last → result ≡ Some (Position.Bytes first last) }
    ensures texts { rest.now ≡ [] → result ≡ Some (Position.Texts first) }
{
    if rest.is_empty() {
        return Some(Position::Texts { byte: first });
    }
    let (last, _) = leading_number(rest)?;
    Some(Position::Bytes { first, last })
}

fn bits_from(byte: u8, rest: &[u8]) -> Option<Position>
    ensures { (low count : ℕ) → IsGoodBits byte low count
        → rest.now ≡ decimal low ++ behind_low_bit byte low (bits_end low count)
        → result ≡ Some (Position.Bits byte low count) }
{
    let (low, rest) = leading_number(rest)?;
    match rest {
        [] => Some(Position::Bits {
            byte,
            low,
            count: 1,
        }),
        [b'-', rest @ ..] => bits_to(byte, low, rest),
        _ => None,
    }
}

/// Bits that end as the text says: at a bit of the same byte, or of another.
fn bits_to(byte: u8, low: u8, text: &[u8]) -> Option<Position>
    ensures { (count : ℕ) → IsGoodBits byte low count → text.now ≡ end_text byte (bits_end low count)
        → result ≡ Some (Position.Bits byte low count) }
{
    let (end, rest) = leading_number(text)?;
    match rest {
        [] => bits_between(byte, low, byte, end),
        [b'.', rest @ ..] => {
            let (bit, _) = leading_number(rest)?;
            bits_between(byte, low, end, bit)
        }
        _ => None,
    }
}

/// The bits from one bit to another.
fn bits_between(byte: u8, low: u8, end: u8, bit: u8) -> Option<Position>
    ensures { (count : ℕ) → IsGoodBits byte low count → end ≡ byte + bits_end low count / 8
        → bit ≡ bits_end low count % 8 + 1
        → result ≡ Some (Position.Bits byte low count) }
{
    let bytes = u32::from(end).checked_sub(u32::from(byte))?;
    let count = (bytes * 8 + u32::from(bit) + 1).checked_sub(u32::from(low))?;
    match u8::try_from(count) {
        Ok(count) => Some(Position::Bits { byte, low, count }),
        Err(_) => None,
    }
}

/// The number that a text begins with, and what follows its digits.
fn leading_number(text: &[u8]) -> Option<(u8, &[u8])>
    ensures { (n : ℕ) (rest : List ℕ) → n ≤ 255 → IsAfterDigits rest → text.now ≡ decimal n ++ rest
        → IsSomeAnd result (λ found. (found.0 ≡ n) × (found.1.now ≡ rest)) }
{
    let (digits, rest) = text.split_at(digits_len(text));
    let number = number(digits, 10)?;
    match u8::try_from(number) {
        Ok(number) => Some((number, rest)),
        Err(_) => None,
    }
}

pub(crate) fn digits_len(text: &[u8]) -> usize
    ensures value { result ≡ prefix_len is_digit text.now }
    ensures fits { result ≤ length text.now }
{
    text.iter()
        .take_while(|b| b'0' <= **b && **b <= b'9')
        .count()
}

fn push_number(text: &mut ArrayVec<u8, 32>, number: u8)
    requires { array_vec_len text.old + 3 ≤ 32 }
    ensures items { text.new.items ≡ text.old.items ++ decimal number }
    ensures len { array_vec_len text.new ≤ array_vec_len text.old + 3 }
{
    printing::push_number(text, u64::from(number));
}
