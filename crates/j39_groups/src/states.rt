//! The names of a parameter's states, behind its name in a row (own).
ghost use Rattle.std.specs.Prelude.{◌≡◌, ◌≤◌, ◌==◌, IfSome, None, Some, if◌then◌else◌, length, slice_get};
ghost use Rattle.std.specs.List.{filter_map, slice_split};
ghost use Rattle.std.specs.Option.{option_map};
ghost use Rattle.j39_io.specs.Records.{comma};
ghost use Rattle.j39_groups.specs.Models.{field_record, row_record, scale_record, value_of};
ghost use Rattle.j39_groups.specs.Value.{ValueRecord};
ghost use Rattle.j39_groups.specs.States.{called, error_in, indicator_in, name_len, raw_behind, state_by, state_front, state_named, state_words, states_part, steps_up};

use crate::field::Field;
use crate::row::Row;
use crate::slot::Slot;
use crate::value::Value;
use arrayvec::ArrayVec;
use j39_io::printing::push_number;

/// What a parameter is called, and what stands behind that: nothing, or ` = ` and the names of its states.
pub fn split_states(name: &[u8]) -> (&[u8], &[u8])
    ensures called { result.0.now ≡ called name.now }
    ensures states { result.1.now ≡ states_part name.now }
{
    name.split_at(name_len(name))
}

/// What a parameter is called, without the names of its states.
pub(crate) fn called(name: &[u8]) -> &[u8]
    ensures { result.now ≡ called name.now }
{
    let (called, _) = split_states(name);
    called
}

/// How many bytes come before the first ` = `. Few names have an `=`.
fn name_len(name: &[u8]) -> usize
    ensures value { result ≡ name_len name.now }
    ensures fits { result ≤ length name.now }
{
    if !name.contains(&b'=') {
        return name.len();
    }
    let mut at = 0;
    'bytes: while at < name.len() {
        if name[at..].starts_with(b" = ") {
            return at;
        }
        at += 1;
    }
    at
}

/// The words of a state of this raw number; `None` of any other text.
pub fn state_words(state: &[u8], raw: u64) -> Option<&[u8]>
    ensures { option_map (λ words. words.now) result ≡ state_words raw state.now }
{
    words_behind(state, state_front(raw).as_slice(), raw)
}

/// The words behind what a state of this raw number begins with.
#[tactic(auto, unfolding(crate::specs::States::state_words))]
fn words_behind<'s>(state: &'s [u8], front: &[u8], raw: u64) -> Option<&'s [u8]>
    requires { front.now ≡ state_front raw }
    ensures { option_map (λ words. words.now) result ≡ state_words raw state.entry.now }
{
    if state.starts_with(front) {
        let (_, words) = state.split_at(front.len());
        Some(words)
    } else {
        None
    }
}

/// What a state of this raw number begins with.
#[tactic(auto, using(crate::proofs::StateLemmas::short_decimal))]
fn state_front(raw: u64) -> ArrayVec<u8, 24>
    ensures { result.items ≡ state_front raw }
{
    let mut front = ArrayVec::new();
    front.push(b' ');
    push_number(&mut front, raw);
    front.push(b' ');
    front
}

/// What the first state of this raw number is called, in the text of a name.
fn state_named(name: &[u8], raw: u64) -> Option<&[u8]>
    ensures { option_map (λ words. words.now) result ≡ state_named name.now raw }
{
    let (_, part) = split_states(name);
    if part.len() < 2 {
        return None;
    }
    first_state(&part[2..], raw)
}

/// What the first state of this raw number is called, of those between commas.
fn first_state(states: &[u8], raw: u64) -> Option<&[u8]>
    ensures { option_map (λ words. words.now) result
        ≡ slice_get (filter_map (state_words raw) (slice_split (λ b. b == comma) states.now)) 0 }
{
    let front = state_front(raw);
    for state in states.split(|b| *b == b',') {
        if let Some(words) = words_behind(state, front.as_slice(), raw) {
            return Some(words);
        }
    }
    None
}

impl Slot<'_> {
    /// How many steps a number is above the offset; `None` below it, and between two steps.
    #[tactic(auto, unfolding(crate::specs::States::steps_up))]
    fn steps_up(self, number: i64) -> Option<u64>
        ensures { result ≡ steps_up number (scale_record self.entry) }
    {
        if number < self.offset || self.step == 0 {
            return None;
        }
        let distance = number.abs_diff(self.offset);
        if distance % self.step == 0 {
            Some(distance / self.step)
        } else {
            None
        }
    }
}

impl Field<'_> {
    /// The raw number that a value of the field stands for, where it is one alone.
    #[tactic(auto, unfolding(crate::specs::States::raw_behind))]
    fn raw_behind(self, value: Value<'_, '_>) -> Option<u64>
        ensures { result ≡ raw_behind (field_record self.entry) (value_of value.entry) }
    {
        match value {
            Value::Number(number, scale) => scale.steps_up(number),
            Value::On => Some(1),
            Value::Off => Some(0),
            Value::Error => self.error(),
            Value::Reserved => None,
            Value::Indicator => self.indicator(),
            Value::Text(_) => None,
        }
    }

    /// The one raw number that is an error (J1939-71, 5.1.4).
    #[tactic(auto, unfolding(crate::specs::States::error_in))]
    fn error(self) -> Option<u64>
        ensures { result ≡ error_in (field_record self.entry) }
    {
        match self {
            Field::Number { first, last, .. } => one_if(first == last, 0xFE),
            Field::Bits { count, .. } => error_of_bits(count),
            Field::Full { .. } => None,
            Field::Switch { .. } => Some(2),
            Field::Text { .. } => None,
            Field::Texts { .. } => None,
        }
    }

    /// The one raw number that is an indicator.
    #[tactic(auto, unfolding(crate::specs::States::indicator_in))]
    fn indicator(self) -> Option<u64>
        ensures { result ≡ indicator_in (field_record self.entry) }
    {
        match self {
            Field::Number { first, last, .. } => one_if(first == last, 0xFB),
            Field::Bits { count, .. } => one_if(count == 8, 0xFB),
            Field::Full { .. } => None,
            Field::Switch { .. } => None,
            Field::Text { .. } => None,
            Field::Texts { .. } => None,
        }
    }
}

/// The error of a number of so many bits.
fn error_of_bits(count: u8) -> Option<u64>
    ensures { result ≡ if count == 2 then Some 2 else (if count == 8 then Some 0xFE else None) }
{
    match count {
        2 => Some(2),
        8 => Some(0xFE),
        _ => None,
    }
}

fn one_if(is_one: bool, raw: u64) -> Option<u64>
    ensures { result ≡ if is_one then Some raw else None }
{
    if is_one { Some(raw) } else { None }
}

/// What the parameter of a row is called, and the state of a value. Most rows name no states.
pub(crate) fn called_by<'r>(row: &'r Row<'_>, value: Value<'_, '_>) -> (&'r [u8], Option<&'r [u8]>)
    ensures called { result.0.now ≡ called (row_record row.now).name }
    ensures state { option_map (λ words. words.now) result.1 ≡ state_by (value_of value.entry) (row_record row.now) }
{
    let (called, part) = split_states(row.name);
    if part.is_empty() {
        return (called, None);
    }
    (called, state_by(row, value))
}

/// What the parameter of a row is called, where the row names no states.
pub(crate) fn called_alone<'r>(row: &'r Row<'_>) -> Option<&'r [u8]>
    ensures called { IfSome result (λ name. called (row_record row.now).name ≡ name.now) }
    ensures alone { IfSome result (λ name. (value : ValueRecord) → state_by value (row_record row.now) ≡ None) }
{
    let (called, part) = split_states(row.name);
    if part.is_empty() { Some(called) } else { None }
}

/// What the state of a value is called, by a row.
#[tactic(auto, unfolding(crate::specs::States::state_by))]
pub(crate) fn state_by<'r>(row: &'r Row<'_>, value: Value<'_, '_>) -> Option<&'r [u8]>
    ensures { option_map (λ words. words.now) result ≡ state_by (value_of value.entry) (row_record row.now) }
{
    match row.field.raw_behind(value) {
        Some(raw) => state_named(row.name, raw),
        None => None,
    }
}
