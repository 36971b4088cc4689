//! What is kept of the values of one origin.
ghost use Rattle.std.specs.Prelude.{◌≡◌, ◌==◌, ◌+◌, ◌-◌, ◌^◌, if◌then◌else◌, None, OnErr, OnOk, IfOk, Some};
ghost use Rattle.std.specs.Option.{option_map};
ghost use Rattle.j39_frame.specs.Stamp.{stamp_micros};
ghost use Rattle.j39_groups.specs.Models.{scale_record, value_of};
ghost use Rattle.j39_groups.specs.Value.{number, text as text_value};
ghost use Rattle.j39_listen.specs.Counting.{capped};
ghost use Rattle.j39_reports.specs.RowsSoFar.{begun, grown, one_if, widened};
ghost use Rattle.j39_reports.specs.RowModels.{entry_at, range_of_span, row_shown};
ghost use Rattle.j39_reports.specs.SummaryRun.{IsText};
ghost use Rattle.j39_reports.specs.Summary.{are_comparable, is_word_value, number_in};
ghost use Rattle.j39_frame.specs.declared.origin.Origin.{Origin};

use crate::summaries::stored_value::{StoredValue, copy_of};
use j39_frame::Stamp;
use j39_groups::{Slot, Value};
use j39_memory::OriginChange;
use std::alloc::{AllocError, Global};

/// A value with its moment.
#[derive(Drop)]
pub struct Sample<'t> {
    pub stamp: Stamp,
    pub value: StoredValue<'t>,
}

/// The least and the most number, in units of the last printed place, and the scale of the first.
#[derive(Clone, Copy)]
pub(crate) struct NumberRange<'t> {
    pub scale: Slot<'t>,
    pub least: i64,
    pub most: i64,
}

/// What the values of one origin did. A count that would pass 2^64 - 1 stays there (own).
#[derive(Drop)]
pub(crate) struct Statistics<'t> {
    pub count: u64,
    pub words: u64,
    pub first: Sample<'t>,
    pub last: Sample<'t>,
    pub range: Option<NumberRange<'t>>,
    /// Where the row stands that leads those of its sender, destination, NAME and group.
    pub lead: usize,
}

impl<'t> Statistics<'t> {
    /// Those of one value. Only a text takes memory.
    pub fn begin(
        alloc: Global,
        lead: usize,
        stamp: Stamp,
        value: Value<'t, '_>,
    ) -> Result<Statistics<'t>, AllocError>
        ensures begun { IfOk result (λ statistics. (origin : Origin)
            → row_shown (origin, statistics) ≡ begun (entry_at origin (stamp_micros stamp) (value_of value.entry))) }
        ensures lead { IfOk result (λ statistics. statistics.lead ≡ lead) }
        ensures wanted { OnErr result (IsText (value_of value.entry)) }
    {
        let first = StoredValue::of(alloc, value)?;
        let last = StoredValue::of(alloc, value)?;
        Ok(Statistics {
            count: 1,
            words: u64::from(is_word(value)),
            first: Sample {
                stamp,
                value: first,
            },
            last: Sample { stamp, value: last },
            range: span_of(value),
            lead,
        })
    }

    /// One value more. Only a text takes memory.
    #[inline(always)]
    pub fn grow(
        &mut self,
        alloc: Global,
        stamp: Stamp,
        value: Value<'t, '_>,
    ) -> Result<(), AllocError>
        ensures grown { OnOk result ((origin : Origin) → row_shown (origin, self.new)
            ≡ grown (row_shown (origin, self.old)) (entry_at origin (stamp_micros stamp) (value_of value.entry))) }
        ensures wanted { OnErr result (IsText (value_of value.entry)) }
        ensures lead { self.new.lead ≡ self.old.lead }
    {
        match value {
            Value::Number(number, scale) => self.grow_by_number(stamp, number, scale),
            Value::On => self.put(stamp, StoredValue::On, false),
            Value::Off => self.put(stamp, StoredValue::Off, false),
            Value::Error => self.put(stamp, StoredValue::Error, true),
            Value::Reserved => self.put(stamp, StoredValue::Reserved, true),
            Value::Indicator => self.put(stamp, StoredValue::Indicator, true),
            Value::Text(text) => return self.grow_by_text(alloc, stamp, text),
        }
        Ok(())
    }

    /// One text more, off the quick path.
    #[inline(never)]
    fn grow_by_text(&mut self, alloc: Global, stamp: Stamp, text: &[u8]) -> Result<(), AllocError>
        ensures grown { OnOk result ((origin : Origin) → row_shown (origin, self.new)
            ≡ grown (row_shown (origin, self.old)) (entry_at origin (stamp_micros stamp) (text_value text.now))) }
        ensures lead { self.new.lead ≡ self.old.lead }
    {
        let copy = copy_of(alloc, text)?;
        self.put(stamp, StoredValue::Text(copy), false);
        Ok(())
    }

    /// One number more.
    #[inline(always)]
    fn grow_by_number(&mut self, stamp: Stamp, value: i64, scale: Slot<'t>)
        ensures grown { (origin : Origin) → row_shown (origin, self.new)
            ≡ grown (row_shown (origin, self.old))
            (entry_at origin (stamp_micros stamp) (number value (scale_record scale.entry))) }
        ensures lead { self.new.lead ≡ self.old.lead }
    {
        widen(&mut self.range, value, scale);
        self.put(stamp, StoredValue::Number(value, scale), false);
    }

    /// The last value is another one, and counts.
    #[inline(always)]
    fn put(&mut self, stamp: Stamp, value: StoredValue<'t>, is_word: bool)
        ensures count { self.new.count ≡ capped (self.old.count + 1) }
        ensures words { self.new.words ≡ capped (self.old.words + one_if is_word) }
        ensures first { self.new.first ≡ self.old.first }
        ensures last { self.new.last ≡ record { stamp = stamp; value = value.entry } }
        ensures range { self.new.range ≡ self.old.range }
        ensures lead { self.new.lead ≡ self.old.lead }
    {
        self.count = self.count.wrapping_add(1);
        self.words = self.words.saturating_add(u64::from(is_word));
        self.last.stamp = stamp;
        if self.count == 0 || self.last.value.is_text() {
            self.put_rarely(value);
            return;
        }
        self.last.value = value;
    }

    /// What a row seldom has: a text to give back, or a count that passed 2^64 - 1, where it is to stay.
    #[inline(never)]
    fn put_rarely(&mut self, value: StoredValue<'t>)
        ensures count { self.new.count ≡ if self.old.count == 0 then 2 ^ 64 - 1 else self.old.count }
        ensures words { self.new.words ≡ self.old.words }
        ensures first { self.new.first ≡ self.old.first }
        ensures last { self.new.last ≡ record { stamp = self.old.last.stamp; value = value.entry } }
        ensures range { self.new.range ≡ self.old.range }
        ensures lead { self.new.lead ≡ self.old.lead }
    {
        if self.count == 0 {
            self.count = u64::MAX;
        }
        self.last.value = value;
    }
}

/// One value more of an origin that has a row.
#[derive(Clone, Copy)]
pub(crate) struct AddedValue<'t, 'v> {
    pub alloc: Global,
    pub stamp: Stamp,
    pub value: Value<'t, 'v>,
}

impl<'t, 'v> OriginChange<Statistics<'t>> for AddedValue<'t, 'v> {
    ghost use Rattle.std.specs.Prelude.{◌≡◌, OnErr, OnOk};
    ghost use Rattle.j39_groups.specs.Models.{value_of};
    ghost use Rattle.j39_reports.specs.RowsSoFar.{HasGrown};
    ghost use Rattle.j39_reports.specs.SummaryRun.{IsText};

    ghost changes = { λ more old result new. OnOk result (HasGrown old (stamp_micros more.stamp)
        (value_of more.value) new) × (OnErr result (IsText (value_of more.value)) × (new.lead ≡ old.lead)) };

    #[inline(always)]
    fn make(self, statistics: &mut Statistics<'t>) -> Result<(), AllocError> {
        statistics.grow(self.alloc, self.stamp, self.value)
    }
}

/// Whether a value is a word that stands in the place of a number.
#[inline(always)]
fn is_word(value: Value<'_, '_>) -> bool
    ensures { result ≡ is_word_value (value_of value.entry) }
{
    match value {
        Value::Number(_, _) => false,
        Value::On => false,
        Value::Off => false,
        Value::Error => true,
        Value::Reserved => true,
        Value::Indicator => true,
        Value::Text(_) => false,
    }
}

/// The range of one value.
fn span_of<'t>(value: Value<'t, '_>) -> Option<NumberRange<'t>>
    ensures { option_map range_of_span result ≡ widened None (number_in (value_of value.entry)) }
{
    match value {
        Value::Number(number, scale) => Some(NumberRange::of(number, scale)),
        Value::On => None,
        Value::Off => None,
        Value::Error => None,
        Value::Reserved => None,
        Value::Indicator => None,
        Value::Text(_) => None,
    }
}

/// Whether numbers of both can be compared: they have as many places, and one unit.
#[inline(always)]
fn are_comparable(a: Slot<'_>, b: Slot<'_>) -> bool
    ensures { result ≡ are_comparable (scale_record a.entry) (scale_record b.entry) }
{
    a.places() == b.places() && a.unit() == b.unit()
}

/// The range has a number more.
#[inline(always)]
fn widen<'t>(range: &mut Option<NumberRange<'t>>, number: i64, scale: Slot<'t>)
    ensures { option_map range_of_span range.new ≡ widened (option_map range_of_span range.old)
        (Some (record { value = number; slot = scale_record scale.entry })) }
{
    match range {
        None => *range = Some(NumberRange::of(number, scale)),
        Some(span) => span.widen(number, scale),
    }
}

impl<'t> NumberRange<'t> {
    /// That of one number.
    #[inline(always)]
    fn of(number: i64, scale: Slot<'t>) -> NumberRange<'t>
        ensures { Some (range_of_span result) ≡ widened None
            (Some (record { value = number; slot = scale_record scale.entry })) }
    {
        NumberRange {
            scale,
            least: number,
            most: number,
        }
    }

    /// It has a number more, where that can be compared with the first.
    #[inline(always)]
    fn widen(&mut self, number: i64, scale: Slot<'t>)
        ensures { Some (range_of_span self.new) ≡ widened (Some (range_of_span self.old))
            (Some (record { value = number; slot = scale_record scale.entry })) }
    {
        // Most numbers lie within, whatever they are compared with.
        if number < self.least || self.most < number {
            self.move_bounds(number, scale);
        }
    }

    /// A bound moves to a number, where that can be compared with the first.
    #[inline(never)]
    fn move_bounds(&mut self, number: i64, scale: Slot<'t>)
        ensures { Some (range_of_span self.new) ≡ widened (Some (range_of_span self.old))
            (Some (record { value = number; slot = scale_record scale.entry })) }
    {
        if are_comparable(self.scale, scale) {
            self.least = self.least.min(number);
            self.most = self.most.max(number);
        }
    }
}
