//! What a payload says of each parameter, handed on one by one.
ghost use Rattle.std.specs.Prelude.{IfNone, IfSome, ◌≡◌, ◌∷◌, [], ℕ, List, ◌≤◌, OnOk, OnErr, map, true};
ghost use Rattle.std.specs.List.{flat_map, list_all};
ghost use Rattle.std.specs.Option.{option_map, option_to_list};
ghost use Rattle.j39_groups.specs.Fields.{HasOneValue};
ghost use Rattle.j39_groups.specs.Lines.{text_readings};
ghost use Rattle.j39_groups.specs.Models.{no_slot, reading_of, row_record, scale_record, short_value, value_of};
ghost use Rattle.j39_groups.specs.Readings.{values_at};
ghost use Rattle.j39_groups.specs.Rows.{is_row};
ghost use Rattle.j39_groups.specs.Sightings.{SightingRecord, absent, sightings_at, told};
ghost use Rattle.j39_groups.specs.Visits.{Stops, Takes, row_sightings, visited};
ghost use Rattle.j39_groups.specs.declared.field.Field.TheVariants.{Texts};

use crate::field::Field;
use crate::reading::push_texts;
use crate::row::Row;
use crate::short::Short;
use crate::slot::Slot;
use crate::value::{Reading, Value};
use crate::value_in::{bytes_from, holds_number, number_of, switch_at, value_in};
use arrayvec::ArrayVec;

/// What takes the readings of payloads, one after another, with what it writes to, and is told which parameters are not
/// available; `'t` is how long the table lives.
pub trait ReadingVisitor<'t, M> {
    /// Why it takes no more.
    type Fault;

    // What it takes to it, beside what it is handed.
    ghost Subject: { Type 0 };

    // With its medium it has taken these to it.
    ghost has_taken: { Subject → Self → M → List SightingRecord → Type 0 };

    // Behind these it has stopped at this one.
    ghost has_stopped: { Subject → List SightingRecord → SightingRecord → Self → M → Type 0 };

    /// Takes the next reading: a parameter's number (SPN) and its value. After an `Err` it is handed none.
    fn visit(&mut self, spn: u32, value: Value<'t, '_>, medium: &mut M) -> Result<(), Self::Fault>
        ensures taken { OnOk result (Takes has_taken self.old medium.old self.new medium.new
            (visited spn value.entry ∷ [])) }
        ensures stopped { OnErr result ((subject : Subject) (before : List SightingRecord)
            → has_taken subject self.old medium.old before
            → has_stopped subject before (visited spn value.entry) self.new medium.new) };

    /// Takes that a parameter's number is not available: all its bits are there, and they give no value. After an `Err`
    /// it is handed nothing.
    fn visit_absent(&mut self, spn: u32, medium: &mut M) -> Result<(), Self::Fault>
        ensures taken { OnOk result (Takes has_taken self.old medium.old self.new medium.new (absent spn ∷ [])) }
        ensures stopped { OnErr result ((subject : Subject) (before : List SightingRecord)
            → has_taken subject self.old medium.old before
            → has_stopped subject before (absent spn) self.new medium.new) };
}

/// Hands on these readings.
fn visit_found<'t, M, V: ReadingVisitor<'t, M>>(
    found: &[Reading<'t, '_>],
    visitor: &mut V,
    medium: &mut M,
) -> Result<(), V::Fault>
    ensures taken { OnOk result (Takes V.has_taken visitor.old medium.old visitor.new medium.new
        (map told (map reading_of found.now))) }
    ensures stopped { OnErr result (Stops V.has_taken V.has_stopped visitor.old medium.old visitor.new medium.new
        (map told (map reading_of found.now))) }
{
    for reading in found {
        visitor.visit(reading.spn, reading.value, medium)?;
    }
    Ok(())
}

/// Hands on what a payload says by these rows.
pub(crate) fn visit_rows<'t, M, V: ReadingVisitor<'t, M>>(
    rows: &[Row<'t>],
    bytes: &[u8],
    visitor: &mut V,
    medium: &mut M,
) -> Result<(), V::Fault>
    requires { list_all is_row rows.now ≡ true }
    ensures taken { OnOk result (Takes V.has_taken visitor.old medium.old visitor.new medium.new
        (flat_map (row_sightings bytes.now) rows.now)) }
    ensures stopped { OnErr result (Stops V.has_taken V.has_stopped visitor.old medium.old visitor.new medium.new
        (flat_map (row_sightings bytes.now) rows.now)) }
{
    for row in rows {
        visit_row(row, bytes, visitor, medium)?;
    }
    Ok(())
}

/// Hands on what is said by one row.
#[inline(always)]
fn visit_row<'t, M, V: ReadingVisitor<'t, M>>(
    row: &Row<'t>,
    bytes: &[u8],
    visitor: &mut V,
    medium: &mut M,
) -> Result<(), V::Fault>
    requires { is_row row.now ≡ true }
    ensures taken { OnOk result (Takes V.has_taken visitor.old medium.old visitor.new medium.new
        (sightings_at bytes.now (row_record row.now))) }
    ensures stopped { OnErr result (Stops V.has_taken V.has_stopped visitor.old medium.old visitor.new medium.new
        (sightings_at bytes.now (row_record row.now))) }
{
    match &row.field {
        Field::Number { first, last, scale } => visit_short(
            row,
            bytes,
            number_of(bytes, *first, *last, scale),
            scale,
            visitor,
            medium,
        ),
        Field::Switch { byte, low, .. } => visit_switch(
            row,
            bytes,
            switch_at(bytes, *byte, *low),
            visitor,
            medium,
        ),
        _ => visit_other(row, bytes, visitor, medium),
    }
}

/// Hands on the number or the word in a number's place, where there is one.
#[inline(always)]
fn visit_short<'t, M, V: ReadingVisitor<'t, M>>(
    row: &Row<'t>,
    bytes: &[u8],
    short: Option<Short>,
    scale: &Slot<'t>,
    visitor: &mut V,
    medium: &mut M,
) -> Result<(), V::Fault>
    requires row { is_row row.now ≡ true }
    requires read { option_to_list (option_map (short_value (scale_record scale.now)) short)
        ≡ values_at bytes.now (row_record row.now).field }
    ensures taken { OnOk result (Takes V.has_taken visitor.old medium.old visitor.new medium.new
        (sightings_at bytes.now (row_record row.now))) }
    ensures stopped { OnErr result (Stops V.has_taken V.has_stopped visitor.old medium.old visitor.new medium.new
        (sightings_at bytes.now (row_record row.now))) }
{
    match short {
        None => visit_nothing(row, bytes, visitor, medium),
        Some(Short::Number(number)) => {
            visitor.visit(row.spn, Value::Number(number, *scale), medium)
        }
        Some(word) => visit_word(row.spn, word, scale, visitor, medium),
    }
}

/// Hands on what a switch says, where it says something.
#[inline(always)]
fn visit_switch<'t, M, V: ReadingVisitor<'t, M>>(
    row: &Row<'t>,
    bytes: &[u8],
    word: Option<Short>,
    visitor: &mut V,
    medium: &mut M,
) -> Result<(), V::Fault>
    requires row { is_row row.now ≡ true }
    requires read { option_to_list (option_map (short_value no_slot) word)
        ≡ values_at bytes.now (row_record row.now).field }
    ensures taken { OnOk result (Takes V.has_taken visitor.old medium.old visitor.new medium.new
        (sightings_at bytes.now (row_record row.now))) }
    ensures stopped { OnErr result (Stops V.has_taken V.has_stopped visitor.old medium.old visitor.new medium.new
        (sightings_at bytes.now (row_record row.now))) }
{
    match word {
        None => visit_nothing(row, bytes, visitor, medium),
        Some(word) => visit_said(row.spn, word, visitor, medium),
    }
}

/// Hands on a word that a switch says.
#[inline(never)]
fn visit_said<'t, M, V: ReadingVisitor<'t, M>>(
    spn: u32,
    word: Short,
    visitor: &mut V,
    medium: &mut M,
) -> Result<(), V::Fault>
    ensures taken { OnOk result (Takes V.has_taken visitor.old medium.old visitor.new medium.new
        (told (record { spn = spn; value = short_value no_slot word }) ∷ [])) }
    ensures stopped { OnErr result (Stops V.has_taken V.has_stopped visitor.old medium.old visitor.new medium.new
        (told (record { spn = spn; value = short_value no_slot word }) ∷ [])) }
{
    visitor.visit(spn, word.with(Slot::NONE), medium)
}

/// Hands on a word, which few values are.
#[inline(never)]
fn visit_word<'t, M, V: ReadingVisitor<'t, M>>(
    spn: u32,
    word: Short,
    scale: &Slot<'t>,
    visitor: &mut V,
    medium: &mut M,
) -> Result<(), V::Fault>
    ensures taken { OnOk result (Takes V.has_taken visitor.old medium.old visitor.new medium.new
        (told (record { spn = spn; value = short_value (scale_record scale.now) word }) ∷ [])) }
    ensures stopped { OnErr result (Stops V.has_taken V.has_stopped visitor.old medium.old visitor.new medium.new
        (told (record { spn = spn; value = short_value (scale_record scale.now) word }) ∷ [])) }
{
    visitor.visit(spn, word.with(*scale), medium)
}

/// Hands on that the number of a row without a value is not available, where the payload has all its bits.
#[inline(never)]
fn visit_nothing<'t, M, V: ReadingVisitor<'t, M>>(
    row: &Row<'t>,
    bytes: &[u8],
    visitor: &mut V,
    medium: &mut M,
) -> Result<(), V::Fault>
    requires row { is_row row.now ≡ true }
    requires nothing { values_at bytes.now (row_record row.now).field ≡ [] }
    ensures taken { OnOk result (Takes V.has_taken visitor.old medium.old visitor.new medium.new
        (sightings_at bytes.now (row_record row.now))) }
    ensures stopped { OnErr result (Stops V.has_taken V.has_stopped visitor.old medium.old visitor.new medium.new
        (sightings_at bytes.now (row_record row.now))) }
{
    if holds_number(bytes, &row.field) {
        visitor.visit_absent(row.spn, medium)
    } else {
        Ok(())
    }
}

/// The same as for a number or a switch, by a row of whatever field.
#[inline(never)]
fn visit_other<'t, M, V: ReadingVisitor<'t, M>>(
    row: &Row<'t>,
    bytes: &[u8],
    visitor: &mut V,
    medium: &mut M,
) -> Result<(), V::Fault>
    requires { is_row row.now ≡ true }
    ensures taken { OnOk result (Takes V.has_taken visitor.old medium.old visitor.new medium.new
        (sightings_at bytes.now (row_record row.now))) }
    ensures stopped { OnErr result (Stops V.has_taken V.has_stopped visitor.old medium.old visitor.new medium.new
        (sightings_at bytes.now (row_record row.now))) }
{
    match texts_of(row.field) {
        Some((byte, count)) => visit_texts(
            row.spn,
            bytes_from(bytes, byte),
            count,
            visitor,
            medium,
        ),
        None => visit_value(row, bytes, value_in(bytes, row.field), visitor, medium),
    }
}

/// The first byte of several texts, and how many they are at most; `None` for any other field.
#[inline(always)]
fn texts_of(field: Field<'_>) -> Option<(u8, u8)>
    ensures some { IfSome result (λ texts. field.entry ≡ Texts texts.0 texts.1) }
    ensures none { IfNone result (HasOneValue field.entry) }
{
    match field {
        Field::Number { .. } => None,
        Field::Bits { .. } => None,
        Field::Full { .. } => None,
        Field::Switch { .. } => None,
        Field::Text { .. } => None,
        Field::Texts { byte, count } => Some((byte, count)),
    }
}

/// Hands on the reading of a value, where there is one.
#[inline(always)]
fn visit_value<'t, M, V: ReadingVisitor<'t, M>>(
    row: &Row<'t>,
    bytes: &[u8],
    value: Option<Value<'t, '_>>,
    visitor: &mut V,
    medium: &mut M,
) -> Result<(), V::Fault>
    requires row { is_row row.now ≡ true }
    requires read { option_to_list (option_map value_of value) ≡ values_at bytes.now (row_record row.now).field }
    ensures taken { OnOk result (Takes V.has_taken visitor.old medium.old visitor.new medium.new
        (sightings_at bytes.now (row_record row.now))) }
    ensures stopped { OnErr result (Stops V.has_taken V.has_stopped visitor.old medium.old visitor.new medium.new
        (sightings_at bytes.now (row_record row.now))) }
{
    match value {
        Some(value) => visitor.visit(row.spn, value, medium),
        None => visit_nothing(row, bytes, visitor, medium),
    }
}

/// Hands on the readings of the first `count` texts of a payload.
#[inline(never)]
fn visit_texts<'t, M, V: ReadingVisitor<'t, M>>(
    spn: u32,
    bytes: &[u8],
    count: u8,
    visitor: &mut V,
    medium: &mut M,
) -> Result<(), V::Fault>
    requires { count ≤ 31 }
    ensures taken { OnOk result (Takes V.has_taken visitor.old medium.old visitor.new medium.new
        (map told (text_readings spn bytes.now count))) }
    ensures stopped { OnErr result (Stops V.has_taken V.has_stopped visitor.old medium.old visitor.new medium.new
        (map told (text_readings spn bytes.now count))) }
{
    let mut found = ArrayVec::new();
    push_texts(&mut found, spn, bytes, count);
    visit_found(found.as_slice(), visitor, medium)
}
