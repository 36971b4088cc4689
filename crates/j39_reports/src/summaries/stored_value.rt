//! Values that outlive their message.
ghost use Rattle.std.specs.Prelude.{◌≡◌, IfOk, OnErr};
ghost use Rattle.j39_groups.specs.Models.{value_of};
ghost use Rattle.j39_memory.specs.Stored.{value_of as stored_value};
ghost use Rattle.j39_reports.specs.RowModels.{kept_value};
ghost use Rattle.j39_reports.specs.SummaryRun.{IsText};

use arrayvec::ArrayVec;
use j39_groups::{Slot, Value};
use j39_io::printing::push_bytes;
use j39_memory::Stored;
use j39_transport::LONGEST;
use std::alloc::{AllocError, Global};

/// A value as a row keeps it; `'t` is how long the table lives.
#[derive(Drop)]
pub enum StoredValue<'t> {
    /// A number, in units of the last printed place, and its scale.
    Number(i64, Slot<'t>),
    On,
    Off,
    Error,
    Reserved,
    Indicator,
    /// A copy of the text.
    Text(Stored<ArrayVec<u8, LONGEST>>),
}

impl<'t> StoredValue<'t> {
    /// The same value. Only a text takes memory.
    #[inline(always)]
    pub fn of(alloc: Global, value: Value<'t, '_>) -> Result<StoredValue<'t>, AllocError>
        ensures kept { IfOk result (λ kept. kept_value kept ≡ value_of value.entry) }
        ensures wanted { OnErr result (IsText (value_of value.entry)) }
    {
        match value {
            Value::Number(number, scale) => Ok(StoredValue::Number(number, scale)),
            Value::On => Ok(StoredValue::On),
            Value::Off => Ok(StoredValue::Off),
            Value::Error => Ok(StoredValue::Error),
            Value::Reserved => Ok(StoredValue::Reserved),
            Value::Indicator => Ok(StoredValue::Indicator),
            Value::Text(text) => match copy_of(alloc, text) {
                Ok(copy) => Ok(StoredValue::Text(copy)),
                Err(AllocError) => Err(AllocError),
            },
        }
    }

    /// Whether it holds memory, which a text alone does.
    #[inline(always)]
    pub(crate) fn is_text(&self) -> bool {
        matches!(self, StoredValue::Text(_))
    }

    /// The value itself.
    pub fn value(&self) -> Value<'t, '_>
        ensures { value_of result ≡ kept_value self.now }
    {
        match self {
            StoredValue::Number(number, scale) => Value::Number(*number, *scale),
            StoredValue::On => Value::On,
            StoredValue::Off => Value::Off,
            StoredValue::Error => Value::Error,
            StoredValue::Reserved => Value::Reserved,
            StoredValue::Indicator => Value::Indicator,
            StoredValue::Text(text) => Value::Text(text.as_slice()),
        }
    }
}

/// A copy of a text. An error comes where memory is refused, and for a text that is longer than any message.
#[inline(never)]
pub(crate) fn copy_of(
    alloc: Global,
    text: &[u8],
) -> Result<Stored<ArrayVec<u8, LONGEST>>, AllocError>
    ensures { IfOk result (λ copy. (stored_value copy).items ≡ text.now) }
{
    if text.len() > LONGEST {
        return Err(AllocError);
    }
    let mut copy = ArrayVec::new();
    push_bytes(&mut copy, text);
    Stored::new(alloc, copy)
}
