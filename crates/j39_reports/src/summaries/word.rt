//! Values that are words.
ghost use Rattle.std.specs.Prelude.{◌≡◌, IfSome};
ghost use Rattle.j39_groups.specs.Models.{value_of};
ghost use Rattle.j39_reports.specs.RowModels.{word_value};

use j39_groups::Value;

/// A value that is no number and no text: small enough to be handed on in a register.
#[derive(Clone, Copy)]
pub(crate) enum Word {
    On,
    Off,
    Error,
    Reserved,
    Indicator,
}

impl Word {
    /// That of a value, if it is one.
    #[inline(always)]
    pub fn of(value: Value<'_, '_>) -> Option<Word>
        ensures { IfSome result (λ word. word_value word ≡ value_of value.entry) }
    {
        match value {
            Value::On => Some(Word::On),
            Value::Off => Some(Word::Off),
            Value::Error => Some(Word::Error),
            Value::Reserved => Some(Word::Reserved),
            Value::Indicator => Some(Word::Indicator),
            Value::Number(_, _) => None,
            Value::Text(_) => None,
        }
    }

    /// The value itself.
    #[inline(always)]
    pub fn value<'t, 'v>(self) -> Value<'t, 'v>
        ensures { value_of result ≡ word_value self }
    {
        match self {
            Word::On => Value::On,
            Word::Off => Value::Off,
            Word::Error => Value::Error,
            Word::Reserved => Value::Reserved,
            Word::Indicator => Value::Indicator,
        }
    }
}
