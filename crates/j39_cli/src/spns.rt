//! Parameters that are asked for.
use crate::cut_values::number_below;
use crate::lists::{Listed, Word};

/// A number of a parameter is of 19 bits (J1939-73, 5.7.1.8).
const SPN_LIMIT: u64 = 1 << 19;

/// At most 32 parameters (SPN), in the order in which they were asked for.
pub type Spns = Listed<u32>;

/// The number of a parameter, in decimal.
pub(crate) struct SpnWord;

impl Word for SpnWord {
    ghost use Rattle.std.specs.Prelude.{◌^◌};
    ghost use Rattle.std.specs.Str.Parse.{digits_value};
    ghost use Rattle.j39_cli.specs.Numbers.{IsNumberBelow};

    type Value = u32;

    ghost IsWord = { IsNumberBelow (2 ^ 19) };

    ghost value_of = { digits_value 10 };

    fn read(word: &[u8]) -> Option<u32> {
        let number = number_below(word, SPN_LIMIT)?;
        Some(number as u32)
    }
}
