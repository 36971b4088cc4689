//! Lists of values in one word, with commas between them.
ghost use Rattle.std.specs.Prelude.{◌≡◌, ◌<◌, ◌≤◌, MatchOption, length, map, option_map};
ghost use Rattle.std.specs.Option.{SomeIff};
ghost use Rattle.j39_cli.specs.Lists.{IsListOf, values_in, words_in};

use arrayvec::ArrayVec;
use std::marker::Model;

/// What stands between the commas of a list.
pub(crate) trait Word {
    ghost use Rattle.std.specs.Prelude.{ℕ, List};

    /// The value that such a word has.
    type Value: Copy + Default;

    // The words that have one.
    ghost IsWord: { List ℕ → Type 0 };

    // What such a word stands for.
    ghost value_of: { List ℕ → Self.Value };

    /// The value of a word.
    fn read(word: &[u8]) -> Option<Self::Value>
        ensures { SomeIff result (IsWord word.now) (value_of word.now) };
}

/// At most 32 values, in the order in which they were given.
#[derive(Drop)]
pub struct Listed<T: Copy + Default> {
    values: ArrayVec<T, 32>,
}

impl<T: Copy + Default> Model for Listed<T> {
    ghost use Rattle.std.specs.Prelude.{List};

    ghost Value = { List T };

    ghost view = { λ list. list.values.items };
}

impl<T: Copy + Default> Listed<T> {
    /// The values themselves.
    pub fn as_slice(&self) -> &[T]
        ensures value { result.now ≡ self.now }
        ensures few { length result.now ≤ 32 }
    {
        self.values.as_slice()
    }
}

/// The values of a list, where there is one.
pub(crate) fn slice_of<T: Copy + Default>(list: &Option<Listed<T>>) -> Option<&[T]>
    ensures { option_map (λ values. values.now) result ≡ list.now }
{
    match list {
        Some(list) => Some(list.as_slice()),
        None => None,
    }
}

/// The values between the commas of a text; `None` where a word has none, and for more than 32.
pub(crate) fn list_of<W: Word>(text: &[u8]) -> Option<Listed<W::Value>>
    ensures { SomeIff result (IsListOf W.IsWord text.now) (values_in W.value_of text.now) }
{
    let words = words_of(text)?;
    let mut values = ArrayVec::new();
    for word in words.as_slice() {
        match W::read(word) {
            Some(value) => values.push(value),
            None => return None,
        }
    }
    Some(Listed { values })
}

/// The words between the commas of a text; `None` for more than 32.
fn words_of(text: &[u8]) -> Option<ArrayVec<&[u8], 32>>
    ensures { MatchOption result (32 < length (words_in text.now)) (λ words. (map (λ word. word.now) words.items ≡ words_in text.now) × (length words.items ≤ 32)) }
{
    let mut words = ArrayVec::new();
    for word in text.split(|b| *b == b',') {
        if words.is_full() {
            return None;
        }
        words.push(word);
    }
    Some(words)
}
