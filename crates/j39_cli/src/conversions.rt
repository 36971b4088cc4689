//! By which versions of their conversion SPNs are read.
ghost use Rattle.std.specs.Prelude.{◌≡◌, ◌≤◌, length};
ghost use Rattle.std.specs.Option.{SomeIff};
ghost use Rattle.j39_cli.specs.Conversions.{IsNamed, IsVersion, named_in, version_in};

use crate::lists::{Listed, Word};
use j39_faults::{Conversion, Version};
use j39_io::number;

/// At most 32 conversions, in the order in which they were given.
pub type Conversions = Listed<Conversion>;

/// A version for all controllers, 1 to 3; or the NAME of one, 16 hex digits, `=` and a version.
pub(crate) struct ConversionWord;

impl Word for ConversionWord {
    ghost use Rattle.j39_cli.specs.Conversions.{IsConversion, conversion_in};

    type Value = Conversion;

    ghost IsWord = { IsConversion };

    ghost value_of = { conversion_in };

    fn read(word: &[u8]) -> Option<Conversion> {
        if word.len() <= 16 {
            let version = version_of(word)?;
            return Some(Conversion {
                name: None,
                version,
            });
        }
        let (name, behind) = word.split_at(16);
        named_of(name, behind)
    }
}

/// The conversion of the digits of a NAME and what stands behind them.
fn named_of(name: &[u8], behind: &[u8]) -> Option<Conversion>
    requires name { length name.now ≡ 16 }
    requires behind { 1 ≤ length behind.now }
    ensures { SomeIff result (IsNamed name.now behind.now) (named_in name.now behind.now) }
{
    let (equal, digit) = behind.split_at(1);
    if equal != b"=".as_slice() {
        return None;
    }
    match number(name, 16) {
        None => None,
        Some(name) => match version_of(digit) {
            None => None,
            Some(version) => Some(Conversion {
                name: Some(name),
                version,
            }),
        },
    }
}

fn version_of(text: &[u8]) -> Option<Version>
    ensures { SomeIff result (IsVersion text.now) (version_in text.now) }
{
    if text == b"1".as_slice() {
        Some(Version::One)
    } else if text == b"2".as_slice() {
        Some(Version::Two)
    } else if text == b"3".as_slice() {
        Some(Version::Three)
    } else {
        None
    }
}
