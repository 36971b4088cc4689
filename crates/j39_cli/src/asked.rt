//! What is asked for of what a log has.
ghost use Rattle.std.specs.Prelude.{◌≡◌, ◌≢◌, ◌↔◌, Err, true};
ghost use Rattle.std.specs.Option.{SomeIff};
ghost use Rattle.clap.specs.Words.{App, found_of};
ghost use Rattle.j39_listen.specs.Chooses.{which_of};
ghost use Rattle.j39_listen.specs.Filter.{filter_of, no_filter};
ghost use Rattle.j39_cli.specs.Answer.{AreChecked, IsRead};
ghost use Rattle.j39_cli.specs.Asked.{IsAsked, IsMoment, IsStamp, asked_checks, asked_found, filter_in, moment_in, stamp_in, with_asked};
ghost use Rattle.j39_cli.specs.Rules.{IsMade};

use crate::command::with_option;
use crate::cut_values::number_below;
use crate::lists::{Listed, Word, slice_of};
use crate::seconds::{behind_first, micros_of};
use crate::spns::{SpnWord, Spns};
use crate::utc::{is_utc, utc_of};
use crate::words::{list_value, moment_value};
use crate::{Argument, ParseFault};
use clap::{ArgMatches, Command};
use j39_address::Name;
use j39_io::number;
use j39_listen::{Filter, Moment, Sender};
use std::alloc::{AllocError, Global};

/// A number of a group is of 18 bits (J1939-21, 5.2).
const PGN_LIMIT: u64 = 1 << 18;

/// At most 32 senders, in the order in which they were asked for.
pub type Senders = Listed<Sender>;

/// At most 32 addresses, in the order in which they were asked for.
pub type Addresses = Listed<u8>;

/// At most 32 groups (PGN), in the order in which they were asked for.
pub type Pgns = Listed<u32>;

/// What is asked for; where a part isn't given, all.
#[derive(Drop)]
pub struct Asked {
    /// The parameters, `--spn`.
    pub spns: Option<Spns>,
    /// The senders, `--from`.
    pub from: Option<Senders>,
    /// The destinations, `--to`.
    pub to: Option<Addresses>,
    /// The groups, `--pgn`.
    pub pgns: Option<Pgns>,
    /// The first moment, `--since`.
    pub since: Option<Moment>,
    /// The last moment, `--until`.
    pub until: Option<Moment>,
}

impl Asked {
    /// Whether all are, but for parameters.
    pub(crate) fn is_everything(&self) -> bool
        ensures { (result ≡ true) ↔ (filter_in self.now ≡ no_filter) }
    {
        self.from.is_none()
            && self.to.is_none()
            && self.pgns.is_none()
            && self.since.is_none()
            && self.until.is_none()
    }

    /// The filter that takes these; none where all are asked for.
    pub(crate) fn filter_given(&self) -> Option<Filter<'_>>
        ensures { which_of result ≡ filter_in self.now }
    {
        if self.is_everything() {
            None
        } else {
            Some(self.filter())
        }
    }

    /// The filter that takes these.
    pub(crate) fn filter(&self) -> Filter<'_>
        ensures { filter_of result ≡ filter_in self.now }
    {
        Filter {
            from: slice_of(&self.from),
            to: slice_of(&self.to),
            pgns: slice_of(&self.pgns),
            since: self.since,
            until: self.until,
        }
    }
}

/// One or two hex digits of an address, or the 16 of a NAME.
pub(crate) struct SenderWord;

impl Word for SenderWord {
    ghost use Rattle.j39_cli.specs.Asked.{IsSender, sender_in};

    type Value = Sender;

    ghost IsWord = { IsSender };

    ghost value_of = { sender_in };

    #[tactic(auto, using(crate::proofs::DigitLemmas::two_digits, crate::proofs::DigitLemmas::sixteen_digits))]
    fn read(word: &[u8]) -> Option<Sender> {
        let n = word.len();
        if n == 0 || n > 2 && n != 16 {
            return None;
        }
        let value = number(word, 16)?;
        if n <= 2 {
            Some(Sender::Address(value as u8))
        } else {
            Some(Sender::Named(Name::new(value)))
        }
    }
}

/// One or two hex digits of an address.
pub(crate) struct AddressWord;

impl Word for AddressWord {
    ghost use Rattle.std.specs.Str.Parse.{digits_value};
    ghost use Rattle.j39_cli.specs.Asked.{IsAddressWord};

    type Value = u8;

    ghost IsWord = { IsAddressWord };

    ghost value_of = { digits_value 16 };

    #[tactic(auto, using(crate::proofs::DigitLemmas::two_digits))]
    fn read(word: &[u8]) -> Option<u8> {
        if word.is_empty() || word.len() > 2 {
            return None;
        }
        let value = number(word, 16)?;
        Some(value as u8)
    }
}

/// The number of a group, in decimal.
pub(crate) struct PgnWord;

impl Word for PgnWord {
    ghost use Rattle.std.specs.Prelude.{◌^◌};
    ghost use Rattle.std.specs.Str.Parse.{digits_value};
    ghost use Rattle.j39_cli.specs.Numbers.{IsNumberBelow};

    type Value = u32;

    ghost IsWord = { IsNumberBelow (2 ^ 18) };

    ghost value_of = { digits_value 10 };

    fn read(word: &[u8]) -> Option<u32> {
        let number = number_below(word, PGN_LIMIT)?;
        Some(number as u32)
    }
}

/// The command with the options of what is asked for, with this help for the parameters.
pub(crate) fn with_asked<'a>(
    alloc: Global,
    command: Result<Command<'a>, AllocError>,
    spns: &'a str,
) -> Result<Command<'a>, AllocError>
    ensures { (told : App) → IsMade command.entry told → IsMade result (with_asked told) }
{
    let command = with_option(alloc, command, "spn", "SPN,..", false, spns);
    let help = "From these addresses (hex) or NAMEs (16 hex digits) alone";
    let command = with_option(alloc, command, "from", "A,..", false, help);
    let help = "To these addresses (hex) alone; FF is what goes to all";
    let command = with_option(alloc, command, "to", "A,..", false, help);
    let help = "Of these PGNs alone";
    let command = with_option(alloc, command, "pgn", "PGN,..", false, help);
    let help =
        "From this time on: 1700000000.5, 2023-11-14T22:13:20.5Z, or +90 behind the first frame";
    let command = with_option(alloc, command, "since", "S", false, help);
    let help = "Up to this time, as --since";
    with_option(alloc, command, "until", "S", false, help)
}

/// What is asked for.
pub(crate) fn asked_value(given: &ArgMatches<'_>) -> Result<Asked, ParseFault>
    ensures read { AreChecked (asked_checks (asked_found (found_of given.now)))
        (IsRead (IsAsked (asked_found (found_of given.now)))) result }
    ensures memory { result ≢ Err ParseFault.Memory }
{
    let spns = list_value::<SpnWord>(given, "spn", Argument::Spn)?;
    let from = list_value::<SenderWord>(given, "from", Argument::From)?;
    let to = list_value::<AddressWord>(given, "to", Argument::To)?;
    let pgns = list_value::<PgnWord>(given, "pgn", Argument::Pgns)?;
    let since = moment_value(given, "since", Argument::Since)?;
    let until = moment_value(given, "until", Argument::Until)?;
    Ok(Asked {
        spns,
        from,
        to,
        pgns,
        since,
        until,
    })
}

/// The moment of a stamp; behind `+` so many seconds behind the first frame. `None` for any other text.
pub(crate) fn moment_of(text: &[u8]) -> Option<Moment>
    ensures { SomeIff result (IsMoment text.now) (moment_in text.now) }
{
    if text.starts_with(b"+") {
        let span = micros_of(behind_first(text))?;
        Some(Moment::Behind(span))
    } else {
        let micros = stamp_of(text)?;
        Some(Moment::At(micros))
    }
}

/// The microseconds of a stamp, in seconds or as a date and time in UTC; `None` for any other text.
fn stamp_of(text: &[u8]) -> Option<u64>
    ensures { SomeIff result (IsStamp text.now) (stamp_in text.now) }
{
    if is_utc(text) {
        utc_of(text)
    } else {
        micros_of(text)
    }
}
