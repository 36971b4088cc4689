//! The unread lines so far.
ghost use Rattle.std.specs.Prelude.{◌≡◌, ◌≤◌, ◌<◌, ◌∷◌, ◌++◌, [], ℕ, List, length, take, nat_lt};
ghost use Rattle.j39_listen.specs.Counting.{capped};
ghost use Rattle.j39_log.specs.Printed.{is_printed};
ghost use Rattle.j39_log.specs.Splitter.{IsRawLine};
ghost use Rattle.j39_survey.specs.LogLines.{UnreadRecord};
ghost use Rattle.j39_survey.specs.SurveyModels.{shown_record};
ghost use Rattle.j39_survey.specs.UnreadLines.{shown_of};

use arrayvec::ArrayVec;
use j39_io::printing::push_bytes;
use j39_log::{RawLine, is_printed};

/// How many bytes of an unread line are told.
const FRONT: usize = 60;

/// What is told of an unread line.
#[derive(Default, Drop)]
pub(crate) struct UnreadLine {
    /// Which line of the log it is, from 1.
    pub number: u64,
    pub front: ArrayVec<u8, FRONT>,
    pub is_cut: bool,
}

/// How many there were, what is told of the first five, and whether all are lines that `candump` prints.
#[derive(Drop)]
pub(crate) struct UnreadLines {
    pub count: u64,
    pub first: ArrayVec<UnreadLine, 5>,
    pub are_printed: bool,
}

impl UnreadLines {
    ghost use Rattle.j39_survey.specs.SurveyModels.{HaveNoted};

    /// No lines.
    pub fn new() -> UnreadLines
        ensures { HaveNoted result [] }
    {
        UnreadLines {
            count: 0,
            first: ArrayVec::new(),
            are_printed: true,
        }
    }

    /// One line more, with its number.
    pub fn add(&mut self, number: u64, raw: RawLine<'_>)
        ensures { (unread : List UnreadRecord) (line : UnreadRecord) → IsRawLine raw.entry line.text
            → number ≡ capped line.number → HaveNoted self.old unread → HaveNoted self.new (unread ++ line ∷ []) }
    {
        self.count = self.count.saturating_add(1);
        self.are_printed &= is_printed_line(raw);
        if !self.first.is_full() {
            self.first.push(told_of(number, raw));
        }
    }
}

/// Whether a line that was cut is one that `candump` prints.
fn is_printed_line(raw: RawLine<'_>) -> bool
    ensures { (line : List ℕ) → IsRawLine raw.entry line → result ≡ is_printed line }
{
    match raw {
        RawLine::Whole(line) => is_printed(line),
        RawLine::Long(_) => false,
    }
}

/// What is told of a line that was cut.
fn told_of(number: u64, raw: RawLine<'_>) -> UnreadLine
    ensures { (line : UnreadRecord) → IsRawLine raw.entry line.text → number ≡ capped line.number
        → shown_record result ≡ shown_of line }
{
    match raw {
        RawLine::Whole(line) => UnreadLine {
            number,
            front: front_of(line),
            is_cut: line.len() > FRONT,
        },
        RawLine::Long(line) => UnreadLine {
            number,
            front: front_of(line),
            is_cut: true,
        },
    }
}

/// The first sixty bytes of a line.
fn front_of(line: &[u8]) -> ArrayVec<u8, FRONT>
    ensures { result.items ≡ take 60 line.now }
{
    let (front, _) = line.split_at(FRONT.min(line.len()));
    let mut kept = ArrayVec::new();
    push_bytes(&mut kept, front);
    kept
}
