//! A log's lines, out of its bytes in pieces.
ghost use Rattle.std.specs.Prelude.{◌≡◌, ◌<◌, ◌≤◌, ◌++◌, ℕ, List, [], length, IfSome, MatchOption, false, true};
ghost use Rattle.std.specs.Borrow.{sem};
ghost use Rattle.std.specs.Io.BufRead.{Rests};

use crate::fast::{FrameLine, first_line};
use crate::newline::split_line;
use crate::{Bus, LINE_LIMIT, LastSecond, RawLine};
use arrayvec::ArrayVec;
use j39_frame::Frame;

/// Cuts the bytes of a log, which come in pieces, into its lines. It keeps the first 256 bytes of
/// the line that a piece breaks off, and whether the line has more.
#[derive(Debug, Drop)]
pub struct Splitter {
    kept: ArrayVec<u8, LINE_LIMIT>,
    has_more: bool,
    // What is kept is a line that was handed out.
    has_ended: bool,
}

/// What a piece was to a splitter.
enum PieceStep<'a> {
    /// It has no newline.
    GoesOn,
    /// It ends a line that stands whole in it.
    HoldsLine(&'a [u8]),
    /// It ends the line that is kept, and this many of its bytes were taken.
    EndsLineAt(usize),
}

impl Splitter {
    ghost use Rattle.j39_log.specs.FrameLine.{BeginsStamp, HasLine};
    ghost use Rattle.j39_log.specs.Splitter.{AnswersEnd, AnswersPiece, BeginsFrame, HasBegun, IsKept, IsRawLine};
    ghost use Rattle.j39_log.specs.SplitterChanges.{Finishes, StepFits, Steps};
    ghost use Rattle.j39_log.specs.contracts.splitter.Splitter.{the_row};

    /// At the start of a log.
    pub fn new() -> Splitter
        ensures { HasBegun result [] }
    {
        Splitter {
            kept: ArrayVec::new(),
            has_more: false,
            has_ended: false,
        }
    }

    /// Whether nothing is begun. `false` says nothing.
    #[inline(always)]
    pub fn is_between_lines(&self) -> bool
        ensures { result ≡ true → (begun : List ℕ) → HasBegun self.now begun → begun ≡ [] }
    {
        self.kept.is_empty()
    }

    /// The line of a frame of this bus that the piece begins with, and how many bytes it has with its newline, where nothing was
    /// begun before and the line has the form of most: ten digits of seconds, six decimals or nine, one space between the fields,
    /// a name of at most 11 bytes, eight bytes of data, `R` or `T` behind them or none, and one CR at its end or none. `None` says
    /// nothing of the piece, which `feed` takes whatever it is. The second of the line and its identifier are kept for the next ones.
    #[inline(always)]
    pub fn line_on<'a>(
        &self,
        piece: &'a [u8],
        last: &mut LastSecond,
        bus: &Option<Bus>,
    ) -> Option<(FrameLine<'a>, usize)>
        ensures line { IfSome result (λ found. (begun : List ℕ) → HasBegun self.now begun
            → HasLine self.now begun piece.now bus.now found.0 found.1) }
        ensures stamped { IfSome result (λ found. BeginsStamp found.0) }
        ensures count { IfSome result (λ found. found.1 ≤ length piece.now) }
        ensures some { IfSome result (λ found. 0 < found.1) }
    {
        if !self.kept.is_empty() {
            return None;
        }
        let bus = bus.as_ref()?;
        let (line, rest) = first_line(piece, last, bus)?;
        Some((line, piece.len() - rest.len()))
    }

    /// The frame of such a line.
    #[inline(always)]
    pub fn frame_on(
        &self,
        piece: &[u8],
        last: &mut LastSecond,
        bus: &Option<Bus>,
    ) -> Option<(Frame, usize)>
        ensures frame { IfSome result (λ found. (begun : List ℕ) → HasBegun self.now begun
            → BeginsFrame self.now begun piece.now bus.now found.0 found.1) }
        ensures count { IfSome result (λ found. found.1 ≤ length piece.now) }
        ensures some { IfSome result (λ found. 0 < found.1) }
    {
        let (line, n) = self.line_on(piece, last, bus)?;
        Some((line.frame()?, n))
    }

    /// Takes the bytes up to and with the first newline of the piece, else all of them: how many
    /// it took, and the line where one ended.
    #[inline(always)]
    pub fn feed<'a>(&'a mut self, piece: &'a [u8]) -> (usize, Option<RawLine<'a>>)
        ensures count { result.0 ≤ length piece.now }
        ensures some { 0 < length piece.now → 0 < result.0 }
        ensures line { (begun : List ℕ) → HasBegun self.old begun → AnswersPiece begun piece.now result.0 result.1 }
        ensures* after { sem 𝓛 (Rests the_row self.entry (λ n. (begun : List ℕ) → HasBegun self.old begun
            → MatchOption result.1 (HasBegun n (begun ++ piece.now)) (λ _. HasBegun n []))) }
    {
        let step = self.take(piece);
        self.answer(piece, step)
    }

    /// The last line, where bytes stand after the last newline. Afterwards the splitter is as new.
    pub fn finish(&mut self) -> Option<RawLine<'_>>
        ensures line { (begun : List ℕ) → HasBegun self.old begun → AnswersEnd begun result }
        ensures* after { sem 𝓛 (Rests the_row self.entry (λ n. (begun : List ℕ) → HasBegun self.old begun
            → HasBegun n [])) }
    {
        let has_line = self.end();
        self.last(has_line)
    }

    #[inline(always)]
    fn take<'a>(&mut self, piece: &'a [u8]) -> PieceStep<'a>
        ensures count { StepFits result piece.now }
        ensures step { (begun : List ℕ) → HasBegun self.old begun → Steps result begun piece.now self.new }
    {
        self.begin();
        let Some((line, _)) = split_line(piece) else {
            self.keep(piece);
            return PieceStep::GoesOn;
        };
        if self.kept.is_empty() {
            return PieceStep::HoldsLine(line);
        }
        self.keep(line);
        self.has_ended = true;
        PieceStep::EndsLineAt(line.len() + 1)
    }

    fn end(&mut self) -> bool
        ensures { (begun : List ℕ) → HasBegun self.old begun → Finishes result begun self.new }
    {
        self.begin();
        self.has_ended = true;
        !self.kept.is_empty()
    }

    /// Drops a line that was handed out.
    fn begin(&mut self)
        ensures kept { (line : List ℕ) → HasBegun self.old line → IsKept line self.new.kept.items self.new.has_more }
        ensures fresh { self.new.has_ended ≡ false }
    {
        if self.has_ended {
            self.kept.clear();
            self.has_more = false;
            self.has_ended = false;
        }
    }

    /// Keeps what there is room for.
    #[inline(never)]
    fn keep(&mut self, bytes: &[u8])
        ensures kept { (line : List ℕ) → IsKept line self.old.kept.items self.old.has_more
            → IsKept (line ++ bytes.now) self.new.kept.items self.new.has_more }
        ensures ended { self.new.has_ended ≡ self.old.has_ended }
    {
        let room = self.kept.remaining_capacity();
        let (front, _) = bytes.split_at(room.min(bytes.len()));
        if bytes.len() > room {
            self.has_more = true;
        }
        let _fits = self.kept.try_extend_from_slice(front);
    }

    fn answer<'a>(&'a self, piece: &'a [u8], step: PieceStep<'a>) -> (usize, Option<RawLine<'a>>)
        requires { StepFits step piece.now }
        ensures count { result.0 ≤ length piece.now }
        ensures some { 0 < length piece.now → 0 < result.0 }
        ensures line { (begun : List ℕ) → Steps step.entry begun piece.now self.now
            → AnswersPiece begun piece.now result.0 result.1 }
        ensures after { (begun : List ℕ) → Steps step.entry begun piece.now self.now
            → MatchOption result.1 (HasBegun self.now (begun ++ piece.now)) (λ _. HasBegun self.now []) }
    {
        match step {
            PieceStep::GoesOn => (piece.len(), None),
            PieceStep::HoldsLine(line) => (line.len() + 1, Some(RawLine::Whole(line))),
            PieceStep::EndsLineAt(taken) => (taken, Some(self.kept_line())),
        }
    }

    fn last(&self, has_line: bool) -> Option<RawLine<'_>>
        ensures line { (begun : List ℕ) → Finishes has_line begun self.now → AnswersEnd begun result }
        ensures after { (begun : List ℕ) → Finishes has_line begun self.now → HasBegun self.now [] }
    {
        if has_line {
            Some(self.kept_line())
        } else {
            None
        }
    }

    fn kept_line(&self) -> RawLine<'_>
        ensures { (line : List ℕ) → IsKept line self.now.kept.items self.now.has_more → IsRawLine result line }
    {
        if self.has_more {
            RawLine::Long(self.kept.as_slice())
        } else {
            RawLine::Whole(self.kept.as_slice())
        }
    }
}
