//! A log that is read in pieces, and the survey of its lines.
ghost use Rattle.std.specs.Prelude.{◌≡◌, ◌≤◌, ◌<◌, ◌++◌, [], ℕ, List, Option, IfOk, OnErr, OnOk, length, take};
ghost use Rattle.j39_listen.specs.Asking.{AsksAmong, AsksForBoxes};
ghost use Rattle.j39_log.specs.FrameLine.{HasLine};
ghost use Rattle.j39_log.specs.Splitter.{HasBegun};
ghost use Rattle.j39_survey.specs.LogLines.{AreLogLines, LogLine};
ghost use Rattle.j39_survey.specs.SurveyModels.{HasSurveyed};

use crate::surveys::group_table::GroupTable;
use crate::surveys::log_survey::Survey;
use j39_groups::is_network_group;
use j39_log::{Bus, FrameLine, LastSecond, Splitter};
use std::alloc::{AllocError, Global};

/// The lines of a log so far, and the beginning of one.
#[derive(Drop)]
pub(crate) struct Pieces {
    splitter: Splitter,
    pub survey: Survey,
    /// The second of the last line that was read quickly: it tells nothing of the lines.
    second: LastSecond,
}

impl Pieces {
    ghost use Rattle.j39_survey.specs.SurveySoFar.{HasTaken};

    /// At the start of a log; of the groups of this interface, or of the first frame's. This takes memory for the groups.
    pub fn new(alloc: Global, bus: Option<Bus>) -> Result<Pieces, AllocError>
        ensures { IfOk result (λ pieces. HasTaken pieces bus []) }
    {
        let groups = GroupTable::new(alloc)?;
        Ok(Pieces {
            splitter: Splitter::new(),
            survey: Survey::new(alloc, groups, bus),
            second: LastSecond::new(),
        })
    }

    /// Takes a piece of the log. Memory is wanted at an announcement alone.
    pub fn take(&mut self, piece: &[u8]) -> Result<(), AllocError>
        ensures taken { OnOk result ((given : Option (List ℕ)) (taken : List ℕ) → HasTaken self.old given taken
            → HasTaken self.new given (taken ++ piece.now)) }
        ensures asked { OnErr result ((given : Option (List ℕ)) (taken : List ℕ) → HasTaken self.old given taken
            → AsksAmong AsksForBoxes given (taken ++ piece.now)) }
    {
        let mut rest = piece;
        while !rest.is_empty() {
            let n = match self.take_line(rest) {
                Ok(n) => n,
                Err(AllocError) => return Err(AllocError),
            };
            (_, rest) = rest.split_at(n);
        }
        Ok(())
    }

    /// Takes the bytes to the end of a line, or all of them: how many it took.
    fn take_line(&mut self, bytes: &[u8]) -> Result<usize, AllocError>
        ensures count { IfOk result (λ n. n ≤ length bytes.now) }
        ensures some { IfOk result (λ n. 0 < length bytes.now → 0 < n) }
        ensures taken { IfOk result (λ n. (given : Option (List ℕ)) (taken : List ℕ) → HasTaken self.old given taken
            → HasTaken self.new given (taken ++ take n bytes.now)) }
        ensures asked { OnErr result ((given : Option (List ℕ)) (taken : List ℕ) → HasTaken self.old given taken
            → AsksAmong AsksForBoxes given (taken ++ bytes.now)) }
    {
        let bus = &self.survey.bus;
        let Some((line, n)) = self.splitter.line_on(bytes, &mut self.second, bus) else {
            return self.take_any(bytes);
        };
        if is_network_group(line.id.pgn()) {
            return self.take_network(&line, n, bytes);
        }
        self.take_frame(&line, n, bytes)
    }

    /// The same, of a line of so many bytes that begins so.
    #[inline(always)]
    fn take_frame(
        &mut self,
        line: &FrameLine<'_>,
        n: usize,
        bytes: &[u8],
    ) -> Result<usize, AllocError>
        requires line { (begun : List ℕ) → HasBegun self.old.splitter begun
            → HasLine self.old.splitter begun bytes.now self.old.survey.bus line.now n }
        requires within { n ≤ length bytes.now }
        requires some { 0 < n }
        ensures count { IfOk result (λ n. n ≤ length bytes.now) }
        ensures some { IfOk result (λ n. 0 < length bytes.now → 0 < n) }
        ensures taken { IfOk result (λ n. (given : Option (List ℕ)) (taken : List ℕ) → HasTaken self.old given taken
            → HasTaken self.new given (taken ++ take n bytes.now)) }
        ensures asked { OnErr result ((given : Option (List ℕ)) (taken : List ℕ) → HasTaken self.old given taken
            → AsksAmong AsksForBoxes given (taken ++ bytes.now)) }
    {
        let Some(frame) = line.frame() else {
            return self.take_any(bytes);
        };
        match self.survey.add_frame(&frame) {
            Ok(()) => Ok(n),
            Err(AllocError) => Err(AllocError),
        }
    }

    /// The same, of a frame whose data are read: apart, so that no others' are made of their digits.
    #[inline(never)]
    fn take_network(
        &mut self,
        line: &FrameLine<'_>,
        n: usize,
        bytes: &[u8],
    ) -> Result<usize, AllocError>
        requires line { (begun : List ℕ) → HasBegun self.old.splitter begun
            → HasLine self.old.splitter begun bytes.now self.old.survey.bus line.now n }
        requires within { n ≤ length bytes.now }
        requires some { 0 < n }
        ensures count { IfOk result (λ n. n ≤ length bytes.now) }
        ensures some { IfOk result (λ n. 0 < length bytes.now → 0 < n) }
        ensures taken { IfOk result (λ n. (given : Option (List ℕ)) (taken : List ℕ) → HasTaken self.old given taken
            → HasTaken self.new given (taken ++ take n bytes.now)) }
        ensures asked { OnErr result ((given : Option (List ℕ)) (taken : List ℕ) → HasTaken self.old given taken
            → AsksAmong AsksForBoxes given (taken ++ bytes.now)) }
    {
        self.take_frame(line, n, bytes)
    }

    /// The same, of a line of any form.
    #[inline(never)]
    fn take_any(&mut self, bytes: &[u8]) -> Result<usize, AllocError>
        ensures count { IfOk result (λ n. n ≤ length bytes.now) }
        ensures some { IfOk result (λ n. 0 < length bytes.now → 0 < n) }
        ensures taken { IfOk result (λ n. (given : Option (List ℕ)) (taken : List ℕ) → HasTaken self.old given taken
            → HasTaken self.new given (taken ++ take n bytes.now)) }
        ensures asked { OnErr result ((given : Option (List ℕ)) (taken : List ℕ) → HasTaken self.old given taken
            → AsksAmong AsksForBoxes given (taken ++ bytes.now)) }
    {
        let (n, raw) = self.splitter.feed(bytes);
        match raw {
            None => Ok(n),
            Some(raw) => match self.survey.add(raw) {
                Ok(()) => Ok(n),
                Err(AllocError) => Err(AllocError),
            },
        }
    }

    /// Takes the last line, where it is not ended. Memory is wanted at an announcement alone.
    pub fn finish(&mut self) -> Result<(), AllocError>
        ensures surveyed { OnOk result ((given : Option (List ℕ)) (taken : List ℕ) → HasTaken self.old given taken
            → (lines : List LogLine) × AreLogLines taken lines × HasSurveyed self.new.survey given lines) }
        ensures asked { OnErr result ((given : Option (List ℕ)) (taken : List ℕ) → HasTaken self.old given taken
            → AsksAmong AsksForBoxes given taken) }
    {
        match self.splitter.finish() {
            None => Ok(()),
            Some(raw) => self.survey.add(raw),
        }
    }
}
