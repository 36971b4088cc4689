//! What is known of the lines so far.
ghost use Rattle.std.specs.Prelude.{◌≡◌, ◌∷◌, ◌++◌, [], ℕ, List, Option, OnErr, OnOk, Some, true, unwrap_or};
ghost use Rattle.std.specs.Str.{bytes_eq};
ghost use Rattle.j39_frame.specs.Frame.{FrameRecord};
ghost use Rattle.j39_listen.specs.Asking.{AsksForBoxes};
ghost use Rattle.j39_listen.specs.Heard.{Hearing, or_none};
ghost use Rattle.j39_listen.specs.Listening.{Hears};
ghost use Rattle.j39_log.specs.Bus.{IsBusName};
ghost use Rattle.j39_log.specs.Kind.{kind_of};
ghost use Rattle.j39_log.specs.Line.{IsFrameLine, IsOtherLine};
ghost use Rattle.j39_log.specs.Log.{frames_of};
ghost use Rattle.j39_log.specs.Spelled.{Spelled, Spells, frame as spelled_frame};
ghost use Rattle.j39_log.specs.Splitter.{IsRawLine};
ghost use Rattle.j39_survey.specs.LogLines.{IsSpelled, LogLine};
ghost use Rattle.j39_survey.specs.SurveySoFar.{AsksAt, MeetsOnBus};

use crate::surveys::group_table::GroupTable;
use crate::surveys::interfaces::Interfaces;
use crate::surveys::others::Others;
use crate::surveys::traffic::Traffic;
use crate::surveys::unread::UnreadLines;
use j39_frame::Frame;
use j39_log::{Bus, Line, OtherKind, RawLine, kind_of};
use std::alloc::{AllocError, Global};

/// What the lines so far are.
#[derive(Drop)]
pub(crate) struct Survey {
    pub lines: u64,
    pub interfaces: Interfaces,
    /// The interface whose groups are counted, once it is known.
    pub bus: Option<Bus>,
    pub traffic: Traffic,
    pub others: Others,
    pub unread: UnreadLines,
    /// Whether a line had the form that `candump -L` writes.
    pub has_log_line: bool,
}

impl Survey {
    ghost use Rattle.j39_survey.specs.GroupCounts.{nothing};
    ghost use Rattle.j39_survey.specs.SurveyModels.{HasSurveyed, HaveCounted};

    /// Of no lines, with a table of groups of which nothing came; of this interface, or of the first frame's.
    pub fn new(alloc: Global, groups: GroupTable, bus: Option<Bus>) -> Survey
        ensures { HaveCounted groups (λ pgn. nothing) → HasSurveyed result bus [] }
    {
        Survey {
            lines: 0,
            interfaces: Interfaces::new(),
            bus,
            traffic: Traffic::new(alloc, groups),
            others: Others::new(),
            unread: UnreadLines::new(),
            has_log_line: false,
        }
    }

    /// One line more, of a frame of the interface whose groups are counted. Memory is wanted at an announcement alone.
    #[inline(always)]
    pub fn add_frame(&mut self, frame: &Frame) -> Result<(), AllocError>
        ensures surveyed { OnOk result ((given : Option (List ℕ)) (lines : List LogLine) (line : LogLine) (name : List ℕ)
            → self.old.bus ≡ Some name → IsFrameLine line.text name frame.now → IsSpelled line
            → HasSurveyed self.old given lines → HasSurveyed self.new given (lines ++ line ∷ [])) }
        ensures asked { OnErr result ((given : Option (List ℕ)) (lines : List LogLine) (line : LogLine) (name : List ℕ)
            → self.old.bus ≡ Some name → IsFrameLine line.text name frame.now → IsSpelled line
            → HasSurveyed self.old given lines → AsksAt given lines line) }
    {
        let Some(bus) = &self.bus else {
            return Ok(());
        };
        self.lines = self.lines.saturating_add(1);
        self.interfaces.add_known(bus.bytes(), frame.stamp);
        self.has_log_line = true;
        self.traffic.add(frame)
    }

    /// One line more. Memory is wanted at an announcement alone.
    pub fn add(&mut self, raw: RawLine<'_>) -> Result<(), AllocError>
        ensures spelled { (text : List ℕ) → IsRawLine raw.entry text → (s : Spelled) × Spells text s }
        ensures surveyed { OnOk result ((given : Option (List ℕ)) (lines : List LogLine) (line : LogLine)
            → IsRawLine raw.entry line.text → IsSpelled line
            → HasSurveyed self.old given lines → HasSurveyed self.new given (lines ++ line ∷ [])) }
        ensures asked { OnErr result ((given : Option (List ℕ)) (lines : List LogLine) (line : LogLine)
            → IsRawLine raw.entry line.text → IsSpelled line → HasSurveyed self.old given lines → AsksAt given lines line) }
    {
        self.lines = self.lines.saturating_add(1);
        match raw.read() {
            Line::Frame { bus, frame } => {
                self.interfaces.add(bus, frame.stamp);
                self.has_log_line = true;
                meet(&mut self.bus, &mut self.traffic, bus, &frame)
            }
            Line::Other => {
                self.others.add(kind_in(raw));
                self.has_log_line = true;
                Ok(())
            }
            Line::Unread => {
                self.unread.add(self.lines, raw);
                Ok(())
            }
            Line::Blank => Ok(()),
        }
    }
}

/// One frame more, of the interface of this name: the first is that whose groups are counted, where none is known yet.
#[inline(never)]
fn meet(
    bus: &mut Option<Bus>,
    traffic: &mut Traffic,
    name: &[u8],
    frame: &Frame,
) -> Result<(), AllocError>
    ensures met { OnOk result (IsBusName name.now → MeetsOnBus name.now frame.now bus.old bus.new traffic.old traffic.new) }
    ensures asked { OnErr result (IsBusName name.now → (bytes_eq name.now (unwrap_or bus.old name.now) ≡ true)
        × ((F : List FrameRecord) → Hears traffic.old.listener F → AsksForBoxes F frame.now)) }
{
    if bus.is_none() {
        *bus = Bus::new(name);
    }
    match bus {
        Some(bus) if bus.is_named(name) => traffic.add(frame),
        _ => Ok(()),
    }
}

/// Of what kind another line is that was cut; none has more than 256 bytes.
fn kind_in(raw: RawLine<'_>) -> OtherKind
    ensures { (line : List ℕ) → IsRawLine raw.entry line → IsOtherLine line → result ≡ kind_of line }
{
    match raw {
        RawLine::Whole(line) => kind_of(line),
        RawLine::Long(_) => OtherKind::Odd,
    }
}
