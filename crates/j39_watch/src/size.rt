//! How large a screen is, and how it tells what it shows.
ghost use Rattle.std.specs.Prelude.{◌≡◌, ◌↔◌, ◌≤◌, IfSome, IsSome, if◌then◌else◌};
ghost use Rattle.j39_watch.specs.declared.severity.Severity.TheVariants.{Plain};

use crate::cut_line::WIDEST;
use crate::severity::Severity;
use j39_listen::Clock;

/// How many lines a screen has, and how many bytes a line, at most 512; whether it is in colours, and by which clock it tells
/// the moment.
#[derive(Clone, Copy, Debug)]
pub struct ScreenSize {
    rows: u16,
    width: u16,
    is_coloured: bool,
    clock: Clock,
    pub ghost narrow: { width ≤ 512 },
}

impl ScreenSize {
    /// So many lines of so many bytes; `None` for lines of more than 512.
    pub fn new(rows: u16, width: u16, is_coloured: bool, clock: Clock) -> Option<ScreenSize>
        ensures known { IsSome result ↔ (width ≤ 512) }
        ensures rows { IfSome result (λ size. size.rows ≡ rows) }
        ensures width { IfSome result (λ size. size.width ≡ width) }
        ensures colours { IfSome result (λ size. size.is_coloured ≡ is_coloured) }
        ensures clock { IfSome result (λ size. size.clock ≡ clock) }
    {
        if usize::from(width) <= WIDEST {
            Some(ScreenSize {
                rows,
                width,
                is_coloured,
                clock,
            })
        } else {
            None
        }
    }

    /// How many lines.
    pub fn rows(self) -> u16
        ensures { result ≡ self.rows }
    {
        self.rows
    }

    /// How many bytes a line.
    pub fn width(self) -> u16
        ensures value { result ≡ self.width }
        ensures narrow { result ≤ 512 }
    {
        self.width
    }

    /// By which clock it tells the moment.
    pub(crate) fn clock(self) -> Clock
        ensures { result ≡ self.clock }
    {
        self.clock
    }

    /// In which colour it shows a line.
    pub(crate) fn colour_of(self, severity: Severity) -> Severity
        ensures { result ≡ (if self.is_coloured then severity else Plain) }
    {
        if self.is_coloured {
            severity
        } else {
            Severity::Plain
        }
    }
}
