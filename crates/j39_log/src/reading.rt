//! A line of a log, read: by the fast way, which hands on what it does not know.
ghost use Rattle.std.specs.Prelude.{◌≡◌, ℕ, List};
ghost use Rattle.j39_log.specs.LineRead.{spelled_of};
ghost use Rattle.j39_log.specs.Spelled.{Spelled, Spells, unread};

use crate::Line;
use crate::fast::read_plain;

/// Reads a line of a log, which is given without its newline. A frame of any bus is a `Frame` here.
#[inline(always)]
pub fn read_line(line: &[u8]) -> Line<'_>
    ensures reads { Spells line.now (spelled_of result) }
    ensures only { (s : Spelled) → Spells line.now s → spelled_of result ≡ s }
{
    read_plain(line)
}

/// A line that was cut, out of its piece or out of what was kept.
#[derive(Clone, Copy, Debug)]
pub enum RawLine<'a> {
    /// The line, of at most 256 bytes where it was kept.
    Whole(&'a [u8]),
    /// The first 256 bytes of one that was kept and has more.
    Long(&'a [u8]),
}

impl<'a> RawLine<'a> {
    ghost use Rattle.j39_log.specs.Splitter.{IsLong, IsRawLine};

    /// Reads the line.
    #[inline(always)]
    pub fn read(self) -> Line<'a>
        ensures spelled { (line : List ℕ) → IsRawLine self.entry line → Spells line (spelled_of result) }
        ensures long { IsLong self.entry → spelled_of result ≡ unread }
    {
        match self {
            RawLine::Whole(line) => read_line(line),
            RawLine::Long(_) => Line::Unread,
        }
    }
}
