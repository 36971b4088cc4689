//! Lines of a log.
ghost use Rattle.std.specs.Prelude.{◌≡◌, ◌≢◌, ℕ, List, [], ◌∷◌, ◌++◌, ◌↔◌, length, IsTrue, Contains};
ghost use Rattle.j39_io.specs.Chars.{hash};
ghost use Rattle.j39_log.specs.Line.{IsBody};
ghost use Rattle.j39_log.specs.LineParts.{HasReadParts};
ghost use Rattle.j39_log.specs.Spelled.{Spells};
ghost use Rattle.j39_log.specs.LineRead.{spelled_of};

use crate::bus::is_bus_name;
use crate::fields::{Shape, shape_of};
use crate::text::{frame_of, stamp_of};
use j39_frame::{Frame, Stamp};

/// What a line of a log holds.
#[derive(Debug, Drop)]
pub enum Line<'a> {
    /// A frame with a 29-bit identifier, and the interface that it was seen on.
    Frame { bus: &'a [u8], frame: Frame },
    /// A line of candump's form that holds no such frame.
    Other,
    /// A line of no such form, or of more than 256 bytes.
    Unread,
    /// A line of spaces alone.
    Blank,
}

/// The most bytes of a line that is read (own). A longer line is unread.
pub const LINE_LIMIT: usize = 256;

/// The line without one CR at its end.
#[inline(always)]
pub(crate) fn body_of(line: &[u8]) -> &[u8]
    ensures { IsBody line.now result.now }
{
    match line.split_last() {
        Some((b'\r', body)) => body,
        _ => line,
    }
}

/// The parts of a line that a frame has.
enum LineParts<'a> {
    Blank,
    Three(Stamp, &'a [u8], &'a [u8]),
    Unread,
}

fn line_parts(line: &[u8]) -> LineParts<'_>
    ensures { HasReadParts result line.now }
{
    if line.len() > LINE_LIMIT {
        return LineParts::Unread;
    }
    match shape_of(body_of(line)) {
        Shape::Blank => LineParts::Blank,
        Shape::Odd => LineParts::Unread,
        Shape::Three(stamp, bus, third) => match stamp_of(stamp) {
            None => LineParts::Unread,
            Some(stamp) => {
                if is_bus_name(bus) {
                    LineParts::Three(stamp, bus, third)
                } else {
                    LineParts::Unread
                }
            }
        },
    }
}

pub(crate) fn holds_hash(field: &[u8]) -> bool
    ensures { IsTrue result ↔ Contains field.now hash }
{
    field.contains(&b'#')
}

/// Reads a line of any form.
#[cold]
#[inline(never)]
pub(crate) fn read_any(line: &[u8]) -> Line<'_>
    ensures { Spells line.now (spelled_of result) }
{
    match line_parts(line) {
        LineParts::Blank => Line::Blank,
        LineParts::Unread => Line::Unread,
        LineParts::Three(stamp, bus, third) => match frame_of(third) {
            Some((id, bytes)) => Line::Frame {
                bus,
                frame: Frame::from_parts(stamp, id, bytes),
            },
            None if holds_hash(third) => Line::Other,
            None => Line::Unread,
        },
    }
}
