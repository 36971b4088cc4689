//! What is seen at both ends of a FILE.
ghost use Rattle.std.specs.Prelude.{◌≡◌, ◌≤◌, ◌<◌, ◌∷◌, IfSome, length, option_map};
ghost use Rattle.std.specs.List.{prefix_len};
ghost use Rattle.j39_frame.specs.Stamp.{stamp_micros};
ghost use Rattle.j39_log.specs.Newline.{is_no_newline};
ghost use Rattle.j39_cli.specs.FileEnds.{IsEnds, IsEndsOfSome, ends_record, lines_behind, span_record};
ghost use Rattle.j39_cli.specs.Order.{AreEnds, IsStampOf, lines_of, no_span, span_with};

use crate::other_log::OtherLog;
use j39_frame::Stamp;
use j39_log::{Line, read_line};

/// What was seen at both ends of a FILE: where its stamps begin and end, and whether it is no log.
#[derive(Clone, Copy, Debug)]
pub struct FileEnds<'a> {
    pub(crate) file: &'a str,
    pub(crate) span: FileSpan,
    pub(crate) other: Option<OtherLog>,
}

impl<'a> FileEnds<'a> {
    /// Of this FILE, of which this was read at its front and at its back.
    pub fn new(file: &'a str, front: &[u8], back: &[u8]) -> FileEnds<'a>
        ensures file { (ends_record result).file ≡ file.now }
        ensures ends { IsEnds front.now back.now (ends_record result) }
        ensures of_some { IsEndsOfSome (ends_record result) }
    {
        FileEnds {
            file,
            span: FileSpan {
                begins: span_of(front).begins,
                ends: span_of(back).ends,
            },
            other: OtherLog::of(front),
        }
    }
}

/// The stamps of the first and the last line that is a frame, on whatever interface.
#[derive(Clone, Copy, Debug)]
pub(crate) struct FileSpan {
    pub(crate) begins: Option<Stamp>,
    pub(crate) ends: Option<Stamp>,
}

impl FileSpan {
    /// With the stamp of one more line, where it is a frame.
    fn with(self, stamp: Option<Stamp>) -> FileSpan
        ensures { span_record result ≡ span_with (option_map stamp_micros stamp) (span_record self) }
    {
        match stamp {
            None => self,
            Some(_) => FileSpan {
                begins: self.begins.or(stamp),
                ends: stamp,
            },
        }
    }
}

/// The stamps of the first and the last line of a text that is a frame.
fn span_of(text: &[u8]) -> FileSpan
    ensures { AreEnds no_span (lines_of text.now) (span_record result) }
{
    let mut span = FileSpan {
        begins: None,
        ends: None,
    };
    let mut rest = Some(text);
    while let Some(text) = rest {
        let (line, behind) = cut_line(text);
        span = span.with(stamp_of(line));
        rest = behind;
    }
    span
}

/// The first line of a text, and what stands behind its newline.
fn cut_line(text: &[u8]) -> (&[u8], Option<&[u8]>)
    ensures lines { lines_of text.now ≡ result.0.now ∷ lines_behind (option_map (λ behind. behind.now) result.1) }
    ensures fewer { IfSome result.1 (λ behind. length behind.now < length text.now) }
{
    let (line, rest) = text.split_at(line_len(text));
    match rest.split_first() {
        None => (line, None),
        Some((_, behind)) => (line, Some(behind)),
    }
}

/// How many bytes come before the first newline, or before the end where there is none.
fn line_len(text: &[u8]) -> usize
    ensures value { result ≡ prefix_len is_no_newline text.now }
    ensures fits { result ≤ length text.now }
{
    text.iter().take_while(|b| **b != b'\n').count()
}

/// The stamp of a line that is a frame.
fn stamp_of(line: &[u8]) -> Option<Stamp>
    ensures { IsStampOf line.now (option_map stamp_micros result) }
{
    match read_line(line) {
        Line::Frame { frame, .. } => Some(frame.stamp),
        Line::Other => None,
        Line::Unread => None,
        Line::Blank => None,
    }
}
