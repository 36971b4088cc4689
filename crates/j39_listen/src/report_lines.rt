//! The lines of a report.
ghost use Rattle.std.specs.Prelude.{◌≡◌};

use crate::Heard;
use crate::entry_form::EntryForm;
use crate::head::{FROM, Heads};
use j39_groups::{Groups, HEAD, LINES};
use j39_io::{DeviceFault, Sink};
use j39_log::StampText;

/// What the lines of a message are made with, kept from message to message.
#[derive(Drop)]
pub(crate) struct Pen<'g, 't> {
    groups: &'g Groups<'t>,
    block: [u8; LINES],
    heads: Heads,
}

impl<'g, 't> Pen<'g, 't> {
    /// By a table of parameters, with nothing written.
    pub fn new(groups: &'g Groups<'t>) -> Pen<'g, 't>
        ensures { result.groups ≡ groups.entry }
    {
        Pen {
            groups,
            block: [0; LINES],
            heads: Heads::new(),
        }
    }
}

impl<'g, 't> EntryForm for Pen<'g, 't> {
    ghost use Rattle.j39_listen.specs.Report.{entry_text};

    ghost text_by = { λ groups. entry_text };

    ghost table_of = { λ pen. pen.groups.now };

    #[inline(always)]
    fn put_heard<W: Sink>(&mut self, heard: &Heard<'_>, sink: &mut W) -> Result<u64, DeviceFault> {
        let mut head = [0; HEAD];
        self.heads.put_head(&mut head, heard);
        match self.groups.put_lines(
            &mut self.block,
            &head,
            FROM,
            heard.message.pgn,
            heard.message.payload,
            sink,
        ) {
            Ok(lines) => Ok(lines),
            Err(DeviceFault) => Err(DeviceFault),
        }
    }

    #[inline(always)]
    fn note_stamp(&mut self, text: StampText) {
        self.heads.note_stamp(text);
    }
}
