//! In which form the entries of a report are written.
ghost use Rattle.std.specs.Prelude.{◌≡◌, List, IfOk, length};
ghost use Rattle.std.specs.List.{flat_map};
ghost use Rattle.j39_io.specs.Puts.{Puts};
ghost use Rattle.j39_io.specs.Turn.{turn};
ghost use Rattle.j39_groups.specs.Row.{RowRecord};
ghost use Rattle.j39_listen.specs.Counting.{capped};
ghost use Rattle.j39_listen.specs.HeardModel.{hearing_of};
ghost use Rattle.j39_listen.specs.Report.{Form, entries_of};

use crate::Heard;
use j39_io::{DeviceFault, Sink};
use j39_log::StampText;

/// A form of the entries of a report, with what it keeps from message to message.
pub trait EntryForm: Drop {
    // What it writes of an entry.
    ghost text_by: { Form };

    // The table of parameters by which it writes.
    ghost table_of: { Self → List RowRecord };

    /// Writes each entry of a message by its table, and answers how many.
    fn put_heard<W: Sink>(&mut self, heard: &Heard<'_>, sink: &mut W) -> Result<u64, DeviceFault>
        ensures lines { IfOk result (λ n. n ≡ capped (length (entries_of (table_of self.old) (hearing_of heard.now)))) }
        ensures puts { Puts (flat_map (text_by (table_of self.old)) (entries_of (table_of self.old) (hearing_of heard.now)))
            result (turn W.written W.has_failed sink.old sink.new) }
        ensures table { table_of self.new ≡ table_of self.old };

    /// Notes the text of a stamp that may come next: it changes nothing that is written.
    #[inline(always)]
    fn note_stamp(&mut self, text: StampText)
        ensures table { table_of self.new ≡ table_of self.old }
    {
        let _ = text;
    }
}
