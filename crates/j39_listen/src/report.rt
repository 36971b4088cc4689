//! The report of what is heard on a bus, kept to the entries that a filter takes, as an account of its frames.
ghost use Rattle.std.specs.Prelude.{◌≡◌, [], IfOk, if◌then◌else◌, length};
ghost use Rattle.std.specs.List.{flat_map};
ghost use Rattle.j39_io.specs.Puts.{Puts};
ghost use Rattle.j39_io.specs.Turn.{turn};
ghost use Rattle.j39_listen.specs.Chooses.{which_of};
ghost use Rattle.j39_listen.specs.Counting.{capped};
ghost use Rattle.j39_listen.specs.Filter.{filtered_of};
ghost use Rattle.j39_listen.specs.HeardModel.{hearing_of};
ghost use Rattle.j39_listen.specs.Report.{entries_of};
ghost use Rattle.j39_listen.specs.ReportSoFar.{HasReported};

use crate::account::{Account, LineFault};
use crate::chooser::Chooser;
use crate::counts::Made;
use crate::entry_form::EntryForm;
use crate::filter::Filter;
use crate::roles::Roles;
use crate::{Heard, Listener};
use j39_frame::{Frame, Id};
use j39_groups::Groups;
use j39_io::{DeviceFault, Sink};
use j39_log::{Bus, StampText};
use std::alloc::{AllocError, Global};

/// What is heard so far, and the numbers of its report in a form.
#[derive(Drop)]
pub struct Report<'g, 't, E> {
    roles: Roles<'g, 't>,
    chooser: Chooser<'g>,
    listener: Listener,
    made: Made,
    form: E,
}

impl<'g, 't, E: EntryForm> Report<'g, 't, E> {
    /// The report of no frames, in a form by the same table; where no filter is given, it is kept whole.
    pub fn new(
        alloc: Global,
        groups: &'g Groups<'t>,
        filter: Option<Filter<'g>>,
        form: E,
    ) -> Report<'g, 't, E>
        requires { E.table_of form ≡ groups.now }
        ensures { HasReported E.text_by E.table_of (record { rows = groups.entry.now; which = which_of filter.entry }) result []
            (filtered_of E.text_by groups.entry.now (which_of filter.entry) 0 []) }
    {
        Report {
            roles: Roles::new(groups),
            chooser: Chooser::new(filter),
            listener: Listener::new(alloc),
            made: Made::default(),
            form,
        }
    }
}

impl<'g, 't, E: EntryForm> Account for Report<'g, 't, E> {
    ghost use Rattle.j39_listen.specs.Asking.{AsksForBoxes};
    ghost use Rattle.j39_listen.specs.ReportSoFar.{HasReported, Makes, Subject};

    ghost Subject = { Subject };

    ghost has_met = { λ subject bus. HasReported E.text_by E.table_of subject };

    ghost makes = { λ subject. Makes E.text_by subject };

    ghost asks = { λ subject. AsksForBoxes };

    /// Most frames are of groups that nobody hears.
    #[inline(always)]
    fn passes_over(&self, id: Id) -> bool {
        self.roles.passes_over(id) && self.chooser.is_begun()
    }

    /// A message counts whether it is taken or not, and of the lines those that are written. It is no part of its caller, whose
    /// way for most lines so needs no room for what a message takes.
    #[inline(never)]
    fn feed<W: Sink>(&mut self, _: &Bus, frame: &Frame, sink: &mut W) -> Result<(), LineFault> {
        let role = self.roles.of(frame.id);
        self.chooser.note(frame);
        match self.listener.feed_as(role.is_single, frame) {
            Err(AllocError) => Err(LineFault::Memory),
            Ok(None) => {
                self.made = self.made.and(NOTHING);
                Ok(())
            }
            Ok(Some(heard)) => {
                let is_taken = self.chooser.takes(&heard);
                match put_taken(is_taken, &heard, &mut self.form, sink) {
                    Ok(lines) => {
                        self.made = self.made.and(Made { messages: 1, lines });
                        Ok(())
                    }
                    Err(DeviceFault) => Err(LineFault::Write),
                }
            }
        }
    }

    #[inline(always)]
    fn note_stamp(&mut self, text: StampText) {
        self.form.note_stamp(text);
    }

    fn close<W: Sink>(&self, _: &mut W) -> Result<Made, DeviceFault> {
        Ok(self.made)
    }

    fn laws() {}
}

/// What is made of a frame at which nothing is heard.
const NOTHING: Made = Made {
    messages: 0,
    lines: 0,
};

/// Writes the entries of a message if it is taken, and answers how many.
#[inline(always)]
fn put_taken<E: EntryForm, W: Sink>(
    is_taken: bool,
    heard: &Heard<'_>,
    form: &mut E,
    sink: &mut W,
) -> Result<u64, DeviceFault>
    ensures lines { IfOk result (λ n. n ≡ capped (length (if is_taken then entries_of (E.table_of form.old) (hearing_of heard.now) else []))) }
    ensures puts { Puts (flat_map (E.text_by (E.table_of form.old)) (if is_taken then entries_of (E.table_of form.old) (hearing_of heard.now) else []))
        result (turn W.written W.has_failed sink.old sink.new) }
    ensures table { E.table_of form.new ≡ E.table_of form.old }
{
    if is_taken {
        form.put_heard(heard, sink)
    } else {
        Ok(0)
    }
}
