//! What a log is at each half second, as an account of the frames of a bus: the run that writes it, and its screens.
ghost use Rattle.std.specs.Prelude.{◌≡◌, [], List, Err, IfOk, OnErr, if◌then◌else◌, length, option_map, unwrap_or};
ghost use Rattle.j39_frame.specs.Stamp.{stamp_micros};
ghost use Rattle.j39_io.specs.Device.{Marks};
ghost use Rattle.j39_io.specs.Puts.{Puts};
ghost use Rattle.j39_io.specs.Turn.{turn};
ghost use Rattle.j39_frame.specs.Frame.{FrameRecord};
ghost use Rattle.j39_listen.specs.Chooses.{Chooses, which_of};
ghost use Rattle.j39_listen.specs.Filter.{FilterRecord, first_stamp};
ghost use Rattle.j39_listen.specs.Output.{nothing};
ghost use Rattle.j39_listen.specs.Ran.{PassesOn, Ran};
ghost use Rattle.j39_listen.specs.declared.account.LineFault.TheVariants.{Write};
ghost use Rattle.j39_names.specs.Naming.{naming_of};
ghost use Rattle.j39_watch.specs.NotesSoFar.{HasWatched, lines_of_watch, screen_of_watch, size_of};
ghost use Rattle.j39_watch.specs.Watch.{AsksForWatch, MakesWatch, fitted};

use crate::asked_places::AskedPlaces;
use crate::moment::Moment;
use crate::note::note;
use crate::screen::put_screen;
use crate::size::ScreenSize;
use crate::values::Values;
use crate::view::View;
use j39_fault_reports::LastActives;
use j39_frame::{Frame, Stamp};
use j39_groups::Groups;
use j39_io::{DeviceFault, Sink, Source};
use j39_listen::{
    Account, Chooser, Counts, Filter, LineFault, Listener, Made, Roles, RunFault, run_over,
};
use j39_log::Bus;
use j39_names::Naming;
use std::alloc::{AllocError, Global};

/// What is watched.
#[derive(Clone, Copy)]
pub struct Watched<'w, 't> {
    /// By which names faults and values are told.
    pub naming: Naming<'w, 't>,
    /// The groups whose values are shown: those of the naming's table, or some of its rows.
    pub groups: &'w Groups<'t>,
    /// What is taken of faults and values; `None` for all.
    pub filter: Option<Filter<'w>>,
    /// How large screens are, and how they tell things.
    pub size: ScreenSize,
}

/// Writes, for a log of at most `limit` bytes, a screen at the first frame of each half second of its stamps, and one at the
/// end: the stamp of the last frame, the faults of the controllers that are on the bus, and their last values of some groups, in the order in which their first came; of both what a filter takes, if one is given. A screen begins with the cursor's way home (ECMA-48), so that it
/// stands over the one before. Without a bus it is that of the first frame in the log.
pub fn watch<R: Source, W: Sink>(
    alloc: Global,
    watched: Watched<'_, '_>,
    source: &mut R,
    sink: &mut W,
    bus: Option<Bus>,
    limit: u64,
) -> Result<Counts, RunFault>
    // What the run promises is `Ran`: what is written is these screens, and nothing else. Memory is wanted only at a frame
    // that announces a message, at the first value of a parameter, at a text, and at the first DM1 of an address.
    ensures ran { Ran (MakesWatch (naming_of watched.entry.naming) watched.entry.groups.now (which_of watched.entry.filter) (size_of watched.entry.size))
        (AsksForWatch watched.entry.groups.now (which_of watched.entry.filter)) bus limit result
        (turn R.remaining R.has_failed source.old source.new) (turn W.written W.has_failed sink.old sink.new) }

    // What was written is passed on at the end, and before each read.
    ensures flushed { PassesOn result (W.is_flushed sink.old) (W.is_flushed sink.new) }
{
    run_over(Screens::new(alloc, watched), source, sink, bus, limit)
}

/// What was heard so far, and what its screens show.
#[derive(Drop)]
pub(crate) struct Screens<'g, 't> {
    naming: Naming<'g, 't>,
    roles: Roles<'g, 't>,
    size: ScreenSize,
    chooser: Chooser<'g>,
    listener: Listener,
    places: LastActives,
    values: Values<'t>,
    messages: u64,
    moment: Moment,
}

impl<'g, 't> Screens<'g, 't> {
    /// That of no frames.
    fn new(alloc: Global, watched: Watched<'g, 't>) -> Screens<'g, 't>
        ensures { HasWatched (naming_of watched.entry.naming) watched.entry.groups.now (which_of watched.entry.filter) (size_of watched.entry.size) result [] nothing }
    {
        Screens {
            naming: watched.naming,
            roles: Roles::new(watched.groups),
            size: watched.size,
            chooser: Chooser::new(watched.filter),
            listener: Listener::new(alloc),
            places: LastActives::new(),
            values: Values::new(alloc),
            messages: 0,
            moment: Moment::new(),
        }
    }

    /// Writes its screen, and answers how many lines that has.
    #[inline(never)]
    fn draw<W: Sink>(&self, sink: &mut W) -> Result<u16, DeviceFault>
        ensures lines { IfOk result (λ n. (which : FilterRecord) (F : List FrameRecord) → Chooses which self.now.chooser F
            → n ≡ length (fitted self.now.size.rows (lines_of_watch which (first_stamp F) self.now))) }
        ensures puts { (which : FilterRecord) (F : List FrameRecord) → Chooses which self.now.chooser F
            → Puts (screen_of_watch which (first_stamp F) self.now) result (turn W.written W.has_failed sink.old sink.new) }
        ensures mark { Marks result (W.has_failed sink.old) (W.has_failed sink.new) }
    {
        let view = View {
            naming: self.naming,
            listener: &self.listener,
            now: moment_of(self.moment.last),
            size: self.size,
        };
        let asked = AskedPlaces::new(&self.chooser, &self.places);
        put_screen(view, self.size.rows(), &asked, &self.values, sink)
    }
}

/// The moment of the last frame; 0 if there is none.
fn moment_of(last: Option<Stamp>) -> Stamp
    ensures { stamp_micros result ≡ unwrap_or (option_map stamp_micros last) 0 }
{
    match last {
        Some(last) => last,
        None => Stamp::new(0).unwrap(),
    }
}

impl<'g, 't> Account for Screens<'g, 't> {
    ghost use Rattle.j39_watch.specs.NotesSoFar.{HasWatched, Watching};
    ghost use Rattle.j39_watch.specs.Watch.{AsksForWatch, MakesWatch};

    ghost Subject = { Watching };

    ghost has_met = { λ subject bus. HasWatched subject.naming subject.groups subject.which subject.size };

    ghost makes = { λ subject. MakesWatch subject.naming subject.groups subject.which subject.size };

    ghost asks = { λ subject. AsksForWatch subject.groups subject.which };

    #[inline(always)]
    fn feed<W: Sink>(&mut self, _: &Bus, frame: &Frame, sink: &mut W) -> Result<(), LineFault> {
        self.chooser.note(frame);
        match note(
            &mut self.listener,
            &mut self.places,
            &mut self.values,
            &mut self.roles,
            &self.chooser,
            frame,
        ) {
            Ok(messages) => {
                let draws = self.moment.go_on(frame.stamp);
                self.messages = self.messages.saturating_add(messages);
                draw_if(self, draws, sink)
            }
            Err(AllocError) => Err(LineFault::Memory),
        }
    }

    fn close<W: Sink>(&self, sink: &mut W) -> Result<Made, DeviceFault> {
        let lines = self.draw(sink)?;
        Ok(Made {
            messages: self.messages,
            lines: u64::from(lines),
        })
    }

    fn laws() {}
}

/// Writes a screen if it is due.
#[inline(always)]
fn draw_if<W: Sink>(watch: &Screens<'_, '_>, draws: bool, sink: &mut W) -> Result<(), LineFault>
    ensures puts { (which : FilterRecord) (F : List FrameRecord) → Chooses which watch.now.chooser F
        → Puts (if draws then screen_of_watch which (first_stamp F) watch.now else []) result
        (turn W.written W.has_failed sink.old sink.new) }
    ensures mark { Marks result (W.has_failed sink.old) (W.has_failed sink.new) }
    ensures write { OnErr result (result ≡ Err Write) }
{
    if !draws {
        return Ok(());
    }
    match watch.draw(sink) {
        Ok(_) => Ok(()),
        Err(_) => Err(LineFault::Write),
    }
}
