//! The faults that are there now, as an account of the frames of a bus.
ghost use Rattle.std.specs.Prelude.{◌≡◌, ◌<◌, ◌≤◌, ◌++◌, ◌∷◌, [], List, None, IfOk, OnErr, OnOk, ℕ, length, true};
ghost use Rattle.j39_frame.specs.Frame.{FrameRecord};
ghost use Rattle.j39_frame.specs.Identifier.{id_raw, pgn_of};
ghost use Rattle.j39_listen.specs.Chooses.{Chooses, which_of};
ghost use Rattle.j39_listen.specs.Filter.{FilterRecord, first_stamp, in_time, is_in_time};
ghost use Rattle.j39_listen.specs.Heard.{AreHeardWith, Hearing};
ghost use Rattle.j39_listen.specs.HeardModel.{hearing_of};
ghost use Rattle.j39_listen.specs.Listening.{Hears};
ghost use Rattle.j39_listen.specs.Output.{nothing};
ghost use Rattle.j39_fault_reports.specs.Spoken.{active_among, is_active_message, is_of_active};
ghost use Rattle.j39_fault_reports.specs.FaultsNowRun.{AsksForFaultsNow};
ghost use Rattle.j39_fault_reports.specs.CurrentSoFar.{AreKept, HasKept, KnowsBrokenNow, TakesFrame};
ghost use Rattle.j39_fault_reports.specs.CurrentPlaces.{at};
ghost use Rattle.j39_fault_reports.specs.FaultsSoFar.{manner_of};
ghost use Rattle.j39_fault_reports.specs.News.{is_fault_group};

use crate::current_faults::last_actives::LastActives;
use crate::current_faults::lines::put_places;
use crate::current_faults::silence::last_with;
use crate::fault_news::account::{is_byte, is_of_fault_group, is_passed_over};
use crate::fault_news::announced::Announced;
use crate::fault_news::form::Writing;
use j39_faults::{Conversion, Kind, fault_group, lamps_of};
use j39_frame::{Frame, Stamp};
use j39_io::{DeviceFault, Sink};
use j39_listen::{Account, Chooser, Filter, Heard, LineFault, Listener, Made};
use j39_log::Bus;
use std::alloc::{AllocError, Global};

/// What is heard so far, what the last messages of active codes say, how many there were, and the stamp of the last frame between the
/// moments.
#[derive(Drop)]
pub(crate) struct FaultsNow<'g, 't, 'c> {
    alloc: Global,
    writing: Writing<'g, 't>,
    conversions: &'c [Conversion],
    chooser: Chooser<'c>,
    listener: Listener,
    places: LastActives,
    messages: u64,
    announced: Announced,
    last: Option<Stamp>,
}

impl<'g, 't, 'c> FaultsNow<'g, 't, 'c> {
    /// The faults of no frames.
    pub(crate) fn new(
        alloc: Global,
        writing: Writing<'g, 't>,
        conversions: &'c [Conversion],
        filter: Option<Filter<'c>>,
    ) -> FaultsNow<'g, 't, 'c>
        ensures { HasKept writing.entry.form (record { manner = manner_of writing.entry; conversions = conversions.now; which = which_of filter.entry })
            result [] nothing }
    {
        FaultsNow {
            alloc,
            writing,
            conversions,
            chooser: Chooser::new(filter),
            listener: Listener::new(alloc),
            places: LastActives::new(),
            messages: 0,
            announced: Announced::default(),
            last: None,
        }
    }

    /// How many messages of codes were announced and did not come whole.
    pub(crate) fn broken(self) -> u64
        ensures { KnowsBrokenNow self.entry result }
    {
        self.announced.broken()
    }
}

impl<'g, 't, 'c> Account for FaultsNow<'g, 't, 'c> {
    ghost use Rattle.j39_listen.specs.AccountCalls.{Begins, MakesOne};
    ghost use Rattle.j39_fault_reports.specs.FaultsNowRun.{AsksForFaultsNow, MakesFaultsNowIn};
    ghost use Rattle.j39_fault_reports.specs.CurrentSoFar.{HasKept, NowSubject};
    ghost use Rattle.j39_listen.specs.declared.format.Format.{Format};

    ghost Subject = { Format × NowSubject };

    ghost has_met = { λ subject bus. HasKept subject.0 subject.1 };

    ghost makes = { λ subject. MakesFaultsNowIn subject.0 subject.1.manner subject.1.conversions subject.1.which };

    ghost asks = { λ subject. AsksForFaultsNow subject.1.which };

    #[inline(always)]
    fn feed<W: Sink>(&mut self, _: &Bus, frame: &Frame, _: &mut W) -> Result<(), LineFault> {
        self.chooser.note(frame);
        self.last = last_with(&self.chooser, self.last, frame);
        match take_frame(
            self.alloc,
            &mut self.listener,
            self.conversions,
            &self.chooser,
            &mut self.places,
            &mut self.announced,
            frame,
        ) {
            Ok(messages) => {
                self.messages = self.messages.saturating_add(messages);
                Ok(())
            }
            Err(AllocError) => Err(LineFault::Memory),
        }
    }

    fn close<W: Sink>(&self, sink: &mut W) -> Result<Made, DeviceFault> {
        let lines = put_places(&self.places, self.writing, &self.chooser, self.last, sink)?;
        Ok(Made {
            messages: self.messages,
            lines,
        })
    }

    fn laws()
        ensures begins { (subject : Format × NowSubject)
            → Begins (λ bus. HasKept subject.0 subject.1)
            (MakesFaultsNowIn subject.0 subject.1.manner subject.1.conversions subject.1.which) }
        ensures one { (subject : Format × NowSubject)
            → MakesOne (MakesFaultsNowIn subject.0 subject.1.manner subject.1.conversions subject.1.which) }
    {}
}

/// Takes what is heard at a frame of the run's bus, if it came between the moments, and answers how many messages of active codes
/// that is. Most frames are of groups that nobody hears: those are done with here.
#[inline(always)]
fn take_frame(
    alloc: Global,
    listener: &mut Listener,
    conversions: &[Conversion],
    chooser: &Chooser<'_>,
    places: &mut LastActives,
    announced: &mut Announced,
    frame: &Frame,
) -> Result<u64, AllocError>
    ensures taken { IfOk result (λ messages. (which : FilterRecord) (F : List FrameRecord) (ms : List Hearing) → Hears listener.old F
        → Chooses which chooser.now (F ++ frame.now ∷ []) → AreKept conversions.now places.old ms
        → TakesFrame which conversions.now F frame.now listener.new places.new announced.old announced.new ms messages) }
    ensures asked { OnErr result ((which : FilterRecord) (F : List FrameRecord) (heard : List Hearing) → Hears listener.old F
        → Chooses which chooser.now (F ++ frame.now ∷ []) → AreHeardWith is_fault_group F heard
        → AreKept conversions.now places.old (in_time which (first_stamp (F ++ frame.now ∷ [])) (active_among heard))
        → AsksForFaultsNow which F frame.now) }
{
    if is_passed_over(frame.id) {
        announced.add_frame(frame);
        return Ok(0);
    }
    take_spoken(
        alloc,
        listener,
        conversions,
        chooser,
        places,
        announced,
        frame,
    )
}

/// The same of a frame at which a message may be heard.
#[inline(never)]
fn take_spoken(
    alloc: Global,
    listener: &mut Listener,
    conversions: &[Conversion],
    chooser: &Chooser<'_>,
    places: &mut LastActives,
    announced: &mut Announced,
    frame: &Frame,
) -> Result<u64, AllocError>
    ensures taken { IfOk result (λ messages. (which : FilterRecord) (F : List FrameRecord) (ms : List Hearing) → Hears listener.old F
        → Chooses which chooser.now (F ++ frame.now ∷ []) → AreKept conversions.now places.old ms
        → TakesFrame which conversions.now F frame.now listener.new places.new announced.old announced.new ms messages) }
    ensures asked { OnErr result ((which : FilterRecord) (F : List FrameRecord) (heard : List Hearing) → Hears listener.old F
        → Chooses which chooser.now (F ++ frame.now ∷ []) → AreHeardWith is_fault_group F heard
        → AreKept conversions.now places.old (in_time which (first_stamp (F ++ frame.now ∷ [])) (active_among heard))
        → AsksForFaultsNow which F frame.now) }
{
    let is_single = is_of_fault_group(frame.id);
    announced.add_frame(frame);
    match listener.feed_as(is_single, frame) {
        Err(AllocError) => Err(AllocError),
        Ok(None) => Ok(0),
        Ok(Some(heard)) => {
            announced.add_heard(&heard);
            let is_timely = chooser.is_in_time(heard.message.stamp);
            take_heard(alloc, &heard, is_timely, conversions, places)
        }
    }
}

/// Takes a message, where it is one of active codes, if it came between the moments, and answers how many of active codes that is.
pub fn take_heard(
    alloc: Global,
    heard: &Heard<'_>,
    is_timely: bool,
    conversions: &[Conversion],
    places: &mut LastActives,
) -> Result<u64, AllocError>
    requires { length heard.now.message.payload.now ≤ 1785 }
    ensures counted { IfOk result (λ messages. messages ≡ length (active_among (hearing_of heard.now ∷ []))) }
    ensures taken { OnOk result ((which : FilterRecord) (first : ℕ) (ms : List Hearing)
        → is_timely ≡ is_in_time which first (hearing_of heard.now).stamp → AreKept conversions.now places.old ms
        → AreKept conversions.now places.new (ms ++ in_time which first (active_among (hearing_of heard.now ∷ [])))) }
    ensures asked { OnErr result ((is_active_message (hearing_of heard.now) ≡ true) × (is_timely ≡ true)
        × (at places.old heard.now.message.source ≡ None)) }
    ensures fits { heard.now.message.source < 256 }
{
    let _fits = is_byte(heard.message.source);
    if !is_active(fault_group(heard.message.pgn)) {
        return Ok(0);
    }
    let Some(lamps) = lamps_of(heard.message.payload) else {
        return Ok(0);
    };
    if !is_timely {
        return Ok(1);
    }
    match places.take(alloc, conversions, heard, lamps) {
        Ok(()) => Ok(1),
        Err(AllocError) => Err(AllocError),
    }
}

/// Whether it is the kind of active codes.
fn is_active(kind: Option<Kind>) -> bool
    ensures { result ≡ is_of_active kind }
{
    match kind {
        Some(Kind::Active) => true,
        Some(
            Kind::Previous
            | Kind::EmissionPending
            | Kind::EmissionActive
            | Kind::EmissionPrevious
            | Kind::Pending
            | Kind::Permanent,
        ) => false,
        None => false,
    }
}
