//! The rows of a summary.
ghost use Rattle.std.specs.Prelude.{◌≡◌, Some};
ghost use Rattle.std.specs.List.{IsDistinct};
ghost use Rattle.std.specs.Map.{keys_of};
ghost use Rattle.std.proofs.Props.{props};
ghost use Rattle.j39_frame.specs.Origin.{is_same};
ghost use Rattle.j39_groups.specs.Models.{value_of};
ghost use Rattle.j39_memory.specs.ByOrigin.{pairs_of};
ghost use Rattle.j39_reports.specs.Leads.{AreLed, LeadsHead, leads_of};

use crate::summaries::absences::Absences;
use crate::summaries::guesses::Guesses;
use crate::summaries::message_head::MessageHead;
use crate::summaries::statistics::{AddedValue, Statistics};
use crate::summaries::word::Word;
use j39_groups::{ReadingVisitor, Slot, Value};
use j39_listen::Heard;
use j39_memory::ByOrigin;
use std::alloc::{AllocError, Global};

/// The rows so far, by their origins in the order of their first values; where the rows of the last values stand; how
/// often parameters were not available; and what the readings of a message have in common.
#[derive(Drop)]
pub(crate) struct Rows<'t> {
    pub rows: ByOrigin<Statistics<'t>>,
    guesses: Guesses,
    pub absences: Absences,
    alloc: Global,
    head: MessageHead,
    /// Where a row of the last messages stands, by address and group.
    leads: Guesses,
    /// Where the row that leads those of the message's head stands, or [`NOWHERE`] while that isn't known.
    lead: usize,
    /// Where the row of the next value stands, if that is the row behind the last one's.
    next: usize,
    /// Whether memory was refused since the message began: then what is here is no summary any more. It is asked once a
    /// message, and not with each value.
    pub is_refused: bool,
    ghost apart: { IsDistinct is_same (keys_of (pairs_of rows)) } by { Prim.hlevel props },
    ghost led: { AreLed (keys_of (pairs_of rows)) (leads_of (pairs_of rows)) } by { Prim.hlevel props },
    ghost leads_head: { LeadsHead (keys_of (pairs_of rows)) lead head } by { Prim.hlevel props },
}

/// A place where no row stands.
const NOWHERE: usize = usize::MAX;

impl<'t> Rows<'t> {
    ghost use Rattle.std.specs.Prelude.{◌++◌, ◌∷◌, [], List, IfSome, IsOk, OnOk, OnErr, None, false};
    ghost use Rattle.j39_frame.specs.Origin.{place_in};
    ghost use Rattle.j39_frame.specs.Stamp.{stamp_micros};
    ghost use Rattle.j39_listen.specs.Report.{Entry};
    ghost use Rattle.j39_listen.specs.HeardModel.{hearing_of};
    ghost use Rattle.j39_frame.specs.declared.origin.Origin.{Origin};
    ghost use Rattle.j39_reports.specs.Leads.{AddsLead, KeepsLeads};
    ghost use Rattle.j39_reports.specs.RowsSoFar.{AreCounted, AreRowsOf, HasTaken, TakesReading};
    ghost use Rattle.j39_reports.specs.MessageHeads.{origin_in};
    ghost use Rattle.j39_reports.specs.RowModels.{entry_at, word_value};
    ghost use Rattle.j39_reports.specs.SummaryRun.{WantsRow};

    /// No rows.
    pub fn new(alloc: Global) -> Rows<'t>
        ensures rows { AreRowsOf (pairs_of result.rows) [] }
        ensures counted { AreCounted (pairs_of result.absences.counts) [] }
    {
        Rows {
            rows: ByOrigin::new(alloc),
            guesses: Guesses::new(),
            absences: Absences::new(alloc),
            alloc,
            head: MessageHead::new(),
            leads: Guesses::new(),
            lead: NOWHERE,
            next: NOWHERE,
            is_refused: false,
        }
    }

    /// Takes what the readings of a message have in common.
    #[inline(always)]
    pub fn begin(&mut self, heard: &Heard<'_>)
        ensures taken { (before : List Entry) (absent : List Origin) → AreRowsOf (pairs_of self.old.rows) before
            → AreCounted (pairs_of self.old.absences.counts) absent
            → HasTaken (record { before = before; absent = absent; hearing = hearing_of heard.now }) self.new [] }
        ensures free { self.new.is_refused ≡ false }
    {
        self.head = MessageHead::of(heard);
        let guess = self.leads.guess(self.head.address, self.head.pgn);
        self.lead = known_lead(&self.rows, guess, &self.head);
        self.next = self.lead;
        self.is_refused = false;
    }

    /// Where the row of the message's next value stands, where that is the next one: whether it is of the message's head
    /// is told by its lead.
    #[inline(always)]
    fn next_place(&self, spn: u32) -> Option<usize>
        ensures { IfSome result (λ place. place_in (pairs_of self.now.rows) (origin_in self.now.head spn) ≡ Some place) }
    {
        let place = self.next;
        if place >= self.rows.len() {
            return None;
        }
        let (origin, statistics) = self.rows.pair_at(place);
        if origin.spn == spn && statistics.lead == self.lead {
            Some(place)
        } else {
            None
        }
    }

    /// Takes a value to its row.
    #[inline(always)]
    fn take_value(&mut self, spn: u32, value: Value<'t, '_>) -> Result<(), AllocError>
        ensures head { self.new.head ≡ self.old.head }
        ensures absences { self.new.absences ≡ self.old.absences }
        ensures refused { self.new.is_refused ≡ self.old.is_refused }
        ensures taken { OnOk result ((before : List Entry) → AreRowsOf (pairs_of self.old.rows) before
            → AreRowsOf (pairs_of self.new.rows)
            (before ++ entry_at (origin_in self.old.head spn) (stamp_micros self.old.head.stamp) (value_of value.entry) ∷ [])) }
        ensures wanted { OnErr result ((before : List Entry) → AreRowsOf (pairs_of self.old.rows) before
            → WantsRow before (entry_at (origin_in self.old.head spn) (stamp_micros self.old.head.stamp) (value_of value.entry))) }
    {
        match self.next_place(spn) {
            Some(place) => {
                self.next = place + 1;
                Self::take(&mut self.rows, self.alloc, place, &self.head, spn, value)
            }
            None => self.take_elsewhere(spn, value),
        }
    }

    /// Takes a value to its row wherever that stands, off the quick path.
    #[inline(never)]
    fn take_elsewhere(&mut self, spn: u32, value: Value<'t, '_>) -> Result<(), AllocError>
        ensures head { self.new.head ≡ self.old.head }
        ensures absences { self.new.absences ≡ self.old.absences }
        ensures refused { self.new.is_refused ≡ self.old.is_refused }
        ensures taken { OnOk result ((before : List Entry) → AreRowsOf (pairs_of self.old.rows) before
            → AreRowsOf (pairs_of self.new.rows)
            (before ++ entry_at (origin_in self.old.head spn) (stamp_micros self.old.head.stamp) (value_of value.entry) ∷ [])) }
        ensures wanted { OnErr result ((before : List Entry) → AreRowsOf (pairs_of self.old.rows) before
            → WantsRow before (entry_at (origin_in self.old.head spn) (stamp_micros self.old.head.stamp) (value_of value.entry))) }
    {
        let origin = self.head.origin(spn);
        match self.guesses.place_of(&self.rows, origin) {
            Some(place) => {
                let (_, statistics) = self.rows.pair_at(place);
                self.lead = statistics.lead;
                self.leads
                    .remember(self.head.address, self.head.pgn, self.lead);
                self.next = place + 1;
                Self::take(&mut self.rows, self.alloc, place, &self.head, spn, value)
            }
            None => {
                let place = self.rows.len();
                let lead = self.lead.min(place);
                Self::add(&mut self.rows, self.alloc, lead, &self.head, spn, value)?;
                self.lead = lead;
                self.leads.remember(self.head.address, self.head.pgn, lead);
                self.next = place + 1;
                Ok(())
            }
        }
    }

    /// Takes a value to its row; where memory was refused is noted, and no fault.
    #[inline(always)]
    fn note_value(&mut self, spn: u32, value: Value<'t, '_>) -> Result<(), AllocError>
        ensures noted { TakesReading self.old self.new (record { spn = spn; value = value_of value.entry }) }
        ensures goes_on { IsOk result }
    {
        match self.take_value(spn, value) {
            Ok(()) => Ok(()),
            Err(AllocError) => {
                self.is_refused = true;
                Ok(())
            }
        }
    }

    /// The same for a word, of which no more than itself is handed on.
    #[inline(never)]
    fn note_word(&mut self, spn: u32, word: Word) -> Result<(), AllocError>
        ensures noted { TakesReading self.old self.new (record { spn = spn; value = word_value word }) }
        ensures goes_on { IsOk result }
    {
        self.note_value(spn, word.value())
    }

    /// Takes a value to its row, which stands at this place.
    #[inline(always)]
    fn take(
        rows: &mut ByOrigin<Statistics<'t>>,
        alloc: Global,
        place: usize,
        head: &MessageHead,
        spn: u32,
        value: Value<'t, '_>,
    ) -> Result<(), AllocError>
        requires { place_in (pairs_of rows.old) (origin_in head.now spn) ≡ Some place }
        ensures taken { OnOk result ((before : List Entry) → AreRowsOf (pairs_of rows.old) before
            → AreRowsOf (pairs_of rows.new)
            (before ++ entry_at (origin_in head.now spn) (stamp_micros head.now.stamp) (value_of value.entry) ∷ [])) }
        ensures wanted { OnErr result ((before : List Entry) → AreRowsOf (pairs_of rows.old) before
            → WantsRow before (entry_at (origin_in head.now spn) (stamp_micros head.now.stamp) (value_of value.entry))) }
        ensures led { KeepsLeads (pairs_of rows.old) (pairs_of rows.new) }
    {
        let stamp = head.stamp;
        rows.change(
            place,
            AddedValue {
                alloc,
                stamp,
                value,
            },
        )
    }

    /// Begins a row, with where the row that leads it stands.
    #[inline(never)]
    fn add(
        rows: &mut ByOrigin<Statistics<'t>>,
        alloc: Global,
        lead: usize,
        head: &MessageHead,
        spn: u32,
        value: Value<'t, '_>,
    ) -> Result<(), AllocError>
        requires { place_in (pairs_of rows.old) (origin_in head.now spn) ≡ None }
        ensures begun { OnOk result ((before : List Entry) → AreRowsOf (pairs_of rows.old) before
            → AreRowsOf (pairs_of rows.new)
            (before ++ entry_at (origin_in head.now spn) (stamp_micros head.now.stamp) (value_of value.entry) ∷ [])) }
        ensures led { OnOk result (AddsLead lead (origin_in head.now spn) (pairs_of rows.old) (pairs_of rows.new)) }
        ensures refused { OnErr result (pairs_of rows.new ≡ pairs_of rows.old) }
    {
        let statistics = Statistics::begin(alloc, lead, head.stamp, value)?;
        rows.add(head.origin(spn), statistics)
    }
}

/// Where the row that leads those of a message of this head stands: there, where one stands there.
#[inline(always)]
fn known_lead(rows: &ByOrigin<Statistics<'_>>, place: usize, head: &MessageHead) -> usize
    ensures { LeadsHead (keys_of (pairs_of rows.now)) result head.now }
{
    if place < rows.len() {
        let (origin, _) = rows.pair_at(place);
        if origin == head.origin(origin.spn) {
            return place;
        }
    }
    NOWHERE
}

/// The same value, its scale field by field: so what lies between a scale's fields is not copied with each value.
#[inline(always)]
fn fields_of<'t, 'v>(value: Value<'t, 'v>) -> Value<'t, 'v>
    ensures { value_of result ≡ value_of value.entry }
{
    match value {
        Value::Number(number, scale) => Value::Number(
            number,
            Slot::of_own_table(scale.step(), scale.offset(), scale.places(), scale.unit()),
        ),
        Value::On => Value::On,
        Value::Off => Value::Off,
        Value::Error => Value::Error,
        Value::Reserved => Value::Reserved,
        Value::Indicator => Value::Indicator,
        Value::Text(text) => Value::Text(text),
    }
}

impl<'t> ReadingVisitor<'t, ()> for Rows<'t> {
    ghost use Rattle.j39_reports.specs.RowsSoFar.{GoesOn, Message, WantsAt};

    type Fault = AllocError;

    ghost Subject = { Message };

    ghost has_taken = { λ message rows medium. GoesOn message rows };

    ghost has_stopped = { λ message before at rows medium. WantsAt message before at };

    #[inline(always)]
    fn visit(&mut self, spn: u32, value: Value<'t, '_>, _: &mut ()) -> Result<(), AllocError> {
        match Word::of(value) {
            Some(word) => self.note_word(spn, word),
            None => self.note_value(spn, fields_of(value)),
        }
    }

    fn visit_absent(&mut self, spn: u32, _: &mut ()) -> Result<(), AllocError> {
        let origin = self.head.origin(spn);
        match self.absences.count(origin) {
            Ok(()) => Ok(()),
            Err(AllocError) => {
                self.is_refused = true;
                Ok(())
            }
        }
    }
}
