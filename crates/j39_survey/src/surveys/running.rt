//! The survey of a log, piece by piece.
ghost use Rattle.std.specs.Prelude.{◌≡◌, ◌≢◌, ◌<◌, ◌≤◌, ℕ, List, Option, [], true, length, IfSome, OnOk, OnErr, Err};
ghost use Rattle.j39_io.specs.Turn.{turn};
ghost use Rattle.j39_listen.specs.Asking.{AsksForBoxes, AsksWithin};
ghost use Rattle.j39_listen.specs.Ran.{Ended, PassesOn};
ghost use Rattle.j39_listen.specs.Run.{PassesLimit, TakesWithin};
ghost use Rattle.j39_listen.specs.declared.running.RunFault.TheVariants.{Memory, Read, TooLong, Write};
ghost use Rattle.j39_names.specs.Naming.{naming_of};
ghost use Rattle.j39_survey.specs.SurveyRun.{Asked, StopsWithin, Surveyed, WritesFront, WritesSurvey};
ghost use Rattle.j39_survey.specs.SurveySoFar.{HasReadLog, HasTaken, TakesSome};

use crate::surveys::pieces::Pieces;
use crate::surveys::writing::put_survey;
use j39_io::{DeviceFault, Sink, Source};
use j39_listen::{Format, RunFault};
use j39_log::Bus;
use j39_names::Naming;
use std::alloc::{AllocError, Global};

/// The bytes of one read.
const PIECE: usize = 65_536;

/// In which form a survey is written, and by which names and their table.
#[derive(Clone, Copy)]
pub struct SurveyWanted<'n, 't> {
    pub form: Format,
    pub naming: &'n Naming<'n, 't>,
}

/// Writes what a log of at most `limit` bytes is: how many lines it has, its interfaces, the groups of one interface, its other
/// lines by kind, and its unread lines. Without a bus the groups are those of the first frame's.
/// Nothing is written before the end of the log. It takes memory at the start and at announcements.
pub fn survey<R: Source, W: Sink>(
    alloc: Global,
    wanted: SurveyWanted<'_, '_>,
    source: &mut R,
    sink: &mut W,
    bus: Option<Bus>,
    limit: u64,
) -> Result<(), RunFault>
    // What the run promises is `Surveyed`: what is written is the survey of the log's lines, and nothing else, at the end
    // of the log. Memory is wanted before the first read, and at a frame that announces a message.
    ensures ran { Surveyed (record { form = wanted.entry.form; naming = naming_of wanted.entry.naming.now; given = bus }) limit result
        (turn R.remaining R.has_failed source.old source.new) (turn W.written W.has_failed sink.old sink.new) }

    // What was written is passed on at the end; before the end of the log nothing is.
    ensures flushed { PassesOn result (W.is_flushed sink.old) (W.is_flushed sink.new) }
    ensures unflushed { OnErr result (result ≢ Err Write → W.is_flushed sink.new ≡ W.is_flushed sink.old) }
{
    let SurveyWanted { form, naming } = wanted;
    match Pieces::new(alloc, bus) {
        Ok(mut pieces) => survey_with(&mut pieces, form, naming, source, sink, limit),
        Err(_) => Err(RunFault::Memory),
    }
}

/// Reads a log to its end, and writes its survey, with the pieces at the start of a log.
fn survey_with<R: Source, W: Sink>(
    pieces: &mut Pieces,
    form: Format,
    naming: &Naming<'_, '_>,
    source: &mut R,
    sink: &mut W,
    limit: u64,
) -> Result<(), RunFault>
    // It ended as every run does, whatever the pieces had taken.
    ensures ended { Ended limit result
        (turn R.remaining R.has_failed source.old source.new) (turn W.written W.has_failed sink.old sink.new) }
    ensures writes { (asked : Asked) → asked.form ≡ form → asked.naming ≡ naming_of naming.now → HasTaken pieces.old asked.given []
        → OnOk result (IfSome (R.remaining source.old)
        (λ log. WritesSurvey asked log (W.written sink.old) (W.written sink.new))) }
    ensures memory { result ≡ Err Memory → (given : Option (List ℕ)) → HasTaken pieces.old given []
        → AsksWithin AsksForBoxes given (R.remaining source.old) (R.remaining source.new) }
    ensures at_limit { result ≡ Err TooLong
        → (taken : List ℕ) × PassesLimit limit (R.remaining source.old) (R.remaining source.new) taken }
    ensures silent { OnErr result (result ≢ Err Write → W.written sink.new ≡ W.written sink.old) }
    ensures cut_short { (asked : Asked) → asked.form ≡ form → asked.naming ≡ naming_of naming.now → HasTaken pieces.old asked.given []
        → result ≡ Err Write → IfSome (R.remaining source.old)
        (λ log. WritesFront asked log (W.written sink.old) (W.written sink.new)) }
    ensures prefix { (asked : Asked) → asked.form ≡ form → asked.naming ≡ naming_of naming.now → HasTaken pieces.old asked.given []
        → OnErr result (StopsWithin asked (R.remaining source.old)
        (R.remaining source.new) (W.written sink.old) (W.written sink.new)) }
    ensures flushed { OnOk result (W.is_flushed sink.new ≡ true) }
    ensures unflushed { OnErr result (result ≢ Err Write → W.is_flushed sink.new ≡ W.is_flushed sink.old) }
{
    match read_log(pieces, source, limit) {
        Ok(()) => {}
        Err(fault) => return Err(fault),
    }
    match put_survey(form, naming, &pieces.survey, sink) {
        Ok(()) => Ok(()),
        Err(DeviceFault) => Err(RunFault::Write),
    }
}

/// Reads a log to its end, piece by piece.
fn read_log<R: Source>(pieces: &mut Pieces, source: &mut R, limit: u64) -> Result<(), RunFault>
    ensures read_all { OnOk result ((given : Option (List ℕ)) → HasTaken pieces.old given []
        → HasReadLog limit pieces.new given (R.remaining source.old) (R.remaining source.new)) }
    ensures short { OnOk result (IfSome (R.remaining source.old) (λ log. length log ≤ limit)) }
    ensures took { OnErr result (TakesSome (R.remaining source.old) (R.remaining source.new)) }
    ensures too_long { result ≡ Err TooLong → IfSome (R.remaining source.old) (λ log. limit < length log) }
    ensures at_limit { result ≡ Err TooLong
        → (taken : List ℕ) × PassesLimit limit (R.remaining source.old) (R.remaining source.new) taken }
    ensures read { result ≡ Err Read → R.has_failed source.new ≡ true }
    ensures read_unmarked { result ≢ Err Read → R.has_failed source.new ≡ R.has_failed source.old }
    ensures memory { result ≡ Err Memory → (given : Option (List ℕ)) → HasTaken pieces.old given []
        → AsksWithin AsksForBoxes given (R.remaining source.old) (R.remaining source.new) }
    ensures write { result ≢ Err Write }
    ensures within { result ≢ Err TooLong → TakesWithin limit (R.remaining source.old) (R.remaining source.new) }
{
    let mut piece = [0u8; PIECE];
    let mut room = limit;
    'pieces: loop {
        let Ok(n) = source.pull(&mut piece) else {
            return Err(RunFault::Read);
        };
        if n == 0 {
            return match pieces.finish() {
                Ok(()) => Ok(()),
                Err(AllocError) => Err(RunFault::Memory),
            };
        }
        if n as u64 > room {
            return Err(RunFault::TooLong);
        }
        room -= n as u64;
        match pieces.take(&piece[..n]) {
            Ok(()) => {}
            Err(AllocError) => return Err(RunFault::Memory),
        }
    }
}
