//! A run over a log, piece by piece, whatever account of it is written.
ghost use Rattle.std.specs.Prelude.{◌≡◌, ◌≢◌, ◌<◌, ◌++◌, [], true, IfOk, IfSome, OnOk, OnErr, Err};
ghost use Rattle.j39_io.specs.Turn.{turn};
ghost use Rattle.j39_listen.specs.Asking.{AsksAmong};
ghost use Rattle.j39_listen.specs.PiecesSoFar.{AtNothing, AtStart, Behind, HasTaken, KeepsUp};
ghost use Rattle.j39_listen.specs.Ran.{Ended, PassesOn, Ran};
ghost use Rattle.j39_listen.specs.Run.{HasMetLog, Writes, WritesFront, WritesFrontOfMore};
ghost use Rattle.j39_listen.specs.declared.running.RunFault.TheVariants.{Memory, Read, Write, TooLong};

use crate::Counts;
use crate::account::{Account, LineFault};
use crate::pieces::Pieces;
use j39_io::{Sink, Source};
use j39_log::Bus;
use std::fmt;
use thiserror::Error;

/// Why a run was not finished.
#[derive(Clone, Copy, Debug, PartialEq, Eq, Error)]
pub enum RunFault {
    /// Memory was refused.
    Memory,
    /// The reader answered an error.
    Read,
    /// The writer answered an error, or took no byte.
    Write,
    /// The reader gave more bytes than the limit.
    TooLong,
}

impl RunFault {
    ghost use Rattle.j39_listen.specs.Fault.{fault_words};

    /// What went wrong, in words.
    pub fn words(self) -> &'static str
        ensures { result.now ≡ fault_words self }
    {
        match self {
            RunFault::Memory => "out of memory",
            RunFault::Read => "read failed",
            RunFault::Write => "write failed",
            RunFault::TooLong => "input too long",
        }
    }
}

impl fmt::Display for RunFault {
    ghost use Rattle.std.specs.Prelude.{Some};
    ghost use Rattle.j39_listen.specs.Fault.{fault_words};

    ghost output = { λ fault. Some (fault_words fault) };

    fn fmt<W: fmt::Write>(&self, f: &mut fmt::Formatter<W>) -> fmt::Result {
        f.write_str(self.words())
    }
}

/// The bytes of one read.
const PIECE: usize = 65_536;

/// Writes an account of a log of at most `limit` bytes; the account has met no frame.
pub fn run_over<A: Account, R: Source, W: Sink>(
    account: A,
    source: &mut R,
    sink: &mut W,
    bus: Option<Bus>,
    limit: u64,
) -> Result<Counts, RunFault>
    // It ended as every run does, whatever the account had met.
    ensures ended { Ended limit result
        (turn R.remaining R.has_failed source.old source.new) (turn W.written W.has_failed sink.old sink.new) }

    // What the run promises is `Ran`: what is written is what the account makes of the log's frames, and nothing else.
    // Memory is wanted where the account asks for some.
    ensures ran { AtStart A.has_met account (λ subject. Ran (A.makes subject) (A.asks subject) bus limit result
        (turn R.remaining R.has_failed source.old source.new) (turn W.written W.has_failed sink.old sink.new)) }

    // What was written is passed on at the end, and before each read.
    ensures flushed { PassesOn result (W.is_flushed sink.old) (W.is_flushed sink.new) }

    // Where a read ends the run, all that the whole lines before it make was written.
    ensures kept_up { result ≡ Err Read → AtStart A.has_met account (λ subject. KeepsUp (A.has_met subject) [] bus
        (R.remaining source.old) (R.remaining source.new) (W.written sink.old) (W.written sink.new)) }
{
    let mut pieces = Pieces::new(account, bus);
    read_pieces(&mut pieces, source, sink, limit)
}

/// Writes an account as `run_over` does, and hands it back: after a run that ended well it has met the log's frames.
pub fn run_keeping<A: Account, R: Source, W: Sink>(
    account: A,
    source: &mut R,
    sink: &mut W,
    bus: Option<Bus>,
    limit: u64,
) -> (Result<Counts, RunFault>, A)
    // How it ended and what it promises are those of `run_over`.
    ensures ended { Ended limit result.0
        (turn R.remaining R.has_failed source.old source.new) (turn W.written W.has_failed sink.old sink.new) }
    ensures ran { AtStart A.has_met account (λ subject. Ran (A.makes subject) (A.asks subject) bus limit result.0
        (turn R.remaining R.has_failed source.old source.new) (turn W.written W.has_failed sink.old sink.new)) }
    ensures flushed { PassesOn result.0 (W.is_flushed sink.old) (W.is_flushed sink.new) }

    // After a run that ended well the account has met the frames of the log.
    ensures met { OnOk result.0 (AtStart A.has_met account (λ subject. IfSome (R.remaining source.old)
        (λ log. HasMetLog (A.has_met subject) bus log result.1))) }
    ensures kept_up { result.0 ≡ Err Read → AtStart A.has_met account (λ subject. KeepsUp (A.has_met subject) [] bus
        (R.remaining source.old) (R.remaining source.new) (W.written sink.old) (W.written sink.new)) }
{
    let mut pieces = Pieces::new(account, bus);
    let ran = read_pieces(&mut pieces, source, sink, limit);
    (ran, pieces.into_account())
}

/// Reads a log to its end, piece by piece.
fn read_pieces<A: Account, R: Source, W: Sink>(
    pieces: &mut Pieces<A>,
    source: &mut R,
    sink: &mut W,
    limit: u64,
) -> Result<Counts, RunFault>
    ensures ended { Ended limit result
        (turn R.remaining R.has_failed source.old source.new) (turn W.written W.has_failed sink.old sink.new) }
    ensures ran { AtNothing A.has_met pieces.old (W.written sink.old)
        (λ subject given. Ran (A.makes subject) (A.asks subject) given limit result
        (turn R.remaining R.has_failed source.old source.new) (turn W.written W.has_failed sink.old sink.new)) }
    ensures flushed { PassesOn result (W.is_flushed sink.old) (W.is_flushed sink.new) }
    ensures met { OnOk result (AtNothing A.has_met pieces.old (W.written sink.old)
        (λ subject given. IfSome (R.remaining source.old)
        (λ log. HasMetLog (A.has_met subject) given log pieces.new.lines.account))) }
    ensures kept_up { result ≡ Err Read → AtNothing A.has_met pieces.old (W.written sink.old)
        (λ subject given. KeepsUp (A.has_met subject) [] given (R.remaining source.old) (R.remaining source.new)
        (W.written sink.old) (W.written sink.new)) }
{
    A::laws();
    let mut piece = [0u8; PIECE];
    let mut room = limit;
    'pieces: loop {
        let Ok(n) = source.pull(&mut piece) else {
            return Err(RunFault::Read);
        };
        if n == 0 {
            return finish(pieces, sink);
        }
        if n as u64 > room {
            return Err(RunFault::TooLong);
        }
        room -= n as u64;
        match take(pieces, &piece[..n], sink) {
            Ok(()) => {}
            Err(fault) => return Err(fault),
        }
    }
}

/// Takes a piece, and tells its faults as those of a run.
fn take<A: Account, W: Sink>(
    pieces: &mut Pieces<A>,
    piece: &[u8],
    sink: &mut W,
) -> Result<(), RunFault>
    ensures taken { OnOk result ((subject : A.Subject)
        → Behind (A.has_met subject) pieces.old (W.written sink.old)
        (λ given taken held. HasTaken (A.has_met subject) given (taken ++ piece.now) pieces.new held
        (W.written sink.new))) }
    ensures front { OnErr result ((subject : A.Subject)
        → Behind (A.has_met subject) pieces.old (W.written sink.old)
        (λ given taken held. WritesFrontOfMore (A.makes subject) given (taken ++ piece.now) held (W.written sink.new))) }
    ensures write { result ≡ Err Write → W.has_failed sink.new ≡ true }
    ensures unmarked { result ≢ Err Write → W.has_failed sink.new ≡ W.has_failed sink.old }
    ensures asked { result ≡ Err Memory → (subject : A.Subject)
        → Behind (A.has_met subject) pieces.old (W.written sink.old)
        (λ given taken held. AsksAmong (A.asks subject) given (taken ++ piece.now)) }
    ensures flushed { OnOk result (W.is_flushed sink.new ≡ true) }
    ensures passed_on { result ≡ Err Memory → W.is_flushed sink.new ≡ true }
    ensures not_read { result ≢ Err Read }
    ensures not_long { result ≢ Err TooLong }
{
    match pieces.take(piece, sink) {
        Ok(()) => Ok(()),
        Err(LineFault::Memory) => Err(RunFault::Memory),
        Err(LineFault::Write) => Err(RunFault::Write),
    }
}

/// Finishes the log, and tells the faults as those of a run.
fn finish<A: Account, W: Sink>(pieces: &mut Pieces<A>, sink: &mut W) -> Result<Counts, RunFault>
    ensures report { IfOk result (λ counts. (subject : A.Subject)
        → Behind (A.has_met subject) pieces.old (W.written sink.old)
        (λ given taken held. Writes (A.makes subject) given taken counts held (W.written sink.new))) }
    ensures front { OnErr result ((subject : A.Subject)
        → Behind (A.has_met subject) pieces.old (W.written sink.old)
        (λ given taken held. WritesFront (A.makes subject) given taken held (W.written sink.new))) }
    ensures write { result ≡ Err Write → W.has_failed sink.new ≡ true }
    ensures unmarked { result ≢ Err Write → W.has_failed sink.new ≡ W.has_failed sink.old }
    ensures asked { result ≡ Err Memory → (subject : A.Subject)
        → Behind (A.has_met subject) pieces.old (W.written sink.old)
        (λ given taken held. AsksAmong (A.asks subject) given taken) }
    ensures flushed { OnOk result (W.is_flushed sink.new ≡ true) }
    ensures passed_on { result ≡ Err Memory → W.is_flushed sink.new ≡ true }
    ensures not_read { result ≢ Err Read }
    ensures not_long { result ≢ Err TooLong }
    ensures met { OnOk result ((subject : A.Subject) → Behind (A.has_met subject) pieces.old (W.written sink.old)
        (λ given taken held. HasMetLog (A.has_met subject) given taken pieces.new.lines.account)) }
{
    match pieces.finish(sink) {
        Ok(counts) => Ok(counts),
        Err(LineFault::Memory) => Err(RunFault::Memory),
        Err(LineFault::Write) => Err(RunFault::Write),
    }
}
