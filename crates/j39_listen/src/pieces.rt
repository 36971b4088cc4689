//! A run over pieces of a log.
ghost use Rattle.std.specs.Prelude.{◌≡◌, ◌≢◌, ◌<◌, ◌≤◌, ◌++◌, ℕ, List, [], Option, true, OnOk, OnErr, IfOk, IfSome, Err, length};
ghost use Rattle.std.specs.Io.KnownBytes.{Keeps};
ghost use Rattle.j39_io.specs.Turn.{turn};
ghost use Rattle.j39_log.specs.FrameLine.{BeginsStamp, HasLine};
ghost use Rattle.j39_log.specs.Splitter.{HasBegun};
ghost use Rattle.j39_listen.specs.AccountCalls.{LeavesWriter};
ghost use Rattle.j39_listen.specs.Asking.{AsksAmong};
ghost use Rattle.j39_listen.specs.WantsMemory.{AsksIn, AsksLast};
ghost use Rattle.j39_listen.specs.PiecesSoFar.{AtStart, Behind, HasTaken, PassesOver, ReadsLast, StepsOver, StopsIn, StopsLast};
ghost use Rattle.j39_listen.specs.Run.{HasMetLog, Writes, WritesFront, WritesFrontOfMore};
ghost use Rattle.j39_listen.specs.declared.account.LineFault.TheVariants.{Memory, Write};

use crate::Counts;
use crate::account::{Account, LineFault};
use crate::counts::Tally;
use crate::lines::Lines;
use j39_io::{DeviceFault, Sink};
use j39_log::{Bus, FrameLine, LastSecond, Splitter};

/// A log that is read in pieces, and the run over its lines.
#[derive(Drop)]
pub(crate) struct Pieces<A> {
    splitter: Splitter,
    lines: Lines<A>,
    /// What the lines that were read quickly share with the next ones: it tells nothing of the lines.
    last: LastSecond,
}

impl<A: Account> Pieces<A> {
    /// At the start of a log, with an account of no frames.
    pub fn new(account: A, bus: Option<Bus>) -> Pieces<A>
        ensures { (held : Option (List ℕ))
            → AtStart A.has_met account (λ subject. HasTaken (A.has_met subject) bus [] result held held) }
    {
        Pieces {
            splitter: Splitter::new(),
            lines: Lines {
                bus,
                account,
                tally: Tally::default(),
            },
            last: LastSecond::new(),
        }
    }

    /// The account of the lines that were read.
    pub fn into_account(self) -> A
        ensures { result ≡ self.lines.account }
    {
        let Pieces { lines, .. } = self;
        let Lines { account, .. } = lines;
        account
    }

    /// Takes a piece of the log, writes what is to be written at the lines that it ends, and passes it on: so
    /// a reader of a live bus sees each value before the next read.
    pub fn take<W: Sink>(&mut self, piece: &[u8], sink: &mut W) -> Result<(), LineFault>
        ensures taken { OnOk result ((subject : A.Subject) → Behind (A.has_met subject) self.old (W.written sink.old)
            (λ given taken held. HasTaken (A.has_met subject) given (taken ++ piece.now) self.new held
            (W.written sink.new))) }
        ensures front { OnErr result ((subject : A.Subject) → Behind (A.has_met subject) self.old (W.written sink.old)
            (λ given taken held. WritesFrontOfMore (A.makes subject) given (taken ++ piece.now) held
            (W.written sink.new))) }
        ensures write { result ≡ Err Write → W.has_failed sink.new ≡ true }
        ensures unmarked { result ≢ Err Write → W.has_failed sink.new ≡ W.has_failed sink.old }
        ensures flushed { OnOk result (W.is_flushed sink.new ≡ true) }
        ensures passed_on { result ≡ Err Memory → W.is_flushed sink.new ≡ true }
        ensures asked { result ≡ Err Memory → (subject : A.Subject)
            → Behind (A.has_met subject) self.old (W.written sink.old)
            (λ given taken held. AsksAmong (A.asks subject) given (taken ++ piece.now)) }
    {
        A::laws();
        match self.take_lines(piece, sink) {
            Ok(()) => {}
            Err(fault) => return Err(stop(fault, sink)),
        }
        match sink.flush() {
            Ok(()) => Ok(()),
            Err(DeviceFault) => Err(LineFault::Write),
        }
    }

    fn take_lines<W: Sink>(&mut self, piece: &[u8], sink: &mut W) -> Result<(), LineFault>
        ensures taken { OnOk result ((subject : A.Subject) → Behind (A.has_met subject) self.old (W.written sink.old)
            (λ given taken held. HasTaken (A.has_met subject) given (taken ++ piece.now) self.new held
            (W.written sink.new))) }
        ensures front { OnErr result ((subject : A.Subject) → Behind (A.has_met subject) self.old (W.written sink.old)
            (λ given taken held. WritesFrontOfMore (A.makes subject) given (taken ++ piece.now) held
            (W.written sink.new))) }
        ensures write { result ≡ Err Write → W.has_failed sink.new ≡ true }
        ensures unmarked { result ≢ Err Write → W.has_failed sink.new ≡ W.has_failed sink.old }
        ensures asked { result ≡ Err Memory → (subject : A.Subject)
            → Behind (A.has_met subject) self.old (W.written sink.old)
            (λ given taken held. AsksAmong (A.asks subject) given (taken ++ piece.now)) }
    {
        A::laws();
        let mut rest = piece;
        while !rest.is_empty() {
            let (lines, behind, found) = self.lines_passed(rest);
            self.lines.pass_over(lines);
            let n = match self.take_line(found, behind, sink) {
                Ok(n) => n,
                Err(fault) => return Err(fault),
            };
            (_, rest) = behind.split_at(n);
        }
        Ok(())
    }

    /// How many lines the bytes begin with of which all is remembered and nothing is to be made, where nothing is begun; what
    /// follows them, and the line that it begins with, where that one is to be taken. Nothing is changed, so the loop has no call.
    #[inline(always)]
    fn lines_passed<'a>(&self, bytes: &'a [u8]) -> (u64, &'a [u8], Option<(FrameLine<'a>, usize)>)
        ensures passed { PassesOver A.has_met self.now bytes.now result.0 result.1.now }
        ensures line { IfSome result.2 (λ found. (begun : List ℕ) → HasBegun self.now.splitter begun
            → HasLine self.now.splitter begun result.1.now self.now.lines.bus found.0 found.1) }
        ensures stamped { IfSome result.2 (λ found. BeginsStamp found.0) }
        ensures count { IfSome result.2 (λ found. found.1 ≤ length result.1.now) }
        ensures some { IfSome result.2 (λ found. 0 < found.1) }
    {
        let Some(bus) = &self.lines.bus else {
            return (0, bytes, None);
        };
        if !self.splitter.is_between_lines() {
            return (0, bytes, None);
        }
        let mut rest = bytes;
        let mut passed = 0;
        while let Some((line, behind)) = self.last.line_on(rest, bus) {
            if !self.lines.account.passes_over(line.id) {
                return (passed, rest, Some((line, rest.len() - behind.len())));
            }
            passed += 1;
            rest = behind;
        }
        (passed, rest, None)
    }

    /// Reads the last line where it is not ended, closes the account, and passes on what was written.
    pub fn finish<W: Sink>(&mut self, sink: &mut W) -> Result<Counts, LineFault>
        ensures report { IfOk result (λ counts. (subject : A.Subject)
            → Behind (A.has_met subject) self.old (W.written sink.old)
            (λ given taken held. Writes (A.makes subject) given taken counts held (W.written sink.new))) }
        ensures front { OnErr result ((subject : A.Subject) → Behind (A.has_met subject) self.old (W.written sink.old)
            (λ given taken held. WritesFront (A.makes subject) given taken held (W.written sink.new))) }
        ensures write { result ≡ Err Write → W.has_failed sink.new ≡ true }
        ensures unmarked { result ≢ Err Write → W.has_failed sink.new ≡ W.has_failed sink.old }
        ensures flushed { OnOk result (W.is_flushed sink.new ≡ true) }
        ensures passed_on { result ≡ Err Memory → W.is_flushed sink.new ≡ true }
        ensures asked { result ≡ Err Memory → (subject : A.Subject)
            → Behind (A.has_met subject) self.old (W.written sink.old)
            (λ given taken held. AsksAmong (A.asks subject) given taken) }
        ensures met { OnOk result ((subject : A.Subject) → Behind (A.has_met subject) self.old (W.written sink.old)
            (λ given taken held. HasMetLog (A.has_met subject) given taken self.new.lines.account)) }
    {
        A::laws();
        match self.take_last(sink) {
            Ok(()) => {}
            Err(fault) => return Err(stop(fault, sink)),
        }
        match self.lines.close(sink) {
            Ok(counts) => Ok(counts),
            Err(DeviceFault) => Err(LineFault::Write),
        }
    }

    /// Takes the bytes to the end of a line, which it reads, or all of them: how many it took. The line that they begin with
    /// may have been found.
    fn take_line<W: Sink>(
        &mut self,
        found: Option<(FrameLine<'_>, usize)>,
        bytes: &[u8],
        sink: &mut W,
    ) -> Result<usize, LineFault>
        requires line { IfSome found (λ found. (begun : List ℕ) → HasBegun self.old.splitter begun
            → HasLine self.old.splitter begun bytes.now self.old.lines.bus found.0 found.1) }
        requires stamped { IfSome found (λ found. BeginsStamp found.0) }
        requires within { IfSome found (λ found. found.1 ≤ length bytes.now) }
        requires some { IfSome found (λ found. 0 < found.1) }
        ensures count { IfOk result (λ n. n ≤ length bytes.now) }
        ensures some { IfOk result (λ n. 0 < length bytes.now → 0 < n) }
        ensures steps { IfOk result (λ n. (subject : A.Subject) (begun : List ℕ) → HasBegun self.old.splitter begun
            → StepsOver (A.has_met subject) begun bytes.now n self.new.splitter self.old.lines self.new.lines
            (W.written sink.old) (W.written sink.new)) }
        ensures writer { LeavesWriter result (turn W.written W.has_failed sink.old sink.new) }
        ensures stops { result ≡ Err Write → (subject : A.Subject) (begun : List ℕ) → HasBegun self.old.splitter begun
            → StopsIn (A.has_met subject) (A.makes subject) begun bytes.now self.old.lines (W.written sink.old)
            (W.written sink.new) }
        ensures asked { result ≡ Err Memory → (subject : A.Subject) (begun : List ℕ) → HasBegun self.old.splitter begun
            → AsksIn (A.has_met subject) (A.asks subject) begun bytes.now self.old.lines }
    {
        if let Some((line, n)) = found {
            return self.take_frame(&line, n, bytes, sink);
        }
        let bus = &self.lines.bus;
        let Some((line, n)) = self.splitter.line_on(bytes, &mut self.last, bus) else {
            return self.take_any(bytes, sink);
        };
        if self.lines.account.passes_over(line.id) {
            self.lines.pass_over(1);
            return Ok(n);
        }
        self.take_frame(&line, n, bytes, sink)
    }

    /// The same, of a line of so many bytes that begins so and isn't passed over: apart, so that a line that is passed over makes no
    /// room for a frame.
    #[inline(always)]
    fn take_frame<W: Sink>(
        &mut self,
        line: &FrameLine<'_>,
        n: usize,
        bytes: &[u8],
        sink: &mut W,
    ) -> Result<usize, LineFault>
        requires line { (begun : List ℕ) → HasBegun self.old.splitter begun
            → HasLine self.old.splitter begun bytes.now self.old.lines.bus line.now n }
        requires stamped { BeginsStamp line.now }
        requires within { n ≤ length bytes.now }
        requires some { 0 < n }
        ensures count { IfOk result (λ n. n ≤ length bytes.now) }
        ensures some { IfOk result (λ n. 0 < length bytes.now → 0 < n) }
        ensures steps { IfOk result (λ n. (subject : A.Subject) (begun : List ℕ) → HasBegun self.old.splitter begun
            → StepsOver (A.has_met subject) begun bytes.now n self.new.splitter self.old.lines self.new.lines
            (W.written sink.old) (W.written sink.new)) }
        ensures writer { LeavesWriter result (turn W.written W.has_failed sink.old sink.new) }
        ensures stops { result ≡ Err Write → (subject : A.Subject) (begun : List ℕ) → HasBegun self.old.splitter begun
            → StopsIn (A.has_met subject) (A.makes subject) begun bytes.now self.old.lines (W.written sink.old)
            (W.written sink.new) }
        ensures asked { result ≡ Err Memory → (subject : A.Subject) (begun : List ℕ) → HasBegun self.old.splitter begun
            → AsksIn (A.has_met subject) (A.asks subject) begun bytes.now self.old.lines }
    {
        let Some(frame) = line.frame() else {
            return self.take_any(bytes, sink);
        };
        match self.lines.read_frame(&frame, line.stamp_text(), sink) {
            Ok(()) => Ok(n),
            Err(fault) => Err(fault),
        }
    }

    /// The same, of a line of any form. It is no part of its caller, whose way for most lines so needs no room for what this
    /// one reads.
    #[inline(never)]
    fn take_any<W: Sink>(&mut self, bytes: &[u8], sink: &mut W) -> Result<usize, LineFault>
        ensures count { IfOk result (λ n. n ≤ length bytes.now) }
        ensures some { IfOk result (λ n. 0 < length bytes.now → 0 < n) }
        ensures steps { IfOk result (λ n. (subject : A.Subject) (begun : List ℕ) → HasBegun self.old.splitter begun
            → StepsOver (A.has_met subject) begun bytes.now n self.new.splitter self.old.lines self.new.lines
            (W.written sink.old) (W.written sink.new)) }
        ensures writer { LeavesWriter result (turn W.written W.has_failed sink.old sink.new) }
        ensures stops { result ≡ Err Write → (subject : A.Subject) (begun : List ℕ) → HasBegun self.old.splitter begun
            → StopsIn (A.has_met subject) (A.makes subject) begun bytes.now self.old.lines (W.written sink.old)
            (W.written sink.new) }
        ensures asked { result ≡ Err Memory → (subject : A.Subject) (begun : List ℕ) → HasBegun self.old.splitter begun
            → AsksIn (A.has_met subject) (A.asks subject) begun bytes.now self.old.lines }
    {
        let (n, raw) = self.splitter.feed(bytes);
        match raw {
            None => Ok(n),
            Some(raw) => match self.lines.read_raw(raw, sink) {
                Ok(()) => Ok(n),
                Err(fault) => Err(fault),
            },
        }
    }

    /// Reads the last line, where one is begun.
    fn take_last<W: Sink>(&mut self, sink: &mut W) -> Result<(), LineFault>
        ensures reads { OnOk result ((subject : A.Subject) (begun : List ℕ) → HasBegun self.old.splitter begun
            → ReadsLast (A.has_met subject) begun self.old.lines self.new.lines (W.written sink.old) (W.written sink.new)) }
        ensures writer { LeavesWriter result (turn W.written W.has_failed sink.old sink.new) }
        ensures stops { result ≡ Err Write → (subject : A.Subject) (begun : List ℕ) → HasBegun self.old.splitter begun
            → StopsLast (A.has_met subject) (A.makes subject) begun self.old.lines (W.written sink.old) (W.written sink.new) }
        ensures asked { result ≡ Err Memory → (subject : A.Subject) (begun : List ℕ) → HasBegun self.old.splitter begun
            → AsksLast (A.has_met subject) (A.asks subject) begun self.old.lines }
    {
        match self.splitter.finish() {
            None => Ok(()),
            Some(raw) => self.lines.read_raw(raw, sink),
        }
    }
}

/// The fault that ends a run: before want of memory what was written is passed on, and a fault in that is the writer's.
#[cold]
#[inline(never)]
fn stop<W: Sink>(fault: LineFault, sink: &mut W) -> LineFault
    ensures bytes { Keeps (W.written sink.old) (W.written sink.new) }
    ensures memory { result ≡ Memory → fault ≡ Memory }
    ensures passed_on { result ≡ Memory → W.is_flushed sink.new ≡ true }
    ensures write { fault ≡ Write → result ≡ Write }
    ensures mark { result ≡ Write → (fault ≡ Write → W.has_failed sink.old ≡ true) → W.has_failed sink.new ≡ true }
    ensures unmarked { result ≢ Write → W.has_failed sink.new ≡ W.has_failed sink.old }
{
    match fault {
        LineFault::Write => LineFault::Write,
        LineFault::Memory => {
            if sink.flush().is_ok() {
                LineFault::Memory
            } else {
                LineFault::Write
            }
        }
    }
}
