//! What a log is read from and a report is written to.
ghost use Rattle.std.specs.Prelude.{◌≡◌, ◌<◌, ℕ, List, Bool, true, false, Option, Ok, IsErr, length, OnOk, OnErr, IfOk};
ghost use Rattle.std.specs.Io.{ReadsAtMost, WritesAtMost};
ghost use Rattle.std.specs.Io.KnownBytes.{ReadConsumes, WriteAppends, Keeps};
ghost use Rattle.j39_io.specs.Device.{KeepsBack, Marks};
ghost use Rattle.j39_io.specs.Puts.{Puts};
ghost use Rattle.j39_io.specs.Turn.{turn};

use std::io::{self, Read, Write};
use thiserror::Error;

/// A device answered an error, or took no byte of some.
#[derive(Clone, Copy, Debug, PartialEq, Eq, Error)]
#[error("device fault")]
pub struct DeviceFault;

/// What gives bytes, one read at a time.
pub trait Source {
    // The bytes that are left, where the type tells them.
    ghost remaining: { Self → Option (List ℕ) };

    // Whether a fault has come.
    ghost has_failed: { Self → Bool };

    /// Reads at most `buf.len()` bytes into the front of `buf`; 0 at the end.
    fn pull(&mut self, buf: &mut [u8]) -> Result<usize, DeviceFault>
        ensures bound { ReadsAtMost result buf.new }
        ensures bytes { ReadConsumes (remaining self.old) (remaining self.new) result buf.new }
        ensures mark { Marks result (has_failed self.old) (has_failed self.new) };
}

/// What takes bytes, one write or flush at a time.
pub trait Sink {
    // The bytes that were written, where the type tells them.
    ghost written: { Self → Option (List ℕ) };

    // Whether a fault has come.
    ghost has_failed: { Self → Bool };

    // Whether all that it took was passed on.
    ghost is_flushed: { Self → Bool };

    /// Writes a front of the bytes, of one byte at least where there is one. A fault adds no byte.
    /// What it takes may be buffered until the next flush, and is by no call passed on but by that one.
    fn put(&mut self, bytes: &[u8]) -> Result<usize, DeviceFault>
        ensures bound { WritesAtMost result bytes.now }
        ensures some { IfOk result (λ n. 0 < length bytes.now → 0 < n) }
        ensures bytes { WriteAppends (written self.old) (written self.new) result bytes.now }
        ensures waits { OnOk result (is_flushed self.new ≡ false) }
        ensures still { is_flushed self.new ≡ true → is_flushed self.old ≡ true }
        ensures mark { Marks result (has_failed self.old) (has_failed self.new) };

    /// Passes on what is buffered. Adds no byte, fault or none.
    fn flush(&mut self) -> Result<(), DeviceFault>
        ensures bytes { Keeps (written self.old) (written self.new) }
        ensures flushed { OnOk result (is_flushed self.new ≡ true) }
        ensures mark { Marks result (has_failed self.old) (has_failed self.new) };
}

/// A reader or a writer of std, with a mark that stands from its first fault on, and one that stands while all
/// that it took was passed on.
#[derive(Debug, Drop)]
pub struct Told<T> {
    device: T,
    has_failed: bool,
    is_flushed: bool,
}

impl<T> Told<T> {
    ghost use Rattle.j39_io.specs.Told.{told_device, is_marked, is_passed_on};

    /// The device, unmarked: it has taken nothing yet.
    pub fn new(device: T) -> Told<T>
        ensures device { told_device result ≡ device }
        ensures unmarked { is_marked result ≡ false }
        ensures flushed { is_passed_on result ≡ true }
    {
        Told {
            device,
            has_failed: false,
            is_flushed: true,
        }
    }
}

/// Tells a device's error as a fault, and marks it; nothing else is a fault.
#[inline(always)]
fn tell<A>(answer: io::Result<A>, has_failed: &mut bool) -> Result<A, DeviceFault>
    ensures good { IfOk answer (λ a. (result ≡ Ok a) × (has_failed.new ≡ has_failed.old)) }
    ensures fault { OnErr answer (IsErr result × (has_failed.new ≡ true)) }
{
    match answer {
        Ok(a) => Ok(a),
        Err(_) => {
            *has_failed = true;
            Err(DeviceFault)
        }
    }
}

impl<T: Read> Source for Told<T> {
    ghost use Rattle.j39_io.specs.Told.{told_device, is_marked};

    ghost remaining = { λ told. T.remaining (told_device told) };

    ghost has_failed = { λ told. is_marked told };

    fn pull(&mut self, buf: &mut [u8]) -> Result<usize, DeviceFault> {
        tell(self.device.read(buf), &mut self.has_failed)
    }
}

impl<T: Write> Sink for Told<T> {
    ghost use Rattle.j39_io.specs.Told.{told_device, is_marked, is_passed_on};

    ghost written = { λ told. T.contents (told_device told) };

    ghost has_failed = { λ told. is_marked told };

    ghost is_flushed = { λ told. is_passed_on told };

    #[inline(always)]
    fn put(&mut self, bytes: &[u8]) -> Result<usize, DeviceFault> {
        self.is_flushed = false;
        let n = tell(self.device.write(bytes), &mut self.has_failed)?;
        if n == 0 && !bytes.is_empty() {
            self.has_failed = true;
            return Err(DeviceFault);
        }
        Ok(n)
    }

    fn flush(&mut self) -> Result<(), DeviceFault> {
        tell(self.device.flush(), &mut self.has_failed)?;
        self.is_flushed = true;
        Ok(())
    }
}

/// Writes all of the bytes, by as many writes as it takes, and flushes none. After a fault a front of them was written.
pub fn put_all<S: Sink>(sink: &mut S, bytes: &[u8]) -> Result<(), DeviceFault>
    ensures puts { Puts bytes.now result (turn S.written S.has_failed sink.old sink.new) }
    ensures waits { KeepsBack bytes.now result (S.is_flushed sink.old) (S.is_flushed sink.new) }
{
    if bytes.is_empty() {
        return Ok(());
    }
    let n = sink.put(bytes)?;
    let (_, rest) = bytes.split_at(n);
    if rest.is_empty() {
        return Ok(());
    }
    put_rest(sink, rest)
}

/// The same, of what one write didn't take: apart, as most writes take all.
#[cold]
#[inline(never)]
fn put_rest<S: Sink>(sink: &mut S, bytes: &[u8]) -> Result<(), DeviceFault>
    ensures puts { Puts bytes.now result (turn S.written S.has_failed sink.old sink.new) }
    ensures waits { KeepsBack bytes.now result (S.is_flushed sink.old) (S.is_flushed sink.new) }
{
    let mut rest = bytes;
    while !rest.is_empty() {
        let n = sink.put(rest)?;
        (_, rest) = rest.split_at(n);
    }
    Ok(())
}
