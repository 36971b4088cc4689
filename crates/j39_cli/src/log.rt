//! What the commands that read a log have in common.
ghost use Rattle.std.specs.Prelude.{◌≡◌, ◌≤◌, ◌++◌, [], false, length, true};
ghost use Rattle.j39_io.specs.Turn.{turn};
ghost use Rattle.clap.specs.Words.{App};
ghost use Rattle.j39_cli.specs.LogCommand.{IsTold, absent_text, fault_text, with_forms, with_log};
ghost use Rattle.j39_cli.specs.Refusal.{error_line};
ghost use Rattle.j39_cli.specs.Rules.{IsMade};
ghost use Rattle.j39_cli.specs.Tells.{Tells};

use crate::command::{with_flag, with_option, with_values};
use crate::fields::{counts_line, push_field};
use crate::refusal::{complain, show};
use arrayvec::ArrayVec;
use clap::Command;
use j39_io::Sink;
use j39_io::printing::push_bytes;
use j39_listen::{Counts, RunFault};
use j39_log::Bus;
use std::alloc::{AllocError, Global};

/// The most bytes of a log that the program reads.
pub(crate) const LOG_LIMIT: u64 = 17_179_869_184;

/// The command with `--csv`, `--json` and `--utc`, which each takes that writes these forms too.
pub(crate) fn with_forms<'a>(
    alloc: Global,
    command: Result<Command<'a>, AllocError>,
) -> Result<Command<'a>, AllocError>
    ensures { (told : App) → IsMade command.entry told → IsMade result (with_forms told) }
{
    let help = "As comma-separated values (RFC 4180), below the names of the columns";
    let command = with_flag(alloc, command, "csv", help);
    let help = "As objects of JSON (RFC 8259), one a line";
    let command = with_flag(alloc, command, "json", help);
    let help = "In lines, with each time in UTC, as 2023-11-14T22:13:20.250000Z";
    with_flag(alloc, command, "utc", help)
}

/// The command with the arguments of a log.
pub(crate) fn with_log<'a>(
    alloc: Global,
    command: Result<Command<'a>, AllocError>,
) -> Result<Command<'a>, AllocError>
    ensures { (told : App) → IsMade command.entry told → IsMade result (with_log told) }
{
    let help = "The interface to read, as can0; without it, that of the first frame in the log";
    let command = with_option(alloc, command, "bus", "B", false, help);
    let help = "The log to read, or several, as one log; without it, or for -, standard input";
    with_values(alloc, command, "file", "FILE", help)
}

pub(crate) fn copy_of(bus: &Option<Bus>) -> Option<Bus>
    ensures { result ≡ bus.now }
{
    match bus {
        Some(bus) => Bus::new(bus.bytes()),
        None => None,
    }
}

/// Says how a run over this bus ended, by its counts or its fault, and answers the exit status.
pub(crate) fn tell_end<E: Sink>(bus: &Option<Bus>, end: Result<Counts, RunFault>, err: &mut E) -> u8
    ensures told { IsTold bus.now end result (turn E.written E.has_failed err.old err.new) }
    ensures passed_on { E.has_failed err.new ≡ false → E.is_flushed err.new ≡ true }
{
    match end {
        Ok(counts) => {
            let text = end_text(bus, counts.frames, counts_line(counts).as_slice());
            show(err, text.as_slice());
            0
        }
        Err(fault) => tell_fault(fault, err),
    }
}

/// What is said of a run that ended well: its line of counts, behind one of a bus that is asked for and of which no frame is.
pub(crate) fn end_text(bus: &Option<Bus>, frames: u64, counts: &[u8]) -> ArrayVec<u8, 256>
    requires { length counts.now ≤ 168 }
    ensures { result.items ≡ absent_text bus.now frames ++ counts.now }
{
    let mut text = ArrayVec::new();
    match bus {
        Some(bus) => {
            if frames == 0 {
                push_bytes(&mut text, b"j1939: no frame is of ");
                push_bytes(&mut text, bus.bytes());
                push_bytes(&mut text, b"\n");
            }
        }
        None => {}
    }
    push_bytes(&mut text, counts);
    text
}

/// Says which fault came, and answers the exit status.
pub(crate) fn tell_fault<E: Sink>(fault: RunFault, err: &mut E) -> u8
    ensures status { result ≡ 1 }
    ensures told { Tells (turn E.written E.has_failed err.old err.new) (error_line (fault_text fault) []) }
    ensures passed_on { E.has_failed err.new ≡ false → E.is_flushed err.new ≡ true }
{
    complain(err, words_of(fault).as_slice(), b"");
    1
}

/// What is said of a fault: the program alone knows its limit.
fn words_of(fault: RunFault) -> ArrayVec<u8, 64>
    ensures { result.items ≡ fault_text fault }
{
    let mut words = ArrayVec::new();
    match fault {
        RunFault::TooLong => {
            push_field(&mut words, b"input longer than ", LOG_LIMIT);
            push_bytes(&mut words, b" bytes");
        }
        RunFault::Memory => push_bytes(&mut words, fault.words().as_bytes()),
        RunFault::Read => push_bytes(&mut words, fault.words().as_bytes()),
        RunFault::Write => push_bytes(&mut words, fault.words().as_bytes()),
    }
    words
}
