//! The program `bus_demo`: a bus of simulated controllers, whose log it writes as `candump -L` does.
#![tactic(auto)]

mod book_lines;
mod bus;
mod words;

use book_lines::tell_book;
use bus::book::Book;
use bus::player::Player;
use bus::{Bus, BusFault, display, losses, scenario};
use j39_io::{Sink, Told};
use j39_log::{Line, read_line};
use std::io::BufWriter;
use std::process::ExitCode;
use std::{env, io};
use words::{Refusal, Words, read_words};

/// The bytes that are kept before they are written.
const OUT_BUFFER: usize = 65_536;

fn main(rt: HostRuntime) -> io::Result<ExitCode> {
    let mut words = Vec::new(rt.alloc());
    for word in env::args(&rt)? {
        words.push(word)?;
    }
    let status = match read_words(rt.alloc(), words.as_slice()) {
        Ok(words) => play(&rt, &words)?,
        Err(refusal) => refuse(&rt, &refusal)?,
    };
    Ok(ExitCode::from(status))
}

/// Plays the scenario, its log to standard output and its counts or its book to standard error, and answers the
/// exit status.
fn play(rt: &HostRuntime, words: &Words) -> io::Result<u8> {
    let mut out = Told::new(BufWriter::with_capacity(rt.alloc(), OUT_BUFFER, rt.stdout())?);
    let controllers = match words.loss {
        Some(loss) => losses::controllers(rt.alloc(), words.seed, loss)?,
        None if words.display => display::controllers(rt.alloc(), words.seed)?,
        None => scenario::controllers(rt.alloc(), words.seed, words.outside)?,
    };
    let mut bus = Bus::new(rt.alloc(), controllers, words.lose.as_slice());
    if words.outside {
        let status = hear_outside(rt, &mut bus, &mut out)?;
        if status != 0 {
            return Ok(status);
        }
    }
    match bus.run(words.seconds.saturating_mul(1_000_000), &mut out) {
        Ok(()) => tell(rt, &bus, words.book),
        Err(fault) => complain(rt, fault),
    }
}

/// Has the bus hear the frames that come on standard input, each at its moment, until that ends, and answers the exit status.
fn hear_outside<W: Sink>(rt: &HostRuntime, bus: &mut Bus<'_>, out: &mut W) -> io::Result<u8> {
    for line in rt.lines(rt.alloc()) {
        let line = line?;
        match read_line(line.as_bytes()) {
            Line::Frame { bus: _, frame } => {
                if let Err(fault) = bus.admit(frame, out) {
                    return complain(rt, fault);
                }
            }
            _ => {
                eprintln!(rt; "bus_demo: no frame: {line}")?;
                return Ok(1);
            }
        }
    }
    Ok(0)
}

/// Tells the counts of a bus, or its book, and answers the exit status.
fn tell(rt: &HostRuntime, bus: &Bus<'_>, book: bool) -> io::Result<u8> {
    if book {
        tell_book(rt, bus)?;
    } else {
        tell_counts(rt, bus.frames(), bus.book())?;
        tell_addresses(rt, bus.controllers())?;
    }
    Ok(0)
}

/// Says why the bus stopped before its end, and answers the exit status.
fn complain(rt: &HostRuntime, fault: BusFault) -> io::Result<u8> {
    let why = match fault {
        BusFault::Memory => "out of memory",
        BusFault::Write => "write failed",
    };
    eprintln!(rt; "bus_demo: {why}")?;
    Ok(1)
}

/// How many frames were sent, messages handed in and whole, transfers that receivers delivered, and messages that their senders
/// count as done.
fn tell_counts(rt: &HostRuntime, frames: u64, book: &Book) -> io::Result<()> {
    let handed = book.handed().len();
    let whole = book.whole();
    let delivered = book.deliveries().len();
    let done = book.done().len();
    eprintln!(rt; "frames {frames} handed {handed} whole {whole} delivered {delivered} done {done}")
}

/// Says which address each controller holds by its own account, a line each, as `j1939 nodes` does by the
/// log's.
fn tell_addresses(rt: &HostRuntime, controllers: &[Player]) -> io::Result<()> {
    for controller in controllers {
        if let Some(address) = controller.held() {
            let name = controller.name().raw();
            eprintln!(rt; "{address:02X} {name:016X}")?;
        }
    }
    Ok(())
}

/// Says why there is nothing to play, and answers the exit status.
fn refuse(rt: &HostRuntime, refusal: &Refusal) -> io::Result<u8> {
    match refusal {
        Refusal::Memory => {
            eprintln!(rt; "bus_demo: out of memory")?;
            Ok(1)
        }
        Refusal::Help(text) => {
            print!(rt; "{text}")?;
            Ok(0)
        }
        Refusal::Usage(text) => {
            eprint!(rt; "{text}")?;
            Ok(2)
        }
        Refusal::BadValue(word) => {
            eprintln!(rt; "bus_demo: bad value for {word}")?;
            Ok(2)
        }
    }
}
