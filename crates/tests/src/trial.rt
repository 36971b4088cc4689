//! A device for tests: it gives bytes in small pieces, takes as many as it has room for, counts its
//! calls, and fails where it is told to.
ghost use Rattle.std.specs.Prelude.{◌≡◌, ◌≤◌, IfOk};

use std::alloc::{AllocError, Global};
use std::io::{self, ErrorKind, Read, Write};

/// What a `Trial` answers to a write once its room is used up.
#[derive(Clone, Copy, Debug, PartialEq, Eq)]
pub enum Full {
    /// An error.
    Fails,
    /// That it took no byte.
    TakesNone,
}

/// A reader and a writer of std for tests, to be put into a `Told`. Its contracts say what its calls set
/// and count, and not which bytes a read gives or a write takes. Making one takes all its memory.
#[derive(Drop)]
pub struct Trial {
    given: Vec<u8>,
    next: usize,
    most: usize,
    reads: u64,
    failing_read: u64,
    room: Vec<u8>,
    held: usize,
    full: Full,
    flushes: u64,
    fails_flush: bool,
}

impl Trial {
    ghost use Rattle.tests.specs.Trial.{IsFresh, trial_given, trial_room, trial_reads, trial_flushes, trial_held, trial_written};
    ghost use Rattle.tests.specs.Trial.{in_pieces_of, with_failing_read, with_full, with_failing_flush};

    /// A device that gives these bytes, as many at once as are asked for, and takes `room` bytes.
    pub fn new(alloc: Global, bytes: &[u8], room: usize) -> Result<Trial, AllocError>
        ensures given { IfOk result (λ trial. trial_given trial ≡ bytes.now) }
        ensures room { IfOk result (λ trial. trial_room trial ≡ room) }
        ensures fresh { IfOk result (λ trial. IsFresh trial) }
    {
        let mut given = Vec::new(alloc);
        given.extend_from_slice(bytes)?;
        Ok(Trial {
            given,
            next: 0,
            most: usize::MAX,
            reads: 0,
            failing_read: 0,
            room: vec![in alloc; 0u8; room]?,
            held: 0,
            full: Full::Fails,
            flushes: 0,
            fails_flush: false,
        })
    }

    /// It gives at most so many bytes a read.
    pub fn in_pieces(mut self, most: usize) -> Trial
        ensures { result ≡ in_pieces_of most self }
    {
        self.most = most;
        self
    }

    /// Its nth read fails, counted from 1, and no other.
    pub fn failing_read(mut self, nth: u64) -> Trial
        ensures { result ≡ with_failing_read nth self }
    {
        self.failing_read = nth;
        self
    }

    /// What it answers to a write once its room is used up.
    pub fn when_full(mut self, full: Full) -> Trial
        ensures { result ≡ with_full full self }
    {
        self.full = full;
        self
    }

    /// Each flush fails.
    pub fn failing_flush(mut self) -> Trial
        ensures { result ≡ with_failing_flush self }
    {
        self.fails_flush = true;
        self
    }

    /// How often it was read, faults and the end included.
    pub fn reads(&self) -> u64
        ensures { result ≡ trial_reads self.now }
    {
        self.reads
    }

    /// How often it was flushed, faults included.
    pub fn flushes(&self) -> u64
        ensures { result ≡ trial_flushes self.now }
    {
        self.flushes
    }

    /// The bytes that it took.
    pub fn written(&self) -> &[u8]
        ensures { trial_held self.now ≤ trial_room self.now → result.now ≡ trial_written self.now }
    {
        match self.room.get(..self.held) {
            Some(written) => written,
            None => &[],
        }
    }
}

impl Read for Trial {
    fn read(&mut self, buf: &mut [u8]) -> io::Result<usize> {
        self.reads = self.reads.saturating_add(1);
        if self.reads == self.failing_read {
            return Err(io::Error::from(ErrorKind::Other));
        }
        let (_, rest) = self.given.split_at(self.next.min(self.given.len()));
        let count = rest.len().min(buf.len()).min(self.most);
        buf[..count].copy_from_slice(&rest[..count]);
        self.next = self.next.saturating_add(count);
        Ok(count)
    }
}

impl Write for Trial {
    fn write(&mut self, bytes: &[u8]) -> io::Result<usize> {
        let held = self.held.min(self.room.len());
        let (_, room) = self.room.split_at_mut(held);
        let count = room.len().min(bytes.len());
        if count == 0 && !bytes.is_empty() && self.full == Full::Fails {
            return Err(io::Error::from(ErrorKind::Other));
        }
        room[..count].copy_from_slice(&bytes[..count]);
        self.held = held.saturating_add(count);
        Ok(count)
    }

    fn flush(&mut self) -> io::Result<()> {
        self.flushes = self.flushes.saturating_add(1);
        if self.fails_flush {
            return Err(io::Error::from(ErrorKind::Other));
        }
        Ok(())
    }
}
