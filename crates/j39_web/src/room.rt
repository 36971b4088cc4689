//! Where a log is read from, and room for a text: memory that a page lends.
ghost use Rattle.std.specs.Prelude.{◌≡◌, ◌≤◌, true, false, length};

use j39_io::{DeviceFault, Sink, Source};

/// The bytes of a log that are left.
#[derive(Drop)]
pub(crate) struct LogBytes<'a> {
    rest: &'a [u8],
}

impl<'a> LogBytes<'a> {
    pub fn new(log: &'a [u8]) -> LogBytes<'a>
        ensures { result.rest.now ≡ log.now }
    {
        LogBytes { rest: log }
    }
}

impl<'a> Source for LogBytes<'a> {
    ghost use Rattle.std.specs.Prelude.{Some, false};

    ghost remaining = { λ log. Some log.rest.now };

    ghost has_failed = { λ log. false };

    fn pull(&mut self, buf: &mut [u8]) -> Result<usize, DeviceFault> {
        let n = self.rest.len().min(buf.len());
        let (front, rest) = self.rest.split_at(n);
        buf[..n].copy_from_slice(front);
        self.rest = rest;
        Ok(n)
    }
}

/// Room for a text, and how much of it is written.
#[derive(Drop)]
pub(crate) struct Room<'a> {
    room: &'a mut [u8],
    len: usize,
    is_full: bool,
    is_flushed: bool,
    ghost fits: { len ≤ length room.now },
    ghost full: { is_full ≡ true → len ≡ length room.now },
}

impl<'a> Room<'a> {
    pub fn new(room: &'a mut [u8]) -> Room<'a>
        ensures empty { result.len ≡ 0 }
        ensures fresh { result.is_full ≡ false }
        ensures same { result.room ≡ room.entry }
    {
        Room {
            room,
            len: 0,
            is_full: false,
            is_flushed: true,
        }
    }

    /// How many bytes are written.
    pub fn written(&self) -> usize
        ensures value { result ≡ self.now.len }
        ensures fits { self.now.len ≤ length self.now.room.now }
        ensures full { self.now.is_full ≡ true → self.now.len ≡ length self.now.room.now }
    {
        self.len
    }

    /// How many bytes there is room for.
    pub fn room(&self) -> usize
        ensures { result ≡ length self.now.room.now }
    {
        self.room.len()
    }
}

impl<'a> Sink for Room<'a> {
    ghost use Rattle.std.specs.Prelude.{Some, ◌∷◌, take};

    // The name of the room stands before what is written: so a run that keeps what was there keeps the room.
    ghost written = { λ room. Some (room.room.ghost_name ∷ take room.len room.room.now) };

    ghost has_failed = { λ room. room.is_full };

    ghost is_flushed = { λ room. room.is_flushed };

    fn put(&mut self, bytes: &[u8]) -> Result<usize, DeviceFault> {
        let n = bytes.len().min(self.room.len() - self.len);
        if n == 0 && !bytes.is_empty() {
            self.is_full = true;
            return Err(DeviceFault);
        }
        let end = self.len + n;
        self.room[self.len..end].copy_from_slice(&bytes[..n]);
        self.len = end;
        self.is_flushed = false;
        Ok(n)
    }

    fn flush(&mut self) -> Result<(), DeviceFault> {
        self.is_flushed = true;
        Ok(())
    }
}
