//! Logs that are read one behind the other, as one.
ghost use Rattle.std.specs.Prelude.{◌≡◌, ◌∷◌, ◌<◌, IfSome, MatchOption, MatchResult, None, false, length, map, take, true};
ghost use Rattle.std.specs.Io.{ReadsAtMost};
ghost use Rattle.std.specs.Io.KnownBytes.{Consumes, IsAtEnd, Keeps, ReadConsumes};
ghost use Rattle.j39_io.specs.Device.{Marks};
ghost use Rattle.j39_cli.specs.Joined.{joined_known};
ghost use Rattle.j39_cli.specs.JoinedSoFar.{GoesOn, current_of, has_fault, later_of, left_in};

use j39_io::{DeviceFault, Source};

/// Logs that are read one behind the other, with a mark that stands from the first fault on.
#[derive(Drop)]
pub struct Joined<R> {
    /// The one that is read.
    current: R,
    /// Those behind it, the next one last.
    later: Vec<R>,
    /// Whether the last byte that was read of the current one is no newline.
    is_open: bool,
    has_failed: bool,
}

impl<R: Source + Drop> Joined<R> {
    /// The log of these, one behind the other. A newline is put behind each but the last, where it has bytes and ends in
    /// none.
    pub fn new(first: R, later: Vec<R>) -> Joined<R>
        ensures joined { left_in R.remaining result
            ≡ joined_known (R.remaining first ∷ map R.remaining later.items) }
        ensures unmarked { has_fault result ≡ false }
    {
        let mut later = later;
        later.reverse();
        Joined {
            current: first,
            later,
            is_open: false,
            has_failed: false,
        }
    }

    /// Reads on in the current one.
    fn read(&mut self, buf: &mut [u8]) -> Result<usize, DeviceFault>
        ensures bound { ReadsAtMost result buf.new }
        ensures bytes { MatchResult result (λ n. Consumes (left_in R.remaining self.old) (left_in R.remaining self.new) (take n buf.new)
            × (n ≡ 0 → 0 < length buf.new → IsAtEnd (R.remaining (current_of self.new))))
            (λ _. Keeps (left_in R.remaining self.old) (left_in R.remaining self.new)) }
        ensures mark { Marks result (has_fault self.old) (has_fault self.new) }
        ensures later { later_of self.new ≡ later_of self.old }
        ensures device { Marks result (R.has_failed (current_of self.old)) (R.has_failed (current_of self.new)) }
    {
        match self.current.pull(buf) {
            Ok(n) => {
                if n > 0 {
                    self.is_open = buf[n - 1] != b'\n';
                }
                Ok(n)
            }
            Err(fault) => {
                self.has_failed = true;
                Err(fault)
            }
        }
    }

    /// Goes on to the next one, behind the end of the current: whether a line was open there. `None` where there is no next.
    fn go_on(&mut self) -> Option<bool>
        ensures bytes { IsAtEnd (R.remaining (current_of self.old)) → MatchOption result
            (IsAtEnd (left_in R.remaining self.new) × Keeps (left_in R.remaining self.old) (left_in R.remaining self.new))
            (λ is_open. GoesOn is_open (left_in R.remaining self.old) (left_in R.remaining self.new)) }
        ensures mark { has_fault self.new ≡ has_fault self.old }
        ensures kept { result ≡ None → (current_of self.new ≡ current_of self.old) × (later_of self.new ≡ later_of self.old) }
        ensures fewer { IfSome result (λ _. length (later_of self.new) < length (later_of self.old)) }
    {
        let next = self.later.pop()?;
        self.current = next;
        let is_open = self.is_open;
        self.is_open = false;
        Some(is_open)
    }
}

impl<R: Source + Drop> Source for Joined<R> {
    ghost use Rattle.j39_cli.specs.JoinedSoFar.{has_fault, left_in};

    ghost remaining = { λ joined. left_in R.remaining joined };

    ghost has_failed = { λ joined. has_fault joined };

    fn pull(&mut self, buf: &mut [u8]) -> Result<usize, DeviceFault>
        ensures bound { ReadsAtMost result buf.new }
        ensures bytes { ReadConsumes (left_in R.remaining self.old) (left_in R.remaining self.new) result buf.new }
        ensures mark { Marks result (has_fault self.old) (has_fault self.new) }
        ensures device { MatchResult result (λ _. later_of self.new ≡ later_of self.old
            → R.has_failed (current_of self.new) ≡ R.has_failed (current_of self.old)) (λ _. R.has_failed (current_of self.new) ≡ true) }
    {
        let mut n = self.read(buf)?;
        while n == 0 && !buf.is_empty() {
            match self.go_on() {
                None => return Ok(0),
                Some(true) => {
                    buf[0] = b'\n';
                    return Ok(1);
                }
                Some(false) => n = self.read(buf)?,
            }
        }
        Ok(n)
    }
}
