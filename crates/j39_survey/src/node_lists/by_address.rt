//! Rows by address, as they are written at the end of a log.
ghost use Rattle.std.specs.Prelude.{◌≡◌, ◌≤◌, ◌<◌, ℕ, List, IfOk, length};
ghost use Rattle.std.specs.List.{concat};
ghost use Rattle.j39_io.specs.Puts.{Puts};
ghost use Rattle.j39_io.specs.Turn.{turn};
ghost use Rattle.j39_survey.specs.NodesSoFar.{all_below};

use j39_frame::NULL_ADDRESS;
use j39_io::{DeviceFault, Sink};

/// What has a row for some of the addresses 0 to 253.
pub(crate) trait ByAddress {
    // The rows of an address: one or none.
    ghost lines_at: { Self → ℕ → List (List ℕ) };

    /// Writes the row of an address, if it has one, and answers how many rows that is.
    fn put_at<W: Sink>(&self, address: u8, sink: &mut W) -> Result<u64, DeviceFault>
        requires { address < 254 }
        ensures count { IfOk result (λ n. n ≡ length (lines_at self.now address)) }
        ensures few { IfOk result (λ n. n ≤ 1) }
        ensures puts { Puts (concat (lines_at self.now address)) result (turn W.written W.has_failed sink.old sink.new) };
}

/// Writes the rows of all addresses, rising, and answers how many there are.
pub(crate) fn put_by_address<L: ByAddress, W: Sink>(
    list: &L,
    sink: &mut W,
) -> Result<u64, DeviceFault>
    ensures count { IfOk result (λ n. n ≡ length (all_below (L.lines_at list.now) 254)) }
    ensures puts { Puts (concat (all_below (L.lines_at list.now) 254)) result (turn W.written W.has_failed sink.old sink.new) }
{
    let mut lines = 0;
    for address in 0..NULL_ADDRESS {
        lines += list.put_at(address, sink)?;
    }
    Ok(lines)
}
