//! Text that is written from its first byte to its last, part by part: each part is copied from a block with a length that is
//! known beforehand, and the next part is written over what is too much of it.
ghost use Rattle.std.specs.Prelude.{◌≡◌, ◌+◌, ◌≤◌, drop, length, take};
ghost use Rattle.std.specs.List.{between};
ghost use Rattle.j39_reports.specs.Forwards.{WritesBehind};

/// Writes the bytes of a block from `from` up to `until`, and answers where they end; what stands behind them is not known.
/// `N` bytes are copied.
#[inline(always)]
pub(crate) fn part_behind<const N: usize>(
    out: &mut [u8],
    at: usize,
    block: &[u8],
    from: usize,
    until: usize,
) -> usize
    requires room { at + N ≤ length out.old }
    requires block { from + N ≤ length block.now }
    requires order { from ≤ until }
    requires few { until ≤ from + N }
    ensures written { WritesBehind out.old out.new at result (between from until block.now) }
    ensures short { result ≤ at + N }
{
    let whole = bytes_at::<N>(block, from);
    put_bytes(&mut out[at..at + N], whole);
    at + (until - from)
}

/// So many bytes from a place on.
#[inline(always)]
fn bytes_at<const N: usize>(block: &[u8], from: usize) -> [u8; N]
    requires { from + N ≤ length block.now }
    ensures { result ≡ take N (drop from block.now) }
{
    *block[from..from + N].as_array::<N>().unwrap()
}

/// Writes bytes over a part of their length: as one value, so that no copy has to test whether they lie in the part.
#[inline(always)]
fn put_bytes<const N: usize>(part: &mut [u8], bytes: [u8; N])
    requires { length part.old ≡ N }
    ensures { part.new ≡ bytes.entry }
{
    if let Some(place) = part.as_mut_array::<N>() {
        *place = bytes;
    }
}
