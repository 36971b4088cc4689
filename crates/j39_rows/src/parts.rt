//! Parts that stand one behind the other.
ghost use Rattle.std.specs.List.{flat_map};
ghost use Rattle.j39_io.specs.Puts.{Puts};
ghost use Rattle.j39_io.specs.Turn.{turn};

use j39_io::{DeviceFault, Sink, put_all};

/// Writes these parts. After a fault a front of them was written.
pub fn put_parts<W: Sink>(parts: &[&[u8]], sink: &mut W) -> Result<(), DeviceFault>
    ensures { Puts (flat_map (λ part. part.now) parts.now) result (turn W.written W.has_failed sink.old sink.new) }
{
    for part in parts {
        put_all(sink, part)?;
    }
    Ok(())
}
