//! The lines of readings, one by one.
ghost use Rattle.std.specs.Prelude.{◌≡◌, ◌≤◌, length};
ghost use Rattle.std.specs.List.{flat_map};
ghost use Rattle.j39_io.specs.Puts.{Puts};
ghost use Rattle.j39_io.specs.Turn.{turn};
ghost use Rattle.j39_groups.specs.Lines.{reading_line};
ghost use Rattle.j39_groups.specs.Models.{reading_of};

use crate::text::put_value;
use crate::value::Reading;
use arrayvec::ArrayVec;
use j39_io::printing::{push_bytes, push_number};
use j39_io::{DeviceFault, Sink, put_all};

/// Writes a line for each reading; `head` is what each begins with.
pub(crate) fn put_found<W: Sink>(
    head: &[u8],
    found: &[Reading<'_, '_>],
    sink: &mut W,
) -> Result<(), DeviceFault>
    requires { length head.now ≤ 64 }
    ensures { Puts (flat_map (λ r. reading_line head.now (reading_of r)) found.now)
        result (turn W.written W.has_failed sink.old sink.new) }
{
    for reading in found {
        put_reading(head, reading, sink)?;
    }
    Ok(())
}

/// Writes the line of one reading.
fn put_reading<W: Sink>(
    head: &[u8],
    reading: &Reading<'_, '_>,
    sink: &mut W,
) -> Result<(), DeviceFault>
    requires { length head.now ≤ 64 }
    ensures { Puts (reading_line head.now (reading_of reading.now)) result (turn W.written W.has_failed sink.old sink.new) }
{
    let mut line = ArrayVec::<u8, 80>::new();
    push_bytes(&mut line, head);
    push_number(&mut line, u64::from(reading.spn));
    line.push(b' ');
    put_all(sink, line.as_slice())?;
    put_value(&reading.value, sink)?;
    put_all(sink, b"\n")
}
