//! What a command writes whole, where it reads no log.
ghost use Rattle.std.specs.Prelude.{◌≡◌, [], OnOk, OnErr, codes, false, true};
ghost use Rattle.j39_io.specs.Puts.{Puts};
ghost use Rattle.j39_io.specs.Turn.{turn};
ghost use Rattle.j39_cli.specs.WholeText.{IsShown};
ghost use Rattle.j39_cli.specs.Refusal.{error_line};
ghost use Rattle.j39_cli.specs.Tells.{Tells};

use crate::refusal::complain;
use j39_io::{DeviceFault, Sink, put_all};

/// Writes all that a command has to say, and answers the status.
pub(crate) fn show_text<W: Sink, E: Sink>(text: &[u8], sink: &mut W, err: &mut E) -> u8
    ensures shown { IsShown text.now result
        (turn W.written W.has_failed sink.old sink.new)
        (turn E.written E.has_failed err.old err.new) }
    ensures flushed { result ≡ 0 → W.is_flushed sink.new ≡ true }
    ensures passed_out { W.is_flushed sink.old ≡ true → W.has_failed sink.new ≡ false → W.is_flushed sink.new ≡ true }
    ensures silent { result ≡ 0 → err.new ≡ err.old }
    ensures passed_on { result ≡ 1 → E.has_failed err.new ≡ false → E.is_flushed err.new ≡ true }
{
    status_of(put_text(text, sink), err)
}

/// The status of what was written; a fault is told.
pub(crate) fn status_of<E: Sink>(put: Result<(), DeviceFault>, err: &mut E) -> u8
    ensures done { OnOk put ((result ≡ 0) × (err.new ≡ err.old)) }
    ensures failed { OnErr put ((result ≡ 1)
        × Tells (turn E.written E.has_failed err.old err.new) (error_line (codes "write failed") [])) }
    ensures passed_on { OnErr put (E.has_failed err.new ≡ false → E.is_flushed err.new ≡ true) }
{
    match put {
        Ok(()) => 0,
        Err(DeviceFault) => {
            complain(err, b"write failed", b"");
            1
        }
    }
}

/// Writes the text and passes it on.
pub(crate) fn put_text<W: Sink>(text: &[u8], sink: &mut W) -> Result<(), DeviceFault>
    ensures puts { Puts text.now result (turn W.written W.has_failed sink.old sink.new) }
    ensures flushed { OnOk result (W.is_flushed sink.new ≡ true) }
    ensures passed_out { W.is_flushed sink.old ≡ true → W.has_failed sink.new ≡ false → W.is_flushed sink.new ≡ true }
{
    put_all(sink, text)?;
    sink.flush()
}
