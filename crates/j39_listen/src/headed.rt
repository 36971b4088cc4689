//! A run that writes a head before its lines, as the names of the columns.
ghost use Rattle.std.specs.Prelude.{◌≡◌, true, Err, IfSome, OnOk};
ghost use Rattle.j39_io.specs.Puts.{Puts};
ghost use Rattle.j39_io.specs.Turn.{turn};
ghost use Rattle.j39_listen.specs.Headed.{Headed};
ghost use Rattle.j39_listen.specs.PiecesSoFar.{AtStart, KeepsUp};
ghost use Rattle.j39_listen.specs.Ran.{Ended, PassesOn, Ran};
ghost use Rattle.j39_listen.specs.Run.{HasMetLog};
ghost use Rattle.j39_listen.specs.declared.running.RunFault.TheVariants.{Read};

use crate::Counts;
use crate::account::Account;
use crate::running::{RunFault, run_keeping};
use j39_io::{DeviceFault, Sink, Source, put_all};
use j39_log::Bus;

/// Writes a head and an account of a log of at most `limit` bytes; the account has met no frame. The head is passed on
/// before the first read, and counts as no line.
pub fn run_headed<A: Account, R: Source, W: Sink>(
    head: &[u8],
    account: A,
    source: &mut R,
    sink: &mut W,
    bus: Option<Bus>,
    limit: u64,
) -> Result<Counts, RunFault>
    // It ended as every run does, whatever the account had met.
    ensures ended { Ended limit result
        (turn R.remaining R.has_failed source.old source.new) (turn W.written W.has_failed sink.old sink.new) }

    // What the run promises is `Ran`: what is written is the head and what the account makes of the log's frames, and
    // nothing else. Memory is wanted where the account asks for some.
    ensures ran { AtStart A.has_met account (λ subject. Ran (Headed head.now (A.makes subject)) (A.asks subject) bus
        limit result (turn R.remaining R.has_failed source.old source.new)
        (turn W.written W.has_failed sink.old sink.new)) }

    // What was written is passed on at the end, and before each read, the head before the first.
    ensures flushed { PassesOn result true (W.is_flushed sink.new) }

    // Where a read ends the run, the head and all that the whole lines before it make was written.
    ensures kept_up { result ≡ Err Read → AtStart A.has_met account (λ subject. KeepsUp (A.has_met subject) head.now bus
        (R.remaining source.old) (R.remaining source.new) (W.written sink.old) (W.written sink.new)) }
{
    let (ran, _) = run_headed_keeping(head, account, source, sink, bus, limit);
    ran
}

/// Writes a head and an account as `run_headed` does, and hands the account back: after a run that ended well it has met
/// the log's frames.
pub fn run_headed_keeping<A: Account, R: Source, W: Sink>(
    head: &[u8],
    account: A,
    source: &mut R,
    sink: &mut W,
    bus: Option<Bus>,
    limit: u64,
) -> (Result<Counts, RunFault>, A)
    // How it ended and what it promises are those of `run_headed`.
    ensures ended { Ended limit result.0
        (turn R.remaining R.has_failed source.old source.new) (turn W.written W.has_failed sink.old sink.new) }
    ensures ran { AtStart A.has_met account (λ subject. Ran (Headed head.now (A.makes subject)) (A.asks subject) bus
        limit result.0 (turn R.remaining R.has_failed source.old source.new)
        (turn W.written W.has_failed sink.old sink.new)) }
    ensures flushed { PassesOn result.0 true (W.is_flushed sink.new) }

    // After a run that ended well the account has met the frames of the log.
    ensures met { OnOk result.0 (AtStart A.has_met account (λ subject. IfSome (R.remaining source.old)
        (λ log. HasMetLog (A.has_met subject) bus log result.1))) }
    ensures kept_up { result.0 ≡ Err Read → AtStart A.has_met account (λ subject. KeepsUp (A.has_met subject) head.now bus
        (R.remaining source.old) (R.remaining source.new) (W.written sink.old) (W.written sink.new)) }
{
    match put_head(head, sink) {
        Ok(()) => run_keeping(account, source, sink, bus, limit),
        Err(DeviceFault) => (Err(RunFault::Write), account),
    }
}

/// Writes the head, and passes it on.
fn put_head<W: Sink>(head: &[u8], sink: &mut W) -> Result<(), DeviceFault>
    ensures puts { Puts head.now result (turn W.written W.has_failed sink.old sink.new) }
    ensures flushed { OnOk result (W.is_flushed sink.new ≡ true) }
{
    put_all(sink, head)?;
    sink.flush()
}
