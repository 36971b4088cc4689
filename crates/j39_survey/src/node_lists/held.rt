//! Who holds which address, as an account of the frames of a bus (J1939-81, 4.2).
ghost use Rattle.std.specs.Prelude.{◌≡◌, ◌≢◌, [], List, Err, None, Some};
ghost use Rattle.std.specs.Option.{option_map};
ghost use Rattle.j39_address.specs.Name.{name_raw};
ghost use Rattle.j39_io.specs.Puts.{Puts};
ghost use Rattle.j39_io.specs.Turn.{turn};
ghost use Rattle.j39_listen.specs.Asking.{AsksNowhere};
ghost use Rattle.j39_survey.specs.Nodes.{MakesNodes, MakesNodesOf, node_head, node_text};
ghost use Rattle.j39_survey.specs.NodesSoFar.{HasNoted, node_lines};
ghost use Rattle.j39_listen.specs.Output.{nothing};
ghost use Rattle.j39_rows.specs.Models.{head_of};
ghost use Rattle.j39_listen.specs.Ran.{PassesOn, Ran};
ghost use Rattle.j39_listen.specs.declared.running.RunFault.TheVariants.{Memory};

use crate::node_lists::by_address::{ByAddress, put_by_address};
use j39_address::{Claims, Name};
use j39_frame::{Frame, Id};
use j39_io::{DeviceFault, Sink, Source};
use j39_listen::{
    Account, Clock, Counts, Format, LineFault, Made, RunFault, Sender, is_from, run_over,
};
use j39_log::Bus;
use j39_rows::{Column, Head, Plain, put_row};

/// Writes, after the whole log, a line for each address that is held, rising: the address and the NAME that holds it. The log
/// has at most `limit` bytes; without a bus it is that of the first frame in it. It takes no memory; no message counts.
pub fn nodes<R: Source, W: Sink>(
    source: &mut R,
    sink: &mut W,
    bus: Option<Bus>,
    limit: u64,
) -> Result<Counts, RunFault>
    // Memory is wanted nowhere.
    ensures memory { result ≢ Err Memory }

    // What the run promises is `Ran`: what is written is who holds an address after the frames of the log, and nothing else.
    ensures ran { Ran MakesNodes AsksNowhere bus limit result
        (turn R.remaining R.has_failed source.old source.new) (turn W.written W.has_failed sink.old sink.new) }

    // What was written is passed on at the end, and before each read.
    ensures flushed { PassesOn result (W.is_flushed sink.old) (W.is_flushed sink.new) }
{
    run_over(HeldList::new(None), source, sink, bus, limit)
}

/// Writes the same of these senders alone: an address, or the one that a NAME holds after the whole log.
pub fn nodes_of<R: Source, W: Sink>(
    from: &[Sender],
    source: &mut R,
    sink: &mut W,
    bus: Option<Bus>,
    limit: u64,
) -> Result<Counts, RunFault>
    // Memory is wanted nowhere.
    ensures memory { result ≢ Err Memory }

    // What the run promises is `Ran`: what is written is who of these holds an address after the frames of the log, and
    // nothing else.
    ensures ran { Ran (MakesNodesOf (Some from.now)) AsksNowhere bus limit result
        (turn R.remaining R.has_failed source.old source.new) (turn W.written W.has_failed sink.old sink.new) }

    // What was written is passed on at the end, and before each read.
    ensures flushed { PassesOn result (W.is_flushed sink.old) (W.is_flushed sink.new) }
{
    run_over(HeldList::new(Some(from)), source, sink, bus, limit)
}

/// The claims of the frames so far, and whose lines are to be written.
#[derive(Drop)]
pub(crate) struct HeldList<'f> {
    claims: Claims,
    from: Option<&'f [Sender]>,
}

impl<'f> HeldList<'f> {
    /// The holders after no frames.
    fn new(from: Option<&'f [Sender]>) -> HeldList<'f>
        ensures { HasNoted (option_map (λ senders. senders.now) from.entry) result [] nothing }
    {
        HeldList {
            claims: Claims::new(),
            from,
        }
    }
}

impl<'f> ByAddress for HeldList<'f> {
    ghost use Rattle.j39_survey.specs.NodesSoFar.{node_lines};

    ghost lines_at = { node_lines };

    fn put_at<W: Sink>(&self, address: u8, sink: &mut W) -> Result<u64, DeviceFault> {
        let Some(name) = self.claims.holder(address) else {
            return Ok(0);
        };
        if is_from(self.from, address, Some(name)) {
            put_node(address, name, sink)?;
            Ok(1)
        } else {
            Ok(0)
        }
    }
}

impl<'f> Account for HeldList<'f> {
    ghost use Rattle.std.specs.Prelude.{List, Option};
    ghost use Rattle.j39_listen.specs.AccountCalls.{Begins, MakesOne};
    ghost use Rattle.j39_listen.specs.Asking.{AsksNowhere};
    ghost use Rattle.j39_survey.specs.Nodes.{MakesNodesOf};
    ghost use Rattle.j39_survey.specs.NodesSoFar.{HasNoted};
    ghost use Rattle.j39_listen.specs.declared.filter.Sender.{Sender};

    ghost Subject = { Option (List Sender) };

    ghost has_met = { λ from bus. HasNoted from };

    ghost makes = { MakesNodesOf };

    ghost asks = { λ from. AsksNowhere };

    /// Most frames claim nothing.
    #[inline(always)]
    fn passes_over(&self, id: Id) -> bool {
        !id.is_address_claimed()
    }

    fn feed<W: Sink>(&mut self, _: &Bus, frame: &Frame, _: &mut W) -> Result<(), LineFault> {
        self.claims.note(frame);
        Ok(())
    }

    fn close<W: Sink>(&self, sink: &mut W) -> Result<Made, DeviceFault> {
        let lines = put_by_address(self, sink)?;
        Ok(Made { messages: 0, lines })
    }

    fn laws()
        ensures begins { (from : Option (List Sender)) → Begins (λ bus. HasNoted from) (MakesNodesOf from) }
        ensures one { (from : Option (List Sender)) → MakesOne (MakesNodesOf from) }
    {}
}

/// Writes the line of a node.
fn put_node<W: Sink>(address: u8, name: Name, sink: &mut W) -> Result<(), DeviceFault>
    ensures { Puts (node_text (record { address = address; name = name_raw name })) result
        (turn W.written W.has_failed sink.old sink.new) }
{
    let columns = [Column::name(Some(name.raw()))];
    put_row(
        Format::Line(Clock::Seconds),
        node_head(address),
        &columns,
        sink,
    )
}

/// What the row of a node begins with.
pub(crate) fn node_head(address: u8) -> Head<'static>
    ensures { head_of result ≡ node_head address }
{
    Head {
        name: b"address",
        first: Plain::Address(address),
        columns: &[],
    }
}
