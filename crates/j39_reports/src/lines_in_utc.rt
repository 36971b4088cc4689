//! The report of a log in lines with their moments in UTC.
ghost use Rattle.std.specs.Prelude.{◌≡◌, ◌+◌, ◌≤◌, [], Err, IfSome, OnOk, drop, length};
ghost use Rattle.std.specs.Option.{option_map};
ghost use Rattle.j39_address.specs.Name.{name_raw};
ghost use Rattle.j39_frame.specs.Stamp.{stamp_micros};
ghost use Rattle.j39_io.specs.Backwards.{WritesBefore};
ghost use Rattle.j39_io.specs.Turn.{turn};
ghost use Rattle.j39_listen.specs.Asking.{AsksForBoxes};
ghost use Rattle.j39_listen.specs.Chooses.{which_of};
ghost use Rattle.j39_listen.specs.Ran.{PassesOn, Ran};
ghost use Rattle.j39_listen.specs.Report.{name_text};
ghost use Rattle.j39_listen.specs.Run.{WritesAsked, WritesWholeLines};
ghost use Rattle.j39_listen.specs.declared.running.RunFault.TheVariants.{Read};
ghost use Rattle.j39_reports.specs.EntryInUtc.{MakesInUtc, entry_in_utc, sender_in_utc};

use crate::second::Second;
use j39_address::Name;
use j39_groups::{Groups, HEAD, LINES};
use j39_io::backwards::{byte_before, bytes_before, hex_before};
use j39_io::vectors::hex_of_eight;
use j39_io::{DeviceFault, Sink, Source};
use j39_listen::{Counts, EntryForm, Heard, Report, RunFault, Wanted, run_over};
use j39_log::Bus;
use std::alloc::Global;

/// What the lines of a message are made with, kept from message to message.
#[derive(Drop)]
pub(crate) struct UtcPen<'g, 't> {
    groups: &'g Groups<'t>,
    block: [u8; LINES],
    second: Second,
}

impl<'g, 't> UtcPen<'g, 't> {
    /// By a table of parameters, with nothing written, at the second 0.
    pub fn new(groups: &'g Groups<'t>) -> UtcPen<'g, 't>
        ensures groups { result.groups ≡ groups.entry }
        ensures second { result.second.value ≡ 0 }
    {
        UtcPen {
            groups,
            block: [0; LINES],
            second: Second::new(0),
        }
    }
}

impl<'g, 't> EntryForm for UtcPen<'g, 't> {
    ghost use Rattle.j39_reports.specs.EntryInUtc.{entry_in_utc};

    ghost text_by = { λ groups. entry_in_utc };

    ghost table_of = { λ pen. pen.groups.now };

    #[inline(always)]
    fn put_heard<W: Sink>(&mut self, heard: &Heard<'_>, sink: &mut W) -> Result<u64, DeviceFault> {
        let mut head = [0; HEAD];
        let from = head_before(&mut head, heard, &mut self.second);
        match self.groups.put_lines(
            &mut self.block,
            &head,
            from,
            heard.message.pgn,
            heard.message.payload,
            sink,
        ) {
            Ok(lines) => Ok(lines),
            Err(DeviceFault) => Err(DeviceFault),
        }
    }
}

/// Writes moment, address and NAME at the end of a block, a space after each, and answers where they start.
fn head_before(out: &mut [u8; HEAD], heard: &Heard<'_>, second: &mut Second) -> usize
    ensures head { drop result out.new ≡ sender_in_utc (stamp_micros heard.now.message.stamp) heard.now.message.source
        (option_map name_raw heard.now.name) }
    ensures within { result ≤ 48 }
{
    let third = byte_before(out, HEAD, b' ');
    let name = name_before(out, third, heard.name);
    let gap = byte_before(out, name, b' ');
    let address = hex_before(out, gap, &[heard.message.source]);
    let first = byte_before(out, address, b' ');
    second.utc_before(out, first, heard.message.stamp)
}

/// Writes a NAME in sixteen hex digits, or sixteen dashes.
fn name_before(out: &mut [u8], end: usize, name: Option<Name>) -> usize
    requires room { 16 ≤ end }
    requires within { end ≤ length out.old }
    ensures written { WritesBefore out.old out.new end result (name_text (option_map name_raw name)) }
    ensures starts { result + 16 ≡ end }
{
    match name {
        Some(name) => bytes_before(out, end, hex_of_eight(&name.raw().to_be_bytes())),
        None => bytes_before(out, end, *b"----------------"),
    }
}

/// Writes the report of a log of at most `limit` bytes by a table of parameters in lines with their moments in UTC: one for each
/// value that a filter takes; for each if none is given. Without a bus it is that of the first frame in the log.
pub fn report_in_utc<R: Source, W: Sink>(
    alloc: Global,
    wanted: Wanted<'_, '_>,
    source: &mut R,
    sink: &mut W,
    bus: Option<Bus>,
    limit: u64,
) -> Result<Counts, RunFault>
    // What the run promises is `Ran`: what is written is such lines of what the filter takes of the log's report, and nothing
    // else. Memory is wanted only at a frame of the log that announces a message.
    ensures ran { Ran (MakesInUtc wanted.entry.groups.now (which_of wanted.entry.filter)) AsksForBoxes bus limit result
        (turn R.remaining R.has_failed source.old source.new) (turn W.written W.has_failed sink.old sink.new) }

    // Of what publishers sent, they are exactly those of the values published that the filter takes.
    ensures asked { OnOk result (IfSome (R.remaining source.old) (λ log. WritesAsked [] (λ rows. entry_in_utc)
        (which_of wanted.entry.filter) wanted.entry.groups.now bus log (W.written sink.old) (W.written sink.new))) }

    // What was written is passed on at the end, and before each read.
    ensures flushed { PassesOn result (W.is_flushed sink.old) (W.is_flushed sink.new) }

    // Where a read ends the run, all that the whole lines before it make was written.
    ensures kept_up { result ≡ Err Read → WritesWholeLines (MakesInUtc wanted.entry.groups.now (which_of wanted.entry.filter)) bus
        (R.remaining source.old) (R.remaining source.new) (W.written sink.old) (W.written sink.new) }
{
    let Wanted { groups, filter } = wanted;
    let pen = UtcPen::new(groups);
    let report = Report::new(alloc, groups, filter, pen);
    run_over(report, source, sink, bus, limit)
}
