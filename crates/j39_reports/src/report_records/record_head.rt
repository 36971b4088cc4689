//! What the records of a message begin with, written backwards.
ghost use Rattle.std.specs.Prelude.{◌≡◌, ◌+◌, ◌≤◌, decimal, length};
ghost use Rattle.std.specs.Option.{option_map};
ghost use Rattle.j39_address.specs.Name.{name_raw};
ghost use Rattle.j39_io.specs.Backwards.{WritesBefore};
ghost use Rattle.j39_frame.specs.Pgn.{pgn_raw};
ghost use Rattle.j39_frame.specs.Stamp.{stamp_micros};
ghost use Rattle.j39_listen.specs.Report.{name_field};
ghost use Rattle.j39_reports.specs.Columns.{destination_field, heard_fields, sender_fields};
ghost use Rattle.j39_reports.specs.EntryText.{begin_text};

use crate::head::HEAD;
use crate::second::Second;
use j39_address::Name;
use j39_io::backwards::{byte_before, bytes_before, hex_before, number_before};
use j39_io::vectors::hex_of_eight;
use j39_listen::Heard;

/// Writes the moment, the address, the destination, the NAME and the PGN at the end of a block.
pub(crate) fn begin_before(out: &mut [u8], heard: &Heard<'_>, second: &mut Second) -> usize
    requires { 192 ≤ length out.old }
    ensures { WritesBefore out.old out.new 192 result (begin_text (stamp_micros heard.now.message.stamp)
        heard.now.message.source heard.now.destination (option_map name_raw heard.now.name)
        (pgn_raw heard.now.message.pgn)) }
{
    let group = digits_before(out, HEAD, heard.message.pgn.raw());
    let comma = byte_before(out, group, b',');
    heard_before(out, comma, heard, second)
}

/// Writes the moment, the address, the destination and the NAME.
#[inline(always)]
pub(crate) fn heard_before(
    out: &mut [u8],
    end: usize,
    heard: &Heard<'_>,
    second: &mut Second,
) -> usize
    requires room { 68 ≤ end }
    requires within { end ≤ length out.old }
    ensures { WritesBefore out.old out.new end result (heard_fields (stamp_micros heard.now.message.stamp)
        heard.now.message.source heard.now.destination (option_map name_raw heard.now.name)) }
{
    let sender = sender_before(out, end, heard);
    let first = byte_before(out, sender, b',');
    second.moment_before(out, first, heard.message.stamp)
}

/// Writes the address, the destination and the NAME.
#[inline(always)]
fn sender_before(out: &mut [u8], end: usize, heard: &Heard<'_>) -> usize
    requires room { 22 ≤ end }
    requires within { end ≤ length out.old }
    ensures written { WritesBefore out.old out.new end result (sender_fields heard.now.message.source
        heard.now.destination (option_map name_raw heard.now.name)) }
    ensures short { end ≤ result + 22 }
{
    let name = name_before(out, end, heard.name);
    let second = byte_before(out, name, b',');
    let destination = destination_before(out, second, heard.destination);
    let first = byte_before(out, destination, b',');
    hex_before(out, first, &[heard.message.source])
}

/// Writes a NAME in sixteen hex digits, or nothing.
#[inline(always)]
fn name_before(out: &mut [u8], end: usize, name: Option<Name>) -> usize
    requires room { 16 ≤ end }
    requires within { end ≤ length out.old }
    ensures written { WritesBefore out.old out.new end result (name_field (option_map name_raw name)) }
    ensures short { end ≤ result + 16 }
{
    match name {
        Some(name) => bytes_before(out, end, hex_of_eight(&name.raw().to_be_bytes())),
        None => end,
    }
}

/// Writes a destination in two hex digits, or nothing.
#[inline(always)]
fn destination_before(out: &mut [u8], end: usize, destination: Option<u8>) -> usize
    requires room { 2 ≤ end }
    requires within { end ≤ length out.old }
    ensures written { WritesBefore out.old out.new end result (destination_field destination) }
    ensures short { end ≤ result + 2 }
{
    match destination {
        Some(address) => hex_before(out, end, &[address]),
        None => end,
    }
}

/// Writes a number, of ten digits at most.
#[inline(always)]
pub(crate) fn digits_before(out: &mut [u8], end: usize, value: u32) -> usize
    requires room { 10 ≤ end }
    requires within { end ≤ length out.old }
    ensures written { WritesBefore out.old out.new end result (decimal value) }
    ensures short { end ≤ result + 10 }
{
    number_before(out, end, u64::from(value))
}
