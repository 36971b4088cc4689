//! What the objects of a message begin with, written backwards.
ghost use Rattle.j39_rows.specs.Members.{address_string, name_string, or_null};
ghost use Rattle.std.specs.Prelude.{◌≡◌, ◌+◌, ◌≤◌, ◌++◌, length};
ghost use Rattle.std.specs.Option.{option_map};
ghost use Rattle.j39_address.specs.Name.{name_raw};
ghost use Rattle.j39_io.specs.Backwards.{WritesBefore};
ghost use Rattle.j39_frame.specs.Stamp.{stamp_micros};
ghost use Rattle.j39_reports.specs.EntryObject.{moment_members, sender_members};

use crate::second::Second;
use j39_address::Name;
use j39_io::backwards::{byte_before, bytes_before, hex_before};
use j39_io::vectors::hex_of_eight;
use j39_listen::Heard;

/// Writes the moment, the address, the destination and the NAME.
#[inline(always)]
pub(crate) fn heard_before(
    out: &mut [u8],
    end: usize,
    heard: &Heard<'_>,
    second: &mut Second,
) -> usize
    requires room { 142 ≤ end }
    requires within { end ≤ length out.old }
    ensures { WritesBefore out.old out.new end result (moment_members (stamp_micros heard.now.message.stamp)
        ++ sender_members heard.now.message.source heard.now.destination (option_map name_raw heard.now.name)) }
{
    let sender = sender_before(out, end, heard);
    second.members_before(out, sender, heard.message.stamp)
}

/// Writes the address, the destination and the NAME.
#[inline(always)]
fn sender_before(out: &mut [u8], end: usize, heard: &Heard<'_>) -> usize
    requires room { 60 ≤ end }
    requires within { end ≤ length out.old }
    ensures written { WritesBefore out.old out.new end result (sender_members heard.now.message.source
        heard.now.destination (option_map name_raw heard.now.name)) }
    ensures short { end ≤ result + 60 }
{
    let name = name_before(out, end, heard.name);
    let name_key = bytes_before(out, name, *b",\"name\":");
    let destination = destination_before(out, name_key, heard.destination);
    let destination_key = bytes_before(out, destination, *b",\"destination\":");
    let address = address_before(out, destination_key, heard.message.source);
    bytes_before(out, address, *b",\"address\":")
}

/// Writes a NAME as a string, or `null`.
#[inline(always)]
fn name_before(out: &mut [u8], end: usize, name: Option<Name>) -> usize
    requires room { 18 ≤ end }
    requires within { end ≤ length out.old }
    ensures written { WritesBefore out.old out.new end result (or_null (option_map name_string (option_map name_raw name))) }
    ensures short { end ≤ result + 18 }
{
    match name {
        Some(name) => {
            let last = byte_before(out, end, b'"');
            let digits = bytes_before(out, last, hex_of_eight(&name.raw().to_be_bytes()));
            byte_before(out, digits, b'"')
        }
        None => bytes_before(out, end, *b"null"),
    }
}

/// Writes a destination as a string, or `null`.
#[inline(always)]
fn destination_before(out: &mut [u8], end: usize, destination: Option<u8>) -> usize
    requires room { 4 ≤ end }
    requires within { end ≤ length out.old }
    ensures written { WritesBefore out.old out.new end result (or_null (option_map address_string destination)) }
    ensures starts { result + 4 ≡ end }
{
    match destination {
        Some(address) => address_before(out, end, address),
        None => bytes_before(out, end, *b"null"),
    }
}

/// Writes an address as a string.
#[inline(always)]
fn address_before(out: &mut [u8], end: usize, address: u8) -> usize
    requires room { 4 ≤ end }
    requires within { end ≤ length out.old }
    ensures written { WritesBefore out.old out.new end result (address_string address) }
    ensures starts { result + 4 ≡ end }
{
    let last = byte_before(out, end, b'"');
    let digits = hex_before(out, last, &[address]);
    byte_before(out, digits, b'"')
}
