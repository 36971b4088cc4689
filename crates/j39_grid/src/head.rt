//! The names of a grid's columns.
ghost use Rattle.std.specs.Prelude.{◌≡◌, OnOk, true};
ghost use Rattle.std.specs.List.{flat_map};
ghost use Rattle.j39_io.specs.Puts.{Puts};
ghost use Rattle.j39_io.specs.Records.{later_text};
ghost use Rattle.j39_io.specs.Turn.{turn};
ghost use Rattle.j39_grid.specs.Grid.{called, names_text};

use j39_groups::{Groups, decimal_of};
use j39_io::{DeviceFault, Sink, put_all, put_behind_comma};

/// Writes the names of the columns, and passes them on.
pub(crate) fn put_names<W: Sink>(
    groups: &Groups<'_>,
    spns: &[u32],
    sink: &mut W,
) -> Result<(), DeviceFault>
    ensures puts { Puts (names_text groups.now spns.now) result (turn W.written W.has_failed sink.old sink.new) }
    ensures flushed { OnOk result (W.is_flushed sink.new ≡ true) }
{
    put_record(groups, spns, sink)?;
    sink.flush()
}

/// Writes the names of the columns.
fn put_record<W: Sink>(groups: &Groups<'_>, spns: &[u32], sink: &mut W) -> Result<(), DeviceFault>
    ensures { Puts (names_text groups.now spns.now) result (turn W.written W.has_failed sink.old sink.new) }
{
    put_all(sink, b"stamp,utc")?;
    put_parameters(groups, spns, sink)?;
    put_all(sink, b"\r\n")
}

/// Writes those of the parameters, each behind a comma.
fn put_parameters<W: Sink>(
    groups: &Groups<'_>,
    spns: &[u32],
    sink: &mut W,
) -> Result<(), DeviceFault>
    ensures { Puts (flat_map (λ spn. later_text (called groups.now spn)) spns.now) result
        (turn W.written W.has_failed sink.old sink.new) }
{
    for spn in spns {
        put_parameter(groups, *spn, sink)?;
    }
    Ok(())
}

/// Writes what the table calls a parameter, or else its number.
fn put_parameter<W: Sink>(groups: &Groups<'_>, spn: u32, sink: &mut W) -> Result<(), DeviceFault>
    ensures { Puts (later_text (called groups.now spn)) result (turn W.written W.has_failed sink.old sink.new) }
{
    match groups.parameter_name(spn) {
        Some(name) => put_behind_comma(name, sink),
        None => put_behind_comma(decimal_of(spn).as_slice(), sink),
    }
}
