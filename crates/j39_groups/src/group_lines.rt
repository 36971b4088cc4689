//! The lines of the readings by the rows of a group.
ghost use Rattle.std.specs.Prelude.{◌≡◌, ◌≤◌, ◌*◌, IfOk, drop, length, true};
ghost use Rattle.std.specs.List.{flat_map, list_all};
ghost use Rattle.j39_io.specs.Puts.{Puts};
ghost use Rattle.j39_io.specs.Turn.{turn};
ghost use Rattle.j39_groups.specs.Lines.{in_group, reading_line, readings_by, row_lines};
ghost use Rattle.j39_groups.specs.Models.{row_record};
ghost use Rattle.j39_groups.specs.Readings.{readings_at};
ghost use Rattle.j39_groups.specs.Rows.{is_row};

use crate::lines::put_found;
use crate::reading::push_readings;
use crate::row::Row;
use crate::rows_before::{HEAD, LINES, rows_before};
use arrayvec::ArrayVec;
use j39_io::printing::{push_bytes, push_number};
use j39_io::{DeviceFault, Sink, put_all};

/// The most rows that are written in one block.
const PART: usize = 8;

/// Writes a line for each reading of a payload by these rows, and answers how many. What stands in `block` afterwards is
/// not known.
#[inline(always)]
pub(crate) fn put_rows<W: Sink>(
    block: &mut [u8; LINES],
    rows: &[Row<'_>],
    head: &[u8; HEAD],
    from: usize,
    bytes: &[u8],
    sink: &mut W,
) -> Result<u64, DeviceFault>
    requires from { from ≤ 48 }
    requires few { length rows.now ≤ 65536 }
    requires sound { list_all is_row rows.now ≡ true }
    ensures lines { IfOk result (λ n. n ≡ length (flat_map (readings_by bytes.now) rows.now)) }
    ensures puts { Puts (flat_map (row_lines (drop from head.now) bytes.now) rows.now)
        result (turn W.written W.has_failed sink.old sink.new) }
{
    if rows.len() <= PART {
        put_part(block, rows, head, from, bytes, sink)
    } else {
        put_parts_of(block, rows, head, from, bytes, sink)
    }
}

/// The same, of more rows than one block has room for.
#[inline(never)]
fn put_parts_of<W: Sink>(
    block: &mut [u8; LINES],
    rows: &[Row<'_>],
    head: &[u8; HEAD],
    from: usize,
    bytes: &[u8],
    sink: &mut W,
) -> Result<u64, DeviceFault>
    requires from { from ≤ 48 }
    requires few { length rows.now ≤ 65536 }
    requires sound { list_all is_row rows.now ≡ true }
    ensures lines { IfOk result (λ n. n ≡ length (flat_map (readings_by bytes.now) rows.now)) }
    ensures puts { Puts (flat_map (row_lines (drop from head.now) bytes.now) rows.now)
        result (turn W.written W.has_failed sink.old sink.new) }
{
    let mut lines = 0u64;
    let mut at = 0;
    'parts: while at < rows.len() {
        let end = rows.len().min(at + PART);
        let more = put_part(block, &rows[at..end], head, from, bytes, sink)?;
        lines += more;
        at = end;
    }
    Ok(lines)
}

/// The same, of as many rows as one block has room for: in one piece where each has its end.
#[inline(always)]
fn put_part<W: Sink>(
    block: &mut [u8; LINES],
    rows: &[Row<'_>],
    head: &[u8; HEAD],
    from: usize,
    bytes: &[u8],
    sink: &mut W,
) -> Result<u64, DeviceFault>
    requires from { from ≤ 48 }
    requires few { length rows.now ≤ 8 }
    requires sound { list_all is_row rows.now ≡ true }
    ensures lines { IfOk result (λ n. n ≡ length (flat_map (readings_by bytes.now) rows.now)) }
    ensures few { IfOk result (λ n. n ≤ 32 * length rows.now) }
    ensures puts { Puts (flat_map (row_lines (drop from head.now) bytes.now) rows.now)
        result (turn W.written W.has_failed sink.old sink.new) }
{
    match rows_before(block, head, from, rows, bytes) {
        Some((start, lines)) => {
            put_all(sink, &block[start..])?;
            Ok(lines)
        }
        None => put_each_row(rows, head, from, bytes, sink),
    }
}

/// The same, one by one.
#[inline(never)]
fn put_each_row<W: Sink>(
    rows: &[Row<'_>],
    head: &[u8; HEAD],
    from: usize,
    bytes: &[u8],
    sink: &mut W,
) -> Result<u64, DeviceFault>
    requires from { from ≤ 48 }
    requires few { length rows.now ≤ 8 }
    requires sound { list_all is_row rows.now ≡ true }
    ensures lines { IfOk result (λ n. n ≡ length (flat_map (readings_by bytes.now) rows.now)) }
    ensures few { IfOk result (λ n. n ≤ 32 * length rows.now) }
    ensures puts { Puts (flat_map (row_lines (drop from head.now) bytes.now) rows.now)
        result (turn W.written W.has_failed sink.old sink.new) }
{
    let mut lines = 0u64;
    for row in rows {
        let more = put_row(row, &head[from..], bytes, sink)?;
        lines += more;
    }
    Ok(lines)
}

/// The same, of one row.
fn put_row<W: Sink>(
    row: &Row<'_>,
    head: &[u8],
    bytes: &[u8],
    sink: &mut W,
) -> Result<u64, DeviceFault>
    requires short { length head.now ≤ 48 }
    requires sound { is_row row.now ≡ true }
    ensures lines { IfOk result (λ n. n ≡ length (readings_at bytes.now (row_record row.now))) }
    ensures few { IfOk result (λ n. n ≤ 32) }
    ensures puts { Puts (flat_map (reading_line (in_group head.now row.now.pgn)) (readings_at bytes.now (row_record row.now)))
        result (turn W.written W.has_failed sink.old sink.new) }
{
    let mut group = ArrayVec::<u8, 64>::new();
    push_bytes(&mut group, head);
    push_number(&mut group, u64::from(row.pgn));
    group.push(b' ');
    put_readings(row, group.as_slice(), bytes, sink)
}

/// Writes a line for each reading by a row; `head` is what each begins with.
fn put_readings<W: Sink>(
    row: &Row<'_>,
    head: &[u8],
    bytes: &[u8],
    sink: &mut W,
) -> Result<u64, DeviceFault>
    requires short { length head.now ≤ 64 }
    requires sound { is_row row.now ≡ true }
    ensures lines { IfOk result (λ n. n ≡ length (readings_at bytes.now (row_record row.now))) }
    ensures few { IfOk result (λ n. n ≤ 32) }
    ensures puts { Puts (flat_map (reading_line head.now) (readings_at bytes.now (row_record row.now)))
        result (turn W.written W.has_failed sink.old sink.new) }
{
    let mut found = ArrayVec::new();
    push_readings(&mut found, row, bytes);
    put_found(head, found.as_slice(), sink)?;
    Ok(found.len() as u64)
}
