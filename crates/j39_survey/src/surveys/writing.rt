//! A survey, written.
ghost use Rattle.std.specs.Prelude.{◌≡◌, ◌<◌, ◌≤◌, ◌+◌, ◌*◌, ◌/◌, ◌%◌, ◌++◌, ℕ, List, Option, true, map, option_map, OnOk};
ghost use Rattle.std.specs.List.{flat_map};
ghost use Rattle.j39_io.specs.Puts.{Puts};
ghost use Rattle.j39_io.specs.Turn.{turn};
ghost use Rattle.j39_io.specs.Device.{Marks};
ghost use Rattle.j39_frame.specs.Frame.{FrameRecord};
ghost use Rattle.j39_frame.specs.Groups.{IsHeardGroup};
ghost use Rattle.j39_frame.specs.Pgn.{pgn_raw};
ghost use Rattle.j39_survey.specs.GroupCounts.{Came, came_in, group_of};
ghost use Rattle.j39_listen.specs.Heard.{Hearing};
ghost use Rattle.j39_survey.specs.LogLines.{LogLine};
ghost use Rattle.j39_survey.specs.SurveyModels.{HasCounted, HasSurveyed, HaveCounted, interface_record, others_record, row_shown, shown_record};
ghost use Rattle.j39_survey.specs.UnreadLines.{is_printed_log};
ghost use Rattle.j39_names.specs.Naming.{naming_of};
ghost use Rattle.j39_survey.specs.SurveyText.{class_of, elsewhere_text, group_row, group_text, groups_from, groups_text, interface_row, names_in, note_text, printed_text, row_in, shown_row, survey_end, survey_head, survey_text};

use crate::surveys::group_table::{GroupCount, GroupTable};
use crate::surveys::interfaces::{InterfaceCounts, Interfaces};
use crate::surveys::log_survey::Survey;
use crate::surveys::others::Others;
use crate::surveys::survey_row::{
    NO_ROW, SurveyRow, count_row, elsewhere_row, interface_row, others_row, shown_text,
    silent_since, spread_cells,
};
use crate::surveys::unread::{UnreadLine, UnreadLines};
use j39_frame::Pgn;
use j39_groups::{Groups, is_network_group};
use j39_io::{DeviceFault, Sink, put_all};
use j39_listen::Format;
use j39_names::Naming;
use j39_rows::{Cell, Plain, put_parts};

/// The names of the columns.
const NAMES: &[u8] =
    b"record,lines,interface,pgn,frames,first_stamp,first_utc,last_stamp,last_utc,back,announced,whole,addresses,least,mean,most,since_stamp,since_utc,class,group,standard,remote,fd,error,odd,line,text\r\n";

/// What is said of plain output of `candump`.
const PRINTED: &[u8] = b"this is plain candump output, not candump -L";

/// Writes the survey of all lines, and passes it on. After a fault a front was written.
pub(crate) fn put_survey<W: Sink>(
    form: Format,
    naming: &Naming<'_, '_>,
    survey: &Survey,
    sink: &mut W,
) -> Result<(), DeviceFault>
    ensures puts { (given : Option (List ℕ)) (lines : List LogLine) → (h : HasSurveyed survey.now given lines)
        → Puts (survey_text form (naming_of naming.now) given lines h.heard) result (turn W.written W.has_failed sink.old sink.new) }
    ensures mark { Marks result (W.has_failed sink.old) (W.has_failed sink.new) }
    ensures flushed { OnOk result (W.is_flushed sink.new ≡ true) }
{
    put_head(form, survey.lines, &survey.interfaces, sink)?;
    put_groups(form, naming, &survey.traffic.groups, sink)?;
    put_end(
        form,
        &survey.others,
        &survey.unread,
        is_printed(survey),
        sink,
    )?;
    sink.flush()
}

/// Whether the log is what `candump` prints where it is not asked for a log.
fn is_printed(survey: &Survey) -> bool
    ensures { (given : Option (List ℕ)) (lines : List LogLine) → HasSurveyed survey.now given lines → result ≡ is_printed_log lines }
{
    0 < survey.unread.count && !survey.has_log_line && survey.unread.are_printed
}

/// Writes the names of the columns above records, how many lines there are, the interfaces, and how many frames are of none of
/// these.
fn put_head<W: Sink>(
    form: Format,
    lines: u64,
    interfaces: &Interfaces,
    sink: &mut W,
) -> Result<(), DeviceFault>
    ensures { Puts (names_in form ++ survey_head form lines (map interface_record interfaces.now.told.items) interfaces.now.untold)
        result (turn W.written W.has_failed sink.old sink.new) }
{
    put_all(sink, names_in(form))?;
    count_row(b"lines", lines).put(form, sink)?;
    put_interfaces(form, interfaces.told.as_slice(), sink)?;
    put_elsewhere(form, interfaces.untold, sink)
}

/// The names of the columns, which stand above records.
fn names_in(form: Format) -> &'static [u8]
    ensures { result.now ≡ names_in form }
{
    match form {
        Format::Line(_) => b"",
        Format::Record => NAMES,
        Format::Object => b"",
    }
}

/// Writes a row for each interface.
fn put_interfaces<W: Sink>(
    form: Format,
    told: &[InterfaceCounts],
    sink: &mut W,
) -> Result<(), DeviceFault>
    ensures { Puts (flat_map (λ i. row_in form (interface_row (interface_record i))) told.now)
        result (turn W.written W.has_failed sink.old sink.new) }
{
    for interface in told {
        interface_row(interface).put(form, sink)?;
    }
    Ok(())
}

/// Writes how many frames are of interfaces that are not told, where there are some.
fn put_elsewhere<W: Sink>(form: Format, frames: u64, sink: &mut W) -> Result<(), DeviceFault>
    ensures { Puts (elsewhere_text form frames) result (turn W.written W.has_failed sink.old sink.new) }
{
    if frames == 0 {
        Ok(())
    } else {
        elsewhere_row(frames).put(form, sink)
    }
}

/// Writes a row for each group that has frames, rising.
fn put_groups<W: Sink>(
    form: Format,
    naming: &Naming<'_, '_>,
    table: &GroupTable,
    sink: &mut W,
) -> Result<(), DeviceFault>
    ensures puts { (F : List FrameRecord) (heard : List Hearing) → HaveCounted table.now (came_in F heard)
        → Puts (groups_text form (naming_of naming.now) (came_in F heard)) result (turn W.written W.has_failed sink.old sink.new) }
    ensures mark { Marks result (W.has_failed sink.old) (W.has_failed sink.new) }
{
    for front in 0..1024 {
        put_front(form, naming, table, front, sink)?;
    }
    Ok(())
}

/// Writes the rows of the groups whose pages and PF are these: one where PF is below 240, else 256.
fn put_front<W: Sink>(
    form: Format,
    naming: &Naming<'_, '_>,
    table: &GroupTable,
    front: u32,
    sink: &mut W,
) -> Result<(), DeviceFault>
    requires { front < 1024 }
    ensures puts { (F : List FrameRecord) (heard : List Hearing) → HaveCounted table.now (came_in F heard)
        → Puts (groups_from form (naming_of naming.now) (came_in F heard) (front * 256) 256) result (turn W.written W.has_failed sink.old sink.new) }
    ensures mark { Marks result (W.has_failed sink.old) (W.has_failed sink.new) }
{
    let first = front * 256;
    if front % 256 < 240 {
        put_at(form, naming, table, first, sink)
    } else {
        put_each(form, naming, table, first, sink)
    }
}

/// Writes the rows of 256 groups from the first on.
fn put_each<W: Sink>(
    form: Format,
    naming: &Naming<'_, '_>,
    table: &GroupTable,
    first: u32,
    sink: &mut W,
) -> Result<(), DeviceFault>
    requires within { first + 256 ≤ 262144 }
    requires heard { 240 ≤ first / 256 % 256 }
    requires begins { first % 256 ≡ 0 }
    ensures puts { (came : ℕ → Came) → HaveCounted table.now came
        → Puts (groups_from form (naming_of naming.now) came first 256) result (turn W.written W.has_failed sink.old sink.new) }
    ensures mark { Marks result (W.has_failed sink.old) (W.has_failed sink.new) }
{
    for low in 0..256 {
        put_at(form, naming, table, first + low, sink)?;
    }
    Ok(())
}

/// Writes the row of the group of this number, where it has frames.
#[inline(always)]
fn put_at<W: Sink>(
    form: Format,
    naming: &Naming<'_, '_>,
    table: &GroupTable,
    raw: u32,
    sink: &mut W,
) -> Result<(), DeviceFault>
    requires { IsHeardGroup raw }
    ensures puts { (came : ℕ → Came) → HaveCounted table.now came
        → Puts (group_text form (naming_of naming.now) raw (group_of (came raw))) result (turn W.written W.has_failed sink.old sink.new) }
    ensures mark { Marks result (W.has_failed sink.old) (W.has_failed sink.new) }
{
    match Pgn::new(raw) {
        None => Ok(()),
        Some(pgn) => put_group(form, naming, pgn, table.count(pgn), sink),
    }
}

/// Writes the row of a group, where it came.
#[inline(always)]
#[tactic(auto, unfolding(crate::specs::SurveyText::group_text))]
fn put_group<W: Sink>(
    form: Format,
    naming: &Naming<'_, '_>,
    pgn: Pgn,
    group: &GroupCount,
    sink: &mut W,
) -> Result<(), DeviceFault>
    ensures puts { (c : Came) → HasCounted group.now c
        → Puts (group_text form (naming_of naming.now) (pgn_raw pgn) (group_of c)) result (turn W.written W.has_failed sink.old sink.new) }
    ensures mark { Marks result (W.has_failed sink.old) (W.has_failed sink.new) }
{
    if group.arrivals.count == 0 {
        Ok(())
    } else {
        put_line(form, naming, pgn, group, sink)
    }
}

/// Writes the row of a group that came. Few did: by itself, it leaves the walk over all groups short.
#[inline(never)]
fn put_line<W: Sink>(
    form: Format,
    naming: &Naming<'_, '_>,
    pgn: Pgn,
    group: &GroupCount,
    sink: &mut W,
) -> Result<(), DeviceFault>
    ensures puts { (c : Came) → HasCounted group.now c
        → Puts (row_in form (group_row (naming_of naming.now) (pgn_raw pgn) (group_of c))) result (turn W.written W.has_failed sink.old sink.new) }
    ensures mark { Marks result (W.has_failed sink.old) (W.has_failed sink.new) }
{
    group_row(naming, pgn, group).put(form, sink)
}

/// The row of a group.
fn group_row<'r>(naming: &Naming<'r, '_>, pgn: Pgn, group: &GroupCount) -> SurveyRow<'r>
    ensures { (c : Came) → HasCounted group.now c → row_shown result ≡ group_row (naming_of naming.now) (pgn_raw pgn) (group_of c) }
{
    let spread = &group.arrivals.distances.spread;
    let (least, mean, most) = spread_cells(spread);
    SurveyRow {
        kind: b"group",
        pgn: Cell::number(u64::from(pgn.raw())),
        frames: Cell::number(group.frames),
        announced: Cell::number(group.announced),
        whole: Cell::number(group.whole),
        addresses: Cell::number(group.arrivals.senders.count),
        least,
        mean,
        most,
        since: silent_since(spread),
        class: Cell::Is(Plain::Word(class_of(naming.groups, pgn))),
        name: Cell::optional(naming.group_name(pgn)),
        ..NO_ROW
    }
}

/// Whether the table reads a group, or the network needs it, or neither.
fn class_of<'r>(groups: &'r Groups<'_>, pgn: Pgn) -> &'r [u8]
    ensures { result.now ≡ class_of groups.now (pgn_raw pgn) }
{
    if groups.is_reported(pgn) {
        b"read"
    } else if is_network_group(pgn) || pgn.raw() == 59904 {
        b"network"
    } else {
        b"not read"
    }
}

/// Writes the other lines, how many lines are unread, the first of them, and whether all is plain output of `candump`.
fn put_end<W: Sink>(
    form: Format,
    others: &Others,
    unread: &UnreadLines,
    is_printed: bool,
    sink: &mut W,
) -> Result<(), DeviceFault>
    ensures { Puts (survey_end form (others_record others.now) unread.now.count (map shown_record unread.now.first.items) is_printed)
        result (turn W.written W.has_failed sink.old sink.new) }
{
    others_row(others).put(form, sink)?;
    count_row(b"unread", unread.count).put(form, sink)?;
    put_unread(form, unread.first.as_slice(), sink)?;
    put_printed(form, is_printed, sink)
}

/// Writes a row for each of these unread lines.
fn put_unread<W: Sink>(form: Format, first: &[UnreadLine], sink: &mut W) -> Result<(), DeviceFault>
    ensures { Puts (flat_map (λ line. row_in form (shown_row (shown_record line))) first.now)
        result (turn W.written W.has_failed sink.old sink.new) }
{
    for line in first {
        put_shown(form, line, sink)?;
    }
    Ok(())
}

/// Writes the row of an unread line.
fn put_shown<W: Sink>(form: Format, line: &UnreadLine, sink: &mut W) -> Result<(), DeviceFault>
    ensures { Puts (row_in form (shown_row (shown_record line.now))) result (turn W.written W.has_failed sink.old sink.new) }
{
    let text = shown_text(line);
    let row = SurveyRow {
        kind: b"line",
        line: Cell::number(line.number),
        text: Cell::Text(text.as_slice()),
        ..NO_ROW
    };
    row.put(form, sink)
}

/// Writes that a log is plain output of `candump`, where it is.
fn put_printed<W: Sink>(form: Format, is_printed: bool, sink: &mut W) -> Result<(), DeviceFault>
    ensures { Puts (printed_text form is_printed) result (turn W.written W.has_failed sink.old sink.new) }
{
    if is_printed {
        put_note(form, sink)
    } else {
        Ok(())
    }
}

fn put_note<W: Sink>(form: Format, sink: &mut W) -> Result<(), DeviceFault>
    ensures { Puts (note_text form) result (turn W.written W.has_failed sink.old sink.new) }
{
    let row = SurveyRow {
        kind: b"note",
        text: Cell::Text(PRINTED),
        ..NO_ROW
    };
    match form {
        Format::Line(_) => {
            let parts: [&[u8]; 2] = [PRINTED, b"\n"];
            put_parts(&parts, sink)
        }
        Format::Record => row.put(Format::Record, sink),
        Format::Object => row.put(Format::Object, sink),
    }
}
