//! The records of a message.
ghost use Rattle.std.specs.Prelude.{◌≡◌, ◌++◌, ◌∷◌, decimal, false};
ghost use Rattle.std.specs.List.{flat_map};
ghost use Rattle.j39_io.specs.Puts.{Puts};
ghost use Rattle.j39_io.specs.Turn.{turn};
ghost use Rattle.j39_io.specs.Records.{comma, later_text};
ghost use Rattle.std.specs.Option.{option_map};
ghost use Rattle.j39_address.specs.Name.{name_raw};
ghost use Rattle.j39_frame.specs.Stamp.{stamp_micros};
ghost use Rattle.j39_frame.specs.Pgn.{pgn_raw};
ghost use Rattle.j39_groups.specs.Models.{value_of};
ghost use Rattle.j39_listen.specs.HeardModel.{hearing_of};
ghost use Rattle.j39_reports.specs.Columns.{last_field};
ghost use Rattle.j39_reports.specs.EntryText.{begin_text, group_called, named_fields, parameter_called, state_called, value_fields};
ghost use Rattle.j39_reports.specs.Forwards.{Gathers, head_text, waiting_text};
ghost use Rattle.j39_reports.specs.MessageRecords.{begun_fields};

use crate::head::{HEAD, Head};
use crate::report_records::quick_record::record_before;
use crate::report_records::record_head::{begin_before, heard_before};
use crate::report_records::record_sides::{RecordSides, or_nothing};
use crate::second::Second;
use crate::sides::KnownSides;
use crate::waiting::{BLOCK, Waiting};
use arrayvec::ArrayVec;
use j39_frame::Pgn;
use j39_groups::{Groups, ReadingVisitor, Value, push_decimal};
use j39_io::backwards::tail_before;
use j39_io::{DeviceFault, Sink, put_all, put_behind_comma};
use j39_listen::{EntryForm, Heard};

/// The records of a message so far.
#[derive(Drop)]
pub(crate) struct Records<'k, 'g, 't, 'b> {
    known: &'k KnownSides<'g, 't, RecordSides>,
    begin: &'b mut Head,
    pgn: Pgn,
    lines: u64,
    waiting: &'b mut Waiting,
}

impl<'k, 'g, 't, 'b> Records<'k, 'g, 't, 'b> {
    ghost use Rattle.j39_reports.specs.MessageRecords.{IsBegun};

    /// None so far.
    #[inline(always)]
    fn new(
        known: &'k KnownSides<'g, 't, RecordSides>,
        heard: &Heard<'_>,
        second: &mut Second,
        begin: &'b mut Head,
        waiting: &'b mut Waiting,
    ) -> Records<'k, 'g, 't, 'b>
        ensures begun { IsBegun known.entry.now.groups.now (hearing_of heard.now) result }
        ensures none { result.lines ≡ 0 }
        ensures waiting { result.waiting.now.at ≡ 0 }
    {
        begin_with(begin, known, heard, second);
        waiting.at = 0;
        Records {
            known,
            begin,
            pgn: heard.message.pgn,
            lines: 0,
            waiting,
        }
    }
}

/// The form of records: one for each entry.
#[derive(Drop)]
pub(crate) struct RecordForm<'g, 't> {
    second: Second,
    known: KnownSides<'g, 't, RecordSides>,
    begin: Head,
    waiting: Waiting,
}

impl<'g, 't> RecordForm<'g, 't> {
    /// By a table of parameters, at the second 0.
    pub fn new(groups: &'g Groups<'t>) -> RecordForm<'g, 't>
        ensures groups { result.known.groups ≡ groups.entry }
        ensures second { result.second.value ≡ 0 }
    {
        RecordForm {
            second: Second::new(0),
            known: KnownSides::new(groups),
            begin: Head::new(),
            waiting: Waiting::new(),
        }
    }
}

impl<'g, 't> EntryForm for RecordForm<'g, 't> {
    ghost use Rattle.j39_reports.specs.EntryText.{entry_record};

    ghost text_by = { entry_record };

    ghost table_of = { λ form. form.known.groups.now };

    #[inline(always)]
    fn put_heard<W: Sink>(&mut self, heard: &Heard<'_>, sink: &mut W) -> Result<u64, DeviceFault> {
        let groups = self.known.groups;
        self.known.meet_group(heard.message.pgn);
        let mut records = Records::new(
            &self.known,
            heard,
            &mut self.second,
            &mut self.begin,
            &mut self.waiting,
        );
        let visited = groups.visit(heard.message.pgn, heard.message.payload, &mut records, sink);
        let Records { lines, waiting, .. } = records;
        match visited {
            Ok(()) => {
                waiting.put(sink)?;
                waiting.teach(&mut self.known, heard.message.pgn);
                Ok(lines)
            }
            Err(DeviceFault) => Err(DeviceFault),
        }
    }
}

impl<'k, 'g, 't, 'b, W: Sink> ReadingVisitor<'t, W> for Records<'k, 'g, 't, 'b> {
    ghost use Rattle.std.specs.Prelude.{◌++◌, ◌∷◌, []};
    ghost use Rattle.j39_groups.specs.Sightings.{told_in};
    ghost use Rattle.j39_reports.specs.EntryText.{entry_record};
    ghost use Rattle.j39_reports.specs.MessageEntries.{Begun, HasStopped};
    ghost use Rattle.j39_reports.specs.MessageRecords.{HasWritten};

    type Fault = DeviceFault;

    ghost Subject = { Begun };

    ghost has_taken = { λ subject records sink sightings.
        HasWritten subject records (record { bytes = W.written sink; has_failed = W.has_failed sink }) (told_in sightings) };

    ghost has_stopped = { λ subject before at records sink. HasStopped entry_record subject (told_in (before ++ at ∷ []))
        (record { bytes = W.written sink; has_failed = W.has_failed sink }) };

    #[inline(always)]
    fn visit(&mut self, spn: u32, value: Value<'t, '_>, sink: &mut W) -> Result<(), DeviceFault> {
        put_entry(
            self.waiting,
            self.begin,
            self.known,
            self.pgn,
            spn,
            value,
            sink,
        )?;
        self.lines = self.lines.saturating_add(1);
        Ok(())
    }

    #[inline(always)]
    fn visit_absent(&mut self, _: u32, _: &mut W) -> Result<(), DeviceFault> {
        Ok(())
    }
}

/// Writes what the records of a message begin with: the moment, the address, the NAME and the PGN, and what the group is called,
/// where that is remembered.
#[inline(always)]
fn begin_with(
    begin: &mut Head,
    known: &KnownSides<'_, '_, RecordSides>,
    heard: &Heard<'_>,
    second: &mut Second,
)
    ensures { begun_fields begin.new (group_called known.now.groups.now (pgn_raw heard.now.message.pgn))
        ≡ begin_text (stamp_micros heard.now.message.stamp) heard.now.message.source heard.now.destination
        (option_map name_raw heard.now.name) (pgn_raw heard.now.message.pgn)
        ++ later_text (group_called known.now.groups.now (pgn_raw heard.now.message.pgn)) }
{
    match known.of_group(heard.message.pgn.raw()) {
        Some(side) => {
            let group = tail_before(&mut begin.block, HEAD, &side.text, side.from);
            begin.from = heard_before(&mut begin.block, group, heard, second);
            begin.has_group = true;
        }
        None => begin_unknown(begin, &heard.again(), second),
    }
}

/// The same of a group that isn't remembered.
#[inline(never)]
fn begin_unknown(begin: &mut Head, heard: &Heard<'_>, second: &mut Second)
    ensures head { head_text begin.new ≡ begin_text (stamp_micros heard.now.message.stamp) heard.now.message.source
        heard.now.destination (option_map name_raw heard.now.name) (pgn_raw heard.now.message.pgn) }
    ensures without_group { begin.new.has_group ≡ false }
{
    begin.from = begin_before(&mut begin.block, heard, second);
    begin.has_group = false;
}

/// Puts the record of a reading behind those that wait, or writes them and it.
#[inline(always)]
fn put_entry<W: Sink>(
    waiting: &mut Waiting,
    begin: &Head,
    known: &KnownSides<'_, '_, RecordSides>,
    pgn: Pgn,
    spn: u32,
    value: Value<'_, '_>,
    sink: &mut W,
) -> Result<(), DeviceFault>
    ensures { Gathers (waiting_text waiting.old)
        (named_fields (begun_fields begin.now (group_called known.now.groups.now (pgn_raw pgn))) spn
        (parameter_called known.now.groups.now (pgn_raw pgn) spn)
        ++ value_fields (value_of value.entry) (state_called known.now.groups.now (pgn_raw pgn) spn (value_of value.entry)))
        (waiting_text waiting.new) result (turn W.written W.has_failed sink.old sink.new) }
{
    if waiting.push(begin, known, pgn, spn, value) {
        return Ok(());
    }
    put_unknown(waiting, begin, known, pgn, spn, value, sink)
}

/// Writes the records that wait, and that of a reading whose sides aren't known, and notes what can be learned of its parameter.
#[inline(never)]
fn put_unknown<W: Sink>(
    waiting: &mut Waiting,
    begin: &Head,
    known: &KnownSides<'_, '_, RecordSides>,
    pgn: Pgn,
    spn: u32,
    value: Value<'_, '_>,
    sink: &mut W,
) -> Result<(), DeviceFault>
    ensures { Gathers (waiting_text waiting.old)
        (named_fields (begun_fields begin.now (group_called known.now.groups.now (pgn_raw pgn))) spn
        (parameter_called known.now.groups.now (pgn_raw pgn) spn)
        ++ value_fields (value_of value.entry) (state_called known.now.groups.now (pgn_raw pgn) spn (value_of value.entry)))
        (waiting_text waiting.new) result (turn W.written W.has_failed sink.old sink.new) }
{
    waiting.put(sink)?;
    waiting.miss(known, pgn.raw(), spn, value.unit());
    let group = group_of(known.groups, pgn);
    let Called { parameter, state } = called_in(known.groups, pgn, spn, value);
    put_record(
        &mut waiting.block,
        begin,
        group,
        spn,
        parameter,
        value,
        state,
        sink,
    )
}

/// Writes the record of a reading, in one piece where it is short. What stands in `block` afterwards is not known.
#[inline(always)]
fn put_record<W: Sink>(
    block: &mut [u8; BLOCK],
    begin: &Head,
    group: &[u8],
    spn: u32,
    parameter: &[u8],
    value: Value<'_, '_>,
    state: &[u8],
    sink: &mut W,
) -> Result<(), DeviceFault>
    ensures { Puts (named_fields (begun_fields begin.now group.now) spn parameter.now
        ++ value_fields (value_of value.entry) state.now) result (turn W.written W.has_failed sink.old sink.new) }
{
    match record_before(block, begin, spn, parameter, value, state) {
        Some(start) => put_all(sink, &block[start..]),
        None => put_parts(begin, group, spn, parameter, value, state, sink),
    }
}

/// Writes the record of a reading, part by part.
#[inline(never)]
fn put_parts<W: Sink>(
    begin: &Head,
    group: &[u8],
    spn: u32,
    parameter: &[u8],
    value: Value<'_, '_>,
    state: &[u8],
    sink: &mut W,
) -> Result<(), DeviceFault>
    ensures { Puts (named_fields (begun_fields begin.now group.now) spn parameter.now
        ++ value_fields (value_of value.entry) state.now) result (turn W.written W.has_failed sink.old sink.new) }
{
    put_named(begin, group, spn, parameter, sink)?;
    put_value_and_behind(value, state, sink)
}

/// Writes the record of a reading, up to its value.
fn put_named<W: Sink>(
    begin: &Head,
    group: &[u8],
    spn: u32,
    parameter: &[u8],
    sink: &mut W,
) -> Result<(), DeviceFault>
    ensures { Puts (named_fields (begun_fields begin.now group.now) spn parameter.now)
        result (turn W.written W.has_failed sink.old sink.new) }
{
    put_begun(begin, group, sink)?;
    let number = spn_field(spn);
    put_all(sink, number.as_slice())?;
    put_behind_comma(parameter, sink)
}

/// Writes what the records of a message begin with, and what the group is called.
fn put_begun<W: Sink>(begin: &Head, group: &[u8], sink: &mut W) -> Result<(), DeviceFault>
    ensures { Puts (begun_fields begin.now group.now) result (turn W.written W.has_failed sink.old sink.new) }
{
    let begun = begin.bytes();
    if begin.has_group {
        return put_all(sink, begun);
    }
    put_all(sink, begun)?;
    put_behind_comma(group, sink)
}

/// Writes the record of a reading, from its value on.
fn put_value_and_behind<W: Sink>(
    value: Value<'_, '_>,
    state: &[u8],
    sink: &mut W,
) -> Result<(), DeviceFault>
    ensures { Puts (value_fields (value_of value.entry) state.now) result (turn W.written W.has_failed sink.old sink.new) }
{
    put_all(sink, b",")?;
    value.put_field(sink)?;
    let unit = value.unit();
    put_behind_comma(unit, sink)?;
    put_last_field(state, sink)
}

/// A comma and the number of a parameter.
fn spn_field(spn: u32) -> ArrayVec<u8, 32>
    ensures { result.items ≡ comma ∷ decimal spn }
{
    let mut field = ArrayVec::new();
    field.push(b',');
    push_decimal(&mut field, spn);
    field
}

/// What the table calls a parameter of a group, and the state of a value of it; nothing of what has no name.
struct Called<'r> {
    parameter: &'r [u8],
    state: &'r [u8],
}

fn called_in<'r>(groups: &'r Groups<'_>, pgn: Pgn, spn: u32, value: Value<'_, '_>) -> Called<'r>
    ensures parameter { result.parameter.now ≡ parameter_called groups.now (pgn_raw pgn) spn }
    ensures state { result.state.now ≡ state_called groups.now (pgn_raw pgn) spn (value_of value.entry) }
{
    let (parameter, state) = groups.called_in(pgn.raw(), spn, value);
    Called {
        parameter: or_nothing(parameter),
        state: or_nothing(state),
    }
}

/// What the table calls a group; nothing where it lists none.
fn group_of<'r>(groups: &'r Groups<'_>, pgn: Pgn) -> &'r [u8]
    ensures { result.now ≡ group_called groups.now (pgn_raw pgn) }
{
    or_nothing(groups.group_name(pgn))
}

/// Writes a comma, the last field of a record, and the end of its line.
fn put_last_field<W: Sink>(field: &[u8], sink: &mut W) -> Result<(), DeviceFault>
    ensures { Puts (last_field field.now) result (turn W.written W.has_failed sink.old sink.new) }
{
    put_behind_comma(field, sink)?;
    put_all(sink, b"\r\n")
}
