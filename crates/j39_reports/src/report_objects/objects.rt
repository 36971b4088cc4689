//! The objects of a message.
ghost use Rattle.std.specs.Prelude.{◌≡◌, ◌++◌, codes, decimal, false};
ghost use Rattle.j39_io.specs.Puts.{Puts};
ghost use Rattle.j39_io.specs.Turn.{turn};
ghost use Rattle.std.specs.Option.{option_map};
ghost use Rattle.j39_address.specs.Name.{name_raw};
ghost use Rattle.j39_frame.specs.Pgn.{pgn_raw};
ghost use Rattle.j39_frame.specs.Stamp.{stamp_micros};
ghost use Rattle.j39_groups.specs.Models.{value_of};
ghost use Rattle.j39_groups.specs.Names.{group_name_in, name_in, state_in};
ghost use Rattle.j39_listen.specs.HeardModel.{hearing_of};
ghost use Rattle.j39_reports.specs.EntryObject.{group_member, opening_text, parameter_members, value_json, value_members};
ghost use Rattle.j39_reports.specs.Forwards.{Gathers, head_text, waiting_text};
ghost use Rattle.j39_reports.specs.MessageObjects.{opened};
ghost use Rattle.j39_reports.specs.Json.{bytes_member, string_or_null};
ghost use Rattle.j39_rows.specs.Json.{string_text};

use crate::head::{HEAD, Head};
use crate::json::put_string_or_null;
use crate::report_objects::object_head::heard_before;
use crate::report_objects::object_sides::ObjectSides;
use crate::report_objects::quick_object::object_before;
use crate::report_records::digits_before;
use crate::second::Second;
use crate::sides::{KnownSides, unit_in};
use crate::waiting::{BLOCK, Waiting};
use arrayvec::ArrayVec;
use j39_frame::Pgn;
use j39_groups::{Groups, ReadingVisitor, Value, push_decimal};
use j39_io::backwards::{bytes_before, tail_before};
use j39_io::printing::push_bytes;
use j39_io::{DeviceFault, Sink, put_all};
use j39_listen::{EntryForm, Heard};
use j39_rows::{put_bytes_under, put_string};

/// The objects of a message so far.
#[derive(Drop)]
pub(crate) struct Objects<'k, 'g, 't, 'b> {
    known: &'k KnownSides<'g, 't, ObjectSides>,
    opening: &'b mut Head,
    pgn: Pgn,
    lines: u64,
    waiting: &'b mut Waiting,
}

impl<'k, 'g, 't, 'b> Objects<'k, 'g, 't, 'b> {
    ghost use Rattle.j39_reports.specs.MessageObjects.{IsOpened};

    /// None so far.
    #[inline(always)]
    fn new(
        known: &'k KnownSides<'g, 't, ObjectSides>,
        heard: &Heard<'_>,
        second: &mut Second,
        opening: &'b mut Head,
        waiting: &'b mut Waiting,
    ) -> Objects<'k, 'g, 't, 'b>
        ensures opened { IsOpened known.entry.now.groups.now (hearing_of heard.now) result }
        ensures none { result.lines ≡ 0 }
        ensures waiting { result.waiting.now.at ≡ 0 }
    {
        open_with(opening, known, heard, second);
        waiting.at = 0;
        Objects {
            known,
            opening,
            pgn: heard.message.pgn,
            lines: 0,
            waiting,
        }
    }
}

/// The form of objects: one for each entry.
#[derive(Drop)]
pub(crate) struct ObjectForm<'g, 't> {
    second: Second,
    known: KnownSides<'g, 't, ObjectSides>,
    opening: Head,
    waiting: Waiting,
}

impl<'g, 't> ObjectForm<'g, 't> {
    /// By a table of parameters, at the second 0.
    pub fn new(groups: &'g Groups<'t>) -> ObjectForm<'g, 't>
        ensures groups { result.known.groups ≡ groups.entry }
        ensures second { result.second.value ≡ 0 }
    {
        ObjectForm {
            second: Second::new(0),
            known: KnownSides::new(groups),
            opening: Head::new(),
            waiting: Waiting::new(),
        }
    }
}

impl<'g, 't> EntryForm for ObjectForm<'g, 't> {
    ghost use Rattle.j39_reports.specs.EntryObject.{entry_object};

    ghost text_by = { entry_object };

    ghost table_of = { λ form. form.known.groups.now };

    #[inline(always)]
    fn put_heard<W: Sink>(&mut self, heard: &Heard<'_>, sink: &mut W) -> Result<u64, DeviceFault> {
        let groups = self.known.groups;
        self.known.meet_group(heard.message.pgn);
        let mut objects = Objects::new(
            &self.known,
            heard,
            &mut self.second,
            &mut self.opening,
            &mut self.waiting,
        );
        let visited = groups.visit(heard.message.pgn, heard.message.payload, &mut objects, sink);
        let Objects { lines, waiting, .. } = objects;
        match visited {
            Ok(()) => {
                waiting.put(sink)?;
                waiting.teach(&mut self.known, heard.message.pgn);
                Ok(lines)
            }
            Err(DeviceFault) => Err(DeviceFault),
        }
    }
}

impl<'k, 'g, 't, 'b, W: Sink> ReadingVisitor<'t, W> for Objects<'k, 'g, 't, 'b> {
    ghost use Rattle.std.specs.Prelude.{◌++◌, ◌∷◌, []};
    ghost use Rattle.j39_groups.specs.Sightings.{told_in};
    ghost use Rattle.j39_reports.specs.EntryObject.{entry_object};
    ghost use Rattle.j39_reports.specs.MessageEntries.{Begun, HasStopped};
    ghost use Rattle.j39_reports.specs.MessageObjects.{HasWritten};

    type Fault = DeviceFault;

    ghost Subject = { Begun };

    ghost has_taken = { λ subject objects sink sightings.
        HasWritten subject objects (record { bytes = W.written sink; has_failed = W.has_failed sink }) (told_in sightings) };

    ghost has_stopped = { λ subject before at objects sink. HasStopped entry_object subject (told_in (before ++ at ∷ []))
        (record { bytes = W.written sink; has_failed = W.has_failed sink }) };

    #[inline(always)]
    fn visit(&mut self, spn: u32, value: Value<'t, '_>, sink: &mut W) -> Result<(), DeviceFault> {
        put_entry(
            self.waiting,
            self.opening,
            self.known,
            self.pgn,
            spn,
            value,
            sink,
        )?;
        self.lines = self.lines.saturating_add(1);
        Ok(())
    }

    #[inline(always)]
    fn visit_absent(&mut self, _: u32, _: &mut W) -> Result<(), DeviceFault> {
        Ok(())
    }
}

/// Writes what the objects of a message begin with, and what the group is called, where that is remembered.
#[inline(always)]
fn open_with(
    opening: &mut Head,
    known: &KnownSides<'_, '_, ObjectSides>,
    heard: &Heard<'_>,
    second: &mut Second,
)
    ensures { opened opening.new (group_name_in known.now.groups.now (pgn_raw heard.now.message.pgn))
        ≡ opening_text (stamp_micros heard.now.message.stamp) heard.now.message.source heard.now.destination
        (option_map name_raw heard.now.name) (pgn_raw heard.now.message.pgn)
        ++ group_member (group_name_in known.now.groups.now (pgn_raw heard.now.message.pgn)) }
{
    match known.of_group(heard.message.pgn.raw()) {
        Some(side) => {
            let group = tail_before(&mut opening.block, HEAD, &side.text, side.from);
            opening.from = heard_before(&mut opening.block, group, heard, second);
            opening.has_group = true;
        }
        None => open_unknown(opening, &heard.again(), second),
    }
}

/// The same of a group that isn't remembered.
#[inline(never)]
fn open_unknown(opening: &mut Head, heard: &Heard<'_>, second: &mut Second)
    ensures head { head_text opening.new ≡ opening_text (stamp_micros heard.now.message.stamp) heard.now.message.source
        heard.now.destination (option_map name_raw heard.now.name) (pgn_raw heard.now.message.pgn) }
    ensures without_group { opening.new.has_group ≡ false }
{
    let number = digits_before(&mut opening.block, HEAD, heard.message.pgn.raw());
    let key = bytes_before(&mut opening.block, number, *b",\"pgn\":");
    opening.from = heard_before(&mut opening.block, key, heard, second);
    opening.has_group = false;
}

/// Puts the object of a reading behind those that wait, or writes them and it.
#[inline(always)]
fn put_entry<W: Sink>(
    waiting: &mut Waiting,
    opening: &Head,
    known: &KnownSides<'_, '_, ObjectSides>,
    pgn: Pgn,
    spn: u32,
    value: Value<'_, '_>,
    sink: &mut W,
) -> Result<(), DeviceFault>
    ensures { Gathers (waiting_text waiting.old) (opened opening.now (group_name_in known.now.groups.now (pgn_raw pgn))
        ++ (parameter_members spn (name_in known.now.groups.now (pgn_raw pgn) spn)
        ++ value_members (value_of value.entry) (state_in known.now.groups.now (pgn_raw pgn) spn (value_of value.entry))))
        (waiting_text waiting.new) result (turn W.written W.has_failed sink.old sink.new) }
{
    if waiting.push(opening, known, pgn, spn, value) {
        return Ok(());
    }
    put_unknown(waiting, opening, known, pgn, spn, value, sink)
}

/// Writes the objects that wait, and that of a reading whose sides aren't known, and notes what can be learned of its parameter.
#[inline(never)]
fn put_unknown<W: Sink>(
    waiting: &mut Waiting,
    opening: &Head,
    known: &KnownSides<'_, '_, ObjectSides>,
    pgn: Pgn,
    spn: u32,
    value: Value<'_, '_>,
    sink: &mut W,
) -> Result<(), DeviceFault>
    ensures { Gathers (waiting_text waiting.old) (opened opening.now (group_name_in known.now.groups.now (pgn_raw pgn))
        ++ (parameter_members spn (name_in known.now.groups.now (pgn_raw pgn) spn)
        ++ value_members (value_of value.entry) (state_in known.now.groups.now (pgn_raw pgn) spn (value_of value.entry))))
        (waiting_text waiting.new) result (turn W.written W.has_failed sink.old sink.new) }
{
    waiting.put(sink)?;
    let number = pgn.raw();
    waiting.miss(known, number, spn, value.unit());
    let group = known.groups.group_name(pgn);
    let (parameter, state) = known.groups.called_in(number, spn, value);
    put_object(
        &mut waiting.block,
        opening,
        group,
        spn,
        parameter,
        value,
        state,
        sink,
    )
}

/// Writes the object of a reading, in one piece where it is short. What stands in `block` afterwards is not known.
#[inline(always)]
fn put_object<W: Sink>(
    block: &mut [u8; BLOCK],
    opening: &Head,
    group: Option<&[u8]>,
    spn: u32,
    parameter: Option<&[u8]>,
    value: Value<'_, '_>,
    state: Option<&[u8]>,
    sink: &mut W,
) -> Result<(), DeviceFault>
    ensures { Puts (opened opening.now (option_map (λ text. text.now) group.entry)
        ++ (parameter_members spn (option_map (λ text. text.now) parameter.entry)
        ++ value_members (value_of value.entry) (option_map (λ text. text.now) state.entry)))
        result (turn W.written W.has_failed sink.old sink.new) }
{
    match object_before(block, opening, spn, parameter, value, state) {
        Some(start) => put_all(sink, &block[start..]),
        None => put_parts(opening, group, spn, parameter, value, state, sink),
    }
}

/// Writes the object of a reading, part by part.
#[inline(never)]
fn put_parts<W: Sink>(
    opening: &Head,
    group: Option<&[u8]>,
    spn: u32,
    parameter: Option<&[u8]>,
    value: Value<'_, '_>,
    state: Option<&[u8]>,
    sink: &mut W,
) -> Result<(), DeviceFault>
    ensures { Puts (opened opening.now (option_map (λ text. text.now) group.entry)
        ++ (parameter_members spn (option_map (λ text. text.now) parameter.entry)
        ++ value_members (value_of value.entry) (option_map (λ text. text.now) state.entry)))
        result (turn W.written W.has_failed sink.old sink.new) }
{
    put_opened(opening, group, sink)?;
    put_parameter(spn, parameter, sink)?;
    put_value_members(value, state, sink)
}

/// Writes what the objects of a message begin with, and the group.
fn put_opened<W: Sink>(
    opening: &Head,
    group: Option<&[u8]>,
    sink: &mut W,
) -> Result<(), DeviceFault>
    ensures { Puts (opened opening.now (option_map (λ text. text.now) group.entry)) result
        (turn W.written W.has_failed sink.old sink.new) }
{
    if opening.has_group {
        return put_all(sink, opening.bytes());
    }
    put_all(sink, opening.bytes())?;
    put_member(b",\"group\":", group, sink)
}

/// Writes the number of the parameter, and what it is called.
#[tactic(auto, unfolding(crate::specs::EntryObject::parameter_members))]
fn put_parameter<W: Sink>(
    spn: u32,
    parameter: Option<&[u8]>,
    sink: &mut W,
) -> Result<(), DeviceFault>
    ensures { Puts (parameter_members spn (option_map (λ text. text.now) parameter.entry)) result
        (turn W.written W.has_failed sink.old sink.new) }
{
    let number = spn_member(spn);
    put_all(sink, number.as_slice())?;
    put_member(b",\"parameter\":", parameter, sink)
}

/// Writes the value, its unit, what its state is called, and the end of the line.
#[tactic(auto, unfolding(crate::specs::EntryObject::value_members))]
fn put_value_members<W: Sink>(
    value: Value<'_, '_>,
    state: Option<&[u8]>,
    sink: &mut W,
) -> Result<(), DeviceFault>
    ensures { Puts (value_members (value_of value.entry) (option_map (λ text. text.now) state.entry)) result
        (turn W.written W.has_failed sink.old sink.new) }
{
    put_value(value, sink)?;
    put_member(b",\"unit\":", unit_in(value), sink)?;
    put_member(b",\"state\":", state, sink)?;
    put_all(sink, b"}\n")
}

/// Writes a key and a text.
fn put_member<W: Sink>(key: &[u8], text: Option<&[u8]>, sink: &mut W) -> Result<(), DeviceFault>
    ensures { Puts (key.now ++ string_or_null (option_map (λ bytes. bytes.now) text.entry)) result
        (turn W.written W.has_failed sink.old sink.new) }
{
    put_all(sink, key)?;
    put_string_or_null(text, sink)
}

/// Writes the key of a value, and the value.
fn put_value<W: Sink>(value: Value<'_, '_>, sink: &mut W) -> Result<(), DeviceFault>
    ensures { Puts (codes ",\"value\":" ++ value_json (value_of value.entry)) result
        (turn W.written W.has_failed sink.old sink.new) }
{
    put_all(sink, b",\"value\":")?;
    put_json(value, sink)
}

/// Writes a value: a number, a word as a string, or a text with its bytes.
#[tactic(auto, unfolding(crate::specs::EntryObject::value_json))]
fn put_json<W: Sink>(value: Value<'_, '_>, sink: &mut W) -> Result<(), DeviceFault>
    ensures { Puts (value_json (value_of value.entry)) result (turn W.written W.has_failed sink.old sink.new) }
{
    match value {
        Value::Number(_, _) => value.put_field(sink),
        Value::On => put_all(sink, b"\"on\""),
        Value::Off => put_all(sink, b"\"off\""),
        Value::Error => put_all(sink, b"\"error\""),
        Value::Reserved => put_all(sink, b"\"reserved\""),
        Value::Indicator => put_all(sink, b"\"indicator\""),
        Value::Text(text) => put_text(text, sink),
    }
}

/// Writes a text, and its bytes where it isn't all UTF-8.
fn put_text<W: Sink>(text: &[u8], sink: &mut W) -> Result<(), DeviceFault>
    ensures { Puts (string_text text.now ++ bytes_member text.now) result (turn W.written W.has_failed sink.old sink.new) }
{
    put_string(text, sink)?;
    put_bytes_under(b"bytes", b"", text, sink)
}

/// The key and the number of a parameter.
fn spn_member(spn: u32) -> ArrayVec<u8, 32>
    ensures { result.items ≡ codes ",\"spn\":" ++ decimal spn }
{
    let mut member = ArrayVec::new();
    push_bytes(&mut member, b",\"spn\":");
    push_decimal(&mut member, spn);
    member
}
