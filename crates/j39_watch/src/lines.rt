//! The lines of a screen.
ghost use Rattle.std.specs.Prelude.{◌≡◌, ◌+◌, ◌<◌, ◌≤◌, ◌++◌, ◌∷◌, [], IfSome, None, codes, decimal, length, option_map, take, unwrap_or};
ghost use Rattle.std.specs.Option.{option_or};
ghost use Rattle.hex.specs.Hex.{encode_upper};
ghost use Rattle.j39_address.specs.Name.{name_raw};
ghost use Rattle.j39_frame.specs.Stamp.{stamp_micros};
ghost use Rattle.j39_fault_reports.specs.FaultRows.{saying_text};
ghost use Rattle.j39_fault_reports.specs.Faults.{active_or_lights};
ghost use Rattle.j39_groups.specs.Models.{scale_record};
ghost use Rattle.j39_groups.specs.ValueText.{number_text, value_text};
ghost use Rattle.j39_io.specs.Backwards.{WritesBefore};
ghost use Rattle.j39_io.specs.Puts.{Puts};
ghost use Rattle.j39_io.specs.Turn.{turn};
ghost use Rattle.j39_listen.specs.Report.{name_text};
ghost use Rattle.j39_watch.specs.LatestSoFar.{latest_at, latest_row};
ghost use Rattle.j39_names.specs.Naming.{naming_of};
ghost use Rattle.j39_reports.specs.RowModels.{kept_value};
ghost use Rattle.j39_watch.specs.NotesSoFar.{size_of};
ghost use Rattle.j39_watch.specs.Watch.{age_text, column, controller_columns, destination_text, fault_line, is_inside, letter_end, moment_text, more_text, row_shown, state_behind, tenths, value_text_line};

use crate::cut_line::{BLANK, Block, CutLine, END};
use crate::latest::Latest;
use crate::severity::Severity;
use crate::size::ScreenSize;
use crate::view::View;
use j39_address::Name;
use j39_fault_reports::put_active;
use j39_faults::{Code, Lamps};
use j39_frame::{Origin, Stamp};
use j39_groups::{Slot, put_value};
use j39_io::backwards::{byte_before, bytes_before, hex_before, number_before, slice_before};
use j39_io::{DeviceFault, Sink, put_all};
use j39_names::{Kind, Naming, own_name};
use j39_reports::{StoredValue, scaled_before};
use j39_rows::moment_text as clock_text;

/// Writes a line in its colour, of at most so many bytes as fit, of which the byte behind them may be kept too, and erases what
/// stands behind it.
#[inline(always)]
pub(crate) fn put_line<W: Sink>(
    size: ScreenSize,
    severity: Severity,
    line: &CutLine,
    sink: &mut W,
) -> Result<(), DeviceFault>
    ensures { Puts (row_shown (size_of size) (record { severity = severity; text = line.now.bytes.items })) result
        (turn W.written W.has_failed sink.old sink.new) }
{
    let colour = size.colour_of(severity);
    let text = whole_letters(line.as_slice(), usize::from(size.width()));
    put_all(sink, colour.begin())?;
    put_all(sink, text)?;
    put_all(sink, colour.end())
}

/// As many bytes as fit and end with a letter.
#[inline(always)]
#[tactic(auto, using(crate::proofs::ScreenLemmas::short_whole))]
fn whole_letters(bytes: &[u8], width: usize) -> &[u8]
    ensures { result.now ≡ take (letter_end width bytes.now) bytes.now }
{
    if bytes.len() <= width {
        return bytes;
    }
    &bytes[..end_of_letter(bytes, width)]
}

/// Where a line that is too long is cut.
fn end_of_letter(bytes: &[u8], width: usize) -> usize
    requires { width < length bytes.now }
    ensures value { result ≡ letter_end width bytes.now }
    ensures within { result ≤ width }
{
    let mut end = width;
    'bytes: while end > 0 && is_inside(bytes[end]) {
        end -= 1;
    }
    end
}

/// Whether a byte is of a letter that begins before it.
fn is_inside(byte: u8) -> bool
    ensures { result ≡ is_inside byte }
{
    byte / 64 == 2
}

/// The line of the moment of a view.
pub(crate) fn moment_line(view: View<'_, '_>) -> CutLine
    ensures { result.bytes.items ≡ take (view.entry.size.width + 1) (moment_text view.entry.size.clock (stamp_micros view.entry.now)) }
{
    let mut line = CutLine::new(usize::from(view.size.width()) + 1);
    line.push(b"last frame at ");
    line.push(clock_text(view.size.clock(), view.now).as_slice());
    line
}

/// The line that says how many more there are.
pub(crate) fn more_line(size: ScreenSize, more: u64) -> CutLine
    ensures { result.bytes.items ≡ take (size.width + 1) (more_text more) }
{
    let mut line = CutLine::new(usize::from(size.width()) + 1);
    push_number_column(&mut line, 0, more);
    line.push(b"more");
    line
}

/// The line of a code of the last message of a controller, which came then; or, of none, of its lamps.
pub(crate) fn fault_line(
    view: View<'_, '_>,
    address: u8,
    name: Option<Name>,
    then: Stamp,
    lamps: Lamps,
    code: Option<Code>,
) -> CutLine
    ensures { result.bytes.items ≡ take (view.entry.size.width + 1) (fault_line (naming_of view.entry.naming) (stamp_micros view.entry.now)
        address (option_map name_raw name) (stamp_micros then) (active_or_lights lamps code)).text }
{
    let mut line = CutLine::new(usize::from(view.size.width()) + 1);
    push_controller(&mut line, address, None, name.map(Name::raw));
    push_age(&mut line, 5, view.now, then);
    push_said(&mut line, view.naming, lamps, code);
    line
}

/// Makes a line that of a value.
pub(crate) fn make_value_line(
    line: &mut CutLine,
    naming: Naming<'_, '_>,
    now: Stamp,
    origin: Origin,
    latest: &Latest<'_>,
)
    ensures cut { line.new.bytes.items ≡ take line.old.width (value_text_line (naming_of naming.entry) (stamp_micros now)
        (latest_at (stamp_micros now) (latest_row (origin, latest.now)))) }
    ensures width { line.new.width ≡ line.old.width }
{
    line.clear();
    push_controller(line, origin.address, origin.destination, origin.name);
    push_number_column(line, 6, u64::from(origin.pgn));
    push_number_column(line, 6, u64::from(origin.spn));
    push_value_column(line, &latest.seen.value);
    push_age(line, 6, now, latest.seen.stamp);
    push_came(line, latest.came_before(now));
    let value = latest.seen.value.value();
    let (name, state) = naming.groups.called_in(origin.pgn, origin.spn, value);
    line.push(name_or_dash(own_name(naming.own, Kind::Parameter, origin.spn), name));
    push_state(line, state);
}

/// One's own name, or else that of the table; or a dash.
fn name_or_dash<'n>(own: Option<&'n [u8]>, name: Option<&'n [u8]>) -> &'n [u8]
    ensures { result.now ≡ unwrap_or (option_or (option_map (λ name. name.now) own.entry) (option_map (λ name. name.now) name.entry)) (codes "-") }
{
    match (own, name) {
        (Some(own), _) => own,
        (None, Some(name)) => name,
        (None, None) => b"-",
    }
}

/// Appends the address, with the destination, if there is one, and the NAME.
#[inline(always)]
fn push_controller(line: &mut CutLine, address: u8, destination: Option<u8>, name: Option<u64>)
    ensures cut { line.new.bytes.items ≡ take line.old.width (line.old.bytes.items ++ controller_columns address destination name) }
    ensures width { line.new.width ≡ line.old.width }
{
    if destination.is_none() {
        push_sender(line, address, name);
    } else {
        push_addresses(line, address, destination);
        push_name_column(line, name);
    }
}

/// Appends both columns at once, where there is no destination: how many spaces stand between them is known.
#[inline(always)]
fn push_sender(line: &mut CutLine, address: u8, name: Option<u64>)
    ensures cut { line.new.bytes.items ≡ take line.old.width (line.old.bytes.items ++ controller_columns address None name) }
    ensures width { line.new.width ≡ line.old.width }
{
    let mut block = BLANK;
    let end = name_before(&mut block, name);
    let gap = bytes_before(&mut block, end, *b"    ");
    let start = hex_before(&mut block, gap, &[address]);
    line.push_column(0, &block, start);
}

/// Appends the address, with the destination, if there is one, in their column.
fn push_addresses(line: &mut CutLine, address: u8, destination: Option<u8>)
    ensures cut { line.new.bytes.items ≡ take line.old.width (line.old.bytes.items
        ++ column 5 (encode_upper (address ∷ []) ++ destination_text destination)) }
    ensures width { line.new.width ≡ line.old.width }
{
    let mut block = BLANK;
    let end = destination_before(&mut block, destination);
    let start = hex_before(&mut block, end, &[address]);
    line.push_column(5, &block, start);
}

/// Writes a destination, if there is one, at the end of a block.
fn destination_before(block: &mut Block, destination: Option<u8>) -> usize
    ensures written { WritesBefore block.old block.new 63 result (destination_text destination) }
    ensures room { 60 ≤ result }
{
    match destination {
        Some(address) => {
            let digits = hex_before(block, END, &[address]);
            byte_before(block, digits, b'>')
        }
        None => END,
    }
}

/// Appends a NAME, or dashes, in its column.
fn push_name_column(line: &mut CutLine, name: Option<u64>)
    ensures cut { line.new.bytes.items ≡ take line.old.width (line.old.bytes.items ++ column 16 (name_text name)) }
    ensures width { line.new.width ≡ line.old.width }
{
    let mut block = BLANK;
    let start = name_before(&mut block, name);
    line.push_column(16, &block, start);
}

/// Writes a NAME, or dashes, at the end of a block.
fn name_before(block: &mut Block, name: Option<u64>) -> usize
    ensures written { WritesBefore block.old block.new 63 result (name_text name) }
    ensures sixteen { result + 16 ≡ 63 }
{
    match name {
        Some(name) => hex_before(block, END, &name.to_be_bytes()),
        None => bytes_before(block, END, *b"----------------"),
    }
}

/// Appends a number in a column, with a space behind it.
#[tactic(auto, using(j39_rows::proofs::NumberLemmas::short_decimal))]
fn push_number_column(line: &mut CutLine, width: usize, number: u64)
    requires { width ≤ 16 }
    ensures cut { line.new.bytes.items ≡ take line.old.width (line.old.bytes.items ++ column width (decimal number)) }
    ensures width { line.new.width ≡ line.old.width }
{
    let mut block = BLANK;
    let start = number_before(&mut block, END, number);
    line.push_column(width, &block, start);
}

/// Appends a value in its column.
fn push_value_column(line: &mut CutLine, value: &StoredValue<'_>)
    ensures cut { line.new.bytes.items ≡ take line.old.width (line.old.bytes.items ++ column 14 (value_text (kept_value value.now))) }
    ensures width { line.new.width ≡ line.old.width }
{
    let mut block = BLANK;
    match value_before(&mut block, value) {
        Some(start) => line.push_column(14, &block, start),
        None => push_long_value(line, value),
    }
}

/// Appends a value in its column, however long it is.
#[inline(never)]
#[tactic(auto, using(crate::proofs::CutLemmas::column_cut))]
fn push_long_value(line: &mut CutLine, value: &StoredValue<'_>)
    ensures cut { line.new.bytes.items ≡ take line.old.width (line.old.bytes.items ++ column 14 (value_text (kept_value value.now))) }
    ensures width { line.new.width ≡ line.old.width }
{
    let start = line.len();
    push_kept(line, value);
    line.end_column(start, 14);
}

/// Writes a value at the end of a block. `None`, and nothing of use is written, for a text, a number with more than fifteen
/// places, and a unit of more than sixteen bytes.
#[tactic(auto, unfolding(j39_groups::specs::ValueText::value_text))]
fn value_before(block: &mut Block, value: &StoredValue<'_>) -> Option<usize>
    ensures { IfSome result (λ start. WritesBefore block.old block.new 63 start (value_text (kept_value value.now))) }
{
    match value {
        StoredValue::Number(number, scale) => measure_before(block, *number, *scale),
        StoredValue::On => Some(bytes_before(block, END, *b"on")),
        StoredValue::Off => Some(bytes_before(block, END, *b"off")),
        StoredValue::Error => Some(bytes_before(block, END, *b"error")),
        StoredValue::Reserved => Some(bytes_before(block, END, *b"reserved")),
        StoredValue::Indicator => Some(bytes_before(block, END, *b"indicator")),
        StoredValue::Text(_) => None,
    }
}

/// Writes a number with its unit.
fn measure_before(block: &mut Block, number: i64, scale: Slot<'_>) -> Option<usize>
    ensures { IfSome result (λ start. WritesBefore block.old block.new 63 start (number_text number (scale_record scale.entry))) }
{
    if scale.unit().len() > 16 {
        return None;
    }
    let unit = slice_before(block, END, scale.unit());
    let space = byte_before(block, unit, b' ');
    scaled_before(block, space, number, scale.places())
}

/// Appends how old a value is, in a column.
#[tactic(auto, using(j39_rows::proofs::NumberLemmas::short_decimal))]
fn push_age(line: &mut CutLine, width: usize, now: Stamp, then: Stamp)
    requires { width ≤ 16 }
    ensures cut { line.new.bytes.items ≡ take line.old.width (line.old.bytes.items
        ++ column width (age_text (tenths (stamp_micros now) (stamp_micros then)))) }
    ensures width { line.new.width ≡ line.old.width }
{
    let tenths = now.micros().saturating_sub(then.micros()) / 100_000;
    let mut block = BLANK;
    let second = byte_before(&mut block, END, b's');
    let tenth = number_before(&mut block, second, tenths % 10);
    let point = byte_before(&mut block, tenth, b'.');
    let start = number_before(&mut block, point, tenths / 10);
    line.push_column(width, &block, start);
}

/// Appends how many came in a second, in its column.
#[tactic(auto, using(j39_rows::proofs::NumberLemmas::short_decimal))]
fn push_came(line: &mut CutLine, came: u64)
    ensures cut { line.new.bytes.items ≡ take line.old.width (line.old.bytes.items ++ column 5 (decimal came ++ codes "/s")) }
    ensures width { line.new.width ≡ line.old.width }
{
    let mut block = BLANK;
    let each = bytes_before(&mut block, END, *b"/s");
    let start = number_before(&mut block, each, came);
    line.push_column(5, &block, start);
}

/// Appends a state, if there is one.
fn push_state(line: &mut CutLine, state: Option<&[u8]>)
    ensures cut { line.new.bytes.items ≡ take line.old.width (line.old.bytes.items
        ++ state_behind (option_map (λ words. words.now) state.entry)) }
    ensures width { line.new.width ≡ line.old.width }
{
    if let Some(words) = state {
        line.push(b" = ");
        line.push(words);
    }
}

/// Appends a value; a line that is full keeps a front of it.
fn push_kept(line: &mut CutLine, value: &StoredValue<'_>)
    ensures cut { line.new.bytes.items ≡ take line.old.width (line.old.bytes.items ++ value_text (kept_value value.now)) }
    ensures width { line.new.width ≡ line.old.width }
{
    let _ = put_value(&value.value(), line);
}

/// Appends what is said of a code, or, of none, of the lamps; a line that is full keeps a front of it.
fn push_said(line: &mut CutLine, naming: Naming<'_, '_>, lamps: Lamps, code: Option<Code>)
    ensures cut { line.new.bytes.items ≡ take line.old.width (line.old.bytes.items
        ++ saying_text (naming_of naming.entry) (active_or_lights lamps code)) }
    ensures width { line.new.width ≡ line.old.width }
{
    let _ = put_active(&naming, lamps, code, line);
}
