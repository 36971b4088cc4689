//! The rows of a survey (own).
ghost use Rattle.std.specs.Prelude.{◌≡◌, ◌+◌, ◌*◌, ◌≤◌, ◌++◌, ◌/◌, length, map, option_map};
ghost use Rattle.std.specs.List.{flat_map};
ghost use Rattle.arrayvec.specs.ArrayVec.{array_vec_len};
ghost use Rattle.j39_io.specs.Puts.{Puts};
ghost use Rattle.j39_io.specs.Turn.{turn};
ghost use Rattle.j39_frame.specs.Stamp.{stamp_micros};
ghost use Rattle.j39_survey.specs.SurveyModels.{interface_record, others_record, row_shown, shown_record, spread_record};
ghost use Rattle.j39_survey.specs.SurveyText as rows;
ghost use Rattle.j39_survey.specs.SurveyText.{apart, byte_text, count_row, elsewhere_row, interface_row, others_row, row_head, row_in, shown_text, survey_columns};
ghost use Rattle.j39_rows.specs.Models.{cell_of, column_of, head_of};

use crate::surveys::distances::Spread;
use crate::surveys::interfaces::InterfaceCounts;
use crate::surveys::others::Others;
use crate::surveys::unread::UnreadLine;
use arrayvec::ArrayVec;
use j39_frame::Stamp;
use j39_io::printing::{push_bytes, push_hex};
use j39_io::{DeviceFault, Sink};
use j39_listen::Format;
use j39_rows::{Cell, Column, Head, Place, Plain, put_row};

/// The bytes of an unread line as they are shown, four for each of sixty at most, and two dots.
pub(crate) type ShownText = ArrayVec<u8, 242>;

/// A row: its kind, and what stands in the columns behind that. Each kind has some of them.
#[derive(Clone, Copy)]
pub(crate) struct SurveyRow<'a> {
    pub kind: &'a [u8],
    pub lines: Cell<'a>,
    pub interface: Cell<'a>,
    pub pgn: Cell<'a>,
    pub frames: Cell<'a>,
    pub first: Option<Stamp>,
    pub last: Option<Stamp>,
    pub back: Cell<'a>,
    pub announced: Cell<'a>,
    pub whole: Cell<'a>,
    pub addresses: Cell<'a>,
    pub least: Cell<'a>,
    pub mean: Cell<'a>,
    pub most: Cell<'a>,
    pub since: Option<Stamp>,
    pub class: Cell<'a>,
    pub name: Cell<'a>,
    pub standard: Cell<'a>,
    pub remote: Cell<'a>,
    pub flexible: Cell<'a>,
    pub error: Cell<'a>,
    pub odd: Cell<'a>,
    pub line: Cell<'a>,
    pub text: Cell<'a>,
}

/// A row with nothing in it.
pub(crate) const NO_ROW: SurveyRow<'static> = SurveyRow {
    kind: b"",
    lines: Cell::Nothing,
    interface: Cell::Nothing,
    pgn: Cell::Nothing,
    frames: Cell::Nothing,
    first: None,
    last: None,
    back: Cell::Nothing,
    announced: Cell::Nothing,
    whole: Cell::Nothing,
    addresses: Cell::Nothing,
    least: Cell::Nothing,
    mean: Cell::Nothing,
    most: Cell::Nothing,
    since: None,
    class: Cell::Nothing,
    name: Cell::Nothing,
    standard: Cell::Nothing,
    remote: Cell::Nothing,
    flexible: Cell::Nothing,
    error: Cell::Nothing,
    odd: Cell::Nothing,
    line: Cell::Nothing,
    text: Cell::Nothing,
};

/// Behind a space.
const SPACE: Place<'static> = Place::IfAny(b" ");

impl<'a> SurveyRow<'a> {
    /// Writes it. After a fault a front of it was written.
    pub fn put<W: Sink>(self, form: Format, sink: &mut W) -> Result<(), DeviceFault>
        ensures { (row : rows.SurveyRow) → row_shown self.entry ≡ row
            → Puts (row_in form row) result (turn W.written W.has_failed sink.old sink.new) }
    {
        put_row(form, row_head(self.kind), &self.columns(), sink)
    }

    /// Its columns.
    fn columns(self) -> [Column<'a>; 26]
        ensures { map column_of result ≡ survey_columns (row_shown self.entry) }
    {
        [
            Column::All(b"lines", SPACE, self.lines),
            Column::All(b"interface", SPACE, self.interface),
            Column::All(b"pgn", SPACE, self.pgn),
            Column::All(b"frames", Place::IfAny(b" frames "), self.frames),
            Column::All(
                b"first_stamp",
                Place::IfAny(b" from "),
                Cell::seconds(self.first),
            ),
            Column::BesideLines(b"first_utc", Cell::utc(self.first)),
            Column::All(
                b"last_stamp",
                Place::IfAny(b" to "),
                Cell::seconds(self.last),
            ),
            Column::BesideLines(b"last_utc", Cell::utc(self.last)),
            Column::All(b"back", Place::IfAny(b" back "), self.back),
            Column::All(b"announced", Place::IfAny(b" announced "), self.announced),
            Column::All(b"whole", Place::IfAny(b" whole "), self.whole),
            Column::All(b"addresses", Place::IfAny(b" addresses "), self.addresses),
            Column::All(b"least", Place::IfAny(b" least "), self.least),
            Column::All(b"mean", Place::IfAny(b" mean "), self.mean),
            Column::All(b"most", Place::IfAny(b" most "), self.most),
            Column::All(
                b"since_stamp",
                Place::IfAny(b" since "),
                Cell::seconds(self.since),
            ),
            Column::BesideLines(b"since_utc", Cell::utc(self.since)),
            Column::All(b"class", SPACE, self.class),
            Column::All(b"group", SPACE, self.name),
            Column::All(b"standard", Place::IfAny(b" standard "), self.standard),
            Column::All(b"remote", Place::IfAny(b" remote "), self.remote),
            Column::All(b"fd", Place::IfAny(b" fd "), self.flexible),
            Column::All(b"error", Place::IfAny(b" error "), self.error),
            Column::All(b"odd", Place::IfAny(b" odd "), self.odd),
            Column::All(b"line", SPACE, self.line),
            Column::All(b"text", SPACE, self.text),
        ]
    }
}

/// What a row of this kind begins with.
fn row_head(kind: &[u8]) -> Head<'_>
    ensures { head_of result ≡ row_head kind.now }
{
    Head {
        name: b"record",
        first: Plain::Word(kind),
        columns: &[],
    }
}

/// A number of lines of this kind.
pub(crate) fn count_row(kind: &'static [u8], lines: u64) -> SurveyRow<'static>
    ensures { row_shown result ≡ count_row kind.now lines }
{
    SurveyRow {
        kind,
        lines: Cell::number(lines),
        ..NO_ROW
    }
}

/// An interface.
pub(crate) fn interface_row(interface: &InterfaceCounts) -> SurveyRow<'_>
    ensures { row_shown result ≡ interface_row (interface_record interface.now) }
{
    SurveyRow {
        kind: b"interface",
        interface: Cell::Text(interface.name.as_slice()),
        frames: Cell::number(interface.frames),
        first: Some(interface.first),
        last: Some(interface.last),
        back: Cell::number(interface.back),
        ..NO_ROW
    }
}

/// The frames of the interfaces that are not told.
pub(crate) fn elsewhere_row(frames: u64) -> SurveyRow<'static>
    ensures { row_shown result ≡ elsewhere_row frames }
{
    SurveyRow {
        kind: b"elsewhere",
        frames: Cell::number(frames),
        ..NO_ROW
    }
}

/// The other lines, by kind.
pub(crate) fn others_row(others: &Others) -> SurveyRow<'static>
    ensures { row_shown result ≡ others_row (others_record others.now) }
{
    SurveyRow {
        kind: b"other",
        standard: Cell::number(others.standard),
        remote: Cell::number(others.remote),
        flexible: Cell::number(others.flexible),
        error: Cell::number(others.error),
        odd: Cell::number(others.odd),
        ..NO_ROW
    }
}

/// How far apart a group came: the least, the mean and the most.
pub(crate) fn spread_cells(spread: &Option<Spread>) -> (Cell<'static>, Cell<'static>, Cell<'static>)
    ensures least { cell_of result.0 ≡ apart (λ s. s.least) (option_map spread_record spread.now) }
    ensures mean { cell_of result.1 ≡ apart (λ s. s.sum / s.count) (option_map spread_record spread.now) }
    ensures most { cell_of result.2 ≡ apart (λ s. s.longest.length) (option_map spread_record spread.now) }
{
    match spread {
        None => (Cell::Aside(b"-"), Cell::Aside(b"-"), Cell::Aside(b"-")),
        Some(spread) => {
            let least = Cell::Is(Plain::Micros(spread.least));
            let mean = Cell::Is(Plain::Micros(spread.mean()));
            (least, mean, Cell::Is(Plain::Micros(spread.longest.length)))
        }
    }
}

/// Since when a group was silent for longest.
pub(crate) fn silent_since(spread: &Option<Spread>) -> Option<Stamp>
    ensures { option_map stamp_micros result ≡ option_map (λ s. s.longest.since) (option_map spread_record spread.now) }
{
    match spread {
        None => None,
        Some(spread) => Some(spread.longest.since),
    }
}

/// The text of an unread line.
pub(crate) fn shown_text(shown: &UnreadLine) -> ShownText
    ensures { result.items ≡ shown_text (shown_record shown.now) }
{
    let mut text = ArrayVec::new();
    push_shown(&mut text, shown.front.as_slice());
    if shown.is_cut {
        push_bytes(&mut text, b"..");
    }
    text
}

/// Appends the text of bytes, of which at most sixty are there.
fn push_shown(text: &mut ShownText, bytes: &[u8])
    requires { array_vec_len text.old + 4 * length bytes.now ≤ 242 }
    ensures items { text.new.items ≡ text.old.items ++ flat_map byte_text bytes.now }
    ensures len { array_vec_len text.new ≤ array_vec_len text.old + 4 * length bytes.now }
{
    for &byte in bytes {
        push_byte(text, byte);
    }
}

/// Appends the text of a byte.
#[tactic(auto, unfolding(crate::specs::SurveyText::byte_text))]
fn push_byte(text: &mut ShownText, byte: u8)
    requires { array_vec_len text.old + 4 ≤ 242 }
    ensures items { text.new.items ≡ text.old.items ++ byte_text byte }
    ensures len { array_vec_len text.new ≤ array_vec_len text.old + 4 }
{
    if byte == b'\\' {
        push_bytes(text, b"\\\\");
    } else if 0x20 <= byte && byte <= 0x7E {
        text.push(byte);
    } else {
        push_bytes(text, b"\\x");
        push_hex(text, &[byte]);
    }
}
