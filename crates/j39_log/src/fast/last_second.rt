//! What most lines share with one before: the second of the stamp, and the identifier.
ghost use Rattle.std.specs.Prelude.{◌≡◌, ◌++◌, codes, replicate};

use crate::Bus;
use crate::fast::form::Form;
use crate::fast::frame_line::FrameLine;
use crate::fast::identifiers::Identifiers;
use crate::fast::plain::second_of;
use crate::fast::reader::with_six;
use j39_io::backwards::slice_before;
use std::marker::Model;

/// The second of the stamp that was read last, and the identifiers that were read.
#[derive(Debug, Drop)]
pub struct LastSecond {
    pub(crate) second: Second,
    pub(crate) identifiers: Identifiers,
}

impl LastSecond {
    ghost use Rattle.std.specs.Prelude.{IfSome};
    ghost use Rattle.j39_log.specs.FrameLine.{BeginsLine};

    /// The second 0, and no identifiers.
    pub fn new() -> LastSecond
        ensures second { result.second ≡ 0 }
    {
        LastSecond {
            second: Second::new(),
            identifiers: Identifiers::new(),
        }
    }

    /// The line of a frame of this bus that a piece begins with, and what follows its newline, where the line has the form that
    /// `Splitter::line_on` reads, with six decimals and nothing behind the data, and its second and its identifier are remembered.
    /// `None` says nothing of the piece.
    #[inline(always)]
    pub fn line_on<'a>(&self, piece: &'a [u8], bus: &Bus) -> Option<(FrameLine<'a>, &'a [u8])>
        ensures { IfSome result (λ found. BeginsLine piece.now bus.now found.0 found.1.now) }
    {
        if bus.third_at > piece.len() {
            return None;
        }
        let (_, third) = piece.split_at(bus.third_at);
        // Another end is left out, so a loop over such lines has no call, and loads once what it compares with.
        match third.get(25) {
            Some(b'\n') => with_six(piece, self, bus),
            _ => None,
        }
    }

    /// Turns to the second of a line of this bus, and remembers its identifier, with six decimals before it or nine; whether either
    /// is new. What is remembered changes no answer.
    #[inline(never)]
    pub(crate) fn turn_to(&mut self, line: &[u8], bus: &Bus) -> bool {
        let turned = !self.second.begins(line) && self.second.turn_to(line);
        if bus.third_at > line.len() {
            return turned;
        }
        let (_, third) = line.split_at(bus.third_at);
        let learned = match third.split_first_chunk::<3>() {
            Some((_, behind)) => self.learn(third) || self.learn(behind),
            None => false,
        };
        turned || learned
    }

    /// Remembers the identifier that a text begins with, before `#`; whether it is new.
    fn learn(&mut self, text: &[u8]) -> bool {
        match text.split_first_chunk::<8>() {
            Some((digits, [b'#', ..])) => self.identifiers.learn(digits),
            _ => false,
        }
    }
}

/// A second, by the form of the first sixteen bytes of each stamp within it: most lines come within the second of the line
/// before, and of theirs the decimals alone are read.
#[derive(Debug, Drop)]
pub(crate) struct Second {
    pub form: Form,
    pub micros: u64,
}

// A clause sees the microseconds before the second.
impl Model for Second {
    ghost use Rattle.std.specs.Prelude.{ℕ, ◌<◌, ◌^◌};
    ghost use Rattle.j39_log.specs.LastSecond.{HasSecond};

    ghost Value = { ℕ };

    ghost view = { λ s. s.micros };

    ghost invariant = { λ s. HasSecond s.form s.micros × (s.micros < 2 ^ 60) };
}

impl Second {
    /// The second 0.
    fn new() -> Second
        ensures { result ≡ 0 }
    {
        let form = form_of(b"(0000000000.");
        Second { form, micros: 0 }
    }

    /// Whether a text begins with this second.
    #[inline(always)]
    pub(crate) fn begins(&self, text: &[u8]) -> bool {
        match (words_of(text), words_of(&self.form.least)) {
            (Some(words), Some(own)) => words.0 == own.0 && words.1 == own.1,
            _ => false,
        }
    }

    /// Turns to the second of a stamp, where a text begins with one; whether it turned. It hands no second out, so its caller
    /// needs no room for one.
    #[inline(never)]
    pub(crate) fn turn_to(&mut self, text: &[u8]) -> bool {
        match Second::of(text) {
            Some(second) => {
                *self = second;
                true
            }
            None => false,
        }
    }

    /// The second of a stamp that a text begins with.
    fn of(text: &[u8]) -> Option<Second> {
        let (front, _) = text.split_first_chunk::<18>()?;
        let micros = second_of(front)?;
        let (text, _) = front.as_slice().split_first_chunk::<12>()?;
        let form = form_of(text);
        Some(Second { form, micros })
    }
}

/// The first twelve bytes as two numbers, which are compared at once.
#[inline(always)]
fn words_of(text: &[u8]) -> Option<(u64, u32)> {
    let (head, rest) = text.split_first_chunk::<8>()?;
    let (tail, _) = rest.split_first_chunk::<4>()?;
    Some((u64::from_le_bytes(*head), u32::from_le_bytes(*tail)))
}

/// How far each byte may lie above that of the form: the decimals alone.
const ABOVE: [u8; 16] = [0, 0, 0, 0, 0, 0, 0, 0, 0, 0, 0, 0, 9, 9, 9, 9];

/// These bytes, and four digits.
fn form_of(text: &[u8; 12]) -> Form
    ensures least { result.least ≡ text.now ++ codes "0000" }
    ensures above { result.above ≡ replicate 12 0 ++ replicate 4 9 }
{
    let mut least = [b'0'; 16];
    let _ = slice_before(&mut least, 12, text);
    Form {
        least,
        above: ABOVE,
    }
}
