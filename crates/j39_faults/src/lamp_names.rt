//! The text of the lamps (own).
ghost use Rattle.std.specs.Prelude.{◌≡◌, ◌+◌, ◌≤◌, [], length};
ghost use Rattle.arrayvec.specs.ArrayVec.{array_vec_len};
ghost use Rattle.j39_faults.specs.LampText.{behind, with_words};
ghost use Rattle.j39_faults.specs.Text.{ending_of, is_absent, is_told, lamp_words, lamps_in_words, lamps_text, lamps_told, no_lamp, star_of};

use crate::lamps::{Flash, Lamp, LampState, Lamps};
use arrayvec::ArrayVec;
use j39_io::printing::push_bytes;

/// The names of four lamps fit, with what is told of each, and commas between.
pub type LampsText = ArrayVec<u8, 72>;

/// What is told of the lamps, as `lamps_told` has it; `-` where all are off.
pub fn lamps_text(lamps: Lamps) -> LampsText
    ensures text { result.items ≡ lamps_text lamps }
    ensures len { array_vec_len result ≤ 70 }
{
    let mut text = lamps_told(lamps);
    if text.is_empty() {
        text.push(b'-');
    }
    text
}

/// The lamps that aren't off, with commas between: `malfunction`, `red`, `amber`, `protect`, each with a `*` where it
/// flashes, with `:reserved` or `:n/a` where it is neither on nor off; `n/a` where none is available, and nothing where
/// all are off.
#[tactic(auto, unfolding(crate::specs::Text::lamps_told))]
pub fn lamps_told(lamps: Lamps) -> LampsText
    ensures text { result.items ≡ lamps_told lamps }
    ensures len { array_vec_len result ≤ 70 }
{
    if no_lamp(lamps) {
        let mut text = ArrayVec::new();
        push_bytes(&mut text, b"n/a");
        text
    } else {
        lamps_in_words(lamps)
    }
}

/// The lamps that aren't off.
fn lamps_in_words(lamps: Lamps) -> LampsText
    ensures text { result.items ≡ lamps_in_words lamps }
    ensures len { array_vec_len result ≤ 70 }
{
    let mut text = ArrayVec::new();
    push_lamp(&mut text, b"malfunction", lamps.malfunction);
    push_lamp(&mut text, b"red", lamps.red);
    push_lamp(&mut text, b"amber", lamps.amber);
    push_lamp(&mut text, b"protect", lamps.protect);
    text
}

/// Appends a lamp's name, and what is told of it, where it isn't off.
fn push_lamp(text: &mut LampsText, name: &[u8], lamp: Lamp)
    requires { array_vec_len text.old + length name.now + 10 ≤ 72 }
    ensures items { text.new.items ≡ with_words text.old.items (lamp_words name.now lamp) }
    ensures len { array_vec_len text.new ≤ array_vec_len text.old + length name.now + 10 }
{
    if is_told(lamp.state) {
        push_comma(text);
        push_bytes(text, name);
        push_bytes(text, ending_of(lamp));
    }
}

/// Appends a comma where something stands before it.
fn push_comma(text: &mut LampsText)
    requires { array_vec_len text.old + 1 ≤ 72 }
    ensures items { text.new.items ≡ behind text.old.items [] }
    ensures len { array_vec_len text.new ≤ array_vec_len text.old + 1 }
{
    if !text.is_empty() {
        text.push(b',');
    }
}

/// What stands behind a lamp's name.
fn ending_of(lamp: Lamp) -> &'static [u8]
    ensures text { result.now ≡ ending_of lamp.state lamp.flash }
    ensures len { length result.now ≤ 9 }
{
    match lamp.state {
        LampState::Off => b"",
        LampState::On => star_of(lamp.flash),
        LampState::Reserved => b":reserved",
        LampState::NotAvailable => b":n/a",
    }
}

/// A star where a lamp flashes.
fn star_of(flash: Flash) -> &'static [u8]
    ensures text { result.now ≡ star_of flash }
    ensures len { length result.now ≤ 1 }
{
    match flash {
        Flash::Slow => b"*",
        Flash::Fast => b"*",
        Flash::Reserved => b"",
        Flash::Steady => b"",
    }
}

/// Whether no lamp is available.
fn no_lamp(lamps: Lamps) -> bool
    ensures { result ≡ no_lamp lamps }
{
    is_absent(lamps.malfunction.state)
        && is_absent(lamps.red.state)
        && is_absent(lamps.amber.state)
        && is_absent(lamps.protect.state)
}

fn is_absent(state: LampState) -> bool
    ensures { result ≡ is_absent state }
{
    match state {
        LampState::NotAvailable => true,
        LampState::Off | LampState::On | LampState::Reserved => false,
    }
}

fn is_told(state: LampState) -> bool
    ensures { result ≡ is_told state }
{
    match state {
        LampState::Off => false,
        LampState::On | LampState::Reserved | LampState::NotAvailable => true,
    }
}
