//! The lines of a report, one by one.
ghost use Rattle.std.specs.Prelude.{◌≡◌, ◌+◌, ◌≤◌, ◌++◌, ◌∷◌, [], None, IfOk, IfErr, IfSome, codes, decimal, length};
ghost use Rattle.arrayvec.specs.ArrayVec.{array_vec_len};
ghost use Rattle.j39_frame.specs.Stamp.{stamp_micros};
ghost use Rattle.j39_groups.specs.Models.{reading_of};
ghost use Rattle.j39_io.specs.Puts.{Puts};
ghost use Rattle.j39_io.specs.Turn.{turn};
ghost use Rattle.j39_listen.specs.Report.{entry_of, entry_text, head_text, name_text};
ghost use Rattle.j39_c.specs.Calls.{Answers, FillsFront};
ghost use Rattle.j39_c.specs.Codes.{bad_value, end, no_memory, no_room};
ghost use Rattle.j39_c.specs.Messages.{hearing_in, marked};
ghost use Rattle.j39_c.specs.Readings.{IsReportable, IsTextAnswer, reading_in};
ghost use Rattle.j39_c.specs.declared.refusal.Refusal.TheVariants.{NoMemory};

use crate::message::WholeMessage;
use crate::reading::{Text, copy, payload_of};
use crate::refusal::Refusal;
use arrayvec::ArrayVec;
use j39_frame::{Pgn, Stamp};
use j39_groups::{Reading, put_value, reading_at};
use j39_io::printing::{push_bytes, push_hex, push_number};
use j39_io::{DeviceFault, Sink, put_all};
use j39_log::push_stamp;
use std::alloc::Global;

/// What a line has before its value: 62 bytes at most.
type Head = ArrayVec<u8, 64>;

/// Writes out the line of reading number `index` of a message, as a report prints it, with its newline: its length; -1 for a message
/// that is none, or of a moment from 10^16 on, -3 where memory is refused, -5 where it doesn't fit, -6 behind the last reading.
#[unsafe(no_mangle)]
pub extern "C" fn j39_report_line(
    alloc: Global,
    message: &WholeMessage,
    index: usize,
    text: &mut [u8],
) -> i32
    ensures read { IsReportable message.now → IfSome (reading_in message.now index) (λ reading.
        IsTextAnswer (length text.old) (entry_text (entry_of (hearing_in message.now) reading)) result text.new) }
    ensures behind { IsReportable message.now → reading_in message.now index ≡ None → result ≡ end }
    ensures bad { (IsReportable message.now → ⊥) → result ≡ bad_value }
    ensures answers { Answers (length text.old) (bad_value ∷ no_memory ∷ no_room ∷ end ∷ []) result }
    ensures fills { FillsFront result text.old text.new }
{
    let (Some(pgn), Some(payload)) = (Pgn::new(message.pgn), payload_of(message)) else {
        return Refusal::BadValue.code();
    };
    let Some(moment) = Stamp::new(message.micros) else {
        return Refusal::BadValue.code();
    };
    let Some(found) = reading_at(pgn, payload, index) else {
        return Refusal::End.code();
    };
    put_report(alloc, moment, message, &found, text)
}

/// Writes out the line of a reading, and answers its length.
pub(crate) fn put_report(
    alloc: Global,
    moment: Stamp,
    message: &WholeMessage,
    reading: &Reading<'_, '_>,
    text: &mut [u8],
) -> i32
    requires { message.now.micros ≡ stamp_micros moment }
    ensures text { IsTextAnswer (length text.old) (entry_text (entry_of (hearing_in message.now) (reading_of reading.now))) result
        text.new }
    ensures answers { Answers (length text.old) (no_memory ∷ no_room ∷ []) result }
    ensures fills { FillsFront result text.old text.new }
{
    match line_of(alloc, moment, message, reading) {
        Ok(made) => copy(made.as_slice(), text),
        Err(refusal) => refusal.code(),
    }
}

/// The line of a reading.
fn line_of(
    alloc: Global,
    moment: Stamp,
    message: &WholeMessage,
    reading: &Reading<'_, '_>,
) -> Result<Vec<u8>, Refusal>
    requires { message.now.micros ≡ stamp_micros moment }
    ensures text { IfOk result (λ text. text.items ≡ entry_text (entry_of (hearing_in message.now) (reading_of reading.now))) }
    ensures refused { IfErr result (λ refusal. refusal ≡ NoMemory) }
{
    let mut text = Text::new(alloc);
    match put_line(moment, message, reading, &mut text) {
        Ok(()) => Ok(text.bytes),
        Err(_) => Err(Refusal::NoMemory),
    }
}

/// Writes the line of a reading.
fn put_line<W: Sink>(
    moment: Stamp,
    message: &WholeMessage,
    reading: &Reading<'_, '_>,
    sink: &mut W,
) -> Result<(), DeviceFault>
    requires { message.now.micros ≡ stamp_micros moment }
    ensures { Puts (entry_text (entry_of (hearing_in message.now) (reading_of reading.now))) result
        (turn W.written W.has_failed sink.old sink.new) }
{
    let head = head_of(moment, message, reading.spn);
    put_all(sink, head.as_slice())?;
    put_value(&reading.value, sink)?;
    put_all(sink, b"\n")
}

/// What stands before the value of a parameter.
fn head_of(moment: Stamp, message: &WholeMessage, spn: u32) -> Head
    ensures { result.items ≡ head_text (stamp_micros moment) message.now.source (marked message.now.is_named message.now.name)
        message.now.pgn ++ decimal spn ++ codes " " }
{
    let mut head = Head::new();
    push_stamp(&mut head, moment);
    head.push(b' ');
    push_hex(&mut head, &[message.source]);
    head.push(b' ');
    push_name(&mut head, message);
    head.push(b' ');
    push_column(&mut head, message.pgn);
    push_column(&mut head, spn);
    head
}

/// Appends a number in decimal, and a space.
fn push_column(head: &mut Head, number: u32)
    requires { array_vec_len head.old + 11 ≤ 64 }
    ensures items { head.new.items ≡ head.old.items ++ decimal number ++ codes " " }
    ensures len { array_vec_len head.new ≤ array_vec_len head.old + 11 }
{
    push_number(head, u64::from(number));
    head.push(b' ');
}

/// Appends the NAME of a message's sender in hex, or dashes.
fn push_name(head: &mut Head, message: &WholeMessage)
    requires { array_vec_len head.old + 16 ≤ 64 }
    ensures items { head.new.items ≡ head.old.items ++ name_text (marked message.now.is_named message.now.name) }
    ensures len { array_vec_len head.new ≡ array_vec_len head.old + 16 }
{
    if message.is_named == 0 {
        push_bytes(head, b"----------------");
    } else {
        push_hex(head, &message.name.to_be_bytes());
    }
}
