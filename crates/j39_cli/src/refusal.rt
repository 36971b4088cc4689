//! What the program says where it has no task, or can't open the log.
ghost use Rattle.std.specs.Prelude.{◌≡◌, ◌↔◌, codes, false, true};
ghost use Rattle.j39_io.specs.Puts.{Puts};
ghost use Rattle.j39_io.specs.Turn.{turn};
ghost use Rattle.j39_cli.specs.Answer.{argument_form, argument_text};
ghost use Rattle.j39_cli.specs.Refusal.{IsHelp, IsWrongLine, error_line, error_words, folder_line, form_line, out_words, wrong_value};
ghost use Rattle.j39_cli.specs.Tells.{Tells};

use crate::{Argument, ParseFault};
use j39_io::{DeviceFault, Sink, put_all};

/// Says why there is no task, and answers the exit status: 0 for help, which goes to `out`, 1 for
/// memory and 2 for a wrong command line, both on `err`. A fault of either writer is passed over.
pub fn refuse<W: Sink, E: Sink>(fault: &ParseFault, out: &mut W, err: &mut E) -> u8
    ensures help { (result ≡ 0) ↔ IsHelp fault.now }
    ensures memory { (result ≡ 1) ↔ (fault.now ≡ ParseFault.Memory) }
    ensures wrong { (result ≡ 2) ↔ IsWrongLine fault.now }

    // Each writer is told its own words, and the other one isn't touched.
    ensures out { Tells (turn W.written W.has_failed out.old out.new) (out_words fault.now) }
    ensures err { Tells (turn E.written E.has_failed err.old err.new) (error_words fault.now) }
    ensures silent_out { ¬ (IsHelp fault.now) → out.new ≡ out.old }
    ensures silent_err { IsHelp fault.now → err.new ≡ err.old }

    // The words are passed on, where the writer has not failed.
    ensures passed_out { IsHelp fault.now → W.has_failed out.new ≡ false → W.is_flushed out.new ≡ true }
    ensures passed_err { ¬ (IsHelp fault.now) → E.has_failed err.new ≡ false → E.is_flushed err.new ≡ true }
{
    match fault {
        ParseFault::Help(text) => {
            show(out, text.as_bytes());
            0
        }
        ParseFault::Usage(text) => {
            show(err, text.as_bytes());
            2
        }
        ParseFault::Memory => {
            complain(err, b"out of memory", b"");
            1
        }
        ParseFault::BadValue(argument) => {
            tell_wrong_value(*argument, err);
            2
        }
    }
}

/// Says that this file can't be opened, and answers the exit status. A fault of the writer is
/// passed over.
pub fn unopened<E: Sink>(file: &str, err: &mut E) -> u8
    ensures status { result ≡ 1 }
    ensures err { Tells (turn E.written E.has_failed err.old err.new)
        (error_line (codes "cannot open ") file.now) }
    ensures passed_on { E.has_failed err.new ≡ false → E.is_flushed err.new ≡ true }
{
    complain(err, b"cannot open ", file.as_bytes());
    1
}

/// Says that this is a folder, and no file, and answers the exit status. A fault of the writer is passed over.
pub fn not_a_file<E: Sink>(folder: &str, err: &mut E) -> u8
    ensures status { result ≡ 1 }
    ensures err { Tells (turn E.written E.has_failed err.old err.new) (folder_line folder.now) }
    ensures passed_on { E.has_failed err.new ≡ false → E.is_flushed err.new ≡ true }
{
    complain(err, folder.as_bytes(), b" is a folder");
    1
}

/// Says that the value of an argument is wrong and what it takes, and passes it on. A fault shows in the mark alone.
fn tell_wrong_value<E: Sink>(argument: Argument, err: &mut E)
    ensures text { Tells (turn E.written E.has_failed err.old err.new) (wrong_value argument) }
    ensures passed_on { E.has_failed err.new ≡ false → E.is_flushed err.new ≡ true }
{
    match put_wrong_value(argument, err) {
        Ok(()) => {
            let _ = err.flush();
        }
        Err(DeviceFault) => {}
    }
}

/// Writes that the value of an argument is wrong, and what it takes.
fn put_wrong_value<E: Sink>(argument: Argument, err: &mut E) -> Result<(), DeviceFault>
    ensures { Puts (wrong_value argument) result (turn E.written E.has_failed err.old err.new) }
{
    put_wrong(argument, err)?;
    put_form(argument, err)
}

/// Writes that the value of an argument is wrong.
fn put_wrong<E: Sink>(argument: Argument, err: &mut E) -> Result<(), DeviceFault>
    ensures { Puts (error_line (codes "bad value for ") (argument_text argument)) result (turn E.written E.has_failed err.old err.new) }
{
    put_line(err, b"bad value for ", argument.text().as_bytes())
}

/// Writes what an argument takes.
fn put_form<E: Sink>(argument: Argument, err: &mut E) -> Result<(), DeviceFault>
    ensures { Puts (form_line (argument_form argument)) result (turn E.written E.has_failed err.old err.new) }
{
    match argument.form() {
        Some(form) => put_line(err, form.as_bytes(), b""),
        None => Ok(()),
    }
}

/// Writes the text, and passes it on. A fault shows in the mark alone.
pub(crate) fn show<S: Sink>(sink: &mut S, text: &[u8])
    ensures text { Tells (turn S.written S.has_failed sink.old sink.new) text.now }
    ensures passed_on { S.has_failed sink.new ≡ false → S.is_flushed sink.new ≡ true }
{
    match put_all(sink, text) {
        Ok(()) => {
            let _ = sink.flush();
        }
        Err(DeviceFault) => {}
    }
}

/// Writes a line of the program's own, and passes it on. A fault shows in the mark alone.
pub(crate) fn complain<E: Sink>(err: &mut E, words: &[u8], name: &[u8])
    ensures text { Tells (turn E.written E.has_failed err.old err.new) (error_line words.now name.now) }
    ensures passed_on { E.has_failed err.new ≡ false → E.is_flushed err.new ≡ true }
{
    match put_line(err, words, name) {
        Ok(()) => {
            let _ = err.flush();
        }
        Err(DeviceFault) => {}
    }
}

/// Writes a line of the program's own.
pub(crate) fn put_line<E: Sink>(err: &mut E, words: &[u8], name: &[u8]) -> Result<(), DeviceFault>
    ensures { Puts (error_line words.now name.now) result (turn E.written E.has_failed err.old err.new) }
{
    put_all(err, b"j1939: ")?;
    put_all(err, words)?;
    put_all(err, name)?;
    put_all(err, b"\n")
}
