//! What is told of FILEs before they are read: which is no log, and which begins before the end of those before it.
ghost use Rattle.std.specs.Prelude.{◌≡◌, ◌++◌, None, Some, codes, false, if◌then◌else◌, map, option_map, true};
ghost use Rattle.std.specs.List.{flat_map};
ghost use Rattle.j39_io.specs.Puts.{Puts};
ghost use Rattle.j39_io.specs.Turn.{turn};
ghost use Rattle.j39_cli.specs.FileEnds.{ends_record, files_text, last_record};
ghost use Rattle.j39_cli.specs.Order.{is_before, latest, name_of, order_after, order_line};
ghost use Rattle.j39_cli.specs.OtherLog.{other_line};
ghost use Rattle.j39_cli.specs.Tells.{Tells};

use crate::FileEnds;
use crate::refusal::put_line;
use j39_frame::Stamp;
use j39_io::{DeviceFault, Sink, put_all};

/// Says of each FILE that is no log what it is, and of the first that begins before the last frame of those before it, that it
/// does. A fault of the writer is passed over.
pub fn tell_files<E: Sink>(files: &[FileEnds<'_>], err: &mut E)
    ensures told { Tells (turn E.written E.has_failed err.old err.new) (files_text (map ends_record files.now)) }
    ensures passed_on { E.has_failed err.new ≡ false → E.is_flushed err.new ≡ true }
{
    match put_files(files, err) {
        Ok(()) => {
            let _ = err.flush();
        }
        Err(DeviceFault) => {}
    }
}

fn put_files<E: Sink>(files: &[FileEnds<'_>], err: &mut E) -> Result<(), DeviceFault>
    ensures { Puts (files_text (map ends_record files.now)) result (turn E.written E.has_failed err.old err.new) }
{
    put_others(files, err)?;
    put_order(files, err)
}

/// Writes a line for each that is no log.
fn put_others<E: Sink>(files: &[FileEnds<'_>], err: &mut E) -> Result<(), DeviceFault>
    ensures { Puts (flat_map (λ ends. other_line ends.file.now ends.other) files.now) result
        (turn E.written E.has_failed err.old err.new) }
{
    for file in files {
        put_other(file, err)?;
    }
    Ok(())
}

/// Writes what a FILE is, where it is no log.
fn put_other<E: Sink>(file: &FileEnds<'_>, err: &mut E) -> Result<(), DeviceFault>
    ensures { Puts (other_line file.now.file.now file.now.other) result (turn E.written E.has_failed err.old err.new) }
{
    match file.other {
        None => Ok(()),
        Some(other) => put_line(err, file.file.as_bytes(), other.words().as_bytes()),
    }
}

/// Writes which is the first that begins before the last frame of those before it.
fn put_order<E: Sink>(files: &[FileEnds<'_>], err: &mut E) -> Result<(), DeviceFault>
    ensures { Puts (order_after None (map (λ ends. (ends.file, ends.span)) (map ends_record files.now))) result
        (turn E.written E.has_failed err.old err.new) }
{
    let mut last = None;
    for file in files {
        if let Some(before) = overtaken(last, file) {
            return put_before(before.as_bytes(), file.file.as_bytes(), err);
        }
        last = latest(last, file);
    }
    Ok(())
}

/// The FILE before whose end the next one begins.
fn overtaken<'a>(last: Option<(&'a str, Stamp)>, next: &FileEnds<'_>) -> Option<&'a str>
    ensures { option_map (λ file. file.now) result
        ≡ (if is_before (ends_record next.now).span.begins (last_record last.entry) then Some (name_of (last_record last.entry)) else None) }
{
    let (file, end) = last?;
    let begin = next.span.begins?;
    if begin.micros() < end.micros() {
        Some(file)
    } else {
        None
    }
}

/// The last FILE that has a frame, and its stamp, behind one more.
fn latest<'a>(last: Option<(&'a str, Stamp)>, next: &FileEnds<'a>) -> Option<(&'a str, Stamp)>
    ensures { last_record result ≡ latest next.now.file.now (ends_record next.now).span.ends (last_record last.entry) }
{
    match next.span.ends {
        Some(end) => Some((next.file, end)),
        None => last,
    }
}

fn put_before<E: Sink>(first: &[u8], second: &[u8], err: &mut E) -> Result<(), DeviceFault>
    ensures { Puts (order_line first.now second.now) result (turn E.written E.has_failed err.old err.new) }
{
    put_sentence(second, b" begins before ", first, b" ends\n", err)
}

/// Writes a line of the program's own, by its parts.
fn put_sentence<E: Sink>(
    subject: &[u8],
    verb: &[u8],
    object: &[u8],
    end: &[u8],
    err: &mut E,
) -> Result<(), DeviceFault>
    ensures { Puts (codes "j1939: " ++ (subject.now ++ (verb.now ++ (object.now ++ end.now)))) result
        (turn E.written E.has_failed err.old err.new) }
{
    put_all(err, b"j1939: ")?;
    put_all(err, subject)?;
    put_all(err, verb)?;
    put_all(err, object)?;
    put_all(err, end)
}
