//! The logs that are read: what each FILE holds, or standard input.
ghost use Rattle.std.specs.Prelude.{◌≡◌, ◌+◌, ◌++◌, ◌∷◌, [], IfErr, IfOk, IfSome, length, map, true};
ghost use Rattle.std.specs.List.{All};
ghost use Rattle.j39_cli.specs.FileEnds.{IsEndsOfSome, ends_record};
ghost use Rattle.j39_cli.specs.LogCommand.{inputs_of};
ghost use Rattle.j1939.specs.Opened.{IsUnopened};

use j39_cli::FileEnds;
use j39_io::Told;
use std::fs::{self, File};
use std::io::{self, Read, Seek, SeekFrom, Stdin};

/// What a log is read from.
#[derive(Drop)]
pub(crate) enum Input<'a> {
    /// What comes in.
    Standard(Stdin),
    /// What a file holds.
    File(File),
    /// What this one holds, which is opened when it is read first: so there may be more than can be open at once.
    Later(Later<'a>),
}

/// A file that was looked at, and isn't open.
#[derive(Drop)]
pub(crate) struct Later<'a> {
    rt: &'a HostRuntime,
    file: &'a str,
    /// Where its first line begins.
    start: u64,
}

impl Later<'_> {
    fn open(&self) -> io::Result<File> {
        let mut log = fs::open(self.rt, self.file)?;
        log.seek(SeekFrom::Start(self.start))?;
        Ok(log)
    }
}

impl Read for Input<'_> {
    fn read(&mut self, buf: &mut [u8]) -> io::Result<usize> {
        match self {
            Input::Standard(input) => input.read(buf),
            Input::File(file) => file.read(buf),
            Input::Later(later) => {
                let mut file = later.open()?;
                let n = file.read(buf)?;
                *self = Input::File(file);
                Ok(n)
            }
        }
    }
}

/// The logs that are read one behind the other.
#[derive(Drop)]
pub(crate) struct Logs<'a> {
    /// The first.
    pub(crate) first: Told<Input<'a>>,
    /// Those behind it.
    pub(crate) later: Vec<Told<Input<'a>>>,
    /// What was seen of each FILE.
    pub(crate) seen: Vec<FileEnds<'a>>,
}

/// What a FILE stands for, and what was seen of it.
#[derive(Drop)]
struct Log<'a> {
    input: Told<Input<'a>>,
    ends: FileEnds<'a>,
}

/// The most bytes that are looked at at each end of a FILE.
const END: usize = 512;

/// What other systems put before a text.
const BYTE_ORDER_MARK: &[u8] = b"\xEF\xBB\xBF";

/// Why a log isn't opened.
#[derive(Drop)]
pub(crate) enum Unopened<'a> {
    /// The file of this name can't be opened.
    File(&'a str),
    /// This one is a folder.
    Folder(&'a str),
    /// Memory was refused.
    Memory,
}

/// Opens all of these before any is read, and looks at both ends of each that can be read from any place; where there are none,
/// standard input. Of several those are shut again.
pub(crate) fn opened<'a>(rt: &'a HostRuntime, files: &[&'a str]) -> Result<Logs<'a>, Unopened<'a>>
    ensures ok { IfOk result (λ logs. length logs.later.items + 1 ≡ length (inputs_of (map (λ file. file.now) files.now))) }
    ensures names { IfOk result (λ logs. map (λ ends. ends.file.now) logs.seen.items ≡ map (λ file. file.now) files.now) }
    ensures seen { IfOk result (λ logs. All IsEndsOfSome (map ends_record logs.seen.items)) }
    ensures err { IfErr result (IsUnopened (map (λ file. file.now) files.now)) }
{
    let mut later = Vec::new(rt.alloc());
    let mut seen = Vec::new(rt.alloc());
    let Some((first, behind)) = files.split_first() else {
        let first = Told::new(Input::Standard(rt.stdin()));
        return Ok(Logs { first, later, seen });
    };
    let are_several = !behind.is_empty();
    let first = input_of(rt, first, are_several)?;
    if !keep(&mut seen, first.ends) {
        return Err(Unopened::Memory);
    }
    for file in behind {
        let log = match input_of(rt, file, are_several) {
            Ok(log) => log,
            Err(why) => return Err(why),
        };
        if !keep(&mut later, log.input) {
            return Err(Unopened::Memory);
        }
        if !keep(&mut seen, log.ends) {
            return Err(Unopened::Memory);
        }
    }
    Ok(Logs {
        first: first.input,
        later,
        seen,
    })
}

/// Keeps one more, and answers whether there was memory for it.
fn keep<T: Drop>(kept: &mut Vec<T>, one: T) -> bool
    ensures { result ≡ true → kept.new.items ≡ kept.old.items ++ one ∷ [] }
{
    kept.push(one).is_ok()
}

/// Opens what FILE stands for, and looks at both its ends; one of several is shut again.
fn input_of<'a>(
    rt: &'a HostRuntime,
    file: &'a str,
    is_one_of_several: bool,
) -> Result<Log<'a>, Unopened<'a>>
    ensures file { IfOk result (λ log. log.ends.file.now ≡ file.entry.now) }
    ensures seen { IfOk result (λ log. IsEndsOfSome (ends_record log.ends)) }
    ensures err { IfErr result (IsUnopened (file.entry.now ∷ [])) }
{
    if file == "-" {
        let input = Told::new(Input::Standard(rt.stdin()));
        let ends = FileEnds::new(file, b"", b"");
        return Ok(Log { input, ends });
    }
    match looked_at(rt, file, is_one_of_several) {
        Ok(Some((log, ends))) => Ok(Log {
            input: Told::new(log),
            ends,
        }),
        Ok(None) => Err(Unopened::Folder(file)),
        Err(_) => Err(Unopened::File(file)),
    }
}

/// Opens a file, and looks at both its ends if it can be read from any place; then it is shut, if it is one of several. `None`
/// for a folder.
fn looked_at<'a>(
    rt: &'a HostRuntime,
    file: &'a str,
    is_one_of_several: bool,
) -> io::Result<Option<(Input<'a>, FileEnds<'a>)>>
    ensures file { IfOk result (λ log. IfSome log (λ log. log.1.file.now ≡ file.entry.now)) }
    ensures seen { IfOk result (λ log. IfSome log (λ log. IsEndsOfSome (ends_record log.1))) }
{
    let mut log = fs::open(rt, file)?;
    let kind = log.metadata()?;
    if kind.is_dir() {
        return Ok(None);
    }
    if !kind.is_file() {
        let ends = FileEnds::new(file, b"", b"");
        return Ok(Some((Input::File(log), ends)));
    }
    let (ends, start) = seen_in(rt, &mut log, file)?;
    let input = if is_one_of_several {
        Input::Later(Later { rt, file, start })
    } else {
        Input::File(log)
    };
    Ok(Some((input, ends)))
}

/// What is seen at both ends of a file, and where its first line begins; it stands there then. What opens but can't be read from any
/// place, as files of /proc, is opened once more.
fn seen_in<'a>(
    rt: &'a HostRuntime,
    log: &mut File,
    file: &'a str,
) -> io::Result<(FileEnds<'a>, u64)>
    ensures file { IfOk result (λ seen. seen.0.file.now ≡ file.entry.now) }
    ensures seen { IfOk result (λ seen. IsEndsOfSome (ends_record seen.0)) }
{
    if let Ok(seen) = ends_in(log, file) {
        return Ok(seen);
    }
    *log = fs::open(rt, file)?;
    Ok((FileEnds::new(file, b"", b""), 0))
}

/// What is seen at both ends of a file, and where its first line begins: behind a byte order mark. It stands there then.
fn ends_in<'a>(log: &mut File, file: &'a str) -> io::Result<(FileEnds<'a>, u64)>
    ensures file { IfOk result (λ seen. seen.0.file.now ≡ file.entry.now) }
    ensures seen { IfOk result (λ seen. IsEndsOfSome (ends_record seen.0)) }
{
    let length = log.seek(SeekFrom::End(0))?;
    log.seek(SeekFrom::Start(length.saturating_sub(END as u64)))?;
    let mut back = [0; END];
    let back_length = log.read(&mut back)?;
    log.seek(SeekFrom::Start(0))?;
    let mut front = [0; END];
    let front_length = log.read(&mut front)?;
    let front = &front[..front_length];
    let start = if front.starts_with(BYTE_ORDER_MARK) {
        3
    } else {
        0
    };
    log.seek(SeekFrom::Start(start as u64))?;
    let ends = FileEnds::new(file, &front[start..], &back[..back_length]);
    Ok((ends, start as u64))
}
