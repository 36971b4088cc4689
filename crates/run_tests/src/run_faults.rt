//! Devices that fail, and logs that are too long.
use j39_address::Name;
use j39_cli::{parse, perform};
use j39_io::Told;
use j39_listen::{RunFault, answer, run};
use std::alloc::Global;
use std::test::Fail;
use tests::trial::{Full, Trial};

const LOG: &[u8] = b"(0000000001.000000) can0 18EEFF00#3412400100000080\n\
    (0000000001.010000) can0 0CF00400#F0A096E02EFFFFFF\n\
    (0000000001.020000) can0 0CF00400#F0FFFFE82EFFFFFF\n";

const TEXT: &[u8] = b"(0000000001.010000) 00 8000000001401234 61444 512 35 %\n\
    (0000000001.010000) 00 8000000001401234 61444 513 25 %\n\
    (0000000001.010000) 00 8000000001401234 61444 190 1500.000 rpm\n\
    (0000000001.020000) 00 8000000001401234 61444 190 1501.000 rpm\n";

/// The first two lines of `LOG`, a claim and a frame, and what `TEXT` has of them.
const TWO_LINES: usize = 102;

const TEXT_OF_TWO: usize = TEXT.len() - 63;

const VIN_LOG: &[u8] = b"(0000000001.000000) can0 18EEFF00#3412400100000080\n\
    (0000000002.000000) can0 1CECFF00#20120003FFECFE00\n\
    (0000000002.010000) can0 0CF00400#F0FFFFE02EFFFFFF\n\
    (0000000002.050000) can0 1CEBFF00#013146554A413643\n\
    (0000000002.060000) can0 0CF00400#F0FFFFE82EFFFFFF\n\
    (0000000002.100000) can0 1CEBFF00#025631324C4B3132\n\
    (0000000002.150000) can0 1CEBFF00#033334352AFFFFFF\n";

const VIN_TEXT: &[u8] = b"(0000000002.010000) 00 8000000001401234 61444 190 1500.000 rpm\n\
    (0000000002.060000) 00 8000000001401234 61444 190 1501.000 rpm\n\
    (0000000002.150000) 00 8000000001401234 65260 237 \"1FUJA6CV12LK12345\"\n";

/// A transfer that is overheard.
const TRANSFER_LOG: &[u8] = b"(0000000001.000000) can0 18EEFF00#3412400100000080\n\
    (0000000002.000000) can0 1CEC0B00#10120003FFECFE00\n\
    (0000000002.010000) can0 1CEC000B#110301FFFFECFE00\n\
    (0000000002.020000) can0 1CEB0B00#013146554A413643\n\
    (0000000002.030000) can0 1CEB0B00#025631324C4B3132\n\
    (0000000002.040000) can0 1CEB0B00#033334352AFFFFFF\n\
    (0000000002.050000) can0 1CEC000B#13120003FFECFE00\n";

const TRANSFER_TEXT: &[u8] =
    b"(0000000002.040000) 00 8000000001401234 65260 237 \"1FUJA6CV12LK12345\"\n";

/// Logs with their reports.
fn logs() -> [(&'static [u8], &'static [u8]); 4] {
    [
        (&LOG[..TWO_LINES], &TEXT[..TEXT_OF_TWO]),
        (LOG, TEXT),
        (VIN_LOG, VIN_TEXT),
        (TRANSFER_LOG, TRANSFER_TEXT),
    ]
}

/// A source of a log in pieces.
fn source_of(alloc: Global, log: &[u8], most: usize) -> Result<Trial, Fail> {
    Ok(Trial::new(alloc, log, 0)?.in_pieces(most))
}

/// A source of `LOG` in pieces.
fn log_in(alloc: Global, most: usize) -> Result<Trial, Fail> {
    source_of(alloc, LOG, most)
}

/// A sink with room for so many bytes.
fn room_for(alloc: Global, room: usize) -> Result<Trial, Fail> {
    Ok(Trial::new(alloc, b"", room)?)
}

/// What a run answers over these devices, but for its counts.
fn run_over(
    alloc: Global,
    source: &mut Trial,
    sink: &mut Trial,
    limit: u64,
) -> Result<(), RunFault> {
    run(
        alloc,
        &mut Told::new(source),
        &mut Told::new(sink),
        None,
        limit,
    )?;
    Ok(())
}

/// The status of `report` over these devices.
fn report_over(
    alloc: Global,
    source: &mut Trial,
    sink: &mut Trial,
    err: &mut Trial,
) -> Result<u8, Fail> {
    let task = parse(alloc, &["j1939", "report"])?;
    Ok(perform(
        alloc,
        &task,
        &mut Told::new(source),
        &mut Told::new(sink),
        &mut Told::new(err),
    ))
}

/// Whether a run of so many bytes at most reads a log in pieces of one byte to its end, and its report is the text.
fn is_whole(alloc: Global, log: &[u8], text: &[u8], limit: u64) -> Result<bool, Fail> {
    let (mut source, mut sink) = (source_of(alloc, log, 1)?, room_for(alloc, text.len())?);
    let met = run_over(alloc, &mut source, &mut sink, limit);
    let is_read = source.reads() <= limit.saturating_add(2);
    Ok(met == Ok(()) && is_read && sink.written() == text)
}

/// What a run of so many bytes at most wrote, where it ends since the log is longer.
fn cut_off(alloc: Global, log: &[u8], most: usize, limit: u64) -> Result<Option<Trial>, Fail> {
    let (mut source, mut sink) = (source_of(alloc, log, most)?, room_for(alloc, 1000)?);
    let met = run_over(alloc, &mut source, &mut sink, limit);
    Ok(if met == Err(RunFault::TooLong) {
        Some(sink)
    } else {
        None
    })
}

#[test]
fn log_at_the_limit(rt: HostRuntime) -> Result<(), Fail> {
    let alloc = rt.alloc();
    for (log, text) in logs() {
        let limit = log.len() as u64;
        assert!(rt; is_whole(alloc, log, text, limit)?, "{limit}");
        let sink = cut_off(alloc, log, 1, limit.saturating_sub(1))?.ok_or("whole")?;
        assert!(rt; text.starts_with(sink.written()), "{limit}");
    }
    // A piece that passes the limit isn't handled.
    let limit = LOG.len() as u64;
    let sink = cut_off(alloc, LOG, 51, limit.saturating_sub(1))?.ok_or("whole")?;
    assert_eq!(rt; sink.written(), &TEXT[..TEXT_OF_TWO]);
    Ok(())
}

/// Whether a run whose nth read fails ends there, and has written a front of the text.
fn ends_at_read(alloc: Global, log: &[u8], text: &[u8], nth: u64) -> Result<bool, Fail> {
    let mut source = source_of(alloc, log, 7)?.failing_read(nth);
    let mut sink = room_for(alloc, text.len())?;
    let met = run_over(alloc, &mut source, &mut sink, 1000);
    let is_front = text.starts_with(sink.written());
    Ok(met == Err(RunFault::Read) && source.reads() == nth && is_front)
}

#[test]
fn nth_read_fails(rt: HostRuntime) -> Result<(), Fail> {
    for (log, text) in logs() {
        // The last read is the one that meets the end.
        let reads = (log.len().div_ceil(7) as u64).saturating_add(1);
        for nth in 1..=reads {
            assert!(rt; ends_at_read(rt.alloc(), log, text, nth)?, "read {nth}");
        }
    }
    Ok(())
}

/// Whether a run whose nth read fails has written so many bytes, and passed on what each read before it gave.
fn has_passed_on(alloc: Global, nth: u64, written: usize) -> Result<bool, Fail> {
    let mut source = log_in(alloc, 51)?.failing_read(nth);
    let mut sink = room_for(alloc, TEXT.len())?;
    let met = run_over(alloc, &mut source, &mut sink, 1000);
    let is_written = sink.written() == &TEXT[..written.min(TEXT.len())];
    Ok(met == Err(RunFault::Read) && is_written && sink.flushes() == nth.saturating_sub(1))
}

/// Each read gives one line; what its frame holds is written and passed on before the next.
#[test]
fn values_before_the_next_read(rt: HostRuntime) -> Result<(), Fail> {
    for (nth, written) in [(2, 0), (3, TEXT_OF_TWO), (4, TEXT.len())] {
        assert!(rt; has_passed_on(rt.alloc(), nth, written)?, "read {nth}");
    }
    Ok(())
}

/// Whether a run over the log ends at a fault of the sink, which got these bytes and was flushed so often.
fn ends_at_write(
    alloc: Global,
    log: &[u8],
    sink: Trial,
    written: &[u8],
    flushes: u64,
) -> Result<bool, Fail> {
    let mut source = source_of(alloc, log, 4096)?;
    let mut sink = sink;
    let met = run_over(alloc, &mut source, &mut sink, 1000);
    let is_written = sink.written() == written && sink.flushes() == flushes;
    Ok(met == Err(RunFault::Write) && is_written && source.reads() == 1)
}

#[test]
fn writer_that_fails(rt: HostRuntime) -> Result<(), Fail> {
    let alloc = rt.alloc();
    for (log, text) in logs() {
        for room in 0..text.len() {
            let sink = room_for(alloc, room)?;
            let is_met = ends_at_write(alloc, log, sink, &text[..room], 0)?;
            assert!(rt; is_met, "room for {room}");
        }
    }
    let full = room_for(alloc, 60)?.when_full(Full::TakesNone);
    assert!(rt; ends_at_write(alloc, LOG, full, &TEXT[..60], 0)?);
    let stuck = room_for(alloc, 1000)?.failing_flush();
    assert!(rt; ends_at_write(alloc, LOG, stuck, TEXT, 1)?);
    Ok(())
}

/// No node starts at 254.
#[test]
fn answer_of_the_null_address(rt: HostRuntime) -> Result<(), Fail> {
    let (mut source, mut sink) = (log_in(rt.alloc(), 7)?, room_for(rt.alloc(), 300)?);
    let met = answer(
        rt.alloc(),
        &mut Told::new(&mut source),
        &mut Told::new(&mut sink),
        None,
        Name::new(0x8000000001401234),
        254,
        1000,
    )?;
    assert!(rt; met.is_none());
    assert_eq!(rt; source.reads(), 0);
    assert!(rt; sink.written().is_empty());
    Ok(())
}

/// Whether `report` over these devices ends with this status, and what it wrote and said is this.
fn report_ends(
    alloc: Global,
    devices: (Trial, Trial, Trial),
    status: u8,
    written: &[u8],
    said: &[u8],
) -> Result<bool, Fail> {
    let (mut source, mut sink, mut err) = devices;
    let met = report_over(alloc, &mut source, &mut sink, &mut err)?;
    Ok(met == status && sink.written() == written && err.written() == said)
}

#[test]
fn faults_of_writer_and_reader(rt: HostRuntime) -> Result<(), Fail> {
    let alloc = rt.alloc();
    let (log, err) = (log_in(alloc, 4096)?, room_for(alloc, 80)?);
    let full = (log, room_for(alloc, 60)?, err);
    assert!(rt; report_ends(alloc, full, 1, &TEXT[..60], b"j1939: write failed\n")?);

    let (log, err) = (log_in(alloc, 51)?.failing_read(2), room_for(alloc, 80)?);
    let unread = (log, room_for(alloc, 300)?, err);
    assert!(rt; report_ends(alloc, unread, 1, b"", b"j1939: read failed\n")?);

    let (log, err) = (log_in(alloc, 4096)?, room_for(alloc, 80)?);
    let stuck = (log, room_for(alloc, 300)?.failing_flush(), err);
    assert!(rt; report_ends(alloc, stuck, 1, TEXT, b"j1939: write failed\n")?);

    // Where the counts can't be told, the report is whole all the same.
    for (log, text) in &[(&LOG[..TWO_LINES], &TEXT[..TEXT_OF_TWO]), (LOG, TEXT)] {
        let (log, err) = (source_of(alloc, log, 4096)?, room_for(alloc, 0)?);
        let untold = (log, room_for(alloc, 300)?, err);
        assert!(rt; report_ends(alloc, untold, 0, text, b"")?);
    }
    Ok(())
}
