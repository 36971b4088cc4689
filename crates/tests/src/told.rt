//! Devices that do as they are told to, and what a `Told` tells of them.
use crate::trial::{Full, Trial};
use j39_io::{Sink, Source, Told, put_all};
use std::alloc::{AllocError, Global};
use std::io::{Read, Write};
use std::test::Fail;

#[test]
fn devices(rt: HostRuntime) {
    let mut piece = [0u8; 2];
    let mut source = Told::new(b"abc".as_slice());
    let pulled = [
        source.pull(&mut piece).ok(),
        source.pull(&mut piece).ok(),
        source.pull(&mut piece).ok(),
    ];
    assert_eq!(rt; pulled, [Some(2), Some(1), Some(0)]);
    let mut room = [0u8; 2];
    let mut sink = Told::new(room.as_mut_slice());
    let put = [
        sink.put(b"").is_ok(),
        put_all(&mut sink, b"abc").is_ok(),
        sink.flush().is_ok(),
    ];
    assert_eq!(rt; put, [true, false, true]);
    assert_eq!(rt; room.as_slice(), b"ab".as_slice());
}

#[test]
fn flush_is_passed_on(rt: HostRuntime) -> Result<(), Fail> {
    let mut writer = Trial::new(rt.alloc(), b"", 3)?;
    let mut sink = Told::new(&mut writer);
    let is_passed_on = sink.put(b"abc").is_ok() && sink.flush().is_ok();
    assert!(rt; is_passed_on && writer.flushes() == 1);
    let mut stuck = Told::new(Trial::new(rt.alloc(), b"", 3)?.failing_flush());
    assert!(rt; stuck.flush().is_err());
    Ok(())
}

#[test]
fn trial_does_as_it_is_told(rt: HostRuntime) -> Result<(), Fail> {
    let mut piece = [0u8; 4];
    let mut source = Trial::new(rt.alloc(), b"abc", 0)?
        .in_pieces(2)
        .failing_read(2);
    let read = [
        source.read(&mut piece).ok(),
        source.read(&mut piece).ok(),
        source.read(&mut piece).ok(),
    ];
    assert_eq!(rt; read, [Some(2), None, Some(1)]);
    assert_eq!(rt; source.reads(), 3);
    let mut sink = Trial::new(rt.alloc(), b"", 2)?.when_full(Full::TakesNone);
    let wrote = [sink.write(b"abc").ok(), sink.write(b"c").ok()];
    assert_eq!(rt; wrote, [Some(2), Some(0)]);
    assert_eq!(rt; sink.written(), b"ab".as_slice());
    Ok(())
}

/// A source in pieces of three bytes, whose nth read fails.
fn source(alloc: Global, nth: u64) -> Result<Trial, AllocError> {
    Ok(
        Trial::new(alloc, b"abcdefghij", 0)?
            .in_pieces(3)
            .failing_read(nth),
    )
}

/// Whether a `Told` tells of a read into so many bytes what its twin answers.
fn pulls_alike(device: &mut Trial, told: &mut Told<&mut Trial>, most: usize) -> bool {
    let mut piece = [0u8; 4];
    let (piece, _) = piece.split_at_mut(most.min(4));
    let want = device.read(piece).ok();
    told.pull(piece).ok() == want
}

#[test]
fn told_fails_where_its_source_does(rt: HostRuntime) -> Result<(), Fail> {
    for nth in 1..=6 {
        let (mut device, mut twin) = (source(rt.alloc(), nth)?, source(rt.alloc(), nth)?);
        let mut told = Told::new(&mut twin);
        for read in 0..9 {
            let most = 4 - read % 3;
            assert!(rt; pulls_alike(&mut device, &mut told, most), "{nth} {read}");
        }
    }
    Ok(())
}

/// Whether a `Told` tells of these bytes what its twin answers; of a write that takes no byte of some, a fault is made.
fn puts_alike(device: &mut Trial, told: &mut Told<&mut Trial>, bytes: &[u8]) -> bool {
    let wrote = device.write(bytes).ok();
    let want = wrote.filter(|n| *n > 0 || bytes.is_empty());
    told.put(bytes).ok() == want && told.flush().is_ok()
}

static WRITES: &[&[u8]] = &[b"abc", b"", b"d", b"efgh", b"", b"i", b""];

#[test]
fn told_fails_where_its_sink_does(rt: HostRuntime) -> Result<(), Fail> {
    for is_fault in [true, false] {
        let full = if is_fault {
            Full::Fails
        } else {
            Full::TakesNone
        };
        let mut device = Trial::new(rt.alloc(), b"", 7)?.when_full(full);
        let mut twin = Trial::new(rt.alloc(), b"", 7)?.when_full(full);
        let mut told = Told::new(&mut twin);
        for (place, bytes) in WRITES.iter().enumerate() {
            assert!(rt; puts_alike(&mut device, &mut told, bytes), "{place}");
        }
        assert_eq!(rt; twin.flushes(), 7);
    }
    Ok(())
}
