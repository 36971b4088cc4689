//! An assembler: an announcement alone may be refused memory, and then nothing changes.
use crate::fed::Kind::{self, Ignored, Taken, Whole};
use crate::fed::fed;
use j39_frame::{Frame, Id, Stamp};
use j39_transport::Assembler;
use std::alloc::{AllocError, Global};

// From 00 to all.
pub(crate) const BAM: u32 = 0x1CECFF00;

pub(crate) const DATA: u32 = 0x1CEBFF00;

/// Of 18 bytes of the group 65260, in three packets.
pub(crate) const ANNOUNCEMENT: [u8; 8] = [0x20, 0x12, 0, 3, 0xFF, 0xEC, 0xFE, 0];

pub(crate) const P1: [u8; 8] = *b"\x011FUJA6C";

pub(crate) const P2: [u8; 8] = *b"\x02V12LK12";

pub(crate) const P3: [u8; 8] = *b"\x03345*\xFF\xFF\xFF";

pub(crate) const VIN: &[u8] = b"1FUJA6CV12LK12345*";

/// Of 1,785 bytes, in 255 packets.
const LONGEST: [u8; 8] = [0x20, 0xF9, 6, 0xFF, 0xFF, 0xEC, 0xFE, 0];

/// A frame's moment, identifier and data, what it is, and how many messages are open behind it, with how many bytes.
type Row = (u64, u32, [u8; 8], Kind, (usize, usize));

static ROWS: &[Row] = &[
    (2_000_000, BAM, ANNOUNCEMENT, Taken, (1, 0)),
    (2_050_000, DATA, P1, Taken, (1, 7)),
    (2_060_000, DATA, P1, Ignored, (1, 7)),
    (2_100_000, DATA, P2, Taken, (1, 14)),
    (2_150_000, DATA, P3, Whole, (0, 0)),
    (3_000_000, BAM, ANNOUNCEMENT, Taken, (1, 0)),
    (3_050_000, DATA, P1, Taken, (1, 7)),
];

/// Behind `ROWS`, once its source is forgotten.
const FORGOTTEN: Row = (3_100_000, DATA, P2, Ignored, (0, 0));

fn open_in(assembler: &Assembler) -> (usize, usize) {
    (assembler.open(), assembler.held())
}

/// Whether memory was refused at the frame, which is then fed again; none where it isn't what the row says.
fn is_refused(assembler: &mut Assembler, row: &Row, payload: &[u8]) -> Option<bool> {
    let (micros, id, bytes, kind, open) = row;
    let frame = Frame::new(Stamp::new(*micros)?, Id::new(*id)?, bytes)?;
    let before = open_in(assembler);
    let met = fed(assembler, &frame, payload);
    let is_refused = met.is_err();
    let is_kept = *id == BAM && open_in(assembler) == before;
    let met = match met {
        Ok(met) => met,
        Err(AllocError) if is_kept => fed(assembler, &frame, payload).ok()?,
        Err(AllocError) => return None,
    };
    (met == *kind && open_in(assembler) == *open).then_some(is_refused)
}

/// Whether memory was refused to an assembler of the rows.
fn vin(alloc: Global) -> Option<bool> {
    let mut assembler = Assembler::new(alloc);
    let mut is_any_refused = false;
    for row in ROWS {
        is_any_refused = is_refused(&mut assembler, row, VIN)? || is_any_refused;
    }
    assembler.forget(0);
    if assembler.open() != 0 || is_refused(&mut assembler, &FORGOTTEN, VIN)? {
        return None;
    }
    Some(is_any_refused)
}

#[test]
fn assembler_without_memory(rt: HostRuntime) {
    assert!(rt; vin(rt.alloc()).is_some());
}

#[test]
fn assembler_with_memory(rt: HostRuntime) {
    assert_eq!(rt; vin(rt.alloc()), Some(false));
}

/// A packet of the longest message: its number, and seven of its letters.
fn packet(number: u8) -> Row {
    let bytes = [number, b'A', b'A', b'A', b'A', b'A', b'A', b'A'];
    let micros = 2_000_000 + u64::from(number) * 50_000;
    if number == 255 {
        (micros, DATA, bytes, Whole, (0, 0))
    } else {
        (micros, DATA, bytes, Taken, (1, usize::from(number) * 7))
    }
}

/// Whether memory was refused at the announcement of the longest message.
fn longest(alloc: Global) -> Option<bool> {
    let mut assembler = Assembler::new(alloc);
    let payload = [b'A'; 1785];
    let announcement = (2_000_000, BAM, LONGEST, Taken, (1, 0));
    let is_any_refused = is_refused(&mut assembler, &announcement, &payload)?;
    for number in 1..=255u8 {
        is_refused(&mut assembler, &packet(number), &payload)?;
    }
    Some(is_any_refused)
}

#[test]
fn longest_broadcast_without_memory(rt: HostRuntime) {
    assert!(rt; longest(rt.alloc()).is_some());
}

#[test]
fn longest_broadcast_with_memory(rt: HostRuntime) {
    assert_eq!(rt; longest(rt.alloc()), Some(false));
}
