//! How many messages an assembler keeps open.
use crate::broadcasts::{ANNOUNCEMENT, BAM};
use crate::transfers::{CONTROL, DATA, P1, P2, P3, RTS, VIN};
use j39_frame::{Frame, Id, Stamp};
use j39_transport::{Assembler, Fed};
use std::alloc::Global;
use std::test::Fail;

/// Feeds a frame: whether it completes the message.
fn completes(assembler: &mut Assembler, raw: u32, bytes: &[u8]) -> Option<bool> {
    let frame = Frame::new(Stamp::new(2_000_000)?, Id::new(raw)?, bytes)?;
    match assembler.feed(&frame).ok()? {
        Fed::Whole(message) => Some(message.payload == VIN.as_slice()),
        Fed::Taken => Some(false),
        Fed::Ignored => Some(false),
    }
}

/// A transfer with so many announcements to others, from 10 on, behind its first packet: how many are open before its second, and
/// whether its last completes it.
fn beside(alloc: Global, others: u32) -> Option<(usize, bool)> {
    let mut assembler = Assembler::new(alloc);
    completes(&mut assembler, CONTROL, &RTS)?;
    completes(&mut assembler, DATA, &P1)?;
    for other in 0..others {
        completes(&mut assembler, 0x1CEC1000 | other << 8, &RTS)?;
    }
    let open = assembler.open();
    completes(&mut assembler, DATA, &P2)?;
    Some((open, completes(&mut assembler, DATA, &P3)?))
}

#[test]
fn sixteen_transfers(rt: HostRuntime) {
    assert_eq!(rt; beside(rt.alloc(), 15), Some((16, true)));
    assert_eq!(rt; beside(rt.alloc(), 16), Some((16, false)));
}

#[test]
fn broadcast_of_each_source(rt: HostRuntime) -> Result<(), Fail> {
    let mut assembler = Assembler::new(rt.alloc());
    for source in 0..254u32 {
        completes(&mut assembler, BAM | source, &ANNOUNCEMENT).ok_or("memory")?;
    }
    assert_eq!(rt; (assembler.open(), assembler.held()), (254, 0));
    Ok(())
}
