//! A receiver of transfers: an RTS whose memory is refused is answered by abort 2, and the next may find memory.
use j39_frame::{Frame, Id, Stamp};
use j39_transport::{Receiver, Reply};
use std::alloc::Global;

/// From 00 to 0B, for 18 bytes in three packets.
const RTS: [u8; 8] = [0x10, 0x12, 0, 3, 0xFF, 0xEC, 0xFE, 0];

const CTS: [u8; 8] = [0x11, 3, 1, 0xFF, 0xFF, 0xEC, 0xFE, 0];

const NO_MEMORY: [u8; 8] = [0xFF, 2, 0xFF, 0xFF, 0xFF, 0xEC, 0xFE, 0];

/// What is answered to the RTS, from 0B to 00.
fn answer(receiver: &mut Receiver) -> Option<[u8; 8]> {
    let now = Stamp::new(0)?;
    let frame = Frame::new(now, Id::new(0x1CEC0B00)?, &RTS)?;
    match receiver.on(&frame, now) {
        Reply::Send(id, bytes) if id.raw() == 0x1CEC000B => Some(bytes),
        _ => None,
    }
}

/// Whether memory was refused; none where the RTS isn't answered as it has to be.
fn is_refused(alloc: Global) -> Option<bool> {
    let mut receiver = Receiver::new(alloc, 0x0B)?;
    let first = answer(&mut receiver)?;
    let is_refused = first == NO_MEMORY && !receiver.busy();
    let granted = if is_refused {
        answer(&mut receiver)?
    } else {
        first
    };
    (granted == CTS && receiver.busy()).then_some(is_refused)
}

#[test]
fn receiver_without_memory(rt: HostRuntime) {
    assert!(rt; is_refused(rt.alloc()).is_some());
}

#[test]
fn receiver_with_memory(rt: HostRuntime) {
    assert_eq!(rt; is_refused(rt.alloc()), Some(false));
}
