//! A listener: where memory is refused at an announcement, it hears it once it is fed again.
use crate::assembler::{ANNOUNCEMENT, BAM, DATA, P1, P2, P3, VIN};
use j39_frame::{Frame, Id, Stamp};
use j39_listen::Listener;
use std::alloc::{AllocError, Global};

/// A broadcast's frames, and whether its message is heard at each.
static BROADCAST: &[(u64, u32, [u8; 8], bool)] = &[
    (2_000_000, BAM, ANNOUNCEMENT, false),
    (2_050_000, DATA, P1, false),
    (2_100_000, DATA, P2, false),
    (2_150_000, DATA, P3, true),
];

/// Whether the message is heard at the frame.
fn hears(listener: &mut Listener, frame: &Frame) -> Result<bool, AllocError> {
    Ok(match listener.feed(frame)? {
        Some(heard) => heard.message.payload == VIN && heard.name.is_none(),
        None => false,
    })
}

/// Whether memory was refused on the way; none where a frame isn't heard as it has to be.
fn is_refused(alloc: Global) -> Option<bool> {
    let mut listener = Listener::new(alloc);
    let mut is_refused = false;
    for (micros, id, bytes, is_heard) in BROADCAST {
        let frame = Frame::new(Stamp::new(*micros)?, Id::new(*id)?, bytes)?;
        let heard = match hears(&mut listener, &frame) {
            Ok(heard) => heard,
            Err(AllocError) => {
                is_refused = true;
                hears(&mut listener, &frame).ok()?
            }
        };
        if heard != *is_heard || listener.open() != usize::from(!heard) {
            return None;
        }
    }
    Some(is_refused)
}

#[test]
fn listener_without_memory(rt: HostRuntime) {
    assert!(rt; is_refused(rt.alloc()).is_some());
}

#[test]
fn listener_with_memory(rt: HostRuntime) {
    assert_eq!(rt; is_refused(rt.alloc()), Some(false));
}
