//! When a broadcast's frames are sent.
use crate::transfers::{P1, P2, P3, VIN};
use j39_frame::{Pgn, Stamp};
use j39_transport::{Broadcast, Cut, Poll};
use std::test::Fail;

// From 00 to all.
pub(crate) const BAM: u32 = 0x1CECFF00;

const DATA: u32 = 0x1CEBFF00;

pub(crate) const ANNOUNCEMENT: [u8; 8] = [0x20, 0x12, 0, 3, 0xFF, 0xEC, 0xFE, 0];

/// A moment, and the frame that is sent then, or the moment that is waited for, or none where all is sent.
type Polled = (u64, Option<Result<(u32, [u8; 8]), u64>>);

/// 50 ms between two frames, and a moment that goes back is no time passed.
static PACE: &[Polled] = &[
    (0, Some(Ok((BAM, ANNOUNCEMENT)))),
    (49_999, Some(Err(50_000))),
    (50_000, Some(Ok((DATA, P1)))),
    (100_000, Some(Ok((DATA, P2)))),
    (0, Some(Err(150_000))),
    (150_000, Some(Ok((DATA, P3)))),
    (150_000, None),
];

fn is_polled(broadcast: &mut Broadcast<'_>, polled: &Polled) -> Option<bool> {
    let (micros, wanted) = polled;
    let met = match broadcast.poll(Stamp::new(*micros)?) {
        Poll::Send(id, bytes) => Some(Ok((id.raw(), bytes))),
        Poll::WaitUntil(moment) => Some(Err(moment)),
        Poll::Done => None,
    };
    Some(met == *wanted)
}

#[test]
fn broadcast_pacing(rt: HostRuntime) -> Result<(), Fail> {
    let pgn = Pgn::new(65260).ok_or("group")?;
    let cut = Cut::new(0, pgn, &VIN).ok_or("cut")?;
    let mut broadcast = Broadcast::new(cut);
    for polled in PACE {
        assert_eq!(rt;
            is_polled(&mut broadcast, polled),
            Some(true),
            "{}",
            polled.0
        );
    }
    Ok(())
}
