//! A source that holds the only session, or the only broadcast, for messages in packets: when another gets in; and one that restarts.
use crate::steps::{controller, frame, hear_line};
use j39_frame::Stamp;
use j39_node::Controller;
use std::alloc::Global;
use std::test::Fail;

/// An RTS of address 11, and one of address 12: 18 bytes of group 65260 to address 128.
const FIRST: &str = "(0.000000) can0 1CEC800B#10120003FFECFE00";

const OTHER: &str = "(0.000000) can0 1CEC800C#10120003FFECFE00";

/// A packet of address 11 that is never next.
const PACKET: &str = "(0.000000) can0 1CEB800B#003146554A413643";

/// Whether it gives a CTS to address 12 among the frames that are due.
fn clears_other(node: &mut Controller, now: Stamp) -> bool {
    let mut clears = false;
    for _ in 0..20 {
        if let Some(given) = node.take_frame(now) {
            let bytes = given.bytes.as_slice();
            clears = clears || (given.id.ps() == 12 && bytes.get(0) == Some(&17));
        }
    }
    clears
}

/// After how many milliseconds since its RTS address 12 gets in, which tries each second, while address 11 sends this so often.
fn let_in_after(node: &mut Controller, again: &str, every: u64) -> Option<u64> {
    let first = frame(FIRST)?;
    let other = frame(OTHER)?;
    let again = frame(again)?;
    let _claim = node.take_frame(Stamp::new(0)?);
    node.hear(&first, Stamp::new(1_000_000)?);
    for step in 1..600u64 {
        let now = Stamp::new(1_000_000 + step * 100_000)?;
        node.tick(now);
        if (step * 100).checked_rem(every) == Some(0) {
            node.hear(&again, now);
        }
        if step % 10 == 5 {
            node.hear(&other, now);
        }
        if clears_other(node, now) {
            return Some(step * 100);
        }
    }
    None
}

#[test]
fn node_lets_another_in_beside_one_that_begins_again(rt: HostRuntime) -> Result<(), Fail> {
    let mut node = controller(rt.alloc(), &[])?;
    assert_eq!(rt; let_in_after(&mut node, FIRST, 3_000), Some(8_500));
    Ok(())
}

#[test]
fn node_lets_another_in_beside_one_whose_packets_are_never_next(
    rt: HostRuntime,
) -> Result<(), Fail> {
    let mut node = controller(rt.alloc(), &[])?;
    assert_eq!(rt; let_in_after(&mut node, PACKET, 700), Some(4_500));
    Ok(())
}

/// Address 11 announces 18 bytes to all, and address 12 sends as many, whole.
const ANNOUNCED: &str = "(0.000000) can0 1CECFF0B#20120003FFECFE00";

const WHOLE: &[&str] = &[
    "(0.000000) can0 1CECFF0C#20120003FFECFE00",
    "(0.000000) can0 1CEBFF0C#013146554A413643",
    "(0.000000) can0 1CEBFF0C#025631324C4B3132",
    "(0.000000) can0 1CEBFF0C#033334352AFFFFFF",
];

/// How many of address 12's broadcasts, one each second, are received in so many seconds beside those of address 11, which announces
/// one each 700 ms: all that begin between the end of an account of 3 s and the next announcement.
fn received_beside(node: &mut Controller, seconds: u64) -> Option<u64> {
    let announced = frame(ANNOUNCED)?;
    let mut received = 0u64;
    for step in 0..seconds.checked_mul(20)? {
        let now = Stamp::new(step.checked_mul(50_000)?)?;
        if step % 14 == 0 {
            node.hear(&announced, now);
        }
        let place = usize::try_from(step.checked_add(19)? % 20).ok()?;
        if let Some(line) = WHOLE.get(place) {
            let part = frame(line)?;
            node.hear(&part, now);
        }
        if node.release_broadcast() {
            received = received.saturating_add(1);
        }
    }
    Some(received)
}

#[test]
fn node_hears_another_beside_one_that_announces_anew(rt: HostRuntime) -> Result<(), Fail> {
    let mut node = controller(rt.alloc(), &[])?;
    assert_eq!(rt; received_beside(&mut node, 300), Some(43));
    Ok(())
}

/// NAME 5 claims address 11, then sends 18 bytes of group 65260 to address 128 by RTS, and to all by BAM.
const BEGINS: &[&str] = &[
    "(0.300000) can0 18EEFF0B#0500000000000000",
    "(2.000000) can0 1CEC800B#10120003FFECFE00",
    "(2.000100) can0 1CECFF0B#20120003FFECFE00",
    "(2.050000) can0 1CEB800B#013146554A413643",
    "(2.050100) can0 1CEBFF0B#013146554A413643",
];

/// It claims its address again.
const CLAIM: &str = "(2.060000) can0 18EEFF0B#0500000000000000";

/// What others say that calls for that: a request for claims, and a larger NAME's claim of the address.
const REQUEST: &str = "(2.055000) can0 18EAFFFE#00EE00";

const RIVAL: &str = "(2.055000) can0 18EEFF0B#0600000000000000";

/// The same to it alone; and what calls for nothing of it: the same to address 12 alone, and a claim of that address.
const TO_IT: &str = "(2.055000) can0 18EA0BFE#00EE00";

const ASIDE: &str = "(2.055000) can0 18EA0CFE#00EE00";

const OTHERS: &str = "(2.055000) can0 18EEFF0C#0600000000000000";

/// The packets that are left.
const ENDS: &[&str] = &[
    "(2.100000) can0 1CEB800B#025631324C4B3132",
    "(2.100100) can0 1CEBFF0B#025631324C4B3132",
    "(2.150000) can0 1CEB800B#033334352AFFFFFF",
    "(2.150100) can0 1CEBFF0B#033334352AFFFFFF",
];

/// Whether it receives both messages, where these frames come before their last packets.
fn receives(node: &mut Controller, between: &[&str]) -> Option<(bool, bool)> {
    let _claim = node.take_frame(Stamp::new(0)?);
    for line in BEGINS.iter() {
        hear_line(node, line)?;
    }
    for line in between.iter() {
        hear_line(node, line)?;
    }
    for line in ENDS.iter() {
        hear_line(node, line)?;
    }
    Some((
        node.received_transfer().is_some(),
        node.received_broadcast().is_some(),
    ))
}

/// The same of a new controller.
fn received(alloc: Global, between: &[&str]) -> Result<Option<(bool, bool)>, Fail> {
    let mut node = controller(alloc, &[])?;
    Ok(receives(&mut node, between))
}

/// What comes before the last packets, and whether both messages are received.
static RESTARTS: &[(&[&str], bool)] = &[
    (&[], true),
    (&[CLAIM], false),
    (&[REQUEST, CLAIM], true),
    (&[RIVAL, CLAIM], true),
    (&[TO_IT, CLAIM], true),
    (&[ASIDE, CLAIM], false),
    (&[OTHERS, CLAIM], false),
    (&[ASIDE, TO_IT, CLAIM], true),
];

#[test]
fn node_meets_a_restart(rt: HostRuntime) -> Result<(), Fail> {
    for (place, (between, comes)) in RESTARTS.iter().enumerate() {
        assert_eq!(rt;
            received(rt.alloc(), between)?,
            Some((*comes, *comes)),
            "{place}"
        );
    }
    Ok(())
}
