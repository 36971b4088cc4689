//! A run over a log: where memory is refused it says so, and what it wrote is a front of the report.
use j39_io::Told;
use j39_listen::{RunFault, run};
use std::alloc::Global;

/// Two broadcasts at once: each announcement asks for memory.
const BROADCASTS: &[u8] = b"(0000000001.000000) can0 18EEFF00#3412400100000080\n\
    (0000000001.000100) can0 18EEFF0B#7856400100000080\n\
    (0000000002.000000) can0 1CECFF00#20120003FFECFE00\n\
    (0000000002.010000) can0 1CECFF0B#200C0002FFEBFE00\n\
    (0000000002.050000) can0 1CEBFF00#013146554A413643\n\
    (0000000002.060000) can0 1CEBFF0B#0141434D452A5831\n\
    (0000000002.100000) can0 1CEBFF00#025631324C4B3132\n\
    (0000000002.110000) can0 1CEBFF0B#022A37372A2AFFFF\n\
    (0000000002.150000) can0 1CEBFF00#033334352AFFFFFF\n";

const OF_BROADCASTS: &[u8] = b"(0000000002.110000) 0B 8000000001405678 65259 586 \"ACME\"\n\
    (0000000002.110000) 0B 8000000001405678 65259 587 \"X1\"\n\
    (0000000002.110000) 0B 8000000001405678 65259 588 \"77\"\n\
    (0000000002.150000) 00 8000000001401234 65260 237 \"1FUJA6CV12LK12345\"\n";

/// A transfer that is overheard.
const TRANSFER: &[u8] = b"(0000000001.000000) can0 18EEFF00#3412400100000080\n\
    (0000000002.000000) can0 1CEC0B00#10120003FFECFE00\n\
    (0000000002.010000) can0 1CEC000B#110301FFFFECFE00\n\
    (0000000002.020000) can0 1CEB0B00#013146554A413643\n\
    (0000000002.030000) can0 1CEB0B00#025631324C4B3132\n\
    (0000000002.040000) can0 1CEB0B00#033334352AFFFFFF\n\
    (0000000002.050000) can0 1CEC000B#13120003FFECFE00\n";

const OF_TRANSFER: &[u8] =
    b"(0000000002.040000) 00 8000000001401234 65260 237 \"1FUJA6CV12LK12345\"\n";

/// Whether memory was refused to a run over the log; none where it doesn't end as it has to.
fn is_refused(alloc: Global, log: &[u8], text: &[u8]) -> Option<bool> {
    let mut room = [0u8; 300];
    let mut rest = room.as_mut_slice();
    let mut source = Told::new(log);
    let met = run(alloc, &mut source, &mut Told::new(&mut rest), None, 1000);
    let count = 300usize.saturating_sub(rest.len());
    let written = room.get(..count)?;
    match met {
        Ok(_) => (written == text).then_some(false),
        Err(RunFault::Memory) => text.starts_with(written).then_some(true),
        Err(_) => None,
    }
}

#[test]
fn broadcasts_at_once_without_memory(rt: HostRuntime) {
    assert!(rt; is_refused(rt.alloc(), BROADCASTS, OF_BROADCASTS).is_some());
}

#[test]
fn broadcasts_at_once_with_memory(rt: HostRuntime) {
    assert_eq!(rt;
        is_refused(rt.alloc(), BROADCASTS, OF_BROADCASTS),
        Some(false)
    );
}

#[test]
fn overheard_transfer_without_memory(rt: HostRuntime) {
    assert!(rt; is_refused(rt.alloc(), TRANSFER, OF_TRANSFER).is_some());
}

#[test]
fn overheard_transfer_with_memory(rt: HostRuntime) {
    assert_eq!(rt; is_refused(rt.alloc(), TRANSFER, OF_TRANSFER), Some(false));
}
