//! That the quick reader answers at each line of the form in which candump writes a log. What it answers is proved, and not
//! that it does.
use j39_log::{Bus, LastSecond, Splitter};

/// A line, its bus, and the moment, the identifier and the data that it spells.
struct Row {
    line: &'static [u8],
    bus: &'static [u8],
    micros: u64,
    id: u32,
    bytes: [u8; 8],
}

static ROWS: &[Row] = &[
    Row {
        line: b"(1700000000.250000) can0 0CF00400#F87DA000000000FF\n",
        bus: b"can0",
        micros: 1_700_000_000_250_000,
        id: 0x0CF0_0400,
        bytes: [0xF8, 0x7D, 0xA0, 0, 0, 0, 0, 0xFF],
    },
    Row {
        line: b"(1700000000.250001) can0 1FFFFFFF#0123456789ABCDEF\r\n",
        bus: b"can0",
        micros: 1_700_000_000_250_001,
        id: 0x1FFF_FFFF,
        bytes: [0x01, 0x23, 0x45, 0x67, 0x89, 0xAB, 0xCD, 0xEF],
    },
    Row {
        line: b"(1700000001.999999999) vcan12 18febf0b#0123456789abcdef\n",
        bus: b"vcan12",
        micros: 1_700_000_001_999_999,
        id: 0x18FE_BF0B,
        bytes: [0x01, 0x23, 0x45, 0x67, 0x89, 0xAB, 0xCD, 0xEF],
    },
    Row {
        line: b"(0000000000.000000) a 00000000#0000000000000000\n",
        bus: b"a",
        micros: 0,
        id: 0,
        bytes: [0, 0, 0, 0, 0, 0, 0, 0],
    },
    Row {
        line: b"(9999999999.999999000) abcdefghijk 1CECFF00#20140003FFE3FE00\r\n(",
        bus: b"abcdefghijk",
        micros: 9_999_999_999_999_999,
        id: 0x1CEC_FF00,
        bytes: [0x20, 0x14, 0x00, 0x03, 0xFF, 0xE3, 0xFE, 0x00],
    },
    Row {
        line: b"(1700000000.250000) can0 0CF00400#F87DA000000000FF R\n",
        bus: b"can0",
        micros: 1_700_000_000_250_000,
        id: 0x0CF0_0400,
        bytes: [0xF8, 0x7D, 0xA0, 0, 0, 0, 0, 0xFF],
    },
    Row {
        line: b"(1700000001.999999999) vcan12 18febf0b#0123456789abcdef T\r\n",
        bus: b"vcan12",
        micros: 1_700_000_001_999_999,
        id: 0x18FE_BF0B,
        bytes: [0x01, 0x23, 0x45, 0x67, 0x89, 0xAB, 0xCD, 0xEF],
    },
];

#[test]
fn lines_of_candump(rt: HostRuntime) {
    let splitter = Splitter::new();
    let mut second = LastSecond::new();
    for row in ROWS {
        let bus = Bus::new(row.bus);
        match splitter.frame_on(row.line, &mut second, &bus) {
            Some((frame, _)) => {
                assert_eq!(rt; frame.stamp.micros(), row.micros);
                assert_eq!(rt; frame.id.raw(), row.id);
                assert_eq!(rt; frame.bytes.as_slice(), row.bytes.as_slice());
            }
            None => assert!(rt; false, "not read at once: {}", row.micros),
        }
    }
}
