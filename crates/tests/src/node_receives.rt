//! A controller that is sent messages in packets: what it answers.
use crate::steps::{Step, wrong_of};
use crate::transfers::VIN;
use Step::{Gives, HasNoTransfer, HasTransfer, Hears, ReleasesTransfer, Ticks, Wakes};
use std::test::Fail;

/// NAME 2 at address 128; addresses 11 and 12 send it 18 bytes of group 65260.
static STEPS: &[Step] = &[
    Gives(
        0,
        Some("(0000000000.000000) can0 18EEFF80#0200000000000000"),
    ),
    // Before the address is held.
    Hears("(0.100000) can0 1CEC800B#10120003FFECFE00"),
    Gives(250_000, None),
    Wakes(None),
    // To another.
    Hears("(0.290000) can0 1CEC810B#10120003FFECFE00"),
    Gives(290_000, None),
    // One session at a time, in one box: another's finds none.
    Hears("(0.300000) can0 1CEC800B#10120003FFECFE00"),
    Wakes(Some(1_550_001)),
    Hears("(0.300100) can0 1CEC800C#10120003FFECFE00"),
    Gives(
        300_200,
        Some("(0000000000.300200) can0 1CEC0B80#110301FFFFECFE00"),
    ),
    Gives(
        300_200,
        Some("(0000000000.300200) can0 1CEC0C80#FF02FFFFFFECFE00"),
    ),
    Gives(300_200, None),
    Hears("(0.310000) can0 1CEB800B#013146554A413643"),
    Hears("(0.320000) can0 1CEB800B#025631324C4B3132"),
    HasNoTransfer,
    Hears("(0.330000) can0 1CEB800B#033334352AFFFFFF"),
    HasTransfer(11, 65_260, &VIN),
    Wakes(None),
    Gives(
        330_100,
        Some("(0000000000.330100) can0 1CEC0B80#13120003FFECFE00"),
    ),
    // While it lies there, another is refused.
    Hears("(0.340000) can0 1CEC800C#10120003FFECFE00"),
    Gives(
        340_000,
        Some("(0000000000.340000) can0 1CEC0C80#FF02FFFFFFECFE00"),
    ),
    HasTransfer(11, 65_260, &VIN),
    ReleasesTransfer(true),
    ReleasesTransfer(false),
    HasNoTransfer,
    // The session of an address that gets a holder is dropped, with what is to be said to it.
    Hears("(0.400000) can0 1CEC800B#10120003FFECFE00"),
    Hears("(0.410000) can0 18EEFF0B#0500000000000000"),
    Gives(410_000, None),
    Hears("(0.420000) can0 1CEB800B#013146554A413643"),
    Wakes(None),
    // It asks again twice, and gives up.
    Hears("(0.500000) can0 1CEC800B#10120003FFECFE00"),
    Gives(
        500_000,
        Some("(0000000000.500000) can0 1CEC0B80#110301FFFFECFE00"),
    ),
    Ticks(1_750_000),
    Gives(1_750_000, None),
    Wakes(Some(1_750_001)),
    Ticks(1_750_001),
    Gives(
        1_750_001,
        Some("(0000000001.750001) can0 1CEC0B80#110301FFFFECFE00"),
    ),
    Ticks(3_000_002),
    Ticks(4_250_003),
    Gives(
        4_250_003,
        Some("(0000000004.250003) can0 1CEC0B80#FF03FFFFFFECFE00"),
    ),
    Gives(4_250_003, None),
    // A smaller NAME takes its address.
    Hears("(4.300000) can0 1CEC800B#10120003FFECFE00"),
    Hears("(4.310000) can0 18EEFF80#0100000000000000"),
    Gives(
        4_310_000,
        Some("(0000000004.310000) can0 18EEFFFE#0200000000000000"),
    ),
    Gives(4_310_000, None),
    Wakes(None),
];

#[test]
fn node_receives(rt: HostRuntime) -> Result<(), Fail> {
    assert_eq!(rt; wrong_of(rt.alloc(), STEPS)?, None);
    Ok(())
}
