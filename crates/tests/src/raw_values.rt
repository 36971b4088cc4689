//! Values of a parameter and their raw numbers.
use j39_groups::raw_of;

static ROWS: &[(u32, i64, Option<u32>)] = &[
    (190, 1_500_000, Some(12_000)),
    (190, 1_500_001, None),
    (190, 8_031_875, Some(64_255)),
    (190, 8_032_000, None),
    (110, -40, Some(0)),
    (110, -41, None),
    (175, -3_125, Some(8_735)),
    (70, 1, None),
    (965, 250, Some(250)),
    (965, 251, None),
    (234, 1, None),
];

#[test]
fn raw_values(rt: HostRuntime) {
    for (spn, value, raw) in ROWS {
        assert_eq!(rt; raw_of(*spn, *value), *raw, "{spn} {value}");
    }
}
