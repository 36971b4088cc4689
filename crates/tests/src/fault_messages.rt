//! Messages of faults that are written, worked out by hand (J1939-73, 5.7.1).
use j39_faults::{Candidates, Code, Flash, Lamp, LampState, Lamps, Parameter, faults_message};

const OFF: Lamp = Lamp {
    state: LampState::Off,
    flash: Flash::Steady,
};

const ON: Lamp = Lamp {
    state: LampState::On,
    flash: Flash::Steady,
};

const SLOW: Lamp = Lamp {
    state: LampState::On,
    flash: Flash::Slow,
};

const ALL_OFF: Lamps = Lamps {
    malfunction: OFF,
    red: OFF,
    amber: OFF,
    protect: OFF,
};
/// 00 01 01 00 and 11 11 11 11.
const STOP: Lamps = Lamps {
    malfunction: OFF,
    red: ON,
    amber: ON,
    protect: OFF,
};
/// 00 00 00 01 and 11 11 11 00.
const PROTECT: Lamps = Lamps {
    malfunction: OFF,
    red: OFF,
    amber: OFF,
    protect: SLOW,
};

/// A code of an SPN, an FMI and a count.
type Told = (u32, u8, Option<u8>);

const COOLANT: Told = (110, 0, Some(3));
/// 520201 is 7 in the top bits, and 0xF009 below: 09 F0, and 7 * 32 + 31.
const OWN: Told = (520_201, 31, None);

/// SPN 0 with FMI 0 says that there is no code; 20 bits, 6 bits, and 127.
static UNTOLD: &[Told] = &[
    (0, 0, Some(1)),
    (524_288, 1, Some(1)),
    (110, 32, Some(1)),
    (110, 0, Some(127)),
];

fn code_of(told: Told) -> Code {
    let (spn, fmi, count) = told;
    Code {
        parameter: Parameter::Known(spn),
        fmi,
        count,
    }
}

fn has_bytes(lamps: Lamps, codes: &[Code], bytes: &[u8]) -> bool {
    match faults_message(lamps, codes) {
        Some(message) => message.as_slice() == bytes,
        None => false,
    }
}

#[test]
fn messages_of_faults(rt: HostRuntime) {
    let none = b"\x00\xFF\x00\x00\x00\x00\xFF\xFF";
    assert!(rt; has_bytes(ALL_OFF, &[], none));
    let one = b"\x14\xFF\x6E\x00\x00\x03\xFF\xFF";
    assert!(rt; has_bytes(STOP, &[code_of(COOLANT)], one));
    let two = b"\x01\xFC\x6E\x00\x00\x03\x09\xF0\xFF\x7F";
    assert!(rt; has_bytes(PROTECT, &[code_of(COOLANT), code_of(OWN)], two));
}

#[test]
fn codes_that_no_message_tells(rt: HostRuntime) {
    for told in UNTOLD {
        let codes = [code_of(COOLANT), code_of(*told)];
        assert!(rt; faults_message(ALL_OFF, &codes).is_none());
    }
    let of_its_maker = Code {
        parameter: Parameter::OneOf(Candidates {
            version_1: 225_280,
            version_2: 880,
            version_3: 110,
        }),
        fmi: 0,
        count: Some(3),
    };
    assert!(rt; faults_message(ALL_OFF, &[of_its_maker]).is_none());
}

#[test]
fn as_many_as_packets_carry(rt: HostRuntime) {
    let codes = [code_of(COOLANT); 446];
    let (front, _) = codes.split_at(445);
    assert_eq!(rt;
        faults_message(STOP, front).map(|message| message.len()),
        Some(1782)
    );
    assert!(rt; faults_message(STOP, &codes).is_none());
}
