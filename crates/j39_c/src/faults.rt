//! The trouble codes of a message, and its lamps (J1939-73, 5.7.1).
ghost use Rattle.std.specs.Prelude.{◌≡◌, ◌≤◌, ◌∷◌, [], None, IfSome, length, map, pos, slice_get, take};
ghost use Rattle.j39_frame.specs.Pgn.{pgn_raw};
ghost use Rattle.j39_faults.specs.Codes.{codes_of};
ghost use Rattle.j39_faults.specs.FaultsMessage.{faults_message};
ghost use Rattle.j39_faults.specs.LampBits.{lamp_of};
ghost use Rattle.j39_c.specs.Calls.{Answers, Fills, FillsFront};
ghost use Rattle.j39_c.specs.Codes.{bad_value, end, no_room};
ghost use Rattle.j39_c.specs.Faults.{CanTell, are_lamps, code_by, code_from, code_in, is_lamp, lamps_by, lamps_from, lamps_in, plain_fault, plain_lamp, plain_lamps};
ghost use Rattle.j39_c.specs.Readings.{IsReadable, IsTextAnswer};

use crate::message::WholeMessage;
use crate::reading::{copy, payload_of};
use crate::refusal::Refusal;
use j39_faults::{
    Candidates, Code, Flash, Lamp, LampState, Lamps, Parameter, codes_of, fault_group,
    faults_message, lamps_of,
};
use j39_frame::Pgn;

/// The most codes of a message that is written out (own), so that it takes little stack.
const MOST_TOLD: usize = 64;

/// What stands where no code does.
const NO_CODE: Code = Code {
    parameter: Parameter::Known(0),
    fmi: 0,
    count: None,
};

/// A trouble code, `j1939_fault` of the header.
#[repr(C)]
#[derive(Clone, Copy, Debug)]
pub struct PlainFault {
    /// The parameter (SPN); by conversion method 1, by version 3 of the older ones.
    pub spn: u32,
    /// By conversion method 1, by version 1; else as `spn`.
    pub version_1: u32,
    /// By conversion method 1, by version 2; else as `spn`.
    pub version_2: u32,
    /// What is wrong with it (FMI), 0 to 31.
    pub fmi: u8,
    /// How often it came, 0 to 126; 127 where that isn't available.
    pub count: u8,
    /// The conversion method, 0 or 1.
    pub conversion: u8,
}

/// A lamp, `j1939_lamp` of the header.
#[repr(C)]
#[derive(Clone, Copy, Debug)]
pub struct PlainLamp {
    /// 0 off, 1 on, 2 reserved, 3 not available.
    pub state: u8,
    /// 0 once a second, 1 twice a second or more, 2 reserved, 3 not at all.
    pub flash: u8,
}

/// The four lamps, `j1939_lamps` of the header.
#[repr(C)]
#[derive(Clone, Copy, Debug)]
pub struct PlainLamps {
    /// The malfunction indicator lamp, of emissions.
    pub malfunction: PlainLamp,
    /// The red stop lamp.
    pub red: PlainLamp,
    /// The amber warning lamp.
    pub amber: PlainLamp,
    /// The protect lamp.
    pub protect: PlainLamp,
}

/// Reads trouble code number `index` of a message of DM1 or its kin: 0; -1 for a message that is none, -6 behind the last code,
/// and for a group that tells none.
#[unsafe(no_mangle)]
pub extern "C" fn j39_fault(message: &WholeMessage, out: &mut PlainFault, index: usize) -> i32
    ensures read { IsReadable message.now → IfSome (code_in message.now index) (λ code. (result ≡ pos 0) × (out.new ≡ plain_fault code)) }
    ensures behind { IsReadable message.now → code_in message.now index ≡ None → result ≡ end }
    ensures bad { (IsReadable message.now → ⊥) → result ≡ bad_value }
    ensures answers { Answers 0 (bad_value ∷ end ∷ []) result }
    ensures fills { Fills (pos 0 ∷ []) result (out.new ≡ out.old) }
{
    let (Some(pgn), Some(payload)) = (Pgn::new(message.pgn), payload_of(message)) else {
        return Refusal::BadValue.code();
    };
    let Some(code) = code_of(pgn, payload, index) else {
        return Refusal::End.code();
    };
    *out = plain_fault(code);
    0
}

/// Reads the lamps of a message of DM1 or its kin: 0; -1 for a message that is none, -6 for a group that tells none, and for less
/// than two bytes.
#[unsafe(no_mangle)]
pub extern "C" fn j39_lamps(message: &WholeMessage, out: &mut PlainLamps) -> i32
    ensures read { IsReadable message.now → IfSome (lamps_in message.now) (λ lamps. (result ≡ pos 0) × (out.new ≡ plain_lamps lamps)) }
    ensures behind { IsReadable message.now → lamps_in message.now ≡ None → result ≡ end }
    ensures bad { (IsReadable message.now → ⊥) → result ≡ bad_value }
    ensures answers { Answers 0 (bad_value ∷ end ∷ []) result }
    ensures fills { Fills (pos 0 ∷ []) result (out.new ≡ out.old) }
{
    let (Some(pgn), Some(payload)) = (Pgn::new(message.pgn), payload_of(message)) else {
        return Refusal::BadValue.code();
    };
    let Some(lamps) = lamps_by(pgn, payload) else {
        return Refusal::End.code();
    };
    *out = plain_lamps(lamps);
    0
}

/// Writes out the payload of a message of trouble codes, as DM1 and DM2, by conversion method 0: its length, 8 to 258; -1 for more
/// than 64 codes, and where a message can't tell one of these; -5 where it doesn't fit.
#[unsafe(no_mangle)]
pub extern "C" fn j39_faults_message(
    lamps: &PlainLamps,
    faults: &[PlainFault],
    payload: &mut [u8],
) -> i32
    ensures told { CanTell lamps.now faults.now → IsTextAnswer (length payload.old)
        (faults_message (lamps_from lamps.now) (map code_from faults.now)) result payload.new }
    ensures bad { (CanTell lamps.now faults.now → ⊥) → result ≡ bad_value }
    ensures answers { Answers (length payload.old) (bad_value ∷ no_room ∷ []) result }
    ensures fills { FillsFront result payload.old payload.new }
{
    if faults.len() > MOST_TOLD || !are_lamps(*lamps) {
        return Refusal::BadValue.code();
    }
    let mut codes = [NO_CODE; MOST_TOLD];
    fill_codes(faults, &mut codes);
    match faults_message(lamps_from(*lamps), &codes[..faults.len()]) {
        Some(message) => copy(message.as_slice(), payload),
        None => Refusal::BadValue.code(),
    }
}

/// Code number `index` of a group that tells codes.
fn code_of(pgn: Pgn, payload: &[u8], index: usize) -> Option<Code>
    ensures { result ≡ code_by (pgn_raw pgn) payload.now index }
{
    fault_group(pgn)?;
    nth_code(payload, index)
}

/// Code number `index` of a payload.
fn nth_code(payload: &[u8], index: usize) -> Option<Code>
    ensures { result ≡ slice_get (codes_of payload.now) index }
{
    codes_of(payload).nth(index)
}

/// The lamps of a group that tells codes.
fn lamps_by(pgn: Pgn, payload: &[u8]) -> Option<Lamps>
    ensures { result ≡ lamps_by (pgn_raw pgn) payload.now }
{
    fault_group(pgn)?;
    lamps_of(payload)
}

fn plain_fault(code: Code) -> PlainFault
    ensures { result ≡ plain_fault code }
{
    let (conversion, candidates) = match code.parameter {
        Parameter::Known(spn) => (
            0,
            Candidates {
                version_1: spn,
                version_2: spn,
                version_3: spn,
            },
        ),
        Parameter::OneOf(candidates) => (1, candidates),
    };
    PlainFault {
        spn: candidates.version_3,
        version_1: candidates.version_1,
        version_2: candidates.version_2,
        fmi: code.fmi,
        count: code.count.unwrap_or(127),
        conversion,
    }
}

fn plain_lamps(lamps: Lamps) -> PlainLamps
    ensures { result ≡ plain_lamps lamps }
{
    PlainLamps {
        malfunction: plain_lamp(lamps.malfunction),
        red: plain_lamp(lamps.red),
        amber: plain_lamp(lamps.amber),
        protect: plain_lamp(lamps.protect),
    }
}

fn plain_lamp(lamp: Lamp) -> PlainLamp
    ensures { result ≡ plain_lamp lamp }
{
    let state = match lamp.state {
        LampState::Off => 0,
        LampState::On => 1,
        LampState::Reserved => 2,
        LampState::NotAvailable => 3,
    };
    let flash = match lamp.flash {
        Flash::Slow => 0,
        Flash::Fast => 1,
        Flash::Reserved => 2,
        Flash::Steady => 3,
    };
    PlainLamp { state, flash }
}

/// Writes the codes that plain ones say to the front of a slice.
fn fill_codes(faults: &[PlainFault], codes: &mut [Code])
    requires { length faults.now ≤ length codes.old }
    ensures codes { take (length faults.now) codes.new ≡ map code_from faults.now }
    ensures len { length codes.new ≡ length codes.old }
{
    for place in 0..faults.len() {
        codes[place] = code_from(faults[place]);
    }
}

fn code_from(fault: PlainFault) -> Code
    ensures { result ≡ code_from fault }
{
    let parameter = if fault.conversion == 0 {
        Parameter::Known(fault.spn)
    } else {
        Parameter::OneOf(Candidates {
            version_1: fault.version_1,
            version_2: fault.version_2,
            version_3: fault.spn,
        })
    };
    let count = if fault.count == 127 {
        None
    } else {
        Some(fault.count)
    };
    Code {
        parameter,
        fmi: fault.fmi,
        count,
    }
}

/// Whether each has two bits.
fn are_lamps(lamps: PlainLamps) -> bool
    ensures { result ≡ are_lamps lamps }
{
    is_lamp(lamps.malfunction)
        && is_lamp(lamps.red)
        && is_lamp(lamps.amber)
        && is_lamp(lamps.protect)
}

fn is_lamp(lamp: PlainLamp) -> bool
    ensures { result ≡ is_lamp lamp }
{
    lamp.state < 4 && lamp.flash < 4
}

fn lamps_from(lamps: PlainLamps) -> Lamps
    ensures { result ≡ lamps_from lamps }
{
    Lamps {
        malfunction: lamp_from(lamps.malfunction),
        red: lamp_from(lamps.red),
        amber: lamp_from(lamps.amber),
        protect: lamp_from(lamps.protect),
    }
}

fn lamp_from(lamp: PlainLamp) -> Lamp
    ensures { result ≡ lamp_of lamp.state lamp.flash }
{
    let state = match lamp.state {
        0 => LampState::Off,
        1 => LampState::On,
        2 => LampState::Reserved,
        _ => LampState::NotAvailable,
    };
    let flash = match lamp.flash {
        0 => Flash::Slow,
        1 => Flash::Fast,
        2 => Flash::Reserved,
        _ => Flash::Steady,
    };
    Lamp { state, flash }
}
