//! Messages of faults that are sent: DM1, DM2 and their kin (J1939-73, 5.7.1).
ghost use Rattle.std.specs.Prelude.{◌≡◌, ◌↔◌, ◌≤◌, ◌<◌, ◌++◌, IsSome, IfSome, IsTrue, Some, length};
ghost use Rattle.std.specs.List.{list_all};
ghost use Rattle.arrayvec.specs.ArrayVec.{array_vec_len};
ghost use Rattle.j39_faults.specs.Codes.{codes_of};
ghost use Rattle.j39_faults.specs.FaultsMessage.{can_be_message, can_tell, code_bytes, codes_or_none, count_bits, faults_message, filled, flash_bits, flashes_byte, is_count, is_spn, pairs, spn_in, state_bits, states_byte};
ghost use Rattle.j39_faults.specs.LampBits.{lamps_of};

use crate::code::{Code, Parameter};
use crate::lamps::{Flash, LampState, Lamps};
use arrayvec::ArrayVec;
use j39_io::printing::push_bytes;

/// The most codes that a message in packets carries: 1,785 bytes, of which two are the lamps'.
const MOST_CODES: usize = 445;

/// The payload of a message of faults, 8 to 1,782 bytes.
pub type FaultsMessage = ArrayVec<u8, 1785>;

/// The payload of a message that tells these lamps and codes, in their order, by conversion method 0; `None` for more than
/// 445 codes, or one that no message can tell: its SPN is not known or has more than 19 bits, its FMI more than 5, its count
/// is above 126, or SPN and FMI are 0, which says that there is none. One of 8 bytes goes in a frame, a longer one in packets.
pub fn faults_message(lamps: Lamps, codes: &[Code]) -> Option<FaultsMessage>
    ensures known { IsSome result ↔ IsTrue (can_be_message codes.now) }
    ensures bytes { IfSome result (λ message. message.items ≡ faults_message lamps codes.now) }

    // It is read as what it was made of.
    ensures lamps { IfSome result (λ message. lamps_of message.items ≡ Some lamps) }
    ensures codes { IfSome result (λ message. codes_of message.items ≡ codes.now) }
{
    if codes.len() > MOST_CODES || !are_told(codes) {
        return None;
    }
    let mut message = FaultsMessage::new();
    message.push(states_byte(lamps));
    message.push(flashes_byte(lamps));
    push_codes(&mut message, codes);
    fill(&mut message);
    Some(message)
}

/// Whether a message can tell each of them.
fn are_told(codes: &[Code]) -> bool
    ensures { result ≡ list_all can_tell codes.now }
{
    for &code in codes {
        if !can_tell(code) {
            return false;
        }
    }
    true
}

fn can_tell(code: Code) -> bool
    ensures { result ≡ can_tell code }
{
    is_spn(code.parameter)
        && code.fmi < 32
        && is_count(code.count)
        && !(spn_in(code.parameter) == 0 && code.fmi == 0)
}

/// Whether it has 19 bits, and not its maker alone can tell it.
fn is_spn(parameter: Parameter) -> bool
    ensures { result ≡ is_spn parameter }
{
    match parameter {
        Parameter::Known(spn) => spn < 524_288,
        Parameter::OneOf(_) => false,
    }
}

fn spn_in(parameter: Parameter) -> u32
    ensures { result ≡ spn_in parameter }
{
    match parameter {
        Parameter::Known(spn) => spn,
        Parameter::OneOf(_) => 0,
    }
}

fn is_count(count: Option<u8>) -> bool
    ensures { result ≡ is_count count }
{
    match count {
        None => true,
        Some(count) => count < 127,
    }
}

/// Appends the bytes of the codes, or the word that there is none.
fn push_codes(message: &mut FaultsMessage, codes: &[Code])
    requires room { array_vec_len message.old ≡ 2 }
    requires few { length codes.now ≤ 445 }
    requires told { IsTrue (list_all can_tell codes.now) }
    ensures { message.new.items ≡ message.old.items ++ codes_or_none codes.now }
{
    if codes.is_empty() {
        push_bytes(message, &[0; 4]);
    }
    for &code in codes {
        push_bytes(message, &code_bytes(code));
    }
}

/// The four bytes of a code.
fn code_bytes(code: Code) -> [u8; 4]
    requires { IsTrue (can_tell code) }
    ensures { result ≡ code_bytes code }
{
    let spn = spn_in(code.parameter);
    [
        (spn % 256) as u8,
        (spn / 256 % 256) as u8,
        (spn / 65536) as u8 * 32 + code.fmi,
        count_bits(code.count),
    ]
}

/// 127 says that a count is not available.
fn count_bits(count: Option<u8>) -> u8
    ensures { result ≡ count_bits count }
{
    match count {
        None => 127,
        Some(count) => count,
    }
}

/// FF behind the last code in a frame, which has eight bytes.
fn fill(message: &mut FaultsMessage)
    ensures { message.new.items ≡ filled message.old.items }
{
    while message.len() < 8 {
        message.push(0xFF);
    }
}

/// The lamps' states, two bits each.
fn states_byte(lamps: Lamps) -> u8
    ensures { result ≡ states_byte lamps }
{
    pairs(
        state_bits(lamps.malfunction.state),
        state_bits(lamps.red.state),
        state_bits(lamps.amber.state),
        state_bits(lamps.protect.state),
    )
}

/// How the lamps flash, two bits each.
fn flashes_byte(lamps: Lamps) -> u8
    ensures { result ≡ flashes_byte lamps }
{
    pairs(
        flash_bits(lamps.malfunction.flash),
        flash_bits(lamps.red.flash),
        flash_bits(lamps.amber.flash),
        flash_bits(lamps.protect.flash),
    )
}

/// Four times two bits, from the top.
fn pairs(first: u8, second: u8, third: u8, fourth: u8) -> u8
    requires first { first < 4 }
    requires second { second < 4 }
    requires third { third < 4 }
    requires fourth { fourth < 4 }
    ensures { result ≡ pairs first second third fourth }
{
    64 * first + 16 * second + 4 * third + fourth
}

fn state_bits(state: LampState) -> u8
    ensures value { result ≡ state_bits state }
    ensures two { result < 4 }
{
    match state {
        LampState::Off => 0,
        LampState::On => 1,
        LampState::Reserved => 2,
        LampState::NotAvailable => 3,
    }
}

fn flash_bits(flash: Flash) -> u8
    ensures value { result ≡ flash_bits flash }
    ensures two { result < 4 }
{
    match flash {
        Flash::Slow => 0,
        Flash::Fast => 1,
        Flash::Reserved => 2,
        Flash::Steady => 3,
    }
}
