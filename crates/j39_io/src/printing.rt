//! Numbers and bytes as text, appended to a line that takes no memory.
ghost use Rattle.std.specs.Prelude.{◌≡◌, ◌+◌, ◌*◌, ◌/◌, ◌≤◌, ◌++◌, decimal, length};
ghost use Rattle.arrayvec.specs.ArrayVec.{array_vec_len};
ghost use Rattle.hex.specs.Hex.{encode_upper};
ghost use Rattle.j39_io.specs.Printing.{last_digits};

use arrayvec::ArrayVec;

/// Appends a number in decimal.
#[tactic(auto, using(crate::proofs::PrintingLemmas::shortest_decimal))]
pub fn push_number<const N: usize>(out: &mut ArrayVec<u8, N>, value: u64)
    requires { array_vec_len out.old + length (decimal value) ≤ N }
    ensures items { out.new.items ≡ out.old.items ++ decimal value }
    ensures len { array_vec_len out.new ≡ array_vec_len out.old + length (decimal value) }
{
    if value < 10 {
        out.push(b'0' + value as u8);
    } else {
        push_number(out, front_of(value));
        out.push(b'0' + (value % 10) as u8);
    }
}

/// The number without its last decimal digit.
fn front_of(value: u64) -> u64
    requires { 10 ≤ value }
    ensures front { result ≡ value / 10 }
    ensures shorter { length (decimal result) + 1 ≡ length (decimal value) }
{
    value / 10
}

/// Appends the last `count` decimal digits of a number, with leading zeros.
pub fn push_last_digits<const N: usize>(out: &mut ArrayVec<u8, N>, count: usize, value: u64)
    requires { array_vec_len out.old + count ≤ N }
    ensures items { out.new.items ≡ out.old.items ++ last_digits count value }
    ensures len { array_vec_len out.new ≡ array_vec_len out.old + count }
{
    if count > 0 {
        push_last_digits(out, count - 1, value / 10);
        out.push(b'0' + (value % 10) as u8);
    }
}

const DIGITS: &[u8; 16] = b"0123456789ABCDEF";

/// Appends bytes as pairs of upper-case hex digits.
pub fn push_hex<const N: usize>(out: &mut ArrayVec<u8, N>, bytes: &[u8])
    requires { array_vec_len out.old + 2 * length bytes.now ≤ N }
    ensures items { out.new.items ≡ out.old.items ++ encode_upper bytes.now }
    ensures len { array_vec_len out.new ≡ array_vec_len out.old + 2 * length bytes.now }
{
    for &byte in bytes {
        out.push(DIGITS[usize::from(byte / 16)]);
        out.push(DIGITS[usize::from(byte % 16)]);
    }
}

/// Appends bytes as they are.
pub fn push_bytes<const N: usize>(out: &mut ArrayVec<u8, N>, bytes: &[u8])
    requires { array_vec_len out.old + length bytes.now ≤ N }
    ensures items { out.new.items ≡ out.old.items ++ bytes.now }
    ensures len { array_vec_len out.new ≡ array_vec_len out.old + length bytes.now }
{
    let _ = out.try_extend_from_slice(bytes);
}
