//! Text that is written from its last byte to its first: so a number's length needn't be known before
//! it is written. Each call writes a text that ends before `end`, answers where it starts, and leaves
//! what stands from `end` on as it was; what stands before the start may be overwritten.
ghost use Rattle.std.specs.Prelude.{◌≡◌, ◌+◌, ◌*◌, ◌/◌, ◌^◌, ◌<◌, ◌≤◌, ◌∷◌, [], decimal, drop, length};
ghost use Rattle.hex.specs.Hex.{encode_upper};
ghost use Rattle.j39_io.specs.Backwards.{WritesBefore, two_digits};
ghost use Rattle.j39_io.specs.Printing.{last_digits};

/// Writes a byte.
#[inline(always)]
pub fn byte_before(out: &mut [u8], end: usize, byte: u8) -> usize
    requires room { 0 < end }
    requires within { end ≤ length out.old }
    ensures { WritesBefore out.old out.new end result (byte ∷ []) }
{
    out[end - 1] = byte;
    end - 1
}

/// Writes bytes as they are. They come by value, so that no copy has to test whether they lie in `out`.
#[inline(always)]
pub fn bytes_before<const N: usize>(out: &mut [u8], end: usize, bytes: [u8; N]) -> usize
    requires room { N ≤ end }
    requires within { end ≤ length out.old }
    ensures written { WritesBefore out.old out.new end result bytes.entry }
    ensures starts { result + N ≡ end }
{
    tail_before(out, end, &bytes, 0)
}

/// Writes bytes as they are.
pub fn slice_before(out: &mut [u8], end: usize, bytes: &[u8]) -> usize
    requires room { length bytes.now ≤ end }
    requires within { end ≤ length out.old }
    ensures { WritesBefore out.old out.new end result bytes.now }
{
    let start = end - bytes.len();
    out[start..end].copy_from_slice(bytes);
    start
}

/// Writes the bytes of a block from `from` on. All of the block is copied: a copy of a length that is
/// known beforehand is cheap.
#[inline(always)]
pub fn tail_before<const N: usize>(
    out: &mut [u8],
    end: usize,
    block: &[u8; N],
    from: usize,
) -> usize
    requires room { N ≤ end }
    requires within { end ≤ length out.old }
    requires from { from ≤ N }
    ensures written { WritesBefore out.old out.new end result (drop from block.now) }
    ensures starts { result + N ≡ end + from }
{
    let start = end - N;
    put_block(&mut out[start..end], *block);
    start + from
}

/// Writes a block over a part of its length: as one value, so that no copy has to test whether it lies in the part.
#[inline(always)]
fn put_block<const N: usize>(part: &mut [u8], block: [u8; N])
    requires { length part.old ≡ N }
    ensures { part.new ≡ block.entry }
{
    if let Some(place) = part.as_mut_array::<N>() {
        *place = block;
    }
}

/// The pairs of digits, 00 to 99. A pair is copied as one value: its bytes by themselves would be put into a vector.
static PAIRS: [[u8; 2]; 100] = [
    *b"00", *b"01", *b"02", *b"03", *b"04", *b"05", *b"06", *b"07", *b"08", *b"09", *b"10", *b"11",
    *b"12", *b"13", *b"14", *b"15", *b"16", *b"17", *b"18", *b"19", *b"20", *b"21", *b"22", *b"23",
    *b"24", *b"25", *b"26", *b"27", *b"28", *b"29", *b"30", *b"31", *b"32", *b"33", *b"34", *b"35",
    *b"36", *b"37", *b"38", *b"39", *b"40", *b"41", *b"42", *b"43", *b"44", *b"45", *b"46", *b"47",
    *b"48", *b"49", *b"50", *b"51", *b"52", *b"53", *b"54", *b"55", *b"56", *b"57", *b"58", *b"59",
    *b"60", *b"61", *b"62", *b"63", *b"64", *b"65", *b"66", *b"67", *b"68", *b"69", *b"70", *b"71",
    *b"72", *b"73", *b"74", *b"75", *b"76", *b"77", *b"78", *b"79", *b"80", *b"81", *b"82", *b"83",
    *b"84", *b"85", *b"86", *b"87", *b"88", *b"89", *b"90", *b"91", *b"92", *b"93", *b"94", *b"95",
    *b"96", *b"97", *b"98", *b"99",
];

#[inline(always)]
fn pair_before(out: &mut [u8], end: usize, value: u64) -> usize
    requires small { value < 100 }
    requires room { 2 ≤ end }
    requires within { end ≤ length out.old }
    ensures { WritesBefore out.old out.new end result (two_digits value) }
{
    bytes_before(out, end, PAIRS[value as usize])
}

/// Writes a number in decimal.
#[inline(always)]
pub fn number_before(out: &mut [u8], end: usize, value: u64) -> usize
    requires room { length (decimal value) ≤ end }
    requires within { end ≤ length out.old }
    ensures { WritesBefore out.old out.new end result (decimal value) }
{
    let mut left = value;
    let mut at = end;
    'pairs: while left >= 100 {
        at = pair_before(out, at, left % 100);
        left /= 100;
    }
    if left >= 10 {
        pair_before(out, at, left)
    } else {
        byte_before(out, at, b'0' + left as u8)
    }
}

/// Writes the last `count` decimal digits of a number, with leading zeros, and answers the start and
/// the number without them.
#[inline(always)]
pub fn last_digits_before(out: &mut [u8], end: usize, count: usize, value: u64) -> (usize, u64)
    requires room { count ≤ end }
    requires within { end ≤ length out.old }
    ensures digits { WritesBefore out.old out.new end result.0 (last_digits count value) }
    ensures starts { result.0 + count ≡ end }
    ensures rest { result.1 ≡ value / 10 ^ count }
{
    let mut left = value;
    let mut more = count;
    let mut at = end;
    'pairs: while more >= 2 {
        at = pair_before(out, at, left % 100);
        left /= 100;
        more -= 2;
    }
    if more == 1 {
        at = byte_before(out, at, b'0' + (left % 10) as u8);
        left /= 10;
    }
    (at, left)
}

/// The pairs of upper-case hex digits, 00 to FF.
static HEX_PAIRS: [[u8; 2]; 256] = [
    *b"00", *b"01", *b"02", *b"03", *b"04", *b"05", *b"06", *b"07", *b"08", *b"09", *b"0A", *b"0B",
    *b"0C", *b"0D", *b"0E", *b"0F", *b"10", *b"11", *b"12", *b"13", *b"14", *b"15", *b"16", *b"17",
    *b"18", *b"19", *b"1A", *b"1B", *b"1C", *b"1D", *b"1E", *b"1F", *b"20", *b"21", *b"22", *b"23",
    *b"24", *b"25", *b"26", *b"27", *b"28", *b"29", *b"2A", *b"2B", *b"2C", *b"2D", *b"2E", *b"2F",
    *b"30", *b"31", *b"32", *b"33", *b"34", *b"35", *b"36", *b"37", *b"38", *b"39", *b"3A", *b"3B",
    *b"3C", *b"3D", *b"3E", *b"3F", *b"40", *b"41", *b"42", *b"43", *b"44", *b"45", *b"46", *b"47",
    *b"48", *b"49", *b"4A", *b"4B", *b"4C", *b"4D", *b"4E", *b"4F", *b"50", *b"51", *b"52", *b"53",
    *b"54", *b"55", *b"56", *b"57", *b"58", *b"59", *b"5A", *b"5B", *b"5C", *b"5D", *b"5E", *b"5F",
    *b"60", *b"61", *b"62", *b"63", *b"64", *b"65", *b"66", *b"67", *b"68", *b"69", *b"6A", *b"6B",
    *b"6C", *b"6D", *b"6E", *b"6F", *b"70", *b"71", *b"72", *b"73", *b"74", *b"75", *b"76", *b"77",
    *b"78", *b"79", *b"7A", *b"7B", *b"7C", *b"7D", *b"7E", *b"7F", *b"80", *b"81", *b"82", *b"83",
    *b"84", *b"85", *b"86", *b"87", *b"88", *b"89", *b"8A", *b"8B", *b"8C", *b"8D", *b"8E", *b"8F",
    *b"90", *b"91", *b"92", *b"93", *b"94", *b"95", *b"96", *b"97", *b"98", *b"99", *b"9A", *b"9B",
    *b"9C", *b"9D", *b"9E", *b"9F", *b"A0", *b"A1", *b"A2", *b"A3", *b"A4", *b"A5", *b"A6", *b"A7",
    *b"A8", *b"A9", *b"AA", *b"AB", *b"AC", *b"AD", *b"AE", *b"AF", *b"B0", *b"B1", *b"B2", *b"B3",
    *b"B4", *b"B5", *b"B6", *b"B7", *b"B8", *b"B9", *b"BA", *b"BB", *b"BC", *b"BD", *b"BE", *b"BF",
    *b"C0", *b"C1", *b"C2", *b"C3", *b"C4", *b"C5", *b"C6", *b"C7", *b"C8", *b"C9", *b"CA", *b"CB",
    *b"CC", *b"CD", *b"CE", *b"CF", *b"D0", *b"D1", *b"D2", *b"D3", *b"D4", *b"D5", *b"D6", *b"D7",
    *b"D8", *b"D9", *b"DA", *b"DB", *b"DC", *b"DD", *b"DE", *b"DF", *b"E0", *b"E1", *b"E2", *b"E3",
    *b"E4", *b"E5", *b"E6", *b"E7", *b"E8", *b"E9", *b"EA", *b"EB", *b"EC", *b"ED", *b"EE", *b"EF",
    *b"F0", *b"F1", *b"F2", *b"F3", *b"F4", *b"F5", *b"F6", *b"F7", *b"F8", *b"F9", *b"FA", *b"FB",
    *b"FC", *b"FD", *b"FE", *b"FF",
];

#[inline(always)]
fn hex_pair_before(out: &mut [u8], end: usize, byte: u8) -> usize
    requires room { 2 ≤ end }
    requires within { end ≤ length out.old }
    ensures { WritesBefore out.old out.new end result (encode_upper (byte ∷ [])) }
{
    bytes_before(out, end, HEX_PAIRS[usize::from(byte)])
}

/// Writes bytes as pairs of upper-case hex digits.
#[inline(always)]
pub fn hex_before(out: &mut [u8], end: usize, bytes: &[u8]) -> usize
    requires room { 2 * length bytes.now ≤ end }
    requires within { end ≤ length out.old }
    ensures written { WritesBefore out.old out.new end result (encode_upper bytes.now) }
    ensures starts { result + 2 * length bytes.now ≡ end }
{
    let mut at = end;
    let mut left = bytes.len();
    'bytes: while left > 0 {
        left -= 1;
        at = hex_pair_before(out, at, bytes[left]);
    }
    at
}
