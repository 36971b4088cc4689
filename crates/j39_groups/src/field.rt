//! Where a parameter stands in the payload.
ghost use Rattle.std.specs.Prelude.{◌≡◌, ◌+◌, ◌==◌, ◌&&◌, nat_lt, nat_le};
ghost use Rattle.j39_groups.specs.Fields.{is_sound};

use crate::slot::Slot;

/// Where a parameter stands in the payload. Bytes, bits and parts count from 1.
#[derive(Clone, Copy)]
pub enum Field<'t> {
    /// A number in the bytes `first` to `last`, one to four, low byte first.
    Number {
        first: u8,
        last: u8,
        scale: Slot<'t>,
    },
    /// A number in `count` bits, 1 to 32, from the bit `low` of a byte on, low bit first; it may go on in the next
    /// bytes.
    Bits {
        byte: u8,
        low: u8,
        count: u8,
        scale: Slot<'t>,
    },
    /// A switch in the bits `low` and `high` of a byte, neighbours.
    Switch {
        byte: u8,
        low: u8,
        high: u8,
    },
    /// One of the parts of the payload between the bytes `*`.
    Text {
        part: u8,
    },
    /// At most `count` parts of the bytes from `byte` on, 31 at most.
    Texts {
        byte: u8,
        count: u8,
    },
    /// A number in bits as of `Bits`, each of whose raw numbers is valid, in two's complement or unsigned (own). It stands last since
    /// it is rare: what tells the others apart is as quick as without it.
    Full {
        byte: u8,
        low: u8,
        count: u8,
        is_signed: bool,
        scale: Slot<'t>,
    },
}

impl<'t> Field<'t> {
    /// Whether a row may have the field: it stands where it can, and each of its values fits 64 bits.
    pub fn is_sound(self) -> bool
        ensures { result ≡ is_sound self.entry }
    {
        match self {
            Field::Number { first, last, scale } => {
                are_bytes(first, last) && scale.fits(8 * (last - first + 1))
            }
            Field::Bits {
                byte,
                low,
                count,
                scale,
            } => { are_bits(byte, low, count) && scale.fits(count) }
            Field::Full {
                byte,
                low,
                count,
                scale,
                ..
            } => { are_bits(byte, low, count) && scale.fits(count) }
            Field::Switch { byte, low, high } => is_pair(byte, low, high),
            Field::Text { part } => 0 < part,
            Field::Texts { byte, count } => 0 < byte && count <= 31,
        }
    }
}

fn are_bytes(first: u8, last: u8) -> bool
    ensures { result ≡ nat_lt 0 first && (nat_le first last && nat_lt last (first + 4)) }
{
    0 < first && first <= last && u16::from(last) < u16::from(first) + 4
}

fn are_bits(byte: u8, low: u8, count: u8) -> bool
    ensures { result ≡ nat_lt 0 byte && (nat_lt 0 low && (nat_le low 8 && (nat_lt 0 count && nat_le count 32))) }
{
    0 < byte && 0 < low && low <= 8 && 0 < count && count <= 32
}

fn is_pair(byte: u8, low: u8, high: u8) -> bool
    ensures { result ≡ nat_lt 0 byte && (nat_lt 0 low && (high == low + 1 && nat_le high 8)) }
{
    0 < byte && 0 < low && u16::from(high) == u16::from(low) + 1 && high <= 8
}
