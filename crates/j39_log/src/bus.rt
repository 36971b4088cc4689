//! Names of buses.
ghost use Rattle.std.specs.Prelude.{◌≡◌, ◌≤◌, ◌↔◌, IsSome, IfSome, IsTrue, length};
ghost use Rattle.std.specs.Str.{bytes_eq};
ghost use Rattle.j39_log.specs.Bus.{IsBusName, IsBetween, third_of};

use crate::fast::Form;
use arrayvec::ArrayVec;
use j39_io::backwards::{bytes_before, slice_before};
use std::marker::Model;

/// As far above what stands there, as a byte may be that must stand there.
const FIXED: [u8; 14] = [0; 14];

/// The name of an interface, as `can0`: 1 to 15 bytes, each above 0x20 and not 0x7F (own).
#[derive(Debug, Drop)]
pub struct Bus {
    name: ArrayVec<u8, 15>,
    /// What stands from the fifth decimal of a stamp on, for the quick reader.
    pub(crate) between: Form,
    /// Where the identifier then stands: behind every line, where a block is too short for the name.
    pub(crate) third_at: usize,
}

impl Model for Bus {
    ghost use Rattle.std.specs.Prelude.{ℕ, List};
    ghost use Rattle.std.specs.Prelude.{◌≡◌};
    ghost use Rattle.j39_log.specs.Bus.{IsBusName, IsBetween, third_of};

    ghost Value = { List ℕ };

    ghost view = { λ b. b.name.items };

    ghost invariant = { λ b. IsBusName b.name.items × IsBetween b.name.items b.between
        × (b.third_at ≡ third_of b.name.items) };
}

impl Bus {
    /// The bus of this name; `None` for bytes that name none.
    pub fn new(bytes: &[u8]) -> Option<Bus>
        ensures known { IsSome result ↔ IsBusName bytes.now }
        ensures value { IfSome result (λ bus. bus ≡ bytes.now) }
    {
        if !is_bus_name(bytes) {
            return None;
        }
        let mut name = ArrayVec::new();
        name.try_extend_from_slice(bytes).ok()?;
        let between = between_of(bytes);
        let third_at = third_of(bytes);
        Some(Bus {
            name,
            between,
            third_at,
        })
    }

    /// The name's 1 to 15 bytes.
    pub fn bytes(&self) -> &[u8]
        ensures value { result.now ≡ self.now }
        ensures is_name { IsBusName self.now }
    {
        self.name.as_slice()
    }

    /// Whether it has this name.
    #[inline(always)]
    pub fn is_named(&self, name: &[u8]) -> bool
        ensures { result ≡ bytes_eq name.now self.now }
    {
        name == self.bytes()
    }
}

/// Two digits, `)`, a space, the name and a space, and whatever follows; of a name above 11 bytes its front.
fn between_of(name: &[u8]) -> Form
    requires { length name.now ≤ 15 }
    ensures { IsBetween name.now result }
{
    let (front, _) = name.split_at(name.len().min(11));
    let mut least = [b' '; 16];
    let text = slice_before(&mut least, 4 + front.len(), front);
    let _ = bytes_before(&mut least, text, *b"00) ");
    let (fixed, _) = FIXED.split_at(3 + front.len());
    let mut above = [255; 16];
    let text = slice_before(&mut above, 5 + front.len(), fixed);
    let _ = bytes_before(&mut above, text, [9, 9]);
    Form { least, above }
}

/// Where the identifier stands in a line with six decimals, and more than any line has where a block is too short for the name.
fn third_of(name: &[u8]) -> usize
    requires { length name.now ≤ 15 }
    ensures { result ≡ third_of name.now }
{
    if name.len() <= 11 {
        name.len() + 21
    } else {
        usize::MAX
    }
}

/// Whether the bytes can name a bus.
pub(crate) fn is_bus_name(bytes: &[u8]) -> bool
    ensures { IsTrue result ↔ IsBusName bytes.now }
{
    !bytes.is_empty() && bytes.len() <= 15 && bytes.iter().all(|&b| b > 0x20 && b != 0x7F)
}
