//! What each entry of a message begins with.
ghost use Rattle.std.specs.Prelude.{◌≡◌, ◌+◌, ◌≤◌, false, length};

use crate::forwards::part_behind;

/// Where it ends in its block.
pub(crate) const HEAD: usize = 192;

/// Half of that: a block of more than 128 bytes would be copied by a call.
const HALF: usize = 96;

/// What each entry of a message begins with: the bytes of a block from a place up to its middle. The other half is for the
/// copies, which go on behind it.
#[derive(Drop)]
pub(crate) struct Head {
    pub block: [u8; 384],
    pub from: usize,
    /// Whether the group stands there too.
    pub has_group: bool,
    pub ghost inside: { from ≤ 192 },
}

impl Head {
    ghost use Rattle.j39_reports.specs.Forwards.{WritesBehind, head_text};

    /// With nothing.
    pub fn new() -> Head
        ensures empty { result.from ≡ 192 }
        ensures without_group { result.has_group ≡ false }
    {
        Head {
            block: [0; 384],
            from: HEAD,
            has_group: false,
        }
    }

    /// The bytes.
    pub fn bytes(&self) -> &[u8]
        ensures { result.now ≡ head_text self.now }
    {
        &self.block[self.from..HEAD]
    }

    /// Writes the bytes, in two halves where they are more than one.
    #[inline(always)]
    pub fn put_behind(&self, out: &mut [u8], at: usize) -> usize
        requires { at + 192 ≤ length out.old }
        ensures written { WritesBehind out.old out.new at result (head_text self.now) }
        ensures short { result ≤ at + 192 }
    {
        if self.from >= HALF {
            return part_behind::<HALF>(out, at, &self.block, self.from, HEAD);
        }
        let middle = part_behind::<HALF>(out, at, &self.block, self.from, self.from + HALF);
        part_behind::<HALF>(out, middle, &self.block, self.from + HALF, HEAD)
    }
}
