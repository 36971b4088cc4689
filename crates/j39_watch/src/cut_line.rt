//! A line that is cut at a width.
ghost use Rattle.std.specs.Prelude.{◌≡◌, ◌≤◌, ◌-◌, ◌++◌, [], ℕ, List, codes, length, take, true};
ghost use Rattle.j39_io.specs.Backwards.{WritesBefore};
ghost use Rattle.j39_watch.specs.Watch.{column, spaces};

use arrayvec::ArrayVec;
use j39_io::printing::push_bytes;
use j39_io::{DeviceFault, Sink};

/// The widest line.
pub(crate) const WIDEST: usize = 512;

/// How many bytes are kept of one: with the byte behind its width, which tells whether a letter ends before.
const KEPT: usize = WIDEST + 1;

/// As many spaces as the widest column has.
const SPACES: &[u8] = b"                ";

/// Spaces, in which the text of a column is written before `END`: as many stand behind it as the widest column ends in.
pub(crate) type Block = [u8; 80];

/// The spaces of a block.
pub(crate) const BLANK: Block = [b' '; 80];

/// Where the text of a column ends in its block.
pub(crate) const END: usize = 63;

/// A line, of which no byte behind its width is kept.
#[derive(Drop)]
pub(crate) struct CutLine {
    pub width: usize,
    pub bytes: ArrayVec<u8, KEPT>,
    pub is_full: bool,
    is_flushed: bool,
    pub ghost fits: { length bytes.items ≤ width },
    pub ghost narrow: { width ≤ 513 },
    pub ghost full: { is_full ≡ true → length bytes.items ≡ width },
}

impl CutLine {
    /// An empty line of this width, at most 513.
    pub fn new(width: usize) -> CutLine
        requires { width ≤ 513 }
        ensures empty { result.bytes.items ≡ [] }
        ensures width { result.width ≡ width }
    {
        CutLine {
            width,
            bytes: ArrayVec::new(),
            is_full: false,
            is_flushed: true,
        }
    }

    /// Begins anew, with no byte.
    pub fn clear(&mut self)
        ensures empty { self.new.bytes.items ≡ [] }
        ensures width { self.new.width ≡ self.old.width }
    {
        self.bytes.clear();
        self.is_full = false;
    }

    /// What is kept.
    pub fn as_slice(&self) -> &[u8]
        ensures { result.now ≡ self.now.bytes.items }
    {
        self.bytes.as_slice()
    }

    /// Appends a text.
    pub fn push(&mut self, text: &[u8])
        ensures cut { self.new.bytes.items ≡ take self.old.width (self.old.bytes.items ++ text.now) }
        ensures width { self.new.width ≡ self.old.width }
    {
        let n = text.len().min(self.width - self.bytes.len());
        push_bytes(&mut self.bytes, &text[..n]);
    }

    /// How many bytes are kept.
    pub fn len(&self) -> usize
        ensures value { result ≡ length self.now.bytes.items }
        ensures fits { result ≤ self.now.width }
    {
        self.bytes.len()
    }

    /// Ends a column of this width that begins at `start`: appends the spaces that its text leaves, and one more.
    #[tactic(auto, using(crate::proofs::CutLemmas::cut_twice))]
    pub fn end_column(&mut self, start: usize, width: usize)
        requires behind { start ≤ length self.old.bytes.items }
        requires narrow { width ≤ 16 }
        ensures cut { self.new.bytes.items ≡ take self.old.width (self.old.bytes.items
            ++ (spaces (width - (length self.old.bytes.items - start)) ++ codes " ")) }
        ensures width { self.new.width ≡ self.old.width }
    {
        let missing = width.saturating_sub(self.bytes.len() - start);
        self.push(&SPACES[..missing]);
        self.push(b" ");
    }

    /// Appends a column of this width, whose text stands in a block from `start` to `END`: all at once, as it is followed by
    /// its spaces there.
    pub fn push_column(&mut self, width: usize, block: &Block, start: usize)
        requires narrow { width ≤ 16 }
        requires written { (text : List ℕ) × WritesBefore (spaces 80) block.now 63 start text }
        ensures cut { (text : List ℕ) → WritesBefore (spaces 80) block.now 63 start text
            → self.new.bytes.items ≡ take self.old.width (self.old.bytes.items ++ column width text) }
        ensures width { self.new.width ≡ self.old.width }
    {
        let missing = width.saturating_sub(END - start);
        self.push(&block[start..END + 1 + missing]);
    }
}

impl Sink for CutLine {
    ghost use Rattle.std.specs.Prelude.{Some, ◌∷◌};

    // The width stands before what is written: so a call that keeps what was there keeps the width.
    ghost written = { λ line. Some (line.width ∷ line.bytes.items) };

    ghost has_failed = { λ line. line.is_full };

    ghost is_flushed = { λ line. line.is_flushed };

    fn put(&mut self, bytes: &[u8]) -> Result<usize, DeviceFault> {
        let n = bytes.len().min(self.width - self.bytes.len());
        if n == 0 && !bytes.is_empty() {
            self.is_full = true;
            return Err(DeviceFault);
        }
        push_bytes(&mut self.bytes, &bytes[..n]);
        self.is_flushed = false;
        Ok(n)
    }

    fn flush(&mut self) -> Result<(), DeviceFault> {
        self.is_flushed = true;
        Ok(())
    }
}
