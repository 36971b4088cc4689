//! Entries that wait to be written together: most messages have several.
ghost use Rattle.std.specs.Prelude.{◌≡◌, ◌+◌, ◌≤◌, ◌++◌, None, false, true};

use crate::forwards::part_behind;
use crate::head::Head;
use crate::sides::{BEHIND, KnownSides, Missed, SIDE, SideForm, VALUE, unit_in};
use j39_frame::Pgn;
use j39_groups::Value;
use j39_io::{DeviceFault, Sink, put_all};

/// The bytes of a block for entries that wait, or for one that is written by itself.
pub(crate) const BLOCK: usize = 2048;

/// The most bytes of an entry that may wait: what it begins with, both sides, and a value.
const ENTRY: usize = 384;

/// Entries that wait: the bytes of a block up to a place. And a block for a value.
#[derive(Drop)]
pub(crate) struct Waiting {
    pub block: [u8; BLOCK],
    pub at: usize,
    value: [u8; 80],
    /// Of a parameter whose entry couldn't wait.
    missed: Option<Missed>,
    pub ghost inside: { at ≤ 2048 },
}

impl Waiting {
    ghost use Rattle.j39_io.specs.Puts.{Puts};
    ghost use Rattle.j39_io.specs.Turn.{turn};
    ghost use Rattle.j39_frame.specs.Pgn.{pgn_raw};
    ghost use Rattle.j39_groups.specs.Models.{value_of};
    ghost use Rattle.j39_groups.specs.Names.{name_in, state_in};
    ghost use Rattle.j39_reports.specs.EntryObject.{unit_in};
    ghost use Rattle.j39_reports.specs.Forwards.{head_text, waiting_text};

    /// None.
    pub fn new() -> Waiting
        ensures none { result.at ≡ 0 }
    {
        Waiting {
            block: [0; BLOCK],
            at: 0,
            value: [0; 80],
            missed: None,
        }
    }

    /// Writes them. Then none wait, whether they could be written or not.
    #[inline(always)]
    pub fn put<W: Sink>(&mut self, sink: &mut W) -> Result<(), DeviceFault>
        ensures puts { Puts (waiting_text self.old) result (turn W.written W.has_failed sink.old sink.new) }
        ensures none { self.new.at ≡ 0 }
    {
        let at = self.at;
        self.at = 0;
        put_all(sink, &self.block[..at])
    }

    /// Notes a parameter of a group whose entry couldn't wait, where its sides can be learned for values of this unit.
    pub fn miss<F: SideForm>(
        &mut self,
        known: &KnownSides<'_, '_, F>,
        pgn: u32,
        spn: u32,
        unit: &[u8],
    )
        ensures text { waiting_text self.new ≡ waiting_text self.old }
        ensures place { self.new.at ≡ self.old.at }
    {
        if known.can_learn(pgn, spn, unit) {
            self.missed = Missed::of(spn, unit);
        }
    }

    /// Has the sides of what was noted of a group learned.
    #[inline(always)]
    pub fn teach<F: SideForm>(&mut self, known: &mut KnownSides<'_, '_, F>, pgn: Pgn)
        ensures { known.new.groups ≡ known.old.groups }
    {
        if let Some(missed) = &self.missed {
            known.learn(pgn, missed);
            self.missed = None;
        }
    }

    /// Puts the entry of a reading behind them, and answers whether it did: there has to be room, and what it begins with and
    /// its sides have to be here.
    #[inline(always)]
    pub fn push<F: SideForm>(
        &mut self,
        head: &Head,
        known: &KnownSides<'_, '_, F>,
        pgn: Pgn,
        spn: u32,
        value: Value<'_, '_>,
    ) -> bool
        ensures group { result ≡ true → head.now.has_group ≡ true }
        ensures stateless { result ≡ true → state_in known.now.groups.now (pgn_raw pgn) spn (value_of value.entry) ≡ None }
        ensures pushed { result ≡ true → waiting_text self.new ≡ waiting_text self.old ++ (head_text head.now
            ++ (F.before spn (name_in known.now.groups.now (pgn_raw pgn) spn) ++ (F.value_text (value_of value.entry)
            ++ F.behind (unit_in (value_of value.entry))))) }
        ensures kept { result ≡ false → waiting_text self.new ≡ waiting_text self.old }
    {
        if !head.has_group || self.at > BLOCK - ENTRY {
            return false;
        }
        let Some(sides) = known.of(pgn.raw(), spn) else {
            return false;
        };
        let Some(behind) = known.behind_of(sides, unit_in(value)) else {
            return false;
        };
        let Some(bare) = F::write_value(&mut self.value, value) else {
            return false;
        };
        let before = head.put_behind(&mut self.block, self.at);
        let number = part_behind::<SIDE>(
            &mut self.block,
            before,
            &sides.before,
            sides.before_from,
            SIDE,
        );
        let end = part_behind::<VALUE>(&mut self.block, number, &self.value, bare, VALUE);
        self.at = part_behind::<BEHIND>(&mut self.block, end, &behind.text, behind.from, SIDE);
        true
    }
}
