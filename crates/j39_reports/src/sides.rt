//! What stands on both sides of the values of a parameter, and what is said of a group, remembered: most values are of a few
//! parameters.
ghost use Rattle.std.specs.Prelude.{◌≡◌, ◌<◌, ◌≤◌, ℕ, List, None, Option, IfSome, Some, drop, false, length, option_map, slice_index_or, true};
ghost use Rattle.std.proofs.Props.{props};
ghost use Rattle.j39_io.specs.Backwards.{WritesBefore};
ghost use Rattle.j39_groups.specs.Models.{value_of};
ghost use Rattle.j39_groups.specs.Value.{ValueRecord};
ghost use Rattle.j39_reports.specs.EntryObject.{unit_in};
ghost use Rattle.j39_reports.specs.SidesSoFar.{AreKnown, AreKnownGroups, IsBehind, Suits, SuitsGroup, is_open_to};

use j39_frame::Pgn;
use j39_groups::{Groups, Value};
use j39_io::backwards::slice_before;
use std::marker::PhantomData;

/// Where a side ends in its block, which is as long again as copies of it are.
pub(crate) const SIDE: usize = 96;

/// The most bytes of what stands behind a value.
pub(crate) const BEHIND: usize = 48;

/// The bytes of these blocks.
const BEFORE_BLOCK: usize = 2 * SIDE;

const BEHIND_BLOCK: usize = SIDE + BEHIND;

/// The most bytes of a value, and where it ends in its block.
pub(crate) const VALUE: usize = 40;

/// The most bytes of a unit that sides are remembered for.
const UNIT: usize = 16;

/// How many parameters are remembered.
const PLACES: usize = 256;

/// How many groups.
const GROUPS: usize = 64;

/// What a form has on both sides of a value.
pub(crate) trait SideForm {
    // Before it, behind what each entry of a message begins with: of a parameter (SPN) and what it is called.
    ghost before: { ℕ → Option (List ℕ) → List ℕ };

    // The value itself.
    ghost value_text: { ValueRecord → List ℕ };

    // Behind it, of its unit if it has one, where its state has no name.
    ghost behind: { Option (List ℕ) → List ℕ };

    // Of a group (PGN) and what it is called.
    ghost of_group: { ℕ → Option (List ℕ) → List ℕ };

    /// Writes what stands before a value up to the place 96. `None`, and nothing of use is written, where that is long, or the
    /// name doesn't stand as it is.
    fn write_before(out: &mut [u8], spn: u32, name: &[u8]) -> Option<usize>
        requires { 96 ≤ length out.old }
        ensures written { IfSome result (λ start. WritesBefore out.old out.new 96 start (before spn (Some name.now))) }
        ensures within { IfSome result (λ start. start ≤ 96) };

    /// Writes a value up to the place 40. `None`, and nothing of use is written, for a text of the sender's, and a number with
    /// more than fifteen places.
    fn write_value(out: &mut [u8; 80], value: Value<'_, '_>) -> Option<usize>
        ensures written { IfSome result (λ start. WritesBefore out.old out.new 40 start (value_text (value_of value.entry))) }
        ensures within { IfSome result (λ start. start ≤ 40) };

    /// Writes what stands behind a value, and answers as `write_before`.
    fn write_behind(out: &mut [u8], unit: Option<&[u8]>) -> Option<usize>
        requires { 96 ≤ length out.old }
        ensures written { IfSome result (λ start. WritesBefore out.old out.new 96 start
            (behind (option_map (λ text. text.now) unit.entry))) }
        ensures within { IfSome result (λ start. start ≤ 96) };

    /// Writes what is said of a group, and answers as `write_before`.
    fn write_group(out: &mut [u8], pgn: u32, name: Option<&[u8]>) -> Option<usize>
        requires { 96 ≤ length out.old }
        ensures written { IfSome result (λ start. WritesBefore out.old out.new 96 start
            (of_group pgn (option_map (λ text. text.now) name.entry))) }
        ensures within { IfSome result (λ start. start ≤ 96) };
}

/// What is said of a group: the bytes of a block from a place on.
#[derive(Clone, Copy)]
pub(crate) struct GroupSide {
    pgn: u32,
    /// Whether it is here, and leaves room for what stands before it.
    is_ready: bool,
    pub text: [u8; SIDE],
    pub from: usize,
}

/// The least place that leaves such room.
const GROUP_FROM: usize = 48;

impl GroupSide {
    /// That of a group that has it not.
    fn none(pgn: u32) -> GroupSide
        ensures { result.is_ready ≡ false }
    {
        GroupSide {
            pgn,
            is_ready: false,
            text: [0; SIDE],
            from: SIDE,
        }
    }

    /// That of a group; `None` where it is long, or the name doesn't stand as it is.
    fn of<F: SideForm>(groups: &Groups<'_>, pgn: Pgn) -> Option<GroupSide>
        ensures { IfSome result (λ side. SuitsGroup F.of_group groups.now side) }
    {
        let name = groups.group_name(pgn);
        let mut text = [0; SIDE];
        let from = F::write_group(&mut text, pgn.raw(), name)?;
        if from < GROUP_FROM {
            return None;
        }
        Some(GroupSide {
            pgn: pgn.raw(),
            is_ready: true,
            text,
            from,
        })
    }

    /// The same, or none.
    fn of_or_none<F: SideForm>(groups: &Groups<'_>, pgn: Pgn) -> GroupSide
        ensures { result.is_ready ≡ true → SuitsGroup F.of_group groups.now result }
    {
        match GroupSide::of::<F>(groups, pgn) {
            Some(side) => side,
            None => GroupSide::none(pgn.raw()),
        }
    }
}

/// What stands behind a value: the bytes of a block from a place up to its 96th.
#[derive(Clone, Copy)]
pub(crate) struct Behind {
    pub text: [u8; BEHIND_BLOCK],
    pub from: usize,
}

impl Behind {
    /// With nothing.
    const NONE: Behind = Behind {
        text: [0; BEHIND_BLOCK],
        from: SIDE,
    };

    /// That of a unit, or of none; `None` where it is long, or doesn't stand as it is.
    fn of<F: SideForm>(unit: Option<&[u8]>) -> Option<Behind>
        ensures { IfSome result (λ behind. IsBehind F.behind (option_map (λ text. text.now) unit.entry) behind) }
    {
        let mut text = [0; BEHIND_BLOCK];
        let from = F::write_behind(&mut text, unit)?;
        if from < SIDE - BEHIND {
            return None;
        }
        Some(Behind { text, from })
    }
}

/// What stands on both sides of the values of a parameter of a group: the bytes of blocks from a place up to the 96th.
#[derive(Clone, Copy)]
pub(crate) struct Sides {
    pgn: u32,
    spn: u32,
    /// Whether it is here.
    is_ready: bool,
    pub before: [u8; BEFORE_BLOCK],
    pub before_from: usize,
    /// The unit that the second is of.
    unit: [u8; UNIT],
    unit_from: usize,
    behind: Behind,
}

impl Sides {
    /// Those of a parameter that has them not.
    fn none(pgn: u32, spn: u32) -> Sides
        ensures { result.is_ready ≡ false }
    {
        Sides {
            pgn,
            spn,
            is_ready: false,
            before: [0; BEFORE_BLOCK],
            before_from: SIDE,
            unit: [0; UNIT],
            unit_from: UNIT,
            behind: Behind::NONE,
        }
    }

    /// Whether what stands on the sides of a parameter of a group can be learned here: this place is free, or has them for
    /// another unit.
    fn is_open_to(&self, pgn: u32, spn: u32, unit: &[u8]) -> bool
        ensures { result ≡ is_open_to self.now pgn spn unit.now }
    {
        if self.is_ready && self.spn == spn && self.pgn == pgn {
            self.unit_from > UNIT || &self.unit[self.unit_from..] != unit
        } else {
            self.pgn == u32::MAX
        }
    }

    /// Those of a parameter of a group, for values of this unit; `None` where they are long, or don't stand as they are, or the
    /// parameter's row names states.
    fn of<F: SideForm>(groups: &Groups<'_>, pgn: u32, spn: u32, unit: &[u8]) -> Option<Sides>
        ensures { IfSome result (λ sides. Suits F.before F.behind groups.now sides) }
    {
        if unit.len() > UNIT {
            return None;
        }
        let name = groups.name_alone_in(pgn, spn)?;
        let mut before = [0; BEFORE_BLOCK];
        let before_from = F::write_before(&mut before, spn, name)?;
        let behind = Behind::of::<F>(Some(unit))?;
        let mut own_unit = [0; UNIT];
        let unit_from = slice_before(&mut own_unit, UNIT, unit);
        Some(Sides {
            pgn,
            spn,
            is_ready: true,
            before,
            before_from,
            unit: own_unit,
            unit_from,
            behind,
        })
    }

    /// The same, or none.
    fn of_or_none<F: SideForm>(groups: &Groups<'_>, pgn: u32, spn: u32, unit: &[u8]) -> Sides
        ensures { result.is_ready ≡ true → Suits F.before F.behind groups.now result }
    {
        match Sides::of::<F>(groups, pgn, spn, unit) {
            Some(sides) => sides,
            None => Sides::none(pgn, spn),
        }
    }
}

/// A parameter whose sides can be learned, and the unit of its value.
#[derive(Clone, Copy)]
pub(crate) struct Missed {
    spn: u32,
    unit: [u8; UNIT],
    from: usize,
    ghost inside: { from ≤ 16 },
}

impl Missed {
    /// `None` where the unit is long: it has no sides.
    pub fn of(spn: u32, unit: &[u8]) -> Option<Missed>
        ensures { IfSome result (λ missed. (missed.spn ≡ spn) × (drop missed.from missed.unit ≡ unit.now)) }
    {
        if unit.len() > UNIT {
            return None;
        }
        let mut own_unit = [0; UNIT];
        let from = slice_before(&mut own_unit, UNIT, unit);
        Some(Missed {
            spn,
            unit: own_unit,
            from,
        })
    }
}

/// A table, the sides of the parameters that came first, and what is said of the groups that came last.
#[derive(Drop)]
pub(crate) struct KnownSides<'g, 't, F: SideForm> {
    pub groups: &'g Groups<'t>,
    known: [Sides; PLACES],
    /// What stands behind a value without a unit.
    unitless: Option<Behind>,
    called: [GroupSide; GROUPS],
    form: PhantomData<F>,
    ghost sound: { AreKnown F.before F.behind groups.now known } by { Prim.hlevel props },
    ghost unitless_sound: { IfSome unitless (IsBehind F.behind None) } by { Prim.hlevel props },
    ghost groups_sound: { AreKnownGroups F.of_group groups.now called } by { Prim.hlevel props },
}

impl<'g, 't, F: SideForm> KnownSides<'g, 't, F> {
    /// With nothing remembered.
    pub fn new(groups: &'g Groups<'t>) -> KnownSides<'g, 't, F>
        ensures { result.groups ≡ groups.entry }
    {
        KnownSides {
            groups,
            known: [Sides::none(u32::MAX, 0); PLACES],
            unitless: Behind::of::<F>(None),
            called: [GroupSide::none(u32::MAX); GROUPS],
            form: PhantomData,
        }
    }

    /// What is said of a group, where it is remembered.
    #[inline(always)]
    pub fn of_group(&self, pgn: u32) -> Option<&GroupSide>
        ensures suits { IfSome result (λ side. SuitsGroup F.of_group self.now.groups.now side.now) }
        ensures pgn { IfSome result (λ side. side.now.pgn ≡ pgn) }
    {
        group_at(&self.called, pgn)
    }

    /// Remembers what is said of a group.
    #[inline(always)]
    pub fn meet_group(&mut self, pgn: Pgn)
        ensures { self.new.groups ≡ self.old.groups }
    {
        let place = group_place(pgn.raw());
        if self.called[place].pgn != pgn.raw() {
            self.remember_group(place, pgn);
        }
    }

    #[inline(never)]
    fn remember_group(&mut self, place: usize, pgn: Pgn)
        requires { place < 64 }
        ensures { self.new.groups ≡ self.old.groups }
    {
        self.called[place] = GroupSide::of_or_none::<F>(self.groups, pgn);
    }

    /// The sides of a parameter of a group, where they are remembered.
    #[inline(always)]
    pub fn of(&self, pgn: u32, spn: u32) -> Option<&Sides>
        ensures suits { IfSome result (λ sides. Suits F.before F.behind self.now.groups.now sides.now) }
        ensures pgn { IfSome result (λ sides. sides.now.pgn ≡ pgn) }
        ensures spn { IfSome result (λ sides. sides.now.spn ≡ spn) }
    {
        sides_at(&self.known, pgn, spn)
    }

    /// What stands behind a value of this unit, if it has one: what these sides have where they are of this unit.
    #[inline(always)]
    pub fn behind_of<'s>(&'s self, sides: &'s Sides, unit: Option<&[u8]>) -> Option<&'s Behind>
        requires { Suits F.before F.behind self.now.groups.now sides.now }
        ensures { IfSome result (λ behind. IsBehind F.behind (option_map (λ text. text.now) unit.entry) behind.now) }
    {
        match unit {
            None => self.unitless.as_ref(),
            Some(unit) => {
                if unit == &sides.unit[sides.unit_from..] {
                    Some(&sides.behind)
                } else {
                    None
                }
            }
        }
    }

    /// Whether the sides of a parameter of a group can be learned: not where another holds its place, or it has none, or they are
    /// of this unit.
    pub fn can_learn(&self, pgn: u32, spn: u32, unit: &[u8]) -> bool
        ensures { (place : ℕ) × (place < 256) × ((d : Sides)
            → result ≡ is_open_to (slice_index_or self.now.known place d) pgn spn unit.now) }
    {
        let held = self.known[place_of(pgn, spn)];
        held.is_open_to(pgn, spn, unit)
    }

    /// Learns what was missed in a group.
    #[inline(never)]
    pub fn learn(&mut self, pgn: Pgn, missed: &Missed)
        ensures { self.new.groups ≡ self.old.groups }
    {
        let pgn = pgn.raw();
        let spn = missed.spn;
        self.known[place_of(pgn, spn)] = Sides::of_or_none::<F>(
            self.groups,
            pgn,
            spn,
            &missed.unit[missed.from..],
        );
    }
}

/// What is said of a group, of those that are here.
#[inline(always)]
fn group_at(called: &[GroupSide; GROUPS], pgn: u32) -> Option<&GroupSide>
    ensures among { IfSome result (λ side. (place : ℕ) × (place < 64) × (slice_index_or called.now place side.now ≡ side.now)) }
    ensures ready { IfSome result (λ side. side.now.is_ready ≡ true) }
    ensures pgn { IfSome result (λ side. side.now.pgn ≡ pgn) }
{
    let side = &called[group_place(pgn)];
    if side.is_ready && side.pgn == pgn {
        Some(side)
    } else {
        None
    }
}

/// Where a group is remembered.
#[inline(always)]
fn group_place(pgn: u32) -> usize
    ensures { result < 64 }
{
    (pgn.wrapping_mul(0x9E37_79B1) >> 26) as usize
}

/// The sides of a parameter of a group, of those that are here.
#[inline(always)]
fn sides_at(known: &[Sides; PLACES], pgn: u32, spn: u32) -> Option<&Sides>
    ensures among { IfSome result (λ sides. (place : ℕ) × (place < 256) × (slice_index_or known.now place sides.now ≡ sides.now)) }
    ensures ready { IfSome result (λ sides. sides.now.is_ready ≡ true) }
    ensures pgn { IfSome result (λ sides. sides.now.pgn ≡ pgn) }
    ensures spn { IfSome result (λ sides. sides.now.spn ≡ spn) }
{
    let sides = &known[place_of(pgn, spn)];
    if sides.is_ready && sides.spn == spn && sides.pgn == pgn {
        Some(sides)
    } else {
        None
    }
}

/// Where a parameter of a group is remembered.
#[inline(always)]
fn place_of(pgn: u32, spn: u32) -> usize
    ensures { result < 256 }
{
    ((spn ^ pgn).wrapping_mul(0x9E37_79B1) >> 24) as usize
}

/// The unit of a number.
#[tactic(auto, unfolding(crate::specs::EntryObject::unit_in))]
pub(crate) fn unit_in<'t>(value: Value<'t, '_>) -> Option<&'t [u8]>
    ensures { option_map (λ unit. unit.now) result ≡ unit_in (value_of value.entry) }
{
    match value {
        Value::Number(_, scale) => Some(scale.unit()),
        Value::On => None,
        Value::Off => None,
        Value::Error => None,
        Value::Reserved => None,
        Value::Indicator => None,
        Value::Text(_) => None,
    }
}
