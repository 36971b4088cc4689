//! The interfaces of the frames so far.
ghost use Rattle.std.specs.Prelude.{◌≡◌, ◌<◌, ◌∷◌, ◌++◌, ◌==◌, [], ℕ, List, Option, Some, length, map, nat_lt, if◌then◌else◌};
ghost use Rattle.std.specs.List.{list_any, position};
ghost use Rattle.std.specs.Str.{bytes_eq};
ghost use Rattle.j39_frame.specs.Stamp.{stamp_micros};
ghost use Rattle.j39_log.specs.Bus.{IsBusName};
ghost use Rattle.j39_listen.specs.Counting.{one_if};
ghost use Rattle.j39_survey.specs.LogLines.{Seen};
ghost use Rattle.j39_survey.specs.SurveyModels.{interface_record};
ghost use Rattle.j39_survey.specs.SurveySoFar.{met_on, no_frames, with_stamp};

use arrayvec::ArrayVec;
use j39_frame::Stamp;

/// The most bytes of an interface's name.
const NAME: usize = 15;

/// The most interfaces that are told.
const MOST: usize = 16;

/// An interface: its frames so far, and their stamps.
#[derive(Drop)]
pub(crate) struct InterfaceCounts {
    pub name: ArrayVec<u8, NAME>,
    pub frames: u64,
    pub first: Stamp,
    pub last: Stamp,
    /// How many stamps were below the one before.
    pub back: u64,
}

impl Default for InterfaceCounts {
    fn default() -> InterfaceCounts {
        named(b"")
    }
}

impl InterfaceCounts {
    /// One frame more.
    #[inline(always)]
    fn add(&mut self, stamp: Stamp)
        ensures { interface_record self.new ≡ with_stamp (stamp_micros stamp) (interface_record self.old) }
    {
        self.first = first_of(self.frames, self.first, stamp);
        self.back = self.back.saturating_add(falls(self.last, stamp));
        self.frames = self.frames.saturating_add(1);
        self.last = stamp;
    }

    /// One frame more where this is its name, and whether it is.
    #[inline(always)]
    fn add_where(&mut self, name: &[u8], stamp: Stamp) -> bool
        ensures found { result ≡ bytes_eq name.now (interface_record self.old).name }
        ensures met { interface_record self.new ≡ met_on name.now (stamp_micros stamp) (interface_record self.old) }
    {
        if name == self.name.as_slice() {
            self.add(stamp);
            true
        } else {
            false
        }
    }
}

/// The first stamp, with one more.
fn first_of(frames: u64, first: Stamp, stamp: Stamp) -> Stamp
    ensures { stamp_micros result ≡ (if frames == 0 then stamp_micros stamp else stamp_micros first) }
{
    if frames == 0 { stamp } else { first }
}

/// 1 where a stamp is below the one before, else 0.
fn falls(last: Stamp, stamp: Stamp) -> u64
    ensures { result ≡ one_if (nat_lt (stamp_micros stamp) (stamp_micros last)) }
{
    if stamp.micros() < last.micros() { 1 } else { 0 }
}

/// The first sixteen interfaces, and the frames of the others.
#[derive(Drop)]
pub(crate) struct Interfaces {
    pub told: ArrayVec<InterfaceCounts, MOST>,
    pub untold: u64,
    /// Where the interface is told whose groups are counted; behind all where that isn't known.
    pub place: usize,
}

impl Interfaces {
    ghost use Rattle.j39_survey.specs.SurveyModels.{HaveMet, IsPlaced};

    /// Of no frames.
    pub fn new() -> Interfaces
        ensures met { HaveMet result [] }
        ensures placed { (bus : Option (List ℕ)) → IsPlaced result bus }
    {
        Interfaces {
            told: ArrayVec::new(),
            untold: 0,
            place: MOST,
        }
    }

    /// One frame more, of the interface of this name, whose groups are counted: no name is compared where its place is known.
    #[inline(always)]
    pub fn add_known(&mut self, name: &[u8], stamp: Stamp)
        ensures met { (seen : List Seen) (s : Seen) → IsBusName name.now → s.bus ≡ name.now
            → s.content.stamp ≡ stamp_micros stamp → IsPlaced self.old (Some name.now) → HaveMet self.old seen
            → HaveMet self.new (seen ++ s ∷ []) }
        ensures placed { IsPlaced self.old (Some name.now) → IsPlaced self.new (Some name.now) }
    {
        if self.place < self.told.len() {
            self.told.as_mut_slice()[self.place].add(stamp);
        } else {
            self.place_and_add(name, stamp);
        }
    }

    /// The same, where its place isn't known; afterwards it is, if it is told.
    #[inline(never)]
    fn place_and_add(&mut self, name: &[u8], stamp: Stamp)
        ensures met { (seen : List Seen) (s : Seen) → IsBusName name.now → s.bus ≡ name.now
            → s.content.stamp ≡ stamp_micros stamp → HaveMet self.old seen → HaveMet self.new (seen ++ s ∷ []) }
        ensures placed { IsPlaced self.new (Some name.now) }
    {
        self.add(name, stamp);
        self.place = place_of(self.told.as_slice(), name).unwrap_or(MOST);
    }

    /// One frame more, seen on the interface of this name.
    #[inline(always)]
    pub fn add(&mut self, name: &[u8], stamp: Stamp)
        ensures met { (seen : List Seen) (s : Seen) → IsBusName name.now → s.bus ≡ name.now
            → s.content.stamp ≡ stamp_micros stamp → HaveMet self.old seen → HaveMet self.new (seen ++ s ∷ []) }
        ensures placed { (bus : Option (List ℕ)) → IsPlaced self.new bus }
    {
        self.place = MOST;
        if meet(self.told.as_mut_slice(), name, stamp) {
            return;
        }
        if self.told.is_full() {
            self.untold = self.untold.saturating_add(1);
        } else {
            let mut interface = named(name);
            interface.add(stamp);
            self.told.push(interface);
        }
    }
}

/// The interface of this name, with no frames.
fn named(name: &[u8]) -> InterfaceCounts
    ensures { IsBusName name.now → interface_record result ≡ no_frames name.now }
{
    let mut kept = ArrayVec::new();
    let _fits = kept.try_extend_from_slice(name);
    let start = Stamp::new(0).unwrap();
    InterfaceCounts {
        name: kept,
        frames: 0,
        first: start,
        last: start,
        back: 0,
    }
}

/// Where the interface of this name is told.
fn place_of(told: &[InterfaceCounts], name: &[u8]) -> Option<usize>
    ensures { result ≡ position (λ i. bytes_eq i.name.items name.now) told.now }
{
    told.iter().position(|i| i.name.as_slice() == name)
}

/// Adds a frame where one of these has this name, and says whether one has.
#[inline(always)]
fn meet(told: &mut [InterfaceCounts], name: &[u8], stamp: Stamp) -> bool
    ensures found { result ≡ list_any (λ i. bytes_eq name.now i.name) (map interface_record told.old) }
    ensures met { map interface_record told.new
        ≡ map (met_on name.now (stamp_micros stamp)) (map interface_record told.old) }
{
    let mut is_told = false;
    for interface in told.iter_mut() {
        is_told |= interface.add_where(name, stamp);
    }
    is_told
}
