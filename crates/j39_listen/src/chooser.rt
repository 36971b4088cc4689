//! A filter that chooses among what is heard.
ghost use Rattle.std.specs.Prelude.{◌≡◌, ◌++◌, ◌∷◌, [], List, true};
ghost use Rattle.std.specs.Option.{option_map};
ghost use Rattle.j39_address.specs.Name.{name_raw};
ghost use Rattle.j39_frame.specs.Frame.{FrameRecord};
ghost use Rattle.j39_frame.specs.Stamp.{stamp_micros};
ghost use Rattle.j39_listen.specs.Chooses.{Chooses, which_of};
ghost use Rattle.j39_listen.specs.Filter.{FilterRecord, asks_for, first_stamp, is_in_time, takes_message};
ghost use Rattle.j39_listen.specs.HeardModel.{hearing_of};

use crate::Heard;
use crate::filter::{Filter, first_asked, last_asked};
use j39_address::Name;
use j39_frame::{Frame, Stamp};

/// A filter, and the stamps that it asks for: they may lie behind that of the first frame, so that they are known from there on.
#[derive(Clone, Copy, Debug)]
pub struct Chooser<'f> {
    filter: Filter<'f>,
    has_lists: bool,
    is_begun: bool,
    since: u64,
    until: u64,
}

impl<'f> Chooser<'f> {
    /// Before the first frame. Where no filter is given, all is taken.
    pub fn new(filter: Option<Filter<'f>>) -> Chooser<'f>
        ensures { Chooses (which_of filter.entry) result [] }
    {
        let filter = filter.unwrap_or(Filter::ALL);
        let zero = Stamp::new(0).unwrap();
        Chooser {
            filter,
            has_lists: filter.has_lists(),
            is_begun: false,
            since: first_asked(filter.since, zero),
            until: last_asked(filter.until, zero),
        }
    }

    /// Whether it was told of the first frame: from there on no frame changes it.
    #[inline(always)]
    pub fn is_begun(&self) -> bool
        ensures { result ≡ true → (which : FilterRecord) (F : List FrameRecord) (frame : FrameRecord) → Chooses which self.now F
            → Chooses which self.now (F ++ frame ∷ []) }
    {
        self.is_begun
    }

    /// Notes a frame of the bus.
    #[inline(always)]
    pub fn note(&mut self, frame: &Frame)
        ensures { (which : FilterRecord) (F : List FrameRecord) → Chooses which self.old F
            → Chooses which self.new (F ++ frame.now ∷ []) }
    {
        if !self.is_begun {
            self.begin(frame.stamp);
        }
    }

    /// The first frame has this stamp.
    #[cold]
    #[inline(never)]
    fn begin(&mut self, first: Stamp)
        ensures { (which : FilterRecord) (f : FrameRecord) → f.stamp ≡ stamp_micros first → Chooses which self.old []
            → Chooses which self.new (f ∷ []) }
    {
        self.is_begun = true;
        self.since = first_asked(self.filter.since, first);
        self.until = last_asked(self.filter.until, first);
    }

    /// Whether a message is taken.
    #[inline(always)]
    pub fn takes(&self, heard: &Heard<'_>) -> bool
        ensures { (which : FilterRecord) (F : List FrameRecord) → Chooses which self.now F
            → result ≡ takes_message which (first_stamp F) (hearing_of heard.now) }
    {
        self.asks_for(
            heard.message.stamp,
            heard.message.source,
            heard.name,
            heard.destination,
            heard.message.pgn.raw(),
        )
    }

    /// Whether what was sent so is taken.
    #[inline(always)]
    pub fn asks_for(
        &self,
        stamp: Stamp,
        address: u8,
        name: Option<Name>,
        destination: Option<u8>,
        pgn: u32,
    ) -> bool
        ensures { (which : FilterRecord) (F : List FrameRecord) → Chooses which self.now F
            → result ≡ asks_for which (first_stamp F) (stamp_micros stamp) address (option_map name_raw name) destination pgn }
    {
        let is_in_time = self.is_in_time(stamp);
        is_in_time && (!self.has_lists || self.filter.is_listed(address, name, destination, pgn))
    }

    /// Whether both moments take the stamp.
    #[inline(always)]
    pub fn is_in_time(&self, stamp: Stamp) -> bool
        ensures { (which : FilterRecord) (F : List FrameRecord) → Chooses which self.now F
            → result ≡ is_in_time which (first_stamp F) (stamp_micros stamp) }
    {
        self.since <= stamp.micros() && stamp.micros() <= self.until
    }
}
