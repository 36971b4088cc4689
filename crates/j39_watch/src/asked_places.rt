//! The faults that are asked for, by their places.
ghost use Rattle.std.specs.Prelude.{◌≡◌, ◌<◌, [], ℕ, List, if◌then◌else◌, option_map};
ghost use Rattle.j39_fault_reports.specs.CurrentPlaces.{at};
ghost use Rattle.j39_fault_reports.specs.CurrentSoFar.{told_shown};
ghost use Rattle.j39_fault_reports.specs.FaultsNow.{now_taken};
ghost use Rattle.j39_frame.specs.Frame.{FrameRecord};
ghost use Rattle.j39_listen.specs.Chooses.{Chooses};
ghost use Rattle.j39_listen.specs.Filter.{FilterRecord, first_stamp};

use j39_fault_reports::{LastActive, LastActives, SOURCES};
use j39_listen::Chooser;
use std::marker::Model;

/// What the last message of each address says, where it is asked for.
#[derive(Drop)]
pub(crate) struct AskedPlaces<'p> {
    places: &'p LastActives,
    are_asked: [bool; SOURCES],
}

impl<'p> Model for AskedPlaces<'p> {
    ghost use Rattle.j39_fault_reports.specs.CurrentPlaces.{LastActives};
    ghost use Rattle.j39_watch.specs.ScreenSoFar.{kept_where};

    ghost Value = { LastActives };

    ghost view = { λ t. kept_where t.are_asked t.places.now };
}

impl<'p> AskedPlaces<'p> {
    /// Those that this chooser takes.
    pub fn new(chooser: &Chooser<'_>, places: &'p LastActives) -> AskedPlaces<'p>
        ensures { (which : FilterRecord) (F : List FrameRecord) → Chooses which chooser.now F → (a : ℕ) → a < 256
            → told_shown a (at result a) ≡ now_taken which (first_stamp F) (told_shown a (at places.entry.now a)) }
    {
        let mut are_asked = [false; SOURCES];
        for address in 0..SOURCES {
            are_asked[address] = is_asked(chooser, places, address);
        }
        AskedPlaces { places, are_asked }
    }

    /// What the last message of an address says, if it is asked for.
    pub fn get(&self, address: usize) -> Option<&LastActive>
        requires { address < 256 }
        ensures { option_map (λ last. last.now) result ≡ at self.now address }
    {
        if self.are_asked[address] {
            self.places.get(address)
        } else {
            None
        }
    }
}

/// Whether the last message of an address is asked for.
fn is_asked(chooser: &Chooser<'_>, places: &LastActives, address: usize) -> bool
    requires { address < 256 }
    ensures { (which : FilterRecord) (F : List FrameRecord) → Chooses which chooser.now F
        → (if result then told_shown address (at places.now address) else [])
        ≡ now_taken which (first_stamp F) (told_shown address (at places.now address)) }
{
    match places.get(address) {
        Some(last) => {
            let pgn = last.pgn.raw();
            chooser.asks_for(last.stamp, address as u8, last.name, last.destination, pgn)
        }
        None => false,
    }
}
