//! Which grid is asked for.
ghost use Rattle.std.specs.Prelude.{◌≡◌, ◌≤◌, ◌↔◌, IfSome, IsSome, length};
ghost use Rattle.j39_frame.specs.Stamp.{stamp_micros};

use j39_frame::Stamp;
use j39_listen::{Format, Wanted};

/// The most columns of a grid (own).
pub const COLUMNS: usize = 32;

/// In which form a grid is written, how long its spans are, and the parameters of its columns.
#[derive(Clone, Copy, Debug)]
pub struct GridAsked<'a> {
    pub form: Format,
    every: u64,
    pub spns: &'a [u32],
    pub ghost some: { 1 ≤ every },
    pub ghost few: { length spns.now ≤ 32 },
}

impl<'a> GridAsked<'a> {
    ghost use Rattle.j39_grid.specs.Grid.{moment_of};
    ghost use Rattle.j39_grid.specs.GridModels.{asked_of};

    /// Spans of so many microseconds, and columns of these parameters (SPN); `None` for spans of none, and for more than 32 columns.
    pub fn new(form: Format, every: u64, spns: &'a [u32]) -> Option<GridAsked<'a>>
        ensures known { IsSome result ↔ ((1 ≤ every) × (length spns.now ≤ 32)) }
        ensures value { IfSome result (λ asked. asked_of asked ≡ record { form = form; every = every; spns = spns.now }) }
    {
        if every == 0 || spns.len() > COLUMNS {
            return None;
        }
        Some(GridAsked { form, every, spns })
    }

    /// When the span of a stamp begins.
    #[inline(always)]
    pub(crate) fn moment_of(self, stamp: Stamp) -> Stamp
        ensures { stamp_micros result ≡ moment_of self.entry.every (stamp_micros stamp) }
    {
        Stamp::new(stamp.micros() / self.every * self.every).unwrap()
    }
}

/// What a grid is to tell, in which spans and columns.
#[derive(Clone, Copy)]
pub struct GridWanted<'g, 't> {
    pub wanted: Wanted<'g, 't>,
    pub asked: GridAsked<'g>,
}
