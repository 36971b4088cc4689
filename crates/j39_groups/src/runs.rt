//! Where the rows of a group are: each group that can be heard has a place of its own, with the run of its rows.
ghost use Rattle.std.specs.Prelude.{◌≡◌, ◌==◌, ◌+◌, ◌<◌, ◌≤◌, ℕ, drop, filter, length, take, true};
ghost use Rattle.std.specs.List.{list_all, list_any};
ghost use Rattle.j39_groups.specs.Rows.{StandTogether, is_listed_group, is_row};
ghost use Rattle.j39_groups.specs.Runs.{AreRuns, bounds_of, place_of};

use crate::row::Row;

/// How many places there are: in each of four pages one for each PF, and one for each group of PF 240 and more.
const PLACES: usize = 4 * 256 + 4 * 16 * 256;

/// Where all rows of a place lie, and no others: from the first to the last; none, where the last stands before the first.
#[derive(Clone, Copy)]
pub(crate) struct Run {
    pub first: u16,
    pub last: u16,
}

impl Run {
    /// Of no rows.
    const NONE: Run = Run { first: 1, last: 0 };

    /// With the row at a place behind it.
    fn up_to(self, at: usize) -> Run
        requires few { at < 65536 }
        requires behind { (bounds_of self).1 ≤ at }
        ensures begun { (bounds_of self).1 ≡ 0 → (bounds_of result).0 ≡ at }
        ensures grown { 0 < (bounds_of self).1 → (bounds_of result).0 ≡ (bounds_of self).0 }
        ensures end { (bounds_of result).1 ≡ at + 1 }
    {
        let last = at as u16;
        let first = if self.last < self.first {
            last
        } else {
            self.first
        };
        Run { first, last }
    }
}

/// The runs of the places of these rows.
pub(crate) fn runs_of(rows: &[Row<'_>]) -> [Run; PLACES]
    requires few { length rows.now ≤ 65536 }
    requires sound { list_all is_row rows.now ≡ true }
    requires together { StandTogether rows.now }
    ensures { AreRuns result rows.now }
{
    let mut runs = [Run::NONE; PLACES];
    for (at, row) in rows.iter().enumerate() {
        let place = place_of(row.pgn);
        runs[place] = runs[place].up_to(at);
    }
    runs
}

/// The rows of a group.
#[inline(always)]
pub(crate) fn run_of<'r, 't>(runs: &[Run; PLACES], rows: &'r [Row<'t>], pgn: u32) -> &'r [Row<'t>]
    requires runs { AreRuns runs.now rows.now }
    requires sound { list_all is_row rows.now ≡ true }
    ensures same { result.now ≡ filter (λ row. row.pgn == pgn) rows.now }
    ensures few { length result.now ≤ length rows.now }
{
    // Where a place has no rows, the row at its first is of another group.
    let run = runs[place_of(pgn)];
    let first = usize::from(run.first);
    if is_at(rows, first, pgn) {
        &rows[first..usize::from(run.last) + 1]
    } else {
        &[]
    }
}

/// Whether the row at a place is there, and of a group.
#[inline(always)]
fn is_at(rows: &[Row<'_>], at: usize, pgn: u32) -> bool
    ensures { result ≡ list_any (λ row. row.pgn == pgn) (take 1 (drop at rows.now)) }
{
    match rows.get(at) {
        Some(row) => row.pgn == pgn,
        None => false,
    }
}

/// Whether one of these rows is of a group.
#[inline(always)]
pub(crate) fn has_group(rows: &[Row<'_>], pgn: u32) -> bool
    ensures { result ≡ list_any (λ row. row.pgn == pgn) rows.now }
{
    rows.iter().any(|row| row.pgn == pgn)
}

/// The place of a group, which no other has that a table may list.
#[inline(always)]
fn place_of(pgn: u32) -> usize
    ensures value { result ≡ place_of pgn }
    ensures fits { result < 17408 }
    ensures own { (other : ℕ) → is_listed_group pgn ≡ true → is_listed_group other ≡ true → place_of other ≡ result → other ≡ pgn }
{
    let place = if pgn / 256 % 256 < 240 {
        pgn / 256 % 1024
    } else {
        1024 + pgn / 65536 % 4 * 4096 + pgn % 4096
    };
    place as usize
}
