//! A code that stands, and since when.
ghost use Rattle.std.specs.Prelude.{◌≡◌, ◌<◌, ◌+◌, ◌*◌, length, map, option_map};
ghost use Rattle.j39_faults.specs.Conversions.{codes_by};
ghost use Rattle.j39_frame.specs.Stamp.{stamp_micros};
ghost use Rattle.j39_fault_reports.specs.CurrentPlaces.{continued, found_in, is_same_code, next_standings, standing_record};

use arrayvec::ArrayVec;
use j39_faults::{Code, Version, code_by, codes_of, is_same_fault};
use j39_frame::Stamp;

/// As many as the codes that 1,785 bytes hold, four bytes each behind the two of the lamps.
const MOST: usize = 445;

/// As many as most messages hold.
pub const FEW: usize = 8;

/// What stands by one message.
pub type Standings = ArrayVec<Standing, MOST>;

/// A code that messages name, or that they name none; the stamp of the first, and how many there are, one behind the
/// other.
#[derive(Clone, Copy)]
pub struct Standing {
    pub code: Option<Code>,
    pub since: Stamp,
    pub often: u64,
}

impl Default for Standing {
    fn default() -> Standing {
        Standing {
            code: None,
            since: Stamp::new(0).unwrap(),
            often: 0,
        }
    }
}

/// What stands by a payload of at most N codes at this moment, where this stood before.
pub(crate) fn next_standings<const N: usize>(
    before: &[Standing],
    version: Option<Version>,
    payload: &[u8],
    stamp: Stamp,
) -> ArrayVec<Standing, N>
    requires some { 0 < N }
    requires few { length payload.now < 4 * N + 6 }
    ensures { map standing_record result.items
        ≡ next_standings (map standing_record before.now) (stamp_micros stamp) (codes_by version payload.now) }
{
    let mut standings = of_codes(before, version, payload, stamp);
    if standings.is_empty() {
        standings.push(continued(before, stamp, None));
    }
    standings
}

/// Those of codes.
fn of_codes<const N: usize>(
    before: &[Standing],
    version: Option<Version>,
    payload: &[u8],
    stamp: Stamp,
) -> ArrayVec<Standing, N>
    requires { length payload.now < 4 * N + 6 }
    ensures { map standing_record result.items
        ≡ map (λ code. continued (map standing_record before.now) (stamp_micros stamp) (Some code)) (codes_by version payload.now) }
{
    let mut standings = ArrayVec::new();
    for code in codes_of(payload) {
        let code = code_by(version, code);
        standings.push(continued(before, stamp, Some(code)));
    }
    standings
}

/// A code that is named at this moment, where this stood before.
fn continued(before: &[Standing], stamp: Stamp, code: Option<Code>) -> Standing
    ensures { standing_record result ≡ continued (map standing_record before.now) (stamp_micros stamp) code }
{
    match found_in(before, code) {
        Some(one) => Standing {
            code,
            since: one.since,
            often: one.often.saturating_add(1),
        },
        None => Standing {
            code,
            since: stamp,
            often: 1,
        },
    }
}

/// The first of these that is of the code.
fn found_in(before: &[Standing], code: Option<Code>) -> Option<Standing>
    ensures { option_map standing_record result ≡ found_in (map standing_record before.now) code }
{
    for one in before {
        if is_same_code(one.code, code) {
            return Some(*one);
        }
    }
    None
}

fn is_same_code(one: Option<Code>, other: Option<Code>) -> bool
    ensures { result ≡ is_same_code one other }
{
    match (one, other) {
        (None, None) => true,
        (None, Some(_)) => false,
        (Some(_), None) => false,
        (Some(one), Some(other)) => is_same_fault(one, other),
    }
}
