//! For how long a controller's last message lies behind the last frame of its bus (own).
ghost use Rattle.std.specs.Prelude.{◌≡◌, ◌++◌, ◌∷◌, [], List};
ghost use Rattle.std.specs.Option.{option_map};
ghost use Rattle.j39_frame.specs.Frame.{FrameRecord};
ghost use Rattle.j39_frame.specs.Stamp.{stamp_micros};
ghost use Rattle.j39_listen.specs.Chooses.{Chooses};
ghost use Rattle.j39_listen.specs.Filter.{FilterRecord};
ghost use Rattle.j39_fault_reports.specs.Silence.{last_stamp, silent_since};

use j39_frame::{Frame, Stamp};
use j39_listen::Chooser;

/// The least silence that is told, in microseconds.
const LONG: u64 = 5_000_000;

/// The stamp of the last frame between the moments, with one frame more.
#[inline(always)]
pub(crate) fn last_with(chooser: &Chooser<'_>, last: Option<Stamp>, frame: &Frame) -> Option<Stamp>
    ensures { (which : FilterRecord) (F : List FrameRecord) → Chooses which chooser.now (F ++ frame.now ∷ [])
        → option_map stamp_micros last ≡ last_stamp which F
        → option_map stamp_micros result ≡ last_stamp which (F ++ frame.now ∷ []) }
{
    if chooser.is_in_time(frame.stamp) {
        Some(frame.stamp)
    } else {
        last
    }
}

/// How long it is from a message to the last frame, where that is told.
pub(crate) fn silent_since(last: Stamp, till: Option<Stamp>) -> Option<u64>
    ensures { result ≡ silent_since (stamp_micros last) (option_map stamp_micros till) }
{
    let silent = till?.micros().saturating_sub(last.micros());
    if silent < LONG { None } else { Some(silent) }
}
