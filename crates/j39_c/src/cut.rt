//! Messages cut into the frames of a broadcast (J1939-21, 5.10).
ghost use Rattle.std.specs.Prelude.{◌≡◌, ◌<◌, ◌≤◌, pos, ◌∷◌, []};
ghost use Rattle.j39_transport.specs.Cutting.{cut_frame, without_stamp};
ghost use Rattle.j39_transport.specs.Message.{as_broadcast, packets_of};
ghost use Rattle.j39_c.specs.Can.{frame_of};
ghost use Rattle.j39_c.specs.Codes.{bad_value};
ghost use Rattle.j39_c.specs.Cut.{CanBeCut, message_by};
ghost use Rattle.j39_c.specs.Calls.{Answers, Fills};

use crate::can::{CanFrame, write_packet};
use crate::refusal::Refusal;
use j39_frame::{Pgn, Stamp};
use j39_transport::Cut;

/// Frame number `k` of the broadcast of these bytes, 0 the announcement: 1 and the frame, 0 behind the last packet;
/// -1 outside 9 to 1,785 bytes, for an address above 253, a group of 2^18 and above, or a moment of 10^16
/// microseconds and above.
#[unsafe(no_mangle)]
pub extern "C" fn j39_cut_frame(
    source: u8,
    pgn: u32,
    payload: &[u8],
    k: u16,
    micros: u64,
    out: &mut CanFrame,
) -> i32
    ensures frame { CanBeCut (message_by source pgn payload.now) micros
        → k ≤ packets_of (message_by source pgn payload.now)
        → (result ≡ pos 1) × (out.new.micros ≡ micros) × (without_stamp (frame_of out.new)
        ≡ cut_frame (as_broadcast (message_by source pgn payload.now)) (message_by source pgn payload.now) k) }
    ensures behind { CanBeCut (message_by source pgn payload.now) micros
        → packets_of (message_by source pgn payload.now) < k → result ≡ pos 0 }
    ensures bad { (CanBeCut (message_by source pgn payload.now) micros → ⊥)
        → result ≡ bad_value }
    ensures answers { Answers 1 (bad_value ∷ []) result }
    ensures fills { Fills (pos 1 ∷ []) result (out.new ≡ out.old) }
{
    let (Some(now), Some(group)) = (Stamp::new(micros), Pgn::new(pgn)) else {
        return Refusal::BadValue.code();
    };
    let Some(cut) = Cut::new(source, group, payload) else {
        return Refusal::BadValue.code();
    };
    let Some(frame) = cut.frame(k) else {
        return 0;
    };
    let (id, bytes) = frame;
    write_packet(id, bytes, now, out);
    1
}
