//! Broadcasts, sent frame by frame (J1939-21, 5.10.3.5). How far one is lies in C's own memory.
ghost use Rattle.std.specs.Prelude.{◌≡◌, [], pos, ◌∷◌};
ghost use Rattle.j39_frame.specs.Frame.{FrameRecord};
ghost use Rattle.j39_frame.specs.Stamp.{stamp_micros};
ghost use Rattle.j39_transport.specs.Broadcasting.{HasSent, answer_after, with_answer};
ghost use Rattle.j39_transport.specs.Message.{MessageRecord};
ghost use Rattle.j39_transport.specs.Polling.{answer_of, so_far};
ghost use Rattle.j39_c.specs.Broadcasts.{IsPolled, Polls};
ghost use Rattle.j39_c.specs.Codes.{bad_value};
ghost use Rattle.j39_c.specs.Cut.{CanBeCut, message_by};
ghost use Rattle.j39_c.specs.Calls.{Answers, Fills};

use crate::can::{CanFrame, write_packet};
use crate::refusal::Refusal;
use j39_frame::{Pgn, Stamp};
use j39_transport::{BroadcastCourse, Cut, Poll};

/// Nothing of a broadcast was sent.
#[unsafe(no_mangle)]
pub extern "C" fn j39_broadcast_init(broadcast: &mut BroadcastCourse)
    ensures { (m : MessageRecord) → HasSent (so_far m broadcast.new) [] }
{
    *broadcast = BroadcastCourse::new();
}

/// What to do at a moment for the broadcast of these bytes, the same at each call: 1 where `out` is to be sent now, 0 to
/// ask again at `due`, 2 where all was sent; -1 outside 9 to 1,785 bytes, for an address above 253, a group of 2^18 and
/// above, or a moment of 10^16 microseconds and above.
#[unsafe(no_mangle)]
pub extern "C" fn j39_broadcast_poll(
    broadcast: &mut BroadcastCourse,
    source: u8,
    pgn: u32,
    payload: &[u8],
    micros: u64,
    out: &mut CanFrame,
    due: &mut u64,
) -> i32
    ensures polls { CanBeCut (message_by source pgn payload.now) micros
        → Polls (message_by source pgn payload.now) broadcast.old micros result out.new due.new broadcast.new }
    ensures bad { (CanBeCut (message_by source pgn payload.now) micros → ⊥)
        → (result ≡ bad_value) × (broadcast.new ≡ broadcast.old) }
    ensures answers { Answers 2 (bad_value ∷ []) result }
    ensures fills_out { Fills (pos 1 ∷ []) result (out.new ≡ out.old) }
    ensures fills_due { Fills (pos 0 ∷ []) result (due.new ≡ due.old) }
{
    let (Some(now), Some(group)) = (Stamp::new(micros), Pgn::new(pgn)) else {
        return Refusal::BadValue.code();
    };
    let Some(cut) = Cut::new(source, group, payload) else {
        return Refusal::BadValue.code();
    };
    put_poll(broadcast.poll(&cut, now), now, out, due)
}

/// Writes out what a broadcast asks for.
fn put_poll(poll: Poll, now: Stamp, out: &mut CanFrame, due: &mut u64) -> i32
    ensures polled { IsPolled (stamp_micros now) result out.new due.new (answer_of poll) }
    ensures answers { Answers 2 [] result }
    ensures fills_out { Fills (pos 1 ∷ []) result (out.new ≡ out.old) }
    ensures fills_due { Fills (pos 0 ∷ []) result (due.new ≡ due.old) }
{
    match poll {
        Poll::Send(id, bytes) => {
            write_packet(id, bytes, now, out);
            1
        }
        Poll::WaitUntil(moment) => {
            *due = moment;
            0
        }
        Poll::Done => 2,
    }
}
