//! What `cut` is asked for.
ghost use Rattle.std.specs.Prelude.{◌≡◌, ◌≤◌, ◌↔◌, ◌+◌, ◌*◌, ◌++◌, ◌∷◌, [], IfSome, IsSome, length};
ghost use Rattle.arrayvec.specs.ArrayVec.{array_vec_len};
ghost use Rattle.j39_frame.specs.Address.{IsAddress};
ghost use Rattle.j39_io.specs.Chars.{newline};
ghost use Rattle.j39_frame.specs.Pgn.{pgn_raw};
ghost use Rattle.j39_frame.specs.Stamp.{stamp_micros};
ghost use Rattle.j39_transport.specs.Message.{packets_of};
ghost use Rattle.j39_cli.specs.Outgoing.{EndsInTime, cut_text, frame_line, outgoing};

use arrayvec::ArrayVec;
use j39_frame::{Frame, Pgn, Stamp};
use j39_io::printing::push_bytes;
use j39_log::{Bus, line_of};
use j39_transport::Cut;
use std::marker::Model;

/// The microseconds from one frame to the next (own).
const DISTANCE: u64 = 50_000;

/// A message of 9 to 1,785 bytes that is to be broadcast on a bus from a moment on, a frame each
/// 50 ms.
#[derive(Drop)]
pub struct Outgoing {
    source: u8,
    pgn: Pgn,
    at: Stamp,
    bus: Bus,
    payload: Vec<u8>,
}

impl Model for Outgoing {
    ghost use Rattle.j39_frame.specs.Pgn.{pgn_raw};
    ghost use Rattle.j39_frame.specs.Stamp.{stamp_micros};
    ghost use Rattle.j39_cli.specs.Outgoing.{IsOutgoing, OutgoingRecord, outgoing};

    ghost Value = { OutgoingRecord };

    ghost view = { λ o. outgoing o.source (pgn_raw o.pgn) (stamp_micros o.at) o.bus o.payload.items };

    ghost invariant = { λ o. IsOutgoing (outgoing o.source (pgn_raw o.pgn) (stamp_micros o.at) o.bus o.payload.items) };
}

impl Outgoing {
    /// The message of these parts; `None` for a source above 253, outside 9 to 1,785 bytes, and
    /// where its last frame would not lie below 10^10 seconds.
    pub fn new(source: u8, pgn: Pgn, at: Stamp, bus: Bus, payload: Vec<u8>) -> Option<Outgoing>
        ensures known { IsSome result ↔ (IsAddress source × (9 ≤ length payload.items) × (length payload.items ≤ 1785)
            × EndsInTime (outgoing source (pgn_raw pgn) (stamp_micros at) bus payload.items)) }
        ensures value { IfSome result (λ o. o ≡ outgoing source (pgn_raw pgn) (stamp_micros at) bus payload.items) }
    {
        let cut = Cut::new(source, pgn, payload.as_slice())?;
        let last = moment_after(at, u16::from(cut.packets()));
        // What `bytes` promises is all that the proof knows of a bus: that its name is one.
        let _name = bus.bytes();
        if last >= Stamp::LIMIT {
            return None;
        }
        Some(Outgoing {
            source,
            pgn,
            at,
            bus,
            payload,
        })
    }

    /// The canonical lines of its frames, each with a newline.
    #[tactic(auto, unfolding(crate::specs::Outgoing::first_lines))]
    pub(crate) fn lines(&self) -> ArrayVec<u8, 16_640>
        ensures { result.items ≡ cut_text self.now }
    {
        let mut lines = ArrayVec::new();
        if let Some(cut) = Cut::new(self.source, self.pgn, self.payload.as_slice()) {
            for k in 0..u16::from(cut.packets()) + 1 {
                if let Some(line) = self.line(&cut, k) {
                    push_line(&mut lines, line.as_slice());
                }
            }
        }
        lines
    }

    /// The canonical line of frame k; `None` past the last packet.
    fn line(&self, cut: &Cut<'_>, k: u16) -> Option<ArrayVec<u8, 64>>
        requires { cut.now ≡ self.now.message }
        ensures known { IsSome result ↔ (k ≤ packets_of self.now.message) }
        ensures value { IfSome result (λ line. line.items ≡ frame_line self.now k) }
    {
        let (id, bytes) = cut.frame(k)?;
        let stamp = Stamp::new(moment_after(self.at, k))?;
        let frame = Frame::new(stamp, id, &bytes)?;
        Some(line_of(&frame, &self.bus))
    }
}

/// The moment so many frames after this one, in microseconds.
fn moment_after(at: Stamp, frames: u16) -> u64
    ensures { result ≡ stamp_micros at + 50000 * frames }
{
    at.micros() + DISTANCE * u64::from(frames)
}

/// Appends a line and its newline.
fn push_line<const N: usize>(lines: &mut ArrayVec<u8, N>, line: &[u8])
    requires { array_vec_len lines.old + length line.now + 1 ≤ N }
    ensures items { lines.new.items ≡ lines.old.items ++ (line.now ++ newline ∷ []) }
    ensures len { array_vec_len lines.new ≡ array_vec_len lines.old + length line.now + 1 }
{
    push_bytes(lines, line);
    lines.push(b'\n');
}
