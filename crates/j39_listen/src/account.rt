//! What a run makes of the frames of its bus.
ghost use Rattle.std.specs.Prelude.{◌≡◌, ◌∷◌, [], ℕ, List, Option, OnOk, OnErr, IfOk, Err, true};
ghost use Rattle.j39_io.specs.Device.{Marks};
ghost use Rattle.j39_io.specs.Turn.{turn};
ghost use Rattle.j39_frame.specs.Frame.{FrameRecord};
ghost use Rattle.j39_frame.specs.Identifier.{id_raw};
ghost use Rattle.j39_listen.specs.AccountCalls.{Begins, Closes, LeavesWriter, MakesOne, Meets, Stops, StopsAtEnd};
ghost use Rattle.j39_listen.specs.Output.{Output, Making, Meeting};
ghost use Rattle.j39_listen.specs.declared.account.LineFault.TheVariants.{Memory, Write};
ghost use Rattle.j39_listen.specs.Asking.{Wanting};

use crate::counts::Made;
use j39_frame::{Frame, Id};
use j39_io::{DeviceFault, Sink};
use j39_log::{Bus, StampText};

/// Why a line was not finished.
#[derive(Clone, Copy, Debug, PartialEq, Eq)]
pub enum LineFault {
    /// Memory was refused; nothing was written for the line.
    Memory,
    /// The writer failed.
    Write,
}

/// An account of the frames of a bus: it is written frame by frame, and at their end. `run_over` writes one of a whole
/// log. What it is an account of, what it has met and what is made of the frames its ghost members say; the clauses of a
/// run are in their words.
pub trait Account: Drop {
    // What it is an account of, beside the frames.
    ghost Subject: { Type 0 };

    // It is an account of this; it was given these frames of a bus with this name, and has made so much of them.
    ghost has_met: { Subject → Meeting Self };

    // So much is made of the subject and these frames of a bus with this name in all.
    ghost makes: { Subject → Making };

    // Where it may want memory: behind these frames of the bus, at this frame.
    ghost asks: { Subject → Wanting };

    /// Takes the next frame of the bus, and writes what is to be written at it.
    fn feed<W: Sink>(&mut self, bus: &Bus, frame: &Frame, sink: &mut W) -> Result<(), LineFault>
        ensures met { OnOk result ((subject : Subject)
            → Meets (has_met subject bus.now) self.old self.new (frame.now ∷ []) (W.written sink.old)
            (W.written sink.new)) }
        ensures writer { LeavesWriter result (turn W.written W.has_failed sink.old sink.new) }
        ensures stops { result ≡ Err Write → (subject : Subject)
            → Stops (has_met subject bus.now) (makes subject bus.now) self.old (frame.now ∷ []) (W.written sink.old)
            (W.written sink.new) }
        ensures asked { result ≡ Err Memory → (subject : Subject) (F : List FrameRecord) (output : Output)
            → has_met subject bus.now self.old F output → asks subject F frame.now };

    /// Whether nothing is to be made of a frame with this identifier, nor to be kept of it: then it needn't be taken. `false` says
    /// nothing.
    #[inline(always)]
    fn passes_over(&self, id: Id) -> bool
        ensures { result ≡ true → (subject : Subject) (bus : List ℕ) (frame : FrameRecord) (held : Option (List ℕ))
            → frame.id ≡ id_raw id → Meets (has_met subject bus) self.now self.now (frame ∷ []) held held }
    {
        let _ = id;
        false
    }

    /// Notes the text of a stamp that may come next: it changes nothing that was met.
    #[inline(always)]
    fn note_stamp(&mut self, text: StampText)
        ensures { (subject : Subject) (bus : List ℕ) (F : List FrameRecord) (output : Output)
            → has_met subject bus self.old F output → has_met subject bus self.new F output }
    {
        let _ = text;
    }

    /// Writes what is left to be written at the end, and answers the numbers of the whole.
    fn close<W: Sink>(&self, sink: &mut W) -> Result<Made, DeviceFault>
        ensures closes { IfOk result (λ made. (subject : Subject)
            → Closes (has_met subject) (makes subject) self.now made (W.written sink.old) (W.written sink.new)) }
        ensures stops { OnErr result ((subject : Subject)
            → StopsAtEnd (has_met subject) (makes subject) self.now (W.written sink.old) (W.written sink.new)) }
        ensures mark { Marks result (W.has_failed sink.old) (W.has_failed sink.new) };

    /// Does nothing: laws of what was met and of what is made.
    fn laws()
        ensures begins { (subject : Subject) → Begins (has_met subject) (makes subject) }
        ensures one { (subject : Subject) → MakesOne (makes subject) };
}
