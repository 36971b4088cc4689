//! Messages of codes in packets: how many were announced, and how many of them came whole (J1939-21, 5.10).
ghost use Rattle.std.specs.Prelude.{◌≡◌, List};
ghost use Rattle.j39_faults.specs.FaultGroups.{kind_of};
ghost use Rattle.j39_frame.specs.Frame.{FrameRecord};
ghost use Rattle.j39_listen.specs.Heard.{Hearing};
ghost use Rattle.j39_listen.specs.HeardModel.{hearing_of};
ghost use Rattle.j39_fault_reports.specs.Broken.{announces_codes, broken_in, is_whole};

use j39_faults::fault_group;
use j39_frame::Frame;
use j39_listen::Heard;
use j39_transport::announced_group;

/// The most bytes of a frame.
const FRAME: usize = 8;

/// How many messages of codes were announced, and how many in packets were heard.
#[derive(Clone, Copy, Default)]
pub(crate) struct Announced {
    pub announced: u64,
    pub whole: u64,
}

impl Announced {
    ghost use Rattle.j39_fault_reports.specs.FaultsSoFar.{announced_in, with_frame, with_heard};

    /// One frame more.
    pub fn add_frame(&mut self, frame: &Frame)
        ensures { self.new ≡ with_frame self.old frame.now }
    {
        let more = u64::from(announces(frame));
        self.announced = self.announced.saturating_add(more);
    }

    /// One message more.
    pub fn add_heard(&mut self, heard: &Heard<'_>)
        ensures { self.new ≡ with_heard self.old (hearing_of heard.now) }
    {
        let more = u64::from(is_in_packets(heard));
        self.whole = self.whole.saturating_add(more);
    }

    /// How many were announced and did not come whole.
    pub fn broken(self) -> u64
        ensures { (F : List FrameRecord) (heard : List Hearing) → self ≡ announced_in F heard
            → result ≡ broken_in F heard }
    {
        self.announced.saturating_sub(self.whole)
    }
}

/// Whether a frame announces a message of codes. One of another group costs its identifier alone.
fn announces(frame: &Frame) -> bool
    ensures { result ≡ announces_codes frame.now }
{
    if !frame.id.is_transport_control() {
        return false;
    }
    match announced_group(frame) {
        Some(pgn) => fault_group(pgn).is_some(),
        None => false,
    }
}

/// Whether a message of codes came in packets.
fn is_in_packets(heard: &Heard<'_>) -> bool
    ensures { result ≡ is_whole (hearing_of heard.now) }
{
    fault_group(heard.message.pgn).is_some() && heard.message.payload.len() > FRAME
}
