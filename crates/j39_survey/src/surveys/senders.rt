//! The addresses that sent a group.
ghost use Rattle.std.specs.Prelude.{◌++◌, ◌∷◌, [], ℕ, List};

use crate::surveys::addresses::Addresses;
use j39_frame::is_address;

/// The addresses so far.
#[derive(Clone, Copy)]
pub(crate) struct Senders {
    /// How many of them a controller can hold.
    pub count: u64,
    pub heard: Addresses,
}

impl Senders {
    ghost use Rattle.j39_survey.specs.SurveyModels.{HaveSent};

    /// None.
    pub fn new() -> Senders
        ensures { HaveSent result [] }
    {
        Senders {
            count: 0,
            heard: Addresses::new(),
        }
    }

    /// One more frame, from this address.
    pub fn add(&mut self, source: u8)
        ensures { (sources : List ℕ) → HaveSent self.old sources → HaveSent self.new (sources ++ source ∷ []) }
    {
        if !is_address(source) {
            return;
        }
        if self.heard.add(source) {
            self.count = self.count.saturating_add(1);
        }
    }
}
