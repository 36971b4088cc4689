//! The other lines so far, by kind.
ghost use Rattle.std.specs.Prelude.{◌≡◌, ◌∷◌, ◌++◌, [], ℕ, List};
ghost use Rattle.j39_log.specs.Kind.{kind_of};
ghost use Rattle.j39_survey.specs.OtherLines.{others_of};

use j39_log::OtherKind;

/// How many lines were of each kind.
#[derive(Clone, Copy)]
pub(crate) struct Others {
    pub standard: u64,
    pub remote: u64,
    pub flexible: u64,
    pub error: u64,
    pub odd: u64,
}

impl Others {
    ghost use Rattle.j39_survey.specs.SurveyModels.{others_record};

    /// Of no lines.
    pub fn new() -> Others
        ensures { others_record result ≡ others_of [] }
    {
        Others {
            standard: 0,
            remote: 0,
            flexible: 0,
            error: 0,
            odd: 0,
        }
    }

    /// One line more, of this kind.
    pub fn add(&mut self, kind: OtherKind)
        ensures { (texts : List (List ℕ)) (text : List ℕ) → kind ≡ kind_of text
            → others_record self.old ≡ others_of texts → others_record self.new ≡ others_of (texts ++ text ∷ []) }
    {
        match kind {
            OtherKind::Standard => self.standard = self.standard.saturating_add(1),
            OtherKind::Remote => self.remote = self.remote.saturating_add(1),
            OtherKind::Flexible => self.flexible = self.flexible.saturating_add(1),
            OtherKind::Error => self.error = self.error.saturating_add(1),
            OtherKind::Odd => self.odd = self.odd.saturating_add(1),
        }
    }
}
