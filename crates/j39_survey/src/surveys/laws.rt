//! Laws about the definitions, each the contract of a function that does nothing.
ghost use Rattle.std.specs.Prelude.{◌≡◌, ℕ, List};
ghost use Rattle.j39_frame.specs.Frame.{FrameRecord};
ghost use Rattle.j39_listen.specs.Heard.{Hearing};
ghost use Rattle.j39_survey.specs.GroupCounts.{ArePutTogether};
ghost use Rattle.j39_survey.specs.LogLines.{AreLogLines, LogLine};
ghost use Rattle.j39_survey.specs.SurveyText.{SurveyRow, row_head, survey_columns, survey_names};
ghost use Rattle.j39_rows.specs.Row.{names_text};

/// The bytes of a log have one list of lines with what each spells, and their frames one list of messages in packets: so they
/// have one survey.
pub fn one_survey()
    ensures same { (bytes : List ℕ) (a b : List LogLine) → AreLogLines bytes a → AreLogLines bytes b → a ≡ b }
    ensures heard { (F : List FrameRecord) (a b : List Hearing) → ArePutTogether F a → ArePutTogether F b → a ≡ b }
{}

/// The names above the records are those of each row's columns.
pub fn names()
    ensures { (row : SurveyRow) → names_text (row_head row.kind) (survey_columns row) ≡ survey_names }
{}
