//! Laws about the definitions, each the contract of a function that does nothing.
ghost use Rattle.std.specs.Prelude.{◌≡◌, ◌∷◌, ℕ, ℤ, List, IfSome};
ghost use Rattle.std.specs.List.{list_any};
ghost use Rattle.j39_frame.specs.Frame.{FrameRecord};
ghost use Rattle.j39_groups.specs.Row.{RowRecord};
ghost use Rattle.j39_listen.specs.Filter.{FilterRecord};
ghost use Rattle.j39_listen.specs.Output.{Output};
ghost use Rattle.j39_listen.specs.Report.{Entry};
ghost use Rattle.j39_listen.specs.declared.format.Clock.{Clock};
ghost use Rattle.j39_listen.specs.declared.format.Format.TheVariants.{Line};
ghost use Rattle.j39_reports.specs.Bounds.{IsLeast, IsMost};
ghost use Rattle.j39_reports.specs.SummaryRun.{MakesSummary};
ghost use Rattle.j39_reports.specs.RowText.{origin_head, row_columns, summary_columns};
ghost use Rattle.j39_reports.specs.Summary.{AreApart, Number, Row, comparable_with, firsts, have_one_origin, range_of, summary_of};
ghost use Rattle.j39_rows.specs.Row.{names_text};

use j39_listen::laws::{one_report, some_report};

/// By each table and filter a list of frames has one summary in lines: at most one, and at least one.
pub fn one_summary()
    ensures at_most { (clock : Clock) (which : FilterRecord) (groups : List RowRecord) (bus : List ℕ) (F : List FrameRecord) (x y : Output)
        → MakesSummary (Line clock) which groups bus F x → MakesSummary (Line clock) which groups bus F y → x ≡ y }
    ensures at_least { (clock : Clock) (which : FilterRecord) (groups : List RowRecord) (bus : List ℕ) (F : List FrameRecord)
        → (x : Output) × MakesSummary (Line clock) which groups bus F x }
{
    one_report();
    some_report();
}

/// A summary has a row of an origin exactly where the report has a value of it, and no two rows of one origin.
pub fn one_row_for_each_origin()
    ensures some { (entries : List Entry) (e : Entry)
        → list_any (λ row. have_one_origin e row.first) (summary_of entries)
        ≡ list_any (have_one_origin e) entries }
    ensures apart { (entries : List Entry) → AreApart (firsts entries) }
{}

/// The least of numbers is above none that can be compared with the first, and is one of them; so the most.
pub fn bounds()
    ensures least { (n : Number) (ms : List Number)
        → IfSome (range_of (n ∷ ms)) (λ range. IsLeast n.value (comparable_with n ms) range.least) }
    ensures most { (n : Number) (ms : List Number)
        → IfSome (range_of (n ∷ ms)) (λ range. IsMost n.value (comparable_with n ms) range.most) }
{}

/// The names above the records are those of each row's columns.
pub fn names()
    ensures { (groups : List RowRecord) (absent : ℕ) (row : Row)
        → names_text (origin_head row.first) (row_columns groups absent row) ≡ summary_columns }
{}
