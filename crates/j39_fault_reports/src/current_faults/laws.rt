//! Laws about the definitions, each the contract of a function that does nothing.
ghost use Rattle.std.specs.Prelude.{◌≡◌, ◌↔◌, [], ℕ, List, None, Option, Some};
ghost use Rattle.j39_faults.specs.Changes.{change_since};
ghost use Rattle.j39_faults.specs.Conversions.{codes_by};
ghost use Rattle.j39_faults.specs.declared.change.Change.TheVariants.{Set};
ghost use Rattle.j39_faults.specs.declared.code.Code.{Code};
ghost use Rattle.j39_faults.specs.declared.conversion.Conversion.{Conversion};
ghost use Rattle.j39_frame.specs.Frame.{FrameRecord};
ghost use Rattle.j39_listen.specs.Filter.{FilterRecord, no_filter};
ghost use Rattle.j39_listen.specs.Output.{Output};
ghost use Rattle.j39_listen.specs.declared.format.Format.{Format};
ghost use Rattle.j39_fault_reports.specs.Faults.{Manner};
ghost use Rattle.j39_listen.specs.Heard.{Hearing};
ghost use Rattle.j39_fault_reports.specs.FaultChanges.{last_bytes};
ghost use Rattle.j39_fault_reports.specs.FaultsNow.{Now, Told, naming, now_taken};
ghost use Rattle.j39_fault_reports.specs.Spoken.{sent_before, spoken_in};
ghost use Rattle.j39_fault_reports.specs.FaultRows.{said_columns};
ghost use Rattle.j39_fault_reports.specs.FaultsNowRun.{MakesFaultsNowIn, now_columns, now_head};
ghost use Rattle.j39_rows.specs.Row.{names_text};
ghost use Rattle.j39_names.specs.Naming.{NamingRecord};
ghost use Rattle.j39_faults.specs.declared.kind.Kind.TheVariants.{Active};
ghost use Rattle.j39_faults.specs.declared.text.State.TheVariants.{Is};

/// Of each list of frames one text of the faults that are there is made by each table, in each form, with its numbers, and
/// no other.
pub fn one_text()
    ensures some { (form : Format) (manner : Manner) (conversions : List Conversion) (which : FilterRecord) (bus : List ℕ)
        (F : List FrameRecord) → (output : Output) × MakesFaultsNowIn form manner conversions which bus F output }
    ensures one { (form : Format) (manner : Manner) (conversions : List Conversion) (which : FilterRecord) (bus : List ℕ)
        (F : List FrameRecord) (a b : Output) → MakesFaultsNowIn form manner conversions which bus F a
        → MakesFaultsNowIn form manner conversions which bus F b → a ≡ b }
{}

/// A code is told as set exactly where it begins to stand: no message of its controller right before names it. So they agree
/// where no conversion is known.
pub fn set_where_it_begins()
    ensures { (ms : List Hearing) (m : Hearing) (code : Code)
        → change_since (codes_by None (last_bytes (sent_before (spoken_in ms) m))) code ≡ Some Set
        ↔ naming [] (Some code) (sent_before (spoken_in ms) m) ≡ [] }
{}

/// Without a filter all is taken.
pub fn filters()
    ensures all { (first : ℕ) (faults : List Told) → now_taken no_filter first faults ≡ faults }
{}

/// The names above the records are those of each row's columns.
pub fn names()
    ensures { (naming : NamingRecord) (till : Option ℕ) (n : Now)
        → names_text (now_head till n) (said_columns naming (Is Active) n.lamps n.code) ≡ now_columns }
{}
