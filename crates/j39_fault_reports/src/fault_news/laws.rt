//! Laws about the definitions, each the contract of a function that does nothing.
ghost use Rattle.std.specs.Prelude.{◌≡◌, ◌≤◌, [], ℕ, List, count_by, if◌then◌else◌};
ghost use Rattle.std.specs.List.{All};
ghost use Rattle.j39_frame.specs.Frame.{FrameRecord, IsFrame};
ghost use Rattle.j39_faults.specs.declared.conversion.Conversion.{Conversion};
ghost use Rattle.j39_listen.specs.Filter.{FilterRecord, no_filter, takes_message};
ghost use Rattle.j39_listen.specs.Heard.{AreHeardWith, Hearing};
ghost use Rattle.j39_listen.specs.Output.{Output};
ghost use Rattle.j39_fault_reports.specs.Broken.{announces_codes, is_whole};
ghost use Rattle.j39_fault_reports.specs.Faults.{Fault, Manner, faults_taken};
ghost use Rattle.j39_fault_reports.specs.Told.{told_of};
ghost use Rattle.j39_fault_reports.specs.declared.fault_news.telling.Telling.{Telling};
ghost use Rattle.j39_fault_reports.specs.FaultRows.{columns_with, message_head, saying_columns, saying_name};
ghost use Rattle.j39_fault_reports.specs.FaultRun.{MakesFaultsIn};
ghost use Rattle.j39_rows.specs.Row.{names_text};
ghost use Rattle.j39_names.specs.Naming.{NamingRecord};
ghost use Rattle.j39_listen.specs.declared.format.Format.{Format};
ghost use Rattle.j39_fault_reports.specs.News.{Chosen, is_fault_group};

/// Of each list of frames one text of faults is made by whatever names, in each form, with its numbers, and no other.
pub fn one_text()
    ensures some { (form : Format) (manner : Manner) (which : Chosen) (bus : List ℕ) (F : List FrameRecord)
        → (output : Output) × MakesFaultsIn form manner which bus F output }
    ensures one { (form : Format) (manner : Manner) (which : Chosen) (bus : List ℕ) (F : List FrameRecord)
        (a b : Output) → MakesFaultsIn form manner which bus F a → MakesFaultsIn form manner which bus F b → a ≡ b }
{}

/// No more messages of codes come whole in packets than are announced.
pub fn whole_are_announced()
    ensures { (F : List FrameRecord) (heard : List Hearing) → All IsFrame F → AreHeardWith is_fault_group F heard
        → count_by is_whole heard ≤ count_by announces_codes F }
{}

/// A filter takes what is told of a message exactly if it takes the message, then all of it. Without one all is taken.
pub fn filters()
    ensures whole { (which : FilterRecord) (first : ℕ) (telling : Telling) (conversions : List Conversion) (before : List Hearing)
        (m : Hearing) → faults_taken which first (told_of telling conversions before m)
        ≡ (if takes_message which first m then told_of telling conversions before m else []) }
    ensures all { (first : ℕ) (faults : List Fault) → faults_taken no_filter first faults ≡ faults }
{}

/// The names of a record's columns are those above the records that tell the same.
pub fn names()
    ensures { (naming : NamingRecord) (f : Fault)
        → names_text (message_head f.stamp f.address f.destination f.name) (saying_columns naming f.saying)
        ≡ columns_with (saying_name f.saying) }
{}
