//! Laws about the definitions, each the contract of a function that does nothing.
ghost use Rattle.std.specs.Prelude.{◌≡◌, ◌&&◌, ◌<◌, ◌∷◌, [], ℕ, List, Option, Some, filter, length};
ghost use Rattle.std.specs.List.{flat_map};
ghost use Rattle.j39_frame.specs.Frame.{FrameRecord};
ghost use Rattle.j39_address.specs.Command.{Command};
ghost use Rattle.j39_address.specs.Name.{name_raw};
ghost use Rattle.j39_address.specs.Node.{Node};
ghost use Rattle.j39_groups.specs.Readings.{HaveSameGroups, rows_of_spns};
ghost use Rattle.j39_groups.specs.Row.{RowRecord};
ghost use Rattle.j39_groups.specs.Table.{the_table};
ghost use Rattle.j39_listen.specs.Answers.{AreAnswers, CommandedAt};
ghost use Rattle.j39_listen.specs.TransferExample.{example, example_frames, example_values};
ghost use Rattle.j39_listen.specs.NoTransferExamples.{Publishes, early, early_frames, eec1, eec1_frames, eec1_values, two, two_frames, two_values, vin, vin_frames, vin_values};
ghost use Rattle.j39_listen.specs.Filter.{FilterRecord, IsAmong, filtered_of, is_name, messages_taken, no_filter, taken, takes};
ghost use Rattle.j39_listen.specs.Heard.{AreHeard, HeardAt, Hearing};
ghost use Rattle.j39_listen.specs.Output.{report_of};
ghost use Rattle.j39_listen.specs.Report.{Entry, Form, IsReport, entries_among, entries_of};
ghost use Rattle.j39_listen.specs.Loss.{LostTogether, Repeated, Thinned};
ghost use Rattle.j39_listen.specs.BrokenExample.{broken_frames, came_values, never_came, thought, thought_frames};
ghost use Rattle.j39_listen.specs.LossExample.{heard_frames, left_frames, left_values, lost, sent, sent_frames, sent_values};
ghost use Rattle.j39_listen.specs.Published.{Published};
ghost use Rattle.j39_listen.specs.declared.filter.Sender.TheVariants.{Named};
ghost use Rattle.j39_address.specs.declared.name.Name.{Name};
ghost use Rattle.j39_listen.specs.Values.{TellsPublished, TellsRepeated, TellsThinned, no_place, values};

/// By each table a list of frames has at most one report: at each frame one message is heard at most.
pub fn one_report()
    ensures one_at_a_frame { (groups : List RowRecord) (F : List FrameRecord) (i : ℕ) (g h : Option Hearing)
        → HeardAt groups F i g → HeardAt groups F i h → g ≡ h }
    ensures heard { (groups : List RowRecord) (F : List FrameRecord) (gs hs : List Hearing)
        → AreHeard groups F gs → AreHeard groups F hs → gs ≡ hs }
    ensures report { (groups : List RowRecord) (F : List FrameRecord) (a b : List Entry)
        → IsReport groups F a → IsReport groups F b → a ≡ b }
{}

/// By each table each list of frames has a report: at each frame a message is heard, or none is.
pub fn some_report()
    ensures at_a_frame { (groups : List RowRecord) (F : List FrameRecord) (i : ℕ) → i < length F
        → (o : Option Hearing) × HeardAt groups F i o }
    ensures heard { (groups : List RowRecord) (F : List FrameRecord) → (hs : List Hearing) × AreHeard groups F hs }
    ensures report { (groups : List RowRecord) (F : List FrameRecord) → (entries : List Entry)
        × IsReport groups F entries }
{}

/// By the rows of some parameters alone the report has the entries of these parameters, in the same order, and no others.
pub fn restricted_report()
    ensures { (spns : List ℕ) (these those : List RowRecord) → HaveSameGroups these (rows_of_spns spns those)
        → (F : List FrameRecord) (some all : List Entry) → IsReport these F some → IsReport those F all
        → some ≡ entries_among spns all }
{}

/// What a filter takes stands in the report, in the same order; two filters meet in what both take, in either order; and where
/// nothing is asked for, what is made is the report. So it is of messages; the entries of the messages that a filter
/// takes are those that it takes.
pub fn filters()
    ensures among { (f : FilterRecord) (first : ℕ) (entries : List Entry) → IsAmong (taken f first entries) entries }
    ensures meet { (f g : FilterRecord) (first : ℕ) (entries : List Entry)
        → taken f first (taken g first entries) ≡ filter (λ e. takes f first e && takes g first e) entries }
    ensures either_order { (f g : FilterRecord) (first : ℕ) (entries : List Entry)
        → taken f first (taken g first entries) ≡ taken g first (taken f first entries) }
    ensures none { (form : Form) (groups : List RowRecord) (first : ℕ) (heard : List Hearing)
        → filtered_of form groups no_filter first heard ≡ report_of form groups heard }
    ensures no_message { (first : ℕ) (heard : List Hearing) → messages_taken no_filter first heard ≡ heard }
    ensures messages { (f : FilterRecord) (groups : List RowRecord) (first : ℕ) (heard : List Hearing)
        → flat_map (entries_of groups) (messages_taken f first heard) ≡ taken f first (flat_map (entries_of groups) heard) }
{}

/// By a NAME a filter takes exactly the entries under this NAME, whatever their addresses.
pub fn filter_by_name()
    ensures { (name : Name) (first : ℕ) (entries : List Entry)
        → taken (record no_filter { from = Some (Named name ∷ []) }) first entries
        ≡ filter (λ e. is_name (name_raw name) e.name) entries }
{}

/// With each list of frames a node sends some frames, and no others: at each frame it is commanded or not.
pub fn answers_of_nodes()
    ensures at_a_frame { (F : List FrameRecord) (i : ℕ) → i < length F → (c : Option Command) × CommandedAt F i c }
    ensures some { (node : Node) (F : List FrameRecord) → (sent : List FrameRecord) × AreAnswers node F sent }
    ensures one { (node : Node) (F : List FrameRecord) (a b : List FrameRecord) → AreAnswers node F a
        → AreAnswers node F b → a ≡ b }
{}

/// Of what publishers sent, a report has under their addresses exactly the values published, in order
/// of completion, each under its publisher's NAME.
pub fn published()
    ensures { (groups : List RowRecord) (F : List FrameRecord) (entries : List Entry)
        → IsReport groups F entries → TellsPublished groups F entries }
{}

/// Where packets were lost, and nothing else, exactly the messages that lost one are missing.
pub fn thinned()
    ensures { (groups : List RowRecord) (G : List FrameRecord) (entries : List Entry)
        → IsReport groups G entries → TellsThinned groups G entries }
{}

/// Where packets were lost, and others came more than once, it is the same.
pub fn repeated()
    ensures { (groups : List RowRecord) (H : List FrameRecord) (entries : List Entry)
        → IsReport groups H entries → TellsRepeated groups H entries }
{}

/// The premises can be met: by a log in which a receiver asks for a packet of a transfer again, with
/// one value published.
pub fn an_example()
    ensures published { Published the_table example_frames example }
    ensures values { values the_table example_frames example no_place ≡ example_values }
{}

/// By four logs with no transfer too, each with its values: one frame of a controller that claims
/// nothing, a broadcast among single frames, two broadcasts at once, and these behind a packet that no
/// announcement precedes.
pub fn examples()
    ensures eec1_without_a_claim { Publishes eec1_frames eec1 eec1_values }
    ensures vin_by_broadcast { Publishes vin_frames vin vin_values }
    ensures two_broadcasts_at_once { Publishes two_frames two two_values }
    ensures packet_before_any_announcement { Publishes early_frames early two_values }
{}

/// With packets lost and repeated in one log too: of a transfer and a broadcast at once the transfer's
/// third packet is lost, both times that it was sent, and the broadcast's first is heard twice; what is
/// left of the values sent is the broadcast's.
pub fn losses_and_copies()
    ensures published { Published the_table sent_frames sent }
    ensures thinned { Thinned sent_frames left_frames lost }
    ensures lost_together { LostTogether sent_frames sent lost }
    ensures repeated { Repeated left_frames heard_frames }
    ensures values_sent { values the_table sent_frames sent no_place ≡ sent_values }
    ensures values_left { values the_table sent_frames sent lost ≡ left_values }
{}

/// And with messages that broke off: a transfer that is refused, and a broadcast without its last packet, right behind which the packets
/// that never came are thought, as lost. What is left are the values of a frame that the transfer's sender sends after it.
pub fn broken_off()
    ensures published { Published the_table thought_frames thought }
    ensures thinned { Thinned thought_frames broken_frames never_came }
    ensures lost_together { LostTogether thought_frames thought never_came }
    ensures values_left { values the_table thought_frames thought never_came ≡ came_values }
{}
