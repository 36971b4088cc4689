//! Who is at which address, and what was seen of it, as an account of the frames of a bus (J1939-81, 4.2).
ghost use Rattle.std.specs.Prelude.{◌≡◌, ◌≢◌, ◌<◌, ◌++◌, ◌∷◌, [], ℕ, List, Err, Some, None, map};
ghost use Rattle.j39_address.specs.Name.{name_raw};
ghost use Rattle.j39_io.specs.Puts.{Puts};
ghost use Rattle.j39_io.specs.Turn.{turn};
ghost use Rattle.j39_frame.specs.Frame.{FrameRecord};
ghost use Rattle.j39_frame.specs.Stamp.{stamp_micros};
ghost use Rattle.j39_address.specs.Claim.{claims_of};
ghost use Rattle.j39_address.specs.Holder.{IsHolderAfter};
ghost use Rattle.j39_frame.specs.Identifier.{source_of};
ghost use Rattle.j39_address.specs.Claims.{Knows};
ghost use Rattle.j39_rows.specs.Models.{cell_of, column_of};
ghost use Rattle.j39_rows.specs.Row.{micros_cell, or_nothing};
ghost use Rattle.j39_listen.specs.Headed.{begins_flushed};
ghost use Rattle.j39_listen.specs.Output.{nothing};
ghost use Rattle.j39_survey.specs.SeenNodes.{MakesSeenNodes, function_of, maker_of, seen_columns, seen_in, silent_for};
ghost use Rattle.j39_survey.specs.SeenSoFar.{HasSeen, HasSeenAll, asked_of, longest_of, nodes_shown, presence, presence_in, presence_of, seen_at};
ghost use Rattle.j39_survey.specs.SurveyModels.{silence_record};
ghost use Rattle.std.specs.Option.{option_map};
ghost use Rattle.j39_listen.specs.Asking.{AsksNowhere};
ghost use Rattle.j39_listen.specs.Ran.{PassesOn, Ran};
ghost use Rattle.j39_listen.specs.declared.running.RunFault.TheVariants.{Memory};

use crate::node_lists::by_address::{ByAddress, put_by_address};
use crate::node_lists::held::node_head;
use crate::surveys::distances::{Distances, Silence};
use j39_address::{Claims, Name, claim_of};
use j39_frame::{Frame, NULL_ADDRESS, Stamp, is_address};
use j39_io::{DeviceFault, Sink, Source};
use j39_listen::{
    Account, Counts, Format, LineFault, Made, RunFault, Sender, is_from, run_headed, run_over,
};
use j39_log::Bus;
use j39_names::{Named, function_by, maker_by};
use j39_rows::{Cell, Column, DASH, Place, Plain, put_row};

/// The least silence that is told where nothing else is said, in microseconds: five seconds (own).
pub const LONG_SILENCE: u64 = 5_000_000;

/// How nodes that are seen are written, and what is told of them.
#[derive(Clone, Copy, Debug)]
pub struct SeenAsked<'f> {
    /// Names of one's own.
    pub own: &'f [Named<'f>],
    /// How they are written.
    pub format: Format,
    /// The least silence that is told, in microseconds.
    pub silence: u64,
    /// The senders that are asked for: an address, or the one that a NAME holds; `None` for all.
    pub from: Option<&'f [Sender]>,
}

/// Writes, after the whole log, a line for each address that is held, or from which a frame came since it was held last,
/// rising: the address, the NAME that holds it, when it claimed it last, when a frame last came from there, and how long before the
/// last frame of all, and the longest silence between two frames from there, each if it is long enough, and what the function and the
/// maker that the NAME names are called, where that is known; or a record of comma-separated values (RFC 4180), or an object of JSON
/// (RFC 8259), which have the moments in UTC too. The names of the columns of records are written before the log is read. The log has at most `limit` bytes; without a bus it is that of the first frame in it. It takes no memory; no
/// message counts.
pub fn nodes_seen<R: Source, W: Sink>(
    asked: SeenAsked<'_>,
    source: &mut R,
    sink: &mut W,
    bus: Option<Bus>,
    limit: u64,
) -> Result<Counts, RunFault>
    // Memory is wanted nowhere.
    ensures memory { result ≢ Err Memory }

    // What the run promises is `Ran`: what is written is who is at an address after the frames of the log, and is asked for,
    // and nothing else.
    ensures ran { Ran (MakesSeenNodes (asked_of asked.entry)) AsksNowhere bus limit result
        (turn R.remaining R.has_failed source.old source.new) (turn W.written W.has_failed sink.old sink.new) }

    // What was written is passed on at the end, and before each read, the names of the columns before the first.
    ensures flushed { PassesOn result (begins_flushed asked.entry.format (W.is_flushed sink.old)) (W.is_flushed sink.new) }
{
    let list = SeenList::new(asked);
    match asked.format {
        Format::Line(_) => run_over(list, source, sink, bus, limit),
        Format::Record => run_headed(COLUMNS, list, source, sink, bus, limit),
        Format::Object => run_over(list, source, sink, bus, limit),
    }
}

/// The names of the columns of such records.
const COLUMNS: &[u8] =
    b"address,name,claimed,claimed_utc,heard,heard_utc,silent,longest,since_stamp,since_utc,function,manufacturer\r\n";

/// How long nothing was heard by now, where that is as long as this.
fn silent_for(long: u64, now: Option<Stamp>, heard: Option<Stamp>) -> Option<u64>
    ensures { result ≡ silent_for long (option_map stamp_micros now) (option_map stamp_micros heard) }
{
    let silent = now?.micros().saturating_sub(heard?.micros());
    if silent < long { None } else { Some(silent) }
}

/// What was seen of an address so far.
#[derive(Clone, Copy)]
struct Seen {
    /// Whether nobody held it behind the last frame from there.
    talks: bool,
    /// The stamp of the last frame from there, and how far apart they came.
    distances: Distances,
    /// The stamp of the last claim of it by who holds it.
    claimed: Option<Stamp>,
}

impl Seen {
    /// With one frame more, from an address that this NAME holds from then on.
    fn with(self, frame: &Frame, holder: Option<Name>) -> Seen
        requires { source_of frame.now.id < 254 }
        ensures { (F : List FrameRecord) → HasSeen F (source_of frame.now.id) self
            → IsHolderAfter (claims_of (F ++ frame.now ∷ [])) (source_of frame.now.id) (option_map name_raw holder)
            → HasSeen (F ++ frame.now ∷ []) (source_of frame.now.id) result }
    {
        let talks = holder.is_none();
        let mut distances = self.distances;
        distances.add(frame.stamp);
        match claim_of(frame) {
            None => Seen {
                talks,
                distances,
                claimed: self.claimed,
            },
            Some((name, _)) => {
                let claimed = last_claim(name, holder, Some(frame.stamp), self.claimed);
                Seen {
                    talks,
                    distances,
                    claimed,
                }
            }
        }
    }

    /// The longest silence so far, where that is as long as this.
    fn longest(self, long: u64) -> Option<Silence>
        ensures { option_map silence_record result ≡ longest_of long self }
    {
        let longest = self.distances.spread?.longest;
        if longest.length < long {
            None
        } else {
            Some(longest)
        }
    }

    /// Who is at the address by now, which this NAME holds, or nobody.
    fn shown(self, long: u64, now: Option<Stamp>, address: u8, name: Option<Name>) -> Option<Node>
        ensures { presence long (option_map stamp_micros now) address self (option_map name_raw name) ≡ nodes_shown result }
    {
        if name.is_none() && !self.talks {
            return None;
        }
        Some(Node {
            address,
            name,
            claimed: if name.is_some() { self.claimed } else { None },
            heard: self.distances.last,
            silent: silent_for(long, now, self.distances.last),
            longest: self.longest(long),
        })
    }
}

/// Who is at an address.
#[derive(Clone, Copy)]
struct Node {
    address: u8,
    name: Option<Name>,
    claimed: Option<Stamp>,
    heard: Option<Stamp>,
    silent: Option<u64>,
    longest: Option<Silence>,
}

/// The stamp of the last claim by the holder, where this NAME claims now, and the last one before came then.
fn last_claim(
    name: Name,
    holder: Option<Name>,
    now: Option<Stamp>,
    then: Option<Stamp>,
) -> Option<Stamp>
    ensures own { option_map name_raw holder ≡ Some (name_raw name) → result ≡ now }
    ensures other { option_map name_raw holder ≢ Some (name_raw name) → result ≡ then }
{
    match holder {
        None => then,
        Some(held) => { if held.raw() == name.raw() { now } else { then } }
    }
}

/// The claims of the frames so far, what was seen of each address, the last stamp, and what is asked for.
#[derive(Drop)]
pub(crate) struct SeenList<'f> {
    claims: Claims,
    seen: [Seen; NULL_ADDRESS as usize],
    last: Option<Stamp>,
    asked: SeenAsked<'f>,
}

impl<'f> SeenList<'f> {
    /// The nodes of no frames.
    fn new(asked: SeenAsked<'f>) -> SeenList<'f>
        ensures { HasSeenAll (asked_of asked.entry) result [] nothing }
    {
        let unseen = Seen {
            talks: false,
            distances: Distances {
                last: None,
                spread: None,
            },
            claimed: None,
        };
        SeenList {
            claims: Claims::new(),
            seen: [unseen; NULL_ADDRESS as usize],
            last: None,
            asked,
        }
    }

    /// Who is at an address, if anybody is.
    fn node_at(&self, address: u8) -> Option<Node>
        requires { address < 254 }
        ensures { presence_in self.now address ≡ nodes_shown result }
    {
        let holder = self.claims.holder(address);
        self.seen[usize::from(address)].shown(self.asked.silence, self.last, address, holder)
    }

    /// Sees a frame, behind the claims up to it.
    fn see(&mut self, frame: &Frame)
        ensures claims { self.new.claims ≡ self.old.claims }
        ensures asked { self.new.asked ≡ self.old.asked }
        ensures sees { (F : List FrameRecord) → Knows self.old.claims (F ++ frame.now ∷ [])
            → ((a : ℕ) → a < 254 → HasSeen F a (seen_at self.old a))
            → (a : ℕ) → a < 254 → HasSeen (F ++ frame.now ∷ []) a (seen_at self.new a) }
    {
        let address = frame.id.source();
        if is_address(address) {
            let holder = self.claims.holder(address);
            let at = usize::from(address);
            self.seen[at] = self.seen[at].with(frame, holder);
        }
    }
}

impl<'f> ByAddress for SeenList<'f> {
    ghost use Rattle.j39_survey.specs.SeenSoFar.{seen_lines};

    ghost lines_at = { seen_lines };

    fn put_at<W: Sink>(&self, address: u8, sink: &mut W) -> Result<u64, DeviceFault> {
        let Some(node) = self.node_at(address) else {
            return Ok(0);
        };
        if is_from(self.asked.from, node.address, node.name) {
            put_seen(self.asked.own, self.asked.format, node, sink)?;
            Ok(1)
        } else {
            Ok(0)
        }
    }
}

impl<'f> Account for SeenList<'f> {
    ghost use Rattle.j39_listen.specs.AccountCalls.{Begins, MakesOne};
    ghost use Rattle.j39_listen.specs.Asking.{AsksNowhere};
    ghost use Rattle.j39_survey.specs.SeenNodes.{MakesSeenNodesIn, SeenAskedRecord};
    ghost use Rattle.j39_survey.specs.SeenSoFar.{HasSeenAll};

    ghost Subject = { SeenAskedRecord };

    ghost has_met = { λ subject bus. HasSeenAll subject };

    ghost makes = { MakesSeenNodesIn };

    ghost asks = { λ subject. AsksNowhere };

    fn feed<W: Sink>(&mut self, _: &Bus, frame: &Frame, _: &mut W) -> Result<(), LineFault> {
        self.claims.note(frame);
        self.see(frame);
        self.last = Some(frame.stamp);
        Ok(())
    }

    fn close<W: Sink>(&self, sink: &mut W) -> Result<Made, DeviceFault> {
        let lines = put_by_address(self, sink)?;
        Ok(Made { messages: 0, lines })
    }

    fn laws()
        ensures begins { (subject : SeenAskedRecord) → Begins (λ bus. HasSeenAll subject) (MakesSeenNodesIn subject) }
        ensures one { (subject : SeenAskedRecord) → MakesOne (MakesSeenNodesIn subject) }
    {}
}

/// What the function of a NAME is called, if that is known.
fn function_of<'f>(own: &[Named<'f>], name: Option<Name>) -> Option<&'f [u8]>
    ensures { option_map (λ called. called.now) result ≡ function_of own.now (option_map name_raw name) }
{
    function_by(own, name?.function())
}

/// Who made the controller of a NAME, if that is known.
fn maker_of<'f>(own: &[Named<'f>], name: Option<Name>) -> Option<&'f [u8]>
    ensures { option_map (λ called. called.now) result ≡ maker_of own.now (option_map name_raw name) }
{
    maker_by(own, name?.manufacturer())
}

/// A time in seconds, or nothing.
fn time_cell(micros: Option<u64>) -> Cell<'static>
    ensures { cell_of result ≡ or_nothing micros_cell micros }
{
    match micros {
        Some(micros) => Cell::Is(Plain::Micros(micros)),
        None => Cell::Nothing,
    }
}

/// How long a silence is, if there is one.
fn length_of(silence: Option<Silence>) -> Option<u64>
    ensures { result ≡ option_map (λ s. s.length) (option_map silence_record silence) }
{
    Some(silence?.length)
}

/// When a silence began, if there is one.
fn since_of(silence: Option<Silence>) -> Option<Stamp>
    ensures { option_map stamp_micros result ≡ option_map (λ s. s.since) (option_map silence_record silence) }
{
    Some(silence?.since)
}

/// What the row of a node has behind its address.
fn seen_columns<'f>(own: &[Named<'f>], node: Node) -> [Column<'f>; 11]
    ensures { map column_of result ≡ seen_columns own.now (presence_of node) }
{
    let since = since_of(node.longest);
    [
        Column::name(node.name.map(Name::raw)),
        Column::All(b"claimed", DASH, Cell::seconds(node.claimed)),
        Column::BesideLines(b"claimed_utc", Cell::utc(node.claimed)),
        Column::All(b"heard", DASH, Cell::seconds(node.heard)),
        Column::BesideLines(b"heard_utc", Cell::utc(node.heard)),
        Column::All(b"silent", Place::IfAny(b" silent "), time_cell(node.silent)),
        Column::All(
            b"longest",
            Place::IfAny(b" longest "),
            time_cell(length_of(node.longest)),
        ),
        Column::All(
            b"since_stamp",
            Place::IfAny(b" since "),
            Cell::seconds(since),
        ),
        Column::BesideLines(b"since_utc", Cell::utc(since)),
        Column::All(
            b"function",
            Place::IfAny(b" function "),
            Cell::optional(function_of(own, node.name)),
        ),
        Column::All(
            b"manufacturer",
            Place::IfAny(b" manufacturer "),
            Cell::optional(maker_of(own, node.name)),
        ),
    ]
}

/// Writes the row of a node.
fn put_seen<W: Sink>(
    own: &[Named<'_>],
    form: Format,
    node: Node,
    sink: &mut W,
) -> Result<(), DeviceFault>
    ensures { Puts (seen_in own.now form (presence_of node)) result (turn W.written W.has_failed sink.old sink.new) }
{
    put_row(
        form,
        node_head(node.address),
        &seen_columns(own, node),
        sink,
    )
}
