//! A listener on a bus (J1939-21, 5.10; J1939-81, 4.2).
ghost use Rattle.std.specs.Prelude.{◌≡◌, ◌≤◌, ◌*◌, ◌++◌, ◌∷◌, [], ℕ, Bool, true, false, List, Option, None, IfOk, IfSome, OnOk, OnErr, MatchResult, length};
ghost use Rattle.std.specs.Option.{option_map};
ghost use Rattle.std.specs.Borrow.{sem};
ghost use Rattle.std.specs.Io.BufRead.{Rests};
ghost use Rattle.j39_address.specs.Claim.{claim_of, claims_of};
ghost use Rattle.j39_address.specs.Holder.{IsHolderAfter};
ghost use Rattle.j39_address.specs.Name.{name_raw};
ghost use Rattle.j39_frame.specs.Frame.{FrameRecord};
ghost use Rattle.j39_frame.specs.Identifier.{pgn_of};
ghost use Rattle.j39_groups.specs.Readings.{is_network_group};
ghost use Rattle.j39_groups.specs.Table.{the_table};
ghost use Rattle.j39_transport.specs.Answers.{IsAnnouncement};
ghost use Rattle.j39_transport.specs.AssemblerStep.{messages_open, new_assembler};
ghost use Rattle.j39_listen.specs.Heard.{HeardAt, HeardAtWith, LeavesNetwork};
ghost use Rattle.j39_listen.specs.Listening.{AreHeld, AreOpen, Hears, HearsOneMore, WantsMemoryBehind, holder_of};
ghost use Rattle.j39_listen.specs.OneFrameMore.{IsMany, heard_alone, hearing_alone};
ghost use Rattle.j39_listen.specs.HeardModel.{hearing_of};

use crate::Heard;
use crate::heard::destination;
use j39_address::{Claims, Name};
use j39_frame::{Frame, is_address};
use j39_groups::{Groups, is_network_group, is_reported};
use j39_transport::{Assembler, Fed, Message};
use std::alloc::{AllocError, Global};

/// Hears the messages of a bus: single frames of the groups that are heard so, as those that are reported, and
/// messages in packets, broadcast or from one controller to another. It knows who holds each address, and
/// forgets what a source had begun when its holder changes.
#[derive(Drop)]
pub struct Listener {
    assembler: Assembler,
    claims: Claims,
}

impl Listener {
    ghost use Rattle.j39_listen.specs.contracts.listener.Listener.{the_row};

    /// A listener that has heard nothing; it takes no memory.
    pub fn new(alloc: Global) -> Listener
        ensures { Hears result [] }
    {
        Listener {
            assembler: Assembler::new(alloc),
            claims: Claims::new(),
        }
    }

    /// Takes the next frame of the bus, and answers the message that is heard at it by the built-in table. Memory is
    /// taken at an announcement alone, of a message of which none is open yet, and where no box lies unused; after
    /// an error nothing has changed.
    #[inline(always)]
    pub fn feed<'a>(&'a mut self, frame: &'a Frame) -> Result<Option<Heard<'a>>, AllocError>
        ensures heard { IfOk result (λ heard. (F : List FrameRecord) → Hears self.old F
            → HeardAt the_table (F ++ frame.now ∷ []) (length F) (option_map hearing_of heard)) }
        ensures short { IfOk result (λ heard. IfSome heard (λ h. length h.message.payload.now ≤ 1785)) }
        ensures refused { OnErr result (IsAnnouncement frame.now) }
        ensures wanted { OnErr result ((F : List FrameRecord) → Hears self.old F → WantsMemoryBehind F frame.now) }
        ensures* after { sem 𝓛 (Rests the_row self.entry (HearsOneMore self.old frame.now result)) }
    {
        self.feed_as(is_reported(frame.id.pgn()), frame)
    }

    /// Takes the next frame of the bus, and answers the message that is heard at it by a table of parameters. Memory is
    /// taken as by `feed`; after an error nothing has changed.
    #[inline(always)]
    pub fn feed_with<'a>(
        &'a mut self,
        groups: &Groups<'_>,
        frame: &'a Frame,
    ) -> Result<Option<Heard<'a>>, AllocError>
        ensures heard { IfOk result (λ heard. (F : List FrameRecord) → Hears self.old F
            → HeardAt groups.now (F ++ frame.now ∷ []) (length F) (option_map hearing_of heard)) }
        ensures short { IfOk result (λ heard. IfSome heard (λ h. length h.message.payload.now ≤ 1785)) }
        ensures refused { OnErr result (IsAnnouncement frame.now) }
        ensures wanted { OnErr result ((F : List FrameRecord) → Hears self.old F → WantsMemoryBehind F frame.now) }
        ensures* after { sem 𝓛 (Rests the_row self.entry (HearsOneMore self.old frame.now result)) }
    {
        self.feed_as(groups.is_reported(frame.id.pgn()), frame)
    }

    /// Takes the next frame of the bus, and answers the message that is heard at it, where the caller says whether
    /// messages of its group are heard in one frame: those of the network's groups never are. Memory is taken as by
    /// `feed`; after an error nothing has changed.
    #[inline(always)]
    pub fn feed_as<'a>(
        &'a mut self,
        is_single: bool,
        frame: &'a Frame,
    ) -> Result<Option<Heard<'a>>, AllocError>
        requires { is_single ≡ true → is_network_group (pgn_of frame.now.id) ≡ false }
        ensures heard { IfOk result (λ heard. (singles : ℕ → Bool) → LeavesNetwork singles
            → singles (pgn_of frame.now.id) ≡ is_single → (F : List FrameRecord) → Hears self.old F
            → HeardAtWith singles (F ++ frame.now ∷ []) (length F) (option_map hearing_of heard)) }
        ensures short { IfOk result (λ heard. IfSome heard (λ h. length h.message.payload.now ≤ 1785)) }
        ensures refused { OnErr result (IsAnnouncement frame.now) }
        ensures wanted { OnErr result ((F : List FrameRecord) → Hears self.old F → WantsMemoryBehind F frame.now) }
        ensures* after { sem 𝓛 (Rests the_row self.entry (HearsOneMore self.old frame.now result)) }
    {
        if is_single {
            return Ok(alone(frame, self.claims.holder(frame.id.source())));
        }
        // No frame of another group is a claim or a part of a message: most are done with here.
        if !is_network_group(frame.id.pgn()) {
            return Ok(None);
        }
        if frame.id.is_address_claimed() {
            self.note(frame)?;
            return Ok(None);
        }
        self.assemble(frame)
    }

    /// Notes a claim, and forgets what was begun by each address whose holder it changed.
    #[inline(never)]
    fn note(&mut self, frame: &Frame) -> Result<(), AllocError>
        ensures noted { OnOk result ((F : List FrameRecord) → Hears self.old F → Hears self.new (F ++ frame.now ∷ [])) }
        ensures refused { OnErr result (IsAnnouncement frame.now) }
        ensures wanted { OnErr result ((F : List FrameRecord) → Hears self.old F → WantsMemoryBehind F frame.now) }
        ensures unchanged { OnErr result (self.new ≡ self.old) }
    {
        self.assembler.feed(frame)?;
        let changed = self.claims.note(frame);
        for address in changed.as_slice() {
            self.assembler.forget(*address);
        }
        Ok(())
    }

    /// Hands a frame that claims nothing and is no message by itself to the assembler.
    #[inline(always)]
    fn assemble(&mut self, frame: &Frame) -> Result<Option<Heard<'_>>, AllocError>
        ensures heard { IfOk result (λ heard. (singles : ℕ → Bool) → LeavesNetwork singles → IsMany singles frame.now
            → (F : List FrameRecord) → Hears self.old F
            → HeardAtWith singles (F ++ frame.now ∷ []) (length F) (option_map hearing_of heard)) }
        ensures short { IfOk result (λ heard. IfSome heard (λ h. length h.message.payload.now ≤ 1785)) }
        ensures refused { OnErr result (IsAnnouncement frame.now) }
        ensures wanted { OnErr result ((F : List FrameRecord) → Hears self.old F → WantsMemoryBehind F frame.now) }
        ensures* after { sem 𝓛 (Rests the_row self.entry (λ n. MatchResult result
            (λ _. claim_of frame.now ≡ None → (F : List FrameRecord) → Hears self.old F → Hears n (F ++ frame.now ∷ []))
            (λ _. n ≡ self.old))) }
    {
        let name = self.claims.holder(frame.id.source());
        match self.assembler.feed(frame)? {
            Fed::Whole(message) => {
                let destination = destination(message.pgn, frame.id);
                Ok(Some(Heard {
                    message,
                    destination,
                    name,
                }))
            }
            Fed::Taken => Ok(None),
            Fed::Ignored => Ok(None),
        }
    }

    /// Forgets all that it has heard, and gives all memory back.
    pub fn clear(&mut self)
        ensures hears { Hears self.new [] }
        ensures memory { self.new.assembler ≡ new_assembler }
    {
        self.assembler.clear();
        self.claims = Claims::new();
    }

    /// The NAME that holds the address; `None` where no claim tells it, and for 254 and 255.
    pub fn holder(&self, address: u8) -> Option<Name>
        ensures value { option_map name_raw result ≡ holder_of self.now address }
        ensures holder { (F : List FrameRecord) → Hears self.now F
            → IsHolderAfter (claims_of F) address (option_map name_raw result) }
    {
        self.claims.holder(address)
    }

    /// How many messages are open, 0 to 270.
    pub fn open(&self) -> usize
        ensures value { result ≡ messages_open self.now.assembler.sessions }
        ensures few { result ≤ 270 }
        ensures after { (F : List FrameRecord) → Hears self.now F → AreOpen F result }
    {
        self.assembler.open()
    }

    /// Seven bytes for each packet that is kept of an open message: at most 1,785 for each of these.
    pub fn held(&self) -> usize
        ensures bounded { result ≤ 1785 * messages_open self.now.assembler.sessions }
        ensures after { (F : List FrameRecord) → Hears self.now F → AreHeld F result }
    {
        self.assembler.held()
    }
}

/// A frame as a message by itself; `None` from the null and the global address.
#[inline(always)]
fn alone(frame: &Frame, name: Option<Name>) -> Option<Heard<'_>>
    ensures value { option_map hearing_of result ≡ heard_alone frame.now (option_map name_raw name) }
    ensures short { IfSome result (λ h. length h.message.payload.now ≤ 1785) }
{
    if is_address(frame.id.source()) {
        Some(by_itself(frame, name))
    } else {
        None
    }
}

/// A frame as a message by itself.
#[inline(always)]
fn by_itself(frame: &Frame, name: Option<Name>) -> Heard<'_>
    ensures value { hearing_of result ≡ hearing_alone frame.now (option_map name_raw name) }
    ensures short { length result.message.payload.now ≤ 1785 }
{
    let message = Message {
        source: frame.id.source(),
        pgn: frame.id.pgn(),
        payload: frame.bytes.as_slice(),
        stamp: frame.stamp,
    };
    let destination = destination(message.pgn, frame.id);
    Heard {
        message,
        destination,
        name,
    }
}
