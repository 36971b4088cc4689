//! What each line of a message begins with before the number of its group, remembered for each sender.
ghost use Rattle.std.specs.Prelude.{◌≡◌, ◌+◌, ◌<◌, ◌≤◌, ℕ, None, drop, length, slice_index_or};
ghost use Rattle.std.specs.Option.{option_map};
ghost use Rattle.j39_address.specs.Name.{name_raw};
ghost use Rattle.j39_io.specs.Backwards.{WritesBefore};
ghost use Rattle.j39_listen.specs.Report.{address_text, hearing_sender, name_text};
ghost use Rattle.j39_listen.specs.HeardModel.{hearing_of};

use crate::Heard;
use j39_address::Name;
use j39_groups::HEAD;
use j39_io::backwards::{byte_before, bytes_before, hex_before};
use j39_io::vectors::hex_of_eight;
use j39_log::StampText;

/// Where a head begins in its block: a stamp, an address and a NAME, and a space after each, have 40 bytes.
pub(crate) const FROM: usize = 8;

/// Where its stamp ends.
const STAMP_END: usize = FROM + 19;

/// A sender, and the head of its lines but for the stamp, which has room in front.
#[derive(Clone, Copy)]
struct Sender {
    address: u8,
    name: Option<Name>,
    head: [u8; HEAD],
    ghost spelled: { drop 27 head ≡ address_text address (option_map name_raw name) },
}

impl Sender {
    /// The head of a sender.
    fn new(address: u8, name: Option<Name>) -> Sender
        ensures address { result.address ≡ address }
        ensures name { result.name ≡ name }
    {
        let mut head = [b' '; HEAD];
        let third = byte_before(&mut head, HEAD, b' ');
        let digits = name_before(&mut head, third, name);
        let second = byte_before(&mut head, digits, b' ');
        let text = hex_before(&mut head, second, &[address]);
        let _ = byte_before(&mut head, text, b' ');
        Sender {
            address,
            name,
            head,
        }
    }
}

/// The heads of the senders that were heard last, one for each address, and the text of the last stamp.
#[derive(Drop)]
pub(crate) struct Heads {
    stamp: StampText,
    senders: [Sender; 256],
}

impl Heads {
    ghost use Rattle.j39_listen.specs.declared.head.Sender.{Sender};
    ghost use Rattle.j39_log.specs.StampTexts.{text_micros};

    /// With nothing heard.
    pub fn new() -> Heads
        ensures stamp { text_micros result.stamp ≡ 0 }
        ensures addresses { (place : ℕ) (d : Sender) → place < 256 → (slice_index_or result.senders place d).address ≡ 0 }
        ensures names { (place : ℕ) (d : Sender) → place < 256 → (slice_index_or result.senders place d).name ≡ None }
    {
        Heads {
            stamp: StampText::of(0),
            senders: [Sender::new(0, None); 256],
        }
    }

    /// Notes the text of a stamp that may come next.
    #[inline(always)]
    pub fn note_stamp(&mut self, text: StampText)
        ensures stamp { self.new.stamp ≡ text }
        ensures senders { self.new.senders ≡ self.old.senders }
    {
        self.stamp = text;
    }

    /// Writes what the lines of a message begin with: stamp, address and NAME, and a space after each, behind the first eight bytes.
    #[inline(always)]
    pub fn put_head(&mut self, head: &mut [u8; HEAD], heard: &Heard<'_>)
        ensures { drop 8 head.new ≡ hearing_sender (hearing_of heard.now) }
    {
        let place = usize::from(heard.message.source);
        self.find(place, heard.message.source, heard.name);
        *head = self.senders[place].head;
        let _ = self
            .stamp
            .stamp_before(head, STAMP_END, heard.message.stamp);
    }

    /// Sees to it that the head of a sender is remembered.
    #[inline(always)]
    fn find(&mut self, place: usize, address: u8, name: Option<Name>)
        requires { place < 256 }
        ensures address { (d : Sender) → (slice_index_or self.new.senders place d).address ≡ address }
        ensures name { (d : Sender) → (slice_index_or self.new.senders place d).name ≡ name }
    {
        let known = &self.senders[place];
        if known.address != address || known.name != name {
            self.learn(place, address, name);
        }
    }

    /// Makes the head of a sender, and remembers it.
    #[cold]
    #[inline(never)]
    fn learn(&mut self, place: usize, address: u8, name: Option<Name>)
        requires { place < 256 }
        ensures address { (d : Sender) → (slice_index_or self.new.senders place d).address ≡ address }
        ensures name { (d : Sender) → (slice_index_or self.new.senders place d).name ≡ name }
    {
        self.senders[place] = Sender::new(address, name);
    }
}

/// Writes a NAME in sixteen hex digits, or sixteen dashes.
#[inline(always)]
fn name_before(out: &mut [u8], end: usize, name: Option<Name>) -> usize
    requires room { 16 ≤ end }
    requires within { end ≤ length out.old }
    ensures written { WritesBefore out.old out.new end result (name_text (option_map name_raw name)) }
    ensures starts { result + 16 ≡ end }
{
    match name {
        Some(name) => bytes_before(out, end, hex_of_eight(&name.raw().to_be_bytes())),
        None => bytes_before(out, end, *b"----------------"),
    }
}
