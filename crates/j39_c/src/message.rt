//! Messages as C has them.
ghost use Rattle.std.specs.Prelude.{◌≡◌, ◌≤◌, None, length};
ghost use Rattle.std.specs.Option.{option_map};
ghost use Rattle.j39_address.specs.Name.{name_raw};
ghost use Rattle.j39_frame.specs.Stamp.{stamp_micros};
ghost use Rattle.j39_listen.specs.HeardModel.{hearing_of, message_of};
ghost use Rattle.j39_c.specs.Messages.{hearing_in};

use j39_address::Name;
use j39_listen::Heard;
use j39_transport::{LONGEST, Message};

/// A message, `j1939_message` of the header.
#[repr(C)]
pub struct WholeMessage {
    /// The moment of its last frame, in microseconds.
    pub micros: u64,
    /// The NAME of its sender, where `is_named` isn't 0.
    pub name: u64,
    /// Its group.
    pub pgn: u32,
    /// How many bytes it has, 0 to 1,785.
    pub len: u16,
    /// The address that sent it.
    pub source: u8,
    /// 0 where no claim tells who sent it.
    pub is_named: u8,
    /// Its bytes; what stands behind the first `len` says nothing.
    pub data: [u8; LONGEST],
    /// 0 where no destination is told: an assembler and a receiver tell none.
    pub is_addressed: u8,
    /// The address that a listener heard it sent to, 255 for all, where `is_addressed` isn't 0.
    pub destination: u8,
}

impl WholeMessage {
    /// Writes out a message that was heard.
    pub(crate) fn put(&mut self, heard: &Heard<'_>)
        requires { length heard.now.message.payload.now ≤ 1785 }
        ensures { hearing_in self.new ≡ hearing_of heard.now }
    {
        self.put_message(&heard.message, heard.name);
        self.put_destination(heard.destination);
    }

    /// Writes out a message, and who sent it; no destination.
    pub(crate) fn put_message(&mut self, message: &Message<'_>, name: Option<Name>)
        requires { length message.now.payload.now ≤ 1785 }
        ensures { hearing_in self.new ≡ record {
          message = message_of message.now;
          destination = None;
          stamp = stamp_micros message.now.stamp;
          name = option_map name_raw name;
        } }
    {
        let payload = message.payload;
        self.data[..payload.len()].copy_from_slice(payload);
        self.len = payload.len() as u16;
        self.micros = message.stamp.micros();
        self.pgn = message.pgn.raw();
        self.source = message.source;
        self.put_name(name);
        self.put_destination(None);
    }

    fn put_name(&mut self, name: Option<Name>)
        ensures { hearing_in self.new ≡ record (hearing_in self.old) { name = option_map name_raw name } }
    {
        match name {
            Some(name) => {
                self.is_named = 1;
                self.name = name.raw();
            }
            None => {
                self.is_named = 0;
                self.name = 0;
            }
        }
    }

    /// Writes out where it was sent.
    pub(crate) fn put_destination(&mut self, destination: Option<u8>)
        ensures { hearing_in self.new ≡ record (hearing_in self.old) { destination = destination } }
    {
        match destination {
            Some(address) => {
                self.is_addressed = 1;
                self.destination = address;
            }
            None => {
                self.is_addressed = 0;
                self.destination = 0;
            }
        }
    }
}
