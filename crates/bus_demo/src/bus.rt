//! The bus: one frame at a time, and a clock in microseconds.
ghost use Rattle.std.specs.Prelude.{◌≡◌, ◌↔◌, ◌≤◌, ◌<◌, ◌+◌, ◌*◌, ◌^◌, ◌++◌, ◌∷◌, [], Contains, IsTrue, OnOk, length, true};
ghost use Rattle.j39_frame.specs.Stamp.{stamp_micros};
ghost use Rattle.j39_io.specs.Chars.{newline};
ghost use Rattle.j39_io.specs.Puts.{Puts};
ghost use Rattle.j39_io.specs.Turn.{turn};
ghost use Rattle.j39_log.specs.Canonical.{line_text};
ghost use Rattle.bus_demo.specs.Playing.{AreAllNoted, AreTold, HaveTurned};
ghost use Rattle.bus_demo.specs.Run.{Admits, PlaysTo, TellsFault};
ghost use Rattle.bus_demo.specs.Sending.{Goes, IsSeen, Sends, Steps, TakesAt};
ghost use Rattle.bus_demo.specs.Turning.{AreAsked, KeepsButTurned, TurnsAt};
ghost use Rattle.bus_demo.specs.declared.bus.BusFault.TheVariants.{Memory, Write};

mod arbitration;
pub(crate) mod book;
pub(crate) mod diagnostics;
pub(crate) mod display;
pub(crate) mod gauges;
pub(crate) mod losses;
pub(crate) mod player;
mod publisher;
pub(crate) mod role;
pub(crate) mod scenario;
mod station;

use arbitration::winner;
use book::Book;
use j39_frame::{Frame, Id, Stamp};
use j39_io::{DeviceFault, Sink, put_all};
use j39_log::{Bus as Interface, line_of};
use player::Player;
use station::Sent;
use std::alloc::{AllocError, Global};

/// The microseconds of a bit at 250 kbit/s.
const BIT_TIME: u64 = 4;

/// The bits of a frame with no data: the frame with its 29-bit identifier, and the space behind it.
/// Stuffed bits aren't counted.
const FRAME_BITS: u64 = 67;

/// How long the bus stays idle before it looks for a wish again, in microseconds.
const IDLE: u64 = 100;

/// The name of the bus in the log.
const INTERFACE: &[u8; 4] = b"can0";

/// Why a bus stops before its end.
#[derive(Clone, Copy)]
pub enum BusFault {
    /// Memory was refused.
    Memory,
    /// The log couldn't be written.
    Write,
}

impl From<AllocError> for BusFault {
    ghost from_gives = { λ _ fault. fault ≡ Memory };

    fn from(_error: AllocError) -> BusFault {
        BusFault::Memory
    }
}

impl From<DeviceFault> for BusFault {
    ghost from_gives = { λ _ fault. fault ≡ Write };

    fn from(_fault: DeviceFault) -> BusFault {
        BusFault::Write
    }
}

/// A bus, its controllers, and the book of what they were told to send.
///
/// A frame that is lost takes its time on the bus and is seen by no one: neither the log nor another
/// controller has it. Its sender knows nothing of that.
#[derive(Drop)]
pub struct Bus<'a> {
    interface: Interface,
    controllers: Vec<Player>,
    /// What each of them wishes to send.
    wishes: Vec<Option<Id>>,
    /// The numbers of the frames that are lost, counted from 1.
    lose: &'a [u64],
    now: Stamp,
    frames: u64,
    book: Book,
}

impl<'a> Bus<'a> {
    /// A bus at the moment 0, on which nothing was sent yet.
    pub fn new(alloc: Global, controllers: Vec<Player>, lose: &'a [u64]) -> Bus<'a>
        ensures controllers { result.controllers.items ≡ controllers.items }
        ensures lose { result.lose.now ≡ lose.now }
        ensures fresh { (result.frames ≡ 0) × (stamp_micros result.now ≡ 0) × (result.book.handed.items ≡ []) }
    {
        Bus {
            interface: Interface::new(INTERFACE).unwrap(),
            controllers,
            wishes: Vec::new(alloc),
            lose,
            now: Stamp::new(0).unwrap(),
            frames: 0,
            book: Book::new(alloc),
        }
    }

    /// Runs the bus to a moment in microseconds, and writes each frame that is seen as a line of a log.
    pub fn run<W: Sink>(&mut self, end: u64, log: &mut W) -> Result<(), BusFault>
        ensures plays { OnOk result (PlaysTo end self.old self.new (turn W.written W.has_failed log.old log.new)) }
        ensures played { OnOk result (end + 1000 < 10 ^ 16 → end ≤ stamp_micros self.new.now) }
        ensures flushed { OnOk result (W.is_flushed log.new ≡ true) }
        ensures faults { TellsFault result (turn W.written W.has_failed log.old log.new) }
        ensures lose { self.new.lose ≡ self.old.lose }
    {
        // A step takes a microsecond at least.
        for step in 0..end {
            if self.now.micros() >= end {
                break;
            }
            self.step(log)?;
        }
        log.flush()?;
        Ok(())
    }

    /// Runs the bus to the moment of a frame from outside, which all controllers then hear: it is a line of the log as each.
    pub fn admit<W: Sink>(&mut self, frame: Frame, log: &mut W) -> Result<(), BusFault>
        ensures admits { OnOk result (Admits frame self.old self.new (turn W.written W.has_failed log.old log.new)) }
        ensures faults { TellsFault result (turn W.written W.has_failed log.old log.new) }
        ensures lose { self.new.lose ≡ self.old.lose }
    {
        self.run(frame.stamp.micros(), log)?;
        self.frames = self.frames.saturating_add(1);
        let seen = Frame {
            stamp: self.now,
            id: frame.id,
            bytes: frame.bytes,
        };
        let outside = self.controllers.len();
        self.show(outside, &seen, log)
    }

    /// Lets each controller take its turn, and then sends the frame that wins the bus.
    fn step<W: Sink>(&mut self, log: &mut W) -> Result<(), BusFault>
        ensures steps { OnOk result (Steps self.old self.new (turn W.written W.has_failed log.old log.new)) }
        ensures goes_on { OnOk result (stamp_micros self.old.now + 1000 < 10 ^ 16
            → stamp_micros self.old.now < stamp_micros self.new.now) }
        ensures faults { TellsFault result (turn W.written W.has_failed log.old log.new) }
        ensures lose { self.new.lose ≡ self.old.lose }
    {
        self.turns()?;
        match winner(self.wishes.as_slice()) {
            Some(sender) => self.send(sender, log),
            None => {
                self.now = later(self.now, IDLE);
                Ok(())
            }
        }
    }

    /// Lets each controller take its turn, one after another, and asks what it then wishes to send.
    fn turns(&mut self) -> Result<(), AllocError>
        ensures turned { OnOk result (HaveTurned (stamp_micros self.old.now) self.old.controllers.items
            self.new.controllers.items) }
        ensures asked { OnOk result (AreAsked (stamp_micros self.old.now) self.new.controllers.items self.new.wishes.items) }
        ensures rest { KeepsButTurned self.old self.new }
    {
        self.wishes.clear();
        for place in 0..self.controllers.len() {
            self.turn(place)?;
        }
        Ok(())
    }

    /// Lets the controller at a place take its turn, and asks what it then wishes to send.
    fn turn(&mut self, place: usize) -> Result<(), AllocError>
        requires { place < length self.old.controllers.items }
        ensures turned { OnOk result (TurnsAt place (stamp_micros self.old.now) self.old self.new) }
        ensures rest { KeepsButTurned self.old self.new }
    {
        self.controllers[place].pass(self.now, &mut self.book)?;
        let wish = self.controllers[place].wish(self.now);
        self.wishes.push(wish)?;
        Ok(())
    }

    /// Sends the frame that a controller wishes to send, where it still may.
    fn send<W: Sink>(&mut self, sender: usize, log: &mut W) -> Result<(), BusFault>
        ensures sends { OnOk result (Sends sender self.old self.new
            (turn W.written W.has_failed log.old log.new)) }
        ensures goes_on { OnOk result (stamp_micros self.old.now + 1000 < 10 ^ 16
            → stamp_micros self.old.now < stamp_micros self.new.now) }
        ensures faults { TellsFault result (turn W.written W.has_failed log.old log.new) }
        ensures lose { self.new.lose ≡ self.old.lose }
    {
        match self.take_frame(sender) {
            Some(sent) => self.carry(sender, sent, log),
            None => {
                self.now = later(self.now, 1);
                Ok(())
            }
        }
    }

    /// The frame that a controller wishes to send, where it still may.
    fn take_frame(&mut self, sender: usize) -> Option<Sent>
        ensures takes { TakesAt (stamp_micros self.old.now) sender self.old.controllers.items result self.new.controllers.items }
        ensures rest { self.new ≡ record self.old { controllers = self.new.controllers } }
    {
        self.controllers.get_mut(sender)?.take_frame(self.now)
    }

    /// Carries a frame, which is seen at its end, or lost.
    fn carry<W: Sink>(&mut self, sender: usize, sent: Sent, log: &mut W) -> Result<(), BusFault>
        ensures goes { OnOk result (Goes sender sent self.old self.new
            (turn W.written W.has_failed log.old log.new)) }
        ensures goes_on { OnOk result (stamp_micros self.old.now + 1000 < 10 ^ 16
            → stamp_micros self.old.now < stamp_micros self.new.now) }
        ensures faults { TellsFault result (turn W.written W.has_failed log.old log.new) }
        ensures lose { self.new.lose ≡ self.old.lose }
    {
        let Sent { frame, part } = sent;
        self.now = later(self.now, frame_time(frame.bytes.len()));
        self.frames = self.frames.saturating_add(1);
        let is_lost = self.loses();
        self.book.note(part, is_lost, self.now);
        if is_lost {
            return Ok(());
        }
        let seen = Frame {
            stamp: self.now,
            id: frame.id,
            bytes: frame.bytes,
        };
        self.show(sender, &seen, log)
    }

    /// Whether the frame that was counted last is one of those that are lost.
    fn loses(&self) -> bool
        ensures { IsTrue result ↔ Contains self.entry.now.lose.now self.entry.now.frames }
    {
        self.lose.contains(&self.frames)
    }

    /// Shows a frame: it is a line of the log, and the other controllers hear it.
    fn show<W: Sink>(&mut self, sender: usize, frame: &Frame, log: &mut W) -> Result<(), BusFault>
        ensures seen { OnOk result (IsSeen sender frame.now self.old.interface self.old.controllers.items
            self.new.controllers.items self.old.book self.new.book (turn W.written W.has_failed log.old log.new)) }
        ensures now { self.new.now ≡ self.old.now }
        ensures frames { self.new.frames ≡ self.old.frames }
        ensures faults { TellsFault result (turn W.written W.has_failed log.old log.new) }
        ensures lose { self.new.lose ≡ self.old.lose }
    {
        put_line(frame, &self.interface, log)?;
        self.tell(sender, frame)?;
        Ok(())
    }

    /// All controllers but its sender hear a frame, one after another, each once.
    fn tell(&mut self, sender: usize, frame: &Frame) -> Result<(), AllocError>
        ensures told { OnOk result (AreTold sender frame.now self.old.controllers.items self.new.controllers.items) }
        ensures noted { OnOk result (AreAllNoted sender frame.now self.old.controllers.items
            self.old.book self.new.book) }
        ensures now { self.new.now ≡ self.old.now }
        ensures frames { self.new.frames ≡ self.old.frames }
        ensures lose { self.new.lose ≡ self.old.lose }
    {
        for place in 0..self.controllers.len() {
            if place != sender {
                self.controllers[place].hear(frame, &mut self.book)?;
            }
        }
        Ok(())
    }

    /// How many frames were sent, the lost ones among them.
    pub fn frames(&self) -> u64
        ensures { result ≡ self.entry.now.frames }
    {
        self.frames
    }

    /// The book of what was handed in.
    pub fn book(&self) -> &Book
        ensures { result.now ≡ self.entry.now.book }
    {
        &self.book
    }

    /// The controllers, in the order in which they win where they wish to send one identifier.
    pub fn controllers(&self) -> &[Player]
        ensures { result.now ≡ self.entry.now.controllers.items }
    {
        self.controllers.as_slice()
    }
}

/// Writes a frame as a line of a log.
fn put_line<W: Sink>(frame: &Frame, bus: &Interface, log: &mut W) -> Result<(), DeviceFault>
    ensures { Puts (line_text frame.now bus.now ++ newline ∷ []) result (turn W.written W.has_failed log.old log.new) }
{
    put_all(log, line_of(frame, bus).as_slice())?;
    put_all(log, b"\n")
}

/// How long a frame of so many bytes takes, in microseconds.
fn frame_time(bytes: usize) -> u64
    requires { bytes ≤ 8 }
    ensures { result ≡ 4 * (67 + 8 * bytes) }
{
    BIT_TIME * (FRAME_BITS + 8 * bytes as u64)
}

/// The moment so many microseconds later; at the end of time the same.
fn later(now: Stamp, micros: u64) -> Stamp
    ensures passes { stamp_micros now + micros < 10 ^ 16 → stamp_micros result ≡ stamp_micros now + micros }
    ensures never_back { stamp_micros now ≤ stamp_micros result }
{
    Stamp::new(now.micros().saturating_add(micros)).unwrap_or(now)
}
