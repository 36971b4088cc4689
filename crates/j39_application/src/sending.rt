//! One call for a message of any length, and one for how what was sent ended (J1939-21, 5.10).
ghost use Rattle.std.specs.Prelude.{◌≡◌, ◌++◌, ◌∷◌, List, IfOk, IfSome};
ghost use Rattle.std.specs.Result.{result_map_both};
ghost use Rattle.j39_frame.specs.Stamp.{stamp_micros};
ghost use Rattle.j39_node.specs.History.{Who, Call};
ghost use Rattle.j39_node.specs.History.Call.{At};
ghost use Rattle.j39_node.specs.Is.{Is};
ghost use Rattle.j39_application.specs.Sending.{coded, draft_of, ended_by, numbers, sent_as, way_of, way_told};

use j39_frame::{GLOBAL_ADDRESS, Pgn, Stamp};
use j39_node::{AskEnding, Controller, Ending, Refused, TransferEnding};

/// The most bytes of a message that goes in one frame (J1939-21, 5.2).
const LONGEST_FRAME: usize = 8;

/// A message that is to be sent.
#[derive(Clone, Copy, Debug)]
pub struct Outgoing<'a> {
    /// 0 (the highest) to 7. In packets to one address it orders transfers, whose frames have 7 (J1939-21, 5.10.2); in packets to all
    /// it isn't looked at.
    pub priority: u8,
    /// The group of the message.
    pub group: Pgn,
    /// 255 for all, else another's address. In one frame a group of PF 240 and up goes to all.
    pub to: u8,
    /// 0 to 1,785 bytes.
    pub bytes: &'a [u8],
}

/// The way that a message goes.
#[derive(Clone, Copy, Debug, PartialEq, Eq)]
pub enum Way {
    /// In one frame: of up to 8 bytes; a request too.
    Frame,
    /// In packets to all (J1939-21, 5.10.3.5).
    Broadcast,
    /// In packets to one address (J1939-21, 5.10.3).
    Transfer,
}

/// What is told by when something that was accepted ends: no two that a controller accepts have the same till it moves.
#[derive(Clone, Copy, Debug, PartialEq, Eq)]
pub struct Token {
    /// The way that it goes.
    pub way: Way,
    /// How many were accepted that way before it.
    pub number: u64,
}

impl Token {
    /// Of what went this way behind so many.
    pub fn new(way: Way, number: u64) -> Token
        ensures { result ≡ record { way = way; number = number } }
    {
        Token { way, number }
    }

    /// Four times its number, and its way: 0, 1 or 2. It is another for each of the first 2^62 tokens of each way.
    pub fn code(self) -> u64
        ensures { result ≡ coded self.way self.number }
    {
        let way = match self.way {
            Way::Frame => 0,
            Way::Broadcast => 1,
            Way::Transfer => 2,
        };
        self.number.wrapping_mul(4).wrapping_add(way)
    }
}

/// How something ended that was accepted.
#[derive(Clone, Copy, Debug, PartialEq, Eq)]
pub enum End {
    /// A message of one frame, or the frame of a request.
    Frame(Ending),
    /// A message in packets to all.
    Broadcast(Ending),
    /// A message in packets to one address.
    Transfer(TransferEnding),
    /// A request, under the token of its frame.
    Request(AskEnding),
}

impl Outgoing<'_> {
    /// By its length and its destination: in one frame up to 8 bytes; more in packets, to all or to one address.
    pub fn way(&self) -> Way
        ensures { result ≡ way_of (draft_of self.now) }
    {
        if self.bytes.len() <= LONGEST_FRAME {
            Way::Frame
        } else if self.to == GLOBAL_ADDRESS {
            Way::Broadcast
        } else {
            Way::Transfer
        }
    }
}

/// Hands a message to a controller, by `send`, `broadcast` or `transfer` of it as its way is; answers its token, or why that refuses it.
pub fn send(
    controller: &mut Controller,
    now: Stamp,
    message: &Outgoing<'_>,
) -> Result<Token, Refused>
    ensures goes { (w : Who) (H : List Call) → Is w H controller.old
        → Is w (At (stamp_micros now) (sent_as (draft_of message.now) (numbers result)) ∷ H) controller.new }
    ensures way { IfOk result (λ token. token.way ≡ way_of (draft_of message.now)) }
{
    let way = message.way();
    let number = match way {
        Way::Frame => controller.send(
            now,
            message.priority,
            message.group,
            message.to,
            message.bytes,
        ),
        Way::Broadcast => controller.broadcast(now, message.group, message.bytes),
        Way::Transfer => controller.transfer(
            now,
            message.priority,
            message.group,
            message.to,
            message.bytes,
        ),
    }?;
    Ok(Token::new(way, number))
}

/// Tells how something ended, each once: messages of one frame first, in order of their tokens, then broadcasts, transfers and requests.
pub fn take_ended(controller: &mut Controller) -> Option<(Token, End)>
    ensures goes { (w : Who) (H : List Call) → Is w H controller.old → Is w (ended_by result ++ H) controller.new }
    ensures way { IfSome result (λ told. told.0.way ≡ way_told told.1) }
{
    if let Some((number, ending)) = controller.take_ended() {
        return Some((Token::new(Way::Frame, number), End::Frame(ending)));
    }
    if let Some((number, ending)) = controller.take_broadcast_ended() {
        return Some((Token::new(Way::Broadcast, number), End::Broadcast(ending)));
    }
    if let Some((number, ending)) = controller.take_transfer_ended() {
        return Some((Token::new(Way::Transfer, number), End::Transfer(ending)));
    }
    let (number, ending) = controller.take_ask_ended()?;
    Some((Token::new(Way::Frame, number), End::Request(ending)))
}
