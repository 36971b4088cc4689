//! Requests (J1939-21, 5.4.2), and their acknowledgments (5.4.4).
ghost use Rattle.std.specs.Prelude.{◌≡◌, ◌∷◌, [], ◌%◌, ◌/◌, ◌&&◌, ◌<◌, true, map, length, nat_lt, nat_eq, not, if◌then◌else◌, IfSome, Option, Some, ℕ};
ghost use Rattle.std.specs.List.{list_any};
ghost use Rattle.std.specs.Option.{option_map};
ghost use Rattle.std.specs.Str.{bytes_eq};
ghost use Rattle.j39_address.specs.Name.{name_raw};
ghost use Rattle.j39_frame.specs.Identifier.{destination_of};
ghost use Rattle.j39_frame.specs.Pgn.{pgn_raw};
ghost use Rattle.j39_node.specs.History.{Who, asked, acknowledgment, fresh, is_refusal_due, is_served, repeats, with_refusal, with_request, is_request, nothing};
ghost use Rattle.j39_node.specs.declared.kinds.Answer.TheVariants as busy;
ghost use Rattle.j39_node.specs.Is.{IsRead, asker_by, refusal_by, request_by, who_of};
ghost use Rattle.j39_node.specs.Reception.{with_asker};

use crate::Answer;
use crate::heard::Heard;
use crate::own::{ADDRESS_CLAIMED, Own};
use arrayvec::ArrayVec;
use j39_address::Name;
use j39_frame::{Frame, GLOBAL_ADDRESS, NULL_ADDRESS, Pgn};

/// A request for a group, to this controller or to all.
#[derive(Drop)]
pub struct Request {
    /// The address that asks.
    pub source: u8,
    /// The NAME that held `source` when it was heard; `None` where nobody did.
    pub name: Option<Name>,
    /// 255 where all are asked, else this controller's address.
    pub destination: u8,
    /// The group that is asked for.
    pub group: Pgn,
}

impl Request {
    /// The eight bytes of its acknowledgment.
    fn acknowledgment(&self, answer: Answer) -> [u8; 8]
        ensures { (own : Own) → result ≡ (acknowledgment (who_of nothing own) answer (request_by self.now)).bytes }
    {
        let [low, middle, high, _top] = self.group.raw().to_le_bytes();
        [
            answer.control(),
            0xFF,
            0xFF,
            0xFF,
            self.source,
            low,
            middle,
            high,
        ]
    }

    /// One of the same source, to the same destination and for the same group.
    fn is_same(&self, other: &Request) -> bool
        ensures { result ≡ repeats (request_by other.now) (request_by self.now) }
    {
        self.source == other.source
            && self.destination == other.destination
            && self.group.raw() == other.group.raw()
    }
}

impl Default for Request {
    fn default() -> Request {
        Request {
            source: 0,
            name: None,
            destination: 0,
            group: Pgn::new(0).unwrap(),
        }
    }
}

/// An acknowledgment that is due.
#[derive(Drop)]
pub(crate) struct Due {
    answer: Answer,
    source: u8,
    group: Pgn,
}

impl Default for Due {
    fn default() -> Due {
        Due {
            answer: Answer::Ack,
            source: 0,
            group: Pgn::new(0).unwrap(),
        }
    }
}

impl Due {
    /// The acknowledgment of this request.
    pub(crate) fn new(answer: Answer, request: &Request) -> Due
        ensures { (w : Who) → refusal_by w result ≡ acknowledgment w answer (request_by request.now) }
    {
        Due {
            answer,
            source: request.source,
            group: request.group,
        }
    }

    /// Whether it is this acknowledgment of the request.
    fn is_of(&self, answer: Answer, request: &Request) -> bool
        ensures { (own : Own) → result ≡ bytes_eq (refusal_by (who_of nothing own) self.now).bytes
            (acknowledgment (who_of nothing own) answer (request_by request.now)).bytes }
    {
        self.bytes() == request.acknowledgment(answer)
    }

    /// Its eight bytes.
    pub(crate) fn bytes(&self) -> [u8; 8]
        ensures { (own : Own) → result ≡ (refusal_by (who_of nothing own) self.now).bytes }
    {
        let request = Request {
            source: self.source,
            name: None,
            destination: GLOBAL_ADDRESS,
            group: self.group,
        };
        request.acknowledgment(self.answer)
    }
}

/// Requests that wait for the program, and acknowledgments that are due.
#[derive(Drop)]
pub(crate) struct Desk {
    pub(crate) waiting: ArrayVec<Request, 16>,
    pub(crate) due: ArrayVec<Due, 16>,
}

impl Desk {
    /// Nothing was asked.
    pub(crate) fn new() -> Desk
        ensures waiting { result.waiting.items ≡ [] }
        ensures due { result.due.items ≡ [] }
    {
        Desk {
            waiting: ArrayVec::new(),
            due: ArrayVec::new(),
        }
    }

    /// A request, but one for a served group that waits already.
    pub(crate) fn fresh(&self, own: &Own, request: Option<Request>) -> Option<Request>
        ensures request { option_map request_by result
            ≡ fresh (who_of nothing own.now) (map request_by self.now.waiting.items) (option_map request_by request) }
        ensures same { IfSome result (λ r. request ≡ Some r) }
    {
        match request {
            Some(request) => {
                if own.is_served(request.group) && self.waits(&request) {
                    None
                } else {
                    Some(request)
                }
            }
            None => None,
        }
    }

    /// Takes in a request that is fresh: what is served waits; what isn't, or finds no room, is refused where it came to the
    /// address, unless that refusal is due already.
    pub(crate) fn hear(&mut self, own: &Own, request: Option<Request>)
        ensures waiting { map request_by self.new.waiting.items
            ≡ with_request (who_of nothing own.now) (nat_lt (length self.old.waiting.items) 16) (option_map request_by request)
            (map request_by self.old.waiting.items) }
        ensures askers { (name : Option ℕ) → IfSome request (λ r. asker_by r ≡ name) → map asker_by self.new.waiting.items
            ≡ with_asker (who_of nothing own.now) (nat_lt (length self.old.waiting.items) 16) (option_map request_by request)
            name (map asker_by self.old.waiting.items) }
        ensures due { map (refusal_by (who_of nothing own.now)) self.new.due.items
            ≡ with_refusal (who_of nothing own.now) (nat_lt (length self.old.waiting.items) 16)
            (nat_lt (length self.old.due.items) 16
            && not (is_refusal_due (who_of nothing own.now) (map (refusal_by (who_of nothing own.now)) self.old.due.items)
            (option_map request_by request)))
            (option_map request_by request) (map (refusal_by (who_of nothing own.now)) self.old.due.items) }
    {
        if let Some(request) = request {
            let answer = refusal(own, &request);
            let has_place = self.has_place(answer, &request);
            if own.is_served(request.group) && !self.waiting.is_full() {
                self.waiting.push(request);
            } else if request.destination == own.address && has_place {
                self.due.push(Due::new(answer, &request));
            }
        }
    }

    /// Whether this acknowledgment of it can wait: there is room, and it isn't due already.
    fn has_place(&self, answer: Answer, request: &Request) -> bool
        ensures room { result ≡ true → length self.now.due.items < 16 }
        ensures value { (own : Own) → result ≡ (nat_lt (length self.now.due.items) 16 && not (list_any
            (λ m. bytes_eq m.bytes (acknowledgment (who_of nothing own) answer (request_by request.now)).bytes)
            (map (refusal_by (who_of nothing own)) self.now.due.items))) }
    {
        !self.due.is_full() && !self.is_due(answer, request)
    }

    /// Whether such a request waits.
    fn waits(&self, request: &Request) -> bool
        ensures { result ≡ list_any (repeats (request_by request.now)) (map request_by self.now.waiting.items) }
    {
        let waiting = self.waiting.as_slice();
        for other in waiting {
            if other.is_same(request) {
                return true;
            }
        }
        false
    }

    /// Whether this acknowledgment of it is due.
    fn is_due(&self, answer: Answer, request: &Request) -> bool
        ensures { (own : Own) → result ≡ list_any (λ m. bytes_eq m.bytes (acknowledgment (who_of nothing own) answer (request_by request.now)).bytes)
            (map (refusal_by (who_of nothing own)) self.now.due.items) }
    {
        let due = self.due.as_slice();
        for other in due {
            if other.is_of(answer, request) {
                return true;
            }
        }
        false
    }
}

/// How a request is refused.
fn refusal(own: &Own, request: &Request) -> Answer
    ensures { result ≡ (if is_served (who_of nothing own.now) (request_by request.now).group then busy.Busy else busy.Nack) }
{
    if own.is_served(request.group) {
        Answer::Busy
    } else {
        Answer::Nack
    }
}

/// What a frame, whose source this NAME holds, asks of the controller.
pub(crate) fn asked(
    own: &Own,
    is_held: bool,
    heard: Heard,
    frame: &Frame,
    name: Option<Name>,
) -> Option<Request>
    ensures request { IsRead heard frame.now → option_map request_by result ≡ asked (who_of nothing own.now) is_held frame.now }
    ensures asker { IfSome result (λ r. asker_by r ≡ option_map name_raw name) }
{
    let destination = frame.id.destination()?;
    let number = heard.request()?;
    if is_request(own, is_held, frame, destination, number) {
        let group = Pgn::new(number)?;
        Some(Request {
            source: frame.id.source(),
            name,
            destination,
            group,
        })
    } else {
        None
    }
}

fn is_request(own: &Own, is_held: bool, frame: &Frame, to: u8, group: u32) -> bool
    ensures { result ≡ is_request (who_of nothing own.now) is_held frame.now to group }
{
    (is_held && frame.id.source() < NULL_ADDRESS)
        && (group < 262_144 && !(group == ADDRESS_CLAIMED))
        && (to == GLOBAL_ADDRESS || to == own.address)
}
