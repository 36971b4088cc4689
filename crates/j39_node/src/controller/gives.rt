//! What a controller gives its program: how what was accepted ended, what was received, news and requests.
ghost use Rattle.std.specs.Prelude.{◌≡◌, Option, List, ◌∷◌, IfSome, Some, None, length, ◌<◌, ◌≤◌, false};
ghost use Rattle.std.specs.List.{slice_get};
ghost use Rattle.std.specs.Option.{option_map};
ghost use Rattle.j39_frame.specs.Stamp.{stamp_micros};
ghost use Rattle.j39_transport.specs.ReceiverModel.{message_shown};
ghost use Rattle.j39_address.specs.Name.{name_raw};
ghost use Rattle.j39_node.specs.History.{Who, Call, got, handed};
ghost use Rattle.j39_node.specs.Reception.{askers, reception, senders, transfer_sender};
ghost use Rattle.j39_node.specs.Hearing.{broadcast_senders, waiting};
ghost use Rattle.j39_node.specs.History.Call.{TakeAskEnded, TakeEnded, TakeReceived, TakeRequest, TakeNews, TakeBroadcastEnded, ReleaseTransfer, TakeTransferEnded, ReleaseBroadcast};
ghost use Rattle.j39_node.specs.Is.{Is, received_by, request_by, silence};

use crate::controller::Controller;
use crate::{AskEnding, Ending, News, Received, Request, TransferEnding};
use j39_address::Name;
use j39_transport::Message;

impl Controller {
    /// Tells a message that ended, each once, in the order of their tokens.
    pub fn take_ended(&mut self) -> Option<(u64, Ending)>
        ensures { (w : Who) (H : List Call) → Is w H self.old → Is w (TakeEnded result ∷ H) self.new }
    {
        if self.outgoing.is_empty() {
            return None;
        }
        if self.taken > 0 {
            self.taken -= 1;
            let first = self.outgoing.remove(0);
            return Some((first.token, first.ending()));
        }
        if self.hold.is_lost() {
            let first = self.outgoing.remove(0);
            return Some((first.token, Ending::Withdrawn));
        }
        None
    }

    /// Tells a broadcast that ended, each once.
    pub fn take_broadcast_ended(&mut self) -> Option<(u64, Ending)>
        ensures { (w : Who) (H : List Call) → Is w H self.old → Is w (TakeBroadcastEnded result ∷ H) self.new }
    {
        let is_lost = self.hold.is_lost();
        match self.lane.ended(is_lost) {
            Some(ended) => {
                self.lane.close();
                Some(ended)
            }
            None => None,
        }
    }

    /// Tells a transfer that ended, each once.
    pub fn take_transfer_ended(&mut self) -> Option<(u64, TransferEnding)>
        ensures { (w : Who) (H : List Call) → Is w H self.old → Is w (TakeTransferEnded result ∷ H) self.new }
    {
        self.transfers.all.take_ended()
    }

    /// Tells a request that ended, each once, at the moment of the last call.
    pub fn take_ask_ended(&mut self) -> Option<(u64, AskEnding)>
        ensures { (w : Who) (H : List Call) → Is w H self.old → Is w (TakeAskEnded result ∷ H) self.new }
    {
        let silence = self.silence(self.is_coming(self.incoming.clock));
        let ended = self.asking.ended(silence)?;
        self.asking.current = None;
        Some(ended)
    }

    /// A message that was heard for the program, each once, the oldest first, with the NAME that held its source then.
    pub fn take_received(&mut self) -> Option<Received>
        ensures sender { IfSome result (λ r. (w : Who) (H : List Call) → Is w H self.old
            → slice_get (senders w H) (length (got H)) ≡ Some (option_map name_raw r.name)) }
        ensures is { (w : Who) (H : List Call) → Is w H self.old
            → Is w (TakeReceived (option_map received_by result) ∷ H) self.new }
    {
        if self.inbox.unread.is_empty() {
            return None;
        }
        let first = self.inbox.unread.remove(0);
        Some(first)
    }

    /// The oldest message of 9 to 1,785 bytes that came in packets to its address, until `release_transfer` is called: what was
    /// acknowledged lies here. Till then its box isn't free for another.
    pub fn received_transfer(&self) -> Option<Message<'_>>
        ensures value { (w : Who) (H : List Call) → Is w H self.now
            → option_map (λ m. (stamp_micros m.stamp, message_shown m)) result ≡ slice_get (reception w H).waits 0 }
        ensures most { IfSome result (λ m. length m.payload.now ≤ 1785) }
    {
        self.incoming.message()
    }

    /// The NAME that held the source of that message from its RTS to its last packet; `None` where nobody did, or none waits.
    pub fn transfer_sender(&self) -> Option<Name>
        ensures { (w : Who) (H : List Call) → Is w H self.now → option_map name_raw result ≡ transfer_sender w H }
    {
        self.incoming.sender()
    }

    /// Frees the box of that message, which by this the program got; whether there was one.
    pub fn release_transfer(&mut self) -> bool
        ensures { (w : Who) (H : List Call) → Is w H self.old → Is w (ReleaseTransfer result ∷ H) self.new }
    {
        self.incoming.release()
    }

    /// The oldest message of 9 to 1,785 bytes that came in packets to all, until `release_broadcast` is called. Till then its box
    /// isn't free for another.
    pub fn received_broadcast(&self) -> Option<Message<'_>>
        ensures value { (w : Who) (H : List Call) → Is w H self.now
            → option_map (λ m. (stamp_micros m.stamp, message_shown m)) result ≡ slice_get (waiting w H) 0 }
        ensures most { IfSome result (λ m. length m.payload.now ≤ 1785) }
    {
        self.hearing.message()
    }

    /// The NAME that held the source of that broadcast from its announcement to its last packet; `None` where nobody did.
    pub fn broadcast_sender(&self) -> Option<Name>
        ensures { (w : Who) (H : List Call) → Is w H self.now
            → IfSome (slice_get (broadcast_senders w H) 0) (λ name. option_map name_raw result ≡ name) }
    {
        self.hearing.sender()
    }

    /// Frees the box of that broadcast, which by this the program got; whether there was one.
    pub fn release_broadcast(&mut self) -> bool
        ensures { (w : Who) (H : List Call) → Is w H self.old → Is w (ReleaseBroadcast result ∷ H) self.new }
    {
        self.hearing.release()
    }

    /// What happened, each once.
    pub fn take_news(&mut self) -> Option<News>
        ensures { (w : Who) (H : List Call) → Is w H self.old → Is w (TakeNews result ∷ H) self.new }
    {
        if self.news.lost {
            self.news.lost = false;
            return Some(News::AddressLost);
        }
        if self.news.another {
            self.news.another = false;
            return Some(News::AnotherAtAddress);
        }
        if let Some(address) = self.news.doubled {
            self.news.doubled = None;
            return Some(News::NameDoubled(address));
        }
        if self.news.missed {
            self.news.missed = false;
            return Some(News::MessagesMissed);
        }
        None
    }

    /// A request for a served group, each once, the oldest first, with the NAME that held its source then; one that is repeated
    /// while it waits is no other (own). Answer it by `acknowledge`, or by `send` of its group: to all where all were asked, else
    /// to who asked.
    pub fn take_request(&mut self) -> Option<Request>
        ensures asker { IfSome result (λ r. (w : Who) (H : List Call) → Is w H self.old
            → slice_get (askers w H) (length (handed H)) ≡ Some (option_map name_raw r.name)) }
        ensures is { (w : Who) (H : List Call) → Is w H self.old
            → Is w (TakeRequest (option_map request_by result) ∷ H) self.new }
    {
        if self.desk.waiting.is_empty() {
            return None;
        }
        let first = self.desk.waiting.remove(0);
        Some(first)
    }
}
