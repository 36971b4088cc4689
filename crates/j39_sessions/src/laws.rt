//! What sessions promise over all that they went through.
ghost use Rattle.std.specs.Prelude.{◌≡◌, ◌≢◌, ◌⊎◌, ◌+◌, ◌++◌, ◌<◌, ◌≤◌, ◌∷◌, [], ℕ, List, Option, Some, None, IsTrue, length, suc, take, false, true, nat_lt};
ghost use Rattle.std.specs.List.{All, slice_get};
ghost use Rattle.std.specs.Option.{option_map};
ghost use Rattle.j39_frame.specs.Frame.{FrameRecord};
ghost use Rattle.j39_frame.specs.Identifier.{source_of};
ghost use Rattle.j39_transport.specs.Cutting.{ToSend};
ghost use Rattle.j39_transport.specs.Message.{MessageRecord};
ghost use Rattle.j39_transport.specs.ReceiverStands.{WasHanded};
ghost use Rattle.j39_transport.specs.Receiving.{said_to};
ghost use Rattle.j39_transport.specs.Signals.{Abort, RequestToSend, written};
ghost use Rattle.j39_sessions.specs.Example.{between, last_packet, requested};
ghost use Rattle.j39_sessions.specs.Packets.{Bring, IsPacket};
ghost use Rattle.j39_sessions.specs.Events.{Event, Hears, Ticks, after, delivered, heard, released, ticked_of};
ghost use Rattle.j39_sessions.specs.Sessions.{AreApart, Session, SessionsRecord, earliest, from, has_room, hears, is_of_session, limit_in, longest, made, name_by, of, receiving, replied, reply_to, said, session_by, session_ticked, since_by, step_at, tick_of, ticks};

/// Of each source at most one is open, and of the boxes no more are in use than there are.
#[tactic(auto, using(crate::proofs::LawLemmas::each_apart, crate::proofs::LawLemmas::all_fit))]
pub fn one_of_each_source()
    ensures one { (own most boxes : ℕ) (E : List Event) → AreApart (after own most boxes E).sessions }
    ensures fit { (own most boxes : ℕ) (E : List Event) → length (after own most boxes E).sessions + length (after own most boxes E).waits ≤ boxes }
{}

/// A frame of one source leaves the session of each other as it is, and what is to be said to it.
#[tactic(auto, using(crate::proofs::LawLemmas::of_another, crate::proofs::LawLemmas::to_another))]
pub fn strangers()
    ensures session { (s : SessionsRecord) (now a : ℕ) (name : Option ℕ) (f : FrameRecord) → source_of f.id ≢ a
        → of a (hears now name f s).sessions ≡ of a s.sessions }
    ensures reply { (s : SessionsRecord) (now a : ℕ) (name : Option ℕ) (f : FrameRecord) → source_of f.id ≢ a
        → reply_to a (hears now name f s).replies ≡ reply_to a s.replies }
{}

/// To its own session a frame does what it does to a receiver that has no other (J1939-21, 5.10.3), where its message has room.
#[tactic(auto, using(crate::proofs::LawLemmas::of_its))]
pub fn as_if_alone()
    ensures { (own most boxes now : ℕ) (name : Option ℕ) (f : FrameRecord) (E : List Event) (o : Option Session) → IsTrue (is_of_session own f)
        → o ≡ of (source_of f.id) (after own most boxes E).sessions
        → of (source_of f.id) (hears now name f (after own most boxes E)).sessions
        ≡ option_map (session_by (since_by now o) (name_by name o)) (step_at own most (has_room (source_of f.id) (after own most boxes E)) f now o).after.session }
{}

/// So does a tick to each of them; and behind it each is at most (n + 3) * 1,250 ms old, of a message of n packets (own).
#[tactic(auto, using(crate::proofs::LawLemmas::ticked_alone, crate::proofs::LawLemmas::not_over))]
pub fn ticks_alone()
    ensures each { (own most boxes now a : ℕ) (E : List Event)
        → of a (after own most boxes (Ticks now ∷ E)).sessions ≡ ticked_of own now (of a (after own most boxes E).sessions) }
    ensures over { (own most boxes now a : ℕ) (E : List Event) (x : Session) → of a (after own most boxes (Ticks now ∷ E)).sessions ≡ Some x
        → now ≤ x.since + longest x.reception.message.packets }
{}

/// Till the soonest limit a tick leaves all as it is. Behind its own limit a session says a CTS or an abort (its first byte is 17 or 255),
/// which waits to be said unless sixteen others do.
pub fn ticks_wait()
    ensures waits { (own most boxes now : ℕ) (E : List Event) → ((m : ℕ) → earliest (after own most boxes E).sessions ≡ Some m → now ≤ m)
        → after own most boxes (Ticks now ∷ E) ≡ after own most boxes E }
    ensures says { (own now : ℕ) (x : Session) → limit_in x < now
        → (y : ToSend) × ((slice_get y.bytes 0 ≡ Some 17) ⊎ (slice_get y.bytes 0 ≡ Some 255)) × ((tick_of own now x).sends ≡ Some y) }
    ensures told { (own most boxes now a : ℕ) (E : List Event) (x : Session) (y : ToSend) → of a (after own most boxes E).sessions ≡ Some x
        → (tick_of own now x).sends ≡ Some y → length (after own most boxes E).replies + length (after own most boxes E).sessions ≤ 16
        → reply_to a (after own most boxes (Ticks now ∷ E)).replies ≡ Some (record { to = a; bytes = y.bytes }) }
{}

/// An end-of-message acknowledgment (J1939-21, 5.10.3.3: its first byte is 19) is said of what a frame makes whole, and of nothing else: so
/// what is acknowledged waits, or was released.
pub fn acknowledged_is_there()
    ensures whole { (own most boxes now : ℕ) (f : FrameRecord) (E : List Event) (m : MessageRecord) → made now f (after own most boxes E) ≡ Some m
        → (x : ToSend) × (said now f (after own most boxes E) ≡ Some x) × (slice_get x.bytes 0 ≡ Some 19) }
    ensures only { (own most boxes now : ℕ) (f : FrameRecord) (E : List Event) (x : ToSend) → said now f (after own most boxes E) ≡ Some x
        → slice_get x.bytes 0 ≡ Some 19 → (m : MessageRecord) × (made now f (after own most boxes E) ≡ Some m) }
{}

/// The messages that were whole are released in their order, each once, or wait, each with the NAME that held its source.
#[tactic(auto, using(crate::proofs::LawLemmas::in_order, crate::proofs::SourceLemmas::paired))]
pub fn in_order()
    ensures paired { (own most boxes : ℕ) (E : List Event) → length (after own most boxes E).senders ≡ length (after own most boxes E).waits }
    ensures order { (own most boxes : ℕ) (E : List Event) → delivered own most boxes E ≡ released own most boxes E ++ (after own most boxes E).waits }
{}

/// A session has its account, and its NAME, from the frame by which its source has one open on: no other in its place has another.
#[tactic(auto, using(crate::proofs::LawLemmas::kept_heard, crate::proofs::LawLemmas::kept_ticked))]
pub fn accounts_run()
    ensures heard { (own most boxes now : ℕ) (name : Option ℕ) (f : FrameRecord) (E : List Event) (x : Session) → IsTrue (is_of_session own f)
        → of (source_of f.id) (hears now name f (after own most boxes E)).sessions ≡ Some x
        → (x.since ≡ since_by now (of (source_of f.id) (after own most boxes E).sessions))
        × (x.name ≡ name_by name (of (source_of f.id) (after own most boxes E).sessions)) }
    ensures ticked { (own now : ℕ) (x y : Session) → session_ticked own now x ≡ Some y → (y.since ≡ x.since) × (y.name ≡ x.name) }
{}

/// What is whole was heard: an RTS of it, from its source to the address, and behind it its packets, in order.
#[tactic(auto, using(crate::proofs::HandedLemmas::was_handed))]
pub fn was_heard()
    ensures { (own most boxes now : ℕ) (name : Option ℕ) (f : FrameRecord) (E : List Event) (m : MessageRecord) → made now f (after own most boxes E) ≡ Some m
        → WasHanded own (heard (Hears now name f ∷ E)) m }
{}

/// Where as many boxes as there are hold sessions of others, or messages that wait, an RTS is refused (abort 2), and nothing else is.
#[tactic(auto, using(crate::proofs::HandedLemmas::refuses))]
pub fn refused_where_full()
    ensures { (own most boxes now size packets asked pgn : ℕ) (name : Option ℕ) (f : FrameRecord) (E : List Event) → is_of_session own f ≡ true
        → said_to own f ≡ Some (RequestToSend size packets asked pgn) → of (source_of f.id) (after own most boxes E).sessions ≡ None
        → nat_lt (length (after own most boxes E).sessions + length (after own most boxes E).waits) boxes ≡ false
        → hears now name f (after own most boxes E)
        ≡ record (after own most boxes E) { replies = replied (source_of f.id) (Some (written own (source_of f.id) (Abort 2 pgn))) (after own most boxes E).replies } }
{}

/// What is sent to it whole is received: where an RTS of s is heard, with none of s open and a box free, and behind it packets 1 to n
/// of s in order, each at most 750 ms (T1) behind the one before, the message is whole at the last. Between them may come any frames of
/// others, those of s that are no sender's, ticks in time, claims by which s has the holder that it had, and all that the program does.
pub fn received()
    ensures { (own most boxes : ℕ) (E later : List Event) (start size n asked pgn last now : ℕ) (name : Option ℕ) (rts f : FrameRecord)
        (joined part : List ℕ) (m : MessageRecord) → of (source_of rts.id) (after own most boxes E).sessions ≡ None
        → has_room (source_of rts.id) (after own most boxes E) ≡ true → said_to own rts ≡ Some (RequestToSend size (suc n) asked pgn)
        → Bring own (source_of rts.id) name start later n joined last → IsPacket own (source_of rts.id) (suc n) last part now f
        → m ≡ record { source = source_of rts.id; pgn = pgn; bytes = take size (joined ++ part) }
        → made now f (after own most boxes (later ++ Hears start name rts ∷ E)) ≡ Some m }
{}

/// Address 11 sends two packets whole, beside an RTS of address 12 that finds no box: so `received` speaks of something.
pub fn an_example()
    ensures opens { (of 11 (after 128 16 1 []).sessions ≡ None) × (has_room 11 (after 128 16 1 []) ≡ true)
        × (said_to 128 requested ≡ Some (RequestToSend 9 2 255 65226)) }
    ensures bring { Bring 128 11 None 1000 between 1 (1 ∷ 2 ∷ 3 ∷ 4 ∷ 5 ∷ 6 ∷ 7 ∷ []) 3000 }
    ensures last { IsPacket 128 11 2 3000 (8 ∷ 9 ∷ 255 ∷ 255 ∷ 255 ∷ 255 ∷ 255 ∷ []) 4000 last_packet }
{}

/// No session has more packets granted at once than may be, nor than its sender takes at once (J1939-21, 5.10.3.2): a CTS, whose second
/// byte tells how many it grants, grants at most as many as may be.
pub fn few_at_once()
    ensures most { (own most boxes : ℕ) (E : List Event) → 1 ≤ most → All (λ x. x.reception.most ≤ most) (after own most boxes E).sessions }
    ensures asked { (own most boxes now size packets asked pgn : ℕ) (name : Option ℕ) (f : FrameRecord) (E : List Event) (x : Session)
        → said_to own f ≡ Some (RequestToSend size packets asked pgn) → 1 ≤ asked → IsTrue (has_room (source_of f.id) (after own most boxes E))
        → of (source_of f.id) (hears now name f (after own most boxes E)).sessions ≡ Some x → x.reception.most ≤ asked }
    ensures grants { (own most boxes now n : ℕ) (f : FrameRecord) (E : List Event) (y : ToSend) → 1 ≤ most → said now f (after own most boxes E) ≡ Some y
        → slice_get y.bytes 0 ≡ Some 17 → slice_get y.bytes 1 ≡ Some n → n ≤ most }
{}
