//! Laws about the definitions, each the contract of a function that does nothing.
ghost use Rattle.j39_transport.specs.Liveness.{CompletesLaw, SenderWaitsLaw, ReceiverWaitsLaw};
ghost use Rattle.j39_transport.specs.Liveness.{SenderRestsLaw, ReceiverRestsLaw, SenderLastsLaw, ReceiverLastsLaw, SenderRestsSoonLaw, ReceiverRestsSoonLaw};
ghost use Rattle.j39_transport.specs.Broadcasts.{SendsAllLaw, IsHeardLaw};
ghost use Rattle.j39_transport.specs.Net.{TransfersLaw, TransfersAloneLaw};
ghost use Rattle.j39_transport.specs.AssemblerLaws.{OneMessageLaw, AtPacketLaw, WholeOrNoneLaw, CountsLaw};
ghost use Rattle.j39_transport.specs.Course.{GoesLaw, ReachesLaw, RunsLaw};

/// At a place at most one message is whole.
pub fn one_message()
    ensures { OneMessageLaw }
{}

/// A message is whole at a packet of its own: so it goes where that frame goes.
pub fn at_a_packet()
    ensures { AtPacketLaw }
{}

/// With each frame, after whatever events, a message is whole or none is.
pub fn whole_or_none()
    ensures { WholeOrNoneLaw }
{}

/// How many messages are open, and with how many bytes, is determined by the events: at most 270,
/// with at most 1,785 bytes each.
pub fn counts()
    ensures { CountsLaw }
{}

/// Where packets of a message are missing, each chain from its announcement goes through the
/// message's places, and stops before the first that is missing.
pub fn goes()
    ensures { GoesLaw }
{}

/// Where none is missing there is such a chain.
pub fn reaches()
    ensures { ReachesLaw }
{}

/// A message runs on where some of its frames are near enough to one another, stamps don't go back,
/// and nothing ends it.
pub fn runs()
    ensures { RunsLaw }
{}

/// Over a bus that loses whatever frames, and on which third controllers send whatever frames, the
/// messages of a source that a receiver delivers are a subsequence of those handed to its senders, each
/// at most once, and each whose sender is done is among them. A controller starts its next sender to a
/// receiver when the last one is over and the receiver has no session of it. Where no third sends,
/// these are all the messages that the receiver delivers.
pub fn transfers()
    ensures of_source { TransfersLaw }
    ensures alone { TransfersAloneLaw }
{}

/// On a bus that loses nothing, where there is memory and the receiver is not late in its calls, a
/// message is done and delivered after as many ticks of its sender as it has packets, and one more.
pub fn completes()
    ensures { CompletesLaw }
{}

/// Whatever came before, a sender that hears nothing more, each tick more than 1,250 ms after the one
/// before, is done or has failed after as many ticks as its message has packets, and one more; and a
/// receiver has no session after three. Fewer may not do, of either.
pub fn rests()
    ensures sender { SenderRestsLaw }
    ensures receiver { ReceiverRestsLaw }
    ensures sender_lasts { SenderLastsLaw }
    ensures receiver_lasts { ReceiverLastsLaw }

    // In a loop whose ticks are at most a gap apart: a sender is over 1,250 ms, and a gap for each packet and one more, after
    // one of them. A receiver has no session three times 1,250 ms and a gap after it last heard or said something: 4 s, if the
    // gap is at most 83 ms.
    ensures sender_soon { SenderRestsSoonLaw }
    ensures receiver_soon { ReceiverRestsSoonLaw }
{}

/// A broadcast that is polled at whatever moment first, and then each time when it asks to be, sends all
/// its frames, 50 ms apart. Whatever came before, and whatever comes between them but frames of another
/// broadcast of its source and a forget of that: with the last frame its message is whole.
pub fn broadcasts()
    ensures sends { SendsAllLaw }
    ensures heard { IsHeardLaw }
{}

/// A sender waits 1,250 ms (T3) after its RTS and after the last granted packet, and 1,050 ms (T4) after
/// a CTS of no packets: at a tick later than that it fails. A receiver waits 1,250 ms (T2) after a CTS
/// and 750 ms (T1) after a packet: at a tick later than that it asks again or aborts.
pub fn waits()
    ensures sender { SenderWaitsLaw }
    ensures receiver { ReceiverWaitsLaw }
{}
