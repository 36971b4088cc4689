//! What a controller is made for.
use j39_address::Name;
use j39_frame::Pgn;

/// What a controller is made for.
#[derive(Clone, Copy)]
pub struct Setup<'a> {
    pub name: Name,
    /// The address that it will claim, 0 to 253.
    pub address: u8,
    /// Its word that it can't claim an address waits for this times 0.6 ms (J1939-81, 4.2.2): a number by chance, so that two that
    /// lose at once don't say it at once.
    pub delay: u8,
    /// The groups whose requests its program answers: at most 16.
    pub served: &'a [Pgn],
    /// The groups that it receives, at most 64, or all where there are none: of others it receives neither frames nor broadcasts
    /// in packets, and misses none.
    pub subscribed: Option<&'a [Pgn]>,
    /// How many broadcasts in packets are heard at once or wait for the program, each of another source, or how many wait of one:
    /// each takes a box of 1.9 kB. With as many as there are others that announce to all, none is missed for want of one.
    pub broadcasts: u8,
    /// How many messages in packets to its address come in at once, one of each source, or wait for the program: each takes a box of
    /// 1.9 kB. Where none is free, another is refused (abort 2; J1939-21, 5.10.3.4).
    pub sessions: u8,
    /// How many messages it sends in packets to others' addresses at once, one to each, or hasn't told to have ended: each takes a box of
    /// 1.9 kB, and a broadcast of its own one of 1.8 kB. With 0 it sends none in packets, to all neither.
    pub transfers: u8,
    /// How many packets it lets a sender send at once (by a CTS; J1939-21, 5.10.3.2); 0 sets no limit. What its driver can't take at
    /// once is lost: 16 is enough for most (own).
    pub window: u8,
}
