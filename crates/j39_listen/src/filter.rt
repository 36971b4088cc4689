//! Which entries of a report are asked for.
ghost use Rattle.std.specs.Prelude.{◌≡◌, ◌==◌, ◌-◌, ◌^◌, Option, min, nat_le};
ghost use Rattle.std.specs.List.{list_any};
ghost use Rattle.std.specs.Option.{option_map};
ghost use Rattle.j39_address.specs.Name.{name_raw};
ghost use Rattle.j39_frame.specs.Stamp.{stamp_micros};
ghost use Rattle.j39_frame.specs.declared.stamp.Stamp.{Stamp};
ghost use Rattle.j39_listen.specs.Chooses.{has_lists};
ghost use Rattle.j39_listen.specs.Filter.{filter_of, goes_to, is_asked, is_listed, is_name, is_sender, is_since, is_until, moment_micros};

use j39_address::Name;
use j39_frame::Stamp;

/// A sender that is asked for.
#[derive(Clone, Copy, Debug)]
pub enum Sender {
    /// Whoever has this address.
    Address(u8),
    /// The device of this NAME, at whatever address it held when it was heard.
    Named(Name),
}

impl Default for Sender {
    ghost use Rattle.std.specs.Prelude.{◌≡◌};
    ghost use Rattle.j39_listen.specs.declared.filter.Sender.TheVariants.{Address};

    /// The address 0.
    fn default() -> Sender
        ensures { result ≡ Address 0 }
    {
        Sender::Address(0)
    }
}

/// A moment that is asked for.
#[derive(Clone, Copy, Debug)]
pub enum Moment {
    /// That of a stamp of so many microseconds.
    At(u64),
    /// So many microseconds behind the first frame of the bus.
    Behind(u64),
}

/// Which entries of a report are asked for: those that each of its parts takes. A part that isn't given takes all.
#[derive(Clone, Copy, Debug)]
pub struct Filter<'f> {
    /// From one of these senders.
    pub from: Option<&'f [Sender]>,
    /// To one of these addresses; what goes to all, with a destination or none, is taken by 255.
    pub to: Option<&'f [u8]>,
    /// Of one of these groups (PGN).
    pub pgns: Option<&'f [u32]>,
    /// At this moment or later.
    pub since: Option<Moment>,
    /// At this moment or before.
    pub until: Option<Moment>,
}

impl<'f> Filter<'f> {
    /// Takes all.
    pub const ALL: Filter<'static> = Filter {
        from: None,
        to: None,
        pgns: None,
        since: None,
        until: None,
    };

    /// Whether senders, destinations or groups are asked for.
    pub(crate) fn has_lists(&self) -> bool
        ensures { result ≡ has_lists (filter_of self.now) }
    {
        self.from.is_some() || self.to.is_some() || self.pgns.is_some()
    }

    /// Whether this sender, destination and group are asked for.
    #[inline(always)]
    pub(crate) fn is_listed(
        &self,
        address: u8,
        name: Option<Name>,
        destination: Option<u8>,
        pgn: u32,
    ) -> bool
        ensures { result ≡ is_listed (filter_of self.now) address (option_map name_raw name) destination pgn }
    {
        is_from(self.from, address, name) && is_to(self.to, destination) && is_of(self.pgns, pgn)
    }
}

/// Whether this sender is asked for.
#[inline(always)]
pub fn is_from(from: Option<&[Sender]>, address: u8, holder: Option<Name>) -> bool
    ensures { result ≡ is_asked (is_sender address (option_map name_raw holder))
        (option_map (λ senders. senders.now) from.entry) }
{
    match from {
        None => true,
        Some(senders) => is_one_of(senders, address, holder),
    }
}

/// Whether this is one of the senders.
fn is_one_of(senders: &[Sender], address: u8, holder: Option<Name>) -> bool
    ensures { result ≡ list_any (is_sender address (option_map name_raw holder)) senders.now }
{
    senders
        .iter()
        .any(|sender| is_sender(*sender, address, holder))
}

/// Whether a sender at this address, of this NAME or none, is the one that is asked for.
#[inline(always)]
fn is_sender(asked: Sender, address: u8, holder: Option<Name>) -> bool
    ensures { result ≡ is_sender address (option_map name_raw holder) asked }
{
    match asked {
        Sender::Address(asked) => asked == address,
        Sender::Named(asked) => is_name(asked, holder),
    }
}

/// Whether the holder has this NAME.
#[inline(always)]
fn is_name(name: Name, holder: Option<Name>) -> bool
    ensures { result ≡ is_name (name_raw name) (option_map name_raw holder) }
{
    match holder {
        None => false,
        Some(holder) => holder.raw() == name.raw(),
    }
}

/// Whether what goes to this destination is asked for.
#[inline(always)]
fn is_to(to: Option<&[u8]>, destination: Option<u8>) -> bool
    ensures { result ≡ is_asked (λ asked. asked == goes_to destination) (option_map (λ addresses. addresses.now) to.entry) }
{
    match to {
        None => true,
        Some(addresses) => is_address_among(addresses, destination.unwrap_or(255)),
    }
}

fn is_address_among(addresses: &[u8], address: u8) -> bool
    ensures { result ≡ list_any (λ asked. asked == address) addresses.now }
{
    addresses.iter().any(|asked| *asked == address)
}

/// Whether the group is asked for.
#[inline(always)]
fn is_of(pgns: Option<&[u32]>, pgn: u32) -> bool
    ensures { result ≡ is_asked (λ asked. asked == pgn) (option_map (λ pgns. pgns.now) pgns.entry) }
{
    match pgns {
        None => true,
        Some(pgns) => is_group_among(pgns, pgn),
    }
}

fn is_group_among(pgns: &[u32], pgn: u32) -> bool
    ensures { result ≡ list_any (λ asked. asked == pgn) pgns.now }
{
    pgns.iter().any(|asked| *asked == pgn)
}

/// The first stamp that is asked for, in microseconds, where the first frame of the bus has this stamp.
pub(crate) fn first_asked(since: Option<Moment>, first: Stamp) -> u64
    ensures { (stamp : Stamp) → nat_le result (stamp_micros stamp) ≡ is_since (stamp_micros first) (stamp_micros stamp) since }
{
    match since {
        None => 0,
        Some(moment) => micros_of(moment, first),
    }
}

/// The last stamp that is asked for, in microseconds, where the first frame of the bus has this stamp.
pub(crate) fn last_asked(until: Option<Moment>, first: Stamp) -> u64
    ensures { (stamp : Stamp) → nat_le (stamp_micros stamp) result ≡ is_until (stamp_micros first) (stamp_micros stamp) until }
{
    match until {
        None => u64::MAX,
        Some(moment) => micros_of(moment, first),
    }
}

/// The moment in microseconds, if the first frame of the bus has this stamp; one from 2^64 on, which no stamp reaches, is 2^64 - 1.
fn micros_of(moment: Moment, first: Stamp) -> u64
    ensures { result ≡ min (moment_micros (stamp_micros first) moment) (2 ^ 64 - 1) }
{
    match moment {
        Moment::At(micros) => micros,
        Moment::Behind(span) => first.micros().saturating_add(span),
    }
}
