//! From where a screen is seen.
ghost use Rattle.std.specs.Prelude.{◌≡◌};
ghost use Rattle.j39_listen.specs.Listening.{holder_of};
ghost use Rattle.j39_watch.specs.Watch.{is_there};

use crate::size::ScreenSize;
use j39_frame::Stamp;
use j39_listen::Listener;
use j39_names::Naming;

/// From where a screen is seen: its names and their table, who holds which address, its moment, and how large it is.
#[derive(Clone, Copy)]
pub(crate) struct View<'v, 't> {
    pub naming: Naming<'v, 't>,
    pub listener: &'v Listener,
    pub now: Stamp,
    pub size: ScreenSize,
}

impl<'v, 't> View<'v, 't> {
    /// Whether a controller is on the bus: its NAME holds its address, or it has none, and nobody does.
    pub fn has(self, address: u8, name: Option<u64>) -> bool
        ensures { result ≡ is_there (holder_of self.entry.listener.now) address name }
    {
        match (name, self.listener.holder(address)) {
            (None, None) => true,
            (None, Some(_)) => false,
            (Some(_), None) => false,
            (Some(name), Some(holder)) => name == holder.raw(),
        }
    }
}
