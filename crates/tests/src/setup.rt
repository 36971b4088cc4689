//! What the tests' controllers are made for.
use j39_address::Name;
use j39_frame::Pgn;
use j39_node::Setup;

/// A controller of this NAME and address that serves these groups, subscribes all, and hears one broadcast in packets at a
/// time, and one message in packets to its address, and sends eight.
pub fn setup(name: u64, address: u8, served: &[Pgn]) -> Setup<'_> {
    Setup {
        name: Name::new(name),
        address,
        delay: 0,
        served,
        subscribed: None,
        broadcasts: 1,
        sessions: 1,
        transfers: 8,
        window: 0,
    }
}
