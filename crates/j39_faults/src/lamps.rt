//! The lamps of a message of faults (J1939-73, 5.7.1).
ghost use Rattle.std.specs.Prelude.{◌≡◌, ◌/◌, ◌%◌};
ghost use Rattle.j39_faults.specs.LampBits.{flash_of, lamp_of, lamps_of, state_of};

/// Whether a lamp is on.
#[derive(Clone, Copy, Debug, PartialEq, Eq)]
pub enum LampState {
    Off,
    On,
    Reserved,
    NotAvailable,
}

/// How a lamp flashes.
#[derive(Clone, Copy, Debug, PartialEq, Eq)]
pub enum Flash {
    /// Once a second.
    Slow,
    /// Twice a second or more.
    Fast,
    Reserved,
    /// It doesn't flash.
    Steady,
}

/// A lamp: whether it is on, and how it flashes.
#[derive(Clone, Copy, Debug, PartialEq, Eq)]
pub struct Lamp {
    pub state: LampState,
    pub flash: Flash,
}

/// The four lamps.
#[derive(Clone, Copy, Debug, PartialEq, Eq)]
pub struct Lamps {
    /// The malfunction indicator lamp, of emissions.
    pub malfunction: Lamp,
    /// The red stop lamp.
    pub red: Lamp,
    /// The amber warning lamp.
    pub amber: Lamp,
    /// The protect lamp.
    pub protect: Lamp,
}

/// The lamps that a payload of DM1 or DM2 tells, in its bytes 1 and 2; `None` where it is shorter.
pub fn lamps_of(payload: &[u8]) -> Option<Lamps>
    ensures { result ≡ lamps_of payload.now }
{
    let states = *payload.first()?;
    let flashes = *payload.get(1)?;
    Some(Lamps {
        malfunction: lamp_of(states / 64, flashes / 64),
        red: lamp_of(states / 16, flashes / 16),
        amber: lamp_of(states / 4, flashes / 4),
        protect: lamp_of(states, flashes),
    })
}

/// A lamp by the two lowest bits of each.
fn lamp_of(state: u8, flash: u8) -> Lamp
    ensures { result ≡ lamp_of (state % 4) (flash % 4) }
{
    Lamp {
        state: state_of(state),
        flash: flash_of(flash),
    }
}

fn state_of(bits: u8) -> LampState
    ensures { result ≡ state_of (bits % 4) }
{
    match bits % 4 {
        0 => LampState::Off,
        1 => LampState::On,
        2 => LampState::Reserved,
        _ => LampState::NotAvailable,
    }
}

fn flash_of(bits: u8) -> Flash
    ensures { result ≡ flash_of (bits % 4) }
{
    match bits % 4 {
        0 => Flash::Slow,
        1 => Flash::Fast,
        2 => Flash::Reserved,
        _ => Flash::Steady,
    }
}
