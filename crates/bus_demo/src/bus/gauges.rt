//! What a controller measures, and the payloads that say it (J1939-71).
ghost use Rattle.std.specs.Prelude.{◌≡◌, ◌<◌, ◌+◌, ◌*◌, ◌-ℤ◌, ℕ, None, Some, pos};
ghost use Rattle.j39_frame.specs.Pgn.{pgn_raw};
ghost use Rattle.j39_groups.specs.Slots.{IsRawOf};
ghost use Rattle.bus_demo.specs.Groups.{number_of, priority_of};
ghost use Rattle.bus_demo.specs.Payloads.{distance_bytes, engine_bytes, temperature_bytes};
ghost use Rattle.bus_demo.specs.Shown.{GoesOn, Shows, ShowsDistance, ShowsEngine, ShowsTemperatures};

use j39_frame::Pgn;
use j39_groups::raw_of;
use rand_core::Rng;
use rand_pcg::Pcg32;

/// A group that is sent again and again.
#[derive(Clone, Copy)]
pub enum Group {
    /// EEC1, with the engine speed.
    Engine,
    /// ET1, with the temperatures of coolant and oil.
    Temperatures,
    /// VD, with the distance of this trip and of all.
    Distance,
}

impl Group {
    /// Its number.
    pub fn pgn(self) -> Pgn
        ensures { pgn_raw result ≡ number_of self }
    {
        match self {
            Group::Engine => Pgn::new(61_444).unwrap(),
            Group::Temperatures => Pgn::new(65_262).unwrap(),
            Group::Distance => Pgn::new(65_248).unwrap(),
        }
    }

    /// The priority that it is sent with.
    pub fn priority(self) -> u8
        ensures { result ≡ priority_of self }
    {
        match self {
            Group::Engine => 3,
            Group::Temperatures => 6,
            Group::Distance => 6,
        }
    }
}

/// A byte that says nothing: its parameter is not available.
const NOTHING: u8 = 0xFF;

/// The gauges of one controller. What they show hangs on the seed alone.
#[derive(Drop)]
pub struct Gauges {
    random: Pcg32,
    /// The distance of this trip, in steps of 125 m.
    steps: u32,
}

impl Gauges {
    /// The gauges of the controller with this number.
    pub fn new(seed: u64, controller: u64) -> Gauges
        ensures { result.steps ≡ 0 }
    {
        Gauges {
            random: Pcg32::new(seed, controller),
            steps: 0,
        }
    }

    /// A number below a limit, which is above 0.
    pub fn below(&mut self, limit: u32) -> u32
        requires { 0 < limit }
        ensures below { result < limit }
        ensures steps { self.new.steps ≡ self.old.steps }
    {
        self.random.next_u32() % limit
    }

    /// What a group's frame says now.
    pub fn payload(&mut self, group: Group) -> Option<[u8; 8]>
        ensures { Shows group self.old.steps self.new.steps result }
    {
        match group {
            Group::Engine => self.engine(),
            Group::Temperatures => self.temperatures(),
            Group::Distance => self.distance(),
        }
    }

    /// EEC1: 600 to 2,400 rpm, in steps of 0.125 rpm.
    fn engine(&mut self) -> Option<[u8; 8]>
        ensures shows { ShowsEngine result }
        ensures steps { self.new.steps ≡ self.old.steps }
    {
        engine_payload(600_000 + 125 * i64::from(self.below(14_401)))
    }

    /// ET1: coolant of -20 to 99 degrees, and oil of 80 to 111 degrees, in steps of 0.03125 degrees.
    fn temperatures(&mut self) -> Option<[u8; 8]>
        ensures shows { ShowsTemperatures result }
        ensures steps { self.new.steps ≡ self.old.steps }
    {
        let coolant = coolant_temperature(self.below(120));
        let oil = oil_temperature(self.below(1_000));
        temperature_payload(coolant, oil)
    }

    /// VD: this trip, which goes on by up to 500 m at a time, and 1,000 km before it.
    fn distance(&mut self) -> Option<[u8; 8]>
        ensures shows { ShowsDistance self.new.steps result }
        ensures goes_on { GoesOn self.old.steps self.new.steps }
    {
        self.steps = self.steps.saturating_add(self.below(5));
        distance_payload(trip_distance(self.steps), total_distance(self.steps))
    }
}

/// The temperature of the coolant so many degrees above -20.
fn coolant_temperature(steps: u32) -> i64
    ensures { result ≡ pos steps -ℤ pos 20 }
{
    i64::from(steps) - 20
}

/// The temperature of the oil so many steps above 80 degrees, in 0.00001 degrees.
fn oil_temperature(steps: u32) -> i64
    ensures { result ≡ pos (8000000 + 3125 * steps) }
{
    8_000_000 + 3_125 * i64::from(steps)
}

/// The distance of a trip of so many steps, in metres.
fn trip_distance(steps: u32) -> i64
    ensures { result ≡ pos (125 * steps) }
{
    125 * i64::from(steps)
}

/// The distance of this trip and of all before it.
fn total_distance(steps: u32) -> i64
    ensures { result ≡ pos (1000000 + 125 * steps) }
{
    1_000_000 + 125 * i64::from(steps)
}

/// EEC1 with this engine speed, in thousandths of an rpm; `None` where no raw number has it.
fn engine_payload(speed: i64) -> Option<[u8; 8]>
    ensures only { (raw : ℕ) → IsRawOf 190 speed raw → result ≡ Some (engine_bytes raw) }
    ensures none { ((raw : ℕ) → IsRawOf 190 speed raw → ⊥) → result ≡ None }
{
    let [low, high, _, _] = raw_of(190, speed)?.to_le_bytes();
    Some([
        NOTHING, NOTHING, NOTHING, low, high, NOTHING, NOTHING, NOTHING,
    ])
}

/// ET1 with these temperatures of coolant, in degrees, and oil, in 0.00001 degrees; `None` where one of
/// them has no raw number.
fn temperature_payload(coolant: i64, oil: i64) -> Option<[u8; 8]>
    ensures only { (raw_coolant raw_oil : ℕ) → IsRawOf 110 coolant raw_coolant → IsRawOf 175 oil raw_oil
        → result ≡ Some (temperature_bytes raw_coolant raw_oil) }
    ensures none { ((raw_coolant raw_oil : ℕ) → IsRawOf 110 coolant raw_coolant → IsRawOf 175 oil raw_oil → ⊥)
        → result ≡ None }
{
    let [coolant, _, _, _] = raw_of(110, coolant)?.to_le_bytes();
    let [low, high, _, _] = raw_of(175, oil)?.to_le_bytes();
    Some([
        coolant, NOTHING, low, high, NOTHING, NOTHING, NOTHING, NOTHING,
    ])
}

/// VD with these distances of the trip and of all, in metres; `None` where one of them has no raw number.
fn distance_payload(trip: i64, total: i64) -> Option<[u8; 8]>
    ensures only { (raw_trip raw_total : ℕ) → IsRawOf 244 trip raw_trip → IsRawOf 245 total raw_total
        → result ≡ Some (distance_bytes raw_trip raw_total) }
    ensures none { ((raw_trip raw_total : ℕ) → IsRawOf 244 trip raw_trip → IsRawOf 245 total raw_total → ⊥)
        → result ≡ None }
{
    let [a, b, c, d] = raw_of(244, trip)?.to_le_bytes();
    let [e, f, g, h] = raw_of(245, total)?.to_le_bytes();
    Some([a, b, c, d, e, f, g, h])
}
