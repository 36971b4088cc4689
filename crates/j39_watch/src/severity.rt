//! How grave a line is.
ghost use Rattle.std.specs.Prelude.{◌≡◌, ◌++◌};
ghost use Rattle.j39_reports.specs.RowModels.{kept_value};
ghost use Rattle.j39_watch.specs.Watch.{colour_off, colour_on, is_on, line_end, severity_by, severity_in};

use j39_faults::{LampState, Lamps};
use j39_reports::StoredValue;

/// How grave a line is: in its colour, where a screen has some.
#[derive(Clone, Copy, Debug, PartialEq, Eq)]
pub enum Severity {
    /// In none.
    Plain,
    /// In yellow.
    Warning,
    /// In red.
    Stop,
}

impl Severity {
    /// What lamps say: the red one stops, the amber one warns.
    pub(crate) fn by(lamps: Lamps) -> Severity
        ensures { result ≡ severity_by lamps }
    {
        if is_on(lamps.red.state) {
            Severity::Stop
        } else if is_on(lamps.amber.state) {
            Severity::Warning
        } else {
            Severity::Plain
        }
    }

    /// An error warns.
    pub(crate) fn of_value(value: &StoredValue<'_>) -> Severity
        ensures { result ≡ severity_in (kept_value value.now) }
    {
        match value {
            StoredValue::Error => Severity::Warning,
            StoredValue::Number(_, _) => Severity::Plain,
            StoredValue::On => Severity::Plain,
            StoredValue::Off => Severity::Plain,
            StoredValue::Reserved => Severity::Plain,
            StoredValue::Indicator => Severity::Plain,
            StoredValue::Text(_) => Severity::Plain,
        }
    }

    /// What begins its colour.
    pub(crate) fn begin(self) -> &'static [u8]
        ensures { result.now ≡ colour_on self }
    {
        match self {
            Severity::Plain => b"",
            Severity::Warning => b"\x1B[33m",
            Severity::Stop => b"\x1B[31m",
        }
    }

    /// What ends its colour and its line.
    pub(crate) fn end(self) -> &'static [u8]
        ensures { result.now ≡ colour_off self ++ line_end }
    {
        match self {
            Severity::Plain => b"\x1B[K\n",
            Severity::Warning => b"\x1B[0m\x1B[K\n",
            Severity::Stop => b"\x1B[0m\x1B[K\n",
        }
    }
}

fn is_on(state: LampState) -> bool
    ensures { result ≡ is_on state }
{
    match state {
        LampState::On => true,
        LampState::Off => false,
        LampState::Reserved => false,
        LampState::NotAvailable => false,
    }
}
