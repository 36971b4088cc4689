//! What the numbers of SAE J1939 are called, whatever table reads the values.
#![tactic(auto)]

ghost use Rattle.std.specs.Prelude.{◌≡◌, option_map};
ghost use Rattle.j39_names.specs.Called.{function_called, group_called, maker_called, parameter_called};

mod functions;
mod groups;
mod makers;
mod name_table;
mod naming;
mod parameters;

pub use naming::{Kind, Named, Naming, function_by, maker_by, own_name};

/// What a parameter is called (J1939-71, J1939-73); `None` where its name isn't known.
pub fn parameter_name(spn: u32) -> Option<&'static [u8]>
    ensures { option_map (λ name. name.now) result ≡ parameter_called spn }
{
    parameters::table().name_of(spn)
}

/// The short name of a group (J1939-21, J1939-71, J1939-73); `None` where it isn't known.
pub fn group_name(pgn: u32) -> Option<&'static [u8]>
    ensures { option_map (λ name. name.now) result ≡ group_called pgn }
{
    groups::table().name_of(pgn)
}

/// What a function of a NAME is called (J1939-81, 4.1.1); `None` where its name isn't known, and from 128 on, where it means
/// another thing in each industry group.
pub fn function_name(function: u8) -> Option<&'static [u8]>
    ensures { option_map (λ name. name.now) result ≡ function_called function }
{
    functions::table().name_of(u32::from(function))
}

/// Who makes a controller, by the manufacturer code of its NAME, 0 to 2,047 (J1939-81, 4.1.1); `None` where that isn't known.
pub fn maker_name(code: u16) -> Option<&'static [u8]>
    ensures { option_map (λ name. name.now) result ≡ maker_called code }
{
    makers::table().name_of(u32::from(code))
}
