//! What the numbers of SAE J1939 are called, built in.
ghost use Rattle.std.specs.Prelude.{◌≡◌, ◌∷◌, [], ℕ, List, None, Option, IfSome, length, option_map};
ghost use Rattle.j39_faults.specs.Words.{fmi_words};
ghost use Rattle.j39_names.specs.Called.{function_called, group_called, maker_called, parameter_called};
ghost use Rattle.j39_c.specs.Calls.{Answers, FillsFront};
ghost use Rattle.j39_c.specs.Codes.{end, no_room};
ghost use Rattle.j39_c.specs.Readings.{IsNameAnswer, IsTextAnswer};

use crate::reading::copy;
use crate::refusal::Refusal;
use j39_faults::fmi_words;
use j39_names::{function_name, group_name, maker_name, parameter_name};

/// Writes out what a parameter is called, with no zero at its end: its length; -5 where it doesn't fit, -6 where its name isn't
/// known.
#[unsafe(no_mangle)]
pub extern "C" fn j39_parameter_name(spn: u32, text: &mut [u8]) -> i32
    ensures named { IsNameAnswer (parameter_called spn) (length text.old) result text.new }
    ensures answers { Answers (length text.old) (no_room ∷ end ∷ []) result }
    ensures fills { FillsFront result text.old text.new }
{
    put_called(parameter_name(spn), text)
}

/// The same of a group's short name.
#[unsafe(no_mangle)]
pub extern "C" fn j39_group_name(pgn: u32, text: &mut [u8]) -> i32
    ensures named { IsNameAnswer (group_called pgn) (length text.old) result text.new }
    ensures answers { Answers (length text.old) (no_room ∷ end ∷ []) result }
    ensures fills { FillsFront result text.old text.new }
{
    put_called(group_name(pgn), text)
}

/// The same of a function of a NAME.
#[unsafe(no_mangle)]
pub extern "C" fn j39_function_name(function: u8, text: &mut [u8]) -> i32
    ensures named { IsNameAnswer (function_called function) (length text.old) result text.new }
    ensures answers { Answers (length text.old) (no_room ∷ end ∷ []) result }
    ensures fills { FillsFront result text.old text.new }
{
    put_called(function_name(function), text)
}

/// The same of who makes a controller, by the manufacturer code of its NAME.
#[unsafe(no_mangle)]
pub extern "C" fn j39_maker_name(manufacturer: u16, text: &mut [u8]) -> i32
    ensures named { IsNameAnswer (maker_called manufacturer) (length text.old) result text.new }
    ensures answers { Answers (length text.old) (no_room ∷ end ∷ []) result }
    ensures fills { FillsFront result text.old text.new }
{
    put_called(maker_name(manufacturer), text)
}

/// The same of what is wrong by a failure mode identifier (FMI): `reserved` where it says nothing.
#[unsafe(no_mangle)]
pub extern "C" fn j39_failure_name(fmi: u8, text: &mut [u8]) -> i32
    ensures named { IsTextAnswer (length text.old) (fmi_words fmi) result text.new }
    ensures answers { Answers (length text.old) (no_room ∷ []) result }
    ensures fills { FillsFront result text.old text.new }
{
    copy(fmi_words(fmi).as_bytes(), text)
}

/// Writes out a name, and answers its length.
fn put_called(name: Option<&[u8]>, text: &mut [u8]) -> i32
    ensures named { IsNameAnswer (option_map (λ called. called.now) name.entry) (length text.old) result text.new }
    ensures answers { Answers (length text.old) (no_room ∷ end ∷ []) result }
    ensures fills { FillsFront result text.old text.new }
{
    match name {
        Some(name) => copy(name, text),
        None => Refusal::End.code(),
    }
}
