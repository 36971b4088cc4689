//! What the messages of faults say: DM1, the active codes, and its kin (J1939-73).
#![tactic(auto)]

mod change;
mod code;
mod codes;
mod conversion;
mod kind;
mod lamp_names;
mod lamps;
pub mod laws;
mod message;
mod sameness;
mod text;
mod words;

pub use change::{Change, change_since, clearing_by, is_same_fault};
pub use code::{Candidates, Code, Parameter};
pub use codes::{Codes, codes_of};
pub use conversion::{Conversion, Version, code_by, version_for};
pub use kind::{Kind, cleared_in, fault_group};
pub use lamp_names::{LampsText, lamps_text, lamps_told};
pub use lamps::{Flash, Lamp, LampState, Lamps, lamps_of};
pub use message::{FaultsMessage, faults_message};
pub use sameness::tells_same;
pub use text::{
    ClearWord, ParameterWords, State, clear_word, kind_word, parameter_words, state_word,
};
pub use words::fmi_words;
