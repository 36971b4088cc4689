//! Which faults are there now: what the last message of active codes of each controller names (J1939-73).

pub(crate) mod account;
pub(crate) mod last_active;
pub(crate) mod last_actives;
pub mod laws;
mod lines;
mod run;
mod silence;
pub(crate) mod standing;

pub use account::take_heard;
pub use last_active::LastActive;
pub use last_actives::{LastActives, SOURCES};
pub use run::{CurrentWanted, faults_now};
pub use standing::Standing;
