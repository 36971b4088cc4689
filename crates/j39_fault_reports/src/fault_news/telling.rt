//! What is told of messages of faults.
use crate::fault_news::form::Writing;
use j39_faults::Conversion;
use j39_listen::Filter;

/// What is told of messages of faults.
#[derive(Clone, Copy, Debug, PartialEq, Eq)]
pub enum Telling {
    /// The codes of those that are news: which tell something else, or under another NAME, than the last message before
    /// of that group from that address, or with none before.
    News,
    /// The codes of each.
    All,
    /// What became of active codes: of each message of DM1 the codes that are set, or came again, since the last of its
    /// controller, and those that are cleared. A controller is known by its NAME, at whichever address, while no other sends DM1
    /// from there; or else by its address, before it has a NAME. Of another one all codes are set.
    Changes,
}

/// What is told of messages of faults, by which versions of the conversion the SPNs of controllers are read, and of which messages
/// it is told.
#[derive(Clone, Copy, Debug)]
pub struct Choice<'c> {
    pub telling: Telling,
    /// The first that is for a controller counts.
    pub conversions: &'c [Conversion],
    /// Which messages are told; what was told before, all of them say. `None` for all.
    pub filter: Option<Filter<'c>>,
}

/// What a run is to tell of messages of faults.
#[derive(Clone, Copy)]
pub struct FaultsWanted<'c, 't> {
    pub writing: Writing<'c, 't>,
    pub choice: Choice<'c>,
}
