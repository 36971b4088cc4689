//! A message of codes.
use j39_faults::{Kind, Lamps, Version};
use j39_listen::Heard;

/// A message of codes, and what is known of it.
#[derive(Clone, Copy)]
pub(crate) struct CodeMessage<'h> {
    pub heard: &'h Heard<'h>,
    pub kind: Kind,
    /// By which version of the conversion the SPNs of its controller are read.
    pub version: Option<Version>,
    pub lamps: Lamps,
}
