//! Tests with memory refused. Each stands twice: `.._without_memory` holds with any one allocation refused, and `.._with_memory`
//! only where none is, so that a refusal shows. `tools/refuse_memory` runs them with each allocation refused in turn.
#![tactic(auto)]

#[cfg(test)]
mod assembler;
pub mod fed;
#[cfg(test)]
mod listener;
#[cfg(test)]
mod receiver;
#[cfg(test)]
mod runs;
