//! Tests of the crates by their public calls, of what the built program doesn't show; the device that they fail with; and how the
//! parts are called.
#![tactic(auto)]

#[cfg(test)]
mod assemblers;
#[cfg(test)]
mod broadcasts;
#[cfg(test)]
mod claimer;
#[cfg(test)]
mod engine;
#[cfg(test)]
mod engine_answers;
#[cfg(test)]
mod examples;
#[cfg(test)]
mod fault_messages;
#[cfg(test)]
mod kept_answers;
#[cfg(test)]
mod node;
#[cfg(test)]
mod node_address;
#[cfg(test)]
mod node_asks;
#[cfg(test)]
mod node_at_once;
#[cfg(test)]
mod node_clock;
#[cfg(test)]
mod node_flood;
#[cfg(test)]
mod node_hears;
#[cfg(test)]
mod node_receives;
#[cfg(test)]
mod node_session;
#[cfg(test)]
mod node_several;
#[cfg(test)]
mod node_stranger;
#[cfg(test)]
mod node_transfers;
#[cfg(test)]
mod quick_lines;
#[cfg(test)]
mod raw_values;
#[cfg(test)]
mod setup;
#[cfg(test)]
mod several_sessions;
#[cfg(test)]
mod several_transfers;
#[cfg(test)]
mod sizes;
#[cfg(test)]
mod steps;
#[cfg(test)]
mod to_a_name;
#[cfg(test)]
mod told;
#[cfg(test)]
mod transfer_losses;
#[cfg(test)]
mod transfers;
pub mod trial;
