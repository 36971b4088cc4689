//! Tests of runs and of the command line: devices that fail, logs that are too long, an `answer` that reads nothing.
#![tactic(auto)]

#[cfg(test)]
mod run_faults;
