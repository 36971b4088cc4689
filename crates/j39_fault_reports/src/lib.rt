//! The faults of a log: their news, and those that are there at its end (J1939-73).
#![tactic(auto)]

pub mod current_faults;
pub mod fault_news;

pub use current_faults::{
    CurrentWanted, LastActive, LastActives, SOURCES, Standing, faults_now, take_heard,
};
pub use fault_news::{
    Choice, FaultCounts, FaultsWanted, Telling, Writing, faults, is_of_fault_group, put_active,
};
