// What is counted and printed, and the memories of the trials.
#![tactic(auto)]

pub mod rooms;
pub mod tally;
