// What is known of each row in each phase, and the clock entries, in the lent work memory.
#![tactic(auto)]

pub mod entries;
pub mod known;
