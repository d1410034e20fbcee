// Random netlists, and damage done to their files.
#![tactic(auto)]

pub mod damage;
pub mod netlists;
