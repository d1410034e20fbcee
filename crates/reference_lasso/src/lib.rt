// States, lasso, periods and clock entries of the second folder.
#![tactic(auto)]

pub mod clocks;
pub mod states;
