// The lines of text that programs print of netlist files, folds and refusals.
#![tactic(auto)]

pub mod folds;
pub mod refusals;
pub mod rows;
