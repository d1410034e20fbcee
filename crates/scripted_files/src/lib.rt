// The netlist files that a script builds, byte by byte.
#![tactic(auto)]

pub mod build;
pub mod bytes;
pub mod script;
