// Commands on what a netlist does: Run, and Fold with its clocks.
#![tactic(auto)]

pub mod folding;
pub mod running;
