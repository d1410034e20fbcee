// Commands on netlist files: Check, Count, Show, the rows as text and back, Sort, and AIGER text in.
#![tactic(auto)]

mod aiger_causes;
pub mod answers;
pub mod importing;
pub mod make;
pub mod sorting;
