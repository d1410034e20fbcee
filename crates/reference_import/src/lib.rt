// The second sorter and importer.
#![tactic(auto)]

pub mod importing;
pub mod sorting;
