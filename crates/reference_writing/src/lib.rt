// What the second folder writes: gates made, the cone of the outputs, blocks.
#![tactic(auto)]

pub mod cone;
pub mod made;
pub mod writer;
