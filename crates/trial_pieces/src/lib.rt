// Random numbers, and the pieces that random netlists are made of.
#![tactic(auto)]

pub mod dice;
pub mod pieces;
