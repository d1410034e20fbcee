// The second simulator, and Run's questions.
#![tactic(auto)]

pub mod running;
pub mod steps;
