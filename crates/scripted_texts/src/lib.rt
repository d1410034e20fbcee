// The script of AIGER texts, and what is told of their trials.
#![tactic(auto)]

pub mod script;
pub mod tell;
