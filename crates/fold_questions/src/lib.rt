// Fold's questions, 11 to 16: definitions and laws.
#![tactic(auto)]
