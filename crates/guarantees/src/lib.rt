// Definitions, laws and theorems alone; no code.
#![tactic(auto)]
