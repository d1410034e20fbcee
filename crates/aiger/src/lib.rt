// ASCII AIGER: definitions and laws only.
#![tactic(auto)]
