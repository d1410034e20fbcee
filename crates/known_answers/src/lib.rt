// Known answers as one checked claim; no code.
#![tactic(auto)]
