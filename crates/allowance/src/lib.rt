// Theorems about runs; no code.
#![tactic(auto)]
