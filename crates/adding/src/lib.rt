// Theorems about tracks that add; no code.
#![tactic(auto)]
