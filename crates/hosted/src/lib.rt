// Theorems about the calls from C; no code.
#![tactic(auto)]
