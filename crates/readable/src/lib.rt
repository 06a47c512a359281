// Theorems about messages that are read and mended; no code.
#![tactic(auto)]
