// Nothing runs here: the crate is its specs/, what the contracts of the entry points allow and what follows of it, and its proofs/.
#![tactic(auto)]
