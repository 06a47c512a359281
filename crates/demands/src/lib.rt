// Nothing runs here: the crate is its specs/, the demands on any implementation of the calls, and its proofs/.
#![tactic(auto)]
