// Nothing runs here: the crate is its specs/, what it is that an explanation names the cause of an answer, and its proofs/.
#![tactic(auto)]
