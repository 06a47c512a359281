// Nothing runs here: the crate is its specs/, tables of worked calls, and its proofs/, that the definitions give what the tables say.
#![tactic(auto)]
