// Bounded recursions and their laws, for the proofs of the crates above. There is no code here.
#![tactic(auto)]
