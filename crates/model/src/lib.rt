// No code: specs/ has document 01's steps and demand 3 as definitions over the types of crate records, proofs/ their laws and the theorem.
#![tactic(auto)]
