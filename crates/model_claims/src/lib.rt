// Theorems on the model of crate model that no code stands on: starts with transactions open, transactions one after the other, what an end tells, anomalies that the
// claim refuses, the claim's words read on small histories, rows that are dear to compute, and, on one page, all that is promised of every list of actions, of the model
// and of code. The crate has definitions and proofs only.
#![tactic(auto)]
