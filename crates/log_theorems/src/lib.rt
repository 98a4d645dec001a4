// What holds of the log of a run, by its definition: proofs/. There is no code here.

#![tactic(auto)]
