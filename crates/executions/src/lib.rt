// What holds of every step and run, by their definitions: proofs/. There is no code here.

#![tactic(auto)]
