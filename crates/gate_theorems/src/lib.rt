// What holds of gates, by their definitions: proofs/. There is no code here.

#![tactic(auto)]
