// What holds of argument lists, by their definitions: proofs/. There is no code here.

#![tactic(auto)]
