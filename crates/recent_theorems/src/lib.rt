// What holds of the registers of recent capabilities in steps and runs, by their definitions: proofs/. There is no code here.

#![tactic(auto)]
