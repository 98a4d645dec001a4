// The readings that the paper marks to be proved: one table, specs/Table.antt, and one proof, proofs/Hold.antt. There is no code here.

#![tactic(auto)]
