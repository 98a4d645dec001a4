// Images written and read back, and read and written again, by the definitions: proofs/RoundTrips.antt. There is no code here.

#![tactic(auto)]
