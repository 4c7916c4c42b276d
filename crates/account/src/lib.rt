// Demand 3: one claim over every list of calls from a fresh buffer. It is stated in specs/ and proved in proofs/Claim.antt.
#![tactic(auto)]
