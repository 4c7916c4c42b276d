// Demand 3 for programs in C, C++ and Rust: every list of exported calls is the plain run. It is stated in specs/ and proved in
// proofs/Claim.antt.
#![tactic(auto)]
