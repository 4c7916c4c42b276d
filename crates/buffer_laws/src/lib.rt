// What the definitions of buffer_state are worth: see proofs/. There is no code here.
#![tactic(auto)]
