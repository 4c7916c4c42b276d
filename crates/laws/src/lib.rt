#![tactic(auto)]
// Laws on numbers and lists that every proof uses: see proofs/. There is no code here.
