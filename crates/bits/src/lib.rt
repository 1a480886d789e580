// Binary digits, bytes, and runs of rounds: the crate is its specs/, definitions and the laws that proofs cite, each shown once over
// the width. It has no function.
#![tactic(auto)]
