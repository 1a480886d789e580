// What it means to stop an algorithm after n rounds, and what a job stepped round by round is: definitions and laws, for any algorithm.
// The crate is its specs/; it has no function.
#![tactic(auto)]
