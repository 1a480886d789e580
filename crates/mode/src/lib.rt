// ISAP as the paper has it, ISAP as a row of calls, and that the two are one: definitions and theorems over any parameters.
// The crate is its specs/ and proofs/; it has no function.
#![tactic(auto)]
