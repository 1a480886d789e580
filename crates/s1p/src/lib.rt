// S1P as document 004 has it, S1P as a row of calls, and that the two are one: definitions and theorems over any block cipher and
// permutation, and of Spook, which is S1P with Clyde-128 and Shadow-512. The crate is its specs/ and proofs/; it has no function.
#![tactic(auto)]
