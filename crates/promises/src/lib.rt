// What a job of an instance of ISAP or of Spook comes to on its record, between two rounds and at its end, in the papers' words: theorems.
// The crate is its specs/; it has no function.
#![tactic(auto)]
