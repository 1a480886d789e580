// The instances by their numbers: the scheme of each, and that each is lawful.
// The crate is its specs/; it has no function.
#![tactic(auto)]
