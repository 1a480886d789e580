// A scheme: what an algorithm gives that seals and opens round by round, the laws it owes, and what follows from them.
// The crate is its specs/; it has no function.
#![tactic(auto)]
