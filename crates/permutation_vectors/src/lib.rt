// No code: proofs/ computes known answers from the definitions of the permutations and of Clyde-128, apart from any engine. It stands apart
// so that a check of the engines does not pay for it.
#![tactic(auto)]
