// No code: proofs/ computes jobs of Spook from the definitions of S1P, Clyde-128 and Shadow-512, a record for each round, and compares each
// with the second program's. It stands apart so that a check of the definitions does not pay for it.
#![tactic(auto)]
