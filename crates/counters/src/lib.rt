// Why a counter must never repeat: what two sealings under one key and nonce have in common, and two parcels with one counter: theorems.
// The crate is its specs/ and proofs/; it has no function.
#![tactic(auto)]
