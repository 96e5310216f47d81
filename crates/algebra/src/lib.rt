// The mathematics below the library: integers as a ring, finite sums and powers.
// The definitions stand in specs/ and the lemmas in proofs/; no code is needed.
#![tactic(auto)]
