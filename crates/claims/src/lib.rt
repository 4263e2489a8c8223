// The demands as sentences about the bytes that the C entries take and give, and the starred examples: statements in specs/, proofs in
// proofs/, and no code.
#![tactic(auto)]
