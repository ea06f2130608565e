// Sums, counts and sets of process numbers: definitions in specs/, laws in proofs/. No code.
#![tactic(auto)]
