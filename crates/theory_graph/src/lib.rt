#![tactic(auto)]

// Graphs, cuts and contractions: definitions in specs/, laws in proofs/. No code.
