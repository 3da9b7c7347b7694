// Names on edges: definitions in specs/, laws in proofs/. No code.
#![tactic(auto)]
