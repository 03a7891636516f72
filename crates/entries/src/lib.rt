#![tactic(auto)]
// The theory of entries: definitions in specs/, laws in proofs/. It has no code.
