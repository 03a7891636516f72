#![tactic(auto)]
// The theory of prefix blocks: see specs/. No code.
