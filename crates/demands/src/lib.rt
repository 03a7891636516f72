#![tactic(auto)]
// The demands of the product as theorems, their statements in specs/, and the worked numbers in proofs/Table. It has no code.
