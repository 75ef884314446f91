#![tactic(auto)]

// The order theory of types: definitions in specs/, theorems in proofs/. It has no code.
