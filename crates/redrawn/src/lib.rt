// Outlines drawn from another vertex or in the other direction: definitions in specs/, theorems in proofs/. No code.
#![tactic(auto)]
